// Plays a history of events from a script on standard input, one event to a line, and writes one
// line for each, so that every event and refusal can be tried from outside. It starts at power-up.
//
//     u               power-up                                 writes u
//     p 564F4C540A    a piece, two hex digits to a byte        p NUMBER COUNT
//     t 16            take into so many bytes (0 to 8192)      t NUMBER LENGTH BUFFER
//     c 5             operation condition, 0 to 65535          c NUMBER
//     k 5             lock condition                           k NUMBER
//     w 5             warning condition                        w NUMBER
//     l               look                                     l NUMBER STATUSBYTE
//     s               the state                                s SETTINGS ESR ESE SRE CONDITION
//                                                                EVENT ENABLE PTR NTR QUEUE
//                                                                OVERLONG LINE ANSWER LOCK WARNING
//     x FIELD VALUE   a field of the raw record overwritten    x
//     S 5119          the next event is lent a store of so     S
//                     many bytes (0 to 8192)
//     b P O V         V (to 255) added, modulo 256, to byte O  b
//                     (to 511) of the store's block P
//     z P             block P (0 to 9) becomes zeros           z
//     m P Q           block P is copied onto block Q           m
//     r               the store's good blocks                  r DIGITS
//
// NUMBER is 0 or the refusal's in 01's table; COUNT that of the piece's newlines; LENGTH the
// answer's, also where the buffer is too short for it. Every byte of take's buffer is AA before.
// SETTINGS are the sixteen in 01's order, SYSTem:EXAM, the text, and channel 2's thirteen in 01's
// order, with commas between (bools 0 and 1, words by their place, numbers in steps, the text in hex,
// as far as its first zero); QUEUE the error numbers, without their minus; OVERLONG 0 or 1; BUFFER,
// LINE and ANSWER hex in capitals; LOCK and WARNING the five registers of each, in the order
// CONDITION EVENT ENABLE PTR NTR. What is empty is `-`. A hand-made length past its array shows the
// whole array.
//
// FIELD is `setting.0` to `setting.29`, of which channel 2's are from `setting.17` on, `error.0` to
// `error.15`, `esr`, `ese`, `sre`, `condition`, `event`, `enable`, `ptr`, `ntr`, `lock_condition` to
// `warning_ntr`, a length: `queued`, `line`, `answer`, or `text`. VALUE is decimal, of a setting also
// with a minus: 32 bits signed for a setting, else 0 to 65535. Of the text it is any 1 to 32 bytes in
// hex, zeros after them, or `-` for none.
//
// The store of saved setups starts as zeros and outlives a power-up. DIGITS are ten, one for each
// block: 1 where *RCL would find it good. Every event but a power-up is lent the store. After `S` the
// next of them, whether refused or not, is lent the store's first bytes, or the store and zeros after
// it; the last `S` before it counts. All other lines leave the mark, and those that name the store
// mean the whole of it.
//
// A line that can't be read is answered by `?` and its number, from 1, and passed over. One blank
// parts the fields; a piece may be empty; hex digits may be small letters; a line has at most
// 131,072 bytes before its newline, and the last may lack the newline.
//
// The contracts here say little: that nothing goes wrong and every run ends. What the reports say is
// held to the twin's, on the stored script (tests/make-player-script) and on random ones.
#![tactic(auto)]

mod event;
mod field;
mod play;
mod report;
mod script;
mod show;
mod store;

use crate::play::Bench;
use crate::report::Report;
use arrayvec::ArrayVec;
use std::io;
use std::io::Read;

// The room for a script line, one byte more than the longest that can be read: a line that fills it was
// too long.
const ROOM: usize = 131073;

// The most bytes of the script that are read at once.
const CHUNK: usize = 65536;

// The box, what is held of the present line, and the number of the last line.
#[derive(Drop)]
struct Player {
    bench: Bench,
    line: ArrayVec<u8, ROOM>,
    lines: u64,
    report: Report,
}

impl Player {
    // Makes the player at power-up, before the first line.
    fn new() -> Player {
        Player {
            bench: Bench::new(),
            line: ArrayVec::new(),
            lines: 0,
            report: Report::new(),
        }
    }

    // Plays the line that is held, unless it was too long.
    fn play_line(&mut self) -> Option<()> {
        if self.line.is_full() {
            return None;
        }
        self.bench.play(self.line.as_slice(), &mut self.report)
    }

    // Plays and answers the line that has ended, and makes room for the next.
    fn end_line(&mut self, rt: &impl Print) -> io::Result<()> {
        self.lines = self.lines.saturating_add(1);
        self.report.clear();
        if self.play_line().is_none() {
            self.report.clear();
            self.report.put('?');
            self.report.field(self.lines);
        }
        self.report.put('\n');
        self.line.clear();
        rt.write_all(self.report.written())
    }

    // Takes in bytes of the script: a newline ends a line, and bytes past a line's room are dropped. Where
    // a report can't be written, the lines after it are played all the same, and the first error is given.
    fn take_in(&mut self, rt: &impl Print, bytes: &[u8]) -> io::Result<()> {
        let mut outcome = Ok(());
        for b in bytes {
            if *b == b'\n' {
                outcome = outcome.and(self.end_line(rt));
            } else {
                let _ = self.line.try_push(*b);
            }
        }
        outcome
    }

    // Plays to the script's end, or to where it can't be read; where a report can't be written, what was
    // read is played, and no more is read. The last line may lack its newline. A proved loop has to end,
    // so it counts its turns, up to a number that no run reaches.
    fn play_all(&mut self, rt: &impl Print, input: &mut impl Read) -> io::Result<()> {
        let mut chunk = [0; CHUNK];
        let mut outcome = Ok(());
        for _ in 0..u64::MAX {
            let n = input.read(&mut chunk).unwrap_or(0);
            if n == 0 {
                break;
            }
            outcome = self.take_in(rt, &chunk[..n]);
            if outcome.is_err() {
                break;
            }
        }
        if self.line.is_empty() {
            return outcome;
        }
        outcome.and(self.end_line(rt))
    }
}

fn main(rt: HostRuntime) {
    let mut player = Player::new();
    let mut input = rt.stdin();
    // the run ends early where a report can't be written, and that is no failure of the box
    let _ = player.play_all(&rt, &mut input);
}
