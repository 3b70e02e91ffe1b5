// The bench box as bench24 runs it, with a record of the session (02, #114): `>` before each line that was sent, `<` before each
// answer, as the marker reads it.
//
//     recorder          lines from standard input, the session to standard output
//     recorder FILE     lines from standard input, the answers to standard output, the session to the file
//
// A last line without its newline isn't run, and isn't recorded. Of a line with more than 4,096 bytes, which the box refuses
// whatever they are, the first 4,097 are recorded: it is refused again. What was read is served and written at once. The contracts say
// that nothing goes wrong and that every run ends; that each line and its answer are written is to be read below, and tests/marking
// holds the marker to it.
#![tactic(auto)]

ghost use Rattle.std.specs.Prelude.{◌≡◌, true};
ghost use Rattle.interpreter.specs.State.{possible_state};

use arrayvec::ArrayVec;
use interpreter::server;
use interpreter::state::{ANSWER, STORE, State};
use std::alloc::Global;
use std::env::{Env, FillError};
use std::io::{Read, Write};
use std::rt::Files;
use std::{fs, io, str};

// How many bytes of a line are held: with one more than the box takes a line is refused, whatever follows.
const LONGEST: usize = 4097;

// The room for a line: what is held of it, and its newline.
const HELD: usize = 4098;

// The room that a line and its answer need in the record, with their marks, and the record's.
const ENTRY: usize = 8200;

const BOOK: usize = 65536;

// The buffer for what a read brings.
const CHUNK: usize = 65536;

// The room for a file's name: a longer one names none.
const NAME: usize = 4096;

// The box, the line at hand without its newline, what of the record is still to be written, and where record and answers go. The
// box is a possible one, so no line is refused unheard.
#[derive(Drop)]
struct Recorder<R, A> {
    state: State,
    store: [u8; STORE],
    room: [u8; ANSWER],
    line: ArrayVec<u8, HELD>,
    book: ArrayVec<u8, BOOK>,
    record: R,
    answers: A,
    ghost possible: { possible_state state ≡ true },
}

impl<R: Write + Drop, A: Write + Drop> Recorder<R, A> {
    fn new(record: R, answers: A) -> Recorder<R, A> {
        Recorder {
            state: State::power_up(),
            store: [0; STORE],
            room: [0; ANSWER],
            line: ArrayVec::new(),
            book: ArrayVec::new(),
            record,
            answers,
        }
    }

    // Holds bytes of a line, as far as they count.
    fn hold(&mut self, part: &[u8]) {
        let free = LONGEST.saturating_sub(self.line.len());
        let counting = part.get(..free).unwrap_or(part);
        let _ = self.line.try_extend_from_slice(counting);
    }

    // Runs the line at hand, writes its answer out, and keeps both.
    fn run_line(&mut self) -> io::Result<()> {
        let _ = self.line.try_push(b'\n');
        let served = server::serve(
            self.state,
            &mut self.store,
            self.line.as_slice(),
            &mut self.room,
        );
        self.state = served.state;
        let answer = &self.room[..served.written];
        let written = self.answers.write_all(answer);
        keep(&mut self.book, self.line.as_slice(), answer);
        self.line.clear();
        written
    }

    // Writes the record away. What can't be written is given up.
    fn write_away(&mut self) -> io::Result<()> {
        let written = self.record.write_all(self.book.as_slice());
        self.book.clear();
        written
    }

    // Serves what was read, line by line, and writes the record away where it has no room for one more entry.
    fn serve(&mut self, input: &[u8]) -> io::Result<()> {
        for piece in input.split_inclusive(|byte| *byte == b'\n') {
            let Some(part) = piece.strip_suffix(b"\n") else {
                self.hold(piece);
                return Ok(());
            };
            self.hold(part);
            self.run_line()?;
            if BOOK.saturating_sub(self.book.len()) < ENTRY {
                self.write_away()?;
            }
        }
        Ok(())
    }

    // Serves from power-up until the input ends, or can't be read, or something can't be written. A proved loop has to end: this
    // one does after more reads than any run makes.
    fn run(&mut self, source: &mut impl Read) -> io::Result<()> {
        let mut input = [0u8; CHUNK];
        for _ in 0..u64::MAX {
            let n = source.read(&mut input)?;
            if n == 0 {
                return Ok(());
            }
            let served = self.serve(&input[..n]);
            self.write_away().and(served)?;
        }
        Ok(())
    }
}

// Adds a line and its answer, both with their newlines, to the record, which has room for them.
fn keep(book: &mut ArrayVec<u8, BOOK>, line: &[u8], answer: &[u8]) {
    let _ = book.try_push(b'>');
    let _ = book.try_extend_from_slice(line);
    if !answer.is_empty() {
        let _ = book.try_push(b'<');
        let _ = book.try_extend_from_slice(answer);
    }
}

// Runs the box with its record. A read or a write that fails ends the run, and nothing more is said of it.
fn record(rt: &impl Input, record: impl Write + Drop, answers: impl Write + Drop) {
    let mut recorder = Recorder::new(record, answers);
    let _ = recorder.run(&mut rt.reader());
}

// Takes a file's name as text: to std no other is one. The marker has this and `argument` too (there it says why).
fn path_of(name: &[u8]) -> io::Result<&str> {
    str::from_utf8(name).map_err(|_| io::Error::from(io::ErrorKind::InvalidFilename))
}

// The system's words for an error, without the error's number, which std writes behind them.
fn words_of(text: &str) -> &str {
    match text.split_once(" (os error ") {
        Some((words, _)) => words,
        None => text,
    }
}

// Tells on standard error which file can't be written, and why.
fn fail(errors: &impl Print, alloc: Global, name: &[u8], error: io::Error) -> io::Result<()> {
    let text = format!(in alloc; "{error}")?;
    errors.write_all(name)?;
    println!(errors; ": {}", words_of(text.as_str()))
}

// Gives the argument, if there is one: one that is too long as an empty one.
fn argument<'a>(rt: &impl Env, word: &'a mut [u8; NAME]) -> Option<&'a [u8]> {
    match rt.arg(1, word) {
        Ok(n) => Some(&word[..n]),
        Err(FillError::TooLong) => Some(b""),
        Err(FillError::NotPresent) => None,
    }
}

fn main(rt: HostRuntime) -> io::Result<()> {
    let mut word = [0u8; NAME];
    let Some(name) = argument(&rt, &mut word) else {
        record(&rt, io::writer(&rt), io::sink());
        return Ok(());
    };
    match path_of(name).and_then(|path| fs::create(&rt, path)) {
        Ok(file) => {
            record(&rt, file, io::writer(&rt));
            Ok(())
        }
        Err(e) => fail(&rt.stderr(), rt.alloc(), name, e),
    }
}
