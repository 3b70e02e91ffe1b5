// Marks a saved session: sends its lines to a box from power-up, and finds the first whose recorded answer differs from
// the box's. The session comes in pieces of any cut and is never held: what is sent goes into the box as it comes, and a
// recorded answer is compared, as it comes, with the one that waits in a lent room.
//
//     let mut marker = session::begin();
//     marker = session::feed(marker, &mut store, &mut room, piece);    // for each piece; the store starts as zeros
//     let report = session::finish(marker, &mut store, &mut room);
ghost use Rattle.std.specs.Prelude.{◌≡◌, ◌==◌, ◌≤◌, ◌<◌, length, drop, position};
ghost use Rattle.interpreter.specs.Box.{store_size};
ghost use Rattle.interpreter.specs.FlowParts.{first_line};
ghost use Rattle.writer.specs.Marking.{line_begun, place_sent, possible_marker, Begun, Fed, Finished, report_at};
ghost use Rattle.writer.specs.MarkingParts.{Recorded, Compared, Fits, FedAll};

use interpreter::server;
use interpreter::state::{ANSWER, STORE, State};

// What is found; lines count from 1.
#[derive(Clone, Copy, Debug, PartialEq, Eq)]
pub enum Report {
    // All lines agree, and so many they are.
    Agree {
        lines: usize,
    },
    // A line differs: `line` is the one that was sent, and `shown` the one at which it shows: the recorded answer, or what
    // stands where one is missing, or one after the last. The first `waiting` bytes of the room are then the box's answer with
    // its newline; none where it has none.
    Differs {
        line: usize,
        shown: usize,
        waiting: usize,
    },
    // This line is broken.
    Broken {
        line: usize,
    },
    // The marker is none that `begin` and `feed` left. A case beside the others, for a report is all that a program tells.
    Refused,
}

// At the start of a line; behind `>`; behind `<`, where so many bytes of the answer that waits were found; and stopped for
// good, by a line that differs or by a broken one.
#[derive(Clone, Copy)]
enum Stage {
    Fresh,
    Sending,
    Finding { found: usize },
    Differing,
    Stopped,
}

// Where the marker stands: the stage; how many lines have begun; the last that was sent; and how many bytes its answer has in the
// room until it is found recorded.
#[derive(Clone, Copy)]
pub struct Place {
    stage: Stage,
    number: usize,
    sent: Option<usize>,
    waiting: usize,
}

// The box after what was sent so far, each answer taken, and the place.
#[derive(Clone, Copy)]
pub struct Marker {
    state: State,
    place: Place,
}

// The most lines that may have begun before a piece: half of what a `usize` counts, so that those of any piece can be
// counted too.
const MOST: usize = 1 << 63;

impl Place {
    // Takes in the first byte of a line. A line is sent only once the answer to the one before was found.
    fn begin_line(self, byte: u8) -> Place
        requires { self.number < usize.MAX }
        ensures { result ≡ line_begun self byte }
    {
        let number = self.number + 1;
        let begun = Place { number, ..self };
        match byte {
            b'<' => Place {
                stage: Stage::Finding { found: 0 },
                ..begun
            },
            b'>' if self.waiting == 0 => Place {
                stage: Stage::Sending,
                sent: Some(number),
                ..begun
            },
            b'>' => Place {
                stage: Stage::Differing,
                ..begun
            },
            _ => Place {
                stage: Stage::Stopped,
                ..begun
            },
        }
    }

    // Takes in that a part of a line was sent: at its end its answer waits, if it has one.
    fn send_part(self, waiting: usize, ended: bool) -> Place
        ensures { result ≡ place_sent self waiting ended }
    {
        let stage = if ended { Stage::Fresh } else { self.stage };
        Place {
            stage,
            waiting,
            ..self
        }
    }

    // Takes in a part of a recorded answer, of which so many bytes were found before; it has no more than are left, or one. The box's
    // has to go on with it, and to end where the line ends.
    fn find_part(self, found: usize, room: &[u8], part: &[u8]) -> Place
        requires { Recorded self found room.now part.now }
        ensures { Compared self room.now part.now result }
    {
        let answer = &room[..self.waiting];
        let left = answer.get(found..).unwrap_or(&[]);
        if !left.starts_with(part) {
            return Place {
                stage: Stage::Differing,
                ..self
            };
        }
        let found = found + part.len();
        if !part.contains(&b'\n') {
            Place {
                stage: Stage::Finding { found },
                ..self
            }
        } else if (found == self.waiting) & !part[..part.len() - 1].contains(&b'\n') {
            Place {
                stage: Stage::Fresh,
                waiting: 0,
                ..self
            }
        } else {
            Place {
                stage: Stage::Differing,
                ..self
            }
        }
    }

    // Reads what was found off a place where no line is left open.
    fn report(self) -> Report
        requires { self.number < usize.MAX }
        ensures { result ≡ report_at self }
    {
        let Place {
            stage,
            number,
            sent,
            waiting,
        } = self;
        match stage {
            Stage::Fresh if waiting == 0 => Report::Agree { lines: number },
            // an answer waits, so a line was sent
            Stage::Fresh => Report::Differs {
                line: sent.unwrap_or(0),
                shown: number + 1,
                waiting,
            },
            Stage::Differing => Report::Differs {
                line: sent.unwrap_or(number),
                shown: number,
                waiting,
            },
            Stage::Sending | Stage::Finding { .. } | Stage::Stopped => {
                Report::Broken { line: number }
            }
        }
    }
}

// Gives where bytes have their first newline.
fn newline_in(bytes: &[u8]) -> Option<usize>
    ensures { result ≡ position (λ b. b == 10) bytes.now }
{
    bytes.iter().position(|b| *b == b'\n')
}

// Cuts bytes behind their first newline; all of them are the part where they have none.
fn cut_line(bytes: &[u8]) -> (&[u8], &[u8])
    ensures { (result.0.now ≡ first_line bytes.now) × (result.1.now ≡ drop (length (first_line bytes.now)) bytes.now) }
{
    match newline_in(bytes) {
        Some(at) => bytes.split_at(at + 1),
        None => (bytes, &[]),
    }
}

// Takes in a piece: in each turn the first byte of a line, what is sent up to its newline, or as much of what is recorded as is left to
// find.
fn feed_all(mut marker: Marker, store: &mut [u8], room: &mut [u8], bytes: &[u8]) -> Marker
    requires { Fits marker store.old room.old bytes.now }
    ensures { FedAll marker store.old room.old bytes.now result store.new room.new }
{
    let mut rest = bytes;
    while let [first, behind @ ..] = rest {
        match marker.place.stage {
            Stage::Fresh => {
                marker.place = marker.place.begin_line(*first);
                rest = behind;
            }
            Stage::Sending => {
                let (part, behind) = cut_line(rest);
                let served = server::serve(marker.state, store, part, room);
                marker.state = served.state;
                let ended = part.ends_with(b"\n");
                marker.place = marker.place.send_part(served.written, ended);
                rest = behind;
            }
            Stage::Finding { found } => {
                let left = marker.place.waiting.saturating_sub(found);
                let (part, behind) = rest.split_at(left.clamp(1, rest.len()));
                marker.place = marker.place.find_part(found, room, part);
                rest = behind;
            }
            Stage::Differing | Stage::Stopped => return marker,
        }
    }
    marker
}

// Tells whether a marker is one that `begin` and `feed` can have left: its box is possible and has no answer of its own, the room
// holds the one that waits, and its lines can be counted.
fn possible(marker: Marker, store: &[u8]) -> bool
    requires { length store.now ≡ store_size }
    ensures { result ≡ possible_marker marker }
{
    let Place {
        number,
        waiting,
        ..
    } = marker.place;
    let state = marker.state;
    state.look(store).is_ok() & (state.waiting == 0) & (waiting <= ANSWER) & (number < MOST)
}

// Makes the marker of a session of which nothing has come.
pub fn begin() -> Marker
    ensures { Begun result }
{
    Marker {
        state: State::power_up(),
        place: Place {
            stage: Stage::Fresh,
            number: 0,
            sent: None,
            waiting: 0,
        },
    }
}

// Takes in a piece of a session, of any length. The store is the box's, zeros at the session's start, and the room holds its
// answer: both are lent to every call.
pub fn feed(
    marker: Marker,
    store: &mut [u8; STORE],
    room: &mut [u8; ANSWER],
    bytes: &[u8],
) -> Marker
    ensures { Fed marker store.old room.old bytes.now result store.new room.new }
{
    if !possible(marker, store) {
        return marker;
    }
    feed_all(marker, store, room, bytes)
}

// Ends the session: a last line without its newline counts as one with it.
pub fn finish(marker: Marker, store: &mut [u8; STORE], room: &mut [u8; ANSWER]) -> Report
    ensures { Finished marker store.old room.old result store.new room.new }
{
    if !possible(marker, store) {
        return Report::Refused;
    }
    match marker.place.stage {
        Stage::Sending | Stage::Finding { .. } => {
            feed_all(marker, store, room, b"\n").place.report()
        }
        Stage::Fresh | Stage::Differing | Stage::Stopped => marker.place.report(),
    }
}
