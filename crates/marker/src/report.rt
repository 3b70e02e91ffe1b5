// What a line of the report says of a session, behind its name: each part of it is a value, with its words.
ghost use Rattle.std.specs.Prelude.{◌≡◌};
ghost use Rattle.marker.specs.Status.{digit_of};

use interpreter::state::ANSWER;
use std::fmt;
use writer::session::Report;

// How many bytes of a text are shown, and how many of a line are looked at: its first byte, and one more than are shown.
const SHOWN: usize = 200;

const LOOKED_AT: usize = 202;

// Bytes of which each can be seen: the others are spelled out.
#[derive(Clone, Copy)]
pub struct Visible<'a>(pub &'a [u8]);

// The first bytes of a text, and two points where there are more.
#[derive(Clone, Copy)]
struct Shortened<'a>(&'a [u8]);

// What was sent, a line's bytes behind `>`.
#[derive(Clone, Copy)]
struct Sent<'a>(&'a [u8]);

// What was recorded, a line's bytes behind `<`. A blank at an end is named: by it an answer differs too, and it can't be seen.
#[derive(Clone, Copy)]
struct Recorded<'a>(&'a [u8]);

// Whether and how a line was answered, by the line at which the difference shows: the recorded answer, or a sent line, or none.
#[derive(Clone, Copy)]
struct Answered<'a>(&'a [u8]);

// What the box answers. Where an answer was recorded twice, it has no more than the first.
#[derive(Clone, Copy)]
enum Answer<'a> {
    Text(&'a [u8]),
    Nothing,
    NothingMore,
}

// Where a session and its box differ: the line that was sent, the line at which it shows, and what the box answers.
#[derive(Clone, Copy)]
struct Difference<'a> {
    line: usize,
    shown: usize,
    answer: Answer<'a>,
    session: Option<&'a [u8]>,
}

// What was found in a session, the room in which its box's answer is, and the session, if all of it is at hand.
#[derive(Clone, Copy)]
pub struct Finding<'a> {
    pub report: Report,
    pub room: &'a [u8; ANSWER],
    pub session: Option<&'a [u8]>,
}

impl fmt::Display for Visible<'_> {
    fn fmt<W: fmt::Write>(&self, f: &mut fmt::Formatter<W>) -> fmt::Result {
        for byte in self.0 {
            match *byte {
                seen @ b' '..=b'~' => f.write_char(char::from(seen))?,
                unseen => write!(f, "\\x{unseen:02x}")?,
            }
        }
        Ok(())
    }
}

impl fmt::Display for Shortened<'_> {
    fn fmt<W: fmt::Write>(&self, f: &mut fmt::Formatter<W>) -> fmt::Result {
        match self.0.get(..SHOWN) {
            Some(first) if SHOWN < self.0.len() => write!(f, "{}..", Visible(first)),
            _ => write!(f, "{}", Visible(self.0)),
        }
    }
}

impl fmt::Display for Sent<'_> {
    fn fmt<W: fmt::Write>(&self, f: &mut fmt::Formatter<W>) -> fmt::Result {
        match self.0 {
            [] | [_] => f.write_str("an empty line"),
            [_, text @ ..] => write!(f, "{}", Shortened(text)),
        }
    }
}

impl fmt::Display for Recorded<'_> {
    fn fmt<W: fmt::Write>(&self, f: &mut fmt::Formatter<W>) -> fmt::Result {
        write!(f, "{}", Sent(self.0))?;
        match self.0 {
            [_, .., b' '] => f.write_str(" with a blank after it"),
            [_, b' ', ..] => f.write_str(" with a blank before it"),
            _ => Ok(()),
        }
    }
}

impl fmt::Display for Answered<'_> {
    fn fmt<W: fmt::Write>(&self, f: &mut fmt::Formatter<W>) -> fmt::Result {
        match self.0 {
            [b'<'] => f.write_str("has an empty answer recorded"),
            [b'<', ..] => write!(f, "was answered {}", Recorded(self.0)),
            _ => f.write_str("was not answered"),
        }
    }
}

impl fmt::Display for Answer<'_> {
    fn fmt<W: fmt::Write>(&self, f: &mut fmt::Formatter<W>) -> fmt::Result {
        match *self {
            Answer::Text(text) => write!(f, "the box answers {}", Shortened(text)),
            Answer::Nothing => f.write_str("the box answers nothing"),
            Answer::NothingMore => f.write_str("the box answers nothing more"),
        }
    }
}

// Gives a line of a session by its number, which counts from 1, as far as it is looked at; no byte where there is no such line.
fn line_at(session: &[u8], number: usize) -> &[u8] {
    let line = number
        .checked_sub(1)
        .and_then(|before| session.split(|byte| *byte == b'\n').nth(before))
        .unwrap_or_default();
    line.get(..LOOKED_AT).unwrap_or(line)
}

// Gives the box's answer out of its room, without its newline.
fn answer_of(room: &[u8], line: usize, shown: usize, waiting: usize) -> Answer<'_> {
    match waiting.checked_sub(1) {
        Some(end) => Answer::Text(room.get(..end).unwrap_or_default()),
        None if shown.saturating_sub(line) > 1 => Answer::NothingMore,
        None => Answer::Nothing,
    }
}

impl fmt::Display for Difference<'_> {
    fn fmt<W: fmt::Write>(&self, f: &mut fmt::Formatter<W>) -> fmt::Result {
        let answer = self.answer;
        write!(f, "line {}: ", self.line)?;
        let Some(session) = self.session else {
            return write!(f, "its answer differs, {answer}");
        };
        let shown = line_at(session, self.shown);
        if self.line == self.shown {
            let first = Recorded(shown);
            return write!(
                f,
                "{first} is recorded as an answer before anything was sent"
            );
        }
        let sent = Sent(line_at(session, self.line));
        write!(f, "{sent} {}, {answer}", Answered(shown))
    }
}

impl Finding<'_> {
    // Tells it in one digit, as the head of main.rt lists them.
    pub fn status(&self) -> u8
        ensures { result ≡ digit_of self.now.report }
    {
        match self.report {
            Report::Agree { .. } => 0,
            Report::Differs { .. } => 1,
            Report::Broken { .. } | Report::Refused => 2,
        }
    }
}

impl fmt::Display for Finding<'_> {
    fn fmt<W: fmt::Write>(&self, f: &mut fmt::Formatter<W>) -> fmt::Result {
        let room = self.room;
        let session = self.session;
        match self.report {
            Report::Agree { lines: 1 } => f.write_str("the one line agrees"),
            Report::Agree { lines } => write!(f, "all {lines} lines agree"),
            Report::Differs {
                line,
                shown,
                waiting,
            } => {
                let answer = answer_of(room, line, shown, waiting);
                let difference = Difference {
                    line,
                    shown,
                    answer,
                    session,
                };
                write!(f, "{difference}")
            }
            Report::Broken { line } => match session.map(|session| line_at(session, line)) {
                None => write!(f, "line {line} is broken"),
                Some([]) => write!(f, "line {line} is broken: it is empty"),
                Some(_) => write!(
                    f,
                    "line {line} is broken: it begins neither with > nor with <"
                ),
            },
            Report::Refused => f.write_str("has too many lines"),
        }
    }
}
