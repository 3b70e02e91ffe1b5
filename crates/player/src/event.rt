// Plays an event that is lent the store, and writes what its report has after the letter.
use crate::report::{Hex, Report};
use crate::script;
use interpreter::state::{Refusal, State};
use registers::status::RegisterSet;

// The longest buffer that take is lent.
const BUFFER: usize = 8192;

// What each byte of that buffer is before.
const UNTOUCHED: u8 = 0xAA;

// The room for a piece: half of that for a line, since two hex digits spell a byte.
const PIECE: usize = 65536;

// Every event but a power-up. A piece is still in hex digits.
#[derive(Clone, Copy)]
pub(crate) enum Event<'a> {
    Piece(&'a [u8]),
    Take(usize),
    Condition(RegisterSet, u16),
    Look,
}

// Gives the set whose condition an event of this letter reports. No TryFrom: the letters are the script's alone.
fn set_of(letter: u8) -> Option<RegisterSet> {
    match letter {
        b'c' => Some(RegisterSet::Operation),
        b'k' => Some(RegisterSet::Lock),
        b'w' => Some(RegisterSet::Warning),
        _ => None,
    }
}

impl<'a> Event<'a> {
    // Reads the event that a letter names and a text describes.
    pub(crate) fn read(letter: u8, text: &'a [u8]) -> Option<Event<'a>> {
        match letter {
            b'p' => Some(Event::Piece(text)),
            b't' => Some(Event::Take(script::number(text)?)),
            _ => Some(Event::Condition(set_of(letter)?, script::number(text)?)),
        }
    }

    // Plays the event, if its digits can be read and its buffer is not too long.
    pub(crate) fn play(
        self,
        state: &mut State,
        store: &mut [u8],
        report: &mut Report,
    ) -> Option<()> {
        match self {
            Event::Piece(digits) => receive(state, store, digits, report)?,
            Event::Take(length) => take(state, store, length, report)?,
            Event::Condition(set, value) => condition(state, store, set, value, report),
            Event::Look => look(state, store, report),
        }
        Some(())
    }
}

// Plays the piece that hex digits spell, and reports how many newlines it had.
fn receive(state: &mut State, store: &mut [u8], digits: &[u8], report: &mut Report) -> Option<()> {
    let mut bytes = [0; PIECE];
    let piece = script::unhex(digits, &mut bytes)?;
    let fed = state.piece(store, piece);
    report.outcome(&fed.count);
    report.field(fed.count.unwrap_or(0));
    *state = fed.state;
    Some(())
}

// Plays a take into a buffer of a length. It reports the answer's length, also where the buffer is too
// short for it, and all of the buffer, so that a byte that was touched shows.
fn take(state: &mut State, store: &[u8], length: usize, report: &mut Report) -> Option<()> {
    let mut bytes = [UNTOUCHED; BUFFER];
    let buffer = bytes.get_mut(..length)?;
    let taken = state.take(store, buffer);
    report.outcome(&taken.length);
    report.field(match taken.length {
        Ok(length) | Err(Refusal::BufferTooShort { needed: length }) => length,
        Err(_) => 0,
    });
    report.field(Hex(buffer));
    *state = taken.state;
    Some(())
}

// Plays the report of a set's condition.
fn condition(state: &mut State, store: &[u8], set: RegisterSet, value: u16, report: &mut Report) {
    let reported = state.condition(store, set, value);
    report.outcome(&reported.outcome);
    *state = reported.state;
}

// Plays a look, and reports the status byte.
fn look(state: &State, store: &[u8], report: &mut Report) {
    let byte = state.look(store);
    report.outcome(&byte);
    report.field(byte.unwrap_or(0));
}
