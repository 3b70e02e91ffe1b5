// The line that answers an event, as it is written.
ghost use Rattle.std.specs.Prelude.{◌≡◌, ◌<◌, map, flat_map};
ghost use Rattle.std.specs.Str.{IsUtf8};
ghost use Rattle.player.specs.ReportParts.{hex_digit, hex_byte};

use arrayvec::ArrayVec;
use interpreter::state;
use interpreter::state::Refusal;
use std::fmt::Display;
use std::io::Write;
use std::{fmt, str};

// The room for a report. The longest are that of a state whose line and answer are full and that of
// take's longest buffer, each of 16,384 hex digits and some more.
const ROOM: usize = 32768;

// How many bytes are written in hex at once. A write for each byte would take most of a run's time.
const PART: usize = 16;

// What the room can't hold is dropped.
#[derive(Drop)]
pub(crate) struct Report {
    bytes: ArrayVec<u8, ROOM>,
}

impl Report {
    pub(crate) fn new() -> Report {
        Report {
            bytes: ArrayVec::new(),
        }
    }

    pub(crate) fn written(&self) -> &[u8] {
        self.bytes.as_slice()
    }

    pub(crate) fn clear(&mut self) {
        self.bytes.clear();
    }

    // Writes a value as it is displayed.
    pub(crate) fn put(&mut self, value: impl Display + Drop) {
        let _ = write!(self.bytes, "{value}");
    }

    // Writes a blank and a value.
    pub(crate) fn field(&mut self, value: impl Display + Drop) {
        let _ = write!(self.bytes, " {value}");
    }

    // Writes a blank and the number of the refusal, 0 where there was none.
    pub(crate) fn outcome<T>(&mut self, outcome: &Result<T, Refusal>) {
        self.field(state::number_of(outcome));
    }
}

// Numbers with commas between, or a dash where there is none.
#[derive(Clone, Copy)]
pub(crate) struct List<'a, T>(pub(crate) &'a [T]);

impl<T: Display> Display for List<'_, T> {
    fn fmt<W: fmt::Write>(&self, f: &mut fmt::Formatter<W>) -> fmt::Result {
        let Some((first, others)) = self.0.split_first() else {
            return write!(f, "-");
        };
        write!(f, "{first}")?;
        for n in others {
            write!(f, ",{n}")?;
        }
        Ok(())
    }
}

// Gives half a byte as a hex digit, in capitals.
fn hex_digit(half: u8) -> u8
    requires { half < 16 }
    ensures { result ≡ hex_digit half }
{
    if half < 10 {
        b'0' + half
    } else {
        b'A' + (half - 10)
    }
}

// Gives a byte as two hex digits.
fn hex_byte(b: u8) -> [u8; 2]
    ensures { result ≡ hex_byte b }
{
    [hex_digit(b / 16), hex_digit(b % 16)]
}

// Gives each byte of a part as two hex digits.
fn hex_part(part: &[u8; PART]) -> [[u8; 2]; PART]
    ensures digits { result ≡ map hex_byte part.now }
    ensures text { IsUtf8 (flat_map hex_byte part.now) }
{
    let mut pairs = [[0; 2]; PART];
    for (i, b) in part.iter().enumerate() {
        pairs[i] = hex_byte(*b);
    }
    pairs
}

// Gives digits as a text, which they always are.
fn text(digits: &[u8]) -> &str
    requires { IsUtf8 digits.now }
    ensures { result.now ≡ digits.now }
{
    str::from_utf8(digits).unwrap_or("")
}

// Bytes in hex, or a dash where there is none.
#[derive(Clone, Copy)]
pub(crate) struct Hex<'a>(pub(crate) &'a [u8]);

impl Display for Hex<'_> {
    ghost use Rattle.std.specs.Prelude.{Some};
    ghost use Rattle.player.specs.ReportParts.{in_hex};

    ghost output = { λ h. Some (in_hex h.0.now) };

    fn fmt<W: fmt::Write>(&self, f: &mut fmt::Formatter<W>) -> fmt::Result {
        if self.0.is_empty() {
            return write!(f, "-");
        }
        let (parts, rest) = self.0.as_chunks::<PART>();
        for part in parts {
            f.write_str(text(hex_part(part).as_flattened()))?;
        }
        for b in rest {
            f.write_str(text(&hex_byte(*b)))?;
        }
        Ok(())
    }
}
