// Writes the lines that lead from the present settings of a channel to the wanted ones: one for each that differs, with range
// and voltage in an order that is never refused.
ghost use Rattle.std.specs.Prelude.{◌≡◌, true, ℕ, List, [], ◌++◌, ◌+◌, ◌≤◌, ◌<◌, length, take, map};
ghost use Rattle.std.specs.Borrow.{Bor};
ghost use Rattle.registers.specs.Text.{Text};
ghost use Rattle.registers.specs.Label.{held_in, quoted_text};
ghost use Rattle.registers.specs.Settings.{count, kind_of, possible_settings, answer_of};
ghost use Rattle.interpreter.specs.Events.{result_of};
ghost use Rattle.writer.specs.Lines.{refusal_number, number_of, length_of, header_for, line_for, line_at, row_at, slot_of, label_for, lines_for, copied, written};
ghost use Rattle.writer.specs.LinesParts.{headers_to, channel_number, named, Value, Worded, most_value, most_quoted, most_one_line};

use registers::label::TEXT;
use registers::settings::{Settings, Values};
use registers::{answer, label};
use std::marker::Model;

// Why nothing was written. A buffer that is too short is told the length that it needs.
#[derive(Clone, Copy, Debug, PartialEq, Eq)]
pub enum Refusal {
    NotWritable,
    BufferTooShort { needed: usize },
}

impl Refusal {
    // Gives the refusal's number in 02. By a match, as one case holds a length.
    pub fn number(self) -> u8
        ensures { result ≡ refusal_number self }
    {
        match self {
            Refusal::NotWritable => 6,
            Refusal::BufferTooShort { .. } => 7,
        }
    }
}

// Gives the number of what `write` gave: 0, or the refusal's. `state::number_of` says it of another enum; a trait for the two would be more to read.
pub fn number_of(written: Result<usize, Refusal>) -> u8
    ensures { result ≡ number_of written }
{
    match written {
        Ok(_) => 0,
        Err(refusal) => refusal.number(),
    }
}

// The two channels (02, #111).
#[derive(Clone, Copy)]
enum Channel {
    First,
    Second,
}

impl TryFrom<u8> for Channel {
    type Error = Refusal;

    ghost try_from_gives = { λ n r. r ≡ named n };

    fn try_from(number: u8) -> Result<Channel, Refusal> {
        match number {
            1 => Ok(Channel::First),
            2 => Ok(Channel::Second),
            _ => Err(Refusal::NotWritable),
        }
    }
}

// The monitor mode's row, and the first after those of a channel.
const MONITOR: usize = 3;

const BRIGHTNESS: usize = 14;

impl Channel {
    // Gives a row's slot on the channel; a single setting has the same on both. The interpreter has the same rows of suffixes, and the words
    // below, in rooms that are not seen from here (02, #114).
    fn slot_of(self, row: usize) -> usize
        ensures { result ≡ slot_of (channel_number self) row }
    {
        match self {
            Channel::First => row,
            Channel::Second if row < MONITOR => row + Settings::ROWS,
            Channel::Second if (MONITOR < row) & (row < BRIGHTNESS) => row + (Settings::ROWS - 1),
            Channel::Second => row,
        }
    }
}

// Gives the row that comes at a place: to range R24V the range comes before the voltage.
fn row_at(wide: bool, place: usize) -> usize
    ensures { result ≡ row_at wide place }
{
    match place {
        Settings::VOLTAGE if wide => Settings::RANGE,
        Settings::RANGE if wide => Settings::VOLTAGE,
        _ => place,
    }
}

// Gives each setting's header: the short forms of its names.
fn headers() -> &'static [&'static [u8]; Settings::COUNT]
    ensures { map (λ (r : Bor Text). r.now) result.now ≡ headers_to count }
{
    &[
        b"OUTP",
        b"OUTP:PON",
        b"OUTP:REL",
        b"OUTP:MON:MODE",
        b"VOLT",
        b"VOLT:RANG",
        b"FREQ",
        b"CURR:LIM:RMS",
        b"CURR:LIM:RMS:MODE",
        b"CURR:LIM:PEAK:MODE",
        b"CURR:LIM:RMS:TIME",
        b"CURR:LIM:PEAK:TIME",
        b"CURR:LIM:PEAK:HIGH",
        b"CURR:LIM:PEAK:LOW",
        b"DISP:BRIG",
        b"SYST:KLOC",
        b"SYST:EXAM",
        b"OUTP2",
        b"OUTP2:PON",
        b"OUTP2:REL",
        b"VOLT2",
        b"VOLT2:RANG",
        b"FREQ2",
        b"CURR2:LIM:RMS",
        b"CURR2:LIM:RMS:MODE",
        b"CURR2:LIM:PEAK:MODE",
        b"CURR2:LIM:RMS:TIME",
        b"CURR2:LIM:PEAK:TIME",
        b"CURR2:LIM:PEAK:HIGH",
        b"CURR2:LIM:PEAK:LOW",
    ]
}

fn header_of(slot: usize) -> &'static [u8]
    requires { slot < count }
    ensures { result.now ≡ header_for slot }
{
    headers()[slot]
}

// Gives the word of a setting whose values are words.
fn word_of(slot: usize, value: i32) -> &'static [u8]
    requires { Worded slot value }
    ensures { result.now ≡ answer_of (kind_of slot) value }
{
    match slot {
        MONITOR => match value {
            0 => b"CURR",
            1 => b"SCUR",
            _ => b"VOLT",
        },
        Settings::RANGE | Settings::RANGE_2 => match value {
            0 => b"R12V",
            _ => b"R24V",
        },
        _ => match value {
            0 => b"CONT",
            _ => b"OFF",
        },
    }
}

// The room for all lines.
const ROOM: usize = 1024;

// Lines, as far as they are written. A contract sees their text. An array and a length, as nothing is allocated; each push asks for its
// room, since how much is left goes by the lines before it.
#[derive(Drop)]
struct Draft {
    bytes: [u8; ROOM],
    end: usize,
}

impl Model for Draft {
    ghost Value = { List ℕ };

    ghost view = { λ d. take d.end d.bytes };

    ghost invariant = { λ d. d.end ≤ length d.bytes };
}

impl Draft {
    fn new() -> Draft
        ensures { result ≡ [] }
    {
        Draft {
            bytes: [0; ROOM],
            end: 0,
        }
    }

    fn push(&mut self, text: &[u8])
        requires { length self.old + length text.now ≤ ROOM }
        ensures { self.new ≡ self.old ++ text.now }
    {
        self.end += answer::write_text(text, &mut self.bytes[self.end..]);
    }

    // Appends a setting's value as its query answers it.
    fn push_value(&mut self, slot: usize, value: i32)
        requires { Value slot value × (length self.old + most_value ≤ ROOM) }
        ensures { self.new ≡ self.old ++ answer_of (kind_of slot) value }
    {
        match Settings::values_of(slot) {
            Values::Word => self.push(word_of(slot, value)),
            Values::Tenths => {
                self.end += answer::write_tenths(value, &mut self.bytes[self.end..]);
            }
            Values::Whole | Values::Bool => {
                self.end += answer::write_whole(value, &mut self.bytes[self.end..]);
            }
        }
    }

    // Appends a setting's line.
    fn push_line(&mut self, slot: usize, value: i32)
        requires { Value slot value × (length self.old + most_one_line ≤ ROOM) }
        ensures { self.new ≡ self.old ++ line_for slot value }
    {
        self.push(header_of(slot));
        self.push(b" ");
        self.push_value(slot, value);
        self.push(b"\n");
    }

    // Appends a text in its quotes.
    fn push_quoted(&mut self, text: &[u8; TEXT])
        requires { length self.old + most_quoted ≤ ROOM }
        ensures { self.new ≡ self.old ++ quoted_text (held_in text.now) }
    {
        self.end += label::write_label(text, &mut self.bytes[self.end..]);
    }

    // Appends the line of the display's text.
    fn push_label(&mut self, text: &[u8; TEXT])
        requires { length self.old + most_one_line ≤ ROOM }
        ensures { self.new ≡ self.old ++ label_for (held_in text.now) }
    {
        self.push(b"DISP:TEXT ");
        self.push_quoted(text);
        self.push(b"\n");
    }

    // Appends the line of a slot, if it differs. Only this function and `of` take both settings: a struct for the pair would
    // be no plainer.
    fn push_row(&mut self, present: Settings, wanted: Settings, slot: usize)
        requires { (slot < count) × (possible_settings wanted ≡ true) × (length self.old + most_one_line ≤ ROOM) }
        ensures { self.new ≡ self.old ++ line_at present wanted slot }
    {
        let value = wanted.value(slot);
        if present.value(slot) != value {
            self.push_line(slot, value);
        }
    }

    // Makes the lines of all settings of a channel that differ.
    fn of(present: Settings, wanted: Settings, channel: Channel) -> Draft
        requires { possible_settings wanted ≡ true }
        ensures { result ≡ lines_for present wanted (channel_number channel) }
    {
        let mut draft = Draft::new();
        let wide = 1 <= wanted.value(channel.slot_of(Settings::RANGE));
        for place in 0..Settings::ROWS {
            let slot = channel.slot_of(row_at(wide, place));
            draft.push_row(present, wanted, slot);
        }
        if present.text != wanted.text {
            draft.push_label(&wanted.text);
        }
        draft
    }

    // Copies the lines into a buffer, if it has room for all of them.
    fn copy_to(&self, buffer: &mut [u8]) -> Result<usize, Refusal>
        ensures { result_of (number_of result) (length_of result) buffer.new ≡ copied self.now buffer.old }
    {
        let n = self.end;
        if buffer.len() < n {
            return Err(Refusal::BufferTooShort { needed: n });
        }
        buffer[..n].copy_from_slice(&self.bytes[..n]);
        Ok(n)
    }
}

// Writes the lines into the buffer, if it has room for all of them, and gives their length; a refusal leaves it as it was.
// Number 6 tests both whole records, the settings of the other channel too, though they get no line: a record that breaks a
// limit anywhere is no box's.
pub fn write(
    present: Settings,
    wanted: Settings,
    channel: u8,
    buffer: &mut [u8],
) -> Result<usize, Refusal>
    ensures { result_of (number_of result) (length_of result) buffer.new ≡ written present wanted channel buffer.old }
{
    let channel = Channel::try_from(channel)?;
    let here = present.value(Settings::EXAM);
    let there = wanted.value(Settings::EXAM);
    let good = present.possible() & wanted.possible();
    if !good | (here != there) {
        return Err(Refusal::NotWritable);
    }
    Draft::of(present, wanted, channel).copy_to(buffer)
}
