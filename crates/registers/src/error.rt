// The errors that 01 and 02 raise, and their texts.
ghost use Rattle.std.specs.Prelude.{◌≡◌};
ghost use Rattle.registers.specs.Text.{bytes};
ghost use Rattle.registers.specs.Answer.{Laid};
ghost use Rattle.registers.specs.Error.{number_of, event_bit, messages, message_in, error_text};

use crate::answer;

// An error by the text that SCPI-99 gives it, with its number. -350 is not among them: it is put into a full queue
// and never raised.
#[derive(Clone, Copy, PartialEq, Eq)]
pub enum Error {
    InvalidCharacter = 101,
    Syntax = 102,
    DataType = 104,
    ParameterNotAllowed = 108,
    MissingParameter = 109,
    UndefinedHeader = 113,
    HeaderSuffix = 114,
    InvalidCharacterInNumber = 121,
    ExponentTooLarge = 123,
    TooManyDigits = 124,
    InvalidSuffix = 131,
    SuffixNotAllowed = 138,
    InvalidCharacterData = 141,
    StringDataError = 150,
    InvalidStringData = 151,
    SettingsConflict = 221,
    DataOutOfRange = 222,
    TooMuchData = 223,
    SaveRecallMemoryLost = 314,
    InputBufferOverrun = 363,
    QueryInterrupted = 410,
    QueryUnterminated = 420,
    QueryDeadlocked = 430,
}

impl Error {
    // Gives the error's number without its minus, as the queue holds it.
    pub fn number(self) -> u16
        ensures { result ≡ number_of self }
    {
        self as u16
    }
}

// "A raised error sets one event bit by its hundreds", which this tells by comparison.
pub(crate) fn event_bit(number: u16) -> u16
    ensures { result ≡ event_bit number }
{
    if number < 200 {
        32
    } else if number < 300 {
        16
    } else if number < 400 {
        8
    } else {
        4
    }
}

// Gives the text of a number, without the quotes that it stands in. Of a number that has none it is empty, as `error_text` answers it.
fn message(number: u16) -> &'static [u8]
    ensures { result.now ≡ bytes (message_in messages number) }
{
    match number {
        0 => b"No error",
        101 => b"Invalid character",
        102 => b"Syntax error",
        104 => b"Data type error",
        108 => b"Parameter not allowed",
        109 => b"Missing parameter",
        113 => b"Undefined header",
        114 => b"Header suffix out of range",
        121 => b"Invalid character in number",
        123 => b"Exponent too large",
        124 => b"Too many digits",
        131 => b"Invalid suffix",
        138 => b"Suffix not allowed",
        141 => b"Invalid character data",
        150 => b"String data error",
        151 => b"Invalid string data",
        221 => b"Settings conflict",
        222 => b"Data out of range",
        223 => b"Too much data",
        314 => b"Save/recall memory lost",
        350 => b"Queue overflow",
        363 => b"Input buffer overrun",
        410 => b"Query INTERRUPTED",
        420 => b"Query UNTERMINATED",
        430 => b"Query DEADLOCKED",
        _ => b"",
    }
}

// Writes what SYSTem:ERRor? answers for a number of the queue, which holds 222 for -222.
pub fn write_error(number: u16, tail: &mut [u8]) -> usize
    ensures { Laid (error_text number) tail.old result tail.new }
{
    let at = answer::write_whole(-i32::from(number), tail);
    answer::put(tail, at, b',');
    answer::quoted_at(message(number), tail, at + 1)
}
