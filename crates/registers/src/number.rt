// Check 6: the number that a parameter starts with, exactly, scaled by the suffix after it.
ghost use Rattle.std.specs.Prelude.{◌≡◌, ◌-◌, ◌^◌, ◌≤◌, ◌<◌, length};
ghost use Rattle.registers.specs.Error.{meant};
ghost use Rattle.registers.specs.Number.{number};
ghost use Rattle.registers.specs.NumberParts.{held, DigitsRead, MantissaRead, ExponentRead, value_read};

use crate::error::Error;
use crate::suffix::{Power, Quantity};
use crate::{suffix, text};

// A number's exact value: its digits, times 10 to the power up, over 10 to the power down.
#[derive(Clone, Copy)]
pub struct Decimal {
    pub minus: bool,
    pub digits: u64,
    pub up: u32,
    pub down: u64,
}

// Digits as a number, held, and where they end.
#[derive(Clone, Copy)]
struct Digits {
    value: u64,
    end: usize,
}

// The digits before and after the point as one number, how many they are, how many of them stand after the point,
// and where they end.
#[derive(Clone, Copy)]
struct Mantissa {
    value: u64,
    count: usize,
    places: usize,
    end: usize,
}

// Whether the exponent's sign is a minus, its size, held, and where it ends.
#[derive(Clone, Copy)]
struct Exponent {
    lowers: bool,
    size: u64,
    end: usize,
}

// Digits are counted up to the first number that has thirteen of them: -124 and -123 need no more,
// and so nothing wraps however many digits a line holds.
const HELD: u64 = 1_000_000_000_000;

// The largest size of an exponent.
const MOST_EXPONENT: u64 = 9;

// Reads the digits at a place. They go on from the number `from`, as a fraction's do from the whole.
fn read_digits(text: &[u8], at: usize, from: u64) -> Digits
    requires { (at ≤ length text.now) × (from ≤ held) }
    ensures { DigitsRead text.now at from result }
{
    let mut value = from;
    for i in at..text.len() {
        let b = text[i];
        if !text::is_digit(b) {
            return Digits { value, end: i };
        }
        value = (value * 10 + u64::from(b - b'0')).min(HELD);
    }
    Digits {
        value,
        end: text.len(),
    }
}

// Reads digits with an optional point, and counts those after it: each lowers the value by ten.
fn read_mantissa(text: &[u8], at: usize) -> Mantissa
    requires { at ≤ length text.now }
    ensures { MantissaRead text.now at result }
{
    let whole = read_digits(text, at, 0);
    let point = whole.end;
    if text::byte_at(text, point) != b'.' {
        return Mantissa {
            value: whole.value,
            count: point - at,
            places: 0,
            end: point,
        };
    }
    let all = read_digits(text, point + 1, whole.value);
    Mantissa {
        value: all.value,
        count: all.end - at - 1,
        places: all.end - point - 1,
        end: all.end,
    }
}

// Reads an exponent. `E` without a digit is none, and is left to the suffix.
fn read_exponent(text: &[u8], at: usize) -> Exponent
    requires { at ≤ length text.now }
    ensures { ExponentRead text.now at result }
{
    // no Option: a missing exponent is the exponent 0, and ends where it would begin
    let none = Exponent {
        lowers: false,
        size: 0,
        end: at,
    };
    let e = text::in_capitals(text::byte_at(text, at));
    if e != b'E' {
        return none;
    }
    let sign = text::byte_at(text, at + 1);
    let s = at + 1 + ((sign == b'+') | (sign == b'-')) as usize;
    let d = read_digits(text, s, 0);
    if d.end == s {
        return none;
    }
    Exponent {
        lowers: sign == b'-',
        size: d.value,
        end: d.end,
    }
}

// Ends check 6: -124 for too many digits, then -123 for too large an exponent, then the exact value,
// scaled by the suffix.
fn value_of(
    minus: bool,
    mantissa: Mantissa,
    exponent: Exponent,
    power: Power,
) -> Result<Decimal, Error>
    requires { mantissa.places < 2 ^ 63 }
    ensures { meant result ≡ value_read minus mantissa exponent power }
{
    let digits = mantissa.value;
    if HELD <= digits {
        return Err(Error::TooManyDigits);
    }
    let size = exponent.size;
    if MOST_EXPONENT < size {
        return Err(Error::ExponentTooLarge);
    }
    let places = mantissa.places as u64;
    let up = u32::from(power.up);
    let down = u64::from(power.down);
    if exponent.lowers {
        return Ok(Decimal {
            minus,
            digits,
            up,
            down: places + size + down,
        });
    }
    Ok(Decimal {
        minus,
        digits,
        up: size.saturating_sub(places) as u32 + up,
        down: places.saturating_sub(size) + down,
    })
}

// Reads a parameter that starts with a digit, a sign or a point, for a row of some quantity.
pub fn read(text: &[u8], quantity: Quantity) -> Result<Decimal, Error>
    ensures { meant result ≡ number quantity text.now }
{
    let sign = text::byte_at(text, 0);
    let mantissa = read_mantissa(text, ((sign == b'+') | (sign == b'-')) as usize);
    if mantissa.count == 0 {
        return Err(Error::InvalidCharacterInNumber);
    }
    let exponent = read_exponent(text, mantissa.end);
    let power = suffix::read(text, text::white_end(text, exponent.end), quantity)?;
    value_of(sign == b'-', mantissa, exponent, power)
}
