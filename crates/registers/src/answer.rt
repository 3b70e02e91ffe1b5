// What answers are made of, each written over the start of a lent tail. A writer's result is the
// length of its text; a tail that is shorter gets as much of the text as it holds: `Laid` promises both, which no Display does. A writer
// within a tail has a place below `farthest`, so that no sum wraps; a type for such a place would be taken apart at each byte.
ghost use Rattle.std.specs.Prelude.{◌≡◌, ◌≤◌, ◌<◌, set};
ghost use Rattle.registers.specs.Answer.{decimal, tenths, signed_text, Laid};
ghost use Rattle.registers.specs.AnswerParts.{farthest, LaidAt, sign_text};
ghost use Rattle.registers.specs.Label.{quoted_text};

// Writes one byte; a place past the end is left out, since a tail may be shorter than its text.
pub(crate) fn put(tail: &mut [u8], at: usize, b: u8)
    ensures { tail.new ≡ set tail.old at b }
{
    // no `get_mut`: std doesn't say there what the slice's other bytes are
    if at < tail.len() {
        tail[at] = b;
    }
}

// Writes a text at a place of the tail, and gives where it ends, so that the next can follow it.
pub(crate) fn text_at(text: &[u8], tail: &mut [u8], at: usize) -> usize
    requires { at ≤ farthest }
    ensures { LaidAt at text.now tail.old result tail.new }
{
    for (i, b) in text.iter().enumerate() {
        put(tail, at + i, *b);
    }
    at + text.len()
}

// Writes a text in double quotes.
pub(crate) fn quoted_at(text: &[u8], tail: &mut [u8], at: usize) -> usize
    requires { at < farthest }
    ensures { LaidAt at (quoted_text text.now) tail.old result tail.new }
{
    put(tail, at, b'"');
    let end = text_at(text, tail, at + 1);
    put(tail, end, b'"');
    end + 1
}

// Writes a number in decimal: first the digits before the last, by a call with a tenth of it.
pub(crate) fn decimal_at(n: u32, tail: &mut [u8], at: usize) -> usize
    requires { at ≤ farthest }
    ensures { LaidAt at (decimal n) tail.old result tail.new }
{
    if n < 10 {
        put(tail, at, b'0' + n as u8);
        return at + 1;
    }
    let end = decimal_at(n / 10, tail, at);
    put(tail, end, b'0' + (n % 10) as u8);
    end + 1
}

// Writes a number of tenths: the whole ones, a point and the last digit.
fn tenths_at(n: u32, tail: &mut [u8], at: usize) -> usize
    requires { at ≤ 1 }
    ensures { LaidAt at (tenths n) tail.old result tail.new }
{
    let end = decimal_at(n / 10, tail, at);
    put(tail, end, b'.');
    decimal_at(n % 10, tail, end + 1)
}

// Writes a minus where the value is below zero, and gives where it ends.
fn sign_of(value: i32, tail: &mut [u8]) -> usize
    ensures { LaidAt 0 (sign_text value) tail.old result tail.new }
{
    if value < 0 {
        put(tail, 0, b'-');
        return 1;
    }
    0
}

// Writes a text that needs no conversion.
pub fn write_text(text: &[u8], tail: &mut [u8]) -> usize
    ensures { Laid text.now tail.old result tail.new }
{
    text_at(text, tail, 0)
}

// Writes a register's number: "Register answers are decimal".
pub fn write_decimal(n: u32, tail: &mut [u8]) -> usize
    ensures { Laid (decimal n) tail.old result tail.new }
{
    decimal_at(n, tail, 0)
}

// Writes a bool or a number of step 1: "0 or 1; plain integers".
pub fn write_whole(value: i32, tail: &mut [u8]) -> usize
    ensures { Laid (signed_text decimal value) tail.old result tail.new }
{
    // `write_tenths` shares the sign: one function for both would have to be told which digits to write
    let at = sign_of(value, tail);
    decimal_at(value.unsigned_abs(), tail, at)
}

// Writes a value in tenths: "one decimal for step 0.1", and "never `-0.0`", since zero has no sign.
pub fn write_tenths(value: i32, tail: &mut [u8]) -> usize
    ensures { Laid (signed_text tenths value) tail.old result tail.new }
{
    let at = sign_of(value, tail);
    tenths_at(value.unsigned_abs(), tail, at)
}
