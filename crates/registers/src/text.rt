// Kinds of bytes, the byte at a place, and where white space ends or a byte stands next. Where std has a kind, its function stays all
// the same, as its statement speaks of 01's. A text and a place in it are two, for a caller goes on from the place that it is given.
ghost use Rattle.std.specs.Prelude.{◌≡◌, ◌+◌, ◌≤◌, length, drop};
ghost use Rattle.registers.specs.Text.{white, start, digit, letter, capital, first, index_of};

pub fn is_white(b: u8) -> bool
    ensures { result ≡ white b }
{
    (b <= b' ') & (b != b'\n')
}

pub fn is_digit(b: u8) -> bool
    ensures { result ≡ digit b }
{
    b.is_ascii_digit()
}

pub fn is_letter(b: u8) -> bool
    ensures { result ≡ letter b }
{
    b.is_ascii_alphabetic()
}

// Turns a small letter into its capital, and leaves any other byte.
pub fn in_capitals(b: u8) -> u8
    ensures { result ≡ capital b }
{
    b.to_ascii_uppercase()
}

// Reads the byte at a place, 0 past the end, so that a scan needs no test for the end.
pub fn byte_at(text: &[u8], at: usize) -> u8
    ensures { result ≡ first (drop at text.now) }
{
    text.get(at).copied().unwrap_or(0)
}

// Lends what stands from a place on: nothing past the end.
pub(crate) fn rest(text: &[u8], at: usize) -> &[u8]
    ensures { result.now ≡ drop at text.now }
{
    text.get(at..).unwrap_or(&[])
}

// Finds where the white space that starts at a place ends; the place itself where there is none.
pub fn white_end(text: &[u8], at: usize) -> usize
    ensures { result ≡ at + length (start white (drop at text.now)) }
{
    at + rest(text, at).iter().take_while(|b| is_white(**b)).count()
}

// Finds where a byte stands first from a place on; the text's end where it doesn't stand again, so
// that the part up to it needs no case of its own.
pub fn find(text: &[u8], at: usize, b: u8) -> usize
    ensures place { result ≡ at + index_of b (drop at text.now) }
    ensures within { at ≤ length text.now → result ≤ length text.now }
{
    at + rest(text, at).iter().take_while(|x| **x != b).count()
}
