// DISPlay:TEXT's string (02, #109): what it means, which bytes are accepted, and how it is answered.
ghost use Rattle.std.specs.Prelude.{◌≡◌};
ghost use Rattle.registers.specs.Answer.{Laid};
ghost use Rattle.registers.specs.Label.{may_stand, held_in, possible_text, quoted_text, LabelRead};

use crate::{answer, text};

// How many bytes a text has at most, in which the record of the settings holds it, with zeros after it.
pub const TEXT: usize = 32;

// A string: whether its quotes are closed and nothing follows them, whether its bytes are accepted, how many they are, and they
// themselves, as the record holds them. All four stand for any string, closed or not, as `LabelRead` promises: no Option says so.
#[derive(Clone, Copy)]
pub struct Label {
    pub closed: bool,
    pub allowed: bool,
    pub count: usize,
    pub bytes: [u8; TEXT],
}

// Tells whether a byte is printable and none of the nine that are forbidden.
fn may_stand(b: u8) -> bool
    ensures { result ≡ may_stand b }
{
    matches!(b, b' '..=b'~')
        && !matches!(
            b,
            b'\\' | b'/' | b':' | b'*' | b'?' | b'"' | b'<' | b'>' | b'|'
        )
}

// Reads a string that starts with its opening quote; a doubled quote inside means itself. Bytes after the 32nd are only counted.
pub fn read(string: &[u8]) -> Label
    ensures { LabelRead string.now result }
{
    let quote = text::byte_at(string, 0);
    let mut bytes = [0u8; TEXT];
    let mut count: usize = 0;
    let mut allowed = true;
    let mut pending = false;
    let mut good = true;
    let rest = text::rest(string, 1);
    for byte in rest {
        let b = *byte;
        if !pending & (b == quote) {
            pending = true;
            continue;
        }
        good &= !pending | (b == quote);
        pending = false;
        allowed &= may_stand(b);
        answer::put(&mut bytes, count, b);
        count += 1;
    }
    Label {
        closed: good & pending,
        allowed,
        count,
        bytes,
    }
}

// Refusal 4 lets no record pass whose text has another byte, or anything but zeros after it.
pub(crate) fn possible(text: &[u8]) -> bool
    ensures { result ≡ possible_text text.now }
{
    let end = text::find(text, 0, 0);
    text[..end].iter().all(|b| may_stand(*b)) && text::rest(text, end).iter().all(|b| *b == 0)
}

// Writes the text of a record in double quotes.
pub fn write_label(text: &[u8], tail: &mut [u8]) -> usize
    ensures { Laid (quoted_text (held_in text.now)) tail.old result tail.new }
{
    let end = text::find(text, 0, 0);
    answer::quoted_at(&text[..end], tail, 0)
}
