// A name of a header as a number, so that names are compared by one comparison: five bits to a byte, the first byte lowest, and
// above them its suffix, the part from its first digit on (02, #111).
//
// No word of the table has more than eleven letters. A longer name has a number all the same, of which the table's words have
// none: its twelve lowest places are all taken.
ghost use Rattle.std.specs.Prelude.{◌≡◌, ◌<◌};
ghost use Rattle.registers.specs.Text.{word_byte, start};
ghost use Rattle.interpreter.specs.NameParts.{code_count, with_code, class_of, NameRead, StemRead};

use crate::table::Table;
use registers::text;

// A name's number, and where it ends.
#[derive(Clone, Copy)]
pub(crate) struct Name {
    pub(crate) key: u64,
    pub(crate) end: usize,
}

// How many numbers of five bits there are.
pub(crate) const CODES: u64 = 32;

// What of a number is kept where a code is added: its lowest 55 bits.
const KEPT: u64 = 36_028_797_018_963_968;

// Where a suffix stands in a name's number: above 60 bits.
pub(crate) const SUFFIX_PLACE: u64 = 1_152_921_504_606_846_976;

// Adds a byte to a number. What doesn't fit into 60 bits is shifted out.
fn with_code(key: u64, code: u64) -> u64
    requires { code < code_count }
    ensures { result ≡ with_code key code }
{
    key % KEPT * CODES + code
}

// Reads the letters and underscores that a text starts with.
fn read_stem(table: &Table, text: &[u8]) -> Name
    ensures { StemRead text.now result }
{
    let mut key: u64 = 0;
    for (i, b) in text.iter().enumerate() {
        let c = table.code(*b);
        if c == 0 {
            return Name { key, end: i };
        }
        key = with_code(key, c);
    }
    Name {
        key,
        end: text.len(),
    }
}

// Tells whether a name may have a byte after its first letter.
fn is_word_byte(b: u8) -> bool
    ensures { result ≡ word_byte b }
{
    text::is_letter(b) | text::is_digit(b) | (b == b'_')
}

// Gives the bytes of a name that a text starts with.
fn word_bytes(text: &[u8]) -> &[u8]
    ensures { result.now ≡ start word_byte text.now }
{
    for (i, b) in text.iter().enumerate() {
        if !is_word_byte(*b) {
            return &text[..i];
        }
    }
    text
}

// Tells which suffix it is: 0 for none, 1, 2, 3 for other digits, 4 for what is no number. A number, since it is packed beside
// the name's in the one that is compared.
fn class(suffix: &[u8]) -> u64
    ensures { result ≡ class_of suffix.now }
{
    match suffix {
        [] => 0,
        [b'1'] => 1,
        [b'2'] => 2,
        _ if suffix.iter().all(|b| text::is_digit(*b)) => 3,
        _ => 4,
    }
}

// Reads the name that starts at a place, if one does: its stem, and from its first digit on its suffix, which most have not.
// Its first letter comes last into the number, and so stands lowest.
pub(crate) fn read(table: &Table, text: &[u8], at: usize) -> Option<Name>
    ensures { NameRead text.now at result }
{
    let lead = text::byte_at(text, at);
    if !text::is_letter(lead) {
        return None;
    }
    let stem = read_stem(table, &text[at + 1..]);
    let key = with_code(stem.key, table.code(lead));
    let end = at + 1 + stem.end;
    if !text::is_digit(text::byte_at(text, end)) {
        return Some(Name { key, end });
    }
    let suffix = word_bytes(&text[end..]);
    Some(Name {
        key: key + class(suffix) * SUFFIX_PLACE,
        end: end + suffix.len(),
    })
}
