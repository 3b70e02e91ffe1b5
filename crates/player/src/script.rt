// Reads the fields of a script line: numbers, bytes in hex, and what a blank parts.
ghost use Rattle.std.specs.Prelude.{◌≡◌, ◌∷◌, ◌++◌, IfSome};
ghost use Rattle.player.specs.ScriptParts.{blank, HexValueOf, with_digit, decimal_in, Converted};

// Parts a text at its first blank.
pub(crate) fn parted(text: &[u8]) -> Option<(&[u8], &[u8])>
    ensures { IfSome result (λ parts. text.now ≡ parts.0.now ++ blank ∷ parts.1.now) }
{
    let end = text.iter().position(|b| *b == b' ')?;
    Some((&text[..end], &text[end + 1..]))
}

// Gives a hex digit's value, if the byte is one.
fn hex_value(b: u8) -> Option<u8>
    ensures { HexValueOf b result }
{
    let value = char::from(b).to_digit(16)?;
    u8::try_from(value).ok()
}

// Adds a digit to a number, if 64 bits hold what they spell.
fn with_digit(n: u64, b: u8) -> Option<u64>
    ensures { result ≡ with_digit n b }
{
    let digit = char::from(b).to_digit(10)?;
    n.checked_mul(10)?.checked_add(u64::from(digit))
}

// Reads the number that a text of digits spells, if 64 bits hold it.
fn decimal(text: &[u8]) -> Option<u64>
    ensures { result ≡ decimal_in text.now }
{
    if text.is_empty() {
        return None;
    }
    let mut n = 0;
    for b in text {
        n = with_digit(n, *b)?;
    }
    Some(n)
}

// Reads the number that a text of digits spells, if its type holds it.
pub(crate) fn number<T: TryFrom<u64>>(text: &[u8]) -> Option<T>
where
    T::Error: Drop,
    ensures { Converted T.try_from_gives (decimal_in text.now) result }
{
    T::try_from(decimal(text)?).ok()
}

// Reads the signed number of 32 bits that a text spells.
pub(crate) fn signed(text: &[u8]) -> Option<i32> {
    match text.strip_prefix(b"-") {
        Some(size) => 0i32.checked_sub_unsigned(number(size)?),
        None => number(text),
    }
}

// Puts the bytes that a text of hex digits spells at the start of a room, and gives them. There are
// none where the text has another byte or an odd digit, or spells more than the room holds.
pub(crate) fn unhex<'a>(text: &[u8], room: &'a mut [u8]) -> Option<&'a [u8]> {
    let (pairs, odd) = text.as_chunks::<2>();
    if !odd.is_empty() {
        return None;
    }
    let bytes = room.get_mut(..pairs.len())?;
    for (byte, [high, low]) in bytes.iter_mut().zip(pairs) {
        *byte = hex_value(*high)? * 16 + hex_value(*low)?;
    }
    Some(bytes)
}
