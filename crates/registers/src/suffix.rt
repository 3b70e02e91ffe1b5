// Unit suffixes: what may stand after a number, and the power of ten that it multiplies by.
ghost use Rattle.std.specs.Prelude.{◌≡◌, drop, map};
ghost use Rattle.registers.specs.Text.{capital, same};
ghost use Rattle.registers.specs.Error.{meant};
ghost use Rattle.registers.specs.Suffix.{suffixes, no_suffix, power_in, remains};

use crate::error::Error;
use crate::text;

// What a row's numbers measure, which says what suffixes they take. `Nothing` is a case like the others: its rows refuse a suffix by a
// number of their own, -138.
#[derive(Clone, Copy)]
pub enum Quantity {
    Nothing,
    Volt,
    Ampere,
    Hertz,
    Second,
}

// What a suffix multiplies by: 10 to the power up, over 10 to the power down.
#[derive(Clone, Copy)]
pub struct Power {
    pub up: u8,
    pub down: u8,
}

const ONE: Power = Power { up: 0, down: 0 };

const MILLI: Power = Power { up: 0, down: 3 };

const KILO: Power = Power { up: 3, down: 0 };

const MEGA: Power = Power { up: 6, down: 0 };

// Compares what remains with a suffix: it matches in any letter case.
fn spells(text: &[u8], suffix: &[u8]) -> bool
    ensures { result ≡ same (map capital text.now) (map capital suffix.now) }
{
    text.eq_ignore_ascii_case(suffix)
}

// Finds the suffix among those of a quantity. `MHZ` is mega, though M elsewhere is milli.
fn scale_of(quantity: Quantity, text: &[u8]) -> Result<Power, Error>
    ensures { meant result ≡ power_in (no_suffix quantity) (suffixes quantity) text.now }
{
    match quantity {
        Quantity::Nothing => Err(Error::SuffixNotAllowed),
        Quantity::Volt if spells(text, b"V") => Ok(ONE),
        Quantity::Volt if spells(text, b"MV") => Ok(MILLI),
        Quantity::Ampere if spells(text, b"A") => Ok(ONE),
        Quantity::Ampere if spells(text, b"MA") => Ok(MILLI),
        Quantity::Hertz if spells(text, b"HZ") => Ok(ONE),
        Quantity::Hertz if spells(text, b"KHZ") => Ok(KILO),
        Quantity::Hertz if spells(text, b"MHZ") => Ok(MEGA),
        Quantity::Second if spells(text, b"S") => Ok(ONE),
        _ => Err(Error::InvalidSuffix),
    }
}

// Reads what remains after a number and its white space: a suffix of the quantity, or nothing.
pub(crate) fn read(text: &[u8], at: usize, quantity: Quantity) -> Result<Power, Error>
    ensures { meant result ≡ remains quantity (drop at text.now) }
{
    let remainder = text::rest(text, at);
    match remainder.first() {
        None => Ok(ONE),
        Some(b) if text::is_letter(*b) => scale_of(quantity, remainder),
        Some(_) => Err(Error::InvalidCharacterInNumber),
    }
}
