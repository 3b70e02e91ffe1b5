// DISPlay:TEXT's parameter (02, #109): -104, -151, -150 and -223, in place of check 5.
ghost use Rattle.std.specs.Prelude.{◌≡◌};
ghost use Rattle.registers.specs.Error.{meant};
ghost use Rattle.interpreter.specs.ParameterParts.{label_to};

use crate::cuts::Quote;
use crate::deed::{Change, Deed, Query};
use registers::error::Error;
use registers::{label, text};

// Decides on the display's text: a query asks for it, and a string sets it. The text itself is not kept here: it is read again
// where it is stored.
pub(crate) fn decide(asked: bool, text: &[u8]) -> Result<Deed, Error>
    ensures { meant result ≡ label_to asked text.now }
{
    if asked {
        return Ok(Deed::Query(Query::Label));
    }
    if Quote::read(text::byte_at(text, 0)).is_none() {
        return Err(Error::DataType);
    }
    let label = label::read(text);
    if !label.closed {
        return Err(Error::InvalidStringData);
    }
    if !label.allowed {
        return Err(Error::StringDataError);
    }
    if label::TEXT < label.count {
        return Err(Error::TooMuchData);
    }
    Ok(Deed::Change(Change::Label))
}
