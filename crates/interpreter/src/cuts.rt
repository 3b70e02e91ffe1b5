// Where a part of a text ends: at a separator outside quotes (02, #109), or at the text's end.
ghost use Rattle.std.specs.Prelude.{◌≡◌, ◌+◌, ◌≤◌, length, drop};
ghost use Rattle.interpreter.specs.Cuts.{quote_next};
ghost use Rattle.interpreter.specs.CutsParts.{byte_of, open_mark, place_open, OnWay};

// What opens a string, and closes it again.
#[derive(Clone, Copy)]
pub(crate) enum Quote {
    Double,
    Single,
}

impl Quote {
    // Tells which quote a byte is.
    pub(crate) fn read(b: u8) -> Option<Quote>
        ensures { open_mark result ≡ quote_next 0 b }
    {
        match b {
            b'"' => Some(Quote::Double),
            b'\'' => Some(Quote::Single),
            _ => None,
        }
    }

    // Gives its byte.
    fn byte(self) -> u8
        ensures { result ≡ byte_of self }
    {
        match self {
            Quote::Double => b'"',
            Quote::Single => b'\'',
        }
    }
}

// Tells which quote is open after a byte: outside quotes each opens one, and the same one closes it.
pub(crate) fn quote_next(mark: Option<Quote>, b: u8) -> Option<Quote>
    ensures { open_mark result ≡ quote_next (open_mark mark) b }
{
    match mark {
        None => Quote::read(b),
        Some(quote) if b == quote.byte() => None,
        Some(_) => mark,
    }
}

// Finds the first separator or quote from a place on, where no quote is open: most texts have no quote, and need no more.
fn plain_end(text: &[u8], at: usize, separator: u8) -> usize
    requires { at ≤ length text.now }
    ensures { OnWay separator text.now at result 0 }
{
    for i in at..text.len() {
        let b = text[i];
        if (b == separator) | ((b == b'"') | (b == b'\'')) {
            return i;
        }
    }
    text.len()
}

// Finds the first separator outside quotes from a place on, where no quote is open; an unclosed quote takes the rest of the text.
pub(crate) fn part_end(text: &[u8], at: usize, separator: u8) -> usize
    requires { at ≤ length text.now }
    ensures { (result ≡ at + place_open separator 0 (drop at text.now)) × (result ≤ length text.now) }
{
    let mut mark = None;
    for i in plain_end(text, at, separator)..text.len() {
        let b = text[i];
        if mark.is_none() & (b == separator) {
            return i;
        }
        mark = quote_next(mark, b);
    }
    text.len()
}
