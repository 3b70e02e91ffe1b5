// Checks 2 and 3 on a header: its grammar, the path, and the row that spells it.
//
// One scan finds a header's end, its grammar and its names, which are added to the path; the path that is left is all of them but
// the last.
ghost use Rattle.std.specs.Prelude.{◌≡◌, List};
ghost use Rattle.registers.specs.Text.{Text};
ghost use Rattle.registers.specs.Error.{meant};
ghost use Rattle.interpreter.specs.DeedParts.{place_of};
ghost use Rattle.interpreter.specs.RowsParts.{row_of_keys, class_in};
ghost use Rattle.interpreter.specs.HeaderParts.{TailRead, HeaderRead, IsPath, LookedUp};

use crate::deed::Heading;
use crate::path::Path;
use crate::table::Table;
use crate::{deed, name, rows};
use registers::error::Error;
use registers::text;

// The names of a header: whether it asks, where it ends, and how many names are held.
#[derive(Clone, Copy)]
struct Names {
    asked: bool,
    end: usize,
    count: usize,
}

// What is found of a header, and where it ends.
#[derive(Clone, Copy)]
pub(crate) struct Looked {
    pub(crate) heading: Heading,
    pub(crate) end: usize,
}

// Reads what follows a header's last name: "with an optional `?` at the end", and "the header runs to the first white space".
fn read_tail(text: &[u8], at: usize, count: usize) -> Option<Names>
    ensures { TailRead text.now at count result }
{
    let asked = text::byte_at(text, at) == b'?';
    let end = at + usize::from(asked);
    if end < text.len() && !text::is_white(text[end]) {
        return None;
    }
    Some(Names { asked, end, count })
}

// Reads the names of the header that a text starts with and adds them to the path, or to none where a `:` leads. After a `*`
// there is one name; others are joined by single colons. The loop goes from where one name ends, which only its reading tells.
fn read_names(table: &Table, path: &mut Path, text: &[u8]) -> Option<Names>
    ensures read { HeaderRead path.old text.now result path.new }
    ensures kept { path.new.used ≡ path.old.used }
{
    let lead = text::byte_at(text, 0);
    let star = lead == b'*';
    let root = lead == b':';
    let mut count = if root { 0 } else { path.used };
    let mut i = usize::from(star | root);
    loop {
        let name = name::read(table, text, i)?;
        count = path.enter(count, name.key);
        let end = name.end;
        if star | (text::byte_at(text, end) != b':') {
            return read_tail(text, end, count);
        }
        i = end + 1;
    }
}

// Finds the place of a header's names: their row, on the channel that their suffix names.
fn place_of(table: &Table, names: &[u64], star: bool, asked: bool) -> Result<usize, Error>
    ensures { meant result ≡ place_of (row_of_keys star names.now asked) (class_in names.now) }
{
    let Some(row) = rows::find(table, names, star, asked) else {
        return Err(Error::UndefinedHeader);
    };
    deed::place_of(row, rows::suffix(names))
}

// Finds the place of the header that a text starts with, and the path that it leaves; none where it is no header. A common
// command is added to the path too, and the search begins with it.
pub(crate) fn look_up(table: &Table, path: &mut Path, text: &[u8]) -> Option<Looked>
    ensures { (names : List Text) → IsPath names path.old → LookedUp names text.now result path.new }
{
    let star = text::byte_at(text, 0) == b'*';
    let names = read_names(table, path, text)?;
    let searched = path.searched(star, names.count);
    let place = place_of(table, searched, star, names.asked);
    path.leave(names.count);
    let heading = Heading {
        place,
        asked: names.asked,
    };
    Some(Looked {
        heading,
        end: names.end,
    })
}
