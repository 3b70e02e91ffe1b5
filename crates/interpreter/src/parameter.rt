// Checks 4 to 7: how many parameters a unit has, what each is, and the value that it gives.
ghost use Rattle.std.specs.Prelude.{◌≡◌, false, not, ◌&&◌, [], ◌+◌, ◌≤◌, ◌<◌, length};
ghost use Rattle.registers.specs.Text.{letter, first};
ghost use Rattle.registers.specs.Error.{meant};
ghost use Rattle.registers.specs.Settings.{count, kind_of, quantity_of};
ghost use Rattle.interpreter.specs.Parameter.{Word, Figure, words_of, takes_numbers, least, greatest, value_given, side_given, deed_of, is_number, read_word};
ghost use Rattle.interpreter.specs.WordsParts.{word_count, words_in};
ghost use Rattle.interpreter.specs.ParameterParts.{counted, meant_given, meant_word, meant_figure, whole_given, TakesOf, parameter_where, rounded_to, put_fit, register_to, saving_to, parts_of};

use crate::deed::{Change, Deed, Query, Role, Saving};
use crate::table::Table;
use crate::words::Words;
use crate::{cuts, words};
use registers::error::Error;
use registers::number::Decimal;
use registers::rounding::{Rounded, Side};
use registers::settings::{Settings, Values};
use registers::status::Register;
use registers::suffix::Quantity;
use registers::{number, rounding, text};

// Checks 5 and 6 on a parameter: a word of the row by its place in the row's list, or a number.
#[derive(Clone, Copy)]
enum Parameter {
    Word(usize),
    Figure(Decimal),
}

// What may be given: words, and numbers of a quantity, if any.
#[derive(Clone, Copy)]
struct Takes {
    words: Words,
    numbers: Option<Quantity>,
}

// The last place of the store.
const LAST_PLACE: u16 = 9;

// A whole number within the limits, and what was rounded off.
#[derive(Clone, Copy)]
struct Whole {
    value: u16,
    side: Side,
}

// Counts the parameters of a text without white space around it, of which none may be empty by check 2; a comma inside quotes
// separates nothing.
pub(crate) fn count(text: &[u8]) -> Result<usize, Error>
    ensures { meant result ≡ counted text.now }
{
    if text.is_empty() {
        return Ok(0);
    }
    let mut parts: usize = 1;
    let mut visible = false;
    let mut mark = None;
    for &b in text {
        if mark.is_none() & (b == b',') {
            if !visible {
                return Err(Error::Syntax);
            }
            visible = false;
            parts += 1;
            continue;
        }
        visible = visible | !text::is_white(b);
        mark = cuts::quote_next(mark, b);
    }
    if !visible {
        return Err(Error::Syntax);
    }
    Ok(parts)
}

// Tells whether a setting takes numbers: one whose values are words takes none.
fn takes_numbers(row: usize) -> bool
    ensures { result ≡ takes_numbers (kind_of row) }
{
    !matches!(Settings::values_of(row), Values::Word)
}

// Tells what a setting takes. No query takes a number.
fn setting_takes(row: usize, asked: bool) -> Takes
    requires { row < count }
    ensures { TakesOf (words_of (kind_of row)) (takes_numbers (kind_of row) && not asked) (quantity_of row) result }
{
    let words = words::of_setting(row);
    let numbers = if takes_numbers(row) & !asked {
        Some(Settings::quantity_of(row))
    } else {
        None
    };
    Takes { words, numbers }
}

// Makes check 5 on a parameter that starts with a letter. A word with other bytes than letters, digits and
// underscore is none of the table, so the search refuses it by the same number.
fn find_word(table: &Table, words: Words, text: &[u8]) -> Result<usize, Error>
    requires { words.first + words.count ≤ word_count }
    ensures { meant_word result ≡ read_word (words_in words) text.now }
{
    for n in 0..words.count {
        if words::is_word(table, text, words.first + n) {
            return Ok(n);
        }
    }
    Err(Error::InvalidCharacterData)
}

// Makes checks 5 and 6 on a parameter that starts with no letter. A digit, a sign or a point starts a number.
fn read_figure(numbers: Option<Quantity>, text: &[u8]) -> Result<Decimal, Error>
    ensures { letter (first text.now) ≡ false → meant_figure result ≡ parameter_where [] numbers text.now }
{
    let b = text::byte_at(text, 0);
    let starts = text::is_digit(b) | ((b == b'+') | (b == b'-')) | (b == b'.');
    match numbers {
        Some(quantity) if starts => number::read(text, quantity),
        _ => Err(Error::DataType),
    }
}

// Makes checks 5 and 6.
fn read_parameter(table: &Table, takes: Takes, text: &[u8]) -> Result<Parameter, Error>
    requires { takes.words.first + takes.words.count ≤ word_count }
    ensures { meant_given result ≡ parameter_where (words_in takes.words) takes.numbers text.now }
{
    if text::is_letter(text::byte_at(text, 0)) {
        let word = find_word(table, takes.words, text)?;
        return Ok(Parameter::Word(word));
    }
    let d = read_figure(takes.numbers, text)?;
    Ok(Parameter::Figure(d))
}

// Tells whether a setting's values are numbers, so that it has MINimum and MAXimum.
fn is_number(row: usize) -> bool
    ensures { result ≡ is_number (kind_of row) }
{
    matches!(Settings::values_of(row), Values::Tenths | Values::Whole)
}

// Rounds a number to a setting's step and compares it with the limits, and tells what was rounded off. A bool
// has no step to be off. A row of words takes no number: check 5 refused it.
fn figure_value(settings: Settings, row: usize, d: Decimal) -> Rounded
    ensures { result ≡ rounded_to settings row (value_given settings row (kind_of row) (Figure d)) (side_given (kind_of row) (Figure d)) }
{
    let low = Settings::lowest(row);
    let high = settings.highest(row);
    let values = Settings::values_of(row);
    match values {
        Values::Tenths => rounding::round_in(d, 1, low, high),
        Values::Whole => rounding::round_in(d, 0, low, high),
        Values::Bool => Rounded {
            fit: Some(i32::from(rounding::switches_on(d))),
            side: Side::On,
        },
        Values::Word => Rounded {
            fit: Some(0),
            side: Side::On,
        },
    }
}

// Gives the value of a word for a setting, which is within the limits. MINimum is the first of a number's
// two words, MAXimum the other.
fn word_value(settings: Settings, row: usize, word: usize) -> i32
    requires { word < word_count }
    ensures { result ≡ value_given settings row (kind_of row) (Word word) }
{
    if !is_number(row) {
        return word as i32;
    }
    if word == 0 {
        return Settings::lowest(row);
    }
    settings.highest(row)
}

// Tells, for check 4, how many parameters a row may have at most in one of its forms. What sets takes as
// many as it may have, a query does without.
pub(crate) fn most(role: Role, asked: bool) -> usize
    ensures { result ≡ greatest role asked }
{
    match role {
        Role::Setting(row) => usize::from(!asked | is_number(row)),
        Role::Register(_) | Role::Saving(_) | Role::Label => usize::from(!asked),
        Role::Only(_) => 0,
    }
}

// Decides on a value of a setting: the limits let it pass or not, and so does exam mode. A query asks for it.
fn decide_value(
    settings: Settings,
    row: usize,
    asked: bool,
    rounded: Rounded,
) -> Result<Deed, Error>
    ensures { meant result ≡ put_fit settings row asked rounded.fit rounded.side }
{
    let side = rounded.side;
    let Some(value) = rounded.fit else {
        return Err(Error::DataOutOfRange);
    };
    if asked {
        return Ok(Deed::Query(Query::Limit { row, value }));
    }
    if !settings.accepts(side) {
        return Err(Error::DataOutOfRange);
    }
    Ok(Deed::Change(Change::Put { row, value, side }))
}

// Makes checks 5 to 7 on a setting, where check 4 let the number of parameters pass: the text is one, or there is none.
pub(crate) fn decide_setting(
    table: &Table,
    settings: Settings,
    row: usize,
    asked: bool,
    text: &[u8],
) -> Result<Deed, Error>
    requires row_lt_count { row < count }
    requires asked_in_bounds { (least (Role.Setting row) asked ≤ length (parts_of text.now)) × (length (parts_of text.now) ≤ greatest (Role.Setting row) asked) }
    ensures { meant result ≡ deed_of settings (Role.Setting row) asked (parts_of text.now) }
{
    if text.is_empty() {
        return Ok(Deed::Query(Query::Value(row)));
    }
    let takes = setting_takes(row, asked);
    let rounded = match read_parameter(table, takes, text)? {
        Parameter::Word(word) => Rounded {
            fit: Some(word_value(settings, row, word)),
            side: Side::On,
        },
        Parameter::Figure(d) => figure_value(settings, row, d),
    };
    decide_value(settings, row, asked, rounded)
}

// Makes checks 5 to 7 on the parameter of a row that takes a number from 0 to a highest one, and no words.
fn read_whole(text: &[u8], highest: u16) -> Result<Whole, Error>
    ensures { meant result ≡ whole_given highest text.now }
{
    if text::is_letter(text::byte_at(text, 0)) {
        return Err(Error::InvalidCharacterData);
    }
    let d = read_figure(Some(Quantity::Nothing), text)?;
    let rounded = rounding::round_in(d, 0, 0, i32::from(highest));
    let side = rounded.side;
    let Some(value) = rounded.fit else {
        return Err(Error::DataOutOfRange);
    };
    Ok(Whole {
        value: value as u16,
        side,
    })
}

// Makes checks 5 to 7 on a register.
pub(crate) fn decide_register(register: Register, asked: bool, text: &[u8]) -> Result<Deed, Error>
    ensures { meant result ≡ register_to register asked text.now }
{
    if asked {
        return Ok(Deed::Query(Query::Stored(register)));
    }
    let whole = read_whole(text, register.widest())?;
    let value = whole.value;
    let side = whole.side;
    Ok(Deed::Change(Change::Store {
        register,
        value,
        side,
    }))
}

// Makes checks 5 to 7 on *SAV and *RCL, whose number is a place of the store. What it shares with a register is `read_whole`.
pub(crate) fn decide_place(saving: Saving, asked: bool, text: &[u8]) -> Result<Deed, Error>
    ensures { meant result ≡ saving_to saving asked text.now }
{
    if asked {
        return Err(Error::MissingParameter);
    }
    let whole = read_whole(text, LAST_PLACE)?;
    let place = usize::from(whole.value);
    Ok(Deed::Saving { saving, place })
}
