// Checks 1 to 7 on one unit, a part of the line where it stands.
ghost use Rattle.std.specs.Prelude.{◌≡◌, List};
ghost use Rattle.registers.specs.Text.{Text, every};
ghost use Rattle.registers.specs.Error.{number_of, meant};
ghost use Rattle.interpreter.specs.Cuts.{trim};
ghost use Rattle.interpreter.specs.HeaderParts.{IsPath, Held};
ghost use Rattle.interpreter.specs.Unit.{allowed};
ghost use Rattle.interpreter.specs.UnitParts.{decided, decided_text, header_refusal, UnitRead};

use crate::deed::{Deed, Heading, Role};
use crate::path::Path;
use crate::table::Table;
use crate::{deed, header, parameter, quoted};
use registers::error::Error;
use registers::settings::Settings;
use registers::text;

// What checks 1 to 7 leave of a unit: its deed, and the text of its parameters.
#[derive(Clone, Copy)]
pub(crate) struct Reading<'a> {
    pub(crate) deed: Deed,
    pub(crate) given: &'a [u8],
}

// Makes check 1. All bytes are looked at, without a branch: a unit is short and mostly good.
fn all_allowed(unit: &[u8]) -> bool
    ensures { result ≡ every allowed unit.now }
{
    let mut all = true;
    for b in unit {
        all &= (*b < 127) & (*b != b'\n');
    }
    all
}

// Drops the white space around a text, which check 2 skips. By itself its loop is short: inlined it counts what check 1 needs, too.
#[inline(never)]
fn trimmed(text: &[u8]) -> &[u8]
    ensures { result.now ≡ trim text.now }
{
    let mut rest = &text[text::white_end(text, 0)..];
    while let [front @ .., last] = rest {
        if !text::is_white(*last) {
            return rest;
        }
        rest = front;
    }
    rest
}

// Makes checks 2 to 7 after the header, on the parameters' text without white space around it.
fn decide(table: &Table, settings: Settings, heading: Heading, text: &[u8]) -> Result<Deed, Error>
    requires { trim text.now ≡ text.now }
    ensures { meant result ≡ decided settings (meant heading.place) heading.asked text.now }
{
    let parts = parameter::count(text)?;
    let place = heading.place?;
    let asked = heading.asked;
    let role = deed::role_of(place);
    let most = parameter::most(role, asked);
    if most < parts {
        return Err(Error::ParameterNotAllowed);
    }
    if !asked & (parts < most) {
        return Err(Error::MissingParameter);
    }
    match role {
        Role::Setting(row) => parameter::decide_setting(table, settings, row, asked, text),
        Role::Register(register) => parameter::decide_register(register, asked, text),
        Role::Only(deed) => Ok(deed),
        Role::Saving(saving) => parameter::decide_place(saving, asked, text),
        Role::Label => quoted::decide(asked, text),
    }
}

// Makes check 1 first: white space is allowed, and so is every byte of a header, so that only the parameters' text is looked at.
fn decide_text(
    table: &Table,
    settings: Settings,
    heading: Heading,
    text: &[u8],
) -> Result<Deed, Error>
    requires { trim text.now ≡ text.now }
    ensures { meant result ≡ decided_text settings (meant heading.place) heading.asked text.now }
{
    if !all_allowed(text) {
        return Err(Error::InvalidCharacter);
    }
    decide(table, settings, heading, text)
}

// Tells which of checks 1 and 2 refuses a unit that starts with no header.
fn header_error(unit: &[u8]) -> Error
    ensures { number_of result ≡ header_refusal unit.now }
{
    if all_allowed(unit) {
        return Error::Syntax;
    }
    Error::InvalidCharacter
}

// Reads a unit, its header after the path.
pub(crate) fn read<'a>(
    table: &Table,
    settings: Settings,
    path: &mut Path,
    unit: &'a [u8],
) -> Result<Reading<'a>, Error>
    requires { Held path.old }
    ensures { (names : List Text) → IsPath names path.old → UnitRead settings names unit.now result path.new }
{
    let start = text::white_end(unit, 0);
    let Some(looked) = header::look_up(table, path, &unit[start..]) else {
        return Err(header_error(unit));
    };
    let given = trimmed(&unit[start + looked.end..]);
    let deed = decide_text(table, settings, looked.heading, given)?;
    Ok(Reading { deed, given })
}
