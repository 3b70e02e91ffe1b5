// What an accepted unit does, and what its header is for.
ghost use Rattle.std.specs.Prelude.{◌≡◌, ◌<◌, IfOk};
ghost use Rattle.std.proofs.Props.{props};
ghost use Rattle.registers.specs.Error.{meant};
ghost use Rattle.interpreter.specs.DeedParts.{row_count, place_count, place_of, role_at};

use crate::table::ROWS;
use registers::error::Error;
use registers::rounding::Side;
use registers::settings::Settings;
use registers::status::{Register, RegisterSet};

// A change of settings or registers, and what was rounded off the number that it was given. An enum holds no array: the text of a
// label goes beside it.
#[derive(Clone, Copy)]
pub enum Change {
    Nothing,
    Put {
        row: usize,
        value: i32,
        side: Side,
    },
    Reset,
    Store {
        register: Register,
        value: u16,
        side: Side,
    },
    Label,
}

// A query that sees settings and registers alone.
#[derive(Clone, Copy)]
pub enum Query {
    Identity,
    SelfTest,
    Completed,
    Limit { row: usize, value: i32 },
    Value(usize),
    Stored(Register),
    Condition(RegisterSet),
    SetEvents(RegisterSet),
    Label,
}

// The three queries that see the event status register or the error queue.
#[derive(Clone, Copy)]
pub enum Inquiry {
    StandardEvents,
    StatusByte,
    NextError,
}

// What *SAV and *RCL do with the lent store (02, #108).
#[derive(Clone, Copy)]
pub enum Saving {
    Save,
    Recall,
}

// What an accepted unit does.
#[derive(Clone, Copy)]
pub enum Deed {
    Change(Change),
    Complete,
    Clear,
    Query(Query),
    Inquire(Inquiry),
    Saving { saving: Saving, place: usize },
}

// What a header comes to: its place, and whether it asks. The place is its setting's slot, or after the slots its row among the
// others; it has none where it has no row, or where its row doesn't take its suffix.
#[derive(Clone, Copy)]
pub(crate) struct Heading {
    pub(crate) place: Result<usize, Error>,
    pub(crate) asked: bool,
    ghost is_there: { IfOk place (λ i. i < place_count) } by { Prim.hlevel props },
}

// A setting, a register or the display's text is set and asked; every other header has only one form, and one deed, or is given a place.
#[derive(Clone, Copy)]
pub enum Role {
    Setting(usize),
    Register(Register),
    Only(Deed),
    Saving(Saving),
    Label,
}

// What each row of 'Registers and queue' is for, the register sets last. A static: what a const names was made anew at each header, which
// cost a tenth more instructions. So each set's five rows are written out.
static OTHER_ROLES: [Role; ROWS - Settings::ROWS] = [
    Role::Only(Deed::Query(Query::Identity)),
    Role::Only(Deed::Query(Query::SelfTest)),
    Role::Only(Deed::Query(Query::Completed)),
    Role::Only(Deed::Change(Change::Nothing)),
    Role::Only(Deed::Complete),
    Role::Only(Deed::Change(Change::Reset)),
    Role::Only(Deed::Clear),
    Role::Register(Register::Ese),
    Role::Register(Register::Sre),
    Role::Only(Deed::Inquire(Inquiry::StandardEvents)),
    Role::Only(Deed::Inquire(Inquiry::StatusByte)),
    Role::Only(Deed::Inquire(Inquiry::NextError)),
    Role::Saving(Saving::Save),
    Role::Saving(Saving::Recall),
    Role::Label,
    Role::Only(Deed::Query(Query::Condition(RegisterSet::Operation))),
    Role::Only(Deed::Query(Query::SetEvents(RegisterSet::Operation))),
    Role::Register(Register::Enable(RegisterSet::Operation)),
    Role::Register(Register::Ntr(RegisterSet::Operation)),
    Role::Register(Register::Ptr(RegisterSet::Operation)),
    Role::Only(Deed::Query(Query::Condition(RegisterSet::Lock))),
    Role::Only(Deed::Query(Query::SetEvents(RegisterSet::Lock))),
    Role::Register(Register::Enable(RegisterSet::Lock)),
    Role::Register(Register::Ntr(RegisterSet::Lock)),
    Role::Register(Register::Ptr(RegisterSet::Lock)),
    Role::Only(Deed::Query(Query::Condition(RegisterSet::Warning))),
    Role::Only(Deed::Query(Query::SetEvents(RegisterSet::Warning))),
    Role::Register(Register::Enable(RegisterSet::Warning)),
    Role::Register(Register::Ntr(RegisterSet::Warning)),
    Role::Register(Register::Ptr(RegisterSet::Warning)),
];

// The rows that part the settings: those of a channel are the ones before monitor mode, and those between it and brightness.
const MONITOR: usize = 3;

const BRIGHTNESS: usize = 14;

// Finds the place of a row on the channel that a suffix names.
pub(crate) fn place_of(row: usize, suffix: u64) -> Result<usize, Error>
    requires { row < row_count }
    ensures { meant result ≡ place_of row suffix }
{
    if suffix < 2 {
        if row < Settings::ROWS {
            return Ok(row);
        }
        return Ok(row + (Settings::COUNT - Settings::ROWS));
    }
    if (suffix == 2) & (row < MONITOR) {
        return Ok(row + Settings::ROWS);
    }
    if (suffix == 2) & ((MONITOR < row) & (row < BRIGHTNESS)) {
        return Ok(row + (Settings::ROWS - 1));
    }
    Err(Error::HeaderSuffix)
}

// Tells what a place is for: the settings stand first, and then 'Registers and queue'.
pub(crate) fn role_of(place: usize) -> Role
    requires { place < place_count }
    ensures { result ≡ role_at place }
{
    if place < Settings::COUNT {
        return Role::Setting(place);
    }
    OTHER_ROLES[place - Settings::COUNT]
}
