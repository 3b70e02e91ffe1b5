// Overwrites a number of the raw record, or its text, so that states can be tried that the box never
// comes to.
ghost use Rattle.std.specs.Prelude.{◌≡◌, ℕ, ◌<◌, Some, IfSome};
ghost use Rattle.std.specs.Fmt.{decimal};
ghost use Rattle.registers.specs.Settings.{count};

use crate::script;
use interpreter::state::State;
use registers::group::Group;
use registers::label::TEXT;
use registers::settings::Settings;
use registers::status::{RegisterSet, Status};

// What a script can name of the record.
#[derive(Clone, Copy)]
enum Field {
    Setting(usize),
    Text,
    Number(Number),
}

// The numbers of the record that a script can name, but for the settings.
#[derive(Clone, Copy)]
enum Number {
    Events,
    Ese,
    Sre,
    Group(RegisterSet, Register),
    Queued,
    Failure(usize),
    Line,
    Answer,
}

// The registers of a set.
#[derive(Clone, Copy)]
enum Register {
    Condition,
    Event,
    Enable,
    Ptr,
    Ntr,
}

// As many places as the longer of the record's two arrays has.
const PLACES: usize = Settings::COUNT;

// Reads a place of an array, written without leading zeros. There is none past the longer one's end.
fn place(text: &[u8]) -> Option<usize>
    ensures below { IfSome result (λ n. n < count) }
    ensures spelt { IfSome result (λ n. text.now ≡ decimal n) }
    ensures each { (n : ℕ) → n < count → text.now ≡ decimal n → result ≡ Some n }
{
    if text.len() > 1 && text[0] == b'0' {
        return None;
    }
    let n = script::number(text)?;
    (n < PLACES).then_some(n)
}

// Finds a register of a set by its name.
fn of_set(set: RegisterSet, name: &[u8]) -> Option<Number> {
    let register = match name {
        b"condition" => Register::Condition,
        b"event" => Register::Event,
        b"enable" => Register::Enable,
        b"ptr" => Register::Ptr,
        b"ntr" => Register::Ntr,
        _ => return None,
    };
    Some(Number::Group(set, register))
}

// Finds a register by its name, which begins with its set's; those of OPERation have no prefix.
fn register_named(name: &[u8]) -> Option<Number> {
    if let Some(name) = name.strip_prefix(b"lock_") {
        return of_set(RegisterSet::Lock, name);
    }
    if let Some(name) = name.strip_prefix(b"warning_") {
        return of_set(RegisterSet::Warning, name);
    }
    of_set(RegisterSet::Operation, name)
}

// Finds a number that is no setting by its name.
fn number_named(name: &[u8]) -> Option<Number> {
    if let Some(item) = name.strip_prefix(b"error.") {
        return Some(Number::Failure(place(item)?));
    }
    match name {
        b"esr" => Some(Number::Events),
        b"ese" => Some(Number::Ese),
        b"sre" => Some(Number::Sre),
        b"queued" => Some(Number::Queued),
        b"line" => Some(Number::Line),
        b"answer" => Some(Number::Answer),
        _ => register_named(name),
    }
}

// Finds the field that a name spells.
fn named(name: &[u8]) -> Option<Field> {
    if let Some(slot) = name.strip_prefix(b"setting.") {
        return Some(Field::Setting(place(slot)?));
    }
    match name {
        b"text" => Some(Field::Text),
        _ => Some(Field::Number(number_named(name)?)),
    }
}

// Reads the text by the bytes that hex digits spell, whatever they are, and zeros after them. A dash
// stands for no byte; more than the record holds can't be read.
fn text(value: &[u8]) -> Option<[u8; TEXT]> {
    let mut bytes = [0; TEXT];
    match value {
        b"-" => {}
        b"" => return None,
        _ => {
            script::unhex(value, &mut bytes)?;
        }
    }
    Some(bytes)
}

// Puts a number into a register of a group.
fn put_in_group(group: &mut Group, register: Register, n: u16) {
    match register {
        Register::Condition => group.condition = n,
        Register::Event => group.event = n,
        Register::Enable => group.enable = n,
        Register::Ptr => group.ptr = n,
        Register::Ntr => group.ntr = n,
    }
}

// Puts a number into a register of a set, whose group stands at the set's place. That is private to
// `registers`, and a pattern of the three groups behind `&mut` gets no proof.
fn put_in_set(status: &mut Status, set: RegisterSet, register: Register, n: u16) {
    let place = match set {
        RegisterSet::Operation => 0,
        RegisterSet::Lock => 1,
        RegisterSet::Warning => 2,
    };
    put_in_group(&mut status.groups[place], register, n);
}

// Puts a number into the record, if the queue has a place that is named, whether an error waits there
// or not.
fn put(state: &mut State, number: Number, n: u16) -> Option<()> {
    match number {
        Number::Events => state.status.events = n,
        Number::Ese => state.status.ese = n,
        Number::Sre => state.status.sre = n,
        Number::Group(set, register) => put_in_set(&mut state.status, set, register, n),
        Number::Queued => state.status.queued = usize::from(n),
        Number::Failure(item) => *state.status.errors.get_mut(item)? = n,
        Number::Line => state.filled = usize::from(n),
        Number::Answer => state.waiting = usize::from(n),
    }
    Some(())
}

// Overwrites the named field by the value that a text spells: of a setting also with a minus, of any
// other number at most 16 bits.
pub(crate) fn overwrite(state: &mut State, name: &[u8], value: &[u8]) -> Option<()> {
    match named(name)? {
        Field::Setting(slot) => *state.settings.values.get_mut(slot)? = script::signed(value)?,
        Field::Text => state.settings.text = text(value)?,
        Field::Number(number) => put(state, number, script::number(value)?)?,
    }
    Some(())
}
