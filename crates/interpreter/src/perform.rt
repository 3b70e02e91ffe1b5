// What a unit that was read may do, by the lock and check 8, and what it leaves of settings and status.
ghost use Rattle.std.specs.Prelude.{◌≡◌, false, ◌≤◌};
ghost use Rattle.registers.specs.Check.{check};
ghost use Rattle.registers.specs.Queue.{most};
ghost use Rattle.registers.specs.Label.{text_in};
ghost use Rattle.interpreter.specs.Perform.{conflicting, permitted};
ghost use Rattle.interpreter.specs.PresentParts.{core_in};
ghost use Rattle.interpreter.specs.PerformParts.{settings_left, StatusLeft, After};
ghost use Rattle.interpreter.specs.UnitParts.{Allowed, AllowedText};

use crate::deed::{Change, Deed, Inquiry, Query};
use crate::present::Present;
use registers::label;
use registers::settings::Settings;
use registers::status::Status;

// Tells whether a deed passes the lock, which lets the settings change only by switching an output off, and then
// check 8. Both refuse by -221, so one answer serves for the two. Reset, text and place are arms of their own, as each is tried by an edit.
pub(crate) fn is_permitted(present: Present, deed: Deed) -> bool
    ensures { permitted deed (core_in present.settings present.status) ≡ check 221 result }
{
    let open = !present.status.is_locked();
    match deed {
        Deed::Change(Change::Put { row, value, .. }) => {
            let off = matches!(row, Settings::OUTPUT | Settings::OUTPUT_2) & (value <= 0);
            (off | open) & !present.settings.conflicts(row, value)
        }
        Deed::Change(Change::Reset) => open,
        Deed::Change(Change::Label) => open,
        Deed::Saving { .. } => open,
        _ => true,
    }
}

// Gives what a deed leaves of the settings.
fn settings_after(settings: Settings, deed: Deed, string: &[u8]) -> Settings
    requires { Allowed settings deed × (conflicting deed settings ≡ false) × AllowedText deed (text_in string.now) }
    ensures { result ≡ settings_left deed (text_in string.now) settings }
{
    match deed {
        Deed::Change(Change::Put { row, value, .. }) => settings.store(row, value),
        Deed::Change(Change::Reset) => Settings::reset(),
        Deed::Change(Change::Label) => {
            let label = label::read(string);
            let bytes = label.bytes;
            settings.store_text(bytes)
        }
        _ => settings,
    }
}

// Gives what a deed leaves of the status: reading an event register clears it, and reading an error removes it.
fn status_after(status: Status, deed: Deed) -> Status
    requires { status.queued ≤ most }
    ensures { StatusLeft deed status result }
{
    match deed {
        Deed::Change(
            Change::Store {
                register,
                value,
                ..
            },
        ) => status.store(register, value),
        Deed::Complete => status.complete(),
        Deed::Clear => status.clear(),
        Deed::Query(Query::SetEvents(set)) => status.read_event(set),
        Deed::Inquire(Inquiry::StandardEvents) => status.read_events(),
        Deed::Inquire(Inquiry::NextError) => status.read_oldest(),
        _ => status,
    }
}

// Gives what a deed leaves, all but the answer, which is the reply's affair. That a deed may be carried out is a fact of the deed, the
// settings and the string together: a type for the deed and its string alone would leave the rest of it to say here.
pub(crate) fn after(present: Present, deed: Deed, string: &[u8]) -> Present
    requires { Allowed present.settings deed × (conflicting deed present.settings ≡ false) × (present.status.queued ≤ most) × AllowedText deed (text_in string.now) }
    ensures { After deed (text_in string.now) present result }
{
    let settings = settings_after(present.settings, deed, string);
    let status = status_after(present.status, deed);
    Present {
        settings,
        status,
        answered: present.answered,
    }
}
