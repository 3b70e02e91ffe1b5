// A line: its units left to right, and its end.
ghost use Rattle.std.specs.Prelude.{◌≡◌, true, List, ◌≤◌, ◌<◌, length};
ghost use Rattle.registers.specs.Text.{Text};
ghost use Rattle.registers.specs.Check.{passed};
ghost use Rattle.registers.specs.Setup.{places};
ghost use Rattle.registers.specs.Label.{text_in};
ghost use Rattle.interpreter.specs.Box.{Memory, memory};
ghost use Rattle.interpreter.specs.Perform.{permitted};
ghost use Rattle.interpreter.specs.PresentParts.{core_in};
ghost use Rattle.interpreter.specs.ReplyParts.{ordinary};
ghost use Rattle.interpreter.specs.HeaderParts.{IsPath, Held};
ghost use Rattle.interpreter.specs.UnitParts.{Allowed, AllowedText};
ghost use Rattle.interpreter.specs.LineParts.{CarriedOut, UnitRan, GoesOn, UnitsRan, LineRan};

use crate::deed::{Deed, Saving};
use crate::path::Path;
use crate::present::{Present, Running};
use crate::sizes::{ANSWER, STORE};
use crate::table::Table;
use crate::{cuts, perform, reply, unit};
use registers::error::Error;
use registers::{setup, text};

// Carries out *SAV or *RCL, which the lock let pass: the settings go to their block of the store, or come from it.
fn set_up(
    running: &mut Running,
    saving: Saving,
    place: usize,
    store: &mut [u8; STORE],
) -> Result<(), Error>
    requires { (permitted (Deed.Saving saving place) (core_in running.old.present.settings running.old.present.status) ≡ passed tt) × (place < places) }
    ensures { (t out : Text) → CarriedOut (Deed.Saving saving place) t running.old.present out (memory store.old) result running.new.present out (memory store.new) }
{
    let at = place * setup::BLOCK;
    let end = at + setup::BLOCK;
    match saving {
        Saving::Save => {
            let block = setup::block_of(running.present.settings);
            store[at..end].copy_from_slice(&block);
            Ok(())
        }
        Saving::Recall => match setup::recall(&store[at..end]) {
            Ok(settings) => {
                running.present.settings = settings;
                Ok(())
            }
            Err(_) => Err(Error::SaveRecallMemoryLost),
        },
    }
}

// Carries out any other unit that the lock and check 8 let pass: what it does, and check 9. Where check 9 refuses, "the query isn't
// performed". The string is the unit's parameter, if it has one.
fn do_deed(
    running: &mut Running,
    deed: Deed,
    string: &[u8],
    out: &mut [u8; ANSWER],
) -> Result<(), Error>
    requires { (permitted deed (core_in running.old.present.settings running.old.present.status) ≡ passed tt) × Allowed running.old.present.settings deed × AllowedText deed (text_in string.now) × (ordinary deed ≡ true) }
    ensures { (m : Memory) → CarriedOut deed (text_in string.now) running.old.present out.old m result running.new.present out.new m }
{
    let answered = reply::answer(running.present, deed, out)?;
    running.present = perform::after(running.present, deed, string);
    running.present.answered = answered;
    Ok(())
}

// Carries out a unit that was read, after those before it: the lock and check 8, and what it does.
fn carry_out(
    running: &mut Running,
    deed: Deed,
    string: &[u8],
    out: &mut [u8; ANSWER],
    store: &mut [u8; STORE],
) -> Result<(), Error>
    requires { Allowed running.old.present.settings deed × AllowedText deed (text_in string.now) }
    ensures { CarriedOut deed (text_in string.now) running.old.present out.old (memory store.old) result running.new.present out.new (memory store.new) }
{
    if !perform::is_permitted(running.present, deed) {
        return Err(Error::SettingsConflict);
    }
    match deed {
        Deed::Saving { saving, place } => set_up(running, saving, place, store),
        _ => do_deed(running, deed, string, out),
    }
}

// Runs one unit after those before it: checks 1 to 7, and what it then does. What a unit changes is changed in place, and a refused one
// leaves it.
fn run_unit(
    table: &Table,
    running: &mut Running,
    path: &mut Path,
    unit: &[u8],
    out: &mut [u8; ANSWER],
    store: &mut [u8; STORE],
) -> Result<(), Error>
    requires { Held path.old }
    ensures { (names : List Text) → IsPath names path.old → UnitRan running.old.present names unit.now out.old (memory store.old) result running.new.present path.new out.new (memory store.new) }
{
    let reading = unit::read(table, running.present.settings, path, unit)?;
    carry_out(running, reading.deed, reading.given, out, store)
}

// Tells whether the line goes on after a unit: after one that was refused "the rest of the line is dropped".
fn goes_on(running: &mut Running, ran: Result<(), Error>) -> bool
    ensures { GoesOn ran running.old.present result running.new.present }
{
    match ran {
        Ok(()) => true,
        Err(error) => {
            running.present = running.present.refuse(error);
            false
        }
    }
}

// Runs the units of a line, which is cut at every `;` outside quotes, up to the first that is refused. The path lives as long as
// its line: it starts at the root, and is gone at the newline. std's split would cut inside quotes too.
fn run_units(
    table: &Table,
    mut running: Running,
    line: &[u8],
    out: &mut [u8; ANSWER],
    store: &mut [u8; STORE],
) -> Running
    requires { running.present.answered ≡ 0 }
    ensures { UnitsRan running.present line.now (memory store.old) result.present out.new (memory store.new) }
{
    let mut path = Path::root();
    let mut at: usize = 0;
    loop {
        let end = cuts::part_end(line, at, b';');
        let ran = run_unit(table, &mut running, &mut path, &line[at..end], out, store);
        let more = goes_on(&mut running, ran) & (end < line.len());
        if !more {
            return running;
        }
        at = end + 1;
    }
}

// Runs a line at its newline: an overlong one raises -363 "and no unit runs", a blank one does nothing, and
// answers are ended by a newline.
pub(crate) fn run_line(
    table: &Table,
    running: Running,
    line: &[u8],
    overlong: bool,
    out: &mut [u8; ANSWER],
    store: &mut [u8; STORE],
) -> Present
    requires { running.present.answered ≡ 0 }
    ensures { LineRan running.present line.now overlong (memory store.old) result out.new (memory store.new) }
{
    if overlong {
        return running.present.raise(Error::InputBufferOverrun);
    }
    if text::white_end(line, 0) == line.len() {
        return running.present;
    }
    let mut ran = run_units(table, running, line, out, store).present;
    let answered = ran.answered;
    if answered == 0 {
        return ran;
    }
    out[answered] = b'\n';
    ran.answered = answered + 1;
    ran
}
