// Reports the state, in the order that the head of main.rt gives, after the letter.
use crate::report::{Hex, List, Report};
use interpreter::state::State;
use registers::group::Group;
use registers::label::TEXT;
use registers::settings::Settings;
use registers::status::{RegisterSet, Status};

// Gives the first items of a list, or all of them where a hand-made count is past the end.
fn front<T>(items: &[T], count: usize) -> &[T] {
    items.get(..count).unwrap_or(items)
}

// Writes the settings: those of the rows, the text, and channel 2's. What a hand-made record has after
// the text's first zero isn't shown.
fn settings(settings: &Settings, report: &mut Report) {
    let (rows, others) = settings.values.split_at(Settings::ROWS);
    let end = settings.text.iter().position(|b| *b == 0);
    let text = Hex(front(&settings.text, end.unwrap_or(TEXT)));
    report.field(format_args!("{},{text},{}", List(rows), List(others)));
}

// Writes the five registers of a set.
fn group(group: &Group, report: &mut Report) {
    for n in [
        group.condition,
        group.event,
        group.enable,
        group.ptr,
        group.ntr,
    ] {
        report.field(n);
    }
}

// Writes the event status register, the two enables, OPERation's registers, and the errors that wait.
fn status(status: &Status, report: &mut Report) {
    for n in [status.events, status.ese, status.sre] {
        report.field(n);
    }
    group(&status.group(RegisterSet::Operation), report);
    report.field(List(front(&status.errors, status.queued)));
}

// Writes the state: the overlong mark, and the bytes that are held of the line, stand before the answer
// that waits and the registers of LOCK and WARNing.
pub(crate) fn state(state: &State, report: &mut Report) {
    settings(&state.settings, report);
    status(&state.status, report);
    report.field(u8::from(state.overlong));
    report.field(Hex(front(&state.line, state.filled)));
    report.field(Hex(front(&state.answer, state.waiting)));
    group(&state.status.group(RegisterSet::Lock), report);
    group(&state.status.group(RegisterSet::Warning), report);
}
