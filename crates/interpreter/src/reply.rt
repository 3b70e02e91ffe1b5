// Answers: what each query says, and how it is written after what earlier units of the line wrote, with check 9.
ghost use Rattle.std.specs.Prelude.{◌≡◌, true, not, ◌<◌, eqb, length};
ghost use Rattle.registers.specs.Text.{Text};
ghost use Rattle.registers.specs.Answer.{Laid};
ghost use Rattle.registers.specs.Label.{held_in};
ghost use Rattle.registers.specs.Settings.{count, kind_of, answer_of, displayed};
ghost use Rattle.registers.specs.Status.{registers_of, trouble_of};
ghost use Rattle.interpreter.specs.Box.{most_answer};
ghost use Rattle.interpreter.specs.Reply.{reply_to, inquiry_text};
ghost use Rattle.interpreter.specs.PresentParts.{core_in};
ghost use Rattle.interpreter.specs.ReplyParts.{ordinary, place_text, word_said, text_of, RepliesWith, ReplyTo, GivenTo, Answered};

use crate::deed::{Deed, Inquiry, Query};
use crate::present::Present;
use crate::words;
use registers::error::Error;
use registers::settings::{Settings, Values};
use registers::status::Status;
use registers::{answer, error, label};

// What is answered, by how it is written: a word by its place in the table, and none is written as nothing. The display's text goes
// beside it.
#[derive(Clone, Copy)]
enum Reply {
    Identity,
    Word(Option<usize>),
    Tenths(i32),
    Whole(i32),
    Number(u16),
    Error(u16),
    Label,
}

// Finds a setting's word in the table, by its place in the setting's list.
fn of_word(row: usize, value: i32) -> Option<usize>
    requires { row < count }
    ensures { word_said result ≡ place_text row value }
{
    let words = words::of_setting(row);
    let place = usize::try_from(value).ok()?;
    if words.count <= place {
        return None;
    }
    Some(words.first + place)
}

// Says a setting's value as its kind is written: "0 or 1; plain integers; one decimal for step 0.1 ..; words in short form".
fn of_value(row: usize, value: i32) -> Reply
    ensures { (label : Text) → RepliesWith label (answer_of (kind_of row) value) result }
{
    let values = Settings::values_of(row);
    match values {
        Values::Word => Reply::Word(of_word(row, value)),
        Values::Tenths => Reply::Tenths(value),
        Values::Whole | Values::Bool => Reply::Whole(value),
    }
}

// Says the answer to a query that sees settings and registers alone.
fn of_query(present: Present, query: Query) -> Reply
    ensures { RepliesWith (displayed present.settings) (reply_to query (core_in present.settings present.status)) result }
{
    match query {
        Query::Identity => Reply::Identity,
        Query::SelfTest => Reply::Number(0),
        Query::Completed => Reply::Number(1),
        Query::Limit { row, value } => of_value(row, value),
        Query::Value(row) => of_value(row, present.settings.value(row)),
        Query::Stored(register) => Reply::Number(present.status.register(register)),
        Query::Condition(set) => Reply::Number(present.status.group(set).condition),
        Query::SetEvents(set) => Reply::Number(present.status.group(set).event),
        Query::Label => Reply::Label,
    }
}

// Says the answer to an inquiry, which sees the event status register or the error queue too.
fn of_inquiry(status: Status, answers: bool, inquiry: Inquiry) -> Reply
    ensures { (label : Text) → RepliesWith label (inquiry_text inquiry (registers_of status) (trouble_of status) answers) result }
{
    match inquiry {
        Inquiry::StandardEvents => Reply::Number(status.events),
        Inquiry::StatusByte => Reply::Number(u16::from(status.status_byte(answers))),
        Inquiry::NextError => Reply::Error(status.oldest()),
    }
}

// Says the answer to a deed; one that asks nothing has none.
fn of_deed(present: Present, deed: Deed) -> Option<Reply>
    ensures { ReplyTo deed present (not (eqb present.answered 0)) result }
{
    match deed {
        Deed::Query(query) => Some(of_query(present, query)),
        Deed::Inquire(inquiry) => {
            Some(of_inquiry(present.status, present.answered != 0, inquiry))
        }
        _ => None,
    }
}

// Writes a reply over the start of the buffer's tail, after the answers so far, and gives its length, whether it fits or not.
fn write(reply: Reply, text: &[u8], tail: &mut [u8]) -> usize
    ensures { Laid (text_of (held_in text.now) reply) tail.old result tail.new }
{
    match reply {
        Reply::Identity => answer::write_text(b"COURSE,BENCH24,0,4.00", tail),
        Reply::Word(Some(word)) => words::write_short(word, tail),
        Reply::Word(None) => 0,
        Reply::Tenths(value) => answer::write_tenths(value, tail),
        Reply::Whole(value) => answer::write_whole(value, tail),
        Reply::Number(n) => answer::write_decimal(u32::from(n), tail),
        Reply::Error(n) => error::write_error(n, tail),
        Reply::Label => label::write_label(text, tail),
    }
}

// Check 9: writes a reply after the answers so far and their separator, which the first answer overwrites.
// Gives where the answers end then, if they leave room for the newline.
fn append(
    reply: Option<Reply>,
    text: &[u8],
    out: &mut [u8],
    answered: usize,
) -> Result<usize, Error>
    requires { (answered < most_answer) × (length out.old ≡ most_answer) }
    ensures { GivenTo (held_in text.now) reply answered out.old result out.new }
{
    let Some(reply) = reply else {
        return Ok(answered);
    };
    out[answered] = b';';
    let start = answered + usize::from(answered != 0);
    let n = write(reply, text, &mut out[start..]);
    if out.len() - start <= n {
        return Err(Error::QueryDeadlocked);
    }
    Ok(start + n)
}

// Answers a deed after the line's earlier answers, if check 9 lets it, and gives where the answers end then.
pub(crate) fn answer(present: Present, deed: Deed, out: &mut [u8]) -> Result<usize, Error>
    requires { (present.answered < most_answer) × (length out.old ≡ most_answer) × (ordinary deed ≡ true) }
    ensures { (t : Text) → Answered deed t present out.old result out.new }
{
    let reply = of_deed(present, deed);
    let settings = present.settings;
    let text = settings.text;
    append(reply, &text, out, present.answered)
}
