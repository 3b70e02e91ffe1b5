// The box's state, and the five events that can happen to it.
ghost use Rattle.std.specs.Prelude.{◌≡◌, []};
ghost use Rattle.interpreter.specs.Box.{memory};
ghost use Rattle.interpreter.specs.Events.{received, take, condition, look, result_of};
ghost use Rattle.interpreter.specs.State.{refusal_number, number_of, value_of, Happens, Started};
ghost use Rattle.interpreter.specs.StateParts.{Admitted, state_of};

use crate::flow::Flow;
use crate::present::Present;
use crate::sizes;
use registers::error::Error;
use registers::group::Group;
use registers::settings::Settings;
use registers::status::{RegisterSet, Status};

// The room of a line before its newline, and of an answer with its newline (02, #106).
pub const LINE: usize = sizes::LINE;

pub const ANSWER: usize = sizes::ANSWER;

// The store that every event but power-up is lent (02, #108): ten blocks of 512 bytes. Of another length it is refusal 5.
pub const STORE: usize = sizes::STORE;

// Everything that the box keeps from one event to the next. Arrays with a length beside each, as number 4 tests a record made by hand
// (State.possible_parts), and no heap.
#[derive(Clone, Copy)]
pub struct State {
    pub settings: Settings,
    pub status: Status,
    pub line: [u8; LINE],
    pub filled: usize,
    pub overlong: bool,
    pub answer: [u8; ANSWER],
    pub waiting: usize,
}

// Why an event was refused, by 01's table and 02 (#108).
#[derive(Clone, Copy, PartialEq, Eq)]
pub enum Refusal {
    // with the length that the buffer needs
    BufferTooShort { needed: usize },
    NoAnswer,
    ConditionTooWide,
    ImpossibleState,
    WrongStore,
}

// What a piece leaves: the number of newlines in it. It, `Taken` and `Reported` are no one generic struct, so that each names what it
// tells.
#[derive(Clone, Copy)]
pub struct Fed {
    pub count: Result<usize, Refusal>,
    pub state: State,
}

// What a take leaves: the answer's length.
#[derive(Clone, Copy)]
pub struct Taken {
    pub length: Result<usize, Refusal>,
    pub state: State,
}

// What a report of a condition leaves.
#[derive(Clone, Copy)]
pub struct Reported {
    pub outcome: Result<(), Refusal>,
    pub state: State,
}

impl Refusal {
    // Gives its number in 01's table. By a match, as one case holds a length.
    pub fn number(self) -> u8
        ensures { result ≡ refusal_number self }
    {
        match self {
            Refusal::BufferTooShort { .. } => 1,
            Refusal::NoAnswer => 2,
            Refusal::ConditionTooWide => 3,
            Refusal::ImpossibleState => 4,
            Refusal::WrongStore => 5,
        }
    }
}

// Gives the number of the refusal, or 0 where nothing is refused.
pub fn number_of<T>(outcome: &Result<T, Refusal>) -> u8
    ensures { result ≡ number_of outcome.now }
{
    match outcome {
        Ok(_) => 0,
        Err(refusal) => refusal.number(),
    }
}

impl State {
    // Tests for number 5 and then for number 4, on the record's own numbers ("as number 4 but tested before it"). Gives the small
    // part, with no byte taken in yet.
    pub(crate) fn admit(&self, store: &[u8]) -> Result<Flow, Refusal>
        ensures { Admitted self.now store.now result }
    {
        if store.len() != STORE {
            return Err(Refusal::WrongStore);
        }
        let settings = self.settings;
        let status = self.status;
        let present = Present {
            settings,
            status,
            answered: self.waiting,
        };
        let possible = present.possible() & (self.filled <= LINE) & (self.waiting <= ANSWER);
        if !possible {
            return Err(Refusal::ImpossibleState);
        }
        Ok(Flow {
            present,
            filled: self.filled,
            overlong: self.overlong,
            read: 0,
            count: 0,
        })
    }

    // Puts the small part back beside the arrays: field by field, so that no array is copied.
    pub(crate) fn keep(&mut self, flow: Flow)
        ensures { self.new ≡ state_of flow self.old.line self.old.answer }
    {
        self.settings = flow.present.settings;
        self.status = flow.present.status;
        self.filled = flow.filled;
        self.overlong = flow.overlong;
        self.waiting = flow.present.answered;
    }

    // The events that change a state, in place: what is refused by `admit` leaves it as it is.
    fn receive(&mut self, store: &mut [u8], bytes: &[u8]) -> Result<usize, Refusal>
        ensures { Happens self.old (memory store.old) (received bytes.now) (result_of (number_of result) (value_of result) []) self.new (memory store.new) }
    {
        let begun = self.admit(store)?;
        let store = store.as_mut_array::<STORE>().unwrap();
        let flow = begun.feed(&mut self.line, &mut self.answer, store, bytes);
        self.keep(flow);
        Ok(flow.count)
    }

    fn hand_out(&mut self, store: &[u8], buffer: &mut [u8]) -> Result<usize, Refusal>
        ensures { Happens self.old (memory store.now) (take buffer.old) (result_of (number_of result) (value_of result) buffer.new) self.new (memory store.now) }
    {
        self.admit(store)?;
        let waiting = self.waiting;
        if waiting == 0 {
            self.status = self.status.raise(Error::QueryUnterminated);
            return Err(Refusal::NoAnswer);
        }
        if buffer.len() < waiting {
            return Err(Refusal::BufferTooShort { needed: waiting });
        }
        buffer[..waiting].copy_from_slice(&self.answer[..waiting]);
        self.waiting = 0;
        Ok(waiting)
    }

    fn report(&mut self, store: &[u8], set: RegisterSet, value: u16) -> Result<(), Refusal>
        ensures { Happens self.old (memory store.now) (condition set value) (result_of (number_of result) 0 []) self.new (memory store.now) }
    {
        self.admit(store)?;
        if Group::WIDEST < value {
            return Err(Refusal::ConditionTooWide);
        }
        self.status = self.status.report(set, value);
        Ok(())
    }

    // Makes the first state.
    pub fn power_up() -> State
        ensures { Started result }
    {
        State {
            settings: Settings::reset(),
            status: Status::power_up(),
            line: [0u8; LINE],
            filled: 0,
            overlong: false,
            answer: [0u8; ANSWER],
            waiting: 0,
        }
    }

    // Takes in bytes of any number, also none; the count is that of their newlines.
    pub fn piece(mut self, store: &mut [u8], bytes: &[u8]) -> Fed
        ensures { Happens self (memory store.old) (received bytes.now) (result_of (number_of result.count) (value_of result.count) []) result.state (memory store.new) }
    {
        let count = self.receive(store, bytes);
        Fed { count, state: self }
    }

    // Copies the waiting answer to the start of the buffer; it is then gone.
    pub fn take(mut self, store: &[u8], buffer: &mut [u8]) -> Taken
        ensures { Happens self (memory store.now) (take buffer.old) (result_of (number_of result.length) (value_of result.length) buffer.new) result.state (memory store.now) }
    {
        let length = self.hand_out(store, buffer);
        Taken {
            length,
            state: self,
        }
    }

    // Takes in the condition that the box reports for a register set.
    pub fn condition(mut self, store: &[u8], set: RegisterSet, value: u16) -> Reported
        ensures { Happens self (memory store.now) (condition set value) (result_of (number_of result.outcome) 0 []) result.state (memory store.now) }
    {
        let outcome = self.report(store, set, value);
        Reported {
            outcome,
            state: self,
        }
    }

    // Gives the status byte. It changes nothing, so the state is not handed back.
    pub fn look(self, store: &[u8]) -> Result<u8, Refusal>
        ensures { Happens self (memory store.now) look (result_of (number_of result) (value_of result) []) self (memory store.now) }
    {
        self.admit(store)?;
        Ok(self.status.status_byte(self.waiting != 0))
    }
}
