// The status record: event status, enables, the three register groups, and the queue of error numbers, without their minus.
ghost use Rattle.std.specs.Prelude.{◌≡◌, ◌+◌, ◌^◌, ◌≤◌, ◌<◌};
ghost use Rattle.std.specs.Int.Bits.{bit_or};
ghost use Rattle.registers.specs.Text.{first};
ghost use Rattle.registers.specs.Error.{number_of};
ghost use Rattle.registers.specs.Group.{group_count};
ghost use Rattle.registers.specs.Status.{locked, place_of, group_in, with_group, set_read, set_bits, registers_of, trouble_of, with_registers, raised_in, cleared_in, events_in, oldest_read_in, reported_in, register_set, register_in, widest, status_byte, possible_status, at_start, weight_if};

use crate::error::Error;
use crate::group::Group;
use crate::{error, group, queue};

// The customer's form: sixteen numbers and how many of them wait, and the three groups by value.
#[derive(Clone, Copy)]
pub struct Status {
    pub events: u16,
    pub ese: u16,
    pub sre: u16,
    pub groups: [Group; RegisterSet::COUNT],
    pub queued: usize,
    pub errors: [u16; Status::MOST],
}

// The register sets STATus:OPERation, STATus:LOCK and STATus:WARNing, in the order of their groups.
#[derive(Clone, Copy)]
pub enum RegisterSet {
    Operation,
    Lock,
    Warning,
}

// The registers that a command sets and a query asks.
#[derive(Clone, Copy)]
pub enum Register {
    Ese,
    Sre,
    Enable(RegisterSet),
    Ntr(RegisterSet),
    Ptr(RegisterSet),
}

// Bit 6, the summary of the status byte, which *SRE never has.
const SUMMARY: u8 = 64;

// Gives a bit's weight where the bit is on; a function, so that each sum of bits has a bound.
fn bit_if(on: bool, weight: u8) -> u8
    ensures value { result ≡ weight_if on weight }
    ensures upper_bound { result ≤ weight }
{
    u8::from(on) * weight
}

impl RegisterSet {
    pub const COUNT: usize = group::COUNT;

    // Gives the set's place among the groups.
    fn place(self) -> usize
        ensures value { result ≡ place_of self }
        ensures upper_bound { result < group_count }
    {
        self as usize
    }
}

impl Register {
    // Gives the widest value that the register takes.
    pub fn widest(self) -> u16
        ensures { result ≡ widest self }
    {
        match self {
            Register::Ese | Register::Sre => Status::WIDEST,
            Register::Enable(_) | Register::Ntr(_) | Register::Ptr(_) => Group::WIDEST,
        }
    }
}

impl Status {
    // How many errors wait at most, and the number that stands for those that were lost.
    pub const MOST: usize = queue::MOST;

    pub const OVERFLOW: u16 = 350;

    // The widest value of *ESE, *SRE and the event status register.
    pub const WIDEST: u16 = 255;

    // Makes the status of power-up: event status 128, every PTR 32,767, and all else empty.
    pub fn power_up() -> Status
        ensures { result ≡ at_start }
    {
        let group = Group::power_up();
        Status {
            events: 128,
            ese: 0,
            sre: 0,
            groups: [group; RegisterSet::COUNT],
            queued: 0,
            errors: [0u16; Status::MOST],
        }
    }

    // Raises an error. A full queue loses its number, and -350 in the last place says so.
    pub fn raise(mut self, error: Error) -> Status
        ensures { result ≡ raised_in (number_of error) self }
    {
        let number = error.number();
        let at = self.queued;
        self.events |= error::event_bit(number);
        if at < Status::MOST {
            self.errors[at] = number;
            self.queued = at + 1;
        } else {
            self.errors[queue::LAST] = Status::OVERFLOW;
            self.events |= error::event_bit(Status::OVERFLOW);
        }
        self
    }

    // *CLS clears the events and the queue. The queue's places keep their numbers, which mean nothing.
    pub fn clear(mut self) -> Status
        ensures { result ≡ cleared_in self }
    {
        self.groups = group::all_read(self.groups);
        self.events = 0;
        self.queued = 0;
        self
    }

    // *OPC sets event bit 0.
    pub fn complete(mut self) -> Status
        ensures { result ≡ events_in (bit_or self.events 1) self }
    {
        self.events |= 1;
        self
    }

    // Reading the event status register clears it.
    pub fn read_events(mut self) -> Status
        ensures { result ≡ events_in 0 self }
    {
        self.events = 0;
        self
    }

    // Reading a set's event register clears it.
    pub fn read_event(mut self, set: RegisterSet) -> Status
        ensures { result ≡ with_registers (set_read set (registers_of self)) self }
    {
        let group = self.group(set).read_event();
        self.put(set, group);
        self
    }

    // Gives the registers of a set.
    pub fn group(self, set: RegisterSet) -> Group
        ensures { result ≡ group_in set (registers_of self) }
    {
        self.groups[set.place()]
    }

    // Puts other registers in the place of a set's.
    fn put(&mut self, set: RegisterSet, group: Group)
        ensures { self.new ≡ with_registers (with_group set group (registers_of self.old)) self.old }
    {
        self.groups[set.place()] = group;
    }

    // The lock holds while a bit of its condition register is 1.
    pub fn is_locked(self) -> bool
        ensures { result ≡ locked (registers_of self) }
    {
        self.group(RegisterSet::Lock).condition != 0
    }

    // Gives the oldest error, 0 where none waits, as SYSTem:ERRor? answers it.
    pub fn oldest(self) -> u16
        ensures { result ≡ first (trouble_of self).queue }
    {
        if self.queued == 0 {
            return 0;
        }
        self.errors[0]
    }

    // Removes the oldest error, once it is answered.
    pub fn read_oldest(mut self) -> Status
        ensures { result ≡ oldest_read_in self }
    {
        if self.queued > 0 {
            self.errors = queue::shifted(self.errors);
            self.queued -= 1;
        }
        self
    }

    // Reports a set's condition; refusal 3 leaves all unchanged for a value above 32,767.
    pub fn report(mut self, set: RegisterSet, condition: u16) -> Status
        ensures { result ≡ reported_in set condition self }
    {
        if condition <= Group::WIDEST {
            let group = self.group(set).report(condition);
            self.put(set, group);
        }
        self
    }

    // Gives the value that the register's query answers.
    pub fn register(self, register: Register) -> u16
        ensures { result ≡ register_in register (registers_of self) }
    {
        match register {
            Register::Ese => self.ese,
            Register::Sre => self.sre,
            Register::Enable(set) => self.group(set).enable,
            Register::Ntr(set) => self.group(set).ntr,
            Register::Ptr(set) => self.group(set).ptr,
        }
    }

    // Stores a register's value, *SRE's without bit 6; one above the register's width is not stored.
    pub fn store(mut self, register: Register, value: u16) -> Status
        ensures { result ≡ register_set register value self }
    {
        if register.widest() < value {
            return self;
        }
        match register {
            Register::Ese => self.ese = value,
            Register::Sre => self.sre = value & !u16::from(SUMMARY),
            Register::Enable(set) => self.groups[set.place()].enable = value,
            Register::Ntr(set) => self.groups[set.place()].ntr = value,
            Register::Ptr(set) => self.groups[set.place()].ptr = value,
        }
        self
    }

    // Adds up the sets' bits of the status byte: OPERation's is bit 7, LOCK's bit 0, WARNing's bit 1.
    fn set_bits(self) -> u8
        ensures value { result ≡ set_bits self.groups }
        ensures upper_bound { result ≤ 2 ^ 7 + 2 ^ 1 + 2 ^ 0 }
    {
        bit_if(self.group(RegisterSet::Operation).has_enabled_event(), 128)
            + bit_if(self.group(RegisterSet::Lock).has_enabled_event(), 1)
            + bit_if(self.group(RegisterSet::Warning).has_enabled_event(), 2)
    }

    // Sums up the status byte, and sets bit 6 where *SRE enables one of the others.
    pub fn status_byte(self, answers: bool) -> u8
        ensures { result ≡ status_byte (registers_of self) (trouble_of self) answers }
    {
        let sets = self.set_bits();
        let standard = bit_if(self.events & self.ese != 0, 32);
        let answer = bit_if(answers, 16);
        let queue = bit_if(self.queued != 0, 4);
        let summary = sets + standard + answer + queue;
        summary + bit_if(u16::from(summary) & self.sre != 0, SUMMARY)
    }

    // Refusal 4 tests the queue's length first: only so many numbers are looked at.
    pub fn possible(self) -> bool
        ensures { result ≡ possible_status self }
    {
        let waiting = self.queued;
        if Status::MOST < waiting {
            return false;
        }
        let enables = (self.ese <= Status::WIDEST)
            & (self.sre <= Status::WIDEST)
            & (self.sre & u16::from(SUMMARY) == 0);
        let trouble = (self.events <= Status::WIDEST)
            & queue::may_all_be_queued(self.errors, waiting);
        enables & group::all_possible(self.groups) & trouble
    }
}
