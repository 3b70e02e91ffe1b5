// A register group: the five registers of STATus:OPERation, of STATus:LOCK or of STATus:WARNing.
ghost use Rattle.std.specs.Prelude.{◌≡◌, map};
ghost use Rattle.registers.specs.Text.{every};
ghost use Rattle.registers.specs.Group.{meet, condition_is, event_read, possible_group, group_at_start};

#[derive(Clone, Copy)]
pub struct Group {
    pub condition: u16,
    pub event: u16,
    pub enable: u16,
    pub ptr: u16,
    pub ntr: u16,
}

// How many groups the status record has.
pub(crate) const COUNT: usize = 3;

impl Group {
    // The widest value of each register.
    pub const WIDEST: u16 = 32_767;

    // Makes a set's registers at power-up: PTR has every bit.
    pub(crate) fn power_up() -> Group
        ensures { result ≡ group_at_start }
    {
        Group {
            condition: 0,
            event: 0,
            enable: 0,
            ptr: Group::WIDEST,
            ntr: 0,
        }
    }

    // The box reports the condition: bits that rise under PTR or fall under NTR become events.
    pub(crate) fn report(mut self, condition: u16) -> Group
        ensures { result ≡ condition_is condition self }
    {
        let changed = self.condition ^ condition;
        let rises = changed & condition & self.ptr;
        let falls = changed & self.condition & self.ntr;
        self.event |= rises | falls;
        self.condition = condition;
        self
    }

    // Reading the event register clears it.
    pub(crate) fn read_event(mut self) -> Group
        ensures { result ≡ event_read self }
    {
        self.event = 0;
        self
    }

    // Tells whether an event is enabled, which is the group's bit in the status byte.
    pub(crate) fn has_enabled_event(self) -> bool
        ensures { result ≡ meet self.event self.enable }
    {
        self.event & self.enable != 0
    }

    // Refusal 4 lets no register pass that is above its width.
    pub(crate) fn possible(self) -> bool
        ensures { result ≡ possible_group self }
    {
        [self.condition, self.event, self.enable, self.ptr, self.ntr]
            .iter()
            .all(|register| *register <= Group::WIDEST)
    }
}

// *CLS clears every event register.
pub(crate) fn all_read(groups: [Group; COUNT]) -> [Group; COUNT]
    ensures { result ≡ map event_read groups }
{
    groups.map(|group| group.read_event())
}

// Refusal 4 tests every group.
pub(crate) fn all_possible(groups: [Group; COUNT]) -> bool
    ensures { result ≡ every possible_group groups }
{
    groups.iter().all(|group| group.possible())
}
