// The settings by their slot: 0 to 16 the rows of 01's table and SYSTem:EXAM after it, 17 to 29 those of
// channel 2 (02, #111). Bools are 0 and 1, words their place, numbers in steps, the negative peak limit signed
// tenths.
ghost use Rattle.std.specs.Prelude.{◌≡◌, ◌&&◌, not, eqb};
ghost use Rattle.std.specs.Int.Signed.{lt_z};
ghost use Rattle.registers.specs.Settings.{value_at, at_reset, lowest, highest, within, conflict, possible_values, possible_settings, stored, text_stored, narrow, above, wide_range, twelve_volts, kind_of, quantity_of, sort_of, meant_values, accepted};

use crate::label;
use crate::label::TEXT;
use crate::rounding::Side;
use crate::suffix::Quantity;

// The slots, as every array below has them; channel 2 has rows 0 to 2 and 4 to 13 again, from 17 on:
//
//    0  OUTPut[:STATe]
//    1  OUTPut:PON
//    2  OUTPut:RELay
//    3  OUTPut:MONitor:MODE
//    4  [SOURce:]VOLTage[:LEVel][:IMMediate][:AMPLitude]
//    5  [SOURce:]VOLTage:RANGe
//    6  [SOURce:]FREQuency
//    7  [SOURce:]CURRent:LIMit:RMS[:AMPLitude]
//    8  [SOURce:]CURRent:LIMit:RMS:MODE
//    9  [SOURce:]CURRent:LIMit:PEAK:MODE
//   10  [SOURce:]CURRent:LIMit:RMS:TIME
//   11  [SOURce:]CURRent:LIMit:PEAK:TIME
//   12  [SOURce:]CURRent:LIMit:PEAK:HIGH
//   13  [SOURce:]CURRent:LIMit:PEAK:LOW
//   14  DISPlay:BRIGhtness
//   15  SYSTem:KLOCk
//   16  SYSTem:EXAM
const SLOTS: usize = 30;

// Every value is a number, as limits, blocks and hand-made records know it. The display's text (02, #109) ends before its first zero.
#[derive(Clone, Copy)]
pub struct Settings {
    pub values: [i32; SLOTS],
    pub text: [u8; TEXT],
}

// What a setting's values are: on or off, words, numbers of step 0.1, numbers of step 1.
#[derive(Clone, Copy)]
pub enum Values {
    Bool,
    Word,
    Tenths,
    Whole,
}

// What a row's values are, and what its numbers measure.
#[derive(Clone, Copy)]
struct Kind {
    values: Values,
    quantity: Quantity,
}

const SWITCH: Kind = Kind {
    values: Values::Bool,
    quantity: Quantity::Nothing,
};

const WORDS: Kind = Kind {
    values: Values::Word,
    quantity: Quantity::Nothing,
};

const VOLTS: Kind = Kind {
    values: Values::Tenths,
    quantity: Quantity::Volt,
};

const HERTZ: Kind = Kind {
    values: Values::Tenths,
    quantity: Quantity::Hertz,
};

const AMPERES: Kind = Kind {
    values: Values::Tenths,
    quantity: Quantity::Ampere,
};

const SECONDS: Kind = Kind {
    values: Values::Whole,
    quantity: Quantity::Second,
};

const NUMBER: Kind = Kind {
    values: Values::Whole,
    quantity: Quantity::Nothing,
};

static KINDS: [Kind; SLOTS] = [
    SWITCH, SWITCH, SWITCH, WORDS, VOLTS, WORDS, HERTZ, AMPERES, WORDS, WORDS, SECONDS, SECONDS,
    AMPERES, AMPERES, NUMBER, SWITCH, SWITCH, SWITCH, SWITCH, SWITCH, VOLTS, WORDS, HERTZ, AMPERES,
    WORDS, WORDS, SECONDS, SECONDS, AMPERES, AMPERES,
];

// A channel's voltage and its range, which two rules name together.
#[derive(Clone, Copy)]
struct Channel {
    voltage: usize,
    range: usize,
}

impl Channel {
    const FIRST: Channel = Channel {
        voltage: Settings::VOLTAGE,
        range: Settings::RANGE,
    };

    const SECOND: Channel = Channel {
        voltage: Settings::VOLTAGE_2,
        range: Settings::RANGE_2,
    };
}

// Gives a slot's kind. One past the last counts as a bool, here and in the readers below, so that each answers for any slot,
// as specs/Settings does, and no caller needs an Option.
fn kind_at(slot: usize) -> Kind
    ensures values { meant_values result.values ≡ sort_of (kind_of slot) }
    ensures quantity { result.quantity ≡ quantity_of slot }
{
    KINDS.get(slot).copied().unwrap_or(SWITCH)
}

impl Settings {
    // How many rows 01's table and 02 have, how many slots there are, and those that a rule names.
    pub const ROWS: usize = 17;

    pub const COUNT: usize = SLOTS;

    pub const OUTPUT: usize = 0;

    pub const VOLTAGE: usize = 4;

    pub const RANGE: usize = 5;

    pub const EXAM: usize = 16;

    pub const OUTPUT_2: usize = 17;

    pub const VOLTAGE_2: usize = 20;

    pub const RANGE_2: usize = 21;

    // 12.0 V in steps.
    pub const TWELVE_VOLTS: i32 = 120;

    // Each slot's limits in steps; the voltage's highest is that of range R24V. They stand beside the kinds, as arrays of
    // signed numbers, since the customer's form has associated limits and the negative peak limit in signed tenths.
    pub const LOWEST: [i32; SLOTS] = [
        0, 0, 0, 0, 0, 0, 400, 1, 0, 0, 1, 1, 5, -80, 0, 0, 0, 0, 0, 0, 0, 0, 400, 1, 0, 0, 1, 1,
        5, -80,
    ];

    pub const HIGHEST: [i32; SLOTS] = [
        1, 1, 1, 2, 240, 1, 5500, 20, 1, 1, 10, 10, 80, -5, 99, 1, 1, 1, 1, 1, 240, 1, 5500, 20, 1,
        1, 10, 10, 80, -5,
    ];

    // Makes the settings that *RST leaves.
    pub fn reset() -> Settings
        ensures { result ≡ at_reset }
    {
        Settings {
            values: [
                0, 0, 1, 2, 0, 0, 500, 10, 1, 1, 1, 1, 40, -40, 50, 0, 0, 0, 0, 1, 0, 0, 500, 10,
                1, 1, 1, 1, 40, -40,
            ],
            text: [0; TEXT],
        }
    }

    // Tells what a slot's values are.
    pub fn values_of(slot: usize) -> Values
        ensures { meant_values result ≡ sort_of (kind_of slot) }
    {
        kind_at(slot).values
    }

    // Tells what a slot's numbers measure, and so which suffixes they take; past the table they measure
    // nothing.
    pub fn quantity_of(slot: usize) -> Quantity
        ensures { result ≡ quantity_of slot }
    {
        kind_at(slot).quantity
    }

    // Gives the lowest value of a slot, which MINimum stands for.
    pub fn lowest(slot: usize) -> i32
        ensures { result ≡ lowest slot }
    {
        Settings::LOWEST.get(slot).copied().unwrap_or(0)
    }

    // Gives the highest value of a slot, which MAXimum stands for; a voltage's goes by its channel's range.
    pub fn highest(self, slot: usize) -> i32
        ensures { result ≡ highest self slot }
    {
        if self.is_narrow(slot) {
            return Settings::TWELVE_VOLTS;
        }
        Settings::HIGHEST.get(slot).copied().unwrap_or(1)
    }

    // Tells whether a slot is a voltage whose own channel's range is R12V.
    fn is_narrow(self, slot: usize) -> bool
        ensures { result ≡ narrow self slot }
    {
        self.is_narrow_in(slot, Channel::FIRST) || self.is_narrow_in(slot, Channel::SECOND)
    }

    fn is_narrow_in(self, slot: usize, channel: Channel) -> bool
        ensures { result ≡ (eqb slot channel.voltage && not (wide_range self channel.range)) }
    {
        slot == channel.voltage && self.value(channel.range) < 1
    }

    // Gives the value of a slot, 0 past the table.
    pub fn value(self, slot: usize) -> i32
        ensures { result ≡ value_at self slot }
    {
        self.values.get(slot).copied().unwrap_or(0)
    }

    // Makes check 7's comparison, by which refusal 4 tests a row too.
    fn within(self, slot: usize, value: i32) -> bool
        ensures { result ≡ within self slot value }
    {
        (Settings::lowest(slot)..=self.highest(slot)).contains(&value)
    }

    // Exam mode lets no number pass that is off its slot's step (02, #107).
    pub fn accepts(self, side: Side) -> bool
        ensures { result ≡ accepted self side }
    {
        matches!(side, Side::On) || self.value(Settings::EXAM) < 1
    }

    // Tells whether a slot is a range while its own channel's voltage is above 12.0. One function for this and `is_narrow` would be given
    // both slots and the test.
    fn is_above(self, slot: usize) -> bool
        ensures { result ≡ above self slot }
    {
        self.is_above_in(slot, Channel::FIRST) || self.is_above_in(slot, Channel::SECOND)
    }

    fn is_above_in(self, slot: usize, channel: Channel) -> bool
        ensures { result ≡ (eqb slot channel.range && lt_z twelve_volts (value_at self channel.voltage)) }
    {
        slot == channel.range && Settings::TWELVE_VOLTS < self.value(channel.voltage)
    }

    // Check 8 refuses R12V while the channel's voltage is above 12.0.
    pub fn conflicts(self, slot: usize, value: i32) -> bool
        ensures { result ≡ conflict self slot value }
    {
        self.is_above(slot) && value <= 0
    }

    // Stores a slot's value where checks 7 and 8 let it pass, so that no caller can break the limits.
    pub fn store(mut self, slot: usize, value: i32) -> Settings
        ensures { result ≡ stored slot value self }
    {
        if slot < Settings::COUNT && self.within(slot, value) && !self.conflicts(slot, value) {
            self.values[slot] = value;
        }
        self
    }

    // Stores a text as the record holds it, where its limits let it pass, so that no caller can break them.
    pub fn store_text(mut self, text: [u8; TEXT]) -> Settings
        ensures { result ≡ text_stored text self }
    {
        if label::possible(&text) {
            self.text = text;
        }
        self
    }

    // Refusal 4 lets no value pass that is outside its limits.
    fn values_possible(self) -> bool
        ensures { result ≡ possible_values self }
    {
        for slot in 0..Settings::COUNT {
            if !self.within(slot, self.value(slot)) {
                return false;
            }
        }
        true
    }

    // Nor a text that is outside its own.
    pub fn possible(self) -> bool
        ensures { result ≡ possible_settings self }
    {
        self.values_possible() && label::possible(&self.text)
    }
}
