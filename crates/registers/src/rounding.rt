// Check 7: a value rounded to a step, halves away from zero, and only then compared with limits; and on which side of the
// rounded value the exact one lies (02, #107).
ghost use Rattle.std.specs.Prelude.{◌≡◌, true, ◌+◌, ◌*◌, ◌^◌, min};
ghost use Rattle.registers.specs.Rounding.{turned, RoundedIn, switched_on};
ghost use Rattle.registers.specs.RoundingParts.{beyond, sized_over, held_over, held_in};

use crate::number::Decimal;

// How the exact value stands to the one that it was rounded to: the same, below it or above it.
#[derive(Clone, Copy)]
pub enum Side {
    On,
    Below,
    Above,
}

// What check 7 says of a value: it in steps, or none outside the limits; and what was rounded off. The side is that of the
// rounded value, within the limits or not.
#[derive(Clone, Copy)]
pub struct Rounded {
    pub fit: Option<i32>,
    pub side: Side,
}

// How many steps a size or a value is, rounded, and how the exact one stands to that.
#[derive(Clone, Copy)]
struct Stepped<T> {
    count: T,
    side: Side,
}

// A size in steps is held here: it is beyond every limit of 32 bits, on both sides of zero, so that
// holding changes no comparison and nothing wraps.
const BEYOND: u64 = 2_147_483_649;

// Multiplies by 10 to the power n and stops at the bound, however large n is.
fn times_tens(x: u64, n: u64) -> u64
    ensures { result ≡ min beyond (x * 10 ^ n) }
{
    let mut y = x;
    for _turn in 0..n {
        if BEYOND <= y {
            return BEYOND;
        }
        y *= 10;
    }
    y.min(BEYOND)
}

// Divides by 10 to the power n + 1 and rounds: only the last digit that is cut off decides. The size
// is exact where every digit that is cut off is 0.
fn over_tens(x: u64, n: u64) -> Stepped<u64>
    ensures { result ≡ sized_over x (10 ^ (n + 1)) }
{
    let mut y = x;
    let mut exact = true;
    for _turn in 0..n {
        exact &= y % 10 == 0;
        y /= 10;
    }
    let last = y % 10;
    let whole = y / 10;
    if 5 <= last {
        return Stepped {
            count: whole + 1,
            side: Side::Below,
        };
    }
    if exact & (last == 0) {
        return Stepped {
            count: whole,
            side: Side::On,
        };
    }
    Stepped {
        count: whole,
        side: Side::Above,
    }
}

// Rounds x times 10 to the power up over 10 to the power down. Only how far one power is above the
// other matters, so one loop runs and no power is computed.
fn size_of(x: u64, up: u64, down: u64) -> Stepped<u64>
    ensures { result ≡ held_over (x * 10 ^ up) (10 ^ down) }
{
    if down <= up {
        return Stepped {
            count: times_tens(x, up - down),
            side: Side::On,
        };
    }
    let low = over_tens(x, down - up - 1);
    let side = low.side;
    Stepped {
        count: low.count.min(BEYOND),
        side,
    }
}

// Turns the side with the sign: below zero the smaller size is the greater value.
fn turned(side: Side) -> Side
    ensures { result ≡ turned true side }
{
    match side {
        Side::On => Side::On,
        Side::Below => Side::Above,
        Side::Above => Side::Below,
    }
}

// Counts a value in steps of which 10 to the power tens make one. It stays held, in 64 bits, so that
// the sign can't wrap it.
fn steps(d: Decimal, tens: u32) -> Stepped<i64>
    ensures { result ≡ held_in (10 ^ tens) d }
{
    let up = u64::from(d.up) + u64::from(tens);
    let down = d.down;
    let digits = d.digits;
    let sized = size_of(digits, up, down);
    let size = sized.count as i64;
    let side = sized.side;
    if d.minus {
        return Stepped {
            count: -size,
            side: turned(side),
        };
    }
    Stepped { count: size, side }
}

// Makes check 7 for a row of which 10 to the power tens steps make one: it rounds, and only then
// compares.
pub fn round_in(d: Decimal, tens: u32, low: i32, high: i32) -> Rounded
    ensures { RoundedIn (10 ^ tens) low high d result }
{
    let stepped = steps(d, tens);
    let v = stepped.count;
    let side = stepped.side;
    if (i64::from(low) <= v) & (v <= i64::from(high)) {
        return Rounded {
            fit: Some(v as i32),
            side,
        };
    }
    Rounded { fit: None, side }
}

// A number given for a bool is rounded to a whole one: zero is off, any other is on.
pub fn switches_on(d: Decimal) -> bool
    ensures { result ≡ switched_on d }
{
    let sized = size_of(d.digits, u64::from(d.up), d.down);
    sized.count != 0
}
