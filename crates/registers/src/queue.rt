// The queue of error numbers, oldest first and without their minus, as the status record holds it.
ghost use Rattle.std.specs.Prelude.{◌≡◌, ◌++◌, ◌∷◌, [], ◌≤◌, take, drop};
ghost use Rattle.registers.specs.Text.{every};
ghost use Rattle.registers.specs.Queue.{most, may_be_queued};

// How many numbers wait at most, and the last of their places.
pub(crate) const MOST: usize = 16;

pub(crate) const LAST: usize = MOST - 1;

// The numbers that 01 and 02 put into the queue: those of `Error`, and -350, which is none of its cases.
const QUEUEABLE: [u16; 24] = [
    101, 102, 104, 108, 109, 113, 114, 121, 123, 124, 131, 138, 141, 150, 151, 221, 222, 223, 314,
    350, 363, 410, 420, 430,
];

// Tells a number that 01 or 02 queues from "a number this paper never puts there".
fn may_be_queued(number: u16) -> bool
    ensures { result ≡ may_be_queued number }
{
    QUEUEABLE.contains(&number)
}

// Refusal 4 tests every number that waits.
pub(crate) fn may_all_be_queued(errors: [u16; MOST], count: usize) -> bool
    requires { count ≤ most }
    ensures { result ≡ every may_be_queued (take count errors) }
{
    errors[..count].iter().all(|number| may_be_queued(*number))
}

// When the oldest number is removed the others move up, and a 0 fills the last place.
pub(crate) fn shifted(errors: [u16; MOST]) -> [u16; MOST]
    ensures { result ≡ drop 1 errors ++ 0 ∷ [] }
{
    let mut next = [0u16; MOST];
    next[..LAST].copy_from_slice(&errors[1..]);
    next
}
