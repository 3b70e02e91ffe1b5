// What the units of a line change, and what an error does to it.
ghost use Rattle.std.specs.Prelude.{◌≡◌, ◌≤◌, ◌<◌};
ghost use Rattle.registers.specs.Queue.{most};
ghost use Rattle.interpreter.specs.Box.{most_answer};
ghost use Rattle.interpreter.specs.PresentParts.{Tested, raised_with, RefusedWith, Discarded};

use registers::error::Error;
use registers::settings::Settings;
use registers::status::Status;

// The settings, the status, and how many bytes of the answer's buffer are written. It is small and goes by value; the line and
// the answer's buffer are lent beside it.
#[derive(Clone, Copy)]
pub(crate) struct Present {
    pub(crate) settings: Settings,
    pub(crate) status: Status,
    pub(crate) answered: usize,
}

// What goes from one unit of a line to the next: the answers so far leave room for the newline, and the errors fit their queue.
#[derive(Clone, Copy)]
pub(crate) struct Running {
    pub(crate) present: Present,
    ghost queue_fits: { present.status.queued ≤ most },
    ghost room_left: { present.answered < most_answer },
}

impl Present {
    // Tests for refusal 4 on settings and status.
    pub(crate) fn possible(self) -> bool
        ensures { Tested self result }
    {
        let settings = self.settings;
        let status = self.status;
        settings.possible() & status.possible()
    }

    // Puts an error into the status; settings and answer stay.
    pub(crate) fn raise(mut self, error: Error) -> Present
        ensures { result ≡ raised_with error self }
    {
        self.status = self.status.raise(error);
        self
    }

    // Refuses a unit: "raises one error and changes nothing else (but check 9 drops the answer)".
    pub(crate) fn refuse(self, error: Error) -> Present
        ensures { RefusedWith error self result }
    {
        let mut left = self.raise(error);
        match error {
            Error::QueryDeadlocked => {
                left.answered = 0;
                left
            }
            _ => left,
        }
    }

    // Empties the buffer for the answers of a new line: "a waiting answer is first discarded with -410".
    pub(crate) fn discard(self) -> Present
        ensures { Discarded self result }
    {
        if self.answered == 0 {
            return self;
        }
        let mut left = self.raise(Error::QueryInterrupted);
        left.answered = 0;
        left
    }
}
