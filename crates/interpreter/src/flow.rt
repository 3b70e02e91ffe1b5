// The bytes that come in: line by line, with the line and the waiting answer in place.
ghost use Rattle.std.specs.Prelude.{◌≡◌, [], ◌∷◌, ◌+◌, ◌^◌, ◌≤◌, ◌<◌, length, drop};
ghost use Rattle.registers.specs.Text.{Text};
ghost use Rattle.registers.specs.Queue.{most};
ghost use Rattle.interpreter.specs.Box.{Memory, memory, most_line, most_answer};
ghost use Rattle.interpreter.specs.Line.{newlines};

use crate::line;
use crate::present::{Present, Running};
use crate::sizes::{ANSWER, LINE, STORE};
use crate::table::Table;
use registers::text;

// The small part of a state, which goes by value, and how many bytes and newlines were taken in. Line, answer and store are lent beside
// it, each for itself: a newline reads the line while it writes the others, so that one struct of the three would be taken apart again.
#[derive(Clone, Copy)]
pub(crate) struct Flow {
    pub(crate) present: Present,
    pub(crate) filled: usize,
    pub(crate) overlong: bool,
    pub(crate) read: usize,
    pub(crate) count: usize,
    ghost line_fits: { filled ≤ most_line },
    ghost answer_fits: { present.answered ≤ most_answer },
    ghost queue_fits: { present.status.queued ≤ most },
    ghost no_more_newlines: { count ≤ read },
}

impl Flow {
    ghost use Rattle.interpreter.specs.FlowParts.{first_line, Untold, Interrupted, HeldRan, FlowFed};

    // Forgets the waiting answer, which was taken.
    pub(crate) fn forget_answer(&mut self)
        ensures { Untold self.old self.new }
    {
        self.present.answered = 0;
    }

    // Adds bytes without a newline to the line, as many as it has room for; "further bytes are dropped".
    fn hold(&mut self, line: &mut [u8; LINE], part: &[u8])
        requires { (self.old.read + length part.now < 2 ^ 63) × (newlines part.now ≡ 0) }
        ensures { (out : Text) (m : Memory) → FlowFed self.old line.old out m part.now self.new line.new out m }
    {
        let at = self.filled;
        let n = part.len().min(LINE - at);
        line[at..at + n].copy_from_slice(&part[..n]);
        self.filled = at + n;
        self.overlong = self.overlong | (n < part.len());
        self.read += part.len();
    }

    // Discards a waiting answer, if there is one: "a waiting answer is first discarded with -410".
    fn discard(&mut self)
        ensures { Interrupted self.old self.new }
    {
        if self.present.answered != 0 {
            self.present = self.present.discard();
        }
    }

    // Runs the line that was held. A blank one does nothing, and is told here, so that nothing is moved for it.
    fn run_held(
        &mut self,
        table: &Table,
        line: &[u8; LINE],
        out: &mut [u8; ANSWER],
        store: &mut [u8; STORE],
    )
        requires { self.old.present.answered ≡ 0 }
        ensures { HeldRan self.old line.now (memory store.old) self.new out.new (memory store.new) }
    {
        let held = &line[..self.filled];
        if !self.overlong & (text::white_end(held, 0) == held.len()) {
            return;
        }
        let running = Running {
            present: self.present,
        };
        self.present = line::run_line(table, running, held, self.overlong, out, store);
    }

    // Ends a line: a waiting answer is first discarded, then the line that was held is run.
    fn newline(
        &mut self,
        table: &Table,
        line: &[u8; LINE],
        out: &mut [u8; ANSWER],
        store: &mut [u8; STORE],
    )
        requires { self.old.read < 2 ^ 63 }
        ensures { FlowFed self.old line.now out.old (memory store.old) (10 ∷ []) self.new line.now out.new (memory store.new) }
    {
        self.discard();
        self.run_held(table, line, out, store);
        self.filled = 0;
        self.overlong = false;
        self.read += 1;
        self.count += 1;
    }

    // Takes in the next line, its bytes with their newline, or all there are where none ends it.
    pub(crate) fn feed_line(
        &mut self,
        table: &Table,
        line: &mut [u8; LINE],
        out: &mut [u8; ANSWER],
        store: &mut [u8; STORE],
        bytes: &[u8],
    )
        requires { self.old.read ≤ length bytes.now }
        ensures { FlowFed self.old line.old out.old (memory store.old) (first_line (drop self.old.read bytes.now)) self.new line.new out.new (memory store.new) }
    {
        let at = self.read;
        let end = text::find(bytes, at, b'\n');
        self.hold(line, &bytes[at..end]);
        if end < bytes.len() {
            self.newline(table, line, out, store);
        }
    }

    // Takes bytes in, line by line. The table is made once for all of them. The loop goes by the count of bytes read, which `serve`
    // hands back; an iterator over the lines would count them a second time.
    pub(crate) fn feed(
        mut self,
        line: &mut [u8; LINE],
        out: &mut [u8; ANSWER],
        store: &mut [u8; STORE],
        bytes: &[u8],
    ) -> Flow
        requires { self.read ≡ 0 }
        ensures { FlowFed self line.old out.old (memory store.old) bytes.now result line.new out.new (memory store.new) }
    {
        let table = Table::commands();
        while self.read < bytes.len() {
            self.feed_line(&table, line, out, store, bytes);
        }
        self
    }
}
