// A chunk of input served for a program: fed line by line, each answer taken after the one before.
ghost use Rattle.std.specs.Prelude.{◌≡◌};
ghost use Rattle.interpreter.specs.Box.{memory};
ghost use Rattle.interpreter.specs.State.{number_of};
ghost use Rattle.interpreter.specs.Server.{Serves};
ghost use Rattle.interpreter.specs.ServerParts.{FlowServed};

use crate::flow::Flow;
use crate::sizes::{ANSWER, LINE, STORE};
use crate::state::{Refusal, State};
use crate::table::Table;

// How far a chunk was served: bytes read of the input, and written of the output; both 0 of a refused chunk, as `Serves` says of each.
#[derive(Clone, Copy)]
pub struct Served {
    pub outcome: Result<(), Refusal>,
    pub read: usize,
    pub written: usize,
    pub state: State,
}

// The lines served so far: the small part of the state, and how many bytes of the output are written.
#[derive(Clone, Copy)]
struct Progress {
    flow: Flow,
    written: usize,
}

// Serves lines while the output has room for one answer more: each is received, and an answer that then waits is taken after those
// before it. The loop goes by the bytes read, which are handed back, as Flow::feed does.
fn lines(
    mut flow: Flow,
    line: &mut [u8; LINE],
    out: &mut [u8; ANSWER],
    store: &mut [u8; STORE],
    input: &[u8],
    output: &mut [u8],
) -> Progress
    requires { flow.read ≡ 0 }
    ensures { FlowServed flow line.old out.old (memory store.old) input.now output.old result line.new out.new (memory store.new) output.new }
{
    let table = Table::commands();
    let mut written: usize = 0;
    while (flow.read < input.len()) & (ANSWER <= output.len() - written) {
        flow.feed_line(&table, line, out, store, input);
        let waiting = flow.present.answered;
        let end = written + waiting;
        output[written..end].copy_from_slice(&out[..waiting]);
        written = end;
        flow.forget_answer();
    }
    Progress { flow, written }
}

// Feeds the input's lines and takes each answer into the output. It stops before a line whose answer might find no room there;
// a caller writes the output away and calls again with the rest.
pub fn serve(mut state: State, store: &mut [u8], input: &[u8], output: &mut [u8]) -> Served
    ensures { Serves state (memory store.old) input.now output.old (number_of result.outcome) result.read result.written result.state (memory store.new) output.new }
{
    let begun = match state.admit(store) {
        Ok(flow) => flow,
        Err(refusal) => {
            return Served {
                outcome: Err(refusal),
                read: 0,
                written: 0,
                state,
            };
        }
    };
    let store = store.as_mut_array::<STORE>().unwrap();
    let done = lines(
        begun,
        &mut state.line,
        &mut state.answer,
        store,
        input,
        output,
    );
    state.keep(done.flow);
    Served {
        outcome: Ok(()),
        read: done.flow.read,
        written: done.written,
        state,
    }
}
