// The bench box as a program: it reads lines from standard input and writes each answer to standard
// output. It starts at power-up; a last line without its newline isn't run.
//
//     printf 'VOLT 30\nSYST:ERR?\n*ESR?\n' | bench24
//
// What was read is served at once, so a pipe that waits for an answer gets it, and a long file goes
// through 64 KB at a time. The first write that fails ends the run.
//
// The contracts say that nothing goes wrong and that every run ends; that of all the bytes that a read
// put into the buffer a first part was heard, in whole lines, never an empty one, and all of them where
// the bench still serves; that what is handed to a write are the answers to the lines just heard; and
// that what was heard since power-up are the lines of some bytes, each once and in order. No contract can
// say which bytes the system read or wrote: the kit's write promises nothing of its answer, and its read
// nothing of the bytes. So what is not proved is kept to three lines below: that `run` serves what it has
// just read, that `write_answers` writes to standard output, and that only a write that fails closes the
// bench. The stored run holds them to the twin's answers.
#![tactic(auto)]

ghost use Rattle.std.specs.Prelude.{◌≡◌, true};
ghost use Rattle.registers.specs.Settings.{AsLong};
ghost use Rattle.interpreter.specs.State.{possible_state};

use interpreter::server;
use interpreter::state::{STORE, State};
use std::io;
use std::io::Read;

// The buffers for what a read brings and for the answers to it.
const CHUNK: usize = 65536;

// The box after what was heard, with the saved setups, which a power-up would leave: they last as long as the program.
// The box is a possible one, and its settings are as long as their type says.
#[derive(Drop)]
struct Bench {
    state: State,
    store: [u8; STORE],
    ghost possible: { possible_state state ≡ true },
    ghost long: { AsLong state.settings },
}

// Why a bench is closed.
#[derive(Clone, Copy, Debug)]
enum Closed {
    NothingRead,
    NotWritten,
}

impl Bench {
    ghost use Rattle.std.specs.Prelude.{◌≤◌, length};
    ghost use Rattle.interpreter.specs.Box.{memory};
    ghost use Rattle.bench24.specs.Heard.{Answers, HeardPart, HeardRead, HeardSince, clamp_len};

    // Writes answers. It asks its caller to show that these bytes are the answers to the first part of what
    // was read and nothing else; what they are answers to is handed over for that alone.
    fn write_answers(
        rt: &impl Print,
        start: State,
        input: &[u8],
        read: usize,
        answers: &[u8],
    ) -> io::Result<()>
        requires { Answers start input.now read answers.now }
    {
        rt.write_all(answers)
    }

    // Serves what was read, a full output at a time. A write that fails closes the bench. How far a turn gets only `serve`
    // tells, so the loop takes that off the rest.
    fn serve_all(
        &mut self,
        rt: &impl Print,
        input: &[u8],
        output: &mut [u8; CHUNK],
    ) -> Result<(), Closed>
        ensures { HeardPart self.old.state (memory self.old.store) input.now result self.new.state (memory self.new.store) }
    {
        let mut rest = input;
        while !rest.is_empty() {
            let start = self.state;
            let served = server::serve(start, &mut self.store, rest, output);
            self.state = served.state;
            let answers = &output[..served.written];
            let wrote = Bench::write_answers(rt, start, rest, served.read, answers);
            rest = &rest[served.read..];
            let Ok(()) = wrote else {
                return Err(Closed::NotWritten);
            };
        }
        Ok(())
    }

    // How many bytes of the buffer that is: none where the read failed, and never more than there are.
    fn count(got: io::Result<usize>, input: &[u8]) -> usize
        ensures within { result ≤ length input.now }
        ensures value { result ≡ clamp_len got (length input.now) }
    {
        got.unwrap_or(0).min(input.len())
    }

    // Serves what a read left in the buffer, as many bytes as it answered. At the input's end, or where it
    // can't be read, that is nothing, and the bench is closed.
    fn serve_read(
        &mut self,
        rt: &impl Print,
        input: &[u8],
        got: io::Result<usize>,
        output: &mut [u8; CHUNK],
    ) -> Result<(), Closed>
        ensures { HeardRead self.old.state (memory self.old.store) input.now got result self.new.state (memory self.new.store) }
    {
        let n = Bench::count(got, input);
        if n == 0 {
            return Err(Closed::NothingRead);
        }
        self.serve_all(rt, &input[..n], output)
    }

    // Serves from power-up until the bench is closed. A proved loop has to end: this one does after more reads
    // than any run makes.
    fn run(rt: &(impl Input + Print), store: [u8; STORE]) -> Bench
        ensures { HeardSince (memory store) result.state (memory result.store) }
    {
        let mut input = [0u8; CHUNK];
        let mut output = [0u8; CHUNK];
        let mut source = rt.reader();
        let mut bench = Bench {
            state: State::power_up(),
            store,
        };
        for _ in 0..u64::MAX {
            let got = source.read(&mut input);
            if bench.serve_read(rt, &input, got, &mut output).is_err() {
                return bench;
            }
        }
        bench
    }
}

fn main(rt: HostRuntime) {
    Bench::run(&rt, [0; STORE]);
}
