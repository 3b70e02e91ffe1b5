// The library in a program of one's own: lines go in, answers come out, and the power stage reports
// the teacher's lock key. It writes what document 01 and 02 say of these lines.
#![tactic(auto)]

use interpreter::state::{ANSWER, STORE, State};
use registers::status::RegisterSet;
use std::io;

// Hands the box a line and writes its answer, if it has one. Bit 4 of the status byte tells, so no
// take is made in vain: that would be error -420.
fn send(
    rt: &impl Print,
    state: State,
    store: &mut [u8],
    line: &[u8],
    buffer: &mut [u8],
) -> io::Result<State> {
    let fed = state.piece(store, line);
    let Ok(byte) = fed.state.look(store) else {
        return Ok(fed.state);
    };
    if byte & 16 == 0 {
        return Ok(fed.state);
    }
    let taken = fed.state.take(store, buffer);
    if let Ok(length) = taken.length {
        rt.write_all(&buffer[0..length])?;
    }
    Ok(taken.state)
}

fn main(rt: HostRuntime) -> io::Result<()> {
    // no answer is longer
    let mut buffer = [0u8; ANSWER];
    // the saved setups; a device would keep them
    let mut store = [0u8; STORE];
    let mut state = State::power_up();
    state = send(
        &rt,
        state,
        &mut store,
        b"VOLT 5;FREQ 60;VOLT?;FREQ?\n",
        &mut buffer,
    )?;
    // the key is turned: the lock's condition register has a bit
    let locked = state.condition(&store, RegisterSet::Lock, 1);
    state = send(&rt, locked.state, &mut store, b"VOLT 6\n", &mut buffer)?;
    send(&rt, state, &mut store, b"VOLT?;:SYST:ERR?\n", &mut buffer)?;
    Ok(())
}
