// The part above the interpreter (02, #114), which sees only what the interpreter states: the lines that lead from
// one setup to another, and the marker of saved sessions.
#![tactic(auto)]

pub mod lines;
pub mod session;
