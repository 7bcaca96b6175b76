// The machine's functions: its state, the state before the first step, a step, and what may be asked of a state.
#![tactic(auto)]

// The machine's state: threads, memory, last writes.
mod state;
// A step.
mod stepping;
// The state before the first step.
mod starting;
// What may be asked of a state.
mod asking;

pub use asking::{enabled, ended_all, fails, some_failed};
pub use starting::started;
pub use state::{LastWrite, Machine};
pub use stepping::{After, Moved, Stepped, after_step, last_behind, lean_step, note_of, step};
