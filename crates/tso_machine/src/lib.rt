// The machine of total store order: its state, the state before the first step, a step, and what may be asked of a state.
#![tactic(auto)]

// The machine's state: threads, memory, last writes, and the queues of pending stores.
mod state;
// What the access in a row is.
mod rows_of;
// The state before the first step.
mod starting;
// What a thread finds.
mod looking;
// An access by itself.
mod meeting;
// A step.
mod stepping;
// What may be asked of a state.
mod asking;

pub use asking::{enabled, ended_all, may_access};
pub use rows_of::locks_at;
pub use starting::started;
pub use state::{Pending, QueuedMachine};
pub use stepping::{Act, Change, Stepped, lean_step, step, thread_of};
