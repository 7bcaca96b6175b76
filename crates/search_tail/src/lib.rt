// What the search does where it does not branch any more: at a full schedule, and where one thread is left.
#![tactic(auto)]

// A full schedule.
mod full;
// The last running thread.
mod alone;

pub use alone::{Runner, last_runner, run_out};
pub use full::{ROW, at_end};
