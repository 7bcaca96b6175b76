// Which next steps have to stay behind a step of a run under total store order: sets of threads behind it.
#![tactic(auto)]

// Sets of threads, a bit for each.
mod sets;
// Whether a next step has to stay behind the one just taken.
mod waiting;
// Which of a set of threads need not wait.
mod freeing;

pub use freeing::freed;
pub use sets::{Sets, six, with_bit};
pub use waiting::is_pending;
