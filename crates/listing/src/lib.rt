// The calls that walk the list, in both memory models: start, continue, count, violation; and demand 3.
#![tactic(auto)]

// The calls that give a schedule.
mod calling;
// How many are listed, and how many of these fail.
mod counting;

pub use calling::{continue_from, start, violation};
pub use counting::count;
