// Count and first failing schedule by states, under sequential consistency.
#![tactic(auto)]

// What is made ready before a walk.
mod setup;
// A step of the search.
mod stepping;
// The last running thread.
mod alone;
// How many are listed, and how many of these fail, without keys.
mod plain;
// The same with keys.
mod counting;
// The first that fails, without keys.
mod seeking_plainly;
// The same with keys.
mod seeking;
// Both of a decoded program, with a lent table.
mod answering;

pub use answering::{counted, first_failing, made, shape_of};
pub use counting::visit;
pub use seeking::steps_if;
pub use setup::Setup;
pub use stepping::advance;
