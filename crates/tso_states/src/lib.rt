// Count and first failing schedule by states, under total store order.
#![tactic(auto)]

// What is made ready before a walk.
mod setup;
// A step of the search.
mod stepping;
// How many are listed, and how many of these fail.
mod counting;
// The first that fails.
mod seeking;
// Both of a decoded program, with a lent table.
mod answering;

pub use answering::{counted, first_failing, made};
pub use seeking::steps_if;
pub use setup::Setup;
pub use stepping::stepped;
