// Where the search under total store order stands: a prefix of a run by value, with what the rules need to know of its steps, and a step
// more.
#![tactic(auto)]

// A prefix of a run.
mod place;
// What a thread's accesses read from, as one word.
mod reading;
// Which threads could be late or far behind a step.
mod choosing;
// The start, and a step.
mod going;

pub use going::{advanced, begun};
pub use place::Place;
pub use reading::digit;
