// Where the search stands, and what it carries from step to step.
#![tactic(auto)]

// Sets of small numbers, a bit for each.
mod sets;
// What the access in a row does, as far as others have to wait for it.
mod waiting;
// Who is late behind a step.
mod lateness;
// The word of a thread's reads behind a step.
mod reading;
// A prefix of a run.
mod place;
// The threads that have not ended.
mod running;
// The classes of the threads.
mod classes;
// The start, and what a step leaves to the rules.
mod going;
// A step.
mod stepping;

pub use classes::known_lines;
pub use going::begun;
pub use place::Place;
pub use sets::{addend, is_in, power};
pub use stepping::step;
pub use waiting::{is_writer, location_at};
