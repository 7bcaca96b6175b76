// The key of a position of the search under total store order, in words.
#![tactic(auto)]

// A prefix of a run with the ways of its threads.
mod spot;
// The start, and ways.
mod going;
// Who is near whom.
mod nearness;
// What is pending.
mod waiting;
// The words of a key.
mod keys;

pub use going::{first_spot, way_behind};
pub use keys::key;
pub use spot::Spot;
