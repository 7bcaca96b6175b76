// The key of a position of the search, in words.
#![tactic(auto)]

// A prefix of a run with the ways of its threads.
mod spot;
// The ways behind a step.
mod going;
// Who is near whom.
mod nearness;
// The values that matter.
mod values;
// The words of a key.
mod keys;
// The key of a state alone, with a number in front.
mod seen;

pub use going::{first_spot, mark_way};
pub use keys::{key, left, pair};
pub use seen::seen_key;
pub use spot::Spot;
pub use values::values_of;
