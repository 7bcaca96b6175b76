// Rules of the search as functions: smaller threads that stand where a thread stands, and late threads that are asleep for good.
#![tactic(auto)]

// Smaller threads that stand where a thread stands.
mod standing;
// What the code of a row's thread may still do.
mod leaving;
// Late threads that are asleep for good.
mod sleeping;

pub use leaving::{is_reader, left_sets};
pub use sleeping::{meets, some_asleep};
pub use standing::{has_same_word, has_smaller_twin};
