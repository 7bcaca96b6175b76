// What a search by states keeps in a table: of a key how many schedules are behind it, or that nothing fails behind it.
#![tactic(auto)]

// How many are listed, and how many of these fail, added up modulo 2^64.
mod tally;
// A key's entry, at the key's own place in the table.
mod entries;
// The two numbers of a key.
mod numbers;
// Keys that are only marked.
mod marks;
// Keys with a flag.
mod flags;

pub use flags::{keep_flag, recall_flag};
pub use marks::{is_marked, mark};
pub use numbers::{keep, recall};
pub use tally::{NONE, ONE, Shape, Tally, added, charged};
