// Members of the list by their number, under sequential consistency: the k-th one, and how many are smaller than one. Both by how many there
// are behind each next step.
#![tactic(auto)]

// Which next step leads to the member number i behind a prefix.
mod choosing;
// The member number k behind a prefix.
mod descending;
// How many are smaller than a schedule, behind a prefix.
mod ranking;
// Both of a decoded program, with a lent table.
mod numbering;

pub use numbering::{kth, rank};
