// Count and violation by states, in both memory models: the calls of the list with a scratch that the host lends.
#![tactic(auto)]

// Count and violation with a lent scratch.
mod lent;

pub use lent::{count_with, put_found, violation_with};
