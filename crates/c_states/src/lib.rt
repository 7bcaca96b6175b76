// The calls by states for C and Rust, each with one word as answer: those of the list with a scratch that the host lends.
#![tactic(auto)]

// Count and violation: tarczolin_count_with, tarczolin_violation_with.
mod by_states;
// The same under total store order: tarczolin_tso_count_with, tarczolin_tso_violation_with.
mod tso;
// Members of the list by their number: tarczolin_kth, tarczolin_rank.
mod members;

pub use by_states::{tarczolin_count_with, tarczolin_violation_with};
pub use members::{tarczolin_kth, tarczolin_rank};
pub use tso::{tarczolin_tso_count_with, tarczolin_tso_violation_with};
