// Who can force the failure of an assertion, for a set of hostile threads.
#![tactic(auto)]

// The call on a program file.
mod answering;

pub use answering::{Winner, force, force_with};
