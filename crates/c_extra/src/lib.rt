// The calls for C and Rust beside those of the base, each with one word as answer.
#![tactic(auto)]

// How large a class is: tarczolin_class.
mod class;
// One program against another: tarczolin_covers, tarczolin_covers_with.
mod against;
// Who can force the failure: tarczolin_force, tarczolin_force_with.
mod forcing;

pub use against::{against_word, tarczolin_covers, tarczolin_covers_with};
pub use class::tarczolin_class;
pub use forcing::{tarczolin_force, tarczolin_force_with};
