// The calls of the list for C and Rust, each with one word as answer.
#![tactic(auto)]

// Listed schedules: tarczolin_start, tarczolin_continue, tarczolin_violation.
mod listed;
// Listed schedules counted: tarczolin_count.
mod tally;
// Many listed schedules at a time: tarczolin_rows, tarczolin_rows_after.
mod by_rows;

pub use by_rows::{tarczolin_rows, tarczolin_rows_after};
pub use listed::{tarczolin_continue, tarczolin_start, tarczolin_violation};
pub use tally::tarczolin_count;
