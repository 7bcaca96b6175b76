// Many listed schedules of a program file at a time, in both memory models.
#![tactic(auto)]

// Listed schedules by rows.
mod row_calls;

pub use row_calls::{first_rows, next_rows};
