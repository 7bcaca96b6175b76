// Outcomes by the list, in both memory models.
#![tactic(auto)]

// What a schedule comes to, and whether it has an outcome.
mod outcomes;
// A listed schedule read off its row.
mod rows;
// The first listed schedule that passes a test.
mod seeking;
// A schedule that was found, in front of an output.
mod putting;

pub use outcomes::outcome_of;
pub use putting::put_found;
pub use rows::row_at;
pub use seeking::{first_coming, first_passing};
