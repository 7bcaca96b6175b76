// Outcomes, and one program against another. Definitions and laws; no functions.
#![tactic(auto)]

// The outcome of a full schedule.
mod outcome;

pub use outcome::Outcome;
