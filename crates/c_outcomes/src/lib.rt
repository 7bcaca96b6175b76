// The outcomes of a program for C.
#![tactic(auto)]

// The two calls, one for each memory model.
mod listed_outcomes;

pub use listed_outcomes::{tarczolin_outcomes, tarczolin_tso_outcomes};
