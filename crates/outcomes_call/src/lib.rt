// The call that gives all outcomes of a program, each with the first listed schedule that has it.
#![tactic(auto)]

// The outcomes by the list, where words have no room for them.
mod by_lists;
// The call.
mod outcomes_call;

pub use outcomes_call::outcomes;
