// Four callers on one explorer. Definitions and laws; no functions.
#![tactic(auto)]

// A caller's record, and a mark in it.
mod caller;
// What a call of four callers answers.
mod reply;

pub use caller::{Caller, Mark};
pub use reply::Reply;
