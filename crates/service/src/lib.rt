// Four callers on one explorer: open, ask, serve, close, and set, return to and forget marks, on four records in a list that the host lends.
#![tactic(auto)]

// The seven calls.
mod calls;

pub use calls::{ask, close, forget, open, return_to, serve, set};
