// Serve by one record: whose turn it is, by which of the four ask, and what the caller gets whose record this is.
#![tactic(auto)]

// Whose turn it is: the next asking caller after the last one served.
mod order;
// What the caller gets whose turn it is.
mod taken;

pub use order::{asks_at, turn};
pub use taken::serve_one;
