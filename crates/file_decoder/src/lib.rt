// Program files read: what each line leaves, and the whole file.
#![tactic(auto)]

// What has been read once a line has passed.
mod taken;
// Skips beyond a thread's end.
mod skip;
// The whole file.
mod file;

pub use file::{Compiled, decode};
