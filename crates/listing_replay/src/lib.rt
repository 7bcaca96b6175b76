// A program file and a schedule, taken by either memory model.
#![tactic(auto)]

// The program that the model lists, or what refuses the file.
mod admitting;
// A schedule carried out.
mod replaying;

pub use admitting::admitted;
pub use replaying::{Replay, replayed};
