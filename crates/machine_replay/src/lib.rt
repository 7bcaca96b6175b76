// A schedule carried out.
#![tactic(auto)]

// The steps of a schedule, made as far as they may be.
mod replaying;

pub use replaying::{Run, replayed};
