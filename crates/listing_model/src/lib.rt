// The memory model that a call lists by.
#![tactic(auto)]

// The two models, and how many bytes their schedules need.
mod memory;

pub use memory::{Model, width};
