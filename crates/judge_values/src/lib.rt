// Threads by themselves, and the values that rounds give to reads.
#![tactic(auto)]

// A thread by itself.
mod by_itself;
// The rounds.
mod valuing;

pub use valuing::places;
