// Which next access a graph allows: the read's source is there, it is the write's turn, and no read still waits for what it hides.
#![tactic(auto)]

// Reads that wait for a write.
mod waiting;
// Whether the graph allows a step.
mod allowing;
// The next step of the walk.
mod choosing;

pub use choosing::chosen;
