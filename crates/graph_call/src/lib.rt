// The graph of a schedule, in either memory model.
#![tactic(auto)]

// The graph call.
mod calling;

pub use calling::graph;
