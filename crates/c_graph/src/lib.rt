// The calls for C and Rust about a file, a schedule and a graph. Each answers one word: its kind, a refusal's number, and an answer's length
// or a refusal's place.
#![tactic(auto)]

// Program files: tarczolin_check.
mod check;
// Graphs of schedules: tarczolin_graph.
mod graph;
// Graphs judged: tarczolin_judge.
mod judgement;

pub use check::tarczolin_check;
pub use graph::tarczolin_graph;
pub use judgement::tarczolin_judge;
