// The notes of a run, and the text of its graph written from them.
#![tactic(auto)]

// The text of a graph, written from the notes of a run.
mod graph_text;
// The notes of a run.
mod noting;

pub use graph_text::write_graph;
pub use noting::put_note;
