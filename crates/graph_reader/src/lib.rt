// Graph texts read into tables, or refused by 30 to 33.
#![tactic(auto)]

// What has been read of a graph text so far.
mod table;
// The number by which a line is refused.
mod refusal;
// What has been read once a line has passed.
mod taken;
// The whole text.
mod text;

pub use table::Table;
pub use text::read_graph;
