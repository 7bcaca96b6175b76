// The calls for C and Rust under total store order, each with one word as answer, as under sequential consistency.
#![tactic(auto)]

// Graphs of schedules: tarczolin_tso_graph.
mod store_graph;
// How large a class is: tarczolin_tso_class.
mod store_class;
// Listed schedules: tarczolin_tso_start, tarczolin_tso_continue, tarczolin_tso_violation.
mod store_listed;
// Listed schedules counted: tarczolin_tso_count.
mod store_tally;
// Many listed schedules at a time: tarczolin_tso_rows, tarczolin_tso_rows_after.
mod store_rows;

pub use store_class::tarczolin_tso_class;
pub use store_graph::tarczolin_tso_graph;
pub use store_listed::{tarczolin_tso_continue, tarczolin_tso_start, tarczolin_tso_violation};
pub use store_rows::{tarczolin_tso_rows, tarczolin_tso_rows_after};
pub use store_tally::tarczolin_tso_count;
