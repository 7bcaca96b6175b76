// The search for the listed schedules under sequential consistency.
#![tactic(auto)]

// A step in the one copy of its place, and what is found behind it.
mod walking;
// The listed schedules behind a bound, as rows.
mod listed;

pub use listed::listed_rows;
pub use walking::is_tried;
