// The first listed schedule with an outcome that is not among known ones, and all outcomes, by states under sequential consistency.
#![tactic(auto)]

// Known outcomes in words.
mod known;
// The key of a position with whether something failed.
mod flagging;
// Known outcomes and marked keys in one lent buffer.
mod sweeping;
// Outcomes written as rows.
mod noting;
// The walk to the first outcome that is not known.
mod walking;
// The walk of a decoded program.
mod first;
// The walk that gathers all outcomes.
mod gathering;
// All outcomes of a decoded program.
mod all;

pub use all::all_rows;
pub use first::first_new;
pub use flagging::flag;
pub use known::Frame;
pub use noting::{add_row, note};
pub use sweeping::{is_new, is_swept, sweep, unmark};
