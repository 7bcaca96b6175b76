// The first listed schedule with an outcome that is not among known ones, and all outcomes, by states under total store order.
#![tactic(auto)]

// The key of a position with whether something failed.
mod flagging;
// The walk to the first outcome that is not known.
mod walking;
// The walk of a decoded program.
mod first;
// The walk that gathers all outcomes.
mod gathering;
// All outcomes of a decoded program.
mod all;

pub use all::all_rows;
pub use first::first_new;
