// All outcomes of a program into lent words, by states in either memory model.
#![tactic(auto)]

// Lent words divided anew.
mod framing;
// An outcome shown as a row of bytes.
mod keeping;
// The first listed schedule with an outcome that is not known.
mod seeking;
// Known outcomes, one row after the other.
mod gathering;
// All outcomes in one walk.
mod all;

pub use all::all_rows;
pub use gathering::{Gathering, gathered};
pub use keeping::show;
pub use seeking::first_beyond;
