// Programs that are seen to be robust by their code.
#![tactic(auto)]

// Whether each store is fenced, row by row.
mod fencing;

pub use fencing::is_fenced;
