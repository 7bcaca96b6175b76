// The k-th member of a program file's list, and the number of one, under sequential consistency.
#![tactic(auto)]

// The member number k.
mod kth_call;
// How many are smaller than a full schedule.
mod rank_call;

pub use kth_call::kth;
pub use rank_call::rank;
