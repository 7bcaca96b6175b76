// A caller's record.
#![tactic(auto)]

// The records that calls leave.
mod left;
// What a record reads as: whether it is open, and whether it asks.
mod reads;
// What there is for an open record: the next schedule of its list, or no more.
mod next;

pub use left::{asked, fresh_record, no_mark, opened_with, served};
pub use next::{Next, next_of};
pub use reads::{asks, is_open, is_place};
