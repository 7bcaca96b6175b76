// One caller's record: out of the list that the host lends and back, and open, ask, close, set, return and forget on it by value.
#![tactic(auto)]

// One record out of the list, and back.
mod lent;
// Open, ask and close, on one record.
mod single;
// Set, return and forget, on one record.
mod named;

pub use lent::{put_record, record_at};
pub use named::{forget_one, return_one, set_one};
pub use single::{ask_one, close_one, last_read, open_one, settle};
