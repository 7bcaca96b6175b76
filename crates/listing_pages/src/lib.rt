// The list by pages, in both memory models.
#![tactic(auto)]

// The rows of the listed schedules behind a bound, by the model's own search.
mod searching;
// Rows of what a cursor has yet to come, and the cursor behind them.
mod paging;

pub use paging::next_page;
