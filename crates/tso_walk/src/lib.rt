// The search for the listed schedules under total store order.
#![tactic(auto)]

// What the search does at a full schedule.
mod ending;
// The search.
mod walking;
// The listed schedules behind a bound, as rows.
mod listed;

pub use listed::listed_rows;
pub use walking::is_over;
