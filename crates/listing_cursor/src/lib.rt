// Pages of rows, and where they go on.
#![tactic(auto)]

// What a search is asked for.
mod aim;
// A schedule in fixed memory.
mod steps;
// The bound of a search.
mod bounds;
// A listed schedule as a row of bytes.
mod putting;
// What is read off rows.
mod reading;
// A place in the list, and a page.
mod cursor;

pub use aim::{Aim, is_meant};
pub use bounds::{first_byte, stays_tight};
pub use cursor::{Cursor, Page, beginning, behind, end, is_end};
pub use putting::put_row;
pub use reading::{failing_in, put_schedule};
pub use steps::{Steps, widened};
