// One caller's marks, by value: which count, under which names, and the records that set, return and forget leave.
#![tactic(auto)]

// Whether a mark counts, and whether it bears a name.
mod bearing;
// Where a name stands among eight marks, and where it would go.
mod slots;
// The records that the calls leave.
mod changing;
// What comes before the marks: the refusals of calls for an open caller, and the record's program.
mod before;

pub use before::{by_number, first_refusal, open_refusal, program_of};
pub use changing::{forgotten, marked, returned_to};
pub use slots::{slot_for, slot_of};
