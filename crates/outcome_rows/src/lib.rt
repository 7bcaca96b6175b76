// An outcome with a schedule that has it, as a row of bytes.
#![tactic(auto)]

// The row written to an output.
mod putting;

pub use putting::put_outcome;
