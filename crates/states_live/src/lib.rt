// Live registers: those that the code left of a thread may still read, row by row, and how wide the keys of a program are.
#![tactic(auto)]

// The registers that the instruction in a row reads, and writes.
mod naming;
// The live registers of every row.
mod living;
// How many words the keys of a program have.
mod measuring;

pub use living::live_masks;
pub use measuring::{most_registers, width};
