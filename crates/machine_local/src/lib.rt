// What an instruction does to its thread by itself: the values of operands, comparisons, and instructions that are no access.
#![tactic(auto)]

// A thread's registers, the value of an operand, and how an instruction can end.
mod local;
// How a register's value compares with an operand's.
mod comparing;
// What the instruction in a row does, where it is no access.
mod own;

pub use local::{Carried, value, with_at};
pub use own::{carried_out, is_access};
