// Program files: what they say and when they are refused (document 01's "Program file", refusals 1 to 8). Definitions and laws; no
// functions.
#![tactic(auto)]

// Limits of a program.
mod limits;
// The instructions of a thread.
mod instruction;
// The kinds of frame: their lengths and where their fields stand.
mod kind;
// Why something is refused.
mod refusal;

pub use instruction::{Access, Comparison, Instruction, Operand, Own, Test};
pub use kind::Kind;
pub use limits::STEPS;
pub use refusal::Refusal;
