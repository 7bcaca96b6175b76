// Frames and rows: the fields of a line's frame, and the code of a program, a row of sixteen bytes for each instruction.
#![tactic(auto)]

// The kind that a first byte names.
mod kinds;
// The fields of a line's frame, and whether they are in range.
mod fields;
// The instructions that a program keeps, a row of sixteen bytes each.
mod row;
// Bytes copied to the front of a buffer.
mod copying;

pub use copying::put_front;
pub use fields::{in_range, word_at};
pub use kinds::kind_of;
pub use row::{CODE_BYTES, Code, operand_at, put_row, same_bytes, skip_at};
