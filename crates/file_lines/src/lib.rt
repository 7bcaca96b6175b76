// Lines of hexadecimal, and remarks: one line of a text to what it says, and a frame to its line.
#![tactic(auto)]

// One digit: which bytes are digits, what each is worth, and the digits of a byte.
mod digit;
// A line, without its 0a: whether it is a remark or a frame, and the frame's bytes.
mod reader;
// Where a line of a text ends.
mod splitter;
// A frame's line, written into a lent buffer.
mod writer;
// Bytes as larger numbers, also those of a line's frame.
mod fields;
// A choice of two values by a flag.
mod choosing;

pub use choosing::choose;
pub use fields::{field, wide};
pub use reader::{Line, byte_at, read};
pub use splitter::line_end;
pub use writer::write;
