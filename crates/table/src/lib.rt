// A table in memory that the host lends: words of 64 bits, as many as there are, whatever they hold.
#![tactic(auto)]

// Where a key's slot begins.
mod placing;
// What a table says of a key.
mod looking;
// An entry put into a table; a table cleared.
mod keeping;

pub use keeping::{clear, put, write};
pub use looking::look;
pub use placing::{place, slots};
