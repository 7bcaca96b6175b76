// Whether a frame may follow what has been read of a program file: what has been read as counts, and the number of a refusal.
#![tactic(auto)]

// What has been read of a file so far, as counts.
mod counts;
// Whether threads may be declared alike.
mod alike;
// The number by which a line is refused.
mod checking;

pub use checking::{is_access, refusal};
pub use counts::{Counts, Starting, none_yet};
