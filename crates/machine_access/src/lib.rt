// What an access does, and a thread carried to its next one.
#![tactic(auto)]

// What an access does.
mod accessing;
// What the access in a row does.
mod by_row;
// A thread carried to its next access.
mod settling;
// How many accesses threads have.
mod counting;
// Where a thread stands.
mod thread;

pub use accessing::Access;
pub use by_row::{accessed_at, writes_at};
pub use counting::accesses_below;
pub use settling::{settle, settled};
pub use thread::ThreadState;
