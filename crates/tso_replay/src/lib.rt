// A schedule carried out under total store order.
#![tactic(auto)]

// What total store order turns away.
mod admitting;
// The note of a step.
mod noting;
// A schedule carried out.
mod replaying;

pub use admitting::too_many;
pub use replaying::{Run, replayed};
