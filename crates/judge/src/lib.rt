// The judge's functions: the walk, the comparison, and the call.
#![tactic(auto)]

// The graph made so far.
mod making;
// The walk.
mod walking;
// The judge.
mod judging;
// The call.
mod answering;

pub use answering::judge;
pub use judging::judged;
