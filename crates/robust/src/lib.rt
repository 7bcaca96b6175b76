// Robust programs: whether total store order has a graph that sequential consistency has not.
#![tactic(auto)]

// Whether a listed schedule is relaxed.
mod testing;
// The call.
mod robust_call;

pub use robust_call::robust;
