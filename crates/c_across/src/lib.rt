// The calls for C and Rust that set one memory model against another, each with one word as answer.
#![tactic(auto)]

// Whether a program is robust: tarczolin_robust.
mod robustness;
// One program under one model against another under another: tarczolin_covers_models.
mod covering;

pub use covering::tarczolin_covers_models;
pub use robustness::tarczolin_robust;
