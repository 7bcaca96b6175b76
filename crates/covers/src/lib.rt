// One program against another, each under a memory model of its own.
#![tactic(auto)]

// The first listed schedule with an outcome that another program lacks, by the lists.
mod lacking;
// The first listed schedule with an outcome that another program lacks, with a scratch.
mod seeking;
// The calls.
mod covers_call;

pub use covers_call::{CoversRefusal, covers, covers_models, covers_with};
