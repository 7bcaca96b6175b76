// The calls for C and Rust of four callers on one explorer: tarczolin_open, tarczolin_ask, tarczolin_serve, tarczolin_close, and those on
// marks: tarczolin_set, tarczolin_return, tarczolin_forget.
#![tactic(auto)]

// The calls, each with one word as answer.
mod users;

pub use users::{
    tarczolin_ask, tarczolin_close, tarczolin_forget, tarczolin_open, tarczolin_return,
    tarczolin_serve, tarczolin_set,
};
