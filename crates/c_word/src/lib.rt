// The word of 64 bits in which every call answers: its kind, a refusal's number, and an answer's length or a refusal's place.
#![tactic(auto)]

// The word of an answer.
mod word;
// The words of what most calls answer.
mod answers;

pub use answers::{found_word, number_word};
pub use word::{answered, nothing, refused, second_refused};
