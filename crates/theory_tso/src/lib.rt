// The search under total store order: twins, far steps, words for reads, survivors. Definitions and laws; no functions.
#![tactic(auto)]

// What a step does, as far as it makes others wait or waits for them.
mod deed;

pub use deed::Deed;
