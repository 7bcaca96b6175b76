// Rules of the search under total store order as functions: which bytes are tried, and whether some are asleep for good.
#![tactic(auto)]

// Which bytes are tried.
mod trying;
// Late steps that are asleep for good.
mod sleeping;

pub use sleeping::some_asleep;
pub use trying::is_tried;
