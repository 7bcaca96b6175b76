// The moves of the two sides.
#![tactic(auto)]

// What a play goes by.
mod game;
// The sides, whose a thread is, and whether a side has a step.
mod sides;
// Where the assertions of each thread end.
mod tails;
// The two moves, which call each other.
mod moving;
// The hostile side's first step.
mod first;

pub use first::least_winning;
pub use game::Game;
pub use moving::friendly_move;
pub use sides::{Side, has_step};
pub use tails::{is_silent, tails_of};
