// The sides, whose a thread is, and whether a side has a step: the hostile side has the threads in the set, the friendly side the rest.
ghost use Rattle.std.specs.Prelude.{◌≡◌, ◌&&◌, List, ℕ};
ghost use Rattle.machine.specs.Asked.{enabled_by};
ghost use Rattle.spec_sc.specs.State.{State};
ghost use Rattle.machine.specs.Held.{Holds};
ghost use Rattle.spec_force.specs.Game.{other, same, mine, able};
ghost use Rattle.spec_force.specs.Forced.{owner_in, game_of};
ghost use Rattle.force_moves.specs.Standing.{side_of};

use machine::{Machine, enabled};
use search_place::is_in;

#[derive(Clone, Copy, PartialEq, Eq)]
pub enum Side {
    Hostile,
    Friendly,
}

// Whether t is a thread of this side.
fn is_own(set: u8, side: Side, t: u8) -> bool
    ensures { result ≡ same (owner_in set t) (side_of side) }
{
    is_in(set, t) == (side == Side::Hostile)
}

// Whether t is a thread of this side that has not ended.
pub(crate) fn may_step(lengths: &[usize; 6], m: Machine, set: u8, side: Side, t: u8) -> bool
    ensures asked { result ≡ (enabled_by lengths.now m t && same (owner_in set t) (side_of side)) }
    ensures mine { (code : List ℕ) (σ : State) → Holds code lengths.now m σ → result ≡ mine (game_of set) (side_of side) σ t }
{
    enabled(lengths, m, t) && is_own(set, side, t)
}

// Whether this side has such a thread.
pub fn has_step(lengths: &[usize; 6], m: Machine, set: u8, side: Side) -> bool
    ensures { (code : List ℕ) (σ : State) → Holds code lengths.now m σ → result ≡ able (game_of set) (side_of side) σ }
{
    (0u8..6).any(|t| may_step(lengths, m, set, side, t))
}
