// The hostile side's first step.
ghost use Rattle.std.specs.Prelude.{◌≡◌, [], ℕ, ◌<◌, ◌≤◌, length, IfSome};
ghost use Rattle.spec_file.specs.Program.{Program};
ghost use Rattle.spec_force.specs.Game.{hostile};
ghost use Rattle.force_moves.specs.Standing.{Standing, Known, Playing, FirstKeeping};

use crate::game::Game;
use crate::moving::friendly_move;
use crate::sides::{Side, may_step};
use machine::{Machine, step};

// The hostile side's least step from the start behind which it wins, if there is one.
pub fn least_winning(game: &Game, m: Machine, table: &mut [u64]) -> Option<u8>
    requires { ((threads : ℕ) × (p : Program) × Standing game.now.program.code game.now.program.lengths game.now.tails threads m p [])
        × (game.now.shape.width ≤ 18) }
    ensures within { IfSome result (λ t. t < 6) }
    ensures words { length table.new ≡ length table.old }
    ensures first { (threads : ℕ) (p : Program)
        → Playing game.now.program.code game.now.program.lengths game.now.tails game.now.masks threads game.now.set game.now.shape hostile m
        table.old 49 p []
        → FirstKeeping game.now.set p result × Known game.now.set p game.now.shape table.new }
{
    for t in 0u8..6 {
        if may_step(&game.program.lengths, m, game.set, Side::Hostile, t) {
            let n = step(&game.program, m, t).machine;
            if !friendly_move(game, n, table, 48) {
                return Some(t);
            }
        }
    }
    None
}
