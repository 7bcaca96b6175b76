// The two moves. Each answers whether its side wins where it is its turn; `left` is the number of steps and passes that remain. Where the
// side has a step, the state's key is looked up first, and whether the side wins is kept.
// Two functions and not one by a side: document 01 names the form of functions that call each other with a falling number.
ghost use Rattle.std.specs.Prelude.{◌≡◌, ℕ, ◌≤◌, length};
ghost use Rattle.spec_file.specs.Program.{Program};
ghost use Rattle.spec_schedules.specs.Order.{Schedule};
ghost use Rattle.spec_sc.specs.Graph.{end_of};
ghost use Rattle.spec_force.specs.Game.{hostile, friendly, same};
ghost use Rattle.spec_force.proofs.Value.{value};
ghost use Rattle.spec_force.specs.Forced.{game_of};
ghost use Rattle.force_moves.specs.Standing.{Standing, Known, Playing};

use crate::game::Game;
use crate::sides::{Side, has_step, may_step};
use crate::tails::is_silent;
use machine::{Machine, fails, step};
use states_key::seen_key;
use states_memory::{keep_flag, recall_flag};

// Whether the hostile side wins where it is its turn. A failed assertion decides at once, and so does a state behind all assertions.
#[cycle(friendly_move_hostile_move)]
pub(crate) fn hostile_move(game: &Game, m: Machine, table: &mut [u64], left: usize) -> bool
    requires { ((threads : ℕ) × (p : Program) × (v : Schedule) × Standing game.now.program.code game.now.program.lengths game.now.tails threads m p v)
        × (game.now.shape.width ≤ 18) }
    ensures words { length table.new ≡ length table.old }
    ensures wins { (threads : ℕ) (p : Program) (v : Schedule)
        → Playing game.now.program.code game.now.program.lengths game.now.tails game.now.masks threads game.now.set game.now.shape hostile m
        table.old left p v
        → (result ≡ same (value (game_of game.now.set) left hostile (end_of p v)) hostile) × Known game.now.set p game.now.shape table.new }
{
    if fails(m) {
        return true;
    }
    if left == 0 || is_silent(&game.tails, m) {
        return false;
    }
    if !has_step(&game.program.lengths, m, game.set, Side::Hostile) {
        return !friendly_move(game, m, table, left - 1);
    }
    let words = seen_key(&game.program.lengths, &game.masks, 1, m);
    let key = &words[..game.shape.width];
    if let Some(known) = recall_flag(table, game.shape, key) {
        return known;
    }
    for t in 0u8..6 {
        if may_step(&game.program.lengths, m, game.set, Side::Hostile, t) {
            let n = step(&game.program, m, t).machine;
            if !friendly_move(game, n, table, left - 1) {
                keep_flag(table, game.shape, key, true);
                return true;
            }
        }
    }
    keep_flag(table, game.shape, key, false);
    false
}

// Whether the friendly side wins where it is its turn.
#[cycle(friendly_move_hostile_move)]
pub fn friendly_move(game: &Game, m: Machine, table: &mut [u64], left: usize) -> bool
    requires { ((threads : ℕ) × (p : Program) × (v : Schedule) × Standing game.now.program.code game.now.program.lengths game.now.tails threads m p v)
        × (game.now.shape.width ≤ 18) }
    ensures words { length table.new ≡ length table.old }
    ensures wins { (threads : ℕ) (p : Program) (v : Schedule)
        → Playing game.now.program.code game.now.program.lengths game.now.tails game.now.masks threads game.now.set game.now.shape friendly m
        table.old left p v
        → (result ≡ same (value (game_of game.now.set) left friendly (end_of p v)) friendly) × Known game.now.set p game.now.shape table.new }
{
    if fails(m) {
        return false;
    }
    if left == 0 || is_silent(&game.tails, m) {
        return true;
    }
    if !has_step(&game.program.lengths, m, game.set, Side::Friendly) {
        return !hostile_move(game, m, table, left - 1);
    }
    let words = seen_key(&game.program.lengths, &game.masks, 0, m);
    let key = &words[..game.shape.width];
    if let Some(known) = recall_flag(table, game.shape, key) {
        return known;
    }
    for t in 0u8..6 {
        if may_step(&game.program.lengths, m, game.set, Side::Friendly, t) {
            let n = step(&game.program, m, t).machine;
            if !hostile_move(game, n, table, left - 1) {
                keep_flag(table, game.shape, key, true);
                return true;
            }
        }
    }
    keep_flag(table, game.shape, key, false);
    false
}
