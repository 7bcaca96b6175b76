// How many listed schedules there are behind a prefix, and how many of these fail behind it, modulo 2^64, with no key looked up: where few
// steps are left that takes less time.
ghost use Rattle.std.specs.Prelude.{◌≡◌, ◌≢◌, true, List, ℕ};
ghost use Rattle.spec_file.specs.Program.{Program};
ghost use Rattle.spec_schedules.specs.Order.{Schedule};
ghost use Rattle.search_place.specs.Reached.{Reached};
ghost use Rattle.search_rules.specs.Left.{Left};
ghost use Rattle.search_walk.specs.Tried.{tried};
ghost use Rattle.theory_states.specs.Wrapped.{Wrapped};
ghost use Rattle.states_walk.specs.Known.{numbers_at, numbers_by};

use crate::alone::ran_out;
use file_decoder::Compiled;
use file_lines::wide;
use search_place::{Place, step};
use search_rules::some_asleep;
use search_tail::{Runner, last_runner};
use search_walk::is_tried;
use states_memory::{NONE, ONE, Tally, added, charged};

// Of those with t, which is tried, as the next step.
#[cycle(tally_behind_tally_with)]
fn tally_with(program: &Compiled, left: &[u8; 192], x: &Place, t: u8) -> Tally
    requires { ((threads : ℕ) × (groups : ℕ) × (p : Program) × (v : Schedule)
        × Reached program.now.code program.now.lengths program.now.class threads groups x.now p v)
        × Left program.now.code program.now.lengths left.now
        × ((threads groups : ℕ) (p : Program) (v : Schedule)
        → Reached program.now.code program.now.lengths program.now.class threads groups x.now p v → tried p v t ≡ true) }
    ensures { (threads groups : ℕ) (p : Program) (v : Schedule)
        → Reached program.now.code program.now.lengths program.now.class threads groups x.now p v
        → Wrapped (numbers_by p v t) result.listed result.failing }
{
    let mut y = *x;
    step(program, &mut y, t);
    if some_asleep(program, left, y.threads, y.late) {
        return NONE;
    }
    let failed = y.threads[wide(t)].failed;
    if let Some(s) = last_runner(y.live, false) {
        let end = ran_out(program, Runner::of(&y, s, failed), s);
        return charged(end.failed, ONE);
    }
    charged(failed, tally_behind(program, left, &y))
}

// Of all next steps, where some thread has not ended.
#[cycle(tally_behind_tally_with)]
pub(crate) fn tally_behind(program: &Compiled, left: &[u8; 192], x: &Place) -> Tally
    requires { ((threads : ℕ) × (groups : ℕ) × (p : Program) × (v : Schedule)
        × Reached program.now.code program.now.lengths program.now.class threads groups x.now p v)
        × Left program.now.code program.now.lengths left.now × (x.now.live ≢ 0) }
    ensures { (threads groups : ℕ) (p : Program) (v : Schedule)
        → Reached program.now.code program.now.lengths program.now.class threads groups x.now p v
        → Wrapped (numbers_at p v) result.listed result.failing }
{
    let mut sum = NONE;
    for t in 0..6u8 {
        if is_tried(&program.class, &x.words, x.live, x.late, t) {
            sum = added(sum, tally_with(program, left, x, t));
        }
    }
    sum
}
