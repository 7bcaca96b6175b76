// The first listed schedule behind a prefix that fails, with no key looked up: where few steps are left that takes less time, and where
// something has failed no key says anything.
ghost use Rattle.std.specs.Prelude.{◌≡◌, ◌≢◌, true, List, ℕ, ◌≤◌};
ghost use Rattle.std.proofs.Math.Option.{none};
ghost use Rattle.spec_file.specs.Program.{Program};
ghost use Rattle.spec_schedules.specs.Lists.{head_of};
ghost use Rattle.spec_schedules.specs.Order.{Schedule};
ghost use Rattle.theory_sc.specs.Search.{found_behind, found_with};
ghost use Rattle.search_place.specs.Reached.{Reached};
ghost use Rattle.search_rules.specs.Left.{Left};
ghost use Rattle.search_walk.specs.Tried.{tried};
ghost use Rattle.listing_cursor.specs.Steps.{found_of, Short};

use crate::alone::ran_out;
use crate::seeking::steps_if;
use file_decoder::Compiled;
use listing_cursor::Steps;
use machine::some_failed;
use search_place::{Place, step};
use search_rules::some_asleep;
use search_tail::{Runner, last_runner};
use search_walk::is_tried;
use spec_file::STEPS;

// Of those with t, which is tried, as the next step.
#[cycle(plain_among_plain_with)]
fn plain_with(program: &Compiled, left: &[u8; 192], x: &Place, t: u8) -> Option<Steps<STEPS>>
    requires { ((threads : ℕ) × (groups : ℕ) × (p : Program) × (v : Schedule)
        × Reached program.now.code program.now.lengths program.now.class threads groups x.now p v)
        × Left program.now.code program.now.lengths left.now
        × ((threads groups : ℕ) (p : Program) (v : Schedule)
        → Reached program.now.code program.now.lengths program.now.class threads groups x.now p v → tried p v t ≡ true) }
    ensures within { Short result }
    ensures first { (threads groups : ℕ) (p : Program) (v : Schedule)
        → Reached program.now.code program.now.lengths program.now.class threads groups x.now p v
        → found_of result ≡ head_of (found_with true p x.now.steps none v t) }
{
    let mut y = *x;
    step(program, &mut y, t);
    if some_asleep(program, left, y.threads, y.late) {
        return None;
    }
    if let Some(s) = last_runner(y.live, false) {
        let r = Runner::of(&y, s, some_failed(y.threads));
        let end = ran_out(program, r, s);
        return steps_if(end.failed, end.schedule, end.steps);
    }
    plain_among(program, left, &y)
}

// Of all next steps, where some thread has not ended.
#[cycle(plain_among_plain_with)]
pub(crate) fn plain_among(program: &Compiled, left: &[u8; 192], x: &Place) -> Option<Steps<STEPS>>
    requires { ((threads : ℕ) × (groups : ℕ) × (p : Program) × (v : Schedule)
        × Reached program.now.code program.now.lengths program.now.class threads groups x.now p v)
        × Left program.now.code program.now.lengths left.now × (x.now.live ≢ 0) }
    ensures within { Short result }
    ensures first { (threads groups : ℕ) (p : Program) (v : Schedule)
        → Reached program.now.code program.now.lengths program.now.class threads groups x.now p v
        → found_of result ≡ head_of (found_behind true p x.now.steps none v) }
{
    for t in 0..6u8 {
        if is_tried(&program.class, &x.words, x.live, x.late, t) {
            if let Some(found) = plain_with(program, left, x, t) {
                return Some(found);
            }
        }
    }
    None
}
