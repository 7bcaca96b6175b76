// The first listed schedule behind a prefix that fails. A key behind which nothing fails is marked, and passed over where nothing has failed yet.
ghost use Rattle.std.specs.Prelude.{◌≡◌, ◌≢◌, true, false, cond, List, [], ℕ, ◌<◌, ◌≤◌, length, take};
ghost use Rattle.std.proofs.Math.Option.{none, some};
ghost use Rattle.spec_file.specs.Program.{Program};
ghost use Rattle.spec_schedules.specs.Lists.{head_of};
ghost use Rattle.spec_schedules.specs.Order.{Schedule};
ghost use Rattle.theory_sc.specs.Search.{found_behind, found_with};
ghost use Rattle.search_rules.specs.Left.{Left};
ghost use Rattle.search_walk.specs.Tried.{tried};
ghost use Rattle.table.specs.Places.{said};
ghost use Rattle.theory_sc_key.specs.Key.{Wide};
ghost use Rattle.states_live.specs.Live.{Live};
ghost use Rattle.states_key.specs.Stands.{Stands};
ghost use Rattle.states_walk.specs.Known.{Marked};
ghost use Rattle.listing_cursor.specs.Steps.{found_of, Short};

use crate::alone::ran_out;
use crate::seeking_plainly::plain_among;
use crate::setup::Setup;
use crate::stepping::advance;
use listing_cursor::Steps;
use machine::some_failed;
use search_rules::some_asleep;
use search_tail::{Runner, last_runner};
use search_walk::is_tried;
use spec_file::STEPS;
use states_key::{Spot, key};
use states_memory::{Shape, is_marked, mark};

// A schedule, if the flag is set.
pub fn steps_if(flag: bool, schedule: [u8; STEPS], steps: usize) -> Option<Steps<STEPS>>
    ensures found { found_of result ≡ cond flag (some (take steps schedule)) none }
    ensures short { steps ≤ 24 → Short result }
{
    flag.then_some(Steps { schedule, steps })
}

// Of those with t, which is tried, as the next step.
#[cycle(first_among_first_behind_first_with)]
fn first_with(
    setup: &Setup,
    shape: Shape,
    x: &Spot,
    table: &mut [u64],
    t: u8,
) -> Option<Steps<STEPS>>
    requires { ((threads : ℕ) × (groups : ℕ) × (p : Program) × (v : Schedule)
        × Stands setup.now.program.code setup.now.program.lengths setup.now.program.class threads groups x.now p v)
        × Left setup.now.program.code setup.now.program.lengths setup.now.left
        × Live setup.now.program.code setup.now.program.lengths setup.now.masks × (shape.width ≤ 18)
        × ((threads groups : ℕ) (p : Program) (v : Schedule)
        → Stands setup.now.program.code setup.now.program.lengths setup.now.program.class threads groups x.now p v
        → tried p v t ≡ true) }
    ensures words { (length table.new ≡ length table.old) × Short result }
    ensures first { (threads groups : ℕ) (p : Program) (v : Schedule)
        → Stands setup.now.program.code setup.now.program.lengths setup.now.program.class threads groups x.now p v → Wide shape.width p
        → Marked p shape.width shape.slots table.old
        → (found_of result ≡ head_of (found_with true p x.now.place.steps none v t)) × Marked p shape.width shape.slots table.new }
{
    let mut y = *x;
    advance(&setup.program, &mut y, t);
    if some_asleep(&setup.program, &setup.left, y.place.threads, y.place.late) {
        return None;
    }
    if let Some(s) = last_runner(y.place.live, false) {
        let r = Runner::of(&y.place, s, some_failed(y.place.threads));
        let end = ran_out(&setup.program, r, s);
        return steps_if(end.failed, end.schedule, end.steps);
    }
    first_behind(setup, shape, &y, table)
}

// Of all next steps, where some thread has not ended.
#[cycle(first_among_first_behind_first_with)]
fn first_among(setup: &Setup, shape: Shape, x: &Spot, table: &mut [u64]) -> Option<Steps<STEPS>>
    requires { ((threads : ℕ) × (groups : ℕ) × (p : Program) × (v : Schedule)
        × Stands setup.now.program.code setup.now.program.lengths setup.now.program.class threads groups x.now p v)
        × Left setup.now.program.code setup.now.program.lengths setup.now.left
        × Live setup.now.program.code setup.now.program.lengths setup.now.masks × (shape.width ≤ 18) × (x.now.place.live ≢ 0) }
    ensures words { (length table.new ≡ length table.old) × Short result }
    ensures first { (threads groups : ℕ) (p : Program) (v : Schedule)
        → Stands setup.now.program.code setup.now.program.lengths setup.now.program.class threads groups x.now p v → Wide shape.width p
        → Marked p shape.width shape.slots table.old
        → (found_of result ≡ head_of (found_behind true p x.now.place.steps none v)) × Marked p shape.width shape.slots table.new }
{
    for t in 0..6 {
        if is_tried(
            &setup.program.class,
            &x.place.words,
            x.place.live,
            x.place.late,
            t,
        ) {
            if let Some(found) = first_with(setup, shape, x, table, t) {
                return Some(found);
            }
        }
    }
    None
}

// Of all behind the steps taken.
#[cycle(first_among_first_behind_first_with)]
pub(crate) fn first_behind(
    setup: &Setup,
    shape: Shape,
    x: &Spot,
    table: &mut [u64],
) -> Option<Steps<STEPS>>
    requires { ((threads : ℕ) × (groups : ℕ) × (p : Program) × (v : Schedule)
        × Stands setup.now.program.code setup.now.program.lengths setup.now.program.class threads groups x.now p v)
        × Left setup.now.program.code setup.now.program.lengths setup.now.left
        × Live setup.now.program.code setup.now.program.lengths setup.now.masks × (shape.width ≤ 18) }
    ensures words { (length table.new ≡ length table.old) × Short result }
    ensures first { (threads groups : ℕ) (p : Program) (v : Schedule)
        → Stands setup.now.program.code setup.now.program.lengths setup.now.program.class threads groups x.now p v → Wide shape.width p
        → Marked p shape.width shape.slots table.old
        → (found_of result ≡ head_of (found_behind true p x.now.place.steps none v)) × Marked p shape.width shape.slots table.new }
{
    let failed = some_failed(x.place.threads);
    if x.place.live == 0 {
        return steps_if(failed, x.place.schedule, x.place.steps);
    }
    if failed || shape.deep <= x.place.steps {
        return plain_among(&setup.program, &setup.left, &x.place);
    }
    let k = key(
        &setup.program.lengths,
        &setup.program.class,
        &setup.masks,
        x,
    );
    let words = &k[..shape.width];
    if is_marked(table, shape, words) {
        return None;
    }
    if let Some(found) = first_among(setup, shape, x, table) {
        return Some(found);
    }
    mark(table, shape, words);
    None
}
