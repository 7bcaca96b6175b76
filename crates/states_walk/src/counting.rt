// How many listed schedules there are behind a prefix, and how many of these fail behind it, modulo 2^64. What is known of a key is looked up
// before the search goes on behind it, and kept after, unless few steps are left: then the search takes less time than a key.
ghost use Rattle.std.specs.Prelude.{◌≡◌, ◌≢◌, true, List, ℕ, ◌<◌, ◌≤◌, length};
ghost use Rattle.spec_file.specs.Program.{Program};
ghost use Rattle.spec_schedules.specs.Order.{Schedule};
ghost use Rattle.spec_sc.specs.Graph.{end_of};
ghost use Rattle.search_rules.specs.Left.{Left};
ghost use Rattle.search_walk.specs.Tried.{tried};
ghost use Rattle.theory_sc_key.specs.Key.{Wide};
ghost use Rattle.states_live.specs.Live.{Live};
ghost use Rattle.states_key.specs.Stands.{Stands};
ghost use Rattle.theory_states.specs.Wrapped.{Wrapped};
ghost use Rattle.states_walk.specs.Known.{Numbered, numbers_at, numbers_by};

use crate::alone::ran_out;
use crate::plain::tally_behind;
use crate::setup::Setup;
use crate::stepping::advance;
use file_lines::wide;
use search_rules::some_asleep;
use search_tail::{Runner, last_runner};
use search_walk::is_tried;
use states_key::{Spot, key};
use states_memory::{NONE, ONE, Shape, Tally, added, charged, keep, recall};

// Of those with t, which is tried, as the next step.
#[cycle(behind_summed_visit)]
pub fn visit(setup: &Setup, shape: Shape, x: &Spot, table: &mut [u64], t: u8) -> Tally
    requires { ((threads : ℕ) × (groups : ℕ) × (p : Program) × (v : Schedule)
        × Stands setup.now.program.code setup.now.program.lengths setup.now.program.class threads groups x.now p v)
        × Left setup.now.program.code setup.now.program.lengths setup.now.left
        × Live setup.now.program.code setup.now.program.lengths setup.now.masks × (shape.width ≤ 18)
        × ((threads groups : ℕ) (p : Program) (v : Schedule)
        → Stands setup.now.program.code setup.now.program.lengths setup.now.program.class threads groups x.now p v
        → tried p v t ≡ true) }
    ensures words { length table.new ≡ length table.old }
    ensures numbers { (threads groups : ℕ) (p : Program) (v : Schedule)
        → Stands setup.now.program.code setup.now.program.lengths setup.now.program.class threads groups x.now p v → Wide shape.width p
        → Numbered p shape.width shape.slots table.old
        → Wrapped (numbers_by p v t) result.listed result.failing × Numbered p shape.width shape.slots table.new }
{
    let mut y = *x;
    advance(&setup.program, &mut y, t);
    if some_asleep(&setup.program, &setup.left, y.place.threads, y.place.late) {
        return NONE;
    }
    let failed = y.place.threads[wide(t)].failed;
    if let Some(s) = last_runner(y.place.live, false) {
        let end = ran_out(&setup.program, Runner::of(&y.place, s, failed), s);
        return charged(end.failed, ONE);
    }
    let n = behind(setup, shape, &y, table);
    charged(failed, n)
}

// Of all next steps, where some thread has not ended.
#[cycle(behind_summed_visit)]
fn summed(setup: &Setup, shape: Shape, x: &Spot, table: &mut [u64]) -> Tally
    requires { ((threads : ℕ) × (groups : ℕ) × (p : Program) × (v : Schedule)
        × Stands setup.now.program.code setup.now.program.lengths setup.now.program.class threads groups x.now p v)
        × Left setup.now.program.code setup.now.program.lengths setup.now.left
        × Live setup.now.program.code setup.now.program.lengths setup.now.masks × (shape.width ≤ 18) × (x.now.place.live ≢ 0) }
    ensures words { length table.new ≡ length table.old }
    ensures numbers { (threads groups : ℕ) (p : Program) (v : Schedule)
        → Stands setup.now.program.code setup.now.program.lengths setup.now.program.class threads groups x.now p v → Wide shape.width p
        → Numbered p shape.width shape.slots table.old
        → Wrapped (numbers_at p v) result.listed result.failing × Numbered p shape.width shape.slots table.new }
{
    let mut sum = NONE;
    for t in 0..6 {
        if is_tried(
            &setup.program.class,
            &x.place.words,
            x.place.live,
            x.place.late,
            t,
        ) {
            let n = visit(setup, shape, x, table, t);
            sum = added(sum, n);
        }
    }
    sum
}

// Of all behind the steps taken.
#[cycle(behind_summed_visit)]
pub(crate) fn behind(setup: &Setup, shape: Shape, x: &Spot, table: &mut [u64]) -> Tally
    requires { ((threads : ℕ) × (groups : ℕ) × (p : Program) × (v : Schedule)
        × Stands setup.now.program.code setup.now.program.lengths setup.now.program.class threads groups x.now p v)
        × Left setup.now.program.code setup.now.program.lengths setup.now.left
        × Live setup.now.program.code setup.now.program.lengths setup.now.masks × (shape.width ≤ 18) }
    ensures words { length table.new ≡ length table.old }
    ensures numbers { (threads groups : ℕ) (p : Program) (v : Schedule)
        → Stands setup.now.program.code setup.now.program.lengths setup.now.program.class threads groups x.now p v → Wide shape.width p
        → Numbered p shape.width shape.slots table.old
        → Wrapped (numbers_at p v) result.listed result.failing × Numbered p shape.width shape.slots table.new }
{
    if x.place.live == 0 {
        return ONE;
    }
    if shape.deep <= x.place.steps {
        return tally_behind(&setup.program, &setup.left, &x.place);
    }
    let k = key(
        &setup.program.lengths,
        &setup.program.class,
        &setup.masks,
        x,
    );
    let words = &k[..shape.width];
    if let Some(known) = recall(table, shape, words) {
        return known;
    }
    let sum = summed(setup, shape, x, table);
    keep(table, shape, words, sum);
    sum
}
