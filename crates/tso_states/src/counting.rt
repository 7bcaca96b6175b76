// How many listed schedules there are behind a prefix, and how many of these fail behind it, modulo 2^64. What is known of a key is looked up
// before the search goes on behind it, and kept after.
ghost use Rattle.std.specs.Prelude.{◌≡◌, true, false, ◌≤◌, length};
ghost use Rattle.spec_schedules.specs.System.{ended};
ghost use Rattle.spec_tso.specs.State.{TSO};
ghost use Rattle.spec_tso.specs.Graph.{end_of};
ghost use Rattle.search_rules.specs.Left.{Left};
ghost use Rattle.tso_rules.specs.Tried.{tried};
ghost use Rattle.states_live.specs.Live.{Live};
ghost use Rattle.theory_states.specs.Wrapped.{Wrapped};
ghost use Rattle.tso_states.specs.Position.{Position};
ghost use Rattle.tso_states.specs.Known.{Numbered, numbers_at, numbers_by};

use crate::setup::Setup;
use crate::stepping::{is_broken, stepped};
use states_memory::{Shape, Tally, added, charged, keep, recall};
use tso_key::{Spot, key};
use tso_rules::{is_tried, some_asleep};
use tso_walk::is_over;

// Of those with b, which is tried, as the next step.
#[cycle(behind_turns_visit)]
fn visit(setup: &Setup, shape: Shape, x: &Spot, table: &mut [u64], b: u8) -> Tally
    requires { Position setup.now.program.code setup.now.program.lengths setup.now.program.class shape.width x.now
        × Left setup.now.program.code setup.now.program.lengths setup.now.left
        × Live setup.now.program.code setup.now.program.lengths setup.now.masks × (shape.width ≤ 27)
        × ((c : Position setup.now.program.code setup.now.program.lengths setup.now.program.class shape.width x.now)
        → tried c.program c.prefix b ≡ true) }
    ensures words { length table.new ≡ length table.old }
    ensures numbers { (c : Position setup.now.program.code setup.now.program.lengths setup.now.program.class shape.width x.now)
        → Numbered c.program shape.width shape.slots table.old
        → Wrapped (numbers_by c.program c.prefix b) result.listed result.failing
        × Numbered c.program shape.width shape.slots table.new }
{
    let y = stepped(&setup.program, x, b);
    if some_asleep(&setup.program, &setup.left, &y.place) {
        return Tally {
            listed: 0,
            failing: 0,
        };
    }
    let n = behind(setup, shape, &y, table);
    charged(is_broken(&y.place.threads, b), n)
}

// Of those with each next step in turn, where somebody may step.
#[cycle(behind_turns_visit)]
fn turns(setup: &Setup, shape: Shape, x: &Spot, table: &mut [u64]) -> Tally
    requires { Position setup.now.program.code setup.now.program.lengths setup.now.program.class shape.width x.now
        × Left setup.now.program.code setup.now.program.lengths setup.now.left
        × Live setup.now.program.code setup.now.program.lengths setup.now.masks × (shape.width ≤ 27)
        × ((c : Position setup.now.program.code setup.now.program.lengths setup.now.program.class shape.width x.now)
        → ended TSO (end_of c.program c.prefix) ≡ false) }
    ensures words { length table.new ≡ length table.old }
    ensures numbers { (c : Position setup.now.program.code setup.now.program.lengths setup.now.program.class shape.width x.now)
        → Numbered c.program shape.width shape.slots table.old
        → Wrapped (numbers_at c.program c.prefix) result.listed result.failing
        × Numbered c.program shape.width shape.slots table.new }
{
    let mut sum = Tally {
        listed: 0,
        failing: 0,
    };
    for b in 0..22 {
        if is_tried(&setup.program.class, &x.place.words, x.place.sets, b) {
            let n = visit(setup, shape, x, table, b);
            sum = added(sum, n);
        }
    }
    sum
}

// Of all behind the steps taken.
#[cycle(behind_turns_visit)]
pub(crate) fn behind(setup: &Setup, shape: Shape, x: &Spot, table: &mut [u64]) -> Tally
    requires { Position setup.now.program.code setup.now.program.lengths setup.now.program.class shape.width x.now
        × Left setup.now.program.code setup.now.program.lengths setup.now.left
        × Live setup.now.program.code setup.now.program.lengths setup.now.masks × (shape.width ≤ 27) }
    ensures words { length table.new ≡ length table.old }
    ensures numbers { (c : Position setup.now.program.code setup.now.program.lengths setup.now.program.class shape.width x.now)
        → Numbered c.program shape.width shape.slots table.old
        → Wrapped (numbers_at c.program c.prefix) result.listed result.failing
        × Numbered c.program shape.width shape.slots table.new }
{
    if is_over(x.place.sets) {
        return Tally {
            listed: 1,
            failing: 0,
        };
    }
    if shape.deep <= x.place.steps {
        return turns(setup, shape, x, table);
    }
    let k = key(
        &setup.program.lengths,
        &setup.program.class,
        &setup.masks,
        x,
    );
    if let Some(known) = recall(table, shape, &k[..shape.width]) {
        return known;
    }
    let n = turns(setup, shape, x, table);
    keep(table, shape, &k[..shape.width], n);
    n
}
