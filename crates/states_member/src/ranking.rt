// How many of those behind a prefix are smaller than a schedule that goes on behind it, modulo 2^64: along its path those with a smaller next
// step than its own. Where the search gives up its own step there are no others.
ghost use Rattle.std.specs.Prelude.{◌≡◌, true, false, ◌++◌, ℕ, ◌<◌, ◌≤◌, ◌%◌, ◌^◌, length};
ghost use Rattle.std.proofs.Math.Option.{none};
ghost use Rattle.spec_file.specs.Program.{Program};
ghost use Rattle.spec_schedules.specs.Order.{Schedule};
ghost use Rattle.spec_schedules.specs.System.{FullFrom};
ghost use Rattle.spec_sc.specs.State.{SC, enabled};
ghost use Rattle.spec_sc.specs.Graph.{end_of};
ghost use Rattle.theory_sc.specs.Search.{given_up, found_behind};
ghost use Rattle.search_rules.specs.Left.{Left};
ghost use Rattle.theory_sc_key.specs.Key.{Wide};
ghost use Rattle.theory_states.specs.Numbers.{sum_range};
ghost use Rattle.theory_states.specs.Ranked.{rank};
ghost use Rattle.theory_states.specs.Wrapped.{Wrapped};
ghost use Rattle.states_live.specs.Live.{Live};
ghost use Rattle.states_key.specs.Stands.{Stands};
ghost use Rattle.states_walk.specs.Known.{Numbered, numbers_by};

use search_rules::some_asleep;
use search_walk::is_tried;
use states_key::Spot;
use states_memory::{NONE, Shape, Tally, added};
use states_walk::{Setup, advance, visit};

// Those with a smaller next step than b.
fn smaller(setup: &Setup, shape: Shape, x: &Spot, table: &mut [u64], b: u8) -> Tally
    requires { ((threads : ℕ) × (groups : ℕ) × (p : Program) × (v : Schedule)
        × Stands setup.now.program.code setup.now.program.lengths setup.now.program.class threads groups x.now p v)
        × Left setup.now.program.code setup.now.program.lengths setup.now.left
        × Live setup.now.program.code setup.now.program.lengths setup.now.masks × (shape.width ≤ 18) × (b ≤ 6) }
    ensures words { length table.new ≡ length table.old }
    ensures numbers { (threads groups : ℕ) (p : Program) (v : Schedule)
        → Stands setup.now.program.code setup.now.program.lengths setup.now.program.class threads groups x.now p v → Wide shape.width p
        → Numbered p shape.width shape.slots table.old
        → Wrapped (sum_range (numbers_by p v) b 0) result.listed result.failing
        × Numbered p shape.width shape.slots table.new }
{
    let mut sum = NONE;
    for t in 0..b {
        if is_tried(
            &setup.program.class,
            &x.place.words,
            x.place.live,
            x.place.late,
            t,
        ) {
            let n = visit(setup, shape, x, table, t);
            sum = added(sum, n);
        }
    }
    sum
}

// Whether the search gives up a step of b, which may step.
fn gives_up(setup: &Setup, x: &Spot, b: u8) -> bool
    requires { ((threads : ℕ) × (groups : ℕ) × (p : Program) × (v : Schedule)
        × Stands setup.now.program.code setup.now.program.lengths setup.now.program.class threads groups x.now p v × (enabled (end_of p v) b ≡ true))
        × Left setup.now.program.code setup.now.program.lengths setup.now.left }
    ensures { (threads groups : ℕ) (p : Program) (v : Schedule)
        → Stands setup.now.program.code setup.now.program.lengths setup.now.program.class threads groups x.now p v → enabled (end_of p v) b ≡ true
        → result ≡ given_up p v (end_of p v) b }
{
    if !is_tried(
        &setup.program.class,
        &x.place.words,
        x.place.live,
        x.place.late,
        b,
    ) {
        return true;
    }
    let mut y = *x;
    advance(&setup.program, &mut y, b);
    some_asleep(&setup.program, &setup.left, y.place.threads, y.place.late)
}

// Those smaller than the schedule, each of whose bytes may step in its turn, behind the last nobody.
pub(crate) fn rank_behind(
    setup: &Setup,
    shape: Shape,
    x: &Spot,
    table: &mut [u64],
    schedule: &[u8],
) -> u64
    requires { ((threads : ℕ) × (groups : ℕ) × (p : Program) × (v : Schedule)
        × Stands setup.now.program.code setup.now.program.lengths setup.now.program.class threads groups x.now p v
        × FullFrom SC (end_of p v) schedule.now)
        × Left setup.now.program.code setup.now.program.lengths setup.now.left
        × Live setup.now.program.code setup.now.program.lengths setup.now.masks × (shape.width ≤ 18) }
    ensures words { length table.new ≡ length table.old }
    ensures number { (threads groups : ℕ) (p : Program) (v : Schedule)
        → Stands setup.now.program.code setup.now.program.lengths setup.now.program.class threads groups x.now p v
        → FullFrom SC (end_of p v) schedule.now → Wide shape.width p
        → Numbered p shape.width shape.slots table.old
        → result ≡ rank (v ++ schedule.now) (found_behind false p x.now.place.steps none v) % 2 ^ 64 }
{
    let mut y = *x;
    let mut sum = NONE;
    for b in schedule {
        let n = smaller(setup, shape, &y, table, *b);
        sum = added(sum, n);
        if gives_up(setup, &y, *b) {
            return sum.listed;
        }
        advance(&setup.program, &mut y, *b);
    }
    sum.listed
}
