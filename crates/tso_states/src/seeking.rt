// The first listed schedule behind a prefix that fails. A key behind which nothing fails is marked, and passed over where nothing has failed yet.
ghost use Rattle.std.specs.Prelude.{◌≡◌, true, false, cond, ◌≤◌, length, take};
ghost use Rattle.std.proofs.Math.Option.{none, some};
ghost use Rattle.spec_schedules.specs.Lists.{head_of};
ghost use Rattle.spec_schedules.specs.System.{ended};
ghost use Rattle.spec_tso.specs.State.{TSO};
ghost use Rattle.spec_tso.specs.Graph.{end_of};
ghost use Rattle.theory_tso.specs.Search.{given_up, found_behind, found_with};
ghost use Rattle.search_rules.specs.Left.{Left};
ghost use Rattle.tso_rules.specs.Tried.{tried};
ghost use Rattle.states_live.specs.Live.{Live};
ghost use Rattle.tso_states.specs.Position.{Position};
ghost use Rattle.tso_states.specs.Known.{Marked};
ghost use Rattle.listing_cursor.specs.Steps.{found_of, Short};

use crate::setup::Setup;
use crate::stepping::stepped;
use listing_cursor::Steps;
use machine::some_failed;
use states_memory::{Shape, is_marked, mark};
use tso_key::{Spot, key};
use tso_place::Place;
use tso_rules::{is_tried, some_asleep};
use tso_walk::is_over;

// The steps of a prefix, if they are what is looked for.
pub fn steps_if(sought: bool, place: &Place) -> Option<Steps<32>>
    requires { place.now.steps ≤ 32 }
    ensures short { Short result }
    ensures found { found_of result ≡ cond sought (some (take place.now.steps place.now.schedule)) none }
{
    let schedule = place.schedule;
    let steps = place.steps;
    sought.then_some(Steps { schedule, steps })
}

// Of those with b, which is tried, as the next step.
#[cycle(first_behind_first_turns_first_with)]
fn first_with(setup: &Setup, shape: Shape, x: &Spot, table: &mut [u64], b: u8) -> Option<Steps<32>>
    requires { Position setup.now.program.code setup.now.program.lengths setup.now.program.class shape.width x.now
        × Left setup.now.program.code setup.now.program.lengths setup.now.left
        × Live setup.now.program.code setup.now.program.lengths setup.now.masks × (shape.width ≤ 27)
        × ((c : Position setup.now.program.code setup.now.program.lengths setup.now.program.class shape.width x.now)
        → tried c.program c.prefix b ≡ true) }
    ensures words { (length table.new ≡ length table.old) × Short result }
    ensures first { (c : Position setup.now.program.code setup.now.program.lengths setup.now.program.class shape.width x.now)
        → Marked c.program shape.width shape.slots table.old
        → (found_of result ≡ head_of (found_with given_up true c.program x.now.place.steps none c.prefix b))
        × Marked c.program shape.width shape.slots table.new }
{
    let y = stepped(&setup.program, x, b);
    if some_asleep(&setup.program, &setup.left, &y.place) {
        return None;
    }
    first_behind(setup, shape, &y, table)
}

// Of those with each next step in turn, where somebody may step.
#[cycle(first_behind_first_turns_first_with)]
fn first_turns(setup: &Setup, shape: Shape, x: &Spot, table: &mut [u64]) -> Option<Steps<32>>
    requires { Position setup.now.program.code setup.now.program.lengths setup.now.program.class shape.width x.now
        × Left setup.now.program.code setup.now.program.lengths setup.now.left
        × Live setup.now.program.code setup.now.program.lengths setup.now.masks × (shape.width ≤ 27)
        × ((c : Position setup.now.program.code setup.now.program.lengths setup.now.program.class shape.width x.now)
        → ended TSO (end_of c.program c.prefix) ≡ false) }
    ensures words { (length table.new ≡ length table.old) × Short result }
    ensures first { (c : Position setup.now.program.code setup.now.program.lengths setup.now.program.class shape.width x.now)
        → Marked c.program shape.width shape.slots table.old
        → (found_of result ≡ head_of (found_behind given_up true c.program x.now.place.steps none c.prefix))
        × Marked c.program shape.width shape.slots table.new }
{
    for b in 0..22 {
        if is_tried(&setup.program.class, &x.place.words, x.place.sets, b) {
            if let Some(s) = first_with(setup, shape, x, table, b) {
                return Some(s);
            }
        }
    }
    None
}

// Of all behind the steps taken.
#[cycle(first_behind_first_turns_first_with)]
pub(crate) fn first_behind(
    setup: &Setup,
    shape: Shape,
    x: &Spot,
    table: &mut [u64],
) -> Option<Steps<32>>
    requires { Position setup.now.program.code setup.now.program.lengths setup.now.program.class shape.width x.now
        × Left setup.now.program.code setup.now.program.lengths setup.now.left
        × Live setup.now.program.code setup.now.program.lengths setup.now.masks × (shape.width ≤ 27) }
    ensures words { (length table.new ≡ length table.old) × Short result }
    ensures first { (c : Position setup.now.program.code setup.now.program.lengths setup.now.program.class shape.width x.now)
        → Marked c.program shape.width shape.slots table.old
        → (found_of result ≡ head_of (found_behind given_up true c.program x.now.place.steps none c.prefix))
        × Marked c.program shape.width shape.slots table.new }
{
    let failed = some_failed(x.place.threads);
    if is_over(x.place.sets) {
        return steps_if(failed, &x.place);
    }
    if failed || shape.deep <= x.place.steps {
        return first_turns(setup, shape, x, table);
    }
    let k = key(
        &setup.program.lengths,
        &setup.program.class,
        &setup.masks,
        x,
    );
    if is_marked(table, shape, &k[..shape.width]) {
        return None;
    }
    if let Some(s) = first_turns(setup, shape, x, table) {
        return Some(s);
    }
    mark(table, shape, &k[..shape.width]);
    None
}
