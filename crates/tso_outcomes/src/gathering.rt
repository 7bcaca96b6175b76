// All outcomes behind a prefix, added to the known ones as the walk comes to them. A key behind which none is left is marked, and passed over.
ghost use Rattle.std.specs.Prelude.{◌≡◌, true, ◌*◌, ◌≤◌, length, IfSome};
ghost use Rattle.std.proofs.Math.Option.{none};
ghost use Rattle.spec_schedules.specs.Lists.{head_of};
ghost use Rattle.search_rules.specs.Left.{Left};
ghost use Rattle.tso_rules.specs.Tried.{tried};
ghost use Rattle.theory_tso_outcomes.specs.Passing.{passing_behind, passing_with};
ghost use Rattle.states_live.specs.Live.{Live};
ghost use Rattle.tso_states.specs.Position.{Position};
ghost use Rattle.tso_outcomes.specs.Gathered.{Gathers};

use crate::flagging::outcome_key;
use machine::some_failed;
use states_outcomes::{Frame, add_row, is_swept, sweep};
use tso_key::Spot;
use tso_rules::{is_tried, some_asleep};
use tso_states::{Setup, stepped};
use tso_walk::is_over;

// Of those with b, which is tried, as the next step.
#[cycle(rows_behind_rows_with)]
fn rows_with(setup: &Setup, frame: Frame, x: &Spot, lent: &mut [u64], b: u8) -> Option<usize>
    requires { Position setup.now.program.code setup.now.program.lengths setup.now.program.class frame.width x.now
        × Left setup.now.program.code setup.now.program.lengths setup.now.left
        × Live setup.now.program.code setup.now.program.lengths setup.now.masks × (frame.width ≤ 27) × (9 * frame.known ≤ frame.cut)
        × (frame.cut ≤ length lent.old)
        × ((c : Position setup.now.program.code setup.now.program.lengths setup.now.program.class frame.width x.now)
        → tried c.program c.prefix b ≡ true) }
    ensures words { length lent.new ≡ length lent.old }
    ensures within { IfSome result (λ n. 9 * n ≤ frame.cut) }
    ensures rows { IfSome result (λ n. (c : Position setup.now.program.code setup.now.program.lengths setup.now.program.class frame.width x.now)
        → Gathers c.program frame lent.old lent.new n
        (λ test. none ≡ head_of (passing_with test c.program x.now.place.steps c.prefix b))) }
{
    let y = stepped(&setup.program, x, b);
    if some_asleep(&setup.program, &setup.left, &y.place) {
        return Some(frame.known);
    }
    rows_behind(setup, frame, &y, lent)
}

// Of all behind the steps taken.
#[cycle(rows_behind_rows_with)]
pub(crate) fn rows_behind(setup: &Setup, frame: Frame, x: &Spot, lent: &mut [u64]) -> Option<usize>
    requires { Position setup.now.program.code setup.now.program.lengths setup.now.program.class frame.width x.now
        × Left setup.now.program.code setup.now.program.lengths setup.now.left
        × Live setup.now.program.code setup.now.program.lengths setup.now.masks × (frame.width ≤ 27) × (9 * frame.known ≤ frame.cut)
        × (frame.cut ≤ length lent.old) }
    ensures words { length lent.new ≡ length lent.old }
    ensures within { IfSome result (λ n. 9 * n ≤ frame.cut) }
    ensures rows { IfSome result (λ n. (c : Position setup.now.program.code setup.now.program.lengths setup.now.program.class frame.width x.now)
        → Gathers c.program frame lent.old lent.new n
        (λ test. none ≡ head_of (passing_behind test c.program x.now.place.steps c.prefix))) }
{
    let failed = some_failed(x.place.threads);
    if is_over(x.place.sets) {
        return add_row(x.place.memory, failed, frame, lent);
    }
    let k = outcome_key(
        &setup.program.lengths,
        &setup.program.class,
        &setup.masks,
        x,
        failed,
    );
    let mut known = frame.known;
    if is_swept(lent, frame, &k) {
        return Some(known);
    }
    for b in 0..22 {
        if is_tried(&setup.program.class, &x.place.words, x.place.sets, b) {
            let grown = Frame { known, ..frame };
            known = rows_with(setup, grown, x, lent, b)?;
        }
    }
    sweep(lent, frame, &k);
    Some(known)
}
