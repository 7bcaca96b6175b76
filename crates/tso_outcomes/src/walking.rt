// The first listed schedule behind a prefix with an outcome that is not known. A key behind which none is found is marked, and passed over.
ghost use Rattle.std.specs.Prelude.{◌≡◌, true, ◌*◌, ◌≤◌, length, take};
ghost use Rattle.spec_schedules.specs.Lists.{head_of};
ghost use Rattle.search_rules.specs.Left.{Left};
ghost use Rattle.tso_rules.specs.Tried.{tried};
ghost use Rattle.theory_tso_outcomes.specs.Passing.{passing_behind, passing_with};
ghost use Rattle.states_live.specs.Live.{Live};
ghost use Rattle.states_outcomes.specs.Rows.{is_new};
ghost use Rattle.states_outcomes.specs.Swept.{Kept};
ghost use Rattle.listing_cursor.specs.Steps.{found_of, Short};
ghost use Rattle.tso_states.specs.Position.{Position};
ghost use Rattle.tso_outcomes.specs.Swept.{Swept};

use crate::flagging::outcome_key;
use listing_cursor::Steps;
use machine::some_failed;
use states_outcomes::{Frame, is_new, is_swept, sweep};
use tso_key::Spot;
use tso_rules::{is_tried, some_asleep};
use tso_states::{Setup, stepped, steps_if};
use tso_walk::is_over;

// Of those with b, which is tried, as the next step.
#[cycle(new_behind_new_with)]
fn new_with(setup: &Setup, frame: Frame, x: &Spot, lent: &mut [u64], b: u8) -> Option<Steps<32>>
    requires { Position setup.now.program.code setup.now.program.lengths setup.now.program.class frame.width x.now
        × Left setup.now.program.code setup.now.program.lengths setup.now.left
        × Live setup.now.program.code setup.now.program.lengths setup.now.masks × (frame.width ≤ 27) × (9 * frame.known ≤ frame.cut)
        × (frame.cut ≤ length lent.old)
        × ((c : Position setup.now.program.code setup.now.program.lengths setup.now.program.class frame.width x.now)
        → tried c.program c.prefix b ≡ true) }
    ensures words { Kept frame.cut lent.old lent.new × Short result }
    ensures first { (c : Position setup.now.program.code setup.now.program.lengths setup.now.program.class frame.width x.now)
        → Swept c.program frame (take frame.cut lent.old) lent.old
        → (found_of result ≡ head_of (passing_with (is_new (take frame.cut lent.old) frame.known) c.program x.now.place.steps c.prefix b))
        × Swept c.program frame (take frame.cut lent.old) lent.new }
{
    let y = stepped(&setup.program, x, b);
    if some_asleep(&setup.program, &setup.left, &y.place) {
        return None;
    }
    new_behind(setup, frame, &y, lent)
}

// Of all behind the steps taken.
#[cycle(new_behind_new_with)]
pub(crate) fn new_behind(
    setup: &Setup,
    frame: Frame,
    x: &Spot,
    lent: &mut [u64],
) -> Option<Steps<32>>
    requires { Position setup.now.program.code setup.now.program.lengths setup.now.program.class frame.width x.now
        × Left setup.now.program.code setup.now.program.lengths setup.now.left
        × Live setup.now.program.code setup.now.program.lengths setup.now.masks × (frame.width ≤ 27) × (9 * frame.known ≤ frame.cut)
        × (frame.cut ≤ length lent.old) }
    ensures words { Kept frame.cut lent.old lent.new × Short result }
    ensures first { (c : Position setup.now.program.code setup.now.program.lengths setup.now.program.class frame.width x.now)
        → Swept c.program frame (take frame.cut lent.old) lent.old
        → (found_of result ≡ head_of (passing_behind (is_new (take frame.cut lent.old) frame.known) c.program x.now.place.steps c.prefix))
        × Swept c.program frame (take frame.cut lent.old) lent.new }
{
    let failed = some_failed(x.place.threads);
    if is_over(x.place.sets) {
        return steps_if(is_new(x.place.memory, failed, lent, frame), &x.place);
    }
    let k = outcome_key(
        &setup.program.lengths,
        &setup.program.class,
        &setup.masks,
        x,
        failed,
    );
    if is_swept(lent, frame, &k) {
        return None;
    }
    for b in 0..22 {
        if is_tried(&setup.program.class, &x.place.words, x.place.sets, b) {
            if let Some(s) = new_with(setup, frame, x, lent, b) {
                return Some(s);
            }
        }
    }
    sweep(lent, frame, &k);
    None
}
