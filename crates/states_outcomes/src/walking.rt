// The first listed schedule behind a prefix with an outcome that is not known. A key behind which none is found is marked, and passed over.
ghost use Rattle.std.specs.Prelude.{◌≡◌, true, false, List, [], ℕ, ◌*◌, ◌<◌, ◌≤◌, length, take};
ghost use Rattle.spec_file.specs.Program.{Program};
ghost use Rattle.spec_schedules.specs.Lists.{head_of};
ghost use Rattle.spec_schedules.specs.Order.{Schedule};
ghost use Rattle.search_rules.specs.Left.{Left};
ghost use Rattle.search_walk.specs.Tried.{tried};
ghost use Rattle.theory_sc_key.specs.Key.{Wide};
ghost use Rattle.theory_outcomes.specs.Passing.{passing_behind, passing_with};
ghost use Rattle.states_live.specs.Live.{Live};
ghost use Rattle.states_key.specs.Stands.{Stands};
ghost use Rattle.listing_cursor.specs.Steps.{found_of, Short};
ghost use Rattle.states_outcomes.specs.Rows.{is_new};
ghost use Rattle.states_outcomes.specs.Swept.{Swept, Kept};

use crate::flagging::outcome_key;
use crate::known::Frame;
use crate::sweeping::{is_new, is_swept, sweep};
use listing_cursor::Steps;
use machine::some_failed;
use search_rules::some_asleep;
use search_walk::is_tried;
use spec_file::STEPS;
use states_key::Spot;
use states_walk::{Setup, advance, steps_if};

// Of those with t, which is tried, as the next step.
#[cycle(new_behind_new_with)]
fn new_with(setup: &Setup, frame: Frame, x: &Spot, lent: &mut [u64], t: u8) -> Option<Steps<STEPS>>
    requires { ((threads : ℕ) × (groups : ℕ) × (p : Program) × (v : Schedule)
        × Stands setup.now.program.code setup.now.program.lengths setup.now.program.class threads groups x.now p v)
        × Left setup.now.program.code setup.now.program.lengths setup.now.left
        × Live setup.now.program.code setup.now.program.lengths setup.now.masks × (frame.width ≤ 18)
        × (9 * frame.known ≤ frame.cut) × (frame.cut ≤ length lent.old)
        × ((threads groups : ℕ) (p : Program) (v : Schedule)
        → Stands setup.now.program.code setup.now.program.lengths setup.now.program.class threads groups x.now p v
        → tried p v t ≡ true) }
    ensures words { Kept frame.cut lent.old lent.new × Short result }
    ensures first { (threads groups : ℕ) (p : Program) (v : Schedule)
        → Stands setup.now.program.code setup.now.program.lengths setup.now.program.class threads groups x.now p v → Wide frame.width p
        → Swept p frame (take frame.cut lent.old) lent.old
        → (found_of result ≡ head_of (passing_with (is_new (take frame.cut lent.old) frame.known) p x.now.place.steps v t))
        × Swept p frame (take frame.cut lent.old) lent.new }
{
    let mut y = *x;
    advance(&setup.program, &mut y, t);
    if some_asleep(&setup.program, &setup.left, y.place.threads, y.place.late) {
        return None;
    }
    new_behind(setup, frame, &y, lent)
}

// Of all behind the steps taken.
#[cycle(new_behind_new_with)]
pub(crate) fn new_behind(
    setup: &Setup,
    frame: Frame,
    x: &Spot,
    lent: &mut [u64],
) -> Option<Steps<STEPS>>
    requires { ((threads : ℕ) × (groups : ℕ) × (p : Program) × (v : Schedule)
        × Stands setup.now.program.code setup.now.program.lengths setup.now.program.class threads groups x.now p v)
        × Left setup.now.program.code setup.now.program.lengths setup.now.left
        × Live setup.now.program.code setup.now.program.lengths setup.now.masks × (frame.width ≤ 18)
        × (9 * frame.known ≤ frame.cut) × (frame.cut ≤ length lent.old) }
    ensures words { Kept frame.cut lent.old lent.new × Short result }
    ensures first { (threads groups : ℕ) (p : Program) (v : Schedule)
        → Stands setup.now.program.code setup.now.program.lengths setup.now.program.class threads groups x.now p v → Wide frame.width p
        → Swept p frame (take frame.cut lent.old) lent.old
        → (found_of result ≡ head_of (passing_behind (is_new (take frame.cut lent.old) frame.known) p x.now.place.steps v))
        × Swept p frame (take frame.cut lent.old) lent.new }
{
    let failed = some_failed(x.place.threads);
    if x.place.live == 0 {
        let new = is_new(x.place.memory, failed, lent, frame);
        return steps_if(new, x.place.schedule, x.place.steps);
    }
    let k = outcome_key(
        &setup.program.lengths,
        &setup.program.class,
        &setup.masks,
        x,
        failed,
    );
    if is_swept(lent, frame, &k) {
        return None;
    }
    for t in 0..6 {
        if is_tried(
            &setup.program.class,
            &x.place.words,
            x.place.live,
            x.place.late,
            t,
        ) {
            if let Some(found) = new_with(setup, frame, x, lent, t) {
                return Some(found);
            }
        }
    }
    sweep(lent, frame, &k);
    None
}
