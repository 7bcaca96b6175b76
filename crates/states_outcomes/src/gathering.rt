// All outcomes behind a prefix, added to the known ones as the walk comes to them. A key behind which none is left is marked, and passed over.
ghost use Rattle.std.specs.Prelude.{◌≡◌, true, ℕ, ◌*◌, ◌≤◌, length, IfSome};
ghost use Rattle.std.proofs.Math.Option.{none};
ghost use Rattle.spec_file.specs.Program.{Program};
ghost use Rattle.spec_schedules.specs.Lists.{head_of};
ghost use Rattle.spec_schedules.specs.Order.{Schedule};
ghost use Rattle.search_rules.specs.Left.{Left};
ghost use Rattle.search_walk.specs.Tried.{tried};
ghost use Rattle.theory_sc_key.specs.Key.{Wide};
ghost use Rattle.theory_outcomes.specs.Passing.{passing_behind, passing_with};
ghost use Rattle.states_live.specs.Live.{Live};
ghost use Rattle.states_key.specs.Stands.{Stands};
ghost use Rattle.states_outcomes.specs.Gathered.{Gathers};

use crate::flagging::outcome_key;
use crate::known::Frame;
use crate::noting::add_row;
use crate::sweeping::{is_swept, sweep};
use machine::some_failed;
use search_rules::some_asleep;
use search_walk::is_tried;
use states_key::Spot;
use states_walk::{Setup, advance};

// Of those with t, which is tried, as the next step.
#[cycle(rows_behind_rows_with)]
fn rows_with(setup: &Setup, frame: Frame, x: &Spot, lent: &mut [u64], t: u8) -> Option<usize>
    requires { ((threads : ℕ) × (groups : ℕ) × (p : Program) × (v : Schedule)
        × Stands setup.now.program.code setup.now.program.lengths setup.now.program.class threads groups x.now p v)
        × Left setup.now.program.code setup.now.program.lengths setup.now.left
        × Live setup.now.program.code setup.now.program.lengths setup.now.masks × (frame.width ≤ 18)
        × (9 * frame.known ≤ frame.cut) × (frame.cut ≤ length lent.old)
        × ((threads groups : ℕ) (p : Program) (v : Schedule)
        → Stands setup.now.program.code setup.now.program.lengths setup.now.program.class threads groups x.now p v
        → tried p v t ≡ true) }
    ensures words { length lent.new ≡ length lent.old }
    ensures within { IfSome result (λ n. 9 * n ≤ frame.cut) }
    ensures rows { IfSome result (λ n. (threads groups : ℕ) (p : Program) (v : Schedule)
        → Stands setup.now.program.code setup.now.program.lengths setup.now.program.class threads groups x.now p v → Wide frame.width p
        → Gathers p frame lent.old lent.new n (λ test. none ≡ head_of (passing_with test p x.now.place.steps v t))) }
{
    let mut y = *x;
    advance(&setup.program, &mut y, t);
    if some_asleep(&setup.program, &setup.left, y.place.threads, y.place.late) {
        return Some(frame.known);
    }
    rows_behind(setup, frame, &y, lent)
}

// Of all behind the steps taken.
#[cycle(rows_behind_rows_with)]
pub(crate) fn rows_behind(setup: &Setup, frame: Frame, x: &Spot, lent: &mut [u64]) -> Option<usize>
    requires { ((threads : ℕ) × (groups : ℕ) × (p : Program) × (v : Schedule)
        × Stands setup.now.program.code setup.now.program.lengths setup.now.program.class threads groups x.now p v)
        × Left setup.now.program.code setup.now.program.lengths setup.now.left
        × Live setup.now.program.code setup.now.program.lengths setup.now.masks × (frame.width ≤ 18)
        × (9 * frame.known ≤ frame.cut) × (frame.cut ≤ length lent.old) }
    ensures words { length lent.new ≡ length lent.old }
    ensures within { IfSome result (λ n. 9 * n ≤ frame.cut) }
    ensures rows { IfSome result (λ n. (threads groups : ℕ) (p : Program) (v : Schedule)
        → Stands setup.now.program.code setup.now.program.lengths setup.now.program.class threads groups x.now p v → Wide frame.width p
        → Gathers p frame lent.old lent.new n (λ test. none ≡ head_of (passing_behind test p x.now.place.steps v))) }
{
    let failed = some_failed(x.place.threads);
    if x.place.live == 0 {
        return add_row(x.place.memory, failed, frame, lent);
    }
    let k = outcome_key(
        &setup.program.lengths,
        &setup.program.class,
        &setup.masks,
        x,
        failed,
    );
    let mut known = frame.known;
    if is_swept(lent, frame, &k) {
        return Some(known);
    }
    for t in 0..6 {
        if is_tried(
            &setup.program.class,
            &x.place.words,
            x.place.live,
            x.place.late,
            t,
        ) {
            let grown = Frame { known, ..frame };
            known = rows_with(setup, grown, x, lent, t)?;
        }
    }
    sweep(lent, frame, &k);
    Some(known)
}
