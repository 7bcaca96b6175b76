// The member number k of what is behind a prefix, step by step.
ghost use Rattle.std.specs.Prelude.{◌≡◌, false, ℕ, ◌≤◌, length};
ghost use Rattle.std.proofs.Math.Option.{none};
ghost use Rattle.spec_file.specs.Program.{Program};
ghost use Rattle.spec_schedules.specs.Order.{Schedule};
ghost use Rattle.theory_sc.specs.Search.{found_behind};
ghost use Rattle.search_rules.specs.Left.{Left};
ghost use Rattle.theory_sc_key.specs.Key.{Wide};
ghost use Rattle.theory_states.specs.Kth.{kth};
ghost use Rattle.states_live.specs.Live.{Live};
ghost use Rattle.states_key.specs.Stands.{Stands};
ghost use Rattle.states_walk.specs.Known.{Numbered};
ghost use Rattle.listing_cursor.specs.Steps.{found_of, Short};

use crate::choosing::chosen;
use listing_cursor::Steps;
use spec_file::STEPS;
use states_key::Spot;
use states_memory::Shape;
use states_walk::{Setup, advance, steps_if};

// The member number k of what is behind a prefix; None where there are not so many.
pub(crate) fn kth_behind(
    setup: &Setup,
    shape: Shape,
    x: &Spot,
    table: &mut [u64],
    k: u64,
) -> Option<Steps<STEPS>>
    requires { ((threads : ℕ) × (groups : ℕ) × (p : Program) × (v : Schedule)
        × Stands setup.now.program.code setup.now.program.lengths setup.now.program.class threads groups x.now p v)
        × Left setup.now.program.code setup.now.program.lengths setup.now.left
        × Live setup.now.program.code setup.now.program.lengths setup.now.masks × (shape.width ≤ 18) }
    ensures words { (length table.new ≡ length table.old) × Short result }
    ensures member { (threads groups : ℕ) (p : Program) (v : Schedule)
        → Stands setup.now.program.code setup.now.program.lengths setup.now.program.class threads groups x.now p v → Wide shape.width p
        → Numbered p shape.width shape.slots table.old → found_of result ≡ kth k (found_behind false p x.now.place.steps none v) }
{
    let mut y = *x;
    let mut i = k;
    // A step may leave out instructions: how many steps there are to the end is not known before.
    while y.place.live != 0 {
        let c = chosen(setup, shape, &y, table, i)?;
        advance(&setup.program, &mut y, c.step);
        i = c.index;
    }
    steps_if(i == 0, y.place.schedule, y.place.steps)
}
