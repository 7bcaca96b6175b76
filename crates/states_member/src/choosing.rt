// Which next step leads to the member number i of what is behind a prefix: those behind the steps before it are passed over.
ghost use Rattle.std.specs.Prelude.{◌≡◌, true, false, ℕ, ◌<◌, ◌≤◌, length, IfSome};
ghost use Rattle.spec_file.specs.Program.{Program};
ghost use Rattle.spec_schedules.specs.Order.{Schedule};
ghost use Rattle.spec_schedules.specs.System.{ended};
ghost use Rattle.spec_sc.specs.State.{SC, enabled};
ghost use Rattle.spec_sc.specs.Graph.{end_of};
ghost use Rattle.search_rules.specs.Left.{Left};
ghost use Rattle.theory_sc_key.specs.Key.{Wide};
ghost use Rattle.states_live.specs.Live.{Live};
ghost use Rattle.states_key.specs.Stands.{Stands};
ghost use Rattle.states_walk.specs.Known.{Numbered};
ghost use Rattle.states_member.specs.declared.choosing.Choice.{Choice};
ghost use Rattle.states_member.specs.Leads.{Leads};

use search_walk::is_tried;
use states_key::Spot;
use states_memory::Shape;
use states_walk::{Setup, visit};

// The next step, and the member's number behind it.
#[derive(Clone, Copy)]
pub struct Choice {
    pub step: u8,
    pub index: u64,
}

// The next step that leads to the member number i of what is behind a prefix, at which somebody may step, and the member's number behind that
// step; None where there are not so many.
pub(crate) fn chosen(
    setup: &Setup,
    shape: Shape,
    x: &Spot,
    table: &mut [u64],
    mut i: u64,
) -> Option<Choice>
    requires { ((threads : ℕ) × (groups : ℕ) × (p : Program) × (v : Schedule)
        × Stands setup.now.program.code setup.now.program.lengths setup.now.program.class threads groups x.now p v)
        × Left setup.now.program.code setup.now.program.lengths setup.now.left
        × Live setup.now.program.code setup.now.program.lengths setup.now.masks × (shape.width ≤ 18) }
    ensures words { length table.new ≡ length table.old }
    ensures step { IfSome result (λ (c : Choice). (threads groups : ℕ) (p : Program) (v : Schedule)
        → Stands setup.now.program.code setup.now.program.lengths setup.now.program.class threads groups x.now p v
        → enabled (end_of p v) c.step ≡ true) }
    ensures leads { (threads groups : ℕ) (p : Program) (v : Schedule)
        → Stands setup.now.program.code setup.now.program.lengths setup.now.program.class threads groups x.now p v → ended SC (end_of p v) ≡ false
        → Wide shape.width p → Numbered p shape.width shape.slots table.old
        → Leads p x.now.place.steps v i result × Numbered p shape.width shape.slots table.new }
{
    for t in 0..6 {
        if is_tried(
            &setup.program.class,
            &x.place.words,
            x.place.live,
            x.place.late,
            t,
        ) {
            let n = visit(setup, shape, x, table, t);
            if i < n.listed {
                return Some(Choice { step: t, index: i });
            }
            i -= n.listed;
        }
    }
    None
}
