// Lent words divided anew.
ghost use Rattle.std.specs.Prelude.{◌≡◌, ◌≤◌, length};
ghost use Rattle.states_outcomes.specs.Swept.{Kept, Silent};

use states_outcomes::{Frame, unmark};
use table::slots;

// So many known rows stand before `cut`; behind it a table of keys so wide says nothing.
pub(crate) fn fresh(width: usize, cut: usize, known: usize, lent: &mut [u64]) -> Frame
    requires { cut ≤ length lent.old }
    ensures frame { result ≡ record { width = width; slots = result.slots; cut = cut; known = known } }
    ensures kept { Kept cut lent.old lent.new }
    ensures silent { Silent result.slots result.cut lent.new }
{
    unmark(lent, cut);
    Frame {
        width,
        slots: slots(lent.len() - cut, width, 0),
        cut,
        known,
    }
}
