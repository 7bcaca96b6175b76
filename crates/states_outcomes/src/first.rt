// The first listed schedule of a decoded program with an outcome that is not known.
ghost use Rattle.std.specs.Prelude.{◌≡◌, ℕ, ◌*◌, ◌≤◌, length, take};
ghost use Rattle.spec_file.specs.WellFormed.{WellFormed};
ghost use Rattle.file_decoder.specs.Compiled.{program_of};
ghost use Rattle.spec_schedules.specs.Lists.{find};
ghost use Rattle.spec_model.specs.Alike.{list_of};
ghost use Rattle.spec_sc.specs.Sequential.{sc};
ghost use Rattle.spec_covers.specs.Covers.{outcome_of};
ghost use Rattle.listing_cursor.specs.Steps.{found_of, Short};
ghost use Rattle.states_walk.specs.Made.{Made};
ghost use Rattle.states_outcomes.specs.Rows.{is_new};
ghost use Rattle.states_outcomes.specs.Swept.{Swept, Kept};

use crate::known::Frame;
use crate::walking::new_behind;
use file_decoder::Compiled;
use listing_cursor::Steps;
use spec_file::STEPS;
use states_walk::Setup;

// From the start, with what was made ready for this program.
pub fn first_new(
    program: Compiled,
    m: Setup,
    frame: Frame,
    lent: &mut [u64],
) -> Option<Steps<STEPS>>
    requires { WellFormed (program_of program) × Made program m × (frame.width ≡ m.width)
        × (9 * frame.known ≤ frame.cut) × (frame.cut ≤ length lent.old) }
    ensures words { Kept frame.cut lent.old lent.new × Short result }
    ensures first { Swept (program_of program) frame (take frame.cut lent.old) lent.old
        → (found_of result ≡ find (λ s. is_new (take frame.cut lent.old) frame.known (outcome_of (program_of program) s))
        (list_of sc (program_of program)))
        × Swept (program_of program) frame (take frame.cut lent.old) lent.new }
{
    new_behind(&m, frame, &m.spot, lent)
}
