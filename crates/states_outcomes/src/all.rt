// All outcomes of a decoded program, as rows of words.
ghost use Rattle.std.specs.Prelude.{◌≡◌, ◌*◌, ◌≤◌, length, take, IfSome};
ghost use Rattle.std.proofs.Math.Option.{none};
ghost use Rattle.spec_file.specs.WellFormed.{WellFormed};
ghost use Rattle.file_decoder.specs.Compiled.{program_of};
ghost use Rattle.spec_schedules.specs.Lists.{find};
ghost use Rattle.spec_model.specs.Alike.{list_of};
ghost use Rattle.spec_sc.specs.Sequential.{sc};
ghost use Rattle.spec_covers.specs.Covers.{outcome_of};
ghost use Rattle.theory_outcomes.specs.Gathering.{Gains};
ghost use Rattle.states_walk.specs.Made.{Made};
ghost use Rattle.states_outcomes.specs.Rows.{is_new};
ghost use Rattle.states_outcomes.specs.Swept.{Swept};

use crate::gathering::rows_behind;
use crate::known::Frame;
use file_decoder::Compiled;
use states_walk::Setup;

// From the start, with what was made ready for this program. Answers how many outcomes are known then; none where one more had no room.
pub fn all_rows(program: Compiled, m: Setup, frame: Frame, lent: &mut [u64]) -> Option<usize>
    requires { WellFormed (program_of program) × Made program m × (frame.width ≡ m.width)
        × (9 * frame.known ≤ frame.cut) × (frame.cut ≤ length lent.old) }
    ensures words { length lent.new ≡ length lent.old }
    ensures within { IfSome result (λ n. 9 * n ≤ frame.cut) }
    ensures rows { IfSome result (λ n. Swept (program_of program) frame (take frame.cut lent.old) lent.old
        → Gains sc (program_of program) (is_new (take frame.cut lent.old) frame.known)
        (is_new (take frame.cut lent.new) n)
        (λ test. none ≡ find (λ s. test (outcome_of (program_of program) s)) (list_of sc (program_of program)))) }
{
    rows_behind(&m, frame, &m.spot, lent)
}
