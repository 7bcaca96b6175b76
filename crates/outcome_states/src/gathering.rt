// All outcomes of a program into lent words, by states: one first listed schedule with a new outcome after the other.
ghost use Rattle.std.specs.Prelude.{◌≡◌, ◌+◌, ◌-◌, ◌*◌, ◌/◌, ◌<◌, ◌≤◌, length, take, drop};
ghost use Rattle.std.proofs.Math.Option.{some};
ghost use Rattle.file_decoder.specs.Compiled.{program_of};
ghost use Rattle.spec_schedules.specs.Calls.{member};
ghost use Rattle.spec_model.specs.Laws.{Admitted};
ghost use Rattle.listing_model.specs.ModelOf.{model_of};
ghost use Rattle.spec_outcomes.specs.Firsts.{firsts_of};
ghost use Rattle.spec_outcomes.specs.OutcomesCall.{outcome_size};
ghost use Rattle.outcome_states.specs.Gathered.{Gathers, Keeps};

use crate::framing::fresh;
use crate::keeping::show;
use crate::seeking::{key_width, next_new};
use file_decoder::Compiled;
use listing_model::Model;
use outcome_lists::outcome_of;
use states_outcomes::{Frame, note};

// Whether all were gathered, and how many rows they are.
#[derive(Clone, Copy)]
pub struct Gathering {
    pub all: bool,
    pub known: usize,
}

// Keeps the outcome of the schedule number k as a row before `cut`, and shows it in the output where k is not below `from`.
fn keep(
    model: Model,
    program: Compiled,
    steps: &[u8],
    k: usize,
    cut: usize,
    from: usize,
    out: &mut [u8],
    lent: &mut [u64],
)
    requires { Admitted (model_of model) (program_of program) × (length steps.now ≤ (model_of model).need) × (9 * k + 9 ≤ cut)
        × (cut ≤ length lent.old)
        × (from ≤ k → k - from < length out.old / outcome_size (model_of model)) }
    ensures words { (length lent.new ≡ length lent.old) × (drop cut lent.new ≡ drop cut lent.old)
        × (length out.new ≡ length out.old) }
    ensures kept { member (firsts_of (model_of model) (program_of program)) k ≡ some steps.now
        → Keeps (model_of model) (program_of program) steps.now k cut from lent.old lent.new
        out.old out.new }
{
    let o = outcome_of(model, program, steps);
    note(o, k, cut, lent);
    show(model, o, steps, k, from, out);
}

// The first outcomes of a listed program as rows before `cut`, as far as there is room, and no more than a limit; those from a number on also
// stand in the output.
pub fn gathered(
    model: Model,
    program: Compiled,
    cut: usize,
    limit: usize,
    from: usize,
    out: &mut [u8],
    lent: &mut [u64],
) -> Gathering
    requires { Admitted (model_of model) (program_of program) × (cut ≤ length lent.old)
        × (limit ≤ from + length out.old / outcome_size (model_of model)) }
    ensures { Gathers (model_of model) (program_of program) cut limit from lent.old lent.new
        out.old out.new result }
{
    let frame = fresh(key_width(model, program), cut, 0, lent);
    let room = limit.min(cut / 9);
    for k in 0..room {
        let Some(s) = next_new(model, program, Frame { known: k, ..frame }, lent) else {
            return Gathering {
                all: true,
                known: k,
            };
        };
        keep(model, program, s.as_slice(), k, cut, from, out, lent);
    }
    Gathering {
        all: false,
        known: room,
    }
}
