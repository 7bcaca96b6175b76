// The call: the outcomes of a program file from a number on, with a lent scratch. However long it is and whatever it holds, the answer is the
// same.
ghost use Rattle.std.specs.Prelude.{◌≡◌, ℕ, ◌+◌, ◌-◌, ◌/◌, ◌≤◌, length};
ghost use Rattle.spec_file.specs.Over.{over};
ghost use Rattle.file_decoder.specs.Compiled.{program_of};
ghost use Rattle.spec_model.specs.Laws.{Admitted};
ghost use Rattle.spec_calls.specs.Scratch.{zeros};
ghost use Rattle.listing_model.specs.ModelOf.{model_of};
ghost use Rattle.spec_outcomes.specs.OutcomesCall.{outcome_size, outcome_rows, page_of, outcomes_file, outcomes_output, outcomes_scratch};

use crate::by_lists::by_lists;
use file_decoder::Compiled;
use listing_model::{Model, width};
use listing_replay::admitted;
use outcome_states::gathered;
use spec_file::Refusal;
use table::clear;

// The rows of a listed program from a number on, by states; where words have no room for all that are asked for, by the list.
fn outcomes_of(
    model: Model,
    program: Compiled,
    from: usize,
    out: &mut [u8],
    scratch: &mut [u64],
) -> usize
    requires { Admitted (model_of model) (program_of program) }
    ensures count { result ≡ length (page_of (model_of model) (program_of program) from out.old) }
    ensures output { out.new
        ≡ over (outcome_rows (model_of model) (program_of program) (page_of (model_of model) (program_of program) from out.old))
        out.old }
    ensures later { scratch.new ≡ zeros scratch.old }
{
    let room = out.len() / (width(model) + 34);
    if 0xffff_ffff < from {
        clear(scratch);
        return by_lists(model, program, from, room, out);
    }
    let limit = from + room;
    let cut = scratch.len() / 4;
    let g = gathered(model, program, cut, limit, from, out, scratch);
    clear(scratch);
    let known = g.known;
    if g.all {
        return known.saturating_sub(from);
    }
    if known == limit {
        return room;
    }
    by_lists(model, program, from, room, out)
}

// The file's refusals come first, then 22 for an output that has not room for one row.
pub fn outcomes(
    model: Model,
    file: &[u8],
    from: usize,
    out: &mut [u8],
    scratch: &mut [u64],
) -> Result<usize, Refusal>
    ensures answer { result ≡ outcomes_file (model_of model) file.now from out.old }
    ensures output { out.new ≡ outcomes_output (model_of model) file.now from out.old }
    ensures later { scratch.new
        ≡ outcomes_scratch (outcomes_file (model_of model) file.now from out.old) scratch.old }
{
    let program = admitted(model, file)?;
    if out.len() < width(model) + 34 {
        return Err(Refusal {
            number: 22,
            place: 0,
        });
    }
    Ok(outcomes_of(model, program, from, out, scratch))
}
