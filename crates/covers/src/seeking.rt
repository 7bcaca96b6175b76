// The first listed schedule of a program with an outcome that another lacks, with a scratch: by states where the first's outcomes have room
// in a quarter of the scratch, else by their lists.
ghost use Rattle.std.specs.Prelude.{◌≡◌};
ghost use Rattle.file_decoder.specs.Compiled.{program_of};
ghost use Rattle.spec_model.specs.Laws.{Admitted};
ghost use Rattle.spec_calls.specs.Scratch.{zeros};
ghost use Rattle.spec_across.proofs.Attained.{first_lacking};
ghost use Rattle.listing_model.specs.ModelOf.{model_of};
ghost use Rattle.listing_cursor.specs.Steps.{found_of};
ghost use Rattle.outcome_lists.specs.Found.{Within};

use crate::lacking::first_lacking;
use file_decoder::Compiled;
use listing_cursor::Steps;
use listing_model::Model;
use outcome_states::{all_rows, first_beyond};
use table::clear;

// Each under a model of its own.
pub(crate) fn lacking_with(
    model: Model,
    first: Compiled,
    other: Model,
    second: Compiled,
    scratch: &mut [u64],
) -> Option<Steps<48>>
    requires { Admitted (model_of model) (program_of first) × Admitted (model_of other) (program_of second) }
    ensures words { scratch.new ≡ zeros scratch.old }
    ensures short { Within (model_of other).need result }
    ensures first { found_of result ≡ first_lacking (model_of model) (program_of first) (model_of other) (program_of second) }
{
    let cut = scratch.len() / 4;
    let found = match all_rows(model, first, cut, scratch) {
        Some(known) => first_beyond(other, second, cut, known, scratch),
        None => first_lacking(model, first, other, second),
    };
    clear(scratch);
    found
}
