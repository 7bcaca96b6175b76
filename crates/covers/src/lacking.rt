// The first listed schedule of a program with an outcome that another lacks, by their lists: the second's is walked once, the first's once
// for each schedule of the second's up to that one.
ghost use Rattle.std.specs.Prelude.{◌≡◌};
ghost use Rattle.file_decoder.specs.Compiled.{program_of};
ghost use Rattle.spec_model.specs.Laws.{Admitted};
ghost use Rattle.spec_model.specs.Model.{Full};
ghost use Rattle.spec_across.proofs.Attained.{lacks_under, first_lacking};
ghost use Rattle.listing_cursor.specs.Steps.{found_of};
ghost use Rattle.outcome_lists.specs.Found.{Within};
ghost use Rattle.listing_model.specs.ModelOf.{model_of};

use file_decoder::Compiled;
use listing_cursor::Steps;
use listing_model::Model;
use outcome_lists::{first_coming, first_passing, outcome_of};

// Whether the first program lacks the outcome of a full schedule of the second.
fn lacks(model: Model, first: Compiled, other: Model, second: Compiled, schedule: &[u8]) -> bool
    requires { Admitted (model_of model) (program_of first) × Admitted (model_of other) (program_of second) }
    ensures { Full (model_of other) (program_of second) schedule.now
        → result ≡ lacks_under (model_of model) (program_of first) (model_of other) (program_of second) schedule.now }
{
    let o = outcome_of(other, second, schedule);
    first_coming(model, first, o).is_none()
}

// The first of the second program's list.
pub(crate) fn first_lacking(
    model: Model,
    first: Compiled,
    other: Model,
    second: Compiled,
) -> Option<Steps<48>>
    requires { Admitted (model_of model) (program_of first) × Admitted (model_of other) (program_of second) }
    ensures short { Within (model_of other).need result }
    ensures first { found_of result ≡ first_lacking (model_of model) (program_of first) (model_of other) (program_of second) }
{
    let lacking = |s: &[u8]| lacks(model, first, other, second, s);
    first_passing(other, second, lacking)
}
