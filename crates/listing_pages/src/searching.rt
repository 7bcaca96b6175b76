// The listed schedules of a decoded program behind a bound, as rows in a lent buffer, by the search of the memory model.
ghost use Rattle.std.specs.Prelude.{◌/◌, length, take};
ghost use Rattle.file_decoder.specs.Compiled.{program_of};
ghost use Rattle.spec_schedules.specs.Found.{after};
ghost use Rattle.spec_model.specs.Laws.{Admitted};
ghost use Rattle.spec_model.specs.Search.{sought};
ghost use Rattle.listing_cursor.specs.Bounds.{bound_at};
ghost use Rattle.spec_calls.specs.Rows.{row_size};
ghost use Rattle.listing_cursor.specs.ListRows.{Shown};
ghost use Rattle.listing_model.specs.ModelOf.{model_of};

use file_decoder::Compiled;
use listing_model::Model;

// The model is told apart once a page.
pub(crate) fn listed_rows(
    model: Model,
    program: Compiled,
    failures: bool,
    bound: &[u8],
    tight: bool,
    out: &mut [u8],
) -> usize
    requires { Admitted (model_of model) (program_of program) }
    ensures { Shown (model_of model) (program_of program)
        (take (length out.old / row_size (model_of model).need)
        (after (bound_at tight bound.now 0) (sought (model_of model) failures (program_of program))))
        out.old out.new result }
{
    match model {
        Model::Sequential => search_walk::listed_rows(program, failures, bound, tight, out),
        Model::TotalStoreOrder => tso_walk::listed_rows(program, failures, bound, tight, out),
    }
}
