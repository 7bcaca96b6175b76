// All outcomes of a program into lent words, in one walk by states in either memory model: as a set, with no schedule of any.
ghost use Rattle.std.specs.Prelude.{◌≤◌, length};
ghost use Rattle.file_decoder.specs.Compiled.{program_of};
ghost use Rattle.spec_model.specs.Laws.{Admitted};
ghost use Rattle.listing_model.specs.ModelOf.{model_of};
ghost use Rattle.outcome_states.specs.Gathered.{Holds};

use crate::framing::fresh;
use file_decoder::Compiled;
use listing_model::Model;

// The outcomes of a listed program as rows before `cut`, where there is room for all: how many they are.
pub fn all_rows(model: Model, program: Compiled, cut: usize, lent: &mut [u64]) -> Option<usize>
    requires { Admitted (model_of model) (program_of program) × (cut ≤ length lent.old) }
    ensures { Holds (model_of model) (program_of program) cut lent.old lent.new result }
{
    match model {
        Model::Sequential => {
            let m = states_walk::made(program);
            let frame = fresh(m.width, cut, 0, lent);
            states_outcomes::all_rows(program, m, frame, lent)
        }
        Model::TotalStoreOrder => {
            let m = tso_states::made(program);
            let frame = fresh(m.width, cut, 0, lent);
            tso_outcomes::all_rows(program, m, frame, lent)
        }
    }
}
