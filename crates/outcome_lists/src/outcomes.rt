// What a schedule comes to, and whether it has an outcome.
ghost use Rattle.std.specs.Prelude.{◌≡◌};
ghost use Rattle.file_decoder.specs.Compiled.{program_of};
ghost use Rattle.spec_model.specs.Laws.{Admitted};
ghost use Rattle.spec_model.specs.Model.{Full};
ghost use Rattle.spec_across.specs.Under.{outcome_under};
ghost use Rattle.spec_across.specs.Same.{comes_to};
ghost use Rattle.listing_model.specs.ModelOf.{model_of};

use file_decoder::Compiled;
use listing_model::Model;
use machine::some_failed;
use spec_covers::Outcome;

// The outcome of a full schedule of a listed program. The model is told apart here, once for a schedule.
pub fn outcome_of(model: Model, program: Compiled, schedule: &[u8]) -> Outcome
    requires { Admitted (model_of model) (program_of program) }
    ensures { Full (model_of model) (program_of program) schedule.now
        → result ≡ outcome_under (model_of model) (program_of program) schedule.now }
{
    match model {
        Model::Sequential => {
            let m = machine_replay::replayed(&program, schedule).machine;
            let memory = m.memory;
            Outcome {
                memory,
                fails: some_failed(m.threads),
            }
        }
        Model::TotalStoreOrder => {
            let m = tso_replay::replayed(&program, schedule).machine;
            let memory = m.memory;
            Outcome {
                memory,
                fails: some_failed(m.threads),
            }
        }
    }
}

// Whether a full schedule of a listed program has this outcome.
pub(crate) fn comes_to(model: Model, program: Compiled, o: Outcome, schedule: &[u8]) -> bool
    requires { Admitted (model_of model) (program_of program) }
    ensures { Full (model_of model) (program_of program) schedule.now
        → result ≡ comes_to (model_of model) (program_of program) o schedule.now }
{
    let x = outcome_of(model, program, schedule);
    x.memory == o.memory && x.fails == o.fails
}
