// The program that the memory model lists, or what refuses the file: the program's own refusals, then 41 under total store order.
ghost use Rattle.std.specs.Prelude.{◌≡◌, cond};
ghost use Rattle.std.proofs.Math.Option.{none, some};
ghost use Rattle.spec_file.specs.WellFormed.{WellFormed};
ghost use Rattle.spec_file.specs.Decode.{decode};
ghost use Rattle.file_decoder.specs.Compiled.{program_of, answer_of};
ghost use Rattle.spec_model.specs.OnFile.{admit};
ghost use Rattle.listing_model.specs.ModelOf.{model_of};

use file_decoder::Compiled;
use listing_model::Model;
use spec_file::Refusal;
use tso_replay::too_many;

// Whether the model turns an accepted program away.
fn turns_away(model: Model, program: &Compiled) -> bool
    requires { WellFormed (program_of program.now) }
    ensures { (model_of model).away (program_of program.now) ≡ cond result (some (41, 0)) none }
{
    match model {
        Model::Sequential => false,
        Model::TotalStoreOrder => too_many(program),
    }
}

// The program of a file that the model lists, or what refuses the file.
pub fn admitted(model: Model, file: &[u8]) -> Result<Compiled, Refusal>
    ensures { answer_of result ≡ admit (model_of model) (decode file.now) }
{
    let program = file_decoder::decode(file)?;
    if turns_away(model, &program) {
        return Err(Refusal {
            number: 41,
            place: 0,
        });
    }
    Ok(program)
}
