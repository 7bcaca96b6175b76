// The calls: whether the first program covers the second, or the first listed schedule of the second with an outcome that the first lacks.
ghost use Rattle.std.specs.Prelude.{◌≡◌, ◌≤◌, length};
ghost use Rattle.spec_file.specs.Decode.{decode};
ghost use Rattle.spec_model.specs.OnFile.{admit};
ghost use Rattle.spec_covers.specs.Answer.{Answer, Comparison, output_after};
ghost use Rattle.spec_across.specs.ModelsCall.{ModelsCompared};
ghost use Rattle.spec_across.proofs.AnswerBy.{answer_on};
ghost use Rattle.spec_outcomes.specs.Scratch.{covers_scratch};
ghost use Rattle.listing_model.specs.ModelOf.{model_of};
ghost use Rattle.covers.specs.AnswerOf.{covers_answer_of};
ghost use Rattle.covers.specs.ModelBy.{model_by};

use crate::seeking::lacking_with;
use listing_model::Model;
use listing_replay::admitted;
use outcome_lists::put_found;
use spec_file::Refusal;

#[derive(Clone, Copy)]
pub enum CoversRefusal {
    // The first file's.
    First(Refusal),
    // The second file's.
    Second(Refusal),
    // Of what belongs to neither file, the output or a byte that names no model.
    Output(Refusal),
}

// The refusal of what belongs to neither file.
fn neither(number: u8, place: usize) -> CoversRefusal
    ensures { result ≡ CoversRefusal.Output (record { number = number; place = place }) }
{
    CoversRefusal::Output(Refusal { number, place })
}

// Two files, each under a model of its own, with an output that has to have so many bytes: how many steps the schedule has that stands in front
// of the output, or none where each outcome of the second is one of the first.
fn compared(
    need: usize,
    model: Model,
    first: &[u8],
    other: Model,
    second: &[u8],
    out: &mut [u8],
    scratch: &mut [u64],
) -> Result<Option<usize>, CoversRefusal>
    requires { (model_of other).need ≤ need }
    ensures answer { result ≡ covers_answer_of (answer_on need (model_of model) (model_of other)
        (admit (model_of model) (decode first.now)) (admit (model_of other) (decode second.now))
        (length out.old)) }
    ensures output { out.new ≡ output_after (answer_on need (model_of model) (model_of other)
        (admit (model_of model) (decode first.now)) (admit (model_of other) (decode second.now))
        (length out.old)) out.old }
    ensures scratch { scratch.new ≡ covers_scratch (answer_on need (model_of model) (model_of other)
        (admit (model_of model) (decode first.now)) (admit (model_of other) (decode second.now))
        (length out.old)) scratch.old }
{
    let p = admitted(model, first).map_err(CoversRefusal::First)?;
    let q = admitted(other, second).map_err(CoversRefusal::Second)?;
    if out.len() < need {
        return Err(neither(22, 0));
    }
    let found = lacking_with(model, p, other, q, scratch);
    Ok(put_found(found, out))
}

// The covers call on two program files with a lent scratch: the first's refusals come first, then the second's, then 22 for an output shorter
// than 24 bytes. However long the scratch is and whatever it holds, the answer is the same.
pub fn covers_with(
    first: &[u8],
    second: &[u8],
    out: &mut [u8],
    scratch: &mut [u64],
) -> Result<Option<usize>, CoversRefusal>
    ensures { (a : Answer) × Comparison first.now second.now (length out.old) a
        × (result ≡ covers_answer_of a) × (out.new ≡ output_after a out.old)
        × (scratch.new ≡ covers_scratch a scratch.old) }
{
    compared(
        24,
        Model::Sequential,
        first,
        Model::Sequential,
        second,
        out,
        scratch,
    )
}

// The covers call with no words of scratch: it lends itself some.
pub fn covers(first: &[u8], second: &[u8], out: &mut [u8]) -> Result<Option<usize>, CoversRefusal>
    ensures { (a : Answer) × Comparison first.now second.now (length out.old) a
        × (result ≡ covers_answer_of a) × (out.new ≡ output_after a out.old) }
{
    let mut scratch = [0u64; 2048];
    covers_with(first, second, out, &mut scratch)
}

// The model that a byte names.
fn model_of_byte(b: u8) -> Option<Model>
    ensures { result ≡ model_by b }
{
    match b {
        0 => Some(Model::Sequential),
        1 => Some(Model::TotalStoreOrder),
        _ => None,
    }
}

// The covers call on two program files, each under a model of its own: 49 for a byte that names none, at place 0 or 1, then the first's
// refusals with its 41, the second's with its 41, then 22 for an output shorter than 48 bytes. However long the scratch is and whatever it
// holds, the answer is the same.
pub fn covers_models(
    model: u8,
    first: &[u8],
    other: u8,
    second: &[u8],
    out: &mut [u8],
    scratch: &mut [u64],
) -> Result<Option<usize>, CoversRefusal>
    ensures { (a : Answer)
        × ModelsCompared model first.now other second.now (length out.old) a
        × (result ≡ covers_answer_of a) × (out.new ≡ output_after a out.old)
        × (scratch.new ≡ covers_scratch a scratch.old) }
{
    let m = model_of_byte(model).ok_or(neither(49, 0))?;
    let n = model_of_byte(other).ok_or(neither(49, 1))?;
    compared(48, m, first, n, second, out, scratch)
}
