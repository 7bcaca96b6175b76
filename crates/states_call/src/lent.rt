// Count and violation with a lent scratch, by states. However long the scratch is and whatever it holds, they answer the same.
ghost use Rattle.std.specs.Prelude.{◌≤◌, ◌≡◌, true, false, cond, length};
ghost use Rattle.spec_file.specs.Decode.{decode};
ghost use Rattle.file_decoder.specs.Compiled.{program_of, answer_of};
ghost use Rattle.spec_schedules.specs.Lists.{head_of};
ghost use Rattle.spec_schedules.specs.Calls.{answer_to, short, content};
ghost use Rattle.spec_model.specs.Laws.{Admitted};
ghost use Rattle.spec_model.specs.Answers.{count_of};
ghost use Rattle.spec_model.specs.OnFile.{admit, count_file, violation_file};
ghost use Rattle.spec_model.specs.Search.{sought};
ghost use Rattle.spec_calls.specs.Scratch.{zeros, count_scratch, violation_scratch};
ghost use Rattle.listing_model.specs.ModelOf.{model_of};
ghost use Rattle.listing_cursor.specs.Steps.{found_of, Short};
ghost use Rattle.listing.specs.AnswerOf.{length_of, list_answer_of, violation_answer_of};
ghost use Rattle.listing.specs.CountWord.{count_answer_of};

use file_decoder::Compiled;
use file_rows::put_front;
use listing_cursor::Steps;
use listing_model::{Model, width};
use listing_replay::admitted;
use spec_file::Refusal;
use states_memory::Tally;

// How many are listed, and how many of these fail, of a listed program.
fn counts_with(model: Model, program: Compiled, scratch: &mut [u64]) -> Tally
    requires { Admitted (model_of model) (program_of program) }
    ensures counts { (result.listed ≡ (count_of (model_of model) (program_of program)).listed)
        × (result.failing ≡ (count_of (model_of model) (program_of program)).failed) }
    ensures later { scratch.new ≡ zeros scratch.old }
{
    match model {
        Model::Sequential => states_walk::counted(program, scratch),
        Model::TotalStoreOrder => tso_states::counted(program, scratch),
    }
}

// Puts the schedule that a walk by states found, if it found one, in front of the output, which has room for it; and gives its length.
pub fn put_found<const N: usize>(found: Option<Steps<N>>, out: &mut [u8]) -> Option<usize>
    requires { Short found × (N ≤ length out.old) }
    ensures length { result ≡ length_of (found_of found.entry) }
    ensures output { out.new ≡ content (answer_to false (found_of found.entry)) out.old }
{
    let s = found?;
    put_front(out, &s.schedule, s.steps);
    Some(s.steps)
}

// The first listed schedule of a listed program that fails.
fn first_with(
    model: Model,
    program: Compiled,
    out: &mut [u8],
    scratch: &mut [u64],
) -> Result<Option<usize>, Refusal>
    requires { Admitted (model_of model) (program_of program) }
    ensures answer { result ≡ list_answer_of (answer_to (short (model_of model).need out.old)
        (head_of (sought (model_of model) true (program_of program)))) }
    ensures output { out.new ≡ content (answer_to (short (model_of model).need out.old)
        (head_of (sought (model_of model) true (program_of program)))) out.old }
    ensures later { scratch.new
        ≡ cond (short (model_of model).need out.old) scratch.old (zeros scratch.old) }
{
    if out.len() < width(model) {
        return Err(Refusal {
            number: 22,
            place: 0,
        });
    }
    match model {
        Model::Sequential => Ok(put_found(states_walk::first_failing(program, scratch), out)),
        Model::TotalStoreOrder => Ok(put_found(tso_states::first_failing(program, scratch), out)),
    }
}

// The program of a file that the model lists, or what refuses the file.
fn program_from(model: Model, file: &[u8]) -> Result<Compiled, Refusal>
    ensures { answer_of result ≡ admit (model_of model) (decode file.now) }
{
    admitted(model, file)
}

// Count of a program file, which may be refused.
pub fn count_with(model: Model, file: &[u8], scratch: &mut [u64]) -> Result<Tally, Refusal>
    ensures answer { result ≡ count_answer_of (count_file (model_of model) file.now) }
    ensures later { scratch.new ≡ count_scratch (count_file (model_of model) file.now) scratch.old }
{
    let program = program_from(model, file)?;
    let tally = counts_with(model, program, scratch);
    Ok(tally)
}

// The first listed schedule of a program file that fails.
pub fn violation_with(
    model: Model,
    file: &[u8],
    out: &mut [u8],
    scratch: &mut [u64],
) -> Result<Option<usize>, Refusal>
    ensures answer { result ≡ violation_answer_of (violation_file (model_of model) file.now out.old).0 }
    ensures output { out.new ≡ (violation_file (model_of model) file.now out.old).1 }
    ensures later { scratch.new
        ≡ violation_scratch (violation_file (model_of model) file.now out.old).0 scratch.old }
{
    let program = program_from(model, file)?;
    first_with(model, program, out, scratch)
}
