// The member number k of a program file's list, from 0, with a lent scratch. However long it is and whatever it holds, the answer is the
// same.
ghost use Rattle.std.specs.Prelude.{◌≡◌};
ghost use Rattle.spec_file.specs.Decode.{decode};
ghost use Rattle.file_decoder.specs.Compiled.{answer_of};
ghost use Rattle.spec_model.specs.OnFile.{admit};
ghost use Rattle.spec_sc.specs.Sequential.{sc};
ghost use Rattle.spec_members.specs.Kth.{kth_file};
ghost use Rattle.spec_members.specs.Said.{kth_scratch};
ghost use Rattle.listing.specs.AnswerOf.{list_answer_of};

use file_decoder::Compiled;
use listing_model::Model;
use listing_replay::admitted;
use spec_file::Refusal;
use states_call::put_found;

// The program of a file that sequential consistency lists, or what refuses the file.
fn program_from(file: &[u8]) -> Result<Compiled, Refusal>
    ensures { answer_of result ≡ admit sc (decode file.now) }
{
    admitted(Model::Sequential, file)
}

// The file's refusals come first, then 22 for an output shorter than 24 bytes.
pub fn kth(
    file: &[u8],
    k: u64,
    out: &mut [u8],
    scratch: &mut [u64],
) -> Result<Option<usize>, Refusal>
    ensures answer { result ≡ list_answer_of (kth_file sc file.now k out.old).0 }
    ensures output { out.new ≡ (kth_file sc file.now k out.old).1 }
    ensures later { scratch.new ≡ kth_scratch (kth_file sc file.now k out.old).0 scratch.old }
{
    let program = program_from(file)?;
    if out.len() < 24 {
        return Err(Refusal {
            number: 22,
            place: 0,
        });
    }
    Ok(put_found(states_member::kth(program, k, scratch), out))
}
