// The call: whether a program is robust, or the first listed schedule of total store order that is relaxed.
ghost use Rattle.std.specs.Prelude.{◌≡◌, length};
ghost use Rattle.spec_file.specs.WellFormed.{WellFormed};
ghost use Rattle.spec_file.specs.Decode.{accepted};
ghost use Rattle.file_decoder.specs.Compiled.{program_of};
ghost use Rattle.spec_model.specs.OnFile.{admit};
ghost use Rattle.spec_tso.specs.TotalStoreOrder.{tso};
ghost use Rattle.spec_across.specs.RobustCall.{Answer, Robustness, output_after};
ghost use Rattle.spec_across.proofs.Robustness.{answer_on};
ghost use Rattle.robust.specs.AnswerOf.{robust_answer_of};

use crate::testing::first_relaxed;
use file_decoder::{Compiled, decode};
use outcome_lists::put_found;
use robust_fenced::is_fenced;
use spec_file::Refusal;
use tso_replay::too_many;

// Of an accepted program: 41 comes first, then 22. The list of a program that is seen to be robust by its code is not walked.
fn robust_of(program: Compiled, out: &mut [u8]) -> Result<Option<usize>, Refusal>
    requires { WellFormed (program_of program) }
    ensures answer { result ≡ robust_answer_of (answer_on (admit tso (accepted (program_of program))) (length out.old)) }
    ensures output { out.new
        ≡ output_after (answer_on (admit tso (accepted (program_of program))) (length out.old)) out.old }
{
    if too_many(&program) {
        return Err(Refusal {
            number: 41,
            place: 0,
        });
    }
    if out.len() < 48 {
        return Err(Refusal {
            number: 22,
            place: 0,
        });
    }
    if is_fenced(&program) {
        return Ok(None);
    }
    Ok(put_found(first_relaxed(program), out))
}

// Of a program file: none where every graph of total store order is consistent, or how many steps the first relaxed schedule has, which then
// stands in front of the output. The file's refusals come first, then 41 for more than sixteen accesses, then 22 for an output shorter than 48
// bytes.
pub fn robust(file: &[u8], out: &mut [u8]) -> Result<Option<usize>, Refusal>
    ensures { (a : Answer) × Robustness file.now (length out.old) a × (result ≡ robust_answer_of a)
        × (out.new ≡ output_after a out.old) }
{
    let program = decode(file)?;
    robust_of(program, out)
}
