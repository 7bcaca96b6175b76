// Whether a program is robust.
ghost use Rattle.std.specs.Prelude.{◌≡◌, length};
ghost use Rattle.spec_across.specs.RobustCall.{Answer, Robustness, output_after};
ghost use Rattle.spec_across.specs.RobustWord.{robust_reply};
ghost use Rattle.spec_calls.specs.Word.{word_of};
ghost use Rattle.c_word.specs.Found.{reply_of};

use c_word::found_word;
use spec_file::Refusal;

// The word of the length of a relaxed schedule, of none, or of a refusal.
fn robust_word(relaxed: Result<Option<usize>, Refusal>) -> u64
    ensures { result ≡ word_of (reply_of relaxed) }
{
    found_word(relaxed)
}

// Kind 2 where every graph of total store order is consistent; else kind 1, with the first listed schedule there whose graph is not in front
// of `out`, and its length. Kind 3 with number and place. Only kind 1 changes `out`.
#[unsafe(no_mangle)]
pub extern "C" fn tarczolin_robust(file: &[u8], out: &mut [u8]) -> u64
    ensures { (a : Answer) × Robustness file.now (length out.old) a × (result ≡ word_of (robust_reply a))
        × (out.new ≡ output_after a out.old) }
{
    robust_word(robust::robust(file, out))
}
