// Whether a graph can happen.
ghost use Rattle.std.specs.Prelude.{◌≡◌, length};
ghost use Rattle.spec_judge.specs.Answer.{Answer, Judgement, output_after};
ghost use Rattle.spec_calls.specs.Word.{word_of};
ghost use Rattle.spec_calls.specs.Judged.{judged};
ghost use Rattle.c_word.specs.Found.{reply_of};

use c_word::found_word;
use spec_file::Refusal;

// The word of a yes with the length of its schedule, of a no, or of a refusal.
fn judged_word(found: Result<Option<usize>, Refusal>) -> u64
    ensures { result ≡ word_of (reply_of found) }
{
    found_word(found)
}

// Kind 1 for yes, with the least schedule in front of `out` and its length; kind 2 for no; kind 3 with number and place. Only a yes changes
// `out`.
#[unsafe(no_mangle)]
pub extern "C" fn tarczolin_judge(file: &[u8], graph: &[u8], out: &mut [u8]) -> u64
    ensures { (a : Answer) × Judgement file.now graph.now (length out.old) a
        × (result ≡ word_of (judged a)) × (out.new ≡ output_after a out.old) }
{
    judged_word(judge::judge(file, graph, out))
}
