// One program against another.
ghost use Rattle.std.specs.Prelude.{◌≡◌, length};
ghost use Rattle.spec_covers.specs.Answer.{Answer, Comparison, output_after};
ghost use Rattle.spec_calls.specs.Word.{word_of};
ghost use Rattle.spec_calls.specs.Against.{covers_reply};
ghost use Rattle.spec_outcomes.specs.Scratch.{covers_scratch};
ghost use Rattle.c_extra.specs.Against.{against_reply};

use c_word::{answered, nothing, refused, second_refused};
use covers::CoversRefusal;

// The word of an answer.
#[tactic(auto, unfolding(crate::specs::Against::against_reply))]
pub fn against_word(answer: Result<Option<usize>, CoversRefusal>) -> u64
    ensures { result ≡ word_of (against_reply answer) }
{
    match answer {
        Ok(Some(n)) => answered(n),
        Ok(None) => nothing(),
        Err(CoversRefusal::First(r)) => refused(r.number, r.place),
        Err(CoversRefusal::Second(r)) => second_refused(r.number, r.place),
        Err(CoversRefusal::Output(r)) => refused(r.number, r.place),
    }
}

// Kind 2 where the first program covers the second; else kind 1, with the first listed schedule of the second that has an outcome which the
// first lacks in front of `out`, and its length. Kind 3 with number and place for the first file or for `out`, kind 4 for the second file;
// only kind 1 changes `out`.
#[unsafe(no_mangle)]
pub extern "C" fn tarczolin_covers(first: &[u8], second: &[u8], out: &mut [u8]) -> u64
    ensures { (a : Answer) × Comparison first.now second.now (length out.old) a
        × (result ≡ word_of (covers_reply a)) × (out.new ≡ output_after a out.old) }
{
    against_word(covers::covers(first, second, out))
}

// The same with a lent scratch, which makes it quicker: however long it is and whatever it holds, the answer is the same. Kinds 1 and 2 leave
// zeros in it, kinds 3 and 4 leave it as it was.
#[unsafe(no_mangle)]
pub extern "C" fn tarczolin_covers_with(
    first: &[u8],
    second: &[u8],
    out: &mut [u8],
    scratch: &mut [u64],
) -> u64
    ensures { (a : Answer) × Comparison first.now second.now (length out.old) a
        × (result ≡ word_of (covers_reply a)) × (out.new ≡ output_after a out.old)
        × (scratch.new ≡ covers_scratch a scratch.old) }
{
    against_word(covers::covers_with(first, second, out, scratch))
}
