// Count and violation with a lent scratch. However long it is and whatever it holds, the answer is the same; it makes the call quicker.
ghost use Rattle.std.specs.Prelude.{◌≡◌};
ghost use Rattle.spec_model.specs.OnFile.{count_file, violation_file};
ghost use Rattle.spec_sc.specs.Sequential.{sc};
ghost use Rattle.spec_calls.specs.Word.{word_of};
ghost use Rattle.spec_calls.specs.Listed.{violation_reply};
ghost use Rattle.spec_calls.specs.Tallied.{count_reply, listed_later, failing_later};
ghost use Rattle.spec_calls.specs.Scratch.{count_scratch, violation_scratch};

use c_word::{answered, found_word, refused};
use listing_model::Model;

// Kind 1, with the two numbers in the words and zeros in the scratch; kind 3 with number and place, and both words and the scratch
// unchanged.
#[unsafe(no_mangle)]
pub extern "C" fn tarczolin_count_with(
    file: &[u8],
    listed: &mut u64,
    failing: &mut u64,
    scratch: &mut [u64],
) -> u64
    ensures answer { result ≡ word_of (count_reply (count_file sc file.now)) }
    ensures listed { listed.new ≡ listed_later (count_file sc file.now) listed.old }
    ensures failing { failing.new ≡ failing_later (count_file sc file.now) failing.old }
    ensures scratch { scratch.new ≡ count_scratch (count_file sc file.now) scratch.old }
{
    match states_call::count_with(Model::Sequential, file, scratch) {
        Ok(tally) => {
            *listed = tally.listed;
            *failing = tally.failing;
            answered(0)
        }
        Err(r) => refused(r.number, r.place),
    }
}

// Kind 1 with the first listed schedule that fails in front of `out` and its length, kind 2 where none does, and zeros in the scratch; kind
// 3 with number and place, and neither `out` nor the scratch changed.
#[unsafe(no_mangle)]
pub extern "C" fn tarczolin_violation_with(file: &[u8], out: &mut [u8], scratch: &mut [u64]) -> u64
    ensures answer { result ≡ word_of (violation_reply (violation_file sc file.now out.old).0) }
    ensures output { out.new ≡ (violation_file sc file.now out.old).1 }
    ensures scratch { scratch.new
        ≡ violation_scratch (violation_file sc file.now out.old).0 scratch.old }
{
    found_word(states_call::violation_with(Model::Sequential, file, out, scratch))
}
