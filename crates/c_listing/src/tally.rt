// How many schedules are listed, and how many of these fail.
ghost use Rattle.std.specs.Prelude.{◌≡◌};
ghost use Rattle.listing.specs.CountWord.{count_answer_of};
ghost use Rattle.spec_model.specs.OnFile.{Count, count_file};
ghost use Rattle.spec_sc.specs.Sequential.{sc};
ghost use Rattle.spec_calls.specs.Word.{word_of};
ghost use Rattle.spec_calls.specs.Tallied.{count_reply, listed_later, failing_later};

use c_word::{answered, refused};
use listing_model::Model;
use spec_file::Refusal;
use states_memory::Tally;

// The word of a count, with the two numbers in the words that are lent; a refusal leaves both unchanged.
fn count_word(count: Result<Tally, Refusal>, listed: &mut u64, failing: &mut u64) -> u64
    ensures { (c : Count) → count ≡ count_answer_of c → (result ≡ word_of (count_reply c))
        × (listed.new ≡ listed_later c listed.old) × (failing.new ≡ failing_later c failing.old) }
{
    match count {
        Ok(tally) => {
            *listed = tally.listed;
            *failing = tally.failing;
            answered(0)
        }
        Err(r) => refused(r.number, r.place),
    }
}

// Kind 1, with the two numbers in the words; kind 3 with number and place, and both words unchanged.
#[unsafe(no_mangle)]
pub extern "C" fn tarczolin_count(file: &[u8], listed: &mut u64, failing: &mut u64) -> u64
    ensures answer { result ≡ word_of (count_reply (count_file sc file.now)) }
    ensures listed { listed.new ≡ listed_later (count_file sc file.now) listed.old }
    ensures failing { failing.new ≡ failing_later (count_file sc file.now) failing.old }
{
    count_word(listing::count(Model::Sequential, file), listed, failing)
}
