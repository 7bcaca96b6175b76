// How many schedules are listed under total store order, and how many of these fail, modulo 2^64.
ghost use Rattle.std.specs.Prelude.{◌≡◌};
ghost use Rattle.spec_model.specs.OnFile.{count_file};
ghost use Rattle.spec_tso.specs.TotalStoreOrder.{tso};
ghost use Rattle.spec_calls.specs.Word.{word_of};
ghost use Rattle.spec_calls.specs.Tallied.{count_reply, listed_later, failing_later};

use c_word::{answered, refused};
use listing_model::Model;

// Kind 1, with the two numbers in the words; kind 3 with number and place, and both words unchanged.
#[unsafe(no_mangle)]
pub extern "C" fn tarczolin_tso_count(file: &[u8], listed: &mut u64, failing: &mut u64) -> u64
    ensures answer { result ≡ word_of (count_reply (count_file tso file.now)) }
    ensures listed { listed.new ≡ listed_later (count_file tso file.now) listed.old }
    ensures failing { failing.new ≡ failing_later (count_file tso file.now) failing.old }
{
    match listing::count(Model::TotalStoreOrder, file) {
        Ok(tally) => {
            *listed = tally.listed;
            *failing = tally.failing;
            answered(0)
        }
        Err(r) => refused(r.number, r.place),
    }
}
