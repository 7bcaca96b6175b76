// How many schedules are listed, and how many of these fail.
ghost use Rattle.std.specs.Prelude.{◌≡◌};
ghost use Rattle.spec_model.specs.OnFile.{count_file};
ghost use Rattle.spec_sc.specs.Sequential.{sc};
ghost use Rattle.spec_calls.specs.Word.{word_of};
ghost use Rattle.spec_calls.specs.Tallied.{count_reply, listed_later, failing_later};

#[unsafe(no_mangle)]
pub extern "C" fn tarczolin_count(file: &[u8], listed: &mut u64, failing: &mut u64) -> u64
    ensures answer { result ≡ word_of (count_reply (count_file sc file.now)) }
    ensures listed { listed.new ≡ listed_later (count_file sc file.now) listed.old }
    ensures failing { failing.new ≡ failing_later (count_file sc file.now) failing.old }
{
    c_listing::tarczolin_count(file, listed, failing)
}
