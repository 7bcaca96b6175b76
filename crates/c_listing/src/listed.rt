// Listed schedules: the first one, the next one, the first one that fails.
ghost use Rattle.std.specs.Prelude.{◌≡◌};
ghost use Rattle.spec_model.specs.OnFile.{start_file, continue_file, violation_file};
ghost use Rattle.spec_sc.specs.Sequential.{sc};
ghost use Rattle.spec_calls.specs.Word.{word_of};
ghost use Rattle.spec_calls.specs.Listed.{listed, violation_reply};
ghost use Rattle.c_word.specs.Found.{reply_of};

use c_word::found_word;
use listing_model::Model;
use spec_file::Refusal;

// The word of the length of a schedule that stands in front of the output, or of none, or of a refusal.
fn schedule_word(found: Result<Option<usize>, Refusal>) -> u64
    ensures { result ≡ word_of (reply_of found) }
{
    found_word(found)
}

// Kind 1 with the least listed schedule in front of `out` and its length; kind 3 with number and place, and no byte of `out` changed.
#[unsafe(no_mangle)]
pub extern "C" fn tarczolin_start(file: &[u8], out: &mut [u8]) -> u64
    ensures answer { result ≡ word_of (listed (start_file sc file.now out.old).0) }
    ensures output { out.new ≡ (start_file sc file.now out.old).1 }
{
    schedule_word(listing::start(Model::Sequential, file, out))
}

// The least listed schedule after a full one, by a word like that of `tarczolin_start`; kind 2 where there is no more.
#[unsafe(no_mangle)]
pub extern "C" fn tarczolin_continue(file: &[u8], schedule: &[u8], out: &mut [u8]) -> u64
    ensures answer { result ≡ word_of (listed (continue_file sc file.now schedule.now out.old).0) }
    ensures output { out.new ≡ (continue_file sc file.now schedule.now out.old).1 }
{
    schedule_word(listing::continue_from(Model::Sequential, file, schedule, out))
}

// The first listed schedule that fails, by a word like that of `tarczolin_start`; kind 2 where none does.
#[unsafe(no_mangle)]
pub extern "C" fn tarczolin_violation(file: &[u8], out: &mut [u8]) -> u64
    ensures answer { result ≡ word_of (violation_reply (violation_file sc file.now out.old).0) }
    ensures output { out.new ≡ (violation_file sc file.now out.old).1 }
{
    schedule_word(listing::violation(Model::Sequential, file, out))
}
