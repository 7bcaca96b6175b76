// Listed schedules under total store order: the first one, the next one, the first one that fails.
ghost use Rattle.std.specs.Prelude.{◌≡◌};
ghost use Rattle.spec_model.specs.OnFile.{start_file, continue_file, violation_file};
ghost use Rattle.spec_tso.specs.TotalStoreOrder.{tso};
ghost use Rattle.spec_calls.specs.Word.{word_of};
ghost use Rattle.spec_calls.specs.Listed.{listed, violation_reply};

use c_word::found_word;
use listing_model::Model;

// Kind 1 with the least listed schedule in front of `out` and its length; kind 3 with number and place, and no byte of `out` changed.
#[unsafe(no_mangle)]
pub extern "C" fn tarczolin_tso_start(file: &[u8], out: &mut [u8]) -> u64
    ensures answer { result ≡ word_of (listed (start_file tso file.now out.old).0) }
    ensures output { out.new ≡ (start_file tso file.now out.old).1 }
{
    found_word(listing::start(Model::TotalStoreOrder, file, out))
}

// The least listed schedule after a full one, by a word like that of `tarczolin_tso_start`; kind 2 where there is no more.
#[unsafe(no_mangle)]
pub extern "C" fn tarczolin_tso_continue(file: &[u8], schedule: &[u8], out: &mut [u8]) -> u64
    ensures answer { result ≡ word_of (listed (continue_file tso file.now schedule.now out.old).0) }
    ensures output { out.new ≡ (continue_file tso file.now schedule.now out.old).1 }
{
    found_word(listing::continue_from(Model::TotalStoreOrder, file, schedule, out))
}

// The first listed schedule that fails, by a word like that of `tarczolin_tso_start`; kind 2 where none does.
#[unsafe(no_mangle)]
pub extern "C" fn tarczolin_tso_violation(file: &[u8], out: &mut [u8]) -> u64
    ensures answer { result ≡ word_of (violation_reply (violation_file tso file.now out.old).0) }
    ensures output { out.new ≡ (violation_file tso file.now out.old).1 }
{
    found_word(listing::violation(Model::TotalStoreOrder, file, out))
}
