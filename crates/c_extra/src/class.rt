// How large the class of a schedule is.
ghost use Rattle.std.specs.Prelude.{◌≡◌};
ghost use Rattle.spec_model.specs.ClassSize.{class_file};
ghost use Rattle.spec_sc.specs.Sequential.{sc};
ghost use Rattle.spec_calls.specs.Word.{word_of};
ghost use Rattle.spec_calls.specs.ByRows.{rows_reply};
ghost use Rattle.spec_calls.specs.Classed.{class_reply};

use c_word::number_word;
use listing_model::Model;
use spec_file::Refusal;

// The word of how large a class is, or of a refusal.
fn class_word(size: Result<usize, Refusal>) -> u64
    ensures { result ≡ word_of (rows_reply size) }
{
    number_word(size)
}

// Kind 1 with the number of different graphs alike to that of a full schedule, listed or not, itself counted; kind 3 with number and place.
// Nothing is lent to be written.
#[unsafe(no_mangle)]
pub extern "C" fn tarczolin_class(file: &[u8], schedule: &[u8]) -> u64
    ensures { result ≡ word_of (class_reply (class_file sc file.now schedule.now)) }
{
    class_word(class_size::class_size(Model::Sequential, file, schedule))
}
