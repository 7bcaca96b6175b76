// Whether a file is a program.
ghost use Rattle.std.specs.Prelude.{◌≡◌};
ghost use Rattle.spec_file.specs.Decode.{decode};
ghost use Rattle.spec_calls.specs.Word.{word_of};
ghost use Rattle.spec_calls.specs.Check.{check_reply};

use c_word::{answered, refused};

// Kind 1 for an accepted program, kind 3 with number and place for a refused file. The file is only read.
#[unsafe(no_mangle)]
pub extern "C" fn tarczolin_check(file: &[u8]) -> u64
    ensures { result ≡ word_of (check_reply (decode file.now)) }
{
    match file_decoder::decode(file) {
        Ok(_) => answered(0),
        Err(r) => refused(r.number, r.place),
    }
}
