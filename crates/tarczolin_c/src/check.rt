// Whether a file is a program.
ghost use Rattle.std.specs.Prelude.{◌≡◌};
ghost use Rattle.spec_file.specs.Decode.{decode};
ghost use Rattle.spec_calls.specs.Word.{word_of};
ghost use Rattle.spec_calls.specs.Check.{check_reply};

#[unsafe(no_mangle)]
pub extern "C" fn tarczolin_check(file: &[u8]) -> u64
    ensures { result ≡ word_of (check_reply (decode file.now)) }
{
    c_graph::tarczolin_check(file)
}
