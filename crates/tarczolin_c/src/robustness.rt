// Whether a program is robust.
ghost use Rattle.std.specs.Prelude.{◌≡◌, length};
ghost use Rattle.spec_across.specs.RobustCall.{Answer, Robustness, output_after};
ghost use Rattle.spec_across.specs.RobustWord.{robust_reply};
ghost use Rattle.spec_calls.specs.Word.{word_of};

#[unsafe(no_mangle)]
pub extern "C" fn tarczolin_robust(file: &[u8], out: &mut [u8]) -> u64
    ensures { (a : Answer) × Robustness file.now (length out.old) a × (result ≡ word_of (robust_reply a))
        × (out.new ≡ output_after a out.old) }
{
    c_across::tarczolin_robust(file, out)
}
