// One program against another.
ghost use Rattle.std.specs.Prelude.{◌≡◌, length};
ghost use Rattle.spec_covers.specs.Answer.{Answer, Comparison, output_after};
ghost use Rattle.spec_calls.specs.Word.{word_of};
ghost use Rattle.spec_calls.specs.Against.{covers_reply};
ghost use Rattle.spec_outcomes.specs.Scratch.{covers_scratch};

#[unsafe(no_mangle)]
pub extern "C" fn tarczolin_covers(first: &[u8], second: &[u8], out: &mut [u8]) -> u64
    ensures { (a : Answer) × Comparison first.now second.now (length out.old) a
        × (result ≡ word_of (covers_reply a)) × (out.new ≡ output_after a out.old) }
{
    c_extra::tarczolin_covers(first, second, out)
}

#[unsafe(no_mangle)]
pub extern "C" fn tarczolin_covers_with(
    first: &[u8],
    second: &[u8],
    out: &mut [u8],
    scratch: &mut [u64],
) -> u64
    ensures { (a : Answer) × Comparison first.now second.now (length out.old) a
        × (result ≡ word_of (covers_reply a)) × (out.new ≡ output_after a out.old)
        × (scratch.new ≡ covers_scratch a scratch.old) }
{
    c_extra::tarczolin_covers_with(first, second, out, scratch)
}
