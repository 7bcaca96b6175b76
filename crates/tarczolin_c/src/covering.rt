// One program under one memory model against another under another.
ghost use Rattle.std.specs.Prelude.{◌≡◌, length};
ghost use Rattle.spec_covers.specs.Answer.{Answer, output_after};
ghost use Rattle.spec_calls.specs.Word.{word_of};
ghost use Rattle.spec_calls.specs.Against.{covers_reply};
ghost use Rattle.spec_across.specs.ModelsCall.{ModelsCompared};
ghost use Rattle.spec_outcomes.specs.Scratch.{covers_scratch};

#[unsafe(no_mangle)]
pub extern "C" fn tarczolin_covers_models(
    model: u8,
    first: &[u8],
    other: u8,
    second: &[u8],
    out: &mut [u8],
    scratch: &mut [u64],
) -> u64
    ensures { (a : Answer)
        × ModelsCompared model first.now other second.now (length out.old) a
        × (result ≡ word_of (covers_reply a)) × (out.new ≡ output_after a out.old)
        × (scratch.new ≡ covers_scratch a scratch.old) }
{
    c_across::tarczolin_covers_models(model, first, other, second, out, scratch)
}
