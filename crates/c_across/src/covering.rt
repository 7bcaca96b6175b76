// One program under one memory model against another under another.
ghost use Rattle.std.specs.Prelude.{◌≡◌, length};
ghost use Rattle.spec_covers.specs.Answer.{Answer, output_after};
ghost use Rattle.spec_calls.specs.Word.{word_of};
ghost use Rattle.spec_calls.specs.Against.{covers_reply};
ghost use Rattle.spec_across.specs.ModelsCall.{ModelsCompared};
ghost use Rattle.spec_outcomes.specs.Scratch.{covers_scratch};

use c_extra::against_word;

// A byte names the model of the file behind it: 0 sequential consistency, 1 total store order. Kind 2 where the first program covers the
// second; else kind 1, with the first listed schedule of the second in its model that has an outcome which the first lacks in front of `out`,
// and its length. Kind 3 with number and place for a byte that names no model, for the first file or for `out`, kind 4 for the second file;
// only kind 1 changes `out`. Kinds 1 and 2 leave zeros in the scratch, kinds 3 and 4 leave it as it was; the answer does not depend on it.
#[unsafe(no_mangle)]
pub extern "C" fn tarczolin_covers_models(
    model: u8,
    first: &[u8],
    other: u8,
    second: &[u8],
    out: &mut [u8],
    scratch: &mut [u64],
) -> u64
    ensures { (a : Answer)
        × ModelsCompared model first.now other second.now (length out.old) a
        × (result ≡ word_of (covers_reply a)) × (out.new ≡ output_after a out.old)
        × (scratch.new ≡ covers_scratch a scratch.old) }
{
    against_word(covers::covers_models(model, first, other, second, out, scratch))
}
