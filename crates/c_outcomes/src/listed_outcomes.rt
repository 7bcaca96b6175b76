// All outcomes of a program, each with the first listed schedule that has it.
ghost use Rattle.std.specs.Prelude.{◌≡◌};
ghost use Rattle.spec_sc.specs.Sequential.{sc};
ghost use Rattle.spec_tso.specs.TotalStoreOrder.{tso};
ghost use Rattle.spec_calls.specs.Word.{word_of};
ghost use Rattle.spec_calls.specs.ByRows.{rows_reply};
ghost use Rattle.spec_outcomes.specs.OutcomesCall.{outcomes_file, outcomes_output, outcomes_scratch};

use c_word::number_word;
use listing_model::Model;
use outcomes_call::outcomes;

// Kind 1 with the number of rows, which stand in front of `out`: the outcomes from the number `from` on, as many as have room; kind 3 with
// number and place.
#[unsafe(no_mangle)]
pub extern "C" fn tarczolin_outcomes(
    file: &[u8],
    from: u64,
    out: &mut [u8],
    scratch: &mut [u64],
) -> u64
    ensures answer { result ≡ word_of (rows_reply (outcomes_file sc file.now from out.old)) }
    ensures output { out.new ≡ outcomes_output sc file.now from out.old }
    ensures later { scratch.new
        ≡ outcomes_scratch (outcomes_file sc file.now from out.old) scratch.old }
{
    number_word(outcomes(Model::Sequential, file, from as usize, out, scratch))
}

// The same under total store order, by rows of 82 bytes.
#[unsafe(no_mangle)]
pub extern "C" fn tarczolin_tso_outcomes(
    file: &[u8],
    from: u64,
    out: &mut [u8],
    scratch: &mut [u64],
) -> u64
    ensures answer { result ≡ word_of (rows_reply (outcomes_file tso file.now from out.old)) }
    ensures output { out.new ≡ outcomes_output tso file.now from out.old }
    ensures later { scratch.new
        ≡ outcomes_scratch (outcomes_file tso file.now from out.old) scratch.old }
{
    number_word(outcomes(Model::TotalStoreOrder, file, from as usize, out, scratch))
}
