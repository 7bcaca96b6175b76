// All outcomes of a program, each with the first listed schedule that has it.
ghost use Rattle.std.specs.Prelude.{◌≡◌};
ghost use Rattle.spec_sc.specs.Sequential.{sc};
ghost use Rattle.spec_tso.specs.TotalStoreOrder.{tso};
ghost use Rattle.spec_calls.specs.Word.{word_of};
ghost use Rattle.spec_calls.specs.ByRows.{rows_reply};
ghost use Rattle.spec_outcomes.specs.OutcomesCall.{outcomes_file, outcomes_output, outcomes_scratch};

#[unsafe(no_mangle)]
pub extern "C" fn tarczolin_outcomes(
    file: &[u8],
    from: u64,
    out: &mut [u8],
    scratch: &mut [u64],
) -> u64
    ensures answer { result ≡ word_of (rows_reply (outcomes_file sc file.now from out.old)) }
    ensures output { out.new ≡ outcomes_output sc file.now from out.old }
    ensures later { scratch.new
        ≡ outcomes_scratch (outcomes_file sc file.now from out.old) scratch.old }
{
    c_outcomes::tarczolin_outcomes(file, from, out, scratch)
}

#[unsafe(no_mangle)]
pub extern "C" fn tarczolin_tso_outcomes(
    file: &[u8],
    from: u64,
    out: &mut [u8],
    scratch: &mut [u64],
) -> u64
    ensures answer { result ≡ word_of (rows_reply (outcomes_file tso file.now from out.old)) }
    ensures output { out.new ≡ outcomes_output tso file.now from out.old }
    ensures later { scratch.new
        ≡ outcomes_scratch (outcomes_file tso file.now from out.old) scratch.old }
{
    c_outcomes::tarczolin_tso_outcomes(file, from, out, scratch)
}
