// Listed schedules: the first one, the next one, the first one that fails.
ghost use Rattle.std.specs.Prelude.{◌≡◌};
ghost use Rattle.spec_model.specs.OnFile.{start_file, continue_file, violation_file};
ghost use Rattle.spec_sc.specs.Sequential.{sc};
ghost use Rattle.spec_calls.specs.Word.{word_of};
ghost use Rattle.spec_calls.specs.Listed.{listed, violation_reply};

#[unsafe(no_mangle)]
pub extern "C" fn tarczolin_start(file: &[u8], out: &mut [u8]) -> u64
    ensures answer { result ≡ word_of (listed (start_file sc file.now out.old).0) }
    ensures output { out.new ≡ (start_file sc file.now out.old).1 }
{
    c_listing::tarczolin_start(file, out)
}

#[unsafe(no_mangle)]
pub extern "C" fn tarczolin_continue(file: &[u8], schedule: &[u8], out: &mut [u8]) -> u64
    ensures answer { result ≡ word_of (listed (continue_file sc file.now schedule.now out.old).0) }
    ensures output { out.new ≡ (continue_file sc file.now schedule.now out.old).1 }
{
    c_listing::tarczolin_continue(file, schedule, out)
}

#[unsafe(no_mangle)]
pub extern "C" fn tarczolin_violation(file: &[u8], out: &mut [u8]) -> u64
    ensures answer { result ≡ word_of (violation_reply (violation_file sc file.now out.old).0) }
    ensures output { out.new ≡ (violation_file sc file.now out.old).1 }
{
    c_listing::tarczolin_violation(file, out)
}
