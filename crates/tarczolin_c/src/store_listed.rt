// Listed schedules under total store order: the first one, the next one, the first one that fails.
ghost use Rattle.std.specs.Prelude.{◌≡◌};
ghost use Rattle.spec_model.specs.OnFile.{start_file, continue_file, violation_file};
ghost use Rattle.spec_tso.specs.TotalStoreOrder.{tso};
ghost use Rattle.spec_calls.specs.Word.{word_of};
ghost use Rattle.spec_calls.specs.Listed.{listed, violation_reply};

#[unsafe(no_mangle)]
pub extern "C" fn tarczolin_tso_start(file: &[u8], out: &mut [u8]) -> u64
    ensures answer { result ≡ word_of (listed (start_file tso file.now out.old).0) }
    ensures output { out.new ≡ (start_file tso file.now out.old).1 }
{
    c_tso::tarczolin_tso_start(file, out)
}

#[unsafe(no_mangle)]
pub extern "C" fn tarczolin_tso_continue(file: &[u8], schedule: &[u8], out: &mut [u8]) -> u64
    ensures answer { result ≡ word_of (listed (continue_file tso file.now schedule.now out.old).0) }
    ensures output { out.new ≡ (continue_file tso file.now schedule.now out.old).1 }
{
    c_tso::tarczolin_tso_continue(file, schedule, out)
}

#[unsafe(no_mangle)]
pub extern "C" fn tarczolin_tso_violation(file: &[u8], out: &mut [u8]) -> u64
    ensures answer { result ≡ word_of (violation_reply (violation_file tso file.now out.old).0) }
    ensures output { out.new ≡ (violation_file tso file.now out.old).1 }
{
    c_tso::tarczolin_tso_violation(file, out)
}
