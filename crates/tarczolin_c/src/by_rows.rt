// Many listed schedules at a time.
ghost use Rattle.std.specs.Prelude.{◌≡◌};
ghost use Rattle.std.proofs.Math.Option.{none, some};
ghost use Rattle.spec_sc.specs.Sequential.{sc};
ghost use Rattle.spec_calls.specs.RowsCall.{rows_file, rows_output};
ghost use Rattle.spec_calls.specs.Word.{word_of};
ghost use Rattle.spec_calls.specs.ByRows.{rows_reply};

#[unsafe(no_mangle)]
pub extern "C" fn tarczolin_rows(file: &[u8], out: &mut [u8]) -> u64
    ensures answer { result ≡ word_of (rows_reply (rows_file sc file.now none out.old)) }
    ensures output { out.new ≡ rows_output sc file.now none out.old }
{
    c_listing::tarczolin_rows(file, out)
}

#[unsafe(no_mangle)]
pub extern "C" fn tarczolin_rows_after(file: &[u8], schedule: &[u8], out: &mut [u8]) -> u64
    ensures answer { result ≡ word_of (rows_reply (rows_file sc file.now (some schedule.now)
        out.old)) }
    ensures output { out.new ≡ rows_output sc file.now (some schedule.now) out.old }
{
    c_listing::tarczolin_rows_after(file, schedule, out)
}
