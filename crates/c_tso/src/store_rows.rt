// Many listed schedules at a time under total store order, in rows of 50 bytes.
ghost use Rattle.std.specs.Prelude.{◌≡◌};
ghost use Rattle.std.proofs.Math.Option.{none, some};
ghost use Rattle.spec_tso.specs.TotalStoreOrder.{tso};
ghost use Rattle.spec_calls.specs.RowsCall.{rows_file, rows_output};
ghost use Rattle.spec_calls.specs.Word.{word_of};
ghost use Rattle.spec_calls.specs.ByRows.{rows_reply};

use c_word::number_word;
use listing_model::Model;

// Kind 1 with the number of rows, which stand in front of `out`: the first listed schedules, as many as have room; kind 3 with number and
// place.
#[unsafe(no_mangle)]
pub extern "C" fn tarczolin_tso_rows(file: &[u8], out: &mut [u8]) -> u64
    ensures answer { result ≡ word_of (rows_reply (rows_file tso file.now none out.old)) }
    ensures output { out.new ≡ rows_output tso file.now none out.old }
{
    number_word(rows_call::first_rows(Model::TotalStoreOrder, file, out))
}

// The listed schedules after a given one, which need not be listed nor full, by rows and a word like those of `tarczolin_tso_rows`.
#[unsafe(no_mangle)]
pub extern "C" fn tarczolin_tso_rows_after(file: &[u8], schedule: &[u8], out: &mut [u8]) -> u64
    ensures answer { result ≡ word_of (rows_reply (rows_file tso file.now (some schedule.now)
        out.old)) }
    ensures output { out.new ≡ rows_output tso file.now (some schedule.now)
        out.old }
{
    number_word(rows_call::next_rows(Model::TotalStoreOrder, file, schedule, out))
}
