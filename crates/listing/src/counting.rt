// How many schedules are listed, and how many of these fail, modulo 2^64.
ghost use Rattle.std.specs.Prelude.{◌≡◌, ◌*◌, length};
ghost use Rattle.file_decoder.specs.Compiled.{program_of};
ghost use Rattle.spec_model.specs.Laws.{Admitted};
ghost use Rattle.spec_model.specs.Answers.{count_of};
ghost use Rattle.spec_model.specs.OnFile.{count_file};
ghost use Rattle.spec_calls.specs.Rows.{row_size};
ghost use Rattle.listing_model.specs.ModelOf.{model_of};
ghost use Rattle.listing.specs.CountWord.{count_answer_of};

use file_decoder::Compiled;
use listing_cursor::{beginning, failing_in, is_end};
use listing_model::{Model, width};
use listing_pages::next_page;
use listing_replay::admitted;
use spec_file::Refusal;
use states_memory::{Tally, added};

// The counts of a listed program, by pages of 64 rows in a lent buffer.
fn counted(model: Model, program: Compiled, rows: &mut [u8]) -> Tally
    requires { Admitted (model_of model) (program_of program) × (length rows.old ≡ 64 * row_size (model_of model).need) }
    ensures { (result.listed ≡ (count_of (model_of model) (program_of program)).listed)
        × (result.failing ≡ (count_of (model_of model) (program_of program)).failed) }
{
    let need = width(model);
    let mut cursor = beginning();
    let mut tally = Tally {
        listed: 0,
        failing: 0,
    };
    while !is_end(cursor) {
        let page = next_page(model, program, cursor, false, rows);
        let failing = failing_in(rows, need, page.rows);
        tally = added(
            tally,
            Tally {
                listed: page.rows as u64,
                failing: failing as u64,
            },
        );
        cursor = page.cursor;
    }
    tally
}

// The bytes of a page: 64 rows of 50 bytes, the longer ones of the two models.
const PAGE_BYTES: usize = 3200;

// The counts of a listed program.
fn counts(model: Model, program: Compiled) -> Tally
    requires { Admitted (model_of model) (program_of program) }
    ensures { (result.listed ≡ (count_of (model_of model) (program_of program)).listed)
        × (result.failing ≡ (count_of (model_of model) (program_of program)).failed) }
{
    let mut rows = [0u8; PAGE_BYTES];
    let n = 64 * (width(model) + 2);
    counted(model, program, &mut rows[..n])
}

// The counts of a program file, which may be refused.
pub fn count(model: Model, file: &[u8]) -> Result<Tally, Refusal>
    ensures { result ≡ count_answer_of (count_file (model_of model) file.now) }
{
    let program = admitted(model, file)?;
    Ok(counts(model, program))
}
