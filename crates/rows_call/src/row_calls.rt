// Listed schedules of a program file by rows: from the first one on, or behind a schedule.
ghost use Rattle.std.specs.Prelude.{◌≡◌};
ghost use Rattle.std.proofs.Math.Option.{none, some};
ghost use Rattle.listing_model.specs.ModelOf.{model_of};
ghost use Rattle.spec_calls.specs.RowsCall.{rows_file, rows_output};

use listing_cursor::{beginning, behind};
use listing_model::Model;
use listing_pages::next_page;
use listing_replay::admitted;
use spec_file::Refusal;

// The first listed schedules, as many as the output has room for.
pub fn first_rows(model: Model, file: &[u8], out: &mut [u8]) -> Result<usize, Refusal>
    ensures answer { result ≡ rows_file (model_of model) file.now none out.old }
    ensures output { out.new ≡ rows_output (model_of model) file.now none out.old }
{
    let program = admitted(model, file)?;
    let page = next_page(model, program, beginning(), false, out);
    Ok(page.rows)
}

// The listed schedules after a given one, which need not be listed nor full.
pub fn next_rows(
    model: Model,
    file: &[u8],
    schedule: &[u8],
    out: &mut [u8],
) -> Result<usize, Refusal>
    ensures answer { result ≡ rows_file (model_of model) file.now (some schedule.now) out.old }
    ensures output { out.new
        ≡ rows_output (model_of model) file.now (some schedule.now) out.old }
{
    let program = admitted(model, file)?;
    let page = next_page(model, program, behind(schedule), false, out);
    Ok(page.rows)
}
