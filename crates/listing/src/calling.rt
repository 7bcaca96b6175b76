// The calls that give a schedule: start, continue, violation.
ghost use Rattle.std.specs.Prelude.{◌≡◌, ◌≤◌, false, length};
ghost use Rattle.file_decoder.specs.Compiled.{program_of};
ghost use Rattle.spec_schedules.specs.Lists.{head_of};
ghost use Rattle.spec_schedules.specs.Calls.{answer_to, short, content};
ghost use Rattle.spec_model.specs.Laws.{Admitted};
ghost use Rattle.spec_model.specs.Answers.{refuses_from, continue_of};
ghost use Rattle.spec_model.specs.OnFile.{start_file, continue_file, violation_file};
ghost use Rattle.spec_calls.specs.Rows.{row_size};
ghost use Rattle.listing_cursor.specs.ListRows.{remaining};
ghost use Rattle.machine_replay.specs.Carried.{refusal_of};
ghost use Rattle.listing_model.specs.ModelOf.{model_of};
ghost use Rattle.listing.specs.AnswerOf.{length_of, list_answer_of, violation_answer_of};

use file_decoder::Compiled;
use listing_cursor::{Cursor, beginning, behind, put_schedule};
use listing_model::{Model, width};
use listing_pages::next_page;
use listing_replay::{admitted, replayed};
use spec_file::Refusal;

// The length of the first one that is yet to come, if there is one, by a row of the model's width; the output has room for it.
fn next_of(
    model: Model,
    program: Compiled,
    cursor: Cursor,
    failures: bool,
    row: &mut [u8],
    out: &mut [u8],
) -> Option<usize>
    requires { Admitted (model_of model) (program_of program) × (length row.old ≡ row_size (model_of model).need)
        × ((model_of model).need ≤ length out.old) }
    ensures answer { result ≡ length_of (head_of (remaining (model_of model) (program_of program) failures cursor)) }
    ensures output { out.new
        ≡ content (answer_to false (head_of (remaining (model_of model) (program_of program) failures cursor))) out.old }
{
    let page = next_page(model, program, cursor, failures, row);
    if page.rows == 0 {
        return None;
    }
    let n = usize::from(row[0]);
    put_schedule(out, row, n);
    Some(n)
}

// The first one that is yet to come, of all that are listed or of those that fail.
fn next_listed(
    model: Model,
    program: Compiled,
    cursor: Cursor,
    failures: bool,
    out: &mut [u8],
) -> Result<Option<usize>, Refusal>
    requires { Admitted (model_of model) (program_of program) }
    ensures answer { result ≡ list_answer_of (answer_to (short (model_of model).need out.old)
        (head_of (remaining (model_of model) (program_of program) failures cursor))) }
    ensures output { out.new ≡ content (answer_to (short (model_of model).need out.old)
        (head_of (remaining (model_of model) (program_of program) failures cursor))) out.old }
{
    let need = width(model);
    if out.len() < need {
        return Err(Refusal {
            number: 22,
            place: 0,
        });
    }
    let mut row = [0u8; 50];
    Ok(next_of(model, program, cursor, failures, &mut row[..need + 2], out))
}

// Whether a schedule is full, or what refuses it: 20 or 21.
fn carried_out(model: Model, program: Compiled, schedule: &[u8]) -> Result<(), Refusal>
    requires { Admitted (model_of model) (program_of program) }
    ensures { refusal_of result
        ≡ refuses_from (model_of model).system 0 ((model_of model).start (program_of program)) schedule.now }
{
    replayed(model, program, schedule).end
}

// The least listed schedule of a listed program after a given one.
fn continued(
    model: Model,
    program: Compiled,
    schedule: &[u8],
    out: &mut [u8],
) -> Result<Option<usize>, Refusal>
    requires { Admitted (model_of model) (program_of program) }
    ensures answer { result ≡ list_answer_of (continue_of (model_of model) (program_of program) schedule.now out.old).0 }
    ensures output { out.new ≡ (continue_of (model_of model) (program_of program) schedule.now out.old).1 }
{
    if out.len() < width(model) {
        return Err(Refusal {
            number: 22,
            place: 0,
        });
    }
    carried_out(model, program, schedule)?;
    next_listed(model, program, behind(schedule), false, out)
}

// The least listed schedule of a program file.
pub fn start(model: Model, file: &[u8], out: &mut [u8]) -> Result<Option<usize>, Refusal>
    ensures answer { result ≡ list_answer_of (start_file (model_of model) file.now out.old).0 }
    ensures output { out.new ≡ (start_file (model_of model) file.now out.old).1 }
{
    let program = admitted(model, file)?;
    next_listed(model, program, beginning(), false, out)
}

// The least listed schedule after a full one, listed or not.
pub fn continue_from(
    model: Model,
    file: &[u8],
    schedule: &[u8],
    out: &mut [u8],
) -> Result<Option<usize>, Refusal>
    ensures answer { result
        ≡ list_answer_of (continue_file (model_of model) file.now schedule.now out.old).0 }
    ensures output { out.new
        ≡ (continue_file (model_of model) file.now schedule.now out.old).1 }
{
    let program = admitted(model, file)?;
    continued(model, program, schedule, out)
}

// The first listed schedule that fails.
pub fn violation(model: Model, file: &[u8], out: &mut [u8]) -> Result<Option<usize>, Refusal>
    ensures answer { result ≡ violation_answer_of (violation_file (model_of model) file.now out.old).0 }
    ensures output { out.new ≡ (violation_file (model_of model) file.now out.old).1 }
{
    let program = admitted(model, file)?;
    next_listed(model, program, beginning(), true, out)
}
