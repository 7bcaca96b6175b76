// How large the class of a full schedule is, in either memory model.
ghost use Rattle.std.specs.Prelude.{◌≡◌, ◌≤◌};
ghost use Rattle.spec_file.specs.Decode.{decode};
ghost use Rattle.file_decoder.specs.Compiled.{program_of, answer_of};
ghost use Rattle.graph_writer.specs.NoteText.{notes_at};
ghost use Rattle.search_place.specs.ClassGroups.{groups_of};
ghost use Rattle.spec_model.specs.Laws.{Admitted};
ghost use Rattle.spec_model.specs.OnFile.{admit};
ghost use Rattle.spec_model.specs.ClassSize.{class_of, class_file};
ghost use Rattle.listing_model.specs.ModelOf.{model_of};
ghost use Rattle.class_size.specs.Moves.{quotient};
ghost use Rattle.class_size.specs.ClassWord.{class_answer_of};

use crate::by_number::permutation_table;
use crate::counting::count;
use crate::moving::{leaving_moves, permitted_moves};
use file_decoder::Compiled;
use listing_model::Model;
use listing_replay::{admitted, replayed};
use spec_file::Refusal;

// How many permutations move threads within their `02` lines, divided by how many of these leave the graph of the notes the same.
fn quotient_of(class: [usize; 6], groups: usize, log: &[u8; 192], steps: usize) -> usize
    requires { steps ≤ 24 }
    ensures { result ≡ quotient (groups_of class groups) (notes_at log.now steps) }
{
    let table = permutation_table();
    let may = permitted_moves(class, groups);
    let left = leaving_moves(may, log, steps);
    count(may, &table) / count(left, &table)
}

// The class of a schedule of a listed program.
fn class_of(model: Model, program: Compiled, schedule: &[u8]) -> Result<usize, Refusal>
    requires { Admitted (model_of model) (program_of program) }
    ensures { result ≡ class_answer_of (class_of (model_of model) (program_of program) schedule.now) }
{
    let run = replayed(model, program, schedule);
    run.end?;
    Ok(quotient_of(program.class, program.groups, &run.log, run.notes))
}

// The program of a file that the model lists, or what refuses the file.
fn program_from(model: Model, file: &[u8]) -> Result<Compiled, Refusal>
    ensures { answer_of result ≡ admit (model_of model) (decode file.now) }
{
    admitted(model, file)
}

// The class call on a program file: its refusals come first, then 41 under total store order, then 20 and 21 of the schedule, which need
// not be listed.
pub fn class_size(model: Model, file: &[u8], schedule: &[u8]) -> Result<usize, Refusal>
    ensures { result ≡ class_answer_of (class_file (model_of model) file.now schedule.now) }
{
    let program = program_from(model, file)?;
    class_of(model, program, schedule)
}
