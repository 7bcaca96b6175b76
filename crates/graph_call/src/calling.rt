// The graph of a schedule, as text in front of a lent output.
ghost use Rattle.std.specs.Prelude.{◌≡◌, length};
ghost use Rattle.spec_file.specs.Decode.{decode};
ghost use Rattle.file_decoder.specs.Compiled.{program_of, answer_of};
ghost use Rattle.spec_model.specs.Laws.{Admitted};
ghost use Rattle.spec_model.specs.OnFile.{admit};
ghost use Rattle.spec_model.specs.GraphCall.{graph_answer, graph_file, graph_output};
ghost use Rattle.listing_model.specs.ModelOf.{model_of};
ghost use Rattle.graph_call.specs.GraphWord.{graph_answer_of};

use file_decoder::Compiled;
use graph_writer::write_graph;
use listing_model::Model;
use listing_replay::{admitted, replayed};
use spec_file::Refusal;

// The graph of a schedule of a listed program: 22 for an output shorter than 512 bytes comes first, then 20 and 21. The length of its text.
fn graph_of(
    model: Model,
    program: Compiled,
    schedule: &[u8],
    out: &mut [u8],
) -> Result<usize, Refusal>
    requires { Admitted (model_of model) (program_of program) }
    ensures answer { result ≡ graph_answer_of (graph_answer (model_of model) (program_of program) schedule.now
        (length out.old)) }
    ensures output { out.new ≡ graph_output (graph_answer (model_of model) (program_of program) schedule.now
        (length out.old)) out.old }
{
    if out.len() < 512 {
        return Err(Refusal {
            number: 22,
            place: 0,
        });
    }
    let run = replayed(model, program, schedule);
    run.end?;
    Ok(write_graph(out, &run.log, run.notes))
}

// The program of a file that the model lists, or what refuses the file.
fn program_from(model: Model, file: &[u8]) -> Result<Compiled, Refusal>
    ensures { answer_of result ≡ admit (model_of model) (decode file.now) }
{
    admitted(model, file)
}

// The graph call on a program file: its refusals come first, then 41 under total store order, then 22 for an output shorter than 512
// bytes, then 20 and 21 of the schedule.
pub fn graph(model: Model, file: &[u8], schedule: &[u8], out: &mut [u8]) -> Result<usize, Refusal>
    ensures answer { result ≡ graph_answer_of (graph_file (model_of model) file.now schedule.now
        (length out.old)) }
    ensures output { out.new ≡ graph_output (graph_file (model_of model) file.now schedule.now
        (length out.old)) out.old }
{
    let program = program_from(model, file)?;
    graph_of(model, program, schedule, out)
}
