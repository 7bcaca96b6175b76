// Whether a schedule of total store order is relaxed: the text of its graph is written, read and judged. The first listed one that is.
ghost use Rattle.std.specs.Prelude.{◌≡◌};
ghost use Rattle.file_decoder.specs.Compiled.{program_of};
ghost use Rattle.spec_model.specs.Laws.{Admitted};
ghost use Rattle.spec_model.specs.Model.{Full};
ghost use Rattle.spec_tso.specs.TotalStoreOrder.{tso};
ghost use Rattle.spec_across.proofs.Relaxed.{is_relaxed, first_relaxed};
ghost use Rattle.listing_cursor.specs.Steps.{found_of};
ghost use Rattle.outcome_lists.specs.Found.{Within};

use file_decoder::Compiled;
use graph_reader::read_graph;
use graph_writer::write_graph;
use judge::judged;
use listing_cursor::Steps;
use listing_model::Model;
use outcome_lists::first_passing;
use tso_replay::replayed;

// Whether a full schedule is.
fn is_relaxed(program: Compiled, steps: &[u8]) -> bool
    requires { Admitted tso (program_of program) × Full tso (program_of program) steps.now }
    ensures { result ≡ is_relaxed (program_of program) steps.now }
{
    let run = replayed(&program, steps);
    let mut text = [0u8; 512];
    let n = write_graph(&mut text, &run.log, run.notes);
    let table = read_graph(&text[..n], program.threads).unwrap();
    judged(&program, table.pairs, table.counts).is_none()
}

// The first listed schedule that is.
pub(crate) fn first_relaxed(program: Compiled) -> Option<Steps<48>>
    requires { Admitted tso (program_of program) }
    ensures short { Within 48 result }
    ensures first { found_of result ≡ first_relaxed (program_of program) }
{
    let relaxed = |s: &[u8]| is_relaxed(program, s);
    first_passing(Model::TotalStoreOrder, program, relaxed)
}
