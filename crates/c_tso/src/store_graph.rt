// The graph of a schedule under total store order.
ghost use Rattle.std.specs.Prelude.{◌≡◌, length};
ghost use Rattle.spec_model.specs.GraphCall.{graph_file, graph_output};
ghost use Rattle.spec_tso.specs.TotalStoreOrder.{tso};
ghost use Rattle.spec_calls.specs.Word.{word_of};
ghost use Rattle.spec_calls.specs.ByRows.{rows_reply};
ghost use Rattle.spec_calls.specs.Graphed.{graph_reply};

use c_word::number_word;
use listing_model::Model;
use spec_file::Refusal;

// The word of the length of a graph's text, or of a refusal.
fn graph_word(answer: Result<usize, Refusal>) -> u64
    ensures { result ≡ word_of (rows_reply answer) }
{
    number_word(answer)
}

// Kind 1 with the text's length, the text in front of `out`; kind 3 with number and place, and no byte of `out` changed.
#[unsafe(no_mangle)]
pub extern "C" fn tarczolin_tso_graph(file: &[u8], schedule: &[u8], out: &mut [u8]) -> u64
    ensures answer { result ≡ word_of (graph_reply (graph_file tso file.now schedule.now (length out.old))) }
    ensures output { out.new ≡ graph_output (graph_file tso file.now schedule.now
        (length out.old)) out.old }
{
    graph_word(graph_call::graph(Model::TotalStoreOrder, file, schedule, out))
}
