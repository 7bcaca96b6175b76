// The graph of a schedule under total store order.
ghost use Rattle.std.specs.Prelude.{◌≡◌, length};
ghost use Rattle.spec_model.specs.GraphCall.{graph_file, graph_output};
ghost use Rattle.spec_tso.specs.TotalStoreOrder.{tso};
ghost use Rattle.spec_calls.specs.Word.{word_of};
ghost use Rattle.spec_calls.specs.Graphed.{graph_reply};

#[unsafe(no_mangle)]
pub extern "C" fn tarczolin_tso_graph(file: &[u8], schedule: &[u8], out: &mut [u8]) -> u64
    ensures answer { result ≡ word_of (graph_reply (graph_file tso file.now schedule.now (length out.old))) }
    ensures output { out.new ≡ graph_output (graph_file tso file.now schedule.now
        (length out.old)) out.old }
{
    c_tso::tarczolin_tso_graph(file, schedule, out)
}
