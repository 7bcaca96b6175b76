// Whether a graph can happen.
ghost use Rattle.std.specs.Prelude.{◌≡◌, length};
ghost use Rattle.spec_judge.specs.Answer.{Answer, Judgement, output_after};
ghost use Rattle.spec_calls.specs.Word.{word_of};
ghost use Rattle.spec_calls.specs.Judged.{judged};

#[unsafe(no_mangle)]
pub extern "C" fn tarczolin_judge(file: &[u8], graph: &[u8], out: &mut [u8]) -> u64
    ensures { (a : Answer) × Judgement file.now graph.now (length out.old) a
        × (result ≡ word_of (judged a)) × (out.new ≡ output_after a out.old) }
{
    c_graph::tarczolin_judge(file, graph, out)
}
