// The call `judge`: a program file, a graph text and an output.
ghost use Rattle.std.specs.Prelude.{◌≡◌, length};
ghost use Rattle.spec_judge.specs.Answer.{Answer, Judgement, output_after};
ghost use Rattle.judge.specs.Call.{outcome_of};

use crate::judging::judged;
use file_rows::put_front;
use graph_reader::read_graph;
use spec_file::{Refusal, STEPS};

// Judges a graph text: yes, with the number of steps of the least schedule that makes the graph, which stands in front of the output; or no.
// Only a yes changes the output.
pub fn judge(file: &[u8], text: &[u8], out: &mut [u8]) -> Result<Option<usize>, Refusal>
    ensures { (a : Answer) × Judgement file.now text.now (length out.old) a
        × (result ≡ outcome_of a) × (out.new ≡ output_after a out.old) }
{
    let p = file_decoder::decode(file)?;
    if out.len() < STEPS {
        return Err(Refusal {
            number: 22,
            place: 0,
        });
    }
    let table = read_graph(text, p.threads)?;
    let Some(s) = judged(&p, table.pairs, table.counts) else {
        return Ok(None);
    };
    put_front(out, &s.schedule, s.steps);
    Ok(Some(s.steps))
}
