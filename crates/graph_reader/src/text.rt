// A graph text to the table of its graph, or to its refusal.
ghost use Rattle.std.specs.Prelude.{◌≤◌};
ghost use Rattle.spec_judge.specs.Reading.{read_graph};
ghost use Rattle.graph_reader.specs.Held.{ReadAs};

use crate::refusal::refusal;
use crate::table::{Table, empty};
use crate::taken::taken;
use file_lines::Line;
use spec_file::Refusal;

// Reads a graph text of n threads: its table, or the refusal's number and its line.
pub fn read_graph(text: &[u8], n: usize) -> Result<Table, Refusal>
    requires { n ≤ 6 }
    ensures { ReadAs result (read_graph n text.now) }
{
    let mut s = empty();
    let mut at = 0;
    let mut number = 1;
    while at < text.len() {
        let end = file_lines::line_end(text, at);
        if end == text.len() {
            return Err(Refusal {
                number: 30,
                place: number,
            });
        }
        let line = &text[at..end];
        at = end + 1;
        match file_lines::read(line) {
            Line::Broken => return Err(Refusal {
                number: 30,
                place: number,
            }),
            Line::Remark => {}
            Line::Frame(size) => {
                if let Some(k) = refusal(line, size, n, s) {
                    return Err(Refusal {
                        number: k,
                        place: number,
                    });
                }
                s = taken(line, size, n, s);
            }
        }
        number += 1;
    }
    Ok(s)
}
