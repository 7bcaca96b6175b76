// A program file to a compiled program, or to its refusal.
ghost use Rattle.std.specs.Prelude.{◌≡◌, ◌+◌, ◌<◌};
ghost use Rattle.spec_file.specs.Decode.{Reading, finish, decode};
ghost use Rattle.file_decoder.specs.Compiled.{answer_of};
ghost use Rattle.file_refusals.specs.Held.{Holds, Bounded};
ghost use Rattle.file_decoder.specs.Held.{Lined, Numbered, Grouped};

use crate::skip::far_skip;
use crate::taken::taken;
use file_lines::Line;
use file_refusals::{Counts, none_yet, refusal};
use file_rows::{CODE_BYTES, Code};
use spec_file::Refusal;

// An accepted program: its instructions, a row of sixteen bytes each, how many each thread has, the group of each thread (0: none), and the
// values that memory starts with.
#[derive(Clone, Copy)]
pub struct Compiled {
    pub code: Code,
    pub threads: usize,
    pub lengths: [usize; 6],
    pub groups: usize,
    pub class: [usize; 6],
    pub starting: [u32; 8],
}

// After the last line: the program, unless a skip goes beyond its thread's end.
fn finished(code: Code, rows: [usize; 96], s: Counts) -> Result<Compiled, Refusal>
    requires { Bounded s }
    ensures { (r : Reading) → Holds code s r → Lined rows r → Numbered r → Grouped r → answer_of result ≡ finish r }
{
    let lengths = s.lengths;
    if let Some(place) = far_skip(&code, &rows, s.threads, lengths) {
        return Err(Refusal { number: 7, place });
    }
    let class = s.class;
    let starting = s.starting.values;
    Ok(Compiled {
        code,
        threads: s.threads,
        lengths,
        groups: s.groups,
        class,
        starting,
    })
}

// Reads a program file: the program, or its refusal.
pub fn decode(file: &[u8]) -> Result<Compiled, Refusal>
    ensures { answer_of result ≡ decode file.now }
{
    if 4096 < file.len() {
        return Err(Refusal {
            number: 1,
            place: 0,
        });
    }
    let mut code = [0u8; CODE_BYTES];
    let mut rows = [0usize; 96];
    let mut s = none_yet();
    let mut at = 0;
    let mut number = 1;
    while at < file.len() {
        let end = file_lines::line_end(file, at);
        if end == file.len() {
            return Err(Refusal {
                number: 2,
                place: number,
            });
        }
        let line = &file[at..end];
        at = end + 1;
        match file_lines::read(line) {
            Line::Broken => return Err(Refusal {
                number: 2,
                place: number,
            }),
            Line::Remark => {}
            Line::Frame(n) => {
                if let Some(k) = refusal(line, n, &code, s) {
                    return Err(Refusal {
                        number: k,
                        place: number,
                    });
                }
                s = taken(line, n, number, &mut code, &mut rows, s);
            }
        }
        number += 1;
    }
    finished(code, rows, s)
}
