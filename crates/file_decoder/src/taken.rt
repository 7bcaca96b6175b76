// What has been read once a line has passed: a thread more, a group more, a starting value more, or an instruction more in the thread last
// opened.
ghost use Rattle.std.specs.Prelude.{◌≡◌, ◌+◌, ◌*◌, ◌-◌, ◌<◌, ◌≤◌, length, drop};
ghost use Rattle.spec_file.specs.Frame.{pairs};
ghost use Rattle.file_refusals.specs.Held.{Bounded};
ghost use Rattle.file_decoder.specs.Held.{marked, opened_counts, grouped_counts, started_counts, extended_counts, Passes, Taken};

use file_lines::field;
use file_refusals::{Counts, Starting, is_access};
use file_rows::{Code, put_row, word_at};

// The counts with one thread more.
fn opened(s: Counts) -> Counts
    requires { s.threads < 6 }
    ensures { result ≡ opened_counts s }
{
    Counts {
        threads: s.threads + 1,
        ..s
    }
}

// The members of the line's frame of n bytes get the group g.
fn mark(line: &[u8], n: usize, class: [usize; 6], g: usize) -> [usize; 6]
    requires { n ≡ length (pairs line.now) }
    ensures { result ≡ marked g (drop 1 (pairs line.now)) class }
{
    let mut c = class;
    for j in 1..n {
        let t = field(line, j);
        if t < 6 {
            c[t] = g;
        }
    }
    c
}

// The counts with one group more.
fn grouped(line: &[u8], n: usize, s: Counts) -> Counts
    requires { (n ≡ length (pairs line.now)) × (s.groups ≤ 4096) }
    ensures { result ≡ grouped_counts (drop 1 (pairs line.now)) s }
{
    let groups = s.groups + 1;
    let class = mark(line, n, s.class, groups);
    Counts { groups, class, ..s }
}

// The counts with one starting value more, v at location l.
fn started(l: usize, v: u32, s: Counts) -> Counts
    requires { l < 8 }
    ensures { result ≡ started_counts l v s }
{
    let mut starting = s.starting;
    starting.values[l] = v;
    starting.given[l] = true;
    Counts { starting, ..s }
}

// The counts with one instruction more, of the first byte b, in the thread last opened.
fn extended(b: usize, s: Counts) -> Counts
    requires { Bounded s × (1 ≤ s.threads) }
    ensures { result ≡ extended_counts b s }
{
    let mut lengths = s.lengths;
    lengths[s.threads - 1] += 1;
    let accesses = if is_access(b) {
        s.accesses + 1
    } else {
        s.accesses
    };
    Counts {
        lengths,
        accesses,
        ..s
    }
}

// The counts with the frame of n bytes on line `number`, which is not refused.
pub(crate) fn taken(
    line: &[u8],
    n: usize,
    number: usize,
    code: &mut Code,
    rows: &mut [usize; 96],
    s: Counts,
) -> Counts
    requires { Passes line.now n code.old s }
    ensures { Taken line.now number code.old rows.old s code.new rows.new result }
{
    let b = field(line, 0);
    match b {
        0x01 => opened(s),
        0x02 => grouped(line, n, s),
        0x03 => started(field(line, 1), word_at(line, 2), s),
        _ => {
            let last = s.threads - 1;
            let row = last * 16 + s.lengths[last];
            put_row(code, row, line, n);
            rows[row] = number;
            extended(b, s)
        }
    }
}
