// What has been read once a line has passed: a source more, or the writes of a location.
ghost use Rattle.std.specs.Prelude.{◌≡◌, ◌%◌, ◌<◌, ◌≤◌, true, length};
ghost use Rattle.spec_file.specs.Frame.{pairs};
ghost use Rattle.spec_schedules.specs.Lists.{all};
ghost use Rattle.spec_judge.specs.Reading.{byte_at, writes_in, is_event};
ghost use Rattle.graph_reader.specs.Held.{read_table, marked_by, byte_or, Ordered, Passes, Taken};

use crate::refusal::rank;
use crate::table::Table;
use file_lines::field;
use spec_file::STEPS;

// The table with the source that a `40` line gives.
fn with_read(line: &[u8], s: Table) -> Table
    requires { (byte_at (pairs line.now) 1 < 6) × (byte_at (pairs line.now) 2 < 16) }
    ensures { result ≡ read_table (pairs line.now) s }
{
    let at = (field(line, 1) * 16 + field(line, 2)) * 2;
    let mut pairs = s.pairs;
    pairs[at] = file_lines::byte_at(line, 3);
    pairs[at + 1] = file_lines::byte_at(line, 4);
    Table {
        pairs,
        last: rank(line),
        ..s
    }
}

// The writes of a `41` line are marked.
fn marked(line: &[u8], size: usize, seen: [bool; 96]) -> [bool; 96]
    requires { (size ≡ length (pairs line.now)) × (size % 2 ≡ 0) × (all (is_event 6) (writes_in (pairs line.now)) ≡ true) }
    ensures { result ≡ marked_by seen (writes_in (pairs line.now)) }
{
    let mut s = seen;
    for k in 1..size / 2 {
        s[field(line, 2 * k) * 16 + field(line, 2 * k + 1)] = true;
    }
    s
}

// Byte k of the frame, and fe behind its end.
#[tactic(auto, unfolding(crate::specs::Held::byte_or))]
fn byte_or(line: &[u8], size: usize, k: usize) -> u8
    requires { size ≡ length (pairs line.now) }
    ensures { result ≡ byte_or (pairs line.now) k }
{
    if k < size {
        file_lines::byte_at(line, k)
    } else {
        254
    }
}

// The first 24 writes of a `41` line of location l get their places.
fn ordered(line: &[u8], size: usize, old: [u8; 576], l: usize) -> [u8; 576]
    requires { (size ≡ length (pairs line.now)) × (size % 2 ≡ 0) × (4 ≤ size) × (l < 8) }
    ensures { Ordered old l (writes_in (pairs line.now)) 24 result }
{
    let mut p = old;
    for q in 0..STEPS {
        let at = (96 + (l * STEPS + q)) * 2;
        let k = 2 * q + 2;
        p[at] = byte_or(line, size, k);
        p[at + 1] = byte_or(line, size, k + 1);
    }
    p
}

// The table with the frame of `size` bytes on a line, which is not refused.
pub(crate) fn taken(line: &[u8], size: usize, n: usize, s: Table) -> Table
    requires { Passes n line.now size }
    ensures { Taken n line.now s result }
{
    let b = field(line, 0);
    if b == 0x40 {
        return with_read(line, s);
    }
    let l = field(line, 1);
    let pairs = ordered(line, size, s.pairs, l);
    let mut counts = s.counts;
    counts[l] = size / 2 - 1;
    let seen = marked(line, size, s.seen);
    Table {
        pairs,
        counts,
        seen,
        last: rank(line),
    }
}
