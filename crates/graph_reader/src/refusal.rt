// The number by which a line's frame is refused: 31, 32 or 33, if it is.
ghost use Rattle.std.specs.Prelude.{◌≡◌, ◌%◌, ◌<◌, ◌≤◌, true, List, length};
ghost use Rattle.file_lines.specs.Numbers.{unless_zero};
ghost use Rattle.spec_file.specs.Frame.{pairs};
ghost use Rattle.spec_schedules.specs.Lists.{all};
ghost use Rattle.spec_sc.specs.State.{Event};
ghost use Rattle.spec_judge.specs.Reading.{Reading, writes_in, known, is_event, is_source, in_range, all_new, refusal};
ghost use Rattle.graph_reader.specs.Held.{Holds, Seen, rank_of};

use crate::table::Table;
use file_lines::field;

// Whether a text of n threads may name the event (t, i).
#[tactic(auto, unfolding(spec_judge::specs::Reading::is_event))]
fn is_event(t: usize, i: usize, n: usize) -> bool
    ensures { result ≡ is_event n (t, i) }
{
    t < n && i <= 15
}

// Whether it may name it as a source.
#[tactic(auto, unfolding(spec_judge::specs::Reading::is_source, spec_sc::specs::Same::same_event, spec_sc::specs::State::initial_write))]
fn is_source(t: usize, i: usize, n: usize) -> bool
    ensures { result ≡ is_source n (t, i) }
{
    t == 255 && i == 255 || is_event(t, i, n)
}

// Whether the frame's kind is known and it has a length of that kind.
#[tactic(auto, unfolding(spec_judge::specs::Reading::known, spec_judge::specs::Reading::is_read))]
fn known(line: &[u8], size: usize) -> bool
    requires { size ≡ length (pairs line.now) }
    ensures { result ≡ known (pairs line.now) }
{
    match field(line, 0) {
        0x40 => size == 5,
        0x41 => 4 <= size && size % 2 == 0,
        _ => false,
    }
}

// Whether all writes of a `41` line may be named.
fn all_events(line: &[u8], size: usize, n: usize) -> bool
    requires { (size ≡ length (pairs line.now)) × (size % 2 ≡ 0) }
    ensures { result ≡ all (is_event n) (writes_in (pairs line.now)) }
{
    for k in 1..size / 2 {
        if !is_event(field(line, 2 * k), field(line, 2 * k + 1), n) {
            return false;
        }
    }
    true
}

// Whether the fields of a frame of known kind are in range.
#[tactic(auto, unfolding(spec_judge::specs::Reading::in_range, spec_judge::specs::Reading::is_read))]
fn in_range(line: &[u8], size: usize, n: usize) -> bool
    requires { (size ≡ length (pairs line.now)) × (known (pairs line.now) ≡ true) }
    ensures { result ≡ in_range n (pairs line.now) }
{
    let b = field(line, 0);
    let x = field(line, 1);
    if b == 0x40 {
        return is_event(x, field(line, 2), n) && is_source(field(line, 3), field(line, 4), n);
    }
    x <= 7 && all_events(line, size, n)
}

// Whether no write of a `41` line is marked or stands in the line twice.
fn all_new(line: &[u8], size: usize, seen: [bool; 96]) -> bool
    requires { (size ≡ length (pairs line.now)) × (size % 2 ≡ 0) × (all (is_event 6) (writes_in (pairs line.now)) ≡ true) }
    ensures { (rows : List (List Event)) → Seen seen rows → result ≡ all_new rows (writes_in (pairs line.now)) }
{
    let mut s = seen;
    for k in 1..size / 2 {
        let e = field(line, 2 * k) * 16 + field(line, 2 * k + 1);
        if s[e] {
            return false;
        }
        s[e] = true;
    }
    true
}

// The frame's place in the order of all lines.
#[tactic(auto, unfolding(crate::specs::Held::rank_of, spec_judge::specs::Reading::is_read))]
pub(crate) fn rank(line: &[u8]) -> usize
    ensures { result ≡ rank_of (pairs line.now) }
{
    let x = field(line, 1);
    if field(line, 0) == 0x40 {
        x * 16 + field(line, 2) + 1
    } else {
        x + 97
    }
}

// The refusal of the frame of `size` bytes on a line, of a text of n threads, after what has been read.
pub(crate) fn refusal(line: &[u8], size: usize, n: usize, s: Table) -> Option<u8>
    requires { (size ≡ length (pairs line.now)) × (n ≤ 6) }
    ensures { (r : Reading) → Holds n s r → result ≡ unless_zero (refusal n r (pairs line.now)) }
{
    if !known(line, size) {
        return Some(31);
    }
    if !in_range(line, size, n) {
        return Some(32);
    }
    let k = rank(line);
    if k <= s.last {
        return Some(33);
    }
    let b = field(line, 0);
    if b == 0x40 || all_new(line, size, s.seen) {
        return None;
    }
    Some(33)
}
