// The first skip that goes beyond its thread's end: refusal 7.
ghost use Rattle.std.specs.Prelude.{◌≡◌, ℕ, ◌+◌, ◌*◌, ◌<◌, ◌≤◌, List, length, get_or};
ghost use Rattle.file_lines.specs.Numbers.{unless_zero};
ghost use Rattle.spec_file.specs.Decode.{Placed, far_skip, first_far_skip};
ghost use Rattle.file_decoder.specs.Held.{HeldThread, HeldThreads};

use file_rows::{Code, skip_at};

// The line of the first such skip among the n instructions of thread t, if there is one.
fn in_thread(code: &Code, rows: &[usize; 96], t: usize, n: usize) -> Option<usize>
    requires { (t < 6) × (n ≤ 16) }
    ensures { (xs : List Placed) → HeldThread code.now rows.now t xs → n ≡ length xs → result ≡ unless_zero (far_skip xs) }
{
    for i in 0..n {
        let row = t * 16 + i;
        if n - i - 1 < skip_at(code, row) {
            return Some(rows[row]);
        }
    }
    None
}

// The line of the first such skip, if there is one.
pub(crate) fn far_skip(
    code: &Code,
    rows: &[usize; 96],
    threads: usize,
    lengths: [usize; 6],
) -> Option<usize>
    requires { (threads ≤ 6) × ((t : ℕ) → get_or lengths t 0 ≤ 16) }
    ensures { (cs : List (List Placed)) → HeldThreads code.now rows.now threads lengths cs
        → result ≡ unless_zero (first_far_skip cs) }
{
    for t in 0..threads {
        if let Some(line) = in_thread(code, rows, t, lengths[t]) {
            return Some(line);
        }
    }
    None
}
