// Whether the members of a `02` line exist, ascend, stand in no earlier one and have the same code: refusal 8.
ghost use Rattle.std.specs.Prelude.{◌≡◌, ◌+◌, ◌*◌, ◌<◌, ◌≤◌, get_or, length, drop};
ghost use Rattle.spec_file.specs.Frame.{pairs};
ghost use Rattle.spec_file.specs.Decode.{Reading, members_fit};
ghost use Rattle.file_refusals.specs.Held.{Holds, Bounded, code_agrees};

use crate::counts::{Counts, is_free};
use file_lines::field;
use file_rows::{Code, same_bytes};

// Whether threads t and u have the same code.
fn same_code(code: &Code, lengths: [usize; 6], t: usize, u: usize) -> bool
    requires { (t < 6) × (u < 6) × (get_or lengths t 0 ≤ 16) }
    ensures { result ≡ code_agrees code.now lengths t u }
{
    let n = lengths[t];
    n == lengths[u] && same_bytes(code, t * 256, u * 256, n * 16)
}

// Whether the threads that a line of n bytes declares alike may be.
pub(crate) fn members_fit(line: &[u8], n: usize, code: &Code, s: Counts) -> bool
    requires { Bounded s × (n ≡ length (pairs line.now)) × (2 ≤ n) }
    ensures { (r : Reading) → Holds code.now s r → result ≡ members_fit r (drop 1 (pairs line.now)) }
{
    let lengths = s.lengths;
    let mut t = field(line, 1);
    if !is_free(s, t) {
        return false;
    }
    for j in 2..n {
        let u = field(line, j);
        if !is_free(s, u) || u <= t || !same_code(code, lengths, t, u) {
            return false;
        }
        t = u;
    }
    true
}
