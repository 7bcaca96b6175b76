// A frame's line into the front of a lent buffer.
ghost use Rattle.std.specs.Prelude.{◌≡◌, length};
ghost use Rattle.spec_file.specs.Text.{written};
ghost use Rattle.spec_file.specs.Over.{over};

use crate::digit::{high, low};

// Writes the line of the frame `bytes` with its 0a, and answers how many bytes it wrote. Where `out` is too short for the whole line it
// writes nothing and answers 0.
pub fn write(out: &mut [u8], bytes: &[u8]) -> usize
    ensures count { result ≡ length (written bytes.now (length out.old)) }
    ensures content { out.new ≡ over (written bytes.now (length out.old)) out.old }
{
    let n = bytes.len();
    if out.len() < 2 * n + 1 {
        return 0;
    }
    for (k, &b) in bytes.iter().enumerate() {
        out[2 * k] = high(b);
        out[2 * k + 1] = low(b);
    }
    out[2 * n] = 10;
    2 * n + 1
}
