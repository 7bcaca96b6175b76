// The number by which a line's frame is refused: 3, 4, 5, 6, 40 or 8, if it is.
ghost use Rattle.std.specs.Prelude.{◌≡◌, ◌<◌, ◌≤◌, ◌&&◌, leb, length};
ghost use Rattle.file_lines.specs.Numbers.{unless_zero};
ghost use Rattle.spec_file.specs.Frame.{pairs};
ghost use Rattle.spec_file.specs.Decode.{Reading, frame_refusal};
ghost use Rattle.file_refusals.specs.Held.{Holds, Bounded, opening_refusal, starting_refusal, instruction_refusal};

use crate::alike::members_fit;
use crate::counts::Counts;
use file_lines::field;
use file_rows::{Code, in_range, kind_of};
use spec_file::STEPS;

// Whether a first byte is that of an access.
pub fn is_access(b: usize) -> bool
    ensures { result ≡ (leb 0x10 b && leb b 0x13) }
{
    matches!(b, 0x10..=0x13)
}

// The refusal of a frame that opens a thread.
fn opening(s: Counts) -> Option<u8>
    ensures { result ≡ unless_zero (opening_refusal s) }
{
    if s.groups != 0 {
        return Some(5);
    }
    if 6 <= s.threads { Some(6) } else { None }
}

// The refusal of a frame that lets location l start with a value.
fn starting(l: usize, s: Counts) -> Option<u8>
    requires { l < 8 }
    ensures { result ≡ unless_zero (starting_refusal l s) }
{
    if s.threads != 0 || s.groups != 0 || s.starting.given[l] {
        return Some(40);
    }
    None
}

// The refusal of an instruction with the first byte b.
fn instruction(b: usize, s: Counts) -> Option<u8>
    requires { s.threads ≤ 6 }
    ensures { result ≡ unless_zero (instruction_refusal b s) }
{
    if s.groups != 0 || s.threads == 0 {
        return Some(5);
    }
    if 16 <= s.lengths[s.threads - 1] || is_access(b) && STEPS <= s.accesses {
        return Some(6);
    }
    None
}

// The refusal of the frame of n bytes on a line, after what has been read.
pub fn refusal(line: &[u8], n: usize, code: &Code, s: Counts) -> Option<u8>
    requires { Bounded s × (n ≡ length (pairs line.now)) }
    ensures { (r : Reading) → Holds code.now s r → result ≡ unless_zero (frame_refusal r (pairs line.now)) }
{
    let b = field(line, 0);
    let k = kind_of(b);
    if n < k.least || k.most < n {
        return Some(3);
    }
    if !in_range(line, k) {
        return Some(4);
    }
    match b {
        0x01 => opening(s),
        0x02 => {
            if members_fit(line, n, code, s) {
                None
            } else {
                Some(8)
            }
        }
        0x03 => starting(field(line, 1), s),
        _ => instruction(b, s),
    }
}
