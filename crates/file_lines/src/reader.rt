// One line of a text, handed over without its 0a.
ghost use Rattle.std.specs.Prelude.{◌≡◌, ◌↔◌, get_or, IsTrue, EachIndex, slice_index};
ghost use Rattle.spec_file.specs.Digit.{digit};
ghost use Rattle.spec_file.specs.Frame.{pairs};
ghost use Rattle.file_lines.specs.Meaning.{line_of};

use crate::digit::{is_digit, value_of};

// What a line is.
#[derive(Clone, Copy)]
pub enum Line {
    // A frame of so many bytes.
    Frame(usize),
    // A remark: it begins with 23 (`#`), and holds any bytes behind it.
    Remark,
    // Neither a frame nor a remark: empty, odd, or with a character that is no digit.
    Broken,
}

// Whether every character of the line is a digit.
fn all_digits(line: &[u8]) -> bool
    ensures { IsTrue result ↔ EachIndex line.now (λ k. IsTrue (digit (slice_index line.now k))) }
{
    line.iter().all(|b| is_digit(*b))
}

// Whether the line is a remark or a frame, and of how many bytes.
pub fn read(line: &[u8]) -> Line
    ensures { result ≡ line_of line.now }
{
    if line.len() == 0 {
        return Line::Broken;
    }
    if line[0] == 35 {
        return Line::Remark;
    }
    if line.len() % 2 != 0 || !all_digits(line) {
        return Line::Broken;
    }
    Line::Frame(line.len() / 2)
}

// The byte at place k of the line's frame; 0 behind its end.
pub fn byte_at(line: &[u8], k: usize) -> u8
    ensures { result ≡ get_or (pairs line.now) k 0 }
{
    if line.len() / 2 <= k {
        return 0;
    }
    16 * value_of(line[2 * k]) + value_of(line[2 * k + 1])
}
