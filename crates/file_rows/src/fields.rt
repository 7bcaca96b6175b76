// The fields of a frame, read off its line, and whether they are in range.
ghost use Rattle.std.specs.Prelude.{◌≡◌, ◌+◌, ◌*◌, ◌<◌};
ghost use Rattle.spec_file.specs.Frame.{pairs};
ghost use Rattle.spec_file.specs.Frames.{word, kind, in_range, register_fits, location_fits, skip_fits, operand_fits};

use file_lines::{byte_at, field};
use spec_file::Kind;

// Four bytes as one number, most significant first.
pub(crate) fn join(a: u8, b: u8, c: u8, d: u8) -> u32
    ensures { result ≡ ((a * 256 + b) * 256 + c) * 256 + d }
{
    (((a as u32) * 256 + (b as u32)) * 256 + (c as u32)) * 256 + (d as u32)
}

// A register is one of the four, a location one of the eight, and a skip goes over 1 to 15 instructions; a field that the kind lacks, at 0,
// fits.
#[tactic(auto, unfolding(spec_file::specs::Frames::register_fits))]
fn register_fits(line: &[u8], at: usize) -> bool
    ensures { result ≡ register_fits (pairs line.now) at }
{
    at == 0 || field(line, at) < 4
}

#[tactic(auto, unfolding(spec_file::specs::Frames::location_fits))]
fn location_fits(line: &[u8], at: usize) -> bool
    ensures { result ≡ location_fits (pairs line.now) at }
{
    at == 0 || field(line, at) < 8
}

#[tactic(auto, unfolding(spec_file::specs::Frames::skip_fits))]
fn skip_fits(line: &[u8], at: usize) -> bool
    ensures { result ≡ skip_fits (pairs line.now) at }
{
    at == 0 || matches!(field(line, at), 1..=15)
}

// The four bytes of the line's frame from a position on.
#[tactic(auto, unfolding(spec_file::specs::Frames::word))]
pub fn word_at(line: &[u8], at: usize) -> u32
    requires { at < 16 }
    ensures { result ≡ word (pairs line.now) at }
{
    join(
        byte_at(line, at),
        byte_at(line, at + 1),
        byte_at(line, at + 2),
        byte_at(line, at + 3),
    )
}

// An operand is 00 and a constant, or 01 and a register.
#[tactic(auto, unfolding(spec_file::specs::Frames::operand_fits))]
fn operand_fits(line: &[u8], at: usize) -> bool
    requires { at < 15 }
    ensures { result ≡ operand_fits (pairs line.now) at }
{
    if at == 0 {
        return true;
    }
    let k = field(line, at);
    k == 0 || k == 1 && word_at(line, at + 1) < 4
}

// Whether the frame's fields, which stand where its kind says, are in range.
#[tactic(auto, unfolding(spec_file::specs::Frames::in_range))]
pub fn in_range(line: &[u8], k: Kind) -> bool
    requires { k ≡ kind (pairs line.now) }
    ensures { result ≡ in_range (pairs line.now) }
{
    register_fits(line, k.register)
        && location_fits(line, k.location)
        && operand_fits(line, k.first)
        && operand_fits(line, k.second)
        && skip_fits(line, k.skip)
}
