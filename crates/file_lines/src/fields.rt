// Bytes as larger numbers: any byte, and the bytes of a line's frame.
ghost use Rattle.std.specs.Prelude.{◌≡◌, ◌<◌, get_or};
ghost use Rattle.spec_file.specs.Frame.{pairs};

use crate::reader::byte_at;

// A byte as a larger number.
pub fn wide(x: u8) -> usize
    ensures same { result ≡ x }
    ensures small { result < 256 }
{
    x as usize
}

// The byte at a position of the line's frame; 0 behind its end.
pub fn field(line: &[u8], at: usize) -> usize
    ensures same { result ≡ get_or (pairs line.now) at 0 }
    ensures small { result < 256 }
{
    wide(byte_at(line, at))
}
