// The instructions that a program keeps: each frame padded with zeros to sixteen bytes, thread t's instruction i in row 16 t + i.
ghost use Rattle.std.specs.Prelude.{◌≡◌, ◌+◌, ◌*◌, ◌<◌, ◌≤◌, length};
ghost use Rattle.spec_file.specs.Frame.{pairs};
ghost use Rattle.spec_file.specs.Frames.{operand, skip_of};
ghost use Rattle.file_rows.specs.Rows.{row_at};
ghost use Rattle.file_rows.specs.Bytes.{agree, Written};

use crate::fields::join;
use file_lines::{byte_at, wide};
use spec_file::Operand;

// The bytes of a program's code: 96 rows of sixteen.
pub const CODE_BYTES: usize = 1536;

pub type Code = [u8; CODE_BYTES];

// The operand in row `row` at position `j`.
pub fn operand_at(code: &Code, row: usize, j: usize) -> Operand
    requires { (row < 96) × (j < 12) }
    ensures { result ≡ operand (row_at code.now row) j }
{
    let at = row * 16 + j;
    let v = join(code[at + 1], code[at + 2], code[at + 3], code[at + 4]);
    if code[at] == 1 {
        Operand::Register(v)
    } else {
        Operand::Constant(v)
    }
}

// How many instructions the one in row `row` may skip.
pub fn skip_at(code: &Code, row: usize) -> usize
    requires { row < 96 }
    ensures { result ≡ skip_of (row_at code.now row) }
{
    let at = row * 16;
    let b = code[at];
    if b == 0x22 || b == 0x24 {
        wide(code[at + 7])
    } else {
        0
    }
}

// Whether the n bytes from a on and those from b on are the same.
pub fn same_bytes(code: &Code, a: usize, b: usize, n: usize) -> bool
    requires { (a + n ≤ 1536) × (b + n ≤ 1536) }
    ensures { result ≡ agree code.now a b n }
{
    code[a..a + n] == code[b..b + n]
}

// Puts the n bytes of the line's frame into row `row`.
pub fn put_row(code: &mut Code, row: usize, line: &[u8], n: usize)
    requires { (row < 96) × (n ≤ 16) × (length code.old ≡ 1536) }
    ensures { Written code.old (row * 16) (pairs line.now) n code.new }
{
    let at = row * 16;
    for j in 0..n {
        code[at + j] = byte_at(line, j);
    }
}
