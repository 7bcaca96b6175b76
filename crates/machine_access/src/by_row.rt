// What the access in a row does, read off the row's bytes: in the search's path no instruction is made.
ghost use Rattle.std.specs.Prelude.{◌≡◌, ◌<◌};
ghost use Rattle.file_rows.specs.Rows.{instruction_at};
ghost use Rattle.machine_access.specs.CarriedOut.{access_of};

use crate::accessing::{Access, found};
use file_lines::wide;
use file_rows::{Code, operand_at};
use machine_local::{value, with_at};

// Does the access on finding memory so. Operands are read before the register changes.
pub fn accessed_at(code: &Code, row: usize, registers: [u32; 4], memory: [u32; 8]) -> Access
    requires { row < 96 }
    ensures { result ≡ access_of (instruction_at code.now row) registers memory }
{
    let at = row * 16;
    let b = code[at];
    let r = code[at + 1];
    if b == 0x10 {
        let v = value(operand_at(code, row, 2), registers);
        return Access::quiet(r, false, registers).writing(v);
    }
    let l = code[at + 2];
    let x = found(memory, l);
    let load = Access::quiet(l, true, with_at(registers, wide(r), x));
    match b {
        0x11 => load,
        0x12 => load.adding(x, value(operand_at(code, row, 3), registers)),
        0x13 => {
            if x == value(operand_at(code, row, 3), registers) {
                load.writing(value(operand_at(code, row, 8), registers))
            } else {
                load
            }
        }
        _ => Access::quiet(0, false, registers),
    }
}

// Whether the access writes on finding memory so: what others have to wait for, without carrying it out.
pub fn writes_at(code: &Code, row: usize, registers: [u32; 4], memory: [u32; 8]) -> bool
    requires { row < 96 }
    ensures { result ≡ (access_of (instruction_at code.now row) registers memory).writes }
{
    let at = row * 16;
    match code[at] {
        0x10 => true,
        0x12 => value(operand_at(code, row, 3), registers) != 0,
        0x13 => found(memory, code[at + 2]) == value(operand_at(code, row, 3), registers),
        _ => false,
    }
}
