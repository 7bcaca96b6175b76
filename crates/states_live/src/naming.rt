// The registers that the instruction in a row reads, and the one that it writes.
ghost use Rattle.std.specs.Prelude.{◌≡◌, ◌<◌};
ghost use Rattle.file_rows.specs.Rows.{instruction_at};
ghost use Rattle.theory_sc_key.specs.Registers.{in_operand, reads_register, writes_register};
ghost use Rattle.states_live.specs.Live.{reads_own, writes_own};

use file_lines::wide;
use file_rows::{Code, kind_of, operand_at};
use spec_file::Operand;

// Whether the operand is register r.
#[tactic(auto, unfolding(theory_sc_key::specs::Registers::in_operand))]
fn is_register(p: Operand, r: u8) -> bool
    ensures { result ≡ in_operand p r }
{
    match p {
        Operand::Constant(_) => false,
        Operand::Register(k) => k == u32::from(r),
    }
}

// Whether an instruction with this first byte reads the register that it names: stores, loads, swaps and assignments do not.
#[tactic(auto, unfolding(crate::specs::Live::reads_own))]
fn reads_own(b: u8) -> bool
    ensures { result ≡ reads_own b }
{
    !matches!(b, 0x10 | 0x11 | 0x12 | 0x13 | 0x20)
}

// Whether it writes it: what reads memory does, and what assigns.
#[tactic(auto, unfolding(crate::specs::Live::writes_own))]
fn writes_own(b: u8) -> bool
    ensures { result ≡ writes_own b }
{
    matches!(b, 0x11 | 0x12 | 0x13 | 0x20 | 0x21)
}

// Whether the instruction in a row reads register r.
pub(crate) fn reads_register(code: &Code, row: usize, r: u8) -> bool
    requires { row < 96 }
    ensures { result ≡ reads_register (instruction_at code.now row) r }
{
    let at = row * 16;
    let b = code[at];
    if b == 0x11 {
        return false;
    }
    let k = kind_of(wide(b));
    if is_register(operand_at(code, row, k.first), r) {
        return true;
    }
    if b == 0x13 {
        return is_register(operand_at(code, row, k.second), r);
    }
    reads_own(b) && code[at + k.register] == r
}

// Whether it writes register r.
pub(crate) fn writes_register(code: &Code, row: usize, r: u8) -> bool
    requires { row < 96 }
    ensures { result ≡ writes_register (instruction_at code.now row) r }
{
    let at = row * 16;
    let b = code[at];
    writes_own(b) && code[at + kind_of(wide(b)).register] == r
}
