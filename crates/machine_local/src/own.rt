// What the instruction in a row does to its thread by itself, read off the row's bytes: in the search's path no instruction is made.
ghost use Rattle.std.specs.Prelude.{◌≡◌, ◌<◌, [], ◌∷◌};
ghost use Rattle.spec_file.specs.declared.instruction.Own.{Own};
ghost use Rattle.spec_file.specs.declared.instruction.Own.TheVariants.{Assign, AddAssign, SkipUnless, Assert};
ghost use Rattle.spec_file.specs.declared.instruction.Instruction.TheVariants.{Alone};
ghost use Rattle.file_rows.specs.Rows.{instruction_at};
ghost use Rattle.spec_sc.specs.Local.{outcome, begins_with_access};
ghost use Rattle.machine_local.specs.CarriedOut.{carried};

use crate::comparing::holds;
use crate::local::{Carried, register_at, value, with_at};
use file_lines::{choose, wide};
use file_rows::{Code, operand_at};
use spec_file::{Comparison, Operand, Test};
use std::num::wrapping_add_u32;

// Whether it is an access.
pub fn is_access(code: &Code, row: usize) -> bool
    requires { row < 96 }
    ensures { result ≡ begins_with_access (instruction_at code.now row ∷ []) }
{
    matches!(code[row * 16], 0x10..=0x13)
}

// An operand into a register.
fn assigned(registers: [u32; 4], r: u8, p: Operand) -> Option<Carried>
    ensures { result ≡ carried (outcome registers (Assign r p)) }
{
    let v = value(p, registers);
    Some(Carried {
        registers: with_at(registers, wide(r), v),
        skip: 0,
    })
}

// An operand added to a register.
fn added(registers: [u32; 4], r: u8, p: Operand) -> Option<Carried>
    ensures { result ≡ carried (outcome registers (AddAssign r p)) }
{
    let k = wide(r);
    let v = wrapping_add_u32(register_at(registers, k), value(p, registers));
    Some(Carried {
        registers: with_at(registers, k, v),
        skip: 0,
    })
}

// A skip of n instructions unless its test holds.
fn skipping(registers: [u32; 4], t: Test, n: u8) -> Option<Carried>
    ensures { result ≡ carried (outcome registers (SkipUnless t n)) }
{
    Some(Carried {
        registers,
        skip: choose(holds(registers, t), 0, n),
    })
}

// An assertion that its test holds.
fn asserted(registers: [u32; 4], t: Test) -> Option<Carried>
    ensures { result ≡ carried (outcome registers (Assert t)) }
{
    if holds(registers, t) {
        Some(Carried { registers, skip: 0 })
    } else {
        None
    }
}

// Carries out what is no access; None where it is an assertion that fails.
pub fn carried_out(code: &Code, row: usize, registers: [u32; 4]) -> Option<Carried>
    requires { row < 96 }
    ensures { (o : Own) → instruction_at code.now row ≡ Alone o → result ≡ carried (outcome registers o) }
{
    let at = row * 16;
    let b = code[at];
    let r = code[at + 1];
    let p = operand_at(code, row, 2);
    let n = code[at + 7];
    let equal = Test {
        comparison: Comparison::Equal,
        register: r,
        operand: p,
    };
    let at_most = Test {
        comparison: Comparison::AtMost,
        ..equal
    };
    match b {
        0x20 => assigned(registers, r, p),
        0x21 => added(registers, r, p),
        0x22 => skipping(registers, equal, n),
        0x23 => asserted(registers, equal),
        0x24 => skipping(registers, at_most, n),
        0x25 => asserted(registers, at_most),
        _ => asserted(
            registers,
            Test {
                comparison: Comparison::AtMost,
                register: b,
                operand: operand_at(code, row, 0),
            },
        ),
    }
}
