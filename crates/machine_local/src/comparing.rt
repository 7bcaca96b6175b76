// Whether a register's value compares with an operand's as a skip or an assertion asks.
ghost use Rattle.std.specs.Prelude.{◌≡◌};
ghost use Rattle.spec_sc.specs.Signed.{at_most};
ghost use Rattle.spec_sc.specs.Local.{holds};

use crate::local::{register_at, value};
use file_lines::wide;
use spec_file::{Comparison, Test};
use std::num::wrapping_add_u32;

// Whether a is at most b, both read as two's complement: 2^31 more, modulo 2^32, puts the 32-bit numbers into the order of the integers.
fn at_most(a: u32, b: u32) -> bool
    ensures { result ≡ at_most a b }
{
    wrapping_add_u32(a, 0x8000_0000) <= wrapping_add_u32(b, 0x8000_0000)
}

// Whether a test holds.
pub(crate) fn holds(registers: [u32; 4], t: Test) -> bool
    ensures { result ≡ holds registers t }
{
    let a = register_at(registers, wide(t.register));
    let b = value(t.operand, registers);
    match t.comparison {
        Comparison::Equal => a == b,
        Comparison::AtMost => at_most(a, b),
    }
}
