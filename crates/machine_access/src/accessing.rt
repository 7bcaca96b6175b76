// What an access does: it finds a value at its location, changes a register, and writes.
ghost use Rattle.std.specs.Prelude.{◌≡◌, cond, eqb, false, slice_index};
ghost use Rattle.spec_sc.specs.Local.{sum32};
ghost use Rattle.machine_access.specs.CarriedOut.{accessing, writing};

use file_lines::wide;
use std::num::wrapping_add_u32;

// An access carried out: its location, whether it reads, the registers behind it, whether it writes and what.
#[derive(Clone, Copy)]
pub struct Access {
    pub location: u8,
    pub reads: bool,
    pub registers: [u32; 4],
    pub writes: bool,
    pub value: u32,
}

impl Access {
    // An access that writes nothing, with these registers behind it.
    pub(crate) fn quiet(location: u8, reads: bool, registers: [u32; 4]) -> Access
        ensures { result ≡ accessing location reads registers false 0 }
    {
        Access {
            location,
            reads,
            registers,
            writes: false,
            value: 0,
        }
    }

    // The access writing v.
    pub(crate) fn writing(self, v: u32) -> Access
        ensures { result ≡ writing self v }
    {
        Access {
            writes: true,
            value: v,
            ..self
        }
    }

    // The load of a fetch and add of p, which found x, with its write. Adding zero only reads.
    pub(crate) fn adding(self, x: u32, p: u32) -> Access
        ensures { result ≡ cond (eqb p 0) self (writing self (sum32 x p)) }
    {
        if p == 0 {
            return self;
        }
        self.writing(wrapping_add_u32(x, p))
    }
}

// What memory holds at a location; 0 at one that does not exist.
pub(crate) fn found(memory: [u32; 8], l: u8) -> u32
    ensures { result ≡ slice_index memory l }
{
    memory.get(wide(l)).copied().unwrap_or(0)
}
