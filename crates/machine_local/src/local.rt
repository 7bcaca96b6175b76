// A thread by itself: its four registers, the value of an operand, and what an instruction can do that is no access.
ghost use Rattle.std.specs.Prelude.{◌≡◌, slice_index, set};
ghost use Rattle.spec_sc.specs.Local.{eval};

use file_lines::choose;
use spec_file::Operand;

// The register k; 0 for a number that names none. Each is chosen by a comparison: by `get` a step takes a tenth longer.
pub(crate) fn register_at(registers: [u32; 4], k: usize) -> u32
    ensures { result ≡ slice_index registers k }
{
    let a = choose(k == 0, registers[0], 0);
    let b = choose(k == 1, registers[1], a);
    let c = choose(k == 2, registers[2], b);
    choose(k == 3, registers[3], c)
}

// The values with v at k; the same where there is no such place. Each is chosen by a comparison, so that they move in wide registers and no
// store of one value waits in front of a load of many.
pub fn with_at<T: Copy, const N: usize>(values: [T; N], k: usize, v: T) -> [T; N]
    ensures { result ≡ set values k v }
{
    let mut changed = values;
    for n in 0..N {
        changed[n] = choose(k == n, v, values[n]);
    }
    changed
}

// The value of an operand.
pub fn value(p: Operand, registers: [u32; 4]) -> u32
    ensures { result ≡ eval registers p }
{
    match p {
        Operand::Constant(v) => v,
        Operand::Register(k) => register_at(registers, k as usize),
    }
}

// An instruction that is no access, carried out: the registers behind it, and how many instructions are skipped.
#[derive(Clone, Copy)]
pub struct Carried {
    pub registers: [u32; 4],
    pub skip: u8,
}
