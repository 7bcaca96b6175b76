// A thread carried to its next access, or to its end.
ghost use Rattle.std.specs.Prelude.{◌≡◌, ◌+◌, ◌*◌, ◌<◌, ◌≤◌, drop};
ghost use Rattle.file_rows.specs.Rows.{thread_code};
ghost use Rattle.spec_sc.specs.Local.{settle};
ghost use Rattle.machine_access.specs.CarriedOut.{local_of};

use crate::thread::ThreadState;
use file_lines::wide;
use file_rows::Code;
use machine_local::{carried_out, is_access};

// Thread t, of n instructions, from instruction `from` on with these registers, having done so many accesses.
pub fn settle(
    code: &Code,
    t: usize,
    n: usize,
    from: usize,
    registers: [u32; 4],
    done: u8,
) -> ThreadState
    requires { (t < 6) × (n ≤ 16) × (from ≤ n) }
    ensures local { local_of (thread_code code.now t n) result
        ≡ settle 0 registers (drop from (thread_code code.now t n)) }
    ensures within { (from ≤ result.at) × (result.at ≤ n) × (result.done ≡ done) }
{
    let mut rs = registers;
    let mut i = from;
    while i < n {
        let row = t * 16 + i;
        if is_access(code, row) {
            return ThreadState {
                registers: rs,
                at: i,
                done,
                failed: false,
            };
        }
        let Some(c) = carried_out(code, row, rs) else {
            return ThreadState {
                registers: rs,
                at: n,
                done,
                failed: true,
            };
        };
        rs = c.registers;
        i += wide(c.skip) + 1;
    }
    ThreadState {
        registers: rs,
        at: n,
        done,
        failed: false,
    }
}

// A thread carried to its next access, quick where an access or the end comes at once. The registers are taken one by one, so that none of
// the ways keeps them in memory: given on whole, as settle leaves them, a step takes a quarter longer.
pub fn settled(
    code: &Code,
    t: usize,
    n: usize,
    from: usize,
    registers: [u32; 4],
    done: u8,
) -> ThreadState
    requires { (t < 6) × (n ≤ 16) × (from ≤ n) }
    ensures local { local_of (thread_code code.now t n) result
        ≡ settle 0 registers (drop from (thread_code code.now t n)) }
    ensures within { (from ≤ result.at) × (result.at ≤ n) × (result.done ≡ done) }
{
    if from == n || is_access(code, t * 16 + from) {
        return ThreadState {
            registers,
            at: from,
            done,
            failed: false,
        };
    }
    let k = settle(code, t, n, from, registers, done);
    let rs = k.registers;
    ThreadState {
        registers: [rs[0], rs[1], rs[2], rs[3]],
        ..k
    }
}
