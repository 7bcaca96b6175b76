// The state before the first step: each thread carried to its first access, memory at its starting values.
ghost use Rattle.std.specs.Prelude.{◌≡◌, ◌<◌, ◌≤◌, get_or};
ghost use Rattle.spec_file.specs.Program.{Program, initial};
ghost use Rattle.spec_sc.specs.State.{start};
ghost use Rattle.machine.specs.Held.{Loaded, HoldsAt, Holds};

use crate::state::{LastWrite, Machine};
use file_decoder::Compiled;
use machine_access::{ThreadState, settle};

// Thread t before its first step; one that does not exist stands at its end.
fn opened(program: &Compiled, t: usize) -> ThreadState
    requires { (t < 6) × (t < program.now.threads → get_or program.now.lengths t 0 ≤ 16) }
    ensures { (p : Program) → Loaded program.now.code program.now.lengths program.now.threads p
        → HoldsAt program.now.code program.now.lengths result (start p) t }
{
    let n = program.lengths[t];
    if t < program.threads {
        return settle(&program.code, t, n, 0, [0u32; 4], 0);
    }
    ThreadState {
        at: n,
        ..ThreadState::default()
    }
}

// The program's state before the first step.
pub fn started(program: &Compiled) -> Machine
    requires { (p : Program) × Loaded program.now.code program.now.lengths program.now.threads p }
    ensures { (result.memory ≡ program.now.starting) × ((p : Program) → Loaded program.now.code program.now.lengths program.now.threads p
        → program.now.starting ≡ initial p → Holds program.now.code program.now.lengths result (start p)) }
{
    let mut all = [ThreadState::default(); 6];
    for t in 0..6 {
        all[t] = opened(program, t);
    }
    Machine {
        threads: all,
        memory: program.starting,
        last: [LastWrite {
            thread: 255,
            number: 255,
        }; 8],
    }
}
