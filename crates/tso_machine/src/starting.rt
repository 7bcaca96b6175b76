// The state before the first step: that of sequential consistency, with nothing pending.
ghost use Rattle.std.specs.Prelude.{◌≡◌, ◌≤◌, cond, ltb};
ghost use Rattle.spec_file.specs.Program.{Program, initial};
ghost use Rattle.spec_file.specs.WellFormed.{all_accesses};
ghost use Rattle.machine.specs.Held.{Loaded};
ghost use Rattle.spec_tso.specs.State.{start};
ghost use Rattle.tso_machine.specs.Held.{Holds};
ghost use Rattle.tso_machine.specs.Counted.{HoldsFirst};

use crate::state::{Pending, QueuedMachine};
use file_decoder::Compiled;
use machine::Machine;
use machine_access::accesses_below;

// Where each thread's own slots begin: behind those of the threads before it.
fn first_slots(program: &Compiled) -> [u8; 6]
    requires { (p : Program) × Loaded program.now.code program.now.lengths program.now.threads p }
    ensures { HoldsFirst program.now.code program.now.lengths program.now.threads result }
{
    let mut first = [0u8; 6];
    for t in 0..6 {
        first[t] = accesses_below(&program.code, &program.lengths, program.threads.min(t)) as u8;
    }
    first
}

// The state before the first step of a program, which has at most sixteen accesses.
pub fn started(program: &Compiled) -> QueuedMachine
    requires { (p : Program) × Loaded program.now.code program.now.lengths program.now.threads p }
    ensures { (p : Program) → Loaded program.now.code program.now.lengths program.now.threads p → program.now.starting ≡ initial p
        → all_accesses p.threads ≤ 16 → Holds program.now.code program.now.lengths result (start p) }
{
    let first = first_slots(program);
    let Machine {
        threads,
        memory,
        last,
    } = machine::started(program);
    QueuedMachine {
        threads,
        memory,
        last,
        heads: first,
        tails: first,
        slots: [Pending {
            value: 0,
            number: 0,
            location: 0,
        }; 16],
    }
}
