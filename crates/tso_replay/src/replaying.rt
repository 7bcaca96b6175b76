// A schedule of any length carried out as far as it goes: whole, or refused by 20 at its first byte that may not step, or by 21 if it is
// not full.
ghost use Rattle.std.specs.Prelude.{◌≡◌, ◌≤◌};
ghost use Rattle.spec_file.specs.Program.{Program, initial};
ghost use Rattle.spec_file.specs.WellFormed.{all_accesses};
ghost use Rattle.machine.specs.Held.{Loaded};
ghost use Rattle.tso_replay.specs.Carried.{HoldsRun};

use crate::noting::note_step;
use file_decoder::Compiled;
use spec_file::Refusal;
use tso_machine::{QueuedMachine, enabled, ended_all, started, step};

// Whether the schedule goes through whole or what refuses it, the machine behind the steps that were made, the notes of these and their
// number, the steps themselves, and how many.
#[derive(Clone, Copy)]
pub struct Run {
    pub end: Result<(), Refusal>,
    pub machine: QueuedMachine,
    pub log: [u8; 192],
    pub notes: usize,
    pub schedule: [u8; 32],
    pub steps: usize,
}

// Carries out a schedule of a program, which has at most sixteen accesses.
pub fn replayed(program: &Compiled, schedule: &[u8]) -> Run
    requires { (p : Program) × Loaded program.now.code program.now.lengths program.now.threads p × (program.now.starting ≡ initial p)
        × (all_accesses p.threads ≤ 16) }
    ensures { (p : Program) → Loaded program.now.code program.now.lengths program.now.threads p → program.now.starting ≡ initial p
        → all_accesses p.threads ≤ 16 → HoldsRun program.now.code program.now.lengths p schedule.now result }
{
    let mut run = Run {
        end: Ok(()),
        machine: started(program),
        log: [0u8; 192],
        notes: 0,
        schedule: [0u8; 32],
        steps: 0,
    };
    for &b in schedule {
        if !enabled(program, run.machine, b) {
            run.end = Err(Refusal {
                number: 20,
                place: run.steps,
            });
            return run;
        }
        let r = step(program, run.machine, b);
        run.machine = r.machine;
        run.schedule[run.steps] = b;
        run.notes = note_step(&mut run.log, run.notes, b, r.act);
        run.steps += 1;
    }
    if !ended_all(&program.lengths, run.machine) {
        run.end = Err(Refusal {
            number: 21,
            place: run.steps,
        });
    }
    run
}
