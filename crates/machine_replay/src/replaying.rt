// A schedule of any length carried out as far as it goes: whole, or refused by 20 at its first byte that may not step, or by 21 if it is
// not full.
ghost use Rattle.std.specs.Prelude.{◌≡◌, Err};
ghost use Rattle.spec_file.specs.Program.{Program, initial};
ghost use Rattle.machine.specs.Held.{Loaded};
ghost use Rattle.machine_replay.specs.Carried.{HoldsRun};

use file_decoder::Compiled;
use file_lines::wide;
use graph_writer::put_note;
use machine::{Machine, after_step, enabled, ended_all, last_behind, note_of, started};
use machine_local::with_at;
use spec_file::{Refusal, STEPS};

// Whether the schedule goes through whole or what refuses it, the machine behind the steps that were made, their notes, the steps
// themselves, and their number.
#[derive(Clone, Copy)]
pub struct Run {
    pub end: Result<(), Refusal>,
    pub machine: Machine,
    pub log: [u8; 192],
    pub schedule: [u8; STEPS],
    pub steps: usize,
}

// A schedule that is refused by this number at its byte `place`.
fn refused(number: u8, place: usize) -> Result<(), Refusal>
    ensures { result ≡ Err (record { number = number; place = place }) }
{
    Err(Refusal { number, place })
}

// A run that ends here.
fn ended_here(
    end: Result<(), Refusal>,
    machine: Machine,
    log: [u8; 192],
    schedule: [u8; STEPS],
    steps: usize,
) -> Run
    ensures { result ≡ record { end = end; machine = machine; log = log; schedule = schedule; steps = steps } }
{
    Run {
        end,
        machine,
        log,
        schedule,
        steps,
    }
}

// Carries out a schedule of the program. A step takes memory, its thread's registers and the schedule so far and gives them back whole.
pub fn replayed(program: &Compiled, schedule: &[u8]) -> Run
    requires { (p : Program) × Loaded program.now.code program.now.lengths program.now.threads p × (program.now.starting ≡ initial p) }
    ensures { (p : Program) → Loaded program.now.code program.now.lengths program.now.threads p → program.now.starting ≡ initial p
        → HoldsRun program.now.code program.now.lengths p schedule.now result }
{
    let mut m = started(program);
    let mut log = [0u8; 192];
    let mut made = [0u8; STEPS];
    for k in 0..schedule.len() {
        let t = schedule[k];
        if !enabled(&program.lengths, m, t) {
            return ended_here(refused(20, k), m, log, made, k);
        }
        let u = wide(t);
        let thread = m.threads[u];
        let number = thread.done;
        let a = after_step(program, thread, m.memory, t);
        m.threads[u] = a.thread;
        let memory = a.memory;
        m.memory = memory;
        let e = m.last[a.place];
        m.last[a.place] = last_behind(a.writes, t, number, e);
        let longer = with_at(made, k, t);
        made = longer;
        let note = note_of(t, number, e, a);
        put_note(&mut log, k, note);
    }
    let steps = schedule.len();
    if ended_all(&program.lengths, m) {
        return ended_here(Ok(()), m, log, made, steps);
    }
    ended_here(refused(21, steps), m, log, made, steps)
}
