// A step: a thread's next access, then its instructions up to the next one.
ghost use Rattle.std.specs.Prelude.{◌≡◌, true, cond, ◌<◌, set};
ghost use Rattle.spec_sc.specs.State.{State, place, enabled};
ghost use Rattle.machine.specs.Held.{thread_at, Holds, ReadyThread, Ready, HoldsStep, HoldsMoved, note_after, whole};

use crate::state::{LastWrite, Machine};
use file_decoder::Compiled;
use file_lines::{choose, wide};
use machine_access::{ThreadState, accessed_at, settled};
use machine_local::with_at;

// What a step gives back: its thread and memory whole; its location, by its number and as its place, and whether it reads and writes. The
// last writes are its caller's: one of them is read and stored where they lie.
#[derive(Clone, Copy)]
pub struct After {
    pub thread: ThreadState,
    pub memory: [u32; 8],
    pub place: usize,
    pub location: u8,
    pub reads: bool,
    pub writes: bool,
}

// What a step gives back to one who keeps no last writes: its thread with the registers, and memory, whole; its location, and whether it
// wrote.
#[derive(Clone, Copy)]
pub struct Moved {
    pub thread: ThreadState,
    pub memory: [u32; 8],
    pub location: u8,
    pub wrote: bool,
}

// The machine behind a step, and the step's note.
#[derive(Clone, Copy)]
pub struct Stepped {
    pub machine: Machine,
    pub note: [u8; 8],
}

// The last write of a place behind thread t's access `number`, which wrote or did not, where e was.
pub fn last_behind(writes: bool, t: u8, number: u8, e: LastWrite) -> LastWrite
    ensures { result ≡ cond writes (record { thread = t; number = number }) e }
{
    choose(writes, LastWrite { thread: t, number }, e)
}

// The note of thread t's access `number`, whose location's last write was e.
pub fn note_of(t: u8, number: u8, e: LastWrite, a: After) -> [u8; 8]
    ensures { result ≡ note_after t number e a }
{
    [
        t,
        number,
        a.location,
        u8::from(a.reads),
        e.thread,
        e.number,
        u8::from(a.writes),
        0,
    ]
}

// A step of thread t where the thread stands so: its registers and memory are taken by value and given back whole.
pub fn after_step(program: &Compiled, thread: ThreadState, memory: [u32; 8], t: u8) -> After
    requires { ReadyThread program.now.lengths thread t }
    ensures within { result.place < 8 }
    ensures step { (m : Machine) (σ : State) → thread_at m t ≡ thread → m.memory ≡ memory
        → Holds program.now.code program.now.lengths m σ → enabled σ t ≡ true → place σ t < 8
        → HoldsStep program.now.code program.now.lengths σ t (whole m t t result) }
{
    let u = wide(t);
    let at = thread.at;
    let a = accessed_at(&program.code, u * 16 + at, thread.registers, memory);
    let k = settled(
        &program.code,
        u,
        program.lengths[u],
        at + 1,
        a.registers,
        thread.done + 1,
    );
    let l = wide(a.location) % 8;
    let values = with_at(memory, l, choose(a.writes, a.value, memory[l]));
    // Field by field, so that the thread is not moved through memory: a step that moves it whole takes three hundredths longer.
    let rs = k.registers;
    After {
        thread: ThreadState {
            registers: rs,
            at: k.at,
            done: k.done,
            failed: k.failed,
        },
        memory: values,
        place: l,
        location: a.location,
        reads: a.reads,
        writes: a.writes,
    }
}

// A step of thread t for a caller that keeps no last writes and no note.
pub fn lean_step(program: &Compiled, thread: ThreadState, memory: [u32; 8], t: u8) -> Moved
    requires { ReadyThread program.now.lengths thread t }
    ensures { (m : Machine) (σ : State) → thread_at m t ≡ thread → m.memory ≡ memory
        → Holds program.now.code program.now.lengths m σ → enabled σ t ≡ true → place σ t < 8
        → HoldsMoved program.now.code program.now.lengths m σ t result }
{
    let a = after_step(program, thread, memory, t);
    let memory = a.memory;
    Moved {
        thread: a.thread,
        memory,
        location: a.location,
        wrote: a.writes,
    }
}

// A step of thread t, which has not ended.
pub fn step(program: &Compiled, m: Machine, t: u8) -> Stepped
    requires { Ready program.now.lengths m t }
    ensures { (σ : State) → Holds program.now.code program.now.lengths m σ → enabled σ t ≡ true → place σ t < 8
        → HoldsStep program.now.code program.now.lengths σ t result }
{
    let mut n = m;
    let u = wide(t);
    let thread = n.threads[u];
    let number = thread.done;
    let a = after_step(program, thread, n.memory, t);
    n.threads[u] = a.thread;
    let memory = a.memory;
    n.memory = memory;
    let e = n.last[a.place];
    n.last[a.place] = last_behind(a.writes, t, number, e);
    Stepped {
        machine: n,
        note: note_of(t, number, e, a),
    }
}
