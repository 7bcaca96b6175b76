// A step: a thread's next access, or the move of its oldest pending store to memory.
ghost use Rattle.std.specs.Prelude.{◌≡◌, true, cond, not, ◌&&◌, List, ℕ, ◌+◌, ◌<◌, ◌≤◌};
ghost use Rattle.machine.specs.Held.{ReadyThread};
ghost use Rattle.spec_tso.specs.State.{State, place, kind_of, owner, byte_for, access, move, enabled};
ghost use Rattle.tso_machine.specs.Held.{Holds, MayStep, parts_of};
ghost use Rattle.tso_machine.specs.Steps.{HoldsStep, behind};

use crate::meeting::meet;
use crate::state::{Pending, QueuedMachine};
use file_decoder::Compiled;
use file_lines::{choose, wide};
use machine::LastWrite;
use machine_access::ThreadState;

// What a step did: its event's number, its location, whether it reads, whether it is locked, whether it writes memory, and for an access what
// it finds: the write that the value comes from, and whether that is a pending store of its own.
#[derive(Clone, Copy)]
pub struct Act {
    pub source: LastWrite,
    pub number: u8,
    pub location: u8,
    pub reads: bool,
    pub locks: bool,
    pub puts: bool,
    pub own: bool,
}

// What a step stores, each where something stands already: its thread, the value and the last write of a location, a slot, and where the
// thread's queue begins and ends; and what it did.
#[derive(Clone, Copy)]
pub struct Change {
    pub thread: ThreadState,
    pub value: u32,
    pub last: LastWrite,
    pub place: usize,
    pub slot: Pending,
    pub at: usize,
    pub head: u8,
    pub tail: u8,
    pub act: Act,
}

// The machine behind a step, and what the step did.
#[derive(Clone, Copy)]
pub struct Stepped {
    pub machine: QueuedMachine,
    pub act: Act,
}

// Thread t's next access, where it may step: a locked one writes memory, a store waits at the queue's tail.
fn accessed(
    program: &Compiled,
    thread: ThreadState,
    memory: [u32; 8],
    last: [LastWrite; 8],
    slots: [Pending; 16],
    head: u8,
    tail: u8,
    t: u8,
) -> Change
    requires { ReadyThread program.now.lengths thread t × (tail ≤ 16) }
    ensures within { (result.place < 8) × (result.at < 16) }
    ensures step { (m : QueuedMachine) (σ : State) → Holds program.now.code program.now.lengths m σ
        → parts_of m t ≡ record { thread = thread; memory = memory; last = last; slots = slots; head = head; tail = tail }
        → enabled σ t ≡ true → place σ access t < 8 → HoldsStep program.now.code program.now.lengths σ t (behind m t result) }
{
    let number = thread.done;
    let a = meet(program, thread, memory, last, slots, head, tail, t);
    let l = wide(a.location) % 8;
    let j = wide(tail) % 16;
    let puts = a.writes && a.locks;
    let waits = a.writes && !a.locks;
    let put = LastWrite { thread: t, number };
    let store = Pending {
        value: a.value,
        number,
        location: a.location,
    };
    Change {
        thread: a.thread,
        value: choose(puts, a.value, memory[l]),
        last: choose(puts, put, last[l]),
        place: l,
        slot: choose(waits, store, slots[j]),
        at: j,
        head,
        tail: choose(waits, tail + 1, tail),
        act: Act {
            source: a.source,
            number,
            location: a.location,
            reads: a.reads,
            locks: a.locks,
            puts,
            own: a.own,
        },
    }
}

// The oldest pending store of thread t, which stands so, goes to memory.
fn moved(thread: ThreadState, slots: [Pending; 16], head: u8, tail: u8, t: u8) -> Change
    requires { head ≤ 16 }
    ensures within { (result.place < 8) × (result.at < 16) }
    ensures step { (code lengths memory : List ℕ) (last : List LastWrite) (m : QueuedMachine) (σ : State) → Holds code lengths m σ
        → parts_of m t ≡ record { thread = thread; memory = memory; last = last; slots = slots; head = head; tail = tail }
        → enabled σ (byte_for move t) ≡ true → HoldsStep code lengths σ (byte_for move t) (behind m t result) }
{
    let j = wide(head) % 16;
    let e = slots[j];
    Change {
        thread,
        value: e.value,
        last: LastWrite {
            thread: t,
            number: e.number,
        },
        place: wide(e.location) % 8,
        slot: e,
        at: j,
        head: head + 1,
        tail,
        act: Act {
            source: LastWrite {
                thread: 255,
                number: 255,
            },
            number: e.number,
            location: e.location,
            reads: false,
            locks: false,
            puts: true,
            own: false,
        },
    }
}

// What the step b, which may be made, changes, where its thread, memory, the last writes, the slots and the thread's queue are these.
pub fn lean_step(
    program: &Compiled,
    thread: ThreadState,
    memory: [u32; 8],
    last: [LastWrite; 8],
    slots: [Pending; 16],
    head: u8,
    tail: u8,
    b: u8,
) -> Change
    requires { (b < 16 → ReadyThread program.now.lengths thread b) × (head ≤ 16) × (tail ≤ 16) }
    ensures within { (result.place < 8) × (result.at < 16) }
    ensures step { (m : QueuedMachine) (σ : State) (u : ℕ) → u ≡ owner b → Holds program.now.code program.now.lengths m σ
        → parts_of m u ≡ record { thread = thread; memory = memory; last = last; slots = slots; head = head; tail = tail }
        → enabled σ b ≡ true → place σ (kind_of b) (owner b) < 8
        → HoldsStep program.now.code program.now.lengths σ b (behind m u result) }
{
    if b < 16 {
        accessed(program, thread, memory, last, slots, head, tail, b)
    } else {
        moved(thread, slots, head, tail, b - 16)
    }
}

// The thread of a byte.
pub fn thread_of(b: u8) -> u8
    ensures { result ≡ owner b }
{
    if b < 16 { b } else { b - 16 }
}

// The step b, which may be made.
pub fn step(program: &Compiled, m: QueuedMachine, b: u8) -> Stepped
    requires { MayStep program.now.code program.now.lengths m b }
    ensures { (σ : State) → Holds program.now.code program.now.lengths m σ → enabled σ b ≡ true
        → place σ (kind_of b) (owner b) < 8 → HoldsStep program.now.code program.now.lengths σ b result }
{
    let mut n = m;
    let u = wide(thread_of(b));
    let c = lean_step(
        program,
        n.threads[u],
        n.memory,
        n.last,
        n.slots,
        n.heads[u],
        n.tails[u],
        b,
    );
    n.threads[u] = c.thread;
    n.memory[c.place] = c.value;
    n.last[c.place] = c.last;
    n.slots[c.at] = c.slot;
    n.heads[u] = c.head;
    n.tails[u] = c.tail;
    Stepped {
        machine: n,
        act: c.act,
    }
}
