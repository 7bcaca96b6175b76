// A thread's next access by itself: what it finds and does, and the thread behind it.
ghost use Rattle.std.specs.Prelude.{◌≡◌, true, ◌<◌, ◌≤◌};
ghost use Rattle.machine.specs.Held.{ReadyThread};
ghost use Rattle.spec_tso.specs.State.{State, place, access, enabled};
ghost use Rattle.tso_machine.specs.Held.{Holds, parts_of};
ghost use Rattle.tso_machine.specs.declared.state.QueuedMachine.{QueuedMachine};
ghost use Rattle.tso_machine.specs.Steps.{HoldsMet};

use crate::looking::look;
use crate::rows_of::{location_at, locks_at};
use crate::state::Pending;
use file_decoder::Compiled;
use file_lines::wide;
use machine::{LastWrite, after_step};
use machine_access::ThreadState;

// The thread behind the access; its location, whether it reads, whether it is locked, whether it writes and what; the write that it finds,
// and whether that is a pending store of its own.
#[derive(Clone, Copy)]
pub struct Met {
    pub thread: ThreadState,
    pub source: LastWrite,
    pub value: u32,
    pub location: u8,
    pub reads: bool,
    pub locks: bool,
    pub writes: bool,
    pub own: bool,
}

// The next access of thread t, which stands so with this memory, these last writes and this queue, where it may step. Memory is shown to
// it with what it finds at the access's location.
pub(crate) fn meet(
    program: &Compiled,
    thread: ThreadState,
    memory: [u32; 8],
    last: [LastWrite; 8],
    slots: [Pending; 16],
    head: u8,
    tail: u8,
    t: u8,
) -> Met
    requires { ReadyThread program.now.lengths thread t × (tail ≤ 16) }
    ensures { (m : QueuedMachine) (σ : State) → Holds program.now.code program.now.lengths m σ
        → parts_of m t ≡ record { thread = thread; memory = memory; last = last; slots = slots; head = head; tail = tail }
        → enabled σ t ≡ true → place σ access t < 8 → HoldsMet program.now.code program.now.lengths σ t result }
{
    let u = wide(t);
    let row = u * 16 + thread.at;
    let p = location_at(&program.code, row);
    let l = wide(p) % 8;
    let f = look(slots, head, tail, memory[l], last[l], t, p);
    let mut seen = memory;
    seen[l] = f.value;
    let a = after_step(program, thread, seen, t);
    Met {
        thread: a.thread,
        source: f.source,
        value: a.memory[l],
        location: p,
        reads: a.reads,
        locks: locks_at(&program.code, row),
        writes: a.writes,
        own: f.own,
    }
}
