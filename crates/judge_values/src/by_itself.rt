// A thread by itself: its next access on finding a given value, whatever memory holds.
ghost use Rattle.std.specs.Prelude.{◌≡◌, ◌<◌, ◌≤◌, get_or};
ghost use Rattle.spec_sc.specs.State.{State, place};
ghost use Rattle.machine.specs.Held.{thread_at, Holds};
ghost use Rattle.judge_values.specs.HeldRounds.{MetAlone};

use file_decoder::Compiled;
use file_lines::{choose, wide};
use machine::{Machine, lean_step};
use machine_access::ThreadState;

// The thread behind an access, where the access went, and what it left there: 0 where it wrote nothing, or there was no access.
#[derive(Clone, Copy)]
pub struct Lone {
    pub thread: ThreadState,
    pub place: u8,
    pub left: u32,
}

// Thread t's next access, which finds x, where the thread stands so.
pub(crate) fn met(program: &Compiled, thread: ThreadState, t: u8, x: u32) -> Lone
    requires { (t < 6) × (get_or program.now.lengths t 0 ≤ 16) × (thread.done ≤ thread.at) }
    ensures { (m : Machine) (σ : State) → thread_at m t ≡ thread → Holds program.now.code program.now.lengths m σ
        → place σ t < 8 → MetAlone program.now.code program.now.lengths σ t x result }
{
    if program.lengths[wide(t)] <= thread.at {
        return Lone {
            thread,
            place: 0,
            left: 0,
        };
    }
    let s = lean_step(program, thread, [x; 8], t);
    let l = wide(s.location) % 8;
    Lone {
        thread: s.thread,
        place: s.location,
        left: choose(s.wrote, s.memory[l], 0),
    }
}
