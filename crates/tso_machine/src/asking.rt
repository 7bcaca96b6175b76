// What may be asked of a machine: whether a byte may step, whether none may, whether something is pending, whether an assertion failed.
ghost use Rattle.std.specs.Prelude.{◌≡◌, ◌<◌, ◌≤◌, ltb, length, get_or, List, ℕ};
ghost use Rattle.spec_schedules.specs.System.{ended};
ghost use Rattle.spec_tso.specs.State.{State, TSO, able, access, thread_of, enabled};
ghost use Rattle.machine.specs.Held.{thread_at};
ghost use Rattle.tso_machine.specs.Held.{core_of, head_at, tail_at, Holds};

use crate::rows_of::locks_at;
use crate::state::QueuedMachine;
use file_decoder::Compiled;
use file_lines::wide;

// Whether thread u, one of the six, has a pending store.
pub(crate) fn pends(m: QueuedMachine, u: usize) -> bool
    requires { u < 6 }
    ensures { result ≡ ltb (head_at m u) (tail_at m u) }
{
    m.heads[u] < m.tails[u]
}

// Whether thread t, which stands at this row of its code with this queue, may do its next access.
pub fn may_access(program: &Compiled, at: usize, head: u8, tail: u8, t: u8) -> bool
    requires { (t < 6) × (at < get_or program.now.lengths t 0 → get_or program.now.lengths t 0 ≤ 16) }
    ensures { (m : QueuedMachine) (σ : State) → Holds program.now.code program.now.lengths m σ
        → (thread_at (core_of m) t).at ≡ at → head_at m t ≡ head → tail_at m t ≡ tail
        → result ≡ able access (thread_of σ t) (length σ.cells) }
{
    let u = wide(t);
    at < program.lengths[u] && (tail <= head || !locks_at(&program.code, u * 16 + at))
}

// Whether the byte b may step: an access by a byte below 6, a move by one from 16 to 21.
pub fn enabled(program: &Compiled, m: QueuedMachine, b: u8) -> bool
    requires { (σ : State) × Holds program.now.code program.now.lengths m σ }
    ensures { (σ : State) → Holds program.now.code program.now.lengths m σ → result ≡ enabled σ b }
{
    match b {
        0..=5 => {
            let u = wide(b);
            may_access(program, m.threads[u].at, m.heads[u], m.tails[u], b)
        }
        16..=21 => pends(m, wide(b) - 16),
        _ => false,
    }
}

// Whether no byte may step any more: all threads have ended and nothing is pending.
pub fn ended_all(lengths: &[usize; 6], m: QueuedMachine) -> bool
    ensures { (code : List ℕ) (σ : State) → Holds code lengths.now m σ → result ≡ ended TSO σ }
{
    for t in 0..6 {
        if m.threads[t].at < lengths[t] || pends(m, t) {
            return false;
        }
    }
    true
}
