// Which of a set of threads need not wait for the step just taken.
ghost use Rattle.std.specs.Prelude.{◌≡◌, true, not, ◌&&◌, List, ℕ, ◌<◌, get_or};
ghost use Rattle.machine.specs.Held.{idle, thread_at};
ghost use Rattle.spec_schedules.specs.Sets.{has};
ghost use Rattle.theory_sc.specs.Sets.{set_of};
ghost use Rattle.spec_tso.specs.State.{State, byte_for, access, move, enabled};
ghost use Rattle.tso_machine.specs.Held.{core_of, head_at, slot_at, queue_of, Holds};
ghost use Rattle.tso_machine.specs.declared.state.QueuedMachine.{QueuedMachine};
ghost use Rattle.theory_tso.specs.Deeds.{deed, waits};
ghost use Rattle.tso_order.specs.Freed.{Ends, AccessGoesOn, MoveGoesOn, HoldsSets};

use crate::sets::{Sets, six};
use crate::waiting::{access_waits, holders, move_waits};
use file_lines::wide;
use file_rows::Code;
use machine_access::ThreadState;
use search_place::is_in;
use theory_tso::Deed;
use tso_machine::Pending;

// Whether thread u is in the set and its access need not wait.
fn access_goes_on(
    code: &Code,
    threads: &[ThreadState; 6],
    memory: &[u32; 8],
    holding: u8,
    set: u8,
    e: Deed,
    u: u8,
) -> bool
    requires { (u < 6) × (has set u ≡ true → (get_or threads.now u idle).at < 16) }
    ensures { AccessGoesOn code.now threads.now memory.now holding set e u result }
{
    is_in(set, u) && !access_waits(code, threads[wide(u)], memory, holding, u, e)
}

// Of a set of threads those whose access need not wait. Where the set is empty, no queue is looked at.
fn free_accesses(
    code: &Code,
    threads: &[ThreadState; 6],
    memory: &[u32; 8],
    slots: &[Pending; 16],
    heads: &[u8; 6],
    tails: &[u8; 6],
    set: u8,
    e: Deed,
) -> u8
    requires { ((u : ℕ) → u < 6 → has set u ≡ true → (get_or threads.now u idle).at < 16) × Ends tails.now }
    ensures { (lengths : List ℕ) (m : QueuedMachine) (σ : State) → Holds code.now lengths m σ
        → m.threads ≡ threads.now → m.memory ≡ memory.now → m.slots ≡ slots.now → m.heads ≡ heads.now → m.tails ≡ tails.now
        → ((u : ℕ) → u < 6 → has set u ≡ true → enabled σ (byte_for access u) ≡ true)
        → result ≡ set_of (λ u. has set u && not (waits e (deed σ (byte_for access u)))) 6 }
{
    if set == 0 {
        return 0;
    }
    let holding = holders(slots, heads, tails, e.location);
    six(|u| access_goes_on(code, threads, memory, holding, set, e, u))
}

// Whether thread u is in the set and the move of its oldest pending store need not wait.
fn move_goes_on(slots: &[Pending; 16], heads: &[u8; 6], set: u8, e: Deed, u: u8) -> bool
    requires { u < 6 }
    ensures { MoveGoesOn slots.now heads.now set e u result }
{
    is_in(set, u) && !move_waits(slots[wide(heads[wide(u)]) % 16], u, e)
}

// Of a set of threads those whose move need not wait. Where the set is empty, no slot is looked at.
fn free_moves(slots: &[Pending; 16], heads: &[u8; 6], set: u8, e: Deed) -> u8
    ensures { (code lengths : List ℕ) (m : QueuedMachine) (σ : State) → Holds code lengths m σ → m.slots ≡ slots.now
        → m.heads ≡ heads.now → ((u : ℕ) → u < 6 → has set u ≡ true → enabled σ (byte_for move u) ≡ true)
        → result ≡ set_of (λ u. has set u && not (waits e (deed σ (byte_for move u)))) 6 }
{
    if set == 0 {
        return 0;
    }
    six(|u| move_goes_on(slots, heads, set, e, u))
}

// The sets behind a step that did e, of those that may step and those that could be late or far, where the machine's arrays are these.
pub fn freed(
    code: &Code,
    threads: &[ThreadState; 6],
    memory: &[u32; 8],
    slots: &[Pending; 16],
    heads: &[u8; 6],
    tails: &[u8; 6],
    s: Sets,
    e: Deed,
) -> Sets
    requires { ((u : ℕ) → u < 6 → has s.late u ≡ true → (get_or threads.now u idle).at < 16) × Ends tails.now }
    ensures { (lengths : List ℕ) (m : QueuedMachine) (σ : State) → Holds code.now lengths m σ
        → m.threads ≡ threads.now → m.memory ≡ memory.now → m.slots ≡ slots.now → m.heads ≡ heads.now → m.tails ≡ tails.now
        → ((u : ℕ) → u < 6 → has s.late u ≡ true → enabled σ (byte_for access u) ≡ true)
        → ((u : ℕ) → u < 6 → has s.overdue u ≡ true → enabled σ (byte_for move u) ≡ true)
        → ((u : ℕ) → u < 6 → has s.far u ≡ true → enabled σ (byte_for move u) ≡ true)
        → HoldsSets σ e s result }
{
    Sets {
        late: free_accesses(code, threads, memory, slots, heads, tails, s.late, e),
        overdue: free_moves(slots, heads, s.overdue, e),
        far: free_moves(slots, heads, s.far, e),
        ..s
    }
}
