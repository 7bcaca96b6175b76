// Whether a next step has to stay behind the one just taken.
ghost use Rattle.std.specs.Prelude.{◌≡◌, true, not, ◌&&◌, ◌||◌, List, [], ◌∷◌, ℕ, ◌<◌, ◌≤◌, ◌-◌, eqb, get_or};
ghost use Rattle.spec_schedules.specs.Lists.{any};
ghost use Rattle.file_rows.specs.Rows.{instruction_at};
ghost use Rattle.machine_access.specs.CarriedOut.{access_of};
ghost use Rattle.machine.specs.Held.{thread_at};
ghost use Rattle.spec_sc.specs.Local.{first_takes};
ghost use Rattle.spec_schedules.specs.Sets.{has};
ghost use Rattle.theory_sc.specs.Sets.{set_of};
ghost use Rattle.spec_tso.specs.Queue.{Entry};
ghost use Rattle.spec_tso.specs.State.{State, byte_for, access, move, enabled};
ghost use Rattle.tso_machine.specs.Slots.{queue_at};
ghost use Rattle.tso_machine.specs.Held.{core_of, head_at, slot_at, queue_of, Holds};
ghost use Rattle.tso_machine.specs.declared.state.QueuedMachine.{QueuedMachine};
ghost use Rattle.theory_tso.specs.Deeds.{deed, waits};
ghost use Rattle.tso_order.specs.Freed.{Ends, stores_to};

use crate::sets::six;
use file_lines::wide;
use file_rows::Code;
use machine_access::{ThreadState, writes_at};
use search_place::{is_in, location_at};
use search_rules::is_reader;
use theory_tso::Deed;
use tso_machine::{Pending, locks_at};

// Whether a store to l is pending in the queue from `head` up to `tail`.
pub fn is_pending(slots: &[Pending; 16], head: u8, tail: u8, l: u8) -> bool
    requires { tail ≤ 16 }
    ensures { result ≡ stores_to l (queue_at slots.now head (tail - head)) }
{
    for k in wide(head)..wide(tail) {
        if slots[k].location == l {
            return true;
        }
    }
    false
}

// The threads with a pending store to l.
pub(crate) fn holders(slots: &[Pending; 16], heads: &[u8; 6], tails: &[u8; 6], l: u8) -> u8
    requires { Ends tails.now }
    ensures { result ≡ set_of (λ u. stores_to l (queue_at slots.now (get_or heads.now u 0)
        (get_or tails.now u 0 - get_or heads.now u 0))) 6 }
{
    six(|u| is_pending(slots, heads[wide(u)], tails[wide(u)], l))
}

// Whether the step put or looked at memory.
fn touches(e: Deed) -> bool
    ensures { result ≡ (e.puts || e.looks) }
{
    e.puts || e.looks
}

// Whether the step made the store number n of thread u.
fn makes(e: Deed, u: u8, n: u8) -> bool
    ensures { result ≡ (not e.moves && (eqb e.thread u && eqb e.number n)) }
{
    !e.moves && e.thread == u && e.number == n
}

// Whether thread u's move of the store s has to stay behind the step e.
pub(crate) fn move_waits(s: Pending, u: u8, e: Deed) -> bool
    requires { u < 6 }
    ensures { (code lengths : List ℕ) (m : QueuedMachine) (σ : State) → Holds code lengths m σ → slot_at m (head_at m u) ≡ s
        → enabled σ (byte_for move u) ≡ true → result ≡ waits e (deed σ (byte_for move u)) }
{
    makes(e, u, s.number) || e.location == s.location && touches(e)
}

// Whether the step moved a store of thread u, whose access is locked or not.
fn empties(e: Deed, u: u8, locks: bool) -> bool
    ensures { result ≡ (e.moves && (locks && eqb e.thread u)) }
{
    e.moves && locks && e.thread == u
}

// Whether the access in a row, locked or not, with these registers and this memory, writes memory.
fn puts_at(code: &Code, row: usize, registers: [u32; 4], memory: [u32; 8], locks: bool) -> bool
    requires { row < 96 }
    ensures { result ≡ (locks && (access_of (instruction_at code.now row) registers memory).writes) }
{
    locks && writes_at(code, row, registers, memory)
}

// Whether thread u's access in a row finds what the step put, as another thread's: it reads, and u is not among these threads, which have a
// store pending there.
fn finds_put(code: &Code, row: usize, holding: u8, u: u8, e: Deed) -> bool
    requires { row < 96 }
    ensures { result ≡ (e.puts && ((first_takes (instruction_at code.now row ∷ []) && not (has holding u)) && not (eqb e.thread u))) }
{
    e.puts && e.thread != u && is_reader(code, row) && !is_in(holding, u)
}

// Whether thread u's next access, where it stands so with this memory, has to stay behind the step e; these threads have a store pending to
// e's location.
pub(crate) fn access_waits(
    code: &Code,
    k: ThreadState,
    memory: &[u32; 8],
    holding: u8,
    u: u8,
    e: Deed,
) -> bool
    requires { (u < 6) × (k.at < 16) }
    ensures { (lengths : List ℕ) (m : QueuedMachine) (σ : State) → Holds code.now lengths m σ
        → thread_at (core_of m) u ≡ k → m.memory ≡ memory.now → has holding u ≡ stores_to e.location (queue_of m u)
        → enabled σ (byte_for access u) ≡ true → result ≡ waits e (deed σ (byte_for access u)) }
{
    let row = wide(u) * 16 + k.at;
    let locks = locks_at(code, row);
    if empties(e, u, locks) {
        return true;
    }
    if e.location != location_at(code, row) {
        return false;
    }
    if puts_at(code, row, k.registers, *memory, locks) {
        return touches(e);
    }
    finds_put(code, row, holding, u, e)
}
