// R3: late steps that nothing left to the other threads could make wait.
ghost use Rattle.std.specs.Prelude.{◌≡◌, true, not, ◌&&◌, ◌||◌, List, ℕ, ◌+◌, ◌<◌, eqb, get_or};
ghost use Rattle.std.proofs.Math.Option.{some};
ghost use Rattle.spec_file.specs.Program.{Program};
ghost use Rattle.spec_schedules.specs.Lists.{range, any, all};
ghost use Rattle.spec_schedules.specs.Order.{Schedule};
ghost use Rattle.spec_schedules.specs.Sets.{has};
ghost use Rattle.theory_sc.specs.Sets.{set_of};
ghost use Rattle.search_rules.specs.Left.{Left, ShortAt};
ghost use Rattle.spec_tso.specs.State.{State, TSO, byte_for, access, move, thread_of};
ghost use Rattle.spec_tso.specs.Graph.{end_of};
ghost use Rattle.theory_tso.specs.Rules.{wakes, unwoken, asleep};
ghost use Rattle.tso_order.specs.Freed.{Ends};
ghost use Rattle.tso_place.specs.Reached.{Reached};
ghost use Rattle.tso_rules.specs.Shown.{Shown, ReadyAt};

use file_decoder::Compiled;
use file_lines::wide;
use search_place::{is_in, location_at};
use search_rules::{is_reader, meets};
use tso_machine::{Pending, locks_at};
use tso_order::{Sets, is_pending};
use tso_place::Place;

// A late step: its thread, its location, and whether one that only looks at memory could make it wait too, as one that could put.
#[derive(Clone, Copy)]
pub struct Awaited {
    pub thread: u8,
    pub location: u8,
    pub writer: bool,
}

// Whether u is another thread and something left to it, in its queue or in its code, could make the step a wait.
fn wakes(
    left: &[u8; 192],
    lengths: &[usize; 6],
    at: &[usize; 6],
    slots: &[Pending; 16],
    heads: &[u8; 6],
    tails: &[u8; 6],
    a: Awaited,
    u: u8,
) -> bool
    requires { (u < 6) × ShortAt lengths.now at.now × Ends tails.now }
    ensures { (code : List ℕ) (σ : State) → Left code lengths.now left.now
        → Shown code lengths.now at.now slots.now heads.now tails.now σ → a.location < 8
        → result ≡ (not (eqb u a.thread) && wakes (some a.writer) a.location (thread_of σ u)) }
{
    let i = wide(u);
    u != a.thread
        && (is_pending(slots, heads[i], tails[i], a.location)
            || meets(left, lengths, at, i, a.location, a.writer))
}

// Whether some other thread could.
fn is_woken(
    left: &[u8; 192],
    lengths: &[usize; 6],
    at: &[usize; 6],
    slots: &[Pending; 16],
    heads: &[u8; 6],
    tails: &[u8; 6],
    a: Awaited,
) -> bool
    requires { ShortAt lengths.now at.now × Ends tails.now }
    ensures { (code : List ℕ) (σ : State) → Left code lengths.now left.now
        → Shown code lengths.now at.now slots.now heads.now tails.now σ → a.location < 8
        → result ≡ any (λ u. not (eqb u a.thread) && wakes (some a.writer) a.location (thread_of σ u)) (range 0 6) }
{
    for u in 0u8..6 {
        if wakes(left, lengths, at, slots, heads, tails, a, u) {
            return true;
        }
    }
    false
}

// Whether thread t's next access may be done, is late, and nothing left to the others could make it wait. A store waits for nothing.
fn is_access_asleep(
    program: &Compiled,
    left: &[u8; 192],
    at: &[usize; 6],
    slots: &[Pending; 16],
    heads: &[u8; 6],
    tails: &[u8; 6],
    late: u8,
    t: u8,
) -> bool
    requires { (t < 6) × (has late t ≡ true → get_or at.now t 0 < 16) × ShortAt program.now.lengths at.now × Ends tails.now }
    ensures { (σ : State) → Left program.now.code program.now.lengths left.now
        → Shown program.now.code program.now.lengths at.now slots.now heads.now tails.now σ
        → (has late t ≡ true → ReadyAt σ access t) → result ≡ (has late t && unwoken σ (byte_for access t)) }
{
    if !is_in(late, t) {
        return false;
    }
    let row = wide(t) * 16 + at[wide(t)];
    if !is_reader(&program.code, row) {
        return true;
    }
    let a = Awaited {
        thread: t,
        location: location_at(&program.code, row),
        writer: locks_at(&program.code, row),
    };
    !is_woken(left, &program.lengths, at, slots, heads, tails, a)
}

// Whether thread t may move, its move is late, and nothing left to the others could make it wait.
fn is_move_asleep(
    left: &[u8; 192],
    lengths: &[usize; 6],
    at: &[usize; 6],
    slots: &[Pending; 16],
    heads: &[u8; 6],
    tails: &[u8; 6],
    overdue: u8,
    t: u8,
) -> bool
    requires { (t < 6) × ShortAt lengths.now at.now × Ends tails.now }
    ensures { (code : List ℕ) (σ : State) → Left code lengths.now left.now
        → Shown code lengths.now at.now slots.now heads.now tails.now σ
        → (has overdue t ≡ true → ReadyAt σ move t) → result ≡ (has overdue t && unwoken σ (byte_for move t)) }
{
    if !is_in(overdue, t) {
        return false;
    }
    let e = slots[wide(heads[wide(t)]) % 16];
    let a = Awaited {
        thread: t,
        location: e.location,
        writer: true,
    };
    !is_woken(left, lengths, at, slots, heads, tails, a)
}

// Whether some access is asleep for good.
fn is_some_access(
    program: &Compiled,
    left: &[u8; 192],
    at: &[usize; 6],
    slots: &[Pending; 16],
    heads: &[u8; 6],
    tails: &[u8; 6],
    late: u8,
) -> bool
    requires { ((t : ℕ) → t < 6 → has late t ≡ true → get_or at.now t 0 < 16) × ShortAt program.now.lengths at.now × Ends tails.now }
    ensures { (σ : State) → Left program.now.code program.now.lengths left.now
        → Shown program.now.code program.now.lengths at.now slots.now heads.now tails.now σ
        → ((t : ℕ) → t < 6 → has late t ≡ true → ReadyAt σ access t)
        → result ≡ any (λ t. has late t && unwoken σ (byte_for access t)) (range 0 6) }
{
    for t in 0u8..6 {
        if is_access_asleep(program, left, at, slots, heads, tails, late, t) {
            return true;
        }
    }
    false
}

// Whether some move is.
fn is_some_move(
    left: &[u8; 192],
    lengths: &[usize; 6],
    at: &[usize; 6],
    slots: &[Pending; 16],
    heads: &[u8; 6],
    tails: &[u8; 6],
    overdue: u8,
) -> bool
    requires { ShortAt lengths.now at.now × Ends tails.now }
    ensures { (code : List ℕ) (σ : State) → Left code lengths.now left.now
        → Shown code lengths.now at.now slots.now heads.now tails.now σ
        → ((t : ℕ) → t < 6 → has overdue t ≡ true → ReadyAt σ move t)
        → result ≡ any (λ t. has overdue t && unwoken σ (byte_for move t)) (range 0 6) }
{
    for t in 0u8..6 {
        if is_move_asleep(left, lengths, at, slots, heads, tails, overdue, t) {
            return true;
        }
    }
    false
}

// Whether no step is late.
fn is_none_late(s: Sets) -> bool
    ensures { result ≡ true → (s.late ≡ 0) × (s.overdue ≡ 0) }
{
    s.late == 0 && s.overdue == 0
}

// Whether some byte that may step is asleep for good.
pub fn some_asleep(program: &Compiled, left: &[u8; 192], x: &Place) -> bool
    requires { ((class : List ℕ) × (threads : ℕ) × (groups : ℕ) × (p : Program) × (v : Schedule)
        × Reached program.now.code program.now.lengths class threads groups x.now p v) × Left program.now.code program.now.lengths left.now }
    ensures { (class : List ℕ) (threads groups : ℕ) (p : Program) (v : Schedule)
        → Reached program.now.code program.now.lengths class threads groups x.now p v
        → result ≡ any (asleep p v (end_of p v)) TSO.names }
{
    let s = x.sets;
    if is_none_late(s) {
        return false;
    }
    let at = [
        x.threads[0].at,
        x.threads[1].at,
        x.threads[2].at,
        x.threads[3].at,
        x.threads[4].at,
        x.threads[5].at,
    ];
    is_some_access(program, left, &at, &x.slots, &x.heads, &x.tails, s.late)
        || is_some_move(
            left,
            &program.lengths,
            &at,
            &x.slots,
            &x.heads,
            &x.tails,
            s.overdue,
        )
}
