// R3: late threads that nothing left to the others can wake.
ghost use Rattle.std.specs.Prelude.{◌≡◌, not, ◌||◌, List, ℕ, ◌<◌, eqb};
ghost use Rattle.spec_file.specs.Program.{Program};
ghost use Rattle.spec_schedules.specs.Order.{Schedule};
ghost use Rattle.spec_sc.specs.State.{State, thread_of, place};
ghost use Rattle.spec_sc.specs.Graph.{end_of};
ghost use Rattle.theory_search.specs.Ahead.{may_write};
ghost use Rattle.theory_sc.specs.LateSet.{late_set};
ghost use Rattle.spec_schedules.specs.Sets.{has};
ghost use Rattle.theory_sc.specs.Sleepers.{sleeps_in, unwoken, sleepers};
ghost use Rattle.search_place.specs.Reached.{Reached};
ghost use Rattle.search_rules.specs.Left.{Left, ShortAt, Rests, meets_at};

use file_decoder::Compiled;
use file_lines::{choose, wide};
use machine_access::ThreadState;
use search_place::{Place, is_in, is_writer, location_at, power};

// The access that a thread stands at: its location, and whether it could write.
#[derive(Clone, Copy)]
pub struct Awaited {
    pub location: u8,
    pub writer: bool,
}

// The access that thread t stands at; of a thread that has ended, location 0 and no write.
fn access_of(program: &Compiled, at: &[usize; 6], t: usize) -> Awaited
    requires { (t < 6) × ShortAt program.now.lengths at.now }
    ensures { (σ : State) → Rests program.now.code program.now.lengths at.now σ
        → (result.location ≡ place σ t) × (result.writer ≡ may_write (thread_of σ t).local) }
{
    let i = at[t];
    if program.lengths[t] <= i {
        return Awaited {
            location: 0,
            writer: false,
        };
    }
    let row = t * 16 + i;
    Awaited {
        location: location_at(&program.code, row),
        writer: is_writer(&program.code, row),
    }
}

// Whether something left to thread u could conflict with an access at l, which could write (w) or only reads.
pub fn meets(
    left: &[u8; 192],
    lengths: &[usize; 6],
    at: &[usize; 6],
    u: usize,
    l: u8,
    w: bool,
) -> bool
    requires { (u < 6) × ShortAt lengths.now at.now }
    ensures { (code : List ℕ) → Left code lengths.now left.now
        → result ≡ meets_at code lengths.now at.now u l w }
{
    let i = at[u];
    if lengths[u] <= i {
        return false;
    }
    let row = u * 16 + i;
    is_in(left[row + 96], l) || (w && is_in(left[row], l))
}

// Whether thread u is in the set, or nothing left to it could wake one that awaits this access.
fn is_quiet(
    left: &[u8; 192],
    lengths: &[usize; 6],
    at: &[usize; 6],
    set: u8,
    u: u8,
    a: Awaited,
) -> bool
    requires { (u < 6) × ShortAt lengths.now at.now }
    ensures { (code : List ℕ) → Left code lengths.now left.now
        → result ≡ (has set u || not (meets_at code lengths.now at.now u a.location a.writer)) }
{
    is_in(set, u) || !meets(left, lengths, at, wide(u), a.location, a.writer)
}

// Whether thread t is in the set, and no thread outside could wake it.
fn sleeps_in(program: &Compiled, left: &[u8; 192], at: &[usize; 6], set: u8, t: u8) -> bool
    requires { (t < 6) × ShortAt program.now.lengths at.now }
    ensures { (σ : State) → Rests program.now.code program.now.lengths at.now σ
        → Left program.now.code program.now.lengths left.now → result ≡ sleeps_in σ set t }
{
    if !is_in(set, t) {
        return false;
    }
    let a = access_of(program, at, wide(t));
    for u in 0u8..6 {
        if !is_quiet(left, &program.lengths, at, set, u, a) {
            return false;
        }
    }
    true
}

// What is left of the set when those that some thread outside could wake have gone.
fn unwoken(program: &Compiled, left: &[u8; 192], at: &[usize; 6], set: u8) -> u8
    requires { ShortAt program.now.lengths at.now }
    ensures { (σ : State) → Rests program.now.code program.now.lengths at.now σ
        → Left program.now.code program.now.lengths left.now → result ≡ unwoken σ set }
{
    let mut next = 0u8;
    for t in 0u8..6 {
        next += choose(sleeps_in(program, left, at, set, t), power(t), 0);
    }
    next
}

// Whether some of these late threads are asleep for good, where the threads stand so.
pub fn some_asleep(
    program: &Compiled,
    left: &[u8; 192],
    threads: [ThreadState; 6],
    late: u8,
) -> bool
    requires { (class : List ℕ) × (count : ℕ) × (groups : ℕ) × (x : Place) × (p : Program) × (v : Schedule)
        × Reached program.now.code program.now.lengths class count groups x p v × (x.threads ≡ threads) × (x.late ≡ late)
        × Left program.now.code program.now.lengths left.now }
    ensures { (class : List ℕ) (count groups : ℕ) (x : Place) (p : Program) (v : Schedule)
        → Reached program.now.code program.now.lengths class count groups x p v → x.threads ≡ threads → x.late ≡ late
        → result ≡ not (eqb (sleepers (end_of p v) (late_set p v)) 0) }
{
    if late == 0 {
        return false;
    }
    let mut at = [0usize; 6];
    for t in 0..6 {
        at[t] = threads[t].at;
    }
    let mut set = late;
    // Rounds, until no thread leaves the set: how many there are is not known before.
    while set != 0 {
        let next = unwoken(program, left, &at, set);
        if next == set {
            return true;
        }
        set = next;
    }
    false
}
