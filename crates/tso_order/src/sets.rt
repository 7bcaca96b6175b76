// Sets of threads, a bit for each.
ghost use Rattle.std.specs.Prelude.{◌≡◌, Bool, true, cond, not, ◌&&◌, ◌||◌, ℕ, ◌<◌, eqb, ltb};
ghost use Rattle.spec_schedules.specs.Sets.{has};
ghost use Rattle.theory_sc.specs.Sets.{set_of};

use search_place::{addend, is_in};

// Sets of threads at a place: those that may do their next access, those that may move; of these the accesses that are late, the moves that
// are late, and the moves that are far.
#[derive(Clone, Copy)]
pub struct Sets {
    pub live: u8,
    pub moving: u8,
    pub late: u8,
    pub overdue: u8,
    pub far: u8,
}

// The set of those of six threads that pass a test.
pub fn six<F: Fn(u8) -> bool>(f: F) -> u8
    requires { (u : ℕ) → u < 6 → F.pre f u }
    ensures { (g : ℕ → Bool) → ((u : ℕ) (b : Bool) → u < 6 → F.post f u b → b ≡ g u) → result ≡ set_of g 6 }
{
    let three = addend(f(0), 1) + addend(f(1), 2) + addend(f(2), 4);
    three + addend(f(3), 8) + addend(f(4), 16) + addend(f(5), 32)
}

// Whether u is in the set, where t is or is not.
fn chosen(set: u8, t: u8, on: bool, u: u8) -> bool
    ensures { result ≡ cond (eqb u t) on (has set u) }
{
    if u == t { on } else { is_in(set, u) }
}

// Whether a set of the six has t in it or not already.
fn is_so(set: u8, t: u8, on: bool) -> bool
    ensures { result ≡ true → (set < 64) × (has set t ≡ on) }
{
    set < 64 && is_in(set, t) == on
}

// The set with t in it or not.
pub fn with_bit(set: u8, t: u8, on: bool) -> u8
    ensures { result ≡ set_of (λ u. cond (eqb u t) on (has set u)) 6 }
{
    if is_so(set, t, on) {
        return set;
    }
    six(|u| chosen(set, t, on, u))
}
