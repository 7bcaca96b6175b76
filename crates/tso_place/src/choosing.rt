// Which threads could be late or far behind a step: those that may step, but not by its byte, and that were so or become so here.
ghost use Rattle.std.specs.Prelude.{◌≡◌, true, false, cond, not, ◌&&◌, ◌||◌, List, ℕ, ◌+◌, ◌<◌, ◌≤◌, eqb, ltb};
ghost use Rattle.spec_file.specs.Program.{Program};
ghost use Rattle.spec_schedules.specs.Lists.{range, any};
ghost use Rattle.spec_schedules.specs.Sets.{has};
ghost use Rattle.theory_sc.specs.Sets.{set_of};
ghost use Rattle.search_place.specs.ClassGroups.{Lined};
ghost use Rattle.theory_sc.specs.ThreadWords.{twin_by_word};
ghost use Rattle.tso_place.specs.Farther.{IsFarther};

use search_place::is_in;
use search_rules::has_same_word;
use tso_order::{Sets, six, with_bit};

// Whether thread u, whose byte is c, may step, not by b, and c is smaller than b or it was in the set.
fn is_smaller(may: u8, before: u8, b: u8, u: u8, c: u8) -> bool
    ensures { result ≡ (has may u && (not (eqb b c) && (ltb c b || has before u))) }
{
    is_in(may, u) && b != c && (c < b || is_in(before, u))
}

// Whether no thread was in the set, and no byte from `first` on is smaller than b.
fn is_none_smaller(before: u8, b: u8, first: u8) -> bool
    ensures { result ≡ true → (before ≡ 0) × (b ≤ first) }
{
    before == 0 && b <= first
}

// The threads that may step, not by b, and whose byte is smaller than b or that were in the set; the byte of thread 0 is `first`.
fn smaller(may: u8, before: u8, b: u8, first: u8) -> u8
    requires { first ≤ 16 }
    ensures { result ≡ set_of (λ u. has may u && (not (eqb b (u + first)) && (ltb (u + first) b || has before u))) 6 }
{
    if is_none_smaller(before, b, first) {
        return 0;
    }
    six(|u| is_smaller(may, before, b, u, u + first))
}

// The threads below t whose move is smaller than b are those below this one.
fn moves_below(b: u8, t: u8) -> u8
    ensures { (result ≤ t) × ((u : ℕ) → u < result → ltb (u + 16) b ≡ true) × ((u : ℕ) → result ≤ u → u < t → ltb (u + 16) b ≡ false) }
{
    t.min(b.saturating_sub(16))
}

// Whether thread t may move, not by b, and was in the set or has a smaller twin whose move is smaller than b.
fn is_farther(class: &[usize; 6], words: &[u64; 6], may: u8, before: u8, b: u8, t: u8) -> bool
    requires { t < 6 }
    ensures { IsFarther class.now words.now may before b t result }
{
    is_in(may, t)
        && b != t + 16
        && (is_in(before, t) || has_same_word(class, words, t, moves_below(b, t)))
}

// The threads that may move, not by b, and were in the set or have a smaller twin whose move is smaller than b.
fn farther(class: &[usize; 6], words: &[u64; 6], may: u8, before: u8, b: u8) -> u8
    ensures { (groups : ℕ) (p : Program) → Lined class.now groups p
        → result ≡ set_of (λ t. has may t && (not (eqb b (t + 16))
        && (any (λ u. twin_by_word p words.now t u && ltb (u + 16) b) (range 0 t) || has before t))) 6 }
{
    if is_none_smaller(before, b, 16) {
        return 0;
    }
    six(|t| is_farther(class, words, may, before, b, t))
}

// The sets behind the step b of thread t, behind which it may access or not and move or not: of late and far those that could be so.
pub(crate) fn candidates(
    class: &[usize; 6],
    words: &[u64; 6],
    old: Sets,
    accesses: bool,
    moves: bool,
    t: u8,
    b: u8,
) -> Sets
    ensures { (result.live ≡ set_of (λ u. cond (eqb u t) accesses (has old.live u)) 6)
        × (result.moving ≡ set_of (λ u. cond (eqb u t) moves (has old.moving u)) 6)
        × (result.late ≡ set_of (λ u. has result.live u && (not (eqb b (u + 0)) && (ltb (u + 0) b || has old.late u))) 6)
        × (result.overdue ≡ set_of (λ u. has result.moving u && (not (eqb b (u + 16)) && (ltb (u + 16) b || has old.overdue u))) 6)
        × ((groups : ℕ) (p : Program) → Lined class.now groups p
        → result.far ≡ set_of (λ t. has result.moving t && (not (eqb b (t + 16))
        && (any (λ u. twin_by_word p words.now t u && ltb (u + 16) b) (range 0 t) || has old.far t))) 6) }
{
    let live = with_bit(old.live, t, accesses);
    let moving = with_bit(old.moving, t, moves);
    Sets {
        live,
        moving,
        late: smaller(live, old.late, b, 0),
        overdue: smaller(moving, old.overdue, b, 16),
        far: farther(class, words, moving, old.far, b),
    }
}
