// The search: depth first, threads ascending, from a prefix of a run.
ghost use Rattle.std.specs.Prelude.{◌≡◌, true, List, ℕ, ◌*◌, ◌+◌, ◌<◌, ◌≤◌, length};
ghost use Rattle.spec_file.specs.Program.{Program};
ghost use Rattle.spec_schedules.specs.Order.{Schedule};
ghost use Rattle.theory_search.specs.Search.{past};
ghost use Rattle.theory_sc.specs.Search.{found_behind, found_with};
ghost use Rattle.search_place.specs.Reached.{Reached};
ghost use Rattle.search_rules.specs.Left.{Left};
ghost use Rattle.listing_cursor.specs.Bounds.{bound_at};
ghost use Rattle.search_walk.specs.Tried.{tried};
ghost use Rattle.search_tail.specs.Walked.{Adds};

use file_decoder::Compiled;
use listing_cursor::{Aim, first_byte, stays_tight};
use machine::some_failed;
use search_place::{Place, is_in, step};
use search_rules::{has_smaller_twin, some_asleep};
use search_tail::{Runner, at_end, last_runner, run_out};
use spec_file::STEPS;

// Whether t is tried: it has not ended, is not late, and has no smaller twin.
pub fn is_tried(class: &[usize; 6], words: &[u64; 6], live: u8, late: u8, t: u8) -> bool
    requires { t < 6 }
    ensures { (code lengths : List ℕ) (threads groups : ℕ) (x : Place) (p : Program) (v : Schedule)
        → Reached code lengths class.now threads groups x p v → x.words ≡ words.now → x.live ≡ live → x.late ≡ late
        → result ≡ tried p v t }
{
    is_in(live, t) && !is_in(late, t) && !has_smaller_twin(class, words, t)
}

// The aim behind a step of t at place n of the schedule: it stays along the bound only where that has the same step.
fn aim_behind(bound: &[u8], a: Aim, n: usize, t: u8) -> Aim
    ensures { (result.failures ≡ a.failures) × (result.room ≡ a.room) × (result.rows ≡ a.rows)
        × (bound_at result.tight bound.now (n + 1) ≡ past (bound_at a.tight bound.now n) t) }
{
    Aim {
        tight: stays_tight(bound, a.tight, n, t),
        ..a
    }
}

// Adds what is found with t, which is tried, as the next step, unless that leaves some asleep for good. The step is made in the copy of the
// place that is passed, so that there is no other for each step.
fn visit(
    program: &Compiled,
    left: &[u8; 192],
    mut x: Place,
    bound: &[u8],
    a: Aim,
    out: &mut [u8],
    t: u8,
) -> usize
    requires { ((threads : ℕ) × (groups : ℕ) × (p : Program) × (v : Schedule)
        × Reached program.now.code program.now.lengths program.now.class threads groups x p v)
        × Left program.now.code program.now.lengths left.now × (a.rows ≤ a.room) × (a.room * 26 ≤ length out.old)
        × ((threads groups : ℕ) (p : Program) (v : Schedule) → Reached program.now.code program.now.lengths program.now.class threads groups x p v
        → tried p v t ≡ true) }
    ensures within { result ≤ a.room }
    ensures added { (threads groups : ℕ) (p : Program) (v : Schedule)
        → Reached program.now.code program.now.lengths program.now.class threads groups x p v
        → Adds p a.room (found_with a.failures p x.steps (bound_at a.tight bound.now x.steps) v t)
        out.old a.rows out.new result }
{
    let n = x.steps;
    step(program, &mut x, t);
    if some_asleep(program, left, x.threads, x.late) {
        return a.rows;
    }
    let mut b = aim_behind(bound, a, n, t);
    if let Some(s) = last_runner(x.live, b.tight) {
        let r = Runner::of(&x, s, some_failed(x.threads));
        return run_out(program, r, b, out, s);
    }
    for z in first_byte(bound, b.tight, x.steps)..6 {
        if b.room <= b.rows {
            return b.rows;
        }
        if is_tried(&program.class, &x.words, x.live, x.late, z) {
            b.rows = visit(program, left, x, bound, b, out, z);
        }
    }
    b.rows
}

// Adds all that is found behind the steps taken, where a search begins.
pub(crate) fn walk(
    program: &Compiled,
    left: &[u8; 192],
    x: Place,
    bound: &[u8],
    a: Aim,
    out: &mut [u8],
) -> usize
    requires { ((threads : ℕ) × (groups : ℕ) × (p : Program) × (v : Schedule)
        × Reached program.now.code program.now.lengths program.now.class threads groups x p v)
        × Left program.now.code program.now.lengths left.now × (a.rows ≤ a.room) × (a.room * 26 ≤ length out.old) }
    ensures within { result ≤ a.room }
    ensures added { (threads groups : ℕ) (p : Program) (v : Schedule)
        → Reached program.now.code program.now.lengths program.now.class threads groups x p v
        → Adds p a.room (found_behind a.failures p x.steps (bound_at a.tight bound.now x.steps) v)
        out.old a.rows out.new result }
{
    if x.live == 0 {
        if a.tight {
            return a.rows;
        }
        return at_end(&x, a, out);
    }
    if STEPS <= x.steps {
        return a.rows;
    }
    let mut n = a.rows;
    for t in first_byte(bound, a.tight, x.steps)..6 {
        if a.room <= n {
            return n;
        }
        if is_tried(&program.class, &x.words, x.live, x.late, t) {
            let b = Aim { rows: n, ..a };
            n = visit(program, left, x, bound, b, out, t);
        }
    }
    n
}
