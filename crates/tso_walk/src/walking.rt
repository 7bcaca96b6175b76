// The search: depth first, bytes ascending, from a prefix of a run.
ghost use Rattle.std.specs.Prelude.{◌≡◌, true, List, ℕ, ◌*◌, ◌<◌, ◌≤◌, length};
ghost use Rattle.spec_file.specs.Program.{Program};
ghost use Rattle.spec_schedules.specs.Order.{Schedule};
ghost use Rattle.spec_schedules.specs.System.{ended};
ghost use Rattle.spec_tso.specs.State.{TSO};
ghost use Rattle.spec_tso.specs.Graph.{end_of};
ghost use Rattle.theory_tso.specs.Search.{found_behind, found_with, given_up};
ghost use Rattle.listing_cursor.specs.Bounds.{bound_at};
ghost use Rattle.search_rules.specs.Left.{Left};
ghost use Rattle.tso_place.specs.Reached.{Reached};
ghost use Rattle.tso_rules.specs.Tried.{tried};
ghost use Rattle.tso_walk.specs.Rows.{Adds};

use crate::ending::at_end;
use file_decoder::Compiled;
use listing_cursor::{Aim, first_byte, stays_tight};
use tso_order::Sets;
use tso_place::{Place, advanced};
use tso_rules::{is_tried, some_asleep};

// Whether no byte may step any more: none may access, and nothing is left to move.
pub fn is_over(s: Sets) -> bool
    ensures { (code lengths class : List ℕ) (threads groups : ℕ) (x : Place) (p : Program) (v : Schedule)
        → Reached code lengths class threads groups x p v → x.sets ≡ s → result ≡ ended TSO (end_of p v) }
{
    s.live == 0 && s.moving == 0
}

// Adds what is found with b, which is tried, as the next step, unless that leaves some asleep for good.
#[cycle(visit_walk)]
fn visit(
    program: &Compiled,
    left: &[u8; 192],
    x: &Place,
    bound: &[u8],
    a: Aim,
    out: &mut [u8],
    b: u8,
) -> usize
    requires { ((threads : ℕ) × (groups : ℕ) × (p : Program) × (v : Schedule)
        × Reached program.now.code program.now.lengths program.now.class threads groups x.now p v)
        × Left program.now.code program.now.lengths left.now × (a.rows ≤ a.room) × (a.room * 50 ≤ length out.old) × (x.now.steps < 32)
        × ((threads groups : ℕ) (p : Program) (v : Schedule) → Reached program.now.code program.now.lengths program.now.class threads groups x.now p v
        → tried p v b ≡ true) }
    ensures within { result ≤ a.room }
    ensures added { (threads groups : ℕ) (p : Program) (v : Schedule)
        → Reached program.now.code program.now.lengths program.now.class threads groups x.now p v
        → Adds p a.room (found_with given_up a.failures p x.now.steps (bound_at a.tight bound.now x.now.steps) v b)
        out.old a.rows out.new result }
{
    let next = advanced(program, *x, b);
    if some_asleep(program, left, &next) {
        return a.rows;
    }
    let c = Aim {
        tight: stays_tight(bound, a.tight, x.steps, b),
        ..a
    };
    walk(program, left, &next, bound, c, out)
}

// Adds all that is found behind the steps taken.
#[cycle(visit_walk)]
pub(crate) fn walk(
    program: &Compiled,
    left: &[u8; 192],
    x: &Place,
    bound: &[u8],
    a: Aim,
    out: &mut [u8],
) -> usize
    requires { ((threads : ℕ) × (groups : ℕ) × (p : Program) × (v : Schedule)
        × Reached program.now.code program.now.lengths program.now.class threads groups x.now p v)
        × Left program.now.code program.now.lengths left.now × (a.rows ≤ a.room) × (a.room * 50 ≤ length out.old) }
    ensures within { result ≤ a.room }
    ensures added { (threads groups : ℕ) (p : Program) (v : Schedule)
        → Reached program.now.code program.now.lengths program.now.class threads groups x.now p v
        → Adds p a.room (found_behind given_up a.failures p x.now.steps (bound_at a.tight bound.now x.now.steps) v)
        out.old a.rows out.new result }
{
    let s = x.sets;
    if is_over(s) {
        if a.tight {
            return a.rows;
        }
        return at_end(x, a, out);
    }
    if 32 <= x.steps {
        return a.rows;
    }
    let mut n = a.rows;
    for b in first_byte(bound, a.tight, x.steps)..22 {
        if a.room <= n {
            return n;
        }
        if is_tried(&program.class, &x.words, s, b) {
            let c = Aim { rows: n, ..a };
            n = visit(program, left, x, bound, c, out, b);
        }
    }
    n
}
