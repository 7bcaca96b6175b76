// What the search does at a full schedule.
ghost use Rattle.std.specs.Prelude.{◌≡◌, true, List, ℕ, ◌*◌, ◌≤◌, length};
ghost use Rattle.std.proofs.Math.Option.{none};
ghost use Rattle.spec_file.specs.Program.{Program};
ghost use Rattle.spec_schedules.specs.Order.{Schedule};
ghost use Rattle.spec_schedules.specs.System.{ended};
ghost use Rattle.spec_sc.specs.State.{SC};
ghost use Rattle.spec_sc.specs.Graph.{end_of};
ghost use Rattle.theory_sc.specs.Search.{found_behind};
ghost use Rattle.search_place.specs.Reached.{Reached};
ghost use Rattle.search_tail.specs.Walked.{Adds};

use listing_cursor::{Aim, is_meant, put_row};
use machine::some_failed;
use search_place::Place;
use spec_file::STEPS;

// The bytes of a listed schedule's row.
pub const ROW: usize = 26;

// Adds the row of the full schedule, if it is looked for and there is room; answers how many rows there are.
pub fn at_end(x: &Place, a: Aim, out: &mut [u8]) -> usize
    requires { (x.now.steps ≤ 24) × (a.rows ≤ a.room) × (a.room * 26 ≤ length out.old) }
    ensures within { result ≤ a.room }
    ensures added { (code lengths class : List ℕ) (threads groups : ℕ) (p : Program) (v : Schedule)
        → Reached code lengths class threads groups x.now p v → ended SC (end_of p v) ≡ true
        → Adds p a.room (found_behind a.failures p x.now.steps none v) out.old a.rows out.new result }
{
    let rows = a.rows;
    if a.room <= rows {
        return rows;
    }
    let f = some_failed(x.threads);
    if !is_meant(a.failures, f) {
        return rows;
    }
    let steps = &x.schedule[..x.steps];
    put_row(&mut out[rows * ROW..], STEPS, steps, f);
    rows + 1
}
