// What the search does at a full schedule.
ghost use Rattle.std.specs.Prelude.{◌≡◌, true, List, ℕ, ◌*◌, ◌≤◌, length};
ghost use Rattle.std.proofs.Math.Option.{none};
ghost use Rattle.spec_file.specs.Program.{Program};
ghost use Rattle.spec_schedules.specs.Order.{Schedule};
ghost use Rattle.spec_schedules.specs.System.{ended};
ghost use Rattle.spec_tso.specs.State.{TSO};
ghost use Rattle.spec_tso.specs.Graph.{end_of};
ghost use Rattle.theory_tso.specs.Search.{found_behind, given_up};
ghost use Rattle.tso_place.specs.Reached.{Reached};
ghost use Rattle.tso_walk.specs.Rows.{Adds};

use crate::listed::{ROW, WIDTH};
use listing_cursor::{Aim, is_meant, put_row};
use machine::{Machine, fails};
use tso_place::Place;

// Adds its row, if it is looked for and there is room; answers how many rows there are.
pub(crate) fn at_end(x: &Place, a: Aim, out: &mut [u8]) -> usize
    requires { (x.now.steps ≤ 32) × (a.rows ≤ a.room) × (a.room * 50 ≤ length out.old) }
    ensures within { result ≤ a.room }
    ensures added { (code lengths class : List ℕ) (threads groups : ℕ) (p : Program) (v : Schedule)
        → Reached code lengths class threads groups x.now p v → ended TSO (end_of p v) ≡ true
        → Adds p a.room (found_behind given_up a.failures p x.now.steps none v) out.old a.rows out.new result }
{
    let rows = a.rows;
    if a.room <= rows {
        return rows;
    }
    let threads = x.threads;
    let memory = x.memory;
    let last = x.last;
    let f = fails(Machine {
        threads,
        memory,
        last,
    });
    if !is_meant(a.failures, f) {
        return rows;
    }
    put_row(&mut out[rows * ROW..], WIDTH, &x.schedule[..x.steps], f);
    rows + 1
}
