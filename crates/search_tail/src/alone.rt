// Where only one thread has not ended the search does not branch: that thread runs to its end.
ghost use Rattle.std.specs.Prelude.{◌≡◌, true, false, ◌||◌, List, ℕ, ◌*◌, ◌^◌, ◌<◌, ◌≤◌, length, MatchOption};
ghost use Rattle.spec_file.specs.Program.{Program};
ghost use Rattle.spec_schedules.specs.Order.{Schedule};
ghost use Rattle.spec_schedules.specs.System.{ended};
ghost use Rattle.spec_sc.specs.State.{SC, fails};
ghost use Rattle.spec_sc.specs.Graph.{end_of};
ghost use Rattle.theory_sc.specs.LateSet.{late_set};
ghost use Rattle.theory_sc.specs.Sleepers.{sleepers};
ghost use Rattle.theory_sc.specs.Search.{found_behind};
ghost use Rattle.search_place.specs.Reached.{Reached};
ghost use Rattle.search_place.specs.declared.place.Place.{Place};
ghost use Rattle.listing_cursor.specs.Bounds.{bound_at};
ghost use Rattle.search_tail.specs.Runner.{RunnerOf, Settled};
ghost use Rattle.search_tail.specs.Walked.{Adds};

use crate::full::ROW;
use file_decoder::Compiled;
use file_lines::wide;
use listing_cursor::{Aim, is_meant, put_row};
use machine::lean_step;
use machine_access::ThreadState;
use search_place::Place;
use spec_file::STEPS;

// One thread of a place, with memory and the steps so far, and whether an assertion of any thread failed.
#[derive(Clone, Copy)]
pub struct Runner {
    pub thread: ThreadState,
    pub memory: [u32; 8],
    pub schedule: [u8; STEPS],
    pub steps: usize,
    pub failed: bool,
}

impl Runner {
    // Thread t of a place, and whether an assertion of any thread failed.
    pub fn of(x: &Place, t: u8, failed: bool) -> Runner
        requires { t < 6 }
        ensures held { RunnerOf x.now t result }
        ensures failed { result.failed ≡ failed }
    {
        let memory = x.memory;
        let schedule = x.schedule;
        Runner {
            thread: x.threads[wide(t)],
            memory,
            schedule,
            steps: x.steps,
            failed,
        }
    }
}

// The thread that alone is in the set.
fn sole(live: u8) -> Option<u8>
    ensures { MatchOption result Unit (λ t. (t < 6) × (live ≡ 2 ^ t)) }
{
    match live {
        1 => Some(0),
        2 => Some(1),
        4 => Some(2),
        8 => Some(3),
        16 => Some(4),
        32 => Some(5),
        _ => None,
    }
}

// The thread whose steps are all that is left: the only one that has not ended, apart from the bound; any where all have ended; none where
// the search may branch.
pub fn last_runner(live: u8, tight: bool) -> Option<u8>
    ensures within { MatchOption result Unit (λ t. t < 6) }
    ensures settled { (code lengths class : List ℕ) (threads groups : ℕ) (x : Place) (p : Program) (v : Schedule)
        → Reached code lengths class threads groups x p v → x.live ≡ live
        → MatchOption result (ended SC (end_of p v) ≡ false)
        (λ t. sleepers (end_of p v) (late_set p v) ≡ 0 → Settled p v t tight) }
{
    if live == 0 {
        return Some(0);
    }
    if tight {
        return None;
    }
    sole(live)
}

// Runs thread t to its end and adds the row of the schedule that it comes to, if that is looked for and there is room; answers how many
// rows there are.
pub fn run_out(program: &Compiled, r: Runner, a: Aim, out: &mut [u8], t: u8) -> usize
    requires { ((class : List ℕ) × (threads : ℕ) × (groups : ℕ) × (x : Place) × (p : Program) × (v : Schedule)
        × Reached program.now.code program.now.lengths class threads groups x p v × RunnerOf x t r)
        × (t < 6) × (a.rows ≤ a.room) × (a.room * 26 ≤ length out.old) }
    ensures within { result ≤ a.room }
    ensures added { (class : List ℕ) (threads groups : ℕ) (x : Place) (p : Program) (v : Schedule) (bound : List ℕ)
        → Reached program.now.code program.now.lengths class threads groups x p v → RunnerOf x t r
        → r.failed ≡ fails (end_of p v) → Settled p v t a.tight
        → Adds p a.room (found_behind a.failures p x.steps (bound_at a.tight bound x.steps) v)
        out.old a.rows out.new result }
{
    let rows = a.rows;
    if a.tight || a.room <= rows {
        return rows;
    }
    let mut k = r;
    let end = program.lengths[wide(t)];
    // A step may leave out instructions: how many steps there are is not known before.
    while k.thread.at < end {
        let m = lean_step(program, k.thread, k.memory, t);
        let memory = m.memory;
        let n = k.steps;
        k.thread = m.thread;
        k.memory = memory;
        k.schedule[n] = t;
        k.steps = n + 1;
    }
    let f = k.failed || k.thread.failed;
    if !is_meant(a.failures, f) {
        return rows;
    }
    let steps = &k.schedule[..k.steps];
    put_row(&mut out[rows * ROW..], STEPS, steps, f);
    rows + 1
}
