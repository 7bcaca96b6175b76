// Where only one thread has not ended the search does not branch: that thread runs to its end, and one schedule is listed.
ghost use Rattle.std.specs.Prelude.{◌≡◌, true, false, cond, List, [], ◌∷◌, ℕ, ◌<◌, ◌≤◌, take};
ghost use Rattle.std.proofs.Math.Option.{none};
ghost use Rattle.spec_file.specs.Program.{Program};
ghost use Rattle.spec_schedules.specs.Order.{Schedule};
ghost use Rattle.spec_sc.specs.State.{fails};
ghost use Rattle.spec_sc.specs.Graph.{end_of};
ghost use Rattle.theory_sc.specs.Search.{found_behind};
ghost use Rattle.search_place.specs.Reached.{Reached};
ghost use Rattle.search_place.specs.declared.place.Place.{Place};
ghost use Rattle.search_tail.specs.Runner.{RunnerOf, Settled};
ghost use Rattle.theory_states.specs.Numbers.{charged};
ghost use Rattle.theory_states.specs.Wrapped.{Wrapped};
ghost use Rattle.states_walk.specs.Known.{numbers_at};

use file_decoder::Compiled;
use file_lines::wide;
use machine::lean_step;
use search_tail::Runner;

// Thread t at its end, and whether one of the steps to there failed or, as the runner says, something had failed before.
pub(crate) fn ran_out(program: &Compiled, mut r: Runner, t: u8) -> Runner
    requires { ((class : List ℕ) × (threads : ℕ) × (groups : ℕ) × (x : Place) × (p : Program) × (v : Schedule)
        × Reached program.now.code program.now.lengths class threads groups x p v × RunnerOf x t r) × (t < 6) }
    ensures within { result.steps ≤ 24 }
    ensures last { (class : List ℕ) (threads groups : ℕ) (x : Place) (p : Program) (v : Schedule)
        → Reached program.now.code program.now.lengths class threads groups x p v → RunnerOf x t r → Settled p v t false
        → Wrapped (charged r.failed (numbers_at p v)) 1 (cond result.failed 1 0)
        × (r.failed ≡ fails (end_of p v)
        → found_behind true p x.steps none v ≡ cond result.failed (take result.steps result.schedule ∷ []) []) }
{
    let end = program.lengths[wide(t)];
    // A step may leave out instructions: how many steps there are is not known before.
    while r.thread.at < end {
        let m = lean_step(program, r.thread, r.memory, t);
        let memory = m.memory;
        r.thread = m.thread;
        r.memory = memory;
        r.schedule[r.steps] = t;
        r.steps += 1;
        r.failed |= m.thread.failed;
    }
    r
}
