// A step of the search.
ghost use Rattle.std.specs.Prelude.{◌≡◌, true, List, [], ◌∷◌, ◌++◌, ℕ};
ghost use Rattle.spec_file.specs.Program.{Program};
ghost use Rattle.spec_schedules.specs.Order.{Schedule};
ghost use Rattle.spec_sc.specs.State.{enabled, place};
ghost use Rattle.spec_sc.specs.Graph.{end_of};
ghost use Rattle.search_place.specs.Reached.{Reached};

use crate::going::{late_bit, mark_location, mark_thread};
use crate::lateness::late_bound;
use crate::place::Place;
use crate::running::live_behind;
use file_decoder::Compiled;
use file_lines::wide;
use machine::lean_step;

// Makes a step of thread t in the place that is lent: a copy takes longer than a step. Gives back the location of its access.
pub fn step(program: &Compiled, x: &mut Place, t: u8) -> u8
    requires { (class : List ℕ) × (threads : ℕ) × (groups : ℕ) × (p : Program) × (v : Schedule)
        × Reached program.now.code program.now.lengths class threads groups x.old p v × (enabled (end_of p v) t ≡ true) }
    ensures { (class : List ℕ) (threads groups : ℕ) (p : Program) (v : Schedule)
        → Reached program.now.code program.now.lengths class threads groups x.old p v
        → Reached program.now.code program.now.lengths class threads groups x.new p (v ++ (t ∷ [])) × (result ≡ place (end_of p v) t) }
{
    let n = x.steps;
    let u = wide(t);
    let m = lean_step(program, x.threads[u], x.memory, t);
    let memory = m.memory;
    x.threads[u] = m.thread;
    x.memory = memory;
    x.schedule[n] = t;
    x.steps = n + 1;
    let stamp = mark_location(&mut x.stamps, m.location, m.wrote, n);
    mark_thread(&mut x.words, t, stamp, m.wrote);
    let mut late = 0u8;
    for w in 0..late_bound(x.late, t) {
        late += late_bit(program, x.threads[wide(w)], m, w, x.late, t);
    }
    x.late = late;
    x.live = live_behind(x.live, t, m.thread.at < program.lengths[u]);
    m.location
}
