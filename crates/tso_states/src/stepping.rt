// A step of the search: the place behind it, and the way of its thread.
ghost use Rattle.std.specs.Prelude.{◌≡◌, true, List, [], ◌∷◌, ◌++◌, ℕ};
ghost use Rattle.spec_file.specs.Program.{Program};
ghost use Rattle.spec_schedules.specs.Order.{Schedule};
ghost use Rattle.spec_tso.specs.State.{enabled};
ghost use Rattle.spec_tso.specs.Graph.{end_of};
ghost use Rattle.theory_tso_key.specs.Views.{breaks};
ghost use Rattle.tso_place.specs.Reached.{Reached};
ghost use Rattle.tso_place.specs.declared.place.Place.{Place};
ghost use Rattle.tso_key.specs.Stands.{Stands};

use file_decoder::Compiled;
use file_lines::wide;
use machine_access::ThreadState;
use search_place::location_at;
use tso_key::{Spot, way_behind};
use tso_place::advanced;

// The spot behind the step b, which may be made: an access adds its location to its thread's way.
pub fn stepped(program: &Compiled, x: &Spot, b: u8) -> Spot
    requires { (threads : ℕ) × (groups : ℕ) × (p : Program) × (v : Schedule)
        × Stands program.now.code program.now.lengths program.now.class threads groups x.now p v × (enabled (end_of p v) b ≡ true) }
    ensures { (threads groups : ℕ) (p : Program) (v : Schedule)
        → Stands program.now.code program.now.lengths program.now.class threads groups x.now p v → enabled (end_of p v) b ≡ true
        → Stands program.now.code program.now.lengths program.now.class threads groups result p (v ++ (b ∷ [])) }
{
    let mut ways = x.ways;
    if b < 6 {
        let u = wide(b);
        let l = location_at(&program.code, u * 16 + x.place.threads[u].at);
        ways[u] = way_behind(ways[u], l);
    }
    Spot {
        place: advanced(program, x.place, b),
        ways,
    }
}

// Whether an assertion failed in the step b, behind which the threads stand so.
pub(crate) fn is_broken(threads: &[ThreadState; 6], b: u8) -> bool
    ensures { (code lengths class : List ℕ) (n groups : ℕ) (y : Place) (p : Program) (v : Schedule)
        → Reached code lengths class n groups y p (v ++ (b ∷ [])) → y.threads ≡ threads.now → enabled (end_of p v) b ≡ true
        → result ≡ breaks (end_of p v) b }
{
    b < 6 && threads[wide(b)].failed
}
