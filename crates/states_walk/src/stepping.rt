// A step of the search.
ghost use Rattle.std.specs.Prelude.{◌≡◌, true, List, [], ◌∷◌, ◌++◌, ℕ};
ghost use Rattle.spec_file.specs.Program.{Program};
ghost use Rattle.spec_schedules.specs.Order.{Schedule};
ghost use Rattle.spec_sc.specs.State.{enabled};
ghost use Rattle.spec_sc.specs.Graph.{end_of};
ghost use Rattle.states_key.specs.Stands.{Stands};

use file_decoder::Compiled;
use search_place::step;
use states_key::{Spot, mark_way};

// Makes a step of thread t in the spot that is lent.
pub fn advance(program: &Compiled, x: &mut Spot, t: u8)
    requires { (class : List ℕ) × (threads : ℕ) × (groups : ℕ) × (p : Program) × (v : Schedule)
        × Stands program.now.code program.now.lengths class threads groups x.old p v × (enabled (end_of p v) t ≡ true) }
    ensures { (class : List ℕ) (threads groups : ℕ) (p : Program) (v : Schedule)
        → Stands program.now.code program.now.lengths class threads groups x.old p v
        → Stands program.now.code program.now.lengths class threads groups x.new p (v ++ (t ∷ [])) }
{
    let location = step(program, &mut x.place, t);
    mark_way(&mut x.ways, t, location);
}
