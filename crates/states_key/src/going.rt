// The start of a walk, and the way of a thread behind a step.
ghost use Rattle.std.specs.Prelude.{◌≡◌, List, [], ℕ, ◌<◌, get_or, set};
ghost use Rattle.spec_file.specs.Program.{Program};
ghost use Rattle.search_place.specs.Reached.{Reached};
ghost use Rattle.theory_sc_key.specs.Ways.{way_behind};
ghost use Rattle.states_key.specs.Stands.{Stands};

use crate::spot::Spot;
use file_lines::wide;
use search_place::Place;

// The spot before the first step, where the search starts at this place.
pub fn first_spot(x: Place) -> Spot
    ensures { (code lengths class : List ℕ) (threads groups : ℕ) (p : Program) → Reached code lengths class threads groups x p []
        → Stands code lengths class threads groups result p [] }
{
    Spot {
        place: x,
        ways: [0; 6],
    }
}

// A way behind an access at a location.
pub(crate) fn way_behind(way: u64, location: u8) -> u64
    ensures { result ≡ way_behind way location }
{
    (way % 0x2_0000_0000 * 8 + u64::from(location)) % 0x10_0000_0000
}

// Stores the way of thread t behind a step of its to a location.
pub fn mark_way(ways: &mut [u64; 6], t: u8, location: u8)
    requires { t < 6 }
    ensures { ways.new ≡ set ways.old t (way_behind (get_or ways.old t 0) location) }
{
    let u = wide(t);
    ways[u] = way_behind(ways[u], location);
}
