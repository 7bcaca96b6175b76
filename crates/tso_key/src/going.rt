// The start of a walk, and the way of a thread behind an access.
ghost use Rattle.std.specs.Prelude.{◌≡◌, List, [], ℕ, ◌+◌, ◌*◌, ◌%◌, ◌^◌};
ghost use Rattle.spec_file.specs.Program.{Program};
ghost use Rattle.tso_place.specs.Reached.{Reached};
ghost use Rattle.tso_key.specs.Stands.{Stands};

use crate::spot::Spot;
use tso_place::Place;

// The spot before the first step, where the search starts at this place.
pub fn first_spot(x: Place) -> Spot
    ensures { (code lengths class : List ℕ) (threads groups : ℕ) (p : Program) → Reached code lengths class threads groups x p []
        → Stands code lengths class threads groups result p [] }
{
    Spot {
        place: x,
        ways: [0u32; 6],
    }
}

// A way behind an access at a location.
pub fn way_behind(way: u32, location: u8) -> u32
    ensures { result ≡ (way * 8 + location) % 2 ^ 24 }
{
    (way % 0x20_0000 * 8 + (location as u32)) % 0x100_0000
}
