// Keys with a flag: their entries have one word.
ghost use Rattle.std.specs.Prelude.{◌≡◌, ℕ, [], ◌∷◌, length, if◌then◌else◌, ◌==◌, IfSome};
ghost use Rattle.std.proofs.Math.Option.{some};
ghost use Rattle.table.specs.Places.{said};
ghost use Rattle.table.specs.Answers.{Honest};

use crate::entries::{entry, put_entry};
use crate::tally::Shape;

// What the table says of a key, if anything.
pub fn recall_flag(table: &[u64], shape: Shape, key: &[u64]) -> Option<bool>
    ensures { IfSome result
        (λ set. (w : ℕ) × (said shape.slots 1 table.now key.now ≡ some (w ∷ [])) × (set ≡ (w == 1))) }
{
    let e = entry(table, shape, 1, key)?;
    Some(e[0] == 1)
}

// Puts the flag of a key into the table, which may drop others for it.
pub fn keep_flag(table: &mut [u64], shape: Shape, key: &[u64], set: bool)
    ensures words { length table.new ≡ length table.old }
    ensures honest { Honest shape.slots key.now ((if set then 1 else 0) ∷ []) table.old table.new }
{
    put_entry(table, shape, key, &[u64::from(set)]);
}
