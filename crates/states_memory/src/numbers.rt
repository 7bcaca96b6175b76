// The two numbers of a key.
ghost use Rattle.std.specs.Prelude.{◌≡◌, [], ◌∷◌, length, IfSome};
ghost use Rattle.std.proofs.Math.Option.{some};
ghost use Rattle.table.specs.Places.{said};
ghost use Rattle.table.specs.Answers.{Honest};
ghost use Rattle.states_memory.specs.declared.tally.Tally.{Tally};

use crate::entries::{entry, put_entry};
use crate::tally::{Shape, Tally};

// What the table says of a key, if anything.
pub fn recall(table: &[u64], shape: Shape, key: &[u64]) -> Option<Tally>
    ensures { IfSome result
        (λ (n : Tally). said shape.slots 2 table.now key.now ≡ some (n.listed ∷ n.failing ∷ [])) }
{
    let e = entry(table, shape, 2, key)?;
    Some(Tally {
        listed: e[0],
        failing: e[1],
    })
}

// Puts the numbers of a key into the table, which may drop others for them.
pub fn keep(table: &mut [u64], shape: Shape, key: &[u64], n: Tally)
    ensures words { length table.new ≡ length table.old }
    ensures honest { Honest shape.slots key.now (n.listed ∷ n.failing ∷ [])
        table.old table.new }
{
    put_entry(table, shape, key, &[n.listed, n.failing]);
}
