// Keys that are only marked: their entries have no words.
ghost use Rattle.std.specs.Prelude.{◌≡◌, true, [], length};
ghost use Rattle.std.proofs.Math.Option.{some};
ghost use Rattle.table.specs.Places.{said};
ghost use Rattle.table.specs.Answers.{Honest};

use crate::entries::{entry, put_entry};
use crate::tally::Shape;

// Whether the table has a mark of this key.
pub fn is_marked(table: &[u64], shape: Shape, key: &[u64]) -> bool
    ensures { result ≡ true → said shape.slots 0 table.now key.now ≡ some [] }
{
    entry(table, shape, 0, key).is_some()
}

// Marks a key; the table may drop other marks for it.
pub fn mark(table: &mut [u64], shape: Shape, key: &[u64])
    ensures words { length table.new ≡ length table.old }
    ensures honest { Honest shape.slots key.now [] table.old table.new }
{
    put_entry(table, shape, key, &[]);
}
