// A key's entry, at the key's own place in the table.
ghost use Rattle.std.specs.Prelude.{◌≡◌, ℕ, List, length, IfSome};
ghost use Rattle.std.proofs.Math.Option.{some};
ghost use Rattle.table.specs.Places.{said};
ghost use Rattle.table.specs.Answers.{Honest};

use crate::tally::Shape;
use table::{look, place, put};

// What the table says of a key, if anything: the words of its entry, so many.
pub(crate) fn entry<'a>(
    table: &'a [u64],
    shape: Shape,
    width: usize,
    key: &[u64],
) -> Option<&'a [u64]>
    ensures { IfSome result (λ e. (said shape.slots width table.now key.now ≡ some e.now) × (length e.now ≡ width)) }
{
    let i = look(table, place(shape.slots, width, key), width, key)?;
    Some(&table[i..i + width])
}

// Puts the entry of a key into the table, which may drop others for it.
pub(crate) fn put_entry(table: &mut [u64], shape: Shape, key: &[u64], entry: &[u64])
    ensures words { length table.new ≡ length table.old }
    ensures honest { Honest shape.slots key.now entry.now table.old table.new }
{
    put(table, place(shape.slots, entry.len(), key), key, entry);
}
