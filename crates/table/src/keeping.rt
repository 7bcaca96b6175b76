// An entry put into a table; a table cleared.
ghost use Rattle.std.specs.Prelude.{◌≡◌, ℕ, ◌+◌, ◌≤◌, List, length, replicate};
ghost use Rattle.std.proofs.Math.Option.{none};
ghost use Rattle.std.proofs.Math.Seq.{paste};
ghost use Rattle.table.specs.Said.{said_at};
ghost use Rattle.table.specs.Answers.{Put};

use crate::looking::fits;

// Writes words over those from here on.
pub fn write(table: &mut [u64], at: usize, words: &[u64])
    requires { at + length words.now ≤ length table.old }
    ensures { table.new ≡ paste table.old at words.now (length words.now) }
{
    table[at..at + words.len()].copy_from_slice(words);
}

// Puts a key and what is known of it into the slot that begins here; a table that ends before the slot stays as it is.
pub fn put(table: &mut [u64], at: usize, key: &[u64], entry: &[u64])
    ensures { Put at key.now entry.now table.old table.new }
{
    if !fits(table.len(), at, key.len(), entry.len()) {
        return;
    }
    write(table, at, key);
    write(table, at + key.len(), entry);
}

// Zeros in every word: then the table says nothing of any key.
pub fn clear(table: &mut [u64])
    ensures zeros { table.new ≡ replicate (length table.old) 0 }
    ensures nothing { (at width : ℕ) (k : List ℕ) → said_at at width table.new k ≡ none }
{
    table.fill(0);
}
