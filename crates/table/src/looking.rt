// What a table says of a key.
ghost use Rattle.std.specs.Prelude.{◌≡◌, ◌+◌, ◌≤◌, length, nat_eq, nat_le};
ghost use Rattle.spec_file.specs.Lists.{same_list};
ghost use Rattle.table.specs.Said.{part, said_at};
ghost use Rattle.table.specs.Answers.{read, Within};

// Whether a slot that begins here, with a key and an entry so wide, ends within so many words.
pub(crate) fn fits(words: usize, at: usize, key: usize, width: usize) -> bool
    ensures { result ≡ nat_le (at + (key + width)) words }
{
    at <= words && key <= words - at && width <= words - at - key
}

// Whether the words from here on are the key's.
fn holds(table: &[u64], at: usize, key: &[u64]) -> bool
    requires { at + length key.now ≤ length table.now }
    ensures { result ≡ same_list nat_eq (part table.now at (length key.now)) key.now }
{
    &table[at..at + key.len()] == key
}

// What the slot that begins here says of a key: where its entry of so many words begins, or nothing.
pub fn look(table: &[u64], at: usize, width: usize, key: &[u64]) -> Option<usize>
    ensures { (read table.now width result ≡ said_at at width table.now key.now)
        × Within result width table.now }
{
    if key.is_empty()
        || key[0] == 0
        || !fits(table.len(), at, key.len(), width)
        || !holds(table, at, key)
    {
        return None;
    }
    Some(at + key.len())
}
