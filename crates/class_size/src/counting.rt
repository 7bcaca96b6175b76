// Permutations of six, counted by where each number may go.
ghost use Rattle.std.specs.Prelude.{◌≡◌, map, ℕ, ◌<◌, ◌≤◌, length, get_or};
ghost use Rattle.spec_schedules.specs.Lists.{filter};
ghost use Rattle.spec_schedules.specs.Permutations.{permutations};
ghost use Rattle.spec_schedules.specs.Permutations as Six;
ghost use Rattle.class_size.specs.Moves.{goes_by};

use crate::by_number::unpacked;
use file_lines::wide;

// Whether each of the six goes where it may.
fn goes(may: [bool; 36], row: [u8; 6]) -> bool
    requires { (t : ℕ) → t < 6 → get_or row t 0 < 6 }
    ensures { result ≡ goes_by may row }
{
    (0..6).all(|t| may[t * 6 + wide(row[t])])
}

// In how many permutations of the table each thread goes where it may.
pub(crate) fn count(may: [bool; 36], table: &[u32; 720]) -> usize
    requires { map Six.unpacked table.now ≡ permutations }
    ensures { (result ≤ 720) × (result ≡ length (filter (goes_by may) permutations)) }
{
    // A loop, not `filter` and `count`: their closure would need `goes`'s clause of every row, and only those of the table have it.
    let mut n = 0;
    for row in table {
        if goes(may, unpacked(*row)) {
            n += 1;
        }
    }
    n
}
