// The classes of the threads: for each the number of its `02` line, from 1, and 0 for none.
ghost use Rattle.std.specs.Prelude.{◌≡◌, ℕ, ◌<◌, ◌≤◌, get_or};
ghost use Rattle.search_place.specs.ClassGroups.{groups_of};

// The classes without those that name no group.
pub fn known_lines(class: [usize; 6], groups: usize) -> [usize; 6]
    ensures { ((t : ℕ) → t < 6 → get_or result t 0 ≤ groups) × (groups_of result groups ≡ groups_of class groups) }
{
    let mut known = class;
    for t in 0..6 {
        if groups < known[t] {
            known[t] = 0;
        }
    }
    known
}
