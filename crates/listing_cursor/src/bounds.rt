// The bound of a search, step by step.
ghost use Rattle.std.specs.Prelude.{◌≡◌, ◌+◌};
ghost use Rattle.theory_search.specs.Search.{low, past};
ghost use Rattle.listing_cursor.specs.Bounds.{bound_at};

// The first byte to try behind k steps.
pub fn first_byte(bound: &[u8], tight: bool, k: usize) -> u8
    ensures { result ≡ low (bound_at tight bound.now k) }
{
    if tight && k < bound.len() {
        return bound[k];
    }
    0
}

// Whether the steps are still the bound's own when t is the next behind k.
pub fn stays_tight(bound: &[u8], tight: bool, k: usize, t: u8) -> bool
    ensures { bound_at result bound.now (k + 1) ≡ past (bound_at tight bound.now k) t }
{
    if tight && k < bound.len() {
        return bound[k] == t;
    }
    false
}
