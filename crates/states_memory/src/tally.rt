// How many are listed, and how many of these fail, added up modulo 2^64.
ghost use Rattle.std.specs.Prelude.{◌≡◌, ◌+◌, ◌%◌, ◌^◌, if◌then◌else◌};

#[derive(Clone, Copy)]
pub struct Tally {
    pub listed: u64,
    pub failing: u64,
}

// No schedule.
pub const NONE: Tally = Tally {
    listed: 0,
    failing: 0,
};

// One schedule, which does not fail.
pub const ONE: Tally = Tally {
    listed: 1,
    failing: 0,
};

// How many words a key has, how many slots the table, and behind how many steps no key is looked up any more.
#[derive(Clone, Copy)]
pub struct Shape {
    pub width: usize,
    pub slots: usize,
    pub deep: usize,
}

// Both together.
pub fn added(a: Tally, b: Tally) -> Tally
    ensures { (result.listed ≡ (a.listed + b.listed) % 2 ^ 64) × (result.failing ≡ (a.failing + b.failing) % 2 ^ 64) }
{
    Tally {
        listed: a.listed.wrapping_add(b.listed),
        failing: a.failing.wrapping_add(b.failing),
    }
}

// Behind a step that fails all fail.
pub fn charged(fails: bool, n: Tally) -> Tally
    ensures { (result.listed ≡ n.listed) × (result.failing ≡ (if fails then n.listed else n.failing)) }
{
    if fails {
        Tally {
            failing: n.listed,
            ..n
        }
    } else {
        n
    }
}
