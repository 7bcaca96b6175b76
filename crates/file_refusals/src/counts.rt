// What has been read of a file so far, as counts: what the checks of a further line go by, beside the code itself.
ghost use Rattle.std.specs.Prelude.{◌≡◌, ◌&&◌, eqb, ltb, get_or};
ghost use Rattle.file_refusals.specs.Held.{nothing};

// What the `03` lines say: the value of each location, and whether one gave it.
#[derive(Clone, Copy)]
pub struct Starting {
    pub values: [u32; 8],
    pub given: [bool; 8],
}

#[derive(Clone, Copy)]
pub struct Counts {
    pub threads: usize,
    // How many instructions each thread has.
    pub lengths: [usize; 6],
    // How many accesses all threads have.
    pub accesses: usize,
    pub groups: usize,
    // The group of each thread, from 1; 0: in none.
    pub class: [usize; 6],
    pub starting: Starting,
}

// The counts before the first line.
pub fn none_yet() -> Counts
    ensures { result ≡ nothing }
{
    Counts {
        threads: 0,
        lengths: [0usize; 6],
        accesses: 0,
        groups: 0,
        class: [0usize; 6],
        starting: Starting {
            values: [0u32; 8],
            given: [false; 8],
        },
    }
}

// Whether thread t exists and stands in no group.
pub(crate) fn is_free(s: Counts, t: usize) -> bool
    ensures { result ≡ (ltb t s.threads && (ltb t 6 && eqb (get_or s.class t 0) 0)) }
{
    t < s.threads && t < 6 && s.class[t] == 0
}
