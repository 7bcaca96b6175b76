// What a search is asked for, and how far it is.
ghost use Rattle.std.specs.Prelude.{◌≡◌, not, ◌||◌};

// Only schedules that fail, or all; whether the steps taken are the bound's own; room for so many rows, of which so many are written.
#[derive(Clone, Copy)]
pub struct Aim {
    pub failures: bool,
    pub tight: bool,
    pub room: usize,
    pub rows: usize,
}

// Whether a schedule that fails or not is looked for.
pub fn is_meant(failures: bool, f: bool) -> bool
    ensures { result ≡ (not failures || f) }
{
    !failures || f
}
