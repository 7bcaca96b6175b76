// How many words the keys of a program have: two for threads and nearness, and the values by two, which are memory's eight and those of live registers.
ghost use Rattle.std.specs.Prelude.{◌≡◌, List, ℕ, ◌+◌, ◌*◌, ◌<◌, ◌≤◌, length, get_or, count_by};
ghost use Rattle.std.specs.List.{range_with_len};
ghost use Rattle.spec_file.specs.Program.{Program};
ghost use Rattle.spec_schedules.specs.Lists.{range, filter};
ghost use Rattle.spec_schedules.specs.Sets.{has};
ghost use Rattle.machine.specs.Held.{Loaded};
ghost use Rattle.spec_sc.specs.State.{State};
ghost use Rattle.theory_sc_key.specs.Key.{live_at, Wide};
ghost use Rattle.states_live.specs.Live.{Live, Stands};

use search_place::is_in;

// How many of the four registers are in the set.
fn members(set: u8) -> usize
    ensures { result ≡ count_by (has set) (range_with_len 0 4) }
{
    (0..4u8).filter(|r| is_in(set, *r)).count()
}

// The most that are in the set of one of thread t's rows.
fn most_live(masks: &[u8; 96], t: usize) -> usize
    requires { t < 6 }
    ensures { (result ≤ 4) × ((i : ℕ) → i < 16 → length (filter (has (get_or masks.now (t * 16 + i) 0)) (range 0 4)) ≤ result) }
{
    let mut most = 0;
    for i in 0..16 {
        most = most.max(members(masks[t * 16 + i]));
    }
    most
}

// The most registers that are live in a state of the program with these live registers, whose threads stand somewhere in their code.
pub fn most_registers(masks: &[u8; 96]) -> usize
    ensures { (result ≤ 24) × ((code lengths : List ℕ) (threads : ℕ) (p : Program) → Loaded code lengths threads p
        → Live code lengths masks.now → (σ : State) → Stands p σ → length (filter (live_at σ) (range 0 24)) ≤ result) }
{
    let mut sum = 0;
    for t in 0..6 {
        sum += most_live(masks, t);
    }
    sum
}

// A number of words that the key of every position of the program with these live registers fits.
pub fn width(masks: &[u8; 96]) -> usize
    ensures { (result ≤ 18) × ((code lengths : List ℕ) (threads : ℕ) (p : Program) → Loaded code lengths threads p
        → Live code lengths masks.now → Wide result p) }
{
    2 + (9 + most_registers(masks)) / 2
}
