// The key of a position with whether something failed.
ghost use Rattle.std.specs.Prelude.{◌≡◌, cond, List, ℕ, ◌+◌, ◌*◌, ◌%◌, ◌^◌, ◌≤◌, length, take};
ghost use Rattle.spec_file.specs.Program.{Program};
ghost use Rattle.spec_schedules.specs.Order.{Schedule};
ghost use Rattle.spec_sc.specs.State.{fails};
ghost use Rattle.spec_sc.specs.Graph.{end_of};
ghost use Rattle.theory_sc_key.specs.Key.{key_of, words_of};
ghost use Rattle.theory_outcomes.specs.Passing.{outcome_key};
ghost use Rattle.states_live.specs.Live.{Live};
ghost use Rattle.states_key.specs.Stands.{Stands};

use states_key::{Spot, key};

// The first word of a key, with the second highest bit set where something failed.
pub fn flag(word: u64, failed: bool) -> u64
    ensures { result ≡ cond failed (word % 2 ^ 62 + 3 * 2 ^ 62) word }
{
    if failed {
        word % 0x4000_0000_0000_0000 + 0xc000_0000_0000_0000
    } else {
        word
    }
}

// The key of the position that this spot is, where something has failed or not.
pub(crate) fn outcome_key(
    lengths: &[usize; 6],
    class: &[usize; 6],
    masks: &[u8; 96],
    x: &Spot,
    failed: bool,
) -> [u64; 18]
    requires { (code : List ℕ) × (threads : ℕ) × (groups : ℕ) × (p : Program) × (v : Schedule)
        × Stands code lengths.now class.now threads groups x.now p v }
    ensures { (code : List ℕ) (threads groups n : ℕ) (p : Program) (v : Schedule)
        → Stands code lengths.now class.now threads groups x.now p v → Live code lengths.now masks.now
        → length (words_of (key_of p v (end_of p v))) ≤ n → n ≤ 18 → failed ≡ fails (end_of p v) → take n result ≡ outcome_key n p v (end_of p v) }
{
    let mut k = key(lengths, class, masks, x);
    k[0] = flag(k[0], failed);
    k
}
