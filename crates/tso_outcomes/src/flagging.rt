// The key of a position with whether something failed.
ghost use Rattle.std.specs.Prelude.{◌≡◌, List, ℕ, ◌≤◌, length, take};
ghost use Rattle.spec_file.specs.Program.{Program};
ghost use Rattle.spec_schedules.specs.Order.{Schedule};
ghost use Rattle.spec_tso.specs.State.{fails};
ghost use Rattle.spec_tso.specs.Graph.{end_of};
ghost use Rattle.theory_tso_key.specs.Key.{key_of};
ghost use Rattle.theory_tso_key.specs.Words.{words_of};
ghost use Rattle.theory_tso_outcomes.specs.Passing.{outcome_key};
ghost use Rattle.states_live.specs.Live.{Live};
ghost use Rattle.tso_key.specs.Stands.{Stands};

use states_outcomes::flag;
use tso_key::{Spot, key};

// The key of the position that this spot is, where something has failed or not.
pub(crate) fn outcome_key(
    lengths: &[usize; 6],
    class: &[usize; 6],
    masks: &[u8; 96],
    x: &Spot,
    failed: bool,
) -> [u64; 27]
    requires { (code : List ℕ) × (threads : ℕ) × (groups : ℕ) × (p : Program) × (v : Schedule)
        × Stands code lengths.now class.now threads groups x.now p v }
    ensures { (code : List ℕ) (threads groups n : ℕ) (p : Program) (v : Schedule)
        → Stands code lengths.now class.now threads groups x.now p v → Live code lengths.now masks.now
        → length (words_of (key_of p v (end_of p v))) ≤ n → n ≤ 27 → failed ≡ fails (end_of p v) → take n result ≡ outcome_key n p v (end_of p v) }
{
    let mut k = key(lengths, class, masks, x);
    k[0] = flag(k[0], failed);
    k
}
