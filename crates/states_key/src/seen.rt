// The key of a state alone: a number in front, what is left of each thread, and the values that matter.
ghost use Rattle.std.specs.Prelude.{◌≡◌, List, [], ℕ, ◌<◌, ◌≤◌, length, get_or, take};
ghost use Rattle.spec_sc.specs.State.{State};
ghost use Rattle.machine.specs.Held.{thread_at, Holds};
ghost use Rattle.theory_sc_key.specs.Key.{seen_with, words_of, padded};
ghost use Rattle.states_live.specs.Live.{Live};

use crate::keys::{first_word, packed};
use crate::values::values_of;
use machine::Machine;

// Its first so many words, whatever number of words it fits.
pub fn seen_key(lengths: &[usize; 6], masks: &[u8; 96], front: u8, m: Machine) -> [u64; 18]
    requires { (front < 64) × ((t : ℕ) → t < 6 → (thread_at m t).at < get_or lengths.now t 0 → get_or lengths.now t 0 ≤ 16) }
    ensures { (code : List ℕ) (n : ℕ) (σ : State) → Holds code lengths.now m σ
        → Live code lengths.now masks.now → length (words_of (seen_with front [] σ)) ≤ n → n ≤ 18
        → take n result ≡ padded n (words_of (seen_with front [] σ)) }
{
    let first = first_word(lengths, m.threads, front);
    packed(first, 0, values_of(lengths, masks, m.threads, m.memory))
}
