// The words of a key: threads and late set, nearness, and the values by two.
ghost use Rattle.std.specs.Prelude.{◌≡◌, List, ◌∷◌, ℕ, ◌+◌, ◌-◌, ◌*◌, ◌^◌, ◌<◌, ◌≤◌, length, get_or, take};
ghost use Rattle.spec_file.specs.Program.{Program};
ghost use Rattle.spec_schedules.specs.Order.{Schedule};
ghost use Rattle.spec_sc.specs.Graph.{end_of};
ghost use Rattle.machine.specs.Held.{idle};
ghost use Rattle.theory_sc.specs.ThreadWords.{digits};
ghost use Rattle.theory_sc_key.specs.Key.{pairs, key_of, words_of, word_key};
ghost use Rattle.states_live.specs.Live.{Live};
ghost use Rattle.states_key.specs.Stands.{Stands};
ghost use Rattle.states_key.specs.Gathered.{left_at};

use crate::nearness::near_word;
use crate::spot::Spot;
use crate::values::values_of;
use machine_access::ThreadState;

// How many of n instructions are left to a thread that stands at one of them or behind.
pub fn left(at: usize, n: usize) -> u64
    requires { at < n → n ≤ 16 }
    ensures { (result ≡ n - at) × (result ≤ 16) }
{
    n.saturating_sub(at) as u64
}

// The first word: its highest bit, and six bits each for the late set and what is left of each thread.
pub(crate) fn first_word(lengths: &[usize; 6], threads: [ThreadState; 6], late: u8) -> u64
    requires { (late < 64) × ((t : ℕ) → t < 6 → (get_or threads t idle).at < get_or lengths.now t 0 → get_or lengths.now t 0 ≤ 16) }
    ensures { result ≡ 2 ^ 63 + digits 64 (λ n. n) (late ∷ left_at lengths.now threads) }
{
    let mut word = 0u64;
    for t in (0..6).rev() {
        word = word * 64 + left(threads[t].at, lengths[t]);
    }
    0x8000_0000_0000_0000 + (word * 64 + late as u64)
}

// Two values as one word.
pub fn pair(a: u32, b: u32) -> u64
    ensures { result ≡ a + 2 ^ 32 * b }
{
    u64::from(a) + 0x1_0000_0000 * u64::from(b)
}

// Two words, and the values by two.
pub(crate) fn packed(first: u64, second: u64, values: [u32; 32]) -> [u64; 18]
    ensures { result ≡ first ∷ second ∷ pairs values }
{
    let mut words = [0u64; 18];
    words[0] = first;
    words[1] = second;
    for i in 0..16 {
        words[i + 2] = pair(values[i * 2], values[i * 2 + 1]);
    }
    words
}

// The key of the position that this spot is: its first so many words, whatever number of words it fits.
pub fn key(lengths: &[usize; 6], class: &[usize; 6], masks: &[u8; 96], x: &Spot) -> [u64; 18]
    requires { (code : List ℕ) × (threads : ℕ) × (groups : ℕ) × (p : Program) × (v : Schedule)
        × Stands code lengths.now class.now threads groups x.now p v }
    ensures { (code : List ℕ) (threads groups n : ℕ) (p : Program) (v : Schedule)
        → Stands code lengths.now class.now threads groups x.now p v → Live code lengths.now masks.now
        → length (words_of (key_of p v (end_of p v))) ≤ n → n ≤ 18 → take n result ≡ word_key n p v (end_of p v) }
{
    let first = first_word(lengths, x.place.threads, x.place.late);
    let second = near_word(class, x);
    packed(
        first,
        second,
        values_of(lengths, masks, x.place.threads, x.place.memory),
    )
}
