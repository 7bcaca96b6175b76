// The words of a key: sets, lengths, where pending stores go, what they write, and the values that matter.
ghost use Rattle.std.specs.Prelude.{◌≡◌, List, ◌∷◌, ◌++◌, ℕ, ◌+◌, ◌-◌, ◌*◌, ◌^◌, ◌<◌, ◌≤◌, length, get_or, take};
ghost use Rattle.spec_file.specs.Program.{Program};
ghost use Rattle.spec_schedules.specs.Order.{Schedule};
ghost use Rattle.spec_tso.specs.State.{without_queues};
ghost use Rattle.spec_tso.specs.Graph.{end_of};
ghost use Rattle.machine.specs.Held.{idle};
ghost use Rattle.theory_sc_key.specs.Key.{pairs, padded, values_of};
ghost use Rattle.theory_tso_key.specs.Key.{key_of};
ghost use Rattle.theory_tso_key.specs.Words.{number, words_of, word_key};
ghost use Rattle.tso_key.specs.Stands.{Stands};
ghost use Rattle.states_key.specs.Gathered.{left_at};
ghost use Rattle.states_live.specs.Live.{Live};
ghost use Rattle.tso_key.specs.Carried.{pending_at};

use crate::nearness::near_word;
use crate::spot::Spot;
use crate::waiting::{Waiting, waiting_of};
use machine_access::ThreadState;
use states_key::{left, pair, values_of};
use tso_order::Sets;

// The first word: its highest bit, and six bits for each set.
fn sets_word(sets: Sets, near: u64) -> u64
    requires { near < 0x8000000000 }
    ensures { result ≡ 2 ^ 63 + (((near * 64 + sets.far) * 64 + sets.overdue) * 64 + sets.late) }
{
    let far = near * 64 + (sets.far as u64);
    let overdue = far * 64 + (sets.overdue as u64);
    0x8000_0000_0000_0000 + (overdue * 64 + (sets.late as u64))
}

// What is left to each thread, five bits each.
fn lefts_word(lengths: &[usize; 6], threads: &[ThreadState; 6]) -> u64
    requires { (t : ℕ) → t < 6 → (get_or threads.now t idle).at < get_or lengths.now t 0 → get_or lengths.now t 0 ≤ 16 }
    ensures { (result ≡ number 32 (left_at lengths.now threads.now)) × (result < 0x40000000) }
{
    let mut word = 0u64;
    for t in (0..6).rev() {
        word = word * 32 + left(threads[t].at, lengths[t]);
    }
    word
}

// Behind such a word, five bits for what is pending in each queue.
fn with_pending(lefts: u64, heads: &[u8; 6], tails: &[u8; 6]) -> u64
    requires { (lefts < 0x40000000) × ((t : ℕ) → t < 6 → (get_or heads.now t 0 ≤ get_or tails.now t 0) × (get_or tails.now t 0 ≤ 16)) }
    ensures { (l : List ℕ) → lefts ≡ number 32 l → result ≡ number 32 (pending_at heads.now tails.now ++ l) }
{
    let mut word = lefts;
    for t in (0..6).rev() {
        word = word * 32 + ((tails[t] - heads[t]) as u64);
    }
    word
}

// Stores values by two in so many words from `at` on.
fn put_pairs(words: &mut [u64; 27], at: usize, values: &[u32], n: usize)
    requires { (at + n ≤ 27) × (n + n ≤ length values.now) }
    ensures { (l : List ℕ) → length l ≡ at → words.old ≡ padded 27 l
        → words.new ≡ padded 27 (l ++ pairs (take (n + n) values.now)) }
{
    for i in 0..n {
        words[at + i] = pair(values[i * 2], values[i * 2 + 1]);
    }
}

// Three words, then pending values and the values that matter, each by two.
fn joined(first: u64, second: u64, w: Waiting, values: [u32; 32]) -> [u64; 27]
    requires { w.count ≤ 16 }
    ensures { (s l : List ℕ) → w.values ≡ padded 16 s → length s ≡ w.count → values ≡ padded 32 l → length l ≤ 32
        → result ≡ padded 27 (first ∷ second ∷ w.places ∷ (pairs s ++ pairs l)) }
{
    let mut words = [0u64; 27];
    words[0] = first;
    words[1] = second;
    words[2] = w.places;
    put_pairs(&mut words, 3, &w.values, 8);
    put_pairs(&mut words, 3 + (w.count + 1) / 2, &values, 16);
    words
}

// The words of the position that this spot is, where these are the values that matter.
fn words_of(lengths: &[usize; 6], class: &[usize; 6], x: &Spot, values: [u32; 32]) -> [u64; 27]
    requires { (code : List ℕ) × (threads : ℕ) × (groups : ℕ) × (p : Program) × (v : Schedule)
        × Stands code lengths.now class.now threads groups x.now p v }
    ensures { (code : List ℕ) (threads groups n : ℕ) (p : Program) (v : Schedule)
        → Stands code lengths.now class.now threads groups x.now p v → values ≡ padded 32 (values_of (without_queues (end_of p v)))
        → length (words_of (key_of p v (end_of p v))) ≤ n → n ≤ 27 → take n result ≡ word_key n p v (end_of p v) }
{
    let p = &x.place;
    let near = near_word(class, &p.last, &p.words, &x.ways);
    let lefts = lefts_word(lengths, &p.threads);
    joined(
        sets_word(p.sets, near),
        with_pending(lefts, &p.heads, &p.tails),
        waiting_of(&p.slots, &p.heads, &p.tails),
        values,
    )
}

// The key of the position that this spot is: its first so many words, whatever number of words it fits.
pub fn key(lengths: &[usize; 6], class: &[usize; 6], masks: &[u8; 96], x: &Spot) -> [u64; 27]
    requires { (code : List ℕ) × (threads : ℕ) × (groups : ℕ) × (p : Program) × (v : Schedule)
        × Stands code lengths.now class.now threads groups x.now p v }
    ensures { (code : List ℕ) (threads groups n : ℕ) (p : Program) (v : Schedule)
        → Stands code lengths.now class.now threads groups x.now p v → Live code lengths.now masks.now
        → length (words_of (key_of p v (end_of p v))) ≤ n → n ≤ 27 → take n result ≡ word_key n p v (end_of p v) }
{
    let values = values_of(lengths, masks, x.place.threads, x.place.memory);
    words_of(lengths, class, x, values)
}
