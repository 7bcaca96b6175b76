// What is pending: how much in each queue, where it goes, and what it writes.
ghost use Rattle.std.specs.Prelude.{◌≡◌, List, ◌++◌, ℕ, ◌+◌, ◌-◌, ◌^◌, ◌<◌, ◌≤◌, length, get_or};
ghost use Rattle.tso_machine.specs.Slots.{no_store, queue_at};
ghost use Rattle.theory_sc_key.specs.Key.{padded};
ghost use Rattle.theory_tso_key.specs.Words.{join, locations, stored, appended};
ghost use Rattle.tso_key.specs.Carried.{queues_to};

use file_lines::wide;
use tso_machine::Pending;

// All pending stores: what they write, where they go, and how many they are.
#[derive(Clone, Copy)]
pub struct Waiting {
    pub values: [u32; 16],
    pub places: u64,
    pub count: usize,
}

// Where the stores of one more queue go, behind those of a word.
fn with_places(places: u64, slots: &[Pending; 16], head: usize, tail: usize, n: usize) -> u64
    requires { (head ≤ tail) × (tail ≤ 16) × (n + (tail - head) ≤ 16) × (places < 8 ^ n)
        × ((k : ℕ) → k < 16 → (get_or slots.now k no_store).location < 8) }
    ensures { (result ≡ appended 8 places (locations (queue_at slots.now head (tail - head)))) × (result < 8 ^ (n + (tail - head))) }
{
    let mut word = places;
    for i in head..tail {
        word = word * 8 + (slots[i].location as u64);
    }
    word
}

// Stores the values of one more queue from n on.
fn put_values(values: &mut [u32; 16], n: usize, slots: &[Pending; 16], head: usize, tail: usize)
    requires { (head ≤ tail) × (tail ≤ 16) × (n + (tail - head) ≤ 16) }
    ensures { (l : List ℕ) → length l ≡ n → values.old ≡ padded 16 l
        → values.new ≡ padded 16 (l ++ stored (queue_at slots.now head (tail - head))) }
{
    let mut at = n;
    for i in head..tail {
        values[at] = slots[i].value;
        at += 1;
    }
}

// Those of all six queues, of which at most sixteen are pending.
pub(crate) fn waiting_of(slots: &[Pending; 16], heads: &[u8; 6], tails: &[u8; 6]) -> Waiting
    requires { ((t : ℕ) → t < 6 → (get_or heads.now t 0 ≤ get_or tails.now t 0) × (get_or tails.now t 0 ≤ 16))
        × (length (join (queues_to slots.now heads.now tails.now 6)) ≤ 16)
        × ((k : ℕ) → k < 16 → (get_or slots.now k no_store).location < 8) }
    ensures { (result.values ≡ padded 16 (stored (join (queues_to slots.now heads.now tails.now 6))))
        × (result.places ≡ appended 8 0 (locations (join (queues_to slots.now heads.now tails.now 6))))
        × (result.count ≡ length (join (queues_to slots.now heads.now tails.now 6))) }
{
    let mut values = [0u32; 16];
    let mut places = 0u64;
    let mut n = 0;
    for t in 0..6 {
        let head = wide(heads[t]);
        let tail = wide(tails[t]);
        places = with_places(places, slots, head, tail, n);
        put_values(&mut values, n, slots, head, tail);
        n += tail - head;
    }
    Waiting {
        values,
        places,
        count: n,
    }
}
