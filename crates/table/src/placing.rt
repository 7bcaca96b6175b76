// Where a key's slot begins: its words, mixed by multiplication, choose one of the slots.
ghost use Rattle.std.specs.Prelude.{◌≡◌, ◌+◌, ◌*◌, ◌%◌, ◌^◌, ◌<◌, ◌≤◌};
ghost use Rattle.table.specs.Places.{mixed, hash_from, slot_of, place_of};

use std::num::wrapping_add_u64;

const HALF: u64 = 0x1_0000_0000;

// The halves of the factor 2^64 / φ.
const HIGH: u64 = 0x9e37_79b9;

const LOW: u64 = 0x7f4a_7c15;

// A number by that factor, modulo 2^64.
fn times(x: u64) -> u64
    ensures { result ≡ x * 0x9e3779b97f4a7c15 % 2 ^ 64 }
{
    let low = x % HALF;
    let high = x / HALF;
    let by_low = wrapping_add_u64(low * LOW, high * LOW % HALF * HALF);
    wrapping_add_u64(by_low, low * HIGH % HALF * HALF)
}

// One word more, mixed in.
fn mix(h: u64, w: u64) -> u64
    ensures { result ≡ mixed h w }
{
    times(wrapping_add_u64(wrapping_add_u64(h, h / HALF), w))
}

// All of a key's words, mixed.
fn hash(key: &[u64]) -> u64
    ensures { result ≡ hash_from 0 key.now }
{
    let mut h = 0;
    for w in key {
        h = mix(h, *w);
    }
    h
}

// The slot, of so many, that a hash chooses.
fn slot(slots: usize, h: u64) -> usize
    ensures { (result ≡ slot_of slots h) × (result < 2 ^ 32) }
{
    ((h / HALF) * ((slots as u64) % HALF) / HALF) as usize
}

// Where the slot of this key begins, in a table of so many slots whose entries have so many words behind the key.
pub fn place(slots: usize, width: usize, key: &[u64]) -> usize
    ensures { result ≡ place_of slots width key.now }
{
    if 4096 < key.len() || 4096 < width {
        return 0;
    }
    slot(slots, hash(key)) * (key.len() + width)
}

// How many slots, of keys and entries so wide, a table of so many words has room for.
pub fn slots(words: usize, key: usize, width: usize) -> usize
    ensures { (result * (key + width) ≤ words) × (result < 2 ^ 32) }
{
    if 4096 < key || 4096 < width || key + width == 0 {
        return 0;
    }
    (words / (key + width)).min(0xffff_ffff)
}
