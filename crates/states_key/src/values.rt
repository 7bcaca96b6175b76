// The values of a key: those of live registers, thread by thread, and memory's eight.
ghost use Rattle.std.specs.Prelude.{◌≡◌, cond, List, ◌++◌, ℕ, ◌+◌, ◌<◌, ◌≤◌, length, get_or, set};
ghost use Rattle.machine.specs.Held.{idle};
ghost use Rattle.theory_sc.specs.Sets.{addend};
ghost use Rattle.theory_sc_key.specs.Key.{padded};
ghost use Rattle.states_key.specs.Gathered.{chosen, gathered};

use file_lines::choose;
use machine_access::ThreadState;
use search_place::is_in;

// Stores a value at n where it is wanted, else 0; gives back where the next one goes.
fn put(values: &mut [u32; 32], n: usize, b: bool, v: u32) -> usize
    requires { n < 32 }
    ensures next { (result ≡ n + addend b 1) × (result ≤ n + 1) }
    ensures stored { values.new ≡ set values.old n (cond b v 0) }
{
    values[n] = choose(b, v, 0);
    n + usize::from(b)
}

// Stores the registers in the set from n on; gives back where the next value goes.
fn put_chosen(values: &mut [u32; 32], n: usize, mask: u8, registers: [u32; 4]) -> usize
    requires { n + 4 ≤ 32 }
    ensures next { result ≤ n + 4 }
    ensures stored { (l : List ℕ) → length l ≡ n → values.old ≡ padded 32 l
        → (length (l ++ chosen mask registers) ≡ result) × (values.new ≡ padded 32 (l ++ chosen mask registers)) }
{
    let a = put(values, n, is_in(mask, 0), registers[0]);
    let b = put(values, a, is_in(mask, 1), registers[1]);
    let c = put(values, b, is_in(mask, 2), registers[2]);
    put(values, c, is_in(mask, 3), registers[3])
}

// Stores the eight values of memory from n on.
fn put_memory(values: &mut [u32; 32], n: usize, memory: [u32; 8])
    requires { n + 8 ≤ 32 }
    ensures { (l : List ℕ) → length l ≡ n → values.old ≡ padded 32 l
        → values.new ≡ padded 32 (l ++ memory) }
{
    values[n..n + 8].copy_from_slice(&memory);
}

// All of them, with zeros behind.
pub fn values_of(
    lengths: &[usize; 6],
    masks: &[u8; 96],
    threads: [ThreadState; 6],
    memory: [u32; 8],
) -> [u32; 32]
    requires { (t : ℕ) → t < 6 → (get_or threads t idle).at < get_or lengths.now t 0 → get_or lengths.now t 0 ≤ 16 }
    ensures { result ≡ padded 32 (gathered lengths.now masks.now threads 6 ++ memory) }
{
    let mut values = [0u32; 32];
    let mut n = 0;
    for t in 0..6 {
        let k = threads[t];
        if k.at < lengths[t] {
            n = put_chosen(&mut values, n, masks[t * 16 + k.at], k.registers);
        }
    }
    put_memory(&mut values, n, memory);
    values
}
