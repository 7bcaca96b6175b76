// How many accesses the threads of a program have, counted in its rows.
ghost use Rattle.std.specs.Prelude.{◌≡◌, ℕ, ◌*◌, ◌<◌, ◌≤◌, slice_index};
ghost use Rattle.spec_file.specs.WellFormed.{accesses};
ghost use Rattle.file_rows.specs.Rows.{thread_code};
ghost use Rattle.machine_access.specs.Counted.{accesses_below};

use file_rows::Code;
use machine_local::is_access;

// The accesses of thread t, of n instructions.
fn accesses_in(code: &Code, t: usize, n: usize) -> usize
    requires { (t < 6) × (n ≤ 16) }
    ensures count { result ≡ accesses (thread_code code.now t n) }
    ensures few { result ≤ 16 }
{
    let mut count = 0;
    for i in 0..n {
        if is_access(code, t * 16 + i) {
            count += 1;
        }
    }
    count
}

// The accesses of the first n threads.
pub fn accesses_below(code: &Code, lengths: &[usize; 6], n: usize) -> usize
    requires { (n ≤ 6) × ((t : ℕ) → t < n → slice_index lengths.now t ≤ 16) }
    ensures count { result ≡ accesses_below code.now lengths.now n }
    ensures few { result ≤ n * 16 }
{
    let mut count = 0;
    for t in 0..n {
        count += accesses_in(code, t, lengths[t]);
    }
    count
}
