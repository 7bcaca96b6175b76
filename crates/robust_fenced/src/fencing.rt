// Whether a fence stands between each store of a program and the next load. A thread's rows are gone through once: a store may be pending
// before a row, and skips that left with one pending may go over so many rows from here on.
ghost use Rattle.std.specs.Prelude.{◌≡◌, true, false, ◌+◌, ◌<◌, ◌≤◌};
ghost use Rattle.spec_file.specs.Program.{Program};
ghost use Rattle.file_rows.specs.Rows.{thread_code};
ghost use Rattle.machine.specs.Held.{Loaded};
ghost use Rattle.spec_fenced.specs.Fenced.{fenced, Fenced};

use file_decoder::Compiled;
use file_rows::{Code, skip_at};

// Whether a row with this first byte is a load behind a store that may be pending.
fn is_early(kind: u8, pending: bool) -> bool
    ensures { result ≡ false → kind ≡ 0x11 → pending ≡ false }
{
    pending && kind == 0x11
}

// Whether a store may be pending behind a row with this first byte: a fence clears what no skip carries over it.
fn pending_behind(kind: u8, pending: bool, over: usize) -> bool
    ensures stores { kind ≡ 0x10 → result ≡ true }
    ensures carried { pending ≡ true → 0 < over → result ≡ true }
    ensures kept { pending ≡ true → (kind ≡ 0x12 → ⊥) → (kind ≡ 0x13 → ⊥) → result ≡ true }
{
    match kind {
        0x10 => true,
        0x12 | 0x13 if over == 0 => false,
        _ => pending,
    }
}

// How many rows skips with a pending store may go over behind a row that may skip so many.
fn over_behind(pending: bool, over: usize, skip: usize) -> usize
    ensures before { over ≤ result + 1 }
    ensures skipping { pending ≡ true → skip ≤ result }
{
    let left = over.saturating_sub(1);
    if pending { left.max(skip) } else { left }
}

// Whether thread t, of n instructions, fences its stores.
fn is_fenced_thread(code: &Code, t: usize, n: usize) -> bool
    requires { (t < 6) × (n ≤ 16) }
    ensures { result ≡ true → fenced 0 false (thread_code code.now t n) ≡ true }
{
    let mut pending = false;
    let mut over = 0;
    for i in 0..n {
        let row = t * 16 + i;
        let kind = code[row * 16];
        if is_early(kind, pending) {
            return false;
        }
        let behind = pending_behind(kind, pending, over);
        over = over_behind(pending, over, skip_at(code, row));
        pending = behind;
    }
    true
}

// Whether every thread of the program fences its stores. A program of which this is not seen may be robust all the same.
pub fn is_fenced(program: &Compiled) -> bool
    requires { (p : Program) × Loaded program.now.code program.now.lengths program.now.threads p }
    ensures { (p : Program) → Loaded program.now.code program.now.lengths program.now.threads p → result ≡ true → Fenced p }
{
    for t in 0..program.threads {
        if !is_fenced_thread(&program.code, t, program.lengths[t]) {
            return false;
        }
    }
    true
}
