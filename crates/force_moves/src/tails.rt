// Where the assertions of each thread end: behind its last one no instruction of a thread can fail.
ghost use Rattle.std.specs.Prelude.{◌≡◌, true, ℕ, ◌<◌, ◌≤◌, length, get_or, drop};
ghost use Rattle.spec_file.specs.Program.{Program};
ghost use Rattle.spec_file.specs.WellFormed.{Everywhere};
ghost use Rattle.file_rows.specs.Rows.{instruction_at, thread_code};
ghost use Rattle.machine.specs.Held.{thread_at, Loaded};
ghost use Rattle.spec_force.proofs.Silent.{Harmless};
ghost use Rattle.force_moves.specs.Standing.{Tails};

use file_decoder::Compiled;
use file_rows::Code;
use machine::Machine;

// Whether the instruction in this row is an access, or one that a thread does by itself and that is no assertion.
fn is_harmless(code: &Code, row: usize) -> bool
    requires { row < 96 }
    ensures { result ≡ true → Harmless (instruction_at code.now row) }
{
    match code[row * 16] {
        0x10..=0x13 => true,
        0x20..=0x22 => true,
        0x24 => true,
        _ => false,
    }
}

// The number of the instruction behind the last of thread t's n that could fail.
fn tail(code: &Code, t: usize, n: usize) -> usize
    requires { (t < 6) × (n ≤ 16) }
    ensures { (i : ℕ) → result ≤ i → Everywhere Harmless (drop i (thread_code code.now t n)) }
{
    for k in (0..n).rev() {
        if !is_harmless(code, t * 16 + k) {
            return k + 1;
        }
    }
    0
}

// For each thread the number of the instruction behind its last one that could fail; 0 for a thread that does not exist.
pub fn tails_of(program: &Compiled) -> [usize; 6]
    requires { (p : Program) × Loaded program.now.code program.now.lengths program.now.threads p }
    ensures { Tails program.now.code program.now.lengths program.now.threads result }
{
    let mut all = [0usize; 6];
    for t in 0..program.threads {
        all[t] = tail(&program.code, t, program.lengths[t]);
    }
    all
}

// Whether each thread stands behind its last assertion.
pub fn is_silent(tails: &[usize; 6], m: Machine) -> bool
    ensures { result ≡ true → (t : ℕ) → t < 6 → get_or tails.now t 0 ≤ (thread_at m t).at }
{
    (0..6).all(|t| tails[t] <= m.threads[t].at)
}
