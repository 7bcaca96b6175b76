// What may be asked of a machine: whether a thread may step, whether all have ended, whether an assertion failed.
ghost use Rattle.std.specs.Prelude.{◌≡◌};
ghost use Rattle.machine.specs.Asked.{enabled_by, ended_by, some_failed, fails_by};

use crate::state::Machine;
use file_lines::wide;
use machine_access::ThreadState;

// Whether t names a thread that has not ended.
pub fn enabled(lengths: &[usize; 6], m: Machine, t: u8) -> bool
    ensures { result ≡ enabled_by lengths.now m t }
{
    let u = wide(t);
    u < 6 && m.threads[u].at < lengths[u]
}

// Whether no thread may step any more.
pub fn ended_all(lengths: &[usize; 6], m: Machine) -> bool
    ensures { result ≡ ended_by lengths.now m }
{
    (0u8..6).all(|t| !enabled(lengths, m, t))
}

// Whether an assertion of one of these threads failed.
pub fn some_failed(threads: [ThreadState; 6]) -> bool
    ensures { result ≡ some_failed threads }
{
    threads.iter().any(|k| k.failed)
}

// Whether an assertion of the machine's threads failed.
pub fn fails(m: Machine) -> bool
    ensures { result ≡ fails_by m }
{
    let threads = m.threads;
    some_failed(threads)
}
