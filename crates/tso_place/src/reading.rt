// R2: the word of a thread's accesses behind a step.
ghost use Rattle.std.specs.Prelude.{◌≡◌, cond, ◌≤◌};
ghost use Rattle.machine.specs.Held.{event_of};
ghost use Rattle.theory_sc.specs.ThreadWords.{lone};
ghost use Rattle.theory_tso.specs.ReadWords.{source_digit, word_behind};

use machine::LastWrite;

// The words of threads that can have no twin any more begin at 2^60: the word of eight accesses, seven bits each, is smaller.
const NO_TWIN: u64 = 0x1000_0000_0000_0000;

// From 2^49 on a word has no room for another access: with seven bits more it would not stay below 2^56.
const FULL_WORD: u64 = 0x2_0000_0000_0000;

// The word of thread t when it can have no twin any more.
fn lone(t: u8) -> u64
    ensures { result ≡ lone t }
{
    NO_TWIN + (t as u64)
}

// An access of thread t, which reads this write or nothing.
pub fn digit(t: u8, reads: bool, e: LastWrite) -> u64
    ensures { (result ≡ cond reads (source_digit t (event_of e)) 1) × (result ≤ 400) }
{
    let n = e.number as u64;
    if !reads {
        1
    } else if e.thread == t {
        n + 3
    } else if e.thread < 6 {
        (e.thread as u64) * 16 + n + 19
    } else {
        2
    }
}

// Thread t's word behind a step that put, or behind an access with this digit that did not.
pub(crate) fn word_behind(t: u8, word: u64, d: u64, puts: bool) -> u64
    requires { d ≤ 400 }
    ensures { result ≡ word_behind t word d puts }
{
    if !puts && word < FULL_WORD {
        word * 128 + d
    } else {
        lone(t)
    }
}
