// R2: the word of a thread's reads behind a step.
ghost use Rattle.std.specs.Prelude.{◌≡◌};
ghost use Rattle.theory_sc.specs.ThreadWords.{lone};
ghost use Rattle.theory_sc.specs.ReadWords.{word_behind};

// The words of threads that can have no twin any more begin at 2^60: the word of twelve reads, five bits each, is smaller.
const NO_TWIN: u64 = 0x1000_0000_0000_0000;

// From 2^55 on a word has no room for another read: with five bits more it would not stay below 2^60.
const FULL_WORD: u64 = 0x80_0000_0000_0000;

// The word of thread t when it can have no twin any more.
fn lone(t: u8) -> u64
    ensures { result ≡ lone t }
{
    NO_TWIN + (t as u64)
}

// Thread t's word behind an access that found this stamp, and wrote or not.
pub(crate) fn word_behind(t: u8, word: u64, stamp: u8, wrote: bool) -> u64
    ensures { result ≡ word_behind t word stamp wrote }
{
    if wrote || FULL_WORD <= word {
        return lone(t);
    }
    word * 32 + ((stamp as u64) + 1)
}
