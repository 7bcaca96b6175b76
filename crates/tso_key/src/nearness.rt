// Who is near whom, by the words and ways that the search carries and the last writes of memory.
ghost use Rattle.std.specs.Prelude.{◌≡◌, ◌&&◌, List, [], ◌∷◌, ℕ, ◌<◌, ◌≤◌, ltb, get_or};
ghost use Rattle.spec_file.specs.Program.{Program};
ghost use Rattle.search_place.specs.ClassGroups.{Lined};
ghost use Rattle.theory_sc.specs.Sets.{set_of};
ghost use Rattle.theory_tso_key.specs.Ways.{again, becomes, near_by_word};
ghost use Rattle.theory_tso_key.specs.Words.{number};
ghost use Rattle.tso_key.specs.Carried.{IsNear, last_as, carried_near};

use file_lines::wide;
use machine::LastWrite;
use tso_order::six;
use tso_place::digit;

// The words of threads that can have no twin any more begin here.
const NO_TWIN: u64 = 0x1000_0000_0000_0000;

// Whether this is the digit of a read of an own pending store.
fn is_own(d: u64) -> bool
    ensures { result ≡ (ltb 2 d && ltb d 19) }
{
    2 < d && d < 19
}

// Whether an access with the digit d at a location would come again.
#[tactic(auto, unfolding(theory_tso_key::specs::Ways::again))]
fn comes_again(last: &[LastWrite; 8], d: u64, l: usize) -> bool
    requires { l < 8 }
    ensures { result ≡ again (last_as last.now) d l }
{
    d == 1 || is_own(d) || d == digit(6, true, last[l])
}

// Whether the word `from`, whose accesses went this way, becomes `word` by at most eight accesses taken back while each would come again.
fn is_led_back(last: &[LastWrite; 8], word: u64, from: u64, way: u32) -> bool
    ensures { result ≡ becomes (last_as last.now) 8 word from way }
{
    let mut y = from;
    let mut w = way;
    for _ in 0u8..8 {
        if y == word {
            return true;
        }
        if !comes_again(last, y % 128, (w % 8) as usize) {
            return false;
        }
        y /= 128;
        w /= 8;
    }
    y == word
}

// The same of two words that can still have twins.
#[tactic(auto, unfolding(theory_tso_key::specs::Ways::near_by_word))]
fn is_behind(last: &[LastWrite; 8], word: u64, from: u64, way: u32) -> bool
    ensures { result ≡ near_by_word (last_as last.now) word from way }
{
    word < NO_TWIN && from < NO_TWIN && is_led_back(last, word, from, way)
}

// Whether thread t is near u.
fn is_near(
    class: &[usize; 6],
    last: &[LastWrite; 8],
    words: &[u64; 6],
    ways: &[u32; 6],
    t: usize,
    u: usize,
) -> bool
    requires { (t < 6) × (u < 6) }
    ensures { IsNear class.now last.now words.now ways.now t u result }
{
    let g = class[t];
    if t == u || g == 0 || class[u] != g {
        return false;
    }
    is_behind(last, words[t], words[u], ways[u])
}

// The threads that thread t is near.
fn near_set(
    class: &[usize; 6],
    last: &[LastWrite; 8],
    words: &[u64; 6],
    ways: &[u32; 6],
    t: usize,
) -> u8
    requires { t < 6 }
    ensures { (groups : ℕ) (p : Program) → Lined class.now groups p
        → result ≡ set_of (carried_near p last.now words.now ways.now t) 6 }
{
    if class[t] == 0 {
        return 0;
    }
    six(|u| is_near(class, last, words, ways, t, wide(u)))
}

// The sets of all six, six bits each, the first lowest.
pub(crate) fn near_word(
    class: &[usize; 6],
    last: &[LastWrite; 8],
    words: &[u64; 6],
    ways: &[u32; 6],
) -> u64
    ensures { (result < 0x8000000000) × ((groups : ℕ) (p : Program) → Lined class.now groups p
        → result ≡ number 64 (set_of (carried_near p last.now words.now ways.now 0) 6
        ∷ set_of (carried_near p last.now words.now ways.now 1) 6
        ∷ set_of (carried_near p last.now words.now ways.now 2) 6
        ∷ set_of (carried_near p last.now words.now ways.now 3) 6
        ∷ set_of (carried_near p last.now words.now ways.now 4) 6
        ∷ set_of (carried_near p last.now words.now ways.now 5) 6 ∷ [])) }
{
    let a = near_set(class, last, words, ways, 0) as u64;
    let b = near_set(class, last, words, ways, 1) as u64;
    let c = near_set(class, last, words, ways, 2) as u64;
    let d = near_set(class, last, words, ways, 3) as u64;
    let e = near_set(class, last, words, ways, 4) as u64;
    let f = near_set(class, last, words, ways, 5) as u64;
    ((((f * 64 + e) * 64 + d) * 64 + c) * 64 + b) * 64 + a
}
