// Who is near whom, by the words and ways that the search carries.
ghost use Rattle.std.specs.Prelude.{◌≡◌, ◌&&◌, ℕ, ◌^◌, ◌<◌, ltb, get_or};
ghost use Rattle.spec_file.specs.Program.{Program};
ghost use Rattle.search_place.specs.ClassGroups.{Lined};
ghost use Rattle.theory_sc.specs.Sets.{set_of};
ghost use Rattle.theory_sc.specs.ThreadWords.{digits};
ghost use Rattle.theory_sc_key.specs.Ways.{comes_back, near_by_word, near_sets_by_word};
ghost use Rattle.states_key.specs.Stands.{carried};

use crate::spot::Spot;
use file_lines::{choose, wide};
use search_place::power;

// Words from here on are a thread's own.
const OWN: u64 = 0x1000_0000_0000_0000;

// Whether the word `from`, whose reads went this way, comes back to `word` when its latest reads are taken off, each while the write that
// it read is the last of its location.
fn comes_back(stamps: &[u8; 8], word: u64, from: u64, way: u64) -> bool
    ensures { from < 2 ^ 60 → result ≡ comes_back 12 stamps.now word from way }
{
    let mut y = from;
    let mut z = way;
    // How many reads come off before the words are equal is not known before.
    while y != word {
        if u64::from(stamps[(z % 8) as usize]) + 1 != y % 32 {
            return false;
        }
        y /= 32;
        z /= 8;
    }
    true
}

// Whether the word of thread u comes back to that of thread t, where neither has a word of its own.
fn is_behind(x: &Spot, t: usize, u: usize) -> bool
    requires { (t < 6) × (u < 6) }
    ensures { result ≡ (ltb (get_or x.now.place.words t 0) (2 ^ 60) && (ltb (get_or x.now.place.words u 0) (2 ^ 60)
        && comes_back 12 x.now.place.stamps (get_or x.now.place.words t 0) (get_or x.now.place.words u 0) (get_or x.now.ways u 0))) }
{
    let to = x.place.words[t];
    let from = x.place.words[u];
    to < OWN && from < OWN && comes_back(&x.place.stamps, to, from, x.ways[u])
}

// Whether thread t is near u.
fn is_near(class: &[usize; 6], x: &Spot, t: usize, u: usize) -> bool
    requires { (t < 6) × (u < 6) }
    ensures { (groups : ℕ) (p : Program) → Lined class.now groups p → result ≡ near_by_word p (carried x.now) x.now.ways t u }
{
    let g = class[u];
    if t == u || g == 0 || class[t] != g {
        return false;
    }
    is_behind(x, t, u)
}

// The threads that thread t is near.
fn near_set(class: &[usize; 6], x: &Spot, t: usize) -> u8
    requires { t < 6 }
    ensures { (result < 64) × ((groups : ℕ) (p : Program) → Lined class.now groups p
        → result ≡ set_of (near_by_word p (carried x.now) x.now.ways t) 6) }
{
    if class[t] == 0 {
        return 0;
    }
    let mut set = 0u8;
    for u in 0u8..6 {
        set += choose(is_near(class, x, t, wide(u)), power(u), 0);
    }
    set
}

// The sets of all six, six bits each.
pub(crate) fn near_word(class: &[usize; 6], x: &Spot) -> u64
    ensures { (groups : ℕ) (p : Program) → Lined class.now groups p
        → result ≡ digits 64 (λ n. n) (near_sets_by_word p (carried x.now) x.now.ways) }
{
    let mut word = 0u64;
    for t in (0..6).rev() {
        word = word * 64 + near_set(class, x, t) as u64;
    }
    word
}
