// R2: a smaller thread of t's class with the same word.
ghost use Rattle.std.specs.Prelude.{◌≡◌, ◌&&◌, List, ℕ, ◌<◌, ◌≤◌, eqb, get_or};
ghost use Rattle.spec_file.specs.Program.{Program};
ghost use Rattle.spec_schedules.specs.Lists.{range, any};
ghost use Rattle.spec_schedules.specs.Order.{Schedule};
ghost use Rattle.spec_sc.specs.Graph.{end_of};
ghost use Rattle.theory_sc.specs.Rules.{twin};
ghost use Rattle.spec_model.specs.Exchange.{together};
ghost use Rattle.search_place.specs.ClassGroups.{Lined};
ghost use Rattle.search_place.specs.Reached.{Reached};
ghost use Rattle.search_place.specs.declared.place.Place.{Place};

use file_lines::wide;

// Whether a thread below `end` is of t's `02` line and has t's word.
pub fn has_same_word(class: &[usize; 6], words: &[u64; 6], t: u8, end: u8) -> bool
    requires { (t < 6) × (end ≤ t) }
    ensures { (groups : ℕ) (p : Program) → Lined class.now groups p
        → result ≡ any (λ u. together p.groups u t && eqb (get_or words.now u 0) (get_or words.now t 0)) (range 0 end) }
{
    let own = wide(t);
    let g = class[own];
    if g == 0 {
        return false;
    }
    let word = words[own];
    let last = wide(end);
    for u in 0..last {
        if class[u] == g && words[u] == word {
            return true;
        }
    }
    false
}

// Whether a smaller thread is t's twin.
pub fn has_smaller_twin(class: &[usize; 6], words: &[u64; 6], t: u8) -> bool
    requires { t < 6 }
    ensures { (code lengths : List ℕ) (threads groups : ℕ) (x : Place) (p : Program) (v : Schedule)
        → Reached code lengths class.now threads groups x p v → x.words ≡ words.now
        → result ≡ any (twin p (end_of p v) t) (range 0 t) }
{
    has_same_word(class, words, t, t)
}
