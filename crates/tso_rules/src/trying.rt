// R1, R2 and R2 far: whether a byte is tried.
ghost use Rattle.std.specs.Prelude.{◌≡◌, not, ◌&&◌, List, ℕ, ◌<◌, eqb, get_or};
ghost use Rattle.spec_file.specs.Program.{Program};
ghost use Rattle.spec_schedules.specs.Lists.{range, any};
ghost use Rattle.spec_schedules.specs.Order.{Schedule};
ghost use Rattle.spec_schedules.specs.Sets.{has};
ghost use Rattle.spec_model.specs.Exchange.{together};
ghost use Rattle.search_place.specs.ClassGroups.{Lined};
ghost use Rattle.tso_place.specs.Reached.{Reached};
ghost use Rattle.tso_place.specs.declared.place.Place.{Place};
ghost use Rattle.tso_rules.specs.Tried.{tried};

use search_place::is_in;
use search_rules::has_same_word;
use tso_order::Sets;

// Whether thread t may make a step that is neither late nor far, by these sets.
fn is_free(may: u8, late: u8, far: u8, t: u8) -> bool
    ensures { result ≡ (has may t && (not (has late t) && not (has far t))) }
{
    is_in(may, t) && !is_in(late, t) && !is_in(far, t)
}

// Whether thread t may make a step that is neither late nor far, by these sets, and has no smaller twin.
fn goes_first(class: &[usize; 6], words: &[u64; 6], may: u8, late: u8, far: u8, t: u8) -> bool
    requires { t < 6 }
    ensures { (groups : ℕ) (p : Program) → Lined class.now groups p
        → result ≡ ((has may t && (not (has late t) && not (has far t)))
        && not (any (λ u. together p.groups u t && eqb (get_or words.now u 0) (get_or words.now t 0)) (range 0 t))) }
{
    is_free(may, late, far, t) && !has_same_word(class, words, t, t)
}

// Whether the byte b is tried: an access that is not late, or a move that is neither late nor far, of a thread with no smaller twin.
pub fn is_tried(class: &[usize; 6], words: &[u64; 6], s: Sets, b: u8) -> bool
    ensures { (code lengths : List ℕ) (threads groups : ℕ) (x : Place) (p : Program) (v : Schedule)
        → Reached code lengths class.now threads groups x p v → x.words ≡ words.now → x.sets ≡ s
        → result ≡ tried p v b }
{
    match b {
        0..=5 => goes_first(class, words, s.live, s.late, 0, b),
        16..=21 => goes_first(class, words, s.moving, s.overdue, s.far, b - 16),
        _ => false,
    }
}
