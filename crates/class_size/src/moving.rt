// Where each thread may go, as a table of six times six: row t has a place for each thread u.
ghost use Rattle.std.specs.Prelude.{◌≡◌, false, ◌&&◌, ℕ, ◌/◌, ◌%◌, ◌<◌, ◌≤◌, get_or};
ghost use Rattle.graph_writer.specs.NoteText.{notes_at};
ghost use Rattle.search_place.specs.ClassGroups.{groups_of};
ghost use Rattle.class_size.specs.Moves.{wrote_in, unmoved_in, may_go};

use crate::reads::{WROTE, same_reads, says};
use std::array::from_fn;

// Whether thread t wrote.
fn wrote(log: &[u8; 192], steps: usize, t: u8) -> bool
    requires { steps ≤ 24 }
    ensures { result ≡ wrote_in (notes_at log.now steps) t }
{
    (0..steps).any(|k| says(log, k, t, WROTE))
}

// Whether thread t, which may go to u or not, may so that the graph is the same: both wrote nothing, and they did the same reads.
#[tactic(auto, unfolding(crate::specs::Moves::unmoved_in))]
fn unmoved(may: bool, log: &[u8; 192], steps: usize, t: u8, u: u8) -> bool
    requires { steps ≤ 24 }
    ensures { result ≡ (may && unmoved_in (notes_at log.now steps) t u) }
{
    may && (t == u
        || (!wrote(log, steps, t) && !wrote(log, steps, u) && same_reads(log, steps, t, u)))
}

// Whether thread t may go to u: itself, or one of its `02` line.
fn is_allowed(class: [usize; 6], groups: usize, t: usize, u: usize) -> bool
    requires { (t < 6) × (u < 6) }
    ensures { result ≡ may_go (groups_of class groups) t u }
{
    let g = class[t];
    t == u || (g != 0 && g <= groups && class[u] == g)
}

// Where each thread may go by the `02` lines.
pub(crate) fn permitted_moves(class: [usize; 6], groups: usize) -> [bool; 36]
    ensures { (k : ℕ) → k < 36 → get_or result k false ≡ may_go (groups_of class groups) (k / 6) (k % 6) }
{
    from_fn(|k| is_allowed(class, groups, k / 6, k % 6))
}

// Where each thread may go so that the graph is the same.
pub(crate) fn leaving_moves(may: [bool; 36], log: &[u8; 192], steps: usize) -> [bool; 36]
    requires { steps ≤ 24 }
    ensures { (k : ℕ) → k < 36 → get_or result k false
        ≡ (get_or may k false && unmoved_in (notes_at log.now steps) (k / 6) (k % 6)) }
{
    from_fn(|k| unmoved(may[k], log, steps, (k / 6) as u8, (k % 6) as u8))
}
