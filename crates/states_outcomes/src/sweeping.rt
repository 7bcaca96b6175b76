// The two parts of lent words: outcomes that are known, and keys behind which none is new. Both memory models have them so.
ghost use Rattle.std.specs.Prelude.{◌≡◌, true, [], ℕ, ◌*◌, ◌≤◌, length, take, drop};
ghost use Rattle.std.proofs.Math.Option.{some};
ghost use Rattle.table.specs.Places.{said};
ghost use Rattle.table.specs.Answers.{Honest};
ghost use Rattle.states_outcomes.specs.Rows.{is_new};
ghost use Rattle.states_outcomes.specs.Swept.{Kept, Silent};

use crate::known::{Frame, is_known, row_of};
use states_memory::{Shape, is_marked, mark};
use table::clear;

// The table behind the known outcomes.
fn shape(frame: Frame) -> Shape
    ensures { result.slots ≡ frame.slots }
{
    Shape {
        width: frame.width,
        slots: frame.slots,
        deep: 0,
    }
}

// Whether an outcome is not among the known ones.
pub fn is_new(memory: [u32; 8], failed: bool, lent: &[u64], frame: Frame) -> bool
    requires { (9 * frame.known ≤ frame.cut) × (frame.cut ≤ length lent.now) }
    ensures { result ≡ is_new (take frame.cut lent.now) frame.known (record { memory = memory; fails = failed }) }
{
    !is_known(&lent[..frame.cut], frame.known, &row_of(memory, failed))
}

// Whether a key is marked: the first words of these, as many as the frame's keys have.
pub fn is_swept(lent: &[u64], frame: Frame, key: &[u64]) -> bool
    requires { (frame.width ≤ length key.now) × (frame.cut ≤ length lent.now) }
    ensures { result ≡ true
        → said frame.slots 0 (drop frame.cut lent.now) (take frame.width key.now) ≡ some [] }
{
    is_marked(&lent[frame.cut..], shape(frame), &key[..frame.width])
}

// Marks such a key.
pub fn sweep(lent: &mut [u64], frame: Frame, key: &[u64])
    requires { (frame.width ≤ length key.now) × (frame.cut ≤ length lent.old) }
    ensures kept { Kept frame.cut lent.old lent.new }
    ensures honest { Honest frame.slots (take frame.width key.now) [] (drop frame.cut lent.old)
        (drop frame.cut lent.new) }
{
    mark(&mut lent[frame.cut..], shape(frame), &key[..frame.width]);
}

// Takes all marks away: behind `cut` the table says nothing.
pub fn unmark(lent: &mut [u64], cut: usize)
    requires { cut ≤ length lent.old }
    ensures kept { Kept cut lent.old lent.new }
    ensures nothing { (slots : ℕ) → Silent slots cut lent.new }
{
    clear(&mut lent[cut..]);
}
