// Outcomes written as rows of words, one behind the other. Both memory models write them so.
ghost use Rattle.std.specs.Prelude.{◌≡◌, ◌+◌, ◌*◌, ◌≤◌, length, take, drop, IfSome};
ghost use Rattle.std.proofs.Math.Seq.{paste};
ghost use Rattle.states_outcomes.specs.Rows.{row_of, Adds};

use crate::known::{Frame, row_of};
use crate::sweeping::is_new;
use spec_covers::Outcome;
use table::write;

// Writes an outcome as row k, before `cut`.
pub fn note(o: Outcome, k: usize, cut: usize, lent: &mut [u64])
    requires { (9 * k + 9 ≤ cut) × (cut ≤ length lent.old) }
    ensures words { (length lent.new ≡ length lent.old) × (drop cut lent.new ≡ drop cut lent.old) }
    ensures row { take cut lent.new ≡ paste (take cut lent.old) (9 * k) (row_of o) 9 }
{
    write(&mut lent[..cut], 9 * k, &row_of(o.memory, o.fails));
}

// Writes an outcome behind the known ones, if it is none of them. Answers how many are known then; none where it has no room.
pub fn add_row(memory: [u32; 8], failed: bool, frame: Frame, lent: &mut [u64]) -> Option<usize>
    requires { (9 * frame.known ≤ frame.cut) × (frame.cut ≤ length lent.old) }
    ensures words { (length lent.new ≡ length lent.old) × (drop frame.cut lent.new ≡ drop frame.cut lent.old) }
    ensures within { IfSome result (λ n. 9 * n ≤ frame.cut) }
    ensures row { IfSome result (λ n. Adds (take frame.cut lent.old) frame.known (record { memory = memory; fails = failed })
        (take frame.cut lent.new) n) }
{
    let known = frame.known;
    if !is_new(memory, failed, lent, frame) {
        return Some(known);
    }
    if frame.cut - 9 * known < 9 {
        return None;
    }
    let o = Outcome {
        memory,
        fails: failed,
    };
    note(o, known, frame.cut, lent);
    Some(known + 1)
}
