// The row of an outcome: eight values of four bytes each, then the row of a schedule.
ghost use Rattle.std.specs.Prelude.{◌≡◌, ℕ, ◌+◌, ◌<◌, ◌≤◌, length};
ghost use mathlib.Core.List.{List, ◌++◌, flat_map};
ghost use Rattle.spec_file.specs.Over.{over};
ghost use Rattle.spec_calls.specs.Rows.{row_bytes};
ghost use Rattle.spec_outcomes.specs.OutcomesCall.{four_bytes};

use listing_cursor::put_row;
use spec_covers::Outcome;

// Writes eight values to the front of the output, each with its most significant byte first.
fn put_values(out: &mut [u8], memory: &[u32; 8])
    requires { 32 ≤ length out.old }
    ensures { out.new ≡ over (flat_map four_bytes memory.now) out.old }
{
    for (k, v) in memory.iter().enumerate() {
        out[4 * k..4 * k + 4].copy_from_slice(&v.to_be_bytes());
    }
}

// Writes the row of an outcome, and of a schedule that has it, behind a text that ends at this byte; a row has room for so many steps.
pub fn put_outcome(out: &mut [u8], at: usize, width: usize, o: Outcome, steps: &[u8])
    requires { (length steps.now ≤ width) × (width < 256) × (at + width + 34 ≤ length out.old) }
    ensures { (t l : List ℕ) → out.old ≡ over t l → length t ≡ at → length out.old ≡ length l
        → out.new ≡ over (t ++ (flat_map four_bytes o.memory ++ row_bytes width steps.now o.fails)) l }
{
    put_values(&mut out[at..], &o.memory);
    put_row(&mut out[at + 32..], width, steps, o.fails);
}
