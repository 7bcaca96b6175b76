// An outcome shown as a row of bytes.
ghost use Rattle.std.specs.Prelude.{◌≡◌, ℕ, ◌+◌, ◌-◌, ◌*◌, ◌/◌, ◌<◌, ◌≤◌, length};
ghost use mathlib.Core.List.{List, ◌++◌, flat_map};
ghost use Rattle.spec_file.specs.Over.{over};
ghost use Rattle.spec_calls.specs.Rows.{row_bytes};
ghost use Rattle.listing_model.specs.ModelOf.{model_of};
ghost use Rattle.spec_outcomes.specs.OutcomesCall.{four_bytes, outcome_size};

use listing_model::{Model, width};
use outcome_rows::put_outcome;
use spec_covers::Outcome;

// Writes the row of an outcome and of a schedule that has it to the output, where its number k is not below `from`.
pub fn show(model: Model, o: Outcome, steps: &[u8], k: usize, from: usize, out: &mut [u8])
    requires { (length steps.now ≤ (model_of model).need) × (from ≤ k → k - from < length out.old / outcome_size (model_of model)) }
    ensures before { k < from → out.new ≡ out.old }
    ensures row { from ≤ k → (t l : List ℕ) → out.old ≡ over t l → length t ≡ (k - from) * outcome_size (model_of model)
        → length out.old ≡ length l
        → out.new ≡ over (t ++ (flat_map four_bytes o.memory ++ row_bytes (model_of model).need steps.now o.fails)) l }
{
    if k < from {
        return;
    }
    let w = width(model);
    put_outcome(out, (k - from) * (w + 34), w, o, steps);
}
