// A listed schedule read off its row.
ghost use Rattle.std.specs.Prelude.{◌≡◌, List, [], ℕ, ◌<◌, ◌≤◌, get_or, take};
ghost use Rattle.spec_file.specs.Program.{Program};
ghost use Rattle.spec_schedules.specs.Order.{Schedule};
ghost use Rattle.listing_model.specs.ModelOf.{model_of};
ghost use Rattle.listing_pages.specs.Page.{Rows};

use listing_cursor::{Steps, put_schedule};
use listing_model::{Model, width};

// The schedule of row k of a page.
pub fn row_at(model: Model, rows: &[u8], k: usize) -> Steps<48>
    requires { (p : Program) × (ss : List Schedule) × (n : ℕ) × Rows (model_of model) p ss rows.now n × (k < n) }
    ensures few { result.steps ≤ (model_of model).need }
    ensures row { (p : Program) (ss : List Schedule) (n : ℕ) → Rows (model_of model) p ss rows.now n → k < n
        → take result.steps result.schedule ≡ get_or ss k [] }
{
    let at = k * (width(model) + 2);
    let steps = usize::from(rows[at]);
    let mut schedule = [0u8; 48];
    put_schedule(&mut schedule, &rows[at..], steps);
    Steps { schedule, steps }
}
