// The outcomes by the list: of each listed schedule it is asked whether it is the first with its outcome.
ghost use Rattle.std.specs.Prelude.{◌≡◌, ℕ, ◌/◌, ◌<◌, length};
ghost use mathlib.Core.List.{List, ◌∷◌, Memᴰ};
ghost use Rattle.spec_file.specs.Over.{over};
ghost use Rattle.file_decoder.specs.Compiled.{program_of};
ghost use Rattle.spec_schedules.specs.Order.{Schedule};
ghost use Rattle.spec_model.specs.Alike.{list_of};
ghost use Rattle.spec_model.specs.Laws.{Admitted};
ghost use Rattle.listing_model.specs.ModelOf.{model_of};
ghost use Rattle.spec_outcomes.specs.OutcomesCall.{outcome_size, outcome_rows, page_of};
ghost use Rattle.outcomes_call.specs.Walked.{Walks};

use file_decoder::Compiled;
use listing_cursor::{beginning, is_end};
use listing_model::Model;
use listing_pages::next_page;
use outcome_lists::{first_coming, outcome_of, row_at};
use outcome_states::show;

// How many firsts are still passed over, and how many rows are written.
#[derive(Clone, Copy)]
pub struct Tally {
    pub left: usize,
    pub rows: usize,
}

// One listed schedule: where it is the first with its outcome, it is passed over or its row written.
fn turn(model: Model, program: Compiled, s: &[u8], t: Tally, out: &mut [u8]) -> Tally
    requires { Admitted (model_of model) (program_of program) × (t.rows < length out.old / outcome_size (model_of model))
        × Memᴰ s.now (list_of (model_of model) (program_of program)) }
    ensures { (from room : ℕ) (held : List ℕ) (rest : List Schedule) → room ≡ length held / outcome_size (model_of model)
        → length out.old ≡ length held
        → Walks (model_of model) (program_of program) from room held (s.now ∷ rest) t out.old
        → (length out.new ≡ length held) × Walks (model_of model) (program_of program) from room held rest result out.new }
{
    let o = outcome_of(model, program, s);
    let Some(first) = first_coming(model, program, o) else {
        return t;
    };
    if first.as_slice() != s {
        return t;
    }
    if 0 < t.left {
        return Tally {
            left: t.left - 1,
            ..t
        };
    }
    show(model, o, s, t.rows, 0, out);
    Tally {
        rows: t.rows + 1,
        ..t
    }
}

// The rows from a number on, as many as there is room for; how many they are. The list is walked one schedule after the other.
pub(crate) fn by_lists(
    model: Model,
    program: Compiled,
    from: usize,
    room: usize,
    out: &mut [u8],
) -> usize
    requires { Admitted (model_of model) (program_of program) × (room ≡ length out.old / outcome_size (model_of model)) }
    ensures count { result ≡ length (page_of (model_of model) (program_of program) from out.old) }
    ensures output { out.new
        ≡ over (outcome_rows (model_of model) (program_of program) (page_of (model_of model) (program_of program) from out.old))
        out.old }
{
    let mut row = [0u8; 50];
    let mut cursor = beginning();
    let mut t = Tally {
        left: from,
        rows: 0,
    };
    while !is_end(cursor) {
        if t.rows == room {
            return room;
        }
        let page = next_page(model, program, cursor, false, &mut row);
        if page.rows == 0 {
            return t.rows;
        }
        t = turn(model, program, row_at(model, &row, 0).as_slice(), t, out);
        cursor = page.cursor;
    }
    t.rows
}
