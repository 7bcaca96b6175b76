// The first listed schedule that passes a test, and the first with an outcome: the list is walked by pages.
ghost use Rattle.std.specs.Prelude.{◌≡◌, Bool};
ghost use Rattle.std.specs.Borrow.{Bor};
ghost use Rattle.std.specs.Fn.{FnReturnsAt};
ghost use Rattle.file_decoder.specs.Compiled.{program_of};
ghost use Rattle.spec_schedules.specs.Lists.{find};
ghost use Rattle.spec_schedules.specs.Order.{Schedule};
ghost use Rattle.spec_model.specs.Alike.{list_of};
ghost use Rattle.spec_model.specs.Laws.{Admitted};
ghost use Rattle.spec_model.specs.Model.{Full};
ghost use Rattle.spec_across.specs.Same.{comes_to};
ghost use Rattle.listing_cursor.specs.Steps.{found_of};
ghost use Rattle.listing_model.specs.ModelOf.{model_of};
ghost use Rattle.outcome_lists.specs.Found.{Within};

use crate::outcomes::comes_to;
use crate::rows::row_at;
use file_decoder::Compiled;
use listing_cursor::{Steps, beginning, is_end};
use listing_model::Model;
use listing_pages::next_page;
use spec_covers::Outcome;

// The first listed schedule that passes a test, by pages of 800 bytes.
pub fn first_passing<F: Fn(&[u8]) -> bool>(
    model: Model,
    program: Compiled,
    test: F,
) -> Option<Steps<48>>
    requires admitted { Admitted (model_of model) (program_of program) }
    requires callable { (s : Bor Schedule) → Full (model_of model) (program_of program) s.now → F.pre test s }
    ensures short { Within (model_of model).need result }
    ensures first { (f : Schedule → Bool)
        → ((s : Schedule) (b : Bool) → Full (model_of model) (program_of program) s → FnReturnsAt F.Fn test s b → b ≡ f s)
        → found_of result ≡ find f (list_of (model_of model) (program_of program)) }
{
    let mut rows = [0u8; 800];
    let mut cursor = beginning();
    while !is_end(cursor) {
        let page = next_page(model, program, cursor, false, &mut rows);
        for k in 0..page.rows {
            let s = row_at(model, &rows, k);
            if test(s.as_slice()) {
                return Some(s);
            }
        }
        cursor = page.cursor;
    }
    None
}

// The first listed schedule with this outcome.
pub fn first_coming(model: Model, program: Compiled, o: Outcome) -> Option<Steps<48>>
    requires { Admitted (model_of model) (program_of program) }
    ensures short { Within (model_of model).need result }
    ensures first { found_of result ≡ find (comes_to (model_of model) (program_of program) o) (list_of (model_of model) (program_of program)) }
{
    first_passing(model, program, |s: &[u8]| comes_to(model, program, o, s))
}
