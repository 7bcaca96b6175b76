// The list by pages: rows of what a cursor has yet to come, and the cursor behind them. All that walks the list goes on by `next_page`.
ghost use Rattle.std.specs.Prelude.{◌≡◌, false};
ghost use Rattle.file_decoder.specs.Compiled.{program_of};
ghost use Rattle.spec_model.specs.Laws.{Admitted};
ghost use Rattle.listing_cursor.specs.Bounds.{bound_at};
ghost use Rattle.listing_cursor.specs.Cursor.{bound_of, is_end};
ghost use Rattle.listing_cursor.specs.ListRows.{Paged};
ghost use Rattle.listing_model.specs.ModelOf.{model_of};

use crate::searching::listed_rows;
use file_decoder::Compiled;
use file_lines::wide;
use listing_cursor::{Cursor, Page, behind, end};
use listing_model::{Model, width};

// From the first one on, or behind the cursor's schedule: the bound, of which none counts where it is not tight.
fn search_on(
    model: Model,
    program: Compiled,
    cursor: Cursor,
    bound: &[u8],
    tight: bool,
    failures: bool,
    out: &mut [u8],
) -> Page
    requires { Admitted (model_of model) (program_of program) × (is_end cursor ≡ false)
        × (bound_at tight bound.now 0 ≡ bound_of cursor) }
    ensures { Paged (model_of model) (program_of program) failures cursor out.old out.new result }
{
    let row = width(model) + 2;
    let rows = listed_rows(model, program, failures, bound, tight, out);
    if rows < out.len() / row {
        return Page {
            rows,
            cursor: end(),
        };
    }
    if rows == 0 {
        return Page { rows, cursor };
    }
    let at = (rows - 1) * row;
    let last = wide(out[at]);
    Page {
        rows,
        cursor: behind(&out[at + 2..at + 2 + last]),
    }
}

// Writes the rows of what is yet to come, as many as the output has room for.
pub fn next_page(
    model: Model,
    program: Compiled,
    cursor: Cursor,
    failures: bool,
    out: &mut [u8],
) -> Page
    requires { Admitted (model_of model) (program_of program) }
    ensures { Paged (model_of model) (program_of program) failures cursor out.old out.new result }
{
    match cursor {
        Cursor::Beginning => search_on(model, program, cursor, &[], false, failures, out),
        Cursor::Behind(s) => search_on(model, program, cursor, s.as_slice(), true, failures, out),
        Cursor::End => Page { rows: 0, cursor },
    }
}
