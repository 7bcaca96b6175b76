// The listed schedules of a decoded program under total store order behind a bound, as rows in a lent buffer.
ghost use Rattle.std.specs.Prelude.{◌/◌, length, take};
ghost use Rattle.file_decoder.specs.Compiled.{program_of};
ghost use Rattle.spec_schedules.specs.Found.{after};
ghost use Rattle.spec_model.specs.Laws.{Admitted};
ghost use Rattle.spec_model.specs.Search.{sought};
ghost use Rattle.spec_tso.specs.TotalStoreOrder.{tso};
ghost use Rattle.listing_cursor.specs.Bounds.{bound_at};
ghost use Rattle.listing_cursor.specs.ListRows.{Shown};

use crate::walking::walk;
use file_decoder::Compiled;
use listing_cursor::Aim;
use search_place::known_lines;
use search_rules::left_sets;
use tso_place::begun;

// The steps that a row has room for.
pub(crate) const WIDTH: usize = 48;

// The bytes of a listed schedule's row.
pub(crate) const ROW: usize = 50;

// Writes the rows of the listed schedules (of those that fail, if only these are wanted) behind the bound, or from the first one on, as
// many as the output has room for; answers how many.
pub fn listed_rows(
    program: Compiled,
    failures: bool,
    bound: &[u8],
    tight: bool,
    out: &mut [u8],
) -> usize
    requires { Admitted tso (program_of program) }
    ensures { Shown tso (program_of program)
        (take (length out.old / 50) (after (bound_at tight bound.now 0) (sought tso failures (program_of program))))
        out.old out.new result }
{
    let class = known_lines(program.class, program.groups);
    let known = Compiled { class, ..program };
    let left = left_sets(&known);
    let x = begun(&known);
    let a = Aim {
        failures,
        tight,
        room: out.len() / ROW,
        rows: 0,
    };
    walk(&known, &left, &x, bound, a, out)
}
