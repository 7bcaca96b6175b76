// A schedule that was found, in front of an output.
ghost use Rattle.std.specs.Prelude.{◌≡◌, length};
ghost use Rattle.listing_cursor.specs.Steps.{found_of};
ghost use Rattle.outcome_lists.specs.Found.{Within, steps_in, put_over};

use file_rows::put_front;
use listing_cursor::Steps;

// Copies a schedule that was found to the front of the output: how many steps it has.
pub fn put_found(found: Option<Steps<48>>, out: &mut [u8]) -> Option<usize>
    requires { Within 48 found × Within (length out.old) found }
    ensures steps { result ≡ steps_in (found_of found) }
    ensures output { out.new ≡ put_over (found_of found) out.old }
{
    let s = found?;
    put_front(out, &s.schedule, s.steps);
    Some(s.steps)
}
