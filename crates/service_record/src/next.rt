// What there is for a record: the next schedule of its list, or no more.
ghost use Rattle.std.specs.Prelude.{◌≡◌, replicate};
ghost use Rattle.spec_schedules.specs.Calls.{Answer, content};
ghost use Rattle.listing.specs.AnswerOf.{list_answer_of};
ghost use Rattle.spec_service.specs.Call.{for_seat};
ghost use Rattle.spec_service.specs.Record.{reading};
ghost use Rattle.service_record.specs.Next.{next_of, found_in, Short};

use listing::{continue_from, start};
use listing_model::Model;
use spec_file::{Refusal, STEPS};
use spec_service::Caller;

// A schedule that is handed to a caller, as its record keeps it: how many steps it has, and the steps with zeros behind them.
#[derive(Clone, Copy)]
pub struct Next {
    pub steps: u8,
    pub schedule: [u8; STEPS],
}

// What a call of the listing gave, with the steps in these bytes.
fn next_by(found: Result<Option<usize>, Refusal>, schedule: [u8; STEPS]) -> Option<Next>
    ensures { (x : Answer) → found ≡ list_answer_of x → schedule ≡ content x (replicate 24 0) → Short x → result ≡ next_of (found_in x) }
{
    match found {
        Ok(Some(steps)) => {
            let steps = u8::try_from(steps).ok()?;
            Some(Next { steps, schedule })
        }
        Ok(None) => None,
        Err(_) => None,
    }
}

// Of a closed record there is nothing.
pub fn next_of(c: &Caller) -> Option<Next>
    ensures { result ≡ next_of (for_seat (reading c.now)) }
{
    if 4096 < c.length {
        return None;
    }
    let file = &c.file[..c.length];
    let mut out = [0u8; STEPS];
    match c.place {
        1 => next_by(start(Model::Sequential, file, &mut out), out),
        2 => {
            if 24 < c.steps {
                return None;
            }
            let bound = &c.schedule[..usize::from(c.steps)];
            next_by(continue_from(Model::Sequential, file, bound, &mut out), out)
        }
        _ => None,
    }
}
