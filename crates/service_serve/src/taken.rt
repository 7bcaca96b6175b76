// What the caller gets whose turn it is.
ghost use Rattle.std.specs.Prelude.{◌≡◌, List, ℕ, ◌≤◌, length, get_or};
ghost use Rattle.spec_service.specs.Record.{reading, fresh};
ghost use Rattle.spec_service.specs.Call.{for_seat, handed_to, serve_answer, output_after};
ghost use Rattle.service_serve.specs.Turn.{kept_for, turn_of, Leaves};

use file_rows::put_front;
use service_marks::by_number;
use service_record::{next_of, served};
use spec_file::{Refusal, STEPS};
use spec_service::{Caller, Reply};

// What caller k gets, whose record this is: its next schedule, in front of the output, or no more. The record is changed where it lies.
fn serve_to(k: usize, c: &mut Caller, out: &mut [u8]) -> Reply
    requires { 24 ≤ length out.old }
    ensures kept { (c.new, result) ≡ kept_for k c.old (for_seat (reading c.old)) }
    ensures output { out.new ≡ output_after (handed_to k (for_seat (reading c.old))) out.old }
{
    let next = next_of(c);
    *c = served(c, next);
    let Some(next) = next else {
        return Reply::Ended(k);
    };
    let n = usize::from(next.steps);
    put_front(out, &next.schedule, n);
    Reply::Given(k, n)
}

// What a serve answers that is about caller k, whose record this is; it leaves the record as it is then. It is asked only where the output
// has room: `turn` refuses a short one before, by the same 22.
pub fn serve_one(k: usize, c: &mut Caller, out: &mut [u8]) -> Result<Reply, Refusal>
    ensures { (cs : List Caller) (m : ℕ) → c.old ≡ get_or cs k fresh → Ok (Some k) ≡ turn_of (serve_answer cs m out.old)
        → Leaves cs m out.old k result c.new out.new }
{
    if out.len() < STEPS {
        return Err(by_number(22));
    }
    Ok(serve_to(k, c, out))
}
