// Whose turn it is.
ghost use Rattle.std.specs.Prelude.{◌≡◌, false, List, ℕ, length, get_or};
ghost use Rattle.spec_schedules.specs.Lists.{find};
ghost use Rattle.spec_service.specs.Call.{in_turn, serve_answer, last_after};
ghost use Rattle.service_serve.specs.Turn.{Asking, asks_at, number_of, turn_of};

use service_marks::by_number;
use service_one::{last_read, settle};
use service_record::asks;
use spec_file::{Refusal, STEPS};
use spec_service::Caller;

// Whether caller k of a list asks, whose record is read where it lies.
pub fn asks_at(callers: &[Caller], k: usize) -> bool
    ensures { result ≡ asks_at callers.now k }
{
    if k < callers.len() {
        return asks(&callers[k]);
    }
    false
}

// The next asking caller after the last one served, where these ask.
fn next_asking(asking: &[bool; 4], last: u64) -> Option<usize>
    ensures { result ≡ number_of (find (λ k. get_or asking.now k false) (in_turn last)) }
{
    let n = last_read(last) as usize;
    (1..5).map(|d| (n + d) % 4).find(|k| asking[*k])
}

// Whom a serve is about, of a list of n records of which these ask, with an output of so many bytes; that caller is then the last one
// served. None where nobody asks.
pub fn turn(
    n: usize,
    room: usize,
    asking: &[bool; 4],
    last: &mut u64,
) -> Result<Option<usize>, Refusal>
    ensures { (cs : List Caller) (out : List ℕ) → length cs ≡ n → length out ≡ room → Asking cs asking.now →
        (result ≡ turn_of (serve_answer cs last.old out))
        × (last.new ≡ last_after (serve_answer cs last.old out) last.old) }
{
    if n != 4 || room < STEPS {
        return Err(by_number(22));
    }
    let Some(k) = next_asking(asking, *last) else {
        settle(last);
        return Ok(None);
    };
    *last = k as u64;
    Ok(Some(k))
}
