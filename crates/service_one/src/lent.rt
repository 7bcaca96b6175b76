// One record out of the list that the host lends, and back.
ghost use Rattle.std.specs.Prelude.{◌≡◌, get_or, set};
ghost use Rattle.spec_service.specs.Record.{fresh};

use service_record::fresh_record;
use spec_service::Caller;

// Record k; a fresh one where the list has none.
pub fn record_at(callers: &[Caller], k: usize) -> Caller
    ensures { result ≡ get_or callers.now k fresh }
{
    if k < callers.len() {
        return callers[k];
    }
    fresh_record()
}

// Puts record k back; nothing where the list has none.
pub fn put_record(callers: &mut [Caller], k: usize, c: Caller)
    ensures { callers.new ≡ set callers.old k c }
{
    let n = callers.len();
    if k < n {
        callers[k] = c;
    }
}
