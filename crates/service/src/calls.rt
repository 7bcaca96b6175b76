// The seven calls. The list must have exactly four records, whatever they hold; the last caller served goes into each call and comes out
// of it. A refusal changes nothing.
ghost use Rattle.std.specs.Prelude.{◌≡◌};
ghost use Rattle.spec_service.specs.Call.{Call, open_for, ask_for, close_for, set_mark, return_to, forget};
ghost use Rattle.spec_service.specs.Reply.{shared, Does, Served};
ghost use Rattle.service_one.specs.Left.{Left};

use service_one::{
    ask_one, close_one, forget_one, open_one, put_record, record_at, return_one, set_one, settle,
};
use service_serve::{asks_at, serve_one, turn};
use spec_file::Refusal;
use spec_service::{Caller, Reply};

// What a call that is no serve left of caller k's record: it is put back, and the last caller is given back as it is read.
fn put_back(
    callers: &mut [Caller],
    last: &mut u64,
    k: usize,
    left: Result<Caller, Refusal>,
) -> Result<Reply, Refusal>
    ensures { (call : Call) → Left call callers.old k left → Does call
        (shared callers.old last.old) result
        (shared callers.new last.new) }
{
    let c = left?;
    put_record(callers, k, c);
    settle(last);
    Ok(Reply::Done)
}

// Opens for caller k with a program file: before the first schedule.
pub fn open(callers: &mut [Caller], last: &mut u64, k: usize, file: &[u8]) -> Result<Reply, Refusal>
    ensures { Does (open_for k file.now)
        (shared callers.old last.old) result
        (shared callers.new last.new) }
{
    let left = open_one(callers.len(), &record_at(callers, k), k, file);
    put_back(callers, last, k, left)
}

// Caller k asks for one schedule.
pub fn ask(callers: &mut [Caller], last: &mut u64, k: usize) -> Result<Reply, Refusal>
    ensures { Does (ask_for k)
        (shared callers.old last.old) result
        (shared callers.new last.new) }
{
    let left = ask_one(callers.len(), &record_at(callers, k), k);
    put_back(callers, last, k, left)
}

// Caller k leaves, and its record is emptied.
pub fn close(callers: &mut [Caller], last: &mut u64, k: usize) -> Result<Reply, Refusal>
    ensures { Does (close_for k)
        (shared callers.old last.old) result
        (shared callers.new last.new) }
{
    let left = close_one(callers.len(), &record_at(callers, k), k);
    put_back(callers, last, k, left)
}

// Serves the next asking caller after the last one served: one schedule in front of the output, or no more.
pub fn serve(callers: &mut [Caller], last: &mut u64, out: &mut [u8]) -> Result<Reply, Refusal>
    ensures { Served out.old
        (shared callers.old last.old) result
        (shared callers.new last.new) out.new }
{
    let asking = [
        asks_at(callers, 0),
        asks_at(callers, 1),
        asks_at(callers, 2),
        asks_at(callers, 3),
    ];
    let Some(k) = turn(callers.len(), out.len(), &asking, last)? else {
        return Ok(Reply::Idle);
    };
    let mut left = record_at(callers, k);
    let reply = serve_one(k, &mut left, out)?;
    put_record(callers, k, left);
    Ok(reply)
}

// Caller k's last schedule handed since it opened, or the beginning if there is none, is stored under this name.
pub fn set(callers: &mut [Caller], last: &mut u64, k: usize, name: &[u8]) -> Result<Reply, Refusal>
    ensures { Does (set_mark k name.now)
        (shared callers.old last.old) result
        (shared callers.new last.new) }
{
    let left = set_one(callers.len(), &record_at(callers, k), k, name);
    put_back(callers, last, k, left)
}

// Caller k stands where the mark of this name does, and its serves go on behind it.
pub fn return_to(
    callers: &mut [Caller],
    last: &mut u64,
    k: usize,
    name: &[u8],
) -> Result<Reply, Refusal>
    ensures { Does (return_to k name.now)
        (shared callers.old last.old) result
        (shared callers.new last.new) }
{
    let left = return_one(callers.len(), &record_at(callers, k), k, name);
    put_back(callers, last, k, left)
}

// Caller k's mark of this name is freed.
pub fn forget(
    callers: &mut [Caller],
    last: &mut u64,
    k: usize,
    name: &[u8],
) -> Result<Reply, Refusal>
    ensures { Does (forget k name.now)
        (shared callers.old last.old) result
        (shared callers.new last.new) }
{
    let left = forget_one(callers.len(), &record_at(callers, k), k, name);
    put_back(callers, last, k, left)
}
