// Four callers on one explorer.
ghost use Rattle.std.specs.Prelude.{◌≡◌};
ghost use Rattle.spec_service.specs.Call.{open_for, ask_for, close_for, set_mark, return_to, forget};
ghost use Rattle.spec_service.specs.Reply.{shared};
ghost use Rattle.spec_calls.specs.Users.{user_word, Says, ServeSays};

use c_word::{answered, refused};
use spec_file::Refusal;
use spec_service::{Caller, Reply};

const KIND: u64 = 0x100_0000_0000_0000;

const CALLER: usize = 0x100_0000_0000;

// No more for this caller.
fn ended(k: usize) -> u64
    ensures { result ≡ user_word (Ok (Reply.Ended k)) }
{
    2 * KIND + ((k % 256) * CALLER) as u64
}

// The word of an answer.
pub(crate) fn user_word(r: Result<Reply, Refusal>) -> u64
    ensures { result ≡ user_word r }
{
    match r {
        Ok(Reply::Done) => answered(0),
        Ok(Reply::Given(k, n)) => answered((k % 256) * CALLER + n % CALLER),
        Ok(Reply::Ended(k)) => ended(k),
        Ok(Reply::Idle) => 5 * KIND,
        Err(refusal) => refused(refusal.number, refusal.place),
    }
}

// Opens for a caller with a program file. Kind 1: done. Kind 3 with number and place: nothing is changed. Any other answer gives the last
// caller back as it is read, a number above 3 as 3.
#[unsafe(no_mangle)]
pub extern "C" fn tarczolin_open(
    callers: &mut [Caller],
    last: &mut u64,
    caller: usize,
    file: &[u8],
) -> u64
    ensures { Says (open_for caller file.now)
        (shared callers.old last.old) result
        (shared callers.new last.new) }
{
    user_word(service::open(callers, last, caller, file))
}

// A caller asks for one schedule. Kind 1: done. Kind 3 with number and place.
#[unsafe(no_mangle)]
pub extern "C" fn tarczolin_ask(callers: &mut [Caller], last: &mut u64, caller: usize) -> u64
    ensures { Says (ask_for caller)
        (shared callers.old last.old) result
        (shared callers.new last.new) }
{
    user_word(service::ask(callers, last, caller))
}

// Serves the next asking caller after the last one served. Kind 1: a schedule, which stands in front of `out`; bits 0 to 39 its length,
// bits 40 to 47 the caller. Kind 2: no more, the caller likewise. Kind 5: nobody asks. Kind 3 with number and place.
#[unsafe(no_mangle)]
pub extern "C" fn tarczolin_serve(callers: &mut [Caller], last: &mut u64, out: &mut [u8]) -> u64
    ensures { ServeSays out.old
        (shared callers.old last.old) result
        (shared callers.new last.new) out.new }
{
    user_word(service::serve(callers, last, out))
}

// A caller leaves, and its record is emptied. Kind 1: done. Kind 3 with number and place.
#[unsafe(no_mangle)]
pub extern "C" fn tarczolin_close(callers: &mut [Caller], last: &mut u64, caller: usize) -> u64
    ensures { Says (close_for caller)
        (shared callers.old last.old) result
        (shared callers.new last.new) }
{
    user_word(service::close(callers, last, caller))
}

// Stores a caller's last schedule handed since it opened, or the beginning if there is none, under this name. Kind 1: done. Kind 3 with
// number and place.
#[unsafe(no_mangle)]
pub extern "C" fn tarczolin_set(
    callers: &mut [Caller],
    last: &mut u64,
    caller: usize,
    name: &[u8],
) -> u64
    ensures { Says (set_mark caller name.now)
        (shared callers.old last.old) result
        (shared callers.new last.new) }
{
    user_word(service::set(callers, last, caller, name))
}

// A caller stands where the mark of this name does, and its serves go on behind it. Kind 1: done. Kind 3 with number and place.
#[unsafe(no_mangle)]
pub extern "C" fn tarczolin_return(
    callers: &mut [Caller],
    last: &mut u64,
    caller: usize,
    name: &[u8],
) -> u64
    ensures { Says (return_to caller name.now)
        (shared callers.old last.old) result
        (shared callers.new last.new) }
{
    user_word(service::return_to(callers, last, caller, name))
}

// A caller's mark of this name is freed. Kind 1: done. Kind 3 with number and place.
#[unsafe(no_mangle)]
pub extern "C" fn tarczolin_forget(
    callers: &mut [Caller],
    last: &mut u64,
    caller: usize,
    name: &[u8],
) -> u64
    ensures { Says (forget caller name.now)
        (shared callers.old last.old) result
        (shared callers.new last.new) }
{
    user_word(service::forget(callers, last, caller, name))
}
