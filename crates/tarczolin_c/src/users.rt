// Four callers on one explorer.
ghost use Rattle.spec_service.specs.Call.{open_for, ask_for, close_for, set_mark, return_to, forget};
ghost use Rattle.spec_service.specs.Reply.{shared};
ghost use Rattle.spec_calls.specs.Users.{Says, ServeSays};

use spec_service::Caller;

#[unsafe(no_mangle)]
pub extern "C" fn tarczolin_open(
    callers: &mut [Caller],
    last: &mut u64,
    caller: usize,
    file: &[u8],
) -> u64
    ensures { Says (open_for caller file.now)
        (shared callers.old last.old) result
        (shared callers.new last.new) }
{
    c_service::tarczolin_open(callers, last, caller, file)
}

#[unsafe(no_mangle)]
pub extern "C" fn tarczolin_ask(callers: &mut [Caller], last: &mut u64, caller: usize) -> u64
    ensures { Says (ask_for caller)
        (shared callers.old last.old) result
        (shared callers.new last.new) }
{
    c_service::tarczolin_ask(callers, last, caller)
}

#[unsafe(no_mangle)]
pub extern "C" fn tarczolin_serve(callers: &mut [Caller], last: &mut u64, out: &mut [u8]) -> u64
    ensures { ServeSays out.old
        (shared callers.old last.old) result
        (shared callers.new last.new) out.new }
{
    c_service::tarczolin_serve(callers, last, out)
}

#[unsafe(no_mangle)]
pub extern "C" fn tarczolin_close(callers: &mut [Caller], last: &mut u64, caller: usize) -> u64
    ensures { Says (close_for caller)
        (shared callers.old last.old) result
        (shared callers.new last.new) }
{
    c_service::tarczolin_close(callers, last, caller)
}

#[unsafe(no_mangle)]
pub extern "C" fn tarczolin_set(
    callers: &mut [Caller],
    last: &mut u64,
    caller: usize,
    name: &[u8],
) -> u64
    ensures { Says (set_mark caller name.now)
        (shared callers.old last.old) result
        (shared callers.new last.new) }
{
    c_service::tarczolin_set(callers, last, caller, name)
}

#[unsafe(no_mangle)]
pub extern "C" fn tarczolin_return(
    callers: &mut [Caller],
    last: &mut u64,
    caller: usize,
    name: &[u8],
) -> u64
    ensures { Says (return_to caller name.now)
        (shared callers.old last.old) result
        (shared callers.new last.new) }
{
    c_service::tarczolin_return(callers, last, caller, name)
}

#[unsafe(no_mangle)]
pub extern "C" fn tarczolin_forget(
    callers: &mut [Caller],
    last: &mut u64,
    caller: usize,
    name: &[u8],
) -> u64
    ensures { Says (forget caller name.now)
        (shared callers.old last.old) result
        (shared callers.new last.new) }
{
    c_service::tarczolin_forget(callers, last, caller, name)
}
