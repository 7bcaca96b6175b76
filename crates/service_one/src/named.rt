// Set, return and forget on one record, which the list has at k, of a list of n records: the record that is put back, or the refusal. 22,
// 42, 44 and 45 come before the marks.
ghost use Rattle.std.specs.Prelude.{◌≡◌, List, length, get_or};
ghost use Rattle.spec_service.specs.Record.{fresh};
ghost use Rattle.spec_service.specs.Call.{set_mark, return_to, forget};
ghost use Rattle.service_one.specs.Left.{Left};

use service_marks::{
    by_number, first_refusal, forgotten, marked, program_of, returned_to, slot_for, slot_of,
};
use spec_file::Refusal;
use spec_service::Caller;

// Set: 47 where the name is a ninth.
pub fn set_one(n: usize, c: &Caller, k: usize, name: &[u8]) -> Result<Caller, Refusal>
    ensures { (cs : List Caller) → length cs ≡ n → c.now ≡ get_or cs k fresh → Left (set_mark k name.now) cs k result }
{
    first_refusal(n, c, k, name.len())?;
    let p = program_of(c);
    let Some(i) = slot_for(&p, name, &c.marks) else {
        return Err(by_number(47));
    };
    Ok(marked(&p, name, c, i))
}

// Return: 46 where the name is unknown. The record stands where the mark does, and asks where it asked.
pub fn return_one(n: usize, c: &Caller, k: usize, name: &[u8]) -> Result<Caller, Refusal>
    ensures { (cs : List Caller) → length cs ≡ n → c.now ≡ get_or cs k fresh → Left (return_to k name.now) cs k result }
{
    first_refusal(n, c, k, name.len())?;
    let p = program_of(c);
    let Some(i) = slot_of(&p, name, &c.marks) else {
        return Err(by_number(46));
    };
    Ok(returned_to(c, i))
}

// Forget: 46 where the name is unknown.
pub fn forget_one(n: usize, c: &Caller, k: usize, name: &[u8]) -> Result<Caller, Refusal>
    ensures { (cs : List Caller) → length cs ≡ n → c.now ≡ get_or cs k fresh → Left (forget k name.now) cs k result }
{
    first_refusal(n, c, k, name.len())?;
    let p = program_of(c);
    if slot_of(&p, name, &c.marks).is_none() {
        return Err(by_number(46));
    }
    Ok(forgotten(&p, name, c))
}
