// Open, ask and close on one record, which the list has at k, of a list of n records: the record that is put back, or the refusal.
ghost use Rattle.std.specs.Prelude.{◌≡◌, ◌≤◌, List, length, get_or};
ghost use Rattle.spec_file.specs.Decode.{decode};
ghost use Rattle.file_decoder.specs.Compiled.{answer_of};
ghost use Rattle.spec_service.specs.Record.{fresh};
ghost use Rattle.spec_service.specs.Call.{open_for, ask_for, close_for, last_read};
ghost use Rattle.service_one.specs.Left.{Left};

use file_decoder::Compiled;
use service_marks::{by_number, open_refusal};
use service_record::{asked, fresh_record, is_open, opened_with};
use spec_file::Refusal;
use spec_service::Caller;

// A number above 3 is read as 3.
pub fn last_read(last: u64) -> u64
    ensures read { result ≡ last_read last }
    ensures small { result ≤ 3 }
{
    last.min(3)
}

// The last caller is given back as it is read.
pub fn settle(last: &mut u64)
    ensures { last.new ≡ last_read last.old }
{
    *last = last_read(*last);
}

// The program of a file, or what refuses it.
fn program_from(file: &[u8]) -> Result<Compiled, Refusal>
    ensures { answer_of result ≡ decode file.now }
{
    file_decoder::decode(file)
}

// Open: 22, 42 and 43 come before the file's refusals.
pub fn open_one(n: usize, c: &Caller, k: usize, file: &[u8]) -> Result<Caller, Refusal>
    ensures { (cs : List Caller) → length cs ≡ n → c.now ≡ get_or cs k fresh → Left (open_for k file.now) cs k result }
{
    if n != 4 {
        return Err(by_number(22));
    }
    if 3 < k {
        return Err(by_number(42));
    }
    if is_open(c) {
        return Err(by_number(43));
    }
    program_from(file)?;
    Ok(opened_with(file))
}

// Ask: twice is once.
pub fn ask_one(n: usize, c: &Caller, k: usize) -> Result<Caller, Refusal>
    ensures { (cs : List Caller) → length cs ≡ n → c.now ≡ get_or cs k fresh → Left (ask_for k) cs k result }
{
    open_refusal(n, c, k)?;
    Ok(asked(c))
}

// Close: the record is emptied.
pub fn close_one(n: usize, c: &Caller, k: usize) -> Result<Caller, Refusal>
    ensures { (cs : List Caller) → length cs ≡ n → c.now ≡ get_or cs k fresh → Left (close_for k) cs k result }
{
    open_refusal(n, c, k)?;
    Ok(fresh_record())
}
