// What comes first in a call for an open caller: its refusals, and the record's program.
ghost use Rattle.std.specs.Prelude.{◌≡◌, true};
ghost use Rattle.std.proofs.Math.Option.{none, some};
ghost use Rattle.spec_file.specs.WellFormed.{WellFormed};
ghost use Rattle.file_decoder.specs.Compiled.{program_of};
ghost use Rattle.spec_service.specs.Seat.{is_open};
ghost use Rattle.spec_service.specs.Record.{reading};
ghost use Rattle.spec_service.specs.Call.{by_program};
ghost use Rattle.spec_service.specs.Marks.{name_fits};
ghost use Rattle.service_marks.specs.Numbers.{open_refusal, refusal_of};

use file_decoder::{Compiled, decode};
use service_record::is_open;
use spec_file::Refusal;
use spec_service::Caller;

// Whether a name has 1 to 8 bytes.
pub(crate) fn name_fits(n: usize) -> bool
    ensures { result ≡ name_fits n }
{
    (1..=8).contains(&n)
}

// A refusal by this number, which has no place.
pub fn by_number(number: u8) -> Refusal
    ensures { result ≡ record { number = number; place = 0 } }
{
    Refusal { number, place: 0 }
}

// Refuses a call for caller k, who must be open and has this record, of a list of n records: by 22, 42, 44 in this order.
pub fn open_refusal(n: usize, c: &Caller, k: usize) -> Result<(), Refusal>
    ensures { result ≡ open_refusal n k (is_open (reading c.now)) }
{
    if n != 4 {
        return Err(by_number(22));
    }
    if 3 < k {
        return Err(by_number(42));
    }
    if !is_open(c) {
        return Err(by_number(44));
    }
    Ok(())
}

// Refuses a call on marks, with a name of so many bytes: by 22, 42, 44, 45 in this order.
pub fn first_refusal(n: usize, c: &Caller, k: usize, bytes: usize) -> Result<(), Refusal>
    ensures { result ≡ refusal_of n k (is_open (reading c.now)) (name_fits bytes) }
{
    open_refusal(n, c, k)?;
    if !name_fits(bytes) {
        return Err(by_number(45));
    }
    Ok(())
}

// The program of an open record.
#[tactic(auto, using(crate::proofs::Foremost::open_short))]
pub fn program_of(c: &Caller) -> Compiled
    requires { is_open (reading c.now) ≡ true }
    ensures { (by_program (reading c.now) none some ≡ some (program_of result)) × WellFormed (program_of result) }
{
    match decode(&c.file[..c.length]) {
        Ok(p) => p,
        Err(_) => unreachable!(),
    }
}
