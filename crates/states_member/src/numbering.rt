// The member number k of a decoded program's list, and how many are smaller than a full schedule, with a lent table: it is cleared first,
// whatever it holds, and left with zeros.
ghost use Rattle.std.specs.Prelude.{◌≡◌, ◌≤◌, ◌%◌, ◌^◌, length, replicate};
ghost use Rattle.spec_file.specs.WellFormed.{WellFormed};
ghost use Rattle.file_decoder.specs.Compiled.{program_of};
ghost use Rattle.spec_schedules.specs.Calls.{member};
ghost use Rattle.spec_model.specs.Alike.{list_of};
ghost use Rattle.spec_model.specs.Model.{Full};
ghost use Rattle.spec_sc.specs.Sequential.{sc};
ghost use Rattle.spec_members.specs.Rank.{smaller};
ghost use Rattle.listing_cursor.specs.Steps.{found_of, Short};

use crate::descending::kth_behind;
use crate::ranking::rank_behind;
use file_decoder::Compiled;
use listing_cursor::Steps;
use spec_file::STEPS;
use states_walk::{made, shape_of};
use table::clear;

// The member number k, from 0.
pub fn kth(program: Compiled, k: u64, table: &mut [u64]) -> Option<Steps<STEPS>>
    requires { WellFormed (program_of program) }
    ensures member { Short result × (found_of result ≡ member (list_of sc (program_of program)) k) }
    ensures zeros { table.new ≡ replicate (length table.old) 0 }
{
    let m = made(program);
    let shape = shape_of(m.width, m.deep, table.len(), 2);
    clear(table);
    let r = kth_behind(&m, shape, &m.spot, table, k);
    clear(table);
    r
}

// How many listed schedules are smaller than a full one, modulo 2^64.
pub fn rank(program: Compiled, schedule: &[u8], table: &mut [u64]) -> u64
    requires { WellFormed (program_of program) × Full sc (program_of program) schedule.now }
    ensures number { result ≡ length (smaller sc (program_of program) schedule.now) % 2 ^ 64 }
    ensures zeros { table.new ≡ replicate (length table.old) 0 }
{
    let m = made(program);
    let shape = shape_of(m.width, m.deep, table.len(), 2);
    clear(table);
    let n = rank_behind(&m, shape, &m.spot, table, schedule);
    clear(table);
    n
}
