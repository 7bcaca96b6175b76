// Count and first failing schedule of a decoded program, with a lent table: it is cleared first, whatever it holds, and left with zeros.
ghost use Rattle.std.specs.Prelude.{◌≡◌, true, ◌≤◌, length, replicate};
ghost use Rattle.file_decoder.specs.Compiled.{program_of};
ghost use Rattle.spec_schedules.specs.Lists.{head_of};
ghost use Rattle.spec_model.specs.Answers.{count_of};
ghost use Rattle.spec_model.specs.Laws.{Admitted};
ghost use Rattle.spec_model.specs.Search.{sought};
ghost use Rattle.spec_tso.specs.TotalStoreOrder.{tso};
ghost use Rattle.listing_cursor.specs.Steps.{found_of, Short};
ghost use Rattle.tso_states.specs.Made.{Made};

use crate::counting::behind;
use crate::seeking::first_behind;
use crate::setup::Setup;
use file_decoder::Compiled;
use listing_cursor::Steps;
use machine::some_failed;
use machine_access::accesses_below;
use search_place::known_lines;
use search_rules::left_sets;
use states_live::{live_masks, most_registers};
use states_memory::{Shape, Tally, charged};
use table::{clear, slots};
use tso_key::first_spot;
use tso_place::begun;

// From so many steps on no key is made: so few steps are left then that to look is dearer than to walk. Which number that is changes no
// answer.
const DEEP: usize = 28;

// Makes ready. Of a key three words are sets, numbers and locations; no more stores are pending than the program has accesses.
pub fn made(program: Compiled) -> Setup
    requires { Admitted tso (program_of program) }
    ensures { Made program result }
{
    let class = known_lines(program.class, program.groups);
    let known = Compiled { class, ..program };
    let left = left_sets(&known);
    let masks = live_masks(&known);
    let accesses = accesses_below(&known.code, &known.lengths, known.threads);
    let registers = most_registers(&masks);
    let spot = first_spot(begun(&known));
    Setup {
        program: known,
        left,
        masks,
        width: 3 + (accesses + 1) / 2 + (9 + registers) / 2,
        spot,
    }
}

// How many are listed, and how many of these fail, modulo 2^64.
pub fn counted(program: Compiled, table: &mut [u64]) -> Tally
    requires { Admitted tso (program_of program) }
    ensures numbers { (result.listed ≡ (count_of tso (program_of program)).listed) × (result.failing ≡ (count_of tso (program_of program)).failed) }
    ensures zeros { table.new ≡ replicate (length table.old) 0 }
{
    let m = made(program);
    let shape = Shape {
        width: m.width,
        slots: slots(table.len(), m.width, 2),
        deep: DEEP,
    };
    clear(table);
    let n = behind(&m, shape, &m.spot, table);
    clear(table);
    charged(some_failed(m.spot.place.threads), n)
}

// The first listed schedule that fails.
pub fn first_failing(program: Compiled, table: &mut [u64]) -> Option<Steps<32>>
    requires { Admitted tso (program_of program) }
    ensures first { Short result × (found_of result ≡ head_of (sought tso true (program_of program))) }
    ensures zeros { table.new ≡ replicate (length table.old) 0 }
{
    let m = made(program);
    let shape = Shape {
        width: m.width,
        slots: slots(table.len(), m.width, 0),
        deep: DEEP,
    };
    clear(table);
    let r = first_behind(&m, shape, &m.spot, table);
    clear(table);
    r
}
