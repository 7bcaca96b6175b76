// Count and first failing schedule of a decoded program, with a lent table: whatever it holds, it is left with zeros.
ghost use Rattle.std.specs.Prelude.{◌≡◌, true, ◌≤◌, length, replicate};
ghost use Rattle.spec_file.specs.WellFormed.{WellFormed};
ghost use Rattle.file_decoder.specs.Compiled.{program_of};
ghost use Rattle.spec_schedules.specs.Lists.{head_of};
ghost use Rattle.spec_model.specs.Answers.{count_of};
ghost use Rattle.spec_model.specs.Search.{sought};
ghost use Rattle.spec_sc.specs.Sequential.{sc};
ghost use Rattle.listing_cursor.specs.Steps.{found_of, Short};
ghost use Rattle.states_walk.specs.Made.{Made};

use crate::counting::behind;
use crate::plain::tally_behind;
use crate::seeking::first_behind;
use crate::setup::Setup;
use file_decoder::Compiled;
use file_rows::Code;
use listing_cursor::Steps;
use machine::some_failed;
use search_place::{begun, known_lines};
use search_rules::left_sets;
use spec_file::STEPS;
use states_key::first_spot;
use states_live::{live_masks, width};
use states_memory::{ONE, Shape, Tally, charged};
use table::{clear, slots};

// Where at most so many accesses are left no key is made.
const FEW: usize = 3;

// The same where at most three threads have fewer schedules of as many accesses.
const FEW_OF_THREE: usize = 4;

// How many rows hold an access.
fn accesses(code: &Code) -> usize {
    (0..96).filter(|row| code[*row * 16] / 4 == 4).count()
}

// A table of so many words whose entries have so many behind the key, for a program with keys of this width, none of them behind so many
// steps. None is made where the table has no slot.
pub fn shape_of(width: usize, deep: usize, words: usize, entry: usize) -> Shape
    ensures { result.width ≡ width }
{
    let slots = slots(words, width, entry);
    Shape {
        width,
        slots,
        deep: if slots == 0 { 0 } else { deep },
    }
}

// Behind so many steps no key is made: a step is an access, so only a few are left.
fn depth(code: &Code, threads: usize) -> usize {
    let few = if threads <= 3 { FEW_OF_THREE } else { FEW };
    accesses(code).saturating_sub(few)
}

// Makes ready.
pub fn made(program: Compiled) -> Setup
    requires { WellFormed (program_of program) }
    ensures { Made program result }
{
    let class = known_lines(program.class, program.groups);
    let known = Compiled { class, ..program };
    let left = left_sets(&known);
    let masks = live_masks(&known);
    let start = begun(&known);
    Setup {
        program: known,
        left,
        masks,
        width: width(&masks),
        deep: depth(&program.code, program.threads),
        spot: first_spot(start),
    }
}

// A program of at most so many accesses is counted without keys: that takes less time than the keys and a table cleared before.
const SMALL: usize = 8;

// The numbers of a program, without keys.
fn counted_plainly(program: Compiled) -> Tally
    requires { WellFormed (program_of program) }
    ensures { (result.listed ≡ (count_of sc (program_of program)).listed) × (result.failing ≡ (count_of sc (program_of program)).failed) }
{
    let class = known_lines(program.class, program.groups);
    let known = Compiled { class, ..program };
    let left = left_sets(&known);
    let x = begun(&known);
    let failed = some_failed(x.threads);
    if x.live == 0 {
        return charged(failed, ONE);
    }
    charged(failed, tally_behind(&known, &left, &x))
}

// The numbers of a program, with keys.
fn counted_by_keys(program: Compiled, table: &mut [u64]) -> Tally
    requires { WellFormed (program_of program) }
    ensures words { length table.new ≡ length table.old }
    ensures numbers { (result.listed ≡ (count_of sc (program_of program)).listed) × (result.failing ≡ (count_of sc (program_of program)).failed) }
{
    let m = made(program);
    let shape = shape_of(m.width, m.deep, table.len(), 2);
    clear(table);
    let n = behind(&m, shape, &m.spot, table);
    charged(some_failed(m.spot.place.threads), n)
}

// How many are listed, and how many of these fail, modulo 2^64.
pub fn counted(program: Compiled, table: &mut [u64]) -> Tally
    requires { WellFormed (program_of program) }
    ensures numbers { (result.listed ≡ (count_of sc (program_of program)).listed) × (result.failing ≡ (count_of sc (program_of program)).failed) }
    ensures zeros { table.new ≡ replicate (length table.old) 0 }
{
    let few = accesses(&program.code) <= SMALL;
    let n = if few {
        counted_plainly(program)
    } else {
        counted_by_keys(program, table)
    };
    clear(table);
    n
}

// The first listed schedule that fails.
pub fn first_failing(program: Compiled, table: &mut [u64]) -> Option<Steps<STEPS>>
    requires { WellFormed (program_of program) }
    ensures first { Short result × (found_of result ≡ head_of (sought sc true (program_of program))) }
    ensures zeros { table.new ≡ replicate (length table.old) 0 }
{
    let m = made(program);
    let shape = shape_of(m.width, m.deep, table.len(), 0);
    clear(table);
    let r = first_behind(&m, shape, &m.spot, table);
    clear(table);
    r
}
