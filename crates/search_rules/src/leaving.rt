// The locations that the code of each row's thread from this row on may still read, and write.
ghost use Rattle.std.specs.Prelude.{◌≡◌, List, [], ◌∷◌, ◌+◌, ◌<◌, ◌≤◌, get_or};
ghost use Rattle.spec_file.specs.declared.instruction.Instruction.{Instruction};
ghost use Rattle.file_rows.specs.Rows.{instruction_at};
ghost use Rattle.spec_sc.specs.Local.{first_takes};
ghost use Rattle.theory_sc.specs.Sets.{joined};
ghost use Rattle.theory_sc.specs.Sleepers.{reads_left, writes_left};
ghost use Rattle.search_rules.specs.Left.{Left};

use file_decoder::Compiled;
use file_rows::Code;
use search_place::{is_in, is_writer, location_at};

// The set with location l in it, if there is such a location.
fn with_location(l: u8, set: u8) -> u8
    ensures { result ≡ joined l set }
{
    if 8 <= l || is_in(set, l) {
        return set;
    }
    set + (1u8 << l)
}

// Whether the row holds an access that reads.
pub fn is_reader(code: &Code, row: usize) -> bool
    requires { row < 96 }
    ensures { result ≡ first_takes (instruction_at code.now row ∷ []) }
{
    matches!(code[row * 16], 0x11 | 0x12 | 0x13)
}

// What code may read that begins with the row's instruction, where the code behind it may read this.
fn reads_from(code: &Code, row: usize, set: u8) -> u8
    requires { row < 96 }
    ensures { (is : List Instruction) → set ≡ reads_left is → result ≡ reads_left (instruction_at code.now row ∷ is) }
{
    if is_reader(code, row) {
        return with_location(location_at(code, row), set);
    }
    set
}

// What it may write, where the code behind it may write this.
fn writes_from(code: &Code, row: usize, set: u8) -> u8
    requires { row < 96 }
    ensures { (is : List Instruction) → set ≡ writes_left is → result ≡ writes_left (instruction_at code.now row ∷ is) }
{
    if is_writer(code, row) {
        return with_location(location_at(code, row), set);
    }
    set
}

// What stands in a row's place of an array, where the thread, of n instructions, has one in the row before; else the empty set.
fn behind(left: &[u8; 192], k: usize, i: usize, n: usize) -> u8
    requires { (i < 16) × (i + 1 < n → k < 192) }
    ensures { (i + 1 < n → result ≡ get_or left.now k 0) × (n ≤ i + 1 → result ≡ 0) }
{
    if i + 1 < n { left[k] } else { 0 }
}

// The sets of all rows: of reads, then of writes.
pub fn left_sets(program: &Compiled) -> [u8; 192]
    ensures { Left program.now.code program.now.lengths result }
{
    let mut left = [0u8; 192];
    for row in (0..96).rev() {
        let i = row % 16;
        let n = program.lengths[row / 16];
        if i < n && n <= 16 {
            let reads = behind(&left, row + 1, i, n);
            let writes = behind(&left, row + 97, i, n);
            left[row] = reads_from(&program.code, row, reads);
            left[row + 96] = writes_from(&program.code, row, writes);
        }
    }
    left
}
