// The live registers of every row, from the last row on: code has no loops.
ghost use Rattle.std.specs.Prelude.{◌≡◌, not, ◌&&◌, ◌||◌, List, ◌∷◌, ◌+◌, ◌<◌, ◌≤◌, get_or};
ghost use Rattle.spec_file.specs.WellFormed.{most_skipped};
ghost use Rattle.spec_file.specs.declared.instruction.Instruction.{Instruction};
ghost use Rattle.file_rows.specs.Rows.{instruction_at};
ghost use Rattle.spec_schedules.specs.Sets.{has};
ghost use Rattle.theory_sc.specs.Sets.{set_of};
ghost use Rattle.theory_sc_key.specs.Registers.{reads_register, writes_register, live};
ghost use Rattle.states_live.specs.Live.{Live};

use crate::naming::{reads_register, writes_register};
use file_decoder::Compiled;
use file_lines::choose;
use file_rows::{Code, skip_at};
use search_place::is_in;

// Whether register r is live before a row's instruction, where these sets are live behind it: without a skip, and with one.
fn is_live(code: &Code, row: usize, r: u8, next: u8, far: u8) -> bool
    requires { row < 96 }
    ensures { result ≡ (reads_register (instruction_at code.now row) r
        || (not (writes_register (instruction_at code.now row) r) && (has next r || has far r))) }
{
    reads_register(code, row, r)
        || !writes_register(code, row, r) && (is_in(next, r) || is_in(far, r))
}

// The four registers that are.
fn live_before(code: &Code, row: usize, next: u8, far: u8) -> u8
    requires { row < 96 }
    ensures { (is : List Instruction) → next ≡ set_of (live 0 is) 4
        → far ≡ set_of (live (most_skipped (instruction_at code.now row)) is) 4
        → result ≡ set_of (live 0 (instruction_at code.now row ∷ is)) 4 }
{
    let b0 = is_live(code, row, 0, next, far);
    let b1 = is_live(code, row, 1, next, far);
    let b2 = is_live(code, row, 2, next, far);
    let b3 = is_live(code, row, 3, next, far);
    choose(b0, 1, 0) + choose(b1, 2, 0) + choose(b2, 4, 0) + choose(b3, 8, 0)
}

// The set of the row d behind row k, where n rows from k on have instructions of the thread; else the empty set.
fn mask_at(masks: &[u8; 96], k: usize, d: usize, n: usize) -> u8
    requires { d < n → k + d < 96 }
    ensures { (d < n → result ≡ get_or masks.now (k + d) 0) × (n ≤ d → result ≡ 0) }
{
    if d < n { masks[k + d] } else { 0 }
}

// For each row of a thread's code the set of registers that are live before its instruction.
pub fn live_masks(program: &Compiled) -> [u8; 96]
    ensures { Live program.now.code program.now.lengths result }
{
    let mut masks = [0u8; 96];
    for row in (0..96).rev() {
        let i = row % 16;
        let n = program.lengths[row / 16];
        if i < n && n <= 16 {
            let next = mask_at(&masks, row + 1, 0, n - i - 1);
            let far = mask_at(&masks, row + 1, skip_at(&program.code, row), n - i - 1);
            masks[row] = live_before(&program.code, row, next, far);
        }
    }
    masks
}
