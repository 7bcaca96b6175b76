// Known outcomes in lent words: nine words each, one behind the other.
ghost use Rattle.std.specs.Prelude.{◌≡◌, cond, ◌*◌, ◌≤◌, length};
ghost use Rattle.table.specs.Said.{said_at};
ghost use Rattle.states_outcomes.specs.Rows.{told, row_of, known_row};

use file_lines::choose;
use table::look;

// How lent words are divided: before `cut` stand so many known outcomes, behind it a table of so many slots with keys of so many words.
#[derive(Clone, Copy)]
pub struct Frame {
    pub width: usize,
    pub slots: usize,
    pub cut: usize,
    pub known: usize,
}

// An outcome: whether something failed, in a word that is never 0, and the eight values of memory.
pub(crate) fn row_of(memory: [u32; 8], failed: bool) -> [u64; 9]
    ensures { result ≡ row_of (record { memory = memory; fails = failed }) }
{
    [
        choose(failed, 2, 1),
        memory[0] as u64,
        memory[1] as u64,
        memory[2] as u64,
        memory[3] as u64,
        memory[4] as u64,
        memory[5] as u64,
        memory[6] as u64,
        memory[7] as u64,
    ]
}

// Whether the words from here on are the row's.
fn stands(rows: &[u64], at: usize, row: &[u64]) -> bool
    ensures { result ≡ told (said_at at 0 rows.now row.now) }
{
    look(rows, at, 0, row).is_some()
}

// Whether the row is among the first n.
pub(crate) fn is_known(rows: &[u64], n: usize, row: &[u64]) -> bool
    requires { 9 * n ≤ length rows.now }
    ensures { result ≡ known_row rows.now n row.now }
{
    for k in 0..n {
        if stands(rows, 9 * k, row) {
            return true;
        }
    }
    false
}
