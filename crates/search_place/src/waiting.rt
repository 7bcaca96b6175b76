// What the access in a row does, as far as others have to wait for it: read off the row's bytes.
ghost use Rattle.std.specs.Prelude.{◌≡◌, [], ◌∷◌, ◌<◌};
ghost use Rattle.file_rows.specs.Rows.{instruction_at};
ghost use Rattle.spec_sc.specs.Local.{first_place};
ghost use Rattle.spec_sc.specs.Actions.{conflict};
ghost use Rattle.theory_search.specs.Ahead.{could_add, first_may_write};
ghost use Rattle.search_place.specs.Steps.{accessing_at};

use file_rows::{Code, operand_at};
use machine_access::writes_at;
use spec_file::Operand;

// The location of the access in a row; 0 where there is none.
pub fn location_at(code: &Code, row: usize) -> u8
    requires { row < 96 }
    ensures { result ≡ first_place (instruction_at code.now row ∷ []) }
{
    let at = row * 16;
    match code[at] {
        0x10 => code[at + 1],
        0x11 | 0x12 | 0x13 => code[at + 2],
        _ => 0,
    }
}

// Whether an operand could be other than zero; a register could, whatever it holds now.
fn could_add(p: Operand) -> bool
    ensures { result ≡ could_add p }
{
    match p {
        Operand::Constant(v) => v != 0,
        Operand::Register(_) => true,
    }
}

// Whether it could write.
pub fn is_writer(code: &Code, row: usize) -> bool
    requires { row < 96 }
    ensures { result ≡ first_may_write (instruction_at code.now row ∷ []) }
{
    match code[row * 16] {
        0x10 | 0x13 => true,
        0x12 => could_add(operand_at(code, row, 3)),
        _ => false,
    }
}

// Whether the access in a row, with these registers and this memory, conflicts with one at l that wrote or not.
pub(crate) fn conflicts_at(
    code: &Code,
    row: usize,
    registers: [u32; 4],
    memory: [u32; 8],
    l: u8,
    wrote: bool,
) -> bool
    requires { row < 96 }
    ensures { result ≡ conflict (record { thread = 0; location = l; wrote = wrote })
        (accessing_at code.now row registers memory) }
{
    location_at(code, row) == l && (wrote || writes_at(code, row, registers, memory))
}
