// What the access in a row is, read off the row's bytes.
ghost use Rattle.std.specs.Prelude.{◌≡◌, [], ◌∷◌, ◌<◌, true};
ghost use Rattle.file_rows.specs.Rows.{instruction_at};
ghost use Rattle.spec_sc.specs.Local.{begins_with_access, first_place};
ghost use Rattle.spec_tso.specs.State.{first_locks};

use file_rows::Code;

// Whether the row holds a fetch and add or a compare and swap.
pub fn locks_at(code: &Code, row: usize) -> bool
    requires { row < 96 }
    ensures { result ≡ first_locks (instruction_at code.now row ∷ []) }
{
    let b = code[row * 16];
    0x12 <= b && b <= 0x13
}

// The location of the access in a row.
pub(crate) fn location_at(code: &Code, row: usize) -> u8
    requires { row < 96 }
    ensures { begins_with_access (instruction_at code.now row ∷ []) ≡ true
        → result ≡ first_place (instruction_at code.now row ∷ []) }
{
    let at = row * 16;
    if code[at] == 0x10 {
        code[at + 1]
    } else {
        code[at + 2]
    }
}
