// What total store order turns away: a program with more than sixteen accesses in the file.
ghost use Rattle.std.specs.Prelude.{◌≡◌, ltb};
ghost use Rattle.spec_file.specs.Program.{Program};
ghost use Rattle.spec_file.specs.WellFormed.{all_accesses};
ghost use Rattle.machine.specs.Held.{Loaded};

use file_decoder::Compiled;
use machine_access::accesses_below;

// Whether a program has more than sixteen accesses, also of those that no run does.
pub fn too_many(program: &Compiled) -> bool
    requires { (p : Program) × Loaded program.now.code program.now.lengths program.now.threads p }
    ensures { (p : Program) → Loaded program.now.code program.now.lengths program.now.threads p
        → result ≡ ltb 16 (all_accesses p.threads) }
{
    16 < accesses_below(&program.code, &program.lengths, program.threads)
}
