// The judge: the walk, and the comparison of the graph that it made with the one that was given.
ghost use Rattle.std.specs.Prelude.{◌≡◌, List, ℕ};
ghost use Rattle.spec_file.specs.Program.{Program, initial};
ghost use Rattle.spec_sc.specs.Graph.{Graph};
ghost use Rattle.machine.specs.Held.{Loaded};
ghost use Rattle.spec_judge.proofs.Walk.{judge};
ghost use Rattle.spec_judge.specs.Reading.{parsed, read_graph};
ghost use Rattle.graph_reader.specs.Held.{Tabled};
ghost use Rattle.judge.specs.HeldYes.{JudgedAs};

use crate::walking::walked;
use file_decoder::Compiled;
use judge_values::places;
use listing_cursor::Steps;
use machine::ended_all;
use spec_file::STEPS;

// Judges the graph in this table for the program: the least schedule that makes it, if there is one.
pub fn judged(program: &Compiled, pairs: [u8; 576], counts: [usize; 8]) -> Option<Steps<STEPS>>
    requires { (p : Program) × (text : List ℕ) × (g : Graph) × Loaded program.now.code program.now.lengths program.now.threads p
        × (program.now.starting ≡ initial p) × (read_graph program.now.threads text ≡ parsed g) × Tabled pairs counts g }
    ensures { (p : Program) (text : List ℕ) (g : Graph) → Loaded program.now.code program.now.lengths program.now.threads p
        → program.now.starting ≡ initial p → read_graph program.now.threads text ≡ parsed g → Tabled pairs counts g
        → JudgedAs result (judge p g) }
{
    let table = places(program, pairs);
    let w = walked(program, pairs, table);
    if !ended_all(&program.lengths, w.machine) || w.made.pairs != pairs || w.made.counts != counts {
        return None;
    }
    let schedule = w.schedule;
    Some(Steps {
        schedule,
        steps: w.steps,
    })
}
