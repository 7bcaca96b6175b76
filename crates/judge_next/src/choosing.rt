// The least thread whose next access the graph allows.
ghost use Rattle.std.specs.Prelude.{◌≡◌, ℕ, ◌<◌, get_or, MatchOption};
ghost use Rattle.spec_file.specs.Program.{Program};
ghost use Rattle.spec_schedules.specs.Order.{Schedule};
ghost use Rattle.spec_schedules.specs.System.{run};
ghost use Rattle.spec_sc.specs.State.{SC, start};
ghost use Rattle.spec_sc.specs.Graph.{Graph};
ghost use Rattle.spec_judge.specs.Consistent.{location_of};
ghost use Rattle.spec_judge.proofs.RoundValues.{final_values};
ghost use Rattle.spec_judge.proofs.Walk.{fits};
ghost use Rattle.judge_next.specs.HeldWalk.{Walking, chosen_of, next_of};

use crate::allowing::allowed;
use file_decoder::Compiled;
use machine::{Machine, enabled, step};

// Whether thread t may step and the graph allows its next access.
fn is_allowed(
    program: &Compiled,
    pairs: [u8; 576],
    places: [u8; 96],
    m: Machine,
    counts: [usize; 8],
    t: u8,
) -> bool
    requires { ((l : ℕ) → get_or counts l 0 < 24) × ((p : Program) × (g : Graph) × (s : Schedule)
        × Walking program.now.code program.now.lengths program.now.threads pairs places p g m counts s) }
    ensures { (p : Program) (g : Graph) (s : Schedule)
        → Walking program.now.code program.now.lengths program.now.threads pairs places p g m counts s
        → result ≡ fits g (location_of p (final_values p g)) (run SC (start p) s) t }
{
    enabled(&program.lengths, m, t)
        && allowed(
            pairs,
            places,
            program.threads,
            m,
            counts,
            step(program, m, t).note,
        )
}

// The least thread whose next access the graph allows, if there is one.
pub fn chosen(
    program: &Compiled,
    pairs: [u8; 576],
    places: [u8; 96],
    m: Machine,
    counts: [usize; 8],
) -> Option<u8>
    requires { ((l : ℕ) → get_or counts l 0 < 24) × ((p : Program) × (g : Graph) × (s : Schedule)
        × Walking program.now.code program.now.lengths program.now.threads pairs places p g m counts s) }
    ensures within { MatchOption result Unit (λ t. t < 6) }
    ensures next { (p : Program) (g : Graph) (s : Schedule)
        → Walking program.now.code program.now.lengths program.now.threads pairs places p g m counts s → chosen_of result ≡ next_of p g s }
{
    for t in 0u8..6 {
        if is_allowed(program, pairs, places, m, counts, t) {
            return Some(t);
        }
    }
    None
}
