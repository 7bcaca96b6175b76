// The walk: always the least thread whose next access the graph allows, at most 24 steps.
ghost use Rattle.std.specs.Prelude.{◌≡◌};
ghost use Rattle.spec_file.specs.Program.{Program, initial};
ghost use Rattle.spec_sc.specs.Graph.{Graph};
ghost use Rattle.judge_next.specs.HeldWalk.{Given};
ghost use Rattle.judge.specs.HeldYes.{Walked};

use crate::making::{Made, with_event, with_source};
use file_decoder::Compiled;
use judge_next::chosen;
use machine::{Machine, started, step};
use spec_file::STEPS;

// The steps, how many they are, the machine behind them, and the table of the graph that they made.
#[derive(Clone, Copy)]
pub struct Walk {
    pub schedule: [u8; STEPS],
    pub steps: usize,
    pub machine: Machine,
    pub made: Made,
}

// Walks by the table of a graph and the places of its accesses.
pub(crate) fn walked(program: &Compiled, pairs: [u8; 576], places: [u8; 96]) -> Walk
    requires { (p : Program) × (g : Graph) × Given program.now.code program.now.lengths program.now.threads pairs places p g
        × (program.now.starting ≡ initial p) }
    ensures { (p : Program) (g : Graph) → Given program.now.code program.now.lengths program.now.threads pairs places p g
        → program.now.starting ≡ initial p → Walked program.now.code program.now.lengths p g result }
{
    let mut schedule = [0u8; STEPS];
    let mut machine = started(program);
    let mut made = Made {
        pairs: [254u8; 576],
        counts: [0usize; 8],
    };
    for k in 0..STEPS {
        let Some(t) = chosen(program, pairs, places, machine, made.counts) else {
            return Walk {
                schedule,
                steps: k,
                machine,
                made,
            };
        };
        let s = step(program, machine, t);
        made = with_event(with_source(made, s.note), s.note);
        schedule[k] = t;
        machine = s.machine;
    }
    Walk {
        schedule,
        steps: STEPS,
        machine,
        made,
    }
}
