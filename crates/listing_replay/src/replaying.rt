// A schedule carried out by the memory model's own machine.
ghost use Rattle.file_decoder.specs.Compiled.{program_of};
ghost use Rattle.spec_model.specs.Laws.{Admitted};
ghost use Rattle.listing_model.specs.ModelOf.{model_of};
ghost use Rattle.listing_replay.specs.Replays.{Replays};

use file_decoder::Compiled;
use listing_model::Model;
use spec_file::Refusal;

// Whether a schedule goes through whole or what refuses it, and notes of what its steps read and wrote: as many as `notes` stand in front of
// the log.
#[derive(Clone, Copy)]
pub struct Replay {
    pub end: Result<(), Refusal>,
    pub log: [u8; 192],
    pub notes: usize,
}

// Carries out a schedule of a listed program. The model is told apart here, once for a schedule.
pub fn replayed(model: Model, program: Compiled, schedule: &[u8]) -> Replay
    requires { Admitted (model_of model) (program_of program) }
    ensures { Replays model (program_of program) schedule.now result }
{
    match model {
        Model::Sequential => {
            let r = machine_replay::replayed(&program, schedule);
            let log = r.log;
            Replay {
                end: r.end,
                log,
                notes: r.steps,
            }
        }
        Model::TotalStoreOrder => {
            let r = tso_replay::replayed(&program, schedule);
            let log = r.log;
            Replay {
                end: r.end,
                log,
                notes: r.notes,
            }
        }
    }
}
