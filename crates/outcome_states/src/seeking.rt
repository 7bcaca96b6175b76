// The first listed schedule of a program with an outcome that is not known, by states in either memory model.
ghost use Rattle.std.specs.Prelude.{◌≡◌, ◌*◌, ◌≤◌, length, take};
ghost use Rattle.file_decoder.specs.Compiled.{program_of};
ghost use Rattle.spec_schedules.specs.Lists.{find};
ghost use Rattle.spec_model.specs.Alike.{list_of};
ghost use Rattle.spec_model.specs.Laws.{Admitted};
ghost use Rattle.spec_across.specs.Under.{outcome_under};
ghost use Rattle.listing_model.specs.ModelOf.{model_of};
ghost use Rattle.listing_cursor.specs.Steps.{found_of};
ghost use Rattle.outcome_lists.specs.Found.{Within};
ghost use Rattle.states_outcomes.specs.Rows.{is_new};
ghost use Rattle.states_outcomes.specs.Swept.{Kept};
ghost use Rattle.outcome_states.specs.Marks.{Wide, Marks};

use crate::framing::fresh;
use file_decoder::Compiled;
use listing_cursor::{Steps, widened};
use listing_model::Model;
use states_outcomes::Frame;

// How many words a key of the program's positions has.
pub(crate) fn key_width(model: Model, program: Compiled) -> usize
    requires { Admitted (model_of model) (program_of program) }
    ensures { Wide model (program_of program) result }
{
    match model {
        Model::Sequential => states_walk::made(program).width,
        Model::TotalStoreOrder => tso_states::made(program).width,
    }
}

// The first that is new to the rows, with marks that are true of them.
pub(crate) fn next_new(
    model: Model,
    program: Compiled,
    frame: Frame,
    lent: &mut [u64],
) -> Option<Steps<48>>
    requires { Admitted (model_of model) (program_of program) × Wide model (program_of program) frame.width
        × (9 * frame.known ≤ frame.cut) × (frame.cut ≤ length lent.old) }
    ensures words { Kept frame.cut lent.old lent.new }
    ensures short { Within (model_of model).need result }
    ensures first { Marks model (program_of program) frame (take frame.cut lent.old) lent.old
        → (found_of result ≡ find (λ s. is_new (take frame.cut lent.old) frame.known (outcome_under (model_of model) (program_of program) s))
        (list_of (model_of model) (program_of program)))
        × Marks model (program_of program) frame (take frame.cut lent.old) lent.new }
{
    match model {
        Model::Sequential => {
            let m = states_walk::Setup {
                width: frame.width,
                ..states_walk::made(program)
            };
            let s = states_outcomes::first_new(program, m, frame, lent)?;
            Some(widened(&s))
        }
        Model::TotalStoreOrder => {
            let m = tso_states::Setup {
                width: frame.width,
                ..tso_states::made(program)
            };
            let s = tso_outcomes::first_new(program, m, frame, lent)?;
            Some(widened(&s))
        }
    }
}

// The first with an outcome that is none of so many rows before `cut`.
pub fn first_beyond(
    model: Model,
    program: Compiled,
    cut: usize,
    known: usize,
    lent: &mut [u64],
) -> Option<Steps<48>>
    requires { Admitted (model_of model) (program_of program) × (9 * known ≤ cut) × (cut ≤ length lent.old) }
    ensures words { length lent.new ≡ length lent.old }
    ensures short { Within (model_of model).need result }
    ensures first { found_of result ≡ find (λ s. is_new (take cut lent.old) known (outcome_under (model_of model) (program_of program) s))
        (list_of (model_of model) (program_of program)) }
{
    let frame = fresh(key_width(model, program), cut, known, lent);
    next_new(model, program, frame, lent)
}
