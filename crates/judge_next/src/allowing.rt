// Whether the graph allows a step, by the step's note.
ghost use Rattle.std.specs.Prelude.{◌≡◌, ℕ, ◌<◌, ◌≤◌, true, get_or};
ghost use Rattle.spec_sc.specs.State.{State, enabled};
ghost use Rattle.spec_sc.specs.Graph.{Graph};
ghost use Rattle.spec_judge.specs.Consistent.{Values};
ghost use Rattle.spec_judge.proofs.Walk.{fits};
ghost use Rattle.judge_next.specs.HeldWalk.{read_allowed, write_allowed, Ranged, Drawn, Ordering, NoteOf};

use crate::waiting::none_waits;
use file_lines::wide;
use machine::Machine;
use spec_file::STEPS;

// A read: its source is the last write of its location, and it goes where the table says.
fn read_allowed(pairs: [u8; 576], places: [u8; 96], note: [u8; 8]) -> bool
    requires { Ranged note }
    ensures { result ≡ read_allowed pairs places note }
{
    if note[3] == 0 {
        return true;
    }
    let k = wide(note[0]) * 16 + wide(note[1]);
    pairs[k * 2] == note[4] && pairs[k * 2 + 1] == note[5] && places[k] == note[2]
}

// A write: it is its turn, when so many writes have been made at each location.
fn write_allowed(pairs: [u8; 576], made: [usize; 8], note: [u8; 8]) -> bool
    requires { Ranged note × ((l : ℕ) → get_or made l 0 < 24) }
    ensures { result ≡ write_allowed pairs made note }
{
    let l = wide(note[2]);
    let k = 96 + (l * STEPS + made[l]);
    pairs[k * 2] == note[0] && pairs[k * 2 + 1] == note[1]
}

// Whether the graph allows the step with this note on this machine.
pub(crate) fn allowed(
    pairs: [u8; 576],
    places: [u8; 96],
    threads: usize,
    m: Machine,
    made: [usize; 8],
    note: [u8; 8],
) -> bool
    requires { (threads ≤ 6) × Ranged note × ((l : ℕ) → get_or made l 0 < 24) }
    ensures { (g : Graph) (place : Values) (σ : State) (t : ℕ) → Drawn pairs places threads m g place σ → Ordering pairs made g σ
        → enabled σ t ≡ true → t < threads → NoteOf note σ t → (get_or note 4 0 ≡ 254 → ⊥) → result ≡ fits g place σ t }
{
    read_allowed(pairs, places, note)
        && (note[6] == 0
            || write_allowed(pairs, made, note)
                && none_waits(
                    pairs, places, threads, m, note[2], note[4], note[5], note[0], note[1],
                ))
}
