// The table of the graph that the walk has made so far.
ghost use Rattle.std.specs.Prelude.{◌≡◌, ℕ, ◌<◌, get_or};
ghost use Rattle.judge_next.specs.HeldWalk.{Ranged};
ghost use Rattle.judge.specs.MadeTable.{source_added, event_added, count_added};

use file_lines::wide;
use spec_file::STEPS;

// What a walk has made so far, as in the table of a text: sources and writes, and how many writes each location has.
#[derive(Clone, Copy)]
pub struct Made {
    pub pairs: [u8; 576],
    pub counts: [usize; 8],
}

// The table with the source of the step with this note, if it reads.
pub(crate) fn with_source(made: Made, note: [u8; 8]) -> Made
    requires { Ranged note }
    ensures { result ≡ record { pairs = source_added made.pairs note; counts = made.counts } }
{
    if note[3] == 0 {
        return made;
    }
    let at = (wide(note[0]) * 16 + wide(note[1])) * 2;
    let mut pairs = made.pairs;
    pairs[at] = note[4];
    pairs[at + 1] = note[5];
    Made { pairs, ..made }
}

// The table with the event of the step with this note, if it writes.
pub(crate) fn with_event(made: Made, note: [u8; 8]) -> Made
    requires { Ranged note × ((l : ℕ) → get_or made.counts l 0 < 24) }
    ensures { result ≡ record { pairs = event_added made.pairs made.counts note; counts = count_added made.counts note } }
{
    if note[6] == 0 {
        return made;
    }
    let l = wide(note[2]);
    let mut counts = made.counts;
    let at = (96 + (l * STEPS + counts[l])) * 2;
    let mut pairs = made.pairs;
    pairs[at] = note[0];
    pairs[at + 1] = note[1];
    counts[l] += 1;
    Made { pairs, counts }
}
