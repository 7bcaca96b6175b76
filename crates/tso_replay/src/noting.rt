// The note of a step, for the graph: of a read when it is done, of a write when it reaches memory. A store's own step states nothing.
ghost use Rattle.std.specs.Prelude.{◌≡◌, cond, ◌||◌, ◌<◌, ◌+◌};
ghost use Rattle.graph_writer.specs.Notes.{put_note};
ghost use Rattle.tso_replay.specs.Noted.{bytes_of};

use graph_writer::put_note;
use tso_machine::{Act, thread_of};

// Puts the note of the step b, which did a, behind the `count` notes in the log, if it states something; answers how many there are then.
#[tactic(auto, unfolding(crate::specs::Noted::bytes_of))]
pub(crate) fn note_step(log: &mut [u8; 192], count: usize, b: u8, a: Act) -> usize
    requires { count < 24 }
    ensures count { result ≡ cond (a.reads || a.puts) (count + 1) count }
    ensures log { log.new
        ≡ cond (a.reads || a.puts) (put_note log.old count (bytes_of b a)) log.old }
{
    if !a.reads && !a.puts {
        return count;
    }
    let note = [
        thread_of(b),
        a.number,
        a.location,
        u8::from(a.reads),
        a.source.thread,
        a.source.number,
        u8::from(a.puts),
        0,
    ];
    put_note(log, count, note);
    count + 1
}
