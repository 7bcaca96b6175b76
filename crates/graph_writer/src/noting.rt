// The notes of a run, eight bytes each, one after the other.
ghost use Rattle.std.specs.Prelude.{◌≡◌};
ghost use Rattle.graph_writer.specs.Notes.{put_note};

use spec_file::STEPS;

// Puts the note of step k into the trail, which has room for 24; else nothing changes.
pub fn put_note(log: &mut [u8; 192], k: usize, note: [u8; 8])
    ensures { log.new ≡ put_note log.old k note }
{
    if k < STEPS {
        let at = k * 8;
        log[at..at + 8].copy_from_slice(&note);
    }
}
