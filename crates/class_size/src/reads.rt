// The reads of two threads, compared by the notes of a run.
ghost use Rattle.std.specs.Prelude.{◌≡◌, ◌&&◌, ◌+◌, ◌*◌, ◌<◌, ◌≤◌, eqb, get_or, IfSome};
ghost use Rattle.spec_sc.specs.Same.{same_read};
ghost use Rattle.spec_file.specs.Lists.{same_list};
ghost use Rattle.graph_writer.specs.NoteText.{reads_in, notes_at};
ghost use Rattle.class_size.specs.Moves.{read_at, reads_on, notes_from};

// The byte of a note that says whether it is of a read.
const READ: usize = 3;

// The byte of a note that says whether it is of a write.
pub(crate) const WROTE: usize = 6;

// Whether note k is of thread t and says yes in its byte j.
pub(crate) fn says(log: &[u8; 192], k: usize, t: u8, j: usize) -> bool
    requires { (k < 24) × (j < 8) }
    ensures { result ≡ (eqb (get_or log.now (k * 8) 0) t && eqb (get_or log.now (k * 8 + j) 0) 1) }
{
    let row = k * 8;
    log[row] == t && log[row + j] == 1
}

// The place of thread t's next read from `from` on, if it has one.
fn next_read(log: &[u8; 192], steps: usize, t: u8, from: usize) -> Option<usize>
    requires { steps ≤ 24 }
    ensures place { IfSome result (λ k. (from ≤ k) × (k < steps)) }
    ensures reads { reads_in t (notes_from log.now from steps) ≡ reads_on log.now steps t result }
{
    for k in from..steps {
        if says(log, k, t, READ) {
            return Some(k);
        }
    }
    None
}

// Whether notes a and b state the same of a read: its access's number and its source.
#[tactic(auto, unfolding(spec_sc::specs::Same::same_read, spec_sc::specs::Same::same_event, graph_writer::specs::NoteText::note_at))]
fn same_read(log: &[u8; 192], a: usize, b: usize) -> bool
    requires { (a < 24) × (b < 24) }
    ensures { result ≡ same_read (read_at log.now a) (read_at log.now b) }
{
    let x = a * 8;
    let y = b * 8;
    log[x + 1] == log[y + 1] && log[x + 4] == log[y + 4] && log[x + 5] == log[y + 5]
}

// Whether threads t and u did the same reads.
pub(crate) fn same_reads(log: &[u8; 192], steps: usize, t: u8, u: u8) -> bool
    requires { steps ≤ 24 }
    ensures { result ≡ same_list same_read (reads_in t (notes_at log.now steps)) (reads_in u (notes_at log.now steps)) }
{
    let mut a = next_read(log, steps, t, 0);
    let mut b = next_read(log, steps, u, 0);
    while let (Some(x), Some(y)) = (a, b) {
        if !same_read(log, x, y) {
            return false;
        }
        a = next_read(log, steps, t, x + 1);
        b = next_read(log, steps, u, y + 1);
    }
    a.is_none() && b.is_none()
}
