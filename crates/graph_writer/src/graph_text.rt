// The text of a graph, written from the notes of a run: a line for each read, thread by thread, then a line for each location written.
ghost use Rattle.std.specs.Prelude.{◌≡◌, ◌&&◌, List, ◌∷◌, ◌<◌, ◌≤◌, eqb, length};
ghost use Rattle.spec_file.specs.Over.{over};
ghost use Rattle.graph_writer.specs.Notes.{Note, Noted};
ghost use Rattle.spec_sc.specs.Text.{event_bytes, text_of};
ghost use Rattle.graph_writer.specs.NoteText.{read_in, reads_in, writes_in, thread_frames, order_frame, read_frames_in, order_frames_in};
ghost use Rattle.graph_writer.specs.NoteText.{note_frames, note_at, notes_at, Wrote};

use file_lines::write;

// The line of note k, if it states a read of thread t.
fn write_read(out: &mut [u8], log: &[u8; 192], k: usize, t: u8) -> usize
    requires { k < 24 }
    ensures { Wrote (thread_frames t (read_in t (note_at log.now k))) out.old out.new result }
{
    let row = k * 8;
    if log[row] != t || log[row + 3] != 1 {
        return 0;
    }
    let frame = [0x40, t, log[row + 1], log[row + 4], log[row + 5]];
    write(out, &frame)
}

// The lines of thread t's reads.
fn write_thread(out: &mut [u8], log: &[u8; 192], steps: usize, t: u8) -> usize
    requires { steps ≤ 24 }
    ensures { Wrote (thread_frames t (reads_in t (notes_at log.now steps))) out.old out.new result }
{
    let mut at = 0;
    for k in 0..steps {
        at += write_read(&mut out[at..], log, k, t);
    }
    at
}

// The lines of all reads.
fn write_reads(out: &mut [u8], log: &[u8; 192], steps: usize) -> usize
    requires { steps ≤ 24 }
    ensures { Wrote (read_frames_in 6 (notes_at log.now steps)) out.old out.new result }
{
    let mut at = 0;
    for t in 0u8..6 {
        at += write_thread(&mut out[at..], log, steps, t);
    }
    at
}

// Whether note k states a write of location l.
fn writes_to(log: &[u8; 192], k: usize, l: u8) -> bool
    requires { k < 24 }
    ensures { result ≡ (eqb (note_at log.now k).location l && (note_at log.now k).wrote) }
{
    let row = k * 8;
    log[row + 2] == l && log[row + 6] == 1
}

// The frame `41 l t i ..` of the writes of location l into the front of `frame`; answers its length, 2 where there is no write.
fn fill_order(frame: &mut [u8; 64], log: &[u8; 192], steps: usize, l: u8) -> usize
    requires { (length frame.old ≡ 64) × (steps ≤ 24) }
    ensures count { result ≡ length (0x41 ∷ l ∷ event_bytes (writes_in l (notes_at log.now steps))) }
    ensures few { result ≤ 50 }
    ensures content { frame.new ≡ over (0x41 ∷ l
        ∷ event_bytes (writes_in l (notes_at log.now steps))) frame.old }
{
    frame[0] = 0x41;
    frame[1] = l;
    let mut n = 2;
    for k in 0..steps {
        if writes_to(log, k, l) {
            let row = k * 8;
            frame[n] = log[row];
            frame[n + 1] = log[row + 1];
            n += 2;
        }
    }
    n
}

// The line of location l, if it was written.
fn write_order(out: &mut [u8], log: &[u8; 192], steps: usize, l: u8) -> usize
    requires { steps ≤ 24 }
    ensures { Wrote (order_frame l (writes_in l (notes_at log.now steps))) out.old out.new result }
{
    let mut frame = [0u8; 64];
    let n = fill_order(&mut frame, log, steps, l);
    if n == 2 {
        return 0;
    }
    write(out, &frame[..n])
}

// The lines of all locations written.
fn write_orders(out: &mut [u8], log: &[u8; 192], steps: usize) -> usize
    requires { steps ≤ 24 }
    ensures { Wrote (order_frames_in 8 (notes_at log.now steps)) out.old out.new result }
{
    let mut at = 0;
    for l in 0u8..8 {
        at += write_order(&mut out[at..], log, steps, l);
    }
    at
}

// The whole text, from the notes of so many steps; answers its length.
pub fn write_graph(out: &mut [u8], log: &[u8; 192], steps: usize) -> usize
    requires { (512 ≤ length out.old) × (steps ≤ 24) }
    ensures { (ns : List Note) → Noted log.now ns → length ns ≡ steps →
        (result ≡ length (text_of (note_frames ns))) × (out.new ≡ over (text_of (note_frames ns)) out.old) }
{
    let at = write_reads(out, log, steps);
    at + write_orders(&mut out[at..], log, steps)
}
