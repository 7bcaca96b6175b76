// Lines of the output, each into the part of the buffer behind the last.
ghost use Rattle.std.specs.Prelude.{◌≡◌, Bool, cond, List, [], ◌∷◌, map, ℕ, ◌+◌, ◌*◌, ◌<◌, ◌≤◌, length, take, drop};
ghost use Rattle.spec_file.specs.Program.{Program};
ghost use Rattle.spec_file.specs.Decode.{refused};
ghost use Rattle.spec_schedules.specs.Lists.{filter};
ghost use Rattle.spec_schedules.specs.Order.{Schedule};
ghost use Rattle.graph_writer.specs.NoteText.{Wrote};
ghost use Rattle.spec_model.specs.Model.{failing};
ghost use Rattle.spec_sc.specs.Sequential.{sc};
ghost use Rattle.listing_cursor.specs.ListRows.{Shown};
ghost use Rattle.spec_calls.specs.Rows.{row_bytes};
ghost use Rattle.spec_calls.specs.Printed.{schedule_frame, count_frame, printed_frames};
ghost use Rattle.explorer_lines.specs.Pieces.{Short};

use file_lines::{wide, write};
use search_tail::ROW;
use spec_file::{Refusal, STEPS};

// The bytes of a page: 256 rows of 26 bytes.
pub(crate) const PAGE_BYTES: usize = 6656;

// How many bytes some lines have, and how many of their schedules fail.
#[derive(Clone, Copy)]
pub struct Lines {
    pub length: usize,
    pub failed: usize,
}

// Row k of these rows of 26 bytes.
fn row_at(rows: &[u8; PAGE_BYTES], k: usize) -> [u8; ROW]
    requires { (k < 256) × (length rows.now ≡ 6656) }
    ensures { result ≡ take 26 (drop (k * 26) rows.now) }
{
    let mut row = [0u8; ROW];
    let from = k * ROW;
    row.copy_from_slice(&rows[from..from + ROW]);
    row
}

// How many steps the schedule of this row has.
fn steps_of(row: [u8; ROW]) -> usize
    ensures most { result ≤ 24 }
    ensures steps { (s : Schedule) (f : Bool) → row ≡ row_bytes 24 s f → length s ≤ 24 → result ≡ length s }
{
    wide(row[0]).min(STEPS)
}

// The line of the schedule in this row.
fn schedule_line(out: &mut [u8], row: [u8; ROW]) -> usize
    ensures within { result ≤ length out.old }
    ensures line { (s : Schedule) (f : Bool) → row ≡ row_bytes 24 s f → length s ≤ 24
        → Wrote ((0x50 ∷ cond f 1 0 ∷ s) ∷ []) out.old out.new result }
{
    let n = steps_of(row);
    let mut frame = row;
    frame[0] = 0x50;
    write(out, &frame[..n + 2])
}

// The lines of the schedules in the first n rows.
pub(crate) fn schedule_lines(out: &mut [u8], rows: &[u8; PAGE_BYTES], n: usize) -> Lines
    requires { (n ≤ 256) × (length rows.now ≡ 6656) }
    ensures { (p : Program) (ss : List Schedule) (held : List ℕ) → Shown sc p ss held rows.now n → Short ss →
        Wrote (map (schedule_frame p) ss) out.old out.new result.length
        × (result.failed ≡ length (filter (failing sc p) ss)) }
{
    let mut at = 0;
    let mut failed = 0;
    for k in 0..n {
        let row = row_at(rows, k);
        at += schedule_line(&mut out[at..], row);
        failed += wide(row[1]);
    }
    Lines { length: at, failed }
}

// The line of the two counts.
pub(crate) fn count_line(out: &mut [u8], listed: u64, failed: u64) -> usize
    ensures { Wrote (count_frame (record { listed = listed; failed = failed }) ∷ []) out.old out.new result }
{
    let mut frame = [0x51u8; 17];
    frame[1..9].copy_from_slice(&listed.to_be_bytes());
    frame[9..].copy_from_slice(&failed.to_be_bytes());
    write(out, &frame)
}

// The line of a refusal: number and place, of which two bytes tell.
pub(crate) fn refusal_line(out: &mut [u8], r: Refusal) -> usize
    ensures { Wrote (printed_frames (refused r.number r.place)) out.old out.new result }
{
    let mut frame = [0x52, r.number, 0, 0];
    frame[2..].copy_from_slice(&r.place.to_be_bytes()[6..]);
    write(out, &frame)
}
