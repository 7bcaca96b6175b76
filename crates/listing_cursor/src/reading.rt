// What is read off rows.
ghost use Rattle.std.specs.Prelude.{◌≡◌, Bool, List, ℕ, ◌+◌, ◌*◌, ◌<◌, ◌≤◌, length, take, drop};
ghost use Rattle.spec_file.specs.Over.{over};
ghost use Rattle.spec_schedules.specs.Lists.{filter};
ghost use Rattle.spec_schedules.specs.Order.{Schedule};
ghost use Rattle.listing_cursor.specs.Rows.{Shown};

use file_rows::put_front;

// Copies the n steps of a row to the front of the output.
pub fn put_schedule(out: &mut [u8], row: &[u8], n: usize)
    requires { (n ≤ length out.old) × (n + 2 ≤ length row.now) }
    ensures { out.new ≡ over (take n (drop 2 row.now)) out.old }
{
    put_front(out, &row[2..], n);
}

// How many of these rows, with room for so many steps each, are of schedules that fail.
pub fn failing_in(rows: &[u8], width: usize, n: usize) -> usize
    requires { (width < 256) × (n ≤ 64) × (n * (width + 2) ≤ length rows.now) }
    ensures { (fails : Schedule → Bool) (ss : List Schedule) (held : List ℕ) → Shown width fails ss held rows.now n
        → result ≡ length (filter fails ss) }
{
    let mut failing = 0;
    for k in 0..n {
        if rows[k * (width + 2) + 1] == 1 {
            failing += 1;
        }
    }
    failing
}
