// A cursor: a place in the list that is walked. It has room for 48 steps, more than a listed schedule has in any model.
ghost use Rattle.std.specs.Prelude.{◌≡◌, ◌≤◌, length};
ghost use mathlib.Core.List.{List, Memᴰ};
ghost use Rattle.std.proofs.Math.Option.{some};
ghost use Rattle.spec_schedules.specs.Order.{Schedule};
ghost use Rattle.spec_schedules.specs.Found.{after};
ghost use Rattle.listing_cursor.specs.declared.cursor.Cursor.TheVariants.{End};
ghost use Rattle.listing_cursor.specs.Cursor.{from, is_end};

use crate::steps::Steps;

// Where a walk of the list stands.
#[derive(Clone, Copy)]
pub enum Cursor {
    // Before the first listed schedule.
    Beginning,
    // Behind this schedule.
    Behind(Steps<48>),
    // Behind the last listed schedule.
    End,
}

// A page: the number of its rows, and the cursor behind them.
#[derive(Clone, Copy)]
pub struct Page {
    pub rows: usize,
    pub cursor: Cursor,
}

// All is yet to come.
pub fn beginning() -> Cursor
    ensures { (l : List Schedule) → from result l ≡ l }
{
    Cursor::Beginning
}

// Nothing is to come any more.
pub fn end() -> Cursor
    ensures { result ≡ End }
{
    Cursor::End
}

// Whether it is known that nothing is to come any more.
pub fn is_end(cursor: Cursor) -> bool
    ensures { result ≡ is_end cursor }
{
    matches!(cursor, Cursor::End)
}

// What is after a schedule is yet to come. The schedule need not be of the list; of a longer one 48 bytes tell, since no listed one has
// more.
pub fn behind(schedule: &[u8]) -> Cursor
    ensures { (l : List Schedule) → ((s : Schedule) → Memᴰ s l → length s ≤ 48)
        → from result l ≡ after (some schedule.now) l }
{
    let steps = schedule.len().min(48);
    let mut bytes = [0u8; 48];
    bytes[..steps].copy_from_slice(&schedule[..steps]);
    Cursor::Behind(Steps {
        schedule: bytes,
        steps,
    })
}
