// What the program prints, piece by piece.
ghost use Rattle.std.specs.Prelude.{◌≡◌, List, ◌≤◌, length, take};
ghost use Rattle.spec_schedules.specs.Order.{Schedule};
ghost use Rattle.listing_cursor.specs.Cursor.{from};
ghost use Rattle.explorer_lines.specs.Pieces.{Ready, Sound, Begun, Next};

use crate::frames::{PAGE_BYTES, count_line, refusal_line, schedule_lines};
use file_decoder::{Compiled, decode};
use listing_cursor::{Cursor, beginning, is_end};
use listing_model::Model;
use listing_pages::next_page;
use spec_file::Refusal;

// The most bytes that a piece has: 256 lines of a schedule, 53 bytes each, and the line of the counts, 35 bytes.
pub const MOST_BYTES: usize = 13603;

// Where the walk along the list stands: the program, the cursor in its list, how many schedules were printed, and how many of these fail.
#[derive(Clone, Copy)]
pub struct Walk {
    pub program: Compiled,
    pub cursor: Cursor,
    pub listed: u64,
    pub failed: u64,
}

// Where the printing stands.
#[derive(Clone, Copy)]
pub enum Listing {
    // The file is refused.
    Refused(Refusal),
    // Schedules are listed, then their counts.
    Walking(Walk),
    // All is printed.
    Ended,
}

// A piece of what is printed: how many bytes come next, and where the printing stands behind them.
#[derive(Clone, Copy)]
pub struct Piece {
    pub length: usize,
    pub listing: Listing,
}

// Where the walk along a program's list begins.
fn unprinted(program: Compiled) -> Walk
    ensures { (result.program ≡ program) × (result.listed ≡ 0) × (result.failed ≡ 0)
        × ((l : List Schedule) → from result.cursor l ≡ l) }
{
    Walk {
        program,
        cursor: beginning(),
        listed: 0,
        failed: 0,
    }
}

// Where the printing of a file begins: all of it is still to come.
pub fn begin(file: &[u8]) -> Listing
    ensures { Begun file.now result }
{
    match decode(file) {
        Ok(program) => Listing::Walking(unprinted(program)),
        Err(r) => Listing::Refused(r),
    }
}

// The lines of the next 256 listed schedules, or of all that are left and then the line of the counts.
fn walk_on(walk: Walk, out: &mut [u8]) -> Piece
    requires { Ready walk × (13603 ≤ length out.old) }
    ensures { (result.length ≤ length out.new) × Next (Listing.Walking walk) (take result.length out.new) result.listing }
{
    let program = walk.program;
    let mut rows = [0u8; PAGE_BYTES];
    let page = next_page(Model::Sequential, program, walk.cursor, false, &mut rows);
    let lines = schedule_lines(out, &rows, page.rows);
    let at = lines.length;
    let listed = walk.listed + page.rows as u64;
    let failed = walk.failed + lines.failed as u64;
    if is_end(page.cursor) {
        return Piece {
            length: at + count_line(&mut out[at..], listed, failed),
            listing: Listing::Ended,
        };
    }
    Piece {
        length: at,
        listing: Listing::Walking(Walk {
            program,
            cursor: page.cursor,
            listed,
            failed,
        }),
    }
}

// Writes what comes next to the front of the output; no bytes only where nothing is left.
pub fn next(listing: Listing, out: &mut [u8]) -> Piece
    requires { Sound listing × (13603 ≤ length out.old) }
    ensures { (result.length ≤ length out.new) × Next listing (take result.length out.new) result.listing }
{
    match listing {
        Listing::Refused(r) => Piece {
            length: refusal_line(out, r),
            listing: Listing::Ended,
        },
        Listing::Walking(walk) => walk_on(walk, out),
        Listing::Ended => Piece { length: 0, listing },
    }
}
