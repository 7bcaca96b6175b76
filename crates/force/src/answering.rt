// Who can force the failure, asked of a program file and a set.
ghost use Rattle.std.specs.Prelude.{◌≡◌, true, [], Ok, ℕ, ◌<◌, ◌≤◌, length, replicate};
ghost use Rattle.spec_file.specs.Program.{Program};
ghost use Rattle.spec_file.specs.WellFormed.{WellFormed};
ghost use Rattle.spec_schedules.specs.Lists.{head_of};
ghost use Rattle.spec_schedules.specs.Sets.{has};
ghost use Rattle.spec_model.specs.Answers.{Counts};
ghost use Rattle.spec_model.specs.Search.{sought};
ghost use Rattle.spec_sc.specs.Sequential.{sc};
ghost use Rattle.file_decoder.specs.Compiled.{program_of};
ghost use Rattle.listing_cursor.specs.Steps.{found_of};
ghost use Rattle.theory_game.specs.OneSide.{by_failing, by_counts};
ghost use Rattle.spec_force.specs.Game.{hostile};
ghost use Rattle.spec_force.specs.Forced.{Answer, ForcedIn, Forced};
ghost use Rattle.spec_calls.specs.Scratch.{force_scratch};
ghost use Rattle.force_moves.specs.Standing.{Standing, Playing};
ghost use Rattle.force.specs.Answered.{answer_of, FirstMissing};

use file_decoder::{Compiled, decode};
use force_moves::{Game, Side, friendly_move, has_step, is_silent, least_winning, tails_of};
use listing_cursor::Steps;
use machine::{Machine, fails, started};
use search_place::is_in;
use search_tail::ROW;
use search_walk::listed_rows;
use spec_file::Refusal;
use states_live::{live_masks, width};
use states_memory::{Shape, Tally};
use states_walk::{counted, first_failing};
use table::{clear, slots};

// A table of fewer words holds too few states to be worth it.
const FEW: usize = 256;

// Where a schedule has more steps a list may be too long to be walked without a table.
const MANY: u8 = 16;

// Whose end can be forced.
#[derive(Clone, Copy)]
pub enum Winner {
    // The hostile side can: 0 where it has no step before the first one, else its least first step that keeps the win, plus 1.
    Hostile(u8),
    // The friendly side can.
    Friendly,
}

// The lowest number in the set that names none of so many threads, if there is one.
fn missing(set: u8, threads: usize) -> Option<u8>
    ensures { FirstMissing set threads result }
{
    (0u8..8).find(|k| is_in(set, *k) && threads <= usize::from(*k))
}

// The game from this machine on, where it is the hostile side's turn: at most 24 steps and 25 passes.
fn settled(game: &Game, m: Machine, table: &mut [u64]) -> Winner
    requires { ((threads : ℕ) × (p : Program) × Standing game.now.program.code game.now.program.lengths game.now.tails threads m p [])
        × (game.now.shape.width ≤ 18) }
    ensures words { length table.new ≡ length table.old }
    ensures answer { (threads : ℕ) (p : Program)
        → Playing game.now.program.code game.now.program.lengths game.now.tails game.now.masks threads game.now.set game.now.shape hostile m
        table.old 49 p []
        → (a : Answer) × ForcedIn game.now.set p a × (Ok result ≡ answer_of a) }
{
    if has_step(&game.program.lengths, m, game.set, Side::Hostile) {
        match least_winning(game, m, table) {
            Some(t) => Winner::Hostile(t + 1),
            None => Winner::Friendly,
        }
    } else if friendly_move(game, m, table, 48) {
        Winner::Friendly
    } else {
        Winner::Hostile(0)
    }
}

// The game of an accepted program with a lent table, which is cleared first, whatever it holds, and left with zeros.
fn decided(program: Compiled, set: u8, table: &mut [u64]) -> Winner
    requires { WellFormed (program_of program) }
    ensures answer { (a : Answer) × ForcedIn set (program_of program) a × (Ok result ≡ answer_of a) }
    ensures zeros { table.new ≡ replicate (length table.old) 0 }
{
    let tails = tails_of(&program);
    let masks = live_masks(&program);
    let width = width(&masks);
    let shape = Shape {
        width,
        slots: slots(table.len(), width, 1),
        deep: 0,
    };
    let game = Game {
        program,
        tails,
        masks,
        set,
        shape,
    };
    let m = started(&program);
    clear(table);
    let r = settled(&game, m, table);
    clear(table);
    r
}

// Whether to ask the list before the game: with a table of few words, and where a hostile thread and an assertion can be reached. Either way the answer is
// the same.
fn asks_list(program: Compiled, set: u8, words: usize) -> bool
    requires { WellFormed (program_of program) }
{
    if set == 0 || FEW <= words {
        return false;
    }
    let tails = tails_of(&program);
    !is_silent(&tails, started(&program))
}

// Who can force, with a lent table, whatever it holds; it is left with zeros. Where the list is asked and no schedule fails the friendly side can.
fn played(program: Compiled, set: u8, table: &mut [u64]) -> Winner
    requires { WellFormed (program_of program) }
    ensures answer { (a : Answer) × ForcedIn set (program_of program) a × (Ok result ≡ answer_of a) }
    ensures zeros { table.new ≡ replicate (length table.old) 0 }
{
    if asks_list(program, set, table.len()) && first_failing(program, table).is_none() {
        Winner::Friendly
    } else {
        decided(program, set, table)
    }
}

// Whether each of so many threads is in the set.
fn owns_all(set: u8, threads: usize) -> bool
    ensures { result ≡ true → (t : ℕ) → t < threads → has set t ≡ true }
{
    threads <= 8 && (0u8..8).all(|k| is_in(set, k) || threads <= usize::from(k))
}

// What the first listed schedule that fails says where all threads are hostile: its first byte is the least first step.
fn by_first(v: Option<Steps<24>>) -> Winner
    requires { (p : Program) × WellFormed p × (found_of v ≡ head_of (sought sc true p)) }
    ensures { Ok result ≡ answer_of (by_failing (found_of v)) }
{
    let Some(s) = v else {
        return Winner::Friendly;
    };
    if s.steps == 0 {
        Winner::Hostile(0)
    } else {
        Winner::Hostile(s.schedule[0] + 1)
    }
}

// Whether to ask the counts before the game where no thread is hostile: with a table of few words, and where the first listed schedule, which is the play
// that the game tries first, fails and has not many steps, but nothing fails before the first one. Either way the answer is the same.
fn asks_counts(program: Compiled, words: usize) -> bool
    requires { WellFormed (program_of program) }
{
    if FEW <= words || fails(started(&program)) {
        return false;
    }
    let mut row = [0u8; ROW];
    listed_rows(program, false, &[], false, &mut row);
    row[0] <= MANY && row[1] == 1
}

// What the counts say where no thread is hostile: the hostile side can exactly where every listed schedule fails, and has no step.
fn by_counts(n: Tally) -> Winner
    ensures { (c : Counts) → n.listed ≡ c.listed → n.failing ≡ c.failed → Ok result ≡ answer_of (by_counts c) }
{
    if n.listed == n.failing {
        Winner::Hostile(0)
    } else {
        Winner::Friendly
    }
}

// Who can force: by the list where all threads are hostile, where none is by the counts, if these are asked, else by the game; with a table as `played`.
fn answered(program: Compiled, set: u8, table: &mut [u64]) -> Winner
    requires { WellFormed (program_of program) }
    ensures answer { (a : Answer) × ForcedIn set (program_of program) a × (Ok result ≡ answer_of a) }
    ensures zeros { table.new ≡ replicate (length table.old) 0 }
{
    if set == 0 && asks_counts(program, table.len()) {
        return by_counts(counted(program, table));
    }
    if owns_all(set, program.threads) {
        by_first(first_failing(program, table))
    } else {
        played(program, set, table)
    }
}

// Who can force its end where the hostile side has the threads in the set, bit t for thread t, with a table in the scratch, whatever that holds; where the
// answer is no refusal it is left with zeros.
pub fn force_with(file: &[u8], set: u8, scratch: &mut [u64]) -> Result<Winner, Refusal>
    ensures { (a : Answer) × Forced file.now set a × (result ≡ answer_of a)
        × (scratch.new ≡ force_scratch a scratch.old) }
{
    let p = decode(file)?;
    if let Some(k) = missing(set, p.threads) {
        return Err(Refusal {
            number: 48,
            place: usize::from(k),
        });
    }
    Ok(answered(p, set, scratch))
}

// The same with a scratch in which no state fits.
pub fn force(file: &[u8], set: u8) -> Result<Winner, Refusal>
    ensures { (a : Answer) × Forced file.now set a × (result ≡ answer_of a) }
{
    force_with(file, set, &mut [0u64; 1])
}
