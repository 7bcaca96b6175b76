// The rounds: every thread by itself on the values known so far, then each read gets what its source left, or what memory starts with.
ghost use Rattle.std.specs.Prelude.{◌≡◌, true, cond, ℕ, ◌+◌, ◌*◌, ◌/◌, ◌%◌, ◌<◌, ◌≤◌, List, eqb, ltb, length, get_or};
ghost use Rattle.spec_file.specs.Program.{Program, initial};
ghost use Rattle.spec_sc.specs.Graph.{Graph};
ghost use Rattle.machine.specs.Held.{Loaded};
ghost use Rattle.spec_judge.specs.Consistent.{location_of};
ghost use Rattle.spec_judge.proofs.RoundValues.{final_values};
ghost use Rattle.spec_judge.specs.Reading.{parsed, read_graph};
ghost use Rattle.graph_reader.specs.Held.{Tabled};
ghost use Rattle.judge_values.specs.HeldRounds.{Opened, RoundHeld, sourced};

use crate::by_itself::met;
use file_decoder::Compiled;
use file_lines::{choose, wide};
use machine::started;
use machine_access::{ThreadState, accesses_below};

// A round: of each access, sixteen a thread, where it goes and what it leaves there.
#[derive(Clone, Copy)]
pub struct Round {
    pub places: [u8; 96],
    pub left: [u32; 96],
}

// Every thread by itself on these values: at its first access as it opens, else as the access before left it.
#[tactic(auto, using(crate::proofs::HeldRoundLoop::six_held))]
fn in_round(program: &Compiled, opened: [ThreadState; 6], values: &[u32; 96]) -> Round
    requires { (p : Program) × Loaded program.now.code program.now.lengths program.now.threads p
        × Opened program.now.code program.now.lengths p opened }
    ensures { (p : Program) → Loaded program.now.code program.now.lengths program.now.threads p
        → Opened program.now.code program.now.lengths p opened
        → RoundHeld program.now.threads p values.now result.places result.left }
{
    let mut places = [0u8; 96];
    let mut left = [0u32; 96];
    let mut thread = opened[0];
    for k in 0..16 * program.threads {
        // Behind its end a thread meets no access.
        if k % 16 != 0 && program.lengths[k / 16] <= thread.at {
            continue;
        }
        let n = choose(k % 16 == 0, opened[k / 16], thread);
        let r = met(program, n, (k / 16) as u8, values[k]);
        places[k] = r.place;
        left[k] = r.left;
        thread = r.thread;
    }
    Round { places, left }
}

// What memory starts with at the location to which access k goes.
fn at_first(starting: &[u32; 8], places: &[u8; 96], k: usize) -> u32
    requires { (k < 96) × (length starting.now ≡ 8) }
    ensures { result ≡ get_or starting.now (get_or places.now k 0) 0 }
{
    let l = wide(places[k]);
    if l < 8 { starting[l] } else { 0 }
}

// What is left behind the source in entry k of a graph's table.
#[tactic(auto, unfolding(crate::specs::HeldRounds::sourced))]
fn found(
    pairs: &[u8; 576],
    left: &[u32; 96],
    places: &[u8; 96],
    starting: &[u32; 8],
    k: usize,
) -> u32
    requires { (k < 96) × (length starting.now ≡ 8) }
    ensures { result ≡ sourced pairs.now left.now places.now starting.now k }
{
    let u = wide(pairs[k * 2]);
    let j = wide(pairs[k * 2 + 1]);
    if u < 6 && j < 16 {
        left[u * 16 + j]
    } else {
        at_first(starting, places, k)
    }
}

// The values of the next round.
fn next_values(
    pairs: &[u8; 576],
    left: &[u32; 96],
    places: &[u8; 96],
    starting: &[u32; 8],
    threads: usize,
) -> [u32; 96]
    requires { (threads ≤ 6) × (length starting.now ≡ 8) }
    ensures { (k : ℕ) → k < 16 * threads
        → get_or result k 0 ≡ sourced pairs.now left.now places.now starting.now k }
{
    let mut vs = [0u32; 96];
    for k in 0..16 * threads {
        vs[k] = found(pairs, left, places, starting, k);
    }
    vs
}

// Where each access goes on the values of the last round. A round fewer than the program has accesses is enough; values that a round
// leaves as they are stay so, and no further round is made.
pub fn places(program: &Compiled, pairs: [u8; 576]) -> [u8; 96]
    requires { (p : Program) × Loaded program.now.code program.now.lengths program.now.threads p × (program.now.starting ≡ initial p) }
    ensures { (p : Program) (text counts : List ℕ) (g : Graph) → Loaded program.now.code program.now.lengths program.now.threads p
        → program.now.starting ≡ initial p → read_graph program.now.threads text ≡ parsed g → Tabled pairs counts g → (t i : ℕ)
        → t < program.now.threads → i < 16
        → get_or result (t * 16 + i) 0 ≡ location_of p (final_values p g) (t, i) }
{
    let start = started(program);
    let opened = start.threads;
    let accesses = accesses_below(&program.code, &program.lengths, program.threads);
    let mut vs = [0u32; 96];
    for k in 1..accesses {
        let r = in_round(program, opened, &vs);
        let ws = next_values(
            &pairs,
            &r.left,
            &r.places,
            &program.starting,
            program.threads,
        );
        if ws == vs {
            return r.places;
        }
        vs = ws;
    }
    let r = in_round(program, opened, &vs);
    r.places
}
