// The start of a search, and what a step leaves to the rules.
ghost use Rattle.std.specs.Prelude.{◌≡◌, cond, List, [], ℕ, ◌+◌, ◌%◌, ◌^◌, ◌<◌, ◌≤◌, get_or, set};
ghost use Rattle.spec_file.specs.Program.{Program, initial};
ghost use Rattle.spec_sc.specs.State.{State};
ghost use Rattle.machine.specs.Held.{Loaded, Holds, thread_at};
ghost use Rattle.theory_sc.specs.Sets.{addend};
ghost use Rattle.theory_sc.specs.LateSet.{late_now};
ghost use Rattle.theory_sc.specs.ReadWords.{word_behind};
ghost use Rattle.search_place.specs.ClassGroups.{Lined};
ghost use Rattle.search_place.specs.Reached.{Reached};

use crate::lateness::{Step, is_late_behind};
use crate::place::Place;
use crate::reading::word_behind;
use crate::running::live_set;
use crate::sets::power;
use file_decoder::Compiled;
use file_lines::{choose, wide};
use machine::{Machine, Moved, started};
use machine_access::ThreadState;
use spec_file::STEPS;

// The place before the first step of the program.
pub fn begun(program: &Compiled) -> Place
    requires { (p : Program) × Loaded program.now.code program.now.lengths program.now.threads p }
    ensures { (class : List ℕ) (groups : ℕ) (p : Program) → Loaded program.now.code program.now.lengths program.now.threads p
        → program.now.starting ≡ initial p → Lined class groups p
        → Reached program.now.code program.now.lengths class program.now.threads groups result p [] }
{
    let m = started(program);
    let threads = m.threads;
    let memory = m.memory;
    Place {
        threads,
        memory,
        words: [0u64; 6],
        schedule: [0u8; STEPS],
        stamps: [0u8; 8],
        steps: 0,
        late: 0,
        live: live_set(&program.lengths, threads),
    }
}

// Stores the stamp of a location behind a step to it, which comes behind n others and wrote it or not; gives back the one that it had.
pub(crate) fn mark_location(stamps: &mut [u8; 8], location: u8, wrote: bool, n: usize) -> u8
    requires { n < 24 }
    ensures old { result ≡ get_or stamps.old (location % 8) 0 }
    ensures new { stamps.new ≡ set stamps.old (location % 8)
        (cond wrote (n + 1) (get_or stamps.old (location % 8) 0)) }
{
    let l = wide(location) % 8;
    let stamp = stamps[l];
    stamps[l] = choose(wrote, (n + 1) as u8, stamp);
    stamp
}

// Stores the word of thread t behind a step of its, which found this stamp, and wrote or not.
pub(crate) fn mark_thread(words: &mut [u64; 6], t: u8, stamp: u8, wrote: bool)
    requires { t < 6 }
    ensures { words.new ≡ set words.old t (word_behind t (get_or words.old t 0) stamp wrote) }
{
    let u = wide(t);
    let word = words[u];
    words[u] = word_behind(t, word, stamp, wrote);
}

// What thread u, which stands so behind the step a of thread t, adds to the set of the late: its bit or nothing.
pub(crate) fn late_bit(program: &Compiled, k: ThreadState, a: Moved, u: u8, late: u8, t: u8) -> u8
    requires { (u < 6) × (k.at < get_or program.now.lengths u 0 → get_or program.now.lengths u 0 ≤ 16) }
    ensures { (result ≤ 2 ^ u) × ((m : Machine) (σ : State) → Holds program.now.code program.now.lengths m σ
        → thread_at m u ≡ k → m.memory ≡ a.memory
        → result ≡ addend (late_now σ late (record { thread = t; location = a.location; wrote = a.wrote }) u) (2 ^ u)) }
{
    let memory = a.memory;
    let s = Step {
        thread: t,
        location: a.location,
        wrote: a.wrote,
    };
    choose(is_late_behind(program, k, memory, u, late, s), power(u), 0)
}
