// The start of a search, and a step.
ghost use Rattle.std.specs.Prelude.{◌≡◌, true, not, ◌&&◌, List, [], ◌∷◌, ◌++◌, ℕ, ◌≤◌, leb};
ghost use Rattle.spec_file.specs.Program.{Program, initial};
ghost use Rattle.spec_file.specs.WellFormed.{all_accesses};
ghost use Rattle.spec_schedules.specs.Order.{Schedule};
ghost use Rattle.machine.specs.Held.{Loaded};
ghost use Rattle.search_place.specs.ClassGroups.{Lined};
ghost use Rattle.spec_tso.specs.State.{State, access, enabled};
ghost use Rattle.spec_tso.specs.Graph.{end_of};
ghost use Rattle.tso_machine.specs.Held.{Holds};
ghost use Rattle.theory_tso.specs.LateBytes.{bytes_of};
ghost use Rattle.tso_place.specs.Reached.{Reached};

use crate::choosing::candidates;
use crate::place::Place;
use crate::reading::{digit, word_behind};
use file_decoder::Compiled;
use file_lines::wide;
use theory_tso::Deed;
use tso_machine::{Act, QueuedMachine, enabled, lean_step, may_access, started, thread_of};
use tso_order::{Sets, freed, six};

// The threads, of six, that may do their next access.
fn live_set(program: &Compiled, m: QueuedMachine) -> u8
    requires { (σ : State) × Holds program.now.code program.now.lengths m σ }
    ensures { (σ : State) → Holds program.now.code program.now.lengths m σ → result ≡ bytes_of (enabled σ) access }
{
    six(
        |u|
            requires { (σ : State) × Holds program.now.code program.now.lengths m σ }
            ensures { (σ : State) → Holds program.entry.now.code program.entry.now.lengths m σ → result ≡ enabled σ u }
        { enabled(program, m, u) },
    )
}

// The place before the first step of the program: nobody has anything to move.
pub fn begun(program: &Compiled) -> Place
    requires { (p : Program) × Loaded program.now.code program.now.lengths program.now.threads p × (program.now.starting ≡ initial p)
        × (all_accesses p.threads ≤ 16) }
    ensures { (class : List ℕ) (groups : ℕ) (p : Program) → Loaded program.now.code program.now.lengths program.now.threads p
        → program.now.starting ≡ initial p → all_accesses p.threads ≤ 16 → Lined class groups p
        → Reached program.now.code program.now.lengths class program.now.threads groups result p [] }
{
    let m = started(program);
    let live = live_set(program, m);
    let QueuedMachine {
        threads,
        memory,
        last,
        heads,
        tails,
        slots,
    } = m;
    Place {
        threads,
        memory,
        last,
        heads,
        tails,
        slots,
        words: [0u64; 6],
        schedule: [0u8; 32],
        steps: 0,
        sets: Sets {
            live,
            moving: 0,
            late: 0,
            overdue: 0,
            far: 0,
        },
    }
}

// What the step b of thread t did.
fn deed_of(a: Act, t: u8, b: u8) -> Deed
    ensures { result ≡ record {
      thread = t;
      number = a.number;
      location = a.location;
      moves = leb 16 b;
      locks = a.locks;
      looks = a.reads && not a.own;
      puts = a.puts;
    } }
{
    Deed {
        thread: t,
        number: a.number,
        location: a.location,
        moves: 16 <= b,
        locks: a.locks,
        looks: a.reads && !a.own,
        puts: a.puts,
    }
}

// The place behind the step b, which may be made. One copy of the place is made, and the step's changes are stored in it.
pub fn advanced(program: &Compiled, x: Place, b: u8) -> Place
    requires { (threads : ℕ) × (groups : ℕ) × (p : Program) × (v : Schedule)
        × Reached program.now.code program.now.lengths program.now.class threads groups x p v × (enabled (end_of p v) b ≡ true) }
    ensures { (threads groups : ℕ) (p : Program) (v : Schedule)
        → Reached program.now.code program.now.lengths program.now.class threads groups x p v → enabled (end_of p v) b ≡ true
        → Reached program.now.code program.now.lengths program.now.class threads groups result p (v ++ (b ∷ [])) }
{
    let mut y = x;
    let n = y.steps;
    let t = thread_of(b);
    let u = wide(t);
    let c = lean_step(
        program,
        y.threads[u],
        y.memory,
        y.last,
        y.slots,
        y.heads[u],
        y.tails[u],
        b,
    );
    y.threads[u] = c.thread;
    y.memory[c.place] = c.value;
    y.last[c.place] = c.last;
    y.slots[c.at] = c.slot;
    y.heads[u] = c.head;
    y.tails[u] = c.tail;
    let on = may_access(program, c.thread.at, c.head, c.tail, t);
    let s = candidates(&program.class, &y.words, y.sets, on, c.head < c.tail, t, b);
    let e = deed_of(c.act, t, b);
    y.sets = freed(
        &program.code,
        &y.threads,
        &y.memory,
        &y.slots,
        &y.heads,
        &y.tails,
        s,
        e,
    );
    y.schedule[n] = b;
    y.steps = n + 1;
    let d = digit(t, c.act.reads, c.act.source);
    y.words[u] = word_behind(t, y.words[u], d, c.act.puts);
    y
}
