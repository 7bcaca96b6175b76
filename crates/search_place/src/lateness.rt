// R1: who is late behind a step.
ghost use Rattle.std.specs.Prelude.{◌≡◌, false, ◌||◌, ℕ, ◌<◌, ◌≤◌, ltb, get_or};
ghost use Rattle.spec_sc.specs.State.{State};
ghost use Rattle.spec_sc.specs.Actions.{Action};
ghost use Rattle.machine.specs.Held.{thread_at, Holds};
ghost use Rattle.spec_schedules.specs.Sets.{has};
ghost use Rattle.theory_sc.specs.LateSet.{late_now};
ghost use Rattle.search_place.specs.Steps.{action_of};

use crate::sets::is_in;
use crate::waiting::conflicts_at;
use file_decoder::Compiled;
use file_lines::wide;
use machine::Machine;
use machine_access::ThreadState;

// A step: its thread, its location and whether it wrote.
#[derive(Clone, Copy)]
pub(crate) struct Step {
    pub thread: u8,
    pub location: u8,
    pub wrote: bool,
}

// A number that every thread late behind a step of t is below: where none was late, only those smaller than t can be.
pub(crate) fn late_bound(late: u8, t: u8) -> u8
    requires { t < 6 }
    ensures { (result ≤ 6) × ((σ : State) (a : Action) (u : ℕ) → a.thread ≡ t → result ≤ u → u < 6 → late_now σ late a u ≡ false) }
{
    if late == 0 { t } else { 6 }
}

// Whether thread u, which stands so with this memory behind the step a, is late.
pub(crate) fn is_late_behind(
    program: &Compiled,
    k: ThreadState,
    memory: [u32; 8],
    u: u8,
    late: u8,
    a: Step,
) -> bool
    requires { (u < 6) × (k.at < get_or program.now.lengths u 0 → get_or program.now.lengths u 0 ≤ 16) }
    ensures { (m : Machine) (σ : State) → Holds program.now.code program.now.lengths m σ
        → thread_at m u ≡ k → m.memory ≡ memory → result ≡ late_now σ late (action_of a) u }
{
    let t = wide(u);
    let at = k.at;
    if a.thread == u || program.lengths[t] <= at {
        return false;
    }
    if a.thread <= u && !is_in(late, u) {
        return false;
    }
    let registers = k.registers;
    !conflicts_at(
        &program.code,
        t * 16 + at,
        registers,
        memory,
        a.location,
        a.wrote,
    )
}
