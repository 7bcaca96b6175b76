// The threads that have not ended, a bit for each.
ghost use Rattle.std.specs.Prelude.{◌≡◌, cond, List, ℕ, ◌-◌, ◌^◌, ◌<◌, ◌≤◌};
ghost use Rattle.spec_sc.specs.State.{State, enabled};
ghost use Rattle.machine.specs.Held.{Holds};
ghost use Rattle.machine.specs.declared.state.Machine.{Machine};
ghost use Rattle.theory_sc.specs.Sets.{set_of};

use crate::sets::power;
use file_lines::{choose, wide};
use machine_access::ThreadState;

// The threads that have not ended, by where each stands.
pub(crate) fn live_set(lengths: &[usize; 6], threads: [ThreadState; 6]) -> u8
    ensures { (code : List ℕ) (m : Machine) (σ : State) → m.threads ≡ threads → Holds code lengths.now m σ
        → result ≡ set_of (enabled σ) 6 }
{
    let mut live = 0u8;
    for t in 0u8..6 {
        let i = wide(t);
        let k = threads[i];
        live += choose(k.at < lengths[i], power(t), 0);
    }
    live
}

// The threads that have not ended behind a step of thread t, which is one of them and goes on behind its step or not.
pub(crate) fn live_behind(live: u8, t: u8, on: bool) -> u8
    requires { (t < 6) × (2 ^ t ≤ live) }
    ensures { result ≡ cond on live (live - 2 ^ t) }
{
    if on { live } else { live - power(t) }
}
