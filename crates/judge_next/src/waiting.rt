// Whether some read still waits for the last write of a location.
ghost use Rattle.std.specs.Prelude.{◌≡◌, ◌<◌, ◌≤◌};
ghost use Rattle.spec_sc.specs.State.{State};
ghost use Rattle.spec_sc.specs.Graph.{Graph};
ghost use Rattle.spec_judge.specs.Consistent.{Values};
ghost use Rattle.spec_judge.proofs.Walk.{none_waits};
ghost use Rattle.judge_next.specs.HeldWalk.{waits_at, Drawn};

use file_lines::wide;
use machine::Machine;

// Whether the read in entry k, other than access d of thread t, takes from (u, j) at location l and is not yet done.
fn waits(
    pairs: [u8; 576],
    places: [u8; 96],
    m: Machine,
    k: usize,
    l: u8,
    u: u8,
    j: u8,
    t: u8,
    d: u8,
) -> bool
    requires { k < 96 }
    ensures { result ≡ waits_at pairs places m k l u j t d }
{
    pairs[k * 2] == u
        && pairs[k * 2 + 1] == j
        && places[k] == l
        && wide(m.threads[k / 16].done) <= k % 16
        && (k / 16 != wide(t) || k % 16 != wide(d))
}

// Whether no read but access d of thread t still waits for the write (u, j) at location l.
pub(crate) fn none_waits(
    pairs: [u8; 576],
    places: [u8; 96],
    threads: usize,
    m: Machine,
    l: u8,
    u: u8,
    j: u8,
    t: u8,
    d: u8,
) -> bool
    requires { threads ≤ 6 }
    ensures { (g : Graph) (place : Values) (σ : State) → Drawn pairs places threads m g place σ → (u ≡ 254 → ⊥)
        → result ≡ none_waits g place σ l (u, j) (t, d) }
{
    for k in 0..16 * threads {
        if waits(pairs, places, m, k, l, u, j, t, d) {
            return false;
        }
    }
    true
}
