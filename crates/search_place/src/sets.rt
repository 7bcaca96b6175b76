// Sets of small numbers, a bit for each. A bit is named by a shift, which is one instruction where the number is not known before.
ghost use Rattle.std.specs.Prelude.{◌≡◌, ◌^◌, ◌<◌, ◌≤◌};
ghost use Rattle.spec_schedules.specs.Sets.{has};
ghost use Rattle.theory_sc.specs.Sets.{addend};

use file_lines::choose;

// The bit of thread t.
pub fn power(t: u8) -> u8
    requires { t < 6 }
    ensures { (result ≡ 2 ^ t) × (result ≤ 32) }
{
    1u8 << t
}

// Whether k is in the set.
pub fn is_in(set: u8, k: u8) -> bool
    ensures { result ≡ has set k }
{
    k < 8 && (set >> k) % 2 == 1
}

// k, or nothing.
pub fn addend(b: bool, k: u8) -> u8
    ensures { (result ≡ addend b k) × (result ≤ k) }
{
    choose(b, k, 0)
}
