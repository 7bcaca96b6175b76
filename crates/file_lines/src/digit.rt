// Hexadecimal digits as bytes: 30 to 39 are 0 to 9, 61 to 66 are a to f, and 41 to 46, A to F, are read as a to f. What is written is
// lower case.
ghost use Rattle.std.specs.Prelude.{◌/◌, ◌%◌, ◌<◌, ◌≡◌};
ghost use Rattle.spec_file.specs.Digit.{lower, digit, value, digit_of};

// A to F as a to f; every other byte as it stands.
#[tactic(auto, unfolding(spec_file::specs::Digit::lower))]
fn lower(b: u8) -> u8
    ensures { result ≡ lower b }
{
    match b {
        65..=70 => b + 32,
        _ => b,
    }
}

// Whether the byte is a digit.
#[tactic(auto, unfolding(spec_file::specs::Digit::digit))]
pub(crate) fn is_digit(b: u8) -> bool
    ensures { result ≡ digit b }
{
    matches!(lower(b), 48..=57 | 97..=102)
}

// What the digit is worth; 0 for a byte that is no digit.
#[tactic(auto, unfolding(spec_file::specs::Digit::value))]
pub(crate) fn value_of(b: u8) -> u8
    ensures { (result ≡ value b) × (result < 16) }
{
    let d = lower(b);
    match d {
        48..=57 => d - 48,
        97..=102 => d - 87,
        _ => 0,
    }
}

// The digit of a byte's larger part.
pub(crate) fn high(b: u8) -> u8
    ensures { result ≡ digit_of (b / 16) }
{
    digit_of(b / 16)
}

// The digit of what is left of a byte.
pub(crate) fn low(b: u8) -> u8
    ensures { result ≡ digit_of (b % 16) }
{
    digit_of(b % 16)
}

// The digit that is worth n.
#[tactic(auto, unfolding(spec_file::specs::Digit::digit_of))]
fn digit_of(n: u8) -> u8
    requires { n < 16 }
    ensures { result ≡ digit_of n }
{
    if n < 10 { 48 + n } else { 87 + n }
}
