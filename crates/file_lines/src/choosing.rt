// A choice of two values by a flag.
ghost use Rattle.std.specs.Prelude.{◌≡◌, cond};

// x where the flag is set, and y where it is not.
pub fn choose<T: Copy>(b: bool, x: T, y: T) -> T
    ensures { result ≡ cond b x y }
{
    if b { x } else { y }
}
