// Rules 12.4: casts between f64 and whole numbers, with Rust's meaning of `as`.
ghost use Rattle.std.specs.Prelude.{◌≡◌};
ghost use Rattle.std.specs.Float.Ieee.{to_unsigned};
ghost use Rattle.float.specs.Cast.{nat_float};

// x as usize: toward zero, to the nearest end of the range where it is out of it, and 0 for a NaN.
pub fn to_usize(x: f64) -> usize
    ensures { result ≡ to_unsigned 64 x }
{
    std::num::saturating_f64_to_usize(x)
}

// n as f64
#[tactic(auto, unfolding(crate::specs::Cast::nat_float))]
pub fn to_f64(n: usize) -> f64
    ensures { result ≡ nat_float n }
{
    std::num::nearest_usize_to_f64(n)
}
