// Rules 12.1: the sign and the magnitude.
ghost use Rattle.std.specs.Prelude.{◌≡◌};
ghost use Rattle.float.specs.Sign.{negative, absolute, is_finite, at_most};

// Whether the sign is negative: of -0.0 it is, and of a NaN it is not.
#[tactic(auto, using(crate::proofs::Signs::negative_is))]
pub fn is_negative(x: f64) -> bool
    ensures { result ≡ negative x }
{
    !x.is_nan() && x.is_sign_negative()
}

#[tactic(auto, using(crate::proofs::Signs::absolute_is))]
pub fn abs(x: f64) -> f64
    ensures { result ≡ absolute x }
{
    x.abs()
}

#[tactic(auto, using(crate::proofs::Signs::finite_is))]
pub fn is_finite(x: f64) -> bool
    ensures { result ≡ is_finite x }
{
    x.is_finite()
}

// Whether the magnitude is at most `top`: never so for a NaN. Two comparisons, and no branch on the sign.
#[tactic(auto, using(crate::proofs::Between::between_is))]
pub fn at_most(x: f64, top: f64) -> bool
    ensures { result ≡ at_most x top }
{
    (-top <= x) & (x <= top)
}
