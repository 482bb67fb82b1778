// Rules 2.3: the tolerances of closeness, and refusal 13 of them.
#![tactic(auto)]

ghost use Rattle.std.specs.Prelude.{◌≡◌};
ghost use Rattle.tolerance.specs.Tolerance.{tolerance_fits, tolerances_check};

use refusal::Refusal;

// What close means for the u seam, for the v seam, and for neighbouring points of a line.
#[derive(Clone, Copy)]
pub struct Tolerances {
    pub u: f64,
    pub v: f64,
    pub line: f64,
}

// Whether a tolerance is finite, above zero and at most 1.
pub fn tolerance_fits(tolerance: f64) -> bool
    ensures { result ≡ tolerance_fits tolerance }
{
    float::sign::is_finite(tolerance) && 0.0 < tolerance && tolerance <= 1.0
}

impl Tolerances {
    // Refusal 13. All three are tested, whichever of them the call uses.
    pub fn check(self) -> Result<(), Refusal>
        ensures { result ≡ tolerances_check self }
    {
        if tolerance_fits(self.u) && tolerance_fits(self.v) && tolerance_fits(self.line) {
            Ok(())
        } else {
            Err(Refusal::Tolerance)
        }
    }
}
