// The three tolerances, each of which C passes as a number.
// No `From`: a trait of the library cannot be implemented here for a tuple and another crate's type.
ghost use Rattle.std.specs.Prelude.{◌≡◌};
ghost use Rattle.tolerance.specs.Tolerance.{tolerances};

use tolerance::Tolerances;

pub fn tolerances_from_c(u: f64, v: f64, line: f64) -> Tolerances
    ensures { result ≡ tolerances u v line }
{
    Tolerances { u, v, line }
}
