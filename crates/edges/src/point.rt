// Where a value lies on an axis of whole steps.
ghost use Rattle.std.specs.Prelude.{◌≡◌};
ghost use Rattle.edges.specs.Near.{integer_step};

use float::cast::{to_f64, to_usize};
use float::consts::EPS;
use float::sign::abs;
use float::whole::round;

// The whole number from 0 to `steps` that a value is less than EPS from (Rules 6.2).
#[tactic(auto, unfolding(crate::specs::Near::integer_step, float::specs::Consts::eps))]
pub fn integer_step(value: f64, steps: usize) -> Option<usize>
    ensures { result ≡ integer_step value steps }
{
    let step = round(value);
    if abs(value - step) < EPS && 0.0 <= step && step <= to_f64(steps) {
        Some(to_usize(step))
    } else {
        None
    }
}
