// Rules 12.2 and 12.3: the larger of two, a value between two ends, and the order of `total_cmp`.
ghost use Rattle.std.specs.Prelude.{◌≡◌};
ghost use Rattle.float.specs.Order.{larger, clamped, total_order};

use crate::sign::is_negative;
use std::cmp::Ordering;

// The other operand where one is a NaN, and the first where the two are equal: std's `max` gives either of these.
#[tactic(auto, using(crate::proofs::Larger::larger_is))]
pub fn max(x: f64, y: f64) -> f64
    ensures { result ≡ larger x y }
{
    if x < y || x.is_nan() { y } else { x }
}

// -0.0 stays -0.0 between 0.0 and 1.0, and a NaN stays a NaN. std's `clamp` asks that the ends are in order.
#[tactic(auto, unfolding(crate::specs::Order::clamped))]
pub fn clamp(x: f64, lo: f64, hi: f64) -> f64
    ensures { result ≡ clamped x lo hi }
{
    let y = if x < lo { lo } else { x };
    if hi < y { hi } else { y }
}

// IEEE 754's totalOrder (5.10), clause by clause, as less, equal or greater in the place of true or
// false. Clause d, NaNs by sign and payload, is not taken: the logic has one NaN. A NaN passes
// neither a nor b and counts as positive in c, which is an answer but no order. No lambda is one:
// `edges::events::Events` requires that of all that it puts in order. std's `total_cmp` has no
// answer for a NaN.
#[tactic(auto, unfolding(crate::specs::Order::total_order))]
pub fn total_cmp(x: f64, y: f64) -> Ordering
    ensures { result ≡ total_order x y }
{
    if x < y { // a
        Ordering::Less
    } else if x > y { // b
        Ordering::Greater
    } else {
        // c: the values are equal, and only zeros can still differ, by their signs.
        match (is_negative(x), is_negative(y)) {
            (true, false) => Ordering::Less, // c, 1: -0.0 and 0.0
            (false, true) => Ordering::Greater, // c, 2: 0.0 and -0.0
            // c, 3: the same number, of which binary64 has one form.
            _ => Ordering::Equal,
        }
    }
}
