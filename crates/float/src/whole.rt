// Rules 12.4: floor, ceil and round.
ghost use Rattle.std.specs.Prelude.{◌≡◌};
ghost use Rattle.float.specs.Whole.{floor_z, ceil_z, rounded, ceiled};

// x.floor() as i64: the cut toward zero, or one below where x is below that. By std's `floor` a call takes 9.8 ns in
// the place of 8.4, and traces ask it often.
#[tactic(auto, using(crate::proofs::Floors::floor_step, crate::proofs::Floors::floor_same))]
pub fn floor_i64(x: f64) -> i64
    ensures { result ≡ floor_z x }
{
    let cut = std::num::saturating_f64_to_i64(x);
    if x < std::num::nearest_i64_to_f64(cut) {
        cut.saturating_sub(1)
    } else {
        cut
    }
}

// x.ceil() as i64: the cut toward zero, or one above where x is above that.
// Not by std's `ceil`: with `floor_i64` as it is, two forms of one step would be no plainer.
#[tactic(auto, using(crate::proofs::Floors::ceil_step, crate::proofs::Floors::ceil_same))]
pub fn ceil_i64(x: f64) -> i64
    ensures { result ≡ ceil_z x }
{
    let cut = std::num::saturating_f64_to_i64(x);
    if std::num::nearest_i64_to_f64(cut) < x {
        cut.saturating_add(1)
    } else {
        cut
    }
}

#[tactic(auto, using(crate::proofs::Floors::rounded_is))]
pub fn round(x: f64) -> f64
    ensures { result ≡ rounded x }
{
    x.round()
}

#[tactic(auto, using(crate::proofs::Floors::ceiled_is))]
pub fn ceil(x: f64) -> f64
    ensures { result ≡ ceiled x }
{
    x.ceil()
}
