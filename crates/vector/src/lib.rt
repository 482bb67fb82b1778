// Rules 2: a point or direction of three f64, with operations that are called as in the original and give a new one.
#![tactic(auto)]

ghost use Rattle.std.specs.Prelude.{◌≡◌, not, ◌||◌};
ghost use Rattle.std.specs.Float.Ieee.{lt, is_nan};
ghost use Rattle.float.specs.Sign.{absolute};
ghost use Rattle.vector.specs.Vectors.{plus, minus, scaled, all_close};

#[derive(Clone, Copy)]
pub struct Vector {
    pub x: f64,
    pub y: f64,
    pub z: f64,
}

// Each of the first three is as short as a call with its operator as a closure would be.
impl Vector {
    pub fn add(self, other: Vector) -> Vector
        ensures { result ≡ plus self other }
    {
        Vector {
            x: self.x + other.x,
            y: self.y + other.y,
            z: self.z + other.z,
        }
    }

    pub fn sub(self, other: Vector) -> Vector
        ensures { result ≡ minus self other }
    {
        Vector {
            x: self.x - other.x,
            y: self.y - other.y,
            z: self.z - other.z,
        }
    }

    pub fn mul_scalar(self, s: f64) -> Vector
        ensures { result ≡ scaled self s }
    {
        Vector {
            x: self.x * s,
            y: self.y * s,
            z: self.z * s,
        }
    }

    // Whether two points are close at a tolerance, whatever that is: no difference keeps them apart, and not all three
    // are NaNs, which f64::max passes over. Three calls side by side: an array of the differences and `any` say no less.
    #[tactic(auto, using(crate::proofs::Close::close_by_lem))]
    pub fn all_close(self, other: Vector, tolerance: f64) -> bool
        ensures { result ≡ all_close self other tolerance }
    {
        let d = self.sub(other);
        let apart = apart(d.x, tolerance) || apart(d.y, tolerance) || apart(d.z, tolerance);
        !apart && !(d.x.is_nan() & d.y.is_nan() & d.z.is_nan())
    }
}

// Whether a difference keeps two points apart: it is a number, and its magnitude is not below the tolerance. Nothing is
// below a NaN.
#[tactic(auto, using(crate::proofs::Close::apart_is))]
fn apart(d: f64, tolerance: f64) -> bool
    ensures { result ≡ not (lt (absolute d) tolerance || is_nan d) }
{
    (tolerance <= d) | (d <= -tolerance) | (tolerance.is_nan() & !d.is_nan())
}
