// The parameter plane: its points, the legs between them, its two axes, and the cells of a grid.
#![tactic(auto)]

ghost use Rattle.std.specs.Prelude.{◌≡◌};
ghost use Rattle.param.specs.Param.{lerp, other, along, across, leg_at, steps_on, steps_off, within, param_in_bounds};

use float::cast::to_f64;
use float::consts::EPS;

// A point of the plane (Rules 6.1).
#[repr(C)]
#[derive(Clone, Copy)]
pub struct ParamPoint {
    pub u: f64,
    pub v: f64,
}

// What lies between two points that follow each other in the samples, straight from a to b (Rules 6.1).
// Cells and a leg go side by side: of a struct of both each use would be a name longer.
#[derive(Clone, Copy)]
pub struct Leg {
    pub a: ParamPoint,
    pub b: ParamPoint,
}

// The cells that a leg runs across: m steps in u, n in v.
// No bound in them: `param_in_bounds` and others ask for none, and a type may ask no more of their callers.
#[derive(Clone, Copy)]
pub struct Cells {
    pub m: usize,
    pub n: usize,
}

// An axis of the parameter plane.
#[derive(Clone, Copy)]
pub enum Axis {
    AxisU,
    AxisV,
}

impl Axis {
    pub fn other(self) -> Axis
        ensures { result ≡ other self }
    {
        match self {
            Axis::AxisU => Axis::AxisV,
            Axis::AxisV => Axis::AxisU,
        }
    }
}

impl ParamPoint {
    pub fn lerp(self, other: ParamPoint, t: f64) -> ParamPoint
        ensures { result ≡ lerp self other t }
    {
        ParamPoint {
            u: self.u + (other.u - self.u) * t,
            v: self.v + (other.v - self.v) * t,
        }
    }

    // The coordinate on an axis.
    // Here and in `steps_on`: as one generic pair the fields would lose their names.
    pub fn along(self, axis: Axis) -> f64
        ensures { result ≡ along axis self }
    {
        match axis {
            Axis::AxisU => self.u,
            Axis::AxisV => self.v,
        }
    }

    // The coordinate on the other axis.
    pub fn across(self, axis: Axis) -> f64
        ensures { result ≡ across axis self }
    {
        self.along(axis.other())
    }
}

impl Leg {
    // The point at `lambda`, which runs from 0 at a to 1 at b.
    pub fn at(self, lambda: f64) -> ParamPoint
        ensures { result ≡ leg_at self lambda }
    {
        self.a.lerp(self.b, lambda)
    }
}

impl Cells {
    // The steps on an axis.
    pub fn steps_on(self, axis: Axis) -> usize
        ensures { result ≡ steps_on axis self }
    {
        match axis {
            Axis::AxisU => self.m,
            Axis::AxisV => self.n,
        }
    }

    // The steps on the other axis.
    pub fn steps_off(self, axis: Axis) -> usize
        ensures { result ≡ steps_off axis self }
    {
        self.steps_on(axis.other())
    }
}

// From -EPS to top + EPS: never so for a NaN.
#[tactic(auto, unfolding(crate::specs::Param::within, float::specs::Consts::eps))]
pub fn within(x: f64, top: f64) -> bool
    ensures { result ≡ within x top }
{
    (-EPS <= x) & (x <= top + EPS)
}

// Within EPS of the grid (Rules 6.2).
// Of cells and a point, each a value of its own: a method of either would say the same.
#[tactic(auto, unfolding(crate::specs::Param::param_in_bounds))]
pub fn param_in_bounds(cells: Cells, point: ParamPoint) -> bool
    ensures { result ≡ param_in_bounds cells point }
{
    within(point.u, to_f64(cells.m)) & within(point.v, to_f64(cells.n))
}
