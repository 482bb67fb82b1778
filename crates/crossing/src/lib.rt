// The point of an event (Rules 7.2): the two grid points that it is made from, the fraction between them, and itself.
#![tactic(auto)]

ghost use Rattle.std.specs.Prelude.{◌<◌, ◌≤◌, ◌≡◌, false};
ghost use Rattle.std.specs.Float.Ieee.{lt};
ghost use Rattle.float.specs.Consts.{zero64};
ghost use Rattle.grid.specs.Grid.{point_number};
ghost use Rattle.edges.specs.Events.{Inside};
ghost use Rattle.crossing.specs.Crossing.{cell_of, step_index, blend, crossing, edge_point};

use edges::event::ParamEdge;
use float::cast::to_f64;
use float::consts::EPS;
use float::order::clamp;
use float::sign::abs;
use float::whole::floor_i64;
use grid::Grid;
use param::ParamPoint;
use vector::Vector;

// A point made from grid points p and q by the fraction t.
#[derive(Clone, Copy)]
pub struct Crossing {
    pub p: usize,
    pub q: usize,
    pub t: f64,
    pub point: Vector,
}

// The cell of a value that is at least 0, on an axis of steps: the last one where it is within EPS
// of the last border.
#[tactic(auto, using(float::proofs::Bounds::floor_nonneg, float::proofs::Bounds::abs_count), unfolding(crate::specs::Crossing::cell_of, crate::specs::Crossing::close_to, float::specs::Consts::eps))]
fn cell_of(x: f64, steps: usize) -> usize
    requires steps { 0 < steps }
    requires x { lt x zero64 ≡ false }
    ensures { result ≡ cell_of x steps }
{
    if abs(x - to_f64(steps)) < EPS {
        steps - 1
    } else {
        floor_i64(x) as usize
    }
}

// The cell that a value falls into on an axis of steps, and how far into it.
#[tactic(auto, using(float::proofs::Bounds::clamped_nonneg), unfolding(crate::specs::Crossing::step_index, crate::specs::Crossing::off_axis, crate::specs::Crossing::at_cell, float::specs::Consts::eps))]
pub fn step_index(value: f64, steps: usize) -> Option<(usize, f64)>
    ensures { result ≡ step_index value steps }
{
    let top = to_f64(steps);
    if steps == 0 || value < -EPS || top + EPS < value {
        return None;
    }
    let x = clamp(value, 0.0, top);
    let i = cell_of(x, steps);
    Some((i, x - to_f64(i)))
}

// (1 - t) * p + t * q
#[tactic(auto, unfolding(crate::specs::Crossing::blend))]
fn blend(p: Vector, q: Vector, t: f64) -> Vector
    ensures { result ≡ blend p q t }
{
    p.mul_scalar(1.0 - t).add(q.mul_scalar(t))
}

// The point between two grid points, each of a u and a v.
fn between(grid: &Grid<'_>, from: (usize, usize), to: (usize, usize), t: f64) -> Crossing
    requires from { (from.0 ≤ grid.now.cells.m) × (from.1 ≤ grid.now.cells.n) }
    requires to { (to.0 ≤ grid.now.cells.m) × (to.1 ≤ grid.now.cells.n) }
    ensures { let n = grid.now.cells.n in
        result ≡ crossing grid.now.points.now (point_number n from.0 from.1) (point_number n to.0 to.1) t }
{
    let p = grid::point_number(grid.cells.n, from.0, from.1);
    let q = grid::point_number(grid.cells.n, to.0, to.1);
    let point = blend(
        grid::point_at(grid.points, p),
        grid::point_at(grid.points, q),
        t,
    );
    Crossing { p, q, t, point }
}

// The point of an event on its side, or none where `step_index` has no answer.
// That the side is one of the cells is asked here and in `walk::decide` alone: no type of it.
#[tactic(auto, using(crate::proofs::Edges::cell_inside), unfolding(crate::specs::Crossing::edge_point))]
pub fn edge_point(grid: &Grid<'_>, edge: ParamEdge, point: ParamPoint) -> Option<Crossing>
    requires inside { Inside grid.now.cells edge }
    ensures { result ≡ edge_point grid.now.points.now grid.now.cells edge point }
{
    match edge {
        ParamEdge::U(u) => {
            let (v, t) = step_index(point.v, grid.cells.n)?;
            Some(between(grid, (u, v), (u, v + 1), t))
        }
        ParamEdge::V(v) => {
            let (u, t) = step_index(point.u, grid.cells.m)?;
            Some(between(grid, (u, v), (u + 1, v), t))
        }
        ParamEdge::Diagonal(u, v) => {
            let t = clamp(point.v - to_f64(v), 0.0, 1.0);
            Some(between(grid, (u + 1, v), (u, v + 1), t))
        }
    }
}
