// The cell on whose diagonal a point is (Rules 6.3).
ghost use Rattle.std.specs.Prelude.{◌≡◌, None, cond, pos, ◌-ℤ◌};
ghost use Rattle.edges.specs.Cell.{index_of, on_diagonal, try_cell, in_cell, diagonal_cell_at};

use float::cast::to_f64;
use float::consts::EPS;
use float::sign::abs;
use float::whole::floor_i64;
use param::{Cells, ParamPoint, within};

// z as an index below n.
// By a test and a cast that is proved, as a project rule names it.
#[tactic(auto, unfolding(crate::specs::Cell::index_of))]
fn index_of(z: i64, n: usize) -> Option<usize>
    ensures { result ≡ index_of z n }
{
    if z >= 0 && (z as usize) < n {
        Some(z as usize)
    } else {
        None
    }
}

// z - 1, which is below zero where z is 0, as an index below n. The least i64 has none before it.
#[tactic(auto, unfolding(crate::specs::Cell::index_of))]
fn index_before(z: i64, n: usize) -> Option<usize>
    ensures { result ≡ index_of (z -ℤ pos 1) n }
{
    index_of(z.checked_sub(1)?, n)
}

// Whether the point is on the diagonal of cell (u, v): s and t are its distances from the cell's corner.
#[tactic(auto, unfolding(crate::specs::Cell::on_diagonal, float::specs::Consts::eps))]
fn on_diagonal(point: ParamPoint, u: usize, v: usize) -> bool
    ensures { result ≡ on_diagonal point u v }
{
    let s = point.u - to_f64(u);
    let t = point.v - to_f64(v);
    within(s, 1.0) & (within(t, 1.0) & (abs(s + t - 1.0) < EPS))
}

// The cell of two indices, where the point is on its diagonal. A cell stays two numbers, as `ParamEdge` has it.
#[tactic(auto, unfolding(crate::specs::Cell::try_cell))]
fn try_cell(point: ParamPoint, i: Option<usize>, j: Option<usize>) -> Option<(usize, usize)>
    ensures { result ≡ try_cell point i j }
{
    let (u, v) = (i?, j?);
    on_diagonal(point, u, v).then_some((u, v))
}

// The index, where x is in its cells on its axis, within EPS: of those that it is not in, none need be tried.
#[tactic(auto, unfolding(crate::specs::Cell::in_cell))]
fn in_cell(x: f64, index: Option<usize>) -> Option<usize>
    ensures { result ≡ cond (in_cell x index) index None }
{
    index.filter(|k| within(x - to_f64(*k), 1.0))
}

// Of the cell of the point's floors and the three before it, the first on whose diagonal the
// point lies: u - 1 before u, and for each v - 1 before v.
pub fn diagonal_cell_at(cells: Cells, point: ParamPoint) -> Option<(usize, usize)>
    ensures { result ≡ diagonal_cell_at cells point }
{
    let u_floor = floor_i64(point.u);
    let v_floor = floor_i64(point.v);
    let u0 = in_cell(point.u, index_before(u_floor, cells.m));
    let u1 = index_of(u_floor, cells.m);
    let v0 = in_cell(point.v, index_before(v_floor, cells.n));
    let v1 = index_of(v_floor, cells.n);
    try_cell(point, u0, v0)
        .or_else(|| try_cell(point, u0, v1))
        .or_else(|| try_cell(point, u1, v0))
        .or_else(|| try_cell(point, u1, v1))
}
