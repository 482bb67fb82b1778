// Rules 1.1 and 1.2: a grid's points by number, read from its list, and refusals 1, 2 and 4 of a grid, once for every
// call that takes one.
#![tactic(auto)]

ghost use Rattle.std.specs.Prelude.{◌≡◌, IfOk, length, ◌+◌, ◌*◌, ◌≤◌};
ghost use Rattle.refusal.specs.Refusals.{tested};
ghost use Rattle.grid.specs.Grid.{point_number, point_at, steps_fit, coordinates_fit, grid_check, GridFits, IsGiven};

use param::Cells;
use refusal::Refusal;
use vector::Vector;

// M and N are at most this.
pub const MAX_STEPS: usize = 255;

// 2^40, the largest magnitude of a coordinate.
const MAX_COORDINATE: f64 = 1099511627776.0;

// A list that has three numbers for each point of so many cells.
// It may have no cell: `path` and `crossing` ask for none, so that only who searches a seam asks for steps.
#[derive(Clone, Copy)]
pub struct Grid<'a> {
    pub points: &'a [f64],
    pub cells: Cells,
    pub ghost fits: { GridFits points.now cells },
}

// The number of grid point (u, v) where there are n steps in v.
// A number and no type of its own: a project rule defines it, and C is handed it.
pub fn point_number(n: usize, u: usize, v: usize) -> usize
    requires { (n ≤ 255) × (u ≤ 256) × (v ≤ 256) }
    ensures { result ≡ point_number n u v }
{
    u * (n + 1) + v
}

// Point number i of a list of coordinates.
// The list is flat by a project rule. By index: a chunk would be taken apart into the same three.
#[tactic(auto, unfolding(crate::specs::Grid::point_at))]
pub fn point_at(points: &[f64], i: usize) -> Vector
    requires { 3 * i + 3 ≤ length points.now }
    ensures { result ≡ point_at points.now i }
{
    Vector {
        x: points[3 * i],
        y: points[3 * i + 1],
        z: points[3 * i + 2],
    }
}

// Whether every coordinate is a number within ±2^40. A grid rarely fails, so no test ends the loop early.
#[tactic(auto, using(crate::proofs::Laws::coordinates_step), unfolding(crate::specs::Grid::coordinates_fit))]
pub fn coordinates_fit(points: &[f64]) -> bool
    ensures { result ≡ coordinates_fit points.now }
{
    let mut fit = true;
    for x in points {
        fit &= float::sign::at_most(*x, MAX_COORDINATE);
    }
    fit
}

// Whether M and N are from 1 to 255.
pub fn steps_fit(m: usize, n: usize) -> bool
    ensures { result ≡ steps_fit m n }
{
    1 <= m && m <= MAX_STEPS && 1 <= n && n <= MAX_STEPS
}

// Refusals 1, 2 and 4 of a grid; `between` is what the call itself refuses after 2 and before 4.
#[tactic(auto, unfolding(crate::specs::Grid::grid_check))]
pub fn check_grid<'a>(
    points: &'a [f64],
    m: usize,
    n: usize,
    between: Result<(), Refusal>,
) -> Result<Grid<'a>, Refusal>
    ensures check { tested result ≡ grid_check points.now m n between }
    ensures grid { IfOk result (λ g. IsGiven points.now m n g.points.now g.cells) }
{
    if !steps_fit(m, n) {
        return Err(Refusal::Steps);
    }
    if points.len() != 3 * ((m + 1) * (n + 1)) {
        return Err(Refusal::Length);
    }
    between?;
    if !coordinates_fit(points) {
        return Err(Refusal::Coordinate);
    }
    Ok(Grid {
        points,
        cells: Cells { m, n },
    })
}
