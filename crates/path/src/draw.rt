// Rules 9.1: what `grid_paths` writes.
#![tactic(auto)]

ghost use Rattle.std.specs.Prelude.{◌≡◌, ◌+◌, ◌*◌, ◌≤◌, length, map};
ghost use Rattle.std.specs.List.{range_with_len};
ghost use mathlib.Core.List.{[], ◌∷◌, flatten};
ghost use Rattle.float.specs.Consts.{zero64};
ghost use Rattle.lent.specs.Lent.{filled};
ghost use Rattle.path.specs.GridPaths.{up_to, along_u, grid_lines, coordinates, starts_from};

use grid::{Grid, point_at, point_number};
use vector::Vector;

// A point's coordinates. Three stores, since a copy of a slice, also in a loop, becomes a call of memcpy, which the
// library does without.
fn put(place: &mut [f64], p: Vector)
    requires { length place.old ≡ 3 }
    ensures { place.new ≡ coordinates (p ∷ []) }
{
    place[0] = p.x;
    place[1] = p.y;
    place[2] = p.z;
}

// The line along u at v.
#[tactic(auto, unfolding(crate::specs::GridPaths::coordinates, crate::specs::GridPaths::along_u))]
fn line_along_u(grid: &Grid<'_>, v: usize, line: &mut [f64])
    requires { (v ≤ grid.now.cells.n) × (length line.old ≡ 3 * (grid.now.cells.m + 1)) }
    ensures { line.new ≡ coordinates (along_u grid.now.points.now grid.now.cells.m grid.now.cells.n v) }
{
    for u in 0..grid.cells.m + 1 {
        let number = point_number(grid.cells.n, u, v);
        put(&mut line[3 * u..3 * u + 3], point_at(grid.points, number));
    }
}

// The lines along u, v by v.
fn lines_along_u(grid: &Grid<'_>, points: &mut [f64])
    requires { length points.old ≡ 3 * ((grid.now.cells.m + 1) * (grid.now.cells.n + 1)) }
    ensures { points.new ≡ coordinates (flatten
        (map (along_u grid.now.points.now grid.now.cells.m grid.now.cells.n) (up_to grid.now.cells.n))) }
{
    let width = 3 * (grid.cells.m + 1);
    for v in 0..grid.cells.n + 1 {
        line_along_u(grid, v, &mut points[v * width..(v + 1) * width]);
    }
}

// The lines along v, u by u, are all points in their order.
fn lines_along_v(grid: &Grid<'_>, points: &mut [f64])
    requires { length points.old ≡ length grid.now.points.now }
    ensures { points.new ≡ grid.now.points.now }
{
    for number in 0..(grid.cells.m + 1) * (grid.cells.n + 1) {
        put(
            &mut points[3 * number..3 * number + 3],
            point_at(grid.points, number),
        );
    }
}

// The points of all lines, and zero past them.
#[tactic(auto, using(crate::proofs::Lines::points_drawn))]
pub fn points(grid: &Grid<'_>, points: &mut [f64])
    requires { 6 * ((grid.now.cells.m + 1) * (grid.now.cells.n + 1)) ≤ length points.old }
    ensures { points.new
        ≡ filled zero64 (coordinates (flatten (grid_lines grid.now.points.now grid.now.cells.m grid.now.cells.n)))
        points.old }
{
    let (along_u, rest) = points.split_at_mut(grid.points.len());
    let (along_v, rest) = rest.split_at_mut(grid.points.len());
    lines_along_u(grid, along_u);
    lines_along_v(grid, along_v);
    rest.fill(0.0);
}

// Numbers `stride` apart, from `first` on.
fn put_spaced(starts: &mut [usize], first: usize, stride: usize)
    requires { first + length starts.old * stride ≤ 1048576 }
    ensures { starts.new ≡ map (λ k. first + k * stride) (range_with_len 0 (length starts.old)) }
{
    for (k, start) in starts.iter_mut().enumerate() {
        *start = first + k * stride;
    }
}

// The starts of all lines, and zero past them.
pub fn starts(grid: &Grid<'_>, starts: &mut [usize])
    requires { grid.now.cells.m + grid.now.cells.n + 2 ≤ length starts.old }
    ensures { starts.new
        ≡ filled 0 (starts_from 0 (grid_lines grid.now.points.now grid.now.cells.m grid.now.cells.n)) starts.old }
{
    let us = grid.cells.m + 1;
    let vs = grid.cells.n + 1;
    let (along_u, rest) = starts.split_at_mut(vs);
    let (along_v, rest) = rest.split_at_mut(us);
    put_spaced(along_u, 0, us);
    put_spaced(along_v, us * vs, vs);
    rest.fill(0);
}
