// Rules 4.1 and 4.5: the two seams of a grid, found or given.
#![tactic(auto)]

ghost use Rattle.std.specs.Prelude.{◌≡◌, ◌≤◌};
ghost use Rattle.refusal.specs.Refusals.{stated};
ghost use Rattle.surface.specs.Found.{column, row};
ghost use Rattle.grid_seams.specs.Seams.{seams_of, find_seams, AreRows};

use cyclic::seam::{SeamSearch, TwoRows};
use grid::Grid;
use refusal::Refusal;
use tolerance::Tolerances;

pub mod given;

// What a search finds for the u seam and for the v seam.
#[derive(Clone, Copy)]
pub struct Seams {
    pub u: SeamSearch,
    pub v: SeamSearch,
}

// What the u seam joins: columns 0 and M.
fn u_rows<'a>(grid: &Grid<'a>) -> TwoRows<'a>
    requires { 1 ≤ grid.now.cells.n }
    ensures { AreRows (column grid.now.points.now grid.now.cells.n 0)
        (column grid.now.points.now grid.now.cells.n grid.now.cells.m) grid.now.cells.n result }
{
    TwoRows {
        a: grid.points,
        a_start: 0,
        b: grid.points,
        b_start: grid.cells.m * (grid.cells.n + 1),
        stride: 1,
        steps: grid.cells.n,
    }
}

// What the v seam joins: rows 0 and N.
fn v_rows<'a>(grid: &Grid<'a>) -> TwoRows<'a>
    requires { 1 ≤ grid.now.cells.m }
    ensures { AreRows (row grid.now.points.now grid.now.cells.n 0)
        (row grid.now.points.now grid.now.cells.n grid.now.cells.n) grid.now.cells.m result }
{
    TwoRows {
        a: grid.points,
        a_start: 0,
        b: grid.points,
        b_start: grid.cells.n,
        stride: grid.cells.n + 1,
        steps: grid.cells.m,
    }
}

// The two seams, each at its tolerance.
#[tactic(auto, using(cyclic::proofs::Rows::long_rows), unfolding(surface::specs::Found::u_search, surface::specs::Found::v_search))]
pub fn search_grid(grid: &Grid<'_>, tolerances: Tolerances) -> Seams
    requires { (1 ≤ grid.now.cells.m) × (1 ≤ grid.now.cells.n) }
    ensures { result ≡ seams_of grid.now.points.now grid.now.cells.m grid.now.cells.n tolerances }
{
    Seams {
        u: u_rows(grid).search(tolerances.u),
        v: v_rows(grid).search(tolerances.v),
    }
}

// The seams of a grid of m by n steps. Refusals 1, 2, 13 and 4; the tolerance of lines is tested and not used.
#[tactic(auto, unfolding(crate::specs::Seams::find_seams))]
pub fn find_seams(
    points: &[f64],
    m: usize,
    n: usize,
    tolerances: Tolerances,
) -> Result<Seams, Refusal>
    ensures { stated result ≡ find_seams points.now m n tolerances }
{
    let grid = grid::check_grid(points, m, n, tolerances.check())?;
    Ok(search_grid(&grid, tolerances))
}
