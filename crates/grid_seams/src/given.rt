// Rules 3.5 and 4.5: whether seams that are given fit a grid.
ghost use Rattle.std.specs.Prelude.{◌≡◌, ◌≤◌};
ghost use Rattle.cyclic.specs.Mapping.{steps_of, HasIndex};
ghost use Rattle.cyclic.specs.Search.{close_at};
ghost use Rattle.cyclic.specs.TwoRows.{row_a, row_b};
ghost use Rattle.cyclic.specs.Fits.{of_rows, offset_tried, points_fit, seam_fits};
ghost use Rattle.surface.specs.Given.{seams_fit};

use crate::{u_rows, v_rows};
use cyclic::mapping::CyclicMapping;
use cyclic::seam::TwoRows;
use grid::Grid;
use tolerance::Tolerances;

// Whether each point of a is close to its image in b.
#[tactic(auto, using(cyclic::proofs::Fits::by_points))]
fn points_fit(rows: &TwoRows<'_>, tolerance: f64, mapping: CyclicMapping) -> bool
    requires { (rows.now.steps ≡ steps_of mapping) × HasIndex mapping 0 }
    ensures { result ≡ points_fit (close_at tolerance) (row_a rows.now) (row_b rows.now) mapping }
{
    for j in 0..=rows.steps {
        if !rows.close(j, mapping.image(j), tolerance) {
            return false;
        }
    }
    true
}

// Whether a mapping is one of rows of so many steps.
fn of_rows(mapping: CyclicMapping, steps: usize) -> bool
    ensures { result ≡ of_rows steps mapping }
{
    mapping.steps() == steps && mapping.offset() < steps
}

// Whether the search tries an offset: 0, and on closed rows any other.
fn offset_tried(rows: &TwoRows<'_>, tolerance: f64, offset: usize) -> bool
    ensures { result ≡ offset_tried (close_at tolerance) (row_a rows.now) (row_b rows.now) rows.now.steps offset }
{
    offset == 0 || rows.closed(tolerance).fits
}

// Whether a seam fits: None, or a mapping of the rows, at an offset that is tried, at each point.
#[tactic(auto, unfolding(cyclic::specs::Fits::seam_fits))]
fn seam_fits(rows: &TwoRows<'_>, tolerance: f64, seam: Option<CyclicMapping>) -> bool
    ensures { result ≡ seam_fits (close_at tolerance) (row_a rows.now) (row_b rows.now) rows.now.steps seam }
{
    let Some(mapping) = seam else {
        return true;
    };
    of_rows(mapping, rows.steps)
        && offset_tried(rows, tolerance, mapping.offset())
        && points_fit(rows, tolerance, mapping)
}

// Whether both fit, each at its tolerance. Tolerances and seams go side by side, as in the open call and in C.
#[tactic(auto, unfolding(surface::specs::Given::seams_fit))]
pub fn seams_fit(
    grid: &Grid<'_>,
    tolerances: Tolerances,
    u: Option<CyclicMapping>,
    v: Option<CyclicMapping>,
) -> bool
    requires { (1 ≤ grid.now.cells.m) × (1 ≤ grid.now.cells.n) }
    ensures { result ≡ seams_fit grid.now.points.now grid.now.cells.m grid.now.cells.n tolerances u v }
{
    seam_fits(&u_rows(grid), tolerances.u, u) && seam_fits(&v_rows(grid), tolerances.v, v)
}
