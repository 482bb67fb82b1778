// Triangles and flipped pairs of a surface into lent lists, and the tests before that (Rules 4).
#![tactic(auto)]

ghost use Rattle.std.specs.Prelude.{◌+◌, ◌*◌, ◌≤◌, ◌≡◌, IfOk, length};
ghost use Rattle.grid.specs.Grid.{IsGiven};
ghost use Rattle.refusal.specs.Refusals.{tested};
ghost use Rattle.lent.specs.Lent.{afterwards};
ghost use Rattle.mesh.specs.Corners.{shape_of};
ghost use Rattle.mesh.specs.Mesh.{mesh_check, mesh_lists, written};

use corner::Surface;
use flipped::RowStarts;
use grid::Grid;
use refusal::Refusal;
use tolerance::Tolerances;

pub mod corner;
pub mod flipped;
pub mod pairs;
pub mod triangles;

// The count of triangles and the count of flipped pairs.
#[derive(Clone, Copy)]
pub struct MeshCounts {
    pub triangles: usize,
    pub pairs: usize,
}

// Refusals 1, 2, 13, 3 and 4 (Rules 11.2). The room is that of an M and N that pass 1.
// 1 is tested here too, as in `path`: a closure in `check_grid` would need clauses of its own.
#[tactic(auto, unfolding(crate::specs::Mesh::mesh_check, grid::specs::Grid::grid_check))]
pub fn check_mesh<'a>(
    points: &'a [f64],
    m: usize,
    n: usize,
    tolerances: Tolerances,
    triangles: &[usize],
    flipped: &[usize],
) -> Result<Grid<'a>, Refusal>
    ensures check { tested result ≡ mesh_check points.now m n tolerances triangles.now flipped.now }
    ensures grid { IfOk result (λ g. IsGiven points.now m n g.points.now g.cells) }
{
    if !grid::steps_fit(m, n) {
        return Err(Refusal::Steps);
    }
    let room = lent::check_room(6 * (m * n), triangles.len(), 2 * (m + n), flipped.len());
    grid::check_grid(points, m, n, tolerances.check().and(room))
}

// The triangles and flipped pairs of a surface, and zero past them. The lists are two, as the open calls have them.
pub fn triangulate(surface: Surface, triangles: &mut [usize], flipped: &mut [usize]) -> MeshCounts
    requires triangle_room { 6 * (surface.m * surface.n) ≤ length triangles.old }
    requires pair_room { 2 * (surface.m + surface.n) ≤ length flipped.old }
    ensures { afterwards result (mesh_lists triangles.new flipped.new)
        ≡ written (shape_of surface) (mesh_lists triangles.old flipped.old) }
{
    let mut starts = [0usize; 256];
    let count = surface.build_triangles(triangles, &mut starts);
    let rows = RowStarts {
        surface,
        starts: &starts,
    };
    let pairs = rows.find_flipped(flipped);
    triangles[3 * count..].fill(0);
    flipped[2 * pairs..].fill(0);
    MeshCounts {
        triangles: count,
        pairs,
    }
}
