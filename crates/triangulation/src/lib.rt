// Triangles and flipped pairs of a grid, over two seams that are given, or over those that are found in it (Rules 4).
#![tactic(auto)]

ghost use Rattle.std.specs.Prelude.{◌≡◌, IfOk};
ghost use Rattle.refusal.specs.Refusals.{tested, stated};
ghost use Rattle.lent.specs.Lent.{afterwards};
ghost use Rattle.surface.specs.Found.{SurfaceMeets};
ghost use Rattle.surface.specs.Given.{GivenMeets};
ghost use Rattle.mesh.specs.Mesh.{mesh_lists};
ghost use Rattle.triangulation.specs.Triangulation.{given_check, triangulate_seams, triangulate_grid};

use cyclic::mapping::CyclicMapping;
use grid_seams::Seams;
use mesh::MeshCounts;
use mesh::corner::Surface;
use refusal::Refusal;
use tolerance::Tolerances;

// Both seams with their comparisons, the count of triangles and the count of flipped pairs.
#[derive(Clone, Copy)]
pub struct Meshed {
    pub seams: Seams,
    pub counts: MeshCounts,
}

// Refusals 1, 2, 13, 3, 4 (Rules 11.2) and then 14: a seam that is given does not fit.
#[tactic(auto, unfolding(crate::specs::Triangulation::given_check))]
fn check_given(
    points: &[f64],
    m: usize,
    n: usize,
    tolerances: Tolerances,
    u: Option<CyclicMapping>,
    v: Option<CyclicMapping>,
    triangles: &[usize],
    flipped: &[usize],
) -> Result<Surface, Refusal>
    ensures check { tested result ≡ given_check points.now m n tolerances u v triangles.now flipped.now }
    ensures surface { IfOk result (λ s. (s.m ≡ m) × (s.n ≡ n) × (s.u ≡ u) × (s.v ≡ v)) }
{
    let grid = mesh::check_mesh(points, m, n, tolerances, triangles, flipped)?;
    if grid_seams::given::seams_fit(&grid, tolerances, u, v) {
        Ok(Surface { m, n, u, v })
    } else {
        Err(Refusal::Mapping)
    }
}

// The triangles and flipped pairs of a grid of m by n steps into the two lists, over two seams that are given: None or
// mappings that fit at the tolerances. That of lines is tested and not used.
// The clause surface stands on each open call, as a project rule has it.
#[tactic(auto, unfolding(crate::specs::Triangulation::triangulate_seams))]
pub fn triangulate_seams(
    points: &[f64],
    m: usize,
    n: usize,
    tolerances: Tolerances,
    u: Option<CyclicMapping>,
    v: Option<CyclicMapping>,
    triangles: &mut [usize],
    flipped: &mut [usize],
) -> Result<MeshCounts, Refusal>
    ensures handed { afterwards (stated result) (mesh_lists triangles.new flipped.new)
        ≡ triangulate_seams points.now m n tolerances u v
        (mesh_lists triangles.old flipped.old) }
    ensures surface { GivenMeets points.now m n }
{
    let surface = check_given(points, m, n, tolerances, u, v, triangles, flipped)?;
    Ok(mesh::triangulate(surface, triangles, flipped))
}

// The same over the seams that are found in the grid at the tolerances. It is `find_seams` and then `triangulate_seams`,
// with the tests of both made once; what is found fits, so that 14 is not tried.
// The clause surface stands on each open call, as a project rule has it.
pub fn triangulate_grid(
    points: &[f64],
    m: usize,
    n: usize,
    tolerances: Tolerances,
    triangles: &mut [usize],
    flipped: &mut [usize],
) -> Result<Meshed, Refusal>
    ensures handed { afterwards (stated result) (mesh_lists triangles.new flipped.new)
        ≡ triangulate_grid points.now m n tolerances
        (mesh_lists triangles.old flipped.old) }
    ensures surface { SurfaceMeets points.now m n }
{
    let grid = mesh::check_mesh(points, m, n, tolerances, triangles, flipped)?;
    let seams = grid_seams::search_grid(&grid, tolerances);
    let surface = Surface {
        m,
        n,
        u: seams.u.seam,
        v: seams.v.seam,
    };
    Ok(Meshed {
        seams,
        counts: mesh::triangulate(surface, triangles, flipped),
    })
}
