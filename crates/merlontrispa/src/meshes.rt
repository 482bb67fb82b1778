// Triangles and flipped pairs.
// C passes a grid as a list, M and N, and the tolerances as three numbers: they stay parameters side by side.
// C has no enum with values: an answer is a struct with a refusal's number, and zeros beside one.
ghost use Rattle.std.specs.Prelude.{◌≡◌};
ghost use Rattle.lent.specs.Lent.{afterwards, answering};
ghost use Rattle.tolerance.specs.Tolerance.{tolerances};
ghost use Rattle.surface.specs.Found.{SurfaceMeets};
ghost use Rattle.refusal.specs.Refusals.{stated};
ghost use Rattle.mesh.specs.Mesh.{mesh_lists};
ghost use Rattle.triangulation.specs.Triangulation.{triangulate_grid};
ghost use Rattle.merlontrispa.specs.Meshes.{mesh_answer};

use crate::seams::{FoundSeam, no_seam};
use crate::tolerances::tolerances_from_c;
use refusal::Refusal;
use triangulation::Meshed;

// Both seams and the counts of triangles and flipped pairs, or the number of a refusal.
#[repr(C)]
#[derive(Clone, Copy)]
pub struct MeshAnswer {
    pub refusal: u8,
    pub u: FoundSeam,
    pub v: FoundSeam,
    pub triangles: usize,
    pub pairs: usize,
}

impl From<Result<Meshed, Refusal>> for MeshAnswer {
    fn from(answer: Result<Meshed, Refusal>) -> MeshAnswer
        ensures { result ≡ mesh_answer (stated answer) }
    {
        match answer {
            Ok(meshed) => MeshAnswer {
                refusal: 0,
                u: FoundSeam::from(meshed.seams.u),
                v: FoundSeam::from(meshed.seams.v),
                triangles: meshed.counts.triangles,
                pairs: meshed.counts.pairs,
            },
            Err(refusal) => MeshAnswer {
                refusal: u8::from(refusal),
                u: no_seam(),
                v: no_seam(),
                triangles: 0,
                pairs: 0,
            },
        }
    }
}

#[unsafe(no_mangle)]
pub extern "C" fn mt_triangulate_grid(
    grid: &[f64],
    m: usize,
    n: usize,
    u_tolerance: f64,
    v_tolerance: f64,
    line_tolerance: f64,
    triangles: &mut [usize],
    flipped: &mut [usize],
) -> MeshAnswer
    ensures handed { afterwards result (mesh_lists triangles.new flipped.new)
        ≡ answering mesh_answer (triangulate_grid grid.now m n
        (tolerances u_tolerance v_tolerance line_tolerance)
        (mesh_lists triangles.old flipped.old)) }
    ensures surface { SurfaceMeets grid.now m n }
{
    let tolerances = tolerances_from_c(u_tolerance, v_tolerance, line_tolerance);
    MeshAnswer::from(triangulation::triangulate_grid(grid, m, n, tolerances, triangles, flipped))
}
