// Triangles and flipped pairs over seams that are given. A seam goes in as whether it was found, and its mapping.
// C has no Option, and passes a grid, the tolerances and a mapping as numbers: all stay parameters side by side.
// C has no enum with values: an answer is a struct with a refusal's number, and zeros beside one.
ghost use Rattle.std.specs.Prelude.{◌≡◌};
ghost use Rattle.lent.specs.Lent.{afterwards, answering};
ghost use Rattle.tolerance.specs.Tolerance.{tolerances};
ghost use Rattle.surface.specs.Given.{GivenMeets};
ghost use Rattle.mesh.specs.Mesh.{mesh_lists};
ghost use Rattle.refusal.specs.Refusals.{stated};
ghost use Rattle.triangulation.specs.Triangulation.{triangulate_seams};
ghost use Rattle.merlontrispa.specs.Seams.{seam_in};
ghost use Rattle.merlontrispa.specs.Meshes.{counts_answer};

use crate::seams::mapping;
use crate::tolerances::tolerances_from_c;
use cyclic::mapping::CyclicMapping;
use mesh::MeshCounts;
use refusal::Refusal;

// The counts of triangles and flipped pairs, or the number of a refusal.
#[repr(C)]
#[derive(Clone, Copy)]
pub struct CountsAnswer {
    pub refusal: u8,
    pub triangles: usize,
    pub pairs: usize,
}

// The mapping that goes in, or None.
fn seam_from_c(found: bool, reverse: bool, offset: usize, steps: usize) -> Option<CyclicMapping>
    ensures { result ≡ seam_in found reverse offset steps }
{
    found.then_some(mapping(reverse, offset, steps))
}

impl From<Result<MeshCounts, Refusal>> for CountsAnswer {
    fn from(answer: Result<MeshCounts, Refusal>) -> CountsAnswer
        ensures { result ≡ counts_answer (stated answer) }
    {
        match answer {
            Ok(counts) => CountsAnswer {
                refusal: 0,
                triangles: counts.triangles,
                pairs: counts.pairs,
            },
            Err(refusal) => CountsAnswer {
                refusal: u8::from(refusal),
                triangles: 0,
                pairs: 0,
            },
        }
    }
}

#[unsafe(no_mangle)]
pub extern "C" fn mt_triangulate_seams(
    grid: &[f64],
    m: usize,
    n: usize,
    u_tolerance: f64,
    v_tolerance: f64,
    line_tolerance: f64,
    u_found: bool,
    u_reverse: bool,
    u_offset: usize,
    u_steps: usize,
    v_found: bool,
    v_reverse: bool,
    v_offset: usize,
    v_steps: usize,
    triangles: &mut [usize],
    flipped: &mut [usize],
) -> CountsAnswer
    ensures handed { afterwards result (mesh_lists triangles.new flipped.new)
        ≡ answering counts_answer (triangulate_seams grid.now m n
        (tolerances u_tolerance v_tolerance line_tolerance)
        (seam_in u_found u_reverse u_offset u_steps) (seam_in v_found v_reverse v_offset v_steps)
        (mesh_lists triangles.old flipped.old)) }
    ensures surface { GivenMeets grid.now m n }
{
    let tolerances = tolerances_from_c(u_tolerance, v_tolerance, line_tolerance);
    let u = seam_from_c(u_found, u_reverse, u_offset, u_steps);
    let v = seam_from_c(v_found, v_reverse, v_offset, v_steps);
    CountsAnswer::from(triangulation::triangulate_seams(
        grid, m, n, tolerances, u, v, triangles, flipped,
    ))
}
