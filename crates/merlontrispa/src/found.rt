// The seams that are found in a grid.
// C passes a grid as a list, M and N, and the tolerances as three numbers: they stay parameters side by side.
// C has no enum with values: an answer is a struct with a refusal's number, and zeros beside one.
ghost use Rattle.std.specs.Prelude.{◌≡◌};
ghost use Rattle.tolerance.specs.Tolerance.{tolerances};
ghost use Rattle.refusal.specs.Refusals.{stated};
ghost use Rattle.grid_seams.specs.Seams.{find_seams};
ghost use Rattle.merlontrispa.specs.Meshes.{seams_answer};

use crate::seams::{FoundSeam, no_seam};
use crate::tolerances::tolerances_from_c;
use grid_seams::Seams;
use refusal::Refusal;

// Both seams, or the number of a refusal.
#[repr(C)]
#[derive(Clone, Copy)]
pub struct SeamsAnswer {
    pub refusal: u8,
    pub u: FoundSeam,
    pub v: FoundSeam,
}

impl From<Result<Seams, Refusal>> for SeamsAnswer {
    fn from(answer: Result<Seams, Refusal>) -> SeamsAnswer
        ensures { result ≡ seams_answer (stated answer) }
    {
        match answer {
            Ok(seams) => SeamsAnswer {
                refusal: 0,
                u: FoundSeam::from(seams.u),
                v: FoundSeam::from(seams.v),
            },
            Err(refusal) => SeamsAnswer {
                refusal: u8::from(refusal),
                u: no_seam(),
                v: no_seam(),
            },
        }
    }
}

#[unsafe(no_mangle)]
pub extern "C" fn mt_find_seams(
    grid: &[f64],
    m: usize,
    n: usize,
    u_tolerance: f64,
    v_tolerance: f64,
    line_tolerance: f64,
) -> SeamsAnswer
    ensures { result ≡ seams_answer (find_seams grid.now m n
        (tolerances u_tolerance v_tolerance line_tolerance)) }
{
    let tolerances = tolerances_from_c(u_tolerance, v_tolerance, line_tolerance);
    SeamsAnswer::from(grid_seams::find_seams(grid, m, n, tolerances))
}
