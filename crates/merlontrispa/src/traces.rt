// The trace of flat samples.
// C passes a grid, the tolerances and the lent lists one by one: they stay parameters side by side.
ghost use Rattle.std.specs.Prelude.{◌≡◌};
ghost use Rattle.trace.specs.Demand.{Demand3};
ghost use Rattle.trace.specs.Numbers.{NumbersMet};
ghost use Rattle.lent.specs.Lent.{afterwards, answering};
ghost use Rattle.tolerance.specs.Tolerance.{tolerances};
ghost use Rattle.page.specs.Page.{lists};
ghost use Rattle.trace.specs.Trace.{trace_flat};
ghost use Rattle.merlontrispa.specs.Lines.{paths_answer};

use crate::lines::PathsAnswer;
use crate::tolerances::tolerances_from_c;
use page::{Pen, Sheet};

// The clauses demand and numbers stand on each open call, as a project rule has it.
#[unsafe(no_mangle)]
pub extern "C" fn mt_trace_flat(
    grid: &[f64],
    m: usize,
    n: usize,
    u_tolerance: f64,
    v_tolerance: f64,
    line_tolerance: f64,
    pairs: &[f64],
    marks: &[u8],
    points: &mut [f64],
    starts: &mut [usize],
    sides: &mut [usize],
    fractions: &mut [f64],
    samples: &mut [usize],
) -> PathsAnswer
    ensures answer { afterwards result
        (lists points.new starts.new sides.new fractions.new
        samples.new)
        ≡ answering paths_answer (trace_flat grid.now m n
        (tolerances u_tolerance v_tolerance line_tolerance) pairs.now marks.now
        (lists points.old starts.old sides.old fractions.old
        samples.old)) }
    ensures demand { Demand3 grid.now m n }
    ensures numbers { NumbersMet grid.now m n }
{
    let tolerances = tolerances_from_c(u_tolerance, v_tolerance, line_tolerance);
    // Written out, and not by `Sheet::new`: so the check sees that it is of the lists that are lent.
    let mut sheet = Sheet {
        points,
        starts,
        sides,
        fractions,
        samples,
        pen: Pen::default(),
    };
    PathsAnswer::from(trace::flat::trace_flat(grid, m, n, tolerances, pairs, marks, &mut sheet))
}
