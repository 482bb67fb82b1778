// The trace of flat samples (Rules 6.1): u and v in turn in one list, marks in another.
ghost use Rattle.std.specs.Prelude.{◌≡◌};
ghost use Rattle.refusal.specs.Refusals.{stated};
ghost use Rattle.lent.specs.Lent.{afterwards};
ghost use Rattle.page.specs.Sheets.{lists_of, same_lists};
ghost use Rattle.trace.specs.Trace.{trace_flat};
ghost use Rattle.trace.specs.Demand.{Demand3};
ghost use Rattle.trace.specs.Numbers.{NumbersMet};

use crate::curve::trace_parametric_edge_curve;
use crate::samples::check_trace;
use lent::Counts;
use page::Sheet;
use refusal::Refusal;
use tolerance::Tolerances;

// Traces a curve across the cells of a grid and draws its lines into the lent lists, from their start: x, y, z of each
// point, the number of each line's first point, the two grid points that each point lies between, the fraction between
// them, and the number of the sample that each point was made by. Of the tolerances it uses that of lines, and tests
// all three.
// The clauses demand and numbers stand on each open call, as a project rule has it.
pub fn trace_flat(
    points: &[f64],
    m: usize,
    n: usize,
    tolerances: Tolerances,
    pairs: &[f64],
    marks: &[u8],
    sheet: &mut Sheet<'_>,
) -> Result<Counts, Refusal>
    ensures same { same_lists sheet.old sheet.new }
    ensures answer { afterwards (stated result) (lists_of sheet.new)
        ≡ trace_flat points.now m n tolerances pairs.now marks.now (lists_of sheet.old) }
    ensures demand { Demand3 points.now m n }
    ensures numbers { NumbersMet points.now m n }
{
    let (grid, samples) = check_trace(points, m, n, tolerances, pairs, marks)?;
    sheet.restart();
    let walked = trace_parametric_edge_curve(&grid, tolerances.line, &samples, sheet);
    // A walk that is refused draws nothing.
    if walked.is_err() {
        sheet.restart();
    }
    sheet.zero_rest();
    walked?;
    Ok(Counts {
        points: sheet.pen.count,
        lines: sheet.pen.lines,
    })
}
