// The second entry of a trace (Rules 6.1): its samples are records, which are flattened into pairs and marks for the
// flat trace.
#![tactic(auto)]

ghost use Rattle.std.specs.Prelude.{◌≡◌, ◌*◌, ◌≤◌, length, take};
ghost use Rattle.refusal.specs.Refusals.{stated};
ghost use Rattle.lent.specs.Lent.{afterwards};
ghost use Rattle.page.specs.Sheets.{lists_of, same_lists};
ghost use Rattle.trace.specs.Trace.{trace_flat};
ghost use Rattle.trace.specs.Demand.{Demand3};
ghost use Rattle.trace.specs.Numbers.{NumbersMet};
ghost use Rattle.records.specs.Records.{pairs_of, marks_of};

use lent::Counts;
use page::Sheet;
use param::ParamPoint;
use refusal::Refusal;
use tolerance::Tolerances;
use trace::flat::trace_flat;
use trace::samples::MAX_MARKS;

// Two for each of MAX_MARKS.
const MAX_NUMBERS: usize = 131074;

// A record: the mark 1 and a point, or the mark 0 of a break, whose point is not looked at.
// A mark beside the point and no Option: C passes it so, and a project rule names it so.
#[repr(C)]
#[derive(Clone, Copy)]
pub struct Sample {
    pub mark: u8,
    pub point: ParamPoint,
}

// Puts the pairs and the marks of the records at the start of two lists. A slice of structs is read here alone.
fn flatten(records: &[Sample], pairs: &mut [f64; MAX_NUMBERS], marks: &mut [u8; MAX_MARKS])
    requires { length records.now ≤ 65537 }
    ensures pairs { take (2 * length records.now) pairs.new ≡ pairs_of records.now }
    ensures marks { take (length records.now) marks.new ≡ marks_of records.now }
{
    for (i, sample) in records.iter().enumerate() {
        pairs[2 * i..2 * i + 2].copy_from_slice(&[sample.point.u, sample.point.v]);
        marks[i] = sample.mark;
    }
}

// Traces a curve, given as records, across the cells of a grid, as `trace_flat` does with their pairs and marks; the
// number of a sample is the index of its record. More records than the flattened lists hold are refused, as a flat
// trace of so many marks is.
// The clauses demand and numbers stand on each open call, as a project rule has it.
pub fn trace_samples(
    points: &[f64],
    m: usize,
    n: usize,
    tolerances: Tolerances,
    records: &[Sample],
    sheet: &mut Sheet<'_>,
) -> Result<Counts, Refusal>
    ensures same { same_lists sheet.old sheet.new }
    ensures answer { afterwards (stated result) (lists_of sheet.new)
        ≡ trace_flat points.now m n tolerances (pairs_of records.now) (marks_of records.now) (lists_of sheet.old) }
    ensures demand { Demand3 points.now m n }
    ensures numbers { NumbersMet points.now m n }
{
    let count = records.len();
    if count > MAX_MARKS {
        return if grid::steps_fit(m, n) {
            Err(Refusal::Length)
        } else {
            Err(Refusal::Steps)
        };
    }
    // Arrays, since there is no heap; and copied, since a project rule asks for a thin entry.
    let mut pairs = [0.0; MAX_NUMBERS];
    let mut marks = [0; MAX_MARKS];
    flatten(records, &mut pairs, &mut marks);
    trace_flat(
        points,
        m,
        n,
        tolerances,
        &pairs[..2 * count],
        &marks[..count],
        sheet,
    )
}
