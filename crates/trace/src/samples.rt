// The samples of a trace, and the refusals before the walk (Rules 6.1 and 11).
ghost use Rattle.std.specs.Prelude.{◌<◌, ◌≡◌, IfOk, length, get_or};
ghost use Rattle.refusal.specs.Refusals.{tested};
ghost use Rattle.grid.specs.Grid.{IsGiven};
ghost use Rattle.trace.specs.Curve.{SamplesFit, sample_at, param_at, marked_point};
ghost use Rattle.trace.specs.Trace.{check_lengths, marks_fit, sample_fits, pairs_fit, trace_check};

use float::sign::at_most;
use grid::{Grid, check_grid};
use param::ParamPoint;
use refusal::Refusal;
use tolerance::Tolerances;

// A trace takes at most this many marks.
pub const MAX_MARKS: usize = 65537;

// The largest magnitude of a coordinate of a sample that is a point.
const MAX_SAMPLE: f64 = 1048576.0;

// Samples: u and v of each in turn, and a mark for each.
// Two lists, as C and a project rule have them: `at` gives a point or None.
#[derive(Clone, Copy)]
pub struct Samples<'a> {
    pub pairs: &'a [f64],
    pub marks: &'a [u8],
    pub ghost fits: { SamplesFit pairs.now marks.now },
}

// A break, or a point whose coordinates are finite and at most 1,048,576 in magnitude.
fn sample_fits(sample: Option<ParamPoint>) -> bool
    ensures { result ≡ sample_fits sample }
{
    sample.is_none_or(|point| at_most(point.u, MAX_SAMPLE) && at_most(point.v, MAX_SAMPLE))
}

impl<'a> Samples<'a> {
    // Refusal 2 of the samples.
    fn new(pairs: &'a [f64], marks: &'a [u8]) -> Result<Samples<'a>, Refusal>
        ensures check { tested result ≡ check_lengths pairs.now marks.now }
        ensures lists { IfOk result (λ s. (s.pairs.now ≡ pairs.now) × (s.marks.now ≡ marks.now)) }
    {
        if marks.len() <= MAX_MARKS && pairs.len() == 2 * marks.len() {
            Ok(Samples { pairs, marks })
        } else {
            Err(Refusal::Length)
        }
    }

    // How many there are.
    pub(crate) fn len(&self) -> usize
        ensures { result ≡ length self.now.marks.now }
    {
        self.marks.len()
    }

    // The point of sample i, or none of a break.
    pub(crate) fn at(&self, i: usize) -> Option<ParamPoint>
        requires { i < length self.now.marks.now }
        ensures { result ≡ marked_point (sample_at (get_or self.now.marks.now i 0) (param_at self.now.pairs.now i)) }
    {
        if self.marks[i] == 0 {
            return None;
        }
        Some(ParamPoint {
            u: self.pairs[2 * i],
            v: self.pairs[2 * i + 1],
        })
    }

    // Whether every mark is 0 or 1.
    fn marks_fit(&self) -> bool
        ensures { result ≡ marks_fit self.now.marks.now }
    {
        self.marks.iter().all(|mark| *mark <= 1)
    }

    // Whether every sample fits.
    fn pairs_fit(&self) -> bool
        ensures { result ≡ pairs_fit self.now.pairs.now self.now.marks.now }
    {
        (0..self.len()).all(|i| sample_fits(self.at(i)))
    }
}

// Refusals 1, 2 (grid, then samples), 13, 4, 9 and 10, in this order.
#[tactic(auto, unfolding(crate::specs::Trace::trace_check))]
pub fn check_trace<'a>(
    points: &'a [f64],
    m: usize,
    n: usize,
    tolerances: Tolerances,
    pairs: &'a [f64],
    marks: &'a [u8],
) -> Result<(Grid<'a>, Samples<'a>), Refusal>
    ensures check { tested result ≡ trace_check points.now m n tolerances pairs.now marks.now }
    ensures grid { IfOk result (λ r. IsGiven points.now m n r.0.points.now r.0.cells) }
    ensures samples { IfOk result (λ r. (r.1.pairs.now ≡ pairs.now) × (r.1.marks.now ≡ marks.now)) }
{
    let samples = Samples::new(pairs, marks);
    let grid = check_grid(points, m, n, samples.and(tolerances.check()))?;
    let samples = samples?;
    if !samples.marks_fit() {
        return Err(Refusal::Mark);
    }
    if !samples.pairs_fit() {
        return Err(Refusal::Sample);
    }
    Ok((grid, samples))
}
