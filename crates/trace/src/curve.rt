// The walk over all samples (Rules 7.1), which fills the lent lists.
ghost use Rattle.std.specs.Prelude.{◌≡◌, None};
ghost use Rattle.page.specs.Page.{moves_by, on_page};
ghost use Rattle.page.specs.Sheets.{page_of, outcome_of, same_lists};
ghost use Rattle.trace.specs.Curve.{samples_of, visit_of, visit_moves, trace_moves};

use crate::samples::Samples;
use edges::events::Events;
use grid::Grid;
use page::Sheet;
use param::{Leg, ParamPoint};
use refusal::Refusal;
use walk::append_edge_crossings;

// What a sample is to the walk: a break, the end of a leg, or a point with nothing before it.
// Three cases of its own: none of them is a missing value of another.
#[derive(Clone, Copy)]
pub enum Visit {
    Break,
    Along(Leg),
    First,
}

// What a sample is, by the point of the sample before it and by its own.
fn visit_of(previous: Option<ParamPoint>, sample: Option<ParamPoint>) -> Visit
    ensures { result ≡ visit_of previous sample }
{
    match (previous, sample) {
        (_, None) => Visit::Break,
        (Some(a), Some(b)) => Visit::Along(Leg { a, b }),
        (None, Some(_)) => Visit::First,
    }
}

// Sample number `sample`: a break flushes the pending line, a leg is walked along. The tolerance is that of lines.
fn trace_sample(
    events: &mut Events,
    grid: &Grid<'_>,
    tolerance: f64,
    visit: Visit,
    sample: usize,
    sheet: &mut Sheet<'_>,
) -> Result<(), Refusal>
    ensures same { same_lists sheet.old sheet.new }
    ensures page { outcome_of result sheet.new
        ≡ on_page tolerance (moves_by sample (visit_moves grid.now.points.now grid.now.cells visit))
        (page_of sheet.old) }
{
    match visit {
        Visit::Break => sheet.flush_segment(),
        Visit::Along(leg) => append_edge_crossings(events, grid, tolerance, leg, sample, sheet),
        Visit::First => Ok(()),
    }
}

// All samples in order; after the last one the pending line is flushed. Of a line's neighbouring points none are close
// by the tolerance. The list of a leg's events is made once: clearing it for each leg would cost more than the walk.
pub fn trace_parametric_edge_curve(
    grid: &Grid<'_>,
    tolerance: f64,
    samples: &Samples<'_>,
    sheet: &mut Sheet<'_>,
) -> Result<(), Refusal>
    ensures same { same_lists sheet.old sheet.new }
    ensures page { outcome_of result sheet.new
        ≡ on_page tolerance (trace_moves grid.now.points.now grid.now.cells 0
        (samples_of samples.now.marks.now samples.now.pairs.now) None) (page_of sheet.old) }
{
    let mut events = Events::new();
    let mut previous = None;
    for i in 0..samples.len() {
        let sample = samples.at(i);
        trace_sample(
            &mut events,
            grid,
            tolerance,
            visit_of(previous, sample),
            i,
            sheet,
        )?;
        previous = sample;
    }
    sheet.flush_segment()
}
