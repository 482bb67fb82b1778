// The walk along a leg (Rules 7.1): what each event pushes, and when the line is flushed.
#![tactic(auto)]

ghost use Rattle.std.specs.Prelude.{◌≡◌};
ghost use Rattle.edges.specs.Events.{Inside};
ghost use Rattle.page.specs.Page.{moves_by, on_page};
ghost use Rattle.page.specs.Sheets.{page_of, outcome_of, same_lists};
ghost use Rattle.walk.specs.Walk.{between_inside, decide, moves_of, leg_moves};

use crossing::{Crossing, edge_point};
use edges::event::EdgeEvent;
use edges::events::Events;
use edges::sorted::sorted_edge_events;
use float::consts::EPS;
use grid::Grid;
use page::{Sheet, TracedPoint};
use param::{Cells, Leg, ParamPoint, param_in_bounds};
use refusal::Refusal;

// What an event does to the lines: the point that it pushes, if any, or refusal 11, which ends the walk; and whether
// the leg is inside the grid after it: where it is not, the pending line is flushed.
#[derive(Clone, Copy)]
pub struct Decision {
    pub point: Result<Option<Crossing>, Refusal>,
    pub inside: bool,
}

// Whether the leg is inside the grid between two lambdas: by its middle, or, where they are too near, by the point
// `near`.
#[tactic(auto, unfolding(crate::specs::Walk::between_inside, float::specs::Consts::eps, float::specs::Consts::half64))]
fn between_inside(cells: Cells, leg: Leg, from: f64, to: f64, near: ParamPoint) -> bool
    ensures { result ≡ between_inside cells leg from to near }
{
    if from + EPS < to {
        param_in_bounds(cells, leg.at((from + to) * 0.5))
    } else {
        param_in_bounds(cells, near)
    }
}

// One event between its neighbours, whose lambdas are `previous` and `next`: it has a point if the leg is inside before
// or after it.
#[tactic(auto, unfolding(crate::specs::Walk::decide))]
fn decide(grid: &Grid<'_>, leg: Leg, previous: f64, event: EdgeEvent, next: f64) -> Decision
    requires { Inside grid.now.cells event.edge }
    ensures { result ≡ decide grid.now.points.now grid.now.cells leg previous event next }
{
    let here = leg.at(event.lambda);
    let before = between_inside(grid.cells, leg, previous, event.lambda, here);
    let inside = between_inside(grid.cells, leg, event.lambda, next, leg.b);
    let point = if before || inside {
        edge_point(grid, event.edge, here)
            .map(Some)
            .ok_or(Refusal::NoStep)
    } else {
        Ok(None)
    };
    Decision { point, inside }
}

// Does to the lists what is decided of one event of the leg to sample number `sample`; the tolerance is that of lines.
#[tactic(auto, using(crate::proofs::Drawn::event_drawn))]
fn draw_event(
    decision: Decision,
    tolerance: f64,
    sample: usize,
    sheet: &mut Sheet<'_>,
) -> Result<(), Refusal>
    ensures same { same_lists sheet.old sheet.new }
    ensures page { outcome_of result sheet.new
        ≡ on_page tolerance (moves_by sample (moves_of decision)) (page_of sheet.old) }
{
    if let Some(crossing) = decision.point? {
        sheet.push_segment_point(TracedPoint { crossing, sample }, tolerance)?;
    }
    sheet.flush_unless(decision.inside)
}

// A leg, to sample number `sample`: its events, which are listed in `events`, and a flush if it ends outside the grid.
// The tolerance is that of lines.
pub fn append_edge_crossings(
    events: &mut Events,
    grid: &Grid<'_>,
    tolerance: f64,
    leg: Leg,
    sample: usize,
    sheet: &mut Sheet<'_>,
) -> Result<(), Refusal>
    ensures same { same_lists sheet.old sheet.new }
    ensures page { outcome_of result sheet.new
        ≡ on_page tolerance (moves_by sample (leg_moves grid.now.points.now grid.now.cells leg)) (page_of sheet.old) }
{
    sorted_edge_events(events, grid.cells, leg);
    let mut previous = 0.0;
    for i in 0..events.len() {
        let event = events.at(i);
        let next = events.lambda_or_one(i + 1);
        draw_event(
            decide(grid, leg, previous, event, next),
            tolerance,
            sample,
            sheet,
        )?;
        previous = event.lambda;
    }
    sheet.flush_unless(param_in_bounds(grid.cells, leg.b))
}
