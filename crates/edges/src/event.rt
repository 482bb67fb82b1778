// Events (Rules 6.2): lambdas, each with the side that the leg is on there, and the candidates for them.
ghost use Rattle.std.specs.Prelude.{◌≡◌};
ghost use Rattle.edges.specs.Near.{normalize_lambda};
ghost use Rattle.edges.specs.Events.{edge_at_point, end_candidate, lambda_at, on_line, line_at, line_candidate};
ghost use Rattle.edges.specs.Events.{diagonal_candidate};

use crate::cell::diagonal_cell_at;
use crate::point::integer_step;
use float::cast::to_f64;
use float::order::clamp;
use param::{Axis, Cells, Leg, ParamPoint, param_in_bounds, within};

// A side: the line U(u) or V(v), or the diagonal of the cell (u, v): the cases that the scope names.
#[derive(Clone, Copy)]
pub enum ParamEdge {
    U(usize),
    V(usize),
    Diagonal(usize, usize),
}

// An event.
#[derive(Clone, Copy)]
pub struct EdgeEvent {
    pub lambda: f64,
    pub edge: ParamEdge,
}

// The side that a point lies on, if any: a U line, else a V line, else a diagonal.
#[tactic(auto, unfolding(crate::specs::Events::edge_at_point))]
pub fn edge_at_point(cells: Cells, point: ParamPoint) -> Option<ParamEdge>
    ensures { result ≡ edge_at_point cells point }
{
    if !param_in_bounds(cells, point) {
        return None;
    }
    integer_step(point.u, cells.m)
        .map(ParamEdge::U)
        .or_else(|| integer_step(point.v, cells.n).map(ParamEdge::V))
        .or_else(|| diagonal_cell_at(cells, point).map(|(u, v)| ParamEdge::Diagonal(u, v)))
}

// The event of an end of a leg, where the end lies on a side.
pub fn end_candidate(lambda: f64, at: Option<ParamEdge>) -> Option<EdgeEvent>
    ensures { result ≡ end_candidate lambda at }
{
    at.map(|edge| EdgeEvent { lambda, edge })
}

// A lambda that is within EPS of 0 to 1 counts, and is brought there; -0.0 stays -0.0. Most do not count:
// with `then_some`, which clamps those too, a leg of half a step takes half as long again.
#[tactic(auto, unfolding(crate::specs::Near::normalize_lambda))]
pub fn normalize_lambda(lambda: f64) -> Option<f64>
    ensures { result ≡ normalize_lambda lambda }
{
    if within(lambda, 1.0) {
        Some(clamp(lambda, 0.0, 1.0))
    } else {
        None
    }
}

// Where what goes from `start` by `change` comes to `end`.
fn lambda_at(end: f64, start: f64, change: f64) -> Option<f64>
    ensures { result ≡ lambda_at end start change }
{
    normalize_lambda((end - start) / change)
}

// An event on a line of so many steps, where it is within EPS of the line.
fn on_line(x: f64, steps: usize, event: EdgeEvent) -> Option<EdgeEvent>
    ensures { result ≡ on_line x steps event }
{
    within(x, to_f64(steps)).then_some(event)
}

// The line at `step` of an axis.
fn line_at(axis: Axis, step: usize) -> ParamEdge
    ensures { result ≡ line_at axis step }
{
    match axis {
        Axis::AxisU => ParamEdge::U(step),
        Axis::AxisV => ParamEdge::V(step),
    }
}

// Where a leg crosses the line at `step` of an axis.
#[tactic(auto, unfolding(crate::specs::Events::line_crossing))]
pub fn line_candidate(axis: Axis, cells: Cells, leg: Leg, step: usize) -> Option<EdgeEvent>
    ensures { result ≡ line_candidate axis cells leg step }
{
    let start = leg.a.along(axis);
    let lambda = lambda_at(to_f64(step), start, leg.b.along(axis) - start)?;
    let edge = line_at(axis, step);
    on_line(
        leg.at(lambda).across(axis),
        cells.steps_off(axis),
        EdgeEvent { lambda, edge },
    )
}

// Where u + v comes to `sum`, in bounds and on the diagonal of a cell.
#[tactic(auto, unfolding(crate::specs::Events::diagonal_crossing))]
pub fn diagonal_candidate(cells: Cells, leg: Leg, sum: usize) -> Option<EdgeEvent>
    ensures { result ≡ diagonal_candidate cells leg sum }
{
    let change = leg.b.u - leg.a.u + (leg.b.v - leg.a.v);
    let lambda = lambda_at(to_f64(sum), leg.a.u + leg.a.v, change)?;
    let point = leg.at(lambda);
    if !param_in_bounds(cells, point) {
        return None;
    }
    let (u, v) = diagonal_cell_at(cells, point)?;
    let edge = ParamEdge::Diagonal(u, v);
    Some(EdgeEvent { lambda, edge })
}
