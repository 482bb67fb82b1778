// The events of a leg, in order (Rules 6.2 and 6.4): its candidates are sorted in, group after group.
ghost use Rattle.std.specs.Prelude.{◌≡◌, ◌+◌, ◌-◌, ◌<◌, ◌≤◌, length};
ghost use Rattle.float.specs.Cast.{count};
ghost use Rattle.param.specs.Param.{steps_on};
ghost use Rattle.edges.specs.Events.{low_sum, high_sum, first_sum, past_sum, ends, lines, diagonals};
ghost use Rattle.edges.specs.Events.{sort_into, sorted_edge_events};

use crate::event::{diagonal_candidate, edge_at_point, end_candidate, line_candidate};
use crate::events::Events;
use float::consts::EPS;
use float::sign::abs;
use float::whole::{ceil_i64, floor_i64};
use param::{Axis, Cells, Leg};

// The two ends.
fn push_ends(events: &mut Events, cells: Cells, leg: Leg)
    requires few { (cells.m ≤ 255) × (cells.n ≤ 255) }
    requires room { length events.old + 2 ≤ 1023 }
    ensures { events.new ≡ sort_into (ends cells leg) events.old }
{
    events.push(end_candidate(0.0, edge_at_point(cells, leg.a)));
    events.push(end_candidate(1.0, edge_at_point(cells, leg.b)));
}

// The lines of an axis.
fn push_lines(events: &mut Events, axis: Axis, cells: Cells, leg: Leg)
    requires few { (cells.m ≤ 255) × (cells.n ≤ 255) }
    requires room { length events.old + (steps_on axis cells + 1) ≤ 1023 }
    ensures { events.new ≡ sort_into (lines axis cells leg) events.old }
{
    if EPS < abs(leg.b.along(axis) - leg.a.along(axis)) {
        for step in 0..cells.steps_on(axis) + 1 {
            events.push(line_candidate(axis, cells, leg, step));
        }
    }
}

// A whole number below 0 counts as 0.
fn count_of(z: i64) -> usize
    ensures { (result ≡ count z) × (result < 9223372036854775808) }
{
    z.max(0) as usize
}

// The sums of u and v at the ends, first the smaller.
// By hand: std's `min` and `max` may give either of two equal zeros, and which one is fixed here.
fn end_sums(leg: Leg) -> (f64, f64)
    ensures { (result.0 ≡ low_sum leg) × (result.1 ≡ high_sum leg) }
{
    let from = leg.a.u + leg.a.v;
    let to = leg.b.u + leg.b.v;
    (
        if to < from { to } else { from },
        if from < to { to } else { from },
    )
}

// The first whole sum, from 1 on, that the leg can reach.
fn first_sum(leg: Leg) -> usize
    ensures { result ≡ first_sum leg }
{
    count_of(ceil_i64(end_sums(leg).0)).max(1)
}

// The sum past the last that the leg can reach and that has a diagonal.
fn past_sum(cells: Cells, leg: Leg) -> usize
    requires { (cells.m ≤ 255) × (cells.n ≤ 255) }
    ensures { result ≡ past_sum cells leg }
{
    (count_of(floor_i64(end_sums(leg).1)) + 1).min(cells.m + cells.n)
}

// The diagonals.
fn push_diagonals(events: &mut Events, cells: Cells, leg: Leg)
    requires few { (cells.m ≤ 255) × (cells.n ≤ 255) }
    requires room { length events.old + (cells.m + cells.n - 1) ≤ 1023 }
    ensures { events.new ≡ sort_into (diagonals cells leg) events.old }
{
    if EPS < abs(leg.b.u - leg.a.u + (leg.b.v - leg.a.v)) {
        for sum in first_sum(leg)..past_sum(cells, leg) {
            events.push(diagonal_candidate(cells, leg, sum));
        }
    }
}

// The events of a leg: its candidates in their order, end events, U lines, V lines and diagonals, sorted, without those
// that are less than EPS from the one kept before. There are at most 2 + (m + 1) + (n + 1) + (m + n - 1).
pub fn sorted_edge_events(events: &mut Events, cells: Cells, leg: Leg)
    requires { (cells.m ≤ 255) × (cells.n ≤ 255) }
    ensures { events.new ≡ sorted_edge_events cells leg }
{
    events.clear();
    push_ends(events, cells, leg);
    push_lines(events, Axis::AxisU, cells, leg);
    push_lines(events, Axis::AxisV, cells, leg);
    push_diagonals(events, cells, leg);
    events.unique();
}
