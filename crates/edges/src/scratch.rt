// Where the events of a leg stand, in order (Rules 6.4): their lambdas in one list, the numbers of their sides in
// another, and a count.
ghost use Rattle.std.specs.Prelude.{◌≡◌, ◌+◌, ◌<◌, ◌≤◌, length, get_or, take};
ghost use Rattle.std.specs.Float.{nan};
ghost use Rattle.std.specs.List.Sorted.{IsPartitionedBy};
ghost use Rattle.basics.specs.Lists.{put_at};
ghost use Rattle.float.specs.Order.{total_order};
ghost use Rattle.edges.specs.Events.{precedes, insert, pushed, unique, IfEvent};
ghost use Rattle.edges.specs.Order.{is_behind, event_of, events_in, PlaceOf, Storable, Sorted};

use crate::event::EdgeEvent;
use crate::side::{code_of, edge_of};
use float::consts::EPS;
use float::order::total_cmp;
use float::sign::abs;

// Event i.
pub fn event_at(lambdas: &[f64], codes: &[u32], i: usize) -> EdgeEvent
    requires { (i < length lambdas.now) × (i < length codes.now) }
    ensures { result ≡ event_of (get_or lambdas.now i nan) (get_or codes.now i 0) }
{
    EdgeEvent {
        lambda: lambdas[i],
        edge: edge_of(codes[i]),
    }
}

// Whether x comes before y in the total order, in which -0.0 comes before 0.0.
fn precedes(x: f64, y: f64) -> bool
    ensures { result ≡ precedes (total_order x y) }
{
    total_cmp(x, y).is_lt()
}

// Where a lambda goes among those of events in order, after its equals. Many go to the end, since the lines of an axis
// and the diagonals come in order.
fn place_of(lambdas: &[f64], lambda: f64) -> usize
    requires { IsPartitionedBy (is_behind lambda) lambdas.now }
    ensures { PlaceOf lambda lambdas.now (length lambdas.now) result }
{
    if lambdas.last().is_none_or(|other| !precedes(lambda, *other)) {
        lambdas.len()
    } else {
        lambdas.partition_point(|other| !precedes(lambda, *other))
    }
}

// Puts x at a place among the first `count` of a list, and moves up what stands there and after. The count goes beside
// the list, since what is moved ends at a place that is free.
fn put_at<T: Copy>(list: &mut [T], count: usize, place: usize, x: T)
    requires { (place ≤ count) × (count < length list.old) }
    ensures long { length list.new ≡ length list.old }
    ensures put { take (count + 1) list.new ≡ put_at place x (take count list.old) }
{
    // By hand: `rotate_right` and `copy_within` would have a C host bring `memmove`, and take longer on a few events.
    let mut i = count;
    while place < i {
        list[i] = list[i - 1];
        i -= 1;
    }
    list[place] = x;
}

// Puts an event in its place among `count` sorted events, after its equals.
#[inline(never)]
pub fn insert_event(lambdas: &mut [f64], codes: &mut [u32], count: usize, event: EdgeEvent)
    requires { (count < length lambdas.old) × (length lambdas.old ≡ length codes.old) × Storable event
        × Sorted (events_in lambdas.old codes.old count) }
    ensures { (events_in lambdas.new codes.new (count + 1)
        ≡ insert event (events_in lambdas.old codes.old count))
        × Sorted (events_in lambdas.new codes.new (count + 1)) }
{
    let place = place_of(&lambdas[..count], event.lambda);
    put_at(lambdas, count, place, event.lambda);
    put_at(codes, count, place, code_of(event.edge));
}

// Adds a candidate that is an event, and answers the new count. Most lines are not crossed: those are passed over
// without a call.
#[inline(always)]
pub fn push_candidate(
    lambdas: &mut [f64],
    codes: &mut [u32],
    count: usize,
    candidate: Option<EdgeEvent>,
) -> usize
    requires { (count < length lambdas.old) × (length lambdas.old ≡ length codes.old)
        × IfEvent Storable candidate × Sorted (events_in lambdas.old codes.old count) }
    ensures { (result ≤ count + 1) × (events_in lambdas.new codes.new result
        ≡ pushed candidate (events_in lambdas.old codes.old count))
        × Sorted (events_in lambdas.new codes.new result) }
{
    if let Some(event) = candidate {
        insert_event(lambdas, codes, count, event);
        count + 1
    } else {
        count
    }
}

// Drops each event that is less than EPS from the one kept before it; answers how many are kept.
pub fn unique(lambdas: &mut [f64], codes: &mut [u32], count: usize) -> usize
    requires { (count ≤ length lambdas.old) × (length lambdas.old ≡ length codes.old) }
    ensures { (result ≤ count) × (events_in lambdas.new codes.new result
        ≡ unique (events_in lambdas.old codes.old count)) }
{
    let mut kept = 0;
    let mut last: Option<f64> = None;
    for i in 0..count {
        let lambda = lambdas[i];
        if last.is_some_and(|before| abs(before - lambda) < EPS) {
            continue;
        }
        lambdas[kept] = lambda;
        codes[kept] = codes[i];
        kept += 1;
        last = Some(lambda);
    }
    kept
}
