// The events of a leg, in order (Rules 6.4): each is sorted in as it is found.
ghost use Rattle.std.specs.Prelude.{◌≡◌, List, [], ◌<◌, Some, length, drop, slice_get};
ghost use Rattle.edges.specs.Events.{pushed, unique, next_lambda, IfEvent};
ghost use Rattle.edges.specs.Order.{Storable, events_in, Ordered};
ghost use Rattle.edges.specs.declared.event.EdgeEvent.{EdgeEvent};

use crate::event::EdgeEvent;
use crate::scratch::{event_at, push_candidate, unique};
use std::marker::Model;

// As many as a leg can have: its ends, 256 lines of each axis and 509 diagonals.
const ROOM: usize = 1023;

// Events in order, their lambdas in one list and the numbers of their sides in another: a list of `EdgeEvent` would
// take 32 KB of stack, and a trace is promised to need 14.
#[derive(Drop)]
pub struct Events {
    lambdas: [f64; ROOM],
    codes: [u32; ROOM],
    count: usize,
}

impl Model for Events {
    ghost Value = { List EdgeEvent };

    ghost view = { λ s. events_in s.lambdas s.codes s.count };

    ghost invariant = { λ s. Ordered s.lambdas s.codes s.count };
}

impl Events {
    pub fn new() -> Events
        ensures { result ≡ [] }
    {
        Events {
            lambdas: [0.0; ROOM],
            codes: [0; ROOM],
            count: 0,
        }
    }

    #[tactic(auto, using(crate::proofs::Places::events_length))]
    pub fn len(&self) -> usize
        ensures { result ≡ length self.now }
    {
        self.count
    }

    // Event i.
    pub fn at(&self, i: usize) -> EdgeEvent
        requires { i < length self.now }
        ensures { slice_get self.now i ≡ Some result }
    {
        event_at(&self.lambdas, &self.codes, i)
    }

    // The lambda of event i, or 1 past the last.
    // No Option: 1 is where the leg ends, and what follows its last event.
    #[tactic(auto, using(crate::proofs::Laws::next_event))]
    pub fn lambda_or_one(&self, i: usize) -> f64
        ensures { result ≡ next_lambda (drop i self.now) }
    {
        if i < self.len() {
            self.at(i).lambda
        } else {
            1.0
        }
    }

    pub fn clear(&mut self)
        ensures { self.new ≡ [] }
    {
        self.count = 0;
    }

    // Sorts in a candidate that is an event.
    #[inline(always)]
    pub fn push(&mut self, candidate: Option<EdgeEvent>)
        requires room { length self.old < 1023 }
        requires storable { IfEvent Storable candidate }
        ensures { self.new ≡ pushed candidate self.old }
    {
        self.count = push_candidate(&mut self.lambdas, &mut self.codes, self.count, candidate);
    }

    // Drops each event that is less than EPS from the one kept before it.
    pub fn unique(&mut self)
        ensures { self.new ≡ unique self.old }
    {
        self.count = unique(&mut self.lambdas, &mut self.codes, self.count);
    }
}
