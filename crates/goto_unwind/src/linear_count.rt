//! Counts of places or objects as sums: a function's own, and as many times those that it calls.

ghost use Rattle.std.specs.Prelude.{◌≡◌, ◌+◌, ◌*◌, OnOk};
ghost use Rattle.goto_unwind.specs.Linear.{cut, nothing, counted, made, home_made, called};
ghost use Rattle.goto_unwind.specs.Places.{place_weights, object_weights};

use std::alloc::{AllocError, Global};
use std::marker::Model;

/// The greatest number of places.
pub(crate) const MOST_PLACES: u32 = 2_000_000;

/// A call of a function that counts so many times.
#[derive(Clone, Copy)]
pub(crate) struct Called {
    pub callee: u32,
    pub times: u32,
}

/// How many each node of a tree counts, and how many each object that is made.
#[derive(Clone, Copy)]
pub(crate) struct Weights {
    node: u32,
    object: u32,
}

impl Model for Weights {
    ghost use Rattle.goto_unwind.specs.Places as definition;

    ghost Value = { definition.Weights };

    ghost view = { λ w. record { node = w.node; object = w.object } };

    ghost inverse = { λ v. record { node = v.node; object = v.object } };
}

impl Weights {
    /// Places: each node is one.
    pub(crate) fn of_places() -> Weights
        ensures { result ≡ place_weights }
    {
        Weights { node: 1, object: 0 }
    }

    /// Objects: each that is made is one.
    pub(crate) fn of_objects() -> Weights
        ensures { result ≡ object_weights }
    {
        Weights { node: 0, object: 1 }
    }
}

/// How much a function counts beside what its calls add, and those calls.
#[derive(Drop)]
pub(crate) struct LinearCount {
    weights: Weights,
    own: u32,
    calls: Vec<Called>,
}

impl Model for LinearCount {
    ghost use Rattle.goto_unwind.specs.Linear.{Linear};

    ghost Value = { Linear };

    ghost view = { λ t. record { weights = t.weights; own = t.own; calls = t.calls.items } };
}

/// Two counts together, at most one more than the greatest number of places.
pub(crate) fn sum(left: u32, right: u32) -> u32
    ensures { result ≡ cut (left + right) }
{
    left.saturating_add(right).min(MOST_PLACES + 1)
}

/// A count so many times, at most one more than the greatest number of places.
pub(crate) fn product(left: u32, right: u32) -> u32
    ensures { result ≡ cut (left * right) }
{
    let whole = left as u64 * right as u64;
    whole.min(MOST_PLACES as u64 + 1) as u32
}

impl LinearCount {
    pub(crate) fn new(alloc: Global, weights: Weights) -> LinearCount
        ensures { result ≡ nothing weights }
    {
        LinearCount {
            weights,
            own: 0,
            calls: Vec::new(alloc),
        }
    }

    pub(crate) fn own(&self) -> u32
        ensures { result ≡ self.now.own }
    {
        self.own
    }

    pub(crate) fn calls(&self) -> &[Called]
        ensures { result.now ≡ self.now.calls }
    {
        &self.calls
    }

    /// So many nodes more.
    pub(crate) fn add(&mut self, count: u32)
        ensures { self.new ≡ counted count self.old }
    {
        self.own = sum(self.own, product(count, self.weights.node));
    }

    /// So many objects more that are made.
    pub(crate) fn make(&mut self, count: u32)
        ensures { self.new ≡ made count self.old }
    {
        self.own = sum(self.own, product(count, self.weights.object));
    }

    /// So many times the object of a variable, where that has an address.
    pub(crate) fn make_home(&mut self, home: Option<u32>, count: u32)
        ensures { self.new ≡ home_made count home self.old }
    {
        if home.is_some() {
            self.make(count);
        }
    }

    /// A call more that counts so many times. One that counts 0 times is left out, so that no walk visits it.
    pub(crate) fn call(&mut self, callee: u32, times: u32) -> Result<(), AllocError>
        ensures { OnOk result (self.new ≡ called callee times self.old) }
    {
        if times > 0 {
            self.calls.push(Called { callee, times })?;
        }
        Ok(())
    }
}
