//! The functions that a file reaches, each behind those that it calls.

ghost use Rattle.std.specs.Prelude.{◌≡◌, ◌+◌, ◌<◌, ◌∷◌, IfOk, OnOk, length, nat_lt, replicate, slice_get, slice_index, slice_set};
ghost use Rattle.goto_unwind.specs.Linear.{Pops, added, cut, arrives, linear_of, opens, outcome, starting, walked};

use crate::linear_count::{Called, LinearCount, MOST_PLACES, product, sum};
use crate::renumbering::number;
use std::alloc::{AllocError, Global};
use std::marker::Model;

/// An activation while its calls are counted, so many times each: how many of them are seen, and how many
/// activations of its function could be opened before it.
#[derive(Clone, Copy)]
pub(crate) struct Visit {
    pub function: u32,
    pub left: u32,
    pub times: u32,
    pub next: usize,
}

/// A walk through the calls of a program: how many activations of each function may still be opened, those
/// that are open, the innermost last, and how many places are counted.
#[derive(Drop)]
pub(crate) struct Walk<'a> {
    table: &'a [LinearCount],
    left: Vec<u32>,
    visits: Vec<Visit>,
    counted: u32,
}

impl<'a> Model for Walk<'a> {
    ghost use Rattle.std.specs.Prelude.{reverse};
    ghost use Rattle.goto_unwind.specs.Linear.{Walking};

    ghost Value = { Walking };

    ghost view = { λ w. record { table = w.table.now; left = w.left.items; visits = reverse w.visits.items; counted = w.counted } };
}

impl<'a> Walk<'a> {
    // Before the first call, where so many activations of each function may be opened.
    fn new(
        alloc: Global,
        table: &'a [LinearCount],
        activations: u32,
    ) -> Result<Walk<'a>, AllocError>
        ensures { IfOk result (λ w. w ≡ starting table.now activations) }
    {
        let left = vec![in alloc; activations; table.len()]?;
        Ok(Walk {
            table,
            left,
            visits: Vec::new(alloc),
            counted: 0,
        })
    }

    // How many activations of a function may still be opened.
    fn left(&self, function: u32) -> u32
        ensures { result ≡ slice_index self.now.left function }
    {
        match self.left.get(function as usize) {
            Some(count) => *count,
            None => 0,
        }
    }

    // So many activations of a function may be opened.
    #[tactic(auto, using(goto_prog::proofs::WalkerSteps::set_beyond))]
    fn set_left(&mut self, function: u32, count: u32)
        ensures { self.new ≡ record self.old { left = slice_set self.old.left function count } }
    {
        let at = function as usize;
        if at < self.left.len() {
            self.left[at] = count;
        }
    }

    // What a function counts beside what its calls add.
    fn own(&self, function: u32) -> u32
        ensures { result ≡ (linear_of self.now.table function).own }
    {
        match self.table.get(function as usize) {
            Some(linear_count) => linear_count.own(),
            None => 0,
        }
    }

    // The call of a function with this number.
    fn call(&self, function: u32, number: usize) -> Option<Called>
        ensures { result ≡ slice_get (linear_of self.now.table function).calls number }
    {
        match self.table.get(function as usize) {
            Some(linear_count) => linear_count.calls().get(number).copied(),
            None => None,
        }
    }

    // Puts an activation on top.
    fn push(&mut self, visit: Visit) -> Result<(), AllocError>
        ensures { OnOk result (self.new ≡ record self.old { visits = visit ∷ self.old.visits }) }
    {
        self.visits.push(visit)?;
        Ok(())
    }

    // Takes the innermost activation.
    fn pop(&mut self) -> Option<Visit>
        ensures { Pops self.old self.new result }
    {
        self.visits.pop()
    }

    // So much more.
    fn count(&mut self, more: u32)
        ensures { self.new ≡ record self.old { counted = cut (self.old.counted + more) } }
    {
        self.counted = sum(self.counted, more);
    }

    // Opens an activation that counts so many times.
    fn open(&mut self, function: u32, times: u32) -> Result<(), AllocError>
        requires more { 0 < slice_index self.old.left function }
        ensures { OnOk result (self.new ≡ opens function times self.old) }
    {
        let left = self.left(function);
        self.count(product(times, self.own(function)));
        self.set_left(function, left - 1);
        self.push(Visit {
            function,
            left,
            times,
            next: 0,
        })
    }

    // The same, where one may be opened.
    fn arrive(&mut self, function: u32, times: u32) -> Result<(), AllocError>
        ensures { OnOk result (self.new ≡ arrives function times self.old) }
    {
        if self.left(function) == 0 || times == 0 {
            return Ok(());
        }
        self.open(function, times)
    }

    // A step of an activation that was the innermost.
    fn step(&mut self, visit: Visit) -> Result<(), AllocError>
        ensures { OnOk result (self.new ≡ walked visit self.old) }
    {
        match self.call(visit.function, visit.next) {
            None => {
                self.set_left(visit.function, visit.left);
                Ok(())
            }
            Some(call) => {
                let Visit {
                    function,
                    left,
                    times,
                    next,
                } = visit;
                self.push(Visit {
                    function,
                    left,
                    times,
                    next: number(next, 1)?,
                })?;
                self.arrive(call.callee, product(times, call.times))
            }
        }
    }

    // What is counted.
    fn total(&self) -> u32
        ensures { result ≡ cut self.now.counted }
    {
        sum(self.counted, 0)
    }

    // Whether the limit is passed.
    fn is_over(&self) -> bool
        ensures { result ≡ nat_lt 2000000 self.now.counted }
    {
        self.counted > MOST_PLACES
    }

    // Counts until the limit is passed.
    #[tactic(auto, using(crate::proofs::WalkSums::none_open, crate::proofs::WalkSums::all_counted))]
    fn run(&mut self) -> Result<(), AllocError>
        ensures { OnOk result (cut self.new.counted ≡ outcome self.old) }
    {
        'calls: while !self.is_over() {
            match self.pop() {
                None => return Ok(()),
                Some(visit) => self.step(visit)?,
            }
        }
        Ok(())
    }
}

/// How much a call of a function adds while no activation is open, where so many activations of each
/// may be open: at most one more than the greatest number.
#[tactic(auto, using(crate::proofs::WalkSums::first_outcome))]
pub(crate) fn whole(
    alloc: Global,
    table: &[LinearCount],
    activations: u32,
    function: u32,
) -> Result<u32, AllocError>
    ensures { IfOk result (λ n. n ≡ cut (added table.now (replicate (length table.now) activations) function)) }
{
    let mut walk = Walk::new(alloc, table, activations)?;
    walk.arrive(function, 1)?;
    walk.run()?;
    Ok(walk.total())
}
