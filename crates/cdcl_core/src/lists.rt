//! Lists of literals and of numbers, written in place.

ghost use Rattle.std.specs.Prelude.{◌≡◌, ◌<◌, [], ℕ, Some, IfOk, OnOk, length, slice_get, slice_set, slice_index_or};
ghost use Rattle.sat_form.specs.Satisfaction.{index_of};

use sat_form::Lit;
use std::alloc::{AllocError, Global};
use std::marker::Model;

/// That a clause is looked at when a literal becomes false.
#[derive(Clone, Copy)]
pub struct Watch {
    /// The clause's number.
    pub number: u32,
    /// A literal of the clause: where it is true, the clause needs no look.
    pub blocker: Lit,
}

/// The watches on each literal, by its index.
#[derive(Drop)]
pub struct Lists {
    lists: Vec<Vec<Watch>>,
}

impl Model for Lists {
    ghost use Rattle.std.specs.Prelude.{List, map};
    ghost use Rattle.std.specs.declared.vec.Vec.{Vec};
    ghost use Rattle.cdcl_core.specs.declared.lists.Watch.{Watch};

    ghost Value = { List (List Watch) };

    ghost view = { λ l. map (λ v. v.items) l.lists.items };
}

impl Lists {
    ghost use Rattle.cdcl_core.specs.Lists.{watches_of, with_watches, pushed, removed};

    /// No watches, for so many indices.
    pub fn new(alloc: Global, count: usize) -> Result<Self, AllocError>
        ensures length { IfOk result (λ r. length r ≡ count) }
        ensures empty { IfOk result (λ r. (i : ℕ) → slice_index_or r i [] ≡ []) }
    {
        let mut lists = Vec::with_capacity(alloc, count)?;
        for _ in 0..count {
            lists.push(Vec::new(alloc))?;
        }
        Ok(Lists { lists })
    }

    /// How many watches a literal has.
    pub fn count(&self, literal: Lit) -> usize
        requires { index_of literal < length self.now }
        ensures { result ≡ length (watches_of self.now literal) }
    {
        self.lists[literal.index()].len()
    }

    /// One of a literal's watches.
    pub fn at(&self, literal: Lit, at: usize) -> Watch
        requires index { index_of literal < length self.now }
        requires at { at < length (watches_of self.now literal) }
        ensures { slice_get (watches_of self.now literal) at ≡ Some result }
    {
        self.lists[literal.index()][at]
    }

    /// Adds a watch on a literal. After an error the lists are unchanged.
    pub fn push(&mut self, literal: Lit, watch: Watch) -> Result<(), AllocError>
        requires { index_of literal < length self.old }
        ensures { OnOk result (self.new ≡ pushed self.old literal watch) }
    {
        self.lists[literal.index()].push(watch)?;
        Ok(())
    }

    /// Puts another watch in the place of one of a literal's.
    pub fn set(&mut self, literal: Lit, at: usize, watch: Watch)
        requires index { index_of literal < length self.old }
        requires at { at < length (watches_of self.old literal) }
        ensures { self.new ≡ with_watches self.old literal (slice_set (watches_of self.old literal) at watch) }
    {
        self.lists[literal.index()][at] = watch;
    }

    /// Takes one of a literal's watches away; the last one stands in its place then.
    pub fn remove(&mut self, literal: Lit, at: usize) -> Watch
        requires index { index_of literal < length self.old }
        requires at { at < length (watches_of self.old literal) }
        ensures { self.new ≡ removed self.old literal at result }
    {
        self.lists[literal.index()].swap_remove(at)
    }
}
