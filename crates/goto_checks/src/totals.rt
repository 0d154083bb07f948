//! How many places code has with its checks.

ghost use Rattle.std.specs.Prelude.{◌≡◌, ◌+◌, ◌-◌, ◌∷◌, [], List, ℕ, drop, slice_index, IfOk, OnOk};
ghost use Rattle.goto_checks.specs.Inserted.{total_of, sums, extent};

use std::alloc::{AllocError, Global};
use std::marker::Model;

/// How many places of checked code are from each place of the old code on, those of the last place first.
#[derive(Drop)]
pub struct Totals {
    totals: Vec<usize>,
}

impl Model for Totals {
    ghost use Rattle.std.specs.Prelude.{List, ℕ, reverse};

    ghost Value = { List ℕ };

    ghost view = { λ t. reverse t.totals.items };
}

impl Totals {
    /// Behind the code of a function comes its end, which is one place.
    pub fn new(alloc: Global) -> Result<Totals, AllocError>
        ensures { IfOk result (λ t. t ≡ sums (1 ∷ [])) }
    {
        let mut totals = Vec::with_capacity(alloc, 2)?;
        totals.push(0)?;
        totals.push(1)?;
        Ok(Totals { totals })
    }

    // How many there are from the place behind `count` others on; none where that isn't there.
    #[tactic(auto, using(crate::proofs::Extents::read_reversed, crate::proofs::Extents::read_past))]
    fn at(&self, count: usize) -> usize
        ensures { result ≡ slice_index self.now count }
    {
        if count < self.totals.len() {
            self.totals[self.totals.len() - 1 - count]
        } else {
            0
        }
    }

    /// One place more in front, which becomes so many.
    pub fn push(&mut self, width: usize) -> Result<(), AllocError>
        ensures { OnOk result (self.new ≡ (width + total_of self.old) ∷ self.old) }
    {
        match self.at(0).checked_add(width) {
            Some(total) => self.totals.push(total)?,
            None => return Err(AllocError),
        }
        Ok(())
    }

    // One place fewer in front.
    #[tactic(auto, using(crate::proofs::Extents::popped, crate::proofs::Extents::popped_none))]
    fn pop(&mut self)
        ensures { self.new ≡ drop 1 self.old }
    {
        match self.totals.pop() {
            Some(_) => {}
            None => {}
        }
    }

    /// So many places fewer in front.
    pub fn leave(&mut self, count: usize)
        ensures { self.new ≡ drop count self.old }
    {
        for _ in 0..count {
            self.pop();
        }
    }

    /// How many places the first `count` have become.
    #[tactic(auto, using(crate::proofs::Extents::extent_read))]
    pub fn extent(&self, count: usize) -> usize
        ensures { (ws : List ℕ) → self.now ≡ sums ws → result ≡ extent count ws }
    {
        self.at(0).saturating_sub(self.at(count))
    }
}
