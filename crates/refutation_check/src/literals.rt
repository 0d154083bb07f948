//! Which literals hold while a clause is checked.

ghost use Rattle.std.specs.Prelude.{◌≡◌, ◌≢◌, ◌<◌, ◌≤◌, IsTrue, IfOk, false, All, length};
ghost use Rattle.sat_form.specs.Satisfaction.{Literal};
ghost use Rattle.refutation_check.specs.Sets.{holds};

use sat_form::Lit;
use std::alloc::{AllocError, Global};
use std::marker::Model;

/// A set of literals over the variables below a number.
#[derive(Drop)]
pub struct LiteralSet {
    variables: u32,
    /// For each literal, by its index, the round in which it was last put into the set.
    rounds: Vec<usize>,
    /// The round of now, whose literals are those of the set. The rounds count from 1.
    round: usize,
}

impl Model for LiteralSet {
    ghost use Rattle.refutation_check.specs.Sets.{Literals, literals_of, HasRounds};

    ghost Value = { Literals };

    ghost view = { literals_of };

    ghost invariant = { HasRounds };
}

impl LiteralSet {
    /// The set without literals over this many variables.
    pub fn new(alloc: Global, variables: u32) -> Result<Self, AllocError>
        ensures variables { IfOk result (λ set. set.variables ≡ variables) }
    {
        Ok(LiteralSet {
            variables,
            rounds: vec![in alloc; 0; 2 * variables as usize]?,
            round: 1,
        })
    }

    /// How many variables there are.
    pub fn variables(&self) -> u32
        ensures { result ≡ self.now.variables }
    {
        self.variables
    }

    /// Whether the literal is in the set.
    pub fn contains(&self, literal: Lit) -> bool
        requires { literal.variable < self.now.variables }
        ensures { result ≡ holds self.now literal }
    {
        self.rounds[literal.index()] == self.round
    }

    /// Puts the literal into the set.
    pub fn insert(&mut self, literal: Lit)
        requires { literal.variable < self.old.variables }
        ensures variables { self.new.variables ≡ self.old.variables }
        ensures inserted { IsTrue (holds self.new literal) }
        ensures others { (l : Literal) → l ≢ literal → holds self.new l ≡ holds self.old l }
    {
        self.rounds[literal.index()] = self.round;
    }

    /// Takes all literals out of the set.
    pub fn clear(&mut self)
        ensures variables { self.new.variables ≡ self.old.variables }
        ensures none { (l : Literal) → holds self.new l ≡ false }
    {
        self.round = next_round(&mut self.rounds, self.round);
    }
}

/// A round that is later than each of these. Where there is none, they all become the round of no
/// literal.
fn next_round(rounds: &mut [usize], round: usize) -> usize
    requires { All (λ r. r ≤ round) rounds.old }
    ensures places { length rounds.new ≡ length rounds.old }
    ensures later { All (λ r. r < result) rounds.new }
    ensures begun { 1 ≤ result }
{
    if round == usize::MAX {
        rounds.fill(0);
        return 1;
    }
    round + 1
}
