//! Which clauses watch a literal.

ghost use Rattle.std.specs.Prelude.{◌≡◌, ◌≢◌, ◌↔◌, [], ◌∷◌, ◌++◌, ◌<◌, suc, Some, IsTrue, IsSomeAnd, IfSome, IfOk, IfNone, OnOk, Contains, length, slice_get, slice_set};
ghost use Rattle.sat_form.specs.Satisfaction.{Literal, index_of, AreWithin};
ghost use Rattle.cdcl_core.specs.Settled.{AreFalse};
ghost use Rattle.cdcl_core.specs.Going.{GoesOn};

use crate::clauses::Clauses;
use crate::lists::{Lists, Watch};
use crate::propagation::{Reading, read_beside};
use crate::trail::Trail;
use sat_form::{Clause, Lit};
use std::alloc::{AllocError, Global};

/// The watched literals of a clause: two different ones, or the same twice where it has no two.
#[derive(Clone, Copy)]
pub struct Pair {
    pub first: Lit,
    pub second: Lit,
    /// Where in the clause another literal to watch is looked for first.
    pub start: usize,
}

/// What a look at the clause of a watch came to.
#[derive(Drop)]
pub enum Look {
    /// The watch stays, and the clause has a true literal.
    Kept,
    /// Another literal is watched in its place.
    Moved,
    /// Each literal of the clause with this number is false.
    Conflict(usize),
}

/// Two watched literals of each clause: while neither is false, the clause needs no look.
#[derive(Drop)]
pub struct Watches {
    lists: Lists,
    /// The watched literals of each clause, by its number.
    pairs: Vec<Pair>,
}

impl Watches {
    ghost use Rattle.std.specs.Prelude.{ℕ};
    ghost use Rattle.cdcl_core.specs.declared.watches.Pair.{Pair};
    ghost use Rattle.cdcl_core.specs.Lists.{watches_of, pushed, removed, IsEntered};
    ghost use Rattle.cdcl_core.specs.Watched.{AreListed, AreSingle, AreWatched, IsHeld, IsFalsifiedAt, AreVisited, IsLook};
    ghost use Rattle.cdcl_core.specs.Steps.{oldest};

    /// Watches two different literals of each clause that has them.
    pub fn new(alloc: Global, variables: u32, clauses: &Clauses) -> Result<Self, AllocError>
        requires { AreWithin variables clauses.now }
        ensures listed { IfOk result (λ w. AreListed variables clauses.now w.pairs.items w.lists) }
        ensures single { IfOk result (λ w. AreSingle clauses.now w.pairs.items) }
    {
        let mut watches = Watches {
            lists: Lists::new(alloc, 2 * variables as usize)?,
            pairs: Vec::with_capacity(alloc, clauses.len())?,
        };
        for number in 0..clauses.len() {
            watches.enter(pair_of(clauses.at(number)))?;
        }
        Ok(watches)
    }

    /// Watches two literals of the clause with the next number, if they differ. Fails only for want of memory, and where there
    /// are 2^32 clauses.
    pub fn enter(&mut self, pair: Pair) -> Result<(), AllocError>
        requires first { pair.first ≢ pair.second → index_of pair.first < length self.old.lists }
        requires second { pair.first ≢ pair.second → index_of pair.second < length self.old.lists }
        ensures pairs { OnOk result (self.new.pairs.items ≡ self.old.pairs.items ++ pair ∷ []) }
        ensures lists { OnOk result (IsEntered self.old.lists (length self.old.pairs.items) pair.first pair.second self.new.lists) }
    {
        if self.pairs.len() > u32::MAX as usize {
            return Err(AllocError);
        }
        let number = self.pairs.len() as u32;
        self.pairs.push(pair)?;
        if pair.first != pair.second {
            self.lists.push(
                pair.first,
                Watch {
                    number,
                    blocker: pair.second,
                },
            )?;
            self.lists.push(
                pair.second,
                Watch {
                    number,
                    blocker: pair.first,
                },
            )?;
        }
        Ok(())
    }

    /// Whether the clause of this number has no two watched literals.
    pub fn is_single(&self, number: usize) -> bool
        requires { number < length self.now.pairs.items }
        ensures { (p : Pair) → slice_get self.now.pairs.items number ≡ Some p → IsTrue result ↔ (p.first ≡ p.second) }
    {
        let pair = self.pairs[number];
        pair.first == pair.second
    }

    /// The watched literal of a clause beside this one.
    fn other(&self, number: usize, literal: Lit) -> Lit
        requires { number < length self.now.pairs.items }
        ensures first { (p : Pair) → slice_get self.now.pairs.items number ≡ Some p → p.first ≡ literal → result ≡ p.second }
        ensures second { (p : Pair) → slice_get self.now.pairs.items number ≡ Some p → p.first ≢ literal → result ≡ p.first }
    {
        let pair = self.pairs[number];
        if pair.first == literal {
            pair.second
        } else {
            pair.first
        }
    }

    /// Watches another literal of a clause in the place of this one, whose watch, the one at `at`, goes.
    fn rewatch(
        &mut self,
        literal: Lit,
        at: usize,
        number: u32,
        pair: Pair,
    ) -> Result<Watch, AllocError>
        requires apart { pair.second ≢ literal }
        requires literal { index_of literal < length self.old.lists }
        requires next { index_of pair.second < length self.old.lists }
        requires at { at < length (watches_of self.old.lists literal) }
        requires number { number < length self.old.pairs.items }
        ensures pairs { OnOk result (self.new.pairs.items ≡ slice_set self.old.pairs.items number pair) }
        ensures lists { IfOk result (λ w. self.new.lists ≡ removed (pushed self.old.lists pair.second (record { number = number; blocker = pair.first })) literal at w) }
    {
        self.lists.push(
            pair.second,
            Watch {
                number,
                blocker: pair.first,
            },
        )?;
        let watch = self.lists.remove(literal, at);
        self.pairs[number as usize] = pair;
        Ok(watch)
    }

    /// Looks at the clause of one of the watches on a literal that the step at a place makes false.
    fn look(
        &mut self,
        trail: &mut Trail,
        clauses: &Clauses,
        literal: Lit,
        place: usize,
        at: usize,
    ) -> Result<Look, AllocError>
        requires held { IsHeld clauses.now trail.old self.old }
        requires falsified { IsFalsifiedAt place trail.old.steps literal }
        requires visited { AreVisited place at clauses.now trail.old.steps self.old.pairs.items (watches_of self.old.lists literal) }
        requires at { at < length (watches_of self.old.lists literal) }
        ensures held { OnOk result (IsHeld clauses.now trail.new self.new) }
        ensures on { OnOk result (GoesOn trail.old trail.new) }
        ensures look { IfOk result (IsLook place at clauses.now trail.new.steps (length (watches_of self.old.lists literal)) self.new.pairs.items (watches_of self.new.lists literal)) }
    {
        let watch = self.lists.at(literal, at);
        if trail.is_true(watch.blocker) {
            return Ok(Look::Kept);
        }
        let number = watch.number as usize;
        let other = self.other(number, literal);
        let start = self.pairs[number].start;
        match read_beside(trail, clauses.at(number), other, start) {
            Reading::True => {
                let blocked = Watch {
                    number: watch.number,
                    blocker: other,
                };
                self.lists.set(literal, at, blocked);
                Ok(Look::Kept)
            }
            Reading::Open(next, place) => {
                let pair = Pair {
                    first: other,
                    second: next,
                    start: place,
                };
                let _ = self.rewatch(literal, at, watch.number, pair)?;
                Ok(Look::Moved)
            }
            Reading::Single => {
                trail.push(other, false, Some(number))?;
                Ok(Look::Kept)
            }
            Reading::False => Ok(Look::Conflict(number)),
        }
    }

    /// Looks at the clauses that are watched for a literal which the step at a place makes false, up to the first whose
    /// literals are all false, and gives its number.
    pub fn visit(
        &mut self,
        trail: &mut Trail,
        clauses: &Clauses,
        literal: Lit,
        place: usize,
    ) -> Result<Option<usize>, AllocError>
        requires held { IsHeld clauses.now trail.old self.old }
        requires falsified { IsFalsifiedAt place trail.old.steps literal }
        requires watched { AreWatched (oldest place trail.old.steps) trail.old.steps clauses.now self.old.pairs.items }
        ensures held { OnOk result (IsHeld clauses.now trail.new self.new) }
        ensures on { OnOk result (GoesOn trail.old trail.new) }
        ensures watched { IfOk result (λ c. IfNone c (AreWatched (oldest (suc place) trail.new.steps) trail.new.steps clauses.now self.new.pairs.items)) }
        ensures conflict { IfOk result (λ c. IfSome c (λ k. IsSomeAnd (slice_get clauses.now k) (AreFalse trail.new.steps))) }
    {
        let mut at = 0;
        while at < self.lists.count(literal) {
            match self.look(trail, clauses, literal, place, at)? {
                Look::Kept => at += 1,
                Look::Moved => {}
                Look::Conflict(number) => return Ok(Some(number)),
            }
        }
        Ok(None)
    }
}

/// Two different literals of the clause, or its only one twice.
fn pair_of(clause: &Clause) -> Pair
    ensures first { result.first ≢ result.second → Contains clause.now result.first }
    ensures second { result.first ≢ result.second → Contains clause.now result.second }
    ensures single { result.first ≡ result.second → (m : Literal) → Contains clause.now m → m ≡ result.first }
{
    match clause.literals() {
        [] => Pair {
            first: Lit::default(),
            second: Lit::default(),
            start: 0,
        },
        [first, ..] => Pair {
            first: *first,
            second: unlike(clause, *first),
            start: 0,
        },
    }
}

/// A literal of the clause that differs from this one; this one where there is none.
fn unlike(clause: &Clause, literal: Lit) -> Lit
    ensures stands { result ≢ literal → Contains clause.now result }
    ensures none { result ≡ literal → (m : Literal) → Contains clause.now m → m ≡ literal }
{
    for other in clause.literals() {
        if *other != literal {
            return *other;
        }
    }
    literal
}
