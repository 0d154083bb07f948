//! Unit propagation over the clauses that are live.

ghost use Rattle.std.specs.Prelude.{◌≡◌, ◌≢◌, ◌∷◌, [], ◌↔◌, false, List, Contains, IsTrue, IsSomeAnd};
ghost use Rattle.std.specs.Bool.{OnTrue, OnFalse};
ghost use Rattle.sat_form.specs.Satisfaction.{Literal, inverse_of, IsWithin};
ghost use Rattle.sat_form.specs.Propagation.{HasFalsified, Follows};
ghost use Rattle.refutation_check.specs.Sets.{holds, Grows};
ghost use Rattle.refutation_check.specs.Outcomes.{IsStatus, IsAtRest, IsOutcome, IsNegation};
ghost use Rattle.refutation_check.specs.Moments.{IsMoment, IsMomentWithin, entries_before, database_at, IsVisit};

use crate::literals::LiteralSet;
use crate::moments::Moment;
use sat_form::{Clause, Lit};

/// What a clause says where the literals of a set are true.
#[derive(Clone, Copy)]
pub enum Status {
    /// At least two of its literals are left.
    Open,
    /// This literal is left alone.
    Last(Lit),
    /// Each literal is false.
    Falsified,
}

/// What a pass over clauses has come to.
#[derive(Clone, Copy)]
pub enum Outcome {
    /// Nothing was put into the set.
    Still,
    /// A literal was put into the set.
    Grown,
    /// A clause is falsified.
    Conflict,
}

/// Whether there is a last literal, and it isn't this one.
fn is_other(last: Option<Lit>, literal: Lit) -> bool
    ensures { IsTrue result ↔ IsSomeAnd last (λ l. l ≢ literal) }
{
    match last {
        Some(other) => other != literal,
        None => false,
    }
}

/// What the clause says where the literals of the set are true.
pub fn status_of(set: &LiteralSet, clause: &Clause) -> Status
    requires { IsWithin set.now.variables clause.now }
    ensures { IsStatus (holds set.now) clause.now result }
{
    let mut last = None;
    for literal in clause.literals() {
        if !set.contains(literal.inverse()) {
            if is_other(last, *literal) {
                return Status::Open;
            }
            last = Some(*literal);
        }
    }
    match last {
        Some(literal) => Status::Last(literal),
        None => Status::Falsified,
    }
}

/// Puts the literal that the clause gives into the set, if it gives one.
pub fn visit(set: &mut LiteralSet, clause: &Clause) -> Outcome
    requires { IsWithin set.old.variables clause.now }
    ensures grows { Grows (clause.now ∷ []) set.old set.new }
    ensures outcome { IsOutcome (clause.now ∷ []) set.old set.new result }
{
    match status_of(set, clause) {
        Status::Open => Outcome::Still,
        Status::Falsified => Outcome::Conflict,
        Status::Last(literal) => {
            if set.contains(literal) {
                return Outcome::Still;
            }
            set.insert(literal);
            Outcome::Grown
        }
    }
}

/// Puts the literal that the clause of this number gives into the set, if that clause is live and
/// gives one.
fn visit_number(set: &mut LiteralSet, moment: &Moment, number: usize) -> Outcome
    requires moment { IsMoment moment.now }
    requires within { IsMomentWithin set.old.variables moment.now }
    ensures grows { Grows (database_at moment.now) set.old set.new }
    ensures outcome { IsVisit moment.now.clauses.now (entries_before moment.now) set.old set.new number result }
{
    match moment.clause(number) {
        Some(clause) => visit(set, clause),
        None => Outcome::Still,
    }
}

/// Puts the inverses of the clause's literals into the empty set. Gives whether a literal stands in
/// the clause with its inverse.
pub fn assume_false(set: &mut LiteralSet, clause: &Clause) -> bool
    requires empty { (l : Literal) → holds set.old l ≡ false }
    requires within { IsWithin set.old.variables clause.now }
    ensures variables { set.new.variables ≡ set.old.variables }
    ensures both { OnTrue result ((l : Literal) × Contains clause.now l × Contains clause.now (inverse_of l)) }
    ensures negation { OnFalse result (IsNegation clause.now (holds set.new)) }
{
    for literal in clause.literals() {
        if set.contains(*literal) {
            return true;
        }
        set.insert(literal.inverse());
    }
    false
}

/// Visits the clauses that the hints name, in order, up to one that is falsified. Gives whether there
/// is one.
pub fn follow(set: &mut LiteralSet, moment: &Moment, hints: &[usize]) -> bool
    requires moment { IsMoment moment.now }
    requires within { IsMomentWithin set.old.variables moment.now }
    ensures grows { Grows (database_at moment.now) set.old set.new }
    ensures falsified { OnTrue result (HasFalsified (database_at moment.now) (holds set.new)) }
{
    for number in hints {
        if let Outcome::Conflict = visit_number(set, moment, *number) {
            return true;
        }
    }
    false
}

/// Visits each clause of the database, up to one that is falsified.
pub fn pass(set: &mut LiteralSet, moment: &Moment) -> Outcome
    requires moment { IsMoment moment.now }
    requires within { IsMomentWithin set.old.variables moment.now }
    ensures grows { Grows (database_at moment.now) set.old set.new }
    ensures outcome { IsOutcome (database_at moment.now) set.old set.new result }
{
    let mut outcome = Outcome::Still;
    for number in 0..moment.count() {
        match visit_number(set, moment, number) {
            Outcome::Still => {}
            Outcome::Grown => outcome = Outcome::Grown,
            Outcome::Conflict => return Outcome::Conflict,
        }
    }
    outcome
}

/// Passes over the database until nothing more is put into the set, or a clause is falsified. Gives
/// whether one is.
pub fn propagate(set: &mut LiteralSet, moment: &Moment) -> bool
    requires moment { IsMoment moment.now }
    requires within { IsMomentWithin set.old.variables moment.now }
    ensures grows { Grows (database_at moment.now) set.old set.new }
    ensures falsified { OnTrue result (HasFalsified (database_at moment.now) (holds set.new)) }
    ensures at_rest { OnFalse result ((c : List Literal) → Contains (database_at moment.now) c → IsAtRest (holds set.new) c) }
{
    loop {
        match pass(set, moment) {
            Outcome::Still => return false,
            Outcome::Grown => {}
            Outcome::Conflict => return true,
        }
    }
}

/// Whether the clause follows from the database by reverse unit propagation. The hints are tried
/// first.
pub fn follows(set: &mut LiteralSet, moment: &Moment, clause: &Clause, hints: &[usize]) -> bool
    requires moment { IsMoment moment.now }
    requires within { IsMomentWithin set.old.variables moment.now }
    requires clause { IsWithin set.old.variables clause.now }
    ensures variables { set.new.variables ≡ set.old.variables }
    ensures answer { IsTrue result ↔ Follows (database_at moment.now) clause.now }
{
    set.clear();
    if assume_false(set, clause) {
        return true;
    }
    if follow(set, moment, hints) {
        return true;
    }
    propagate(set, moment)
}
