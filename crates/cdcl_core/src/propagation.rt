//! Unit propagation over watched literals.

ghost use Rattle.std.specs.Prelude.{◌≢◌, ◌<◌, ◌≤◌, IfSome, IfNone, Contains, length};
ghost use Rattle.sat_form.specs.Satisfaction.{IsWithin};
ghost use Rattle.cdcl_core.specs.Watched.{IsNotFalse, AreFalseBeside};
ghost use Rattle.cdcl_core.specs.Readings.{IsReading, AreFalseBetween};

use crate::trail::Trail;
use sat_form::{Clause, Lit};

/// What a clause says beside one of its literals.
#[derive(Drop)]
pub enum Reading {
    /// That literal is true.
    True,
    /// This other literal, at this place, is not false.
    Open(Lit, usize),
    /// That literal has no value, and each other is false.
    Single,
    /// Each literal is false.
    False,
}

/// What the clause says beside this literal. Another one is looked for from the place `start` on, and then before it.
pub fn read_beside(trail: &Trail, clause: &Clause, literal: Lit, start: usize) -> Reading
    requires within { IsWithin trail.now.variables clause.now }
    requires literal { literal.variable < trail.now.variables }
    ensures { IsReading trail.now.steps clause.now literal result }
{
    let value = trail.value_of(literal);
    if value == Some(true) {
        return Reading::True;
    }
    match open_beside(trail, clause.literals(), literal, start) {
        Some((other, place)) => Reading::Open(other, place),
        None if value.is_none() => Reading::Single,
        None => Reading::False,
    }
}

/// A literal of the clause that is not false, beside this one, and its place.
fn open_beside(trail: &Trail, clause: &[Lit], literal: Lit, start: usize) -> Option<(Lit, usize)>
    requires { IsWithin trail.now.variables clause.now }
    ensures stands { IfSome result (λ m. Contains clause.now m.0) }
    ensures other { IfSome result (λ m. m.0 ≢ literal) }
    ensures open_ { IfSome result (λ m. IsNotFalse trail.now.steps m.0) }
    ensures none { IfNone result (AreFalseBeside trail.now.steps clause.now literal) }
{
    let middle = start.min(clause.len());
    let found = open_between(trail, clause, literal, middle, clause.len());
    if found.is_some() {
        return found;
    }
    open_between(trail, clause, literal, 0, middle)
}

/// The first literal of the clause from one place to before another that is not false, beside this one, and its place.
fn open_between(
    trail: &Trail,
    clause: &[Lit],
    literal: Lit,
    from: usize,
    to: usize,
) -> Option<(Lit, usize)>
    requires within { IsWithin trail.now.variables clause.now }
    requires to { to ≤ length clause.now }
    ensures stands { IfSome result (λ m. Contains clause.now m.0) }
    ensures other { IfSome result (λ m. m.0 ≢ literal) }
    ensures open_ { IfSome result (λ m. IsNotFalse trail.now.steps m.0) }
    ensures none { IfNone result (AreFalseBetween trail.now.steps clause.now literal from to) }
{
    for place in from..to {
        let other = clause[place];
        if other != literal && trail.value_of(other) != Some(false) {
            return Some((other, place));
        }
    }
    None
}
