//! The clauses of gates: and, or, exclusive or, choice.

#![tactic(auto, using(crate::proofs::Growing::growth))]

ghost use Rattle.std.specs.Prelude.{◌≡◌, ℕ, ◌+◌, ◌<◌, [], ◌∷◌, ◌++◌, true, false, Bool, ◌&&◌, ◌||◌, IfOk, OnOk, IfSome, IsSome, if◌then◌else◌};
ghost use Rattle.std.specs.List.{list_all, list_any};
ghost use Rattle.sat_form.specs.Satisfaction.{literal_value, IsWithin, AreWithin};
ghost use Rattle.gate_bits.specs.Clauses.{each_clauses, choice_clauses, most_clauses};
ghost use Rattle.gate_bits.specs.Growth.{GrowsFreely, known_part, known_literal};
ghost use Rattle.gate_bits.specs.Truth.{IsTruth, IsFixed, differs, most};

use crate::lits::inverses;
use sat_form::{Cnf, Lit};
use std::alloc::{AllocError, Global};

/// The literal that the form's first clause holds alone, if it does.
pub fn known(cnf: &Cnf) -> Option<Lit>
    ensures is { IfSome result (λ l. IsTruth cnf.now l (λ _. true)) }
    ensures first { IfSome result (λ l. IsTruth (known_part cnf.now) l (λ _. true)) }
    ensures within { AreWithin cnf.now.variables cnf.now.clauses }
    ensures alone { result ≡ known_literal cnf.now.clauses }
{
    match cnf.clauses() {
        [first, ..] => match first.literals() {
            [only] => Some(*only),
            _ => None,
        },
        [] => None,
    }
}

/// The truth that a literal has in each assignment that satisfies the form, where the first clause tells.
pub fn truth_of(cnf: &Cnf, literal: Lit) -> Option<bool>
    ensures { IfSome result (λ truth. IsFixed cnf.now literal truth) }
{
    let one = known(cnf)?;
    if literal == one {
        Some(true)
    } else if literal == one.inverse() {
        Some(false)
    } else {
        None
    }
}

// A gate that is put together before it is added: a form of one variable more than this one and no
// clauses, and that variable as a literal.
fn begun(alloc: Global, cnf: &Cnf) -> Result<(Cnf, Lit), AllocError>
    ensures form { IfOk result (λ r. r.0 ≡ record { variables = cnf.now.variables + 1; clauses = [] }) }
    ensures literal { IfOk result (λ r. r.1 ≡ record { variable = cnf.now.variables; negated = false }) }
{
    let mut gate = Cnf::from_parts(cnf.variables(), Vec::new(alloc));
    let out = gate.fresh()?;
    Ok((gate, out))
}

// Adds clauses of one length. After an error the first of them may have been added.
fn add_all<const N: usize>(
    alloc: Global,
    cnf: &mut Cnf,
    clauses: &[[Lit; N]],
) -> Result<(), AllocError>
    requires { AreWithin cnf.old.variables clauses.now }
    ensures { OnOk result (cnf.new ≡ record cnf.old { clauses = cnf.old.clauses ++ clauses.now }) }
{
    for clause in clauses {
        cnf.add(alloc, clause)?;
    }
    Ok(())
}

// Adds for each literal the clause that it is true where `out` is. After an error the first of them may have
// been added.
fn add_each(alloc: Global, cnf: &mut Cnf, literals: &[Lit], out: Lit) -> Result<(), AllocError>
    requires literals { IsWithin cnf.old.variables literals.now }
    requires out { out.variable < cnf.old.variables }
    ensures { OnOk result (cnf.new ≡ record cnf.old { clauses = cnf.old.clauses ++ each_clauses literals.now out }) }
{
    for literal in literals {
        cnf.add(alloc, &[*literal, out.inverse()])?;
    }
    Ok(())
}

// The clauses by which `out` is `a` and `b`.
fn and_gate(alloc: Global, cnf: &mut Cnf, a: Lit, b: Lit) -> Result<Lit, AllocError>
    requires a { a.variable < cnf.old.variables }
    requires b { b.variable < cnf.old.variables }
    ensures grows { GrowsFreely cnf.old cnf.new }
    ensures is { IfOk result (λ l. IsTruth cnf.new l (λ x. literal_value x a && literal_value x b)) }
{
    let (mut gate, out) = begun(alloc, cnf)?;
    add_all(alloc, &mut gate, &[[a, out.inverse()], [b, out.inverse()]])?;
    add_all(alloc, &mut gate, &[[a.inverse(), b.inverse(), out]])?;
    cnf.append(gate)?;
    Ok(out)
}

// The clauses of a choice.
fn clauses_of_choice(test: Lit, yes: Lit, no: Lit, out: Lit) -> [[Lit; 3]; 4]
    ensures { result ≡ choice_clauses test yes no out }
{
    [
        [test.inverse(), yes.inverse(), out],
        [test.inverse(), yes, out.inverse()],
        [test, no.inverse(), out],
        [test, no, out.inverse()],
    ]
}

// The literal of a new variable that is `yes` where `test` is true, else `no`.
fn choice_gate(
    alloc: Global,
    cnf: &mut Cnf,
    test: Lit,
    yes: Lit,
    no: Lit,
) -> Result<Lit, AllocError>
    requires test { test.variable < cnf.old.variables }
    requires yes { yes.variable < cnf.old.variables }
    requires no { no.variable < cnf.old.variables }
    ensures grows { GrowsFreely cnf.old cnf.new }
    ensures is { IfOk result (λ l. IsTruth cnf.new l (λ x. if literal_value x test then literal_value x yes else literal_value x no)) }
{
    let (mut gate, out) = begun(alloc, cnf)?;
    let clauses = clauses_of_choice(test, yes, no, out);
    add_all(alloc, &mut gate, &clauses)?;
    cnf.append(gate)?;
    Ok(out)
}

// The clauses of a majority.
fn clauses_of_most(a: Lit, b: Lit, c: Lit, out: Lit) -> [[Lit; 3]; 6]
    ensures { result ≡ most_clauses a b c out }
{
    [
        [a.inverse(), b.inverse(), out],
        [a.inverse(), c.inverse(), out],
        [b.inverse(), c.inverse(), out],
        [a, b, out.inverse()],
        [a, c, out.inverse()],
        [b, c, out.inverse()],
    ]
}

// The literal of a new variable that is true where at least two of the three are.
fn most_gate(alloc: Global, cnf: &mut Cnf, a: Lit, b: Lit, c: Lit) -> Result<Lit, AllocError>
    requires a { a.variable < cnf.old.variables }
    requires b { b.variable < cnf.old.variables }
    requires c { c.variable < cnf.old.variables }
    ensures grows { GrowsFreely cnf.old cnf.new }
    ensures is { IfOk result (λ l. IsTruth cnf.new l (λ x. most (literal_value x a) (literal_value x b) (literal_value x c))) }
{
    let (mut gate, out) = begun(alloc, cnf)?;
    let clauses = clauses_of_most(a, b, c, out);
    add_all(alloc, &mut gate, &clauses)?;
    cnf.append(gate)?;
    Ok(out)
}

// The literal of a new variable that is true.
fn true_gate(alloc: Global, cnf: &mut Cnf) -> Result<Lit, AllocError>
    ensures grows { GrowsFreely cnf.old cnf.new }
    ensures is { IfOk result (λ l. IsTruth cnf.new l (λ _. true)) }
{
    let (mut gate, out) = begun(alloc, cnf)?;
    add_all(alloc, &mut gate, &[[out]])?;
    cnf.append(gate)?;
    Ok(out)
}

/// The literal, or its inverse where `by` is true.
pub fn flipped(literal: Lit, by: bool) -> Lit
    ensures variable { result.variable ≡ literal.variable }
    ensures is { (x : ℕ → Bool) → literal_value x result ≡ differs by (literal_value x literal) }
{
    if by { literal.inverse() } else { literal }
}

/// A literal that has this truth. Where the form's first clause holds one literal alone, nothing is added.
pub fn constant(alloc: Global, cnf: &mut Cnf, truth: bool) -> Result<Lit, AllocError>
    ensures grows { GrowsFreely cnf.old cnf.new }
    ensures is { IfOk result (λ l. IsTruth cnf.new l (λ _. truth)) }
    ensures kept { IsSome (known_literal cnf.old.clauses) → cnf.new ≡ cnf.old }
{
    let one = match known(cnf) {
        Some(one) => one,
        None => true_gate(alloc, cnf)?,
    };
    Ok(flipped(one, !truth))
}

/// Whether both are true.
pub fn and(alloc: Global, cnf: &mut Cnf, a: Lit, b: Lit) -> Result<Lit, AllocError>
    requires a { a.variable < cnf.old.variables }
    requires b { b.variable < cnf.old.variables }
    ensures grows { GrowsFreely cnf.old cnf.new }
    ensures is { IfOk result (λ l. IsTruth cnf.new l (λ x. literal_value x a && literal_value x b)) }
{
    match (truth_of(cnf, a), truth_of(cnf, b)) {
        (Some(true), _) | (_, Some(false)) => Ok(b),
        (Some(false), _) | (_, Some(true)) => Ok(a),
        (None, None) if a == b => Ok(a),
        (None, None) => and_gate(alloc, cnf, a, b),
    }
}

/// Whether at least one is true.
pub fn or(alloc: Global, cnf: &mut Cnf, a: Lit, b: Lit) -> Result<Lit, AllocError>
    requires a { a.variable < cnf.old.variables }
    requires b { b.variable < cnf.old.variables }
    ensures grows { GrowsFreely cnf.old cnf.new }
    ensures is { IfOk result (λ l. IsTruth cnf.new l (λ x. literal_value x a || literal_value x b)) }
{
    let none = and(alloc, cnf, a.inverse(), b.inverse())?;
    Ok(none.inverse())
}

/// Whether exactly one is true.
pub fn xor(alloc: Global, cnf: &mut Cnf, a: Lit, b: Lit) -> Result<Lit, AllocError>
    requires a { a.variable < cnf.old.variables }
    requires b { b.variable < cnf.old.variables }
    ensures grows { GrowsFreely cnf.old cnf.new }
    ensures is { IfOk result (λ l. IsTruth cnf.new l (λ x. differs (literal_value x a) (literal_value x b))) }
{
    match (truth_of(cnf, a), truth_of(cnf, b)) {
        (Some(truth), _) => Ok(flipped(b, truth)),
        (None, Some(truth)) => Ok(flipped(a, truth)),
        (None, None) => choice_gate(alloc, cnf, a, b.inverse(), b),
    }
}

/// `yes` where `test` is true, else `no`.
pub fn choose(alloc: Global, cnf: &mut Cnf, test: Lit, yes: Lit, no: Lit) -> Result<Lit, AllocError>
    requires test { test.variable < cnf.old.variables }
    requires yes { yes.variable < cnf.old.variables }
    requires no { no.variable < cnf.old.variables }
    ensures grows { GrowsFreely cnf.old cnf.new }
    ensures is { IfOk result (λ l. IsTruth cnf.new l (λ x. if literal_value x test then literal_value x yes else literal_value x no)) }
{
    match truth_of(cnf, test) {
        Some(true) => Ok(yes),
        Some(false) => Ok(no),
        None if yes == no => Ok(yes),
        None => choose_open(alloc, cnf, test, yes, no),
    }
}

// The same, where the test isn't known.
fn choose_open(
    alloc: Global,
    cnf: &mut Cnf,
    test: Lit,
    yes: Lit,
    no: Lit,
) -> Result<Lit, AllocError>
    requires test { test.variable < cnf.old.variables }
    requires yes { yes.variable < cnf.old.variables }
    requires no { no.variable < cnf.old.variables }
    ensures grows { GrowsFreely cnf.old cnf.new }
    ensures is { IfOk result (λ l. IsTruth cnf.new l (λ x. if literal_value x test then literal_value x yes else literal_value x no)) }
{
    match (truth_of(cnf, yes), truth_of(cnf, no)) {
        (Some(true), _) => or(alloc, cnf, test, no),
        (Some(false), _) => and(alloc, cnf, test.inverse(), no),
        (None, Some(true)) => or(alloc, cnf, test.inverse(), yes),
        (None, Some(false)) => and(alloc, cnf, test, yes),
        (None, None) => choice_gate(alloc, cnf, test, yes, no),
    }
}

// Whether at least two are true, of two literals and a known truth.
fn most_given(alloc: Global, cnf: &mut Cnf, truth: bool, b: Lit, c: Lit) -> Result<Lit, AllocError>
    requires b { b.variable < cnf.old.variables }
    requires c { c.variable < cnf.old.variables }
    ensures grows { GrowsFreely cnf.old cnf.new }
    ensures is { IfOk result (λ l. IsTruth cnf.new l (λ x. most truth (literal_value x b) (literal_value x c))) }
{
    if truth {
        or(alloc, cnf, b, c)
    } else {
        and(alloc, cnf, b, c)
    }
}

/// Whether at least two of the three are true.
pub fn majority(alloc: Global, cnf: &mut Cnf, a: Lit, b: Lit, c: Lit) -> Result<Lit, AllocError>
    requires a { a.variable < cnf.old.variables }
    requires b { b.variable < cnf.old.variables }
    requires c { c.variable < cnf.old.variables }
    ensures grows { GrowsFreely cnf.old cnf.new }
    ensures is { IfOk result (λ l. IsTruth cnf.new l (λ x. most (literal_value x a) (literal_value x b) (literal_value x c))) }
{
    match (truth_of(cnf, a), truth_of(cnf, b), truth_of(cnf, c)) {
        (Some(truth), _, _) => most_given(alloc, cnf, truth, b, c),
        (_, Some(truth), _) => most_given(alloc, cnf, truth, a, c),
        (_, _, Some(truth)) => most_given(alloc, cnf, truth, a, b),
        (None, None, None) => most_gate(alloc, cnf, a, b, c),
    }
}

/// Whether each of the literals is true. A gate of one clause of them all and of one clause of two literals
/// for each: a search goes through it faster than through a chain of gates with two inputs.
pub fn all(alloc: Global, cnf: &mut Cnf, literals: &[Lit]) -> Result<Lit, AllocError>
    requires { IsWithin cnf.old.variables literals.now }
    ensures grows { GrowsFreely cnf.old cnf.new }
    ensures is { IfOk result (λ l. IsTruth cnf.new l (λ x. list_all (literal_value x) literals.now)) }
{
    let (mut gate, out) = begun(alloc, cnf)?;
    let mut long = vec![in alloc; out]?;
    long.extend_from_slice(&inverses(alloc, literals)?)?;
    gate.add(alloc, &long)?;
    add_each(alloc, &mut gate, literals, out)?;
    cnf.append(gate)?;
    Ok(out)
}

/// Whether at least one of the literals is true, by one gate.
pub fn any(alloc: Global, cnf: &mut Cnf, literals: &[Lit]) -> Result<Lit, AllocError>
    requires { IsWithin cnf.old.variables literals.now }
    ensures grows { GrowsFreely cnf.old cnf.new }
    ensures is { IfOk result (λ l. IsTruth cnf.new l (λ x. list_any (literal_value x) literals.now)) }
{
    let inverse = inverses(alloc, literals)?;
    let none = all(alloc, cnf, &inverse)?;
    Ok(none.inverse())
}
