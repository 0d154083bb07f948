//! The clauses of one node.

#![tactic(auto, using(gate_arith::proofs::Steps::steps))]

ghost use Rattle.std.specs.Prelude.{◌≡◌, ℕ, ◌+◌, ◌^◌, ◌<◌, ◌≤◌, true, Bool, IsTrue, IfOk, length, map};
ghost use Rattle.std.specs.List.{AllByRecursion};
ghost use Rattle.sat_form.specs.Satisfaction.{literal_value, IsWithin, AreWithin};
ghost use Rattle.sat_form.specs.Numbers.{value_of};
ghost use Rattle.word_dag.specs.Meaning.{at, bit_value, places, at_places, node_width, node_value};
ghost use Rattle.word_dag.specs.Fitting.{fits};
ghost use Rattle.gate_bits.specs.Growth.{known_part};
ghost use Rattle.gate_arith.specs.Growth.{Grows, added_to};
ghost use Rattle.gate_bits.specs.Truth.{IsTruth, IsNumber};
ghost use Rattle.bit_blast.specs.Numbers.{literals_at, numbers_of, counts_of, lifted};
ghost use Rattle.bit_blast.specs.Reach.{operands};
ghost use Rattle.bit_blast.specs.Variables.{width_read};

use crate::bits::{constant, cut, join, sign_extended, zero_extended};
use crate::lists::LitLists;
use crate::operations::{binary, choose, compare, quantify, result_fits, shift};
use gate_arith::negation;
use gate_bits::Lits;
use gate_bits::bits::complement;
use sat_form::{Cnf, Lit};
use std::alloc::{AllocError, Global};
use word_dag::{Id, Node};

// The literals of an operand, of which there are some.
fn read<'a>(lists: &'a LitLists, cnf: &Cnf, id: Id) -> &'a [Lit]
    requires positive { 1 ≤ length (literals_at lists.now id.index) }
    requires within { AreWithin cnf.now.variables lists.now }
    ensures positive { 1 ≤ length result.now }
    ensures short { length result.now ≤ 64 }
    ensures within { IsWithin cnf.now.variables result.now }
    ensures count { length result.now ≡ at (counts_of lists.now) id }
    ensures number { (x : ℕ → Bool) → value_of result.now x ≡ at (numbers_of lists.now x) id }
{
    lists.get(id.index)
}

// The literals of so many operands of one bit each, from a place on.
#[tactic(auto, using(gate_arith::proofs::Steps::steps, crate::proofs::Gathering::list_there))]
fn bits_from(
    alloc: Global,
    lists: &LitLists,
    first: usize,
    count: usize,
) -> Result<Vec<Lit>, AllocError>
    requires { AllByRecursion (λ j. length (literals_at lists.now j) ≡ 1) (places first count) }
    ensures within { IfOk result (λ r. (n : ℕ) → AreWithin n lists.now → IsWithin n r.items) }
    ensures values { IfOk result (λ r. (x : ℕ → Bool) → map (λ l. bit_value (literal_value x l)) r.items ≡ at_places (numbers_of lists.now x) (places first count)) }
{
    let _ = lists.len();
    let mut literals = Vec::with_capacity(alloc, count)?;
    for at in 0..count {
        literals.push(lists.get(first + at)[0])?;
    }
    Ok(literals)
}

/// The literals of a node over those of the nodes before it and of the variables of the graph.
pub fn node_literals(
    alloc: Global,
    cnf: &mut Cnf,
    node: Node,
    before: &LitLists,
    variables: &LitLists,
    one: Lit,
) -> Result<Lits, AllocError>
    requires fits { IsTrue (fits (counts_of before.now) node) }
    requires positive { AllByRecursion (λ j. 1 ≤ length (literals_at before.now j)) (operands node) }
    requires wide { (k : ℕ) → width_read node k ≤ length (literals_at variables.now k) }
    requires before { AreWithin cnf.old.variables before.now }
    requires variables { AreWithin cnf.old.variables variables.now }
    requires one { IsTruth (known_part cnf.old) one (λ _. true) }
    ensures grows { Grows cnf.old cnf.new }
    ensures is { IfOk result (λ r. IsNumber (added_to cnf.old cnf.new) (node_width (counts_of before.now) node) r (λ x. node_value (lifted variables.now x) (counts_of before.now) (numbers_of before.now x) node)) }
{
    match node {
        Node::Constant(bits, width) => constant(alloc, cnf, bits, width, one),
        Node::Variable(variable, width) => {
            Ok(cut(alloc, variables.get(variable as usize), 0, width)?)
        }
        Node::Not(a) => Ok(complement(alloc, read(before, cnf, a))?),
        Node::Negate(a) => negation(alloc, cnf, read(before, cnf, a)),
        Node::Binary(operator, a, b) => {
            binary(
                alloc,
                cnf,
                operator,
                read(before, cnf, a),
                read(before, cnf, b),
            )
        }
        Node::Shift(kind, a, count) => {
            shift(
                alloc,
                cnf,
                kind,
                read(before, cnf, a),
                read(before, cnf, count),
            )
        }
        Node::Compare(comparison, a, b) => {
            compare(
                alloc,
                cnf,
                comparison,
                read(before, cnf, a),
                read(before, cnf, b),
            )
        }
        Node::Fits(test, a, b) => {
            result_fits(alloc, cnf, test, read(before, cnf, a), read(before, cnf, b))
        }
        Node::Choice(condition, a, b) => {
            let test = read(before, cnf, condition);
            choose(alloc, cnf, test, read(before, cnf, a), read(before, cnf, b))
        }
        Node::ZeroExtend(a, width) => {
            zero_extended(alloc, cnf, read(before, cnf, a), width, one)
        }
        Node::SignExtend(a, width) => Ok(sign_extended(alloc, read(before, cnf, a), width)?),
        Node::Cut(a, low, width) => Ok(cut(alloc, read(before, cnf, a), low, width)?),
        Node::Join(high, low) => Ok(join(alloc, read(before, cnf, high), read(before, cnf, low))?),
        Node::Quantify(quantifier, first, count) => {
            let literals = bits_from(alloc, before, first.index, count)?;
            quantify(alloc, cnf, quantifier, &literals)
        }
    }
}
