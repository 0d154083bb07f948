//! From an assignment of the clauses' variables back to values of the goal's variables.

ghost use Rattle.std.specs.Prelude.{◌≡◌, ℕ, ◌^◌, ◌<◌, ◌≤◌, Bool, List, IfOk, length};
ghost use Rattle.sat_form.specs.Satisfaction.{Satisfies, assignment_of};
ghost use Rattle.sat_form.specs.Numbers.{value_of};
ghost use Rattle.word_dag.specs.declared.nodes.Id.{Id};
ghost use Rattle.word_dag.specs.declared.nodes.Node.{Node};
ghost use Rattle.word_dag.specs.Meaning.{value, valuation_of};
ghost use Rattle.bit_blast.specs.Numbers.{lifted};
ghost use Rattle.bit_blast.specs.Variables.{variable_width};
ghost use Rattle.bit_blast.specs.Steps.{IsBlasted};

use crate::blasting::Blasted;
use sat_form::{Assignment, Lit};
use std::alloc::{AllocError, Global};
use word_dag::Valuation;

// The number that literals give.
fn number(assignment: &Assignment, literals: &[Lit]) -> u64
    requires { length literals.now ≤ 64 }
    ensures { result ≡ value_of literals.now (assignment_of assignment.now) }
{
    let mut number = 0;
    for place in (0..literals.len()).rev() {
        number = 2 * number + assignment.value(literals[place]) as u64;
    }
    number
}

/// The value of each variable of a graph that an assignment to the variables of its goal's form
/// means. Where the assignment satisfies the form, the values make the goal true, and each is below
/// 2 to the width of the variable's widest node; it is 0 for a number that is no variable's.
pub fn lift(
    alloc: Global,
    blasted: &Blasted,
    assignment: &Assignment,
) -> Result<Valuation, AllocError>
    ensures values { IfOk result (λ v. (k : ℕ) → valuation_of v k ≡ lifted blasted.now.map (assignment_of assignment.now) k) }
    ensures true_there { IfOk result (λ v. (nodes : List Node) (goal : Id) → IsBlasted nodes goal.index blasted.now.map blasted.now.cnf → Satisfies (assignment_of assignment.now) blasted.now.cnf.clauses → value (valuation_of v) nodes goal ≡ 1) }
    ensures in_range { IfOk result (λ v. (nodes : List Node) (goal : Id) → IsBlasted nodes goal.index blasted.now.map blasted.now.cnf → (k : ℕ) → valuation_of v k < 2 ^ variable_width nodes k) }
{
    let mut values = Vec::with_capacity(alloc, blasted.map.len())?;
    for index in 0..blasted.map.len() {
        values.push(number(assignment, blasted.map.get(index)))?;
    }
    Ok(Valuation::from_values(values))
}
