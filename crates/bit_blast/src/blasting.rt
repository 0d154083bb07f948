//! The clauses of a goal and of all nodes that it rests on.

ghost use Rattle.std.specs.Prelude.{◌≡◌, ℕ, Bool, true, IsTrue, length, IfOk};
ghost use Rattle.sat_form.specs.Satisfaction.{AgreeBelow, AreWithin, Satisfies};
ghost use Rattle.word_dag.specs.Meaning.{width, value};
ghost use Rattle.word_dag.specs.Growth.{Within};
ghost use Rattle.word_dag.specs.Fitting.{is_ordered};
ghost use Rattle.gate_bits.specs.Growth.{known_part};
ghost use Rattle.gate_bits.specs.Truth.{IsTruth};
ghost use Rattle.bit_blast.specs.Numbers.{literals_at, lifted};
ghost use Rattle.bit_blast.specs.Reach.{AreMarks};
ghost use Rattle.bit_blast.specs.Variables.{variable_width, IsBeginning, Spells};
ghost use Rattle.bit_blast.specs.Steps.{AreSteps, IsBlasted};

use crate::encode::node_literals;
use crate::lists::LitLists;
use crate::marks::marks_of;
use crate::variables::{fresh_lists, variable_widths};
use gate_bits::Lits;
use sat_form::{Cnf, Lit};
use std::alloc::{AllocError, Global};
use word_dag::{Dag, Id, Node};

/// The form of a graph's goal, and the literals that stand for the bits of each variable of the
/// graph, by the variable's number, the lowest bit first.
#[derive(Drop)]
pub struct Blasted {
    pub cnf: Cnf,
    pub map: LitLists,
}

// The form before the first node, the literals of the variables, and a literal that is true.
fn begin(alloc: Global, dag: &Dag) -> Result<(Cnf, LitLists, Lit), AllocError>
    ensures begins { IfOk result (λ r. IsBeginning dag.now r.1 r.0) }
    ensures one { IfOk result (λ r. IsTruth (known_part r.0) r.2 (λ _. true)) }
{
    let widths = variable_widths(alloc, dag.nodes())?;
    let mut cnf = Cnf::new(alloc);
    let one = cnf.fresh()?;
    cnf.add(alloc, &[one])?;
    let variables = fresh_lists(alloc, &mut cnf, &widths)?;
    Ok((cnf, variables, one))
}

// The literals of each node that a goal leads to, and no literals for the others.
fn encode(
    alloc: Global,
    cnf: &mut Cnf,
    nodes: &[Node],
    marks: &[bool],
    variables: &LitLists,
    one: Lit,
) -> Result<LitLists, AllocError>
    requires ordered { IsTrue (is_ordered nodes.now) }
    requires marks { (goal : ℕ) × AreMarks nodes.now goal marks.now }
    requires within { AreWithin cnf.old.variables variables.now }
    requires wide { (k : ℕ) → length (literals_at variables.now k) ≡ variable_width nodes.now k }
    requires one { IsTruth (known_part cnf.old) one (λ _. true) }
    ensures { IfOk result (λ literals. AreSteps nodes.now marks.now variables.now cnf.old (length nodes.now) cnf.new literals) }
{
    let mut literals = LitLists::new(alloc);
    for place in 0..nodes.len() {
        if marks[place] {
            let own = node_literals(alloc, cnf, nodes[place], &literals, variables, one)?;
            literals.push(own)?;
        } else {
            literals.push(Lits::new(Vec::new(alloc)))?;
        }
    }
    Ok(literals)
}

/// The form of a goal, a truth value of a graph: clauses of which each valuation that makes the goal
/// true is a model, and of which each model is such a valuation. There are clauses for the nodes that
/// the goal is computed from, and for no other node, and no variable that the valuation leaves free. The only error is that there is no memory or no
/// room for more variables.
pub fn blast(alloc: Global, dag: &Dag, goal: Id) -> Result<Blasted, AllocError>
    requires there { Within dag.now goal }
    requires bit { width dag.now goal ≡ 1 }
    ensures steps { IfOk result (λ b. IsBlasted dag.now goal.index b.map b.cnf) }
    ensures extends { IfOk result (λ b. (v : ℕ → ℕ) → value v dag.now goal ≡ 1 → (x : ℕ → Bool) × Spells dag.now b.map v x × Satisfies x b.cnf.clauses) }
    ensures lifts { IfOk result (λ b. (x : ℕ → Bool) → Satisfies x b.cnf.clauses → value (lifted b.map x) dag.now goal ≡ 1) }
    ensures determined { IfOk result (λ b. (x y : ℕ → Bool) → Satisfies x b.cnf.clauses → Satisfies y b.cnf.clauses → ((k : ℕ) → lifted b.map x k ≡ lifted b.map y k) → AgreeBelow b.cnf.variables x y) }
{
    let marks = marks_of(alloc, dag, goal)?;
    let (mut cnf, map, one) = begin(alloc, dag)?;
    let literals = encode(alloc, &mut cnf, dag.nodes(), &marks, &map, one)?;
    cnf.add(alloc, literals.get(goal.index))?;
    Ok(Blasted { cnf, map })
}
