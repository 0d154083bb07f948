//! Which variables of the clauses stand for the bits of a variable.

ghost use Rattle.std.specs.Prelude.{◌≡◌, ◌+◌, ◌<◌, ◌≤◌, ◌==◌, ℕ, max, if◌then◌else◌, slice_index, length, IfOk, OnOk};
ghost use Rattle.sat_form.specs.Satisfaction.{AreWithin};
ghost use Rattle.bit_blast.specs.Numbers.{literals_at};
ghost use Rattle.bit_blast.specs.Variables.{width_read, variable_width, plain, plain_literals, AreConsecutive};

use crate::lists::LitLists;
use gate_bits::Lits;
use sat_form::{Cnf, Lit};
use std::alloc::{AllocError, Global};
use word_dag::Node;

// Has an entry for this variable, of width 0 if there was none.
fn reach(widths: &mut Vec<u32>, variable: u32) -> Result<(), AllocError>
    ensures stays { OnOk result ((k : ℕ) → slice_index widths.new.items k ≡ slice_index widths.old.items k) }
    ensures there { OnOk result (variable < length widths.new.items) }
{
    let needed = variable as usize + 1;
    if widths.len() < needed {
        widths.resize(needed, 0)?;
    }
    Ok(())
}

// Lets a variable have this width, if it had less.
fn widen(widths: &mut Vec<u32>, variable: u32, width: u32) -> Result<(), AllocError>
    ensures { OnOk result ((k : ℕ) → slice_index widths.new.items k ≡ max (if variable == k then width else 0) (slice_index widths.old.items k)) }
{
    reach(widths, variable)?;
    let index = variable as usize;
    if widths[index] < width {
        widths[index] = width;
    }
    Ok(())
}

/// The width of the widest node of each variable, by the variable's number.
pub fn variable_widths(alloc: Global, nodes: &[Node]) -> Result<Vec<u32>, AllocError>
    ensures { IfOk result (λ widths. (k : ℕ) → slice_index widths.items k ≡ variable_width nodes.now k) }
{
    let mut widths = Vec::new(alloc);
    for node in nodes {
        if let Node::Variable(variable, width) = *node {
            widen(&mut widths, variable, width)?;
        }
    }
    Ok(widths)
}

// Literals of as many new variables, in order.
fn fresh_literals(alloc: Global, cnf: &mut Cnf, width: u32) -> Result<Lits, AllocError>
    ensures literals { IfOk result (λ r. r ≡ plain_literals cnf.old.variables width) }
    ensures form { OnOk result (cnf.new ≡ record cnf.old { variables = cnf.old.variables + width }) }
{
    let mut literals = Vec::with_capacity(alloc, width as usize)?;
    for _ in 0..width {
        literals.push(cnf.fresh()?)?;
    }
    Ok(Lits::new(literals))
}

/// Literals of new variables for each width, in order.
pub fn fresh_lists(alloc: Global, cnf: &mut Cnf, widths: &[u32]) -> Result<LitLists, AllocError>
    requires { (k : ℕ) → slice_index widths.now k ≤ 64 }
    ensures consecutive { IfOk result (λ lists. AreConsecutive cnf.old.variables lists cnf.new.variables) }
    ensures wide { IfOk result (λ lists. (k : ℕ) → length (literals_at lists k) ≡ slice_index widths.now k) }
    ensures clauses { OnOk result (cnf.new.clauses ≡ cnf.old.clauses) }
{
    let mut lists = LitLists::new(alloc);
    for width in widths {
        let literals = fresh_literals(alloc, cnf, *width)?;
        lists.push(literals)?;
    }
    Ok(lists)
}
