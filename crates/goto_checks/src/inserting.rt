//! Checks put before what may break, and jumps led past them.

ghost use Rattle.std.specs.Prelude.{◌≡◌, ◌+◌, true, List, ℕ, length, reverse, IfOk, OnOk, map};
ghost use Rattle.core_tree.specs.Ranges.{Limits};
ghost use Rattle.goto_prog.specs.Nodes.{Nodes, plain, with_node, nodes_of, view_procedure, view_procedures, routine_fits, routines_fit};
ghost use Rattle.goto_prog.specs.GotoThreads.{plain_thread, strict_thread};
ghost use Rattle.goto_prog.specs.Allocations.{allocations};
ghost use Rattle.goto_prog.specs.Static.{are_static};
ghost use Rattle.goto_prog.specs.Same.{DoSame};
ghost use Rattle.goto_checks.specs.Inserted.{check_at, with_checks, count_of, with_count, jumping, checks_of, widths, sums, inserted, with_inserted};

use crate::checks::{Checks, checks_of};
use crate::totals::Totals;
use core_tree::Name;
use goto_prog::{Condition, Goto, Instruction, Node, Operation, Procedure};
use std::alloc::{AllocError, Global};

// A check at the line and in the function of an instruction.
fn check_at(i: Instruction, condition: Condition) -> Instruction
    ensures { result ≡ check_at i condition }
{
    Instruction {
        line: i.line,
        function: i.function,
        operation: Operation::Check { condition },
    }
}

// How many places a jump passes over.
fn count_of(operation: Operation) -> usize
    ensures { result ≡ count_of operation }
{
    match operation {
        Operation::Skip { count } => count,
        Operation::SkipIfZero { count, .. } => count,
        _ => 0,
    }
}

// A jump over other code.
fn with_count(operation: Operation, count: usize) -> Operation
    ensures { result ≡ with_count operation count }
{
    match operation {
        Operation::Skip { .. } => Operation::Skip { count },
        Operation::SkipIfZero { operand, .. } => Operation::SkipIfZero { operand, count },
        other => other,
    }
}

// An instruction with its jump over the checked code behind it.
fn jumping(i: Instruction, totals: &Totals) -> Instruction
    ensures { (ws : List ℕ) → totals.now ≡ sums ws → result ≡ jumping i ws }
{
    let count = totals.extent(count_of(i.operation));
    Instruction {
        line: i.line,
        function: i.function,
        operation: with_count(i.operation, count),
    }
}

// Puts an instruction before the nodes that are made, the last of which comes first.
#[tactic(auto, using(crate::proofs::Making::pushed))]
fn push(made: &mut Vec<Node>, instruction: Instruction) -> Result<(), AllocError>
    ensures { OnOk result (nodes_of (reverse made.new.items) ≡ plain instruction (nodes_of (reverse made.old.items))) }
{
    made.push(Node::Plain { instruction })?;
    Ok(())
}

// Puts the checks of an instruction before the nodes that are made, and says how many they are.
fn push_checks(made: &mut Vec<Node>, i: Instruction, checks: Checks) -> Result<usize, AllocError>
    ensures nodes { OnOk result (nodes_of (reverse made.new.items) ≡ with_checks i checks (nodes_of (reverse made.old.items))) }
    ensures count { IfOk result (λ n. n ≡ length checks) }
{
    let mut count = 0;
    if let Some(condition) = checks.second {
        push(made, check_at(i, condition))?;
        count += 1;
    }
    if let Some(condition) = checks.first {
        push(made, check_at(i, condition))?;
        count += 1;
    }
    Ok(count)
}

// Puts an instruction with its checks before the nodes that are made.
fn insert_plain(i: Instruction, made: &mut Vec<Node>, totals: &mut Totals) -> Result<(), AllocError>
    ensures made { OnOk result ((rest : Nodes) (ws : List ℕ) → totals.old ≡ sums (widths rest ws) → nodes_of (reverse made.old.items) ≡ inserted rest ws → nodes_of (reverse made.new.items) ≡ inserted (plain i rest) ws) }
    ensures totals { OnOk result ((rest : Nodes) (ws : List ℕ) → totals.old ≡ sums (widths rest ws) → totals.new ≡ sums (widths (plain i rest) ws)) }
{
    push(made, jumping(i, totals))?;
    let count = push_checks(made, i, checks_of(i.operation))?;
    totals.push(count + 1)?;
    Ok(())
}

// Puts a node with its checks before the nodes that are made.
#[cycle(inserting)]
fn insert_node(
    alloc: Global,
    node: &Node,
    made: &mut Vec<Node>,
    totals: &mut Totals,
) -> Result<(), AllocError>
    ensures made { OnOk result ((rest : Nodes) (ws : List ℕ) → totals.old ≡ sums (widths rest ws) → nodes_of (reverse made.old.items) ≡ inserted rest ws → nodes_of (reverse made.new.items) ≡ inserted (with_node node.now rest) ws) }
    ensures totals { OnOk result ((rest : Nodes) (ws : List ℕ) → totals.old ≡ sums (widths rest ws) → totals.new ≡ sums (widths (with_node node.now rest) ws)) }
{
    match node {
        Node::Plain { instruction } => insert_plain(*instruction, made, totals),
        Node::Loop {
            line,
            function,
            number,
            rotated,
            nodes,
        } => {
            totals.push(1)?;
            let inner = insert_nodes(alloc, nodes, totals)?;
            made.push(Node::Loop {
                line: *line,
                function: *function,
                number: *number,
                rotated: *rotated,
                nodes: inner,
            })?;
            Ok(())
        }
    }
}

// Nodes with their checks.
#[cycle(inserting)]
fn insert_nodes(alloc: Global, nodes: &[Node], totals: &mut Totals) -> Result<Vec<Node>, AllocError>
    ensures made { IfOk result (λ v. (ws : List ℕ) → totals.old ≡ sums ws → nodes_of v.items ≡ inserted (nodes_of nodes.now) ws) }
    ensures same { OnOk result ((ws : List ℕ) → totals.old ≡ sums ws → totals.new ≡ totals.old) }
{
    let mut made = Vec::new(alloc);
    for place in (0..nodes.len()).rev() {
        insert_node(alloc, &nodes[place], &mut made, totals)?;
    }
    totals.leave(nodes.len());
    made.reverse();
    Ok(made)
}

// The code of a function with its checks.
fn checked(alloc: Global, procedure: &Procedure) -> Result<Procedure, AllocError>
    ensures { IfOk result (λ p. view_procedure p ≡ with_inserted (view_procedure procedure.now)) }
{
    let mut totals = Totals::new(alloc)?;
    let nodes = insert_nodes(alloc, &procedure.nodes, &mut totals)?;
    Ok(Procedure {
        name: Name {
            bytes: procedure.name.bytes.as_slice().to_vec(alloc)?,
        },
        line: procedure.line,
        registers: procedure.registers.as_slice().to_vec(alloc)?,
        blocks: procedure.blocks.as_slice().to_vec(alloc)?,
        nodes,
        startable: procedure.startable,
    })
}

// The code of each function with its checks.
fn all_checked(alloc: Global, procedures: &[Procedure]) -> Result<Vec<Procedure>, AllocError>
    ensures { IfOk result (λ v. view_procedures v.items ≡ map with_inserted (view_procedures procedures.now)) }
{
    let mut made = Vec::with_capacity(alloc, procedures.len())?;
    for procedure in procedures {
        made.push(checked(alloc, procedure)?)?;
    }
    Ok(made)
}

/// Puts an explicit check before each operation that may be undefined (C11 6.5p5, 6.5.5p5, 6.5.7p3,
/// 6.9.1p12), at the operation's line and in its function, of the class that strict code breaks there by
/// itself: a divisor of 0 before a quotient that is out of range. Checks that are there already stay. Plain
/// code then does what the strict code did, under all bounds. It makes as many objects, and has no operations on
/// pointers where the strict code has none. Takes time linear in the code.
#[tactic(auto, using(crate::proofs::Fitted::all_fit))]
pub fn insert(alloc: Global, goto: Goto) -> Result<Goto, AllocError>
    ensures same { IfOk result (λ g. (limits : Limits) → DoSame (plain_thread g limits) (strict_thread goto limits)) }
    ensures code { IfOk result (λ g. view_procedures g.functions ≡ map with_inserted (view_procedures goto.functions)) }
    ensures main { IfOk result (λ g. g.main ≡ goto.main) }
    ensures store { IfOk result (λ g. g.store ≡ goto.store) }
    ensures plain { IfOk result (λ g. are_static (view_procedures goto.functions) ≡ true → are_static (view_procedures g.functions) ≡ true) }
    ensures allocations { IfOk result (λ g. (limits : Limits) → allocations g limits ≡ allocations goto limits) }
{
    let (procedures, main, store) = goto.into_parts();
    Ok(Goto::new(all_checked(alloc, &procedures)?, main, store))
}
