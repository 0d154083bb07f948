//! Cells of slots: the registers, and then the bytes of the blocks, one block behind the other, each with its node
//! (static single assignment: a cell has one node at each place), and two slots' cells that meet (the phi functions).

ghost use Rattle.std.specs.Prelude.{◌≡◌, ℕ, ◌+◌, ◌^◌, ◌<◌, true, length, slice_index_or, IfOk, if◌then◌else◌};
ghost use Rattle.c_types.specs.Integers.{width as type_width};
ghost use Rattle.word_dag.specs.Growth.{Extends};
ghost use Rattle.word_dag.specs.Meaning.{value, holds};
ghost use Rattle.value_nodes.specs.Values.{IsValue};
ghost use Rattle.cell_trees.specs.Trees.{looked, Keeps};
ghost use Rattle.guarded_ssa.specs.inner.Held.{IsPlan};
ghost use Rattle.guarded_ssa.specs.inner.Conditions.{MeetingOf};
ghost use Rattle.guarded_ssa.specs.inner.Registers.{ZerosIn, TreeIn, Merged, zero_of, word_or_0, id_or, ids_from, is_needed};

use crate::liveness::Plan;
use c_types::IntegerType;
use cell_trees::{Root, Trees};
use std::alloc::{AllocError, Global};
use value_nodes::{chosen, constant};
use word_dag::{Dag, Id};

/// The nodes that are 0, one for each width of a type.
#[derive(Clone, Copy)]
pub struct Zeros {
    pub byte: Id,
    pub short: Id,
    pub int: Id,
    pub long: Id,
}

impl Zeros {
    /// The constant 0 of each type.
    pub fn new(dag: &mut Dag) -> Result<Zeros, AllocError>
        ensures extends { Extends dag.old dag.new }
        ensures zeros { IfOk result (ZerosIn dag.new) }
    {
        let byte = constant(dag, 0, IntegerType::Char)?;
        let short = constant(dag, 0, IntegerType::Short)?;
        let int = constant(dag, 0, IntegerType::Int)?;
        let long = constant(dag, 0, IntegerType::Long)?;
        Ok(Zeros {
            byte,
            short,
            int,
            long,
        })
    }

    /// The node that is 0 for a type.
    pub fn of(self, type_: IntegerType) -> Id
        ensures { result ≡ zero_of self type_ }
    {
        match type_ {
            IntegerType::Bool
            | IntegerType::Char
            | IntegerType::SignedChar
            | IntegerType::UnsignedChar => self.byte,
            IntegerType::Short | IntegerType::UnsignedShort => self.short,
            IntegerType::Int | IntegerType::UnsignedInt => self.int,
            IntegerType::Long
            | IntegerType::UnsignedLong
            | IntegerType::LongLong
            | IntegerType::UnsignedLongLong => self.long,
        }
    }
}

// The node of a cell, that of 0 where it isn't set.
fn node_of(
    dag: &Dag,
    trees: &Trees,
    types: &[IntegerType],
    zeros: Zeros,
    root: Root,
    cell: usize,
) -> Id
    requires zeros { ZerosIn dag.now zeros }
    requires tree { TreeIn dag.now trees.now types.now root }
    requires there { cell < length types.now }
    ensures { IsValue dag.now result (type_width (slice_index_or types.now cell IntegerType.Int)) (λ v. word_or_0 (value v dag.now) (looked trees.now root cell)) }
{
    let _ = dag.nodes();
    match trees.look(root, cell) {
        Some(id) => id,
        None => zeros.of(types[cell]),
    }
}

// A node, or the other one where there is none.
fn node_or(id: Option<Id>, other: Id) -> Id
    ensures { result ≡ id_or other id }
{
    match id {
        Some(id) => id,
        None => other,
    }
}

/// The nodes of so many cells from one on, of which those that aren't set have the other node.
pub fn ids_from(
    alloc: Global,
    trees: &Trees,
    root: Root,
    other: Id,
    at: usize,
    count: usize,
) -> Result<Vec<Id>, AllocError>
    requires { at + count < 2 ^ 64 }
    ensures { IfOk result (λ r. r.items ≡ ids_from (looked trees.now root) other at count) }
{
    let mut ids = Vec::with_capacity(alloc, count)?;
    for k in 0..count {
        let id = node_or(trees.look(root, at + k), other);
        ids.push(id)?;
    }
    Ok(ids)
}

// Whether an instruction from the place on reads the register or block of a cell.
fn is_needed(plan: &Plan, place: usize, cell: usize) -> bool
    requires { IsPlan plan.now }
    ensures { result ≡ is_needed plan.now.until.items plan.now.owner.items place cell }
{
    if cell >= plan.owner.len() {
        return false;
    }
    place < plan.until[plan.owner[cell]]
}

/// Two trees that meet at a place, where the code goes straight on into it or comes by a jump: the first, which holds
/// where the test is true, and the second, which holds elsewhere, with the nodes that are 0.
#[derive(Clone, Copy)]
pub struct Meeting {
    pub place: usize,
    pub straight: bool,
    pub zeros: Zeros,
    pub test: Id,
    pub first: Root,
    pub second: Root,
}

// A tree with a cell set to what it is on the first of two sides where the test is true, else on the second, if an
// instruction from the place on reads it. A cell that nobody reads any more costs no node: it is dropped, or stays.
fn with_choice(
    dag: &mut Dag,
    trees: &mut Trees,
    plan: &Plan,
    meeting: Meeting,
    root: Root,
    cell: usize,
) -> Result<Root, AllocError>
    requires meeting { MeetingOf plan.now dag.old trees.old meeting }
    requires root { TreeIn dag.old trees.old plan.now.types.items root }
    ensures extends { Extends dag.old dag.new }
    ensures keeps { Keeps trees.old trees.new }
    ensures tree { IfOk result (TreeIn dag.new trees.new plan.now.types.items) }
    ensures chosen { IfOk result (λ r. is_needed plan.now.until.items plan.now.owner.items meeting.place cell ≡ true → (v : ℕ → ℕ) → word_or_0 (value v dag.new) (looked trees.new r cell) ≡ (if holds (value v dag.old meeting.test) then word_or_0 (value v dag.old) (looked trees.old meeting.first cell) else word_or_0 (value v dag.old) (looked trees.old meeting.second cell))) }
    ensures others { IfOk result (λ r. (c : ℕ) → (cell ≡ c → ⊥) → looked trees.new r c ≡ looked trees.old root c) }
{
    if !is_needed(plan, meeting.place, cell) {
        let rest = without(dag, trees, plan, meeting.straight, root, cell)?;
        return Ok(rest);
    }
    let one = node_of(dag, trees, &plan.types, meeting.zeros, meeting.first, cell);
    let other = node_of(dag, trees, &plan.types, meeting.zeros, meeting.second, cell);
    let id = chosen(dag, meeting.test, one, other)?;
    let next = trees.put(root, cell, id)?;
    Ok(next)
}

// A tree with a cell dropped, if it is set and is to be dropped.
fn without(
    dag: &Dag,
    trees: &mut Trees,
    plan: &Plan,
    drops: bool,
    root: Root,
    cell: usize,
) -> Result<Root, AllocError>
    requires { TreeIn dag.now trees.old plan.now.types.items root }
    ensures keeps { Keeps trees.old trees.new }
    ensures tree { IfOk result (TreeIn dag.now trees.new plan.now.types.items) }
    ensures others { IfOk result (λ r. (c : ℕ) → (cell ≡ c → ⊥) → looked trees.new r c ≡ looked trees.old root c) }
{
    if drops && cell < plan.types.len() && trees.look(root, cell).is_some() {
        let rest = trees.without(root, cell)?;
        return Ok(rest);
    }
    Ok(root)
}

// The second tree where the code goes straight on, else the first.
fn begun(meeting: Meeting) -> Root
    ensures { result ≡ (if meeting.straight then meeting.second else meeting.first) }
{
    if meeting.straight {
        meeting.second
    } else {
        meeting.first
    }
}

/// The tree of two that meet at a place: each cell that an instruction from there on reads is that of the first
/// where the test is true, else that of the second. What the two share isn't looked at. A cell that differs and
/// that nobody reads any more is as the first has it; where the code goes straight on into the place, it is dropped.
pub fn merged(
    dag: &mut Dag,
    trees: &mut Trees,
    plan: &Plan,
    meeting: Meeting,
) -> Result<Root, AllocError>
    requires { MeetingOf plan.now dag.old trees.old meeting }
    ensures extends { Extends dag.old dag.new }
    ensures keeps { Keeps trees.old trees.new }
    ensures merged { IfOk result (Merged dag.old dag.new trees.old trees.new plan.now.types.items plan.now.until.items plan.now.owner.items meeting.place meeting.test meeting.first meeting.second) }
{
    let _ = dag.nodes();
    let cells = trees.differing(plan.alloc, meeting.first, meeting.second)?;
    let mut root = begun(meeting);
    for k in 0..cells.len() {
        root = with_choice(dag, trees, plan, meeting, root, cells[k])?;
    }
    Ok(root)
}
