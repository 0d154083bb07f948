//! A slot: under which guard a place is reached, and the tree of its cells there.

ghost use Rattle.std.specs.Prelude.{◌≡◌, ◌==◌, ℕ, true, ◌≤◌, not, Some, length, slice_index_or, None, IfOk, IfSome, if◌then◌else◌};
ghost use Rattle.word_dag.specs.Growth.{Extends};
ghost use Rattle.word_dag.specs.Meaning.{value, holds};
ghost use Rattle.value_nodes.specs.Values.{IsWord};
ghost use Rattle.cell_trees.specs.Trees.{span, Keeps};
ghost use Rattle.goto_prog.specs.Fitting.{is_there, operation_fits};
ghost use Rattle.goto_prog.specs.Running.{is_calculation};
ghost use Rattle.c_types.specs.Integers.{width as type_width};
ghost use Rattle.guarded_ssa.specs.inner.Results.{sets_register, into_of};
ghost use Rattle.goto_prog.specs.Meaning.{register, with_register, calculated};
ghost use Rattle.goto_prog.specs.CodeThread.{first_memory};
ghost use Rattle.guarded_ssa.specs.inner.Places.{either as either_arrival, kept, updated};
ghost use Rattle.guarded_ssa.specs.inner.Reads.{Alike};
ghost use Rattle.guarded_ssa.specs.inner.Held.{SlotIn, PendingIn, cells, held, guarded, arrival};
ghost use Rattle.guarded_ssa.specs.inner.Conditions.{SlotOf};

use crate::liveness::Plan;
use crate::registers;
use crate::registers::{Meeting, Zeros};
use c_types::IntegerType;
use cell_trees::{Root, Trees};
use goto_prog::Operation;
use std::alloc::AllocError;
use value_nodes::{both, either, inverse, zero_test};
use word_dag::{Dag, Id, Node};

/// The memory with which a place is reached, where the guard is true: the tree of the cells that are set. A cell that
/// isn't set is 0, or no instruction from the place on reads its register or block.
#[derive(Clone, Copy)]
pub struct Slot {
    pub guard: Id,
    pub zeros: Zeros,
    pub root: Root,
}

impl Slot {
    /// The memory at the start of code, with which it is reached always.
    pub fn start(dag: &mut Dag, trees: &Trees, plan: &Plan) -> Result<Slot, AllocError>
        requires { length (cells plan.now.code.now) ≤ span trees.now.depth }
        ensures extends { Extends dag.old dag.new }
        ensures within { IfOk result (SlotIn dag.new trees.now plan.now.code.now) }
        ensures guarded { IfOk result (λ s. (v : ℕ → ℕ) → guarded v dag.new trees.now plan.now.code.now s ≡ Some (first_memory plan.now.code.now)) }
    {
        let guard = dag.make(Node::Constant(1, 1))?;
        let zeros = Zeros::new(dag)?;
        let root = trees.empty();
        Ok(Slot { guard, zeros, root })
    }

    // The memory where two arrivals meet at a place.
    fn merged(
        dag: &mut Dag,
        trees: &mut Trees,
        plan: &Plan,
        place: usize,
        straight: bool,
        first: Slot,
        second: Slot,
    ) -> Result<Slot, AllocError>
        requires first { SlotOf plan.now dag.old trees.old first }
        requires second { SlotIn dag.old trees.old plan.now.code.now second }
        ensures extends { Extends dag.old dag.new }
        ensures keeps { Keeps trees.old trees.new }
        ensures within { IfOk result (SlotIn dag.new trees.new plan.now.code.now) }
        ensures alike { IfOk result (λ s. (v : ℕ → ℕ) → Alike (length plan.now.code.now.registers) plan.now.until.items place (guarded v dag.new trees.new plan.now.code.now s) (either_arrival (guarded v dag.old trees.old plan.now.code.now first) (guarded v dag.old trees.old plan.now.code.now second))) }
    {
        let guard = either(dag, first.guard, second.guard)?;
        let meeting = Meeting {
            place,
            straight,
            zeros: first.zeros,
            test: first.guard,
            first: first.root,
            second: second.root,
        };
        let root = registers::merged(dag, trees, plan, meeting)?;
        Ok(Slot {
            guard,
            zeros: first.zeros,
            root,
        })
    }

    /// The memory where it meets another arrival at a place, if there is one, as the code from there on reads it. It
    /// comes straight from the place before, or by a jump from farther.
    pub fn met(
        self,
        dag: &mut Dag,
        trees: &mut Trees,
        plan: &Plan,
        place: usize,
        straight: bool,
        there: Option<Slot>,
    ) -> Result<Slot, AllocError>
        requires slot { SlotOf plan.now dag.old trees.old self }
        requires there { PendingIn dag.old trees.old plan.now.code.now there }
        ensures extends { Extends dag.old dag.new }
        ensures keeps { Keeps trees.old trees.new }
        ensures within { IfOk result (SlotIn dag.new trees.new plan.now.code.now) }
        ensures alike { IfOk result (λ s. (v : ℕ → ℕ) → Alike (length plan.now.code.now.registers) plan.now.until.items place (guarded v dag.new trees.new plan.now.code.now s) (either_arrival (guarded v dag.old trees.old plan.now.code.now self) (arrival v dag.old trees.old plan.now.code.now there))) }
    {
        match there {
            Some(other) => {
                let slot = Slot::merged(dag, trees, plan, place, straight, self, other)?;
                Ok(slot)
            }
            None => Ok(self),
        }
    }

    /// Whether the place is never reached with it: its guard is the constant 0.
    pub fn is_never(&self, dag: &Dag, trees: &Trees, plan: &Plan) -> bool
        requires within { SlotIn dag.now trees.now plan.now.code.now self.now }
        ensures { result ≡ true → (v : ℕ → ℕ) → guarded v dag.now trees.now plan.now.code.now self.now ≡ None }
    {
        let _ = dag.nodes();
        match dag.node(self.guard) {
            Node::Constant(bits, _) => bits == 0,
            _ => false,
        }
    }

    // The memory where the test is true too.
    fn narrowed(
        self,
        dag: &mut Dag,
        trees: &Trees,
        plan: &Plan,
        test: Id,
    ) -> Result<Slot, AllocError>
        requires within { SlotIn dag.old trees.now plan.now.code.now self }
        requires test { IsWord dag.old test 1 }
        ensures extends { Extends dag.old dag.new }
        ensures within { IfOk result (SlotIn dag.new trees.now plan.now.code.now) }
        ensures guarded { IfOk result (λ s. (v : ℕ → ℕ) → guarded v dag.new trees.now plan.now.code.now s ≡ (if holds (value v dag.old test) then guarded v dag.old trees.now plan.now.code.now self else None)) }
    {
        let guard = both(dag, self.guard, test)?;
        Ok(Slot {
            guard,
            zeros: self.zeros,
            root: self.root,
        })
    }

    /// Whether a register is 0, where its node is a constant.
    pub fn decided(&self, dag: &Dag, trees: &Trees, plan: &Plan, operand: usize) -> Option<bool>
        requires within { SlotIn dag.now trees.now plan.now.code.now self.now }
        requires operand { is_there plan.now.code.now.registers operand ≡ true }
        ensures { IfSome result (λ zero. (v : ℕ → ℕ) → (register (held v dag.now trees.now plan.now.code.now self.now) operand == 0) ≡ zero) }
    {
        let _ = dag.nodes();
        let id = self.register(dag, trees, plan, operand);
        match dag.node(id) {
            Node::Constant(bits, _) => Some(bits == 0),
            _ => None,
        }
    }

    /// The memory where a register is 0, and where it isn't.
    pub fn split(
        self,
        dag: &mut Dag,
        trees: &Trees,
        plan: &Plan,
        operand: usize,
    ) -> Result<(Slot, Slot), AllocError>
        requires within { SlotIn dag.old trees.now plan.now.code.now self }
        requires operand { is_there plan.now.code.now.registers operand ≡ true }
        ensures extends { Extends dag.old dag.new }
        ensures first_within { IfOk result (λ r. SlotIn dag.new trees.now plan.now.code.now r.0) }
        ensures second_within { IfOk result (λ r. SlotIn dag.new trees.now plan.now.code.now r.1) }
        ensures first { IfOk result (λ r. (v : ℕ → ℕ) → guarded v dag.new trees.now plan.now.code.now r.0 ≡ kept (λ m. register m operand == 0) (guarded v dag.old trees.now plan.now.code.now self)) }
        ensures second { IfOk result (λ r. (v : ℕ → ℕ) → guarded v dag.new trees.now plan.now.code.now r.1 ≡ kept (λ m. not (register m operand == 0)) (guarded v dag.old trees.now plan.now.code.now self)) }
    {
        let node = self.register(dag, trees, plan, operand);
        let zero = zero_test(dag, node)?;
        let other = inverse(dag, zero)?;
        let first = self.narrowed(dag, trees, plan, zero)?;
        let second = self.narrowed(dag, trees, plan, other)?;
        Ok((first, second))
    }

    /// The memory with a register set.
    pub fn put(
        self,
        dag: &Dag,
        trees: &mut Trees,
        plan: &Plan,
        into: usize,
        id: Id,
    ) -> Result<Slot, AllocError>
        requires within { SlotIn dag.now trees.old plan.now.code.now self }
        requires into { is_there plan.now.code.now.registers into ≡ true }
        requires id { IsWord dag.now id (type_width (slice_index_or plan.now.code.now.registers into IntegerType.Int)) }
        ensures keeps { Keeps trees.old trees.new }
        ensures within { IfOk result (SlotIn dag.now trees.new plan.now.code.now) }
        ensures guarded { IfOk result (λ s. (v : ℕ → ℕ) → guarded v dag.now trees.new plan.now.code.now s ≡ updated (λ m. with_register m into (value v dag.now id)) (guarded v dag.now trees.old plan.now.code.now self)) }
    {
        let _ = dag.nodes();
        let root = trees.put(self.root, into, id)?;
        Ok(Slot {
            guard: self.guard,
            zeros: self.zeros,
            root,
        })
    }

    // The memory with a register set to what an operation gives.
    fn assigned(
        self,
        dag: &mut Dag,
        trees: &mut Trees,
        plan: &Plan,
        operation: Operation,
    ) -> Result<Slot, AllocError>
        requires slot { SlotOf plan.now dag.old trees.old self }
        requires fits { operation_fits plan.now.code.now.registers plan.now.code.now.blocks 0 operation ≡ true }
        requires sets { sets_register operation ≡ true }
        ensures extends { Extends dag.old dag.new }
        ensures keeps { Keeps trees.old trees.new }
        ensures within { IfOk result (SlotIn dag.new trees.new plan.now.code.now) }
        ensures guarded { IfOk result (λ s. (v : ℕ → ℕ) → guarded v dag.new trees.new plan.now.code.now s ≡ updated (calculated operation) (guarded v dag.old trees.old plan.now.code.now self)) }
    {
        let id = self.result(dag, trees, plan, operation)?;
        let into = into_of(operation);
        let next = self.put(dag, trees, plan, into, id)?;
        Ok(next)
    }

    /// The memory behind an operation that sets a register or a block.
    pub fn calculated(
        self,
        dag: &mut Dag,
        trees: &mut Trees,
        plan: &Plan,
        operation: Operation,
    ) -> Result<Slot, AllocError>
        requires slot { SlotOf plan.now dag.old trees.old self }
        requires fits { operation_fits plan.now.code.now.registers plan.now.code.now.blocks 0 operation ≡ true }
        requires calculation { is_calculation operation ≡ true }
        ensures extends { Extends dag.old dag.new }
        ensures keeps { Keeps trees.old trees.new }
        ensures within { IfOk result (SlotIn dag.new trees.new plan.now.code.now) }
        ensures guarded { IfOk result (λ s. (v : ℕ → ℕ) → guarded v dag.new trees.new plan.now.code.now s ≡ updated (calculated operation) (guarded v dag.old trees.old plan.now.code.now self)) }
    {
        match operation {
            Operation::Store {
                block,
                offset,
                count,
                operand,
            } => self.stored(dag, trees, plan, block, offset, count, operand),
            Operation::Clear { block, size } => self.cleared(dag, trees, plan, block, size),
            Operation::CopyBytes {
                into,
                at,
                from,
                offset,
                count,
            } => self.with_bytes_copied(dag, trees, plan, (into, at), (from, offset), count),
            Operation::Take {
                block,
                at,
                from,
                offset,
                count,
                whole,
            } => self.with_bytes_taken(dag, trees, plan, (block, at), (from, whole), offset, count),
            Operation::Put {
                block,
                offset,
                from,
                at,
                count,
                whole,
            } => self.with_bytes_put(dag, trees, plan, (block, whole), (from, at), offset, count),
            Operation::Use { .. } | Operation::Same { .. } => Ok(self),
            // Every other calculation sets a register.
            _ => self.assigned(dag, trees, plan, operation),
        }
    }
}

// The register that an operation sets.
fn into_of(operation: Operation) -> usize
    ensures { result ≡ into_of operation }
{
    match operation {
        Operation::Constant { into, .. } => into,
        Operation::Copy { into, .. } => into,
        Operation::Load { into, .. } => into,
        Operation::Convert { into, .. } => into,
        Operation::Sign { into, .. } => into,
        Operation::Arithmetic { into, .. } => into,
        Operation::Compare { into, .. } => into,
        Operation::IsZero { into, .. } => into,
        Operation::Move { into, .. } => into,
        Operation::Offset { into, .. } => into,
        Operation::Distance { into, .. } => into,
        Operation::Relate { into, .. } => into,
        _ => 0,
    }
}
