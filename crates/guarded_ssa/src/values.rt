//! The nodes of what operations calculate.

ghost use Rattle.std.specs.Prelude.{◌≡◌, ℕ, true, not, ◌+◌, slice_index_or, is_some, IfOk};
ghost use Rattle.c_types.specs.Integers.{width as type_width};
ghost use Rattle.core_tree.specs.Operations.{converted, sign_value, arithmetic_value};
ghost use Rattle.c_values.specs.Numbers.{are_operands_of};
ghost use Rattle.word_dag.specs.Growth.{Within, Extends};
ghost use Rattle.word_dag.specs.Meaning.{value};
ghost use Rattle.value_nodes.specs.Values.{IsWord, IsValue, IsTest};
ghost use Rattle.goto_prog.specs.Fitting.{is_there, is_register, is_pointer, is_wide, check_fits, operation_fits};
ghost use Rattle.goto_prog.specs.Meaning.{register, offset_moved, check_class};
ghost use Rattle.c_values.specs.Pointers.{in_range, pointer_at};
ghost use Rattle.guarded_ssa.specs.inner.Held.{SlotIn, held};
ghost use Rattle.guarded_ssa.specs.inner.Conditions.{SlotOf};
ghost use Rattle.guarded_ssa.specs.inner.Results.{sets_register, into_of, result_of, class_of};

use crate::liveness::Plan;
use crate::slots::Slot;
use c_types::IntegerType;
use cell_trees::Trees;
use core_tree::{ArithmeticOperator, SignOperator};
use goto_prog::{Condition, Operation};
use std::alloc::AllocError;
use value_nodes::{
    arithmetic, compared, constant, converted, count_fails, displaced, elements_between, is_zero,
    leaves_range, left_shift_fails, lies_outside, moved, negation_fails, objects_differ,
    offsets_compared, product_exceeds, quotient_fails, range_fails, sign, zero_test,
};
use word_dag::{Dag, Id};
use words::Class;

impl Slot {
    /// The node of a register.
    pub fn register(&self, dag: &Dag, trees: &Trees, plan: &Plan, r: usize) -> Id
        requires within { SlotIn dag.now trees.now plan.now.code.now self.now }
        requires there { is_there plan.now.code.now.registers r ≡ true }
        ensures word { IsWord dag.now result (type_width (slice_index_or plan.now.code.now.registers r IntegerType.Int)) }
        ensures value { (v : ℕ → ℕ) → value v dag.now result ≡ register (held v dag.now trees.now plan.now.code.now self.now) r }
    {
        let _ = dag.nodes();
        match trees.look(self.root, r) {
            Some(id) => id,
            None => self.zeros.of(plan.code.registers()[r]),
        }
    }

    /// The node of a register of a type.
    pub fn number(&self, dag: &Dag, trees: &Trees, plan: &Plan, r: usize, type_: IntegerType) -> Id
        requires within { SlotIn dag.now trees.now plan.now.code.now self.now }
        requires there { is_register plan.now.code.now.registers r type_ ≡ true }
        ensures word { IsWord dag.now result (type_width type_) }
        ensures value { (v : ℕ → ℕ) → value v dag.now result ≡ register (held v dag.now trees.now plan.now.code.now self.now) r }
    {
        self.register(dag, trees, plan, r)
    }

    /// The node of a register as wide as a type.
    pub fn wide(&self, dag: &Dag, trees: &Trees, plan: &Plan, r: usize, type_: IntegerType) -> Id
        requires within { SlotIn dag.now trees.now plan.now.code.now self.now }
        requires there { is_wide plan.now.code.now.registers r type_ ≡ true }
        ensures word { IsWord dag.now result (type_width type_) }
        ensures value { (v : ℕ → ℕ) → value v dag.now result ≡ register (held v dag.now trees.now plan.now.code.now self.now) r }
    {
        self.register(dag, trees, plan, r)
    }

    /// The node of a register for pointers and sizes.
    pub fn pointer(&self, dag: &Dag, trees: &Trees, plan: &Plan, r: usize) -> Id
        requires within { SlotIn dag.now trees.now plan.now.code.now self.now }
        requires there { is_pointer plan.now.code.now.registers r ≡ true }
        ensures word { IsWord dag.now result 64 }
        ensures value { (v : ℕ → ℕ) → value v dag.now result ≡ register (held v dag.now trees.now plan.now.code.now self.now) r }
    {
        self.number(dag, trees, plan, r, IntegerType::UnsignedLong)
    }

    // What a conversion gives.
    fn convert(
        &self,
        dag: &mut Dag,
        trees: &Trees,
        plan: &Plan,
        into: usize,
        from: IntegerType,
        to: IntegerType,
        operand: usize,
    ) -> Result<Id, AllocError>
        requires within { SlotIn dag.old trees.now plan.now.code.now self.now }
        requires into { is_register plan.now.code.now.registers into to ≡ true }
        requires operand { is_register plan.now.code.now.registers operand from ≡ true }
        ensures extends { Extends dag.old dag.new }
        ensures made { IfOk result (λ i. IsValue dag.new i (type_width (slice_index_or plan.now.code.now.registers into IntegerType.Int)) (λ v. converted from to (register (held v dag.old trees.now plan.now.code.now self.now) operand))) }
    {
        let _ = into;
        let a = self.number(dag, trees, plan, operand, from);
        let id = converted(dag, from, to, a)?;
        Ok(id)
    }

    // What a sign operator gives.
    fn sign(
        &self,
        dag: &mut Dag,
        trees: &Trees,
        plan: &Plan,
        into: usize,
        operator: SignOperator,
        type_: IntegerType,
        operand: usize,
    ) -> Result<Id, AllocError>
        requires within { SlotIn dag.old trees.now plan.now.code.now self.now }
        requires into { is_register plan.now.code.now.registers into type_ ≡ true }
        requires operand { is_register plan.now.code.now.registers operand type_ ≡ true }
        ensures extends { Extends dag.old dag.new }
        ensures made { IfOk result (λ i. IsValue dag.new i (type_width (slice_index_or plan.now.code.now.registers into IntegerType.Int)) (λ v. sign_value operator type_ (register (held v dag.old trees.now plan.now.code.now self.now) operand))) }
    {
        let _ = into;
        let a = self.number(dag, trees, plan, operand, type_);
        let id = sign(dag, operator, type_, a)?;
        Ok(id)
    }

    // What an operation on two registers gives.
    fn arithmetic(
        &self,
        dag: &mut Dag,
        trees: &Trees,
        plan: &Plan,
        into: usize,
        operator: ArithmeticOperator,
        types: (IntegerType, IntegerType),
        operands: (usize, usize),
    ) -> Result<Id, AllocError>
        requires within { SlotIn dag.old trees.now plan.now.code.now self.now }
        requires operands { are_operands_of operator types.0 types.1 ≡ true }
        requires into { is_register plan.now.code.now.registers into types.0 ≡ true }
        requires left { is_register plan.now.code.now.registers operands.0 types.0 ≡ true }
        requires right { is_register plan.now.code.now.registers operands.1 types.1 ≡ true }
        ensures extends { Extends dag.old dag.new }
        ensures made { IfOk result (λ i. IsValue dag.new i (type_width (slice_index_or plan.now.code.now.registers into IntegerType.Int)) (λ v. arithmetic_value operator types.0 (register (held v dag.old trees.now plan.now.code.now self.now) operands.0) (register (held v dag.old trees.now plan.now.code.now self.now) operands.1))) }
    {
        let _ = into;
        let a = self.number(dag, trees, plan, operands.0, types.0);
        let b = self.number(dag, trees, plan, operands.1, types.1);
        let id = arithmetic(dag, operator, types.0, types.1, a, b)?;
        Ok(id)
    }

    // A pointer so many steps of an index further on.
    fn pointer_moved(
        &self,
        dag: &mut Dag,
        trees: &Trees,
        plan: &Plan,
        pointer: usize,
        index: (IntegerType, usize),
        step: i64,
    ) -> Result<Id, AllocError>
        requires within { SlotIn dag.old trees.now plan.now.code.now self.now }
        requires pointer { is_pointer plan.now.code.now.registers pointer ≡ true }
        requires index { is_register plan.now.code.now.registers index.1 index.0 ≡ true }
        ensures extends { Extends dag.old dag.new }
        ensures made { IfOk result (λ i. IsValue dag.new i 64 (λ v. pointer_at (register (held v dag.old trees.now plan.now.code.now self.now) pointer) (offset_moved (held v dag.old trees.now plan.now.code.now self.now) pointer index.1 index.0 step))) }
    {
        let p = self.pointer(dag, trees, plan, pointer);
        let i = self.number(dag, trees, plan, index.1, index.0);
        let id = moved(dag, p, index.0, i, step)?;
        Ok(id)
    }

    /// What an operation gives a register.
    pub fn result(
        &self,
        dag: &mut Dag,
        trees: &Trees,
        plan: &Plan,
        operation: Operation,
    ) -> Result<Id, AllocError>
        requires slot { SlotOf plan.now dag.old trees.now self.now }
        requires fits { operation_fits plan.now.code.now.registers plan.now.code.now.blocks 0 operation ≡ true }
        requires sets { sets_register operation ≡ true }
        ensures extends { Extends dag.old dag.new }
        ensures made { IfOk result (λ i. IsValue dag.new i (type_width (slice_index_or plan.now.code.now.registers (into_of operation) IntegerType.Int)) (λ v. result_of operation (held v dag.old trees.now plan.now.code.now self.now))) }
    {
        match operation {
            Operation::Constant { into, bits } => {
                let type_ = plan.code.registers()[into];
                let id = constant(dag, bits, type_)?;
                Ok(id)
            }
            Operation::Copy { operand, .. } => Ok(self.register(dag, trees, plan, operand)),
            Operation::Load {
                type_,
                block,
                offset,
                ..
            } => self.loaded(dag, trees, plan, block, offset, type_),
            Operation::Convert {
                into,
                from,
                to,
                operand,
            } => self.convert(dag, trees, plan, into, from, to, operand),
            Operation::Sign {
                into,
                operator,
                type_,
                operand,
            } => self.sign(dag, trees, plan, into, operator, type_, operand),
            Operation::Arithmetic {
                into,
                operator,
                type_,
                right_type,
                left,
                right,
            } => {
                self.arithmetic(
                    dag,
                    trees,
                    plan,
                    into,
                    operator,
                    (type_, right_type),
                    (left, right),
                )
            }
            Operation::Compare {
                operator,
                type_,
                left,
                right,
                ..
            } => {
                let a = self.number(dag, trees, plan, left, type_);
                let b = self.number(dag, trees, plan, right, type_);
                compared(dag, operator, type_, a, b)
            }
            Operation::IsZero { operand, .. } => {
                let a = self.register(dag, trees, plan, operand);
                is_zero(dag, a)
            }
            Operation::Move {
                pointer,
                index,
                index_type,
                step,
                ..
            } => self.pointer_moved(dag, trees, plan, pointer, (index_type, index), step),
            Operation::Offset { pointer, count, .. } => {
                let p = self.pointer(dag, trees, plan, pointer);
                displaced(dag, p, count)
            }
            Operation::Distance {
                left,
                right,
                step,
                ..
            } => {
                let p = self.pointer(dag, trees, plan, left);
                let q = self.pointer(dag, trees, plan, right);
                elements_between(dag, p, q, step)
            }
            Operation::Relate {
                operator,
                left,
                right,
                ..
            } => {
                let p = self.pointer(dag, trees, plan, left);
                let q = self.pointer(dag, trees, plan, right);
                offsets_compared(dag, operator, p, q)
            }
            _ => unreachable!(),
        }
    }

    // Whether the offset of a pointer, so many steps of an index further on, isn't from 0 to a size.
    fn leaves_range(
        &self,
        dag: &mut Dag,
        trees: &Trees,
        plan: &Plan,
        pointer: usize,
        index: (IntegerType, usize),
        step: i64,
        size: usize,
    ) -> Result<Id, AllocError>
        requires within { SlotIn dag.old trees.now plan.now.code.now self.now }
        requires pointer { is_pointer plan.now.code.now.registers pointer ≡ true }
        requires index { is_register plan.now.code.now.registers index.1 index.0 ≡ true }
        requires size { is_pointer plan.now.code.now.registers size ≡ true }
        ensures extends { Extends dag.old dag.new }
        ensures made { IfOk result (λ i. IsTest dag.new i (λ v. not (in_range (offset_moved (held v dag.old trees.now plan.now.code.now self.now) pointer index.1 index.0 step) (register (held v dag.old trees.now plan.now.code.now self.now) size)))) }
    {
        let p = self.pointer(dag, trees, plan, pointer);
        let i = self.number(dag, trees, plan, index.1, index.0);
        let n = self.pointer(dag, trees, plan, size);
        let id = leaves_range(dag, p, index.0, i, step, n)?;
        Ok(id)
    }

    /// Whether a check is broken.
    #[tactic(auto, using(crate::proofs::Ranged::ranged_same))]
    pub fn fails(
        &self,
        dag: &mut Dag,
        trees: &Trees,
        plan: &Plan,
        condition: Condition,
    ) -> Result<Id, AllocError>
        requires within { SlotIn dag.old trees.now plan.now.code.now self.now }
        requires fits { check_fits plan.now.code.now.registers condition ≡ true }
        ensures extends { Extends dag.old dag.new }
        ensures made { IfOk result (λ i. IsTest dag.new i (λ v. is_some (check_class condition (held v dag.old trees.now plan.now.code.now self.now)))) }
    {
        match condition {
            Condition::Divisor { divisor } => {
                let b = self.register(dag, trees, plan, divisor);
                zero_test(dag, b)
            }
            Condition::Quotient { type_, left, right } => {
                let a = self.number(dag, trees, plan, left, type_);
                let b = self.wide(dag, trees, plan, right, type_);
                quotient_fails(dag, type_, a, b)
            }
            Condition::Range {
                operator,
                type_,
                left,
                right,
            } => {
                let a = self.number(dag, trees, plan, left, type_);
                let b = self.wide(dag, trees, plan, right, type_);
                range_fails(dag, operator, type_, a, b)
            }
            Condition::Negation { type_, operand } => {
                let a = self.number(dag, trees, plan, operand, type_);
                negation_fails(dag, type_, a)
            }
            Condition::Count {
                type_,
                count_type,
                count,
            } => {
                let b = self.number(dag, trees, plan, count, count_type);
                count_fails(dag, type_, count_type, b)
            }
            Condition::LeftShift {
                type_,
                count_type,
                left,
                count,
            } => {
                let a = self.number(dag, trees, plan, left, type_);
                let b = self.number(dag, trees, plan, count, count_type);
                left_shift_fails(dag, type_, count_type, a, b)
            }
            Condition::Returned { returned } => {
                let a = self.register(dag, trees, plan, returned);
                zero_test(dag, a)
            }
            Condition::Within {
                pointer,
                index,
                index_type,
                step,
                size,
                ..
            } => self.leaves_range(dag, trees, plan, pointer, (index_type, index), step, size),
            Condition::SameObject { left, right } => {
                let p = self.pointer(dag, trees, plan, left);
                let q = self.pointer(dag, trees, plan, right);
                objects_differ(dag, p, q)
            }
            Condition::Inside {
                offset,
                count,
                whole,
            } => {
                let p = self.pointer(dag, trees, plan, offset);
                lies_outside(dag, p, count, whole)
            }
            Condition::AtMost { left, right, most } => {
                let a = self.pointer(dag, trees, plan, left);
                let b = self.pointer(dag, trees, plan, right);
                product_exceeds(dag, a, b, most)
            }
        }
    }
}

/// The class that a check breaks.
pub fn class_of(condition: Condition) -> Class
    ensures { result ≡ class_of condition }
{
    match condition {
        Condition::Divisor { .. } => Class::Division,
        Condition::Quotient { .. } | Condition::Range { .. } | Condition::Negation { .. } =>
            Class::Overflow,
        Condition::Count { .. } | Condition::LeftShift { .. } => Class::Shift,
        Condition::Returned { .. } => Class::Return,
        Condition::Within { class, .. } => class,
        Condition::SameObject { .. } => Class::Pointer,
        Condition::Inside { .. } => Class::Bounds,
        Condition::AtMost { .. } => Class::MallocLimit,
    }
}
