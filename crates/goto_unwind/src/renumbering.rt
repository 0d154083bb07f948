//! Operations on the registers and blocks of an activation, by their numbers in unrolled code.

ghost use Rattle.std.specs.Prelude.{◌≡◌, ◌+◌, true, IfOk};
ghost use Rattle.goto_unwind.specs.Unrolled.{renumbered, renumbered_check, on_pointers};

use goto_prog::{Condition, Operation};
use std::alloc::AllocError;

/// A number behind the first of an activation's registers or blocks. There is no memory for more than can
/// be numbered.
pub(crate) fn number(first: usize, number: usize) -> Result<usize, AllocError>
    ensures { IfOk result (λ n. n ≡ first + number) }
{
    match first.checked_add(number) {
        Some(found) => Ok(found),
        None => Err(AllocError),
    }
}

/// What a check asks of the registers of an activation, which begin with this one.
pub(crate) fn renumbered_check(first: usize, condition: Condition) -> Result<Condition, AllocError>
    ensures { IfOk result (λ c. c ≡ renumbered_check first condition) }
{
    Ok(match condition {
        Condition::Divisor { divisor } => Condition::Divisor {
            divisor: number(first, divisor)?,
        },
        Condition::Quotient { type_, left, right } => Condition::Quotient {
            type_,
            left: number(first, left)?,
            right: number(first, right)?,
        },
        Condition::Range {
            operator,
            type_,
            left,
            right,
        } => Condition::Range {
            operator,
            type_,
            left: number(first, left)?,
            right: number(first, right)?,
        },
        Condition::Negation { type_, operand } => Condition::Negation {
            type_,
            operand: number(first, operand)?,
        },
        Condition::Count {
            type_,
            count_type,
            count,
        } => Condition::Count {
            type_,
            count_type,
            count: number(first, count)?,
        },
        Condition::LeftShift {
            type_,
            count_type,
            left,
            count,
        } => Condition::LeftShift {
            type_,
            count_type,
            left: number(first, left)?,
            count: number(first, count)?,
        },
        Condition::Returned { returned } => Condition::Returned {
            returned: number(first, returned)?,
        },
        Condition::Within {
            pointer,
            index,
            index_type,
            step,
            size,
            class,
        } => Condition::Within {
            pointer: number(first, pointer)?,
            index: number(first, index)?,
            index_type,
            step,
            size: number(first, size)?,
            class,
        },
        Condition::SameObject { left, right } => Condition::SameObject {
            left: number(first, left)?,
            right: number(first, right)?,
        },
        Condition::Inside {
            offset,
            count,
            whole,
        } => Condition::Inside {
            offset: number(first, offset)?,
            count,
            whole,
        },
        Condition::AtMost { left, right, most } => Condition::AtMost {
            left: number(first, left)?,
            right: number(first, right)?,
            most,
        },
    })
}

/// An operation on the registers and blocks of an activation, which begin with these.
pub(crate) fn renumbered(
    register: usize,
    first_block: usize,
    operation: Operation,
) -> Result<Operation, AllocError>
    ensures { IfOk result (λ o. o ≡ renumbered register first_block operation) }
{
    Ok(match operation {
        Operation::Constant { into, bits } => Operation::Constant {
            into: number(register, into)?,
            bits,
        },
        Operation::Copy { into, operand } => Operation::Copy {
            into: number(register, into)?,
            operand: number(register, operand)?,
        },
        Operation::Load {
            into,
            type_,
            block,
            offset,
        } => Operation::Load {
            into: number(register, into)?,
            type_,
            block: number(first_block, block)?,
            offset,
        },
        Operation::Store {
            block,
            offset,
            count,
            operand,
        } => Operation::Store {
            block: number(first_block, block)?,
            offset,
            count,
            operand: number(register, operand)?,
        },
        Operation::Clear { block, size } => Operation::Clear {
            block: number(first_block, block)?,
            size,
        },
        Operation::CopyBytes {
            into,
            at,
            from,
            offset,
            count,
        } => Operation::CopyBytes {
            into: number(first_block, into)?,
            at,
            from: number(first_block, from)?,
            offset,
            count,
        },
        Operation::Convert {
            into,
            from,
            to,
            operand,
        } => Operation::Convert {
            into: number(register, into)?,
            from,
            to,
            operand: number(register, operand)?,
        },
        Operation::Sign {
            into,
            operator,
            type_,
            operand,
        } => Operation::Sign {
            into: number(register, into)?,
            operator,
            type_,
            operand: number(register, operand)?,
        },
        Operation::Arithmetic {
            into,
            operator,
            type_,
            right_type,
            left,
            right,
        } => Operation::Arithmetic {
            into: number(register, into)?,
            operator,
            type_,
            right_type,
            left: number(register, left)?,
            right: number(register, right)?,
        },
        Operation::Compare {
            into,
            operator,
            type_,
            left,
            right,
        } => Operation::Compare {
            into: number(register, into)?,
            operator,
            type_,
            left: number(register, left)?,
            right: number(register, right)?,
        },
        Operation::IsZero { into, operand } => Operation::IsZero {
            into: number(register, into)?,
            operand: number(register, operand)?,
        },
        Operation::Check { condition } => Operation::Check {
            condition: renumbered_check(register, condition)?,
        },
        Operation::Assert { operand } => Operation::Assert {
            operand: number(register, operand)?,
        },
        Operation::Assume { operand } => Operation::Assume {
            operand: number(register, operand)?,
        },
        Operation::Draw { into, bits } => Operation::Draw {
            into: number(register, into)?,
            bits,
        },
        Operation::ReadObject {
            block,
            at,
            object,
            offset,
            count,
        } => Operation::ReadObject {
            block: number(first_block, block)?,
            at,
            object,
            offset,
            count,
        },
        Operation::WriteObject {
            object,
            offset,
            block,
            at,
            count,
        } => Operation::WriteObject {
            object,
            offset,
            block: number(first_block, block)?,
            at,
            count,
        },
        Operation::Use { returned } => Operation::Use {
            returned: number(register, returned)?,
        },
        Operation::Skip { .. } => operation,
        Operation::SkipIfZero { .. } => operation,
        Operation::Exit => operation,
        Operation::Fail { .. } => operation,
        Operation::Call { .. } => operation,
        Operation::Return { .. } => operation,
        Operation::MayFail { .. } => operation,
        Operation::Limit { .. } => operation,
        _ => renumbered_pointers(register, first_block, operation)?,
    })
}

// The same of an operation on pointers.
fn renumbered_pointers(
    register: usize,
    first_block: usize,
    operation: Operation,
) -> Result<Operation, AllocError>
    requires { on_pointers operation ≡ true }
    ensures { IfOk result (λ o. o ≡ renumbered register first_block operation) }
{
    Ok(match operation {
        Operation::Move {
            into,
            pointer,
            index,
            index_type,
            step,
            size,
            class,
        } => Operation::Move {
            into: number(register, into)?,
            pointer: number(register, pointer)?,
            index: number(register, index)?,
            index_type,
            step,
            size: number(register, size)?,
            class,
        },
        Operation::Offset {
            into,
            pointer,
            count,
        } => Operation::Offset {
            into: number(register, into)?,
            pointer: number(register, pointer)?,
            count,
        },
        Operation::Same { left, right } => Operation::Same {
            left: number(register, left)?,
            right: number(register, right)?,
        },
        Operation::Distance {
            into,
            left,
            right,
            step,
        } => Operation::Distance {
            into: number(register, into)?,
            left: number(register, left)?,
            right: number(register, right)?,
            step,
        },
        Operation::Relate {
            into,
            operator,
            left,
            right,
        } => Operation::Relate {
            into: number(register, into)?,
            operator,
            left: number(register, left)?,
            right: number(register, right)?,
        },
        Operation::Take {
            block,
            at,
            from,
            offset,
            count,
            whole,
        } => Operation::Take {
            block: number(first_block, block)?,
            at,
            from: number(first_block, from)?,
            offset: number(register, offset)?,
            count,
            whole,
        },
        Operation::Put {
            block,
            offset,
            from,
            at,
            count,
            whole,
        } => Operation::Put {
            block: number(first_block, block)?,
            offset: number(register, offset)?,
            from: number(first_block, from)?,
            at,
            count,
            whole,
        },
        Operation::Read {
            block,
            at,
            pointer,
            count,
        } => Operation::Read {
            block: number(first_block, block)?,
            at,
            pointer: number(register, pointer)?,
            count,
        },
        Operation::Write {
            pointer,
            block,
            at,
            count,
            first,
        } => Operation::Write {
            pointer: number(register, pointer)?,
            block: number(first_block, block)?,
            at,
            count,
            first,
        },
        Operation::Look {
            into,
            pointer,
            subscript,
        } => Operation::Look {
            into: number(register, into)?,
            pointer: number(register, pointer)?,
            subscript,
        },
        Operation::Fill { block, count } => Operation::Fill {
            block: number(first_block, block)?,
            count: number(register, count)?,
        },
        Operation::Alloc {
            into,
            block,
            size,
            readonly,
            heap,
        } => Operation::Alloc {
            into: number(register, into)?,
            block: number(first_block, block)?,
            size: number(register, size)?,
            readonly,
            heap,
        },
        Operation::Die { pointer } => Operation::Die {
            pointer: number(register, pointer)?,
        },
        Operation::Free { pointer } => Operation::Free {
            pointer: number(register, pointer)?,
        },
        _ => unreachable!(),
    })
}
