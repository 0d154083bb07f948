//! Up to which place each register and each byte is read.

ghost use Rattle.std.specs.Prelude.{◌≡◌, ℕ, ◌<◌, ◌^◌, ◌+◌, length, IfOk};
ghost use Rattle.guarded_ssa.specs.inner.Held.{IsPlan};
ghost use Rattle.guarded_ssa.specs.inner.Reads.{first_checked, second_checked, third_checked, first_read, second_read, third_read, block_read, IsRead, IsBlockRead, Later, Covers};

use crate::bytes::{cell_types, owners, starts};
use c_types::IntegerType;
use goto_prog::{Code, Condition, Operation};
use std::alloc::{AllocError, Global};

/// Code; for each of its registers, and then for each of its blocks, the place behind the last instruction that
/// reads it; the types of its cells; the first cell of each block; and for each cell the number of its register
/// or block, the registers numbered first.
#[derive(Drop)]
pub struct Plan<'a> {
    pub alloc: Global,
    pub code: &'a Code,
    pub until: Vec<usize>,
    pub types: Vec<IntegerType>,
    pub starts: Vec<usize>,
    pub owner: Vec<usize>,
}

// The registers that a condition reads.
fn checked(condition: Condition) -> (Option<usize>, Option<usize>, Option<usize>)
    ensures first { result.0 ≡ first_checked condition }
    ensures second { result.1 ≡ second_checked condition }
    ensures third { result.2 ≡ third_checked condition }
{
    match condition {
        Condition::Divisor { divisor } => (Some(divisor), None, None),
        Condition::Quotient { left, right, .. } => (Some(left), Some(right), None),
        Condition::Range { left, right, .. } => (Some(left), Some(right), None),
        Condition::Negation { operand, .. } => (Some(operand), None, None),
        Condition::Count { count, .. } => (Some(count), None, None),
        Condition::LeftShift { left, count, .. } => (Some(left), Some(count), None),
        Condition::Returned { returned } => (Some(returned), None, None),
        Condition::Within {
            pointer,
            index,
            size,
            ..
        } => (Some(pointer), Some(index), Some(size)),
        Condition::SameObject { left, right } => (Some(left), Some(right), None),
        Condition::Inside { offset, .. } => (Some(offset), None, None),
        Condition::AtMost { left, right, .. } => (Some(left), Some(right), None),
    }
}

// The registers that an operation reads.
fn reads(operation: Operation) -> (Option<usize>, Option<usize>, Option<usize>)
    ensures first { result.0 ≡ first_read operation }
    ensures second { result.1 ≡ second_read operation }
    ensures third { result.2 ≡ third_read operation }
{
    match operation {
        Operation::Copy { operand, .. } | Operation::IsZero { operand, .. } => {
            (Some(operand), None, None)
        }
        Operation::Store { operand, .. } => (Some(operand), None, None),
        Operation::Convert { operand, .. } => (Some(operand), None, None),
        Operation::Sign { operand, .. } => (Some(operand), None, None),
        Operation::Arithmetic { left, right, .. } => (Some(left), Some(right), None),
        Operation::Compare { left, right, .. } => (Some(left), Some(right), None),
        Operation::SkipIfZero { operand, .. } => (Some(operand), None, None),
        Operation::Check { condition } => checked(condition),
        Operation::Assert { operand } | Operation::Assume { operand } => {
            (Some(operand), None, None)
        }
        Operation::Move {
            pointer,
            index,
            size,
            ..
        } => (Some(pointer), Some(index), Some(size)),
        Operation::Offset { pointer, .. } => (Some(pointer), None, None),
        Operation::Distance { left, right, .. } => (Some(left), Some(right), None),
        Operation::Relate { left, right, .. } => (Some(left), Some(right), None),
        Operation::Take { offset, .. } | Operation::Put { offset, .. } => {
            (Some(offset), None, None)
        }
        Operation::Read { pointer, .. } => (Some(pointer), None, None),
        Operation::Write { pointer, .. } => (Some(pointer), None, None),
        Operation::Look { pointer, .. } => (Some(pointer), None, None),
        Operation::Fill { count, .. } => (Some(count), None, None),
        Operation::Alloc { size, .. } => (Some(size), None, None),
        Operation::Die { pointer } | Operation::Free { pointer } => (Some(pointer), None, None),
        Operation::Constant { .. }
        | Operation::Load { .. }
        | Operation::Clear { .. }
        | Operation::CopyBytes { .. }
        | Operation::Skip { .. }
        | Operation::Draw { .. }
        | Operation::ReadObject { .. }
        | Operation::WriteObject { .. }
        | Operation::Exit
        | Operation::Fail { .. }
        | Operation::Use { .. }
        | Operation::Call { .. }
        | Operation::Return { .. }
        | Operation::Same { .. }
        | Operation::MayFail { .. }
        | Operation::Limit { .. } => (None, None, None),
    }
}

// The block whose bytes an operation reads.
fn block_read(operation: Operation) -> Option<usize>
    ensures { result ≡ block_read operation }
{
    match operation {
        Operation::Load { block, .. } => Some(block),
        Operation::CopyBytes { from, .. } => Some(from),
        Operation::WriteObject { block, .. } => Some(block),
        Operation::Take { from, .. } | Operation::Put { from, .. } => Some(from),
        Operation::Write { block, .. } => Some(block),
        Operation::Fill { block, .. } => Some(block),
        Operation::Alloc { block, .. } => Some(block),
        _ => None,
    }
}

// Notes that a register or a block, which has this number, is read at a place.
fn mark(until: &mut Vec<usize>, number: Option<usize>, place: usize)
    requires { place + 1 < 2 ^ 64 }
    ensures read { IsRead until.new.items place number }
    ensures later { Later until.old.items until.new.items }
{
    if let Some(r) = number {
        if r < until.len() && until[r] <= place {
            until[r] = place + 1;
        }
    }
}

// Notes that a block is read at a place.
fn mark_block(until: &mut Vec<usize>, registers: usize, block: Option<usize>, place: usize)
    requires { place + 1 < 2 ^ 64 }
    ensures read { IsBlockRead registers until.new.items place block }
    ensures later { Later until.old.items until.new.items }
{
    if let Some(b) = block {
        mark(until, registers.checked_add(b), place);
    }
}

// For each register, and then for each block, the place behind the last instruction that reads it.
fn reading(alloc: Global, code: &Code) -> Result<Vec<usize>, AllocError>
    ensures size { IfOk result (λ until. length until.items ≡ length code.now.registers + length code.now.blocks) }
    ensures covers { IfOk result (λ until. Covers (length code.now.registers) until.items 0 code.now.instructions) }
{
    let registers = code.registers().len();
    let mut until = vec![in alloc; 0; registers + code.blocks().len()]?;
    for (place, instruction) in code.instructions().iter().enumerate() {
        let (first, second, third) = reads(instruction.operation);
        mark(&mut until, first, place);
        mark(&mut until, second, place);
        mark(&mut until, third, place);
        mark_block(
            &mut until,
            registers,
            block_read(instruction.operation),
            place,
        );
    }
    Ok(until)
}

impl<'a> Plan<'a> {
    /// The plan of this code: up to which place each register and each byte is read.
    pub fn new(alloc: Global, code: &'a Code) -> Result<Plan<'a>, AllocError>
        ensures code { IfOk result (λ p. p.code.now ≡ code.now) }
        ensures plan { IfOk result IsPlan }
        ensures covers { IfOk result (λ p. Covers (length code.now.registers) p.until.items 0 code.now.instructions) }
    {
        let registers = code.registers();
        let blocks = code.blocks();
        let until = reading(alloc, code)?;
        let types = cell_types(alloc, registers, blocks)?;
        let starts = starts(alloc, registers.len(), blocks)?;
        let owner = owners(alloc, registers.len(), blocks)?;
        Ok(Plan {
            alloc,
            code,
            until,
            types,
            starts,
            owner,
        })
    }
}
