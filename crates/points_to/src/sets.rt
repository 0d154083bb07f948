//! The objects that pointers may point to.

ghost use Rattle.std.specs.Prelude.{◌≡◌, ◌<◌, ◌≤◌, ◌^◌, ℕ, true, length, IfOk, if◌then◌else◌};
ghost use Rattle.goto_prog.specs.Allocations.{own_allocations, code_allocations};
ghost use Rattle.event_forms.specs.Accesses.{AreFirst};
ghost use Rattle.points_to.specs.Sets.{has_pointer, pointers_in, instructions_of, has_member, members_of, AreSets};

use goto_prog::{Instruction, Operation, Unrolled};
use std::alloc::{AllocError, Global};
use std::marker::Model;

/// For each pointer place of code, which is an access by a pointer, a look or a free, the object places that its pointer may
/// point to: the static objects and the literals, from 0 on, and then the places of the code that make objects. Each pointer
/// may point to all of them.
#[derive(Drop)]
pub struct Sets {
    pointers: usize,
    objects: Vec<u32>,
}

impl Model for Sets {
    ghost use Rattle.std.specs.Prelude.{ℕ, List, replicate};

    ghost Value = { List (List ℕ) };

    ghost view = { λ s. replicate s.pointers s.objects.items };
}

impl Sets {
    /// For each pointer place of the code that thread 0 runs, the object places that its pointer may point to: in each state that a
    /// run reaches, the object of the next access is among them. The only error is that there is no memory, or that there are more
    /// than 2 ^ 32 object places.
    pub fn of(alloc: Global, unrolled: &Unrolled) -> Result<Sets, AllocError>
        ensures places { IfOk result (λ s. length s ≡ pointers_in (instructions_of unrolled.now)) }
        ensures sets { IfOk result (λ s. AreFirst unrolled.now.store → AreSets unrolled.now (members_of s)) }
    {
        let code = unrolled.main().instructions();
        let made = allocation_count(code) as u64;
        let stored = unrolled.store().len() as u64;
        if made > 4_294_967_296 || stored > 4_294_967_296 - made {
            return Err(AllocError);
        }
        Ok(Sets {
            pointers: pointer_count(code),
            objects: numbers_below(alloc, stored + made)?,
        })
    }

    /// How many pointer places there are. Takes no memory.
    pub fn places(&self) -> usize
        ensures { result ≡ length self.now }
    {
        self.pointers
    }

    /// The object places that the pointer of a pointer place may point to. Pointer places have the numbers from 0 on, in the
    /// order of the code. Takes no memory.
    pub fn members(&self, place: u32) -> &[u32]
        requires exists { place < length self.now }
        ensures { result.now ≡ members_of self.now place }
    {
        &self.objects
    }
}

// Whether an operation goes by a pointer.
fn has_pointer(operation: Operation) -> bool
    ensures { result ≡ has_pointer operation }
{
    match operation {
        Operation::Read { .. } => true,
        Operation::Write { .. } => true,
        Operation::Look { .. } => true,
        Operation::Free { .. } => true,
        _ => false,
    }
}

// How many instructions of code go by a pointer.
fn pointer_count(code: &[Instruction]) -> usize
    ensures { result ≡ pointers_in code.now }
{
    let mut count = 0;
    for instruction in code {
        if has_pointer(instruction.operation) {
            count += 1;
        }
    }
    count
}

// Whether an operation makes an object.
fn allocates(operation: Operation) -> bool
    ensures { own_allocations operation ≡ (if result then 1 else 0) }
{
    match operation {
        Operation::Alloc { .. } => true,
        _ => false,
    }
}

// How many instructions of code make an object.
fn allocation_count(code: &[Instruction]) -> usize
    ensures { result ≡ code_allocations code.now }
{
    let mut count = 0;
    for instruction in code {
        if allocates(instruction.operation) {
            count += 1;
        }
    }
    count
}

// The numbers below one, which is at most 2 ^ 32.
fn numbers_below(alloc: Global, count: u64) -> Result<Vec<u32>, AllocError>
    requires small { count ≤ 2 ^ 32 }
    ensures { IfOk result (λ r. (k : ℕ) → k < count → has_member r.items k ≡ true) }
{
    let mut numbers = Vec::new(alloc);
    for k in 0..count {
        numbers.push(k as u32)?;
    }
    Ok(numbers)
}
