//! The bytes of blocks as nodes: what operations read and write of them.

ghost use Rattle.std.specs.Prelude.{◌≡◌, ℕ, true, ◌+◌, ◌-◌, ◌<◌, ◌≤◌, ◌++◌, length, map, take, replicate, IfOk};
ghost use Rattle.c_types.specs.Integers.{width as type_width, bytes};
ghost use Rattle.core_tree.specs.Typed.{is_within};
ghost use Rattle.c_values.specs.Variables.{zeros, put_bytes, read_variable};
ghost use Rattle.word_dag.specs.Growth.{Extends};
ghost use Rattle.word_dag.specs.Meaning.{value};
ghost use Rattle.value_nodes.specs.Values.{IsWord, IsValue, AreBytes};
ghost use Rattle.value_nodes.specs.Bytes.{AreBytesOf};
ghost use Rattle.cell_trees.specs.Trees.{Keeps};
ghost use Rattle.goto_prog.specs.Fitting.{is_block, is_pointer, has_bytes};
ghost use Rattle.goto_prog.specs.Meaning.{with_blocks, bytes_of, calculated};
ghost use Rattle.event_forms.specs.Runs.{bytes_of_words};
ghost use Rattle.event_forms.specs.Forms.{AreWords};
ghost use Rattle.guarded_ssa.specs.inner.Places.{updated};
ghost use Rattle.guarded_ssa.specs.inner.Held.{SlotIn, IsPlan, held, guarded, total, counted, owners_from, starts_from};
ghost use Rattle.guarded_ssa.specs.inner.Conditions.{SlotOf};
ghost use Rattle.guarded_ssa.specs.inner.Results.{filled_first};

use crate::answers::bytes_of_words;
use crate::liveness::Plan;
use crate::parts::{first_of, put, taken};
use crate::registers::ids_from;
use crate::slots::Slot;
use c_types::IntegerType;
use cell_trees::Trees;
use goto_prog::Operation;
use std::alloc::{AllocError, Global};
use value_nodes::{loaded, offset_of, stored};
use word_dag::{Dag, Id};

/// How many bytes blocks of these sizes have.
pub fn size_of_all(sizes: &[u32]) -> Result<usize, AllocError>
    ensures { IfOk result (λ n. n ≡ total sizes.now) }
{
    let mut bytes: usize = 0;
    for size in sizes {
        bytes = match bytes.checked_add(*size as usize) {
            Some(more) => more,
            None => return Err(AllocError),
        };
    }
    Ok(bytes)
}

/// The types of the cells of registers and blocks.
pub fn cell_types(
    alloc: Global,
    registers: &[IntegerType],
    blocks: &[u32],
) -> Result<Vec<IntegerType>, AllocError>
    ensures { IfOk result (λ r. r.items ≡ registers.now ++ replicate (total blocks.now) IntegerType.Char) }
{
    let size = size_of_all(blocks)?;
    let bytes = vec![in alloc; IntegerType::Char; size]?;
    let mut types = registers.to_vec(alloc)?;
    types.extend_from_slice(&bytes)?;
    Ok(types)
}

/// The first cell of each block that has one of these sizes, one block behind the other, from a cell on.
pub fn starts(alloc: Global, first: usize, sizes: &[u32]) -> Result<Vec<usize>, AllocError>
    ensures { IfOk result (λ r. r.items ≡ starts_from first sizes.now) }
{
    let mut starts = Vec::with_capacity(alloc, sizes.len())?;
    let mut next = first;
    for size in sizes {
        starts.push(next)?;
        next = match next.checked_add(*size as usize) {
            Some(behind) => behind,
            None => return Err(AllocError),
        };
    }
    Ok(starts)
}

// So many numbers from 0 on.
fn counted(alloc: Global, count: usize) -> Result<Vec<usize>, AllocError>
    ensures { IfOk result (λ r. r.items ≡ counted 0 count) }
{
    let mut numbers = Vec::with_capacity(alloc, count)?;
    for k in 0..count {
        numbers.push(k)?;
    }
    Ok(numbers)
}

// The numbers, and then one of them so many times.
fn repeated(mut numbers: Vec<usize>, number: usize, count: usize) -> Result<Vec<usize>, AllocError>
    ensures { IfOk result (λ r. r.items ≡ numbers.items ++ replicate count number) }
{
    'times: for _ in 0..count {
        numbers.push(number)?;
    }
    Ok(numbers)
}

/// For each cell of so many registers and of blocks of these sizes the number of its register or block.
pub fn owners(alloc: Global, registers: usize, sizes: &[u32]) -> Result<Vec<usize>, AllocError>
    ensures { IfOk result (λ r. r.items ≡ counted 0 registers ++ owners_from registers sizes.now) }
{
    let mut numbers = counted(alloc, registers)?;
    let mut number = registers;
    for size in sizes {
        numbers = repeated(numbers, number, *size as usize)?;
        number = match number.checked_add(1) {
            Some(next) => next,
            None => return Err(AllocError),
        };
    }
    Ok(numbers)
}

impl<'a> Plan<'a> {
    // The first cell of a block.
    fn start_of(&self, b: usize) -> usize
        requires plan { IsPlan self.now }
        requires there { b < length self.now.code.now.blocks }
        ensures { result ≡ length self.now.code.now.registers + total (take b self.now.code.now.blocks) }
    {
        self.starts[b]
    }
}

impl Slot {
    /// The nodes of so many bytes of a block, from an offset on.
    pub fn bytes(
        &self,
        dag: &Dag,
        trees: &Trees,
        plan: &Plan,
        b: usize,
        offset: u32,
        count: u32,
    ) -> Result<Vec<Id>, AllocError>
        requires slot { SlotOf plan.now dag.now trees.now self.now }
        requires there { is_within plan.now.code.now.blocks b offset count ≡ true }
        ensures made { IfOk result (λ ids. AreBytesOf dag.now ids.items (λ v. bytes_of (held v dag.now trees.now plan.now.code.now self.now).blocks b offset count)) }
        ensures size { IfOk result (λ ids. length ids.items ≡ count) }
    {
        let _ = dag.nodes();
        let start = plan.start_of(b) + offset as usize;
        let zero = self.zeros.byte;
        let ids = ids_from(plan.alloc, trees, self.root, zero, start, count as usize)?;
        Ok(ids)
    }

    /// What a load from a block gives.
    pub fn loaded(
        &self,
        dag: &mut Dag,
        trees: &Trees,
        plan: &Plan,
        b: usize,
        offset: u32,
        type_: IntegerType,
    ) -> Result<Id, AllocError>
        requires slot { SlotOf plan.now dag.old trees.now self.now }
        requires there { is_within plan.now.code.now.blocks b offset (bytes type_) ≡ true }
        ensures extends { Extends dag.old dag.new }
        ensures made { IfOk result (λ i. IsValue dag.new i (type_width type_) (λ v. read_variable (held v dag.old trees.now plan.now.code.now self.now).blocks b offset type_)) }
    {
        let bytes = self.bytes(dag, trees, plan, b, offset, type_.size())?;
        let id = loaded(dag, type_, 0, &bytes)?;
        Ok(id)
    }

    // The memory with so many bytes of a block replaced, from an offset on: by these, and by 0 behind them.
    fn replaced(
        self,
        dag: &Dag,
        trees: &mut Trees,
        plan: &Plan,
        block: usize,
        offset: u32,
        count: usize,
        new: &[Id],
    ) -> Result<Slot, AllocError>
        requires slot { SlotOf plan.now dag.now trees.old self }
        requires block { is_within plan.now.code.now.blocks block offset count ≡ true }
        requires few { length new.now ≤ count }
        requires new { AreBytes dag.now new.now }
        ensures keeps { Keeps trees.old trees.new }
        ensures within { IfOk result (SlotIn dag.now trees.new plan.now.code.now) }
        ensures guarded { IfOk result (λ s. (v : ℕ → ℕ) → guarded v dag.now trees.new plan.now.code.now s ≡ updated (λ m. with_blocks m (put_bytes m.blocks block offset (map (value v dag.now) new.now ++ zeros (count - length new.now)))) (guarded v dag.now trees.old plan.now.code.now self)) }
    {
        let _ = dag.nodes();
        let start = plan.start_of(block) + offset as usize;
        let root = trees.replaced(self.root, start, count, new)?;
        Ok(Slot {
            guard: self.guard,
            zeros: self.zeros,
            root,
        })
    }

    /// The memory with bytes of a block replaced, from an offset on.
    pub fn written(
        self,
        dag: &Dag,
        trees: &mut Trees,
        plan: &Plan,
        block: usize,
        offset: u32,
        new: &[Id],
    ) -> Result<Slot, AllocError>
        requires slot { SlotOf plan.now dag.now trees.old self }
        requires block { is_within plan.now.code.now.blocks block offset (length new.now) ≡ true }
        requires new { AreBytes dag.now new.now }
        ensures keeps { Keeps trees.old trees.new }
        ensures within { IfOk result (SlotIn dag.now trees.new plan.now.code.now) }
        ensures guarded { IfOk result (λ s. (v : ℕ → ℕ) → guarded v dag.now trees.new plan.now.code.now s ≡ updated (λ m. with_blocks m (put_bytes m.blocks block offset (map (value v dag.now) new.now))) (guarded v dag.now trees.old plan.now.code.now self)) }
    {
        let next = self.replaced(dag, trees, plan, block, offset, new.len(), new)?;
        Ok(next)
    }

    /// The memory with the lowest bytes of a register's word written into a block.
    pub fn stored(
        self,
        dag: &mut Dag,
        trees: &mut Trees,
        plan: &Plan,
        block: usize,
        offset: u32,
        count: u32,
        operand: usize,
    ) -> Result<Slot, AllocError>
        requires slot { SlotOf plan.now dag.old trees.old self }
        requires operand { has_bytes plan.now.code.now.registers operand count ≡ true }
        requires block { is_within plan.now.code.now.blocks block offset count ≡ true }
        ensures extends { Extends dag.old dag.new }
        ensures keeps { Keeps trees.old trees.new }
        ensures within { IfOk result (SlotIn dag.new trees.new plan.now.code.now) }
        ensures guarded { IfOk result (λ s. (v : ℕ → ℕ) → guarded v dag.new trees.new plan.now.code.now s ≡ updated (calculated (Operation.Store block offset count operand)) (guarded v dag.old trees.old plan.now.code.now self)) }
    {
        let id = self.register(dag, trees, plan, operand);
        let type_ = plan.code.registers()[operand];
        let bytes = stored(plan.alloc, dag, type_, id, count as usize)?;
        let next = self.written(dag, trees, plan, block, offset, &bytes)?;
        Ok(next)
    }

    /// The memory with each byte of a block 0.
    pub fn cleared(
        self,
        dag: &Dag,
        trees: &mut Trees,
        plan: &Plan,
        block: usize,
        size: u32,
    ) -> Result<Slot, AllocError>
        requires slot { SlotOf plan.now dag.now trees.old self }
        requires block { is_block plan.now.code.now.blocks block size ≡ true }
        ensures keeps { Keeps trees.old trees.new }
        ensures within { IfOk result (SlotIn dag.now trees.new plan.now.code.now) }
        ensures guarded { IfOk result (λ s. (v : ℕ → ℕ) → guarded v dag.now trees.new plan.now.code.now s ≡ updated (calculated (Operation.Clear block size)) (guarded v dag.now trees.old plan.now.code.now self)) }
    {
        let none: Vec<Id> = Vec::new(plan.alloc);
        let next = self.replaced(dag, trees, plan, block, 0, size as usize, &none)?;
        Ok(next)
    }

    /// The memory with the bytes of a block from an offset on, so many, copied to an offset of a block: their
    /// nodes are the same.
    pub fn with_bytes_copied(
        self,
        dag: &Dag,
        trees: &mut Trees,
        plan: &Plan,
        into: (usize, u32),
        from: (usize, u32),
        count: u32,
    ) -> Result<Slot, AllocError>
        requires slot { SlotOf plan.now dag.now trees.old self }
        requires into { is_within plan.now.code.now.blocks into.0 into.1 count ≡ true }
        requires from { is_within plan.now.code.now.blocks from.0 from.1 count ≡ true }
        ensures keeps { Keeps trees.old trees.new }
        ensures within { IfOk result (SlotIn dag.now trees.new plan.now.code.now) }
        ensures guarded { IfOk result (λ s. (v : ℕ → ℕ) → guarded v dag.now trees.new plan.now.code.now s ≡ updated (calculated (Operation.CopyBytes into.0 into.1 from.0 from.1 count)) (guarded v dag.now trees.old plan.now.code.now self)) }
    {
        let bytes = self.bytes(dag, trees, plan, from.0, from.1, count)?;
        let next = self.written(dag, trees, plan, into.0, into.1, &bytes)?;
        Ok(next)
    }

    /// The memory with so many bytes of a block, from the offset of a pointer on, in a block.
    pub fn with_bytes_taken(
        self,
        dag: &mut Dag,
        trees: &mut Trees,
        plan: &Plan,
        into: (usize, u32),
        from: (usize, u32),
        offset: usize,
        count: u32,
    ) -> Result<Slot, AllocError>
        requires slot { SlotOf plan.now dag.old trees.old self }
        requires offset { is_pointer plan.now.code.now.registers offset ≡ true }
        requires into { is_within plan.now.code.now.blocks into.0 into.1 count ≡ true }
        requires from { is_block plan.now.code.now.blocks from.0 from.1 ≡ true }
        ensures extends { Extends dag.old dag.new }
        ensures keeps { Keeps trees.old trees.new }
        ensures within { IfOk result (SlotIn dag.new trees.new plan.now.code.now) }
        ensures guarded { IfOk result (λ s. (v : ℕ → ℕ) → guarded v dag.new trees.new plan.now.code.now s ≡ updated (calculated (Operation.Take into.0 into.1 from.0 offset count from.1)) (guarded v dag.old trees.old plan.now.code.now self)) }
    {
        let pointer = self.number(dag, trees, plan, offset, IntegerType::UnsignedLong);
        let at = offset_of(dag, pointer)?;
        let block = self.bytes(dag, trees, plan, from.0, 0, from.1)?;
        let new = taken(plan.alloc, dag, &block, at, count)?;
        let next = self.written(dag, trees, plan, into.0, into.1, &new)?;
        Ok(next)
    }

    /// The memory with so many bytes of a block put into one that has `whole` of them, from the offset of a pointer on.
    pub fn with_bytes_put(
        self,
        dag: &mut Dag,
        trees: &mut Trees,
        plan: &Plan,
        into: (usize, u32),
        from: (usize, u32),
        offset: usize,
        count: u32,
    ) -> Result<Slot, AllocError>
        requires slot { SlotOf plan.now dag.old trees.old self }
        requires offset { is_pointer plan.now.code.now.registers offset ≡ true }
        requires into { is_block plan.now.code.now.blocks into.0 into.1 ≡ true }
        requires from { is_within plan.now.code.now.blocks from.0 from.1 count ≡ true }
        ensures extends { Extends dag.old dag.new }
        ensures keeps { Keeps trees.old trees.new }
        ensures within { IfOk result (SlotIn dag.new trees.new plan.now.code.now) }
        ensures guarded { IfOk result (λ s. (v : ℕ → ℕ) → guarded v dag.new trees.new plan.now.code.now s ≡ updated (calculated (Operation.Put into.0 offset from.0 from.1 count into.1)) (guarded v dag.old trees.old plan.now.code.now self)) }
    {
        let pointer = self.number(dag, trees, plan, offset, IntegerType::UnsignedLong);
        let at = offset_of(dag, pointer)?;
        let block = self.bytes(dag, trees, plan, into.0, 0, into.1)?;
        let new = self.bytes(dag, trees, plan, from.0, from.1, count)?;
        let whole = put(plan.alloc, dag, &block, at, &new)?;
        let next = self.written(dag, trees, plan, into.0, 0, &whole)?;
        Ok(next)
    }

    /// The memory with the first bytes of a block drawn, as many as a node says, in so many words; of the block `most` bytes
    /// are there or the node says fewer.
    pub fn with_words_drawn(
        self,
        dag: &mut Dag,
        trees: &mut Trees,
        plan: &Plan,
        block: usize,
        count: Id,
        most: u32,
        words: &[Id],
    ) -> Result<Slot, AllocError>
        requires slot { SlotOf plan.now dag.old trees.old self }
        requires block { is_within plan.now.code.now.blocks block 0 most ≡ true }
        requires count { IsWord dag.old count 64 }
        requires words { AreWords dag.old most words.now }
        ensures extends { Extends dag.old dag.new }
        ensures keeps { Keeps trees.old trees.new }
        ensures within { IfOk result (SlotIn dag.new trees.new plan.now.code.now) }
        ensures guarded { IfOk result (λ s. (v : ℕ → ℕ) → guarded v dag.new trees.new plan.now.code.now s ≡ updated (filled_first block (value v dag.old count) (bytes_of_words most (map (value v dag.old) words.now))) (guarded v dag.old trees.old plan.now.code.now self)) }
    {
        let new = bytes_of_words(plan.alloc, dag, words, most)?;
        let old = self.bytes(dag, trees, plan, block, 0, most)?;
        let bytes = first_of(plan.alloc, dag, count, &new, &old)?;
        let next = self.written(dag, trees, plan, block, 0, &bytes)?;
        Ok(next)
    }
}
