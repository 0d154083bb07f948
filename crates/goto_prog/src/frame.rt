//! The registers and blocks of an activation, and what operations do with them.

ghost use Rattle.c_types.specs.Integers.{width, bytes};
ghost use Rattle.actions.specs.Behaviour.{shape_of, has_shape};
ghost use Rattle.actions.specs.Pointer as pointer;
ghost use Rattle.words.specs.Operators.{wrapped};
ghost use Rattle.c_values.specs.MadeObjects.{made_of};
ghost use Rattle.c_values.specs.Pointers.{pointer_at, offset_by, elements_between};
ghost use Rattle.c_values.specs.Variables.{block_of, first_variables, low_bytes, put_bytes, cleared, read_variable, word_count, drawn_count};
ghost use Rattle.core_tree.specs.Operations.{arithmetic_value, number, compared};
ghost use Rattle.core_tree.specs.Typed.{is_within};
ghost use Rattle.std.specs.Prelude.{[], ◌≡◌, ◌==◌, ◌+◌, ◌*◌, ◌<◌, ◌≤◌, ◌^◌, true, nat_le, nat_lt, length, drop, IfSome, MatchOption, map, slice_index_or, slice_set, IfOk, OnOk, OnErr, slice_get};
ghost use Rattle.c_values.specs.Numbers.{typed, are_operands_of};
ghost use Rattle.goto_prog.specs.Meaning.{given_by, filled, arguments_of, received, register, with_register, with_blocks, bytes_of, offset_moved, range_check, same_check, inside_check, taken_at, put_within, first_count, first_bytes, action_of, answered_with, own_class, calculated, check_class, return_check};
ghost use Rattle.goto_prog.specs.Fitting.{is_some_block, is_there, is_register, is_pointer, is_wide, has_bytes, is_block, check_fits, operation_fits};
ghost use Rattle.goto_prog.specs.Frames.{first_space};
ghost use Rattle.goto_prog.specs.Structured.{with_arguments};
ghost use Rattle.goto_prog.specs.Running.{is_calculation, is_exchange};

use crate::answers::{bytes_in, number_in, size_in, word_of};
use crate::block::Block;
use crate::code::{Condition, Operation};
use actions::{Action, Answer, Bytes, DrawBits, Object};
use c_types::IntegerType;
use c_values::{
    Number, broken_by, broken_sign, compare, drawn_count, elements_between, further, moved,
    object_of, offset_of, pointer_to, signed_value, value, word_count,
};
use core_tree::{ArithmeticOperator, Comparison, SignOperator};
use std::alloc::{AllocError, Global};
use std::marker::Model;
use words::Class;

/// The registers' words and the blocks' bytes of code that runs, with the registers' types and the blocks'
/// sizes.
#[derive(Drop)]
pub struct Frame<'a> {
    alloc: Global,
    types: &'a [IntegerType],
    sizes: &'a [u32],
    registers: Vec<u64>,
    blocks: Vec<Block>,
}

impl<'a> Model for Frame<'a> {
    ghost use Rattle.goto_prog.specs.Frames.{Working, IsWorking};

    ghost Value = { Working };

    ghost view = { λ s. record { types = s.types.now; sizes = s.sizes.now; memory = record { registers = s.registers.items; blocks = s.blocks.items } } };

    ghost invariant = { λ s. IsWorking (record { types = s.types.now; sizes = s.sizes.now; memory = record { registers = s.registers.items; blocks = s.blocks.items } }) };
}

impl<'a> Frame<'a> {
    /// Registers of these types and blocks of these sizes, with 0 everywhere.
    #[tactic(auto, using(crate::proofs::Registers::zeros_fit, crate::proofs::Blocks::first_sizes))]
    pub fn new(
        alloc: Global,
        types: &'a [IntegerType],
        sizes: &'a [u32],
    ) -> Result<Frame<'a>, AllocError>
        ensures { IfOk result (λ s. s ≡ first_space types.now sizes.now) }
    {
        let registers = zero_words(alloc, types)?;
        let blocks = zero_blocks(alloc, sizes)?;
        Ok(Frame {
            alloc,
            types,
            sizes,
            registers,
            blocks,
        })
    }

    /// The word of a register.
    #[tactic(auto, using(crate::proofs::Registers::word_there))]
    pub fn word(&self, from: usize) -> u64
        requires { is_there self.now.types from ≡ true }
        ensures { result ≡ register self.now.memory from }
    {
        self.registers[from]
    }

    /// Whether the word of a register is 0.
    pub fn is_zero(&self, from: usize) -> bool
        requires { is_there self.now.types from ≡ true }
        ensures { result ≡ (register self.now.memory from == 0) }
    {
        self.word(from) == 0
    }

    /// The number in a register of a type.
    #[tactic(auto, using(crate::proofs::Registers::register_there, crate::proofs::Registers::register_below))]
    pub fn number(&self, from: usize, type_: IntegerType) -> Number
        requires { is_register self.now.types from type_ ≡ true }
        ensures { result ≡ typed type_ (register self.now.memory from) }
    {
        Number::new(type_, self.registers[from])
    }

    /// The number of a type in a register that is as wide.
    #[tactic(auto, using(crate::proofs::Registers::wide_there))]
    pub fn number_of_width(&self, from: usize, type_: IntegerType) -> Number
        requires { is_wide self.now.types from type_ ≡ true }
        ensures { result ≡ typed type_ (register self.now.memory from) }
    {
        Number::new(type_, self.registers[from])
    }

    /// Sets a register to a number of its type.
    #[tactic(auto, using(crate::proofs::Registers::register_there, crate::proofs::Registers::register_set))]
    pub fn set(&mut self, into: usize, number: Number)
        requires { is_register self.old.types into number.type ≡ true }
        ensures { self.new ≡ record self.old { memory = with_register self.old.memory into number.bits } }
    {
        self.registers[into] = number.bits();
    }

    // The number of a type at an offset of a block.
    #[tactic(auto, using(crate::proofs::Blocks::block_there))]
    fn load(&self, block: usize, offset: u32, type_: IntegerType) -> Number
        requires { is_within self.now.sizes block offset (bytes type_) ≡ true }
        ensures { result ≡ typed type_ (read_variable self.now.memory.blocks block offset type_) }
    {
        self.blocks[block].number(offset, type_)
    }

    // Writes the lowest bytes of a register's word into a block.
    #[tactic(auto, using(crate::proofs::Blocks::block_there, crate::proofs::Blocks::block_room, crate::proofs::Blocks::sizes_put))]
    fn store(&mut self, block: usize, offset: u32, count: u32, from: usize)
        requires from { has_bytes self.old.types from count ≡ true }
        requires within { is_within self.old.sizes block offset count ≡ true }
        ensures { self.new ≡ record self.old { memory = with_blocks self.old.memory (put_bytes self.old.memory.blocks block offset (low_bytes count (register self.old.memory from))) } }
    {
        let bits = self.word(from);
        self.blocks[block].write(offset, count, bits);
    }

    // Sets each byte of a block to 0.
    #[tactic(auto, using(crate::proofs::Blocks::clear_there, crate::proofs::Blocks::zeros_of, crate::proofs::Blocks::sizes_cleared))]
    fn clear(&mut self, block: usize, size: u32)
        requires { is_block self.old.sizes block size ≡ true }
        ensures { self.new ≡ record self.old { memory = with_blocks self.old.memory (cleared self.old.memory.blocks block size) } }
    {
        self.blocks[block].clear();
    }

    // Writes bytes of a block into a block.
    #[tactic(auto, using(crate::proofs::Blocks::block_there, crate::proofs::Blocks::block_room, crate::proofs::Blocks::part_within, crate::proofs::Blocks::sizes_copied))]
    fn copy_bytes(
        &mut self,
        into: usize,
        at: u32,
        from: usize,
        offset: u32,
        count: u32,
    ) -> Result<(), AllocError>
        requires into { is_within self.old.sizes into at count ≡ true }
        requires from { is_within self.old.sizes from offset count ≡ true }
        ensures ok { OnOk result (self.new ≡ record self.old { memory = with_blocks self.old.memory (put_bytes self.old.memory.blocks into at (bytes_of self.old.memory.blocks from offset count)) }) }
        ensures err { OnErr result (self.new ≡ self.old) }
    {
        let part = self.blocks[from].part(self.alloc, offset, count)?;
        self.blocks[into].put(at, &part);
        Ok(())
    }

    /// A copy of so many bytes of a block, from an offset on.
    #[tactic(auto, using(crate::proofs::Blocks::block_there, crate::proofs::Blocks::block_room))]
    pub fn part(&self, block: usize, offset: u32, count: u32) -> Result<Vec<u8>, AllocError>
        requires { is_within self.now.sizes block offset count ≡ true }
        ensures { IfOk result (λ part. part.items ≡ bytes_of self.now.memory.blocks block offset count) }
    {
        self.blocks[block].part(self.alloc, offset, count)
    }

    /// A copy of a block's bytes, where one is named.
    #[tactic(auto, using(crate::proofs::Blocks::block_among))]
    pub fn value(&self, value: Option<usize>) -> Result<Option<Block>, AllocError>
        requires { is_some_block self.now.sizes value ≡ true }
        ensures { IfOk result (λ given. given ≡ given_by self.now.memory value) }
    {
        match value {
            Some(block) => Ok(Some(self.blocks[block].copied(self.alloc)?)),
            None => Ok(None),
        }
    }

    /// Puts as many of these bytes into a block as it has, from its first on.
    #[tactic(auto, using(crate::proofs::Blocks::block_among, crate::proofs::Blocks::sizes_filled))]
    pub fn fill(&mut self, into: usize, bytes: &Block)
        requires { nat_lt into (length self.old.sizes) ≡ true }
        ensures { self.new ≡ record self.old { memory = with_blocks self.old.memory (filled self.old.memory.blocks into bytes.now) } }
    {
        self.blocks[into].fill(bytes);
    }

    /// Puts the bytes of so many blocks of another, from one on, into the first blocks, as many as each has.
    pub fn take_arguments(&mut self, from: &Frame, first: usize, count: usize)
        requires zero { self.old.memory.blocks ≡ first_variables self.old.sizes }
        requires there { nat_le (first + count) (length from.now.sizes) ≡ true }
        ensures { self.new ≡ record self.old { memory = with_blocks self.old.memory (with_arguments self.old.sizes (arguments_of from.now.memory.blocks first count)) } }
    {
        for k in 0..count.min(self.sizes.len()) {
            self.fill(k, from.argument(first, count, k));
        }
    }

    // The bytes of the argument with this number, where so many lie in the blocks from one on.
    #[tactic(auto, using(crate::proofs::Entering::argument_room, crate::proofs::Entering::argument_among, crate::proofs::Entering::argument_at, crate::proofs::Entering::argument_given))]
    fn argument(&self, first: usize, count: usize, k: usize) -> &Block
        requires there { nat_le (first + count) (length self.now.sizes) ≡ true }
        requires within { k < count }
        ensures is { result.now ≡ slice_index_or (arguments_of self.now.memory.blocks first count) k [] }
        ensures given { k < length (arguments_of self.now.memory.blocks first count) }
    {
        let _length = self.sizes.len();
        self.block(first + k)
    }

    // The bytes of a block.
    #[tactic(auto, using(crate::proofs::Blocks::block_among))]
    fn block(&self, block: usize) -> &Block
        requires { nat_lt block (length self.now.sizes) ≡ true }
        ensures { result.now ≡ block_of self.now.memory.blocks block }
    {
        &self.blocks[block]
    }

    /// Takes what a call has handed over: its bytes into a block, and into a register whether there are any.
    pub fn receive(&mut self, into: usize, returned: usize, given: Option<Block>)
        requires into { nat_lt into (length self.old.sizes) ≡ true }
        requires returned { is_register self.old.types returned IntegerType.Int ≡ true }
        ensures { self.new ≡ record self.old { memory = received self.old.memory into returned given } }
    {
        match given {
            Some(bytes) => {
                self.fill(into, &bytes);
                self.set(returned, Number::of_truth(true));
            }
            None => self.set(returned, Number::of_truth(false)),
        }
    }

    /// Writes bytes into a block, from an offset on.
    #[tactic(auto, using(crate::proofs::Blocks::block_there, crate::proofs::Blocks::block_room, crate::proofs::Blocks::sizes_put_bytes))]
    pub fn put_bytes(&mut self, block: usize, at: u32, new: &[u8])
        requires { is_within self.old.sizes block at (length new.now) ≡ true }
        ensures { self.new ≡ record self.old { memory = with_blocks self.old.memory (put_bytes self.old.memory.blocks block at new.now) } }
    {
        self.blocks[block].put(at, new);
    }

    // Sets a register to a pointer, or to another number of its type.
    fn set_pointer(&mut self, into: usize, bits: u64)
        requires into { is_pointer self.old.types into ≡ true }
        requires bits { bits < 2 ^ 64 }
        ensures { self.new ≡ record self.old { memory = with_register self.old.memory into bits } }
    {
        self.set(into, Number::new(IntegerType::UnsignedLong, bits));
    }

    // The pointer in a register so many bytes further on for each 1 of an index.
    fn moved(&self, pointer: usize, index: usize, index_type: IntegerType, step: i64) -> u64
        requires pointer { is_pointer self.now.types pointer ≡ true }
        requires index { is_register self.now.types index index_type ≡ true }
        ensures is { result ≡ pointer_at (register self.now.memory pointer) (offset_moved self.now.memory pointer index index_type step) }
        ensures small { result < 2 ^ 64 }
    {
        moved_to(self.word(pointer), self.number(index, index_type), step)
    }

    // How many elements lie between two pointers.
    fn set_distance(&mut self, into: usize, left: usize, right: usize, step: u32)
        requires into { is_register self.old.types into IntegerType.Long ≡ true }
        requires left { is_pointer self.old.types left ≡ true }
        requires right { is_pointer self.old.types right ≡ true }
        requires step { 0 < step }
        ensures { self.new ≡ record self.old { memory = with_register self.old.memory into (elements_between (register self.old.memory left) (register self.old.memory right) step) } }
    {
        let count = elements_between(self.word(left), self.word(right), step);
        self.set(into, Number::new(IntegerType::Long, count));
    }

    // Whether the offsets of two pointers compare so.
    fn relates(&self, operator: Comparison, left: usize, right: usize) -> bool
        requires left { is_pointer self.now.types left ≡ true }
        requires right { is_pointer self.now.types right ≡ true }
        ensures { result ≡ compared operator IntegerType.UnsignedLong (pointer.offset_of (register self.now.memory left)) (pointer.offset_of (register self.now.memory right)) }
    {
        let first = offset_of(self.word(left)) as u64;
        let second = offset_of(self.word(right)) as u64;
        compare(
            operator,
            Number::new(IntegerType::UnsignedLong, first),
            Number::new(IntegerType::UnsignedLong, second),
        )
    }

    // Writes bytes of a block, from the offset of a pointer on, into a block.
    #[tactic(auto, using(crate::proofs::Blocks::block_there, crate::proofs::Blocks::block_among, crate::proofs::Blocks::taken_room, crate::proofs::Blocks::sizes_taken))]
    fn take_bytes(
        &mut self,
        into: usize,
        at: u32,
        from: usize,
        offset: usize,
        count: u32,
    ) -> Result<(), AllocError>
        requires into { is_within self.old.sizes into at count ≡ true }
        requires from { nat_lt from (length self.old.sizes) ≡ true }
        requires offset { is_pointer self.old.types offset ≡ true }
        ensures ok { OnOk result (self.new ≡ record self.old { memory = with_blocks self.old.memory (put_bytes self.old.memory.blocks into at (taken_at count (pointer.offset_of (register self.old.memory offset)) (block_of self.old.memory.blocks from))) }) }
        ensures err { OnErr result (self.new ≡ self.old) }
    {
        let start = offset_of(self.word(offset));
        let part = self.blocks[from].taken(self.alloc, start, count)?;
        self.blocks[into].put(at, &part);
        Ok(())
    }

    // Writes bytes of a block into a block, from the offset of a pointer on, as far as it has some.
    #[tactic(auto, using(crate::proofs::Blocks::block_there, crate::proofs::Blocks::block_room, crate::proofs::Blocks::block_among, crate::proofs::Blocks::sizes_within))]
    fn put_within(
        &mut self,
        into: usize,
        offset: usize,
        from: usize,
        at: u32,
        count: u32,
    ) -> Result<(), AllocError>
        requires into { nat_lt into (length self.old.sizes) ≡ true }
        requires from { is_within self.old.sizes from at count ≡ true }
        requires offset { is_pointer self.old.types offset ≡ true }
        ensures ok { OnOk result (self.new ≡ record self.old { memory = with_blocks self.old.memory (slice_set self.old.memory.blocks into (put_within (pointer.offset_of (register self.old.memory offset)) (bytes_of self.old.memory.blocks from at count) (block_of self.old.memory.blocks into))) }) }
        ensures err { OnErr result (self.new ≡ self.old) }
    {
        let start = offset_of(self.word(offset));
        let part = self.blocks[from].part(self.alloc, at, count)?;
        self.blocks[into].put_within(start, &part);
        Ok(())
    }

    // How many of the first bytes of a block a register says, at most all.
    fn first_count(&self, block: usize, count: usize) -> u32
        requires block { nat_lt block (length self.now.sizes) ≡ true }
        requires count { is_pointer self.now.types count ≡ true }
        ensures is { result ≡ first_count self.now.memory block count }
        ensures within { is_within self.now.sizes block 0 result ≡ true }
    {
        let _length = self.sizes.len();
        self.word(count).min(self.sizes[block] as u64) as u32
    }

    // A copy of these bytes.
    fn first_part(&self, block: usize, count: usize) -> Result<Vec<u8>, AllocError>
        requires block { nat_lt block (length self.now.sizes) ≡ true }
        requires count { is_pointer self.now.types count ≡ true }
        ensures { IfOk result (λ part. part.items ≡ first_bytes self.now.memory block count) }
    {
        let most = self.first_count(block, count);
        self.part(block, 0, most)
    }

    // The object that has these bytes.
    fn first_object(
        &self,
        block: usize,
        count: usize,
        readonly: bool,
        heap: bool,
    ) -> Result<Object, AllocError>
        requires block { nat_lt block (length self.now.sizes) ≡ true }
        requires count { is_pointer self.now.types count ≡ true }
        ensures { IfOk result (λ o. o ≡ made_of readonly heap (first_bytes self.now.memory block count)) }
    {
        let part = self.first_part(block, count)?;
        c_values::made_of(self.alloc, readonly, heap, Bytes::new(part))
    }

    /// How many bits the next word has that is drawn for the first bytes of a block, as many as a register says, where so many
    /// words have been drawn; none where no word is left.
    pub fn next_word(&self, block: usize, count: usize, words: u32) -> Option<u32>
        requires block { nat_lt block (length self.now.sizes) ≡ true }
        requires count { is_pointer self.now.types count ≡ true }
        ensures { MatchOption result (word_count (first_count self.now.memory block count) ≤ words) (λ bits. (words < word_count (first_count self.now.memory block count)) × (bits ≡ 8 * drawn_count (first_count self.now.memory block count) (8 * words)) × (1 ≤ bits) × (bits ≤ 64)) }
    {
        let size = self.first_count(block, count);
        if words < word_count(size) {
            Some(8 * drawn_count(size, 8 * words))
        } else {
            None
        }
    }

    /// Takes the word that is next there.
    #[tactic(auto, using(crate::proofs::Blocks::word_within, crate::proofs::Blocks::first_count_kept))]
    pub fn fill_word(&mut self, block: usize, count: usize, words: u32, bits: u64)
        requires block { nat_lt block (length self.old.sizes) ≡ true }
        requires count { is_pointer self.old.types count ≡ true }
        requires more { words < word_count (first_count self.old.memory block count) }
        ensures is { self.new ≡ record self.old { memory = with_blocks self.old.memory (put_bytes self.old.memory.blocks block (8 * words) (low_bytes (drawn_count (first_count self.old.memory block count) (8 * words)) bits)) } }
        ensures same { first_count self.new.memory block count ≡ first_count self.old.memory block count }
        ensures few { words + 1 < 2 ^ 32 }
    {
        let size = self.first_count(block, count);
        let offset = 8 * words;
        self.put_word(block, offset, drawn_count(size, offset), bits);
    }

    // Writes the lowest bytes of a word into a block.
    #[tactic(auto, using(crate::proofs::Blocks::block_there, crate::proofs::Blocks::block_room, crate::proofs::Blocks::sizes_put))]
    fn put_word(&mut self, block: usize, offset: u32, count: u32, word: u64)
        requires few { count ≤ 8 }
        requires within { is_within self.old.sizes block offset count ≡ true }
        ensures { self.new ≡ record self.old { memory = with_blocks self.old.memory (put_bytes self.old.memory.blocks block offset (low_bytes count word)) } }
    {
        self.blocks[block].write(offset, count, word);
    }

    /// The action of an operation that makes one and goes on behind it.
    pub fn action(&self, operation: Operation) -> Result<Action, AllocError>
        requires exchange { is_exchange operation ≡ true }
        requires fits { operation_fits self.now.types self.now.sizes 0 operation ≡ true }
        ensures { IfOk result (λ a. a ≡ action_of operation self.now.memory) }
    {
        match operation {
            Operation::Draw { bits, .. } => Ok(Action::Draw(DrawBits::new(bits))),
            Operation::ReadObject {
                object,
                offset,
                count,
                ..
            } => Ok(Action::Read(pointer_to(object, offset), count)),
            Operation::WriteObject {
                object,
                offset,
                block,
                at,
                count,
            } => {
                let bytes = Bytes::new(self.part(block, at, count)?);
                Ok(Action::Write(pointer_to(object, offset), bytes, false))
            }
            Operation::Read { pointer, count, .. } => Ok(Action::Read(self.word(pointer), count)),
            Operation::Write {
                pointer,
                block,
                at,
                count,
                first,
            } => {
                let bytes = Bytes::new(self.part(block, at, count)?);
                Ok(Action::Write(self.word(pointer), bytes, first))
            }
            Operation::Look {
                pointer,
                subscript,
                ..
            } => Ok(Action::Look(self.word(pointer), subscript)),
            Operation::Alloc {
                block,
                size,
                readonly,
                heap,
                ..
            } => Ok(Action::Alloc(self.first_object(block, size, readonly, heap)?)),
            Operation::Die { pointer } => Ok(Action::Die(object_of(self.word(pointer)))),
            Operation::Free { pointer } => Ok(Action::Free(self.word(pointer))),
            _ => unreachable!(),
        }
    }

    /// Takes the answer to it.
    pub fn take_answer(&mut self, operation: Operation, answer: &Answer)
        requires exchange { is_exchange operation ≡ true }
        requires fits { operation_fits self.old.types self.old.sizes 0 operation ≡ true }
        requires shape { has_shape (shape_of (action_of operation self.old.memory)) answer.now ≡ true }
        ensures { self.new ≡ record self.old { memory = answered_with operation self.old.memory answer.now } }
    {
        match operation {
            Operation::Draw { into, .. } => self.put(into, word_of(answer)),
            Operation::ReadObject { block, at, .. } => self.put_bytes(block, at, bytes_in(answer)),
            Operation::Read { block, at, .. } => self.put_bytes(block, at, bytes_in(answer)),
            Operation::Look { into, .. } => self.set_pointer(into, size_in(answer) as u64),
            Operation::Alloc { into, .. } => {
                self.set_pointer(into, pointer_to(number_in(answer), 0))
            }
            _ => {}
        }
    }

    // Sets a register to an operation's result.
    fn operate(&mut self, into: usize, operator: ArithmeticOperator, left: Number, right: Number)
        requires operands { are_operands_of operator left.type right.type ≡ true }
        requires into { is_register self.old.types into left.type ≡ true }
        ensures { self.new ≡ record self.old { memory = with_register self.old.memory into (arithmetic_value operator left.type left.bits right.bits) } }
    {
        self.set(into, value(operator, left, right));
    }

    // Sets a register to another's word.
    fn copy(&mut self, into: usize, from: usize)
        requires from { is_there self.old.types from ≡ true }
        requires into { is_register self.old.types into (slice_index_or self.old.types from IntegerType.Int) ≡ true }
        ensures { self.new ≡ record self.old { memory = with_register self.old.memory into (register self.old.memory from) } }
    {
        let type_ = self.types[from];
        let number = self.number(from, type_);
        self.set(into, number);
    }

    /// Sets a register to these bits.
    pub fn put(&mut self, into: usize, bits: u64)
        requires into { is_there self.old.types into ≡ true }
        requires bits { bits < 2 ^ width (slice_index_or self.old.types into IntegerType.Int) }
        ensures { self.new ≡ record self.old { memory = with_register self.old.memory into bits } }
    {
        let type_ = self.types[into];
        self.set(into, Number::new(type_, bits));
    }

    /// Sets the register or the block that an operation sets.
    pub fn calculate(&mut self, operation: Operation) -> Result<(), AllocError>
        requires calculation { is_calculation operation ≡ true }
        requires fits { operation_fits self.old.types self.old.sizes 0 operation ≡ true }
        ensures ok { OnOk result (self.new ≡ record self.old { memory = calculated operation self.old.memory }) }
        ensures err { OnErr result (self.new ≡ self.old) }
    {
        match operation {
            Operation::Constant { into, bits } => self.put(into, bits),
            Operation::Copy { into, operand } => self.copy(into, operand),
            Operation::Load {
                into,
                type_,
                block,
                offset,
            } => {
                let number = self.load(block, offset, type_);
                self.set(into, number);
            }
            Operation::Store {
                block,
                offset,
                count,
                operand,
            } => self.store(block, offset, count, operand),
            Operation::Clear { block, size } => self.clear(block, size),
            Operation::CopyBytes {
                into,
                at,
                from,
                offset,
                count,
            } => self.copy_bytes(into, at, from, offset, count)?,
            Operation::Convert {
                into,
                from,
                to,
                operand,
            } => {
                let number = self.number(operand, from).converted(to);
                self.set(into, number);
            }
            Operation::Sign {
                into,
                operator,
                type_,
                operand,
            } => {
                let number = signed_value(operator, self.number(operand, type_));
                self.set(into, number);
            }
            Operation::Arithmetic {
                into,
                operator,
                type_,
                right_type,
                left,
                right,
            } => {
                let a = self.number(left, type_);
                let b = self.number(right, right_type);
                self.operate(into, operator, a, b);
            }
            Operation::Compare {
                into,
                operator,
                type_,
                left,
                right,
            } => {
                let truth = compare(
                    operator,
                    self.number(left, type_),
                    self.number(right, type_),
                );
                self.set(into, Number::of_truth(truth));
            }
            Operation::IsZero { into, operand } => {
                let truth = self.word(operand) == 0;
                self.set(into, Number::of_truth(truth));
            }
            Operation::Move {
                into,
                pointer,
                index,
                index_type,
                step,
                ..
            } => {
                let bits = self.moved(pointer, index, index_type, step);
                self.set_pointer(into, bits);
            }
            Operation::Offset {
                into,
                pointer,
                count,
            } => {
                let bits = further(self.word(pointer), count);
                self.set_pointer(into, bits);
            }
            Operation::Distance {
                into,
                left,
                right,
                step,
            } => self.set_distance(into, left, right, step),
            Operation::Relate {
                into,
                operator,
                left,
                right,
            } => {
                let truth = self.relates(operator, left, right);
                self.set(into, Number::of_truth(truth));
            }
            Operation::Take {
                block,
                at,
                from,
                offset,
                count,
                ..
            } => self.take_bytes(block, at, from, offset, count)?,
            Operation::Put {
                block,
                offset,
                from,
                at,
                count,
                ..
            } => self.put_within(block, offset, from, at, count)?,
            Operation::Same { .. } => {}
            Operation::Skip { .. } => {}
            Operation::SkipIfZero { .. } => {}
            Operation::Check { .. } => {}
            Operation::Assert { .. } => {}
            Operation::Assume { .. } => {}
            Operation::Draw { .. } => {}
            Operation::ReadObject { .. } => {}
            Operation::WriteObject { .. } => {}
            Operation::Exit => {}
            Operation::Fail { .. } => {}
            Operation::Use { .. } => {}
            Operation::Call { .. } => {}
            Operation::Return { .. } => {}
            Operation::Read { .. } => {}
            Operation::Write { .. } => {}
            Operation::Look { .. } => {}
            Operation::Fill { .. } => {}
            Operation::Alloc { .. } => {}
            Operation::Die { .. } => {}
            Operation::Free { .. } => {}
            Operation::MayFail { .. } => {}
            Operation::Limit { .. } => {}
        }
        Ok(())
    }

    /// The check that an operation of strict code breaks by itself.
    pub fn own_class(&self, operation: Operation) -> Option<Class>
        requires fits { operation_fits self.now.types self.now.sizes 0 operation ≡ true }
        ensures { result ≡ own_class operation self.now.memory }
    {
        match operation {
            Operation::Sign {
                operator,
                type_,
                operand,
                ..
            } => { broken_sign(operator, self.number(operand, type_)) }
            Operation::Arithmetic {
                operator,
                type_,
                right_type,
                left,
                right,
                ..
            } => {
                broken_by(
                    operator,
                    self.number(left, type_),
                    self.number(right, right_type),
                )
            }
            Operation::Use { returned } => self.return_class(returned),
            Operation::Move {
                pointer,
                index,
                index_type,
                step,
                size,
                class,
                ..
            } => self.range_class((pointer, size), index, index_type, step, class),
            Operation::Same { left, right } => self.same_class(left, right),
            Operation::Take {
                offset,
                count,
                whole,
                ..
            } => self.inside_class(offset, count, whole),
            Operation::Put {
                offset,
                count,
                whole,
                ..
            } => self.inside_class(offset, count, whole),
            _ => None,
        }
    }

    // The class that a pointer breaks which leaves the size that a register has.
    fn range_class(
        &self,
        at: (usize, usize),
        index: usize,
        index_type: IntegerType,
        step: i64,
        class: Class,
    ) -> Option<Class>
        requires pointer { is_pointer self.now.types at.0 ≡ true }
        requires size { is_pointer self.now.types at.1 ≡ true }
        requires index { is_register self.now.types index index_type ≡ true }
        ensures { result ≡ range_check self.now.memory at.0 index index_type step at.1 class }
    {
        let size = self.word(at.1);
        match moved(self.word(at.0), self.number(index, index_type), step, size) {
            Some(_) => None,
            None => Some(class),
        }
    }

    // The class that two pointers to two objects break.
    fn same_class(&self, left: usize, right: usize) -> Option<Class>
        requires left { is_pointer self.now.types left ≡ true }
        requires right { is_pointer self.now.types right ≡ true }
        ensures { result ≡ same_check self.now.memory left right }
    {
        if object_of(self.word(left)) == object_of(self.word(right)) {
            None
        } else {
            Some(Class::Pointer)
        }
    }

    // The class that bytes break which aren't all there.
    fn inside_class(&self, offset: usize, count: u32, whole: u32) -> Option<Class>
        requires { is_pointer self.now.types offset ≡ true }
        ensures { result ≡ inside_check self.now.memory offset count whole }
    {
        if offset_of(self.word(offset)) as u64 + count as u64 <= whole as u64 {
            None
        } else {
            Some(Class::Bounds)
        }
    }

    // The class that a product breaks which is greater than the limit.
    fn limit_class(&self, left: usize, right: usize, most: u32) -> Option<Class>
        requires left { is_pointer self.now.types left ≡ true }
        requires right { is_pointer self.now.types right ≡ true }
        ensures { result ≡ check_class (Condition.AtMost left right most) self.now.memory }
    {
        if is_product_within(self.word(left), self.word(right), most) {
            None
        } else {
            Some(Class::MallocLimit)
        }
    }

    // Whether the call whose register this is handed something over: else the class that its use breaks.
    fn return_class(&self, returned: usize) -> Option<Class>
        requires { is_there self.now.types returned ≡ true }
        ensures { result ≡ return_check (register self.now.memory returned) }
    {
        if self.is_zero(returned) {
            Some(Class::Return)
        } else {
            None
        }
    }

    /// The class that a check breaks, if it breaks one.
    #[tactic(auto, using(crate::proofs::Registers::operands_same))]
    pub fn condition_class(&self, condition: Condition) -> Option<Class>
        requires { check_fits self.now.types condition ≡ true }
        ensures { result ≡ check_class condition self.now.memory }
    {
        match condition {
            Condition::Divisor { divisor } => {
                if self.word(divisor) == 0 {
                    Some(Class::Division)
                } else {
                    None
                }
            }
            Condition::Quotient { type_, left, right } => {
                let divisor = self.number_of_width(right, type_);
                if divisor.bits() == 0 {
                    None
                } else {
                    broken_by(
                        ArithmeticOperator::Divide,
                        self.number(left, type_),
                        divisor,
                    )
                }
            }
            Condition::Range {
                operator,
                type_,
                left,
                right,
            } => {
                broken_by(
                    operator,
                    self.number(left, type_),
                    self.number_of_width(right, type_),
                )
            }
            Condition::Negation { type_, operand } => {
                broken_sign(SignOperator::Minus, self.number(operand, type_))
            }
            Condition::Count {
                type_,
                count_type,
                count,
            } => broken_by(
                ArithmeticOperator::ShiftRight,
                Number::new(type_, 0),
                self.number(count, count_type),
            ),
            Condition::LeftShift {
                type_,
                count_type,
                left,
                count,
            } => broken_by(
                ArithmeticOperator::ShiftLeft,
                self.number(left, type_),
                self.number(count, count_type),
            ),
            Condition::Returned { returned } => self.return_class(returned),
            Condition::Within {
                pointer,
                index,
                index_type,
                step,
                size,
                class,
            } => self.range_class((pointer, size), index, index_type, step, class),
            Condition::SameObject { left, right } => self.same_class(left, right),
            Condition::Inside {
                offset,
                count,
                whole,
            } => self.inside_class(offset, count, whole),
            Condition::AtMost { left, right, most } => self.limit_class(left, right, most),
        }
    }
}

// The low 32 bits of a number.
fn low_half(value: Number) -> u32
    ensures { result ≡ wrapped 32 (number value.type value.bits) }
{
    value.converted(IntegerType::UnsignedInt).bits() as u32
}

// The low 32 bits of a step.
#[tactic(auto, using(crate::proofs::Distances::step_low))]
fn low_step(step: i64) -> u32
    ensures { result ≡ wrapped 32 step }
{
    (step.cast_unsigned() % 4_294_967_296) as u32
}

// A pointer so many bytes further on for each 1 of an index, with its offset modulo 2 ^ 32.
fn moved_to(at: u64, index: Number, step: i64) -> u64
    ensures is { result ≡ pointer_at at (offset_by (pointer.offset_of at) (number index.type index.bits) step) }
    ensures small { result < 2 ^ 64 }
{
    let _bits = index.bits();
    let factor = low_step(step);
    further(at, low_half(index).wrapping_mul(factor))
}

// Whether a product, as a whole number, is at most so much.
fn is_product_within(left: u64, right: u64, most: u32) -> bool
    ensures { result ≡ nat_le (left * right) most }
{
    left as u128 * right as u128 <= most as u128
}

// A 0 for each register.
#[tactic(auto, using(crate::proofs::Registers::replicate_map))]
fn zero_words(alloc: Global, types: &[IntegerType]) -> Result<Vec<u64>, AllocError>
    ensures { IfOk result (λ v. v.items ≡ map (λ t. 0) types.now) }
{
    Ok(vec![in alloc; 0; types.len()]?)
}

// Zero bytes for each block.
fn zero_blocks(alloc: Global, sizes: &[u32]) -> Result<Vec<Block>, AllocError>
    ensures { IfOk result (λ v. v.items ≡ first_variables sizes.now) }
{
    let mut blocks = Vec::new(alloc);
    for size in sizes {
        blocks.push(Block::new(alloc, *size)?)?;
    }
    Ok(blocks)
}
