//! A run of flat code.

ghost use Rattle.std.specs.Prelude.{◌≡◌, ◌==◌, ◌+◌, ◌*◌, ◌<◌, ◌≤◌, ◌^◌, true, length, nat_lt, slice_get, IfOk, OnOk, OnErr, MatchOption};
ghost use Rattle.actions.specs.Behaviour.{shape_of, has_shape};
ghost use Rattle.c_values.specs.Variables.{low_bytes, put_bytes, word_count, drawn_count};
ghost use Rattle.goto_prog.specs.Meaning.{register, with_blocks, first_count, action_of, answered_with, own_class, calculated, check_class};
ghost use Rattle.goto_prog.specs.Fitting.{code_fits, is_there, is_pointer, check_fits, operation_fits};
ghost use Rattle.goto_prog.specs.Running.{begun, is_calculation, is_exchange};

use crate::code::{Condition, Instruction, Operation};
use crate::frame::Frame;
use crate::listing::Code;
use actions::{Action, Answer};
use std::alloc::{AllocError, Global};
use std::marker::Model;
use words::Class;

/// Code that runs: the place of the next instruction, the registers' words and the blocks' bytes.
#[derive(Drop)]
pub struct Runner<'a> {
    pub(crate) alloc: Global,
    pub(crate) functions: &'a [Code],
    pub(crate) code: &'a Code,
    pub(crate) strict: bool,
    pub(crate) place: usize,
    frame: Frame<'a>,
}

impl<'a> Model for Runner<'a> {
    ghost use Rattle.std.specs.Prelude.{◌≡◌, true};
    ghost use Rattle.goto_prog.specs.Fitting.{code_fits};
    ghost use Rattle.goto_prog.specs.Running.{Running};

    ghost Value = { Running };

    ghost view = { λ r. record { functions = r.functions.now; code = r.code.now; strict = r.strict; place = r.place; memory = r.frame.memory } };

    ghost invariant = { λ r. (code_fits r.code.now.registers r.code.now.blocks r.code.now.instructions ≡ true) × (r.frame.types ≡ r.code.now.registers) × (r.frame.sizes ≡ r.code.now.blocks) };
}

impl<'a> Runner<'a> {
    /// At the start of code.
    pub fn new(
        alloc: Global,
        functions: &'a [Code],
        code: &'a Code,
        strict: bool,
    ) -> Result<Runner<'a>, AllocError>
        ensures { IfOk result (λ r. r ≡ begun functions.now code.now strict) }
    {
        let frame = Frame::new(alloc, code.registers(), code.blocks())?;
        let _fits = code.instructions();
        Ok(Runner {
            alloc,
            functions,
            code,
            strict,
            place: 0,
            frame,
        })
    }

    /// Whether the word of a register is 0.
    pub fn is_zero(&self, from: usize) -> bool
        requires { is_there self.now.code.registers from ≡ true }
        ensures { result ≡ (register self.now.memory from == 0) }
    {
        self.frame.is_zero(from)
    }

    /// The action of an operation that makes one and goes on behind it.
    pub(crate) fn action(&self, operation: Operation) -> Result<Action, AllocError>
        requires exchange { is_exchange operation ≡ true }
        requires fits { operation_fits self.now.code.registers self.now.code.blocks 0 operation ≡ true }
        ensures { IfOk result (λ a. a ≡ action_of operation self.now.memory) }
    {
        self.frame.action(operation)
    }

    /// Takes the answer to it.
    pub(crate) fn take_answer(&mut self, operation: Operation, answer: &Answer)
        requires exchange { is_exchange operation ≡ true }
        requires fits { operation_fits self.old.code.registers self.old.code.blocks 0 operation ≡ true }
        requires shape { has_shape (shape_of (action_of operation self.old.memory)) answer.now ≡ true }
        ensures { self.new ≡ record self.old { memory = answered_with operation self.old.memory answer.now } }
    {
        self.frame.take_answer(operation, answer);
    }

    /// How many bits the next word has that is drawn for the first bytes of a block, as many as a register says, where so many
    /// words have been drawn; none where no word is left.
    pub(crate) fn next_word(&self, block: usize, count: usize, words: u32) -> Option<u32>
        requires block { nat_lt block (length self.now.code.blocks) ≡ true }
        requires count { is_pointer self.now.code.registers count ≡ true }
        ensures { MatchOption result (word_count (first_count self.now.memory block count) ≤ words) (λ bits. (words < word_count (first_count self.now.memory block count)) × (bits ≡ 8 * drawn_count (first_count self.now.memory block count) (8 * words)) × (1 ≤ bits) × (bits ≤ 64)) }
    {
        self.frame.next_word(block, count, words)
    }

    /// Takes the word that is next there.
    pub(crate) fn fill_word(&mut self, block: usize, count: usize, words: u32, bits: u64)
        requires block { nat_lt block (length self.old.code.blocks) ≡ true }
        requires count { is_pointer self.old.code.registers count ≡ true }
        requires more { words < word_count (first_count self.old.memory block count) }
        ensures is { self.new ≡ record self.old { memory = with_blocks self.old.memory (put_bytes self.old.memory.blocks block (8 * words) (low_bytes (drawn_count (first_count self.old.memory block count) (8 * words)) bits)) } }
        ensures same { first_count self.new.memory block count ≡ first_count self.old.memory block count }
        ensures few { words + 1 < 2 ^ 32 }
    {
        self.frame.fill_word(block, count, words, bits);
    }

    /// Sets the register or the block that an operation sets.
    pub fn calculate(&mut self, operation: Operation) -> Result<(), AllocError>
        requires calculation { is_calculation operation ≡ true }
        requires fits { operation_fits self.old.code.registers self.old.code.blocks 0 operation ≡ true }
        ensures ok { OnOk result (self.new ≡ record self.old { memory = calculated operation self.old.memory }) }
        ensures err { OnErr result (self.new ≡ self.old) }
    {
        self.frame.calculate(operation)?;
        Ok(())
    }

    /// The check that an operation of strict code breaks by itself.
    pub fn own_class(&self, operation: Operation) -> Option<Class>
        requires fits { operation_fits self.now.code.registers self.now.code.blocks 0 operation ≡ true }
        ensures { result ≡ own_class operation self.now.memory }
    {
        self.frame.own_class(operation)
    }

    /// The class that a check breaks, if it breaks one.
    pub fn condition_class(&self, condition: Condition) -> Option<Class>
        requires { check_fits self.now.code.registers condition ≡ true }
        ensures { result ≡ check_class condition self.now.memory }
    {
        self.frame.condition_class(condition)
    }

    /// The instruction at the place, if there is one.
    pub(crate) fn instruction(&self) -> Option<Instruction>
        ensures found { result ≡ slice_get self.now.code.instructions self.now.place }
        ensures fits { code_fits self.now.code.registers self.now.code.blocks self.now.code.instructions ≡ true }
    {
        self.code.instructions().get(self.place).copied()
    }

    /// Goes to the place behind `count` others.
    pub(crate) fn pass(&mut self, count: usize)
        requires { self.old.place + 1 + count ≤ length self.old.code.instructions }
        ensures { self.new ≡ record self.old { place = self.old.place + 1 + count } }
    {
        let _length = self.code.instructions().len();
        self.place = self.place + 1 + count;
    }

    /// Goes behind the last place.
    pub(crate) fn end(&mut self)
        ensures { self.new ≡ record self.old { place = length self.old.code.instructions } }
    {
        self.place = self.code.instructions().len();
    }
}
