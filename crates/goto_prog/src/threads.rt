//! The threads that a program starts.

ghost use Rattle.std.specs.Prelude.{◌≡◌, ◌<◌, ℕ, true, [], IfOk, slice_get, Some};
ghost use Rattle.actions.specs.Behaviour.{accepts, answered, started};
ghost use Rattle.c_values.specs.Variables.{word_count};
ghost use Rattle.goto_prog.specs.Meaning.{first_count};
ghost use Rattle.goto_prog.specs.Fitting.{code_fits};
ghost use Rattle.goto_prog.specs.CodeThread.{is_startable};
ghost use Rattle.goto_prog.specs.Running.{thread_of, acts, acts_on, is_act, is_exchange, goes_on_with, flow_thread, GoesOnWith};

use crate::answers::word_of;
use crate::code::{Instruction, Operation};
use crate::listing::Code;
use crate::runner::Runner;
use actions::{Answer, Next};
use std::alloc::AllocError;

impl<'a> Runner<'a> {
    /// Goes on to what is next.
    pub fn settle(&mut self) -> Result<Next, AllocError>
        ensures same { thread_of self.new ≡ thread_of self.old }
        ensures next { IfOk result (λ next. next ≡ (thread_of self.old).behaves []) }
        ensures acting { IfOk result (λ next. is_act next ≡ true → acts 0 (slice_get self.new.code.instructions self.new.place) self.new.memory ≡ true) }
    {
        loop {
            if let Some(next) = self.step()? {
                return Ok(next);
            }
        }
    }

    /// Goes on where so many words of the instruction at the place have been drawn, or this is next.
    pub fn draw_on(&mut self, words: u32) -> Option<Next>
        ensures { GoesOnWith words self.old self.new result }
    {
        match self.instruction() {
            Some(i) => self.draw_on_at(i, words),
            None => None,
        }
    }

    // The same, at the instruction.
    fn draw_on_at(&mut self, i: Instruction, words: u32) -> Option<Next>
        requires found { slice_get self.old.code.instructions self.old.place ≡ Some i }
        requires code { code_fits self.old.code.registers self.old.code.blocks self.old.code.instructions ≡ true }
        ensures { GoesOnWith words self.old self.new result }
    {
        match i.operation {
            Operation::Fill { block, count } => self.fill(i, block, count, words),
            _ => None,
        }
    }

    /// Takes the answer to the action that is next, where so many words of the instruction at the place have been drawn, and
    /// says how many have been then.
    pub fn receive(&mut self, answer: &Answer, words: u32) -> u32
        requires fits { accepts (goes_on_with words self.old []) answer.now ≡ true }
        requires acting { acts words (slice_get self.old.code.instructions self.old.place) self.old.memory ≡ true }
        ensures { flow_thread (record { runner = self.new; words = result }) ≡ answered (flow_thread (record { runner = self.old; words = words })) answer.now }
    {
        match self.instruction() {
            Some(i) => self.receive_at(i, answer, words),
            None => unreachable!(),
        }
    }

    // The same, at the instruction.
    fn receive_at(&mut self, i: Instruction, answer: &Answer, words: u32) -> u32
        requires found { slice_get self.old.code.instructions self.old.place ≡ Some i }
        requires code { code_fits self.old.code.registers self.old.code.blocks self.old.code.instructions ≡ true }
        requires fits { accepts (goes_on_with words self.old []) answer.now ≡ true }
        requires acting { acts_on words i.operation self.old.memory ≡ true }
        ensures { flow_thread (record { runner = self.new; words = result }) ≡ answered (flow_thread (record { runner = self.old; words = words })) answer.now }
    {
        match i.operation {
            Operation::Fill { block, count } => {
                self.receive_word(i, (block, count), words, answer)
            }
            Operation::Exit => self.finish(i, answer, words),
            _ => self.receive_answer(i, answer, words),
        }
    }

    // A word for a block.
    #[tactic(auto, using(crate::proofs::Stepping::fill_here, crate::proofs::Stepping::fill_count_here))]
    fn receive_word(
        &mut self,
        i: Instruction,
        into: (usize, usize),
        words: u32,
        answer: &Answer,
    ) -> u32
        requires found { slice_get self.old.code.instructions self.old.place ≡ Some i }
        requires code { code_fits self.old.code.registers self.old.code.blocks self.old.code.instructions ≡ true }
        requires is { i.operation ≡ Operation.Fill into.0 into.1 }
        requires more { words < word_count (first_count self.old.memory into.0 into.1) }
        requires fits { accepts (goes_on_with words self.old []) answer.now ≡ true }
        ensures { flow_thread (record { runner = self.new; words = result }) ≡ answered (flow_thread (record { runner = self.old; words = words })) answer.now }
    {
        self.fill_word(into.0, into.1, words, word_of(answer));
        words + 1
    }

    // The answer to one action.
    #[tactic(auto, using(crate::proofs::Stepping::exchange_here))]
    fn receive_answer(&mut self, i: Instruction, answer: &Answer, words: u32) -> u32
        requires found { slice_get self.old.code.instructions self.old.place ≡ Some i }
        requires code { code_fits self.old.code.registers self.old.code.blocks self.old.code.instructions ≡ true }
        requires exchange { is_exchange i.operation ≡ true }
        requires fits { accepts (goes_on_with words self.old []) answer.now ≡ true }
        ensures { flow_thread (record { runner = self.new; words = result }) ≡ answered (flow_thread (record { runner = self.old; words = words })) answer.now }
    {
        let _ = words;
        self.take_answer(i.operation, answer);
        self.pass(0);
        0
    }

    // The end of the process.
    fn finish(&mut self, i: Instruction, answer: &Answer, words: u32) -> u32
        requires found { slice_get self.old.code.instructions self.old.place ≡ Some i }
        requires is { i.operation ≡ Operation.Exit }
        requires fits { accepts (goes_on_with words self.old []) answer.now ≡ true }
        ensures { flow_thread (record { runner = self.new; words = result }) ≡ answered (flow_thread (record { runner = self.old; words = words })) answer.now }
    {
        let _ = words;
        self.end();
        0
    }

    /// A thread of the same program that starts in a function.
    pub fn started(&self, function: u32) -> Result<Runner<'a>, AllocError>
        requires { is_startable (slice_get self.now.functions function) ≡ true }
        ensures { IfOk result (λ r. (v : ℕ) → thread_of r ≡ started (thread_of self.now) function v) }
    {
        match self.functions.get(function as usize) {
            Some(code) => Runner::new(self.alloc, self.functions, code, self.strict),
            None => unreachable!(),
        }
    }
}
