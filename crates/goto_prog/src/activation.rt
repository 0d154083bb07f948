//! The activation of a function: where its code stands, and its registers and blocks.

ghost use Rattle.std.specs.Prelude.{[], ◌≡◌, ◌==◌, ◌+◌, ◌*◌, ◌≤◌, ◌<◌, ◌^◌, nat_le, nat_lt, length, true, IfOk, OnErr, OnOk, MatchOption, Some, None, if◌then◌else◌, option_map};
ghost use Rattle.goto_prog.specs.Meaning.{arguments_of, received, first_count, action_of, answered_with, own_class, given_by, register, with_blocks};
ghost use Rattle.goto_prog.specs.Fitting.{is_there, is_register, is_pointer, operation_fits};
ghost use Rattle.goto_prog.specs.Nodes.{nodes_of, repeats, routine_fits, view_procedure};
ghost use Rattle.goto_prog.specs.Running.{is_calculation, is_exchange, asks_bounds, acts, acts_on};
ghost use Rattle.goto_prog.specs.ProgramViews.{bounded_by};
ghost use Rattle.goto_prog.specs.Walking.{next_place, landed, place_total, place_fits, next_instruction, stepped_over, entry, lone_on, IsReceived, nodes_behind, first_level, next_round, into_loop, Stops, StepsOn};
ghost use Rattle.goto_prog.specs.Activations.{Steps};
ghost use Rattle.goto_prog.specs.Kinds.{IsFirst};
ghost use Rattle.actions.specs.Behaviour.{shape_of, has_shape, accepts};
ghost use Rattle.c_values.specs.Variables.{low_bytes, put_bytes, word_count, drawn_count};
ghost use Rattle.goto_prog.specs.CursorViews.{level_of};

use crate::answers::word_of;
use crate::block::Block;
use crate::code::{Condition, Instruction, Operation};
use crate::cursor::{Cursor, LoopLevel};
use crate::frame::Frame;
use crate::nodes::{Kind, Node, Procedure};
use crate::program::Program;
use actions::{Action, Answer, DrawBits, Next};
use c_types::IntegerType;
use std::alloc::{AllocError, Global};
use std::marker::Model;
use words::Class;

/// A function that runs: where it stands, and its registers and blocks.
#[derive(Drop)]
pub struct Activation<'a> {
    place: Cursor<'a>,
    frame: Frame<'a>,
}

impl<'a> Model for Activation<'a> {
    ghost use Rattle.goto_prog.specs.Walking as walking;
    ghost use Rattle.std.specs.Coded.{codes};
    ghost use Rattle.goto_prog.specs.contracts.nodes.Node as node;

    ghost Value = { walking.Activation };

    ghost coded = { Prim.hlevel (codes, node.the_row.coded) };

    ghost view = { λ a. record { place = a.place; working = a.frame } };

    ghost invariant = { λ a. walking.IsActivation (record { place = a.place; working = a.frame }) };
}

/// A call of a function: where it stands, the blocks with its arguments, and where what the function hands
/// over is put.
#[derive(Clone, Copy)]
pub struct CallPlan {
    pub instruction: Instruction,
    pub callee: u32,
    pub first: usize,
    pub count: usize,
    pub into: usize,
    pub returned: usize,
}

/// What a step does: it goes on, something is next, a function is called, or the function ends and hands
/// something over.
#[derive(Drop)]
pub enum Stepped {
    GoesOn,
    Stops(Next),
    Calls(CallPlan),
    HandsOver(Option<Block>),
}

/// What an answer does: it goes on, the process has ended, or so many words of an instruction have been drawn.
#[derive(Clone, Copy)]
pub enum Received {
    GoesOn,
    Ends,
    Draws(u32),
}

impl<'a> Activation<'a> {
    // Goes past the next place, and to the place behind `count` others.
    #[tactic(auto, using(crate::proofs::Places::fits_next, crate::proofs::Places::fits_landed))]
    fn advance(&mut self, count: usize)
        ensures { self.new ≡ record self.old { place = landed count (next_place self.old.place) } }
    {
        self.place.advance(count);
    }

    // Whether the word of a register is 0.
    fn is_zero(&self, from: usize) -> bool
        requires { is_there self.now.working.types from ≡ true }
        ensures { result ≡ (register self.now.working.memory from == 0) }
    {
        self.frame.is_zero(from)
    }

    // An instruction that sets a register or a block.
    #[tactic(auto, using(crate::proofs::WalkFits::calculation_here, crate::proofs::WalkSteps::goes_calculated, crate::proofs::WalkSteps::stops_calculated))]
    fn calculation(&mut self, program: &Program<'a>, i: Instruction) -> Result<Stepped, AllocError>
        requires found { next_instruction (bounded_by program.now) self.old.place.nodes ≡ Some i }
        requires fits { operation_fits self.old.working.types self.old.working.sizes (place_total (next_place self.old.place)) i.operation ≡ true }
        requires calculation { is_calculation i.operation ≡ true }
        ensures steps { IfOk result (Steps (bounded_by program.now) self.old self.new) }
        ensures err { OnErr result (self.new ≡ self.old) }
    {
        if let Some(class) = self.broken_calculation(program, i) {
            return Ok(Stepped::Stops(Next::Broken(class, i.line, i.function)));
        }
        self.frame.calculate(i.operation)?;
        self.advance(0);
        Ok(Stepped::GoesOn)
    }

    // The check that it breaks by itself in strict code.
    #[tactic(auto, using(crate::proofs::WalkFits::calculation_here))]
    fn broken_calculation(&self, program: &Program<'a>, i: Instruction) -> Option<Class>
        requires found { next_instruction (bounded_by program.now) self.now.place.nodes ≡ Some i }
        requires fits { operation_fits self.now.working.types self.now.working.sizes (place_total (next_place self.now.place)) i.operation ≡ true }
        requires calculation { is_calculation i.operation ≡ true }
        ensures { result ≡ (if (program.now).strict then own_class i.operation self.now.working.memory else None) }
    {
        if program.strict {
            self.frame.own_class(i.operation)
        } else {
            None
        }
    }

    // An explicit check.
    #[tactic(auto, using(crate::proofs::WalkFits::check_here, crate::proofs::WalkSteps::goes_check, crate::proofs::WalkSteps::stops_check))]
    fn check(&mut self, program: &Program<'a>, i: Instruction, condition: Condition) -> Stepped
        requires found { next_instruction (bounded_by program.now) self.old.place.nodes ≡ Some i }
        requires fits { operation_fits self.old.working.types self.old.working.sizes (place_total (next_place self.old.place)) i.operation ≡ true }
        requires is { i.operation ≡ Operation.Check condition }
        ensures { Steps (bounded_by program.now) self.old self.new result }
    {
        let _ = program;
        match self.frame.condition_class(condition) {
            Some(class) => Stepped::Stops(Next::Broken(class, i.line, i.function)),
            None => {
                self.advance(0);
                Stepped::GoesOn
            }
        }
    }

    // An assertion.
    #[tactic(auto, using(crate::proofs::WalkFits::assert_here, crate::proofs::WalkSteps::goes_assert, crate::proofs::WalkSteps::stops_assert))]
    fn assertion(&mut self, program: &Program<'a>, i: Instruction, operand: usize) -> Stepped
        requires found { next_instruction (bounded_by program.now) self.old.place.nodes ≡ Some i }
        requires fits { operation_fits self.old.working.types self.old.working.sizes (place_total (next_place self.old.place)) i.operation ≡ true }
        requires is { i.operation ≡ Operation.Assert operand }
        ensures { Steps (bounded_by program.now) self.old self.new result }
    {
        let _ = program;
        if self.is_zero(operand) {
            Stepped::Stops(Next::Broken(Class::Assertion, i.line, i.function))
        } else {
            self.advance(0);
            Stepped::GoesOn
        }
    }

    // An assumption.
    #[tactic(auto, using(crate::proofs::WalkFits::assume_here, crate::proofs::WalkSteps::goes_assume, crate::proofs::WalkSteps::stops_assume))]
    fn assumption(&mut self, program: &Program<'a>, i: Instruction, operand: usize) -> Stepped
        requires found { next_instruction (bounded_by program.now) self.old.place.nodes ≡ Some i }
        requires fits { operation_fits self.old.working.types self.old.working.sizes (place_total (next_place self.old.place)) i.operation ≡ true }
        requires is { i.operation ≡ Operation.Assume operand }
        ensures { Steps (bounded_by program.now) self.old self.new result }
    {
        let _ = program;
        if self.is_zero(operand) {
            Stepped::Stops(Next::Blocked)
        } else {
            self.advance(0);
            Stepped::GoesOn
        }
    }

    // A jump.
    #[tactic(auto, using(crate::proofs::WalkFits::skip_here, crate::proofs::WalkSteps::goes_skip))]
    fn skip(&mut self, program: &Program<'a>, i: Instruction, count: usize) -> Stepped
        requires found { next_instruction (bounded_by program.now) self.old.place.nodes ≡ Some i }
        requires fits { operation_fits self.old.working.types self.old.working.sizes (place_total (next_place self.old.place)) i.operation ≡ true }
        requires is { i.operation ≡ Operation.Skip count }
        ensures { Steps (bounded_by program.now) self.old self.new result }
    {
        let _ = program;
        self.advance(count);
        Stepped::GoesOn
    }

    // A jump where a register is 0.
    #[tactic(auto, using(crate::proofs::WalkFits::zero_there, crate::proofs::WalkFits::zero_here, crate::proofs::WalkSteps::goes_zero, crate::proofs::WalkSteps::goes_other))]
    fn skip_if_zero(
        &mut self,
        program: &Program<'a>,
        i: Instruction,
        operand: usize,
        count: usize,
    ) -> Stepped
        requires found { next_instruction (bounded_by program.now) self.old.place.nodes ≡ Some i }
        requires fits { operation_fits self.old.working.types self.old.working.sizes (place_total (next_place self.old.place)) i.operation ≡ true }
        requires is { i.operation ≡ Operation.SkipIfZero operand count }
        ensures { Steps (bounded_by program.now) self.old self.new result }
    {
        let _ = program;
        if self.is_zero(operand) {
            self.advance(count);
            return Stepped::GoesOn;
        }
        self.advance(0);
        Stepped::GoesOn
    }

    // A call: it goes on behind it with what the function hands over.
    #[tactic(auto, using(crate::proofs::WalkSteps::calls_here))]
    fn call(&self, program: &Program<'a>, plan: CallPlan) -> Stepped
        requires found { next_instruction (bounded_by program.now) self.now.place.nodes ≡ Some plan.instruction }
        requires fits { operation_fits self.now.working.types self.now.working.sizes (place_total (next_place self.now.place)) plan.instruction.operation ≡ true }
        requires is { plan.instruction.operation ≡ Operation.Call plan.callee plan.first plan.count plan.into plan.returned }
        ensures { Steps (bounded_by program.now) self.now self.now result }
    {
        let _ = program;
        Stepped::Calls(plan)
    }

    // The end of the function, which hands over the bytes of a block, or nothing.
    #[tactic(auto, using(crate::proofs::WalkFits::value_here, crate::proofs::WalkSteps::hands_here))]
    fn return_value(
        &self,
        program: &Program<'a>,
        i: Instruction,
        value: Option<usize>,
    ) -> Result<Stepped, AllocError>
        requires found { next_instruction (bounded_by program.now) self.now.place.nodes ≡ Some i }
        requires fits { operation_fits self.now.working.types self.now.working.sizes (place_total (next_place self.now.place)) i.operation ≡ true }
        requires is { i.operation ≡ Operation.Return value }
        ensures { IfOk result (Steps (bounded_by program.now) self.now self.now) }
    {
        let _ = program;
        let _ = i;
        Ok(Stepped::HandsOver(self.frame.value(value)?))
    }

    // The instruction that is next.
    fn perform(&mut self, program: &Program<'a>, i: Instruction) -> Result<Stepped, AllocError>
        requires found { next_instruction (bounded_by program.now) self.old.place.nodes ≡ Some i }
        requires fits { operation_fits self.old.working.types self.old.working.sizes (place_total (next_place self.old.place)) i.operation ≡ true }
        ensures steps { IfOk result (Steps (bounded_by program.now) self.old self.new) }
        ensures err { OnErr result (self.new ≡ self.old) }
    {
        match i.operation {
            Operation::Skip { count } => Ok(self.skip(program, i, count)),
            Operation::SkipIfZero { operand, count } => {
                Ok(self.skip_if_zero(program, i, operand, count))
            }
            Operation::Check { condition } => Ok(self.check(program, i, condition)),
            Operation::Assert { operand } => Ok(self.assertion(program, i, operand)),
            Operation::Assume { operand } => Ok(self.assumption(program, i, operand)),
            Operation::Call {
                callee,
                first,
                count,
                into,
                returned,
            } => {
                let plan = CallPlan {
                    instruction: i,
                    callee,
                    first,
                    count,
                    into,
                    returned,
                };
                Ok(self.call(program, plan))
            }
            Operation::Return { value } => self.return_value(program, i, value),
            Operation::Fail { class } => { Ok(Stepped::Stops(self.fail(program, i, class))) }
            Operation::Draw { .. } => self.stop(program, i),
            Operation::ReadObject { .. } => self.stop(program, i),
            Operation::WriteObject { .. } => self.stop(program, i),
            Operation::Read { .. } => self.stop(program, i),
            Operation::Write { .. } => self.stop(program, i),
            Operation::Look { .. } => self.stop(program, i),
            Operation::Alloc { .. } => self.stop(program, i),
            Operation::Die { .. } => self.stop(program, i),
            Operation::Free { .. } => self.stop(program, i),
            Operation::Fill { block, count } => Ok(self.begin_fill(program, i, block, count)),
            Operation::Exit => Ok(Stepped::Stops(self.exit(program, i))),
            Operation::MayFail { .. } => Ok(Stepped::Stops(self.unbounded(program, i))),
            Operation::Limit { .. } => Ok(Stepped::Stops(self.unbounded(program, i))),
            Operation::Constant { .. } => self.calculation(program, i),
            Operation::Copy { .. } => self.calculation(program, i),
            Operation::Load { .. } => self.calculation(program, i),
            Operation::Store { .. } => self.calculation(program, i),
            Operation::Clear { .. } => self.calculation(program, i),
            Operation::CopyBytes { .. } => self.calculation(program, i),
            Operation::Convert { .. } => self.calculation(program, i),
            Operation::Sign { .. } => self.calculation(program, i),
            Operation::Arithmetic { .. } => self.calculation(program, i),
            Operation::Compare { .. } => self.calculation(program, i),
            Operation::IsZero { .. } => self.calculation(program, i),
            Operation::Use { .. } => self.calculation(program, i),
            Operation::Move { .. } => self.calculation(program, i),
            Operation::Offset { .. } => self.calculation(program, i),
            Operation::Same { .. } => self.calculation(program, i),
            Operation::Distance { .. } => self.calculation(program, i),
            Operation::Relate { .. } => self.calculation(program, i),
            Operation::Take { .. } => self.calculation(program, i),
            Operation::Put { .. } => self.calculation(program, i),
        }
    }

    // A break of a class is next.
    #[tactic(auto, using(crate::proofs::WalkSteps::stops_fail))]
    fn fail(&self, program: &Program<'a>, i: Instruction, class: Class) -> Next
        requires found { next_instruction (bounded_by program.now) self.now.place.nodes ≡ Some i }
        requires is { i.operation ≡ Operation.Fail class }
        ensures { Stops (bounded_by program.now) self.now self.now result }
    {
        let _ = program;
        Next::Broken(class, i.line, i.function)
    }

    // Without bounds nothing is next.
    #[tactic(auto, using(crate::proofs::WalkSteps::stops_unbounded))]
    fn unbounded(&self, program: &Program<'a>, i: Instruction) -> Next
        requires found { next_instruction (bounded_by program.now) self.now.place.nodes ≡ Some i }
        requires asks { asks_bounds i.operation ≡ true }
        ensures { Stops (bounded_by program.now) self.now self.now result }
    {
        let _ = program;
        let _ = i;
        Next::Blocked
    }

    // The action of an operation that makes one and goes on behind it.
    fn action(&self, operation: Operation) -> Result<Action, AllocError>
        requires exchange { is_exchange operation ≡ true }
        requires fits { operation_fits self.now.working.types self.now.working.sizes 0 operation ≡ true }
        ensures { IfOk result (λ a. a ≡ action_of operation self.now.working.memory) }
    {
        self.frame.action(operation)
    }

    // Takes the answer to it.
    fn take_answer(&mut self, operation: Operation, answer: &Answer)
        requires exchange { is_exchange operation ≡ true }
        requires fits { operation_fits self.old.working.types self.old.working.sizes 0 operation ≡ true }
        requires shape { has_shape (shape_of (action_of operation self.old.working.memory)) answer.now ≡ true }
        ensures { self.new ≡ record self.old { working = record self.old.working { memory = answered_with operation self.old.working.memory answer.now } } }
    {
        self.frame.take_answer(operation, answer);
    }

    // How many bits the next word has that is drawn for the first bytes of a block, as many as a register says, where so many
    // words have been drawn; none where no word is left.
    fn next_word(&self, block: usize, count: usize, words: u32) -> Option<u32>
        requires block { nat_lt block (length self.now.working.sizes) ≡ true }
        requires count { is_pointer self.now.working.types count ≡ true }
        ensures { MatchOption result (word_count (first_count self.now.working.memory block count) ≤ words) (λ bits. (words < word_count (first_count self.now.working.memory block count)) × (bits ≡ 8 * drawn_count (first_count self.now.working.memory block count) (8 * words)) × (1 ≤ bits) × (bits ≤ 64)) }
    {
        self.frame.next_word(block, count, words)
    }

    // Takes the word that is next there.
    fn fill_word(&mut self, block: usize, count: usize, words: u32, bits: u64)
        requires block { nat_lt block (length self.old.working.sizes) ≡ true }
        requires count { is_pointer self.old.working.types count ≡ true }
        requires more { words < word_count (first_count self.old.working.memory block count) }
        ensures is { self.new ≡ record self.old { working = record self.old.working { memory = with_blocks self.old.working.memory (put_bytes self.old.working.memory.blocks block (8 * words) (low_bytes (drawn_count (first_count self.old.working.memory block count) (8 * words)) bits)) } } }
        ensures same { first_count self.new.working.memory block count ≡ first_count self.old.working.memory block count }
        ensures few { words + 1 < 2 ^ 32 }
    {
        self.frame.fill_word(block, count, words, bits);
    }

    // An action is next.
    #[tactic(auto, using(crate::proofs::WalkFits::exchange_here, crate::proofs::WalkSteps::stops_exchange))]
    fn stop(&self, program: &Program<'a>, i: Instruction) -> Result<Stepped, AllocError>
        requires found { next_instruction (bounded_by program.now) self.now.place.nodes ≡ Some i }
        requires fits { operation_fits self.now.working.types self.now.working.sizes (place_total (next_place self.now.place)) i.operation ≡ true }
        requires exchange { is_exchange i.operation ≡ true }
        ensures { IfOk result (Steps (bounded_by program.now) self.now self.now) }
    {
        let _ = program;
        let action = self.action(i.operation)?;
        Ok(Stepped::Stops(Next::Act(action, i.line, i.function)))
    }

    // The next word for a block, of which so many have been drawn; where none is left it goes on.
    #[tactic(auto, using(crate::proofs::WalkFits::fill_here, crate::proofs::WalkFits::fill_count_here))]
    fn fill(
        &mut self,
        program: &Program<'a>,
        i: Instruction,
        into: (usize, usize),
        words: u32,
    ) -> Option<Next>
        requires found { next_instruction (bounded_by program.now) self.old.place.nodes ≡ Some i }
        requires fits { operation_fits self.old.working.types self.old.working.sizes (place_total (next_place self.old.place)) i.operation ≡ true }
        requires is { i.operation ≡ Operation.Fill into.0 into.1 }
        ensures { MatchOption result ((word_count (first_count self.old.working.memory into.0 into.1) ≤ words) × (self.new ≡ record self.old { place = landed 0 (next_place self.old.place) })) (λ n. (words < word_count (first_count self.old.working.memory into.0 into.1)) × (n ≡ Next.Act (Action.Draw (8 * drawn_count (first_count self.old.working.memory into.0 into.1) (8 * words))) i.line i.function) × (self.new ≡ self.old)) }
    {
        let _ = program;
        match self.next_word(into.0, into.1, words) {
            Some(bits) => Some(Next::Act(Action::Draw(DrawBits::new(bits)), i.line, i.function)),
            None => {
                self.advance(0);
                None
            }
        }
    }

    // The first word for a block.
    fn begin_fill(
        &mut self,
        program: &Program<'a>,
        i: Instruction,
        block: usize,
        count: usize,
    ) -> Stepped
        requires found { next_instruction (bounded_by program.now) self.old.place.nodes ≡ Some i }
        requires fits { operation_fits self.old.working.types self.old.working.sizes (place_total (next_place self.old.place)) i.operation ≡ true }
        requires is { i.operation ≡ Operation.Fill block count }
        ensures { Steps (bounded_by program.now) self.old self.new result }
    {
        match self.fill(program, i, (block, count), 0) {
            Some(next) => Stepped::Stops(next),
            None => Stepped::GoesOn,
        }
    }

    // A further word for a block.
    fn fill_on(
        &mut self,
        program: &Program<'a>,
        i: Instruction,
        into: (usize, usize),
        words: u32,
    ) -> Option<Next>
        requires found { next_instruction (bounded_by program.now) self.old.place.nodes ≡ Some i }
        requires fits { operation_fits self.old.working.types self.old.working.sizes (place_total (next_place self.old.place)) i.operation ≡ true }
        requires is { i.operation ≡ Operation.Fill into.0 into.1 }
        ensures { StepsOn (bounded_by program.now) words self.old self.new result }
    {
        self.fill(program, i, into, words)
    }

    /// Goes on where so many words of the instruction that is next have been drawn, or this is next.
    pub fn draw_on(&mut self, program: &Program<'a>, words: u32) -> Option<Next>
        ensures { StepsOn (bounded_by program.now) words self.old self.new result }
    {
        match self.first() {
            Some(Kind::Plain(i)) => self.draw_on_at(program, program.resolved(i), words),
            Some(Kind::Loop { .. }) => None,
            None => None,
        }
    }

    // The same, at the instruction.
    fn draw_on_at(&mut self, program: &Program<'a>, i: Instruction, words: u32) -> Option<Next>
        requires found { next_instruction (bounded_by program.now) self.old.place.nodes ≡ Some i }
        requires fits { operation_fits self.old.working.types self.old.working.sizes (place_total (next_place self.old.place)) i.operation ≡ true }
        ensures { StepsOn (bounded_by program.now) words self.old self.new result }
    {
        match i.operation {
            Operation::Fill { block, count } => self.fill_on(program, i, (block, count), words),
            _ => None,
        }
    }

    // The end of the process is next.
    #[tactic(auto, using(crate::proofs::WalkSteps::stops_exit))]
    fn exit(&self, program: &Program<'a>, i: Instruction) -> Next
        requires found { next_instruction (bounded_by program.now) self.now.place.nodes ≡ Some i }
        requires is { i.operation ≡ Operation.Exit }
        ensures { Stops (bounded_by program.now) self.now self.now result }
    {
        let _ = program;
        Next::Act(Action::Exit, i.line, i.function)
    }

    // Goes to the end of a round of a loop that is next, which may have so many more.
    #[tactic(auto, using(crate::proofs::LoopSteps::fits_into))]
    fn enter(
        &mut self,
        line: u32,
        function: u32,
        number: u32,
        rotated: bool,
        left: u32,
        nodes: &'a [Node],
    ) -> Result<(), AllocError>
        requires is { nodes_of self.old.place.nodes ≡ repeats line function number rotated (nodes_of nodes.now) (nodes_of (nodes_behind self.old.place.nodes)) }
        ensures ok { OnOk result (self.new ≡ record self.old { place = into_loop line function left nodes.now self.old.place }) }
        ensures err { OnErr result (self.new ≡ self.old) }
    {
        let _ = number;
        let _ = rotated;
        self.place.enter(line, function, left, nodes)?;
        Ok(())
    }

    // The innermost loop around the place, if there is one.
    fn level(&self) -> Option<LoopLevel<'a>>
        ensures { option_map level_of result ≡ first_level self.now.place.levels }
    {
        self.place.level()
    }

    // Goes to the first node of another round of the innermost loop.
    #[tactic(auto, using(crate::proofs::Places::fits_next_round))]
    fn again(&mut self)
        ensures { self.new ≡ record self.old { place = next_round self.old.place } }
    {
        self.place.again();
    }

    // Goes to the end of a round of the loop that is next, as its bound says.
    fn enter_loop(
        &mut self,
        program: &Program<'a>,
        line: u32,
        function: u32,
        number: u32,
        rotated: bool,
        nodes: &'a [Node],
    ) -> Result<Stepped, AllocError>
        requires is { nodes_of self.old.place.nodes ≡ repeats line function number rotated (nodes_of nodes.now) (nodes_of (nodes_behind self.old.place.nodes)) }
        ensures steps { IfOk result (Steps (bounded_by program.now) self.old self.new) }
        ensures err { OnErr result (self.new ≡ self.old) }
    {
        let left = program.round_count(rotated, function, number);
        self.enter(line, function, number, rotated, left, nodes)?;
        Ok(Stepped::GoesOn)
    }

    // Goes on where no node is left: with another round of the innermost loop, or to the end of the function.
    fn end_round(&mut self, program: &Program<'a>) -> Stepped
        requires { self.old.place.nodes ≡ [] }
        ensures { Steps (bounded_by program.now) self.old self.new result }
    {
        match self.level() {
            None => Stepped::HandsOver(None),
            Some(level) => {
                if level.left == 0 {
                    return Stepped::Stops(program.passed(
                        Class::Unwind,
                        level.line,
                        level.function,
                    ));
                }
                self.again();
                Stepped::GoesOn
            }
        }
    }

    // The node that is next, if one is.
    fn first(&self) -> Option<Kind<'a>>
        ensures first { IsFirst result self.now.place.nodes }
        ensures fits { place_fits self.now.working.types self.now.working.sizes self.now.place ≡ true }
    {
        self.place.first()
    }

    /// One step.
    pub fn step(&mut self, program: &Program<'a>) -> Result<Stepped, AllocError>
        ensures steps { IfOk result (Steps (bounded_by program.now) self.old self.new) }
        ensures err { OnErr result (self.new ≡ self.old) }
    {
        match self.first() {
            None => Ok(self.end_round(program)),
            Some(Kind::Plain(i)) => self.perform(program, program.resolved(i)),
            Some(
                Kind::Loop {
                    line,
                    function,
                    number,
                    rotated,
                    nodes,
                },
            ) => self.enter_loop(program, line, function, number, rotated, nodes),
        }
    }

    /// Takes the answer to the action that is next, where so many words of the instruction that is next have been drawn.
    #[tactic(auto, using(crate::proofs::Places::resolved_here))]
    pub fn receive(&mut self, program: &Program<'a>, answer: &Answer, words: u32) -> Received
        requires acting { acts words (next_instruction (bounded_by program.now) self.old.place.nodes) self.old.working.memory ≡ true }
        requires allowed { accepts (lone_on (bounded_by program.now) words self.old []) answer.now ≡ true }
        ensures { IsReceived (bounded_by program.now) words self.old self.new answer.now result }
    {
        match self.first() {
            Some(Kind::Plain(i)) => { self.receive_at(program, program.resolved(i), answer, words) }
            _ => unreachable!(),
        }
    }

    // The same, at the instruction.
    fn receive_at(
        &mut self,
        program: &Program<'a>,
        i: Instruction,
        answer: &Answer,
        words: u32,
    ) -> Received
        requires found { next_instruction (bounded_by program.now) self.old.place.nodes ≡ Some i }
        requires fits { operation_fits self.old.working.types self.old.working.sizes (place_total (next_place self.old.place)) i.operation ≡ true }
        requires acting { acts_on words i.operation self.old.working.memory ≡ true }
        requires allowed { accepts (lone_on (bounded_by program.now) words self.old []) answer.now ≡ true }
        ensures { IsReceived (bounded_by program.now) words self.old self.new answer.now result }
    {
        match i.operation {
            Operation::Fill { block, count } => {
                self.receive_word(program, i, (block, count), answer, words)
            }
            Operation::Exit => self.finish(program, i, answer, words),
            _ => self.receive_answer(program, i, answer, words),
        }
    }

    // A word for a block.
    #[tactic(auto, using(crate::proofs::WalkFits::fill_here, crate::proofs::WalkFits::fill_count_here))]
    fn receive_word(
        &mut self,
        program: &Program<'a>,
        i: Instruction,
        into: (usize, usize),
        answer: &Answer,
        words: u32,
    ) -> Received
        requires found { next_instruction (bounded_by program.now) self.old.place.nodes ≡ Some i }
        requires fits { operation_fits self.old.working.types self.old.working.sizes (place_total (next_place self.old.place)) i.operation ≡ true }
        requires is { i.operation ≡ Operation.Fill into.0 into.1 }
        requires more { words < word_count (first_count self.old.working.memory into.0 into.1) }
        requires allowed { accepts (lone_on (bounded_by program.now) words self.old []) answer.now ≡ true }
        ensures { IsReceived (bounded_by program.now) words self.old self.new answer.now result }
    {
        let _ = program;
        self.fill_word(into.0, into.1, words, word_of(answer));
        Received::Draws(words + 1)
    }

    // The answer to one action.
    #[tactic(auto, using(crate::proofs::WalkFits::exchange_here))]
    fn receive_answer(
        &mut self,
        program: &Program<'a>,
        i: Instruction,
        answer: &Answer,
        words: u32,
    ) -> Received
        requires found { next_instruction (bounded_by program.now) self.old.place.nodes ≡ Some i }
        requires fits { operation_fits self.old.working.types self.old.working.sizes (place_total (next_place self.old.place)) i.operation ≡ true }
        requires exchange { is_exchange i.operation ≡ true }
        requires allowed { accepts (lone_on (bounded_by program.now) words self.old []) answer.now ≡ true }
        ensures { IsReceived (bounded_by program.now) words self.old self.new answer.now result }
    {
        let _ = program;
        let _ = words;
        self.take_answer(i.operation, answer);
        self.advance(0);
        Received::GoesOn
    }

    // The end of the process.
    fn finish(
        &mut self,
        program: &Program<'a>,
        i: Instruction,
        answer: &Answer,
        words: u32,
    ) -> Received
        requires found { next_instruction (bounded_by program.now) self.old.place.nodes ≡ Some i }
        requires is { i.operation ≡ Operation.Exit }
        requires allowed { accepts (lone_on (bounded_by program.now) words self.old []) answer.now ≡ true }
        ensures { IsReceived (bounded_by program.now) words self.old self.new answer.now result }
    {
        let _ = program;
        let _ = words;
        Received::Ends
    }

    /// Goes past the instruction that is next.
    pub fn step_over(&mut self)
        ensures { self.new ≡ stepped_over self.old }
    {
        self.advance(0);
    }

    /// A function at its start, with the bytes of so many blocks of its caller, from one on, as its arguments.
    #[tactic(auto, using(crate::proofs::Entering::entry_fits))]
    pub fn entered(
        alloc: Global,
        procedure: &'a Procedure,
        caller: &Activation,
        first: usize,
        count: usize,
    ) -> Result<Activation<'a>, AllocError>
        requires fits { routine_fits (view_procedure procedure.now) ≡ true }
        requires there { nat_le (first + count) (length caller.now.working.sizes) ≡ true }
        ensures { IfOk result (λ a. a ≡ entry procedure.now (arguments_of caller.now.working.memory.blocks first count)) }
    {
        let mut frame = Frame::new(alloc, &procedure.registers, &procedure.blocks)?;
        frame.take_arguments(&caller.frame, first, count);
        Ok(Activation {
            place: Cursor::new(alloc, &procedure.nodes),
            frame,
        })
    }

    /// A function at its start, without arguments.
    #[tactic(auto, using(crate::proofs::Entering::entry_fits, crate::proofs::Entering::none_given))]
    pub fn started(alloc: Global, procedure: &'a Procedure) -> Result<Activation<'a>, AllocError>
        requires { routine_fits (view_procedure procedure.now) ≡ true }
        ensures { IfOk result (λ a. a ≡ entry procedure.now []) }
    {
        let frame = Frame::new(alloc, &procedure.registers, &procedure.blocks)?;
        Ok(Activation {
            place: Cursor::new(alloc, &procedure.nodes),
            frame,
        })
    }

    /// Takes what a call has handed over.
    pub fn accept(&mut self, into: usize, returned: usize, given: Option<Block>)
        requires into { nat_lt into (length self.old.working.sizes) ≡ true }
        requires returned { is_register self.old.working.types returned IntegerType.Int ≡ true }
        ensures { self.new ≡ record self.old { working = record self.old.working { memory = received self.old.working.memory into returned given } } }
    {
        self.frame.receive(into, returned, given);
    }
}
