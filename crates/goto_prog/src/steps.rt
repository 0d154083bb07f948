//! What an instruction does: what is checked, asked, calculated, and where it leads.

ghost use Rattle.std.specs.Prelude.{◌≡◌, ◌+◌, ◌*◌, ◌<◌, ◌≤◌, true, false, IfOk, OnErr, MatchOption, slice_get, Some, None, if◌then◌else◌};
ghost use Rattle.c_values.specs.Variables.{word_count, drawn_count};
ghost use Rattle.goto_prog.specs.Meaning.{first_count, own_class};
ghost use Rattle.goto_prog.specs.Fitting.{code_fits};
ghost use Rattle.goto_prog.specs.Running.{is_calculation, is_exchange, asks_bounds, Steps, Stops};

use crate::code::{Condition, Instruction, Operation};
use crate::runner::Runner;
use actions::{Action, DrawBits, Next};
use std::alloc::AllocError;
use words::{Class, Word};

impl<'a> Runner<'a> {
    // An instruction that sets a register or a block.
    #[tactic(auto, using(crate::proofs::Stepping::fits_here, crate::proofs::Stepping::room_here, crate::proofs::Stepping::goes_calculated, crate::proofs::Stepping::stops_calculated))]
    fn calculation(&mut self, i: Instruction) -> Result<Option<Next>, AllocError>
        requires found { slice_get self.old.code.instructions self.old.place ≡ Some i }
        requires code { code_fits self.old.code.registers self.old.code.blocks self.old.code.instructions ≡ true }
        requires calculation { is_calculation i.operation ≡ true }
        ensures steps { IfOk result (Steps self.old self.new) }
        ensures err { OnErr result (self.new ≡ self.old) }
    {
        if let Some(class) = self.broken_calculation(i) {
            return Ok(Some(Next::Broken(class, i.line, i.function)));
        }
        self.calculate(i.operation)?;
        self.pass(0);
        Ok(None)
    }

    // The check that it breaks by itself in strict code.
    #[tactic(auto, using(crate::proofs::Stepping::fits_here))]
    fn broken_calculation(&self, i: Instruction) -> Option<Class>
        requires found { slice_get self.now.code.instructions self.now.place ≡ Some i }
        requires code { code_fits self.now.code.registers self.now.code.blocks self.now.code.instructions ≡ true }
        requires calculation { is_calculation i.operation ≡ true }
        ensures { result ≡ (if self.now.strict then own_class i.operation self.now.memory else None) }
    {
        if self.strict {
            self.own_class(i.operation)
        } else {
            None
        }
    }

    // An explicit check.
    #[tactic(auto, using(crate::proofs::Stepping::check_here, crate::proofs::Stepping::room_here, crate::proofs::Stepping::goes_check, crate::proofs::Stepping::stops_check))]
    fn check(&mut self, i: Instruction, condition: Condition) -> Option<Next>
        requires found { slice_get self.old.code.instructions self.old.place ≡ Some i }
        requires code { code_fits self.old.code.registers self.old.code.blocks self.old.code.instructions ≡ true }
        requires is { i.operation ≡ Operation.Check condition }
        ensures { Steps self.old self.new result }
    {
        match self.condition_class(condition) {
            Some(class) => Some(Next::Broken(class, i.line, i.function)),
            None => {
                self.pass(0);
                None
            }
        }
    }

    // An assertion.
    #[tactic(auto, using(crate::proofs::Stepping::assert_here, crate::proofs::Stepping::room_here, crate::proofs::Stepping::goes_assert, crate::proofs::Stepping::stops_assert))]
    fn assertion(&mut self, i: Instruction, operand: usize) -> Option<Next>
        requires found { slice_get self.old.code.instructions self.old.place ≡ Some i }
        requires code { code_fits self.old.code.registers self.old.code.blocks self.old.code.instructions ≡ true }
        requires is { i.operation ≡ Operation.Assert operand }
        ensures { Steps self.old self.new result }
    {
        if self.is_zero(operand) {
            Some(Next::Broken(Class::Assertion, i.line, i.function))
        } else {
            self.pass(0);
            None
        }
    }

    // An assumption.
    #[tactic(auto, using(crate::proofs::Stepping::assume_here, crate::proofs::Stepping::room_here, crate::proofs::Stepping::goes_assume, crate::proofs::Stepping::stops_assume))]
    fn assumption(&mut self, i: Instruction, operand: usize) -> Option<Next>
        requires found { slice_get self.old.code.instructions self.old.place ≡ Some i }
        requires code { code_fits self.old.code.registers self.old.code.blocks self.old.code.instructions ≡ true }
        requires is { i.operation ≡ Operation.Assume operand }
        ensures { Steps self.old self.new result }
    {
        if self.is_zero(operand) {
            Some(Next::Blocked)
        } else {
            self.pass(0);
            None
        }
    }

    // A jump.
    #[tactic(auto, using(crate::proofs::Stepping::skip_here, crate::proofs::Stepping::room_for, crate::proofs::Stepping::goes_skip))]
    fn skip(&mut self, i: Instruction, count: usize) -> Option<Next>
        requires found { slice_get self.old.code.instructions self.old.place ≡ Some i }
        requires code { code_fits self.old.code.registers self.old.code.blocks self.old.code.instructions ≡ true }
        requires is { i.operation ≡ Operation.Skip count }
        ensures { Steps self.old self.new result }
    {
        self.pass(count);
        None
    }

    // A jump where a register is 0.
    #[tactic(auto, using(crate::proofs::Stepping::zero_there, crate::proofs::Stepping::zero_here, crate::proofs::Stepping::room_for, crate::proofs::Stepping::room_here, crate::proofs::Stepping::goes_zero, crate::proofs::Stepping::goes_other))]
    fn skip_if_zero(&mut self, i: Instruction, operand: usize, count: usize) -> Option<Next>
        requires found { slice_get self.old.code.instructions self.old.place ≡ Some i }
        requires code { code_fits self.old.code.registers self.old.code.blocks self.old.code.instructions ≡ true }
        requires is { i.operation ≡ Operation.SkipIfZero operand count }
        ensures { Steps self.old self.new result }
    {
        if self.is_zero(operand) {
            self.pass(count);
            return None;
        }
        self.pass(0);
        None
    }

    /// One step: it goes on, or this is next.
    pub fn step(&mut self) -> Result<Option<Next>, AllocError>
        ensures steps { IfOk result (Steps self.old self.new) }
        ensures err { OnErr result (self.new ≡ self.old) }
    {
        match self.instruction() {
            Some(i) => self.perform(i),
            None => Ok(Some(Next::Ended(Word::new(0, 64)))),
        }
    }

    // The instruction at the place.
    fn perform(&mut self, i: Instruction) -> Result<Option<Next>, AllocError>
        requires found { slice_get self.old.code.instructions self.old.place ≡ Some i }
        requires code { code_fits self.old.code.registers self.old.code.blocks self.old.code.instructions ≡ true }
        ensures steps { IfOk result (Steps self.old self.new) }
        ensures err { OnErr result (self.new ≡ self.old) }
    {
        match i.operation {
            Operation::Skip { count } => Ok(self.skip(i, count)),
            Operation::SkipIfZero { operand, count } => Ok(self.skip_if_zero(i, operand, count)),
            Operation::Check { condition } => Ok(self.check(i, condition)),
            Operation::Assert { operand } => Ok(self.assertion(i, operand)),
            Operation::Assume { operand } => Ok(self.assumption(i, operand)),
            Operation::Draw { .. } => Ok(Some(self.act(i)?)),
            Operation::ReadObject { .. } => Ok(Some(self.act(i)?)),
            Operation::WriteObject { .. } => Ok(Some(self.act(i)?)),
            Operation::Read { .. } => Ok(Some(self.act(i)?)),
            Operation::Write { .. } => Ok(Some(self.act(i)?)),
            Operation::Look { .. } => Ok(Some(self.act(i)?)),
            Operation::Alloc { .. } => Ok(Some(self.act(i)?)),
            Operation::Die { .. } => Ok(Some(self.act(i)?)),
            Operation::Free { .. } => Ok(Some(self.act(i)?)),
            Operation::Fill { block, count } => Ok(self.begin_fill(i, block, count)),
            Operation::Exit => Ok(Some(self.exit(i))),
            Operation::MayFail { .. } => Ok(Some(self.unbounded(i))),
            Operation::Limit { .. } => Ok(Some(self.unbounded(i))),
            Operation::Constant { .. } => self.calculation(i),
            Operation::Copy { .. } => self.calculation(i),
            Operation::Load { .. } => self.calculation(i),
            Operation::Store { .. } => self.calculation(i),
            Operation::Clear { .. } => self.calculation(i),
            Operation::CopyBytes { .. } => self.calculation(i),
            Operation::Convert { .. } => self.calculation(i),
            Operation::Sign { .. } => self.calculation(i),
            Operation::Arithmetic { .. } => { self.calculation(i) }
            Operation::Compare { .. } => { self.calculation(i) }
            Operation::IsZero { .. } => self.calculation(i),
            Operation::Use { .. } => self.calculation(i),
            Operation::Move { .. } => self.calculation(i),
            Operation::Offset { .. } => self.calculation(i),
            Operation::Same { .. } => self.calculation(i),
            Operation::Distance { .. } => self.calculation(i),
            Operation::Relate { .. } => self.calculation(i),
            Operation::Take { .. } => self.calculation(i),
            Operation::Put { .. } => self.calculation(i),
            Operation::Fail { class } => Ok(Some(self.fail(i, class))),
            Operation::Call {
                callee,
                first,
                count,
                into,
                returned,
            } => Ok(Some(self.call(i, callee, (first, count), (into, returned)))),
            Operation::Return { value } => Ok(Some(self.hand_over(i, value))),
        }
    }

    // An action is next.
    #[tactic(auto, using(crate::proofs::Stepping::exchange_here, crate::proofs::Stepping::stops_exchange))]
    fn act(&self, i: Instruction) -> Result<Next, AllocError>
        requires found { slice_get self.now.code.instructions self.now.place ≡ Some i }
        requires code { code_fits self.now.code.registers self.now.code.blocks self.now.code.instructions ≡ true }
        requires exchange { is_exchange i.operation ≡ true }
        ensures { IfOk result (λ n. Stops self.now self.now n) }
    {
        let action = self.action(i.operation)?;
        Ok(Next::Act(action, i.line, i.function))
    }

    // The next word for a block, of which so many have been drawn; where none is left it goes on.
    #[tactic(auto, using(crate::proofs::Stepping::fill_here, crate::proofs::Stepping::fill_count_here, crate::proofs::Stepping::room_here))]
    pub(crate) fn fill(
        &mut self,
        i: Instruction,
        block: usize,
        count: usize,
        words: u32,
    ) -> Option<Next>
        requires found { slice_get self.old.code.instructions self.old.place ≡ Some i }
        requires code { code_fits self.old.code.registers self.old.code.blocks self.old.code.instructions ≡ true }
        requires is { i.operation ≡ Operation.Fill block count }
        ensures { MatchOption result ((word_count (first_count self.old.memory block count) ≤ words) × (self.new ≡ record self.old { place = self.old.place + 1 + 0 })) (λ n. (words < word_count (first_count self.old.memory block count)) × (n ≡ Next.Act (Action.Draw (8 * drawn_count (first_count self.old.memory block count) (8 * words))) i.line i.function) × (self.new ≡ self.old)) }
    {
        match self.next_word(block, count, words) {
            Some(bits) => Some(Next::Act(Action::Draw(DrawBits::new(bits)), i.line, i.function)),
            None => {
                self.pass(0);
                None
            }
        }
    }

    // The first word for a block.
    fn begin_fill(&mut self, i: Instruction, block: usize, count: usize) -> Option<Next>
        requires found { slice_get self.old.code.instructions self.old.place ≡ Some i }
        requires code { code_fits self.old.code.registers self.old.code.blocks self.old.code.instructions ≡ true }
        requires is { i.operation ≡ Operation.Fill block count }
        ensures { Steps self.old self.new result }
    {
        self.fill(i, block, count, 0)
    }

    // No flat code asks for bounds.
    #[tactic(auto, using(crate::proofs::Stepping::stops_unbounded))]
    fn unbounded(&self, i: Instruction) -> Next
        requires found { slice_get self.now.code.instructions self.now.place ≡ Some i }
        requires asks { asks_bounds i.operation ≡ true }
        ensures { Stops self.now self.now result }
    {
        let _ = i;
        Next::Blocked
    }

    // The end of the process is next.
    #[tactic(auto, using(crate::proofs::Stepping::stops_exit))]
    fn exit(&self, i: Instruction) -> Next
        requires found { slice_get self.now.code.instructions self.now.place ≡ Some i }
        requires is { i.operation ≡ Operation.Exit }
        ensures { Stops self.now self.now result }
    {
        Next::Act(Action::Exit, i.line, i.function)
    }

    // A break is next.
    #[tactic(auto, using(crate::proofs::Stepping::stops_fail))]
    fn fail(&self, i: Instruction, class: Class) -> Next
        requires found { slice_get self.now.code.instructions self.now.place ≡ Some i }
        requires is { i.operation ≡ Operation.Fail class }
        ensures { Stops self.now self.now result }
    {
        Next::Broken(class, i.line, i.function)
    }

    // There is no call in flat code.
    #[tactic(auto, using(crate::proofs::Stepping::stops_call))]
    fn call(
        &self,
        i: Instruction,
        callee: u32,
        arguments: (usize, usize),
        into: (usize, usize),
    ) -> Next
        requires found { slice_get self.now.code.instructions self.now.place ≡ Some i }
        requires is { i.operation ≡ Operation.Call callee arguments.0 arguments.1 into.0 into.1 }
        ensures { Stops self.now self.now result }
    {
        let _ = (i, callee, arguments, into);
        Next::Blocked
    }

    // Nor is there something that it could hand over to.
    #[tactic(auto, using(crate::proofs::Stepping::stops_return))]
    fn hand_over(&self, i: Instruction, value: Option<usize>) -> Next
        requires found { slice_get self.now.code.instructions self.now.place ≡ Some i }
        requires is { i.operation ≡ Operation.Return value }
        ensures { Stops self.now self.now result }
    {
        let _ = (i, value);
        Next::Blocked
    }
}
