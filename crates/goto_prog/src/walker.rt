//! A run of code with loops and calls.

ghost use Rattle.std.specs.Prelude.{◌≡◌, ◌<◌, ◌-◌, ◌∷◌, ℕ, replicate, [], if◌then◌else◌, true, length, IfOk, OnOk, OnErr, Some, None, slice_get, slice_index, slice_set, option_map};
ghost use Rattle.actions.specs.Behaviour.{accepts, answered, started};
ghost use Rattle.goto_prog.specs.Meaning.{arguments_of, received};
ghost use Rattle.goto_prog.specs.Nodes.{view_procedure, view_procedures, routines_fit, routine_fits};
ghost use Rattle.goto_prog.specs.Running.{acts, is_act};
ghost use Rattle.goto_prog.specs.ProgramViews.{bounded_by};
ghost use Rattle.goto_prog.specs.Structured as structured;
ghost use Rattle.goto_prog.specs.Structured.{opened, can_start, function_thread, first_left};
ghost use Rattle.goto_prog.specs.Walking.{entry, stepped_over, next_instruction, lone_on, CallsFunction, HandsOver, IsReceived, StopsOn, StepsOn};
ghost use Rattle.goto_prog.specs.Activations as activations;
ghost use Rattle.goto_prog.specs.Walks.{Pops, bounded, closed, walks, status_behind, top_on, thread_of, Steps, IsHalted};

use crate::activation::{Activation, CallPlan, Received, Stepped};
use crate::block::Block;
use crate::nodes::Procedure;
use crate::program::Program;
use actions::{Action, Answer, Next};
use c_types::IntegerType;
use std::alloc::{AllocError, Global};
use std::marker::Model;
use std::mem::replace;
use words::{Class, Word};

/// Whether a thread runs, runs within an instruction of which so many words have been drawn, is about to leave its first function
/// with a value, or has left it.
#[derive(Clone, Copy)]
pub enum Status {
    Running,
    Drawing(u32),
    Leaving(u64),
    Over(u64),
}

// An activation that waits for what a call hands over: the function that it called, how many activations of
// that might be opened before, and where the bytes are put.
#[derive(Drop)]
struct Waiting<'a> {
    activation: Activation<'a>,
    function: u32,
    count: u32,
    into: usize,
    returned: usize,
}

impl<'a> Model for Waiting<'a> {
    ghost use Rattle.std.specs.Prelude.{◌≡◌, true};
    ghost use Rattle.goto_prog.specs.Walks as specs;
    ghost use Rattle.std.specs.Coded.{codes};
    ghost use Rattle.goto_prog.specs.contracts.nodes.Node as node;

    ghost Value = { specs.Waiting };

    ghost coded = { Prim.hlevel (codes, node.the_row.coded) };

    ghost view = { λ w. record { activation = w.activation; function = w.function; count = w.count; into = w.into; returned = w.returned } };

    ghost invariant = { λ w. specs.is_waiting (record { activation = w.activation; function = w.function; count = w.count; into = w.into; returned = w.returned }) ≡ true };
}

/// A thread that walks through code of functions: how many activations of each function may still be opened,
/// the activation that runs, and those that wait, the innermost last; and the function that it called first,
/// with the line of its name.
#[derive(Drop)]
pub struct Walker<'a> {
    alloc: Global,
    program: Program<'a>,
    first: bool,
    number: u32,
    line: u32,
    status: Status,
    left: Vec<u32>,
    top: Activation<'a>,
    below: Vec<Waiting<'a>>,
}

impl<'a> Model for Walker<'a> {
    ghost use Rattle.std.specs.Prelude.{◌≡◌, true, reverse};
    ghost use Rattle.goto_prog.specs.Nodes.{view_procedures, routines_fit};
    ghost use Rattle.goto_prog.specs.Walks as specs;
    ghost use Rattle.std.specs.Coded.{codes};
    ghost use Rattle.goto_prog.specs.contracts.nodes.Node as node;

    ghost Value = { specs.Walk };

    ghost coded = { Prim.hlevel (codes, node.the_row.coded) };

    ghost view = { λ w. record {
      strict = w.program.strict;
      functions = w.program.procedures.now;
      limits = w.program.bounds.now;
      first = w.first;
      number = w.number;
      line = w.line;
      status = w.status;
      left = w.left.items;
      top = w.top;
      below = reverse w.below.items;
    } };

    ghost invariant = { λ w. routines_fit (view_procedures w.program.procedures.now) ≡ true };
}

// The value that a thread ends with.
fn value_of(given: &Option<Block>) -> u64
    ensures { result ≡ structured.value_of given.now }
{
    match given {
        Some(block) => block.number(0, IntegerType::UnsignedLong).bits(),
        None => 0,
    }
}

// How a thread stands whose activation on top has taken an answer.
fn status_behind(received: Received) -> Status
    ensures { result ≡ status_behind received }
{
    match received {
        Received::GoesOn => Status::Running,
        Received::Draws(words) => Status::Drawing(words),
        Received::Ends => Status::Over(0),
    }
}

// So many activations of a function may still be opened.
#[tactic(auto, using(crate::proofs::WalkerSteps::set_beyond))]
fn set_count(left: &mut Vec<u32>, function: u32, count: u32)
    ensures { left.new.items ≡ slice_set left.old.items function count }
{
    let at = function as usize;
    if at < left.len() {
        left[at] = count;
    }
}

impl<'a> Walker<'a> {
    // One step of the activation on top.
    fn step_top(&mut self) -> Result<Stepped, AllocError>
        ensures steps { IfOk result (activations.Steps (bounded self.old) self.old.top self.new.top) }
        ensures others { self.new ≡ record self.old { top = self.new.top } }
        ensures err { OnErr result (self.new ≡ self.old) }
    {
        let program = self.program;
        self.top.step(&program)
    }

    // How many activations of a function may still be opened.
    fn left(&self, function: u32) -> u32
        ensures { result ≡ slice_index self.now.left function }
    {
        match self.left.get(function as usize) {
            Some(count) => *count,
            None => 0,
        }
    }

    // The function with this number, where there is one.
    fn procedure(&self, function: u32) -> Option<&'a Procedure>
        ensures is { option_map (λ p. p.now) result ≡ slice_get self.now.functions function }
        ensures fits { routines_fit (view_procedures self.now.functions) ≡ true }
    {
        self.program.procedures.get(function as usize)
    }

    // Runs a function that is called; the caller waits.
    fn enter(&mut self, plan: CallPlan, procedure: &'a Procedure) -> Result<(), AllocError>
        requires calls { CallsFunction (bounded self.old) self.old.top plan.instruction plan.callee plan.first plan.count plan.into plan.returned }
        requires more { 0 < slice_index self.old.left plan.callee }
        requires fits { routine_fits (view_procedure procedure.now) ≡ true }
        ensures ok { OnOk result (self.new ≡ record self.old {
          left = opened self.old.left plan.callee;
          top = entry procedure.now (arguments_of self.old.top.working.memory.blocks plan.first plan.count);
          below = record { activation = stepped_over self.old.top; function = plan.callee; count = slice_index self.old.left plan.callee; into = plan.into; returned = plan.returned } ∷ self.old.below;
        }) }
        ensures err { OnErr result (self.new ≡ self.old) }
    {
        let entered = Activation::entered(
            self.alloc, procedure, &self.top, plan.first, plan.count,
        )?;
        let count = self.left(plan.callee);
        self.below.reserve(1)?;
        set_count(&mut self.left, plan.callee, count - 1);
        self.top.step_over();
        let activation = replace(&mut self.top, entered);
        let waiting = Waiting {
            activation,
            function: plan.callee,
            count,
            into: plan.into,
            returned: plan.returned,
        };
        match self.below.push(waiting) {
            Ok(()) => {}
            Err(_) => unreachable!(),
        }
        Ok(())
    }

    // What is next where a bound is passed.
    fn passed(&self, class: Class, line: u32, function: u32) -> Next
        ensures { result ≡ (if self.now.limits.assertions then Next.Broken class line function else Next.Blocked) }
    {
        self.program.passed(class, line, function)
    }

    // A function is called.
    fn call(&mut self, plan: CallPlan) -> Result<Option<Next>, AllocError>
        requires running { self.old.status ≡ Status.Running }
        requires calls { CallsFunction (bounded self.old) self.old.top plan.instruction plan.callee plan.first plan.count plan.into plan.returned }
        ensures steps { IfOk result (Steps self.old self.new) }
        ensures err { OnErr result (self.new ≡ self.old) }
    {
        let i = plan.instruction;
        if self.left(plan.callee) == 0 {
            return Ok(Some(self.passed(Class::Recursion, i.line, i.function)));
        }
        match self.procedure(plan.callee) {
            Some(procedure) => {
                self.enter(plan, procedure)?;
                Ok(None)
            }
            None => Ok(Some(Next::Blocked)),
        }
    }

    // Goes on with the caller, and what is handed over to it.
    fn resume(&mut self, waiting: Waiting<'a>, given: Option<Block>)
        ensures { self.new ≡ record self.old {
          left = closed self.old.left waiting.entry;
          top = record { place = waiting.entry.activation.place; working = record waiting.entry.activation.working { memory = received waiting.entry.activation.working.memory waiting.entry.into waiting.entry.returned given } };
        } }
    {
        let Waiting {
            mut activation,
            function,
            count,
            into,
            returned,
        } = waiting;
        activation.accept(into, returned, given);
        self.top = activation;
        set_count(&mut self.left, function, count);
    }

    // The activation that waits innermost.
    fn pop(&mut self) -> Option<Waiting<'a>>
        ensures { Pops self.old self.new result }
    {
        self.below.pop()
    }

    // The function on top ends and hands something over.
    fn hand_over(&mut self, given: Option<Block>)
        requires running { self.old.status ≡ Status.Running }
        requires over { HandsOver (bounded self.old) self.old.top given }
        ensures { Steps self.old self.new None }
    {
        match self.pop() {
            None => self.status = Status::Leaving(value_of(&given)),
            Some(waiting) => self.resume(waiting, given),
        }
    }

    // A step of a thread that runs.
    fn run(&mut self) -> Result<Option<Next>, AllocError>
        requires running { self.old.status ≡ Status.Running }
        ensures steps { IfOk result (Steps self.old self.new) }
        ensures err { OnErr result (self.new ≡ self.old) }
    {
        match self.step_top()? {
            Stepped::GoesOn => Ok(None),
            Stepped::Stops(next) => Ok(Some(next)),
            Stepped::Calls(plan) => self.call(plan),
            Stepped::HandsOver(given) => {
                self.hand_over(given);
                Ok(None)
            }
        }
    }

    // The activation on top goes on with its words, or this is next.
    fn draw_top(&mut self, words: u32) -> Option<Next>
        ensures steps { StepsOn (bounded self.old) words self.old.top self.new.top result }
        ensures others { self.new ≡ record self.old { top = self.new.top } }
    {
        let program = self.program;
        self.top.draw_on(&program, words)
    }

    // A step of a thread that runs within an instruction of which so many words have been drawn.
    fn draw_on(&mut self, words: u32) -> Option<Next>
        requires drawing { self.old.status ≡ Status.Drawing words }
        ensures { Steps self.old self.new result }
    {
        match self.draw_top(words) {
            Some(next) => Some(next),
            None => {
                self.stand(Status::Running);
                None
            }
        }
    }

    // The end of the thread is next.
    fn leave(&self, value: u64) -> Next
        ensures { result ≡ Next.Act (if self.now.first then Action.Exit else Action.End value) self.now.line self.now.number }
    {
        let action = if self.first {
            Action::Exit
        } else {
            Action::End(value)
        };
        Next::Act(action, self.line, self.number)
    }

    // One step: it goes on, or this is next.
    #[tactic(auto, using(crate::proofs::WalkerSteps::leaving_stops, crate::proofs::WalkerSteps::over_stops))]
    fn step(&mut self) -> Result<Option<Next>, AllocError>
        ensures steps { IfOk result (Steps self.old self.new) }
        ensures err { OnErr result (self.new ≡ self.old) }
    {
        match self.status {
            Status::Running => self.run(),
            Status::Drawing(words) => Ok(self.draw_on(words)),
            Status::Leaving(value) => Ok(Some(self.leave(value))),
            Status::Over(value) => Ok(Some(Next::Ended(Word::new(value, 64)))),
        }
    }

    /// Goes on to what is next.
    pub fn settle(&mut self) -> Result<Next, AllocError>
        ensures same { thread_of self.new ≡ thread_of self.old }
        ensures next { IfOk result (λ next. next ≡ walks self.old []) }
        ensures halted { IfOk result (λ next. IsHalted (self.new).status self.new next) }
    {
        'steps: loop {
            if let Some(next) = self.step()? {
                return Ok(next);
            }
        }
    }

    // At the start of a function.
    fn at(
        alloc: Global,
        program: Program<'a>,
        first: bool,
        number: u32,
        procedure: &'a Procedure,
    ) -> Result<Walker<'a>, AllocError>
        requires fits { routines_fit (view_procedures program.procedures.now) ≡ true }
        requires itself { routine_fits (view_procedure procedure.now) ≡ true }
        ensures { IfOk result (λ w. w ≡ record {
          strict = (program.entry).strict;
          functions = (program.entry).procedures.now;
          limits = (program.entry).bounds.now;
          first = first;
          number = number;
          line = procedure.now.line;
          status = Status.Running;
          left = slice_set (replicate (length (program.entry).procedures.now) (program.entry).bounds.now.unwind) number ((program.entry).bounds.now.unwind - 1);
          top = entry procedure.now [];
          below = [];
        }) }
    {
        let unwind = program.bounds.unwind();
        let mut left = vec![in alloc; unwind; program.procedures.len()]?;
        set_count(&mut left, number, unwind - 1);
        let top = Activation::started(alloc, procedure)?;
        Ok(Walker {
            alloc,
            program,
            first,
            number,
            line: procedure.line,
            status: Status::Running,
            left,
            top,
            below: Vec::new(alloc),
        })
    }

    /// A thread that calls the function with this number; thread 0 is the first.
    pub fn new(
        alloc: Global,
        program: Program<'a>,
        first: bool,
        number: u32,
    ) -> Result<Walker<'a>, AllocError>
        requires fits { routines_fit (view_procedures program.procedures.now) ≡ true }
        requires within { number < length program.procedures.now }
        ensures { IfOk result (λ w. thread_of w ≡ function_thread (bounded_by program.entry) first number) }
    {
        let _unwind = program.bounds.unwind();
        match program.procedure(number) {
            Some(procedure) => Ok(Walker::at(alloc, program, first, number, procedure)?),
            None => unreachable!(),
        }
    }

    /// A thread of the same program that starts in a function.
    pub fn started(&self, function: u32) -> Result<Walker<'a>, AllocError>
        requires { can_start (slice_get (view_procedures self.now.functions) function) ≡ true }
        ensures { IfOk result (λ w. (v : ℕ) → thread_of w ≡ started (thread_of self.now) function v) }
    {
        Walker::new(self.alloc, self.program, false, function)
    }

    /// Takes the answer to the action that is next.
    pub fn take(&mut self, answer: &Answer) -> Result<(), AllocError>
        requires { accepts (walks self.old []) answer.now ≡ true }
        ensures ok { OnOk result (thread_of self.new ≡ answered (thread_of self.old) answer.now) }
        ensures err { OnErr result (thread_of self.new ≡ thread_of self.old) }
    {
        let next = self.settle()?;
        self.receive(&next, answer);
        Ok(())
    }

    // The same, at the action, which is this.
    #[tactic(auto, using(crate::proofs::WalkerSteps::stands_running, crate::proofs::WalkerSteps::stands_drawing, crate::proofs::WalkerSteps::halted_running, crate::proofs::WalkerSteps::halted_drawing, crate::proofs::WalkerSteps::walk_left, crate::proofs::WalkerSteps::over_takes_none))]
    fn receive(&mut self, next: &Next, answer: &Answer)
        requires is { next.now ≡ walks self.old [] }
        requires halted { IsHalted (self.old).status self.old next.now }
        requires allowed { accepts next.now answer.now ≡ true }
        ensures { thread_of self.new ≡ answered (thread_of self.old) answer.now }
    {
        match self.status {
            Status::Running => self.receive_top(next, answer, 0),
            Status::Drawing(words) => self.receive_top(next, answer, words),
            Status::Leaving(value) => {
                let last = if self.first { 0 } else { value };
                self.status = Status::Over(last);
            }
            Status::Over(_) => unreachable!(),
        }
    }

    // The same, where the activation on top acts, and so many words of its instruction have been drawn.
    fn receive_top(&mut self, next: &Next, answer: &Answer, words: u32)
        requires stands { walks self.old ≡ top_on self.old words }
        requires halted { is_act next.now ≡ true → StopsOn (bounded self.old) words self.old.top next.now }
        requires allowed { accepts next.now answer.now ≡ true }
        ensures { thread_of self.new ≡ answered (thread_of self.old) answer.now }
    {
        let _ = next;
        let received = self.top_takes(answer, words);
        self.stand(status_behind(received));
    }

    // The thread stands so.
    fn stand(&mut self, status: Status)
        ensures { self.new ≡ record self.old { status = status } }
    {
        self.status = status;
    }

    // The activation on top takes the answer.
    fn top_takes(&mut self, answer: &Answer, words: u32) -> Received
        requires acting { acts words (next_instruction (bounded self.old) self.old.top.place.nodes) self.old.top.working.memory ≡ true }
        requires allowed { accepts (lone_on (bounded self.old) words self.old.top []) answer.now ≡ true }
        ensures received { IsReceived (bounded self.old) words self.old.top self.new.top answer.now result }
        ensures others { self.new ≡ record self.old { top = self.new.top } }
    {
        let program = self.program;
        self.top.receive(&program, answer, words)
    }
}
