//! A run of flat code that may stand within an instruction of several words.

ghost use Rattle.std.specs.Prelude.{◌≡◌, ℕ, true, [], IfOk, OnOk, OnErr, slice_get};
ghost use Rattle.actions.specs.Behaviour.{accepts, answered, started};
ghost use Rattle.goto_prog.specs.CodeThread.{is_startable};
ghost use Rattle.goto_prog.specs.Running.{begun, acts, is_act, flow_thread, GoesOnWith};

use crate::listing::Code;
use crate::runner::Runner;
use actions::{Answer, Next};
use std::alloc::{AllocError, Global};
use std::marker::Model;

/// Flat code that runs, and how many words of the instruction at its place have been drawn.
#[derive(Drop)]
pub struct Flow<'a> {
    runner: Runner<'a>,
    words: u32,
}

impl<'a> Model for Flow<'a> {
    ghost use Rattle.goto_prog.specs.Running.{Flowing};

    ghost Value = { Flowing };

    ghost view = { λ f. record { runner = f.runner; words = f.words } };
}

impl<'a> Flow<'a> {
    /// At the start of code.
    pub fn new(
        alloc: Global,
        functions: &'a [Code],
        code: &'a Code,
        strict: bool,
    ) -> Result<Flow<'a>, AllocError>
        ensures { IfOk result (λ f. f ≡ record { runner = begun functions.now code.now strict; words = 0 }) }
    {
        Ok(Flow {
            runner: Runner::new(alloc, functions, code, strict)?,
            words: 0,
        })
    }

    // Goes on behind the instruction of which words have been drawn, or this is next.
    fn draw_on(&mut self) -> Option<Next>
        ensures steps { GoesOnWith (self.old).words self.old.runner self.new.runner result }
        ensures words { (self.new).words ≡ (self.old).words }
    {
        self.runner.draw_on(self.words)
    }

    // No word of the instruction at the place has been drawn.
    fn begin(&mut self)
        ensures { self.new ≡ record self.old { words = 0 } }
    {
        self.words = 0;
    }

    /// Goes on to what is next.
    #[tactic(auto, using(crate::proofs::Stepping::flow_goes, crate::proofs::Stepping::flow_stays, crate::proofs::Stepping::flow_next, crate::proofs::Stepping::flow_acts))]
    pub fn settle(&mut self) -> Result<Next, AllocError>
        ensures same { flow_thread self.new ≡ flow_thread self.old }
        ensures next { IfOk result (λ next. next ≡ (flow_thread self.old).behaves []) }
        ensures acting { IfOk result (λ next. is_act next ≡ true → acts (self.new).words (slice_get self.new.runner.code.instructions self.new.runner.place) self.new.runner.memory ≡ true) }
    {
        match self.draw_on() {
            Some(next) => Ok(next),
            None => {
                self.begin();
                self.run()
            }
        }
    }

    // The same, where no word of the instruction at the place has been drawn.
    fn run(&mut self) -> Result<Next, AllocError>
        requires { (self.old).words ≡ 0 }
        ensures same { flow_thread self.new ≡ flow_thread self.old }
        ensures next { IfOk result (λ next. next ≡ (flow_thread self.old).behaves []) }
        ensures acting { IfOk result (λ next. is_act next ≡ true → acts (self.new).words (slice_get self.new.runner.code.instructions self.new.runner.place) self.new.runner.memory ≡ true) }
    {
        self.runner.settle()
    }

    /// Takes the answer to the action that is next.
    pub fn take(&mut self, answer: &Answer) -> Result<(), AllocError>
        requires { accepts ((flow_thread self.old).behaves []) answer.now ≡ true }
        ensures ok { OnOk result (flow_thread self.new ≡ answered (flow_thread self.old) answer.now) }
        ensures err { OnErr result (flow_thread self.new ≡ flow_thread self.old) }
    {
        self.settle()?;
        self.receive(answer);
        Ok(())
    }

    // The same, at the action.
    fn receive(&mut self, answer: &Answer)
        requires fits { accepts ((flow_thread self.old).behaves []) answer.now ≡ true }
        requires acting { acts (self.old).words (slice_get self.old.runner.code.instructions self.old.runner.place) self.old.runner.memory ≡ true }
        ensures { flow_thread self.new ≡ answered (flow_thread self.old) answer.now }
    {
        self.words = self.runner.receive(answer, self.words);
    }

    /// A thread of the same program that starts in a function.
    pub fn started(&self, function: u32) -> Result<Flow<'a>, AllocError>
        requires { is_startable (slice_get (self.now).runner.functions function) ≡ true }
        ensures { IfOk result (λ f. (v : ℕ) → flow_thread f ≡ started (flow_thread self.now) function v) }
    {
        Ok(Flow {
            runner: self.runner.started(function)?,
            words: 0,
        })
    }
}
