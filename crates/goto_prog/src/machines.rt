//! The machines of strict, of checked and of unrolled code.

ghost use Rattle.std.specs.Prelude.{◌≡◌, false, IfOk};
ghost use Rattle.goto_prog.specs.Flat.{main_code};
ghost use Rattle.goto_prog.specs.GotoThreads.{strict_thread, plain_thread};
ghost use Rattle.goto_prog.specs.Running.{begun};
ghost use Rattle.goto_prog.specs.Walks as walks;

use crate::flow::Flow;
use crate::goto::{Goto, Unrolled};
use crate::program::Program;
use crate::walker::Walker;
use actions::{Answer, Machine, Next};
use core_tree::Bounds;
use std::alloc::{AllocError, Global};
use std::marker::Model;
use words::Word;

/// A thread of strict code: an operation that is undefined breaks by itself.
#[derive(Drop)]
pub struct StrictThread<'a> {
    walker: Walker<'a>,
}

impl<'a> Model for StrictThread<'a> {
    ghost use Rattle.goto_prog.specs.Walks.{Walk};
    ghost use Rattle.std.specs.Coded.{codes};
    ghost use Rattle.goto_prog.specs.contracts.nodes.Node as node;

    ghost Value = { Walk };

    ghost coded = { Prim.hlevel (codes, node.the_row.coded) };

    ghost view = { λ s. s.walker };
}

impl<'a> StrictThread<'a> {
    /// Thread 0 at its start.
    pub fn new(
        alloc: Global,
        goto: &'a Goto,
        bounds: &'a Bounds,
    ) -> Result<StrictThread<'a>, AllocError>
        ensures { IfOk result (λ t. walks.thread_of t ≡ strict_thread goto.now bounds.now) }
    {
        let program = Program {
            strict: true,
            procedures: goto.procedures(),
            bounds,
        };
        let walker = Walker::new(alloc, program, true, goto.main_number())?;
        Ok(StrictThread { walker })
    }
}

impl<'a> Machine for StrictThread<'a> {
    ghost use Rattle.goto_prog.specs.Walks.{thread_of};
    ghost use Rattle.goto_prog.specs.WalkThread.{is_thread};

    ghost thread = { λ s. thread_of s };

    fn start(&self, function: u32, _v: Word) -> Result<Self, AllocError> {
        Ok(StrictThread {
            walker: self.walker.started(function)?,
        })
    }

    fn advance(&mut self) -> Result<Next, AllocError> {
        self.walker.settle()
    }

    fn answer(&mut self, answer: &Answer) -> Result<(), AllocError> {
        self.walker.take(answer)
    }

    ghost valid = { λ s. is_thread s };
}

/// A thread of plain code: only its checks break, and an operation that is undefined gives the value of
/// its definition.
#[derive(Drop)]
pub struct PlainThread<'a> {
    walker: Walker<'a>,
}

impl<'a> Model for PlainThread<'a> {
    ghost use Rattle.goto_prog.specs.Walks.{Walk};
    ghost use Rattle.std.specs.Coded.{codes};
    ghost use Rattle.goto_prog.specs.contracts.nodes.Node as node;

    ghost Value = { Walk };

    ghost coded = { Prim.hlevel (codes, node.the_row.coded) };

    ghost view = { λ s. s.walker };
}

impl<'a> PlainThread<'a> {
    /// Thread 0 at its start.
    pub fn new(
        alloc: Global,
        goto: &'a Goto,
        bounds: &'a Bounds,
    ) -> Result<PlainThread<'a>, AllocError>
        ensures { IfOk result (λ t. walks.thread_of t ≡ plain_thread goto.now bounds.now) }
    {
        let program = Program {
            strict: false,
            procedures: goto.procedures(),
            bounds,
        };
        let walker = Walker::new(alloc, program, true, goto.main_number())?;
        Ok(PlainThread { walker })
    }
}

impl<'a> Machine for PlainThread<'a> {
    ghost use Rattle.goto_prog.specs.Walks.{thread_of};
    ghost use Rattle.goto_prog.specs.WalkThread.{is_thread};

    ghost thread = { λ s. thread_of s };

    fn start(&self, function: u32, _v: Word) -> Result<Self, AllocError> {
        Ok(PlainThread {
            walker: self.walker.started(function)?,
        })
    }

    fn advance(&mut self) -> Result<Next, AllocError> {
        self.walker.settle()
    }

    fn answer(&mut self, answer: &Answer) -> Result<(), AllocError> {
        self.walker.take(answer)
    }

    ghost valid = { λ s. is_thread s };
}

/// A thread of unrolled code, which is plain.
#[derive(Drop)]
pub struct UnrolledThread<'a> {
    flow: Flow<'a>,
}

impl<'a> Model for UnrolledThread<'a> {
    ghost use Rattle.goto_prog.specs.Running.{Flowing};

    ghost Value = { Flowing };

    ghost view = { λ s. s.flow };
}

impl<'a> UnrolledThread<'a> {
    /// Thread 0 at its start.
    pub fn new(alloc: Global, unrolled: &'a Unrolled) -> Result<UnrolledThread<'a>, AllocError>
        ensures { IfOk result (λ t. t ≡ record { runner = begun unrolled.now.functions (main_code unrolled.now) false; words = 0 }) }
    {
        let flow = Flow::new(alloc, unrolled.functions(), unrolled.main(), false)?;
        Ok(UnrolledThread { flow })
    }
}

impl<'a> Machine for UnrolledThread<'a> {
    ghost use Rattle.goto_prog.specs.FlowThread.{is_thread};
    ghost use Rattle.goto_prog.specs.Running.{flow_thread};

    ghost thread = { λ s. flow_thread s };

    fn start(&self, function: u32, _v: Word) -> Result<Self, AllocError> {
        Ok(UnrolledThread {
            flow: self.flow.started(function)?,
        })
    }

    fn advance(&mut self) -> Result<Next, AllocError> {
        self.flow.settle()
    }

    fn answer(&mut self, answer: &Answer) -> Result<(), AllocError> {
        self.flow.take(answer)
    }

    ghost valid = { λ s. is_thread s };
}
