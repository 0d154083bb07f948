//! The functions of a program, by number.

ghost use Rattle.std.specs.Prelude.{◌≡◌, if◌then◌else◌};
ghost use Rattle.std.specs.Str.{bytes_eq};
ghost use Rattle.std.specs.Prelude.{slice_get, option_map};
ghost use Rattle.goto_prog.specs.ProgramViews.{bounded_by};
ghost use Rattle.goto_prog.specs.Structured.{tests_in, name_of, tests, resolved_in, round_count};
ghost use Rattle.goto_prog.specs.Structured as structured;
ghost use Rattle.goto_prog.specs.Nodes.{view_procedures};
ghost use Rattle.core_tree.specs.Ranges.{loop_limits};

use crate::code::{Condition, Instruction, Operation};
use crate::nodes::Procedure;
use actions::Next;
use core_tree::{Bounds, LoopBound};
use words::Class;

/// The functions by their numbers, and the bounds of a command; where `strict` stands, an operation that is
/// undefined breaks by itself.
#[derive(Clone, Copy)]
pub struct Program<'a> {
    pub strict: bool,
    pub procedures: &'a [Procedure],
    pub bounds: &'a Bounds,
}

// How many times a test may be evaluated at an arrival, by the loops of a set, and for the others.
#[tactic(auto, using(crate::proofs::LoopTests::tests_here, crate::proofs::LoopTests::tests_unnamed, crate::proofs::LoopTests::tests_unnumbered, crate::proofs::LoopTests::no_tests))]
fn tests_in(set: &[LoopBound], others: u32, function: &[u8], number: u32) -> u32
    ensures { result ≡ tests_in (loop_limits set.now) others function.now number }
{
    for bound in set {
        if bound.function.bytes.as_slice() == function && bound.number == number as u64 {
            return bound.unwind;
        }
    }
    others
}

/// What an operation that asks for the bounds of a command does under them: whether an allocation fails is drawn where it may, and
/// no more bytes are allocated at once than the limit.
pub fn resolved(bounds: &Bounds, operation: Operation) -> Operation
    ensures { result ≡ structured.resolved bounds.now operation }
{
    match operation {
        Operation::MayFail { into } => {
            if bounds.malloc_may_fail() {
                Operation::Draw { into, bits: 1 }
            } else {
                Operation::Constant { into, bits: 0 }
            }
        }
        Operation::Limit { left, right } => Operation::Check {
            condition: Condition::AtMost {
                left,
                right,
                most: bounds.malloc_limit(),
            },
        },
        _ => operation,
    }
}

impl<'a> Program<'a> {
    /// The function with this number, where there is one.
    pub fn procedure(&self, function: u32) -> Option<&'a Procedure>
        ensures { option_map (λ p. p.now) result ≡ slice_get (self.now).procedures.now function }
    {
        self.procedures.get(function as usize)
    }

    // The name of the function with this number.
    fn name(&self, function: u32) -> &'a [u8]
        ensures { result.now ≡ name_of (slice_get (view_procedures (self.now).procedures.now) function) }
    {
        match self.procedures.get(function as usize) {
            Some(procedure) => procedure.name.bytes.as_slice(),
            None => &[],
        }
    }

    /// How many times the test of a loop of a function may be evaluated at an arrival.
    pub fn tests(&self, function: u32, number: u32) -> u32
        ensures { result ≡ tests (bounded_by self.now) function number }
    {
        let name = self.name(function);
        tests_in(self.bounds.set(), self.bounds.unwind(), name, number)
    }

    /// How many rounds it has then.
    pub fn round_count(&self, rotated: bool, function: u32, number: u32) -> u32
        ensures { result ≡ round_count rotated (tests (bounded_by self.now) function number) }
    {
        let count = self.tests(function, number);
        if rotated {
            count.saturating_sub(1)
        } else {
            count
        }
    }

    /// An instruction as the bounds have it: whether an allocation fails is drawn where it may, and a limit is a check.
    pub fn resolved(&self, i: Instruction) -> Instruction
        ensures { result ≡ resolved_in (bounded_by self.now) i }
    {
        Instruction {
            operation: resolved(self.bounds, i.operation),
            ..i
        }
    }

    /// What is next where a bound is passed.
    pub fn passed(&self, class: Class, line: u32, function: u32) -> Next
        ensures { result ≡ (if (self.now).bounds.now.assertions then Next.Broken class line function else Next.Blocked) }
    {
        if self.bounds.assertions() {
            Next::Broken(class, line, function)
        } else {
            Next::Blocked
        }
    }
}
