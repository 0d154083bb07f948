//! Inputs and a schedule.

ghost use Rattle.std.specs.Prelude.{◌≡◌, [], true, false, length, IfOk};
ghost use Rattle.actions.specs.StoredObject.{stored};
ghost use Rattle.interleave.specs.Script as script;
ghost use Rattle.interleave.specs.Script.{next_at_step, thread_of, start_at, is_thread};

use actions::{Action, Answer, Bytes, Cells, DrawBits, Machine, Next, Object};
use std::alloc::{AllocError, Global};
use words::{Class, Word};

/// One step of a script. A pointer has its object's number in the high 32 bits.
#[derive(Clone, Copy, PartialEq, Eq)]
pub enum Step {
    /// Reads a byte into the register.
    Read(u64),
    /// Writes a byte, one more than the register.
    Write(u64),
    /// Breaks unless the register has this number.
    Assert(u32),
    /// Looks at an object's size, for a subscript or else for a pointer sum.
    Look(u64, bool),
    /// Draws bits; the register gets the low 8.
    Draw(DrawBits),
    /// Makes an empty object.
    Alloc,
    Die(u32),
    Free(u64),
    SectionBegin,
    SectionEnd,
    Lock(u64),
    Unlock(u64),
    MutexInit(u64),
    MutexDestroy(u64),
    /// Starts a thread at the step with this number.
    Create(u32),
    Join(u64),
    End(u64),
    Exit,
}

/// The simplest machine: a thread that follows a list of steps, for tests and as an example.
#[derive(Drop)]
pub struct Script<'a> {
    alloc: Global,
    steps: &'a [Step],
    at: usize,
    register: u8,
    ended: Option<u64>,
}

impl<'a> Script<'a> {
    /// Thread 0 at the first step.
    pub fn new(alloc: Global, steps: &'a [Step]) -> Script<'a>
        ensures { thread_of result.steps.now (record { at = result.at; register = result.register; ended = result.ended }) ≡ thread_of steps.now (start_at 0) }
    {
        Script {
            alloc,
            steps,
            at: 0,
            register: 0,
            ended: None,
        }
    }

    // What is next where the thread hasn't ended.
    fn next_step(&self, step: Step) -> Result<Next, AllocError>
        ensures { IfOk result (λ n. n ≡ next_at_step (length (self.now).steps.now) (self.now).register step) }
    {
        match step {
            Step::Assert(n) if n != self.register as u32 => {
                Ok(Next::Broken(Class::Assertion, 1, 0))
            }
            Step::Create(f) if f as usize >= self.steps.len() => Ok(Next::Blocked),
            _ => {
                let action = action_of(self.alloc, self.register, step)?;
                Ok(Next::Act(action, 1, 0))
            }
        }
    }
}

// The action of a step.
fn action_of(alloc: Global, register: u8, step: Step) -> Result<Action, AllocError>
    ensures { IfOk result (λ a. a ≡ script.action_of register step) }
{
    Ok(match step {
        Step::Read(p) => Action::Read(p, 1),
        Step::Write(p) => {
            let byte = register.wrapping_add(1);
            Action::Write(p, Bytes::new(Vec::from_slice(alloc, &[byte])?), false)
        }
        Step::Assert(_) => Action::Free(0),
        Step::Look(p, subscript) => Action::Look(p, subscript),
        Step::Draw(bits) => Action::Draw(bits),
        Step::Alloc => Action::Alloc(empty_object(alloc)),
        Step::Die(number) => Action::Die(number),
        Step::Free(p) => Action::Free(p),
        Step::SectionBegin => Action::SectionBegin,
        Step::SectionEnd => Action::SectionEnd,
        Step::Lock(p) => Action::Lock(p),
        Step::Unlock(p) => Action::Unlock(p),
        Step::MutexInit(p) => Action::MutexInit(p),
        Step::MutexDestroy(p) => Action::MutexDestroy(p),
        Step::Create(f) => Action::Create(f, 0),
        Step::Join(k) => Action::Join(k),
        Step::End(v) => Action::End(v),
        Step::Exit => Action::Exit,
    })
}

// An empty object from malloc.
fn empty_object(alloc: Global) -> Object
    ensures { result ≡ stored 0 [] true false true [] }
{
    Object {
        size: 0,
        cells: Cells::new(Vec::new(alloc)),
        live: true,
        readonly: false,
        heap: true,
        bytes: Bytes::new(Vec::new(alloc)),
    }
}

// What the register has after an answer.
fn received(answer: &Answer, register: u8) -> u8
    ensures { result ≡ script.received answer.now register }
{
    match answer {
        Answer::Bytes(bytes) => bytes.as_slice().first().copied().unwrap_or(register),
        Answer::Word(word) => (word.bits() % 256) as u8,
        _ => register,
    }
}

// The value with which a step ends the thread.
fn ended_by(step: Option<Step>) -> Option<u64>
    ensures { result ≡ script.ended_by step }
{
    match step {
        Some(Step::End(v)) => Some(v),
        Some(Step::Exit) => Some(0),
        _ => None,
    }
}

impl<'a> Machine for Script<'a> {
    ghost thread = { λ s. thread_of s.steps.now (record { at = s.at; register = s.register; ended = s.ended }) };

    fn start(&self, function: u32, _v: Word) -> Result<Self, AllocError> {
        Ok(Script {
            alloc: self.alloc,
            steps: self.steps,
            at: function as usize,
            register: 0,
            ended: None,
        })
    }

    fn advance(&mut self) -> Result<Next, AllocError> {
        if let Some(v) = self.ended {
            return Ok(Next::Ended(Word::new(v, 64)));
        }
        match self.steps.get(self.at) {
            None => Ok(Next::Blocked),
            Some(step) => self.next_step(*step),
        }
    }

    fn answer(&mut self, answer: &Answer) -> Result<(), AllocError> {
        self.register = received(answer, self.register);
        self.ended = ended_by(self.steps.get(self.at).copied());
        self.at += 1;
        Ok(())
    }

    ghost valid = { λ s. is_thread s.steps.now (record { at = s.at; register = s.register; ended = s.ended }) };
}
