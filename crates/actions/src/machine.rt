//! The machine of a thread: what it does next, and what it does after an answer.

ghost use Rattle.std.specs.Prelude.{◌≡◌, true, [], IfOk, OnOk, OnErr};
ghost use Rattle.actions.specs.Behaviour.{Thread, IsThread, started, answered, accepts};

use crate::action::{Answer, Next};
use std::alloc::AllocError;
use words::Word;

/// A thread as a machine. Its meaning, `thread`, is what is next after each list of answers, and the
/// program that it can start threads of. A machine keeps the allocator that it was made with.
pub trait Machine: Drop {
    ghost thread: { Self → Thread };

    /// A new thread of the same program, which calls the function with this value of 64 bits.
    /// Fails only for want of memory.
    fn start(&self, function: u32, v: Word) -> Result<Self, AllocError>
        requires width { v.width ≡ 64 }
        requires known { (thread self.now).program.can_start function ≡ true }
        ensures { IfOk result (λ m. thread m ≡ started (thread self.now) function v.bits) };

    /// Goes on to what is next, and says what it is. The meaning stays the same, also after a
    /// failure, which is only for want of memory.
    fn advance(&mut self) -> Result<Next, AllocError>
        ensures same { thread self.new ≡ thread self.old }
        ensures next { IfOk result (λ next. next ≡ (thread self.old).behaves []) };

    /// Takes the answer to the action that is next. Fails only for want of memory; then the meaning
    /// is as it was.
    fn answer(&mut self, answer: &Answer) -> Result<(), AllocError>
        requires { accepts ((thread self.old).behaves []) answer.now ≡ true }
        ensures ok { OnOk result (thread self.new ≡ answered (thread self.old) answer.now) }
        ensures err { OnErr result (thread self.new ≡ thread self.old) };

    ghost valid: { (m : Self) → IsThread (thread m) };
}
