//! The threads of a run, and what they share.

ghost use Rattle.std.specs.Prelude.{◌≡◌, ◌↔◌, IsTrue, true, false, Some, IfOk, OnOk, OnErr, IsErr};
ghost use Rattle.actions.specs.declared.action.Next.TheVariants.{Act};
ghost use Rattle.interleave.specs.Inputs.{words_of};
ghost use Rattle.interleave.specs.World.{first_world, member_at};
ghost use Rattle.interleave.specs.Turn as definition;
ghost use Rattle.interleave.specs.Turn.{HasNumbers, with_member};
ghost use Rattle.interleave.specs.View.{world_of, next_at, IsNextAction, is_dead};

use crate::counts::Counts;
use crate::effect::Effect;
use crate::inputs::Inputs;
use crate::runner::{Runner, next_of, start, tell};
use crate::shared::Shared;
use crate::turn::Turn;
use actions::{Action, Machine, Next, Store};
use std::alloc::{AllocError, Global};
use std::collections::BTreeMap;
use words::Check;

/// A state of a run: what the threads share, and each thread as a machine with its own record of the
/// threads that it created, the objects that it made and the input words that it used.
#[derive(Drop)]
pub struct System<M: Machine> {
    shared: Shared,
    runners: BTreeMap<u32, Runner<M>>,
    dead: bool,
}

impl<M: Machine> System<M> {
    /// The start of a run: thread 0 alone on this store, whose objects count as thread 0's.
    pub fn new(alloc: Global, first: M, store: Store) -> Result<System<M>, AllocError>
        ensures world { IfOk result (λ s. world_of M.thread s ≡ first_world (M.thread first) store) }
        ensures alive { IfOk result (λ s. is_dead s ≡ false) }
    {
        let objects = store.len() as u64;
        let counts = Counts {
            creations: 0,
            objects,
            used: 0,
        };
        let shared = Shared::new(alloc, store)?;
        let mut runners = BTreeMap::new(alloc);
        let runner = Runner {
            machine: first,
            counts,
        };
        runners.insert(0, runner)?;
        Ok(System {
            shared,
            runners,
            dead: false,
        })
    }

    /// A turn of thread t: its silent steps and its next action with all its checks. The state stays
    /// as it was where the answer is Nothing or Broken. Fails only for want of memory, and after that
    /// each later turn fails too.
    pub fn turn(&mut self, t: u32, inputs: &Inputs) -> Result<Turn, AllocError>
        // A Create gets an unused number below 65,536, an Alloc an unused one below 2^32.
        requires { HasNumbers (world_of M.thread self.old) t }
        ensures turn { IfOk result (λ r. (r, world_of M.thread self.new) ≡ definition.turn (world_of M.thread self.old) t inputs.now) }

        // Whether it failed is kept, and decides all later turns.
        ensures alive { OnOk result ((is_dead self.old ≡ false) × (is_dead self.new ≡ false)) }
        ensures dead { OnErr result (is_dead self.new ≡ true) }
    {
        if self.dead {
            return Err(AllocError);
        }
        let made = self.make_turn(t, inputs);
        self.dead = made.is_err();
        made
    }

    /// Whether a turn of thread t has its numbers: where a Create is next, an unused number below
    /// 65,536 for the new thread, and where an Alloc is, an unused one below 2^32 for the new object.
    /// The state stays as it was. Fails only for want of memory, and always after a failed turn.
    pub fn has_numbers(&mut self, t: u32) -> Result<bool, AllocError>
        ensures has { IfOk result (λ has. IsTrue has ↔ HasNumbers (world_of M.thread self.new) t) }
        ensures same { world_of M.thread self.new ≡ world_of M.thread self.old }
        ensures alive { OnOk result (is_dead self.old ≡ false) }
        ensures dead { is_dead self.new ≡ is_dead self.old }
    {
        if self.dead {
            return Err(AllocError);
        }
        match next_of(&mut self.runners, t)? {
            Some(Next::Act(action, _, _)) => Ok(self.has_number(t, &action)),
            _ => Ok(true),
        }
    }

    fn has_number(&self, t: u32, action: &Action) -> bool
        requires { IsNextAction (next_at (world_of M.thread self.now).members t) action.now }
        ensures { IsTrue result ↔ HasNumbers (world_of M.thread self.now) t }
    {
        match self.runners.get(&t) {
            None => true,
            Some(runner) => self.shared.has_number(t, &runner.counts, action),
        }
    }

    fn make_turn(&mut self, t: u32, inputs: &Inputs) -> Result<Turn, AllocError>
        requires { HasNumbers (world_of M.thread self.old) t }
        ensures { IfOk result (λ r. (r, world_of M.thread self.new) ≡ definition.turn (world_of M.thread self.old) t inputs.now) }
    {
        if self.shared.may_move(t) {
            self.move_thread(t, inputs.words(t))
        } else {
            Ok(Turn::Nothing)
        }
    }

    fn move_thread(&mut self, t: u32, words: &[u64]) -> Result<Turn, AllocError>
        requires { HasNumbers (world_of M.thread self.old) t }
        ensures { let w = world_of M.thread self.old in
            IfOk result (λ r. (r, world_of M.thread self.new) ≡ with_member w t words.now (member_at w.members t)) }
    {
        match next_of(&mut self.runners, t)? {
            None | Some(Next::Ended(_)) | Some(Next::Blocked) => Ok(Turn::Nothing),
            Some(Next::Broken(class, line, function)) => Ok(Turn::Broken(Check {
                class,
                line,
                function,
                thread: t,
            })),
            Some(Next::Act(action, line, function)) => self.act(t, words, action, line, function),
        }
    }

    // Makes the action that thread t is at.
    fn act(
        &mut self,
        t: u32,
        words: &[u64],
        action: Action,
        line: u32,
        function: u32,
    ) -> Result<Turn, AllocError>
        requires next { next_at (world_of M.thread self.old).members t ≡ Some (Act action line function) }
        requires numbers { HasNumbers (world_of M.thread self.old) t }
        ensures { let w = world_of M.thread self.old in
            IfOk result (λ r. (r, world_of M.thread self.new) ≡ with_member w t words.now (member_at w.members t)) }
    {
        let Some(runner) = self.runners.get(&t) else {
            return Ok(Turn::Nothing);
        };
        let own = runner.counts.own_part(t, words, &action);
        let counts = runner.counts.after(t, words, &action);
        match self.shared.act(t, own, action)? {
            Effect::Breaks(class) => Ok(Turn::Broken(Check {
                class,
                line,
                function,
                thread: t,
            })),
            Effect::Waits => Ok(Turn::Nothing),
            Effect::Moves(answer) => {
                tell(&mut self.runners, t, &answer, counts)?;
                Ok(Turn::Moved)
            }
            Effect::Starts(number, f, v) => {
                start(&mut self.runners, t, number, f, v, counts)?;
                Ok(Turn::Moved)
            }
        }
    }
}
