//! A run: turns by a schedule.

ghost use Rattle.std.specs.Prelude.{◌≡◌, ◌<◌, ◌^◌, true, [], Some, option_map, IfOk, OnOk};
ghost use Rattle.std.specs.Ordering.{nat_cmp};
ghost use Rattle.std.specs.BTreeMap.{insert_entry};
ghost use Rattle.actions.specs.Behaviour.{accepts, answered};
ghost use Rattle.interleave.specs.World.{child, with_told, member_at};
ghost use Rattle.interleave.specs.View.{member_of, members_of, next_at, told_at, started_at, AcceptsAt, CreatesAt};

use crate::counts::Counts;
use actions::{Answer, Machine, Next};
use std::alloc::AllocError;
use std::collections::BTreeMap;
use words::Word;

/// A thread of a run: its machine and its own record.
#[derive(Drop)]
pub(crate) struct Runner<M> {
    pub(crate) machine: M,
    pub(crate) counts: Counts,
}

impl<M: Machine> Runner<M> {
    fn next(&mut self) -> Result<Next, AllocError>
        ensures same { member_of M.thread self.new ≡ member_of M.thread self.old }
        ensures next { IfOk result (λ next. next ≡ (M.thread (self.old).machine).behaves []) }
    {
        self.machine.advance()
    }

    // Gives the answer to the action that is next, and the record after it.
    fn tell(&mut self, answer: &Answer, counts: Counts) -> Result<(), AllocError>
        requires { accepts ((M.thread (self.old).machine).behaves []) answer.now ≡ true }
        ensures { OnOk result (member_of M.thread self.new ≡ record { thread = answered (M.thread (self.old).machine) answer.now; counts = counts }) }
    {
        self.machine.answer(answer)?;
        self.counts = counts;
        Ok(())
    }

    // A new thread of the same program.
    fn child(&self, function: u32, v: u64) -> Result<Runner<M>, AllocError>
        requires { (M.thread (self.now).machine).program.can_start function ≡ true }
        ensures { IfOk result (λ c. member_of M.thread c ≡ child (member_of M.thread self.now) function v) }
    {
        let machine = self.machine.start(function, Word::new(v, 64))?;
        Ok(Runner {
            machine,
            counts: Counts {
                creations: 0,
                objects: 0,
                used: 0,
            },
        })
    }
}

/// What thread t does next, if it is there.
pub(crate) fn next_of<M: Machine>(
    runners: &mut BTreeMap<u32, Runner<M>>,
    t: u32,
) -> Result<Option<Next>, AllocError>
    ensures same { members_of M.thread runners.new.entries ≡ members_of M.thread runners.old.entries }
    ensures next { IfOk result (λ next. next ≡ next_at (members_of M.thread runners.old.entries) t) }
{
    match runners.get_mut(&t) {
        None => Ok(None),
        Some(runner) => {
            let next = runner.next()?;
            Ok(Some(next))
        }
    }
}

/// Gives thread t the answer to its next action, and the record after it.
pub(crate) fn tell<M: Machine>(
    runners: &mut BTreeMap<u32, Runner<M>>,
    t: u32,
    answer: &Answer,
    counts: Counts,
) -> Result<(), AllocError>
    requires { AcceptsAt (members_of M.thread runners.old.entries) t answer.now }
    ensures { let members = members_of M.thread runners.old.entries in
        OnOk result (members_of M.thread runners.new.entries ≡ told_at members t answer.now counts (member_at members t)) }
{
    match runners.get_mut(&t) {
        None => Ok(()),
        Some(runner) => {
            runner.tell(answer, counts)?;
            Ok(())
        }
    }
}

/// Starts the thread with this number for a Create of thread t, and gives it the number.
pub(crate) fn start<M: Machine>(
    runners: &mut BTreeMap<u32, Runner<M>>,
    t: u32,
    number: u32,
    function: u32,
    v: u64,
    counts: Counts,
) -> Result<(), AllocError>
    requires { CreatesAt (members_of M.thread runners.old.entries) t function v }
    ensures { let members = members_of M.thread runners.old.entries in
        OnOk result (members_of M.thread runners.new.entries ≡ started_at members t number function v counts (member_at members t)) }
{
    match child_of(runners, t, function, v)? {
        None => Ok(()),
        Some(child) => {
            tell(runners, t, &Answer::Number(number), counts)?;
            runners.insert(number, child)?;
            Ok(())
        }
    }
}

// The thread that a Create of thread t starts.
fn child_of<M: Machine>(
    runners: &BTreeMap<u32, Runner<M>>,
    t: u32,
    function: u32,
    v: u64,
) -> Result<Option<Runner<M>>, AllocError>
    requires { CreatesAt (members_of M.thread runners.now.entries) t function v }
    ensures { IfOk result (λ c. option_map (member_of M.thread) c ≡ option_map (λ m. child m function v) (member_at (members_of M.thread runners.now.entries) t)) }
{
    match runners.get(&t) {
        None => Ok(None),
        Some(runner) => {
            let child = runner.child(function, v)?;
            Ok(Some(child))
        }
    }
}
