//! A file run on the inputs and the schedule of a script.

ghost use Rattle.std.specs.Prelude.{◌≡◌, ◌≤◌, ◌<◌, ◌+◌, ◌^◌, true, length, IfOk, OnOk, OnErr};
ghost use Rattle.core_tree.specs.Trees.{view_core};
ghost use Rattle.c_meaning.specs.Source.{source_run, are_storable};
ghost use Rattle.c_interp.specs.SourceThread.{SmallSteps, EnoughFuel};
ghost use Rattle.c_interp.specs.Unlimited.{SafeAtAll};
ghost use Rattle.c_interp.specs.Larger.{SafeWithinMore};
ghost use Rattle.interleave.specs.View.{world_of, is_dead};
ghost use Rattle.interleave.specs.Turn.{turn};
ghost use Rattle.interleave.specs.Run as definition;
ghost use Rattle.c_interp.specs.View.{thread_of};
ghost use Rattle.c_interp.specs.Alone.{AreFewTurns, IsAlone, made_in, IsTurn};

use crate::thread::Thread;
use c_meaning::first_store;
use c_profile::Admitted;
use core_tree::Bounds;
use interleave::{Inputs, Outcome, Schedule, System, Turn};
use std::alloc::{AllocError, Global};
use words::Check;

// A turn of thread t, and the check that it breaks. There is thread 0 alone, and a number for the object that
// it may make. Fails only where the system's turn did.
fn take_turn(
    system: &mut System<Thread>,
    t: u32,
    inputs: &Inputs,
) -> Result<Option<Check>, AllocError>
    requires alone { IsAlone (world_of thread_of system.old) }
    requires few { made_in (world_of thread_of system.old) + 1 < 2 ^ 32 }
    ensures turn { IfOk result (λ c. IsTurn (turn (world_of thread_of system.old) t inputs.now) (world_of thread_of system.new) c) }
    ensures alone { OnOk result (IsAlone (world_of thread_of system.new)) }
    ensures made { OnOk result (made_in (world_of thread_of system.new) ≤ made_in (world_of thread_of system.old) + 1) }
    ensures dead { OnErr result (is_dead system.new ≡ true) }
{
    match system.turn(t, inputs)? {
        Turn::Broken(check) => Ok(Some(check)),
        Turn::Moved => Ok(None),
        Turn::Nothing => Ok(None),
    }
}

// How the turns of this schedule end. Fails only where one of the system's did.
fn take_turns(
    system: &mut System<Thread>,
    inputs: &Inputs,
    schedule: &[u32],
) -> Result<Outcome, AllocError>
    requires alone { IsAlone (world_of thread_of system.old) }
    requires few { made_in (world_of thread_of system.old) + length schedule.now < 2 ^ 32 }
    ensures outcome { IfOk result (λ o. o ≡ (definition.run (world_of thread_of system.old) inputs.now schedule.now).0) }
    ensures dead { OnErr result (is_dead system.new ≡ true) }
{
    for t in schedule {
        match take_turn(system, *t, inputs)? {
            Some(check) => return Ok(Outcome::Broken(check)),
            None => {}
        }
    }
    Ok(Outcome::Fine)
}

/// How the run of a file ends that draws these inputs and moves by this schedule. Its static objects and
/// literals are not too many and not too large, and there are numbers for an object of each turn. Fails only
/// for want of memory.
pub fn run(
    alloc: Global,
    file: &Admitted,
    bounds: &Bounds,
    inputs: &Inputs,
    schedule: &Schedule,
) -> Result<Outcome, AllocError>
    requires storable { are_storable (view_core file.now) ≡ true }
    requires few { AreFewTurns schedule.now }
    ensures { IfOk result (λ o. o ≡ source_run (view_core file.now) bounds.now inputs.now schedule.now) }
{
    let first = Thread::new(alloc, file, bounds)?;
    let store = first_store(alloc, file)?;
    let mut system = System::new(alloc, first, store)?;
    take_turns(&mut system, inputs, schedule.as_slice())
}

/// The law of small steps: from the start of a thread they do what its function means. And that of fuel:
/// what calls do doesn't depend on it, where it is more than can be open of all functions together.
pub fn small_steps_mean()
    ensures steps { SmallSteps }
    ensures fuel { EnoughFuel }
{}

/// The law of unwinding assertions: where passing a bound breaks a check and no run within the bounds
/// breaks one, no run without bounds does (TACAS 2004, section 3).
pub fn safe_at_all()
    ensures { SafeAtAll }
{}

/// The same law by the meaning of a file: where passing a bound breaks a check and no run within the bounds
/// breaks one, no run within larger bounds does.
pub fn safe_within_more()
    ensures { SafeWithinMore }
{}
