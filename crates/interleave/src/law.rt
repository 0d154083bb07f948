//! That threads with the same local runs have the same runs together.

ghost use Rattle.actions.specs.LocalRun.{SameThreads};
ghost use Rattle.interleave.specs.Law.{Law, SameSystems};

use actions::Machine;

/// The law of systems: two threads with the same local runs, whose programs' threads have the same
/// local runs too, give the same answers to every turn of every schedule, and the same runs.
pub fn same_turns()
    ensures { Law }
{}

/// The law at the machines of two kinds.
pub fn same_systems<M: Machine, N: Machine>(m: &M, n: &N)
    requires { SameThreads (M.thread m.now) (N.thread n.now) }
    ensures { SameSystems (M.thread m.now) (N.thread n.now) }
{}
