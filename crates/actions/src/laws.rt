//! What the table of actions keeps, as functions that do nothing.

ghost use Rattle.actions.specs.LocalRun.{SameBehaviours};
ghost use Rattle.actions.specs.Memory.{WritesAlone};
ghost use Rattle.actions.specs.Row.{LooksAlone};

/// The law of local runs: what a thread does after each list of answers is determined by its local
/// runs, so threads with the same local runs have the same behaviour.
pub fn same_local_runs()
    ensures { SameBehaviours }
{}

/// The law of the table: what comes of an action depends only on the locations that its row reads.
pub fn rows_look_alone()
    ensures { LooksAlone }
{}

/// The law of changes: a change keeps what stands at the locations that it doesn't write.
pub fn changes_write_alone()
    ensures { WritesAlone }
{}
