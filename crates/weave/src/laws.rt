//! The laws of candidates, as functions that do nothing.

ghost use Rattle.std.specs.Prelude.{ℕ};
ghost use Rattle.weave.specs.Laws.{CandidatesReplay, ReadsAlone, ReadsByReads, RunsHaveCandidates};
ghost use Rattle.weave.specs.Ranks.{RanksRise};
ghost use Rattle.weave.specs.Scripts.{ScriptsAreFamilies, SharedIsWhole};
ghost use Rattle.weave.specs.Tables.{AreRows, table};
ghost use Rattle.weave.specs.Words.{WordsAreInputs};

/// The law of the table: what comes of a step depends only on what it reads, and what it reads
/// depends only on what it finds.
pub fn rows_read_alone()
    ensures alone { ReadsAlone }
    ensures reads { ReadsByReads }
{}

/// A consistent candidate with a break replays: along its order each turn makes the event that
/// stands there and moves, up to the first that breaks (CAV 2013).
pub fn candidates_replay()
    ensures { CandidatesReplay ℕ }
{}

/// Each run, stopped at any turn, gives a consistent candidate whose order is the run's turns that
/// move or break.
pub fn runs_have_candidates()
    ensures { RunsHaveCandidates }
{}

/// Ranks in a strict order of events rise, and are below the number of the events: so an order that
/// is told pair by pair has clocks.
pub fn ranks_rise()
    ensures { RanksRise ℕ }
{}

/// The words that a list of events draws are the words of some inputs.
pub fn words_are_inputs()
    ensures { WordsAreInputs ℕ }
{}

/// What is asked of threads and of a first store is met: by every script of fewer than 256 steps, and
/// by the store of the tables.
pub fn scripts_are_families()
    ensures scripts { ScriptsAreFamilies }
    ensures store { SharedIsWhole }
{}

/// The tables of small schedules: which of their turns are events, the events' clocks, and how the
/// runs end.
pub fn tables_hold()
    ensures { AreRows table }
{}
