//! The laws of forms of many threads, as functions that do nothing.

ghost use Rattle.std.specs.Prelude.{ℕ};
ghost use Rattle.thread_forms.specs.EachRun.{CandidatesAreFit, RunsAreTold, RunsHaveGoals};
ghost use Rattle.thread_forms.specs.Instance.{AreTwoThreads, HasCreate, HasOrder, IsInstance};
ghost use Rattle.thread_forms.specs.Meets.{MeetsIsConsistent};
ghost use Rattle.thread_forms.specs.Order.{CandidateHasGoal, GoalIsCandidate};
ghost use Rattle.thread_forms.specs.Runs.{RunsGiveValuations};
ghost use Rattle.thread_forms.specs.ScriptBounds.{ScriptsAreBounded, SharedIsTyped};
ghost use Rattle.thread_forms.specs.ScriptForms.{ScriptsHaveForms};
ghost use Rattle.thread_forms.specs.ToldTables.{AreToldRows};
ghost use Rattle.thread_forms.specs.ValuedTables.{AreValued, valued_table};
ghost use Rattle.weave.specs.Tables.{table};

/// A valuation of the forms of a program's threads, with marks that meet conditions on one, two or
/// three events at a time, gives a consistent candidate.
pub fn meets_is_consistent()
    ensures { MeetsIsConsistent }
{}

/// Each consistent candidate in which every answer has the shape that its action asks for is told by
/// one valuation of all forms, with marks that meet the conditions, event for event.
pub fn runs_give_valuations()
    ensures { RunsGiveValuations ℕ }
{}

/// A formula that keeps its promise is true only for valuations whose candidate is consistent and
/// has a break, and for each consistent candidate with a break there is one that makes it true.
pub fn goals_are_candidates()
    ensures only { GoalIsCandidate }
    ensures each { CandidateHasGoal ℕ }
{}

/// Threads that hand over bytes, sizes and values of their kinds, whose threads of threads create none,
/// and that make fewer than 65,536 objects each: in each of their consistent candidates every answer
/// has the shape that its action asks for.
pub fn candidates_are_fit()
    ensures { CandidatesAreFit ℕ }
{}

/// Each run of such threads, on any inputs and by any schedule, is told by one valuation of their forms
/// with marks that meet the conditions; where it breaks a check, a formula that keeps its promise is
/// true for a valuation that takes its turns.
pub fn runs_are_told()
    ensures told { RunsAreTold }
    ensures goals { RunsHaveGoals }
{}

/// Scripts in which no thread that one creates creates another are bounded threads.
pub fn scripts_are_bounded()
    ensures scripts { ScriptsAreBounded }
    ensures store { SharedIsTyped }
{}

/// A script whose main creates threads that create none has forms: one event for each step of each
/// thread, and one variable for each answer.
pub fn scripts_have_forms()
    ensures { ScriptsHaveForms }
{}

/// The tables of small schedules as valuations: the scripts have forms, and a valuation with marks that
/// meet the conditions tells the run of each schedule. Of the shorter ones the valuation is evaluated:
/// with its answers the events of each form are the run's turns of its thread.
pub fn tables_are_told()
    ensures told { AreToldRows table }
    ensures evaluated { AreValued valued_table }
{}

/// What is asked of forms, of marks and of a formula is met: by a main that ends the process, by one
/// that creates a thread, where all that is asked of two threads is met at once, and by one that breaks
/// a check.
pub fn forms_exist()
    ensures ends { IsInstance }
    ensures creates { HasCreate }
    ensures both { AreTwoThreads }
    ensures breaks { HasOrder }
{}
