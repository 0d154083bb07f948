//! From a valuation of the formula to the inputs and the schedule of a run.

ghost use Rattle.std.specs.Prelude.{◌≡◌, true, IfOk};
ghost use Rattle.word_dag.specs.Meaning.{value, valuation_of};
ghost use Rattle.core_tree.specs.Trees.{view_core};
ghost use Rattle.c_meaning.specs.Source.{source_world};
ghost use Rattle.interleave.specs.Replay.{Replays};
ghost use Rattle.event_forms.specs.Forms.{FormIn};
ghost use Rattle.event_forms.specs.Turns.{breaks, inputs_for};
ghost use Rattle.event_forms.specs.Goals.{IsGoal};
ghost use Rattle.event_forms.specs.Formulas.{told_by, FormulaIn, run_of, inputs_of, schedule_of, check_of as check_told};
ghost use Rattle.trace_build.specs.Walking.{IsEnd};

use crate::values::Values;
use crate::walking::Walk;
use c_profile::Admitted;
use core_tree::Bounds;
use event_forms::{Formula, ThreadForm};
use interleave::{Inputs, Schedule, Trace, Words};
use std::alloc::{AllocError, Global};
use word_dag::{Dag, Valuation};
use words::Check;

// The words and turns of the run that the form tells, which breaks a check, and that check.
fn collect(alloc: Global, values: Values, form: &ThreadForm) -> Result<(Walk, Check), AllocError>
    requires within { FormIn values.dag.now form.now.events }
    requires breaks { breaks (run_of (valuation_of values.valuation.now) values.dag.now form.now) ≡ true }
    ensures { IfOk result (λ r. IsEnd (run_of (valuation_of values.entry.valuation.now) values.entry.dag.now form.now) r.0.words.items r.0.turns.items r.1) }
{
    let mut walk = Walk::new(alloc, form.store())?;
    'walking: for event in form.events() {
        if let Some(check) = walk.step(values, event)? {
            return Ok((walk, check));
        }
    }
    unreachable!()
}

// The inputs with these words for thread 0.
fn inputs(alloc: Global, words: Vec<u64>) -> Result<Inputs, AllocError>
    ensures { IfOk result (λ i. i ≡ inputs_for words.items) }
{
    let mut inputs = Inputs::new(alloc);
    if !words.is_empty() {
        inputs.insert(0, Words::new(words))?;
    }
    Ok(inputs)
}

/// The run that breaks a check, out of values of the variables that make the formula of a file true: on its
/// inputs and by its schedule the last turn breaks the trace's check, every earlier turn moves, and the
/// inputs are exactly the words drawn. The only error is that there is no memory, or that an object has no number of 32 bits.
#[tactic(auto, using(crate::proofs::Replayed::goal_breaks))]
pub fn build(
    alloc: Global,
    file: &Admitted,
    bounds: &Bounds,
    dag: &Dag,
    formula: &Formula,
    valuation: &Valuation,
) -> Result<Trace, AllocError>
    requires formula { IsGoal (source_world (view_core file.now) bounds.now) dag.now formula.now.goal (told_by dag.now formula.now.form) }
    requires within { FormulaIn dag.now formula.now }
    requires satisfied { value (valuation_of valuation.now) dag.now formula.now.goal ≡ 1 }
    ensures replays { IfOk result (λ t. Replays (source_world (view_core file.now) bounds.now) t.inputs t.schedule t.check) }
    ensures parts { IfOk result (λ t. (t.inputs ≡ inputs_of (valuation_of valuation.now) dag.now formula.now.form) × (t.schedule ≡ schedule_of (valuation_of valuation.now) dag.now formula.now.form) × (t.check ≡ check_told (valuation_of valuation.now) dag.now formula.now.form)) }
{
    let words = dag.words(alloc, valuation)?;
    let values = Values {
        dag,
        valuation,
        words: &words,
    };
    let (walk, check) = collect(alloc, values, &formula.form)?;
    let Walk { words, turns, .. } = walk;
    Ok(Trace {
        inputs: inputs(alloc, words)?,
        schedule: Schedule::new(turns),
        check,
    })
}
