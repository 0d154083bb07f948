//! From a program to what its runs do.

ghost use Rattle.std.specs.Prelude.{◌≡◌, ◌≤◌, length, true, false, None, IfOk, IfErr};
ghost use Rattle.std.specs.List.{list_all};
ghost use Rattle.actions.specs.ByteList.{are_bytes};
ghost use Rattle.actions.specs.Behaviour.{Thread};
ghost use Rattle.word_dag.specs.Meaning.{width};
ghost use Rattle.word_dag.specs.Growth.{Within};
ghost use Rattle.core_tree.specs.Trees.{view_literals, view_core};
ghost use Rattle.c_meaning.specs.Source.{source_thread, first_objects, are_storable};
ghost use Rattle.interleave.specs.World.{first_world};
ghost use Rattle.goto_prog.specs.Flat.{main_code, plain_thread};
ghost use Rattle.goto_prog.specs.Static.{is_static_code};
ghost use Rattle.goto_unwind.specs.Counts.{passed};
ghost use Rattle.goto_unwind.specs.LocalRuns.{MakesFew};
ghost use Rattle.event_forms.specs.Forms.{IsForm, AreStatic};
ghost use Rattle.event_forms.specs.Accesses.{AreFirst};
ghost use Rattle.event_forms.specs.Goals.{IsGoal};
ghost use Rattle.event_forms.specs.Formulas.{told_by, IsFormula, FormulaIn};
ghost use Rattle.run_search.specs.Stops.{StopsWith, IsPassed};
ghost use Rattle.run_search.specs.Searches.{IsSolved, IsSearched};

use crate::stop::Stop;
use crate::used::Used;
use bit_blast::{blast, lift};
use c_interp::safe_at_all;
use c_profile::Admitted;
use cdcl_search::{Answer, solve};
use core_tree::{Bounds, Literal};
use counted_code::lowered_code_counts_objects;
use event_forms::Formula;
use goto_checks::insert;
use goto_lower::lower;
use goto_prog::Unrolled;
use goto_unwind::{UnwindError, passed_limit, unwind};
use guarded_ssa::threads;
use interleave::Trace;
use mem_seq::sequential;
use points_to::Sets;
use refutation_check::Checker;
use sat_form::no_model;
use std::alloc::{AllocError, Global};
use trace_build::build;
use word_dag::{Dag, Id, Valuation};

/// What a search for values that make a goal true came to.
#[derive(Drop)]
enum Solved {
    /// These values do.
    Values(Valuation),
    /// None do: the clauses of the goal, and a refutation of them.
    Refuted(Used),
    /// The clauses of the goal, and a log that has used up the budget.
    Budget(Used),
}

/// What a search of a program's runs came to.
#[derive(Drop)]
pub enum Searched {
    /// No run within the bounds breaks a check: the clauses of the program, and a refutation of them.
    Refuted(Used),
    /// A run that breaks a check.
    Broken(Trace),
    /// The clauses of the program, and a log that has used up the budget.
    Budget(Used),
}

// The objects of a file that can be stored are as those of a program's start are.
fn prove_objects(file: &Admitted)
    ensures { are_storable (view_core file.now) ≡ true → AreFirst (first_objects (view_core file.now)) }
{
    let core = file.core();
    let _objects = core.objects();
    prove_texts(core.literals());
}

// Bytes are numbers below 256.
fn prove_text(_text: &[u8])
    ensures { are_bytes _text.now ≡ true }
{}

// So are those of each literal.
#[tactic(auto, using(crate::proofs::FirstStores::text_more))]
fn prove_texts(literals: &[Literal])
    ensures { list_all are_bytes (view_literals literals.now) ≡ true }
{
    for place in (0..literals.len()).rev() {
        prove_text(&literals[place].bytes);
    }
}

/// The code of a program with explicit checks and without loops and calls, or the count that passes its limit. No local run of
/// it makes more than 8,192 objects with those of its first store.
fn unrolled_code(alloc: Global, file: &Admitted, bounds: &Bounds) -> Result<Unrolled, Stop>
    requires { file.now.pointers ≡ false }
    ensures counts { IfOk result (λ u. passed (view_core file.now) bounds.now ≡ None) }
    ensures same { IfOk result (λ u. (plain_thread u).behaves ≡ (source_thread (view_core file.now) bounds.now).behaves) }
    ensures store { IfOk result (λ u. u.store ≡ first_objects (view_core file.now)) }
    ensures objects { IfOk result (λ u. AreFirst u.store) }
    ensures plain { IfOk result (λ u. is_static_code (main_code u).instructions ≡ true) }
    ensures few { IfOk result (λ u. MakesFew (length u.store) (plain_thread u)) }
    ensures stop { IfErr result (λ s. StopsWith s (IsPassed bounds.now (view_core file.now))) }
{
    prove_objects(file);
    lowered_code_counts_objects();
    let _most = bounds.malloc_limit();
    let _unwind = bounds.unwind();
    let _set = bounds.set();
    if let Some(limit) = passed_limit(alloc, file, bounds)? {
        return Err(Stop::Limited(limit));
    }
    let lowered = lower(alloc, file)?;
    let checked = insert(alloc, lowered)?;
    match unwind(alloc, file, &checked, bounds) {
        Ok(unrolled) => Ok(unrolled),
        Err(UnwindError::Limit(limit)) => Err(Stop::Limited(limit)),
        Err(UnwindError::Memory) => Err(Stop::Memory),
    }
}

/// The formula of the runs of unrolled code that break a check.
fn formula_of(alloc: Global, dag: &mut Dag, unrolled: &Unrolled) -> Result<Formula, AllocError>
    requires plain { is_static_code (main_code unrolled.now).instructions ≡ true }
    ensures within { IfOk result (λ f. FormulaIn dag.new f) }
    ensures plain { IfOk result (λ f. AreStatic dag.new f.form.events) }
    ensures form { IfOk result (λ f. (t : Thread) → (plain_thread unrolled.now).behaves ≡ t.behaves → IsForm t.behaves dag.new f.form.events) }
    ensures formula { IfOk result (λ f. (t : Thread) → AreFirst unrolled.now.store → (plain_thread unrolled.now).behaves ≡ t.behaves → IsFormula (first_world t unrolled.now.store) dag.new f) }
    ensures runs { IfOk result (λ f. (t : Thread) → AreFirst unrolled.now.store → (plain_thread unrolled.now).behaves ≡ t.behaves → IsGoal (first_world t unrolled.now.store) dag.new f.goal (told_by dag.new f.form)) }
{
    let forms = threads(alloc, unrolled, dag)?;
    let sets = Sets::of(alloc, unrolled)?;
    sequential(alloc, dag, &forms[0], &sets)
}

/// Values of the variables that make a goal true, if there are any. A refutation counts only once its checker accepted it,
/// whose memory is taken before the search, so that no want of memory comes in between.
fn values_for(alloc: Global, dag: &Dag, goal: Id, budget: u32) -> Result<Solved, AllocError>
    requires there { Within dag.now goal }
    requires bit { width dag.now goal ≡ 1 }
    requires budget { 1 ≤ budget }
    ensures { IfOk result (IsSolved dag.now goal budget) }
{
    no_model();
    let blasted = blast(alloc, dag, goal)?;
    // A clause that is learned has no variable twice.
    let variables = blasted.cnf.variables();
    let mut checker = Checker::new(alloc, variables, variables as usize)?;
    let answer = solve(alloc, &blasted.cnf, budget as u64)?;
    match answer {
        Answer::Sat(model) => Ok(Solved::Values(lift(alloc, &blasted, &model)?)),
        Answer::Unsat(log) => {
            if !checker.check(&blasted.cnf, &log) {
                unreachable!()
            }
            let form = blasted.cnf;
            Ok(Solved::Refuted(Used { form, log }))
        }
        Answer::Spent(log) => {
            let form = blasted.cnf;
            Ok(Solved::Budget(Used { form, log }))
        }
    }
}

/// A run of the program within the bounds that breaks a check, or a refutation, if one of the two is found within the
/// budget; or the count that passes its limit. No form over pointers stands in the program.
pub fn search(
    alloc: Global,
    file: &Admitted,
    bounds: &Bounds,
    budget: u32,
) -> Result<Searched, Stop>
    requires plain { file.now.pointers ≡ false }
    requires budget { 1 ≤ budget }
    ensures counts { IfOk result (λ _. passed (view_core file.now) bounds.now ≡ None) }
    ensures found { IfOk result (IsSearched bounds.now budget (view_core file.now)) }
    ensures stop { IfErr result (λ s. StopsWith s (IsPassed bounds.now (view_core file.now))) }
{
    safe_at_all();
    let unrolled = unrolled_code(alloc, file, bounds)?;
    let mut dag = Dag::new(alloc);
    let formula = formula_of(alloc, &mut dag, &unrolled)?;
    let solved = values_for(alloc, &dag, formula.goal, budget)?;
    match solved {
        Solved::Refuted(used) => Ok(Searched::Refuted(used)),
        Solved::Values(values) => {
            let trace = build(alloc, file, bounds, &dag, &formula, &values)?;
            Ok(Searched::Broken(trace))
        }
        Solved::Budget(used) => Ok(Searched::Budget(used)),
    }
}
