//! What the tasks of statements and of loops do next.

ghost use Rattle.std.specs.Prelude.{◌≡◌, ◌<◌, ◌==◌, ◌&&◌, true, false, Some, None, [], if◌then◌else◌};
ghost use Rattle.std.specs.Str.{bytes_eq};
ghost use Rattle.c_meaning.specs.Source as source;
ghost use Rattle.core_tree.specs.Trees.{view_statement, items_of, block};
ghost use Rattle.c_tasks.specs.declared.task.Plan.TheVariants as Plan;
ghost use Rattle.c_tasks.specs.declared.task.Stacked.TheVariants as Stacked;
ghost use Rattle.c_tasks.specs.declared.task.Stage.TheVariants as Stage;
ghost use Rattle.c_tasks.specs.declared.task.Taken.TheVariants as Taken;
ghost use Rattle.c_tasks.specs.declared.task.Task.TheVariants as Task;
ghost use Rattle.c_tasks.specs.declared.task.Written.TheVariants as Written;
ghost use Rattle.c_tasks.specs.Items.{second, Item, runs, turns, retests, loops};
ghost use Rattle.c_tasks.specs.Steps.{stops};
ghost use Rattle.c_tasks.specs.Plans.{LeadsOut};
ghost use Rattle.c_tasks.specs.Tasks.{end_of, loop_in, statement_item};
ghost use Rattle.c_tasks.specs.Plans.{PlansItem, Plans, code_in};

use crate::block_items::{entry, going_on, items_task, plan_select};
use c_tasks::{
    Cut, Halt, Handed, Look, Part, Plan, Stacked, Stage, Taken, Task, Written, evaluating,
    evaluation, plan_passed_bound, pushes, takes, top_of,
};
use c_values::Number;
use core_tree::{Bounds, CoreExpr, CoreItem, CoreStatement, CoreStructure, LoopBound};
use words::Class;

// A statement at a stage.
fn at_stage<'a>(statement: &'a CoreStatement, stage: Stage) -> Task<'a>
    ensures { result ≡ Task.Statement statement.entry stage }
{
    Task::Statement { statement, stage }
}

/// A statement is to be run.
pub fn running<'a>(statement: &'a CoreStatement) -> Task<'a>
    ensures { result ≡ Task.Statement statement.entry Stage.Run }
{
    Task::Statement {
        statement,
        stage: Stage::Run,
    }
}

// A test or a value is evaluated, and then the statement ends.
fn number_first<'a>(expression: &'a CoreExpr, statement: &'a CoreStatement) -> Plan<'a>
    ensures { result ≡ Plan.Goes (record {
      tasks = record { first = Some (Task.Expression expression.entry false); second = Some (Task.Statement statement.entry Stage.End); third = None };
      taken = Taken.None;
      put = None;
      stacked = Stacked.Kept;
      written = Written.Nothing;
    }) }
{
    pushes(
        Taken::None,
        evaluating(expression),
        Some(at_stage(statement, Stage::End)),
        None,
    )
}

// A structure value is evaluated, and then the statement ends.
fn value_first<'a>(value: &'a CoreStructure, statement: &'a CoreStatement) -> Plan<'a>
    ensures { result ≡ Plan.Goes (record {
      tasks = record { first = Some (Task.Structure value.entry false); second = Some (Task.Statement statement.entry Stage.End); third = None };
      taken = Taken.None;
      put = None;
      stacked = Stacked.Kept;
      written = Written.Nothing;
    }) }
{
    pushes(
        Taken::None,
        evaluation(value),
        Some(at_stage(statement, Stage::End)),
        None,
    )
}

// A statement goes on at a stage.
fn stays<'a>(statement: &'a CoreStatement, stage: Stage) -> Plan<'a>
    ensures { result ≡ Plan.Goes (record {
      tasks = record { first = Some (Task.Statement statement.entry stage); second = None; third = None };
      taken = Taken.None;
      put = None;
      stacked = Stacked.Kept;
      written = Written.Nothing;
    }) }
{
    pushes(Taken::None, at_stage(statement, stage), None, None)
}

// The body of a loop is run, and then the loop goes on at a stage.
fn body_first<'a>(body: &'a CoreStatement, statement: &'a CoreStatement, stage: Stage) -> Plan<'a>
    ensures { result ≡ Plan.Goes (record {
      tasks = record { first = Some (Task.Statement body.entry Stage.Run); second = Some (Task.Statement statement.entry stage); third = None };
      taken = Taken.None;
      put = None;
      stacked = Stacked.Kept;
      written = Written.Nothing;
    }) }
{
    pushes(
        Taken::None,
        running(body),
        Some(at_stage(statement, stage)),
        None,
    )
}

// The test of a loop is evaluated, and then the loop goes on at a stage.
fn test_first<'a>(test: &'a CoreExpr, statement: &'a CoreStatement, stage: Stage) -> Plan<'a>
    ensures { result ≡ Plan.Goes (record {
      tasks = record { first = Some (Task.Expression test.entry false); second = Some (Task.Statement statement.entry stage); third = None };
      taken = Taken.None;
      put = None;
      stacked = Stacked.Kept;
      written = Written.Nothing;
    }) }
{
    pushes(
        Taken::None,
        evaluating(test),
        Some(at_stage(statement, stage)),
        None,
    )
}

fn plan_block<'a>(look: &Look, items: &'a Vec<CoreItem>) -> Plan<'a>
    ensures { PlansItem look.now (runs (block (items_of items.now.items))) result }
{
    pushes(
        Taken::None,
        entry(items, 0),
        Some(going_on(items, 0)),
        Some(items_task(items, 0, Part::End)),
    )
}

// A part of a loop whose value isn't used is evaluated before another task.
fn before<'a>(part: &'a CoreExpr, next: Task<'a>) -> Plan<'a>
    ensures { result ≡ Plan.Goes (record {
      tasks = record { first = Some (Task.Expression part.entry false); second = Some Task.Drop; third = Some next.entry };
      taken = Taken.None;
      put = None;
      stacked = Stacked.Kept;
      written = Written.Nothing;
    }) }
{
    pushes(Taken::None, evaluating(part), Some(Task::Drop), Some(next))
}

// The plan of a statement that is to be run.
fn plan_statement<'a>(look: &Look, statement: &'a CoreStatement) -> Plan<'a>
    ensures { PlansItem look.now (runs (view_statement statement.now)) result }
{
    match statement {
        CoreStatement::Block { items } => plan_block(look, items),
        CoreStatement::If { test, .. } => number_first(test, statement),
        CoreStatement::IfElse { test, .. } => number_first(test, statement),
        CoreStatement::Evaluate { expression } => number_first(expression, statement),
        CoreStatement::Switch { value, .. } => number_first(value, statement),
        CoreStatement::For {
            number,
            first: Some(first),
            ..
        } => {
            let rounds = tests_of(look, *number).saturating_sub(1);
            before(first, at_stage(statement, Stage::Retest(rounds)))
        }
        CoreStatement::For {
            number,
            first: None,
            ..
        } => {
            let rounds = tests_of(look, *number).saturating_sub(1);
            stays(statement, Stage::Retest(rounds))
        }
        CoreStatement::Do { number, .. } => {
            let rounds = tests_of(look, *number);
            stays(statement, Stage::Turn(rounds))
        }
        CoreStatement::Stray { statement, .. } => {
            pushes(Taken::None, running(statement), None, None)
        }
        _ => plan_jump(look, statement),
    }
}

// A statement leads out of others.
fn goes_out<'a>(cut: Cut) -> Plan<'a>
    ensures { result ≡ Plan.Goes (record {
      tasks = record { first = Some (Task.Out cut); second = None; third = None };
      taken = Taken.None;
      put = None;
      stacked = Stacked.Kept;
      written = Written.Nothing;
    }) }
{
    pushes(Taken::None, Task::Out(cut), None, None)
}

// The plan of a statement that leads out of others.
fn plan_jump<'a>(look: &Look, statement: &'a CoreStatement) -> Plan<'a>
    requires { LeadsOut (view_statement statement.now) }
    ensures { PlansItem look.now (runs (view_statement statement.now)) result }
{
    match statement {
        CoreStatement::Return { value, .. } => number_first(value, statement),
        CoreStatement::ReturnStructure { value, .. } => value_first(value, statement),
        CoreStatement::ReturnNothing { .. } => { goes_out(Cut::Return(Handed::Nothing)) }
        CoreStatement::Break { .. } => goes_out(Cut::Break),
        CoreStatement::Continue { .. } => goes_out(Cut::Continue),
        CoreStatement::Goto { label, .. } => goes_out(Cut::Jump(*label)),
        _ => unreachable!(),
    }
}

// The plan of a statement whose test or value is evaluated.
fn plan_end<'a>(look: &Look, statement: &'a CoreStatement) -> Plan<'a>
    ensures { PlansItem look.now (end_of (view_statement statement.now)) result }
{
    let x = top_of(look.numbers);
    match statement {
        CoreStatement::If { yes, .. } => {
            if x.is_true() {
                pushes(Taken::One, running(yes), None, None)
            } else {
                takes(Taken::One)
            }
        }
        CoreStatement::IfElse { yes, no, .. } => {
            if x.is_true() {
                pushes(Taken::One, running(yes), None, None)
            } else {
                pushes(Taken::One, running(no), None, None)
            }
        }
        CoreStatement::Return { .. } => Plan::Cuts(Cut::Return(Handed::Number)),
        CoreStatement::ReturnStructure { .. } => { Plan::Cuts(Cut::Return(Handed::Structure)) }
        CoreStatement::Switch { items, .. } => plan_select(look, items),
        _ => takes(Taken::One),
    }
}

// ---- loops

fn is_loop_named(bound: &LoopBound, name: &[u8], number: u32) -> bool
    ensures { result ≡ (bytes_eq bound.now.function.bytes.items name.now && bound.now.number == number) }
{
    bound.function.bytes.as_slice() == name && bound.number == number as u64
}

// How many times the test of a loop may be evaluated.
fn tests_in(bounds: &Bounds, name: &[u8], number: u32) -> u32
    ensures { result ≡ source.tests_in bounds.now.set bounds.now.unwind name.now number }
{
    for bound in bounds.set() {
        if is_loop_named(bound, name, number) {
            return bound.unwind;
        }
    }
    bounds.unwind()
}

fn tests_of(look: &Look, number: u32) -> u32
    ensures { result ≡ (code_in look.now).tests look.now.function number }
{
    match look.functions.get(look.function as usize) {
        Some(function) => tests_in(look.bounds, &function.name.bytes, number),
        None => tests_in(look.bounds, &[], number),
    }
}

fn line_of_loop(statement: &CoreStatement) -> u32
    ensures { result ≡ (loop_in (view_statement statement.now)).line }
{
    match statement {
        CoreStatement::For { line, .. } => *line,
        CoreStatement::Do { line, .. } => *line,
        _ => 0,
    }
}

// The plan of a loop's next round.
fn plan_turn<'a>(look: &Look, rounds: u32, statement: &'a CoreStatement) -> Plan<'a>
    ensures { PlansItem look.now (turns rounds (loop_in (view_statement statement.now))) result }
{
    if rounds == 0 {
        return plan_passed_bound(look, Class::Unwind, line_of_loop(statement));
    }
    let end = Stage::Body(rounds - 1);
    match statement {
        CoreStatement::For { body, .. } => body_first(body, statement, end),
        CoreStatement::Do { body, .. } => body_first(body, statement, end),
        _ => body_first(statement, statement, end),
    }
}

// The plan of a loop's test.
fn plan_retest<'a>(look: &Look, rounds: u32, statement: &'a CoreStatement) -> Plan<'a>
    ensures { PlansItem look.now (retests rounds (loop_in (view_statement statement.now))) result }
{
    let repeat = Stage::Repeat(rounds);
    match statement {
        CoreStatement::For {
            test: Some(test),
            ..
        } => test_first(test, statement, repeat),
        CoreStatement::Do { test, .. } => test_first(test, statement, repeat),
        _ => stays(statement, Stage::Turn(rounds)),
    }
}

// The plan of the end of a loop's body.
fn plan_body_end<'a>(look: &Look, rounds: u32, statement: &'a CoreStatement) -> Plan<'a>
    ensures { PlansItem look.now (loops rounds (loop_in (view_statement statement.now))) result }
{
    match statement {
        CoreStatement::For {
            last: Some(last),
            ..
        } => before(last, at_stage(statement, Stage::Retest(rounds))),
        _ => stays(statement, Stage::Retest(rounds)),
    }
}

/// The plan of a statement at a stage.
pub fn plan_stage<'a>(look: &Look, statement: &'a CoreStatement, stage: Stage) -> Plan<'a>
    ensures { PlansItem look.now (statement_item (view_statement statement.now) stage) result }
{
    match stage {
        Stage::Run => plan_statement(look, statement),
        Stage::End => plan_end(look, statement),
        Stage::Turn(rounds) => plan_turn(look, rounds, statement),
        Stage::Retest(rounds) => plan_retest(look, rounds, statement),
        Stage::Repeat(rounds) => {
            if top_of(look.numbers).is_true() {
                pushes(
                    Taken::One,
                    at_stage(statement, Stage::Turn(rounds)),
                    None,
                    None,
                )
            } else {
                takes(Taken::One)
            }
        }
        Stage::Body(rounds) => plan_body_end(look, rounds, statement),
    }
}
