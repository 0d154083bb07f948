//! The code of statements, which is put before the nodes that are made.

ghost use Rattle.std.specs.Prelude.{◌≡◌, ◌+◌, [], reverse, option_map, IfOk, OnOk};
ghost use Rattle.core_tree.specs.Trees.{view, boxed, view_statement, items_of, with_item, Items, block, if_else, for_loop, do_loop, switch};
ghost use Rattle.goto_prog.specs.Nodes.{Nodes, plain, nodes_of};
ghost use Rattle.goto_prog.specs.declared.code.Operation.TheVariants as operations;
ghost use Rattle.lowered_code.specs.Lowering.{at_line, top, plains, code, part_code, test_code, items_code};
ghost use Rattle.lowered_code.specs.Registers.{types, part_types, items_types};
ghost use Rattle.code_draft.specs.Drafts.{Listed, next};
ghost use Rattle.goto_lower.specs.Statements.{typed, ways_of, cases_of, default_of, Within, Inside, Drafted};

use crate::exits::{CasePlace, Cases, Exits, no_cases, within_block, within_loop, within_switch};
use crate::first_values::enter;
use crate::initializers::{initialize_number, initialize_structure};
use crate::jumps::{end_round, give, give_nothing, give_structure, go_to, leave_loop};
use crate::objects::{leave_before, live_items};
use crate::switches::{choose, enter_switch};
use code_draft::{Draft, more};
use core_tree::{CoreExpr, CoreItem, CoreStatement};
use goto_prog::{Node, Operation};
use std::alloc::{AllocError, Global};

// An expression.
fn evaluate(draft: &mut Draft<'_>, value: &CoreExpr, made: &mut Vec<Node>) -> Result<(), AllocError>
    requires { draft.old.instructions ≡ [] }
    ensures draft { OnOk result (draft.new ≡ typed draft.old (types draft.old.frame.variables (view value.now))) }
    ensures code { OnOk result (nodes_of (reverse made.new.items) ≡ plains (code draft.old.frame (view value.now) (next draft.old)) (nodes_of (reverse made.old.items))) }
{
    let _value = draft.expression(value)?;
    draft.flush(made)
}

// A part of a loop, which may be missing.
fn evaluate_part(
    draft: &mut Draft<'_>,
    part: &Option<Box<CoreExpr>>,
    made: &mut Vec<Node>,
) -> Result<(), AllocError>
    requires { draft.old.instructions ≡ [] }
    ensures draft { OnOk result (draft.new ≡ typed draft.old (part_types draft.old.frame.variables (option_map boxed part.now))) }
    ensures code { OnOk result (nodes_of (reverse made.new.items) ≡ plains (part_code draft.old.frame (option_map boxed part.now) (next draft.old)) (nodes_of (reverse made.old.items))) }
{
    match part {
        Some(value) => evaluate(draft, value, made),
        None => Ok(()),
    }
}

// A test, behind which so many places are passed over where it fails.
fn lower_test(
    draft: &mut Draft<'_>,
    line: u32,
    test: &CoreExpr,
    count: usize,
    made: &mut Vec<Node>,
) -> Result<(), AllocError>
    requires { draft.old.instructions ≡ [] }
    ensures draft { OnOk result (draft.new ≡ typed draft.old (types draft.old.frame.variables (view test.now))) }
    ensures code { OnOk result (nodes_of (reverse made.new.items) ≡ plains (code draft.old.frame (view test.now) (next draft.old)) (plain (at_line draft.old.frame line (operations.SkipIfZero (next draft.old + top draft.old.frame.variables (view test.now)) count)) (nodes_of (reverse made.old.items)))) }
{
    let value = draft.expression(test)?;
    let operand = value.register;
    draft.put(line, Operation::SkipIfZero { operand, count }, made)?;
    draft.flush(made)
}

// The test of a loop, which may be missing.
fn loop_test(
    draft: &mut Draft<'_>,
    line: u32,
    test: &Option<Box<CoreExpr>>,
    made: &mut Vec<Node>,
) -> Result<(), AllocError>
    requires { draft.old.instructions ≡ [] }
    ensures draft { OnOk result (draft.new ≡ typed draft.old (part_types draft.old.frame.variables (option_map boxed test.now))) }
    ensures code { OnOk result (nodes_of (reverse made.new.items) ≡ plains (test_code draft.old.frame line (option_map boxed test.now) (next draft.old)) (nodes_of (reverse made.old.items))) }
{
    match test {
        Some(test) => lower_test(draft, line, test, 1, made),
        None => Ok(()),
    }
}

// ---- the items of a block

// An item before the others.
#[cycle(statement)]
fn lower_item(
    draft: &mut Draft<'_>,
    alloc: Global,
    item: &CoreItem,
    exits: Exits,
    made: &mut Vec<Node>,
    cases: &mut Cases,
) -> Result<(), AllocError>
    requires { draft.old.instructions ≡ [] }
    ensures { (first : Listed) (rest : Nodes) (others : Items) → Within first rest exits others draft.old (nodes_of (reverse made.old.items)) cases.old → OnOk result (Within first rest exits (with_item item.now others) draft.new (nodes_of (reverse made.new.items)) cases.new) }
{
    match item {
        CoreItem::Declare { .. } => Ok(()),
        CoreItem::Initialize {
            line,
            variable,
            value,
            ..
        } => initialize_number(draft, *line, *variable, value, made),
        CoreItem::InitializeStructure {
            line,
            variable,
            value,
            ..
        } => {
            initialize_structure(draft, *line, *variable, value)?;
            draft.flush(made)
        }
        CoreItem::Statement { statement } => lower_statement(draft, alloc, statement, exits, made),
        CoreItem::Label { label } => {
            let place = more(exits.base, made.len())?;
            draft.know(*label, place)
        }
        CoreItem::Case { line, type_, bits } => {
            let place = more(exits.base, made.len())?;
            cases.places.push(CasePlace {
                line: *line,
                type_: *type_,
                bits: *bits,
                place,
            })?;
            Ok(())
        }
        CoreItem::Default { .. } => {
            let place = more(exits.base, made.len())?;
            cases.otherwise = Some(place);
            Ok(())
        }
    }
}

// Items, and the cases among them.
#[cycle(statement)]
fn lower_items(
    draft: &mut Draft<'_>,
    alloc: Global,
    items: &[CoreItem],
    exits: Exits,
    made: &mut Vec<Node>,
) -> Result<Cases, AllocError>
    requires { draft.old.instructions ≡ [] }
    ensures draft { OnOk result (draft.new ≡ typed draft.old (items_types draft.old.frame.variables (items_of items.now))) }
    ensures code { OnOk result (nodes_of (reverse made.new.items) ≡ items_code draft.old.frame exits.base (ways_of exits draft.old.frame draft.old.marks) (items_of items.now) (next draft.old) (nodes_of (reverse made.old.items))) }
    ensures cases { IfOk result (λ c. c.places.items ≡ cases_of draft.old.frame exits.base (ways_of exits draft.old.frame draft.old.marks) (items_of items.now) (next draft.old) (nodes_of (reverse made.old.items))) }
    ensures otherwise { IfOk result (λ c. c.otherwise ≡ default_of draft.old.frame exits.base (ways_of exits draft.old.frame draft.old.marks) (items_of items.now) (next draft.old) (nodes_of (reverse made.old.items))) }
{
    let known = draft.known();
    let mut cases = no_cases(alloc);
    for place in (0..items.len()).rev() {
        lower_item(draft, alloc, &items[place], exits, made, &mut cases)?;
    }
    draft.forget(known);
    Ok(cases)
}

// Items around which the objects of their variables live, and behind which these die.
#[cycle(statement)]
fn lower_inside(
    draft: &mut Draft<'_>,
    alloc: Global,
    items: &[CoreItem],
    exits: Exits,
    made: &mut Vec<Node>,
) -> Result<Cases, AllocError>
    requires { draft.old.instructions ≡ [] }
    ensures { IfOk result (λ c. Inside draft.old draft.new (nodes_of (reverse made.old.items)) (nodes_of (reverse made.new.items)) exits (items_of items.now) c) }
{
    let known = draft.known();
    let count = live_items(draft, items)?;
    leave_before(draft, count, made)?;
    let inner = within_block(exits, count)?;
    let cases = lower_items(draft, alloc, items, inner, made)?;
    draft.forget(known);
    Ok(cases)
}

// A block, with the first values of its own variables.
#[cycle(statement)]
fn block(
    draft: &mut Draft<'_>,
    alloc: Global,
    items: &[CoreItem],
    exits: Exits,
    made: &mut Vec<Node>,
) -> Result<(), AllocError>
    requires { draft.old.instructions ≡ [] }
    ensures { OnOk result (Drafted draft.old draft.new (nodes_of (reverse made.old.items)) (nodes_of (reverse made.new.items)) exits (block (items_of items.now))) }
{
    let _cases = lower_inside(draft, alloc, items, exits, made)?;
    enter(draft, items)?;
    draft.flush(made)
}

// ---- branches and loops

// `if` with `else`.
#[cycle(statement)]
fn branches(
    draft: &mut Draft<'_>,
    alloc: Global,
    line: u32,
    test: &CoreExpr,
    yes: &CoreStatement,
    no: &CoreStatement,
    exits: Exits,
    made: &mut Vec<Node>,
) -> Result<(), AllocError>
    requires { draft.old.instructions ≡ [] }
    ensures { OnOk result (Drafted draft.old draft.new (nodes_of (reverse made.old.items)) (nodes_of (reverse made.new.items)) exits (if_else line (view test.now) (view_statement yes.now) (view_statement no.now))) }
{
    let over = more(exits.base, made.len())?;
    lower_statement(draft, alloc, no, exits, made)?;
    let before = made.len();
    draft.jump_to(line, exits.base, over, made)?;
    lower_statement(draft, alloc, yes, exits, made)?;
    let count = made.len().saturating_sub(before);
    lower_test(draft, line, test, count, made)
}

// `while` and `for`, of which the parts that are evaluated stand around the loop and at its end.
#[cycle(statement)]
fn for_loop(
    draft: &mut Draft<'_>,
    alloc: Global,
    line: u32,
    number: u32,
    first: &Option<Box<CoreExpr>>,
    test: &Option<Box<CoreExpr>>,
    last: &Option<Box<CoreExpr>>,
    body: &CoreStatement,
    exits: Exits,
    made: &mut Vec<Node>,
) -> Result<(), AllocError>
    requires { draft.old.instructions ≡ [] }
    ensures { OnOk result (Drafted draft.old draft.new (nodes_of (reverse made.old.items)) (nodes_of (reverse made.new.items)) exits (for_loop line number (option_map boxed first.now) (option_map boxed test.now) (option_map boxed last.now) (view_statement body.now))) }
{
    let behind = more(exits.base, made.len())?;
    let mut round = Vec::new(alloc);
    loop_test(draft, line, test, &mut round)?;
    evaluate_part(draft, last, &mut round)?;
    let inner = within_loop(exits, behind, round.len())?;
    lower_statement(draft, alloc, body, inner, &mut round)?;
    draft.repeat(line, number, true, round, made)?;
    loop_test(draft, line, test, made)?;
    evaluate_part(draft, first, made)
}

// `do`.
#[cycle(statement)]
fn do_loop(
    draft: &mut Draft<'_>,
    alloc: Global,
    line: u32,
    number: u32,
    body: &CoreStatement,
    test: &CoreExpr,
    exits: Exits,
    made: &mut Vec<Node>,
) -> Result<(), AllocError>
    requires { draft.old.instructions ≡ [] }
    ensures { OnOk result (Drafted draft.old draft.new (nodes_of (reverse made.old.items)) (nodes_of (reverse made.new.items)) exits (do_loop line number (view_statement body.now) (view test.now))) }
{
    let behind = more(exits.base, made.len())?;
    let mut round = Vec::new(alloc);
    lower_test(draft, line, test, 1, &mut round)?;
    let inner = within_loop(exits, behind, round.len())?;
    lower_statement(draft, alloc, body, inner, &mut round)?;
    draft.repeat(line, number, false, round, made)
}

// `switch`.
#[cycle(statement)]
fn switch(
    draft: &mut Draft<'_>,
    alloc: Global,
    line: u32,
    value: &CoreExpr,
    items: &[CoreItem],
    exits: Exits,
    made: &mut Vec<Node>,
) -> Result<(), AllocError>
    requires { draft.old.instructions ≡ [] }
    ensures { OnOk result (Drafted draft.old draft.new (nodes_of (reverse made.old.items)) (nodes_of (reverse made.new.items)) exits (switch line (view value.now) (items_of items.now))) }
{
    let count = made.len();
    let behind = more(exits.base, count)?;
    let inner = within_switch(exits, behind);
    let cases = lower_inside(draft, alloc, items, inner, made)?;
    draft.jump_to(line, exits.base, cases.otherwise.unwrap_or(behind), made)?;
    let register = enter_switch(draft, line, value, items, &cases, exits.base, count, made)?;
    choose(draft, line, value, register, made)
}

/// Puts the code of a statement before the nodes that are made.
#[cycle(statement)]
pub(crate) fn lower_statement(
    draft: &mut Draft<'_>,
    alloc: Global,
    statement: &CoreStatement,
    exits: Exits,
    made: &mut Vec<Node>,
) -> Result<(), AllocError>
    requires { draft.old.instructions ≡ [] }
    ensures { OnOk result (Drafted draft.old draft.new (nodes_of (reverse made.old.items)) (nodes_of (reverse made.new.items)) exits (view_statement statement.now)) }
{
    match statement {
        CoreStatement::Block { items } => block(draft, alloc, items, exits, made),
        CoreStatement::If { line, test, yes } => {
            let before = made.len();
            lower_statement(draft, alloc, yes, exits, made)?;
            let count = made.len().saturating_sub(before);
            lower_test(draft, *line, test, count, made)
        }
        CoreStatement::IfElse {
            line,
            test,
            yes,
            no,
        } => branches(draft, alloc, *line, test, yes, no, exits, made),
        CoreStatement::Evaluate { expression } => evaluate(draft, expression, made),
        CoreStatement::Return { line, value } => give(draft, *line, value, exits, made),
        CoreStatement::ReturnStructure { line, value } => {
            give_structure(draft, *line, value, exits, made)
        }
        CoreStatement::ReturnNothing { line } => give_nothing(draft, *line, exits, made),
        CoreStatement::For {
            line,
            number,
            first,
            test,
            last,
            body,
        } => for_loop(
            draft, alloc, *line, *number, first, test, last, body, exits, made,
        ),
        CoreStatement::Do {
            line,
            number,
            body,
            test,
        } => do_loop(draft, alloc, *line, *number, body, test, exits, made),
        CoreStatement::Switch { line, value, items } => {
            switch(draft, alloc, *line, value, items, exits, made)
        }
        CoreStatement::Break { line } => leave_loop(draft, *line, exits, made),
        CoreStatement::Continue { line } => end_round(draft, *line, exits, made),
        CoreStatement::Goto { line, label } => go_to(draft, *line, *label, exits, made),
        CoreStatement::Stray { statement, .. } => {
            lower_statement(draft, alloc, statement, exits, made)
        }
    }
}
