//! Statements.

ghost use Rattle.std.specs.Prelude.{◌≡◌, ◌≤◌, ℕ, [], List, false, length, option_map, MatchOption, OnOk};
ghost use Rattle.c_tree.specs.Tree.{view as tree_of, boxed as boxed_tree};
ghost use Rattle.c_tree.specs.Declarations.{parts_of, declarators_of};
ghost use Rattle.c_tree.specs.Statements.{Items, done, view_item, for_declared, switch_on};
ghost use Rattle.c_tree.specs.Files.{is_block};
ghost use Rattle.c_tree.specs.Statements.{view_statement as tree};
ghost use Rattle.c_tree.specs.Statements.{items_of as trees};
ghost use Rattle.core_tree.specs.Trees.{boxed, view_statement, items_of};
ghost use Rattle.c_scope.specs.Faults.{Gives};
ghost use Rattle.c_elab_type.specs.Steps.{Step};
ghost use Rattle.c_elab_flow.specs.Nodes.{view_around, in_loop};
ghost use Rattle.c_elab_flow.specs.Lookahead.{Passes, with_jumps, first_jumps, jumped_behind};
ghost use Rattle.c_elab_decl.specs.Statements.{typed_statement, typed_rest, typed_body, typed_front, typed_items};
ghost use Rattle.c_elab_decl.specs.StatementSteps.{Fronts, alone, IsBlockOf};

use c_elab_base::Region;
use c_elab_expr::operand;
use c_elab_flow::{
    Ahead, Around, add_case, add_default, ahead_of, block_of, break_on, case_on, close_switch,
    continue_on, default_on, do_on, evaluated, for_on, goto_on, if_else_on, if_on, in_loop,
    in_switch, label_on, next_label, next_loop, open_switch, part_ignored, part_tested,
    return_nothing, returned, switch_of, switch_type, while_on,
};
use c_elab_object::declare;
use c_scope::{Scope, TypingError};
use c_tree::{Declaration, Expr, Item, Stmt};
use core_tree::{CoreExpr, CoreItem, CoreStatement};
use std::alloc::Global;

/// The items of a block; any other statement has none.
pub(crate) fn block_items(statement: &Stmt) -> Option<&[Item]>
    ensures { MatchOption result (is_block (tree statement.now) ≡ false) (λ items. IsBlockOf statement.now items.now) }
{
    match statement {
        Stmt::Block { items, .. } => Some(items),
        Stmt::If { .. }
        | Stmt::IfElse { .. }
        | Stmt::Evaluate { .. }
        | Stmt::ReturnNothing { .. }
        | Stmt::ReturnValue { .. }
        | Stmt::Empty { .. }
        | Stmt::While { .. }
        | Stmt::Do { .. }
        | Stmt::For { .. }
        | Stmt::ForDeclared { .. }
        | Stmt::Switch { .. }
        | Stmt::Case { .. }
        | Stmt::Default { .. }
        | Stmt::Label { .. }
        | Stmt::Goto { .. }
        | Stmt::Break { .. }
        | Stmt::Continue { .. } => None,
    }
}

/// A statement. The scope keeps its names and gets the statement's variables.
#[cycle(statement)]
pub fn typed_statement(
    alloc: Global,
    statement: &Stmt,
    around: Around,
    scope: &mut Scope,
) -> Result<Box<CoreStatement>, TypingError>
    ensures gives { Gives (λ c. (view_statement c.value, scope.new)) result (typed_statement (view_around around.entry) scope.old (tree statement.now)) }
    ensures names { OnOk result (scope.new.bindings ≡ scope.old.bindings) }
{
    match statement {
        Stmt::Block { items, .. } => {
            let outer = scope.len();
            let items = typed_items(alloc, items, false, around, scope, outer)?;
            scope.leave(outer);
            block_of(alloc, items)
        }
        Stmt::If { line, test, yes } => {
            let test = operand(alloc, test, scope)?;
            let yes = typed_statement(alloc, yes, around, scope)?;
            if_on(alloc, *line, test, yes)
        }
        Stmt::IfElse {
            line,
            test,
            yes,
            no,
        } => {
            let test = operand(alloc, test, scope)?;
            let yes = typed_statement(alloc, yes, around, scope)?;
            let no = typed_statement(alloc, no, around, scope)?;
            if_else_on(alloc, *line, test, yes, no)
        }
        Stmt::Evaluate { expression } => evaluated(alloc, expression, scope),
        Stmt::ReturnNothing { line } => return_nothing(alloc, *line, scope),
        Stmt::ReturnValue { line, value } => returned(alloc, *line, value, scope),
        Stmt::Empty { .. } => block_of(alloc, Vec::new(alloc)),
        Stmt::While { line, test, body } => {
            let number = next_loop(scope)?;
            let test = operand(alloc, test, scope)?;
            let body = typed_statement(alloc, body, in_loop(around), scope)?;
            while_on(alloc, *line, number, test, body)
        }
        Stmt::Do { line, body, test } => {
            let number = next_loop(scope)?;
            let body = typed_statement(alloc, body, in_loop(around), scope)?;
            let test = operand(alloc, test, scope)?;
            do_on(alloc, *line, number, body, test)
        }
        Stmt::For {
            line,
            first,
            test,
            last,
            body,
        } => {
            let number = next_loop(scope)?;
            let first = part_ignored(alloc, first, scope)?;
            typed_rest(alloc, *line, number, first, test, last, body, around, scope)
        }
        Stmt::ForDeclared {
            line,
            declaration,
            test,
            last,
            body,
        } => typed_for(alloc, *line, declaration, test, last, body, around, scope),
        Stmt::Switch { line, value, body } => {
            typed_switch(alloc, *line, body, value, around, scope)
        }
        Stmt::Case { line, value, body } => {
            let value = operand(alloc, value, scope)?;
            let body = typed_statement(alloc, body, around, scope)?;
            case_on(alloc, *line, &value, body, scope)
        }
        Stmt::Default { line, body } => {
            let body = typed_statement(alloc, body, around, scope)?;
            default_on(alloc, *line, body, scope)
        }
        Stmt::Label { line, name, body } => {
            let number = next_label(scope)?;
            let body = typed_statement(alloc, body, around, scope)?;
            label_on(name, number, *line, around)?;
            Ok(body)
        }
        Stmt::Goto { line, name } => goto_on(alloc, name, *line, around),
        Stmt::Break { line } => break_on(alloc, around.breaks, *line),
        Stmt::Continue { line } => continue_on(alloc, around.continues, *line),
    }
}

// The loop with a number, behind its first part.
#[cycle(statement)]
fn typed_rest(
    alloc: Global,
    line: u32,
    number: u32,
    first: Option<Box<CoreExpr>>,
    test: &Option<Box<Expr>>,
    last: &Option<Box<Expr>>,
    body: &Stmt,
    around: Around,
    scope: &mut Scope,
) -> Result<Box<CoreStatement>, TypingError>
    ensures gives { Gives (λ c. (view_statement c.value, scope.new)) result (typed_rest line number (option_map boxed first) scope.old (option_map boxed_tree test.now) (option_map boxed_tree last.now) (typed_statement (in_loop (view_around around.entry)) scope.old (tree body.now))) }
    ensures names { OnOk result (scope.new.bindings ≡ scope.old.bindings) }
{
    let test = part_tested(alloc, test, scope)?;
    let last = part_ignored(alloc, last, scope)?;
    let body = typed_statement(alloc, body, in_loop(around), scope)?;
    for_on(alloc, line, number, first, test, last, body)
}

// A `for` with a declaration, which stands before it in a block around both.
#[cycle(statement)]
fn typed_for(
    alloc: Global,
    line: u32,
    declaration: &Declaration,
    test: &Option<Box<Expr>>,
    last: &Option<Box<Expr>>,
    body: &Stmt,
    around: Around,
    scope: &mut Scope,
) -> Result<Box<CoreStatement>, TypingError>
    ensures gives { Gives (λ c. (view_statement c.value, scope.new)) result (typed_statement (view_around around.entry) scope.old
        (for_declared line (parts_of declaration.now.specifiers.items) (declarators_of declaration.now.declarators.items) (option_map boxed_tree test.now) (option_map boxed_tree last.now) (tree body.now))) }
    ensures names { OnOk result (scope.new.bindings ≡ scope.old.bindings) }
{
    let outer = scope.len();
    let region = Region {
        outer,
        is_file: false,
    };
    let mut items = Vec::new(alloc);
    declare(alloc, declaration, false, scope, region, &mut items)?;
    let number = next_loop(scope)?;
    let statement = typed_rest(alloc, line, number, None, test, last, body, around, scope)?;
    items.push(CoreItem::Statement { statement })?;
    scope.leave(outer);
    block_of(alloc, items)
}

#[cycle(statement)]
fn typed_switch(
    alloc: Global,
    line: u32,
    body: &Stmt,
    value: &Expr,
    around: Around,
    scope: &mut Scope,
) -> Result<Box<CoreStatement>, TypingError>
    ensures gives { Gives (λ c. (view_statement c.value, scope.new)) result (typed_statement (view_around around.entry) scope.old (switch_on line (tree_of value.now) (tree body.now))) }
    ensures names { OnOk result (scope.new.bindings ≡ scope.old.bindings) }
{
    let value = operand(alloc, value, scope)?;
    let outer = open_switch(alloc, switch_type(&value), scope);
    let items = typed_body(alloc, body, in_switch(around), scope)?;
    close_switch(outer, scope);
    switch_of(alloc, line, value, items)
}

// The body of a switch: a block's items are those of the switch.
#[cycle(statement)]
fn typed_body(
    alloc: Global,
    body: &Stmt,
    around: Around,
    scope: &mut Scope,
) -> Result<Vec<CoreItem>, TypingError>
    ensures gives { Gives (λ v. (items_of v.items, scope.new)) result (typed_body (view_around around.entry) scope.old (tree body.now)) }
    ensures names { OnOk result (scope.new.bindings ≡ scope.old.bindings) }
{
    match block_items(body) {
        Some(items) => {
            let outer = scope.len();
            let items = typed_items(alloc, items, true, around, scope, outer)?;
            scope.leave(outer);
            Ok(items)
        }
        None => {
            let statement = typed_statement(alloc, body, around, scope)?;
            let mut items = Vec::new(alloc);
            items.push(CoreItem::Statement { statement })?;
            Ok(items)
        }
    }
}

/// The items of a list that began with `outer` names in scope, and is a switch's or isn't.
#[cycle(statement)]
pub fn typed_items(
    alloc: Global,
    items: &[Item],
    switched: bool,
    around: Around,
    scope: &mut Scope,
    outer: usize,
) -> Result<Vec<CoreItem>, TypingError>
    requires { outer ≤ length scope.old.bindings }
    ensures gives { Gives (λ v. (items_of v.items, scope.new)) result (typed_items (view_around around.entry) switched outer [] scope.old (trees items.now)) }
    ensures within { OnOk result (outer ≤ length scope.new.bindings) }
{
    let mut cores = Vec::new(alloc);
    let mut ahead = ahead_of(alloc, items, switched)?;
    let mut number = 0;
    for item in items {
        typed_item(
            alloc, item, switched, number, around, scope, outer, &mut ahead, &mut cores,
        )?;
        number += 1;
    }
    Ok(cores)
}

// The item with a number.
#[cycle(statement)]
fn typed_item(
    alloc: Global,
    item: &Item,
    switched: bool,
    number: usize,
    around: Around,
    scope: &mut Scope,
    outer: usize,
    ahead: &mut Ahead,
    items: &mut Vec<CoreItem>,
) -> Result<(), TypingError>
    requires { outer ≤ length scope.old.bindings }
    ensures step { (jumped : List (List ℕ)) (rest : Items) → Passes ahead.old switched number jumped rest →
        Step result items.old.items items.new.items
        (typed_items (view_around around.entry) switched outer jumped scope.old (view_item item.now rest))
        (typed_items (view_around around.entry) switched outer (jumped_behind jumped (view_item item.now rest)) scope.new rest) }
    ensures noted { OnOk result (ahead.new ≡ with_jumps ahead.old (first_jumps (view_item item.now done))) }
    ensures within { OnOk result (outer ≤ length scope.new.bindings) }
{
    match item {
        Item::Declares(declaration) => {
            let region = Region {
                outer,
                is_file: false,
            };
            let passed = ahead.is_passed(number);
            declare(alloc, declaration, passed, scope, region, items)
        }
        Item::Does(statement) => {
            typed_front(alloc, statement, switched, around, scope, items)?;
            ahead.note_jumps(statement);
            Ok(())
        }
    }
}

// A statement in a list, which is a switch's or isn't, with the labels and cases before it.
#[cycle(statement)]
fn typed_front(
    alloc: Global,
    statement: &Stmt,
    switched: bool,
    around: Around,
    scope: &mut Scope,
    items: &mut Vec<CoreItem>,
) -> Result<(), TypingError>
    ensures front { Fronts result scope.new items.old.items items.new.items (typed_front (view_around around.entry) switched scope.old (tree statement.now) (typed_statement (view_around around.entry) scope.old (tree statement.now))) }
    ensures names { OnOk result (scope.new.bindings ≡ scope.old.bindings) }
{
    match statement {
        Stmt::Label { line, name, body } => {
            let label = next_label(scope)?;
            items.push(CoreItem::Label { label })?;
            typed_front(alloc, body, switched, around, scope, items)?;
            label_on(name, label, *line, around)
        }
        Stmt::Case { line, value, body } => {
            if !switched {
                return add_statement(alloc, statement, around, scope, items);
            }
            let value = operand(alloc, value, scope)?;
            let place = items.len();
            items.push(CoreItem::Default { line: *line })?;
            typed_front(alloc, body, switched, around, scope, items)?;
            let (type_, bits) = add_case(&value, *line, scope)?;
            items[place] = CoreItem::Case {
                line: *line,
                type_,
                bits,
            };
            Ok(())
        }
        Stmt::Default { line, body } => {
            if !switched {
                return add_statement(alloc, statement, around, scope, items);
            }
            items.push(CoreItem::Default { line: *line })?;
            typed_front(alloc, body, switched, around, scope, items)?;
            add_default(*line, scope)
        }
        _ => add_statement(alloc, statement, around, scope, items),
    }
}

#[cycle(statement)]
fn add_statement(
    alloc: Global,
    statement: &Stmt,
    around: Around,
    scope: &mut Scope,
    items: &mut Vec<CoreItem>,
) -> Result<(), TypingError>
    ensures front { Fronts result scope.new items.old.items items.new.items (alone (typed_statement (view_around around.entry) scope.old (tree statement.now))) }
    ensures names { OnOk result (scope.new.bindings ≡ scope.old.bindings) }
{
    let statement = typed_statement(alloc, statement, around, scope)?;
    items.push(CoreItem::Statement { statement })?;
    Ok(())
}
