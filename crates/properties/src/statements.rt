//! The loops and assertions of statements.

ghost use Rattle.std.specs.Prelude.{◌≡◌, OnOk};
ghost use Rattle.std.specs.Option.{option_map};
ghost use Rattle.c_tree.specs.Tree.{view, boxed};
ghost use Rattle.c_tree.specs.Statements.{view_statement, items_of, view_item, done};
ghost use Rattle.properties.specs.Spots.{with_tree, with_value, with_statement, with_items};

use crate::declarations::push_declaration;
use crate::expressions::{push_expression, push_value};
use crate::spots::{Spot, push_loop};
use c_tree::{Expr, Item, Stmt};
use std::alloc::AllocError;

#[cycle(statements)]
fn push_items(items: &[Item], spots: &mut Vec<Spot>) -> Result<(), AllocError>
    ensures { OnOk result (spots.new.items ≡ with_items spots.old.items (items_of items.now)) }
{
    for item in items {
        push_item(item, spots)?;
    }
    Ok(())
}

#[cycle(statements)]
fn push_item(item: &Item, spots: &mut Vec<Spot>) -> Result<(), AllocError>
    ensures { OnOk result (spots.new.items ≡ with_items spots.old.items (view_item item.now done)) }
{
    match item {
        Item::Declares(declaration) => {
            push_declaration(declaration, spots)?;
            Ok(())
        }
        Item::Does(statement) => {
            push_statement(statement, spots)?;
            Ok(())
        }
    }
}

/// A test, and the statement behind it.
#[cycle(statements)]
fn push_tested(test: &Expr, body: &Stmt, spots: &mut Vec<Spot>) -> Result<(), AllocError>
    ensures { OnOk result (spots.new.items ≡ with_statement (with_tree spots.old.items (view test.now)) (view_statement body.now)) }
{
    push_expression(test, spots)?;
    push_statement(body, spots)?;
    Ok(())
}

/// What stands behind the first part of a `for`.
#[cycle(statements)]
fn push_rest(
    test: &Option<Box<Expr>>,
    last: &Option<Box<Expr>>,
    body: &Stmt,
    spots: &mut Vec<Spot>,
) -> Result<(), AllocError>
    ensures { OnOk result (spots.new.items
        ≡ with_statement (with_value (with_value spots.old.items (option_map boxed test.now)) (option_map boxed last.now)) (view_statement body.now)) }
{
    push_value(test, spots)?;
    push_value(last, spots)?;
    push_statement(body, spots)?;
    Ok(())
}

/// Notes the loops and assertions of a statement, in the order of their own tokens.
#[cycle(statements)]
pub fn push_statement(statement: &Stmt, spots: &mut Vec<Spot>) -> Result<(), AllocError>
    ensures { OnOk result (spots.new.items ≡ with_statement spots.old.items (view_statement statement.now)) }
{
    match statement {
        Stmt::Block { items, .. } => {
            push_items(items, spots)?;
            Ok(())
        }
        Stmt::If { test, yes, .. } => {
            push_tested(test, yes, spots)?;
            Ok(())
        }
        Stmt::IfElse { test, yes, no, .. } => {
            push_tested(test, yes, spots)?;
            push_statement(no, spots)?;
            Ok(())
        }
        Stmt::Evaluate { expression } => {
            push_expression(expression, spots)?;
            Ok(())
        }
        Stmt::ReturnNothing { .. } => Ok(()),
        Stmt::ReturnValue { value, .. } => {
            push_expression(value, spots)?;
            Ok(())
        }
        Stmt::Empty { .. } => Ok(()),
        Stmt::While { line, test, body } => {
            push_loop(*line, spots)?;
            push_tested(test, body, spots)?;
            Ok(())
        }
        Stmt::Do { line, body, test } => {
            push_loop(*line, spots)?;
            push_statement(body, spots)?;
            push_expression(test, spots)?;
            Ok(())
        }
        Stmt::For {
            line,
            first,
            test,
            last,
            body,
        } => {
            push_loop(*line, spots)?;
            push_value(first, spots)?;
            push_rest(test, last, body, spots)?;
            Ok(())
        }
        Stmt::ForDeclared {
            line,
            declaration,
            test,
            last,
            body,
        } => {
            push_loop(*line, spots)?;
            push_declaration(declaration, spots)?;
            push_rest(test, last, body, spots)?;
            Ok(())
        }
        Stmt::Switch { value, body, .. } => {
            push_tested(value, body, spots)?;
            Ok(())
        }
        Stmt::Case { value, body, .. } => {
            push_tested(value, body, spots)?;
            Ok(())
        }
        Stmt::Default { body, .. } => {
            push_statement(body, spots)?;
            Ok(())
        }
        Stmt::Label { body, .. } => {
            push_statement(body, spots)?;
            Ok(())
        }
        Stmt::Goto { .. } => Ok(()),
        Stmt::Break { .. } => Ok(()),
        Stmt::Continue { .. } => Ok(()),
    }
}
