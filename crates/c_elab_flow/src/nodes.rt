//! Nodes of statements.

ghost use Rattle.std.specs.Prelude.{◌≡◌, option_map, Ok, Err, OnOk, if◌then◌else◌};
ghost use Rattle.c_tree.specs.Tree.{view as tree_of, boxed as boxed_tree, view_name};
ghost use Rattle.core_tree.specs.Trees.{boxed, boxed_statement, view_statement, items_of};
ghost use Rattle.core_tree.specs.Trees as cores;
ghost use Rattle.c_scope.specs.Scopes.{Scoped};
ghost use Rattle.c_scope.specs.Faults.{Gives, fault, on_line};
ghost use Rattle.c_operands.specs.Operands.{view_operand};
ghost use Rattle.c_elab_flow.specs.Nodes.{view_around, in_loop, in_switch, part_ignored, part_tested, test_node, return_node, return_nothing_node, switch_value, label_node, jump_node, block_on, evaluated, returned, if_on, if_else_on, while_on, do_on, for_on, switch_on, case_on, default_on};

use crate::flows::{add_case, add_default, switch_type};
use crate::jumps::Labels;
use crate::places::{number_on, record_on};
use c_elab_expr::{ignored, operand};
use c_operands::{CoreOperand, as_type, dropped};
use c_scope::{Scope, TypingError};
use c_tree::{Expr, Name};
use c_types::Ty;
use core_tree::{CoreExpr, CoreItem, CoreStatement};
use std::alloc::Global;

/// What stands around a statement: the labels of its function, and whether `break` and `continue` have their statements.
#[derive(Clone, Copy)]
pub struct Around<'a> {
    pub labels: &'a Labels,
    pub breaks: bool,
    pub continues: bool,
}

/// What is around a loop's body: `break` and `continue` are its own.
pub fn in_loop<'a>(around: Around<'a>) -> Around<'a>
    ensures { view_around result ≡ in_loop (view_around around.entry) }
{
    Around {
        labels: around.labels,
        breaks: true,
        continues: true,
    }
}

/// What is around a switch's body: `break` is its own.
pub fn in_switch<'a>(around: Around<'a>) -> Around<'a>
    ensures { view_around result ≡ in_switch (view_around around.entry) }
{
    Around {
        labels: around.labels,
        breaks: true,
        continues: around.continues,
    }
}

/// Nothing, or an expression whose value isn't used.
pub fn part_ignored(
    alloc: Global,
    part: &Option<Box<Expr>>,
    scope: &Scope,
) -> Result<Option<Box<CoreExpr>>, TypingError>
    ensures { Gives (option_map boxed) result (part_ignored scope.now (option_map boxed_tree part.now)) }
{
    match part {
        None => Ok(None),
        Some(expr) => {
            let operand = ignored(alloc, expr, scope)?;
            Ok(Some(dropped(alloc, operand, scope.layouts())?))
        }
    }
}

/// Nothing, or the operand of a test.
pub fn part_tested(
    alloc: Global,
    part: &Option<Box<Expr>>,
    scope: &Scope,
) -> Result<Option<CoreOperand>, TypingError>
    ensures { Gives (option_map view_operand) result (part_tested scope.now (option_map boxed_tree part.now)) }
{
    match part {
        None => Ok(None),
        Some(expr) => Ok(Some(operand(alloc, expr, scope)?)),
    }
}

// A test is scalar.
fn test_on(test: Option<CoreOperand>, line: u32) -> Result<Option<Box<CoreExpr>>, TypingError>
    ensures { Gives (option_map boxed) result (on_line line (test_node (option_map view_operand test))) }
{
    match test {
        None => Ok(None),
        Some(operand) => Ok(Some(number_on(operand, line, 17)?)),
    }
}

// What `return` hands over.
fn return_value(
    alloc: Global,
    line: u32,
    value: CoreOperand,
    scope: &Scope,
) -> Result<Box<CoreStatement>, TypingError>
    ensures { Gives boxed_statement result (on_line line (return_node scope.now.records.done line scope.now.flow.gives (view_operand value))) }
{
    let gives = &scope.flow().gives;
    match gives {
        Ty::Void => Err(TypingError::Typing { line, rule: 16 }),
        Ty::Integer(type_) => {
            let value = number_on(value, line, 8)?;
            let value = as_type(alloc, *type_, value)?;
            Ok(Box::new(alloc, CoreStatement::Return { line, value })?)
        }
        Ty::Record(_) => {
            let value = record_on(alloc, gives, value, scope.layouts(), line, 8)?;
            Ok(Box::new(alloc, CoreStatement::ReturnStructure { line, value })?)
        }
        Ty::Array { .. } | Ty::Pointer { .. } | Ty::Function(_) => {
            Err(TypingError::Typing { line, rule: 8 })
        }
    }
}

/// A `return` without a value, or the rule that it breaks (C11 6.8.6.4).
pub fn return_nothing(
    alloc: Global,
    line: u32,
    scope: &Scope,
) -> Result<Box<CoreStatement>, TypingError>
    ensures { Gives boxed_statement result (on_line line (return_nothing_node line scope.now.flow.gives)) }
{
    match scope.flow().gives {
        Ty::Void => Ok(Box::new(alloc, CoreStatement::ReturnNothing { line })?),
        _ => Err(TypingError::Typing { line, rule: 16 }),
    }
}

// The value of a switch is an integer, and is promoted.
fn switch_value(alloc: Global, value: CoreOperand, line: u32) -> Result<Box<CoreExpr>, TypingError>
    ensures { Gives boxed result (on_line line (switch_value (view_operand value))) }
{
    let type_ = switch_type(&value);
    let value = number_on(value, line, 17)?;
    Ok(as_type(alloc, type_, value)?)
}

/// A label with this number has a name that no label before it has.
pub fn label_on(name: &Name, number: u32, line: u32, around: Around) -> Result<(), TypingError>
    ensures { Gives (λ u. tt) result (on_line line (label_node (view_around around.entry).labels (view_name name.now) number)) }
{
    match around.labels.number(&name.bytes) {
        Some(first) => {
            if first == number {
                Ok(())
            } else {
                Err(TypingError::Typing { line, rule: 15 })
            }
        }
        None => Err(TypingError::Typing { line, rule: 15 }),
    }
}

/// A `goto`, or the rule that it breaks (C11 6.8.6.1).
pub fn goto_on(
    alloc: Global,
    name: &Name,
    line: u32,
    around: Around,
) -> Result<Box<CoreStatement>, TypingError>
    ensures { Gives boxed_statement result (on_line line (jump_node line (view_around around.entry).labels (view_name name.now))) }
{
    match around.labels.number(&name.bytes) {
        Some(label) => Ok(Box::new(alloc, CoreStatement::Goto { line, label })?),
        None => Err(TypingError::Typing { line, rule: 15 }),
    }
}

/// `break`, which has its statement.
pub fn break_on(alloc: Global, fits: bool, line: u32) -> Result<Box<CoreStatement>, TypingError>
    ensures { Gives boxed_statement result (if fits then Ok (cores.breaks line) else Err (fault line 14)) }
{
    if fits {
        Ok(Box::new(alloc, CoreStatement::Break { line })?)
    } else {
        Err(TypingError::Typing { line, rule: 14 })
    }
}

/// `continue`, which has its statement.
pub fn continue_on(alloc: Global, fits: bool, line: u32) -> Result<Box<CoreStatement>, TypingError>
    ensures { Gives boxed_statement result (if fits then Ok (cores.continues line) else Err (fault line 14)) }
{
    if fits {
        Ok(Box::new(alloc, CoreStatement::Continue { line })?)
    } else {
        Err(TypingError::Typing { line, rule: 14 })
    }
}

/// An expression statement, in front of any scope behind it.
pub fn evaluated(
    alloc: Global,
    expression: &Expr,
    scope: &Scope,
) -> Result<Box<CoreStatement>, TypingError>
    ensures { (s : Scoped) → Gives (λ c. (view_statement c.value, s)) result (evaluated scope.now (tree_of expression.now) s) }
{
    let operand = ignored(alloc, expression, scope)?;
    let expression = dropped(alloc, operand, scope.layouts())?;
    Ok(Box::new(alloc, CoreStatement::Evaluate { expression })?)
}

/// `return` with a value, in front of any scope behind it.
pub fn returned(
    alloc: Global,
    line: u32,
    value: &Expr,
    scope: &Scope,
) -> Result<Box<CoreStatement>, TypingError>
    ensures { (s : Scoped) → Gives (λ c. (view_statement c.value, s)) result (returned line scope.now (tree_of value.now) s) }
{
    let value = operand(alloc, value, scope)?;
    return_value(alloc, line, value, scope)
}

/// A block of these items, in front of any scope behind it.
pub fn block_of(alloc: Global, items: Vec<CoreItem>) -> Result<Box<CoreStatement>, TypingError>
    ensures { (s : Scoped) → Gives (λ c. (view_statement c.value, s)) result (block_on (items_of items.items) s) }
{
    Ok(Box::new(alloc, CoreStatement::Block { items })?)
}

/// An `if` with a typed test and a typed statement, in front of any scope behind it.
pub fn if_on(
    alloc: Global,
    line: u32,
    test: CoreOperand,
    yes: Box<CoreStatement>,
) -> Result<Box<CoreStatement>, TypingError>
    ensures { (s : Scoped) → Gives (λ c. (view_statement c.value, s)) result
        (if_on line (view_operand test) (view_statement yes.value) s) }
{
    let test = number_on(test, line, 17)?;
    Ok(Box::new(alloc, CoreStatement::If { line, test, yes })?)
}

/// An `if` with an `else`.
pub fn if_else_on(
    alloc: Global,
    line: u32,
    test: CoreOperand,
    yes: Box<CoreStatement>,
    no: Box<CoreStatement>,
) -> Result<Box<CoreStatement>, TypingError>
    ensures { (s : Scoped) → Gives (λ c. (view_statement c.value, s)) result
        (if_else_on line (view_operand test) (view_statement yes.value) (view_statement no.value) s) }
{
    let test = number_on(test, line, 17)?;
    Ok(Box::new(
        alloc,
        CoreStatement::IfElse {
            line,
            test,
            yes,
            no,
        },
    )?)
}

/// A `while`, which is the loop with this number.
pub fn while_on(
    alloc: Global,
    line: u32,
    number: u32,
    test: CoreOperand,
    body: Box<CoreStatement>,
) -> Result<Box<CoreStatement>, TypingError>
    ensures { (s : Scoped) → Gives (λ c. (view_statement c.value, s)) result
        (while_on line number (view_operand test) (view_statement body.value) s) }
{
    let test = number_on(test, line, 17)?;
    Ok(Box::new(
        alloc,
        CoreStatement::For {
            line,
            number,
            first: None,
            test: Some(test),
            last: None,
            body,
        },
    )?)
}

/// A `do`, which is the loop with this number.
pub fn do_on(
    alloc: Global,
    line: u32,
    number: u32,
    body: Box<CoreStatement>,
    test: CoreOperand,
) -> Result<Box<CoreStatement>, TypingError>
    ensures { (s : Scoped) → Gives (λ c. (view_statement c.value, s)) result
        (do_on line number (view_statement body.value) (view_operand test) s) }
{
    let test = number_on(test, line, 17)?;
    Ok(Box::new(
        alloc,
        CoreStatement::Do {
            line,
            number,
            body,
            test,
        },
    )?)
}

/// A `for`, which is the loop with this number.
pub fn for_on(
    alloc: Global,
    line: u32,
    number: u32,
    first: Option<Box<CoreExpr>>,
    test: Option<CoreOperand>,
    last: Option<Box<CoreExpr>>,
    body: Box<CoreStatement>,
) -> Result<Box<CoreStatement>, TypingError>
    ensures { (s : Scoped) → Gives (λ c. (view_statement c.value, s)) result
        (for_on line number (option_map boxed first) (option_map view_operand test) (option_map boxed last) (view_statement body.value) s) }
{
    let test = test_on(test, line)?;
    Ok(Box::new(
        alloc,
        CoreStatement::For {
            line,
            number,
            first,
            test,
            last,
            body,
        },
    )?)
}

/// A switch on a typed value with these items.
pub fn switch_of(
    alloc: Global,
    line: u32,
    value: CoreOperand,
    items: Vec<CoreItem>,
) -> Result<Box<CoreStatement>, TypingError>
    ensures { (s : Scoped) → Gives (λ c. (view_statement c.value, s)) result
        (switch_on line (view_operand value) (items_of items.items) s) }
{
    let value = switch_value(alloc, value, line)?;
    Ok(Box::new(alloc, CoreStatement::Switch { line, value, items })?)
}

/// A typed statement behind a `case` that doesn't stand among the items of a switch's body.
pub fn case_on(
    alloc: Global,
    line: u32,
    value: &CoreOperand,
    statement: Box<CoreStatement>,
    scope: &mut Scope,
) -> Result<Box<CoreStatement>, TypingError>
    ensures gives { Gives (λ c. (view_statement c.value, scope.new)) result
        (case_on line (view_operand value.now) (view_statement statement.value) scope.old) }
    ensures names { OnOk result (scope.new.bindings ≡ scope.old.bindings) }
{
    let _case = add_case(value, line, scope)?;
    Ok(Box::new(alloc, CoreStatement::Stray { line, statement })?)
}

/// The same behind a `default`.
pub fn default_on(
    alloc: Global,
    line: u32,
    statement: Box<CoreStatement>,
    scope: &mut Scope,
) -> Result<Box<CoreStatement>, TypingError>
    ensures gives { Gives (λ c. (view_statement c.value, scope.new)) result
        (default_on line (view_statement statement.value) scope.old) }
    ensures names { OnOk result (scope.new.bindings ≡ scope.old.bindings) }
{
    add_default(line, scope)?;
    Ok(Box::new(alloc, CoreStatement::Stray { line, statement })?)
}
