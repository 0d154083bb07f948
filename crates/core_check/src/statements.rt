//! Whether statements and the items of blocks are typed.

ghost use Rattle.std.specs.Prelude.{◌≡◌, ◌&&◌, option_map};
ghost use Rattle.core_tree.specs.Trees.{Items, boxed, view, view_statement, items_of, with_item};
ghost use Rattle.core_tree.specs.Typed as typed;
ghost use Rattle.core_check.specs.Around.{sizes_around, is_switch};

use crate::around::{Around, fills, is_variable_of};
use crate::expressions::{is_structure, is_typed};
use crate::types::{given_as, has_width, is_integer, is_promoted, same_given, same_type};
use c_types::ValueType;
use core_tree::{CoreExpr, CoreItem, CoreStatement, PassedType, structure_size, type_of};

// A part of a loop that may be missing.
fn is_typed_part(around: &Around, part: &Option<Box<CoreExpr>>) -> bool
    ensures { result ≡ typed.is_typed_part (sizes_around around.now) (option_map boxed part.now) }
{
    match part {
        Some(expr) => is_typed(around, expr),
        None => true,
    }
}

// A test.
fn is_test(around: &Around, test: &CoreExpr) -> bool
    ensures { result ≡ (typed.is_integer (typed.type_of (view test.now)) && typed.is_typed (sizes_around around.now) (view test.now)) }
{
    is_integer(type_of(test)) && is_typed(around, test)
}

// A test that may be missing.
fn is_test_part(around: &Around, part: &Option<Box<CoreExpr>>) -> bool
    ensures { result ≡ typed.is_test (sizes_around around.now) (option_map boxed part.now) }
{
    match part {
        Some(expr) => is_test(around, expr),
        None => true,
    }
}

// An item that isn't a case of another type.
fn is_case(type_: ValueType, item: &CoreItem) -> bool
    ensures { (rest : Items) → (result && typed.are_cases type_ rest) ≡ typed.are_cases type_ (with_item item.now rest) }
{
    match item {
        CoreItem::Declare { .. } => true,
        CoreItem::Initialize { .. } => true,
        CoreItem::InitializeStructure { .. } => true,
        CoreItem::Statement { .. } => true,
        CoreItem::Label { .. } => true,
        CoreItem::Case { type_: found, .. } => same_type(type_, ValueType::Integer(*found)),
        CoreItem::Default { .. } => true,
    }
}

fn are_cases(type_: ValueType, items: &[CoreItem]) -> bool
    ensures { result ≡ typed.are_cases type_ (items_of items.now) }
{
    let mut all = true;
    for place in (0..items.len()).rev() {
        all = is_case(type_, &items[place]) && all;
    }
    all
}

// A promoted value, and cases of its type.
fn is_switch(around: &Around, value: &CoreExpr, items: &[CoreItem]) -> bool
    ensures { result ≡ is_switch (sizes_around around.now) (view value.now) (items_of items.now) }
{
    is_promoted(type_of(value)) && is_typed(around, value) && are_cases(type_of(value), items)
}

#[cycle(statement)]
pub(crate) fn is_typed_statement(around: &Around, statement: &CoreStatement) -> bool
    ensures { result ≡ typed.is_typed_statement (sizes_around around.now) (view_statement statement.now) }
{
    match statement {
        CoreStatement::Block { items } => are_typed_items(around, items),
        CoreStatement::If { test, yes, .. } => {
            is_test(around, test) && is_typed_statement(around, yes)
        }
        CoreStatement::IfElse { test, yes, no, .. } => {
            is_test(around, test)
                && is_typed_statement(around, yes)
                && is_typed_statement(around, no)
        }
        CoreStatement::Evaluate { expression } => is_typed(around, expression),
        CoreStatement::Return { value, .. } => {
            is_integer(type_of(value))
                && same_given(around.gives, given_as(type_of(value)))
                && is_typed(around, value)
        }
        CoreStatement::ReturnStructure { value, .. } => {
            same_given(
                around.gives,
                Some(PassedType::Structure(structure_size(value))),
            ) && is_structure(around, value)
        }
        CoreStatement::ReturnNothing { .. } => same_given(around.gives, None),
        CoreStatement::For {
            first,
            test,
            last,
            body,
            ..
        } => {
            is_typed_part(around, first)
                && is_test_part(around, test)
                && is_typed_part(around, last)
                && is_typed_statement(around, body)
        }
        CoreStatement::Do { body, test, .. } => {
            is_typed_statement(around, body) && is_integer(type_of(test)) && is_typed(around, test)
        }
        CoreStatement::Switch { value, items, .. } => {
            are_items_where(around, is_switch(around, value, items), items)
        }
        CoreStatement::Break { .. } => true,
        CoreStatement::Continue { .. } => true,
        CoreStatement::Goto { .. } => true,
        CoreStatement::Stray { statement, .. } => is_typed_statement(around, statement),
    }
}

// The items that go with what holds.
#[cycle(statement)]
fn are_items_where(around: &Around, holds: bool, items: &[CoreItem]) -> bool
    ensures { result ≡ (holds && typed.are_typed_items (sizes_around around.now) (items_of items.now)) }
{
    holds && are_typed_items(around, items)
}

#[cycle(statement)]
fn are_typed_items(around: &Around, items: &[CoreItem]) -> bool
    ensures { result ≡ typed.are_typed_items (sizes_around around.now) (items_of items.now) }
{
    let mut all = true;
    for place in (0..items.len()).rev() {
        all = is_typed_item(around, &items[place]) && all;
    }
    all
}

#[cycle(statement)]
fn is_typed_item(around: &Around, item: &CoreItem) -> bool
    ensures { (rest : Items) → (result && typed.are_typed_items (sizes_around around.now) rest) ≡ typed.are_typed_items (sizes_around around.now) (with_item item.now rest) }
{
    match item {
        CoreItem::Declare { variable, .. } => (*variable as usize) < around.variables.len(),
        CoreItem::Initialize {
            variable,
            value,
            ..
        } => fills(around.variables, *variable, type_of(value)) && is_typed(around, value),
        CoreItem::InitializeStructure {
            variable,
            value,
            ..
        } => {
            is_variable_of(around.variables, *variable, structure_size(value))
                && is_structure(around, value)
        }
        CoreItem::Statement { statement } => is_typed_statement(around, statement),
        CoreItem::Label { .. } => true,
        CoreItem::Case { type_, bits, .. } => has_width(*bits, type_.width()),
        CoreItem::Default { .. } => true,
    }
}
