//! Initializers.

ghost use Rattle.std.specs.Prelude.{◌≡◌, map, option_map, IfOk};
ghost use Rattle.c_tree.specs.Tree.{view as tree, view_name};
ghost use Rattle.c_tree.specs.Declarations.{view_initializer, initials_of};
ghost use Rattle.c_types.specs.Types.{view as type_view};
ghost use Rattle.c_scope.specs.Faults.{Gives};
ghost use Rattle.c_elab_base.specs.Slots.{slot, slot_type};
ghost use Rattle.c_elab_type.specs.Initializers.{view_made, view_value, typed_single, typed_initial, typed_initials, initializer_of, no_initializer, literal_of, literal_length, initial_elements};

use crate::items::{Made, Value, braced, value_on};
use c_elab_base::slot;
use c_elab_expr::{operand, strings_bytes};
use c_scope::{Scope, TypingError};
use c_tree::{Expr, Initializer, Name};
use c_types::Ty;
use std::alloc::{AllocError, Global};

// A string, with its line.
fn literal_of(expr: &Expr) -> Option<(u32, &[Name])>
    ensures { option_map (λ l. (l.0, map view_name l.1.now)) result ≡ literal_of (tree expr.now) }
{
    match expr {
        Expr::Strings { line, parts } => Some((*line, parts)),
        _ => None,
    }
}

// A string stands for itself, and any other expression is an operand.
fn typed_single(alloc: Global, expr: &Expr, scope: &Scope) -> Result<Made, TypingError>
    ensures { Gives view_made result (typed_single scope.now (tree expr.now)) }
{
    match literal_of(expr) {
        Some((line, parts)) => Ok(Made::Text {
            line,
            bytes: strings_bytes(alloc, parts)?,
        }),
        None => {
            let operand = operand(alloc, expr, scope)?;
            Ok(Made::Single { operand })
        }
    }
}

// An initializer of an object of this type.
#[cycle(initializers)]
fn typed_initial(
    alloc: Global,
    object_entry: bool,
    type_: &Ty,
    initializer: &Initializer,
    scope: &Scope,
) -> Result<Made, TypingError>
    ensures { Gives view_made result (typed_initial object_entry scope.now (type_view type_.now) (view_initializer initializer.now)) }
{
    match initializer {
        Initializer::Value(expr) => typed_single(alloc, expr, scope),
        Initializer::List { line, items } => {
            let items = typed_initials(alloc, object_entry, type_, items, scope)?;
            braced(alloc, object_entry, *line, type_, items, scope.layouts())
        }
    }
}

// The items of braces around an object of this type.
#[cycle(initializers)]
fn typed_initials(
    alloc: Global,
    object_entry: bool,
    type_: &Ty,
    initializers: &[Initializer],
    scope: &Scope,
) -> Result<Vec<Made>, TypingError>
    ensures { Gives (λ v. map view_made v.items) result (typed_initials object_entry scope.now (type_view type_.now) 0 (initials_of initializers.now)) }
{
    let mut items = Vec::new(alloc);
    for initializer in initializers {
        let item = typed_item(alloc, object_entry, type_, items.len(), initializer, scope)?;
        items.push(item)?;
    }
    Ok(items)
}

// The item with a number.
#[cycle(initializers)]
fn typed_item(
    alloc: Global,
    object_entry: bool,
    type_: &Ty,
    number: usize,
    initializer: &Initializer,
    scope: &Scope,
) -> Result<Made, TypingError>
    ensures { Gives view_made result (typed_initial object_entry scope.now (slot_type (slot scope.now.records (type_view type_.now) number)) (view_initializer initializer.now)) }
{
    match slot(type_, number, scope.layouts())? {
        Some((object, _)) => typed_initial(alloc, object_entry, object, initializer, scope),
        None => typed_initial(alloc, object_entry, &Ty::Void, initializer, scope),
    }
}

/// The value of a variable or object of this type, whose declarator begins on the line.
pub fn initializer_of(
    alloc: Global,
    object_entry: bool,
    line: u32,
    type_: &Ty,
    initializer: &Option<Initializer>,
    scope: &Scope,
) -> Result<Option<Value>, TypingError>
    ensures { Gives (option_map view_value) result (initializer_of object_entry line scope.now (type_view type_.now) (option_map view_initializer initializer.now)) }
{
    match initializer {
        None => Ok(None),
        Some(initializer) => {
            let made = typed_initial(alloc, object_entry, type_, initializer, scope)?;
            let value = value_on(alloc, object_entry, line, type_, made, scope.layouts())?;
            Ok(Some(value))
        }
    }
}

/// A typedef, whose declarator begins on the line, has no initializer.
pub fn no_initializer(
    alloc: Global,
    line: u32,
    initializer: &Option<Initializer>,
    scope: &Scope,
) -> Result<(), TypingError>
    ensures { Gives (λ u. tt) result (no_initializer line scope.now (option_map view_initializer initializer.now)) }
{
    match initializer {
        None => Ok(()),
        Some(initializer) => {
            let _made = typed_initial(alloc, false, &Ty::Void, initializer, scope)?;
            Err(TypingError::Typing { line, rule: 12 })
        }
    }
}

fn literal_length(alloc: Global, expr: &Expr) -> Result<u64, AllocError>
    ensures { IfOk result (λ n. n ≡ literal_length (literal_of (tree expr.now))) }
{
    match literal_of(expr) {
        Some((_, parts)) => Ok(strings_bytes(alloc, parts)?.len() as u64 + 1),
        None => Ok(1),
    }
}

/// How many elements an initializer says that an array has.
pub fn initial_elements(alloc: Global, initializer: &Initializer) -> Result<u64, AllocError>
    ensures { IfOk result (λ n. n ≡ initial_elements (view_initializer initializer.now)) }
{
    match initializer {
        Initializer::Value(expr) => literal_length(alloc, expr),
        Initializer::List { items, .. } => Ok(items.len() as u64),
    }
}
