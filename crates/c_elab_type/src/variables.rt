//! Variables of a function.
ghost use Rattle.std.specs.Prelude.{◌≡◌, ◌≤◌, false, length, option_map, OnOk, IfOk, Ok, Result};
ghost use Rattle.c_tree.specs.Declarations.{view_full, view_initializer};
ghost use Rattle.c_types.specs.Types.{view as type_view};
ghost use Rattle.core_tree.specs.Trees.{Items, with_item};
ghost use Rattle.c_scope.specs.Scopes.{Scoped, view_named};
ghost use Rattle.c_scope.specs.Types.{type_size};
ghost use Rattle.c_scope.specs.Faults.{Gives};
ghost use Rattle.c_tree.specs.Declarations.{name_of};
ghost use Rattle.c_elab_base.specs.Derivations.{full_line};
ghost use Rattle.c_elab_base.specs.Declarators.{with_variable, with_incomplete, within_initializer, is_open, sized_type, of_type};
ghost use Rattle.c_elab_type.specs.Declarators.{Typed, given_lengths, variable_type, declared_item, typed_variable};
ghost use Rattle.c_elab_type.specs.Initializers.{view_value, initializer_of};
ghost use Rattle.c_elab_type.specs.Steps.{Step};

use crate::initializers::{initial_elements, initializer_of};
use crate::items::Value;
use c_elab_base::{
    Object, Region, declare, earlier, full_line, is_open, name_of, sized_type, state_lengths,
};
use c_scope::{Meaning, QualifiedType, Scope, TypingError, array_type};
use c_tree::{InitDeclarator, Initializer};
use c_types::Ty;
use core_tree::{CoreItem, names_variable, structure_names_variable};
use std::alloc::{AllocError, Global};

/// `[]` stands for as many elements as an initializer says.
pub fn give_lengths(
    alloc: Global,
    initializer: &Option<Initializer>,
    lengths: &mut Vec<Option<u64>>,
) -> Result<(), AllocError>
    ensures { OnOk result (lengths.new.items ≡ given_lengths (option_map view_initializer initializer.now) lengths.old.items) }
{
    match initializer {
        None => Ok(()),
        Some(initializer) => {
            let length = initial_elements(alloc, initializer)?;
            state_lengths(length, lengths);
            Ok(())
        }
    }
}

// The type of a variable.
fn variable_type(
    alloc: Global,
    base: &Ty,
    declared: &InitDeclarator,
    mut lengths: Vec<Option<u64>>,
    region: Region,
    scope: &Scope,
) -> Result<Object, TypingError>
    requires { region.outer ≤ length scope.now.bindings }
    ensures gives { Gives (λ o. type_view o.type_) result (variable_type region scope.now (type_view base.now) (view_full declared.now.declarator) (option_map view_initializer declared.now.initializer) lengths.items) }
    ensures counted { IfOk result (λ o. o.counted ≡ is_open lengths.items) }
    ensures sized { IfOk result (λ o. type_size scope.now.records.done (type_view o.type_) ≡ Ok o.size) }
{
    let line = full_line(&declared.declarator);
    if earlier(name_of(&declared.declarator), region, scope).is_some() {
        return Err(TypingError::Typing { line, rule: 2 });
    }
    let element = base.copied()?;
    let counted = is_open(&lengths);
    give_lengths(alloc, &declared.initializer, &mut lengths)?;
    let type_ = array_type(alloc, element, &lengths, scope.layouts(), line)?;
    let size = sized_type(&type_, scope.layouts(), line)?;
    Ok(Object {
        type_,
        size,
        counted,
    })
}

fn declared_item(line: u32, variable: u32, passed: bool, value: Option<Value>) -> CoreItem
    ensures { (rest : Items) → with_item result rest ≡ declared_item line variable passed (option_map view_value value) rest }
{
    match value {
        None => CoreItem::Declare { line, variable },
        Some(Value::Number { value }) => CoreItem::Initialize {
            line,
            variable,
            drawn: passed || names_variable(variable, &value),
            value,
        },
        Some(Value::Structure { value }) => CoreItem::InitializeStructure {
            line,
            variable,
            drawn: passed || structure_names_variable(variable, &value),
            value,
        },
    }
}

// The value of an array whose length its initializer says, within which its name means no object.
fn open_value(
    alloc: Global,
    line: u32,
    name: &[u8],
    type_: &Ty,
    initializer: &Option<Initializer>,
    scope: &mut Scope,
) -> Result<Option<Value>, TypingError>
    ensures gives { Gives (option_map view_value) result (initializer_of false line (with_incomplete scope.old name.now) (type_view type_.now) (option_map view_initializer initializer.now)) }
    ensures same { OnOk result (scope.new ≡ scope.old) }
{
    let outer = scope.len();
    scope.declare(alloc, name, Meaning::Incomplete)?;
    let value = initializer_of(alloc, false, line, type_, initializer, scope)?;
    scope.leave(outer);
    Ok(value)
}

// The variable's number and its value.
fn initialized(
    alloc: Global,
    base: &QualifiedType,
    declared: &InitDeclarator,
    object: &Object,
    scope: &mut Scope,
) -> Result<(u32, Option<Value>), TypingError>
    requires { type_size scope.old.records.done (type_view object.now.type_) ≡ Ok object.now.size }
    ensures gives { let n = of_type (view_named base.now) (type_view object.now.type_) in Gives (λ p. option_map view_value p.1) result
        (initializer_of false (full_line (view_full declared.now.declarator)) (within_initializer object.now.counted scope.old (name_of (view_full declared.now.declarator)) n) (type_view object.now.type_)
        (option_map view_initializer declared.now.initializer)) }
    ensures number { IfOk result (λ p. p.0 ≡ length scope.old.variables) }
    ensures declared { OnOk result (scope.new ≡ with_variable scope.old (name_of (view_full declared.now.declarator)) (of_type (view_named base.now) (type_view object.now.type_))) }
{
    let name = name_of(&declared.declarator);
    let line = full_line(&declared.declarator);
    if object.counted {
        let value = open_value(
            alloc,
            line,
            name,
            &object.type_,
            &declared.initializer,
            scope,
        )?;
        let variable = declare(alloc, base, name, object, scope)?;
        Ok((variable, value))
    } else {
        let variable = declare(alloc, base, name, object, scope)?;
        let value = initializer_of(
            alloc,
            false,
            line,
            &object.type_,
            &declared.initializer,
            scope,
        )?;
        Ok((variable, value))
    }
}

/// A variable with these lengths, over whose declaration a jump passes or not, in front of what stands behind it.
pub fn typed_variable(
    alloc: Global,
    base: &QualifiedType,
    declared: &InitDeclarator,
    lengths: Vec<Option<u64>>,
    passed: bool,
    region: Region,
    scope: &mut Scope,
    items: &mut Vec<CoreItem>,
) -> Result<(), TypingError>
    requires { region.outer ≤ length scope.old.bindings }
    ensures step { (behind : Scoped → Typed) →
        Step result items.old.items items.new.items
        (typed_variable region scope.old (view_named base.now) (view_full declared.now.declarator) (option_map view_initializer declared.now.initializer) lengths.items passed behind)
        (behind scope.new) }
    ensures within { OnOk result (region.outer ≤ length scope.new.bindings) }
{
    let object = variable_type(alloc, &base.type_, declared, lengths, region, scope)?;
    let (variable, value) = initialized(alloc, base, declared, &object, scope)?;
    let line = full_line(&declared.declarator);
    items.push(declared_item(line, variable, passed, value))?;
    Ok(())
}
