//! The declarators of a declaration.

ghost use Rattle.std.specs.Prelude.{◌≡◌, ◌≤◌, length, option_map, OnOk};
ghost use Rattle.c_tree.specs.Declarations.{view_full, view_initializer, parts_of, declarators_of};
ghost use Rattle.c_scope.specs.Scopes.{Scoped, view_named};
ghost use Rattle.c_scope.specs.Faults.{Gives};
ghost use Rattle.c_elab_type.specs.Declarators.{Typed};
ghost use Rattle.c_elab_base.specs.Derivations.{view_derivation};
ghost use Rattle.c_elab_type.specs.Specifiers.{view_specification};
ghost use Rattle.c_elab_type.specs.Steps.{Step};
ghost use Rattle.c_elab_object.specs.DeclaratorLists.{typedef_by, typed_typedefs, object_by, typed_objects, variable_by, typed_variables, typed_others, typed_by, typed_declaration, in_file, typed_outside};

use crate::callables::typed_function;
use crate::object_entries::typed_object;
use c_elab_base::{Derivation, Region, Role, derive};
use c_elab_type::{
    Base, typed_full, typed_function_typedef, typed_specifiers, typed_typedef, typed_variable,
};
use c_scope::{QualifiedType, Scope, TypingError};
use c_tree::{Declaration, InitDeclarator};
use core_tree::CoreItem;
use std::alloc::Global;

// A typedef, by what its declarator says.
fn typedef_by(
    alloc: Global,
    base: &QualifiedType,
    declared: &InitDeclarator,
    derived: Derivation,
    region: Region,
    scope: &mut Scope,
) -> Result<(), TypingError>
    requires { region.outer ≤ length scope.old.bindings }
    ensures gives { Gives (λ u. scope.new) result (typedef_by region scope.old (view_named base.now) (view_full declared.now.declarator) (option_map view_initializer declared.now.initializer) (view_derivation derived)) }
    ensures within { OnOk result (region.outer ≤ length scope.new.bindings) }
{
    match derived {
        Derivation::Lengths { lengths } => {
            typed_typedef(alloc, base, declared, &lengths, region, scope)
        }
        Derivation::Callable { made } => {
            typed_function_typedef(alloc, declared, made, region, scope)
        }
    }
}

// Typedefs from left to right.
fn typed_typedefs(
    alloc: Global,
    base: &QualifiedType,
    declarators: &[InitDeclarator],
    region: Region,
    scope: &mut Scope,
) -> Result<(), TypingError>
    requires { region.outer ≤ length scope.old.bindings }
    ensures gives { Gives (λ u. scope.new) result (typed_typedefs region scope.old (view_named base.now) (declarators_of declarators.now)) }
    ensures within { OnOk result (region.outer ≤ length scope.new.bindings) }
{
    for declared in declarators {
        let suffixes = typed_full(alloc, &declared.declarator, scope)?;
        let derived = derive(alloc, base, &suffixes, scope)?;
        typedef_by(alloc, base, declared, derived, region, scope)?;
    }
    Ok(())
}

// An object that lives as long as the program, or a function, by what its declarator says.
fn object_by(
    alloc: Global,
    base: &QualifiedType,
    declared: &InitDeclarator,
    derived: Derivation,
    region: Region,
    is_extern: bool,
    scope: &mut Scope,
) -> Result<(), TypingError>
    requires { region.outer ≤ length scope.old.bindings }
    ensures gives { Gives (λ u. scope.new) result (object_by region is_extern scope.old (view_named base.now) (view_full declared.now.declarator) (option_map view_initializer declared.now.initializer) (view_derivation derived)) }
    ensures within { OnOk result (region.outer ≤ length scope.new.bindings) }
{
    match derived {
        Derivation::Lengths { lengths } => {
            typed_object(alloc, base, declared, lengths, region, is_extern, scope)
        }
        Derivation::Callable { made } => typed_function(alloc, declared, made, region, scope),
    }
}

// Objects that live as long as the program, and functions, from left to right.
fn typed_objects(
    alloc: Global,
    base: &QualifiedType,
    declarators: &[InitDeclarator],
    region: Region,
    is_extern: bool,
    scope: &mut Scope,
) -> Result<(), TypingError>
    requires { region.outer ≤ length scope.old.bindings }
    ensures gives { Gives (λ u. scope.new) result (typed_objects region is_extern scope.old (view_named base.now) (declarators_of declarators.now)) }
    ensures within { OnOk result (region.outer ≤ length scope.new.bindings) }
{
    for declared in declarators {
        let suffixes = typed_full(alloc, &declared.declarator, scope)?;
        let derived = derive(alloc, base, &suffixes, scope)?;
        object_by(alloc, base, declared, derived, region, is_extern, scope)?;
    }
    Ok(())
}

// A variable or a function, by what its declarator says, in front of what stands behind it.
fn variable_by(
    alloc: Global,
    base: &QualifiedType,
    declared: &InitDeclarator,
    derived: Derivation,
    passed: bool,
    region: Region,
    scope: &mut Scope,
    items: &mut Vec<CoreItem>,
) -> Result<(), TypingError>
    requires { region.outer ≤ length scope.old.bindings }
    ensures step { (behind : Scoped → Typed) →
        Step result items.old.items items.new.items
        (variable_by region scope.old (view_named base.now) (view_full declared.now.declarator) (option_map view_initializer declared.now.initializer) passed (view_derivation derived) behind)
        (behind scope.new) }
    ensures within { OnOk result (region.outer ≤ length scope.new.bindings) }
{
    match derived {
        Derivation::Lengths { lengths } => typed_variable(
            alloc, base, declared, lengths, passed, region, scope, items,
        ),
        Derivation::Callable { made } => typed_function(alloc, declared, made, region, scope),
    }
}

// Variables and functions from left to right, over which a jump passes or not.
fn typed_variables(
    alloc: Global,
    base: &QualifiedType,
    declarators: &[InitDeclarator],
    passed: bool,
    region: Region,
    scope: &mut Scope,
    items: &mut Vec<CoreItem>,
) -> Result<(), TypingError>
    requires { region.outer ≤ length scope.old.bindings }
    ensures step { (behind : Scoped → Typed) →
        Step result items.old.items items.new.items
        (typed_variables region scope.old (view_named base.now) passed (declarators_of declarators.now) behind)
        (behind scope.new) }
    ensures within { OnOk result (region.outer ≤ length scope.new.bindings) }
{
    for declared in declarators {
        let suffixes = typed_full(alloc, &declared.declarator, scope)?;
        let derived = derive(alloc, base, &suffixes, scope)?;
        variable_by(alloc, base, declared, derived, passed, region, scope, items)?;
    }
    Ok(())
}

// Declarators that make no variables of a function.
fn typed_others(
    alloc: Global,
    base: &Base,
    declarators: &[InitDeclarator],
    region: Region,
    scope: &mut Scope,
) -> Result<(), TypingError>
    requires { region.outer ≤ length scope.old.bindings }
    ensures gives { Gives (λ u. scope.new) result (typed_others region (view_specification base.now scope.old) base.now.role (declarators_of declarators.now)) }
    ensures within { OnOk result (region.outer ≤ length scope.new.bindings) }
{
    match base.role {
        Role::Typedef => typed_typedefs(alloc, &base.named, declarators, region, scope),
        Role::Extern => typed_objects(alloc, &base.named, declarators, region, true, scope),
        Role::Static => typed_objects(alloc, &base.named, declarators, region, false, scope),
        Role::Automatic => typed_objects(alloc, &base.named, declarators, region, false, scope),
    }
}

// Declarators by their role, in front of what stands behind them.
fn typed_by(
    alloc: Global,
    base: &Base,
    declarators: &[InitDeclarator],
    passed: bool,
    region: Region,
    scope: &mut Scope,
    items: &mut Vec<CoreItem>,
) -> Result<(), TypingError>
    requires { region.outer ≤ length scope.old.bindings }
    ensures step { (behind : Scoped → Typed) →
        Step result items.old.items items.new.items
        (typed_by region (view_specification base.now scope.old) base.now.role passed (declarators_of declarators.now) behind)
        (behind scope.new) }
    ensures within { OnOk result (region.outer ≤ length scope.new.bindings) }
{
    match base.role {
        Role::Typedef => typed_others(alloc, base, declarators, region, scope),
        Role::Extern => typed_others(alloc, base, declarators, region, scope),
        Role::Static => typed_others(alloc, base, declarators, region, scope),
        Role::Automatic => typed_variables(
            alloc,
            &base.named,
            declarators,
            passed,
            region,
            scope,
            items,
        ),
    }
}

/// A declaration in a block, over which a jump passes or not, in front of what stands behind it.
pub fn declare(
    alloc: Global,
    declaration: &Declaration,
    passed: bool,
    scope: &mut Scope,
    region: Region,
    items: &mut Vec<CoreItem>,
) -> Result<(), TypingError>
    requires { region.outer ≤ length scope.old.bindings }
    ensures step { (behind : Scoped → Typed) →
        Step result items.old.items items.new.items
        (typed_declaration region scope.old passed (parts_of declaration.now.specifiers.items) (declarators_of declaration.now.declarators.items) behind)
        (behind scope.new) }
    ensures within { OnOk result (region.outer ≤ length scope.new.bindings) }
{
    let declarators = &declaration.declarators;
    let base = typed_specifiers(alloc, &declaration.specifiers, declarators, region, scope)?;
    typed_by(alloc, &base, declarators, passed, region, scope, items)
}

/// A declaration outside of functions.
pub fn declare_outside(
    alloc: Global,
    declaration: &Declaration,
    scope: &mut Scope,
) -> Result<(), TypingError>
    ensures { Gives (λ u. scope.new) result (typed_outside scope.old (parts_of declaration.now.specifiers.items) (declarators_of declaration.now.declarators.items)) }
{
    let region = Region {
        outer: 0,
        is_file: true,
    };
    let declarators = &declaration.declarators;
    let base = typed_specifiers(alloc, &declaration.specifiers, declarators, region, scope)?;
    typed_others(alloc, &base, declarators, region, scope)
}
