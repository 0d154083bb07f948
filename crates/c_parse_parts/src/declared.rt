//! The names that a declarator declares, and those of a function's parameters.

ghost use Rattle.std.specs.Prelude.{◌≡◌, ◌||◌, IfOk, false, map};
ghost use Rattle.c_tree.specs.Declarations.{view_enumerator, view_part, parts_of, members_of, view_full, view_full_suffix, full_suffixes_of, full_end, parameters_of, name_of, full_has_name, or_suffixes, nearest, Full, full_behind, begin_function, is_function_within, is_function, is_typedef, have_typedef, with_enumerators, with_part, with_parts, with_members, with_named, with_parameters, with_parameters_of};

use c_parse_expr::TypeNames;
use c_tree::{
    DeclaratorSuffix, Enumerator, FullDeclarator, MemberDeclaration, Parameter, PointerMark,
    Specifier, StorageClass,
};
use std::alloc::{AllocError, Global};

/// Whether a specifier is `typedef`.
pub fn is_typedef(specifier: &Specifier) -> bool
    ensures { result ≡ is_typedef (view_part specifier.now) }
{
    match specifier {
        Specifier::Type(_) => false,
        Specifier::Storage { class, .. } => match class {
            StorageClass::Typedef => true,
            StorageClass::Extern => false,
            StorageClass::Static => false,
            StorageClass::Auto => false,
            StorageClass::Register => false,
        },
        Specifier::Function { .. } => false,
        Specifier::Record { .. } => false,
        Specifier::Enumeration { .. } => false,
    }
}

/// Whether one of the two holds.
pub fn either(a: bool, b: bool) -> bool
    ensures { result ≡ (a || b) }
{
    a || b
}

/// Whether `typedef` is among specifiers.
fn have_typedef(specifiers: &[Specifier]) -> bool
    ensures { result ≡ have_typedef (parts_of specifiers.now) }
{
    let mut types = false;
    for specifier in specifiers {
        types = either(types, is_typedef(specifier));
    }
    types
}

/// The name that a declarator declares; none has no bytes.
pub fn declared_name(declarator: &FullDeclarator) -> &[u8]
    ensures { result.now ≡ name_of (view_full declarator.now) }
{
    match declarator {
        FullDeclarator::Unnamed { .. } => &[],
        FullDeclarator::Named { name, .. } => &name.bytes,
        FullDeclarator::Inside { inner, .. } => declared_name(inner),
    }
}

/// Whether a declarator declares a name.
fn has_name(declarator: &FullDeclarator) -> bool
    ensures { result ≡ full_has_name (view_full declarator.now) }
{
    match declarator {
        FullDeclarator::Unnamed { .. } => false,
        FullDeclarator::Named { .. } => true,
        FullDeclarator::Inside { inner, .. } => has_name(inner),
    }
}

/// Declares the name of a parameter's declarator, as a type or not, if it has one.
pub fn declare_named(
    alloc: Global,
    names: &mut TypeNames,
    types: bool,
    declarator: &FullDeclarator,
) -> Result<(), AllocError>
    ensures { IfOk result (λ _. names.new ≡ with_named names.old types (view_full declarator.now)) }
{
    if has_name(declarator) {
        names.declare(alloc, declared_name(declarator), types)?;
    }
    Ok(())
}

fn declare_enumerators(
    alloc: Global,
    names: &mut TypeNames,
    enumerators: &[Enumerator],
) -> Result<(), AllocError>
    ensures { IfOk result (λ _. names.new ≡ with_enumerators names.old (map view_enumerator enumerators.now)) }
{
    for enumerator in enumerators {
        names.declare(alloc, &enumerator.name.bytes, false)?;
    }
    Ok(())
}

/// Declares the enumerators in a specifier.
#[cycle(declared)]
fn declare_part(
    alloc: Global,
    names: &mut TypeNames,
    specifier: &Specifier,
) -> Result<(), AllocError>
    ensures { IfOk result (λ _. names.new ≡ with_part names.old (view_part specifier.now)) }
{
    match specifier {
        Specifier::Type(_) => Ok(()),
        Specifier::Storage { .. } => Ok(()),
        Specifier::Function { .. } => Ok(()),
        Specifier::Record { members, .. } => {
            declare_members(alloc, names, members)?;
            Ok(())
        }
        Specifier::Enumeration { enumerators, .. } => declare_enumerators(
            alloc,
            names,
            enumerators,
        ),
    }
}

/// Declares the enumerators in specifiers.
#[cycle(declared)]
fn declare_parts(
    alloc: Global,
    names: &mut TypeNames,
    specifiers: &[Specifier],
) -> Result<(), AllocError>
    ensures { IfOk result (λ _. names.new ≡ with_parts names.old (parts_of specifiers.now)) }
{
    for specifier in specifiers {
        declare_part(alloc, names, specifier)?;
    }
    Ok(())
}

/// Declares the enumerators in members.
#[cycle(declared)]
fn declare_members(
    alloc: Global,
    names: &mut TypeNames,
    members: &[MemberDeclaration],
) -> Result<(), AllocError>
    ensures { IfOk result (λ _. names.new ≡ with_members names.old (members_of members.now)) }
{
    for member in members {
        declare_parts(alloc, names, &member.specifiers)?;
    }
    Ok(())
}

fn declare_parameter(
    alloc: Global,
    names: &mut TypeNames,
    parameter: &Parameter,
) -> Result<(), AllocError>
    ensures { IfOk result (λ _. names.new ≡ with_named (with_parts names.old (parts_of parameter.now.specifiers.items)) (have_typedef (parts_of parameter.now.specifiers.items)) (view_full parameter.now.declarator)) }
{
    declare_parts(alloc, names, &parameter.specifiers)?;
    let types = have_typedef(&parameter.specifiers);
    declare_named(alloc, names, types, &parameter.declarator)
}

fn declare_parameters(
    alloc: Global,
    names: &mut TypeNames,
    parameters: &[Parameter],
) -> Result<(), AllocError>
    ensures { IfOk result (λ _. names.new ≡ with_parameters names.old (parameters_of parameters.now)) }
{
    for parameter in parameters {
        declare_parameter(alloc, names, parameter)?;
    }
    Ok(())
}

/// Declares the parameters of a function's suffix; another has none.
fn declare_suffix(
    alloc: Global,
    names: &mut TypeNames,
    suffix: &DeclaratorSuffix,
) -> Result<(), AllocError>
    ensures { IfOk result (λ _. names.new ≡ with_parameters_of names.old (view_full_suffix suffix.now full_end)) }
{
    match suffix {
        DeclaratorSuffix::Bounded { .. } => Ok(()),
        DeclaratorSuffix::Open { .. } => Ok(()),
        DeclaratorSuffix::Empty { .. } => Ok(()),
        DeclaratorSuffix::Void { .. } => Ok(()),
        DeclaratorSuffix::Parameters { parameters, .. } => {
            declare_parameters(alloc, names, parameters)?;
            Ok(())
        }
    }
}

/// Declares the parameters of a function's declarator, by the suffixes nearest to its name.
fn declare_nearest(
    alloc: Global,
    names: &mut TypeNames,
    suffixes: &[DeclaratorSuffix],
) -> Result<(), AllocError>
    ensures { IfOk result (λ _. names.new ≡ with_parameters_of names.old (full_suffixes_of suffixes.now)) }
{
    match suffixes {
        [first, ..] => {
            declare_suffix(alloc, names, first)?;
            Ok(())
        }
        [] => Ok(()),
    }
}

fn is_of_function(suffix: &DeclaratorSuffix) -> bool
    ensures { result ≡ begin_function (view_full_suffix suffix.now full_end) false }
{
    match suffix {
        DeclaratorSuffix::Bounded { .. } => false,
        DeclaratorSuffix::Open { .. } => false,
        DeclaratorSuffix::Empty { .. } => true,
        DeclaratorSuffix::Void { .. } => true,
        DeclaratorSuffix::Parameters { .. } => true,
    }
}

/// Whether suffixes are those of a function, where what stands around them is of one or not.
fn begin_function(suffixes: &[DeclaratorSuffix], outer: bool) -> bool
    ensures { result ≡ begin_function (full_suffixes_of suffixes.now) outer }
{
    match suffixes {
        [first, ..] => is_of_function(first),
        [] => outer,
    }
}

/// Whether what stands behind pointers is inside a function's declarator, where what stands around them is one or not.
fn behind_pointers(pointers: &[PointerMark], outer: bool) -> bool
    ensures { (d : Full) → is_function_within (full_behind pointers.now d) outer ≡ is_function_within d result }
{
    match pointers {
        [_, ..] => false,
        [] => outer,
    }
}

fn or_suffixes<'a>(
    inner: &'a [DeclaratorSuffix],
    outer: &'a [DeclaratorSuffix],
) -> &'a [DeclaratorSuffix]
    ensures { full_suffixes_of result.now ≡ or_suffixes (full_suffixes_of inner.now) (full_suffixes_of outer.now) }
{
    match inner {
        [_, ..] => inner,
        [] => outer,
    }
}

/// The suffixes of a declarator that stand nearest to its name.
fn nearest(declarator: &FullDeclarator) -> &[DeclaratorSuffix]
    ensures { full_suffixes_of result.now ≡ nearest (view_full declarator.now) }
{
    match declarator {
        FullDeclarator::Unnamed { suffixes, .. } => suffixes,
        FullDeclarator::Named { suffixes, .. } => suffixes,
        FullDeclarator::Inside {
            inner,
            suffixes,
            ..
        } => or_suffixes(nearest(inner), suffixes),
    }
}

/// Whether a declarator is that of a function, where what stands around it is one or not.
fn is_function_within(declarator: &FullDeclarator, outer: bool) -> bool
    ensures { result ≡ is_function_within (view_full declarator.now) outer }
{
    match declarator {
        FullDeclarator::Unnamed { pointers, suffixes } => {
            begin_function(suffixes, behind_pointers(pointers, outer))
        }
        FullDeclarator::Named {
            pointers,
            suffixes,
            ..
        } => begin_function(suffixes, behind_pointers(pointers, outer)),
        FullDeclarator::Inside {
            pointers,
            inner,
            suffixes,
            ..
        } => is_function_within(
            inner,
            begin_function(suffixes, behind_pointers(pointers, outer)),
        ),
    }
}

/// Whether a declarator is that of a function.
pub fn is_function(declarator: &FullDeclarator) -> bool
    ensures { result ≡ is_function (view_full declarator.now) }
{
    is_function_within(declarator, false)
}

/// Declares the parameters of a function's declarator, with the enumerators in their specifiers.
pub fn declare_body(
    alloc: Global,
    names: &mut TypeNames,
    declarator: &FullDeclarator,
) -> Result<(), AllocError>
    ensures { IfOk result (λ _. names.new ≡ with_parameters_of names.old (nearest (view_full declarator.now))) }
{
    declare_nearest(alloc, names, nearest(declarator))?;
    Ok(())
}
