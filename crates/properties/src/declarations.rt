//! The assertions of declarations: of bounds, of the values of enumerators, and of initializers.

ghost use Rattle.std.specs.Prelude.{◌≡◌, map, OnOk};
ghost use Rattle.std.specs.Option.{option_map};
ghost use Rattle.c_tree.specs.Declarations.{view_enumerator, view_part, parts_of, members_of, view_full, fulls_of, view_full_suffix, full_suffixes_of, full_end, parameters_of, view_initializer, initials_of, declarators_of};
ghost use Rattle.properties.specs.Spots.{with_enumerators, with_part, with_parts, with_members, with_full, with_fulls, with_full_suffixes, with_parameters, with_initial, with_initials, with_initializer, with_declarators};

use crate::expressions::{push_expression, push_value};
use crate::spots::Spot;
use c_tree::{
    Declaration, DeclaratorSuffix, Enumerator, FullDeclarator, InitDeclarator, Initializer,
    MemberDeclaration, Parameter, Specifier,
};
use std::alloc::AllocError;

fn push_enumerators(enumerators: &[Enumerator], spots: &mut Vec<Spot>) -> Result<(), AllocError>
    ensures { OnOk result (spots.new.items ≡ with_enumerators spots.old.items (map view_enumerator enumerators.now)) }
{
    for enumerator in enumerators {
        push_value(&enumerator.value, spots)?;
    }
    Ok(())
}

#[cycle(specifiers)]
fn push_part(specifier: &Specifier, spots: &mut Vec<Spot>) -> Result<(), AllocError>
    ensures { OnOk result (spots.new.items ≡ with_part spots.old.items (view_part specifier.now)) }
{
    match specifier {
        Specifier::Type(_) => Ok(()),
        Specifier::Storage { .. } => Ok(()),
        Specifier::Function { .. } => Ok(()),
        Specifier::Record { members, .. } => {
            push_members(members, spots)?;
            Ok(())
        }
        Specifier::Enumeration { enumerators, .. } => {
            push_enumerators(enumerators, spots)?;
            Ok(())
        }
    }
}

#[cycle(specifiers)]
fn push_parts(specifiers: &[Specifier], spots: &mut Vec<Spot>) -> Result<(), AllocError>
    ensures { OnOk result (spots.new.items ≡ with_parts spots.old.items (parts_of specifiers.now)) }
{
    for specifier in specifiers {
        push_part(specifier, spots)?;
    }
    Ok(())
}

#[cycle(specifiers)]
fn push_members(members: &[MemberDeclaration], spots: &mut Vec<Spot>) -> Result<(), AllocError>
    ensures { OnOk result (spots.new.items ≡ with_members spots.old.items (members_of members.now)) }
{
    for member in members {
        push_parts(&member.specifiers, spots)?;
        push_fulls(&member.declarators, spots)?;
    }
    Ok(())
}

#[cycle(specifiers)]
fn push_fulls(declarators: &[FullDeclarator], spots: &mut Vec<Spot>) -> Result<(), AllocError>
    ensures { OnOk result (spots.new.items ≡ with_fulls spots.old.items (fulls_of declarators.now)) }
{
    for declarator in declarators {
        push_full(declarator, spots)?;
    }
    Ok(())
}

#[cycle(specifiers)]
fn push_full(declarator: &FullDeclarator, spots: &mut Vec<Spot>) -> Result<(), AllocError>
    ensures { OnOk result (spots.new.items ≡ with_full spots.old.items (view_full declarator.now)) }
{
    match declarator {
        FullDeclarator::Unnamed { suffixes, .. } => {
            push_full_suffixes(suffixes, spots)?;
            Ok(())
        }
        FullDeclarator::Named { suffixes, .. } => {
            push_full_suffixes(suffixes, spots)?;
            Ok(())
        }
        FullDeclarator::Inside {
            inner,
            suffixes,
            ..
        } => {
            push_full(inner, spots)?;
            push_full_suffixes(suffixes, spots)?;
            Ok(())
        }
    }
}

#[cycle(specifiers)]
fn push_full_suffixes(
    suffixes: &[DeclaratorSuffix],
    spots: &mut Vec<Spot>,
) -> Result<(), AllocError>
    ensures { OnOk result (spots.new.items ≡ with_full_suffixes spots.old.items (full_suffixes_of suffixes.now)) }
{
    for suffix in suffixes {
        push_full_suffix(suffix, spots)?;
    }
    Ok(())
}

#[cycle(specifiers)]
fn push_full_suffix(suffix: &DeclaratorSuffix, spots: &mut Vec<Spot>) -> Result<(), AllocError>
    ensures { OnOk result (spots.new.items ≡ with_full_suffixes spots.old.items (view_full_suffix suffix.now full_end)) }
{
    match suffix {
        DeclaratorSuffix::Bounded { bound, .. } => {
            push_expression(bound, spots)?;
            Ok(())
        }
        DeclaratorSuffix::Open { .. } => Ok(()),
        DeclaratorSuffix::Empty { .. } => Ok(()),
        DeclaratorSuffix::Void { .. } => Ok(()),
        DeclaratorSuffix::Parameters { parameters, .. } => {
            push_parameters(parameters, spots)?;
            Ok(())
        }
    }
}

#[cycle(specifiers)]
fn push_parameters(parameters: &[Parameter], spots: &mut Vec<Spot>) -> Result<(), AllocError>
    ensures { OnOk result (spots.new.items ≡ with_parameters spots.old.items (parameters_of parameters.now)) }
{
    for parameter in parameters {
        push_parts(&parameter.specifiers, spots)?;
        push_full(&parameter.declarator, spots)?;
    }
    Ok(())
}

#[cycle(initializers)]
fn push_initial(initializer: &Initializer, spots: &mut Vec<Spot>) -> Result<(), AllocError>
    ensures { OnOk result (spots.new.items ≡ with_initial spots.old.items (view_initializer initializer.now)) }
{
    match initializer {
        Initializer::Value(expr) => {
            push_expression(expr, spots)?;
            Ok(())
        }
        Initializer::List { items, .. } => {
            push_initials(items, spots)?;
            Ok(())
        }
    }
}

#[cycle(initializers)]
fn push_initials(initializers: &[Initializer], spots: &mut Vec<Spot>) -> Result<(), AllocError>
    ensures { OnOk result (spots.new.items ≡ with_initials spots.old.items (initials_of initializers.now)) }
{
    for initializer in initializers {
        push_initial(initializer, spots)?;
    }
    Ok(())
}

fn push_initializer(
    initializer: &Option<Initializer>,
    spots: &mut Vec<Spot>,
) -> Result<(), AllocError>
    ensures { OnOk result (spots.new.items ≡ with_initializer spots.old.items (option_map view_initializer initializer.now)) }
{
    match initializer {
        Some(initializer) => {
            push_initial(initializer, spots)?;
            Ok(())
        }
        None => Ok(()),
    }
}

fn push_declarators(declarators: &[InitDeclarator], spots: &mut Vec<Spot>) -> Result<(), AllocError>
    ensures { OnOk result (spots.new.items ≡ with_declarators spots.old.items (declarators_of declarators.now)) }
{
    for declarator in declarators {
        push_full(&declarator.declarator, spots)?;
        push_initializer(&declarator.initializer, spots)?;
    }
    Ok(())
}

/// Notes the assertions of a declaration.
pub fn push_declaration(declaration: &Declaration, spots: &mut Vec<Spot>) -> Result<(), AllocError>
    ensures { OnOk result (spots.new.items
        ≡ with_declarators (with_parts spots.old.items (parts_of declaration.now.specifiers.items)) (declarators_of declaration.now.declarators.items)) }
{
    push_parts(&declaration.specifiers, spots)?;
    push_declarators(&declaration.declarators, spots)?;
    Ok(())
}
