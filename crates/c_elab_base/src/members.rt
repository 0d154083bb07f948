//! Members and parameters by what their declarators say.
ghost use Rattle.std.specs.Prelude.{◌≡◌, ◌≤◌, ◌&&◌, is_some, false, Ok, ◌++◌, ℕ, List, [], ◌∷◌, Some, None, length, option_map, OnOk, IfErr};
ghost use Rattle.c_tree.specs.Tree.{view_name, view_type_part};
ghost use Rattle.c_tree.specs.Declarations.{view_part, parts_of, view_full, declarators_of, name_of, full_has_name};
ghost use Rattle.c_elab_base.specs.Regions.{earlier};
ghost use Rattle.c_elab_base.specs.Declarators.{sized_type};
ghost use Rattle.c_elab_base.specs.Derivations.{is_void, view_deriveds, view_parameters, view_derivation, derivation};
ghost use Rattle.c_types.specs.Types.{view};
ghost use Rattle.c_scope.specs.declared.fault.TypingError.{TypingError};
ghost use Rattle.c_scope.specs.Members.{view_fields};
ghost use Rattle.c_scope.specs.Scopes.{view_named};
ghost use Rattle.c_scope.specs.Faults.{Gives, GivesNode, on_line};
ghost use Rattle.c_elab_base.specs.Specifiers.{member_type, with_member, array_parameter, parameter_made, parameter_node, declared_parameter, with_parameter, is_untagged, has_untagged, is_none, is_anonymous, with_type_part, role_of, lone_part, lone_tag, with_lone, view_parted, view_typed};

use crate::derivations::{Derivation, Derived, Parameter, derive, full_line, is_void};
use crate::names::Names;
use crate::naming::name_of;
use crate::regions::{Region, Role, earlier};
use crate::sizes::{complete_type, declare_parameter, sized_type};
use crate::tagging::{forward_tag, tag_named};
use c_scope::{
    Broken, Field, QualifiedType, Scope, Specified, TypingError, array_of, array_type, element_type,
};
use c_tree::{
    FullDeclarator, InitDeclarator, Name, Specifier, StorageClass, TagKind, TypeSpecifier,
};
use c_types::{Layouts, Ty};
use std::alloc::{AllocError, Global};

// The type of a member whose declarator has these suffixes.
fn member_type(
    alloc: Global,
    base: &QualifiedType,
    declarator: &FullDeclarator,
    suffixes: &[Derived],
    names: &Names,
    scope: &Scope,
) -> Result<Ty, TypingError>
    ensures { Gives view result (member_type (view_named base.now) names.now scope.now (view_full declarator.now) (view_deriveds suffixes.now)) }
{
    let line = full_line(declarator);
    if names.has(name_of(declarator)) {
        return Err(TypingError::Typing { line, rule: 2 });
    }
    match derive(alloc, base, suffixes, scope)? {
        Derivation::Lengths { lengths } => {
            let element = base.type_.copied()?;
            let type_ = array_type(alloc, element, &lengths, scope.layouts(), line)?;
            complete_type(type_, scope.layouts(), line)
        }
        Derivation::Callable { made: Ok(_) } => Err(TypingError::Typing { line, rule: 3 }),
        Derivation::Callable { made: Err(rule) } => Err(TypingError::Typing { line, rule }),
    }
}

/// One more member.
pub fn add_field(
    fields: &mut Vec<Field>,
    name: Option<Vec<u8>>,
    type_: Ty,
    constant: bool,
) -> Result<(), AllocError>
    ensures { OnOk result (view_fields fields.new.items ≡ view_fields fields.old.items ++ record { name = option_map (λ n. n.items) name; type = view type_; constant = constant } ∷ []) }
{
    fields.push(Field {
        name,
        type_,
        constant,
    })?;
    Ok(())
}

/// A member whose declarator has these suffixes.
pub fn with_member(
    alloc: Global,
    base: &QualifiedType,
    declarator: &FullDeclarator,
    suffixes: &[Derived],
    fields: &mut Vec<Field>,
    names: &mut Names,
    scope: &Scope,
) -> Result<(), TypingError>
    ensures { Gives (λ u. view_typed fields.new.items names.new scope.now) result (with_member (view_named base.now) (view_typed fields.old.items names.old scope.now) (view_full declarator.now) (view_deriveds suffixes.now)) }
{
    let type_ = member_type(alloc, base, declarator, suffixes, names, scope)?;
    let name = name_of(declarator).to_vec(alloc)?;
    add_field(fields, Some(name), type_, base.constant)?;
    names.add(alloc, name_of(declarator))?;
    Ok(())
}

fn is_untagged(specifier: &Specifier) -> bool
    ensures { result ≡ is_untagged (view_part specifier.now) }
{
    match specifier {
        Specifier::Type(_) => false,
        Specifier::Storage { .. } => false,
        Specifier::Function { .. } => false,
        Specifier::Record { tag, .. } => tag.is_none(),
        Specifier::Enumeration { .. } => false,
    }
}

/// Whether a struct or union without a tag is among the specifiers.
pub fn has_untagged(specifiers: &[Specifier]) -> bool
    ensures { result ≡ has_untagged (parts_of specifiers.now) }
{
    for specifier in specifiers {
        if is_untagged(specifier) {
            return true;
        }
    }
    false
}

/// Whether a member has neither a name nor a tag, so that its own members are those of what it
/// stands in (C11 6.7.2.1p13).
pub fn is_anonymous(alone: bool, tag: &Option<Name>) -> bool
    ensures { result ≡ is_anonymous alone (option_map view_name tag.now) }
{
    alone && tag.is_none()
}

/// Adds what a part of specifiers says to what the others said (C11 6.7.2).
pub fn typed_type_part(
    alloc: Global,
    part: &TypeSpecifier,
    specified: &mut Specified,
    scope: &mut Scope,
) -> Result<(), AllocError>
    ensures specified { (names : List (List ℕ)) → OnOk result (view_parted specified.new names scope.new ≡ with_type_part (view_parted specified.old names scope.old) (view_type_part part.now)) }
    ensures within { OnOk result (length scope.old.bindings ≤ length scope.new.bindings) }
    ensures grows { OnOk result (length scope.old.records.declared ≤ length scope.new.records.declared) }
{
    match part {
        TypeSpecifier::Qualifier { .. } => specified.add_part(part, scope),
        TypeSpecifier::Word { .. } => specified.add_part(part, scope),
        TypeSpecifier::Tagged { kind, name, .. } => {
            let named = tag_named(alloc, *kind, &name.bytes, scope)?;
            specified.add_type(named)
        }
        TypeSpecifier::Named { .. } => specified.add_part(part, scope),
    }
}

// A parameter of an array type, which is none so far.
fn array_parameter(
    alloc: Global,
    base: Ty,
    lengths: &[Option<u64>],
    layouts: &Layouts,
) -> Result<Ty, Broken>
    ensures { GivesNode view result (array_parameter layouts.now.done (view base) lengths.now) }
{
    if lengths.is_empty() || lengths[0].is_some() {
        let _type = array_of(alloc, base, lengths, layouts)?;
        return Err(Broken::Rule { rule: 7 });
    }
    let element = element_type(alloc, base, &lengths[1..], layouts)?;
    match complete_type(element, layouts, 0) {
        Ok(_) => Err(Broken::Rule { rule: 7 }),
        Err(TypingError::Typing { rule, .. }) => Err(Broken::Rule { rule }),
        Err(TypingError::Memory) => Err(Broken::Memory),
    }
}

// A parameter whose suffixes say this, or the rule on its line.
fn parameter_made(
    alloc: Global,
    several: bool,
    base: &Ty,
    derived: Derivation,
    layouts: &Layouts,
    line: u32,
) -> Result<Ty, TypingError>
    ensures { Gives view result (on_line line (parameter_made layouts.now.done several (view base.now) (view_derivation derived))) }
{
    let type_ = base.copied()?;
    match derived {
        Derivation::Lengths { lengths } => {
            if !lengths.is_empty() {
                return match array_parameter(alloc, type_, &lengths, layouts) {
                    Ok(type_) => Ok(type_),
                    Err(Broken::Rule { rule }) => Err(TypingError::Typing { line, rule }),
                    Err(Broken::Memory) => Err(TypingError::Memory),
                };
            }
            if is_void(&type_) && several {
                return Ok(type_);
            }
            let _size = sized_type(&type_, layouts, line)?;
            Ok(type_)
        }
        Derivation::Callable { made: Ok(_) } => Err(TypingError::Typing { line, rule: 7 }),
        Derivation::Callable { made: Err(rule) } => Err(TypingError::Typing { line, rule }),
    }
}

/// The type of a parameter whose declarator has these suffixes.
pub fn parameter_type(
    alloc: Global,
    base: &QualifiedType,
    declarator: &FullDeclarator,
    suffixes: &[Derived],
    several: bool,
    line: u32,
    region: Region,
    scope: &Scope,
) -> Result<Ty, TypingError>
    requires { region.outer ≤ length scope.now.bindings }
    ensures { Gives view result (on_line line (parameter_node (full_has_name (view_full declarator.now) && is_some (earlier region scope.now (name_of (view_full declarator.now))))
        (parameter_made scope.now.records.done several (view base.now.type_) (derivation scope.now.functions scope.now.records.done (view_named base.now) (view_deriveds suffixes.now))))) }
{
    if has_name(declarator) && earlier(name_of(declarator), region, scope).is_some() {
        return Err(TypingError::Typing { line, rule: 2 });
    }
    let derived = derive(alloc, base, suffixes, scope)?;
    parameter_made(alloc, several, &base.type_, derived, scope.layouts(), line)
}

// A declarator declares a name.
fn has_name(declarator: &FullDeclarator) -> bool
    ensures { result ≡ full_has_name (view_full declarator.now) }
{
    match declarator {
        FullDeclarator::Unnamed { .. } => false,
        FullDeclarator::Named { .. } => true,
        FullDeclarator::Inside { inner, .. } => has_name(inner),
    }
}

/// One more parameter of this type.
pub fn add_parameter(
    alloc: Global,
    declarator: &FullDeclarator,
    type_: Ty,
    constant: bool,
    scope: &mut Scope,
    typed: &mut Vec<Parameter>,
) -> Result<(), TypingError>
    requires { is_void (view type_) ≡ false → sized_type scope.old.records.done (view type_) ≡ Ok (view type_) }
    ensures declared { OnOk result (record { parameters = view_parameters typed.new.items; scope = scope.new } ≡
        with_parameter (record { parameters = view_parameters typed.old.items; scope = scope.old }) (name_of (view_full declarator.now)) (record { type = view type_; constant = constant })
        (declared_parameter (full_has_name (view_full declarator.now)) scope.old (name_of (view_full declarator.now)) (record { type = view type_; constant = constant }))) }
    ensures memory { IfErr result (λ e. e ≡ TypingError.Memory) }
    ensures within { OnOk result (length scope.old.bindings ≤ length scope.new.bindings) }
    ensures grows { OnOk result (length scope.old.records.declared ≤ length scope.new.records.declared) }
{
    let name = name_of(declarator);
    if has_name(declarator) && !is_void(&type_) {
        declare_parameter(alloc, name, &type_, constant, scope)?;
    }
    typed.push(Parameter {
        name: name.to_vec(alloc)?,
        type_: QualifiedType { type_, constant },
    })?;
    Ok(())
}

/// What declarators declare, by the storage word before them (C11 6.7.1).
pub fn role_of(is_file: bool, storage: &[StorageClass]) -> Role
    ensures { result ≡ role_of is_file storage.now }
{
    match storage {
        [] => default_role(is_file),
        [StorageClass::Typedef, ..] => Role::Typedef,
        [StorageClass::Extern, ..] => Role::Extern,
        [StorageClass::Static, ..] => Role::Static,
        [StorageClass::Auto, ..] => default_role(is_file),
        [StorageClass::Register, ..] => default_role(is_file),
    }
}

fn default_role(is_file: bool) -> Role
    ensures { result ≡ role_of is_file [] }
{
    if is_file {
        Role::Static
    } else {
        Role::Automatic
    }
}

fn lone_part(specifier: &Specifier) -> Option<(TagKind, &Name)>
    ensures { option_map (λ x. (x.0, view_name x.1.now)) result ≡ lone_part (view_part specifier.now) }
{
    match specifier {
        Specifier::Type(TypeSpecifier::Tagged { kind, name, .. }) => Some((*kind, name)),
        _ => None,
    }
}

/// A tag alone, without declarators.
pub fn lone_tag<'a>(
    specifiers: &'a [Specifier],
    declarators: &[InitDeclarator],
) -> Option<(TagKind, &'a Name)>
    ensures { option_map (λ x. (x.0, view_name x.1.now)) result ≡ lone_tag (parts_of specifiers.now) (declarators_of declarators.now) }
{
    if specifiers.len() == 1 && declarators.is_empty() {
        lone_part(&specifiers[0])
    } else {
        None
    }
}

/// `struct tag;` declares the tag in this scope.
pub fn with_lone(
    alloc: Global,
    lone: Option<(TagKind, &Name)>,
    region: Region,
    scope: &mut Scope,
) -> Result<(), AllocError>
    requires { region.outer ≤ length scope.old.bindings }
    ensures is { OnOk result (scope.new ≡ with_lone region scope.old (option_map (λ x. (x.0, view_name x.1.now)) lone.entry)) }
    ensures within { OnOk result (region.outer ≤ length scope.new.bindings) }
{
    match lone {
        None => Ok(()),
        Some((kind, name)) => forward_tag(alloc, kind, &name.bytes, region, scope),
    }
}
