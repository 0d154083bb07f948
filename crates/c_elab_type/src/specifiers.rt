//! Specifiers, the members in them, and declarators with their parameters.
ghost use Rattle.std.specs.Prelude.{◌≡◌, ◌≤◌, ◌&&◌, false, Ok, ℕ, List, [], ◌∷◌, Some, None, length, map, option_map, OnOk};
ghost use Rattle.c_tree.specs.Tree.{view_name};
ghost use Rattle.c_tree.specs.Declarations.{no_member, no_parameter, full_end, parts_line, view_part, parts_of, view_enumerator, view_member, members_of, view_full, fulls_of, view_full_suffix, full_suffixes_of, view_parameter as view_parameter_tree, parameters_of, declarators_of};
ghost use Rattle.c_elab_base.specs.Derivations.{view_derived, view_deriveds, view_parameters};
ghost use Rattle.c_scope.specs.declared.fault.TypingError.{TypingError};
ghost use Rattle.c_scope.specs.Scopes.{view_named};
ghost use Rattle.c_scope.specs.Faults.{Gives};
ghost use Rattle.c_elab_type.specs.Steps.{Derives};
ghost use Rattle.c_elab_base.specs.Specifiers.{with_member, are_several, inner_region, parted, named_parts, has_untagged, is_anonymous, role_of, lone_tag, with_lone, view_parted, view_typed};
ghost use Rattle.c_elab_type.specs.Specifiers.{typed_fields, typed_full, typed_suffixes, typed_parameters, typed_enumeration, typed_record, typed_within, typed_part, typed_parts, typed_members, typed_specifiers, view_specification};

use crate::enumerators::typed_enumerators;
use c_elab_base::{
    Derived, Names, Parameter, Region, Role, add_field, add_parameter, closed, enumeration_closed,
    has_untagged, is_anonymous, kind_of, lone_tag, opened, parameter_line, parameter_type,
    parts_line, reopened, role_of, typed_type_part, with_lone, with_member,
};
use c_elab_expr::{bound, no_pointers};
use c_scope::{Field, QualifiedType, Scope, Specified, TypingError};
use c_tree::{
    DeclaratorSuffix, Enumerator, FullDeclarator, InitDeclarator, MemberDeclaration, Name,
    Parameter as ParameterTree, RecordKind, Specifier,
};
use std::alloc::Global;

/// What the specifiers of a declaration say.
#[derive(Drop)]
pub struct Base {
    pub named: QualifiedType,
    pub role: Role,
}

// An enumeration in braces.
fn typed_enumeration(
    alloc: Global,
    tag: &Option<Name>,
    enumerators: &[Enumerator],
    region: Region,
    specified: &mut Specified,
    scope: &mut Scope,
) -> Result<(), TypingError>
    requires { region.outer ≤ length scope.old.bindings }
    ensures gives { (names : List (List ℕ)) → Gives (λ u. view_parted specified.new names scope.new) result
        (typed_enumeration region (view_parted specified.old names scope.old) (option_map view_name tag.now) (map view_enumerator enumerators.now)) }
    ensures within { OnOk result (region.outer ≤ length scope.new.bindings) }
    ensures grows { OnOk result (length scope.old.records.declared ≤ length scope.new.records.declared) }
{
    typed_enumerators(alloc, enumerators, region, scope)?;
    let named = enumeration_closed(alloc, tag, region, scope)?;
    specified.add_type(named)?;
    Ok(())
}

// A specifier; alone, where no declarators stand behind the list.
#[cycle(specifiers)]
fn typed_part(
    alloc: Global,
    specifier: &Specifier,
    alone: bool,
    region: Region,
    specified: &mut Specified,
    names: &mut Names,
    scope: &mut Scope,
) -> Result<(), TypingError>
    requires { region.outer ≤ length scope.old.bindings }
    ensures gives { Gives (λ u. view_parted specified.new names.new scope.new) result (typed_part region alone (view_parted specified.old names.old scope.old) (view_part specifier.now)) }
    ensures within { OnOk result (region.outer ≤ length scope.new.bindings) }
    ensures grows { OnOk result (length scope.old.records.declared ≤ length scope.new.records.declared) }
{
    match specifier {
        Specifier::Type(part) => {
            typed_type_part(alloc, part, specified, scope)?;
            Ok(())
        }
        Specifier::Storage { class, .. } => {
            specified.add_storage(*class)?;
            Ok(())
        }
        Specifier::Function { .. } => Ok(()),
        Specifier::Record {
            kind,
            tag,
            members,
            ..
        } => typed_record(
            alloc, *kind, tag, members, alone, region, specified, names, scope,
        ),
        Specifier::Enumeration {
            tag,
            enumerators,
            ..
        } => typed_enumeration(alloc, tag, enumerators, region, specified, scope),
    }
}

// A struct or union in braces.
#[cycle(specifiers)]
fn typed_record(
    alloc: Global,
    kind: RecordKind,
    tag: &Option<Name>,
    members: &[MemberDeclaration],
    alone: bool,
    region: Region,
    specified: &mut Specified,
    names: &mut Names,
    scope: &mut Scope,
) -> Result<(), TypingError>
    requires { region.outer ≤ length scope.old.bindings }
    ensures gives { Gives (λ u. view_parted specified.new names.new scope.new) result
        (typed_record region alone (view_parted specified.old names.old scope.old) kind (option_map view_name tag.now) (members_of members.now)) }
    ensures within { OnOk result (region.outer ≤ length scope.new.bindings) }
    ensures grows { OnOk result (length scope.old.records.declared ≤ length scope.new.records.declared) }
{
    let kind = kind_of(kind);
    let braces = opened(alloc, kind, tag, region, scope)?;
    let fields = typed_within(
        alloc,
        members,
        is_anonymous(alone, tag),
        region,
        names,
        scope,
    )?;
    let braces = reopened(alloc, braces, kind, scope)?;
    let named = closed(alloc, braces, &fields, scope)?;
    specified.add_type(named)?;
    Ok(())
}

// The members in braces, which have the names that those around them have where the struct or union is anonymous.
#[cycle(specifiers)]
fn typed_within(
    alloc: Global,
    members: &[MemberDeclaration],
    anonymous: bool,
    region: Region,
    names: &mut Names,
    scope: &mut Scope,
) -> Result<Vec<Field>, TypingError>
    requires { region.outer ≤ length scope.old.bindings }
    ensures gives { Gives (λ v. view_typed v.items names.new scope.new) result (typed_within region anonymous names.old scope.old (members_of members.now)) }
    ensures within { OnOk result (region.outer ≤ length scope.new.bindings) }
    ensures grows { OnOk result (length scope.old.records.declared ≤ length scope.new.records.declared) }
{
    let mut fields = Vec::new(alloc);
    if anonymous {
        typed_members(alloc, members, region, &mut fields, names, scope)?;
    } else {
        let mut inner = Names::new(alloc);
        typed_members(alloc, members, region, &mut fields, &mut inner, scope)?;
    }
    Ok(fields)
}

// Specifiers from left to right.
#[cycle(specifiers)]
fn typed_parts(
    alloc: Global,
    specifiers: &[Specifier],
    alone: bool,
    region: Region,
    specified: &mut Specified,
    names: &mut Names,
    scope: &mut Scope,
) -> Result<(), TypingError>
    requires { region.outer ≤ length scope.old.bindings }
    ensures gives { Gives (λ u. view_parted specified.new names.new scope.new) result (typed_parts region alone (view_parted specified.old names.old scope.old) (parts_of specifiers.now)) }
    ensures within { OnOk result (region.outer ≤ length scope.new.bindings) }
    ensures grows { OnOk result (length scope.old.records.declared ≤ length scope.new.records.declared) }
{
    for specifier in specifiers {
        typed_part(alloc, specifier, alone, region, specified, names, scope)?;
    }
    Ok(())
}

// Declarations of members in order.
#[cycle(specifiers)]
fn typed_members(
    alloc: Global,
    members: &[MemberDeclaration],
    region: Region,
    fields: &mut Vec<Field>,
    names: &mut Names,
    scope: &mut Scope,
) -> Result<(), TypingError>
    requires { region.outer ≤ length scope.old.bindings }
    ensures gives { Gives (λ u. view_typed fields.new.items names.new scope.new) result (typed_members region (view_typed fields.old.items names.old scope.old) (members_of members.now)) }
    ensures within { OnOk result (region.outer ≤ length scope.new.bindings) }
    ensures grows { OnOk result (length scope.old.records.declared ≤ length scope.new.records.declared) }
{
    for member in members {
        typed_line(alloc, member, region, fields, names, scope)?;
    }
    Ok(())
}

// A declaration of members.
#[cycle(specifiers)]
fn typed_line(
    alloc: Global,
    member: &MemberDeclaration,
    region: Region,
    fields: &mut Vec<Field>,
    names: &mut Names,
    scope: &mut Scope,
) -> Result<(), TypingError>
    requires { region.outer ≤ length scope.old.bindings }
    ensures gives { Gives (λ u. view_typed fields.new.items names.new scope.new) result
        (typed_members region (view_typed fields.old.items names.old scope.old) (view_member member.now no_member)) }
    ensures within { OnOk result (region.outer ≤ length scope.new.bindings) }
    ensures grows { OnOk result (length scope.old.records.declared ≤ length scope.new.records.declared) }
{
    let alone = member.declarators.is_empty();
    let mut specified = Specified::new(alloc);
    typed_parts(
        alloc,
        &member.specifiers,
        alone,
        region,
        &mut specified,
        names,
        scope,
    )?;
    let named = specified.type_on(parts_line(&member.specifiers))?;
    if alone && has_untagged(&member.specifiers) {
        add_field(fields, None, named.type_.copied()?, named.constant)?;
    }
    typed_fields(
        alloc,
        &named,
        &member.declarators,
        region,
        fields,
        names,
        scope,
    )
}

// Members of one declaration from left to right.
#[cycle(specifiers)]
fn typed_fields(
    alloc: Global,
    base: &QualifiedType,
    declarators: &[FullDeclarator],
    region: Region,
    fields: &mut Vec<Field>,
    names: &mut Names,
    scope: &mut Scope,
) -> Result<(), TypingError>
    requires { region.outer ≤ length scope.old.bindings }
    ensures gives { Gives (λ u. view_typed fields.new.items names.new scope.new) result (typed_fields region (view_named base.now) (view_typed fields.old.items names.old scope.old) (fulls_of declarators.now)) }
    ensures within { OnOk result (region.outer ≤ length scope.new.bindings) }
    ensures grows { OnOk result (length scope.old.records.declared ≤ length scope.new.records.declared) }
{
    for declarator in declarators {
        let suffixes = typed_full(alloc, declarator, scope)?;
        with_member(alloc, base, declarator, &suffixes, fields, names, scope)?;
    }
    Ok(())
}

/// What the suffixes of a declarator say, the outermost first.
#[cycle(specifiers)]
pub fn typed_full(
    alloc: Global,
    declarator: &FullDeclarator,
    scope: &mut Scope,
) -> Result<Vec<Derived>, TypingError>
    ensures gives { Gives (λ v. (view_deriveds v.items, scope.new)) result (typed_full scope.old (view_full declarator.now)) }
    ensures names { OnOk result (scope.new.bindings ≡ scope.old.bindings) }
    ensures variables { OnOk result (scope.new.variables ≡ scope.old.variables) }
    ensures grows { OnOk result (length scope.old.records.declared ≤ length scope.new.records.declared) }
{
    let mut suffixes = Vec::new(alloc);
    add_full(alloc, declarator, scope, &mut suffixes)?;
    Ok(suffixes)
}

#[cycle(specifiers)]
fn add_full(
    alloc: Global,
    declarator: &FullDeclarator,
    scope: &mut Scope,
    found: &mut Vec<Derived>,
) -> Result<(), TypingError>
    ensures gives { Derives result scope.new found.old.items found.new.items (typed_full scope.old (view_full declarator.now)) }
    ensures names { OnOk result (scope.new.bindings ≡ scope.old.bindings) }
    ensures variables { OnOk result (scope.new.variables ≡ scope.old.variables) }
    ensures grows { OnOk result (length scope.old.records.declared ≤ length scope.new.records.declared) }
{
    match declarator {
        FullDeclarator::Unnamed { pointers, suffixes } => {
            no_pointers(pointers)?;
            add_suffixes(alloc, suffixes, scope, found)
        }
        FullDeclarator::Named {
            pointers,
            suffixes,
            ..
        } => {
            no_pointers(pointers)?;
            add_suffixes(alloc, suffixes, scope, found)
        }
        FullDeclarator::Inside {
            pointers,
            inner,
            suffixes,
            ..
        } => {
            no_pointers(pointers)?;
            add_full(alloc, inner, scope, found)?;
            add_suffixes(alloc, suffixes, scope, found)
        }
    }
}

#[cycle(specifiers)]
fn add_suffixes(
    alloc: Global,
    suffixes: &[DeclaratorSuffix],
    scope: &mut Scope,
    found: &mut Vec<Derived>,
) -> Result<(), TypingError>
    ensures gives { Derives result scope.new found.old.items found.new.items (typed_suffixes scope.old (full_suffixes_of suffixes.now)) }
    ensures names { OnOk result (scope.new.bindings ≡ scope.old.bindings) }
    ensures variables { OnOk result (scope.new.variables ≡ scope.old.variables) }
    ensures grows { OnOk result (length scope.old.records.declared ≤ length scope.new.records.declared) }
{
    for suffix in suffixes {
        let derived = typed_suffix(alloc, suffix, scope)?;
        found.push(derived)?;
    }
    Ok(())
}

// A suffix, in front of others.
#[cycle(specifiers)]
fn typed_suffix(
    alloc: Global,
    suffix: &DeclaratorSuffix,
    scope: &mut Scope,
) -> Result<Derived, TypingError>
    ensures gives { Gives (λ d. (view_derived d ∷ [], scope.new)) result (typed_suffixes scope.old (view_full_suffix suffix.now full_end)) }
    ensures names { OnOk result (scope.new.bindings ≡ scope.old.bindings) }
    ensures variables { OnOk result (scope.new.variables ≡ scope.old.variables) }
    ensures grows { OnOk result (length scope.old.records.declared ≤ length scope.new.records.declared) }
{
    match suffix {
        DeclaratorSuffix::Bounded { bound: expr, .. } => Ok(Derived::Counted {
            length: Some(bound(alloc, expr, scope)?),
        }),
        DeclaratorSuffix::Open { .. } => Ok(Derived::Counted { length: None }),
        DeclaratorSuffix::Empty { .. } => Ok(Derived::Called {
            parameters: Vec::new(alloc),
            ellipsis: false,
        }),
        DeclaratorSuffix::Void { .. } => Ok(Derived::Called {
            parameters: Vec::new(alloc),
            ellipsis: false,
        }),
        DeclaratorSuffix::Parameters {
            parameters,
            variadic,
            ..
        } => {
            scope.prove_there();
            let outer = scope.len();
            let variables = scope.variable_count();
            let parameters = typed_parameters(alloc, parameters, scope)?;
            scope.end_parameters(outer, variables);
            Ok(Derived::Called {
                parameters,
                ellipsis: *variadic,
            })
        }
    }
}

/// Parameters from left to right. Their names stay in scope.
#[cycle(specifiers)]
pub fn typed_parameters(
    alloc: Global,
    parameters: &[ParameterTree],
    scope: &mut Scope,
) -> Result<Vec<Parameter>, TypingError>
    ensures gives { Gives (λ v. record { parameters = view_parameters v.items; scope = scope.new }) result
        (typed_parameters (inner_region scope.old) (are_several (parameters_of parameters.now)) (record { parameters = []; scope = scope.old }) (parameters_of parameters.now)) }
    ensures grows { OnOk result (length scope.old.records.declared ≤ length scope.new.records.declared) }
{
    let region = Region {
        outer: scope.len(),
        is_file: false,
    };
    let several = parameters.len() > 1;
    let mut typed = Vec::new(alloc);
    for parameter in parameters {
        typed_parameter(alloc, parameter, several, region, scope, &mut typed)?;
    }
    Ok(typed)
}

// A parameter, among several or alone.
#[cycle(specifiers)]
fn typed_parameter(
    alloc: Global,
    parameter: &ParameterTree,
    several: bool,
    region: Region,
    scope: &mut Scope,
    typed: &mut Vec<Parameter>,
) -> Result<(), TypingError>
    requires { region.outer ≤ length scope.old.bindings }
    ensures gives { Gives (λ u. record { parameters = view_parameters typed.new.items; scope = scope.new }) result
        (typed_parameters region several (record { parameters = view_parameters typed.old.items; scope = scope.old }) (view_parameter_tree parameter.now no_parameter)) }
    ensures within { OnOk result (region.outer ≤ length scope.new.bindings) }
    ensures grows { OnOk result (length scope.old.records.declared ≤ length scope.new.records.declared) }
{
    let base = named_parts(alloc, &parameter.specifiers, region, scope)?;
    let suffixes = typed_full(alloc, &parameter.declarator, scope)?;
    let line = parameter_line(&parameter.specifiers, &parameter.declarator);
    let type_ = parameter_type(
        alloc,
        &base,
        &parameter.declarator,
        &suffixes,
        several,
        line,
        region,
        scope,
    )?;
    add_parameter(
        alloc,
        &parameter.declarator,
        type_,
        base.constant,
        scope,
        typed,
    )
}

/// The type that specifiers say.
#[cycle(specifiers)]
pub fn named_parts(
    alloc: Global,
    specifiers: &[Specifier],
    region: Region,
    scope: &mut Scope,
) -> Result<QualifiedType, TypingError>
    requires { region.outer ≤ length scope.old.bindings }
    ensures gives { Gives (λ n. (view_named n, scope.new)) result (named_parts (parts_of specifiers.now) (typed_parts region false (parted [] scope.old) (parts_of specifiers.now))) }
    ensures within { OnOk result (region.outer ≤ length scope.new.bindings) }
    ensures grows { OnOk result (length scope.old.records.declared ≤ length scope.new.records.declared) }
{
    let mut specified = Specified::new(alloc);
    let mut names = Names::new(alloc);
    typed_parts(
        alloc,
        specifiers,
        false,
        region,
        &mut specified,
        &mut names,
        scope,
    )?;
    specified.type_on(parts_line(specifiers))
}

/// What the specifiers of a declaration say, by the declarators behind them.
pub fn typed_specifiers(
    alloc: Global,
    specifiers: &[Specifier],
    declarators: &[InitDeclarator],
    region: Region,
    scope: &mut Scope,
) -> Result<Base, TypingError>
    requires { region.outer ≤ length scope.old.bindings }
    ensures gives { Gives (λ b. view_specification b scope.new) result (typed_specifiers region scope.old (parts_of specifiers.now) (declarators_of declarators.now)) }
    ensures within { OnOk result (region.outer ≤ length scope.new.bindings) }
{
    with_lone(alloc, lone_tag(specifiers, declarators), region, scope)?;
    let mut specified = Specified::new(alloc);
    let mut names = Names::new(alloc);
    typed_parts(
        alloc,
        specifiers,
        false,
        region,
        &mut specified,
        &mut names,
        scope,
    )?;
    let named = specified.type_on(parts_line(specifiers))?;
    let role = role_of(region.is_file, &specified.storage);
    Ok(Base { named, role })
}
