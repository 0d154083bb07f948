//! What the suffixes of declarators make of a type.
ghost use Rattle.std.specs.Prelude.{◌≡◌, ℕ, List, ◌∷◌, map, option_map, IfOk, Result, Ok};
ghost use Rattle.c_tree.specs.Declarations.{Full, full_behind, view_full, full_suffixes_of, part_line, parts_line, view_part, parts_of};
ghost use Rattle.c_tree.specs.Files.{full_is_empty};
ghost use Rattle.c_types.specs.Types.{view};
ghost use Rattle.c_scope.specs.Scopes.{view_named, view_function_type, function_number};
ghost use Rattle.c_scope.specs.Faults.{GivesNode};
ghost use Rattle.c_elab_base.specs.Derivations.{Derived as SpecDerived, Shape as SpecShape, suffixes_line, type_numbered, full_line, name_line, parameter_line, view_parameters, view_derived, view_deriveds, view_shape, view_derivation, shape_of, array_shape, is_void, is_array, has_void, parameter_types, function_shape, derived, function_made, plain_lengths, callable_by, derivation};

use c_scope::{Broken, FunctionType, QualifiedType, Scope, one_array};
use c_tree::{DeclaratorSuffix, FullDeclarator, PointerMark, Specifier, TypeSpecifier};
use c_types::{Layouts, Ty};
use std::alloc::{AllocError, Global};

/// A parameter: its name, empty where it has none, and its type.
#[derive(Drop)]
pub struct Parameter {
    pub name: Vec<u8>,
    pub type_: QualifiedType,
}

/// What a typed suffix says.
#[derive(Drop)]
pub enum Derived {
    /// An array of so many elements, of which `[]` has none.
    Counted {
        length: Option<u64>,
    },
    /// A function with these parameters, and with an ellipsis or none.
    Called {
        parameters: Vec<Parameter>,
        ellipsis: bool,
    },
}

/// An object's type, or a function's.
#[derive(Drop)]
pub enum Shape {
    Object { type_: Ty },
    Function { type_: FunctionType },
}

/// The lengths of an object's arrays, or the function type of what is no object, or the rule that it breaks.
#[derive(Drop)]
pub enum Derivation {
    Lengths { lengths: Vec<Option<u64>> },
    Callable { made: Result<FunctionType, u32> },
}

// The line of a specifier's first token.
fn part_line(specifier: &Specifier) -> u32
    ensures { result ≡ part_line (view_part specifier.now) }
{
    match specifier {
        Specifier::Type(TypeSpecifier::Qualifier { line, .. }) => *line,
        Specifier::Type(TypeSpecifier::Word { line, .. }) => *line,
        Specifier::Type(TypeSpecifier::Tagged { line, .. }) => *line,
        Specifier::Type(TypeSpecifier::Named { line, .. }) => *line,
        Specifier::Storage { line, .. } => *line,
        Specifier::Function { line, .. } => *line,
        Specifier::Record { line, .. } => *line,
        Specifier::Enumeration { line, .. } => *line,
    }
}

/// The line of the first specifier, or 0 where there is none.
pub fn parts_line(specifiers: &[Specifier]) -> u32
    ensures { result ≡ parts_line (parts_of specifiers.now) }
{
    match specifiers {
        [first, ..] => part_line(first),
        [] => 0,
    }
}

fn suffixes_line(suffixes: &[DeclaratorSuffix]) -> u32
    ensures { result ≡ suffixes_line (full_suffixes_of suffixes.now) }
{
    match suffixes {
        [] => 0,
        [DeclaratorSuffix::Bounded { line, .. }, ..] => *line,
        [DeclaratorSuffix::Open { line }, ..] => *line,
        [DeclaratorSuffix::Empty { line }, ..] => *line,
        [DeclaratorSuffix::Void { line }, ..] => *line,
        [DeclaratorSuffix::Parameters { line, .. }, ..] => *line,
    }
}

// The line of the first of pointers, or of what stands behind them.
fn pointers_line(pointers: &[PointerMark], behind: u32) -> u32
    ensures { (d : Full) → behind ≡ full_line d → result ≡ full_line (full_behind pointers.now d) }
{
    match pointers {
        [first, ..] => first.line,
        [] => behind,
    }
}

/// The line of a declarator's first token, 0 where it is empty.
pub fn full_line(declarator: &FullDeclarator) -> u32
    ensures { result ≡ full_line (view_full declarator.now) }
{
    match declarator {
        FullDeclarator::Unnamed { pointers, suffixes } => {
            pointers_line(pointers, suffixes_line(suffixes))
        }
        FullDeclarator::Named { pointers, line, .. } => pointers_line(pointers, *line),
        FullDeclarator::Inside { pointers, line, .. } => pointers_line(pointers, *line),
    }
}

/// The line of a declarator's name, 0 where it has none.
pub fn name_line(declarator: &FullDeclarator) -> u32
    ensures { result ≡ name_line (view_full declarator.now) }
{
    match declarator {
        FullDeclarator::Unnamed { .. } => 0,
        FullDeclarator::Named { line, .. } => *line,
        FullDeclarator::Inside { inner, .. } => name_line(inner),
    }
}

// No pointer, name or suffix stands in a declarator.
fn is_empty(declarator: &FullDeclarator) -> bool
    ensures { result ≡ full_is_empty (view_full declarator.now) }
{
    match declarator {
        FullDeclarator::Unnamed { pointers, suffixes } => {
            pointers.is_empty() && suffixes.is_empty()
        }
        FullDeclarator::Named { .. } => false,
        FullDeclarator::Inside { .. } => false,
    }
}

/// The line of a parameter's declarator, or of its specifiers where that is empty.
pub fn parameter_line(specifiers: &[Specifier], declarator: &FullDeclarator) -> u32
    ensures { result ≡ parameter_line (parts_of specifiers.now) (view_full declarator.now) }
{
    if is_empty(declarator) {
        parts_line(specifiers)
    } else {
        full_line(declarator)
    }
}

/// Whether a type is `void` (C11 6.2.5p19).
pub fn is_void(type_: &Ty) -> bool
    ensures { result ≡ is_void (view type_.now) }
{
    match type_ {
        Ty::Void => true,
        Ty::Integer(_) => false,
        Ty::Record(_) => false,
        Ty::Array { .. } => false,
        Ty::Pointer { .. } => false,
        Ty::Function(_) => false,
    }
}

fn is_array(type_: &Ty) -> bool
    ensures { result ≡ is_array (view type_.now) }
{
    match type_ {
        Ty::Void => false,
        Ty::Integer(_) => false,
        Ty::Record(_) => false,
        Ty::Array { .. } => true,
        Ty::Pointer { .. } => false,
        Ty::Function(_) => false,
    }
}

// Void is among the parameters.
fn has_void(parameters: &[Parameter]) -> bool
    ensures { result ≡ has_void (view_parameters parameters.now) }
{
    for parameter in parameters {
        if is_void(&parameter.type_.type_) {
            return true;
        }
    }
    false
}

fn parameter_types(alloc: Global, parameters: &[Parameter]) -> Result<Vec<Ty>, AllocError>
    ensures { IfOk result (λ ts. map view ts.items ≡ parameter_types (view_parameters parameters.now)) }
{
    let mut types = Vec::new(alloc);
    for parameter in parameters {
        types.push(parameter.type_.type_.copied()?)?;
    }
    Ok(types)
}

fn copied_types(alloc: Global, types: &[Ty]) -> Result<Vec<Ty>, AllocError>
    ensures { IfOk result (λ ts. map view ts.items ≡ map view types.now) }
{
    let mut copies = Vec::new(alloc);
    for type_ in types {
        copies.push(type_.copied()?)?;
    }
    Ok(copies)
}

/// The same function type again.
pub fn copied_function(alloc: Global, type_: &FunctionType) -> Result<FunctionType, AllocError>
    ensures { IfOk result (λ t. view_function_type t ≡ view_function_type type_.now) }
{
    Ok(FunctionType {
        gives: type_.gives.copied()?,
        constant: type_.constant,
        parameters: copied_types(alloc, &type_.parameters)?,
        ellipsis: type_.ellipsis,
    })
}

/// The function type that a typedef of one stands for.
pub fn function_named<'a>(type_: &Ty, scope: &'a Scope) -> Option<&'a FunctionType>
    ensures { option_map (λ t. view_function_type t.now) result ≡ type_numbered scope.now.functions (function_number (view type_.now)) }
{
    match type_ {
        Ty::Function(number) => scope.functions().type_at(*number),
        _ => None,
    }
}

// The type that specifiers say.
fn shape_of(alloc: Global, type_: &Ty, scope: &Scope) -> Result<Shape, AllocError>
    ensures { IfOk result (λ s. view_shape s ≡ shape_of scope.now.functions (view type_.now)) }
{
    match function_named(type_, scope) {
        Some(function) => Ok(Shape::Function {
            type_: copied_function(alloc, function)?,
        }),
        None => Ok(Shape::Object {
            type_: type_.copied()?,
        }),
    }
}

fn array_shape(
    alloc: Global,
    length: Option<u64>,
    element: Shape,
    layouts: &Layouts,
) -> Result<Shape, Broken>
    ensures { GivesNode view_shape result (array_shape layouts.now.done length (view_shape element)) }
{
    match element {
        Shape::Object { type_ } => Ok(Shape::Object {
            type_: one_array(alloc, type_, length, layouts)?,
        }),
        Shape::Function { .. } => Err(Broken::Rule { rule: 3 }),
    }
}

fn function_shape(
    alloc: Global,
    constant: bool,
    parameters: &[Parameter],
    ellipsis: bool,
    gives: Shape,
) -> Result<Shape, Broken>
    ensures { GivesNode view_shape result (function_shape constant (view_parameters parameters.now) ellipsis (view_shape gives)) }
{
    match gives {
        Shape::Object { type_ } => {
            if is_array(&type_) || has_void(parameters) {
                return Err(Broken::Rule { rule: 6 });
            }
            Ok(Shape::Function {
                type_: FunctionType {
                    gives: type_,
                    constant,
                    parameters: parameter_types(alloc, parameters)?,
                    ellipsis,
                },
            })
        }
        Shape::Function { .. } => Err(Broken::Rule { rule: 6 }),
    }
}

// The type that one suffix makes.
fn derived_by(
    alloc: Global,
    constant: bool,
    suffix: &Derived,
    inner: Shape,
    layouts: &Layouts,
) -> Result<Shape, Broken>
    ensures { (base : SpecShape) (rest : List SpecDerived) → derived layouts.now.done constant base rest ≡ Ok (view_shape inner) → GivesNode view_shape result (derived layouts.now.done constant base (view_derived suffix.now ∷ rest)) }
{
    match suffix {
        Derived::Counted { length } => array_shape(alloc, *length, inner, layouts),
        Derived::Called {
            parameters,
            ellipsis,
        } => function_shape(alloc, constant, parameters, *ellipsis, inner),
    }
}

// The type with these suffixes, the outermost first.
fn shape_with(
    alloc: Global,
    constant: bool,
    base: Shape,
    suffixes: &[Derived],
    layouts: &Layouts,
) -> Result<Shape, Broken>
    ensures { GivesNode view_shape result (derived layouts.now.done constant (view_shape base) (view_deriveds suffixes.now)) }
{
    let mut shape = base;
    let mut left = suffixes.len();
    while left > 0 {
        left -= 1;
        shape = derived_by(alloc, constant, &suffixes[left], shape, layouts)?;
    }
    Ok(shape)
}

fn function_in(shape: Result<Shape, Broken>) -> Result<FunctionType, Broken>
    ensures { (r : Result SpecShape ℕ) → GivesNode view_shape shape r → GivesNode view_function_type result (function_made r) }
{
    match shape? {
        Shape::Object { .. } => Err(Broken::Rule { rule: 3 }),
        Shape::Function { type_ } => Ok(type_),
    }
}

// The lengths of suffixes that are arrays' alone.
fn plain_lengths(
    alloc: Global,
    suffixes: &[Derived],
) -> Result<Option<Vec<Option<u64>>>, AllocError>
    ensures { IfOk result (λ o. option_map (λ v. v.items) o ≡ plain_lengths (view_deriveds suffixes.now)) }
{
    let mut lengths = Vec::new(alloc);
    for suffix in suffixes {
        match suffix {
            Derived::Counted { length } => lengths.push(*length)?,
            Derived::Called { .. } => return Ok(None),
        }
    }
    Ok(Some(lengths))
}

// The suffixes of a base of function type, or of which one is a function's.
fn callable(
    alloc: Global,
    constant: bool,
    base: Shape,
    suffixes: &[Derived],
    layouts: &Layouts,
) -> Result<Derivation, AllocError>
    ensures { IfOk result (λ d. view_derivation d ≡ callable_by (derived layouts.now.done constant (view_shape base) (view_deriveds suffixes.now))) }
{
    match function_in(shape_with(alloc, constant, base, suffixes, layouts)) {
        Ok(type_) => Ok(Derivation::Callable { made: Ok(type_) }),
        Err(Broken::Rule { rule }) => Ok(Derivation::Callable { made: Err(rule) }),
        Err(Broken::Memory) => Err(AllocError),
    }
}

/// What a declarator with these suffixes says of a base.
pub fn derive(
    alloc: Global,
    base: &QualifiedType,
    suffixes: &[Derived],
    scope: &Scope,
) -> Result<Derivation, AllocError>
    ensures { IfOk result (λ d. view_derivation d ≡ derivation scope.now.functions scope.now.records.done (view_named base.now) (view_deriveds suffixes.now)) }
{
    match shape_of(alloc, &base.type_, scope)? {
        Shape::Object { type_ } => match plain_lengths(alloc, suffixes)? {
            Some(lengths) => Ok(Derivation::Lengths { lengths }),
            None => callable(
                alloc,
                base.constant,
                Shape::Object { type_ },
                suffixes,
                scope.layouts(),
            ),
        },
        function => callable(alloc, base.constant, function, suffixes, scope.layouts()),
    }
}
