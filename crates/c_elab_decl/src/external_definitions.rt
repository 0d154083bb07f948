//! Definitions and the file.
ghost use Rattle.std.specs.Prelude.{◌≡◌, ◌<◌, ◌≤◌, ◌+◌, ◌∷◌, Bool, true, [], length, Some, None, OnOk, IfOk};
ghost use Rattle.c_tree.specs.Statements.{Externals, view_statement, view_external, externals_of, view_file};
ghost use Rattle.c_tree.specs.Declarations.{Parameters, full_end, parts_of, name_of, view_full, view_full_suffix};
ghost use Rattle.core_tree.specs.Trees.{view_core, view_statement as typed_view};
ghost use Rattle.c_scope.specs.Scopes.{Scoped, first_scope, view_named, view_function_type};
ghost use Rattle.c_scope.specs.Faults.{Gives, on_line};
ghost use Rattle.c_elab_base.specs.Regions.{earlier};
ghost use Rattle.c_elab_base.specs.Derivations.{called, full_line, view_parameters, view_deriveds};
ghost use Rattle.c_elab_base.specs.Specifiers.{are_several, inner_region};
ghost use Rattle.c_elab_type.specs.Specifiers.{typed_parameters};
ghost use Rattle.c_elab_object.specs.DeclaratorLists.{in_file};
ghost use Rattle.c_elab_flow.specs.Jumps.{labels_in};
ghost use Rattle.c_elab_flow.specs.Files.{one_function, own_parameters};
ghost use Rattle.c_elab_decl.specs.Files.{own_suffixes, definition_type, typed_externals, typed_body_of, with_definitions, elaborated};
ghost use Rattle.c_elab_flow.specs.Held.{parameters_in, view_definitions};
ghost use Rattle.c_elab_decl.specs.DefinitionSteps.{DefinitionStep, view_own};

use crate::statements::{block_items, typed_items};
use c_elab_base::{Derivation, Derived, Parameter, Region, derive, earlier, full_line, name_of};
use c_elab_flow::{
    Around, Definition, Labels, add_labels, begin, block_of, end, give_bodies, is_variadic,
    own_suffix, parameters_in, procedures, static_objects,
};
use c_elab_object::{declare_outside, declared_callable, definition_on, function_on};
use c_elab_type::{named_parts, typed_full, typed_parameters};
use c_scope::{FunctionType, Meaning, QualifiedType, Scope, TypingError};
use c_tree::{
    DeclaratorSuffix, Definition as DefinitionTree, External, File, FullDeclarator, Stmt,
};
use core_tree::{Core, CoreStatement, Literal};
use std::alloc::{AllocError, Global};

// More names, functions or objects than this have no memory.
const MOST: usize = 0x7fff_ffff;

// Outside of functions.
fn in_file() -> Region
    ensures { result ≡ in_file }
{
    Region {
        outer: 0,
        is_file: true,
    }
}

// The suffixes of a definition's declarator, and whether it has a function's suffix alone. The names of its parameters stay in
// scope.
fn own_suffixes(
    alloc: Global,
    declarator: &FullDeclarator,
    scope: &mut Scope,
) -> Result<(Vec<Derived>, bool), TypingError>
    ensures gives { Gives (λ x. view_own x.0.items x.1 scope.new) result (own_suffixes scope.old (view_full declarator.now) (own_parameters (view_full declarator.now))) }
    ensures names { OnOk result (length scope.old.bindings ≤ length scope.new.bindings) }
{
    match own_suffix(declarator) {
        Some(suffix) => {
            let parameters = suffix_parameters(alloc, suffix, scope)?;
            Ok((one_suffix(alloc, parameters, is_variadic(suffix))?, true))
        }
        None => Ok((typed_full(alloc, declarator, scope)?, false)),
    }
}

// The parameters of a function's suffix.
fn suffix_parameters(
    alloc: Global,
    suffix: &DeclaratorSuffix,
    scope: &mut Scope,
) -> Result<Vec<Parameter>, TypingError>
    ensures gives { (own : Parameters × Bool) → one_function (view_full_suffix suffix.now full_end) ≡ Some own → Gives (λ v. record { parameters = view_parameters v.items; scope = scope.new }) result
        (typed_parameters (inner_region scope.old) (are_several own.0) (record { parameters = []; scope = scope.old }) own.0) }
    ensures names { OnOk result (length scope.old.bindings ≤ length scope.new.bindings) }
{
    match suffix {
        DeclaratorSuffix::Bounded { .. } => Ok(Vec::new(alloc)),
        DeclaratorSuffix::Open { .. } => Ok(Vec::new(alloc)),
        DeclaratorSuffix::Empty { .. } => Ok(Vec::new(alloc)),
        DeclaratorSuffix::Void { .. } => Ok(Vec::new(alloc)),
        DeclaratorSuffix::Parameters { parameters, .. } => typed_parameters(
            alloc, parameters, scope,
        ),
    }
}

fn one_suffix(
    alloc: Global,
    parameters: Vec<Parameter>,
    ellipsis: bool,
) -> Result<Vec<Derived>, AllocError>
    ensures { IfOk result (λ ds. view_deriveds ds.items ≡ called (view_parameters parameters.items) ellipsis ∷ []) }
{
    let mut suffixes = Vec::new(alloc);
    suffixes.push(Derived::Called {
        parameters,
        ellipsis,
    })?;
    Ok(suffixes)
}

// The function type of a definition, by what its name was declared as outside of its parameters.
fn definition_type(
    alloc: Global,
    base: &QualifiedType,
    declarator: &FullDeclarator,
    suffixes: &[Derived],
    own: bool,
    before: Option<Meaning>,
    scope: &Scope,
) -> Result<FunctionType, TypingError>
    ensures { (outer : Scoped) → before ≡ earlier in_file outer (name_of (view_full declarator.now)) → Gives view_function_type result
        (on_line (full_line (view_full declarator.now)) (definition_type outer (view_named base.now) (view_full declarator.now) (view_deriveds suffixes.now) (record { parameters = parameters_in own (view_deriveds suffixes.now); scope = scope.now }))) }
{
    let line = full_line(declarator);
    let made = match derive(alloc, base, suffixes, scope)? {
        Derivation::Lengths { .. } => Err(6),
        Derivation::Callable { made } => made,
    };
    let type_ = function_on(line, true, name_of(declarator), before, made, scope)?;
    definition_on(line, parameters_in(own, suffixes), type_, scope.layouts())
}

// The labels of a body.
fn labels_of_body(alloc: Global, body: &Stmt) -> Result<Labels, AllocError>
    ensures { IfOk result (λ l. l ≡ labels_in (view_statement body.now)) }
{
    let mut labels = Labels::new(alloc);
    add_labels(alloc, body, &mut labels)?;
    Ok(labels)
}

// The body of a function with these labels, whose items stand in the scope of its parameters, behind `outer` names.
fn typed_body(
    alloc: Global,
    body: &Stmt,
    labels: &Labels,
    outer: usize,
    scope: &mut Scope,
) -> Result<Box<CoreStatement>, TypingError>
    requires within { outer ≤ length scope.old.bindings }
    requires labels { labels.now ≡ labels_in (view_statement body.now) }
    ensures gives { Gives (λ c. (typed_view c.value, scope.new)) result (typed_body_of outer scope.old (view_statement body.now)) }
    ensures within { OnOk result (outer ≤ length scope.new.bindings) }
{
    let around = Around {
        labels,
        breaks: false,
        continues: false,
    };
    match block_items(body) {
        Some(items) => {
            let items = typed_items(alloc, items, false, around, scope, outer)?;
            block_of(alloc, items)
        }
        None => block_of(alloc, Vec::new(alloc)),
    }
}

// A definition, in a scope outside of functions.
fn define(
    alloc: Global,
    definition: &DefinitionTree,
    scope: &mut Scope,
    definitions: &mut Vec<Definition>,
) -> Result<(), TypingError>
    requires { scope.old.variables ≡ [] }
    ensures step { (rest : Externals) →
        DefinitionStep result definitions.old.items definitions.new.items
        (typed_externals scope.old (Rattle.c_tree.specs.Statements.defines (parts_of definition.now.specifiers.items) (view_full definition.now.declarator) (view_statement definition.now.body.value) rest))
        (typed_externals scope.new rest) }
    ensures outside { OnOk result (scope.new.variables ≡ []) }
{
    let declarator = &definition.declarator;
    let name = name_of(declarator);
    let base = named_parts(alloc, &definition.specifiers, in_file(), scope)?;
    scope.prove_there();
    let before = earlier(name, in_file(), scope);
    let outer = scope.len();
    if outer >= MOST {
        return Err(TypingError::Memory);
    }
    let (suffixes, own) = own_suffixes(alloc, declarator, scope)?;
    let type_ = definition_type(alloc, &base, declarator, &suffixes, own, before, scope)?;
    let number = declared_callable(alloc, declarator, &type_, true, scope)?;
    scope.declare_below(alloc, outer, name, Meaning::Function { function: number })?;
    begin(type_.gives, scope);
    let block = &*definition.body;
    let labels = labels_of_body(alloc, block)?;
    let body = typed_body(alloc, block, &labels, outer + 1, scope)?;
    scope.leave(outer + 1);
    end(scope);
    definitions.push(Definition {
        number,
        variables: scope.take_variables(alloc),
        labels: labels.len(),
        body,
    })?;
    Ok(())
}

// What stands in a file, in a scope outside of functions.
fn elaborate_one(
    alloc: Global,
    external: &External,
    scope: &mut Scope,
    definitions: &mut Vec<Definition>,
) -> Result<(), TypingError>
    requires { scope.old.variables ≡ [] }
    ensures step { (rest : Externals) →
        DefinitionStep result definitions.old.items definitions.new.items
        (typed_externals scope.old (view_external external.now rest))
        (typed_externals scope.new rest) }
    ensures outside { OnOk result (scope.new.variables ≡ []) }
{
    match external {
        External::Declares(declaration) => declare_outside(alloc, declaration, scope),
        External::Defines(definition) => define(alloc, definition, scope, definitions),
    }
}

// The definitions of a file, and the scope behind it.
fn typed_externals(
    alloc: Global,
    externals: &[External],
    scope: &mut Scope,
) -> Result<Vec<Definition>, TypingError>
    requires { scope.old.variables ≡ [] }
    ensures { Gives (λ ds. (view_definitions ds.items, scope.new)) result (typed_externals scope.old (externals_of externals.now)) }
{
    let mut definitions = Vec::new(alloc);
    for external in externals {
        elaborate_one(alloc, external, scope, &mut definitions)?;
    }
    Ok(definitions)
}

// Notes the names of the functions that the file defines.
fn note_definitions(
    alloc: Global,
    externals: &[External],
    scope: &mut Scope,
) -> Result<(), AllocError>
    ensures { OnOk result (scope.new ≡ with_definitions scope.old (externals_of externals.now)) }
{
    for external in externals {
        match external {
            External::Declares(_) => {}
            External::Defines(definition) => {
                scope.define_function(alloc, name_of(&definition.declarator))?;
            }
        }
    }
    Ok(())
}

// No string literal is an object.
fn no_literals(alloc: Global) -> Vec<Literal>
    ensures { result.items ≡ [] }
{
    Vec::new(alloc)
}

// The typed tree of a file, in the scope that each file begins in.
fn typed_file(alloc: Global, file: &File, scope: &mut Scope) -> Result<Core, TypingError>
    requires { scope.old ≡ first_scope }
    ensures { Gives (λ c. view_core c) result (elaborated (view_file file.now)) }
{
    note_definitions(alloc, &file.externals, scope)?;
    let definitions = typed_externals(alloc, &file.externals, scope)?;
    let mut functions = procedures(alloc, scope)?;
    give_bodies(definitions, &mut functions);
    scope.leave(0);
    let objects = static_objects(alloc, scope)?;
    if functions.len() > MOST || objects.len() > MOST {
        return Err(TypingError::Memory);
    }
    Ok(Core::new(functions, objects, no_literals(alloc), false))
}

/// The typed tree of a file (C11 6.9): its functions in the order of their first declarators, and its objects that live as long
/// as the program, in the order of theirs. Names mean what their innermost declarations say, each
/// variable is one of its function, and each conversion is a node. Otherwise the first rule that is broken, where parts come
/// before what they are parts of, from left to right.
pub fn elaborate(alloc: Global, file: &File) -> Result<Core, TypingError>
    ensures { Gives (λ c. view_core c) result (elaborated (view_file file.now)) }
{
    let mut scope = Scope::new(alloc)?;
    typed_file(alloc, file, &mut scope)
}
