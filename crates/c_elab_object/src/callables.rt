//! Declarators of functions.

ghost use Rattle.std.specs.Prelude.{◌≡◌, ◌≤◌, ◌&&◌, not, true, length, map, option_map, slice_get, IfOk, OnOk, Result};
ghost use Rattle.c_tree.specs.Declarations.{view_full, view_initializer, name_of};
ghost use Rattle.c_types.specs.Types.{view, views};
ghost use Rattle.c_scope.specs.Scopes.{FunctionType, view_function_type, view_callable, is_known, linked_to};
ghost use Rattle.c_scope.specs.Faults.{Gives, on_line};
ghost use Rattle.c_elab_base.specs.Derivations.{full_line, view_made, view_parameters, is_named_so, have_names};
ghost use Rattle.c_elab_base.specs.Regions.{is_built_in_function, built_in_function};
ghost use Rattle.c_elab_object.specs.Functions.{is_one_scalar, is_nothing, is_integer_type, is_statement_type, is_no_parameter, is_draw_type, is_built_in_type, drawn_type, draws_of, is_own_function, is_function_again, function_again, is_own_built_in, built_in_again, function_made, function_node, first_callable, callable_again, changed_callable, declared_callable, declared_function, declared_or_built_in, typed_function, definition_node};

use c_elab_base::{
    Parameter, Region, built_in_function, copied_function, earlier, full_line,
    is_built_in_function, is_too_long, name_line, name_of,
};
use c_elab_type::no_initializer;
use c_scope::{
    Broken, Callable, FunctionType, Functions, Meaning, Scope, TypingError, same_function,
    type_size,
};
use c_tree::{FullDeclarator, InitDeclarator};
use c_types::{IntegerType, Layouts, Ty};
use std::alloc::{AllocError, Global};

// More functions than this have no memory.
const FUNCTIONS: usize = 0x7fff_ffff;

fn is_one_scalar(types: &[Ty]) -> bool
    ensures { result ≡ is_one_scalar (views types.now) }
{
    match types {
        [only] => matches!(only, Ty::Integer(_) | Ty::Pointer { .. }),
        _ => false,
    }
}

fn is_nothing(type_: &Ty) -> bool
    ensures { result ≡ is_nothing (view type_.now) }
{
    match type_ {
        Ty::Void => true,
        _ => false,
    }
}

fn is_integer_type(integer: IntegerType, type_: &Ty) -> bool
    ensures { result ≡ is_integer_type integer (view type_.now) }
{
    match type_ {
        Ty::Integer(other) => integer == *other,
        _ => false,
    }
}

// Void, of any one scalar.
fn is_statement_type(type_: &FunctionType) -> bool
    ensures { result ≡ is_statement_type (view_function_type type_.now) }
{
    is_nothing(&type_.gives)
        && !type_.constant
        && !type_.ellipsis
        && is_one_scalar(&type_.parameters)
}

// A number of this type, of nothing.
fn is_draw_type(integer: IntegerType, type_: &FunctionType) -> bool
    ensures { result ≡ is_draw_type integer (view_function_type type_.now) }
{
    is_integer_type(integer, &type_.gives)
        && !type_.constant
        && !type_.ellipsis
        && type_.parameters.is_empty()
}

fn is_built_in_type(meaning: Meaning, type_: &FunctionType) -> bool
    ensures { result ≡ is_built_in_type meaning (view_function_type type_.now) }
{
    match meaning {
        Meaning::Assert | Meaning::Assume => is_statement_type(type_),
        Meaning::Draw { type_: integer } => is_draw_type(integer, type_),
        Meaning::Variable { .. }
        | Meaning::Object { .. }
        | Meaning::Incomplete
        | Meaning::BuiltIn { .. }
        | Meaning::Function { .. }
        | Meaning::Typedef { .. }
        | Meaning::Enumerator { .. }
        | Meaning::Record { .. }
        | Meaning::Enumeration => false,
    }
}

fn drawn_type(type_: &Ty) -> Option<IntegerType>
    ensures { result ≡ drawn_type (view type_.now) }
{
    match type_ {
        Ty::Integer(integer) => Some(*integer),
        _ => None,
    }
}

// The type of what a function draws from the inputs.
fn draws_of(functions: &Functions, name: &[u8], type_: &FunctionType) -> Option<IntegerType>
    ensures { result ≡ draws_of functions.now name.now (view_function_type type_.now) }
{
    if name.starts_with(b"nondet_")
        && type_.parameters.is_empty()
        && !type_.ellipsis
        && !functions.is_defined(name)
    {
        drawn_type(&type_.gives)
    } else {
        None
    }
}

// The name in this scope is the function's already, or nobody's.
fn is_own_function(number: Option<u32>, before: Option<Meaning>) -> bool
    ensures { result ≡ is_own_function number before }
{
    match (number, before) {
        (_, None) => true,
        (Some(number), Some(Meaning::Function { function })) => number == function,
        _ => false,
    }
}

// It can be declared once more so.
fn function_again(
    defines: bool,
    number: Option<u32>,
    type_: FunctionType,
    scope: &Scope,
) -> Result<FunctionType, u32>
    ensures { view_made result ≡ function_again scope.now defines number (view_function_type type_) }
{
    match number {
        None => Ok(type_),
        Some(number) => match scope.functions().function(number) {
            None => Err(2),
            Some(callable) => {
                if same_function(&type_, &callable.type_) && !(defines && callable.defined) {
                    Ok(type_)
                } else {
                    Err(2)
                }
            }
        },
    }
}

// A built-in function is declared so.
fn built_in_again(
    defines: bool,
    meaning: Meaning,
    before: Option<Meaning>,
    type_: FunctionType,
) -> Result<FunctionType, u32>
    ensures { view_made result ≡ built_in_again defines meaning before (view_function_type type_) }
{
    let own = match before {
        None => true,
        Some(before) => is_built_in_function(before),
    };
    if own && is_built_in_type(meaning, &type_) && !defines {
        Ok(type_)
    } else {
        Err(2)
    }
}

// The type of a function, by what its name is declared as already, or the lowest rule.
fn function_node(
    defines: bool,
    name: &[u8],
    before: Option<Meaning>,
    made: Result<FunctionType, u32>,
    scope: &Scope,
) -> Result<FunctionType, u32>
    ensures { view_made result ≡ function_node scope.now defines name.now before (view_made made) }
{
    let object = scope.linked(name).is_some();
    let number = scope.functions().named(name);
    let own = built_in_function(name);
    match made {
        Ok(type_) => {
            if object {
                return Err(2);
            }
            match own {
                Some(meaning) => built_in_again(defines, meaning, before, type_),
                None => {
                    if is_own_function(number, before) {
                        function_again(defines, number, type_, scope)
                    } else {
                        Err(2)
                    }
                }
            }
        }
        Err(rule) => {
            if before.is_some() || object || number.is_some() || own.is_some() {
                Err(2)
            } else {
                Err(rule)
            }
        }
    }
}

/// The type of a function, by what its name is declared as already, or the lowest rule on the line.
pub fn function_on(
    line: u32,
    defines: bool,
    name: &[u8],
    before: Option<Meaning>,
    made: Result<FunctionType, u32>,
    scope: &Scope,
) -> Result<FunctionType, TypingError>
    ensures { Gives view_function_type result (on_line line (function_node scope.now defines name.now before (view_made made))) }
{
    match function_node(defines, name, before, made, scope) {
        Ok(type_) => Ok(type_),
        Err(rule) => Err(TypingError::Typing { line, rule }),
    }
}

// What is known of a function behind its first declarator.
fn first_callable(
    alloc: Global,
    declarator: &FullDeclarator,
    type_: &FunctionType,
    defines: bool,
    functions: &Functions,
) -> Result<Callable, AllocError>
    ensures { IfOk result (λ f. view_callable f ≡ first_callable functions.now (view_full declarator.now) (view_function_type type_.now) defines) }
{
    let name = name_of(declarator);
    let ellipsis = if type_.ellipsis {
        Some(full_line(declarator))
    } else {
        None
    };
    Ok(Callable {
        name: name.to_vec(alloc)?,
        line: name_line(declarator),
        type_: copied_function(alloc, type_)?,
        ellipsis,
        draws: draws_of(functions, name, type_),
        defined: defines,
    })
}

// And behind its definition.
fn callable_again(
    alloc: Global,
    declarator: &FullDeclarator,
    callable: &Callable,
) -> Result<Callable, AllocError>
    ensures { IfOk result (λ f. view_callable f ≡ callable_again (view_full declarator.now) true (view_callable callable.now)) }
{
    Ok(Callable {
        name: callable.name.to_vec(alloc)?,
        line: name_line(declarator),
        type_: copied_function(alloc, &callable.type_)?,
        ellipsis: callable.ellipsis,
        draws: callable.draws,
        defined: true,
    })
}

// Defines a function that is declared already.
fn define_again(
    alloc: Global,
    declarator: &FullDeclarator,
    number: u32,
    scope: &mut Scope,
) -> Result<(), AllocError>
    ensures { OnOk result (scope.new ≡ record scope.old {
      functions = record scope.old.functions { all = changed_callable scope.old.functions.all number (callable_again (view_full declarator.now) true) (slice_get scope.old.functions.all number) };
    }) }
{
    let changed = match scope.functions().function(number) {
        Some(callable) => callable_again(alloc, declarator, callable)?,
        None => return Ok(()),
    };
    scope.set_function(number, changed);
    Ok(())
}

/// The number of a function behind one more declarator or its first.
#[tactic(auto, using(crate::proofs::Functions::declared_again))]
pub fn declared_callable(
    alloc: Global,
    declarator: &FullDeclarator,
    type_: &FunctionType,
    defines: bool,
    scope: &mut Scope,
) -> Result<u32, AllocError>
    ensures number { IfOk result (λ k. k ≡ (declared_callable scope.old.functions (view_full declarator.now) (view_function_type type_.now) defines (linked_to scope.old.functions.named (name_of (view_full declarator.now)))).0) }
    ensures declared { OnOk result (scope.new ≡ record scope.old {
      functions = (declared_callable scope.old.functions (view_full declarator.now) (view_function_type type_.now) defines (linked_to scope.old.functions.named (name_of (view_full declarator.now)))).1;
    }) }
{
    let name = name_of(declarator);
    match scope.functions().named(name) {
        None => {
            if scope.functions().len() >= FUNCTIONS {
                return Err(AllocError);
            }
            if is_too_long(scope.functions(), type_) {
                return Err(AllocError);
            }
            let callable = first_callable(alloc, declarator, type_, defines, scope.functions())?;
            scope.add_function(alloc, name, callable)
        }
        Some(number) => {
            if defines {
                define_again(alloc, declarator, number, scope)?;
            }
            Ok(number)
        }
    }
}

// Declares a function, or a built-in one once more.
fn declare(
    alloc: Global,
    declarator: &FullDeclarator,
    type_: &FunctionType,
    scope: &mut Scope,
) -> Result<(), AllocError>
    ensures { OnOk result (scope.new ≡ declared_or_built_in scope.old (view_full declarator.now) (view_function_type type_.now) (built_in_function (name_of (view_full declarator.now)))) }
{
    let name = name_of(declarator);
    match built_in_function(name) {
        Some(meaning) => scope.declare(alloc, name, meaning),
        None => {
            let function = declared_callable(alloc, declarator, type_, false, scope)?;
            scope.declare(alloc, name, Meaning::Function { function })
        }
    }
}

/// A declarator of a function type, or of one that breaks a rule.
pub fn typed_function(
    alloc: Global,
    declared: &InitDeclarator,
    made: Result<FunctionType, u32>,
    region: Region,
    scope: &mut Scope,
) -> Result<(), TypingError>
    requires { region.outer ≤ length scope.old.bindings }
    ensures gives { Gives (λ u. scope.new) result (typed_function region scope.old (view_full declared.now.declarator) (option_map view_initializer declared.now.initializer) (view_made made)) }
    ensures within { OnOk result (region.outer ≤ length scope.new.bindings) }
{
    let declarator = &declared.declarator;
    let line = full_line(declarator);
    let name = name_of(declarator);
    let before = earlier(name, region, scope);
    let type_ = function_on(line, false, name, before, made, scope)?;
    declare(alloc, declarator, &type_, scope)?;
    no_initializer(alloc, line, &declared.initializer, scope)
}

// Each parameter has a name.
fn have_names(parameters: &[Parameter]) -> bool
    ensures { result ≡ have_names (view_parameters parameters.now) }
{
    for parameter in parameters {
        if parameter.name.is_empty() {
            return false;
        }
    }
    true
}

/// A definition gives void or a complete type, and each of its parameters has a name.
pub fn definition_on(
    line: u32,
    parameters: &[Parameter],
    type_: FunctionType,
    layouts: &Layouts,
) -> Result<FunctionType, TypingError>
    ensures { Gives view_function_type result (on_line line (definition_node layouts.now.done (view_parameters parameters.now) (view_function_type type_))) }
{
    match &type_.gives {
        Ty::Void => {}
        _ => match type_size(&type_.gives, layouts) {
            Ok(_) => {}
            Err(Broken::Rule { rule }) => return Err(TypingError::Typing { line, rule }),
            Err(Broken::Memory) => return Err(TypingError::Memory),
        },
    }
    if have_names(parameters) && parameters.len() == type_.parameters.len() {
        Ok(type_)
    } else {
        Err(TypingError::Typing { line, rule: 6 })
    }
}
