//! Names and types of typedefs.
ghost use Rattle.std.specs.Prelude.{◌≡◌, ◌<◌, ◌≤◌, ◌+◌, length, option_map, IsTrue, Result, ℕ};
ghost use Rattle.c_tree.specs.Declarations.{view_full, name_of};
ghost use Rattle.c_types.specs.Types.{CType, view, views};
ghost use Rattle.c_scope.specs.Scopes.{view_named, view_function_type};
ghost use Rattle.c_elab_base.specs.Derivations.{view_made};
ghost use Rattle.c_scope.specs.Faults.{Gives, on_line};
ghost use Rattle.c_elab_base.specs.Declarators.{is_named, is_typedef_of, typedef_node, is_typedef_of_function, function_typedef_node, function_parameters, type_parameters};

use crate::derivations::function_named;
use c_scope::{
    FunctionType, Functions, Meaning, QualifiedType, Scope, TypingError, same_ctype, same_flag,
    same_function,
};
use c_tree::FullDeclarator;
use c_types::Ty;

// More types than this have no memory.
const TYPES: usize = 0x7fff_ffff;

// Functions and function types that typedefs name have no memory for more parameters than this in all, which is asked where
// one's own, times the number of those before it, are more than this too. Only typedef names bring a file within the limits so far.
const PARAMETERS: usize = 0x40_0000;

/// The name that a declarator declares, empty where it has none.
pub fn name_of(declarator: &FullDeclarator) -> &[u8]
    ensures { result.now ≡ name_of (view_full declarator.now) }
{
    match declarator {
        FullDeclarator::Unnamed { .. } => &[],
        FullDeclarator::Named { name, .. } => &name.bytes,
        FullDeclarator::Inside { inner, .. } => name_of(inner),
    }
}

fn is_named(named: &QualifiedType, other: Option<&QualifiedType>) -> bool
    ensures { result ≡ is_named (view_named named.now) (option_map (λ t. view_named t.now) other.entry) }
{
    match other {
        None => false,
        Some(other) => {
            same_flag(named.constant, other.constant) && same_ctype(&named.type_, &other.type_)
        }
    }
}

// Whether it is a typedef of this type.
fn is_typedef_of(named: &QualifiedType, meaning: Meaning, scope: &Scope) -> bool
    ensures { result ≡ is_typedef_of scope.now.types (view_named named.now) meaning }
{
    match meaning {
        Meaning::Typedef { number } => is_named(named, scope.named(number)),
        _ => false,
    }
}

/// The type that a typedef names, by what its name is declared as already.
pub fn typedef_node(
    made: Result<Ty, TypingError>,
    constant: bool,
    earlier: Option<Meaning>,
    line: u32,
    scope: &Scope,
) -> Result<QualifiedType, TypingError>
    ensures { (r : Result CType ℕ) → Gives view made (on_line line r) → Gives view_named result (on_line line (typedef_node scope.now.types constant earlier r)) }
{
    match earlier {
        None => Ok(QualifiedType {
            type_: made?,
            constant,
        }),
        Some(meaning) => match made {
            Ok(type_) => {
                let named = QualifiedType { type_, constant };
                if is_typedef_of(&named, meaning, scope) {
                    Ok(named)
                } else {
                    Err(TypingError::Typing { line, rule: 2 })
                }
            }
            Err(TypingError::Typing { .. }) => { Err(TypingError::Typing { line, rule: 2 }) }
            Err(TypingError::Memory) => Err(TypingError::Memory),
        },
    }
}

// How many parameters the functions have. Those past what is counted are left out.
fn function_parameters(functions: &Functions) -> usize
    ensures { result ≤ function_parameters functions.now.all }
{
    let mut count: usize = 0;
    for number in 0..functions.len().min(TYPES) as u32 {
        if let Some(callable) = functions.function(number) {
            count = count.saturating_add(callable.type_.parameters.len());
        }
    }
    count
}

// How many parameters the function types that typedefs name have. Those past what is counted are left out.
fn type_parameters(functions: &Functions) -> usize
    ensures { result ≤ type_parameters functions.now.types }
{
    let mut count: usize = 0;
    for number in 0..functions.type_count().min(TYPES) as u32 {
        if let Some(type_) = functions.type_at(number) {
            count = count.saturating_add(type_.parameters.len());
        }
    }
    count
}

/// Whether there is no memory for the parameters of one more function of this type: with them all functions and
/// all function types that typedefs name have more than 4,194,304.
pub fn is_too_long(functions: &Functions, type_: &FunctionType) -> bool
    ensures { IsTrue result → 4194304 < function_parameters functions.now.all + type_parameters functions.now.types + length (view_function_type type_.now).parameters }
{
    let own = type_.parameters.len();
    let others = functions.len().saturating_add(functions.type_count());
    if others.saturating_mul(own) <= PARAMETERS {
        return false;
    }
    let before = function_parameters(functions).saturating_add(type_parameters(functions));
    before.saturating_add(own) > PARAMETERS
}

// Whether it is a typedef of this function type.
fn is_typedef_of_function(type_: &FunctionType, meaning: Meaning, scope: &Scope) -> bool
    ensures { result ≡ is_typedef_of_function scope.now (view_function_type type_.now) meaning }
{
    match meaning {
        Meaning::Typedef { number } => match scope.named(number) {
            Some(named) => match function_named(&named.type_, scope) {
                Some(other) => same_function(type_, other),
                None => false,
            },
            None => false,
        },
        _ => false,
    }
}

/// The function type that a typedef names, by what its name is declared as already.
pub fn function_typedef_node(
    made: Result<FunctionType, u32>,
    earlier: Option<Meaning>,
    line: u32,
    scope: &Scope,
) -> Result<FunctionType, TypingError>
    ensures { Gives view_function_type result (on_line line (function_typedef_node scope.now earlier (view_made made))) }
{
    match earlier {
        None => match made {
            Ok(type_) => Ok(type_),
            Err(rule) => Err(TypingError::Typing { line, rule }),
        },
        Some(meaning) => match made {
            Ok(type_) => {
                if is_typedef_of_function(&type_, meaning, scope) {
                    Ok(type_)
                } else {
                    Err(TypingError::Typing { line, rule: 2 })
                }
            }
            Err(_) => Err(TypingError::Typing { line, rule: 2 }),
        },
    }
}
