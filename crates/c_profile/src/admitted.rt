//! A file that keeps the profile.

ghost use Rattle.std.specs.Prelude.{◌≡◌, true, Some, None, codes, option_map, IfOk, MatchResult};
ghost use Rattle.std.specs.Str.{bytes_eq};
ghost use Rattle.core_tree.specs.Trees.{view_core, view_function, view_functions, view_statics, boxed_statement};
ghost use Rattle.c_profile.specs.Rules as rules;
ghost use Rattle.c_profile.specs.Rules.{breach, has_main, first_breach};
ghost use Rattle.c_profile.specs.Refusals.{IsRefused};

use crate::breach::{Breach, earlier};
use crate::breaches::statement_breach;
use c_types::IntegerType;
use core_tree::{Core, CoreStatement, Function, Name, PassedType, StaticObject};
use std::alloc::{AllocError, Global};
use std::marker::Model;

/// A typed file that breaks no rule of the profile. Made by `admit` alone.
#[derive(Drop)]
pub struct Admitted {
    core: Core,
}

impl Model for Admitted {
    ghost use Rattle.std.specs.Prelude.{◌≡◌, None};
    ghost use Rattle.core_tree.specs.Trees.{CoreFile, view_core};
    ghost use Rattle.c_profile.specs.Rules.{first_breach};
    ghost use Rattle.std.specs.Coded.{codes};
    ghost use Rattle.core_tree.specs.contracts.expression.CoreExpr as expressions;
    ghost use Rattle.core_tree.specs.contracts.statement.CoreItem as items;
    ghost use Rattle.core_tree.specs.contracts.statement.CoreStatement as statements;

    ghost Value = { CoreFile };

    ghost coded = { Prim.hlevel (codes, expressions.the_row.coded, items.the_row.coded, statements.the_row.coded) };

    ghost view = { λ a. a.core };

    ghost invariant = { λ a. first_breach (view_core a.core) ≡ None };
}

impl Admitted {
    /// The typed file.
    pub fn core(&self) -> &Core
        ensures is { result.now ≡ self.now }
        ensures admitted { first_breach (view_core self.now) ≡ None }
        ensures main { has_main (view_core self.now).functions ≡ true }
    {
        &self.core
    }
}

/// Why a file isn't admitted. It is handed back.
#[derive(Drop)]
pub enum Refusal {
    /// It breaks a rule: the lowest line on which one is broken, and the lowest rule that is broken there.
    Outside { core: Core, line: u32, rule: u32 },
    /// There was no memory for the labels in scope.
    Memory { core: Core },
}

fn is_main(name: &Name) -> bool
    ensures { result ≡ bytes_eq name.now.bytes.items (codes "main") }
{
    name.bytes.as_slice() == b"main".as_slice()
}

fn is_int_without_parameters(function: &Function) -> bool
    ensures { result ≡ rules.is_int_without_parameters (view_function function.now) }
{
    match function.gives {
        Some(PassedType::Integer(IntegerType::Int)) => {
            function.parameters.is_empty() && function.ellipsis.is_none()
        }
        _ => false,
    }
}

// Of the function named main.
fn definition_breach(function: &Function) -> Option<Breach>
    ensures { result ≡ rules.definition_breach (view_function function.now) }
{
    if function.body.is_none() {
        return Some(Breach::new(1, 1));
    }
    if is_int_without_parameters(function) {
        None
    } else {
        Some(Breach::new(function.line, 1))
    }
}

fn main_breach(functions: &[Function]) -> Option<Breach>
    ensures { result ≡ rules.main_breach (view_functions functions.now) }
{
    for function in functions {
        if is_main(&function.name) {
            return definition_breach(function);
        }
    }
    Some(Breach::new(1, 1))
}

fn line_breach(line: Option<u32>, rule: u32) -> Option<Breach>
    ensures { result ≡ option_map (λ l. breach l rule) line }
{
    match line {
        Some(line) => Some(Breach::new(line, rule)),
        None => None,
    }
}

// Objects without a definition.
fn objects_breach(objects: &[StaticObject]) -> Option<Breach>
    ensures { result ≡ rules.objects_breach (view_statics objects.now) }
{
    let mut first = None;
    for place in (0..objects.len()).rev() {
        first = earlier(line_breach(objects[place].undefined, 9), first);
    }
    first
}

fn body_breach(
    alloc: Global,
    functions: &[Function],
    body: &Option<Box<CoreStatement>>,
) -> Result<Option<Breach>, AllocError>
    ensures { IfOk result (λ b. b ≡ rules.body_breach (view_functions functions.now) (option_map boxed_statement body.now)) }
{
    match body {
        Some(statement) => statement_breach(functions, &mut Vec::new(alloc), statement),
        None => Ok(None),
    }
}

fn function_breach(
    alloc: Global,
    functions: &[Function],
    function: &Function,
) -> Result<Option<Breach>, AllocError>
    ensures { IfOk result (λ b. b ≡ rules.function_breach (view_functions functions.now) (view_function function.now)) }
{
    let inner = body_breach(alloc, functions, &function.body)?;
    Ok(earlier(line_breach(function.ellipsis, 10), inner))
}

fn functions_breach(alloc: Global, functions: &[Function]) -> Result<Option<Breach>, AllocError>
    ensures { IfOk result (λ b. b ≡ rules.functions_breach (view_functions functions.now) (view_functions functions.now)) }
{
    let mut first = None;
    for place in (0..functions.len()).rev() {
        first = earlier(function_breach(alloc, functions, &functions[place])?, first);
    }
    Ok(first)
}

fn first_breach(alloc: Global, core: &Core) -> Result<Option<Breach>, AllocError>
    ensures { IfOk result (λ b. b ≡ first_breach (view_core core.now)) }
{
    let inner = functions_breach(alloc, core.functions())?;
    let behind = earlier(inner, objects_breach(core.objects()));
    Ok(earlier(main_breach(core.functions()), behind))
}

/// The file, if it breaks no rule of the profile.
pub fn admit(alloc: Global, core: Core) -> Result<Admitted, Refusal>
    ensures { MatchResult result
        (λ a. (a ≡ core) × (first_breach (view_core core) ≡ None))
        (λ refusal. IsRefused core refusal) }
{
    match first_breach(alloc, &core) {
        Err(_) => Err(Refusal::Memory { core }),
        Ok(None) => Ok(Admitted { core }),
        Ok(Some(breach)) => Err(Refusal::Outside {
            core,
            line: breach.line(),
            rule: breach.rule(),
        }),
    }
}
