//! Calls of what names mean.

ghost use Rattle.std.specs.Prelude.{map, slice_get};
ghost use Rattle.c_scope.specs.Faults.{GivesNode};
ghost use Rattle.c_operators.specs.Pointers.{view_typed};
ghost use Rattle.c_calls.specs.Calls.{callable_call, named_call};

use crate::built_in_calls::{assertion_call, assumption_call, built_in_call, draw_call};
use crate::function_calls::function_call;
use c_operators::TypedOperand;
use c_scope::{Broken, Meaning, Scope};
use std::alloc::Global;

// A call of the function with a number.
fn callable_call(
    alloc: Global,
    line: u32,
    function: u32,
    wanted: bool,
    operands: Vec<TypedOperand>,
    scope: &Scope,
) -> Result<TypedOperand, Broken>
    ensures { GivesNode view_typed result (callable_call scope.now.records.done line function wanted (slice_get scope.now.functions.all function) (map view_typed operands.items)) }
{
    match scope.functions().function(function) {
        None => Err(Broken::Rule { rule: 10 }),
        Some(callable) => match callable.draws {
            Some(type_) => draw_call(alloc, line, type_, &operands),
            None => function_call(
                alloc,
                line,
                function,
                wanted,
                &callable.type_,
                operands,
                scope.layouts(),
            ),
        },
    }
}

/// A call of what a name on this line means, whose value is wanted or not.
pub fn named_call(
    alloc: Global,
    line: u32,
    wanted: bool,
    meaning: Meaning,
    operands: Vec<TypedOperand>,
    scope: &Scope,
) -> Result<TypedOperand, Broken>
    ensures { GivesNode view_typed result (named_call scope.now line wanted meaning (map view_typed operands.items)) }
{
    match meaning {
        Meaning::Assert => assertion_call(alloc, line, operands),
        Meaning::Assume => assumption_call(alloc, line, operands),
        Meaning::Draw { type_ } => draw_call(alloc, line, type_, &operands),
        Meaning::BuiltIn { function } => built_in_call(alloc, line, function, operands),
        Meaning::Function { function } => {
            callable_call(alloc, line, function, wanted, operands, scope)
        }
        Meaning::Variable { .. }
        | Meaning::Object { .. }
        | Meaning::Incomplete
        | Meaning::Typedef { .. }
        | Meaning::Enumerator { .. }
        | Meaning::Record { .. }
        | Meaning::Enumeration => Err(Broken::Rule { rule: 10 }),
    }
}
