//! The functions of a file, by number.

ghost use Rattle.std.specs.Prelude.{◌≡◌, Some, None, option_map, slice_get, MatchOption};
ghost use Rattle.core_tree.specs.Trees.{view_statement, view_functions};
ghost use Rattle.c_meaning.specs.Meaning.{body_of, variables_of};

use core_tree::{CoreStatement, Function, Variable};

/// The function with this number, where there is one.
pub fn body_of(functions: &[Function], function: u32) -> Option<&Function>
    ensures { option_map (λ f. f.now) result ≡ slice_get functions.now function }
{
    match functions.get(function as usize) {
        Some(body) => Some(body),
        None => None,
    }
}

/// A function's variables, and its body.
#[derive(Clone, Copy)]
pub struct Body<'a> {
    pub variables: &'a [Variable],
    pub statement: &'a CoreStatement,
}

/// The body of the function with this number, where it has one.
pub fn defined<'a>(functions: &'a [Function], function: u32) -> Option<Body<'a>>
    ensures { MatchOption result (body_of (slice_get (view_functions functions.now) function) ≡ None) (λ b. (body_of (slice_get (view_functions functions.now) function) ≡ Some (view_statement b.statement.now)) × (b.variables.now ≡ variables_of (slice_get (view_functions functions.now) function))) }
{
    let Some(found) = functions.get(function as usize) else {
        return None;
    };
    match &found.body {
        Some(statement) => Some(Body {
            variables: found.variables.as_slice(),
            statement,
        }),
        None => None,
    }
}
