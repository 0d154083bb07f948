//! Where loops and assertions stand.

ghost use Rattle.std.specs.Prelude.{◌≡◌, ◌++◌, ◌∷◌, [], Option, OnOk};
ghost use Rattle.c_tree.specs.Tree.{view};
ghost use Rattle.properties.specs.Spots.{is_assertion, assertion_line, with_assertion, with_called};

use c_tree::Expr;
use std::alloc::AllocError;

/// A loop, by the line of its keyword, or an assertion, by the line of the name that is called.
#[derive(Clone, Copy, PartialEq, Eq)]
pub enum Spot {
    Loop { line: u32 },
    Assertion { line: u32 },
}

fn is_assertion(name: &[u8]) -> bool
    ensures { result ≡ is_assertion name.now }
{
    name == b"assert".as_slice() || name == b"__CPROVER_assert".as_slice()
}

/// The line of the name that a call calls, where that is an assertion's, also in parentheses.
fn assertion_line(function: &Expr) -> Option<u32>
    ensures { result ≡ assertion_line (view function.now) }
{
    match function {
        Expr::Name { line, name } => {
            if is_assertion(&name.bytes) {
                Some(*line)
            } else {
                None
            }
        }
        Expr::Parens { inner, .. } => assertion_line(inner),
        _ => None,
    }
}

/// Notes the assertion that a call is, if it is one.
pub fn push_called(function: &Expr, spots: &mut Vec<Spot>) -> Result<(), AllocError>
    ensures { OnOk result (spots.new.items ≡ with_called spots.old.items (view function.now)) }
{
    match assertion_line(function) {
        Some(line) => {
            spots.push(Spot::Assertion { line })?;
            Ok(())
        }
        None => Ok(()),
    }
}

/// Notes a loop.
pub fn push_loop(line: u32, spots: &mut Vec<Spot>) -> Result<(), AllocError>
    ensures { OnOk result (spots.new.items ≡ spots.old.items ++ Spot.Loop line ∷ []) }
{
    spots.push(Spot::Loop { line })?;
    Ok(())
}
