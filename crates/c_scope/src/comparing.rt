//! Types compared.

ghost use Rattle.std.specs.Prelude.{◌≡◌};
ghost use Rattle.c_types.specs.Types.{view, views};
ghost use Rattle.c_scope.specs.Scopes.{view_function_type};
ghost use Rattle.c_scope.specs.Functions.{same_ctype, same_flag, same_types, same_function};

use crate::functions::FunctionType;
use c_types::{Ty, same};

/// Whether two types are one.
pub fn same_ctype(a: &Ty, b: &Ty) -> bool
    ensures { result ≡ same_ctype (view a.now) (view b.now) }
{
    same(a, b)
}

/// Whether both hold or neither does, as `const` of two types.
pub fn same_flag(a: bool, b: bool) -> bool
    ensures { result ≡ same_flag a b }
{
    a == b
}

// The same parameters, up to qualifiers.
fn same_types(a: &[Ty], b: &[Ty]) -> bool
    ensures { result ≡ same_types (views a.now) (views b.now) }
{
    if a.len() != b.len() {
        return false;
    }
    let mut at = 0;
    while at < a.len() {
        if !same_ctype(&a[at], &b[at]) {
            return false;
        }
        at += 1;
    }
    true
}

/// Whether two function types are one (C11 6.7.6.3p15).
pub fn same_function(a: &FunctionType, b: &FunctionType) -> bool
    ensures { result ≡ same_function (view_function_type a.now) (view_function_type b.now) }
{
    same_flag(a.constant, b.constant)
        && same_ctype(&a.gives, &b.gives)
        && same_flag(a.ellipsis, b.ellipsis)
        && same_types(&a.parameters, &b.parameters)
}
