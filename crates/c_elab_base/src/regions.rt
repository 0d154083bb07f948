//! The scopes of a file in which declarations stand.

ghost use Rattle.std.specs.Prelude.{◌≡◌, ◌≤◌, true, length, IfSome};
ghost use Rattle.c_scope.specs.Scopes.{is_known};
ghost use Rattle.c_elab_base.specs.Regions.{is_built_in_function, built_in_function, earlier, earlier_tag};

use c_scope::{Meaning, Scope, built_in};

/// A scope (C11 6.2.1p4): the block that began with so many names and tags in scope, or outside of functions.
#[derive(Clone, Copy, PartialEq, Eq)]
pub struct Region {
    pub outer: usize,
    pub is_file: bool,
}

/// What declarators declare, by the storage word before them (C11 6.7.1).
#[derive(Clone, Copy, PartialEq, Eq)]
pub enum Role {
    /// Names of types.
    Typedef,
    /// Objects that live as long as the program, which are defined here or elsewhere.
    Extern,
    /// Objects that live as long as the program, which are defined here.
    Static,
    /// Variables of a function.
    Automatic,
}

/// Whether this is what a built-in function means.
pub fn is_built_in_function(meaning: Meaning) -> bool
    ensures { result ≡ is_built_in_function meaning }
{
    match meaning {
        Meaning::Assert | Meaning::Assume | Meaning::Draw { .. } | Meaning::BuiltIn { .. } => true,
        Meaning::Variable { .. }
        | Meaning::Object { .. }
        | Meaning::Incomplete
        | Meaning::Function { .. }
        | Meaning::Typedef { .. }
        | Meaning::Enumerator { .. }
        | Meaning::Record { .. }
        | Meaning::Enumeration => false,
    }
}

/// The built-in function of a name.
pub fn built_in_function(name: &[u8]) -> Option<Meaning>
    ensures is { result ≡ built_in_function name.now }
    ensures known { (scope : Rattle.c_scope.specs.Scopes.Scoped) → IfSome result (λ m. is_known scope m ≡ true) }
{
    match built_in(name) {
        Some(meaning) => {
            if is_built_in_function(meaning) {
                Some(meaning)
            } else {
                None
            }
        }
        None => None,
    }
}

/// What a name is declared as in this scope already; outside of functions the built-in functions are declared too, but a
/// built-in type is hidden by what the file declares.
pub fn earlier(name: &[u8], region: Region, scope: &Scope) -> Option<Meaning>
    requires { region.outer ≤ length scope.now.bindings }
    ensures { result ≡ earlier region scope.now name.now }
{
    if scope.is_declared(name, region.outer) {
        return scope.meaning(name);
    }
    if region.is_file {
        built_in_function(name)
    } else {
        None
    }
}

/// What a tag is declared as in this scope already.
pub fn earlier_tag(name: &[u8], region: Region, scope: &Scope) -> Option<Meaning>
    requires { region.outer ≤ length scope.now.bindings }
    ensures is { result ≡ earlier_tag region scope.now name.now }
    ensures there { IfSome result (λ m. is_known scope.now m ≡ true) }
{
    if scope.is_tag_declared(name, region.outer) {
        scope.tag(name)
    } else {
        None
    }
}
