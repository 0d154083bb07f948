//! The declarator of a definition.
ghost use Rattle.std.specs.Prelude.{◌≡◌, ◌<◌, ◌==◌, ◌&&◌, length, Bool, true, [], is_some, Some, None, MatchOption};
ghost use Rattle.c_tree.specs.Declarations.{Parameters, full_end, view_full, view_full_suffix, full_suffixes_of};
ghost use Rattle.c_elab_base.specs.Derivations.{view_parameters, view_derived, view_deriveds};
ghost use Rattle.c_elab_flow.specs.Files.{no_suffixes, is_name_alone, one_function, own_parameters};
ghost use Rattle.c_elab_flow.specs.Held.{IsOwn, called_parameters, parameters_in};

use c_elab_base::{Derived, Parameter};
use c_tree::{DeclaratorSuffix, FullDeclarator, PointerMark};

// Neither pointers nor suffixes are there.
fn is_bare(pointers: &[PointerMark], suffixes: &[DeclaratorSuffix]) -> bool
    ensures { result ≡ ((length pointers.now == 0) && no_suffixes (full_suffixes_of suffixes.now)) }
{
    pointers.is_empty() && suffixes.is_empty()
}

fn is_name_alone(declarator: &FullDeclarator) -> bool
    ensures { result ≡ is_name_alone (view_full declarator.now) }
{
    match declarator {
        FullDeclarator::Unnamed { .. } => false,
        FullDeclarator::Named {
            pointers,
            suffixes,
            ..
        } => is_bare(pointers, suffixes),
        FullDeclarator::Inside {
            pointers,
            inner,
            suffixes,
            ..
        } => is_bare(pointers, suffixes) && is_name_alone(inner),
    }
}

// A suffix is a function's.
fn is_function(suffix: &DeclaratorSuffix) -> bool
    ensures { result ≡ is_some (one_function (view_full_suffix suffix.now full_end)) }
{
    match suffix {
        DeclaratorSuffix::Bounded { .. } => false,
        DeclaratorSuffix::Open { .. } => false,
        DeclaratorSuffix::Empty { .. } => true,
        DeclaratorSuffix::Void { .. } => true,
        DeclaratorSuffix::Parameters { .. } => true,
    }
}

// The suffix of a declarator that has one alone, which is a function's.
fn one_function(suffixes: &[DeclaratorSuffix]) -> Option<&DeclaratorSuffix>
    ensures { MatchOption result (one_function (full_suffixes_of suffixes.now) ≡ None) (λ x. IsOwn (one_function (full_suffixes_of suffixes.now)) x.now) }
{
    if suffixes.len() == 1 && is_function(&suffixes[0]) {
        Some(&suffixes[0])
    } else {
        None
    }
}

/// The suffix with a function's own parameters, if a declarator is a function's.
pub fn own_suffix(declarator: &FullDeclarator) -> Option<&DeclaratorSuffix>
    ensures { MatchOption result (own_parameters (view_full declarator.now) ≡ None) (λ x. IsOwn (own_parameters (view_full declarator.now)) x.now) }
{
    match declarator {
        FullDeclarator::Unnamed { .. } => None,
        FullDeclarator::Named {
            pointers,
            suffixes,
            ..
        } => {
            if pointers.is_empty() {
                one_function(suffixes)
            } else {
                None
            }
        }
        FullDeclarator::Inside {
            pointers,
            inner,
            suffixes,
            ..
        } => {
            if !pointers.is_empty() {
                None
            } else if suffixes.is_empty() {
                own_suffix(inner)
            } else if is_name_alone(inner) {
                one_function(suffixes)
            } else {
                None
            }
        }
    }
}

/// An ellipsis stands behind the parameters of a suffix.
pub fn is_variadic(suffix: &DeclaratorSuffix) -> bool
    ensures { (own : Parameters × Bool) → one_function (view_full_suffix suffix.now full_end) ≡ Some own → result ≡ own.1 }
{
    match suffix {
        DeclaratorSuffix::Bounded { .. } => false,
        DeclaratorSuffix::Open { .. } => false,
        DeclaratorSuffix::Empty { .. } => false,
        DeclaratorSuffix::Void { .. } => false,
        DeclaratorSuffix::Parameters { variadic, .. } => *variadic,
    }
}

// The parameters of a suffix.
fn called_parameters(suffix: &Derived) -> &[Parameter]
    ensures { view_parameters result.now ≡ called_parameters (view_derived suffix.now) }
{
    match suffix {
        Derived::Counted { .. } => &[],
        Derived::Called { parameters, .. } => parameters,
    }
}

/// The parameters of suffixes that are a function's alone.
pub fn parameters_in(own: bool, suffixes: &[Derived]) -> &[Parameter]
    ensures { view_parameters result.now ≡ parameters_in own (view_deriveds suffixes.now) }
{
    if own && suffixes.len() == 1 {
        called_parameters(&suffixes[0])
    } else {
        &[]
    }
}
