//! Typedefs.
ghost use Rattle.std.specs.Prelude.{◌<◌, ◌≤◌, length, option_map, OnOk, Result};
ghost use Rattle.c_tree.specs.Declarations.{view_full, view_initializer, name_of};
ghost use Rattle.c_scope.specs.Scopes.{view_named};
ghost use Rattle.c_elab_base.specs.Derivations.{view_made};
ghost use Rattle.c_scope.specs.Faults.{Gives};
ghost use Rattle.c_elab_base.specs.Declarators.{typedef_node, function_typedef_node};
ghost use Rattle.c_elab_type.specs.Declarators.{typed_typedef, typed_function_typedef};

use crate::initializers::no_initializer;
use c_elab_base::{
    Region, earlier, full_line, function_typedef_node, is_too_long, name_of, typedef_node,
};
use c_scope::{FunctionType, QualifiedType, Scope, TypingError, array_type};
use c_tree::InitDeclarator;
use c_types::Ty;
use std::alloc::Global;

// More types than this have no memory.
const TYPES: usize = 0x7fff_ffff;

/// A typedef of an object type with these lengths.
pub fn typed_typedef(
    alloc: Global,
    base: &QualifiedType,
    declared: &InitDeclarator,
    lengths: &[Option<u64>],
    region: Region,
    scope: &mut Scope,
) -> Result<(), TypingError>
    requires { region.outer ≤ length scope.old.bindings }
    ensures gives { Gives (λ u. scope.new) result (typed_typedef region scope.old (view_named base.now) (view_full declared.now.declarator) (option_map view_initializer declared.now.initializer) lengths.now) }
    ensures within { OnOk result (region.outer ≤ length scope.new.bindings) }
{
    let declarator = &declared.declarator;
    let line = full_line(declarator);
    let name = name_of(declarator);
    let element = base.type_.copied()?;
    let made = array_type(alloc, element, lengths, scope.layouts(), line);
    let named = typedef_node(
        made,
        base.constant,
        earlier(name, region, scope),
        line,
        scope,
    )?;
    if scope.type_count() > TYPES {
        return Err(TypingError::Memory);
    }
    scope.declare_type(alloc, name, named)?;
    no_initializer(alloc, line, &declared.initializer, scope)
}

/// A typedef of a function type, or of one that breaks a rule.
pub fn typed_function_typedef(
    alloc: Global,
    declared: &InitDeclarator,
    made: Result<FunctionType, u32>,
    region: Region,
    scope: &mut Scope,
) -> Result<(), TypingError>
    requires { region.outer ≤ length scope.old.bindings }
    ensures gives { Gives (λ u. scope.new) result (typed_function_typedef region scope.old (view_full declared.now.declarator) (option_map view_initializer declared.now.initializer) (view_made made)) }
    ensures within { OnOk result (region.outer ≤ length scope.new.bindings) }
{
    let declarator = &declared.declarator;
    let line = full_line(declarator);
    let name = name_of(declarator);
    let type_ = function_typedef_node(made, earlier(name, region, scope), line, scope)?;
    if scope.type_count() > TYPES || scope.functions().type_count() > TYPES {
        return Err(TypingError::Memory);
    }
    if is_too_long(scope.functions(), &type_) {
        return Err(TypingError::Memory);
    }
    let number = scope.place_function_type(type_)?;
    let named = QualifiedType {
        type_: Ty::Function(number),
        constant: false,
    };
    scope.declare_type(alloc, name, named)?;
    no_initializer(alloc, line, &declared.initializer, scope)
}
