//! Sizes of objects, and the variables of a function.
ghost use Rattle.std.specs.Prelude.{◌≡◌, length, OnOk, IfOk, IfErr, Ok, Result};
ghost use Rattle.c_types.specs.Types.{view as type_view};
ghost use Rattle.c_scope.specs.Scopes.{view_named};
ghost use Rattle.c_scope.specs.Types.{type_size};
ghost use Rattle.c_scope.specs.Faults.{Gives, IsTyping, on_line};
ghost use Rattle.c_elab_base.specs.Declarators.{with_variable, is_open, stated_lengths, complete_type, sized_type, of_type};

use c_scope::{Broken, QualifiedType, Scope, TypingError, type_size};
use c_types::{Layouts, Ty, is_complete};
use std::alloc::Global;

// More variables than this have no memory.
const VARIABLES: usize = 0x7fff_ffff;

/// Whether `[]` is the outermost length.
pub fn is_open(lengths: &[Option<u64>]) -> bool
    ensures { result ≡ is_open lengths.now }
{
    !lengths.is_empty() && lengths[0].is_none()
}

/// Writes the lengths that are still to be said into suffixes, in order.
pub fn state_lengths(length: u64, lengths: &mut Vec<Option<u64>>)
    ensures { lengths.new.items ≡ stated_lengths length lengths.old.items }
{
    if is_open(lengths) {
        lengths[0] = Some(length);
    }
}

/// A type that an object may have, or rule 3 on the line.
pub fn complete_type(type_: Ty, layouts: &Layouts, line: u32) -> Result<Ty, TypingError>
    ensures { Gives type_view result (on_line line (complete_type layouts.now.done (type_view type_))) }
{
    if is_complete(&type_, layouts) {
        Ok(type_)
    } else {
        Err(TypingError::Typing { line, rule: 3 })
    }
}

/// The bytes of a type that a variable may have, or the lowest rule on the line. It takes no memory.
pub fn sized_type(type_: &Ty, layouts: &Layouts, line: u32) -> Result<u32, TypingError>
    ensures gives { Gives (λ n. type_view type_.now) result (on_line line (sized_type layouts.now.done (type_view type_.now))) }
    ensures sized { IfOk result (λ n. type_size layouts.now.done (type_view type_.now) ≡ Ok n) }
    ensures rule { IfErr result IsTyping }
{
    match type_size(type_, layouts) {
        Ok(size) => Ok(size as u32),
        Err(Broken::Rule { rule }) => Err(TypingError::Typing { line, rule }),
        Err(Broken::Memory) => unreachable!(),
    }
}

/// The type of a variable, its size, and whether its initializer says how many elements it has.
#[derive(Drop)]
pub struct Object {
    pub type_: Ty,
    pub size: u32,
    pub counted: bool,
}

/// Declares a variable of this type.
pub fn declare(
    alloc: Global,
    base: &QualifiedType,
    name: &[u8],
    object: &Object,
    scope: &mut Scope,
) -> Result<u32, TypingError>
    requires { type_size scope.old.records.done (type_view object.now.type_) ≡ Ok object.now.size }
    ensures number { IfOk result (λ v. v ≡ length scope.old.variables) }
    ensures declared { OnOk result (scope.new ≡ with_variable scope.old name.now (of_type (view_named base.now) (type_view object.now.type_))) }
    ensures memory { IfErr result (λ e. e ≡ TypingError.Memory) }
{
    if scope.variable_count() > VARIABLES {
        return Err(TypingError::Memory);
    }
    let named = QualifiedType {
        type_: object.type_.copied()?,
        constant: base.constant,
    };
    Ok(scope.declare_variable(alloc, name, named, object.size)?)
}

/// Declares a variable of this type, which a parameter has.
pub fn declare_parameter(
    alloc: Global,
    name: &[u8],
    type_: &Ty,
    constant: bool,
    scope: &mut Scope,
) -> Result<(), TypingError>
    requires { sized_type scope.old.records.done (type_view type_.now) ≡ Ok (type_view type_.now) }
    ensures declared { OnOk result (scope.new ≡ with_variable scope.old name.now (record { type = type_view type_.now; constant = constant })) }
    ensures memory { IfErr result (λ e. e ≡ TypingError.Memory) }
{
    if scope.variable_count() > VARIABLES {
        return Err(TypingError::Memory);
    }
    let named = QualifiedType {
        type_: type_.copied()?,
        constant,
    };
    match sized_type(type_, scope.layouts(), 0) {
        Ok(size) => {
            let _variable = scope.declare_variable(alloc, name, named, size)?;
            Ok(())
        }
        Err(_) => Err(TypingError::Memory),
    }
}
