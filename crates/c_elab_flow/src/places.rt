//! Rules that an operand breaks at a line.

ghost use Rattle.c_types.specs.Types.{view as type_view};
ghost use Rattle.core_tree.specs.Trees.{boxed, view_structure};
ghost use Rattle.c_scope.specs.Faults.{required, Gives, on_line};
ghost use Rattle.c_operands.specs.Operands.{view_operand, number, record_value};

use c_operands::{CoreOperand, number, record_value};
use c_scope::{Broken, TypingError};
use c_types::{Layouts, Ty};
use core_tree::{CoreExpr, CoreStructure};
use std::alloc::Global;

/// The expression of an operand that is a value of an integer type; the rule is broken on the line where it isn't one.
pub fn number_on(operand: CoreOperand, line: u32, rule: u32) -> Result<Box<CoreExpr>, TypingError>
    ensures { Gives boxed result (on_line line (number rule (view_operand operand))) }
{
    match number(operand, rule) {
        Ok(value) => Ok(value),
        Err(Broken::Rule { rule }) => Err(TypingError::Typing { line, rule }),
        Err(Broken::Memory) => Err(TypingError::Memory),
    }
}

/// The value of an operand of this struct or union type; the rule is broken on the line where it isn't one.
pub fn record_on(
    alloc: Global,
    type_: &Ty,
    operand: CoreOperand,
    layouts: &Layouts,
    line: u32,
    rule: u32,
) -> Result<Box<CoreStructure>, TypingError>
    ensures { Gives (λ a. view_structure a.value) result (on_line line (required rule (record_value layouts.now.done (type_view type_.now) (view_operand operand)))) }
{
    match record_value(alloc, type_, operand, layouts, rule) {
        Ok(value) => Ok(value),
        Err(Broken::Rule { rule }) => Err(TypingError::Typing { line, rule }),
        Err(Broken::Memory) => Err(TypingError::Memory),
    }
}
