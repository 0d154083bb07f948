//! The types and sizes of values.

ghost use Rattle.std.specs.Prelude.{◌≡◌};
ghost use Rattle.core_tree.specs.Trees.{view};
ghost use Rattle.c_meaning.specs.Meaning.{number_type};
ghost use Rattle.c_temporaries.specs.Temporaries.{value_size};

use c_types::{IntegerType, ValueType};
use core_tree::{CoreExpr, type_of};

/// How many bytes a value of this type has; one of void has none.
pub fn value_size(type_: ValueType) -> u32
    ensures { result ≡ value_size type_ }
{
    match type_ {
        ValueType::Void => 0,
        ValueType::Integer(type_) => type_.size(),
    }
}

/// The type of the value of an expression; of one without value that of an int.
pub fn number_type(value: &CoreExpr) -> IntegerType
    ensures { result ≡ number_type (view value.now) }
{
    match type_of(value) {
        ValueType::Void => IntegerType::Int,
        ValueType::Integer(type_) => type_,
    }
}
