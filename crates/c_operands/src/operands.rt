//! What an operator makes of typed operands, or the lowest rule that they break.

ghost use Rattle.std.specs.Prelude.{◌≡◌, ◌%◌, ◌^◌, ℕ, true, false, slice_get, IfOk, IsErr, Result};
ghost use Rattle.c_types.specs.Types.{view as type_view, integer as integer_type};
ghost use Rattle.c_types.specs.Layouts.{is_complete, is_sized, size_of};
ghost use Rattle.core_tree.specs.Trees.{Expression, size_of_structure, view, view_place, boxed, view_structure};
ghost use Rattle.c_scope.specs.Scopes.{object_at};
ghost use Rattle.c_scope.specs.Faults.{required, GivesNode};
ghost use Rattle.c_operands.specs.Operands.{value as number_operand, view_operand, computed, valued, number, same_record, record_value, dropped, is_array, used, home_place, held_value, put_value, place_operand, variable_node, object_entry_node, function_node, name_node, part_operand, member_node, operand_bytes, sized_operand, constant_in};

use crate::constants::constant_of;
use crate::nodes::{
    character_node, in_box, integer, low_bits, place_in_box, structure_in_box, value_size,
};
use c_scope::{Broken, Meaning, Scope, is_incomplete, part_at, type_size};
use c_types::{IntegerType, Layouts, Ty, is_sized, size_of};
use c_values::Number;
use core_tree::{CoreExpr, CoreStructure, Place, type_of};
use std::alloc::{AllocError, Global};

/// What a place lies in.
#[derive(Clone, Copy, PartialEq, Eq)]
pub enum Home {
    /// A variable of the function, by its number.
    Variable { variable: u32 },
    /// An object that lives as long as the program, by its number.
    Object { object: u32 },
}

/// What an expression is (C11 6.3.2.1).
#[derive(Drop)]
pub enum CoreOperand {
    /// A value of integer type or void, and whether it is a place that is const.
    Value {
        value: Box<CoreExpr>,
        constant: bool,
    },
    /// A place of struct, union or array type at an offset in bytes in a variable or an object, with the line of its own token,
    /// and whether it is const.
    Object {
        line: u32,
        home: Home,
        offset: u32,
        type_: Ty,
        constant: bool,
    },
    /// A value of struct, union or array type that is no place.
    Structure {
        type_: Ty,
        value: Box<CoreStructure>,
    },
}

/// A value that is no place.
pub fn computed(node: Result<Box<CoreExpr>, Broken>) -> Result<CoreOperand, Broken>
    ensures { (r : Result Expression ℕ) → GivesNode boxed node r → GivesNode view_operand result (computed r) }
{
    match node {
        Ok(value) => Ok(CoreOperand::Value {
            value,
            constant: false,
        }),
        Err(broken) => Err(broken),
    }
}

/// A value that is no place, from a node that is made.
pub fn made(alloc: Global, node: CoreExpr) -> Result<CoreOperand, AllocError>
    ensures { IfOk result (λ x. view_operand x ≡ number_operand (view node) false) }
{
    let value = in_box(alloc, node)?;
    Ok(CoreOperand::Value {
        value,
        constant: false,
    })
}

/// The expression of an operand that is a value of an integer type or void, or the broken rule.
pub fn valued(operand: CoreOperand, rule: u32) -> Result<Box<CoreExpr>, Broken>
    ensures { GivesNode boxed result (valued rule (view_operand operand)) }
{
    match operand {
        CoreOperand::Value { value, .. } => Ok(value),
        CoreOperand::Object { .. } => Err(Broken::Rule { rule }),
        CoreOperand::Structure { .. } => Err(Broken::Rule { rule }),
    }
}

/// The expression of an operand that is a value of an integer type, or the broken rule.
pub fn number(operand: CoreOperand, rule: u32) -> Result<Box<CoreExpr>, Broken>
    ensures { GivesNode boxed result (number rule (view_operand operand)) }
{
    let value = valued(operand, rule)?;
    let _type = integer(&value, rule)?;
    Ok(value)
}

/// Whether both types are one struct or union.
pub fn same_record(a: &Ty, b: &Ty) -> bool
    ensures { result ≡ same_record (type_view a.now) (type_view b.now) }
{
    match (a, b) {
        (Ty::Record(p), Ty::Record(q)) => p == q,
        _ => false,
    }
}

/// The bytes of an object's type. It is complete and not too large, so that no other answer comes. It takes no memory.
pub fn bytes_of(type_: &Ty, layouts: &Layouts) -> Result<u32, AllocError>
    ensures size { IfOk result (λ n. n ≡ size_of layouts.now.done (type_view type_.now)) }
    ensures cause { IsErr result → is_complete layouts.now.done (type_view type_.now) ≡ true → is_sized layouts.now.done (type_view type_.now) ≡ false }
{
    if !is_sized(type_, layouts) {
        return Err(AllocError);
    }
    match size_of(type_, layouts) {
        Ok(size) => Ok(size),
        Err(_) => Err(AllocError),
    }
}

// The place at an offset of a variable or an object.
fn home_place(alloc: Global, home: Home, line: u32, offset: u32) -> Result<Box<Place>, AllocError>
    ensures { IfOk result (λ p. view_place p.value ≡ home_place home line offset) }
{
    match home {
        Home::Variable { variable } => place_in_box(
            alloc,
            Place::Variable {
                line,
                variable,
                offset,
            },
        ),
        Home::Object { object } => place_in_box(
            alloc,
            Place::Object {
                line,
                object,
                offset,
            },
        ),
    }
}

/// The structure value of an assignment on a line to an object, whose place stands on its own line: this value's bytes take the
/// place of those of the variable or static object from an offset on (C11 6.5.16.1). The only error is want of memory.
pub fn put_value(
    alloc: Global,
    line: u32,
    at: u32,
    home: Home,
    offset: u32,
    value: Box<CoreStructure>,
) -> Result<Box<CoreStructure>, AllocError>
    ensures { IfOk result (λ a. view_structure a.value ≡ put_value line at home offset (view_structure value.value)) }
{
    let place = home_place(alloc, home, at, offset)?;
    structure_in_box(alloc, CoreStructure::Assign { line, place, value })
}

/// The structure value that an object of this type holds, read at an offset of a variable or static object
/// (C11 6.3.2.1p2). The only error is want of memory.
pub fn read_object(
    alloc: Global,
    line: u32,
    home: Home,
    offset: u32,
    type_: &Ty,
    layouts: &Layouts,
) -> Result<Box<CoreStructure>, AllocError>
    ensures { IfOk result (λ a. view_structure a.value ≡ held_value home line offset (size_of layouts.now.done (type_view type_.now))) }
{
    let size = bytes_of(type_, layouts)?;
    let place = home_place(alloc, home, line, offset)?;
    structure_in_box(alloc, CoreStructure::Read { place, size })
}

/// The value of an operand of this struct or union type, or the broken rule.
pub fn record_value(
    alloc: Global,
    type_: &Ty,
    operand: CoreOperand,
    layouts: &Layouts,
    rule: u32,
) -> Result<Box<CoreStructure>, Broken>
    ensures { GivesNode (λ a. view_structure a.value) result (required rule (record_value layouts.now.done (type_view type_.now) (view_operand operand))) }
{
    match operand {
        CoreOperand::Value { .. } => Err(Broken::Rule { rule }),
        CoreOperand::Object {
            line,
            home,
            offset,
            type_: other,
            ..
        } => {
            if same_record(type_, &other) {
                Ok(read_object(alloc, line, home, offset, &other, layouts)?)
            } else {
                Err(Broken::Rule { rule })
            }
        }
        CoreOperand::Structure {
            type_: other,
            value,
        } => {
            if same_record(type_, &other) {
                Ok(value)
            } else {
                Err(Broken::Rule { rule })
            }
        }
    }
}

/// The expression of an operand whose value isn't used.
pub fn dropped(
    alloc: Global,
    operand: CoreOperand,
    layouts: &Layouts,
) -> Result<Box<CoreExpr>, AllocError>
    ensures { IfOk result (λ e. view e.value ≡ dropped layouts.now.done (view_operand operand)) }
{
    match operand {
        CoreOperand::Value { value, .. } => Ok(value),
        CoreOperand::Object {
            line,
            home,
            offset,
            type_,
            ..
        } => {
            let value = read_object(alloc, line, home, offset, &type_, layouts)?;
            in_box(alloc, CoreExpr::DiscardStructure { value })
        }
        CoreOperand::Structure { value, .. } => {
            in_box(alloc, CoreExpr::DiscardStructure { value })
        }
    }
}

fn is_array(type_: &Ty) -> bool
    ensures { result ≡ is_array (type_view type_.now) }
{
    match type_ {
        Ty::Void => false,
        Ty::Integer(_) => false,
        Ty::Record(_) => false,
        Ty::Array { .. } => true,
        Ty::Pointer { .. } => false,
        Ty::Function(_) => false,
    }
}

/// An operand whose value is wanted or not, within the operand of a `sizeof` or not. It is no array, unless its value isn't wanted
/// within that operand.
pub fn used(measured: bool, wanted: bool, operand: CoreOperand) -> Result<CoreOperand, Broken>
    ensures { GivesNode view_operand result (used measured wanted (view_operand operand)) }
{
    match operand {
        CoreOperand::Value { value, constant } => Ok(CoreOperand::Value { value, constant }),
        CoreOperand::Object {
            line,
            home,
            offset,
            type_,
            constant,
        } => {
            if (!measured || wanted) && is_array(&type_) {
                Err(Broken::Rule { rule: 7 })
            } else {
                Ok(CoreOperand::Object {
                    line,
                    home,
                    offset,
                    type_,
                    constant,
                })
            }
        }
        CoreOperand::Structure { type_, value } => {
            if (!measured || wanted) && is_array(&type_) {
                Err(Broken::Rule { rule: 9 })
            } else {
                Ok(CoreOperand::Structure { type_, value })
            }
        }
    }
}

// The place of a number at an offset in a variable or an object.
fn number_place(
    alloc: Global,
    line: u32,
    home: Home,
    offset: u32,
    type_: IntegerType,
    constant: bool,
) -> Result<CoreOperand, AllocError>
    ensures { IfOk result (λ x. view_operand x ≡ place_operand line home offset (integer_type type_) constant) }
{
    let place = home_place(alloc, home, line, offset)?;
    let value = in_box(alloc, CoreExpr::Read { type_, place })?;
    Ok(CoreOperand::Value { value, constant })
}

// The place of a type at an offset in a variable or an object.
fn place_operand(
    alloc: Global,
    line: u32,
    home: Home,
    offset: u32,
    type_: Ty,
    constant: bool,
) -> Result<CoreOperand, AllocError>
    ensures { IfOk result (λ x. view_operand x ≡ place_operand line home offset (type_view type_) constant) }
{
    match &type_ {
        Ty::Integer(integer) => number_place(alloc, line, home, offset, *integer, constant),
        Ty::Pointer { .. } => {
            let type_ = IntegerType::UnsignedLong;
            number_place(alloc, line, home, offset, type_, constant)
        }
        _ => Ok(CoreOperand::Object {
            line,
            home,
            offset,
            type_,
            constant,
        }),
    }
}

fn variable_node(
    alloc: Global,
    line: u32,
    variable: u32,
    scope: &Scope,
) -> Result<CoreOperand, Broken>
    ensures { GivesNode view_operand result (variable_node line variable (slice_get scope.now.variables variable)) }
{
    match scope.variable(variable) {
        Some(named) => {
            let type_ = named.type_.copied()?;
            let home = Home::Variable { variable };
            Ok(place_operand(alloc, line, home, 0, type_, named.constant)?)
        }
        None => Err(Broken::Rule { rule: 1 }),
    }
}

// An object that lives as long as the program. One whose type is incomplete here is no operand.
fn object_entry_node(
    alloc: Global,
    line: u32,
    object: u32,
    scope: &Scope,
) -> Result<CoreOperand, Broken>
    ensures { GivesNode view_operand result (object_entry_node scope.now.records.done line object (object_at scope.now object)) }
{
    match scope.object(object) {
        Some(object_entry) => {
            if is_incomplete(object_entry, scope.layouts()) {
                return Err(Broken::Rule { rule: 3 });
            }
            let type_ = object_entry.named.type_.copied()?;
            let home = Home::Object { object };
            Ok(place_operand(alloc, line, home, 0, type_, object_entry.named.constant)?)
        }
        None => Err(Broken::Rule { rule: 1 }),
    }
}

// The name of a function that isn't called.
fn function_node(
    alloc: Global,
    line: u32,
    function: u32,
    scope: &Scope,
) -> Result<CoreOperand, Broken>
    ensures { GivesNode view_operand result (function_node line function (slice_get scope.now.functions.all function)) }
{
    match scope.functions().function(function) {
        Some(_) => Ok(made(alloc, CoreExpr::FunctionName { line })?),
        None => Err(Broken::Rule { rule: 1 }),
    }
}

/// A name by what it means.
pub fn name_node(
    alloc: Global,
    line: u32,
    meaning: Option<Meaning>,
    scope: &Scope,
) -> Result<CoreOperand, Broken>
    ensures { GivesNode view_operand result (name_node scope.now line meaning) }
{
    match meaning {
        None => Err(Broken::Rule { rule: 1 }),
        Some(Meaning::Variable { variable }) => variable_node(alloc, line, variable, scope),
        Some(Meaning::Object { object }) => object_entry_node(alloc, line, object, scope),
        Some(Meaning::Incomplete) => Err(Broken::Rule { rule: 3 }),
        Some(Meaning::Assert)
        | Some(Meaning::Assume)
        | Some(Meaning::Draw { .. })
        | Some(Meaning::BuiltIn { .. }) => Ok(made(alloc, CoreExpr::FunctionName { line })?),
        Some(Meaning::Function { function }) => function_node(alloc, line, function, scope),
        Some(Meaning::Typedef { .. }) => Err(Broken::Rule { rule: 7 }),
        Some(Meaning::Enumerator { bits }) => Ok(made(alloc, character_node(line, bits))?),
        Some(Meaning::Record { .. }) => Err(Broken::Rule { rule: 7 }),
        Some(Meaning::Enumeration) => Err(Broken::Rule { rule: 7 }),
    }
}

// The part of a type at an offset of a value that is no place.
fn part_operand(
    alloc: Global,
    line: u32,
    offset: u32,
    type_: Ty,
    value: Box<CoreStructure>,
    layouts: &Layouts,
) -> Result<CoreOperand, AllocError>
    ensures { IfOk result (λ x. view_operand x ≡ part_operand layouts.now.done line offset (type_view type_) (view_structure value.value)) }
{
    match &type_ {
        Ty::Integer(integer) => made(
            alloc,
            CoreExpr::Member {
                line,
                type_: *integer,
                offset,
                value,
            },
        ),
        Ty::Pointer { .. } => made(
            alloc,
            CoreExpr::Member {
                line,
                type_: IntegerType::UnsignedLong,
                offset,
                value,
            },
        ),
        _ => {
            let size = bytes_of(&type_, layouts)?;
            let part = CoreStructure::Member {
                line,
                offset,
                size,
                value,
            };
            Ok(CoreOperand::Structure {
                type_,
                value: structure_in_box(alloc, part)?,
            })
        }
    }
}

/// The member of an operand, behind a `.` on this line.
pub fn member_node(
    alloc: Global,
    line: u32,
    operand: CoreOperand,
    name: &[u8],
    scope: &Scope,
) -> Result<CoreOperand, Broken>
    ensures { GivesNode view_operand result (member_node scope.now line (view_operand operand) name.now) }
{
    match operand {
        CoreOperand::Value { .. } => Err(Broken::Rule { rule: 11 }),
        CoreOperand::Object {
            home,
            offset,
            type_,
            constant,
            ..
        } => match scope.way(&type_, name) {
            Some(way) => {
                let (at, part) = part_at(alloc, offset, &type_, &way.path, scope.layouts())?;
                let constant = constant || way.constant;
                Ok(place_operand(alloc, line, home, at, part, constant)?)
            }
            None => Err(Broken::Rule { rule: 11 }),
        },
        CoreOperand::Structure { type_, value } => match scope.way(&type_, name) {
            Some(way) => {
                let (at, part) = part_at(alloc, 0, &type_, &way.path, scope.layouts())?;
                Ok(part_operand(alloc, line, at, part, value, scope.layouts())?)
            }
            None => Err(Broken::Rule { rule: 11 }),
        },
    }
}

/// The bytes of an operand's type.
pub fn operand_bytes(operand: &CoreOperand, layouts: &Layouts) -> Result<u64, Broken>
    ensures { GivesNode (λ n. n) result (operand_bytes layouts.now.done (view_operand operand.now)) }
{
    match operand {
        CoreOperand::Value { value, .. } => value_size(type_of(value)),
        CoreOperand::Object { type_, .. } => type_size(type_, layouts),
        CoreOperand::Structure { type_, .. } => type_size(type_, layouts),
    }
}

/// The size of an operand, which isn't evaluated, as a constant of type unsigned long (C11 6.5.3.4). The only error is want of
/// memory.
pub fn sized_operand(
    alloc: Global,
    line: u32,
    size: u64,
    operand: CoreOperand,
    layouts: &Layouts,
) -> Result<CoreOperand, AllocError>
    ensures { IfOk result (λ x. view_operand x ≡ sized_operand layouts.now.done line size (view_operand operand)) }
{
    match operand {
        CoreOperand::Value { value, .. } => made(
            alloc,
            CoreExpr::SizeOf {
                line,
                bits: low_bits(size, 64),
                operand: value,
            },
        ),
        CoreOperand::Object {
            line: at,
            home,
            offset,
            type_,
            ..
        } => {
            let value = read_object(alloc, at, home, offset, &type_, layouts)?;
            sized_structure(alloc, line, size, value)
        }
        CoreOperand::Structure { value, .. } => sized_structure(alloc, line, size, value),
    }
}

// The size of a structure value, which isn't evaluated.
fn sized_structure(
    alloc: Global,
    line: u32,
    size: u64,
    operand: Box<CoreStructure>,
) -> Result<CoreOperand, AllocError>
    ensures { IfOk result (λ x. view_operand x ≡ number_operand (size_of_structure line (size % 2 ^ 64) (view_structure operand.value)) false) }
{
    made(
        alloc,
        CoreExpr::SizeOfStructure {
            line,
            bits: low_bits(size, 64),
            operand,
        },
    )
}

/// The value of an operand that is an integer constant expression.
pub fn constant_in(operand: &CoreOperand) -> Option<Number>
    ensures { result ≡ constant_in (view_operand operand.now) }
{
    match operand {
        CoreOperand::Value { value, .. } => constant_of(value),
        CoreOperand::Object { .. } => None,
        CoreOperand::Structure { .. } => None,
    }
}
