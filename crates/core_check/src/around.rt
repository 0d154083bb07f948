//! What a tree names: the functions, static objects and literals of its file, and the variables of its function.

ghost use Rattle.std.specs.Prelude.{◌≡◌, ◌&&◌, ◌==◌, ◌+◌, length, nat_lt, nat_le, slice_get, slice_index};
ghost use Rattle.core_tree.specs.Trees.{view_place};
ghost use Rattle.core_tree.specs.Typed as typed;
ghost use Rattle.core_check.specs.Around.{sizes_around, object_sizes, signatures, fits, reaches};

use crate::types::same_given;
use c_types::ValueType;
use core_tree::{Function, Literal, PassedType, Place, StaticObject, Variable};

/// Around a tree: its file, and of its function the variables and what it gives.
#[derive(Clone, Copy)]
pub(crate) struct Around<'a> {
    pub(crate) functions: &'a [Function],
    pub(crate) objects: &'a [StaticObject],
    pub(crate) literals: &'a [Literal],
    pub(crate) pointers: bool,
    pub(crate) variables: &'a [Variable],
    pub(crate) gives: Option<PassedType>,
}

/// How many bytes from a place on can be read and written.
#[derive(Clone, Copy)]
pub(crate) enum Room {
    /// It isn't a place.
    Nothing,
    /// So many, of a place that is known.
    Bytes(u32),
    /// Where a pointer tells it.
    Any,
}

// So many bytes can be read and written there.
pub(crate) fn has_room(room: Room, count: u32) -> bool
    ensures { result ≡ fits room count }
{
    match room {
        Room::Nothing => false,
        Room::Bytes(most) => count <= most,
        Room::Any => true,
    }
}

// The room behind so many bytes.
pub(crate) fn room_behind(room: Room, offset: u32) -> Room
    ensures { (n : _) → fits result n ≡ fits room (offset + n) }
{
    match room {
        Room::Nothing => Room::Nothing,
        Room::Bytes(most) => {
            if offset <= most {
                Room::Bytes(most - offset)
            } else {
                Room::Nothing
            }
        }
        Room::Any => Room::Any,
    }
}

// The room where a pointer tells the object, if it is one.
pub(crate) fn room_pointed(is_typed: bool) -> Room
    ensures { (n : _) → fits result n ≡ is_typed }
{
    if is_typed { Room::Any } else { Room::Nothing }
}

// The room of an element of so many bytes.
pub(crate) fn room_element(size: u32, is_typed: bool) -> Room
    ensures { (n : _) → fits result n ≡ (is_typed && nat_le n size) }
{
    if is_typed {
        Room::Bytes(size)
    } else {
        Room::Nothing
    }
}

// ---- variables and static objects

pub(crate) fn variable_size(variables: &[Variable], variable: u32) -> Option<u32>
    ensures { result ≡ slice_get (typed.sizes_of_variables variables.now) variable }
{
    match variables.get(variable as usize) {
        Some(found) => Some(found.size),
        None => None,
    }
}

// Of the static object that has one less than its number before it.
pub(crate) fn object_size(objects: &[StaticObject], before: u32) -> Option<u32>
    ensures { result ≡ slice_get (object_sizes objects.now) before }
{
    match objects.get(before as usize) {
        Some(found) => Some(found.size),
        None => None,
    }
}

// The room from an offset on.
fn room_from(size: Option<u32>, offset: u32) -> Room
    ensures { (n : _) → fits result n ≡ reaches size (offset + n) }
{
    match size {
        Some(size) => room_behind(Room::Bytes(size), offset),
        None => Room::Nothing,
    }
}

pub(crate) fn variable_room(variables: &[Variable], variable: u32, offset: u32) -> Room
    ensures { (n : _) → fits result n ≡ typed.is_within (typed.sizes_of_variables variables.now) variable offset n }
{
    room_from(variable_size(variables, variable), offset)
}

pub(crate) fn object_room(objects: &[StaticObject], object: u32, offset: u32) -> Room
    ensures { (n : _) → fits result n ≡ typed.is_in_object (object_sizes objects.now) object offset n }
{
    if object == 0 {
        Room::Nothing
    } else {
        room_from(object_size(objects, object - 1), offset)
    }
}

// There is a variable of so many bytes.
pub(crate) fn is_variable_of(variables: &[Variable], variable: u32, size: u32) -> bool
    ensures { result ≡ (nat_lt variable (length (typed.sizes_of_variables variables.now)) && (size == slice_index (typed.sizes_of_variables variables.now) variable)) }
{
    match variable_size(variables, variable) {
        Some(found) => size == found,
        None => false,
    }
}

// There is a variable of 8 bytes.
pub(crate) fn is_home_of(variables: &[Variable], variable: u32) -> bool
    ensures { result ≡ (nat_lt variable (length (typed.sizes_of_variables variables.now)) && (slice_index (typed.sizes_of_variables variables.now) variable == 8)) }
{
    match variable_size(variables, variable) {
        Some(found) => found == 8,
        None => false,
    }
}

// There is a variable of so many bytes as a value of this type.
pub(crate) fn fills(variables: &[Variable], variable: u32, type_: ValueType) -> bool
    ensures { result ≡ typed.fills (typed.sizes_of_variables variables.now) variable type_ }
{
    match type_ {
        ValueType::Void => false,
        ValueType::Integer(type_) => is_variable_of(variables, variable, type_.size()),
    }
}

fn has_home(variables: &[Variable], variable: u32) -> bool
    ensures { result ≡ typed.has_home (typed.homes_of variables.now) variable }
{
    match variables.get(variable as usize) {
        Some(found) => found.home.is_some(),
        None => false,
    }
}

// What lies at a place has an address.
pub(crate) fn has_address(around: &Around, place: &Place) -> bool
    ensures { result ≡ typed.has_address (sizes_around around.now) (view_place place.now) }
{
    match place {
        Place::Variable { variable, .. } => has_home(around.variables, *variable),
        Place::Object { .. } => true,
        Place::Literal { .. } => true,
        Place::Pointed { .. } => true,
        Place::Arrow { .. } => true,
        Place::Member { place, .. } => has_address(around, place),
        Place::Element { place, .. } => has_address(around, place),
        Place::Subscript { .. } => true,
    }
}

// How many bytes the named object has in which a place lies.
fn named_size(around: &Around, place: &Place) -> Option<u32>
    ensures { result ≡ typed.object_size (sizes_around around.now) (view_place place.now) }
{
    match place {
        Place::Variable { variable, .. } => variable_size(around.variables, *variable),
        Place::Object { object, .. } => object_size(around.objects, object.saturating_sub(1)),
        Place::Literal { .. } => None,
        Place::Pointed { .. } => None,
        Place::Arrow { .. } => None,
        Place::Member { place, .. } => named_size(around, place),
        Place::Element { place, .. } => named_size(around, place),
        Place::Subscript { .. } => None,
    }
}

// A place lies in a named object of so many bytes.
pub(crate) fn lies_in(around: &Around, place: &Place, whole: u32) -> bool
    ensures { result ≡ typed.is_size (typed.object_size (sizes_around around.now) (view_place place.now)) whole }
{
    match named_size(around, place) {
        Some(size) => size == whole,
        None => false,
    }
}

// ---- functions

// A function with this number gives that.
pub(crate) fn gives_this(functions: &[Function], function: u32, gives: Option<PassedType>) -> bool
    ensures { result ≡ typed.gives_this gives (slice_get (signatures functions.now) function) }
{
    match functions.get(function as usize) {
        Some(found) => same_given(found.gives, gives),
        None => false,
    }
}

// The types of a function's parameters.
pub(crate) fn parameters_of(functions: &[Function], function: u32) -> &[PassedType]
    ensures { result.now ≡ typed.parameters_of (slice_get (signatures functions.now) function) }
{
    match functions.get(function as usize) {
        Some(found) => &found.parameters,
        None => &[],
    }
}
