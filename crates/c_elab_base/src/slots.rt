//! The objects that items in braces initialize.

ghost use Rattle.std.specs.Prelude.{◌≡◌, true, false, option_map, IfOk, IsErr};
ghost use Rattle.c_types.specs.Types.{view, aggregate, array};
ghost use Rattle.c_types.specs.Layouts.{kind_at, is_complete, is_sized, size_of};
ghost use Rattle.c_elab_base.specs.Slots.{has_item, slot};

use c_scope::member_at;
use c_types::{Layouts, RecordKind, Ty, is_complete, is_sized, size_of};
use std::alloc::AllocError;

// More items than this have no memory.
const ITEMS: usize = 0x7fff_ffff;

/// The record at a place is a struct or a union.
pub fn kind_at(place: u32, layouts: &Layouts) -> RecordKind
    ensures { result ≡ kind_at layouts.now place }
{
    if (place as usize) < layouts.len() {
        layouts.kind(place)
    } else {
        RecordKind::Struct
    }
}

/// The bytes of an object's type. It is complete and not too large, so that no other answer comes. It takes no memory.
pub fn object_bytes(type_: &Ty, layouts: &Layouts) -> Result<u32, AllocError>
    ensures size { IfOk result (λ n. n ≡ size_of layouts.now.done (view type_.now)) }
    ensures cause { IsErr result → is_complete layouts.now.done (view type_.now) ≡ true → is_sized layouts.now.done (view type_.now) ≡ false }
{
    if !is_complete(type_, layouts) || !is_sized(type_, layouts) {
        return Err(AllocError);
    }
    match size_of(type_, layouts) {
        Ok(size) => Ok(size),
        Err(_) => Err(AllocError),
    }
}

fn has_item(kind: RecordKind, number: usize) -> bool
    ensures { result ≡ has_item kind number }
{
    match kind {
        RecordKind::Struct => true,
        RecordKind::Union => number == 0,
    }
}

// A member of a struct, or the first of a union.
fn record_slot(
    place: u32,
    number: usize,
    layouts: &Layouts,
) -> Result<Option<(&Ty, u32)>, AllocError>
    ensures { IfOk result (λ o. option_map (λ p. (view p.0.now, p.1)) o ≡ slot layouts.now (aggregate place) number) }
{
    if !has_item(kind_at(place, layouts), number) {
        return Ok(None);
    }
    if number > ITEMS {
        return Err(AllocError);
    }
    Ok(member_at(&Ty::Record(place), number as u32, layouts))
}

// An element of an array.
fn array_slot<'a>(
    element: &'a Ty,
    length: u32,
    number: usize,
    layouts: &Layouts,
) -> Result<Option<(&'a Ty, u32)>, AllocError>
    ensures { IfOk result (λ o. option_map (λ p. (view p.0.now, p.1)) o ≡ slot layouts.now (array (view element.now) length) number) }
{
    if number >= length as usize {
        return Ok(None);
    }
    let size = object_bytes(element, layouts)?;
    match (number as u32).checked_mul(size) {
        Some(offset) => Ok(Some((element, offset))),
        None => Err(AllocError),
    }
}

/// The type and the offset of the object that the item with a number is for, in an object of this type.
pub fn slot<'a>(
    type_: &'a Ty,
    number: usize,
    layouts: &'a Layouts,
) -> Result<Option<(&'a Ty, u32)>, AllocError>
    ensures { IfOk result (λ o. option_map (λ p. (view p.0.now, p.1)) o ≡ slot layouts.now (view type_.now) number) }
{
    match type_ {
        Ty::Void => Ok(None),
        Ty::Integer(_) => Ok(None),
        Ty::Record(place) => record_slot(*place, number, layouts),
        Ty::Array { element, length } => array_slot(element, *length, number, layouts),
        Ty::Pointer { .. } => Ok(None),
        Ty::Function(_) => Ok(None),
    }
}
