//! The cells of types.

ghost use Rattle.std.specs.Prelude.{◌≡◌, ◌≤◌, ◌+◌, ◌-◌, ◌*◌, ◌++◌, true, IfOk};
ghost use Rattle.c_types.specs.Types.{view, views};
ghost use Rattle.c_types.specs.Layouts.{record_layout, is_sized, are_sized, size_of, cells_of, shifted, repeated, struct_end, struct_cells, greatest_size, cells_of_size, most_bytes};
ghost use Rattle.c_types.specs.Fields.{Within};

use crate::extents::{greatest, next_multiple};
use crate::layouts::Layouts;
use crate::sizes::{POINTER_BYTES, alignment, total_size};
use crate::types::{Cell, RecordKind, Ty};
use std::alloc::{AllocError, Global};

/// The scalars of a type in order of offset: of a union those of its first member of greatest size, of an
/// array those of each element. Padding has none, and neither has what is incomplete.
#[cycle(listing)]
pub fn cells(alloc: Global, type_: &Ty, layouts: &Layouts) -> Result<Vec<Cell>, AllocError>
    requires { is_sized layouts.now.done (view type_.now) ≡ true }
    ensures { IfOk result (λ v. v.items ≡ cells_of layouts.now.done (view type_.now)) }
{
    layouts.prove_built();
    let mut list = Vec::new(alloc);
    append_cells(alloc, &mut list, 0, type_, layouts)?;
    Ok(list)
}

// Behind a list, the cells of a type that begins at an offset.
#[cycle(listing)]
fn append_cells(
    alloc: Global,
    list: &mut Vec<Cell>,
    base: u32,
    type_: &Ty,
    layouts: &Layouts,
) -> Result<(), AllocError>
    requires sized { is_sized layouts.now.done (view type_.now) ≡ true }
    requires room { base + size_of layouts.now.done (view type_.now) ≤ most_bytes }
    ensures { IfOk result (λ _. list.new.items ≡ list.old.items ++ shifted base (cells_of layouts.now.done (view type_.now))) }
{
    layouts.prove_built();
    match type_ {
        Ty::Void => Ok(()),
        Ty::Integer(integer) => {
            list.push(Cell {
                offset: base,
                size: integer.size(),
            })?;
            Ok(())
        }
        Ty::Record(place) => match layouts.parts(*place) {
            None => Ok(()),
            Some((RecordKind::Struct, members)) => {
                append_struct(alloc, list, base, members, layouts)
            }
            Some((RecordKind::Union, members)) => {
                append_union(alloc, list, base, members, layouts)
            }
        },
        Ty::Array { element, length } => {
            append_array(alloc, list, base, element, *length, layouts)
        }
        Ty::Pointer { .. } => {
            list.push(Cell {
                offset: base,
                size: POINTER_BYTES,
            })?;
            Ok(())
        }
        Ty::Function(_) => Ok(()),
    }
}

// Behind a list, the cells of a struct of these members that begins at an offset.
#[cycle(listing)]
fn append_struct(
    alloc: Global,
    list: &mut Vec<Cell>,
    base: u32,
    members: &[Ty],
    layouts: &Layouts,
) -> Result<(), AllocError>
    requires sized { are_sized layouts.now.done (views members.now) ≡ true }
    requires room { base + struct_end (record_layout layouts.now.done) 0 (views members.now) ≤ most_bytes }
    ensures { IfOk result (λ _. list.new.items ≡ list.old.items ++ shifted base (struct_cells (record_layout layouts.now.done) 0 (views members.now))) }
{
    let mut end: u32 = 0;
    for member in members {
        let start = next_multiple(end, alignment(member, layouts)) as u32;
        append_cells(alloc, list, base + start, member, layouts)?;
        end = start + size_or_none(member, layouts);
    }
    Ok(())
}

// Behind a list, the cells of a union of these members that begins at an offset.
#[cycle(listing)]
fn append_union(
    alloc: Global,
    list: &mut Vec<Cell>,
    base: u32,
    members: &[Ty],
    layouts: &Layouts,
) -> Result<(), AllocError>
    requires sized { are_sized layouts.now.done (views members.now) ≡ true }
    requires room { base + greatest_size (record_layout layouts.now.done) (views members.now) ≤ most_bytes }
    ensures { IfOk result (λ _. list.new.items ≡ list.old.items ++ shifted base (cells_of_size (record_layout layouts.now.done) (greatest_size (record_layout layouts.now.done) (views members.now)) (views members.now))) }
{
    let largest = greatest_or_none(members, layouts);
    for member in members {
        if size_or_none(member, layouts) == largest {
            return append_cells(alloc, list, base, member, layouts);
        }
    }
    Ok(())
}

// Behind a list, the cells of so many elements that begin at an offset. Those of one are listed once.
#[cycle(listing)]
fn append_array(
    alloc: Global,
    list: &mut Vec<Cell>,
    base: u32,
    element: &Ty,
    length: u32,
    layouts: &Layouts,
) -> Result<(), AllocError>
    requires sized { is_sized layouts.now.done (view element.now) ≡ true }
    requires room { base + length * size_of layouts.now.done (view element.now) ≤ most_bytes }
    ensures { IfOk result (λ _. list.new.items ≡ list.old.items ++ shifted base (repeated length (size_of layouts.now.done (view element.now)) (cells_of layouts.now.done (view element.now)))) }
{
    if length == 0 {
        return Ok(());
    }
    if length == 1 {
        return append_cells(alloc, list, base, element, layouts);
    }
    let block = cells(alloc, element, layouts)?;
    append_repeated(list, &block, base, size_or_none(element, layouts), length)
}

// The size of a type in bytes, 0 where it is incomplete.
fn size_or_none(type_: &Ty, layouts: &Layouts) -> u32
    requires { is_sized layouts.now.done (view type_.now) ≡ true }
    ensures { result ≡ size_of layouts.now.done (view type_.now) }
{
    match total_size(type_, layouts) {
        Some(size) => size,
        None => 0,
    }
}

// The greatest size of these types in bytes, 0 where there are none.
fn greatest_or_none(members: &[Ty], layouts: &Layouts) -> u32
    requires { are_sized layouts.now.done (views members.now) ≡ true }
    ensures { result ≡ greatest_size (record_layout layouts.now.done) (views members.now) }
{
    match greatest(members, layouts) {
        Some((size, _)) => size,
        None => 0,
    }
}

// Behind a list, the cells of an element as often as said, from an offset on.
fn append_repeated(
    list: &mut Vec<Cell>,
    block: &[Cell],
    base: u32,
    size: u32,
    count: u32,
) -> Result<(), AllocError>
    requires within { Within size block.now }
    requires room { base + count * size ≤ most_bytes }
    ensures { IfOk result (λ _. list.new.items ≡ list.old.items ++ shifted base (repeated count size block.now)) }
{
    if block.is_empty() {
        return Ok(());
    }
    let mut at = base;
    for _element in 0..count {
        append_block(list, block, at)?;
        at += size;
    }
    Ok(())
}

// Behind a list, cells at an offset.
fn append_block(list: &mut Vec<Cell>, block: &[Cell], by: u32) -> Result<(), AllocError>
    requires { Within (most_bytes - by) block.now }
    ensures { IfOk result (λ _. list.new.items ≡ list.old.items ++ shifted by block.now) }
{
    for cell in block {
        list.push(Cell {
            offset: by + cell.offset,
            size: cell.size,
        })?;
    }
    Ok(())
}
