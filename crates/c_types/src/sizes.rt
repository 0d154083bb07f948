//! Sizes and alignments of types.

ghost use Rattle.std.specs.Prelude.{ℕ, ◌≡◌, ◌↔◌, ◌≤◌, ◌<◌, ◌+◌, ◌*◌, true, false, ⊤, MatchOption, MatchResult, IfOk, IfErr};
ghost use Rattle.c_types.specs.Types.{view, array};
ghost use Rattle.c_types.specs.Layouts.{is_complete, is_sized, size_of, alignment_of, most_bytes, RefusesArray};

use crate::fault::{Incomplete, LayoutError};
use crate::layouts::Layouts;
use crate::types::Ty;
use std::alloc::Global;
use std::rc::Rc;

/// No type has more bytes.
pub const MOST_BYTES: u32 = 2_147_483_647;

/// The bytes of a pointer; its alignment too.
pub const POINTER_BYTES: u32 = 8;

/// Whether a type is that of complete objects (C11 6.2.5p1, p19, p22), which a function's isn't.
pub fn is_complete(type_: &Ty, layouts: &Layouts) -> bool
    ensures { result ≡ is_complete layouts.now.done (view type_.now) }
{
    let mut inner = type_;
    loop {
        match inner {
            Ty::Void => return false,
            Ty::Integer(_) => return true,
            Ty::Record(place) => return layouts.is_completed(*place),
            Ty::Array { element, .. } => inner = element,
            Ty::Pointer { .. } => return true,
            Ty::Function(_) => return false,
        }
    }
}

// A number of arrays of so many elements, or one above the most bytes where there are more elements than that.
fn elements(count: u64, length: u32) -> u64
    requires { count ≤ most_bytes + 1 }
    ensures small { result ≤ most_bytes + 1 }
    ensures keeps { (size : ℕ) → (result * size ≤ most_bytes) ↔ (count * (length * size) ≤ most_bytes) }
    ensures same { (size : ℕ) → count * (length * size) ≤ most_bytes → result * size ≡ count * (length * size) }
{
    let all = count * length as u64;
    if all > MOST_BYTES as u64 {
        MOST_BYTES as u64 + 1
    } else {
        all
    }
}

// The most elements within one array, where so many arrays of so many elements are within one, perhaps none.
fn most_elements(count: u64, length: u32) -> u64
    requires { count ≤ most_bytes + 1 }
    ensures small { result ≤ most_bytes + 1 }
    ensures keeps { (size : ℕ) → (result * size ≤ most_bytes) ↔ ((length * size ≤ most_bytes) × (count * (length * size) ≤ most_bytes)) }
{
    if count == 0 {
        elements(1, length)
    } else {
        elements(count, length)
    }
}

// The bytes of all elements of one size. None where the most within one array have too many.
fn bytes_of(all: u64, most: u64, size: u32) -> Option<u32>
    requires counts { (all ≤ most_bytes + 1) × (most ≤ most_bytes + 1) }
    requires small { size ≤ most_bytes }
    requires within { most * size ≤ most_bytes → all * size ≤ most_bytes }
    ensures fits { MatchOption result (most_bytes < most * size) (λ _. most * size ≤ most_bytes) }
    ensures size { MatchOption result ⊤ (λ s. s ≡ all * size) }
    ensures within { MatchOption result ⊤ (λ s. s ≤ most_bytes) }
{
    if most * size as u64 > MOST_BYTES as u64 {
        return None;
    }
    Some((all * size as u64) as u32)
}

/// The bytes of a type, 0 where it is incomplete. None where an array within has too many.
pub fn total_size(type_: &Ty, layouts: &Layouts) -> Option<u32>
    ensures sized { MatchOption result (is_sized layouts.now.done (view type_.now) ≡ false) (λ _. is_sized layouts.now.done (view type_.now) ≡ true) }
    ensures size { MatchOption result ⊤ (λ s. s ≡ size_of layouts.now.done (view type_.now)) }
    ensures small { MatchOption result ⊤ (λ s. s ≤ most_bytes) }
{
    layouts.prove_built();
    let mut inner = type_;
    let mut all: u64 = 1;
    let mut most: u64 = 1;
    loop {
        match inner {
            Ty::Void => return bytes_of(all, most, 0),
            Ty::Integer(integer) => return bytes_of(all, most, integer.size()),
            Ty::Record(place) => return bytes_of(all, most, layouts.record_size(*place)),
            Ty::Array { element, length } => {
                all = elements(all, *length);
                most = most_elements(most, *length);
                inner = element;
            }
            Ty::Pointer { .. } => return bytes_of(all, most, POINTER_BYTES),
            Ty::Function(_) => return bytes_of(all, most, 0),
        }
    }
}

/// The alignment of a type, 1 where it is incomplete.
pub fn alignment(type_: &Ty, layouts: &Layouts) -> u32
    ensures is { result ≡ alignment_of layouts.now.done (view type_.now) }
    ensures positive { 1 ≤ result }
{
    let mut inner = type_;
    loop {
        match inner {
            Ty::Void => return 1,
            Ty::Integer(integer) => return integer.size(),
            Ty::Record(place) => return layouts.record_alignment(*place),
            Ty::Array { element, .. } => inner = element,
            Ty::Pointer { .. } => return POINTER_BYTES,
            Ty::Function(_) => return 1,
        }
    }
}

/// Whether no array within a type has more than 2,147,483,647 bytes.
pub fn is_sized(type_: &Ty, layouts: &Layouts) -> bool
    ensures { result ≡ is_sized layouts.now.done (view type_.now) }
{
    total_size(type_, layouts).is_some()
}

/// The size of a type in bytes. It takes no memory.
pub fn size_of(type_: &Ty, layouts: &Layouts) -> Result<u32, Incomplete>
    requires { is_sized layouts.now.done (view type_.now) ≡ true }
    ensures complete { MatchResult result (λ _. is_complete layouts.now.done (view type_.now) ≡ true) (λ _. is_complete layouts.now.done (view type_.now) ≡ false) }
    ensures size { IfOk result (λ s. s ≡ size_of layouts.now.done (view type_.now)) }
    ensures small { IfOk result (λ s. s ≤ most_bytes) }
{
    if !is_complete(type_, layouts) {
        return Err(Incomplete);
    }
    match total_size(type_, layouts) {
        Some(size) => Ok(size),
        None => Err(Incomplete),
    }
}

/// The alignment of a type in bytes. It takes no memory.
pub fn align_of(type_: &Ty, layouts: &Layouts) -> Result<u32, Incomplete>
    ensures complete { MatchResult result (λ _. is_complete layouts.now.done (view type_.now) ≡ true) (λ _. is_complete layouts.now.done (view type_.now) ≡ false) }
    ensures alignment { IfOk result (λ a. a ≡ alignment_of layouts.now.done (view type_.now)) }
    ensures positive { IfOk result (λ a. 1 ≤ a) }
{
    if is_complete(type_, layouts) {
        Ok(alignment(type_, layouts))
    } else {
        Err(Incomplete)
    }
}

impl Ty {
    /// The array of so many elements (C11 6.2.5p20). It is refused where the element is incomplete, where
    /// there are none, and where it has more than 2,147,483,647 bytes.
    pub fn array(
        alloc: Global,
        element: Ty,
        length: u32,
        layouts: &Layouts,
    ) -> Result<Ty, LayoutError>
        ensures is { IfOk result (λ t. view t ≡ array (view element) length) }
        ensures complete { IfOk result (λ _. is_complete layouts.now.done (view element) ≡ true) }
        ensures some { IfOk result (λ _. 1 ≤ length) }
        ensures sized { IfOk result (λ _. is_sized layouts.now.done (array (view element) length) ≡ true) }
        ensures refused { IfErr result (RefusesArray layouts.now.done (view element) length) }
    {
        if !is_complete(&element, layouts) {
            return Err(LayoutError::Incomplete);
        }
        if length == 0 {
            return Err(LayoutError::NoElements);
        }
        let Some(size) = total_size(&element, layouts) else {
            return Err(LayoutError::TooLarge);
        };
        if length as u64 * size as u64 > MOST_BYTES as u64 {
            return Err(LayoutError::TooLarge);
        }
        let element = Rc::new(alloc, element)?;
        Ok(Ty::Array { element, length })
    }
}
