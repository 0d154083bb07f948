//! The layouts of structs and unions.

ghost use Rattle.std.specs.Prelude.{ℕ, ◌≡◌, ◌≤◌, ◌<◌, ◌^◌, max, [], true, false, ⊤, MatchOption, IfOk, IfErr, OnErr};
ghost use Rattle.c_types.specs.declared.types.RecordKind.TheVariants as kinds;
ghost use Rattle.c_types.specs.Types.{view, views};
ghost use Rattle.c_types.specs.Layouts.{record_layout, layout_of, are_sized, fits, padded, zeros, greatest_size, greatest_alignment, most_bytes, IsLeastMultiple};
ghost use Rattle.c_types.specs.Fields.{Extends, Adds, RefusesMember, RefusesSize};

use crate::fault::LayoutError;
use crate::layouts::Layouts;
use crate::sizes::{MOST_BYTES, alignment, total_size};
use crate::types::Ty;
use std::alloc::{AllocError, Global};

/// How a struct or union lies in memory.
#[derive(Drop)]
pub struct Extent {
    pub offsets: Vec<u32>,
    pub size: u32,
    pub alignment: u32,
}

// The members of a struct so far: their offsets, the end of the last, and the greatest alignment.
#[derive(Drop)]
struct Filled {
    offsets: Vec<u32>,
    end: u32,
    alignment: u32,
}

/// The least multiple of an alignment at or above an offset.
pub fn next_multiple(offset: u32, alignment: u32) -> u64
    requires { 1 ≤ alignment }
    ensures { result ≡ padded offset alignment }
{
    let over = offset % alignment;
    if over == 0 {
        offset as u64
    } else {
        offset as u64 + (alignment - over) as u64
    }
}

impl Filled {
    // Lays one more member behind the others.
    fn add(&mut self, member: &Ty, layouts: &Layouts) -> Result<(), LayoutError>
        ensures added { IfOk result (λ _. Adds layouts.now.done (view member.now) self.old self.new) }
        ensures refused { IfErr result (RefusesMember layouts.now.done (view member.now) self.old) }
    {
        let Some(size) = total_size(member, layouts) else {
            return Err(LayoutError::TooLarge);
        };
        let own = alignment(member, layouts);
        let start = next_multiple(self.end, own);
        let end = start + size as u64;
        if end > MOST_BYTES as u64 {
            return Err(LayoutError::TooLarge);
        }
        self.offsets.push(start as u32)?;
        self.end = end as u32;
        self.alignment = self.alignment.max(own);
        Ok(())
    }
}

/// The layout of a struct of these members.
pub fn struct_extent(
    alloc: Global,
    members: &[Ty],
    layouts: &Layouts,
) -> Result<Extent, LayoutError>
    ensures fits { IfOk result (λ _. fits layouts.now.done kinds.Struct (views members.now) ≡ true) }
    ensures extent { IfOk result (Extends (layout_of (record_layout layouts.now.done) kinds.Struct (views members.now))) }
    ensures refused { IfErr result (RefusesSize layouts.now.done kinds.Struct (views members.now)) }
{
    let mut filled = Filled {
        offsets: Vec::new(alloc),
        end: 0,
        alignment: 1,
    };
    for member in members {
        if let Err(refusal) = filled.add(member, layouts) {
            return Err(refusal);
        }
    }
    let size = next_multiple(filled.end, filled.alignment);
    if size > MOST_BYTES as u64 {
        return Err(LayoutError::TooLarge);
    }
    Ok(Extent {
        offsets: filled.offsets,
        size: size as u32,
        alignment: filled.alignment,
    })
}

/// The greatest of the sizes and the greatest of the alignments of these types. None where one is too large.
pub fn greatest(members: &[Ty], layouts: &Layouts) -> Option<(u32, u32)>
    ensures sized { MatchOption result (are_sized layouts.now.done (views members.now) ≡ false) (λ _. are_sized layouts.now.done (views members.now) ≡ true) }
    ensures size { MatchOption result ⊤ (λ g. g.0 ≡ greatest_size (record_layout layouts.now.done) (views members.now)) }
    ensures alignment { MatchOption result ⊤ (λ g. g.1 ≡ greatest_alignment (record_layout layouts.now.done) (views members.now)) }
    ensures positive { MatchOption result ⊤ (λ g. 1 ≤ g.1) }
{
    let mut size = 0;
    let mut own = 1;
    for member in members {
        let Some(bytes) = total_size(member, layouts) else {
            return None;
        };
        size = size.max(bytes);
        own = own.max(alignment(member, layouts));
    }
    Some((size, own))
}

/// The layout of a union of these members.
pub fn union_extent(alloc: Global, members: &[Ty], layouts: &Layouts) -> Result<Extent, LayoutError>
    ensures fits { IfOk result (λ _. fits layouts.now.done kinds.Union (views members.now) ≡ true) }
    ensures extent { IfOk result (Extends (layout_of (record_layout layouts.now.done) kinds.Union (views members.now))) }
    ensures refused { IfErr result (RefusesSize layouts.now.done kinds.Union (views members.now)) }
{
    let Some((largest, alignment)) = greatest(members, layouts) else {
        return Err(LayoutError::TooLarge);
    };
    let size = next_multiple(largest, alignment);
    if size > MOST_BYTES as u64 {
        return Err(LayoutError::TooLarge);
    }
    let offsets = no_offsets(alloc, members)?;
    Ok(Extent {
        offsets,
        size: size as u32,
        alignment,
    })
}

// A 0 for each member.
fn no_offsets(alloc: Global, members: &[Ty]) -> Result<Vec<u32>, AllocError>
    ensures { IfOk result (λ v. v.items ≡ zeros (views members.now)) }
{
    let mut offsets = Vec::new(alloc);
    for _member in members {
        offsets.push(0)?;
    }
    Ok(offsets)
}

/// What comes before a member, and behind the last one, is padding up to the next multiple of an alignment.
/// Computes nothing.
pub fn prove_padded()
    ensures { (offset alignment : ℕ) → 1 ≤ alignment → IsLeastMultiple offset alignment (padded offset alignment) }
{}
