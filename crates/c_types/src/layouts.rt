//! The layouts of structs and unions.

ghost use Rattle.std.specs.Prelude.{◌≡◌, ◌≤◌, ◌<◌, ◌^◌, ◌++◌, ◌∷◌, [], true, false, length, slice_get, None, Some, MatchOption, IfOk, IfErr, OnErr};
ghost use Rattle.c_types.specs.Types.{Completed, view, views};
ghost use Rattle.c_types.specs.Layouts.{is_completed, completed_at, record_layout, are_complete, fits, with_completed, most_bytes, kind_at, members_of, layout_of, IsBuilt, Refuses};
ghost use Rattle.c_types.specs.Fields.{Holds, IsRecord, Extends, completion_of};
ghost use Rattle.c_types.specs.declared.fault.LayoutError.TheVariants as errors;

use crate::extents::{Extent, struct_extent, union_extent};
use crate::fault::LayoutError;
use crate::sizes::is_complete;
use crate::types::{RecordKind, Ty};
use std::alloc::{AllocError, Global};
use std::marker::Model;

/// A completed struct or union, with the offsets of its members.
#[derive(Drop)]
struct Whole {
    place: u32,
    kind: RecordKind,
    members: Vec<Ty>,
    offsets: Vec<u32>,
    size: u32,
    alignment: u32,
}

/// A declared struct or union, and where it stands among the completed ones.
#[derive(Drop)]
struct Declared {
    kind: RecordKind,
    completion: Option<usize>,
}

/// The structs and unions of a file, by place: each is declared, and completed once or never. A completed one
/// has complete members and at most 2,147,483,647 bytes.
#[derive(Drop)]
pub struct Layouts {
    declared: Vec<Declared>,
    completed: Vec<Whole>,
}

impl Model for Layouts {
    ghost use Rattle.c_types.specs.Types.{Records, coded_records};

    ghost Value = { Records };

    ghost coded = { coded_records };

    ghost use Rattle.c_types.specs.Fields.{records_of, IsKept};

    ghost view = { λ l. records_of l.declared.items l.completed.items };

    ghost invariant = { λ l. IsKept l.declared.items l.completed.items };
}

impl Layouts {
    /// Nothing is declared.
    pub fn new(alloc: Global) -> Layouts
        ensures { result ≡ record { declared = []; done = [] } }
    {
        Layouts {
            declared: Vec::new(alloc),
            completed: Vec::new(alloc),
        }
    }

    /// How many structs and unions are declared.
    pub fn len(&self) -> usize
        ensures { result ≡ length self.now.declared }
    {
        self.declared.len()
    }

    /// Each struct and union was completed once, with complete members, and not too large. Computes nothing.
    pub fn prove_built(&self)
        ensures { IsBuilt self.now.done }
    {
        let _ = &self.declared;
    }

    /// Declares a struct or union, incomplete so far, and gives its place (C11 6.7.2.3p4). Where memory is
    /// wanting, nothing changes.
    pub fn declare(&mut self, kind: RecordKind) -> Result<u32, AllocError>
        requires { length self.old.declared < 2 ^ 31 }
        ensures place { IfOk result (λ n. n ≡ length self.old.declared) }
        ensures declared { IfOk result (λ _. self.new ≡ record { declared = self.old.declared ++ kind ∷ []; done = self.old.done }) }
        ensures unchanged { OnErr result (self.new ≡ self.old) }
    {
        let place = self.declared.len() as u32;
        self.declared.push(Declared {
            kind,
            completion: None,
        })?;
        Ok(place)
    }

    /// Whether the record at a place is a struct or a union.
    pub fn kind(&self, place: u32) -> RecordKind
        requires { place < length self.now.declared }
        ensures { result ≡ kind_at self.now place }
    {
        self.declared[place as usize].kind
    }

    // What is kept of a completed record.
    fn found(&self, place: u32) -> Option<&Whole>
        ensures { MatchOption result (completed_at self.now.done place ≡ None) (λ w. Holds self.now.done place w.now) }
    {
        match completion_of(&self.declared, place) {
            None => None,
            Some(index) => whole_at(&self.completed, index),
        }
    }

    /// Whether the record at a place is completed.
    #[tactic(auto, using(crate::proofs::Kept::completed_held, crate::proofs::Kept::incomplete_held))]
    pub fn is_completed(&self, place: u32) -> bool
        ensures { result ≡ is_completed self.now.done place }
    {
        match self.found(place) {
            Some(_) => true,
            None => false,
        }
    }

    /// The types of the members of the record at a place in order, none where it is incomplete.
    #[tactic(auto, using(crate::proofs::Kept::members_held, crate::proofs::Kept::no_members))]
    pub fn members(&self, place: u32) -> &[Ty]
        ensures { views result.now ≡ members_of self.now.done place }
    {
        match self.found(place) {
            Some(whole) => &whole.members,
            None => &[],
        }
    }

    /// Whether the record at a place is a struct or a union, and the types of its members. None where it is
    /// incomplete.
    pub fn parts(&self, place: u32) -> Option<(RecordKind, &[Ty])>
        ensures { MatchOption result (completed_at self.now.done place ≡ None) (λ p. IsRecord self.now.done place p.0 (views p.1.now)) }
    {
        match self.found(place) {
            Some(whole) => Some((whole.kind, &whole.members)),
            None => None,
        }
    }

    /// The offsets of the members of the record at a place in order, none where it is incomplete.
    #[tactic(auto, using(crate::proofs::Kept::none_offsets))]
    pub fn offsets(&self, place: u32) -> &[u32]
        ensures { result.now ≡ (record_layout self.now.done place).offsets }
    {
        match self.found(place) {
            Some(whole) => &whole.offsets,
            None => &[],
        }
    }

    /// A member of the record at a place: its type and its offset.
    pub fn member(&self, place: u32, index: usize) -> (&Ty, u32)
        requires { index < length (members_of self.now.done place) }
        ensures type_ { slice_get (members_of self.now.done place) index ≡ Some (view result.0.now) }
        ensures offset { slice_get (record_layout self.now.done place).offsets index ≡ Some result.1 }
    {
        (&self.members(place)[index], self.offsets(place)[index])
    }

    /// The layout of a completed record is that of its members, by the layouts of all records that are
    /// completed now. Computes nothing.
    pub fn prove_layout(&self, place: u32)
        ensures { (c : Completed) → completed_at self.now.done place ≡ Some c → record_layout self.now.done place ≡ layout_of (record_layout self.now.done) c.kind c.members }
    {
        let _ = &self.declared;
    }

    /// The size of the record at a place in bytes, 0 where it is incomplete.
    #[tactic(auto, using(crate::proofs::Kept::none_size, crate::proofs::Kept::small_held))]
    pub fn record_size(&self, place: u32) -> u32
        ensures is { result ≡ (record_layout self.now.done place).size }
        ensures small { result ≤ most_bytes }
    {
        self.prove_built();
        match self.found(place) {
            Some(whole) => whole.size,
            None => 0,
        }
    }

    /// The alignment of the record at a place in bytes, 1 where it is incomplete.
    #[tactic(auto, using(crate::proofs::Kept::none_alignment, crate::proofs::Kept::positive_held))]
    pub fn record_alignment(&self, place: u32) -> u32
        ensures is { result ≡ (record_layout self.now.done place).alignment }
        ensures positive { 1 ≤ result }
    {
        match self.found(place) {
            Some(whole) => whole.alignment,
            None => 1,
        }
    }

    /// Completes the struct or union at a place with these members (C11 6.7.2.1p8), and computes its layout.
    /// It is refused where a member is incomplete, or where the record, or an array within a member, has
    /// more than 2,147,483,647 bytes; then, and where memory is wanting, nothing changes.
    pub fn complete(
        &mut self,
        alloc: Global,
        place: u32,
        members: Vec<Ty>,
    ) -> Result<(), LayoutError>
        requires declared { place < length self.old.declared }
        requires incomplete { is_completed self.old.done place ≡ false }
        ensures complete { IfOk result (λ _. are_complete self.old.done (views members.items) ≡ true) }
        ensures fits { IfOk result (λ _. fits self.old.done (kind_at self.old place) (views members.items) ≡ true) }
        ensures completed { IfOk result (λ _. self.new ≡ with_completed self.old place (kind_at self.old place) (views members.items)) }
        ensures refused { IfErr result (Refuses self.old.done (kind_at self.old place) (views members.items)) }
        ensures unchanged { OnErr result (self.new ≡ self.old) }
    {
        if !all_complete(&members, self) {
            return Err(LayoutError::Incomplete);
        }
        let kind = self.kind(place);
        let extent = match kind {
            RecordKind::Struct => struct_extent(alloc, &members, self)?,
            RecordKind::Union => union_extent(alloc, &members, self)?,
        };
        self.put(place, kind, members, extent)?;
        Ok(())
    }

    // Keeps a completed record.
    fn put(
        &mut self,
        place: u32,
        kind: RecordKind,
        members: Vec<Ty>,
        extent: Extent,
    ) -> Result<(), LayoutError>
        requires declared { place < length self.old.declared }
        requires kind { kind ≡ kind_at self.old place }
        requires incomplete { is_completed self.old.done place ≡ false }
        requires complete { are_complete self.old.done (views members.items) ≡ true }
        requires fits { fits self.old.done kind (views members.items) ≡ true }
        requires extent { Extends (layout_of (record_layout self.old.done) kind (views members.items)) extent }
        ensures completed { IfOk result (λ _. self.new ≡ with_completed self.old place kind (views members.items)) }
        ensures memory { IfErr result (λ e. e ≡ errors.Memory) }
        ensures unchanged { OnErr result (self.new ≡ self.old) }
    {
        let index = self.completed.len();
        self.completed.push(Whole {
            place,
            kind,
            members,
            offsets: extent.offsets,
            size: extent.size,
            alignment: extent.alignment,
        })?;
        self.declared[place as usize].completion = Some(index);
        Ok(())
    }
}

// Whether each of these types is complete.
fn all_complete(members: &[Ty], layouts: &Layouts) -> bool
    ensures { result ≡ are_complete layouts.now.done (views members.now) }
{
    for member in members {
        if !is_complete(member, layouts) {
            return false;
        }
    }
    true
}

// Where a record stands among the completed ones.
fn completion_of(declared: &[Declared], place: u32) -> Option<usize>
    ensures { result ≡ completion_of declared.now place }
{
    match declared.get(place as usize) {
        Some(record) => record.completion,
        None => None,
    }
}

// The completed record of that number.
fn whole_at(whole: &[Whole], index: usize) -> Option<&Whole>
    ensures { MatchOption result (slice_get whole.now index ≡ None) (λ w. slice_get whole.now index ≡ Some w.now) }
{
    whole.get(index)
}
