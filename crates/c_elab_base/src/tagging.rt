//! Tags, and the structs and unions that they are about.

ghost use Rattle.std.specs.Prelude.{◌≡◌, ◌≤◌, ◌<◌, length, option_map, false, Ok, IfOk, OnOk};
ghost use Rattle.c_tree.specs.Tree.{view_name};
ghost use Rattle.c_types.specs.Types.{view};
ghost use Rattle.c_types.specs.Layouts.{is_completed};
ghost use Rattle.c_scope.specs.Members.{view_fields};
ghost use Rattle.c_scope.specs.Scopes.{plain, view_named};
ghost use Rattle.c_scope.specs.Faults.{GivesNode};
ghost use Rattle.c_elab_base.specs.Regions.{earlier_tag};
ghost use Rattle.c_elab_base.specs.Tags.{kind_of, is_kind, with_record, with_tagged, new_tag, tag_named, forward_tag, new_record, open_tag, opened, reopened, closed_type, completed, closed, enumeration_closed, view_opened, GivesNamed};

use crate::regions::{Region, earlier_tag};
use crate::slots::kind_at;
use c_scope::{Broken, Field, Meaning, QualifiedType, Scope, tag_type};
use c_tree::{Name, TagKind};
use c_types::{IntegerType, LayoutError, RecordKind, Ty};
use std::alloc::{AllocError, Global};

// More structs and unions than this have no memory.
const RECORDS: usize = 0x7fff_ffff;

/// Which struct or union braces are about: its place, and whether its tag stands for something else in this scope.
#[derive(Clone, Copy)]
pub struct Braces {
    pub place: u32,
    pub clashes: bool,
}

/// Whether this is a struct or a union.
pub fn kind_of(kind: c_tree::RecordKind) -> RecordKind
    ensures { result ≡ kind_of kind }
{
    match kind {
        c_tree::RecordKind::Struct => RecordKind::Struct,
        c_tree::RecordKind::Union => RecordKind::Union,
    }
}

fn is_kind(a: RecordKind, b: RecordKind) -> bool
    ensures { result ≡ is_kind a b }
{
    match (a, b) {
        (RecordKind::Struct, RecordKind::Struct) => true,
        (RecordKind::Struct, RecordKind::Union) => false,
        (RecordKind::Union, RecordKind::Struct) => false,
        (RecordKind::Union, RecordKind::Union) => true,
    }
}

fn plain(type_: Ty) -> QualifiedType
    ensures { view_named result ≡ plain (view type_) }
{
    QualifiedType {
        type_,
        constant: false,
    }
}

// One more struct or union, and its place.
fn add_record(alloc: Global, kind: RecordKind, scope: &mut Scope) -> Result<u32, AllocError>
    ensures place { IfOk result (λ p. p ≡ length scope.old.records.declared) }
    ensures scope { OnOk result (scope.new ≡ with_record scope.old kind) }
{
    if scope.layouts().len() > RECORDS {
        return Err(AllocError);
    }
    scope.declare_record(alloc, kind)
}

// One more struct or union with its tag, and its place.
fn add_tagged(
    alloc: Global,
    kind: RecordKind,
    name: &[u8],
    scope: &mut Scope,
) -> Result<u32, AllocError>
    ensures place { IfOk result (λ p. p ≡ length scope.old.records.declared) }
    ensures scope { OnOk result (scope.new ≡ with_tagged scope.old kind name.now) }
{
    let place = add_record(alloc, kind, scope)?;
    scope.declare(alloc, name, Meaning::Record { place })?;
    Ok(place)
}

// A tag without a declaration in scope.
fn new_tag(
    alloc: Global,
    kind: TagKind,
    name: &[u8],
    scope: &mut Scope,
) -> Result<Result<QualifiedType, Broken>, AllocError>
    ensures named { IfOk result (λ x. GivesNamed x (new_tag scope.old kind name.now)) }
    ensures scope { OnOk result (scope.new ≡ (new_tag scope.old kind name.now).1) }
{
    match kind {
        TagKind::Struct => {
            let place = add_tagged(alloc, RecordKind::Struct, name, scope)?;
            Ok(Ok(plain(Ty::Record(place))))
        }
        TagKind::Union => {
            let place = add_tagged(alloc, RecordKind::Union, name, scope)?;
            Ok(Ok(plain(Ty::Record(place))))
        }
        TagKind::Enum => Ok(Err(Broken::Rule { rule: 3 })),
    }
}

/// What a tag without braces names in a declaration.
pub fn tag_named(
    alloc: Global,
    kind: TagKind,
    name: &[u8],
    scope: &mut Scope,
) -> Result<Result<QualifiedType, Broken>, AllocError>
    ensures named { IfOk result (λ x. GivesNamed x (tag_named scope.old kind name.now)) }
    ensures scope { OnOk result (scope.new ≡ (tag_named scope.old kind name.now).1) }
{
    match scope.tag(name) {
        Some(meaning) => Ok(tag_type(kind, meaning, scope)),
        None => new_tag(alloc, kind, name, scope),
    }
}

/// `struct tag;` alone declares the tag in this scope.
pub fn forward_tag(
    alloc: Global,
    kind: TagKind,
    name: &[u8],
    region: Region,
    scope: &mut Scope,
) -> Result<(), AllocError>
    requires { region.outer ≤ length scope.old.bindings }
    ensures { OnOk result (scope.new ≡ forward_tag scope.old kind name.now (earlier_tag region scope.old name.now)) }
{
    match earlier_tag(name, region, scope) {
        Some(_) => Ok(()),
        None => {
            let _named = new_tag(alloc, kind, name, scope)?;
            Ok(())
        }
    }
}

// A struct or union without a tag.
fn new_record(
    alloc: Global,
    clashes: bool,
    kind: RecordKind,
    scope: &mut Scope,
) -> Result<Braces, AllocError>
    ensures { IfOk result (λ b. view_opened b scope.new ≡ new_record clashes scope.old kind) }
{
    let place = add_record(alloc, kind, scope)?;
    Ok(Braces { place, clashes })
}

// The one that this scope has of the tag, or a new one.
fn open_tag(
    alloc: Global,
    kind: RecordKind,
    name: &[u8],
    earlier: Option<Meaning>,
    scope: &mut Scope,
) -> Result<Braces, AllocError>
    ensures { IfOk result (λ b. view_opened b scope.new ≡ open_tag scope.old kind name.now earlier) }
{
    match earlier {
        None => {
            let place = add_tagged(alloc, kind, name, scope)?;
            Ok(Braces {
                place,
                clashes: false,
            })
        }
        Some(Meaning::Record { place }) => {
            if is_kind(kind_at(place, scope.layouts()), kind) {
                Ok(Braces {
                    place,
                    clashes: false,
                })
            } else {
                new_record(alloc, true, kind, scope)
            }
        }
        Some(_) => new_record(alloc, true, kind, scope),
    }
}

/// Which struct or union braces with an optional tag are about.
pub fn opened(
    alloc: Global,
    kind: RecordKind,
    tag: &Option<Name>,
    region: Region,
    scope: &mut Scope,
) -> Result<Braces, AllocError>
    requires { region.outer ≤ length scope.old.bindings }
    ensures is { IfOk result (λ b. view_opened b scope.new ≡ opened region scope.old kind (option_map view_name tag.now)) }
    ensures there { IfOk result (λ b. b.place < length scope.new.records.declared) }
    ensures grows { OnOk result (length scope.old.records.declared ≤ length scope.new.records.declared) }
{
    match tag {
        None => new_record(alloc, false, kind, scope),
        Some(name) => {
            let earlier = earlier_tag(&name.bytes, region, scope);
            open_tag(alloc, kind, &name.bytes, earlier, scope)
        }
    }
}

/// The struct or union that gets the members: where that of the braces is complete already, it is another one.
pub fn reopened(
    alloc: Global,
    braces: Braces,
    kind: RecordKind,
    scope: &mut Scope,
) -> Result<Braces, AllocError>
    requires { braces.place < length scope.old.records.declared }
    ensures is { IfOk result (λ b. view_opened b scope.new ≡ reopened braces.place braces.clashes kind scope.old) }
    ensures there { IfOk result (λ b. b.place < length scope.new.records.declared) }
    ensures grows { OnOk result (length scope.old.records.declared ≤ length scope.new.records.declared) }
{
    if !scope.layouts().is_completed(braces.place) {
        return Ok(braces);
    }
    let another = new_record(alloc, true, kind, scope)?;
    Ok(another)
}

fn closed_type(braces: Braces) -> Result<QualifiedType, Broken>
    ensures { GivesNode view_named result (closed_type braces.clashes braces.place (Ok tt)) }
{
    if braces.clashes {
        Err(Broken::Rule { rule: 18 })
    } else {
        Ok(plain(Ty::Record(braces.place)))
    }
}

// Completes a struct or union that isn't complete.
fn completed(
    alloc: Global,
    braces: Braces,
    fields: &[Field],
    scope: &mut Scope,
) -> Result<Result<QualifiedType, Broken>, AllocError>
    requires there { braces.place < length scope.old.records.declared }
    requires incomplete { is_completed scope.old.records.done braces.place ≡ false }
    ensures named { IfOk result (λ x. GivesNamed x (completed (view_opened braces scope.old) (view_fields fields.now))) }
    ensures scope { OnOk result (scope.new ≡ (completed (view_opened braces scope.old) (view_fields fields.now)).1) }
    ensures grows { OnOk result (length scope.old.records.declared ≤ length scope.new.records.declared) }
{
    if fields.is_empty() {
        return Ok(Err(Broken::Rule { rule: 3 }));
    }
    match scope.complete_record(alloc, braces.place, fields) {
        Ok(()) => Ok(closed_type(braces)),
        Err(LayoutError::Incomplete) => Ok(Err(Broken::Rule { rule: 3 })),
        Err(LayoutError::TooLarge) => Ok(Err(Broken::Rule { rule: 4 })),
        Err(LayoutError::NoElements) => Err(AllocError),
        Err(LayoutError::Memory) => Err(AllocError),
    }
}

/// Completes a struct or union, behind the braces.
pub fn closed(
    alloc: Global,
    braces: Braces,
    fields: &[Field],
    scope: &mut Scope,
) -> Result<Result<QualifiedType, Broken>, AllocError>
    requires { braces.place < length scope.old.records.declared }
    ensures named { IfOk result (λ x. GivesNamed x (closed (view_opened braces scope.old) (view_fields fields.now))) }
    ensures scope { OnOk result (scope.new ≡ (closed (view_opened braces scope.old) (view_fields fields.now)).1) }
    ensures grows { OnOk result (length scope.old.records.declared ≤ length scope.new.records.declared) }
{
    if scope.layouts().is_completed(braces.place) {
        Ok(Err(Broken::Rule { rule: 18 }))
    } else {
        completed(alloc, braces, fields, scope)
    }
}

/// What an enumeration in braces names, behind them.
pub fn enumeration_closed(
    alloc: Global,
    tag: &Option<Name>,
    region: Region,
    scope: &mut Scope,
) -> Result<Result<QualifiedType, Broken>, AllocError>
    requires { region.outer ≤ length scope.old.bindings }
    ensures named { IfOk result (λ x. GivesNamed x (enumeration_closed region scope.old (option_map view_name tag.now))) }
    ensures scope { OnOk result (scope.new ≡ (enumeration_closed region scope.old (option_map view_name tag.now)).1) }
{
    match tag {
        None => Ok(Ok(plain(Ty::Integer(IntegerType::Int)))),
        Some(name) => match earlier_tag(&name.bytes, region, scope) {
            Some(_) => Ok(Err(Broken::Rule { rule: 18 })),
            None => {
                scope.declare(alloc, &name.bytes, Meaning::Enumeration)?;
                Ok(Ok(plain(Ty::Integer(IntegerType::Int))))
            }
        },
    }
}
