//! The members that `.` finds in structs and unions by their names.

ghost use Rattle.std.specs.Prelude.{◌≡◌, ◌||◌, false, [], ◌∷◌, map, option_map, IfOk, OnOk};
ghost use Rattle.c_types.specs.Types.{view, views, aggregate};
ghost use Rattle.c_types.specs.Layouts.{are_complete};
ghost use Rattle.c_scope.specs.Members.{Member, Members, view_field, view_fields, field_types, no_members, members_in, through, ways_of, named_of, among, with_member, with_members, named_from, has_constant, members_by, found, member_in, part_at, view_way, view_ways, view_members, view_tables};
ghost use Rattle.c_scope.specs.Faults.{required, GivesNode};

use crate::fault::Broken;
use c_types::{Layouts, Ty, is_complete};
use indexmap::IndexMap;
use std::alloc::{AllocError, Global};

// More members than this have no memory.
const FIELDS: usize = 0x7fff_ffff;

/// A member as it is declared: an anonymous struct or union has no name.
#[derive(Drop)]
pub struct Field {
    pub name: Option<Vec<u8>>,
    pub type_: Ty,
    pub constant: bool,
}

/// How a name is found in a struct or union: by number, the outermost first, the members on the way, all anonymous but the
/// last, and whether one of them is const.
#[derive(Drop)]
pub struct Way {
    pub path: Vec<u32>,
    pub constant: bool,
}

/// The names that `.` finds in a struct or union, and whether a member of it or of one within it is const.
#[derive(Drop)]
pub struct MemberTable {
    pub ways: IndexMap<Vec<u8>, Way>,
    pub constant: bool,
}

fn no_ways(alloc: Global) -> IndexMap<Vec<u8>, Way>
    ensures { view_ways result.entries ≡ [] }
{
    IndexMap::new(alloc)
}

impl MemberTable {
    /// No names.
    pub fn new(alloc: Global) -> MemberTable
        ensures { view_members result ≡ no_members }
    {
        MemberTable {
            ways: no_ways(alloc),
            constant: false,
        }
    }

    /// The names of a struct whose one member has this name.
    pub fn of_one(alloc: Global, name: &[u8]) -> Result<MemberTable, AllocError>
        ensures { IfOk result (λ t. view_members t ≡ record { named = record { name = name.now; path = 0 ∷ []; constant = false } ∷ []; constant = false }) }
    {
        let mut ways = no_ways(alloc);
        let way = Way {
            path: vec![in alloc; 0]?,
            constant: false,
        };
        add_way(&mut ways, name.to_vec(alloc)?, way)?;
        Ok(MemberTable {
            ways,
            constant: false,
        })
    }

    /// The way of a name.
    pub fn found(&self, name: &[u8]) -> Option<&Way>
        ensures { option_map (λ w. (w.now.path.items, w.now.constant)) result ≡ found (view_members self.now).named name.now }
    {
        self.ways.get(name)
    }
}

// One more name; that of an earlier member stays.
fn add_way(ways: &mut IndexMap<Vec<u8>, Way>, name: Vec<u8>, way: Way) -> Result<(), AllocError>
    ensures { OnOk result (view_ways ways.new.entries ≡ with_member (view_ways ways.old.entries) (view_way (name, way))) }
{
    if ways.contains_key(name.as_slice()) {
        return Ok(());
    }
    let _old = ways.insert(name, way)?;
    Ok(())
}

// A way of an anonymous member, from the struct or union that it is in.
fn add_inner(
    alloc: Global,
    ways: &mut IndexMap<Vec<u8>, Way>,
    number: u32,
    constant: bool,
    name: &[u8],
    inner: &Way,
) -> Result<(), AllocError>
    ensures { OnOk result (view_ways ways.new.entries ≡ with_member (view_ways ways.old.entries) (through number constant (record { name = name.now; path = inner.now.path.items; constant = inner.now.constant }))) }
{
    let mut path = vec![in alloc; number]?;
    path.extend_from_slice(&inner.path)?;
    let way = Way {
        path,
        constant: constant || inner.constant,
    };
    add_way(ways, name.to_vec(alloc)?, way)
}

// The names of an anonymous member.
fn add_through(
    alloc: Global,
    ways: &mut IndexMap<Vec<u8>, Way>,
    number: u32,
    constant: bool,
    inner: &MemberTable,
) -> Result<(), AllocError>
    ensures { OnOk result (view_ways ways.new.entries ≡ with_members (view_ways ways.old.entries) (map (through number constant) (view_members inner.now).named)) }
{
    for place in 0..inner.ways.len() {
        match inner.ways.get_index(place) {
            Some((name, way)) => add_inner(alloc, ways, number, constant, name, way)?,
            None => unreachable!(),
        }
    }
    Ok(())
}

// The table of a struct or union.
fn table_in<'a>(type_: &Ty, tables: &'a [MemberTable]) -> Option<&'a MemberTable>
    ensures { (members_in (view_tables tables.now) (view type_.now)).named ≡ named_of (option_map (λ t. view_members t.now) result) }
{
    match type_ {
        Ty::Record(place) => tables.get(*place as usize),
        Ty::Void => None,
        Ty::Integer(_) => None,
        Ty::Array { .. } => None,
        Ty::Pointer { .. } => None,
        Ty::Function(_) => None,
    }
}

// The names of a member.
fn add_field(
    alloc: Global,
    ways: &mut IndexMap<Vec<u8>, Way>,
    number: u32,
    field: &Field,
    tables: &[MemberTable],
) -> Result<(), AllocError>
    ensures { let f = view_field field.now in OnOk result (view_ways ways.new.entries ≡ with_members (view_ways ways.old.entries) (ways_of (view_tables tables.now) number f.name f.type f.constant)) }
{
    match &field.name {
        Some(name) => {
            let way = Way {
                path: vec![in alloc; number]?,
                constant: field.constant,
            };
            add_way(ways, name.to_vec(alloc)?, way)
        }
        None => match table_in(&field.type_, tables) {
            Some(inner) => add_through(alloc, ways, number, field.constant, inner),
            None => Ok(()),
        },
    }
}

// The names of all members.
fn all_ways(
    alloc: Global,
    fields: &[Field],
    tables: &[MemberTable],
) -> Result<IndexMap<Vec<u8>, Way>, AllocError>
    ensures { IfOk result (λ w. view_ways w.entries ≡ named_from (view_tables tables.now) [] 0 (view_fields fields.now)) }
{
    let mut ways = no_ways(alloc);
    if fields.len() > FIELDS {
        return Err(AllocError);
    }
    for (number, field) in fields.iter().enumerate() {
        add_field(alloc, &mut ways, number as u32, field, tables)?;
    }
    Ok(ways)
}

/// Whether a member within a type is const (C11 6.3.2.1p1).
pub fn is_constant_within(type_: &Ty, tables: &[MemberTable]) -> bool
    ensures { result ≡ (members_in (view_tables tables.now) (view type_.now)).constant }
{
    let mut inner = type_;
    loop {
        match inner {
            Ty::Record(place) => {
                return match tables.get(*place as usize) {
                    Some(table) => table.constant,
                    None => false,
                };
            }
            Ty::Array { element, .. } => inner = element,
            Ty::Void => return false,
            Ty::Integer(_) => return false,
            Ty::Pointer { .. } => return false,
            Ty::Function(_) => return false,
        }
    }
}

fn is_constant_field(field: &Field, tables: &[MemberTable]) -> bool
    ensures { let f = view_field field.now in result ≡ (f.constant || (members_in (view_tables tables.now) f.type).constant) }
{
    field.constant || is_constant_within(&field.type_, tables)
}

fn has_constant(fields: &[Field], tables: &[MemberTable]) -> bool
    ensures { result ≡ has_constant (view_tables tables.now) (view_fields fields.now) }
{
    for field in fields {
        if is_constant_field(field, tables) {
            return true;
        }
    }
    false
}

/// Whether the type of each member is complete.
pub fn have_complete_types(fields: &[Field], layouts: &Layouts) -> bool
    ensures { result ≡ are_complete layouts.now.done (field_types (view_fields fields.now)) }
{
    for field in fields {
        if !is_complete(&field.type_, layouts) {
            return false;
        }
    }
    true
}

/// The names that `.` finds in a struct or union with these members.
pub fn members_by(
    alloc: Global,
    fields: &[Field],
    tables: &[MemberTable],
) -> Result<MemberTable, AllocError>
    ensures { IfOk result (λ t. view_members t ≡ members_by (view_tables tables.now) (view_fields fields.now)) }
{
    Ok(MemberTable {
        ways: all_ways(alloc, fields, tables)?,
        constant: has_constant(fields, tables),
    })
}

/// The types of members.
pub fn field_types(alloc: Global, fields: &[Field]) -> Result<Vec<Ty>, AllocError>
    ensures { IfOk result (λ v. views v.items ≡ field_types (view_fields fields.now)) }
{
    let mut types = Vec::new(alloc);
    for field in fields {
        types.push(field.type_.copied()?)?;
    }
    Ok(types)
}

/// The way of a name in an object of a type.
pub fn way_in<'a>(type_: &Ty, tables: &'a [MemberTable], name: &[u8]) -> Option<&'a Way>
    ensures { option_map (λ w. (w.now.path.items, w.now.constant)) result ≡ found (members_in (view_tables tables.now) (view type_.now)).named name.now }
{
    match table_in(type_, tables) {
        Some(table) => table.found(name),
        None => None,
    }
}

/// A member of a type by its number, with its offset.
pub fn member_at<'a>(type_: &Ty, number: u32, layouts: &'a Layouts) -> Option<(&'a Ty, u32)>
    ensures { option_map (λ p. (view p.0.now, p.1)) result ≡ member_in layouts.now.done (view type_.now) number }
{
    match type_ {
        Ty::Record(place) => record_member(*place, number, layouts),
        Ty::Void => None,
        Ty::Integer(_) => None,
        Ty::Array { .. } => None,
        Ty::Pointer { .. } => None,
        Ty::Function(_) => None,
    }
}

fn record_member(place: u32, number: u32, layouts: &Layouts) -> Option<(&Ty, u32)>
    ensures { option_map (λ p. (view p.0.now, p.1)) result ≡ member_in layouts.now.done (aggregate place) number }
{
    if (number as usize) < layouts.members(place).len() {
        Some(layouts.member(place, number as usize))
    } else {
        None
    }
}

/// The offset and the type of the object at the end of a path of members, from an object at an offset on.
pub fn part_at(
    alloc: Global,
    offset: u32,
    type_: &Ty,
    path: &[u32],
    layouts: &Layouts,
) -> Result<(u32, Ty), Broken>
    ensures { GivesNode (λ p. (p.0, view p.1)) result (required 11 (part_at layouts.now.done offset (view type_.now) path.now)) }
{
    if path.is_empty() {
        return Ok((offset, type_.copied()?));
    }
    match member_at(type_, path[0], layouts) {
        Some((member, from)) => match offset.checked_add(from) {
            Some(at) => part_at(alloc, at, member, &path[1..], layouts),
            // No object has so many bytes, so that this never comes.
            None => Err(Broken::Memory),
        },
        None => Err(Broken::Rule { rule: 11 }),
    }
}
