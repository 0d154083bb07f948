//! What names mean at a place of a file.

ghost use Rattle.std.specs.Prelude.{◌≡◌, ◌+◌, ◌-◌, ◌<◌, ◌≤◌, ◌^◌, true, false, [], ◌∷◌, ◌++◌, length, map, take, drop, slice_get, slice_set, option_map, Ok, IfOk, IfErr, OnOk, OnErr, IfSome, vec_len, vec_capacity};
ghost use Rattle.c_types.specs.Types.{integer, view as type_view};
ghost use Rattle.c_types.specs.Layouts.{kind_at, is_completed, with_completed, are_complete, fits, Refuses, IsBuilt};
ghost use Rattle.c_scope.specs.Members.{view_fields, view_members, view_tables, field_types, no_members, members_in, members_by, found};
ghost use Rattle.c_scope.specs.Places.{place_in};
ghost use Rattle.c_scope.specs.Scopes.{binding, view_object_entry, view_callable, view_function_type, view_flow, with_callable, with_defined, object_at, linked_to, is_incomplete, view_named, meaning_of, tag_of, declares, is_there, are_there, is_known, are_known, plain, built_in_types, built_in_records, built_in_members, first_scope, variables_in};
ghost use Rattle.c_scope.specs.Scopes as scopes;
ghost use Rattle.c_scope.specs.Functions.{type_place, with_placed};
ghost use Rattle.c_scope.specs.Types.{type_size};

use crate::built_ins::built_in;
use crate::flow::Flow;
use crate::functions::{Callable, FunctionType, Functions};
use crate::meaning::Meaning;
use crate::members::{
    Field, MemberTable, Way, field_types, have_complete_types, is_constant_within, members_by,
    way_in,
};
use crate::places::Places;
use c_types::{IntegerType, LayoutError, Layouts, RecordKind, Ty, is_complete};
use core_tree::Variable;
use indexmap::IndexMap;
use std::alloc::{AllocError, Global};
use std::marker::Model;

/// A declared name or tag, and the place of the binding that it hides.
#[derive(Drop)]
pub struct Bound {
    pub name: Vec<u8>,
    pub meaning: Meaning,
    pub hidden: Option<usize>,
}

/// A type, and whether it is const (C11 6.7.3).
#[derive(Drop)]
pub struct QualifiedType {
    pub type_: Ty,
    pub constant: bool,
}

/// An object that lives as long as the program (C11 6.2.4p3): its type, which is that of its elements where it is an array whose
/// length isn't known so far; the bytes that its initializer says; whether it has a definition so far; and the line of its first
/// declarator.
#[derive(Drop)]
pub struct ObjectEntry {
    pub named: QualifiedType,
    pub unknown_length: bool,
    pub bytes: Option<Vec<u8>>,
    pub defined: bool,
    pub line: u32,
}

/// Whether an object's type isn't complete here.
pub fn is_incomplete(object: &ObjectEntry, layouts: &Layouts) -> bool
    ensures { result ≡ is_incomplete layouts.now.done (view_object_entry object.now) }
{
    object.unknown_length || !is_complete(&object.named.type_, layouts)
}

/// What names and tags mean at a place of a file (C11 6.2.1, 6.2.3): those that are declared, the innermost first; the types
/// that typedefs name, by number; the structs and unions by place, with the members that `.` finds in each; the types of the
/// function's variables by number, which are complete; and the objects that live as long as the program by number, the first of
/// which is 1, with the names of those that have linkage; the functions; and how far the function is typed. What a name means is
/// there.
#[derive(Drop)]
pub struct Scope {
    bounds: Vec<Bound>,
    places: Places,
    types: Vec<QualifiedType>,
    layouts: Layouts,
    tables: Vec<MemberTable>,
    variables: Vec<QualifiedType>,
    made: Vec<Variable>,
    objects: Vec<ObjectEntry>,
    linked: IndexMap<Vec<u8>, u32>,
    functions: Functions,
    flow: Flow,
}

impl Model for Scope {
    ghost use Rattle.std.specs.Prelude.{◌≡◌, ◌≤◌, ℕ, Bool, List, true, length, map};
    ghost use Rattle.std.specs.Coded.{codes};
    ghost use Rattle.c_types.specs.Types.{coded_records};
    ghost use Rattle.c_scope.specs.Members.{view_tables, coded_members};
    ghost use Rattle.c_scope.specs.Scopes.{Scoped, view_named, view_object_entry, view_linked, view_flow, are_there, are_complete, variables_of, coded_named, coded_object_entry, coded_linked, coded_functions, coded_flow};
    ghost use Rattle.c_scope.specs.Places.{environment, place_in, hidden_in, hidden_of, entries_of, place_at};

    ghost Value = { Scoped };

    ghost coded = { Prim.hlevel (codes, coded_named, coded_records, coded_members, coded_object_entry, coded_linked, coded_functions, coded_flow) };

    ghost view = { λ s. record { bindings = environment s.bounds.items; types = map view_named s.types.items; records = s.layouts; members = view_tables s.tables.items; variables = map view_named s.variables.items; objects = map view_object_entry s.objects.items; linked = map view_linked s.linked.entries; functions = s.functions; flow = view_flow s.flow } };

    ghost invariant = { λ s. (are_there (length (map view_named s.variables.items)) (length (map view_object_entry s.objects.items)) (length (map view_named s.types.items)) (length s.layouts.declared) (environment s.bounds.items) ≡ true)
        × ((tags : Bool) (name : List ℕ) → place_at (entries_of tags s.places) name ≡ place_in tags (environment s.bounds.items) name)
        × (hidden_of s.bounds.items ≡ hidden_in (environment s.bounds.items))
        × (s.made.items ≡ variables_of s.layouts.done (map view_named s.variables.items))
        × (9 ≤ length (map view_named s.types.items))
        × (are_complete s.layouts.done (map view_named s.variables.items) ≡ true)
        × (length s.tables.items ≡ length s.layouts.declared) };
}

// The struct that pthread_mutex_t names.
fn built_in_layouts(alloc: Global) -> Result<Layouts, AllocError>
    ensures { IfOk result (λ l. l ≡ built_in_records) }
{
    let mut layouts = Layouts::new(alloc);
    let place = layouts.declare(RecordKind::Struct)?;
    let members = vec![in alloc; Ty::Integer(IntegerType::UnsignedInt)]?;
    match layouts.complete(alloc, place, members) {
        Ok(()) => Ok(layouts),
        Err(_) => Err(AllocError),
    }
}

// The name of its member.
fn built_in_tables(alloc: Global) -> Result<Vec<MemberTable>, AllocError>
    ensures { IfOk result (λ v. view_tables v.items ≡ built_in_members) }
{
    let tables = vec![in alloc; MemberTable::of_one(alloc, b"__cell")?]?;
    Ok(tables)
}

fn plain(type_: IntegerType) -> QualifiedType
    ensures { view_named result ≡ plain (integer type_) }
{
    QualifiedType {
        type_: Ty::Integer(type_),
        constant: false,
    }
}

// The types of the built-in names.
fn built_in_types(alloc: Global) -> Result<Vec<QualifiedType>, AllocError>
    ensures { IfOk result (λ v. map view_named v.items ≡ built_in_types) }
{
    let types = vec![in alloc;
        plain(IntegerType::UnsignedLong),
        plain(IntegerType::Long),
        plain(IntegerType::SignedChar),
        plain(IntegerType::Short),
        plain(IntegerType::Int),
        plain(IntegerType::UnsignedChar),
        plain(IntegerType::UnsignedShort),
        plain(IntegerType::UnsignedInt),
        QualifiedType {
            type_: Ty::Record(0),
            constant: false
        },
    ]?;
    Ok(types)
}

impl Scope {
    /// Nothing is declared but what each file has around it. The scope keeps the allocator.
    pub fn new(alloc: Global) -> Result<Scope, AllocError>
        ensures { IfOk result (λ s. s ≡ first_scope) }
    {
        Ok(Scope {
            bounds: Vec::new(alloc),
            places: Places::new(alloc),
            types: built_in_types(alloc)?,
            layouts: built_in_layouts(alloc)?,
            tables: built_in_tables(alloc)?,
            variables: Vec::new(alloc),
            made: Vec::new(alloc),
            objects: Vec::new(alloc),
            linked: IndexMap::new(alloc),
            functions: Functions::new(alloc),
            flow: Flow {
                gives: Ty::Void,
                loops: 0,
                labels: 0,
                switch: None,
            },
        })
    }

    /// What names mean is there, the variables have complete types, and each struct and union was completed once. Computes
    /// nothing.
    pub fn prove_there(&self)
        ensures there { are_known self.now ≡ true }
        ensures built_in { 9 ≤ length self.now.types }
        ensures complete { scopes.are_complete self.now.records.done self.now.variables ≡ true }
        ensures built { IsBuilt self.now.records.done }
    {
        self.layouts.prove_built();
    }

    /// How many variables the function has so far.
    pub fn variable_count(&self) -> usize
        ensures { result ≡ length self.now.variables }
    {
        self.variables.len()
    }

    /// The type of a variable of the function, by its number.
    pub fn variable(&self, number: u32) -> Option<&QualifiedType>
        ensures { option_map (λ t. view_named t.now) result ≡ slice_get self.now.variables number }
    {
        self.variables.get(number as usize)
    }

    /// How many objects live as long as the program so far.
    pub fn object_count(&self) -> usize
        ensures { result ≡ length self.now.objects }
    {
        self.objects.len()
    }

    /// An object that lives as long as the program, by its number.
    pub fn object(&self, number: u32) -> Option<&ObjectEntry>
        ensures { option_map (λ o. view_object_entry o.now) result ≡ object_at self.now number }
    {
        if number == 0 {
            return None;
        }
        self.objects.get(number as usize - 1)
    }

    /// The number of the object that a name with linkage has already.
    pub fn linked(&self, name: &[u8]) -> Option<u32>
        ensures { result ≡ linked_to self.now.linked name.now }
    {
        match self.linked.get(name) {
            Some(number) => Some(*number),
            None => None,
        }
    }

    /// One more object that lives as long as the program, and its number.
    pub fn add_object(&mut self, object: ObjectEntry) -> Result<u32, AllocError>
        requires { length self.old.objects < 2 ^ 31 }
        ensures number { IfOk result (λ k. k ≡ length self.old.objects + 1) }
        ensures added { OnOk result (self.new ≡ record self.old { objects = self.old.objects ++ view_object_entry object ∷ [] }) }
    {
        self.objects.push(object)?;
        Ok(self.objects.len() as u32)
    }

    /// What is known of an object from now on.
    pub fn set_object(&mut self, number: u32, object: ObjectEntry)
        requires { (1 ≤ number) × (number ≤ length self.old.objects) }
        ensures { self.new ≡ record self.old { objects = slice_set self.old.objects (number - 1) (view_object_entry object) } }
    {
        self.objects[number as usize - 1] = object;
    }

    /// Gives a name linkage, that of an object.
    pub fn link(&mut self, alloc: Global, name: &[u8], object: u32) -> Result<(), AllocError>
        requires { linked_to self.old.linked name.now ≡ None }
        ensures { OnOk result (self.new ≡ record self.old { linked = self.old.linked ++ record { name = name.now; object = object } ∷ [] }) }
    {
        self.linked.insert(name.to_vec(alloc)?, object)?;
        Ok(())
    }

    /// The functions.
    pub fn functions(&self) -> &Functions
        ensures { result.now ≡ self.now.functions }
    {
        &self.functions
    }

    /// One more function with a name that none has so far, and its number.
    pub fn add_function(
        &mut self,
        alloc: Global,
        name: &[u8],
        function: Callable,
    ) -> Result<u32, AllocError>
        requires new { linked_to self.old.functions.named name.now ≡ None }
        requires room { length self.old.functions.all < 2 ^ 32 }
        ensures number { IfOk result (λ n. n ≡ length self.old.functions.all) }
        ensures added { OnOk result (self.new ≡ record self.old { functions = with_callable self.old.functions name.now (view_callable function) }) }
    {
        self.functions.add(alloc, name, function)
    }

    /// What is known of a function from now on.
    pub fn set_function(&mut self, number: u32, function: Callable)
        requires { number < length self.old.functions.all }
        ensures { self.new ≡ record self.old { functions = record self.old.functions { all = slice_set self.old.functions.all number (view_callable function) } } }
    {
        self.functions.set(number, function);
    }

    /// The place of a function type among those of the file, of which it is one from now on.
    pub fn place_function_type(&mut self, type_: FunctionType) -> Result<u32, AllocError>
        requires { length self.old.functions.types < 2 ^ 32 }
        ensures place { IfOk result (λ n. n ≡ type_place self.old.functions.types (view_function_type type_)) }
        ensures placed { OnOk result (self.new ≡ record self.old { functions = record self.old.functions { types = with_placed self.old.functions.types (view_function_type type_) } }) }
    {
        self.functions.place_type(type_)
    }

    /// Notes that the file defines a function of this name.
    pub fn define_function(&mut self, alloc: Global, name: &[u8]) -> Result<(), AllocError>
        ensures { OnOk result (self.new ≡ record self.old { functions = with_defined self.old.functions name.now }) }
    {
        self.functions.define(alloc, name)
    }

    /// How far the function is typed.
    pub fn flow(&self) -> &Flow
        ensures { view_flow result.now ≡ self.now.flow }
    {
        &self.flow
    }

    /// Goes on with another flow, and gives the one until now.
    pub fn set_flow(&mut self, flow: Flow) -> Flow
        ensures is { view_flow result ≡ self.old.flow }
        ensures set { self.new ≡ record self.old { flow = view_flow flow } }
    {
        let mut before = flow;
        std::mem::swap(&mut before, &mut self.flow);
        before
    }

    /// Ends the file: the objects that live as long as the program. No name is in scope.
    pub fn take_objects(&mut self, alloc: Global) -> Vec<ObjectEntry>
        requires { self.old.bindings ≡ [] }
        ensures objects { map view_object_entry result.items ≡ self.old.objects }
        ensures ended { self.new ≡ record self.old { objects = [] } }
    {
        let mut taken = Vec::new(alloc);
        std::mem::swap(&mut taken, &mut self.objects);
        taken
    }

    /// The way of a member's name in an object of a type.
    pub fn way(&self, type_: &Ty, name: &[u8]) -> Option<&Way>
        ensures { option_map (λ w. (w.now.path.items, w.now.constant)) result ≡ found (members_in self.now.members (type_view type_.now)).named name.now }
    {
        way_in(type_, &self.tables, name)
    }

    /// Whether a member within a type is const (C11 6.3.2.1p1).
    pub fn is_constant_within(&self, type_: &Ty) -> bool
        ensures { result ≡ (members_in self.now.members (type_view type_.now)).constant }
    {
        is_constant_within(type_, &self.tables)
    }

    /// How many types typedefs name.
    pub fn type_count(&self) -> usize
        ensures { result ≡ length self.now.types }
    {
        self.types.len()
    }

    /// What a typedef names, by its number.
    pub fn named(&self, number: u32) -> Option<&QualifiedType>
        ensures { option_map (λ t. view_named t.now) result ≡ slice_get self.now.types number }
    {
        self.types.get(number as usize)
    }

    /// The structs and unions.
    pub fn layouts(&self) -> &Layouts
        ensures { result.now ≡ self.now.records }
    {
        &self.layouts
    }

    /// How many declared names and tags are in scope.
    pub fn len(&self) -> usize
        ensures { result ≡ length self.now.bindings }
    {
        self.bounds.len()
    }

    // The place of a name's innermost binding in a name space.
    fn place(&self, tags: bool, name: &[u8]) -> Option<usize>
        ensures is { result ≡ place_in tags self.now.bindings name.now }
        ensures within { IfSome result (λ p. p < length self.now.bindings) }
    {
        self.places.place_of(tags, name)
    }

    /// What a name means, unless it has no declaration in scope and is no built-in name.
    pub fn meaning(&self, name: &[u8]) -> Option<Meaning>
        ensures { result ≡ meaning_of self.now.bindings name.now }
    {
        match self.place(false, name) {
            Some(place) => Some(self.bounds[place].meaning),
            None => built_in(name),
        }
    }

    /// What a tag means, unless it has no declaration in scope.
    pub fn tag(&self, name: &[u8]) -> Option<Meaning>
        ensures is { result ≡ tag_of self.now.bindings name.now }
        ensures there { IfSome result (λ m. is_known self.now m ≡ true) }
    {
        match self.place(true, name) {
            Some(place) => Some(self.bounds[place].meaning),
            None => None,
        }
    }

    fn is_declared_in(&self, tags: bool, name: &[u8], outer: usize) -> bool
        requires { outer ≤ length self.now.bindings }
        ensures { result ≡ declares tags (take (length self.now.bindings - outer) self.now.bindings) name.now }
    {
        match self.place(tags, name) {
            Some(place) => outer <= place,
            None => false,
        }
    }

    /// Whether a name is declared in the block that began with `outer` declared names and tags in scope.
    pub fn is_declared(&self, name: &[u8], outer: usize) -> bool
        requires { outer ≤ length self.now.bindings }
        ensures { result ≡ declares false (take (length self.now.bindings - outer) self.now.bindings) name.now }
    {
        self.is_declared_in(false, name, outer)
    }

    /// Whether a tag is declared in the block that began with `outer` declared names and tags in scope.
    pub fn is_tag_declared(&self, name: &[u8], outer: usize) -> bool
        requires { outer ≤ length self.now.bindings }
        ensures { result ≡ declares true (take (length self.now.bindings - outer) self.now.bindings) name.now }
    {
        self.is_declared_in(true, name, outer)
    }

    // One more variable of the function, and its number.
    fn add_variable(&mut self, named: QualifiedType, size: u32) -> Result<u32, AllocError>
        requires room { length self.old.variables < 2 ^ 32 }
        requires sized { type_size self.old.records.done (type_view named.type_) ≡ Ok size }
        ensures number { IfOk result (λ v. v ≡ length self.old.variables) }
        ensures added { OnOk result (self.new ≡ record self.old { variables = self.old.variables ++ view_named named ∷ [] }) }
        ensures same { OnErr result (self.new ≡ self.old) }
    {
        let number = self.variables.len() as u32;
        let variable = Variable {
            size,
            readonly: named.constant,
            home: None,
        };
        self.made.reserve(1)?;
        self.variables.push(named)?;
        put_variable(&mut self.made, variable);
        Ok(number)
    }

    /// Declares a name or a tag in the innermost block.
    pub fn declare(
        &mut self,
        alloc: Global,
        name: &[u8],
        meaning: Meaning,
    ) -> Result<(), AllocError>
        requires { is_known self.old meaning ≡ true }
        ensures declared { OnOk result (self.new ≡ record self.old { bindings = binding name.now meaning ∷ self.old.bindings }) }
        ensures same { OnErr result (self.new ≡ self.old) }
    {
        let key = name.to_vec(alloc)?;
        let own = name.to_vec(alloc)?;
        self.bounds.reserve(1)?;
        let place = self.bounds.len();
        let hidden = self.places.replace(meaning.is_tag(), key, Some(place))?;
        put(
            &mut self.bounds,
            Bound {
                name: own,
                meaning,
                hidden,
            },
        );
        Ok(())
    }

    /// Declares a variable of a type of that many bytes in the innermost block: its number is how many the function had.
    pub fn declare_variable(
        &mut self,
        alloc: Global,
        name: &[u8],
        named: QualifiedType,
        size: u32,
    ) -> Result<u32, AllocError>
        requires room { length self.old.variables < 2 ^ 32 }
        requires sized { type_size self.old.records.done (type_view named.type_) ≡ Ok size }
        ensures number { IfOk result (λ v. v ≡ length self.old.variables) }
        ensures declared { OnOk result (self.new ≡ record self.old {
          bindings = binding name.now (Meaning.Variable (length self.old.variables)) ∷ self.old.bindings;
          variables = self.old.variables ++ view_named named ∷ [];
        }) }
    {
        let variable = self.add_variable(named, size)?;
        self.declare(alloc, name, Meaning::Variable { variable })?;
        Ok(variable)
    }

    // One more type that a typedef names, and its number.
    fn add_type(&mut self, type_: QualifiedType) -> Result<u32, AllocError>
        requires { length self.old.types < 2 ^ 32 }
        ensures number { IfOk result (λ n. n ≡ length self.old.types) }
        ensures added { OnOk result (self.new ≡ record self.old { types = self.old.types ++ view_named type_ ∷ [] }) }
    {
        let number = self.types.len() as u32;
        self.types.push(type_)?;
        Ok(number)
    }

    /// Declares a typedef in the innermost block: its type's number is how many there were.
    pub fn declare_type(
        &mut self,
        alloc: Global,
        name: &[u8],
        type_: QualifiedType,
    ) -> Result<(), AllocError>
        requires { length self.old.types < 2 ^ 32 }
        ensures { OnOk result (self.new ≡ record self.old {
          bindings = binding name.now (Meaning.Typedef (length self.old.types)) ∷ self.old.bindings;
          types = self.old.types ++ view_named type_ ∷ [];
        }) }
    {
        let number = self.add_type(type_)?;
        self.declare(alloc, name, Meaning::Typedef { number })
    }

    /// One more struct or union, incomplete so far, and its place (C11 6.7.2.3p4).
    pub fn declare_record(&mut self, alloc: Global, kind: RecordKind) -> Result<u32, AllocError>
        requires { length self.old.records.declared < 2 ^ 31 }
        ensures place { IfOk result (λ p. p ≡ length self.old.records.declared) }
        ensures declared { OnOk result (self.new ≡ record self.old {
          records = record { declared = self.old.records.declared ++ kind ∷ []; done = self.old.records.done };
          members = self.old.members ++ no_members ∷ [];
        }) }
        ensures same { OnErr result (self.new ≡ self.old) }
    {
        self.tables.reserve(1)?;
        let place = self.layouts.declare(kind)?;
        put_table(&mut self.tables, MemberTable::new(alloc));
        Ok(place)
    }

    /// Completes the struct or union at a place with these members (C11 6.7.2.1p8). It is refused where a member is incomplete,
    /// or where the record, or an array within a member, has more than 2,147,483,647 bytes.
    pub fn complete_record(
        &mut self,
        alloc: Global,
        place: u32,
        fields: &[Field],
    ) -> Result<(), LayoutError>
        requires declared { place < length self.old.records.declared }
        requires incomplete { is_completed self.old.records.done place ≡ false }
        ensures complete { IfOk result (λ _. are_complete self.old.records.done (field_types (view_fields fields.now)) ≡ true) }
        ensures fits { IfOk result (λ _. fits self.old.records.done (kind_at self.old.records place) (field_types (view_fields fields.now)) ≡ true) }
        ensures completed { OnOk result (self.new ≡ record self.old {
          records = with_completed self.old.records place (kind_at self.old.records place) (field_types (view_fields fields.now));
          members = slice_set self.old.members place (members_by self.old.members (view_fields fields.now));
        }) }
        ensures refused { IfErr result (Refuses self.old.records.done (kind_at self.old.records place) (field_types (view_fields fields.now))) }
        ensures unchanged { OnErr result (self.new ≡ self.old) }
    {
        if !have_complete_types(fields, &self.layouts) {
            return Err(LayoutError::Incomplete);
        }
        let table = members_by(alloc, fields, &self.tables)?;
        let types = field_types(alloc, fields)?;
        self.layouts.complete(alloc, place, types)?;
        self.tables[place as usize] = table;
        Ok(())
    }

    // Takes back the innermost declaration.
    fn forget(&mut self)
        requires { 0 < length self.old.bindings }
        ensures { self.new ≡ record self.old { bindings = drop 1 self.old.bindings } }
    {
        match self.bounds.pop() {
            Some(bound) => {
                let tag = bound.meaning.is_tag();
                match self.places.replace(tag, bound.name, bound.hidden) {
                    Ok(_) => {}
                    Err(_) => unreachable!(),
                }
            }
            None => unreachable!(),
        }
    }

    /// Leaves the blocks that began when `outer` declared names and tags or more were in scope.
    pub fn leave(&mut self, outer: usize)
        requires { outer ≤ length self.old.bindings }
        ensures { self.new ≡ record self.old { bindings = drop (length self.old.bindings - outer) self.old.bindings } }
    {
        while outer < self.len() {
            self.forget();
        }
    }

    /// Ends the scope of parameters: the names and tags that were declared behind `outer` others, and the variables from a number
    /// on. No other name in scope is one of these.
    pub fn end_parameters(&mut self, outer: usize, variables: usize)
        requires within { outer ≤ length self.old.bindings }
        requires variables { variables ≤ length self.old.variables }
        requires there { are_there variables (length self.old.objects) (length self.old.types) (length self.old.records.declared) (drop (length self.old.bindings - outer) self.old.bindings) ≡ true }
        ensures { self.new ≡ record self.old {
          bindings = drop (length self.old.bindings - outer) self.old.bindings;
          variables = take variables self.old.variables;
        } }
    {
        self.leave(outer);
        self.made.truncate(variables);
        self.variables.truncate(variables);
    }

    // The innermost declaration.
    fn innermost(&self, alloc: Global) -> Result<(Vec<u8>, Meaning), AllocError>
        requires { 0 < length self.now.bindings }
        ensures { IfOk result (λ b. take 1 self.now.bindings ≡ binding b.0.items b.1 ∷ []) }
    {
        let bound = &self.bounds[self.bounds.len() - 1];
        Ok((bound.name.to_vec(alloc)?, bound.meaning))
    }

    // Takes back the innermost declarations, behind `outer` others: their names and meanings, the innermost first.
    fn take_names(
        &mut self,
        alloc: Global,
        outer: usize,
    ) -> Result<Vec<(Vec<u8>, Meaning)>, AllocError>
        requires { outer ≤ length self.old.bindings }
        ensures taken { OnOk result (self.new ≡ record self.old { bindings = drop (length self.old.bindings - outer) self.old.bindings }) }
        ensures names { IfOk result (λ v. map (λ b. binding b.0.items b.1) v.items ≡ take (length self.old.bindings - outer) self.old.bindings) }
    {
        let mut names = Vec::new(alloc);
        'names: while outer < self.len() {
            names.push(self.innermost(alloc)?)?;
            self.forget();
        }
        Ok(names)
    }

    // Declares names again, of which the innermost stands first.
    fn put_names(&mut self, alloc: Global, names: Vec<(Vec<u8>, Meaning)>) -> Result<(), AllocError>
        requires { are_there (length self.old.variables) (length self.old.objects) (length self.old.types) (length self.old.records.declared) (map (λ b. binding b.0.items b.1) names.items) ≡ true }
        ensures { OnOk result (self.new ≡ record self.old { bindings = map (λ b. binding b.0.items b.1) names.items ++ self.old.bindings }) }
    {
        let mut left = names;
        'left: while let Some((name, meaning)) = left.pop() {
            self.declare(alloc, &name, meaning)?;
        }
        Ok(())
    }

    /// Declares a name or a tag before the innermost ones, behind `outer` others.
    pub fn declare_below(
        &mut self,
        alloc: Global,
        outer: usize,
        name: &[u8],
        meaning: Meaning,
    ) -> Result<(), AllocError>
        requires within { outer ≤ length self.old.bindings }
        requires known { is_known self.old meaning ≡ true }
        ensures { OnOk result (self.new ≡ record self.old {
          bindings = take (length self.old.bindings - outer) self.old.bindings ++ binding name.now meaning ∷ drop (length self.old.bindings - outer) self.old.bindings;
        }) }
    {
        self.prove_there();
        let names = self.take_names(alloc, outer)?;
        self.declare(alloc, name, meaning)?;
        self.put_names(alloc, names)
    }

    /// Ends a function: its variables as its typed tree has them. No name in scope is one of them.
    pub fn take_variables(&mut self, alloc: Global) -> Vec<Variable>
        requires { are_there 0 (length self.old.objects) (length self.old.types) (length self.old.records.declared) self.old.bindings ≡ true }
        ensures variables { result.items ≡ variables_in self.old }
        ensures ended { self.new ≡ record self.old { variables = [] } }
    {
        let mut taken = Vec::new(alloc);
        std::mem::swap(&mut taken, &mut self.made);
        self.variables.clear();
        taken
    }
}

fn put(bounds: &mut Vec<Bound>, bound: Bound)
    requires { vec_len bounds.old < vec_capacity bounds.old }
    ensures { bounds.new.items ≡ bounds.old.items ++ bound ∷ [] }
{
    match bounds.push(bound) {
        Ok(()) => {}
        Err(_) => unreachable!(),
    }
}

fn put_variable(variables: &mut Vec<Variable>, variable: Variable)
    requires { vec_len variables.old < vec_capacity variables.old }
    ensures { variables.new.items ≡ variables.old.items ++ variable ∷ [] }
{
    match variables.push(variable) {
        Ok(()) => {}
        Err(_) => unreachable!(),
    }
}

fn put_table(tables: &mut Vec<MemberTable>, table: MemberTable)
    requires { vec_len tables.old < vec_capacity tables.old }
    ensures { tables.new.items ≡ tables.old.items ++ table ∷ [] }
{
    match tables.push(table) {
        Ok(()) => {}
        Err(_) => unreachable!(),
    }
}
