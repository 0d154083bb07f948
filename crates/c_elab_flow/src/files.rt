//! The functions and the objects of a file.
ghost use Rattle.std.specs.Prelude.{◌≡◌, ◌<◌, ◌≤◌, ◌+◌, true, [], length, map, option_map, nat_lt, Some, None, if◌then◌else◌, IfOk, IsErr};
ghost use Rattle.std.specs.List.{list_all};
ghost use Rattle.c_types.specs.Types.{views, view as type_view};
ghost use Rattle.c_types.specs.Layouts.{size_of, most_bytes};
ghost use Rattle.core_tree.specs.Trees.{view_function, view_functions, view_static, view_statics, view_statement as typed_view};
ghost use Rattle.core_tree.specs.Typed.{is_static};
ghost use Rattle.c_scope.specs.Scopes.{view_callable, view_object_entry, object_entry_size, passed_as, given_by};
ghost use Rattle.c_elab_flow.specs.Files.{procedure_of, with_bodies, given_bytes, static_of};
ghost use Rattle.c_elab_flow.specs.Held.{view_definitions};

use c_elab_base::object_bytes;
use c_scope::{Callable, ObjectEntry, Scope, is_incomplete};
use c_types::{IntegerType, Layouts, MOST_BYTES, Ty};
use core_tree::{CoreStatement, Function, Name, PassedType, StaticObject, Variable};
use std::alloc::{AllocError, Global};

// More functions than this have no memory.
const MOST: usize = 0x7fff_ffff;

/// A defined function: its number, its variables, how many labels it has, and its body.
#[derive(Drop)]
pub struct Definition {
    pub number: u32,
    pub variables: Vec<Variable>,
    pub labels: usize,
    pub body: Box<CoreStatement>,
}

// Each byte is below 256. Computes nothing.
fn prove_bytes(bytes: &[u8])
    ensures { list_all (λ b. nat_lt b 256) bytes.now ≡ true }
{}

// An object of that many bytes, of which these are the first.
fn static_object(
    alloc: Global,
    size: u32,
    readonly: bool,
    bytes: Vec<u8>,
    undefined: Option<u32>,
) -> Result<StaticObject, AllocError>
    ensures is { IfOk result (λ o. view_static o ≡ record { size = size; readonly = readonly; bytes = bytes.items; addresses = []; undefined = undefined }) }
    ensures fits { IfOk result (λ o. is_static 0 0 (view_static o) ≡ true) }
    ensures cause { IsErr result → size ≤ most_bytes → size < length bytes.items }
{
    prove_bytes(&bytes);
    // No type has more bytes, and no initializer says more than its object has, so that this never comes.
    if size > MOST_BYTES || bytes.len() > size as usize {
        return Err(AllocError);
    }
    Ok(StaticObject {
        size,
        readonly,
        bytes,
        addresses: Vec::new(alloc),
        undefined,
    })
}

// The bytes of an object whose type is complete, else 0.
fn object_entry_size(object: &ObjectEntry, layouts: &Layouts) -> Result<u32, AllocError>
    ensures { IfOk result (λ n. n ≡ object_entry_size layouts.now.done (view_object_entry object.now)) }
{
    if is_incomplete(object, layouts) {
        Ok(0)
    } else {
        object_bytes(&object.named.type_, layouts)
    }
}

// The bytes that an initializer says.
fn given_bytes(alloc: Global, bytes: Option<Vec<u8>>) -> Vec<u8>
    ensures { result.items ≡ given_bytes (option_map (λ v. v.items) bytes) }
{
    match bytes {
        Some(bytes) => bytes,
        None => Vec::new(alloc),
    }
}

fn undefined_at(defined: bool, line: u32) -> Option<u32>
    ensures { result ≡ if defined then None else Some line }
{
    if defined { None } else { Some(line) }
}

// An object as it is at the start.
fn static_of(
    alloc: Global,
    object: ObjectEntry,
    layouts: &Layouts,
) -> Result<StaticObject, AllocError>
    ensures is { IfOk result (λ o. view_static o ≡ static_of layouts.now.done (view_object_entry object)) }
    ensures fits { IfOk result (λ o. is_static 0 0 (view_static o) ≡ true) }
{
    let size = object_entry_size(&object, layouts)?;
    static_object(
        alloc,
        size,
        object.named.constant,
        given_bytes(alloc, object.bytes),
        undefined_at(object.defined, object.line),
    )
}

/// The objects of the file, where no name is in scope. They hold no address.
pub fn static_objects(alloc: Global, scope: &mut Scope) -> Result<Vec<StaticObject>, AllocError>
    requires { scope.old.bindings ≡ [] }
    ensures are { IfOk result (λ v. view_statics v.items ≡ map (static_of scope.old.records.done) scope.old.objects) }
    ensures fit { IfOk result (λ v. list_all (is_static 0 0) (view_statics v.items) ≡ true) }
{
    let mut objects = Vec::new(alloc);
    let mut left = scope.take_objects(alloc);
    left.reverse();
    'objects: while let Some(object) = left.pop() {
        objects.push(static_of(alloc, object, scope.layouts())?)?;
    }
    Ok(objects)
}

// A value of this type, as a call hands it over.
fn passed_as(type_: &Ty, layouts: &Layouts) -> Result<PassedType, AllocError>
    ensures { IfOk result (λ p. p ≡ passed_as layouts.now.done (type_view type_.now)) }
{
    match type_ {
        Ty::Void => Ok(PassedType::Structure(0)),
        Ty::Integer(integer) => Ok(PassedType::Integer(*integer)),
        Ty::Pointer { .. } => Ok(PassedType::Integer(IntegerType::UnsignedLong)),
        other => Ok(PassedType::Structure(known_bytes(other, layouts)?)),
    }
}

// The bytes of a type, 0 where it is incomplete.
fn known_bytes(type_: &Ty, layouts: &Layouts) -> Result<u32, AllocError>
    ensures { IfOk result (λ n. n ≡ size_of layouts.now.done (type_view type_.now)) }
{
    if c_types::is_complete(type_, layouts) {
        object_bytes(type_, layouts)
    } else {
        Ok(0)
    }
}

fn given_by(type_: &Ty, layouts: &Layouts) -> Result<Option<PassedType>, AllocError>
    ensures { IfOk result (λ p. p ≡ given_by layouts.now.done (type_view type_.now)) }
{
    match type_ {
        Ty::Void => Ok(None),
        other => Ok(Some(passed_as(other, layouts)?)),
    }
}

fn all_passed(alloc: Global, types: &[Ty], layouts: &Layouts) -> Result<Vec<PassedType>, AllocError>
    ensures { IfOk result (λ ps. ps.items ≡ map (passed_as layouts.now.done) (views types.now)) }
{
    let mut passed = Vec::new(alloc);
    for type_ in types {
        passed.push(passed_as(type_, layouts)?)?;
    }
    Ok(passed)
}

// A function as it is called.
fn procedure_of(
    alloc: Global,
    callable: &Callable,
    layouts: &Layouts,
) -> Result<Function, AllocError>
    ensures { IfOk result (λ f. view_function f ≡ procedure_of layouts.now.done (view_callable callable.now)) }
{
    Ok(Function {
        name: Name {
            bytes: callable.name.to_vec(alloc)?,
        },
        line: callable.line,
        gives: given_by(&callable.type_.gives, layouts)?,
        parameters: all_passed(alloc, &callable.type_.parameters, layouts)?,
        ellipsis: callable.ellipsis,
        variables: Vec::new(alloc),
        labels: 0,
        body: None,
    })
}

/// The functions of a file as they are called, by number.
pub fn procedures(alloc: Global, scope: &Scope) -> Result<Vec<Function>, AllocError>
    ensures { IfOk result (λ fs. view_functions fs.items ≡ map (procedure_of scope.now.records.done) scope.now.functions.all) }
{
    let mut procedures = Vec::new(alloc);
    let mut number = 0;
    'functions: while let Some(callable) = scope.functions().function(number) {
        procedures.push(procedure_of(alloc, callable, scope.layouts())?)?;
        if number as usize >= MOST {
            return Err(AllocError);
        }
        number += 1;
    }
    Ok(procedures)
}

// Gives a function its body.
fn give_body(definition: Definition, function: &mut Function)
    ensures { view_function function.new ≡ record (view_function function.old) { variables = definition.variables.items; labels = definition.labels; body = Some (typed_view definition.body.value) } }
{
    function.variables = definition.variables;
    function.labels = definition.labels;
    function.body = Some(definition.body);
}

fn discard(_definition: Definition) {}

/// Gives the functions their bodies, in the order of their definitions.
pub fn give_bodies(mut definitions: Vec<Definition>, functions: &mut Vec<Function>)
    ensures { view_functions functions.new.items ≡ with_bodies (view_functions functions.old.items) (view_definitions definitions.items) }
{
    definitions.reverse();
    'definitions: while let Some(definition) = definitions.pop() {
        let number = definition.number as usize;
        if number < functions.len() {
            give_body(definition, &mut functions[number]);
        } else {
            discard(definition);
        }
    }
}
