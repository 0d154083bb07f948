//! Whether functions, static objects and literals make a typed file.

ghost use Rattle.std.specs.Prelude.{◌≡◌, ◌&&◌, ◌+◌, ◌^◌, false, length, nat_lt, nat_le, option_map, MatchOption};
ghost use Rattle.std.specs.List.{list_all};
ghost use Rattle.core_tree.specs.Trees.{core_file, view_core, view_function, view_functions, view_static, view_statics, boxed_statement};
ghost use Rattle.core_tree.specs.Typed as typed;
ghost use Rattle.core_tree.specs.Standing as standing;
ghost use Rattle.core_check.specs.Around.{sizes_around, file_around, is_core, are_addresses};

use crate::around::{Around, is_home_of};
use crate::standing::stands_body;
use crate::statements::is_typed_statement;
use crate::types::{are_bytes, passed_size};
use core_tree::{
    Address, Core, CoreStatement, Function, Literal, PassedType, StaticObject, Target, Variable,
};

// ---- static objects

fn is_target(objects: usize, literals: usize, target: Target) -> bool
    ensures { result ≡ typed.is_target objects literals target }
{
    match target {
        Target::Object(object) => 1 <= object && object as usize <= objects,
        Target::Literal(literal) => (literal as usize) < literals,
    }
}

// The addresses lie within so many bytes, and point to what is there.
fn are_addresses(objects: usize, literals: usize, size: u32, addresses: &[Address]) -> bool
    ensures { result ≡ are_addresses objects literals size addresses.now }
{
    let mut all = true;
    for place in (0..addresses.len()).rev() {
        let address = addresses[place];
        let inside = address.at as u64 + 8 <= size as u64;
        all = inside && is_target(objects, literals, address.target) && all;
    }
    all
}

fn is_static(objects: usize, literals: usize, object: &StaticObject) -> bool
    ensures { result ≡ typed.is_static objects literals (view_static object.now) }
{
    object.size < 1 << 31
        && object.bytes.len() <= object.size as usize
        && are_bytes(&object.bytes)
        && are_addresses(objects, literals, object.size, &object.addresses)
}

fn are_static(literals: usize, objects: &[StaticObject]) -> bool
    ensures { result ≡ list_all (typed.is_static (length objects.now) literals) (view_statics objects.now) }
{
    let mut all = true;
    for place in (0..objects.len()).rev() {
        all = is_static(objects.len(), literals, &objects[place]) && all;
    }
    all
}

// ---- functions

// The parameters are the first variables.
#[tactic(auto, using(crate::proofs::Lists::too_few))]
fn have_parameters(variables: &[Variable], parameters: &[PassedType]) -> bool
    ensures { result ≡ typed.have_parameters (typed.sizes_of_variables variables.now) parameters.now }
{
    if variables.len() < parameters.len() {
        return false;
    }
    let mut all = true;
    for place in (0..parameters.len()).rev() {
        all = variables[place].size == passed_size(parameters[place]) && all;
    }
    all
}

// The variable that holds an address is there and has 8 bytes.
fn is_home(around: &Around, home: Option<u32>) -> bool
    ensures { result ≡ typed.is_home (sizes_around around.now) home }
{
    match home {
        Some(home) => around.pointers && is_home_of(around.variables, home),
        None => true,
    }
}

fn have_homes(around: &Around) -> bool
    ensures { result ≡ list_all (typed.is_home (sizes_around around.now)) (typed.homes_of around.now.variables.now) }
{
    let mut all = true;
    for place in (0..around.variables.len()).rev() {
        all = is_home(around, around.variables[place].home) && all;
    }
    all
}

fn is_typed_body(around: &Around, body: &Option<Box<CoreStatement>>) -> bool
    ensures { result ≡ typed.is_typed_body (sizes_around around.now) (option_map boxed_statement body.now) }
{
    match body {
        Some(statement) => is_typed_statement(around, statement),
        None => true,
    }
}

// What the body of a function names.
fn around_body<'a>(file: &Around<'a>, function: &'a Function) -> Around<'a>
    ensures { sizes_around result ≡ typed.sizes_in (file_around file.now) (view_function function.now) }
{
    Around {
        functions: file.functions,
        objects: file.objects,
        literals: file.literals,
        pointers: file.pointers,
        variables: &function.variables,
        gives: function.gives,
    }
}

fn is_typed_function(file: &Around, function: &Function) -> bool
    ensures { result ≡ typed.is_typed_function (file_around file.now) (view_function function.now) }
{
    let around = around_body(file, function);
    (have_parameters(&function.variables, &function.parameters) || function.body.is_none())
        && have_homes(&around)
        && is_typed_body(&around, &function.body)
}

fn are_typed_functions(file: &Around) -> bool
    ensures { result ≡ list_all (typed.is_typed_function (file_around file.now)) (view_functions file.now.functions.now) }
{
    let mut all = true;
    for place in (0..file.functions.len()).rev() {
        all = is_typed_function(file, &file.functions[place]) && all;
    }
    all
}

// The statements of each function stand where they may.
fn stand(functions: &[Function]) -> bool
    ensures { result ≡ standing.stand (view_functions functions.now) }
{
    let mut all = true;
    for place in (0..functions.len()).rev() {
        let function = &functions[place];
        all = stands_body(function.labels, &function.body) && all;
    }
    all
}

fn are_small(variables: &[Variable]) -> bool
    ensures { result ≡ typed.are_small variables.now }
{
    let mut all = true;
    for place in (0..variables.len()).rev() {
        all = variables[place].size < 1 << 31 && all;
    }
    all
}

fn have_small(functions: &[Function]) -> bool
    ensures { result ≡ typed.have_small (view_functions functions.now) }
{
    let mut all = true;
    for place in (0..functions.len()).rev() {
        all = are_small(&functions[place].variables) && all;
    }
    all
}

// ---- files

fn is_core(file: &Around) -> bool
    ensures { result ≡ is_core (core_file file.now.functions.now file.now.objects.now file.now.literals.now file.now.pointers) }
{
    file.functions.len() < 1 << 31
        && file.objects.len() < 1 << 31
        && file.literals.len() < 1 << 31
        && (are_static(file.literals.len(), file.objects) && are_typed_functions(file))
        && stand(file.functions)
        && have_small(file.functions)
}

/// The typed file of these functions, static objects and literals, where forms over pointers may stand if `pointers` says so; none
/// where a part hasn't the type that its place asks for, names what isn't there or stands where it may not, or where there are
/// 2 ^ 31 functions, static objects or literals, or bytes of a variable or a static object.
pub fn core_of(
    functions: Vec<Function>,
    objects: Vec<StaticObject>,
    literals: Vec<Literal>,
    pointers: bool,
) -> Option<Core>
    ensures { MatchOption result (is_core (core_file functions.items objects.items literals.items pointers) ≡ false) (λ c. c ≡ core_file functions.items objects.items literals.items pointers) }
{
    let file = Around {
        functions: &functions,
        objects: &objects,
        literals: &literals,
        pointers,
        variables: &[],
        gives: None,
    };
    if is_core(&file) {
        Some(Core::new(functions, objects, literals, pointers))
    } else {
        None
    }
}
