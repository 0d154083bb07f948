//! The objects of a program, and the bytes that they begin with.

ghost use Rattle.std.specs.Prelude.{◌≡◌, ◌+◌, length, min};
ghost use Rattle.core_tree.specs.Trees.{view_functions, view_statics, view_literals, view_core};
ghost use Rattle.core_tree.specs.Typed.{sizes_of_variables, sizes_of_objects};
ghost use Rattle.goto_unwind.specs.Counts.{largest, variable_bytes, sizes_of_literals, object_bytes};

use core_tree::{Core, Function, Literal, StaticObject, Variable};

/// The greatest number of objects.
pub(crate) const MOST_OBJECTS: u32 = 8_192;

/// The greatest number of bytes of an object.
pub(crate) const MOST_OBJECT_BYTES: u32 = 65_536;

// The size of the largest of these variables.
#[tactic(auto, using(crate::proofs::Largest::variable_more, crate::proofs::Largest::variables_whole))]
fn largest(variables: &[Variable]) -> u32
    ensures { result ≡ largest (sizes_of_variables variables.now) }
{
    let mut most = 0;
    for variable in variables {
        most = most.max(variable.size);
    }
    most
}

// The bytes of the largest variable of these functions.
#[tactic(auto, using(crate::proofs::Largest::function_more, crate::proofs::Largest::functions_whole))]
fn variable_bytes(functions: &[Function]) -> u32
    ensures { result ≡ variable_bytes (view_functions functions.now) }
{
    let mut most = 0;
    for function in functions {
        most = most.max(largest(&function.variables));
    }
    most
}

// The size of the largest of these static objects.
#[tactic(auto, using(crate::proofs::Largest::static_more, crate::proofs::Largest::statics_whole))]
fn static_bytes(objects: &[StaticObject]) -> u32
    ensures { result ≡ largest (sizes_of_objects (view_statics objects.now)) }
{
    let mut most = 0;
    for object in objects {
        most = most.max(object.size);
    }
    most
}

// How many bytes the largest of these literals has, at most one more than an object may have.
#[tactic(auto, using(crate::proofs::Largest::literal_more, crate::proofs::Largest::literals_whole))]
fn literal_bytes(literals: &[Literal]) -> u32
    ensures { result ≡ min (largest (sizes_of_literals (view_literals literals.now))) 65537 }
{
    let mut most = 0;
    for literal in literals {
        let text = literal.bytes.len().min(MOST_OBJECT_BYTES as usize) as u32;
        most = most.max(text + 1);
    }
    most
}

/// The bytes of the largest object of a file, of which literals count at most one more than an object may have.
pub(crate) fn object_bytes(core: &Core) -> u32
    ensures { min result 65537 ≡ min (object_bytes (view_core core.now)) 65537 }
{
    let literals = literal_bytes(core.literals());
    variable_bytes(core.functions())
        .max(static_bytes(core.objects()))
        .max(literals)
}
