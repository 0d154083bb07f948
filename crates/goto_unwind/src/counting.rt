//! How many places and objects a file unrolls to.

ghost use Rattle.std.specs.Prelude.{◌≡◌, ◌+◌, ◌<◌, ◌^◌, codes, length, map, min, IfOk};
ghost use Rattle.std.specs.Str.{bytes_eq};
ghost use Rattle.core_tree.specs.Trees.{view_functions, view_core};
ghost use Rattle.goto_unwind.specs.Counts.{quantities, cut_counts, counts_list};
ghost use Rattle.goto_unwind.specs.Linear.{function_linear};
ghost use Rattle.goto_unwind.specs.Places.{main_number, file_count, places, objects};

use crate::linear_count::{LinearCount, MOST_PLACES, Weights};
use crate::objects::MOST_OBJECTS;
use crate::trees::function;
use crate::walk;
use c_profile::Admitted;
use core_tree::{Bounds, Core, Function, Name};
use std::alloc::{AllocError, Global};

/// How much a file unrolls to: its places, of which each node of the typed tree is one, its creations of
/// threads, its actions and its objects: the static ones, the literals, and those that its copies of variables with an
/// address and of calls of malloc and calloc make. A count that is greater than its limit is the limit plus 1, and the
/// counts behind the first such one are 0.
#[derive(Clone, Copy, PartialEq, Eq)]
pub struct Counts {
    pub places: u32,
    pub threads: u32,
    pub actions: u32,
    pub objects: u32,
}

fn is_main(name: &Name) -> bool
    ensures { result ≡ bytes_eq name.now.bytes.items (codes "main") }
{
    name.bytes.as_slice() == b"main".as_slice()
}

// The number of the first function named `main`.
fn main_number(functions: &[Function]) -> u32
    requires { length functions.now < 2 ^ 31 }
    ensures { result ≡ main_number (view_functions functions.now) }
{
    let mut number = 0;
    for function in functions {
        if is_main(&function.name) {
            return number;
        }
        number += 1;
    }
    number
}

// What each function counts.
fn tallies(
    alloc: Global,
    functions: &[Function],
    bounds: &Bounds,
    weights: Weights,
) -> Result<Vec<LinearCount>, AllocError>
    ensures { IfOk result (λ v. v.items ≡ map (function_linear weights bounds.now) (view_functions functions.now)) }
{
    let mut table = Vec::with_capacity(alloc, functions.len())?;
    for each in functions {
        table.push(function(alloc, bounds, each, weights)?)?;
    }
    Ok(table)
}

// What these functions count, at most one more than the greatest number of places.
fn file_count(
    alloc: Global,
    functions: &[Function],
    bounds: &Bounds,
    weights: Weights,
) -> Result<u32, AllocError>
    requires { length functions.now < 2 ^ 31 }
    ensures { IfOk result (λ n. n ≡ min (file_count weights (view_functions functions.now) bounds.now) 2000001) }
{
    let table = tallies(alloc, functions, bounds, weights)?;
    walk::whole(alloc, &table, bounds.unwind(), main_number(functions))
}

/// The places of these functions, at most one more than the greatest number.
pub(crate) fn file_places(
    alloc: Global,
    functions: &[Function],
    bounds: &Bounds,
) -> Result<u32, AllocError>
    requires { length functions.now < 2 ^ 31 }
    ensures { IfOk result (λ n. n ≡ min (places (view_functions functions.now) bounds.now) 2000001) }
{
    file_count(alloc, functions, bounds, Weights::of_places())
}

/// The objects of a file: the static ones, the literals, and those that these functions make; at most one more than the
/// greatest number.
pub(crate) fn file_objects(alloc: Global, core: &Core, bounds: &Bounds) -> Result<u32, AllocError>
    ensures { IfOk result (λ n. n ≡ min (length (view_core core.now).objects + length (view_core core.now).literals + objects (view_core core.now).functions bounds.now) 8193) }
{
    let most = MOST_OBJECTS as usize + 1;
    let there = core.objects().len().saturating_add(core.literals().len());
    let made = file_count(alloc, core.functions(), bounds, Weights::of_objects())?;
    Ok(there.saturating_add(made as usize).min(most) as u32)
}

/// How much a file unrolls to under these bounds.
pub fn count(alloc: Global, file: &Admitted, bounds: &Bounds) -> Result<Counts, AllocError>
    ensures { IfOk result (λ c. counts_list c ≡ cut_counts (quantities (view_core file.now) bounds.now)) }
{
    let core = file.core();
    let places = file_places(alloc, core.functions(), bounds)?;
    let objects = if places > MOST_PLACES {
        0
    } else {
        file_objects(alloc, core, bounds)?
    };
    Ok(Counts {
        places,
        threads: 0,
        actions: 0,
        objects,
    })
}
