//! The unrolled program, or which limit it breaks.

ghost use Rattle.std.specs.Prelude.{◌≡◌, ◌+◌, ◌≤◌, length, true, None, IfOk, IfErr};
ghost use Rattle.core_tree.specs.Trees.{view_core};
ghost use Rattle.goto_prog.specs.Allocations.{code_allocations, allocations};
ghost use Rattle.goto_prog.specs.Flat as flat;
ghost use Rattle.goto_prog.specs.GotoThreads as structured;
ghost use Rattle.goto_prog.specs.Nodes.{view_procedures};
ghost use Rattle.goto_prog.specs.Same.{DoSame};
ghost use Rattle.goto_prog.specs.Static.{is_static_code, are_static};
ghost use Rattle.goto_unwind.specs.Counts.{passed, HasCause};
ghost use Rattle.goto_unwind.specs.LocalRuns.{allocates, count_on, MakesFew};
ghost use Rattle.goto_unwind.specs.Places.{objects};
ghost use Rattle.goto_unwind.specs.Program.{starts_none, unrolled};
ghost use Rattle.goto_unwind.specs.declared.unrolling.UnwindError.TheVariants as errors;

use crate::counting::{file_objects, file_places};
use crate::linear_count::MOST_PLACES;
use crate::objects::{MOST_OBJECT_BYTES, MOST_OBJECTS, object_bytes};
use crate::unroller::unrolled_main;
use c_profile::Admitted;
use core_tree::{Bounds, Limit};
use goto_prog::{Goto, Unrolled};
use std::alloc::{AllocError, AllocFailed, Global};
use thiserror::Error;

/// Why a file isn't unrolled.
#[derive(Debug, Drop, Error)]
pub enum UnwindError {
    #[error("out of memory")]
    Memory,
    /// The first quantity that passes its limit, in the order places, threads, actions, objects,
    /// object-bytes.
    #[error("the file passes a limit")]
    Limit(Limit),
}

impl From<AllocError> for UnwindError {
    ghost from_gives = { λ _ e. e ≡ errors.Memory };

    fn from(_e: AllocError) -> UnwindError {
        UnwindError::Memory
    }
}

impl<T: Drop> From<AllocFailed<T>> for UnwindError {
    ghost from_gives = { λ _ e. e ≡ errors.Memory };

    fn from(_e: AllocFailed<T>) -> UnwindError {
        UnwindError::Memory
    }
}

/// The first quantity of a file that passes its limit, in the order places, threads, actions, objects,
/// object-bytes. It tells a file that is too large before its code is made.
pub fn passed_limit(
    alloc: Global,
    file: &Admitted,
    bounds: &Bounds,
) -> Result<Option<Limit>, AllocError>
    ensures { IfOk result (λ l. l ≡ passed (view_core file.now) bounds.now) }
{
    let core = file.core();
    if file_places(alloc, core.functions(), bounds)? > MOST_PLACES {
        return Ok(Some(Limit::Places));
    }
    Ok(if file_objects(alloc, core, bounds)? > MOST_OBJECTS {
        Some(Limit::Objects)
    } else if object_bytes(core) > MOST_OBJECT_BYTES {
        Some(Limit::ObjectBytes)
    } else {
        None
    })
}

/// The code of a program without loops and calls.
pub(crate) fn unrolled(alloc: Global, goto: &Goto, bounds: &Bounds) -> Result<Unrolled, AllocError>
    ensures { IfOk result (λ u. u ≡ unrolled goto.now bounds.now) }
{
    let main = unrolled_main(alloc, goto, bounds)?;
    let mut functions = Vec::with_capacity(alloc, 1)?;
    functions.push(main)?;
    Ok(Unrolled::new(functions, 0, goto.store().clone()?))
}

/// The code of a file without loops and calls, with the same first store, under these bounds; or the first
/// quantity of the file that passes its limit. It does what the file's code does under the bounds, where no
/// thread is started in a function. It has no operations on pointers where the file's code has none. It has as many Allocs as the file's code, where loops and calls are copied as
/// often as the bounds let them be done, and no local run of it makes more objects. No local run creates more than
/// 64 threads, or makes more than 8,192 objects with those of the store, where these and the Allocs are no more than
/// the objects that the file counts.
pub fn unwind(
    alloc: Global,
    file: &Admitted,
    goto: &Goto,
    bounds: &Bounds,
) -> Result<Unrolled, UnwindError>
    ensures code { IfOk result (λ u. u ≡ unrolled goto.now bounds.now) }
    ensures same { IfOk result (λ u. starts_none (view_procedures goto.now.functions) ≡ true → DoSame (flat.plain_thread u) (structured.plain_thread goto.now bounds.now)) }
    ensures store { IfOk result (λ u. u.store ≡ goto.now.store) }
    ensures within { IfOk result (λ u. passed (view_core file.now) bounds.now ≡ None) }
    ensures plain { IfOk result (λ u. are_static (view_procedures goto.now.functions) ≡ true → is_static_code (flat.main_code u).instructions ≡ true) }
    ensures allocations { IfOk result (λ u. code_allocations (flat.main_code u).instructions ≡ allocations goto.now bounds.now) }
    ensures makes { IfOk result (λ u. (answers : _) → count_on allocates (flat.plain_thread u).behaves answers ≤ allocations goto.now bounds.now) }
    ensures few { IfOk result (λ u. length goto.now.store + allocations goto.now bounds.now ≤ length (view_core file.now).objects + length (view_core file.now).literals + objects (view_core file.now).functions bounds.now → MakesFew (length u.store) (flat.plain_thread u)) }
    ensures cause { IfErr result (HasCause (view_core file.now) bounds.now) }
{
    let _procedures = goto.procedures();
    let _main = goto.main_number();
    let _unwind = bounds.unwind();
    let passed = passed_limit(alloc, file, bounds)?;
    if let Some(limit) = passed {
        return Err(UnwindError::Limit(limit));
    }
    Ok(unrolled(alloc, goto, bounds)?)
}
