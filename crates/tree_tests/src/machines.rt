//! How runs of trees end, on the machine of the typed source and on those of its flat code.

use actions::{Machine, Store};
use c_interp::run;
use c_meaning::are_storable;
use c_profile::Admitted;
use core_tree::Bounds;
use goto_checks::insert;
use goto_lower::lower;
use goto_prog::{PlainThread, StrictThread, UnrolledThread};
use goto_unwind::unwind;
use interleave::{Inputs, Outcome, Schedule, System, Turn};
use std::alloc::{AllocError, Global};
use tree_notation::Unread;

// How the run of a machine from this store ends.
fn end_of<M: Machine>(
    alloc: Global,
    first: M,
    store: &Store,
    inputs: &Inputs,
    schedule: &Schedule,
) -> Result<Outcome, AllocError> {
    let mut system = System::new(alloc, first, store.clone()?)?;
    for t in schedule.as_slice() {
        if !system.has_numbers(*t)? {
            return Ok(Outcome::Fine);
        }
        if let Turn::Broken(check) = system.turn(*t, inputs)? {
            return Ok(Outcome::Broken(check));
        }
    }
    Ok(Outcome::Fine)
}

/// How so many turns of a file end on these inputs: those of its source, and of its strict, its checked and its unrolled code.
pub fn outcomes(
    alloc: Global,
    file: &Admitted,
    bounds: &Bounds,
    inputs: &Inputs,
    turns: u32,
) -> Result<[Outcome; 4], Unread> {
    if !are_storable(file) || turns > 1_000 {
        return Err(Unread::Untyped);
    }
    let schedule = Schedule::new(vec![in alloc; 0; turns as usize]?);
    let source = run(alloc, file, bounds, inputs, &schedule)?;
    let goto = lower(alloc, file)?;
    let first = StrictThread::new(alloc, &goto, bounds)?;
    let strict = end_of(alloc, first, goto.store(), inputs, &schedule)?;
    let checked = insert(alloc, goto)?;
    let first = PlainThread::new(alloc, &checked, bounds)?;
    let plain = end_of(alloc, first, checked.store(), inputs, &schedule)?;
    match unwind(alloc, file, &checked, bounds) {
        Ok(unrolled) => {
            let first = UnrolledThread::new(alloc, &unrolled)?;
            let last = end_of(alloc, first, unrolled.store(), inputs, &schedule)?;
            Ok([source, strict, plain, last])
        }
        Err(_) => Err(Unread::Untyped),
    }
}
