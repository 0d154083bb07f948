//! A run that breaks a check, with what its text tells besides.

ghost use Rattle.std.specs.Prelude.{◌≡◌, ℕ, true, List, IfOk, Some};
ghost use Rattle.core_tree.specs.Trees.{view_core};
ghost use Rattle.report.specs.Failing.{failure_of};
ghost use Rattle.report.specs.Identifiers.{is_identifier};
ghost use Rattle.cbmc_top.specs.Programs.{IsFileOf};
ghost use Rattle.cbmc_top.specs.Spelled.{IsTypedOf};
ghost use Rattle.cbmc_top.specs.Answers.{name_in, IsFailure};
ghost use Rattle.cbmc_top.specs.Verdicts.{IsBroken};

use c_profile::Admitted;
use core_tree::{Bounds, Core, Name, function_name};
use interleave::Trace;
use report::trace_is_told;
use std::alloc::{AllocError, Global};
use told_lines::told_lines;

/// A run that breaks a check, and the name of the function that the check stands in.
#[derive(Drop)]
pub struct Failing {
    pub trace: Trace,
    pub function: Name,
}

/// The same name.
fn copied(alloc: Global, name: &Name) -> Result<Name, AllocError>
    ensures { IfOk result (λ n. n.bytes.items ≡ name.now.bytes.items) }
{
    let bytes = Vec::from_slice(alloc, &name.bytes)?;
    Ok(Name { bytes })
}

/// The name of the function with this number.
fn name_of(alloc: Global, core: &Core, function: u32) -> Result<Name, AllocError>
    requires { (name : List ℕ) × (name_in (view_core core.now) function ≡ Some name) × (is_identifier name ≡ true) }
    ensures { IfOk result (λ name. name_in (view_core core.now) function ≡ Some name.bytes.items) }
{
    let Some(name) = function_name(core, function) else {
        unreachable!()
    };
    copied(alloc, name)
}

/// The failure that a trace of a program is.
pub fn described(
    alloc: Global,
    file: &Admitted,
    bounds: &Bounds,
    trace: Trace,
) -> Result<Failing, AllocError>
    requires typed { (bytes : List ℕ) × IsTypedOf bytes (view_core file.now) }
    requires program { (bytes : List ℕ) × IsFileOf bytes (view_core file.now) }
    requires broken { IsBroken bounds.now (view_core file.now) trace }
    ensures trace { IfOk result (λ f. f.trace ≡ trace) }
    ensures failure { IfOk result (λ f. IsFailure bounds.now (view_core file.now) (failure_of f.trace f.function.bytes.items)) }
{
    told_lines();
    trace_is_told(&trace);
    // Read, so that it is known to fit.
    let _thread = trace.check.thread;
    let function = name_of(alloc, file.core(), trace.check.function)?;
    Ok(Failing { trace, function })
}
