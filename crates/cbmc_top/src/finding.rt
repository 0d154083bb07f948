//! What is found of the bytes of a file.

ghost use Rattle.std.specs.Prelude.{◌≡◌, ◌≤◌, IfOk, IfErr, OnErr};
ghost use Rattle.options.specs.Command.{asked_of};
ghost use Rattle.cbmc_top.specs.Answers.{Decides};
ghost use Rattle.cbmc_top.specs.Command.{Purpose, checking, listing, purpose_of};
ghost use Rattle.run_search.specs.Stops.{StopsWith};
ghost use Rattle.cbmc_top.specs.Verdicts.{answer_of, IsStop, IsTraced};
ghost use Rattle.run_search.specs.declared.stop.Stop.TheVariants as stops;

use crate::accepting::{accept, list};
use crate::failing::{Failing, described};
use core_tree::{Bounds, Limit, Refusal};
use options::{Job, Options};
use report::Property;
use run_search::{Searched, Stop, Used, search};
use std::alloc::{AllocError, Global};

/// What is found of a file.
#[derive(Drop)]
pub enum Finding {
    /// No run breaks a check: the clauses of the file, and a refutation of them.
    Successful(Used),
    /// A run that breaks a check.
    Failed(Failing),
    /// Why the file is not checked.
    Refused(Refusal),
    /// The quantity that passes its limit.
    Limited(Limit),
    /// The clauses of the file, and a log that has used up the budget.
    Budget(Used),
    /// The loops and assertions of the file.
    Listed(Vec<Property>),
}

/// The program of the file, and what its runs do.
fn checked(alloc: Global, file: &[u8], bounds: &Bounds, budget: u32) -> Result<Finding, Stop>
    requires { 1 ≤ budget }
    ensures found { IfOk result (λ f. Decides (checking bounds.now budget) file.now (answer_of f)) }
    ensures traced { IfOk result (λ f. IsTraced bounds.now file.now f) }
    ensures stop { IfErr result (λ s. StopsWith s (Decides (checking bounds.now budget) file.now)) }
{
    let program = accept(alloc, file)?;
    let searched = search(alloc, &program, bounds, budget)?;
    match searched {
        Searched::Refuted(used) => Ok(Finding::Successful(used)),
        Searched::Broken(trace) => {
            let failing = described(alloc, &program, bounds, trace)?;
            Ok(Finding::Failed(failing))
        }
        Searched::Budget(used) => Ok(Finding::Budget(used)),
    }
}

/// What a stop says of a file: a refusal and a limit are always told.
fn stopped(stop: Stop) -> Result<Finding, AllocError>
    ensures is { IfOk result (λ f. IsStop stop f) }
    ensures told { OnErr result (stop ≡ stops.Memory) }
{
    match stop {
        Stop::Refused(refused) => Ok(Finding::Refused(refused)),
        Stop::Limited(limit) => Ok(Finding::Limited(limit)),
        Stop::Memory => Err(AllocError),
    }
}

/// What is found of the bytes of a file: its size, its tokens, its tree, its typing, the profile, its counts, the search of its
/// runs.
pub fn examine(
    alloc: Global,
    file: &[u8],
    bounds: &Bounds,
    budget: u32,
) -> Result<Finding, AllocError>
    requires { 1 ≤ budget }
    ensures found { IfOk result (λ f. Decides (checking bounds.now budget) file.now (answer_of f)) }
    ensures traced { IfOk result (λ f. IsTraced bounds.now file.now f) }
{
    match checked(alloc, file, bounds, budget) {
        Ok(finding) => Ok(finding),
        Err(stop) => stopped(stop),
    }
}

/// The loops and assertions of a file, or what stops it.
fn survey(alloc: Global, file: &[u8]) -> Result<Finding, AllocError>
    ensures { IfOk result (λ f. Decides listing file.now (answer_of f)) }
{
    match list(alloc, file) {
        Ok(properties) => Ok(Finding::Listed(properties)),
        Err(stop) => stopped(stop),
    }
}

/// What a command finds of the bytes of a file.
pub fn found(alloc: Global, file: &[u8], options: &Options) -> Result<Finding, AllocError>
    ensures { IfOk result (λ f. Decides (purpose_of (asked_of options.now)) file.now (answer_of f)) }
{
    match options.task.job {
        Job::Check => examine(alloc, file, &options.bounds, options.budget),
        Job::Properties => survey(alloc, file),
    }
}
