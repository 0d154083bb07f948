//! The verdict on the bytes of a file.

ghost use Rattle.std.specs.Prelude.{◌≡◌, IfOk};
ghost use Rattle.cbmc_top.specs.Verdicts.{IsVerdict};

use crate::finding::{Finding, examine};
use core_tree::{Limit, Refusal};
use interleave::Trace;
use options::{Job, Options};
use run_search::Used;
use std::alloc::{AllocError, Global};

/// What is said of a file.
#[derive(Drop)]
pub enum Verdict {
    /// No run within the bounds breaks a check: the clauses of the file, and a refutation of them.
    Successful(Used),
    /// A run that breaks a check.
    Failed(Trace),
    /// Why the file is not checked.
    Refused(Refusal),
    /// The quantity that passes its limit.
    Limited(Limit),
    /// The clauses of the file, and a log that has used up the budget.
    Budget(Used),
}

/// The verdict on the bytes of a file under these bounds and this budget: why it is refused or which limit it passes, in the order of its
/// size, its tokens, its tree, its typing, the profile and its counts; else whether a run breaks a check, or that the
/// budget was used up before that was known.
pub fn check_bytes(alloc: Global, file: &[u8], options: &Options) -> Result<Verdict, AllocError>
    requires { options.now.task.job ≡ Job.Check }
    ensures { IfOk result (λ v. IsVerdict options.now.bounds options.now.budget file.now v) }
{
    match examine(alloc, file, &options.bounds, options.budget)? {
        Finding::Successful(used) => Ok(Verdict::Successful(used)),
        Finding::Failed(failing) => Ok(Verdict::Failed(failing.trace)),
        Finding::Refused(refused) => Ok(Verdict::Refused(refused)),
        Finding::Limited(limit) => Ok(Verdict::Limited(limit)),
        Finding::Budget(used) => Ok(Verdict::Budget(used)),
        Finding::Listed(_) => unreachable!(),
    }
}
