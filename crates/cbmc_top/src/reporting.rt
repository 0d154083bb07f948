//! What is found of a file, as its text and its status tell it.

ghost use Rattle.std.specs.Prelude.{◌≡◌, ◌≤◌, length, Some, None, IfOk, IfSome};
ghost use Rattle.options.specs.Command.{asked_of};
ghost use Rattle.generator.specs.Program.{generated_text};
ghost use Rattle.report.specs.Heads.{head_of};
ghost use Rattle.report.specs.Failing.{failure_of};
ghost use Rattle.report.specs.Report.{success_text as success_bytes, failure_text as failure_bytes};
ghost use Rattle.cbmc_top.specs.Command.{head_asked, purpose_of};
ghost use Rattle.cbmc_top.specs.Answers.{spent_of, status_of, text_of};
ghost use Rattle.cbmc_top.specs.Verdicts.{answer_of};
ghost use Rattle.cbmc_top.specs.Reports.{IsReported};

use crate::failing::Failing;
use crate::finding::{Finding, found};
use core_tree::Name;
use options::Options;
use report::{
    Head, Text, budget_text, failure_text, limit_text, properties_text, refusal_text, success_text,
};
use run_search::Used;
use std::alloc::{AllocError, Global};

/// An answer with the text that says it.
#[derive(Drop)]
pub struct Report {
    pub status: u8,
    pub text: Text,
    pub spent: Option<Used>,
}

/// An answer that rests on no log.
pub fn plain(status: u8, text: Text) -> Report
    ensures { result ≡ record { status = status; text = text; spent = None } }
{
    Report {
        status,
        text,
        spent: None,
    }
}

/// The first lines of a verdict, where so many bytes were checked.
fn head(alloc: Global, options: &Options, size: usize) -> Result<Head, AllocError>
    requires few { size ≤ 1048577 }
    requires size { IfSome options.now.task.generate (λ n. size ≡ length (generated_text n)) }
    ensures { IfOk result (λ h. head_of h ≡ head_asked (asked_of options.now)) }
{
    let bytes = Vec::from_slice(alloc, options.name.as_bytes())?;
    let generated = match options.task.generate {
        Some(threads) => Some((threads, size as u32)),
        None => None,
    };
    Ok(Head {
        generated,
        name: Name { bytes },
        unwind: options.bounds.unwind(),
        assertions: options.bounds.assertions(),
    })
}

/// The text of a success, where so many bytes were checked.
fn success(alloc: Global, options: &Options, size: usize) -> Result<Text, AllocError>
    requires few { size ≤ 1048577 }
    requires size { IfSome options.now.task.generate (λ n. size ≡ length (generated_text n)) }
    ensures { IfOk result (λ text. text ≡ success_bytes (head_asked (asked_of options.now))) }
{
    let head = head(alloc, options, size)?;
    let text = success_text(alloc, &head)?;
    Ok(text)
}

/// The text of a failure, where so many bytes were checked.
fn failure(
    alloc: Global,
    options: &Options,
    size: usize,
    failing: &Failing,
) -> Result<Text, AllocError>
    requires few { size ≤ 1048577 }
    requires size { IfSome options.now.task.generate (λ n. size ≡ length (generated_text n)) }
    ensures { IfOk result (λ text. text ≡ failure_bytes (head_asked (asked_of options.now)) (failure_of failing.now.trace failing.now.function.bytes.items)) }
{
    let head = head(alloc, options, size)?;
    let text = failure_text(alloc, &head, &failing.trace, &failing.function)?;
    Ok(text)
}

/// The text of what was found, with its status.
fn report_finding(
    alloc: Global,
    options: &Options,
    size: usize,
    finding: Finding,
) -> Result<Report, AllocError>
    requires few { size ≤ 1048577 }
    requires size { IfSome options.now.task.generate (λ n. size ≡ length (generated_text n)) }
    ensures status { IfOk result (λ r. r.status ≡ status_of (answer_of finding)) }
    ensures text { IfOk result (λ r. r.text ≡ text_of (asked_of options.now) (answer_of finding)) }
    ensures spent { IfOk result (λ r. r.spent ≡ spent_of (answer_of finding)) }
{
    match finding {
        Finding::Successful(used) => {
            let text = success(alloc, options, size)?;
            Ok(Report {
                status: 0,
                text,
                spent: Some(used),
            })
        }
        Finding::Failed(failing) => {
            let text = failure(alloc, options, size, &failing)?;
            Ok(plain(10, text))
        }
        Finding::Refused(refused) => {
            let text = refusal_text(alloc, &refused)?;
            Ok(plain(6, text))
        }
        Finding::Limited(limit) => {
            let text = limit_text(alloc, limit)?;
            Ok(plain(7, text))
        }
        Finding::Budget(used) => {
            let text = budget_text(alloc, options.budget)?;
            Ok(Report {
                status: 5,
                text,
                spent: Some(used),
            })
        }
        Finding::Listed(properties) => {
            let text = properties_text(alloc, &properties)?;
            Ok(plain(0, text))
        }
    }
}

/// The answer to a command on these bytes.
pub fn report_bytes(alloc: Global, options: &Options, bytes: &[u8]) -> Result<Report, AllocError>
    requires few { length bytes.now ≤ 1048577 }
    requires size { IfSome options.now.task.generate (λ n. length bytes.now ≡ length (generated_text n)) }
    ensures { IfOk result (λ r. IsReported (asked_of options.now) bytes.now r.status r.text r.spent) }
{
    let finding = found(alloc, bytes, options)?;
    report_finding(alloc, options, bytes.len(), finding)
}
