//! Tests of what the search answers.

// Programs with functions, loops, switches and jumps: their verdicts under bounds, and their refusals.

ghost use Rattle.std.specs.Prelude.{◌≡◌, IfOk, IfSome};

use cbmc_top::{Job, Options, Task, Verdict, check_bytes};
use core_tree::{Bounds, Limit};
use std::alloc::{AllocError, Global};
use std::test::*;
use words::Class;

// Texts with their bounds and whether passing one breaks a check, and their verdicts.
static VERDICTS: [(&str, u32, bool, Option<(Class, u32, u32)>); 14] = [
    (HUNDRED, 101, true, None),
    (HUNDRED, 100, true, Some((Class::Unwind, 1, 0))),
    (HUNDRED, 100, false, None),
    (
        "int main(void){unsigned n=0;while(1){n++;assert(n<100);}}",
        3,
        false,
        None,
    ),
    (
        "int main(void){unsigned n=0;while(1){n++;assert(n<100);}}",
        3,
        true,
        Some((Class::Unwind, 1, 0)),
    ),
    (
        "int main(void){unsigned n=0;while(1){n++;\nassert(n<100);}}",
        101,
        false,
        Some((Class::Assertion, 2, 0)),
    ),
    (DOWN, 8, true, Some((Class::Recursion, 2, 0))),
    (DOWN, 9, true, None),
    (DOWN, 8, false, None),
    (SUM, 4, true, None),
    (SUM, 3, true, Some((Class::Unwind, 1, 0))),
    (SUM, 3, false, None),
    (
        "int f(void){}\nint main(void){int x=f();return x;}",
        8,
        true,
        Some((Class::Return, 2, 1)),
    ),
    (
        "int f(void){}\nint main(void){f();return 0;}",
        8,
        true,
        None,
    ),
];

const HUNDRED: &str = "int main(void){for(int i=0;i<100;i++);return 0;}";

const DOWN: &str = "int f(int n){if(n==0)return 0;\nreturn f(n-1);}\nint main(void){return f(8);}";

const SUM: &str =
    "int main(void){int i=0;int s=0;do{s=s+i;i++;}while(i<4);switch(s){case 6:goto ok;default:assert(0);}ok:return s;}";

// The options of a command on a file `a.c` with these bounds, if they are bounds of a command.
fn options_within(
    alloc: Global,
    unwind: u32,
    assertions: bool,
) -> Result<Option<Options>, AllocError>
    ensures { IfOk result (λ found. IfSome found (λ o. o.task.job ≡ Job.Check)) }
{
    if unwind == 0 || unwind > 1_000 {
        return Ok(None);
    }
    Ok(Some(Options {
        name: String::from_str(alloc, "a.c")?,
        bounds: Bounds::new(unwind, Vec::new(alloc), assertions, 256, false),
        budget: 1_000_000,
        task: Task {
            job: Job::Check,
            generate: None,
        },
    }))
}

// What is said of a text: the check that breaks; None where another thing is said.
fn said(
    alloc: Global,
    text: &str,
    unwind: u32,
    assertions: bool,
) -> Result<Option<Option<(Class, u32, u32)>>, AllocError> {
    match options_within(alloc, unwind, assertions)? {
        None => Ok(None),
        Some(options) => Ok(match check_bytes(alloc, text.as_bytes(), &options)? {
            Verdict::Successful(_) => Some(None),
            Verdict::Failed(trace) => Some(Some((
                trace.check.class,
                trace.check.line,
                trace.check.function,
            ))),
            _ => None,
        }),
    }
}

#[test]
fn programs_have_their_verdicts(rt: HostRuntime) -> Result<(), Fail> {
    for (text, unwind, assertions, check) in VERDICTS {
        let found = said(rt.alloc(), text, unwind, assertions)?;
        assert!(rt; found == Some(check), "{text} within {unwind}");
    }
    Ok(())
}

// Three loops within one another have more places than a program may have, once they are unwound often enough.
#[test]
fn places_are_limited(rt: HostRuntime) -> Result<(), Fail> {
    let alloc = rt.alloc();
    if let Some(options) = options_within(alloc, 1_000, true)? {
        match check_bytes(alloc, b"int main(void){for(;;)for(;;)for(;;);}", &options)? {
            Verdict::Limited(limit) => assert_eq!(rt; limit, Limit::Places),
            _ => assert!(rt; false),
        }
    }
    Ok(())
}
