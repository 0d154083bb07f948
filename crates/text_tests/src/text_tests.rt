//! Tests of the texts that are written.

use core_tree::{Limit, Name, Refusal};
use interleave::{Inputs, Schedule, Trace, Words};
use report::{Head, Text, budget_text, failure_text, limit_text, refusal_text, success_text};
use std::alloc::{AllocError, Global};
use std::test::Fail;
use words::{Check, Class};

const SAFE: &str = "file a.c unwind 8\nVERIFICATION SUCCESSFUL\n";

/// The text of a failure of a generated program.
const FAILED: &str =
    "generated 3 bytes 499\nfile generated-3 unwind 1000\nunwinding assertions off\nviolated invalid-pointer line 4294967295 function _f9 thread 2\ninputs 1: 0 18446744073709551615\ninputs 2: 3\nschedule 0x1 2x3 0x2\nVERIFICATION FAILED\n";

fn name(alloc: Global, bytes: &[u8]) -> Result<Name, AllocError> {
    let bytes = Vec::from_slice(alloc, bytes)?;
    Ok(Name { bytes })
}

fn words(alloc: Global, words: &[u64]) -> Result<Words, AllocError> {
    let words = Vec::from_slice(alloc, words)?;
    Ok(Words::new(words))
}

/// The texts of a success under these settings.
static SETTINGS: [(Option<(u32, u32)>, u32, bool, &str); 3] = [
    (None, 8, true, SAFE),
    (
        None,
        2,
        false,
        "file a.c unwind 2\nunwinding assertions off\nVERIFICATION SUCCESSFUL\n",
    ),
    (
        Some((3, 499)),
        8,
        true,
        "generated 3 bytes 499\nfile a.c unwind 8\nVERIFICATION SUCCESSFUL\n",
    ),
];

#[test]
fn settings_stand_in_the_text(rt: HostRuntime) -> Result<(), Fail> {
    let alloc = rt.alloc();
    for (generated, unwind, assertions, wanted) in SETTINGS {
        let head = Head {
            generated,
            name: name(alloc, b"a.c")?,
            unwind,
            assertions,
        };
        let text = success_text(alloc, &head)?;
        assert_eq!(rt; text.as_bytes(), wanted.as_bytes());
    }
    Ok(())
}

/// Threads 1 and 2 drew, and thread 0 did not.
fn inputs(alloc: Global) -> Result<Inputs, AllocError> {
    let mut inputs = Inputs::new(alloc);
    inputs.insert(2, words(alloc, &[3])?)?;
    inputs.insert(0, words(alloc, &[])?)?;
    inputs.insert(1, words(alloc, &[0, 18_446_744_073_709_551_615])?)?;
    Ok(inputs)
}

/// The text of a failure by this schedule.
fn failed(alloc: Global, schedule: &[u32]) -> Result<Text, AllocError> {
    let head = Head {
        generated: Some((3, 499)),
        name: name(alloc, b"generated-3")?,
        unwind: 1000,
        assertions: false,
    };
    let check = Check {
        class: Class::InvalidPointer,
        line: 4_294_967_295,
        function: 7,
        thread: 2,
    };
    let schedule = Schedule::new(Vec::from_slice(alloc, schedule)?);
    let trace = Trace {
        inputs: inputs(alloc)?,
        schedule,
        check,
    };
    failure_text(alloc, &head, &trace, &name(alloc, b"_f9")?)
}

#[test]
fn a_failure_is_written(rt: HostRuntime) -> Result<(), Fail> {
    let text = failed(rt.alloc(), &[0, 2, 2, 2, 0, 0])?;
    assert_eq!(rt; text.as_bytes(), FAILED.as_bytes());
    Ok(())
}

#[test]
fn other_answers_are_written(rt: HostRuntime) -> Result<(), Fail> {
    let alloc = rt.alloc();
    let text = refusal_text(alloc, &Refusal::new(1, 3, None))?;
    assert_eq!(rt; text.as_bytes(), b"refused 1 BadByte line 3\n".as_slice());
    let text = refusal_text(alloc, &Refusal::new(12, 1, Some(2)))?;
    assert_eq!(rt;
        text.as_bytes(),
        b"refused 12 Outside line 1 rule 2\n".as_slice()
    );
    let text = limit_text(alloc, Limit::Places)?;
    assert_eq!(rt; text.as_bytes(), b"limit places 2000000\n".as_slice());
    let text = budget_text(alloc, 7)?;
    assert_eq!(rt; text.as_bytes(), b"budget 7\n".as_slice());
    Ok(())
}
