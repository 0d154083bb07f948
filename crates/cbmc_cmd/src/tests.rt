//! Worked examples, through the top call.

ghost use Rattle.std.specs.Prelude.{◌≡◌, ◌≤◌, IfOk};

use cbmc_top::{
    Job, Options, Task, Used, Verdict, check_bytes, listing_answers, one_answer, one_program,
    one_reading, one_verdict, runs_answer, top,
};
use core_tree::{Bounds, Refusal};
use outside::{HeldFile, MemSink, MemSource, SureSink, SureSource};
use refutation_check::Checker;
use std::alloc::{AllocError, Global};
use std::test::Fail;

const A: [&str; 2] = ["cbmc", "a.c"];

const USAGE: &str = "usage: cbmc FILE [OPTIONS]\n";

const SEVEN: &str = "int main(void){int x=nondet_int();assert(x!=7);return 0;}";

/// Five bytes below 4 that differ: there are none.
const FIVE: &str =
    "int main(void){unsigned char a=nondet_uchar()&3,b=nondet_uchar()&3,c=nondet_uchar()&3,d=nondet_uchar()&3,e=nondet_uchar()&3;__CPROVER_assume(a!=b&&a!=c&&a!=d&&a!=e&&b!=c&&b!=d&&b!=e&&c!=d&&c!=e&&d!=e);assert(0);return 0;}";

const SEVEN_BREAKS: &str =
    "file a.c unwind 8\nviolated assertion line 1 function main thread 0\ninputs 0: 7\nschedule 0x2\nVERIFICATION FAILED\n";

const SEVEN_WITHIN: &str =
    "file a.c unwind 3\nunwinding assertions off\nviolated assertion line 1 function main thread 0\ninputs 0: 7\nschedule 0x2\nVERIFICATION FAILED\n";

const LISTED: &str = "assertion line 1 function main\n";

fn words_of(alloc: Global, words: &[&str]) -> Result<Vec<String>, AllocError> {
    let mut all = Vec::new(alloc);
    for word in words {
        all.push(String::from_str(alloc, word)?)?;
    }
    Ok(all)
}

fn files_of(alloc: Global, bytes: &[u8]) -> Result<Vec<HeldFile>, AllocError> {
    let mut files = Vec::new(alloc);
    files.push(HeldFile {
        name: String::from_str(alloc, "a.c")?,
        bytes: Vec::from_slice(alloc, bytes)?,
    })?;
    Ok(files)
}

/// Which reads and writes fail, by number from 1, and how many bytes a write takes.
#[derive(Clone, Copy)]
struct Outside {
    failing_read: u64,
    failing_write: u64,
    per_write: usize,
}

const WELL: Outside = Outside {
    failing_read: 0,
    failing_write: 0,
    per_write: 1000,
};

/// The status of a call on a file `a.c` with these bytes, and what its sink took.
fn outcome(
    alloc: Global,
    words: &[&str],
    file: &[u8],
    outside: Outside,
) -> Result<(u8, MemSink), AllocError> {
    let words = words_of(alloc, words)?;
    let reads = Vec::from_slice(alloc, &[outside.failing_read])?;
    let writes = Vec::from_slice(alloc, &[outside.failing_write])?;
    let mut source = MemSource::new(alloc, files_of(alloc, file)?, reads);
    let mut sink = MemSink::new(alloc, 1000, outside.per_write, writes)?;
    let done = top(alloc, &words, &mut source, &mut sink);
    Ok((done.status, sink))
}

/// Words that are no command, that name a file that isn't there, or that have options.
static WORDS: [(&[&str], u8, &str); 15] = [
    (&[], 1, USAGE),
    (&["cbmc"], 1, USAGE),
    (&["cbmc", "a.c", "b.c"], 1, USAGE),
    (&["cbmc", "-a.c"], 1, USAGE),
    (&["cbmc", "--unwind=3"], 1, USAGE),
    (&["cbmc", ""], 1, USAGE),
    (&["cbmc", "a\tc"], 1, USAGE),
    (&["cbmc", "a\x7fc"], 1, USAGE),
    (&["cbmc", "b.c"], 8, "read fault\n"),
    (&["cbmc", "-"], 8, "read fault\n"),
    (&["cbmc", "a.c", "--unwind", "0"], 1, USAGE),
    (&["cbmc", "--generate", "3", "a.c"], 1, USAGE),
    (&["cbmc", "--show-properties", "a.c"], 0, LISTED),
    (
        &["cbmc", "a.c", "--unwind=3", "--no-unwinding-assertions"],
        10,
        SEVEN_WITHIN,
    ),
    (&["cbmc", "--generate=3"], 6, "refused 10 Syntax line 3\n"),
];

/// Faults and part writes on the file whose assertion breaks at 7.
static FAULTS: [(Outside, u8, &str); 4] = [
    (
        Outside {
            failing_read: 1,
            failing_write: 0,
            per_write: 1000,
        },
        8,
        "read fault\n",
    ),
    (
        Outside {
            failing_read: 0,
            failing_write: 1,
            per_write: 1000,
        },
        9,
        "",
    ),
    (
        Outside {
            failing_read: 0,
            failing_write: 2,
            per_write: 5,
        },
        9,
        "file ",
    ),
    (
        Outside {
            failing_read: 0,
            failing_write: 0,
            per_write: 7,
        },
        10,
        SEVEN_BREAKS,
    ),
];

#[test]
fn words_and_faults_are_answered(rt: HostRuntime) -> Result<(), Fail> {
    let alloc = rt.alloc();
    for (i, (words, status, text)) in WORDS.iter().enumerate() {
        let (answer, sink) = outcome(alloc, words, SEVEN.as_bytes(), WELL)?;
        assert_eq!(rt; answer, *status, "words {i}");
        assert_eq!(rt; sink.taken(), text.as_bytes(), "words {i}");
    }
    for (i, (outside, status, text)) in FAULTS.iter().enumerate() {
        let (answer, sink) = outcome(alloc, &A, SEVEN.as_bytes(), *outside)?;
        assert_eq!(rt; answer, *status, "fault {i}");
        assert_eq!(rt; sink.taken(), text.as_bytes(), "fault {i}");
    }
    Ok(())
}

/// The ends that never fail, and the size limit.
#[test]
fn sizes_are_limited(rt: HostRuntime) -> Result<(), Fail> {
    let alloc = rt.alloc();
    let words = words_of(alloc, &A)?;
    for (size, status) in [(1_048_576, 6), (1_048_577, 7)] {
        let spaces = vec![in alloc; b' '; size]?;
        let mut source = SureSource::new(files_of(alloc, &spaces)?);
        let done = top(alloc, &words, &mut source, &mut SureSink);
        assert_eq!(rt; done.status, status, "{size} spaces");
    }
    Ok(())
}

/// The options of a command on a file `a.c` with this budget.
fn plain_options(alloc: Global, budget: u32) -> Result<Options, AllocError>
    requires some { 1 ≤ budget }
    requires most { budget ≤ 1000000000 }
    ensures { IfOk result (λ o. o.task.job ≡ Job.Check) }
{
    Ok(Options {
        name: String::from_str(alloc, "a.c")?,
        bounds: Bounds::new(8, Vec::new(alloc), true, 256, false),
        budget,
        task: Task {
            job: Job::Check,
            generate: None,
        },
    })
}

/// The call on bytes alone.
#[test]
fn bytes_are_checked(rt: HostRuntime) -> Result<(), Fail> {
    let alloc = rt.alloc();
    let options = plain_options(alloc, 1)?;
    match check_bytes(alloc, SEVEN.as_bytes(), &options)? {
        Verdict::Failed(trace) => {
            assert_eq!(rt; trace.inputs.words(0), [7].as_slice());
            assert_eq!(rt; trace.schedule.as_slice(), [0, 0].as_slice());
            assert_eq!(rt; trace.check.line, 1);
        }
        _ => assert!(rt; false),
    }
    match check_bytes(alloc, b"int x;", &options)? {
        Verdict::Refused(refused) => assert_eq!(rt; refused, Refusal::new(12, 1, Some(1))),
        _ => assert!(rt; false),
    }
    one_program();
    one_answer();
    one_verdict();
    runs_answer();
    listing_answers();
    one_reading();
    Ok(())
}

/// Whether the log is accepted as a refutation of the clauses.
fn is_refuted(alloc: Global, used: &Used) -> Result<bool, AllocError> {
    let variables = used.form.variables();
    let mut checker = Checker::new(alloc, variables, variables as usize)?;
    Ok(used.log.is_within(variables) && checker.check(&used.form, &used.log))
}

/// One conflict doesn't refute the clauses of five numbers below 4 that differ; a million do.
#[test]
fn budgets_are_used_up(rt: HostRuntime) -> Result<(), Fail> {
    let alloc = rt.alloc();
    let one = plain_options(alloc, 1)?;
    match check_bytes(alloc, FIVE.as_bytes(), &one)? {
        Verdict::Budget(used) => {
            assert_eq!(rt; used.log.entries().len(), 1);
            assert!(rt; !is_refuted(alloc, &used)?);
        }
        _ => assert!(rt; false),
    }
    let most = plain_options(alloc, 1_000_000)?;
    match check_bytes(alloc, FIVE.as_bytes(), &most)? {
        Verdict::Successful(used) => assert!(rt; is_refuted(alloc, &used)?),
        _ => assert!(rt; false),
    }
    Ok(())
}
