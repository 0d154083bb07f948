//! Tests of the command: lists of words, and what they ask for.

use options::{CommandError, Job, Options, read_words};
use std::alloc::{AllocError, Global};
use std::fmt::Write;
use std::test::Fail;

/// The words of a row, behind the program's name; `~` stands for the empty word.
fn words_of(alloc: Global, row: &str) -> Result<Vec<String>, AllocError> {
    let mut words = Vec::new(alloc);
    words.push(String::from_str(alloc, "cbmc")?)?;
    for word in row.split(' ') {
        if word == "~" {
            words.push(String::new(alloc))?;
        } else if !word.is_empty() {
            words.push(String::from_str(alloc, word)?)?;
        }
    }
    Ok(words)
}

/// The bounds of single loops, as a list.
fn show_set(alloc: Global, options: &Options) -> Result<String, AllocError> {
    let mut text = String::new(alloc);
    let mut space = "";
    for bound in options.bounds.set() {
        let function = String::from_utf8_lossy(alloc, &bound.function.bytes)?;
        let number = bound.number;
        let unwind = bound.unwind;
        write!(text, "{space}{function}.{number}:{unwind}")?;
        space = " ";
    }
    Ok(text)
}

/// Options on one line: name, unwinding, set, assertions, greatest allocation, whether it may fail, budget, job and threads.
fn show(alloc: Global, options: &Options) -> Result<String, AllocError> {
    let name = options.name.as_str();
    let unwind = options.bounds.unwind();
    let set = show_set(alloc, options)?;
    let assertions = if options.bounds.assertions() {
        "on"
    } else {
        "off"
    };
    let limit = options.bounds.malloc_limit();
    let may_fail = if options.bounds.malloc_may_fail() {
        "yes"
    } else {
        "no"
    };
    let budget = options.budget;
    let job = match options.task.job {
        Job::Check => "check",
        Job::Properties => "properties",
    };
    let mut text = format!(in alloc;
        "{name} {unwind} [{set}] {assertions} {limit} {may_fail} {budget} {job}"
    )?;
    match options.task.generate {
        Some(count) => write!(text, " {count}")?,
        None => text.push_str(" -")?,
    }
    Ok(text)
}

/// What a row gives.
fn told(alloc: Global, row: &str) -> Result<String, AllocError> {
    let words = words_of(alloc, row)?;
    match read_words(alloc, &words) {
        Ok(options) => show(alloc, &options),
        Err(CommandError::Usage) => String::from_str(alloc, "usage"),
        Err(CommandError::Memory) => String::from_str(alloc, "memory"),
    }
}

static ROWS: [(&str, &str); 85] = [
    ("", "usage"),
    ("a.c", "a.c 8 [] on 256 no 1000000 check -"),
    ("a.c b.c", "usage"),
    ("-", "- 8 [] on 256 no 1000000 check -"),
    ("~", "usage"),
    ("--", "usage"),
    ("-- a.c", "a.c 8 [] on 256 no 1000000 check -"),
    ("-- -a.c", "-a.c 8 [] on 256 no 1000000 check -"),
    ("-- --", "-- 8 [] on 256 no 1000000 check -"),
    ("-- --unwind", "--unwind 8 [] on 256 no 1000000 check -"),
    ("-- a.c b.c", "usage"),
    ("a.c --", "a.c 8 [] on 256 no 1000000 check -"),
    ("a.c -- b.c", "usage"),
    ("a.c -- --unwind 3", "usage"),
    ("--unwind -- 3 a.c", "usage"),
    ("-a.c", "usage"),
    ("-h", "usage"),
    ("--help", "usage"),
    ("--version", "usage"),
    ("-V", "usage"),
    ("help", "help 8 [] on 256 no 1000000 check -"),
    ("a.c --nothing", "usage"),
    ("--unwind 3 a.c", "a.c 3 [] on 256 no 1000000 check -"),
    ("a.c --unwind 3", "a.c 3 [] on 256 no 1000000 check -"),
    ("a.c --unwind=3", "a.c 3 [] on 256 no 1000000 check -"),
    ("a.c --unwind 08", "a.c 8 [] on 256 no 1000000 check -"),
    (
        "a.c --unwind=0000000008",
        "a.c 8 [] on 256 no 1000000 check -",
    ),
    ("a.c --unwind 00000000008", "usage"),
    ("a.c --unwind 0", "usage"),
    ("a.c --unwind 1000", "a.c 1000 [] on 256 no 1000000 check -"),
    ("a.c --unwind 1001", "usage"),
    ("a.c --unwind +8", "usage"),
    ("a.c --unwind=+8", "usage"),
    ("a.c --unwind -8", "usage"),
    ("a.c --unwind=-8", "usage"),
    ("a.c --unwind -", "usage"),
    ("a.c --unwind 0x8", "usage"),
    ("a.c --unwind", "usage"),
    ("a.c --unwind=", "usage"),
    ("a.c --unwind ~", "usage"),
    ("a.c --unwind 3 --unwind 3", "usage"),
    ("a.c --unwind=3 --unwind 4", "usage"),
    ("a.c --unwin 3", "usage"),
    ("a.c -unwind 3", "usage"),
    ("a.c --unwind=3=4", "usage"),
    (
        "a.c --unwindset f.0:3",
        "a.c 8 [f.0:3] on 256 no 1000000 check -",
    ),
    (
        "a.c --unwindset=f.0:3,main.1:1000,_g9.9999999999:1",
        "a.c 8 [f.0:3 main.1:1000 _g9.9999999999:1] on 256 no 1000000 check -",
    ),
    (
        "a.c --unwindset f.00:3",
        "a.c 8 [f.0:3] on 256 no 1000000 check -",
    ),
    ("a.c --unwindset f.0:3,f.00:4", "usage"),
    (
        "a.c --unwindset f.0:3,f.1:3,g.0:3",
        "a.c 8 [f.0:3 f.1:3 g.0:3] on 256 no 1000000 check -",
    ),
    ("a.c --unwindset f.0:3,,g.0:3", "usage"),
    ("a.c --unwindset ,f.0:3", "usage"),
    ("a.c --unwindset f.0:3,", "usage"),
    ("a.c --unwindset=", "usage"),
    ("a.c --unwindset f.0:0", "usage"),
    ("a.c --unwindset f.0:1001", "usage"),
    ("a.c --unwindset f.00000000000:1", "usage"),
    ("a.c --unwindset 9f.0:1", "usage"),
    ("a.c --unwindset .0:1", "usage"),
    ("a.c --unwindset f.0", "usage"),
    ("a.c --unwindset f:1", "usage"),
    ("a.c --unwindset f.0:1:1", "usage"),
    ("a.c --unwindset f.0:1 --unwindset g.0:1", "usage"),
    (
        "a.c --no-unwinding-assertions",
        "a.c 8 [] off 256 no 1000000 check -",
    ),
    ("a.c --no-unwinding-assertions=", "usage"),
    ("a.c --no-unwinding-assertions=true", "usage"),
    (
        "a.c --no-unwinding-assertions --no-unwinding-assertions",
        "usage",
    ),
    ("--malloc-limit 1 a.c", "a.c 8 [] on 1 no 1000000 check -"),
    (
        "a.c --malloc-limit 4096",
        "a.c 8 [] on 4096 no 1000000 check -",
    ),
    ("a.c --malloc-limit 4097", "usage"),
    ("a.c --malloc-limit 0", "usage"),
    (
        "a.c --malloc-may-fail",
        "a.c 8 [] on 256 yes 1000000 check -",
    ),
    ("a.c --budget 1", "a.c 8 [] on 256 no 1 check -"),
    (
        "a.c --budget=1000000000",
        "a.c 8 [] on 256 no 1000000000 check -",
    ),
    ("a.c --budget 1000000001", "usage"),
    ("a.c --budget 9999999999", "usage"),
    ("a.c --budget 0", "usage"),
    (
        "--show-properties a.c",
        "a.c 8 [] on 256 no 1000000 properties -",
    ),
    ("--generate 1", "generated-1 8 [] on 256 no 1000000 check 1"),
    (
        "--generate=016",
        "generated-16 8 [] on 256 no 1000000 check 16",
    ),
    ("--generate 17", "usage"),
    ("--generate 0", "usage"),
    ("--generate 2 a.c", "usage"),
    (
        "--generate 2 --show-properties --unwind 2 --malloc-may-fail --budget 7 --malloc-limit 5 --no-unwinding-assertions --unwindset f.1:2",
        "generated-2 2 [f.1:2] off 5 yes 7 properties 2",
    ),
    ("--show-properties", "usage"),
];

/// The first row that gives something else.
fn wrong_row(alloc: Global, rows: &[(&str, &str)]) -> Result<Option<usize>, AllocError> {
    for (i, (row, wanted)) in rows.iter().enumerate() {
        let given = told(alloc, row)?;
        if given.as_str() != *wanted {
            return Ok(Some(i));
        }
    }
    Ok(None)
}

#[test]
fn words_are_read(rt: HostRuntime) -> Result<(), Fail> {
    assert_eq!(rt; wrong_row(rt.alloc(), &ROWS)?, None);
    Ok(())
}

#[test]
fn no_word_and_control_characters_are_refused(rt: HostRuntime) -> Result<(), Fail> {
    let alloc = rt.alloc();
    let none: Vec<String> = Vec::new(alloc);
    assert!(rt; matches!(read_words(alloc, &none), Err(CommandError::Usage)));
    for name in ["a\nb.c", "\u{1f}", "a\u{7f}", "a b.c", "\u{e4}.c"] {
        let mut words = Vec::new(alloc);
        words.push(String::from_str(alloc, "cbmc")?)?;
        words.push(String::from_str(alloc, name)?)?;
        let is_command = read_words(alloc, &words).is_ok();
        let is_wanted = name == "a b.c" || name == "\u{e4}.c";
        assert_eq!(rt; is_command, is_wanted);
    }
    Ok(())
}

#[test]
fn a_thousand_loops_are_read(rt: HostRuntime) -> Result<(), Fail> {
    let alloc = rt.alloc();
    let mut row = String::from_str(alloc, "a.c --unwindset f.0:1")?;
    for number in 1..1000u32 {
        write!(row, ",f.{number}:2")?;
    }
    let words = words_of(alloc, &row)?;
    let options = read_words(alloc, &words)?;
    assert_eq!(rt; options.bounds.set().len(), 1000);
    write!(row, ",f.0999:2")?;
    let again = words_of(alloc, &row)?;
    assert!(rt; matches!(read_words(alloc, &again), Err(CommandError::Usage)));
    Ok(())
}
