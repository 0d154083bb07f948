//! Tests of files, of the output, and of their faults.

// Sources and sinks, and the files of the system.

use outside::{
    Failed, FileSource, HeldFile, MemSink, MemSource, ReadError, Sink, Source, StdSink, SureSink,
    SureSource,
};
use std::alloc::{AllocError, Global};
use std::fs;
use std::test::Fail;

// The bytes of a read of at most four, or why there are none.
fn read_four<S: Source>(
    source: &mut S,
    alloc: Global,
    name: &str,
    at: u64,
) -> Result<Vec<u8>, ReadError> {
    let mut into = [0u8; 4];
    let count = source.read(name, at, &mut into)?;
    Vec::from_slice(alloc, &into[..count]).map_err(|_| ReadError::Memory)
}

fn write_once<K: Sink>(sink: &mut K, piece: &[u8]) -> Result<usize, Failed> {
    sink.write(piece)
}

fn held(alloc: Global, name: &str, bytes: &[u8]) -> Result<HeldFile, AllocError> {
    Ok(HeldFile {
        name: String::from_str(alloc, name)?,
        bytes: Vec::from_slice(alloc, bytes)?,
    })
}

fn two_files(alloc: Global) -> Result<Vec<HeldFile>, AllocError> {
    let mut files = Vec::new(alloc);
    files.push(held(alloc, "a.c", b"int x;".as_slice())?)?;
    files.push(held(alloc, "a.c", b"char y;".as_slice())?)?;
    Ok(files)
}

// Each read by number: its name and offset, what it gives, and then the faults of both names.
type Reading = (&'static str, u64, Option<&'static str>, u64, u64);

static READINGS: [Reading; 9] = [
    ("a.c", 0, Some("int "), 0, 0),
    ("a.c", 0, None, 1, 0),
    ("a.c", 4, Some("x;"), 1, 0),
    ("a.c", 6, Some(""), 1, 0),
    ("b.c", 0, None, 1, 1),
    ("b.c", 0, None, 1, 2),
    ("a.c", 0, None, 2, 2),
    ("a.c", u64::MAX, Some(""), 2, 2),
    ("a.c", 1, Some("nt x"), 2, 2),
];

// Whether a read gives this text; or fails, where there is none.
fn gives<S: Source>(
    source: &mut S,
    alloc: Global,
    name: &str,
    at: u64,
    want: Option<&str>,
) -> bool {
    match (read_four(source, alloc, name, at), want) {
        (Ok(bytes), Some(text)) => bytes.as_slice() == text.as_bytes(),
        (Err(error), None) => error == ReadError::Failed,
        _ => false,
    }
}

// The first row that is read otherwise, or leaves other faults.
fn wrong_reading(alloc: Global, source: &mut MemSource, rows: &[Reading]) -> Option<usize> {
    for (i, (name, at, want, of_a, of_b)) in rows.iter().enumerate() {
        let is_given = gives(source, alloc, name, *at, *want);
        if !is_given || source.fault_count("a.c") != *of_a || source.fault_count("b.c") != *of_b {
            return Some(i);
        }
    }
    None
}

// The first row that a source without faults reads otherwise, or that it can't read.
fn wrong_sure_reading(alloc: Global, source: &mut SureSource, rows: &[Reading]) -> Option<usize> {
    for (i, (name, at, want, ..)) in rows.iter().enumerate() {
        let is_given = match want {
            Some(text) => gives(source, alloc, name, *at, Some(text)),
            None => read_four(source, alloc, name, *at).is_ok(),
        };
        if !is_given {
            return Some(i);
        }
    }
    None
}

#[test]
fn sources_read_what_they_hold(rt: HostRuntime) -> Result<(), Fail> {
    let alloc = rt.alloc();
    let failing = Vec::from_slice(alloc, &[7, 2])?;
    let mut source = MemSource::new(alloc, two_files(alloc)?, failing);
    let mut sure = SureSource::new(two_files(alloc)?);
    assert_eq!(rt; wrong_reading(alloc, &mut source, &READINGS), None);
    assert_eq!(rt; wrong_sure_reading(alloc, &mut sure, &READINGS), None);
    assert!(rt; read_four(&mut sure, alloc, "b.c", 0)?.is_empty());
    Ok(())
}

// The room, the bytes per write and the write that fails; what three writes take; all that was taken, and the faults.
type Written = (usize, usize, u64, [Option<usize>; 3], &'static str, u64);

static WRITINGS: [Written; 4] = [
    (40, 5, 2, [Some(5), None, Some(5)], "file file ", 1),
    (12, 40, 0, [Some(9), Some(3), Some(0)], "file a.c\nfil", 1),
    (40, 0, 1, [None, Some(0), Some(0)], "", 3),
    (
        40,
        40,
        3,
        [Some(9), Some(9), None],
        "file a.c\nfile a.c\n",
        1,
    ),
];

// Whether the first three writes to a sink take so much, and leave this text and so many faults.
fn takes(alloc: Global, row: &Written) -> Result<bool, AllocError> {
    let (room, per_call, failing, want, text, faults) = row;
    let failing = Vec::from_slice(alloc, &[*failing])?;
    let mut sink = MemSink::new(alloc, *room, *per_call, failing)?;
    for count in want {
        if write_once(&mut sink, b"file a.c\n".as_slice()).ok() != *count {
            return Ok(false);
        }
    }
    let last = write_once(&mut sink, &[]);
    Ok(last == Ok(0) && sink.taken() == text.as_bytes() && sink.fault_count() == *faults)
}

// The first row whose writes do something else.
fn wrong_writing(alloc: Global, rows: &[Written]) -> Result<Option<usize>, AllocError> {
    for (i, row) in rows.iter().enumerate() {
        if !takes(alloc, row)? {
            return Ok(Some(i));
        }
    }
    Ok(None)
}

#[test]
fn sinks_take_what_fits(rt: HostRuntime) -> Result<(), Fail> {
    assert_eq!(rt; wrong_writing(rt.alloc(), &WRITINGS)?, None);
    assert_eq!(rt; write_once(&mut SureSink, b"file a.c\n".as_slice()), Ok(9));
    Ok(())
}

const NAME: &str = "outside_test.c";

// What reads of the file of the system at these offsets give.
static PARTS: [(u64, &str); 3] = [(0, "int "), (4, "x;"), (6, "")];

// The first row that is read otherwise from a source.
fn wrong_part<S: Source>(source: &mut S, alloc: Global, rows: &[(u64, &str)]) -> Option<usize> {
    for (i, (at, text)) in rows.iter().enumerate() {
        if !gives(source, alloc, NAME, *at, Some(text)) {
            return Some(i);
        }
    }
    None
}

#[test]
fn the_system_reads(rt: HostRuntime) -> Result<(), Fail> {
    let alloc = rt.alloc();
    fs::write(&rt, NAME, "int x;")?;
    let mut source = FileSource::new(alloc, &rt);
    let wrong = wrong_part(&mut source, alloc, &PARTS);
    let faults = source.fault_count(NAME);
    fs::remove_file(&rt, NAME)?;
    assert_eq!(rt; (wrong, faults), (None, 0));
    // A file that is missing, and a folder.
    for name in [NAME, "."] {
        let is_missing = gives(&mut source, alloc, name, 0, None);
        assert_eq!(rt; (is_missing, source.fault_count(name)), (true, 1), "{name}");
    }
    Ok(())
}

#[test]
fn the_system_writes(rt: HostRuntime) -> Result<(), Fail> {
    let mut sink = StdSink::new(&rt);
    assert_eq!(rt; write_once(&mut sink, b"taken\n".as_slice()), Ok(6));
    assert_eq!(rt; sink.fault_count(), 0);
    Ok(())
}
