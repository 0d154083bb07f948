//! Tests of failure texts that are read back.

use report::{TraceError, TraceText, read_trace};
use std::alloc::Global;
use std::test::Fail;
use words::Class;

/// A failure text.
const TEXT: &str =
    "file a.c unwind 8\nviolated assertion line 1 function main thread 0\ninputs 0: 7\nschedule 0x2\nVERIFICATION FAILED\n";

/// A longer one, of a generated file.
const LONG: &str =
    "generated 3 bytes 499\nfile generated-3 unwind 1000\nunwinding assertions off\nviolated invalid-pointer line 4294967295 function _f9 thread 2\ninputs 1: 0 18446744073709551615\ninputs 2: 3\nschedule 0x1 2x18446744073709551615 0x7\nVERIFICATION FAILED\n";

fn read(alloc: Global, text: &[u8]) -> Result<TraceText, TraceError> {
    if text.len() >= 4_294_967_295 {
        return Err(TraceError::Memory);
    }
    read_trace(alloc, text)
}

/// The line that is told of a text that isn't read, and 0 of one that is.
fn bad_line(alloc: Global, text: &[u8]) -> u32 {
    match read(alloc, text) {
        Ok(_) => 0,
        Err(TraceError::BadTrace { line }) => line,
        Err(TraceError::Memory) => u32::MAX,
    }
}

#[test]
fn a_text_tells_its_parts(rt: HostRuntime) -> Result<(), Fail> {
    let Ok(told) = read(rt.alloc(), LONG.as_bytes()) else {
        assert!(rt; false);
        return Ok(());
    };
    assert_eq!(rt; told.name.bytes.as_slice(), b"generated-3".as_slice());
    assert_eq!(rt; told.unwind, 1000);
    assert!(rt; !told.assertions);
    assert!(rt; told.class == Class::InvalidPointer);
    assert_eq!(rt; told.line, 4_294_967_295);
    assert_eq!(rt; told.function.bytes.as_slice(), b"_f9".as_slice());
    assert_eq!(rt; told.thread, 2);
    assert_eq!(rt; told.inputs.words(0), [].as_slice());
    assert_eq!(rt;
        told.inputs.words(1),
        [0, 18_446_744_073_709_551_615].as_slice()
    );
    assert_eq!(rt; told.inputs.words(2), [3].as_slice());
    let rows = told.schedule.as_slice();
    assert_eq!(rt; rows.len(), 3);
    if let [first, second, third] = rows {
        assert_eq!(rt; (first.thread, first.turns), (0, 1));
        assert_eq!(rt;
            (second.thread, second.turns),
            (2, 18_446_744_073_709_551_615)
        );
        assert_eq!(rt; (third.thread, third.turns), (0, 7));
    }
    Ok(())
}

/// A failure text that is cut anywhere tells the line behind those that are whole.
#[test]
fn a_cut_text_tells_its_last_line(rt: HostRuntime) -> Result<(), Fail> {
    for text in [TEXT, LONG] {
        let bytes = text.as_bytes();
        let mut line: u32 = 1;
        for end in 0..bytes.len() {
            let (front, rest) = bytes.split_at(end);
            assert_eq!(rt; bad_line(rt.alloc(), front), line);
            if rest.first() == Some(&b'\n') {
                line = line.saturating_add(1);
            }
        }
        assert_eq!(rt; bad_line(rt.alloc(), bytes), 0);
    }
    Ok(())
}

/// What stands in front of the part that a row of the table changes, and behind it.
const HEAD: &str = "file a.c unwind 8\n";

const CHECK: &str = "violated assertion line 1 function main thread 0\n";

const END: &str = "schedule 0x2\nVERIFICATION FAILED\n";

/// Parts of a text, and the line that is told of it.
static TEXTS: [(&str, &str, &str, u32); 42] = [
    (HEAD, CHECK, END, 0),
    ("file a unwind 3 unwind 8\n", CHECK, END, 0),
    ("file generated-3 unwind 8\n", CHECK, END, 0),
    ("file  unwind 8\n", CHECK, END, 1),
    ("file a\tb unwind 8\n", CHECK, END, 1),
    ("file a.c unwind 0\n", CHECK, END, 1),
    ("file a.c unwind 1\n", CHECK, END, 0),
    ("file a.c unwind 1000\n", CHECK, END, 0),
    ("file a.c unwind 1001\n", CHECK, END, 1),
    ("file a.c unwind 08\n", CHECK, END, 1),
    ("file a.c unwind +8\n", CHECK, END, 1),
    ("file a.c unwind 8 \n", CHECK, END, 1),
    (
        "generated 3 bytes 499\nfile generated-4 unwind 8\n",
        CHECK,
        END,
        2,
    ),
    (
        "generated 3 bytes 499\nfile generated-03 unwind 8\n",
        CHECK,
        END,
        2,
    ),
    (
        "generated 3 bytes 4294967296\nfile generated-3 unwind 8\n",
        CHECK,
        END,
        1,
    ),
    ("unwinding assertions off\n", CHECK, END, 1),
    (
        "file a.c unwind 8\nunwinding assertions off\n",
        CHECK,
        END,
        0,
    ),
    (HEAD, "", END, 2),
    (
        HEAD,
        "violated nothing line 1 function main thread 0\n",
        END,
        2,
    ),
    (
        HEAD,
        "violated assertion line 0 function main thread 0\n",
        END,
        2,
    ),
    (
        HEAD,
        "violated assertion line 4294967296 function main thread 0\n",
        END,
        2,
    ),
    (
        HEAD,
        "violated assertion line 1 function 9 thread 0\n",
        END,
        2,
    ),
    (
        HEAD,
        "violated assertion line 1 function  thread 0\n",
        END,
        2,
    ),
    (
        HEAD,
        "violated assertion line 1 function main thread 4294967296\n",
        END,
        2,
    ),
    (
        HEAD,
        "violated assertion line 1 function main thread 0",
        END,
        2,
    ),
    (
        HEAD,
        CHECK,
        "inputs 0:\nschedule 0x2\nVERIFICATION FAILED\n",
        3,
    ),
    (
        HEAD,
        CHECK,
        "inputs 0: \nschedule 0x2\nVERIFICATION FAILED\n",
        3,
    ),
    (
        HEAD,
        CHECK,
        "inputs 0: 07\nschedule 0x2\nVERIFICATION FAILED\n",
        3,
    ),
    (
        HEAD,
        CHECK,
        "inputs 00: 7\nschedule 0x2\nVERIFICATION FAILED\n",
        3,
    ),
    (
        HEAD,
        CHECK,
        "inputs 0: 18446744073709551616\nschedule 0x2\nVERIFICATION FAILED\n",
        3,
    ),
    (
        HEAD,
        CHECK,
        "inputs 1: 7\ninputs 1: 7\nschedule 0x2\nVERIFICATION FAILED\n",
        4,
    ),
    (
        HEAD,
        CHECK,
        "inputs 1: 7\ninputs 0: 7\nschedule 0x2\nVERIFICATION FAILED\n",
        4,
    ),
    (HEAD, CHECK, "VERIFICATION FAILED\n", 3),
    (HEAD, CHECK, "schedule\nVERIFICATION FAILED\n", 3),
    (HEAD, CHECK, "schedule 0x0\nVERIFICATION FAILED\n", 3),
    (HEAD, CHECK, "schedule 0x2 0x1\nVERIFICATION FAILED\n", 3),
    (
        HEAD,
        CHECK,
        "schedule 0x2 1x1 0x1\nVERIFICATION FAILED\n",
        0,
    ),
    (HEAD, CHECK, "schedule 0x2  1x1\nVERIFICATION FAILED\n", 3),
    (HEAD, CHECK, "schedule 0x2\nVERIFICATION SUCCESSFUL\n", 4),
    (HEAD, CHECK, "schedule 0x2\nVERIFICATION FAILED\nx\n", 5),
    (HEAD, CHECK, "schedule 0x2\nVERIFICATION FAILED\nx", 5),
    (HEAD, CHECK, "schedule 0x2\nVERIFICATION FAILED\n\n", 5),
];

#[test]
fn each_fault_tells_its_line(rt: HostRuntime) -> Result<(), Fail> {
    for (head, check, end, line) in TEXTS {
        let text = format!(in rt.alloc(); "{head}{check}{end}")?;
        assert_eq!(rt;
            (text.as_str(), bad_line(rt.alloc(), text.as_bytes())),
            (text.as_str(), line)
        );
    }
    assert_eq!(rt; bad_line(rt.alloc(), &TEXT.as_bytes()[..26]), 2);
    assert_eq!(rt; bad_line(rt.alloc(), b"file \xff unwind 8\n"), 1);
    Ok(())
}
