//! Tests of the list of a file's loops and assertions.

use c_lexer::{LexError, Tokens, lex};
use c_parse_decl::parse;
use properties::properties;
use report::Property;
use std::alloc::{AllocError, Global};
use std::fmt::Write;
use std::test::*;

/// The tokens of a short text.
fn lexed(alloc: Global, text: &[u8]) -> Result<Tokens, LexError> {
    if text.len() < 10000 {
        lex(alloc, text)
    } else {
        Err(LexError::Memory)
    }
}

/// Writes a loop as `f.n:L`, and an assertion as `!f:L`, each behind a space.
fn push_shown(shown: &mut String, alloc: Global, property: &Property) -> Result<(), AllocError> {
    match property {
        Property::Loop {
            function,
            number,
            line,
        } => {
            let name = String::from_utf8_lossy(alloc, &function.bytes)?;
            write!(shown, " {name}.{number}:{line}")
        }
        Property::Assertion { line, function } => {
            let name = String::from_utf8_lossy(alloc, &function.bytes)?;
            write!(shown, " !{name}:{line}")
        }
    }
}

/// What is listed of a text.
fn listed(alloc: Global, text: &str) -> Result<String, AllocError> {
    let Ok(tokens) = lexed(alloc, text.as_bytes()) else {
        return String::from_str(alloc, "no tokens");
    };
    let Ok(file) = parse(alloc, &tokens) else {
        return String::from_str(alloc, "no tree");
    };
    let mut shown = String::new(alloc);
    for property in &properties(alloc, &file)? {
        push_shown(&mut shown, alloc, property)?;
    }
    Ok(shown)
}

static ROWS: [(&str, &str); 24] = [
    (
        "int main(void){for(int i=0;i<100;i++);return 0;}",
        " main.0:1",
    ),
    (
        "int main(void){int x=nondet_int();assert(x!=7);return 0;}",
        " !main:1",
    ),
    ("int main(void){}", ""),
    ("int main(void){while(1);while(1);}", " main.0:1 main.1:1"),
    (
        "int main(void){\ndo\nwhile(a)assert(b);\nwhile(assert(c),1);for(;;);}",
        " main.0:2 main.1:3 !main:3 !main:4 main.2:4",
    ),
    (
        "int main(void){while(assert(1),0)\nassert(2);}",
        " main.0:1 !main:1 !main:2",
    ),
    (
        "int main(void){for(assert(1);\nassert(2);\nassert(3))\nassert(4);}",
        " main.0:1 !main:1 !main:2 !main:3 !main:4",
    ),
    (
        "int main(void){for(int i=assert(1);\nassert(2);)\nwhile(1);}",
        " main.0:1 !main:1 !main:2 main.1:3",
    ),
    ("int main(void){return sizeof(assert(1));}", " !main:1"),
    (
        "int main(void){return sizeof(int[sizeof\nassert(1)]);}",
        " !main:2",
    ),
    (
        "int main(void){return (int[sizeof assert(1)])\nassert(2);}",
        " !main:1 !main:2",
    ),
    ("int main(void){(\n(assert))(1);}", " !main:2"),
    ("int main(void){__CPROVER_assert(1,\"x\");}", " !main:1"),
    (
        "int main(void){f(assert(1),\nassert(assert(2)));}",
        " !main:1 !main:2 !main:2",
    ),
    ("int main(void){assert;assert_(1);xassert(1);}", ""),
    (
        "int main(void){if(assert(1))assert(2);\nelse assert(3);}",
        " !main:1 !main:1 !main:2",
    ),
    (
        "int main(void){switch(assert(1)){case sizeof assert(2):\nassert(3);default:assert(4);a:assert(5);}}",
        " !main:1 !main:1 !main:2 !main:2 !main:2",
    ),
    (
        "int main(void){return assert(1)?\nassert(2):\nassert(3);}",
        " !main:1 !main:2 !main:3",
    ),
    (
        "int main(void){x=assert(1);(assert(2)).y=-assert(3)+assert(4)++;}",
        " !main:1 !main:1 !main:1 !main:1",
    ),
    (
        "int main(void){int a[sizeof assert(1)]={assert(2),{\nassert(3)}},b=assert(4);}",
        " !main:1 !main:1 !main:2 !main:2",
    ),
    (
        "int main(void){struct s{int a[sizeof assert(1)];};enum{A=sizeof\nassert(2)};int f(int a[sizeof assert(3)]);}",
        " !main:1 !main:2 !main:2",
    ),
    (
        "int a=sizeof assert(1);int g(void);int f(int a[sizeof assert(1)]){while(1);}\nint g(void){while(1);do;while(0);}",
        " f.0:1 g.0:2 g.1:2",
    ),
    ("int (g)(void){while(1);}", " g.0:1"),
    (
        "int f(void){while(1)while(1);}int main(void){{{assert(1);}}while(1)do\nwhile(1);while(1);}",
        " f.0:1 f.1:1 !main:1 main.0:1 main.1:1 main.2:2",
    ),
];

/// The first row whose text has another list.
fn wrong_row(alloc: Global, rows: &[(&str, &str)]) -> Result<Option<usize>, AllocError> {
    for (i, (text, wanted)) in rows.iter().enumerate() {
        let shown = listed(alloc, text)?;
        if shown.as_str() != *wanted {
            return Ok(Some(i));
        }
    }
    Ok(None)
}

#[test]
fn loops_and_assertions_are_listed_in_file_order(rt: HostRuntime) -> Result<(), Fail> {
    assert_eq!(rt; wrong_row(rt.alloc(), &ROWS)?, None);
    Ok(())
}
