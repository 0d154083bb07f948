//! Tests of directives.

// Files, with the tokens that they are expanded into, or the refusal.

use c_lexer::{Tokens, lex};
use c_pre::{PreError, expand};
use std::alloc::{AllocError, Global};
use std::test::*;

// Rows "FILE@TOKENS" or "FILE@REFUSAL", where a `$` begins a new line: for each line with tokens its number and their texts, or
// a refusal's number and line. Files without directives.
const PLAIN: &str = "\
@
int x;@1: int x ;
a$b c$$d@1: a 2: b c 4: d
a # b$@1: a # b
a ## b@1: a # # b";

// The same. Directives without effect.
const EFFECTLESS: &str = "\
#$x@2: x
  #  $x$#@2: x
#pragma once and more$x@2: x
# pragma@
/* c */ # /* d */ pragma$y@2: y";

// The same. Other directives.
const OTHERS: &str = "\
#if 1@5 line 1
x$#elif@5 line 2
#error no@5 line 1
#line 3@5 line 1
# 1 \"a.c\"@5 line 1
#\"define\" A@5 line 1
##@5 line 1
#warning$#include <math.h>@5 line 1";

// The same. Definitions (C11 6.10.3).
const DEFINITIONS: &str = "\
#define A b$A c A@2: b c b
#define A$[A]@2: [ ]
#define A 1 + 2$A*A@2: 1 + 2 * 1 + 2
A$#define A b$A$#undef A$A@1: A 3: b 5: A
#define A (b)$A@2: ( b )
#define A(b) c@5 line 1
#define A()@5 line 1
#define A/**/(b)$A@2: ( b )
#define@5 line 1
#define 1 2@5 line 1
#define \"a\" 2@5 line 1
#define + 2@5 line 1
#define defined 1@5 line 1
#undef defined@5 line 1
#undef@5 line 1
#undef A B@5 line 1
#undef 1@5 line 1
#undef A$A@2: A
#define int long$int x;@2: long x ;
#define main start$int main(void);@2: int start ( void ) ;
#define define undef$#define A b$define A@3: undef b
#define A b$#define A b$A@3: b
#define A b + c$#define A /* d */ b+c$A@3: b + c
#define A b$#define A c$A@5 line 2
#define A b$#define A$@5 line 2
#define A b$#undef A$#define A c$A@4: c
#define A 1$#define A 01$@5 line 2";

// The same. Replacement (C11 6.10.3.4).
const REPLACEMENTS: &str = "\
#define A B$#define B c$A B@3: c c
#define A A$A@2: A
#define A A + A$A@2: A + A
#define a b$#define b a$a b@3: a b
#define a b x$#define b a y$a;b@3: a y x ; b x y
#define a b c$#define b c$#define c b 1$a@4: b 1 c 1
#define A B B$#define B A C$#define C B$A@4: A B A B
#define A b$\"A\" 'A' xA A@2: \"A\" 'A' xA b
#define A # x$A@2: # x
#define H #$H define A b$A@2: # define A b 3: A
#define A b \\$ c$A d@3: b c d
#define A b /*$*/ c$A d@3: b c d
#define A B$#define B 7$x$A$$A@3: x 4: 7 6: 7
#define E$E E E x E@2: x
#define a b x$#define b a y$#define c a b$c a;b c@4: a y x b x y a y x ; b x y a y x b x y
#define Q 1$#define A Q$A A$#undef Q$#define Q 2$A Q@3: 1 1 6: 2 2
#define A Q$A$#define Q A 2$A Q@2: Q 4: A 2 Q 2
#define N 3$int a[N];@2: int a [ 3 ] ;";

// The same. Macros in a circle: within others, at each of their names, and where one of them changes.
const CIRCLES: &str = "\
#define a b$#define b c$#define c a$a b c@4: a b c
#define a b x$#define b a y$#define c a c b$#define d c a$d c a b@5: a y x c b x y a y x a y x c b x y a y x b x y
#define a b$#define b c$#define c a$#define p a b c$#define q p c b a$q p@6: a b c c b a a b c
#define a b x$#define b a y$#define c a b$c$#undef b$#define b z$c@4: a y x b x y 7: z x z
#define a b$#define c a$c$#define b c d$c a@3: b 5: c d a d
#define s s 1$#define t s s$#define u t s t$u u@4: s 1 s 1 s 1 s 1 s 1 s 1 s 1 s 1 s 1 s 1
#define a b$#define b a c$#define c$#define d a b$d$#undef c$#define c b$d@5: a b 8: a b b b";

// The same. Macros that lead to one other alone, in trees and circles, and macros that vanish.
const ENTRIES: &str = "\
#define b p q$#define p r$#define q r$#define r b$b p q r@5: b b p r r q r r
#define b p x$#define p b$#define q p$q p b@4: p x p x b x
#define b c d$#define c e$#define d e$#define e f$#define f b$c$d$e$f$b@6: c e 7: e d 8: e e 9: f f 10: b b
#define a b$#define b c$#define c d$#define d b$a b c d@5: b b c d
#define a b$#define b c$#define c b$#define x a b c$#define y x c$x y@6: b b c b b c c
#define e$#define f e e$#define a f b f$#define b e c$#define c a f e$a b c f e@6: a b c
#define e$#define a e b$#define b a a$a b$#undef e$#define e z$a b@4: a a b b 7: z a a z b z b
#define a b$#define b c$#define c x$#define d a y b$a b c d$#define x d$a d@5: x x x x y x 7: a y b d y d
#define a b$a$#define b b c$a$#undef b$a b@2: b 4: b c 6: b b
#define a b$#define b c c$#define c d$#define d a$a b c d@5: a a b b c c d d
#define a b$#define b c c$#define c d$#define d c$a b c d@5: c c c c c d
#define t a a$#define a b$#define b t$#define u a t b$t a b u@5: t t a a b b a a t t b b";

// The same. Conditionals (C11 6.10.1), and skipped parts (6.10p4).
const CONDITIONALS: &str = "\
#ifdef A$x$#endif$y@4: y
#ifndef A$x$#endif$y@2: x 4: y
#define A$#ifdef A$x$#else$y$#endif@3: x
#ifdef A$x$#else$y$#endif@4: y
#define A$#ifndef A$x$#else$y$#endif z@5 line 6
#ifdef A$#define B c$#else$B$#endif$B@4: B 6: B
#ifdef A$#ifdef B$x$#else$y$#endif$#else$z$#endif@8: z
#ifndef A$#ifdef B$x$#else$y$#endif$#else$z$#endif@5: y
#ifdef A$#if 1$#endif$#endif@5 line 2
#ifdef A$#include <math.h>$#include$#define 1$#undef$#ifdef$#else x$#endif x$#endif$z@10: z
#ifdef A$#else x$#endif@5 line 2
#ifdef$#endif@5 line 1
#ifdef A B$#endif@5 line 1
#ifdef 1$#endif@5 line 1
#ifdef defined$x$#endif$y@4: y
#else@7 line 1
x$#endif@7 line 2
#endif x@5 line 1
#ifdef A$#else$#else$#endif@7 line 3
#ifdef A$@7 line 1
$#ifndef A$#ifdef B$#endif@7 line 2
#ifndef A$#ifdef B$#endif$#endif$#endif@7 line 5
#ifdef A$#if 1$@7 line 1
#ifdef A$#error$#endif$@5 line 2
#ifdef$@5 line 1
#ifdef A$#ifdef$#endif$@7 line 1
#define A$#ifdef A$#undef A$#else$x$#endif$#ifndef A$y$#endif@8: y";

// The same. Includes (C11 6.10.2).
const INCLUDES: &str = "\
#include <assert.h>$#include <stdint.h>$x@3: x
#include <stddef.h>$# include < stdio . h >$NULL@3: ( ( void * ) 0 )
#include <stdbool.h>$bool b=true,c=false;@2: _Bool b = 1 , c = 0 ;
#include <stdlib.h>$EXIT_SUCCESS EXIT_FAILURE NULL INT_MAX@2: 0 1 ( ( void * ) 0 ) INT_MAX
#include <pthread.h>$PTHREAD_MUTEX_INITIALIZER$NULL true@2: { 0 } 3: ( ( void * ) 0 ) true
#include <math.h>@6 line 1
#include \"stdio.h\"@6 line 1
#include <stdio.h> x@6 line 1
#define NULL 0$#include <stdio.h>@5 line 2";

// Macros of limits.h and what they become.
const LIMITS: &str = "\
CHAR_BIT@2: 8
CHAR_MIN@2: ( - 128 )
SCHAR_MIN@2: ( - 128 )
CHAR_MAX@2: 127
SCHAR_MAX@2: 127
UCHAR_MAX@2: 255
SHRT_MIN@2: ( - 32768 )
SHRT_MAX@2: 32767
USHRT_MAX@2: 65535
INT_MIN@2: ( - 2147483647 - 1 )
INT_MAX@2: 2147483647
UINT_MAX@2: 4294967295U
LONG_MIN@2: ( - 9223372036854775807L - 1L )
LONG_MAX@2: 9223372036854775807L
ULONG_MAX@2: 18446744073709551615UL
LLONG_MIN@2: ( - 9223372036854775807LL - 1LL )
LLONG_MAX@2: 9223372036854775807LL
ULLONG_MAX@2: 18446744073709551615ULL";

// The tables of whole files.
const FILES: [&str; 9] = [
    PLAIN,
    EFFECTLESS,
    OTHERS,
    DEFINITIONS,
    REPLACEMENTS,
    CIRCLES,
    ENTRIES,
    CONDITIONALS,
    INCLUDES,
];

/// The tokens of a text, before its directives.
fn lexed(alloc: Global, file: &str) -> Result<Tokens, Fail> {
    let text = file.as_bytes();
    if text.len() > 10_000_000 {
        return Err(Fail::from("too long"));
    }
    Ok(lex(alloc, text)?)
}

/// A file with this beginning and a row's text.
fn file(alloc: Global, before: &str, text: &str) -> Result<String, AllocError> {
    let mut file = String::from_str(alloc, before)?;
    for letter in text.chars() {
        file.push(if letter == '$' { '\n' } else { letter })?;
    }
    Ok(file)
}

/// The text of a token that lies in these bytes.
fn text_in(bytes: &[u8], start: u32, length: u32) -> &[u8] {
    let (_, rest) = bytes.split_at(bytes.len().min(start as usize));
    rest.split_at(rest.len().min(length as usize)).0
}

/// For each line with tokens its number and their texts.
fn shown(alloc: Global, tokens: &Tokens) -> Result<String, Fail> {
    let mut out = String::new(alloc);
    let mut line = 0;
    for token in &tokens.tokens {
        if !out.is_empty() {
            out.push(' ')?;
        }
        if token.line != line {
            line = token.line;
            out.push_str(format!(in alloc; "{line}: ")?.as_str())?;
        }
        for byte in text_in(&tokens.bytes, token.start, token.length) {
            out.push(char::from(*byte))?;
        }
    }
    Ok(out)
}

/// What a file is expanded into: tokens, or a refusal.
fn outcome(alloc: Global, file: &str) -> Result<String, Fail> {
    match expand(alloc, lexed(alloc, file)?) {
        Ok(tokens) => shown(alloc, &tokens),
        Err(PreError::Directive { line }) => Ok(format!(in alloc; "5 line {line}")?),
        Err(PreError::Include { line }) => Ok(format!(in alloc; "6 line {line}")?),
        Err(PreError::Conditional { line }) => Ok(format!(in alloc; "7 line {line}")?),
        Err(PreError::TooMany) => Ok(String::from_str(alloc, "too many")?),
        Err(PreError::Memory) => Err(Fail::from("memory")),
    }
}

/// The first row that has another outcome, if one has.
fn first_wrong(
    alloc: Global,
    before: &str,
    rows: &'static str,
) -> Result<Option<&'static str>, Fail> {
    for row in rows.lines() {
        let (text, wanted) = row.split_once('@').unwrap_or((row, ""));
        let text = file(alloc, before, text)?;
        if outcome(alloc, text.as_str())?.as_str() != wanted {
            return Ok(Some(row));
        }
    }
    Ok(None)
}

#[test]
fn files_have_their_tokens_or_a_refusal(rt: HostRuntime) -> Result<(), Fail> {
    for rows in FILES {
        assert_eq!(rt; first_wrong(rt.alloc(), "", rows)?, None);
    }
    Ok(())
}

#[test]
fn limits_are_those_of_the_types(rt: HostRuntime) -> Result<(), Fail> {
    assert_eq!(rt;
        first_wrong(rt.alloc(), "#include <limits.h>\n", LIMITS)?,
        None
    );
    Ok(())
}

/// A file in which each of so many macros behind the first is so often the one before it, and the first is these tokens; the
/// last is used so often.
fn chained(
    alloc: Global,
    levels: u32,
    width: u32,
    first: &str,
    uses: u32,
) -> Result<String, AllocError> {
    let mut file = format!(in alloc; "#define a0 {first}")?;
    for level in 0..levels {
        file.push_str(format!(in alloc; "\n#define a{} ", u64::from(level) + 1)?.as_str())?;
        for _ in 0..width {
            file.push_str(format!(in alloc; "a{level} ")?.as_str())?;
        }
    }
    for _ in 0..uses {
        file.push_str(format!(in alloc; "\na{levels}")?.as_str())?;
    }
    Ok(file)
}

/// How many tokens a file is expanded into.
fn count(alloc: Global, file: &str) -> Result<usize, Fail> {
    match expand(alloc, lexed(alloc, file)?) {
        Ok(tokens) => Ok(tokens.tokens.len()),
        Err(_) => Err(Fail::from("refused")),
    }
}

#[test]
fn doubling_ends_at_the_limit(rt: HostRuntime) -> Result<(), Fail> {
    let alloc = rt.alloc();
    let few = chained(alloc, 3, 2, "x", 1)?;
    assert_eq!(rt; count(alloc, few.as_str())?, 8);
    let many = chained(alloc, 39, 2, "x y", 1)?;
    assert_eq!(rt; outcome(alloc, many.as_str())?.as_str(), "too many");
    Ok(())
}

#[test]
fn macros_are_not_expanded_anew_at_each_use(rt: HostRuntime) -> Result<(), Fail> {
    let alloc = rt.alloc();
    let none = chained(alloc, 39, 2, "", 1)?;
    assert_eq!(rt; count(alloc, none.as_str())?, 0);
    let each = chained(alloc, 999, 1, "x", 1_000)?;
    assert_eq!(rt; count(alloc, each.as_str())?, 1_000);
    Ok(())
}

/// A file in which so many macros name each other in a circle, and so many others the one before them and one of the circle; the
/// last of these is used.
fn circled(alloc: Global, names: u32, others: u32) -> Result<String, AllocError> {
    let mut file = String::from_str(alloc, "#define m0 x\n#define c0 c1")?;
    for name in 1..names {
        let next = u64::from(name) + 1;
        file.push_str(format!(in alloc; "\n#define c{name} c{next}")?.as_str())?;
    }
    file.push_str(format!(in alloc; "\n#define c{names} c0")?.as_str())?;
    for other in 0..others {
        let next = u64::from(other) + 1;
        file.push_str(format!(in alloc; "\n#define m{next} m{other} c0")?.as_str())?;
    }
    file.push_str(format!(in alloc; "\nm{others}")?.as_str())?;
    Ok(file)
}

#[test]
fn circles_are_not_expanded_anew_within_each_macro(rt: HostRuntime) -> Result<(), Fail> {
    let alloc = rt.alloc();
    let few = circled(alloc, 1, 2)?;
    assert_eq!(rt; outcome(alloc, few.as_str())?.as_str(), "6: x c0 c0");
    let many = circled(alloc, 20_000, 20_000)?;
    assert_eq!(rt; count(alloc, many.as_str())?, 20_001);
    Ok(())
}

/// A file in which so many macros name each other in a circle, each of which a text names: the first of them with something
/// behind, and a macro that names it so often. From that one on the circle is a chain that leads to it.
fn entered(alloc: Global, names: u32, behind: &str, uses: u32) -> Result<String, AllocError> {
    let mut file = String::from_str(alloc, "#define c0 c1")?;
    file.push_str(behind)?;
    for name in 1..names {
        let next = u64::from(name) + 1;
        file.push_str(format!(in alloc; "\n#define c{name} c{next}")?.as_str())?;
    }
    file.push_str(format!(in alloc; "\n#define c{names} c0\n#define all")?.as_str())?;
    for _ in 0..uses {
        file.push_str(" c0")?;
    }
    file.push_str("\nall\n")?;
    for name in 0..names {
        file.push_str(format!(in alloc; "c{name} ")?.as_str())?;
    }
    Ok(file)
}

#[test]
fn circles_are_not_walked_at_each_entry(rt: HostRuntime) -> Result<(), Fail> {
    let alloc = rt.alloc();
    let few = entered(alloc, 2, " x", 2)?;
    assert_eq!(rt;
        outcome(alloc, few.as_str())?.as_str(),
        "5: c0 x c0 x 6: c0 x c1 x"
    );
    let plain = entered(alloc, 20_000, "", 20_000)?;
    assert_eq!(rt; count(alloc, plain.as_str())?, 40_000);
    let branched = entered(alloc, 20_000, " x", 20_000)?;
    assert_eq!(rt; count(alloc, branched.as_str())?, 80_000);
    Ok(())
}

/// A line of text that comes to so many marks, between these lines.
fn marks(alloc: Global, before: &str, count: u32, behind: &str) -> Result<String, AllocError> {
    let mut file = format!(in alloc; "#define T ;;;;;;;;;;\n{before}\n")?;
    for _ in 0..count / 10 {
        file.push_str("T ")?;
    }
    for _ in 0..count % 10 {
        file.push(';')?;
    }
    file.push('\n')?;
    file.push_str(behind)?;
    Ok(file)
}

// How many marks stand between two lines, and what comes of it.
const COUNTS: [(&str, u32, &str, &str); 3] = [
    ("", 200_000, "#if", "5 line 4"),
    ("", 200_001, "#if", "too many"),
    ("#ifdef A", 200_001, "#endif", ""),
];

#[test]
fn at_most_200000_tokens(rt: HostRuntime) -> Result<(), Fail> {
    let alloc = rt.alloc();
    for (before, count, behind, expected) in COUNTS {
        let file = marks(alloc, before, count, behind)?;
        assert_eq!(rt; outcome(alloc, file.as_str())?.as_str(), expected);
    }
    Ok(())
}
