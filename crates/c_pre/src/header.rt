//! The headers that a file may include, and the macros that each defines.

ghost use Rattle.std.specs.Prelude.{◌≡◌, ◌+◌, Some, map, take, drop, length};
ghost use Rattle.c_pre.specs.Headers.{text, rows_of, header_called, is_called, header_of};
ghost use Rattle.c_pre.specs.Views.{tokens_of};

use crate::directive::{spells, text_at};
use crate::lines::Line;
use c_token::Token;

/// A header that a file may include.
#[derive(Clone, Copy, PartialEq, Eq)]
pub enum Header {
    Assert,
    Pthread,
    Stdlib,
    Stddef,
    Stdint,
    Stdbool,
    Limits,
    Stdio,
}

/// The macros of all headers, a line for each: its name, and what replaces it.
const TEXT: &[u8] = b"EXIT_SUCCESS 0
EXIT_FAILURE 1
NULL ((void*)0)
PTHREAD_MUTEX_INITIALIZER {0}
bool _Bool
true 1
false 0
CHAR_BIT 8
CHAR_MIN (-128)
SCHAR_MIN (-128)
CHAR_MAX 127
SCHAR_MAX 127
UCHAR_MAX 255
SHRT_MIN (-32768)
SHRT_MAX 32767
USHRT_MAX 65535
INT_MIN (-2147483647-1)
INT_MAX 2147483647
UINT_MAX 4294967295U
LONG_MIN (-9223372036854775807L-1L)
LONG_MAX 9223372036854775807L
ULONG_MAX 18446744073709551615UL
LLONG_MIN (-9223372036854775807LL-1LL)
LLONG_MAX 9223372036854775807LL
ULLONG_MAX 18446744073709551615ULL
";

/// The lines of the macros that the headers define: a name and what replaces it on each (C11 7.2 to 7.22).
pub fn text() -> &'static [u8]
    ensures { result.now ≡ text }
{
    TEXT
}

/// The header that is called NAME.h.
#[tactic(auto, unfolding(crate::specs::Headers::header_called))]
fn header_called(name: &[u8]) -> Option<Header>
    ensures { result ≡ header_called name.now }
{
    if name == b"assert".as_slice() {
        Some(Header::Assert)
    } else if name == b"pthread".as_slice() {
        Some(Header::Pthread)
    } else if name == b"stdlib".as_slice() {
        Some(Header::Stdlib)
    } else if name == b"stddef".as_slice() {
        Some(Header::Stddef)
    } else if name == b"stdint".as_slice() {
        Some(Header::Stdint)
    } else if name == b"stdbool".as_slice() {
        Some(Header::Stdbool)
    } else if name == b"limits".as_slice() {
        Some(Header::Limits)
    } else if name == b"stdio".as_slice() {
        Some(Header::Stdio)
    } else {
        None
    }
}

/// Whether the tokens around a name make it a header's.
fn is_called(bytes: &[u8], less: Token, dot: Token, h: Token, greater: Token) -> bool
    ensures { result ≡ is_called bytes.now less dot h greater }
{
    spells(bytes, less, b"<")
        && spells(bytes, dot, b".")
        && spells(bytes, h, b"h")
        && spells(bytes, greater, b">")
}

/// The header that `<`, a name, `.h` and `>` alone name.
pub fn header_of(bytes: &[u8], args: &[Token]) -> Option<Header>
    ensures { result ≡ header_of bytes.now args.now }
{
    if args.len() == 5 && is_called(bytes, args[0], args[2], args[3], args[4]) {
        header_called(text_at(bytes, args[1]))
    } else {
        None
    }
}

/// Some of the rows, as many as there are.
fn part<'a>(rows: &'a [Line<'a>], from: usize, count: usize) -> &'a [Line<'a>]
    ensures { result.now ≡ take count (drop from rows.now) }
{
    let (_, rest) = rows.split_at(rows.len().min(from));
    rest.split_at(rest.len().min(count)).0
}

/// The lines of the headers' text that a header has.
pub fn rows_of<'a>(header: Header, rows: &'a [Line<'a>]) -> &'a [Line<'a>]
    ensures { map tokens_of result.now ≡ rows_of header (map tokens_of rows.now) }
{
    match header {
        Header::Assert => part(rows, 0, 0),
        Header::Pthread => part(rows, 2, 2),
        Header::Stdlib => part(rows, 0, 3),
        Header::Stddef => part(rows, 2, 1),
        Header::Stdint => part(rows, 0, 0),
        Header::Stdbool => part(rows, 4, 3),
        Header::Limits => part(rows, 7, 18),
        Header::Stdio => part(rows, 2, 1),
    }
}
