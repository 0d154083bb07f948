//! Tests of tokens.

// Texts and their tokens.

use c_lexer::{LexError, Tokens, lex, string_bytes, text_of};
use c_token::{Constant, ConstantType, Keyword, Kind, Mark};
use std::alloc::{AllocError, Global};
use std::test::*;

/// What a short text is cut into.
fn lexed(alloc: Global, text: &[u8]) -> Result<Tokens, LexError> {
    if text.len() < 1000 {
        lex(alloc, text)
    } else {
        Err(LexError::Memory)
    }
}

/// The tokens' texts, each with a space behind it.
fn texts(alloc: Global, tokens: &Tokens) -> Result<Vec<u8>, AllocError> {
    let mut texts = Vec::new(alloc);
    for token in &tokens.tokens {
        for byte in text_of(&tokens.bytes, *token) {
            texts.push(*byte)?;
        }
        texts.push(b' ')?;
    }
    Ok(texts)
}

static CUTTINGS: [(&[u8], &[u8]); 15] = [
    (b"x+++++y", b"x ++ ++ + y "),
    (b"a>>=b>>c>=d>e=f", b"a >>= b >> c >= d > e = f "),
    (b"a....b..c##", b"a ... . b . . c # # "),
    (b"a-->b->c-=d", b"a -- > b -> c -= d "),
    (
        b"[ ] ( ) { } . -> ++ -- & * + - ~ ! / % << >> < > <= >= == != ^ | && ||",
        b"[ ] ( ) { } . -> ++ -- & * + - ~ ! / % << >> < > <= >= == != ^ | && || ",
    ),
    (
        b"? : ; ... = *= /= %= += -= <<= >>= &= ^= |= , #",
        b"? : ; ... = *= /= %= += -= <<= >>= &= ^= |= , # ",
    ),
    (b"in\\\nt x\\\n\\\ny;", b"int xy ; "),
    (b"a/**/b/***/c/*/ */d", b"a b c d "),
    (b"a//c\\\nd\ne", b"a e "),
    (b"a/\\\n* b *\\\n/ c", b"a c "),
    (
        b"\"/*\"+'\\\"'*\"//\\\\\"",
        b"\"/*\" + '\\\"' * \"//\\\\\" ",
    ),
    (b"/* \xff */ \"\xff\" '\xff'", b"\"\xff\" '\xff' "),
    (b"L \"a\" L\n'b' L/**/'c'", b"L \"a\" L 'b' L 'c' "),
    (b"a\tb\x0bc\x0cd\re", b"a b c d e "),
    (b"", b""),
];

/// Integer constants, with their value and type.
static CONSTANTS: [(&[u8], u64, ConstantType); 19] = [
    (b"0", 0, ConstantType::Int),
    (b"2147483647", 2147483647, ConstantType::Int),
    (b"2147483648", 2147483648, ConstantType::Long),
    (b"4294967296", 4294967296, ConstantType::Long),
    (
        b"9223372036854775807",
        9223372036854775807,
        ConstantType::Long,
    ),
    (b"017", 15, ConstantType::Int),
    (b"037777777777", 4294967295, ConstantType::UnsignedInt),
    (b"0x7fffffff", 2147483647, ConstantType::Int),
    (b"0XFFFFFFFF", 4294967295, ConstantType::UnsignedInt),
    (b"0x100000000", 4294967296, ConstantType::Long),
    (
        b"0xffffffffffffffff",
        18446744073709551615,
        ConstantType::UnsignedLong,
    ),
    (
        b"0xffffffffffffffffll",
        18446744073709551615,
        ConstantType::UnsignedLongLong,
    ),
    (b"1u", 1, ConstantType::UnsignedInt),
    (b"4294967296U", 4294967296, ConstantType::UnsignedLong),
    (b"1l", 1, ConstantType::Long),
    (b"1lu", 1, ConstantType::UnsignedLong),
    (b"1UL", 1, ConstantType::UnsignedLong),
    (b"1LL", 1, ConstantType::LongLong),
    (b"1llU", 1, ConstantType::UnsignedLongLong),
];

/// Texts of one token.
static KINDS: [(&[u8], Kind); 15] = [
    (b"autox", Kind::Identifier),
    (b"_Bool", Kind::Keyword(Keyword::Bool)),
    (b"_Noreturn", Kind::Keyword(Keyword::Noreturn)),
    (b"while", Kind::Keyword(Keyword::While)),
    (b"u8", Kind::Identifier),
    (b"'a'", Kind::Character(97)),
    (b"'\\377'", Kind::Character(4294967295)),
    (b"'\\0'", Kind::Character(0)),
    (b"'\\x7f'", Kind::Character(127)),
    (b"'\\x00080'", Kind::Character(4294967168)),
    (b"'\\''", Kind::Character(39)),
    (b"'\xff'", Kind::Character(4294967295)),
    (b"\"a\\n\\1234\"", Kind::String),
    (b"\"\"", Kind::String),
    (b">>=", Kind::Mark(Mark::ShiftRightEqual)),
];

/// Texts with a fault, and the error.
static FAULTS: [(&[u8], LexError); 34] = [
    (b"08", LexError::BadConstant { line: 1 }),
    (b"0x", LexError::BadConstant { line: 1 }),
    (b"0x1.", LexError::BadConstant { line: 1 }),
    (b"1.5", LexError::BadConstant { line: 1 }),
    (b"a .5", LexError::BadConstant { line: 1 }),
    (b"1e+5", LexError::BadConstant { line: 1 }),
    (b"0xe+1", LexError::BadConstant { line: 1 }),
    (b"1lul", LexError::BadConstant { line: 1 }),
    (b"1lL", LexError::BadConstant { line: 1 }),
    (b"9223372036854775808", LexError::BadConstant { line: 1 }),
    (b"18446744073709551616u", LexError::BadConstant { line: 1 }),
    (b"0xfffffffffffffffffu", LexError::BadConstant { line: 1 }),
    (b"\n'ab'", LexError::BadConstant { line: 2 }),
    (b"''", LexError::BadConstant { line: 1 }),
    (b"'\\400'", LexError::BadConstant { line: 1 }),
    (b"'\\x100'", LexError::BadConstant { line: 1 }),
    (b"'\\x'", LexError::BadConstant { line: 1 }),
    (b"\"\\q\"", LexError::BadConstant { line: 1 }),
    (b"L\"\\q\"", LexError::BadConstant { line: 1 }),
    (b"1.5\n@", LexError::BadConstant { line: 1 }),
    (b"L\"a\"", LexError::Foreign { line: 1 }),
    (b"u8\\\n'x'", LexError::Foreign { line: 2 }),
    (b"U'x'", LexError::Foreign { line: 1 }),
    (b"\nfloat", LexError::Foreign { line: 2 }),
    (b"_Static_assert", LexError::Foreign { line: 1 }),
    (b"\"a\nb\"", LexError::Unclosed { line: 1 }),
    (b"'\\q\n'", LexError::Unclosed { line: 1 }),
    (b"'\\'", LexError::Unclosed { line: 1 }),
    (b"a\n /* b\n * / c\n", LexError::Unclosed { line: 2 }),
    (b"/*/", LexError::Unclosed { line: 1 }),
    (b"@ 1.5", LexError::BadByte { line: 1 }),
    (b"a\\\n\\\n\x80", LexError::BadByte { line: 3 }),
    (b"\\ \n", LexError::BadByte { line: 1 }),
    (b"/*\n*/$", LexError::BadByte { line: 2 }),
];

/// The kind of the one token that a text is.
fn only_kind(alloc: Global, text: &[u8]) -> Option<Kind> {
    let tokens = lexed(alloc, text).ok()?;
    match tokens.tokens.as_slice() {
        [token] => Some(token.kind),
        _ => None,
    }
}

/// The first row whose text is cut otherwise.
fn wrong_cutting(alloc: Global, rows: &[(&[u8], &[u8])]) -> Result<Option<usize>, AllocError> {
    for (i, (text, expected)) in rows.iter().enumerate() {
        let Ok(tokens) = lexed(alloc, text) else {
            return Ok(Some(i));
        };
        if texts(alloc, &tokens)?.as_slice() != *expected {
            return Ok(Some(i));
        }
    }
    Ok(None)
}

/// The lines, whether they begin one, and the places of five tokens.
static PLACES: [(u32, bool, u32); 5] = [
    (1, true, 0),
    (2, false, 3),
    (4, true, 15),
    (4, false, 17),
    (5, false, 25),
];

/// The first token that stands elsewhere.
fn wrong_place(tokens: &Tokens, places: &[(u32, bool, u32)]) -> Option<usize> {
    for (i, (token, place)) in tokens.tokens.iter().zip(places).enumerate() {
        if (token.line, token.first, token.start) != *place {
            return Some(i);
        }
    }
    None
}

#[test]
fn cuts_into_the_longest_tokens(rt: HostRuntime) -> Result<(), Fail> {
    assert_eq!(rt; wrong_cutting(rt.alloc(), &CUTTINGS)?, None);
    let tokens = lex(rt.alloc(), b"a\\\nb c\n /* x\n */ # d /*\n*/ e\n")
        .ok()
        .ok_or("the text is cut")?;
    assert_eq!(rt; tokens.tokens.len(), 5);
    assert_eq!(rt; wrong_place(&tokens, &PLACES), None);
    assert_eq!(rt; tokens.last_line, 6);
    Ok(())
}

/// The bytes of the first string of a text.
fn first_string(alloc: Global, text: &[u8]) -> Result<Vec<u8>, LexError> {
    let tokens = lexed(alloc, text)?;
    for token in &tokens.tokens {
        if token.kind == Kind::String {
            return Ok(string_bytes(alloc, text_of(&tokens.bytes, *token))?);
        }
    }
    Err(LexError::Memory)
}

/// The first row whose text is no constant of this value and type.
fn wrong_constant(alloc: Global, rows: &[(&[u8], u64, ConstantType)]) -> Option<usize> {
    for (i, (text, value, type_)) in rows.iter().enumerate() {
        let constant = Constant {
            value: *value,
            type_: *type_,
        };
        if only_kind(alloc, text) != Some(Kind::Constant(constant)) {
            return Some(i);
        }
    }
    None
}

/// The first row whose text is no token of this kind.
fn wrong_kind(alloc: Global, rows: &[(&[u8], Kind)]) -> Option<usize> {
    for (i, (text, kind)) in rows.iter().enumerate() {
        if only_kind(alloc, text) != Some(*kind) {
            return Some(i);
        }
    }
    None
}

/// The first row whose text has no such fault.
fn wrong_fault(alloc: Global, rows: &[(&[u8], LexError)]) -> Option<usize> {
    for (i, (text, expected)) in rows.iter().enumerate() {
        match lexed(alloc, text) {
            Err(error) if error == *expected => {}
            _ => return Some(i),
        }
    }
    None
}

#[test]
fn kinds_and_faults(rt: HostRuntime) -> Result<(), Fail> {
    assert_eq!(rt; wrong_constant(rt.alloc(), &CONSTANTS), None);
    assert_eq!(rt; wrong_kind(rt.alloc(), &KINDS), None);
    assert_eq!(rt; wrong_fault(rt.alloc(), &FAULTS), None);
    let bytes = first_string(rt.alloc(), b"x \"a\\n\\x41\\1012\\\"\" y")
        .ok()
        .ok_or("there is a string")?;
    assert_eq!(rt; bytes.as_slice(), b"a\nAA2\"".as_slice());
    Ok(())
}
