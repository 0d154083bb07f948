//! Trees spelled as texts, for tests.

// What the tests of parsing write trees with.

use c_lexer::{LexError, Tokens, lex};
use c_tree::{PointerMark, Qualifier, TagKind, TypeSpecifier, TypeWord};
use std::alloc::{AllocError, Global};

/// The tokens of a short text.
pub fn lexed(alloc: Global, text: &[u8]) -> Result<Tokens, LexError> {
    if text.len() < 10000 {
        lex(alloc, text)
    } else {
        Err(LexError::Memory)
    }
}

/// A text that is written. Where memory runs out, it is cut.
#[derive(Drop)]
pub struct Text {
    bytes: Vec<u8>,
    cut: bool,
}

/// An empty text.
pub fn blank(alloc: Global) -> Text {
    Text {
        bytes: Vec::new(alloc),
        cut: false,
    }
}

/// The whole text.
pub fn whole(text: Text) -> Result<Vec<u8>, AllocError> {
    let Text { bytes, cut } = text;
    if cut {
        return Err(AllocError);
    }
    Ok(bytes)
}

/// Writes a text.
pub fn put(out: &mut Text, text: &[u8]) {
    for byte in text {
        if out.bytes.push(*byte).is_err() {
            out.cut = true;
        }
    }
}

/// Writes a text so many times.
pub fn repeat(out: &mut Text, count: u32, text: &[u8]) {
    for _ in 0..count {
        put(out, text);
    }
}

fn word_text(word: TypeWord) -> &'static [u8] {
    match word {
        TypeWord::Void => b"void",
        TypeWord::Char => b"char",
        TypeWord::Short => b"short",
        TypeWord::Int => b"int",
        TypeWord::Long => b"long",
        TypeWord::Signed => b"signed",
        TypeWord::Unsigned => b"unsigned",
        TypeWord::Bool => b"_Bool",
    }
}

fn qualifier_text(qualifier: Qualifier) -> &'static [u8] {
    match qualifier {
        Qualifier::Const => b"const",
        Qualifier::Volatile => b"volatile",
        Qualifier::Restrict => b"restrict",
    }
}

fn put_qualifiers(out: &mut Text, qualifiers: &[Qualifier]) {
    for qualifier in qualifiers {
        put(out, qualifier_text(*qualifier));
        put(out, b",");
    }
}

/// Writes pointers, with a comma behind each qualifier.
pub fn put_pointers(out: &mut Text, pointers: &[PointerMark]) {
    for pointer in pointers {
        put(out, b"*");
        put_qualifiers(out, &pointer.qualifiers);
    }
}

/// Writes a specifier of a type, the name of a typedef with a colon before it.
pub fn show_type(out: &mut Text, part: &TypeSpecifier) {
    match part {
        TypeSpecifier::Qualifier { qualifier, .. } => put(out, qualifier_text(*qualifier)),
        TypeSpecifier::Word { word, .. } => put(out, word_text(*word)),
        TypeSpecifier::Tagged { kind, name, .. } => {
            match kind {
                TagKind::Struct => put(out, b"struct "),
                TagKind::Union => put(out, b"union "),
                TagKind::Enum => put(out, b"enum "),
            }
            put(out, &name.bytes)
        }
        TypeSpecifier::Named { name, .. } => {
            put(out, b":");
            put(out, &name.bytes)
        }
    }
}
