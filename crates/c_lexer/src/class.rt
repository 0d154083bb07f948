//! What a byte can be in a text.

ghost use Rattle.std.specs.Prelude.{◌≡◌};
ghost use Rattle.std.specs.Str.{bytes_eq};
ghost use Rattle.c_lexer.specs.Bytes.{class_of, is_word_byte};

/// What kind of token a byte can begin, and what separates tokens (C11 6.4).
#[derive(Clone, Copy, PartialEq, Eq)]
pub enum Class {
    /// A letter or `_`.
    Letter,
    Digit,
    /// `"` or `'`.
    Quote,
    /// Space, tab, newline, vertical tab, form feed or carriage return.
    Space,
    Other,
}

/// The class of a byte.
#[tactic(auto, unfolding(crate::specs::Bytes::class_of))]
pub fn class_of(byte: u8) -> Class
    ensures { result ≡ class_of byte }
{
    if byte.is_ascii_alphabetic() || byte == b'_' {
        Class::Letter
    } else if byte.is_ascii_digit() {
        Class::Digit
    } else if byte == b'"' || byte == b'\'' {
        Class::Quote
    } else if byte == b' ' || (9 <= byte && byte <= 13) {
        Class::Space
    } else {
        Class::Other
    }
}

/// Whether a byte may stand in a word: a letter, `_` or a digit.
pub fn is_word_byte(byte: u8) -> bool
    ensures { result ≡ is_word_byte byte }
{
    match class_of(byte) {
        Class::Letter => true,
        Class::Digit => true,
        Class::Quote => false,
        Class::Space => false,
        Class::Other => false,
    }
}

/// Whether a text is this word.
pub fn spells(text: &[u8], word: &[u8]) -> bool
    ensures { result ≡ bytes_eq text.now word.now }
{
    text == word
}
