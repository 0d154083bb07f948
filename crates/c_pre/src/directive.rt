//! What a line of a file's tokens is.

ghost use Rattle.std.specs.Prelude.{◌≡◌, ◌∷◌, [], MatchOption};
ghost use Rattle.std.specs.Str.{bytes_eq};
ghost use Rattle.c_token.specs.Spelling.{text_of};
ghost use Rattle.c_pre.specs.Lines.{named, behind_hash, directive_of, number_of, arguments};

use c_token::Token;

/// What a line is: text, or one of the directives.
#[derive(Clone, Copy, PartialEq, Eq)]
pub enum Directive {
    Text,
    /// `#` alone, or `#pragma`.
    Nothing,
    Define,
    Undefine,
    Ifdef,
    Ifndef,
    Else,
    Endif,
    Include,
    Other,
}

/// The text of a token in bytes; as much of it as lies in them.
pub fn text_at(bytes: &[u8], token: Token) -> &[u8]
    ensures { result.now ≡ text_of bytes.now token }
{
    let start = bytes.len().min(token.start as usize);
    let (_, rest) = bytes.split_at(start);
    let length = rest.len().min(token.length as usize);
    rest.split_at(length).0
}

/// Whether a token is spelled so.
pub fn spells(bytes: &[u8], token: Token, text: &[u8]) -> bool
    ensures { result ≡ bytes_eq (text_of bytes.now token) text.now }
{
    text_at(bytes, token) == text
}

/// The first token, and those behind it.
pub fn split(tokens: &[Token]) -> Option<(Token, &[Token])>
    ensures { MatchOption result (tokens.now ≡ []) (λ x. tokens.now ≡ x.0 ∷ x.1.now) }
{
    match tokens {
        [first, rest @ ..] => Some((*first, rest)),
        [] => None,
    }
}

/// The directive that a word names.
#[tactic(auto, unfolding(crate::specs::Lines::named))]
fn named(word: &[u8]) -> Directive
    ensures { result ≡ named word.now }
{
    if word == b"pragma".as_slice() {
        Directive::Nothing
    } else if word == b"define".as_slice() {
        Directive::Define
    } else if word == b"undef".as_slice() {
        Directive::Undefine
    } else if word == b"ifdef".as_slice() {
        Directive::Ifdef
    } else if word == b"ifndef".as_slice() {
        Directive::Ifndef
    } else if word == b"else".as_slice() {
        Directive::Else
    } else if word == b"endif".as_slice() {
        Directive::Endif
    } else if word == b"include".as_slice() {
        Directive::Include
    } else {
        Directive::Other
    }
}

fn behind_hash(bytes: &[u8], rest: &[Token]) -> Directive
    ensures { result ≡ behind_hash bytes.now rest.now }
{
    match split(rest) {
        None => Directive::Nothing,
        Some((word, _)) => named(text_at(bytes, word)),
    }
}

/// What a line is.
pub fn directive_of(bytes: &[u8], line: &[Token]) -> Directive
    ensures { result ≡ directive_of bytes.now line.now }
{
    match split(line) {
        None => Directive::Text,
        Some((first, rest)) => {
            if first.first && spells(bytes, first, b"#") {
                behind_hash(bytes, rest)
            } else {
                Directive::Text
            }
        }
    }
}

/// What stands behind the word of a directive.
pub fn arguments(line: &[Token]) -> &[Token]
    ensures { result.now ≡ arguments line.now }
{
    line.split_at(line.len().min(2)).1
}

/// The line of the first token.
pub fn number_of(line: &[Token]) -> u32
    ensures { result ≡ number_of line.now }
{
    match split(line) {
        None => 0,
        Some((first, _)) => first.line,
    }
}
