//! Taking tokens from the front of a slice.

ghost use Rattle.std.specs.Prelude.{◌≡◌, ◌<◌, ◌≤◌, [], ◌∷◌, MatchOption, IfSome, IfOk, length, option_map};
ghost use Rattle.c_token.specs.Spelling.{text_of};
ghost use Rattle.c_tree.specs.Tree.{view};
ghost use Rattle.c_tree.specs.Tables.{level_of};
ghost use Rattle.c_parse_expr.specs.Reading.{is_mark, goes_on};
ghost use Rattle.c_parse_expr.specs.inner.Reading.{behind, is_identifier, is_string, identifier_at, string, bracket, next_at};

use crate::table::{Suffix, least_left, strength_behind, strength_of, suffix_of};
use c_token::{Kind, Mark, Token};
use c_tree::{Expr, Name};
use std::alloc::{AllocError, Global};

/// The first token and those behind it.
pub fn split(tokens: &[Token]) -> Option<(Token, &[Token])>
    ensures { MatchOption result (tokens.now ≡ []) (λ x. tokens.now ≡ x.0 ∷ x.1.now) }
{
    match tokens {
        [first, rest @ ..] => Some((*first, rest)),
        [] => None,
    }
}

/// Whether a token of a kind is the mark.
pub fn is_mark(mark: Mark, kind: Kind) -> bool
    ensures { result ≡ is_mark mark kind }
{
    match kind {
        Kind::Identifier => false,
        Kind::Keyword(_) => false,
        Kind::Constant(_) => false,
        Kind::Character(_) => false,
        Kind::String => false,
        Kind::Mark(found) => found.text() == mark.text(),
    }
}

/// The tokens behind a mark at the front.
#[tactic(auto, unfolding(crate::specs::inner::Reading::behind))]
pub fn behind_mark(tokens: &[Token], mark: Mark) -> Option<&[Token]>
    ensures value { option_map (λ x. x.now) result ≡ behind mark tokens.now }
    ensures shorter { IfSome result (λ x. length x.now < length tokens.now) }
{
    match split(tokens) {
        Some((token, rest)) => {
            if is_mark(mark, token.kind) {
                Some(rest)
            } else {
                None
            }
        }
        None => None,
    }
}

/// Whether a token is an identifier.
pub fn is_identifier(kind: Kind) -> bool
    ensures { result ≡ is_identifier kind }
{
    match kind {
        Kind::Identifier => true,
        Kind::Keyword(_) => false,
        Kind::Constant(_) => false,
        Kind::Character(_) => false,
        Kind::String => false,
        Kind::Mark(_) => false,
    }
}

fn is_string(kind: Kind) -> bool
    ensures { result ≡ is_string kind }
{
    match kind {
        Kind::Identifier => false,
        Kind::Keyword(_) => false,
        Kind::Constant(_) => false,
        Kind::Character(_) => false,
        Kind::String => true,
        Kind::Mark(_) => false,
    }
}

/// The text of an identifier at the front, and the tokens behind it.
#[tactic(auto, unfolding(crate::specs::inner::Reading::identifier_at))]
pub fn identifier<'a, 'b>(bytes: &'b [u8], tokens: &'a [Token]) -> Option<(&'b [u8], &'a [Token])>
    ensures value { option_map (λ x. (x.0.now, x.1.now)) result ≡ identifier_at bytes.now tokens.now }
    ensures shorter { IfSome result (λ x. length x.1.now < length tokens.now) }
{
    match split(tokens) {
        Some((token, rest)) => {
            if is_identifier(token.kind) {
                Some((token_text(bytes, token), rest))
            } else {
                None
            }
        }
        None => None,
    }
}

/// The text of a string literal at the front, and the tokens behind it.
#[tactic(auto, unfolding(crate::specs::inner::Reading::string))]
pub fn string<'a, 'b>(bytes: &'b [u8], tokens: &'a [Token]) -> Option<(&'b [u8], &'a [Token])>
    ensures value { option_map (λ x. (x.0.now, x.1.now)) result ≡ string bytes.now tokens.now }
    ensures shorter { IfSome result (λ x. length x.1.now < length tokens.now) }
{
    match split(tokens) {
        Some((token, rest)) => {
            if is_string(token.kind) {
                Some((token_text(bytes, token), rest))
            } else {
                None
            }
        }
        None => None,
    }
}

/// The line of a bracket at the front, and the tokens behind it.
#[tactic(auto, unfolding(crate::specs::inner::Reading::bracket))]
pub fn bracket(tokens: &[Token]) -> Option<(u32, &[Token])>
    ensures value { option_map (λ x. (x.0, x.1.now)) result ≡ bracket tokens.now }
    ensures shorter { IfSome result (λ x. length x.1.now < length tokens.now) }
{
    match split(tokens) {
        Some((token, rest)) => {
            if is_mark(Mark::LeftBracket, token.kind) {
                Some((token.line, rest))
            } else {
                None
            }
        }
        None => None,
    }
}

fn goes_on(level: u8, left: u8, suffix: Suffix) -> bool
    ensures { result ≡ goes_on level left suffix }
{
    level <= strength_behind(suffix) && least_left(suffix) <= left
}

/// The suffix at the front that goes on with a left operand of a level, its line, and the tokens behind it.
#[tactic(auto, unfolding(crate::specs::inner::Reading::next_at))]
pub fn next_suffix(tokens: &[Token], level: u8, left: u8) -> Option<(Suffix, u32, &[Token])>
    ensures value { option_map (λ x. (x.0, x.1, x.2.now)) result ≡ next_at level left tokens.now }
    ensures shorter { IfSome result (λ x. length x.2.now < length tokens.now) }
{
    match split(tokens) {
        Some((token, rest)) => match suffix_of(token.kind) {
            Some(suffix) => {
                if goes_on(level, left, suffix) {
                    Some((suffix, token.line, rest))
                } else {
                    None
                }
            }
            None => None,
        },
        None => None,
    }
}

/// The text of a token in the bytes: what is left of it there, where it doesn't lie in them.
pub fn token_text(bytes: &[u8], token: Token) -> &[u8]
    ensures { result.now ≡ text_of bytes.now token }
{
    let start = token.start as usize;
    if bytes.len() <= start {
        return &[];
    }
    let (_, rest) = bytes.split_at(start);
    let length = token.length as usize;
    if rest.len() <= length {
        return rest;
    }
    rest.split_at(length).0
}

/// The name of a text.
pub fn text_name(alloc: Global, text: &[u8]) -> Result<Name, AllocError>
    ensures { IfOk result (λ name. name.bytes.items ≡ text.now) }
{
    let bytes = text.to_vec(alloc)?;
    Ok(Name { bytes })
}

/// The name that a token spells.
pub fn name_of(alloc: Global, bytes: &[u8], token: Token) -> Result<Name, AllocError>
    ensures { IfOk result (λ name. name.bytes.items ≡ text_of bytes.now token) }
{
    text_name(alloc, token_text(bytes, token))
}

/// The level of a tree: comma 1, assignment 2, `?:` 3, the binary operators 4 to 13, cast 14, unary 15, postfix 16, primary 17.
pub fn level_of(expr: &Expr) -> u8
    ensures { result ≡ level_of (view expr.now) }
{
    match expr {
        Expr::Constant { .. } => 17,
        Expr::Character { .. } => 17,
        Expr::Strings { .. } => 17,
        Expr::Name { .. } => 17,
        Expr::Parens { .. } => 17,
        Expr::Unary { .. } => 15,
        Expr::Address { .. } => 15,
        Expr::Dereference { .. } => 15,
        Expr::Cast { .. } => 14,
        Expr::SizeofExpr { .. } => 15,
        Expr::SizeofType { .. } => 15,
        Expr::Step { .. } => 16,
        Expr::Member { .. } => 16,
        Expr::Arrow { .. } => 16,
        Expr::Subscript { .. } => 16,
        Expr::Binary { operator, .. } => strength_of(*operator),
        Expr::Choice { .. } => 3,
        Expr::Assign { .. } => 2,
        Expr::Comma { .. } => 1,
        Expr::Call { .. } => 16,
    }
}
