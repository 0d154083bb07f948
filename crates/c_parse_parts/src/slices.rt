//! Taking tokens from the front of a slice.

ghost use Rattle.std.specs.Prelude.{◌≡◌, ◌<◌, ◌≤◌, IfSome, length, option_map};
ghost use Rattle.c_token.specs.declared.token.Mark.TheVariants as marks;
ghost use Rattle.c_parse_expr.specs.Reading.{is_mark};
ghost use Rattle.c_parse_expr.specs.inner.Reading.{is_identifier};
ghost use Rattle.c_parse_parts.specs.inner.Reading.{is_keyword, token_at, stands, comma_at, shut_at, void_at, dots_at, last_at, tag_at, start_by, kept, start_of, start_at, opening_of, opening_at, takes, declarator_start_of, declarator_start_at, is_label, declares_at};

use crate::table::{Start, start_of_keyword};
use c_parse_expr::{TypeNames, is_mark, split, token_text};
use c_token::{Keyword, Kind, Mark, Token};

/// What begins a suffix of a declarator.
#[derive(Clone, Copy, PartialEq, Eq)]
pub enum Opening {
    Bracket,
    Parenthesis,
}

/// What a declarator begins with.
#[derive(Clone, Copy, PartialEq, Eq)]
pub enum DeclaratorStart {
    /// The name that it declares.
    Name,
    /// The parenthesis around a declarator.
    Inside,
    /// The suffixes of an abstract declarator.
    Suffixes,
    /// Nothing: the empty abstract declarator.
    Nothing,
}

fn is_keyword(keyword: Keyword, kind: Kind) -> bool
    ensures { result ≡ is_keyword keyword kind }
{
    match kind {
        Kind::Identifier => false,
        Kind::Keyword(found) => found.text() == keyword.text(),
        Kind::Constant(_) => false,
        Kind::Character(_) => false,
        Kind::String => false,
        Kind::Mark(_) => false,
    }
}

fn is_identifier(kind: Kind) -> bool
    ensures { result ≡ is_identifier kind }
{
    match kind {
        Kind::Identifier => true,
        Kind::Keyword(_) => false,
        Kind::Constant(_) => false,
        Kind::Character(_) => false,
        Kind::String => false,
        Kind::Mark(_) => false,
    }
}

/// The mark at the front, and the tokens behind it.
#[tactic(auto, unfolding(crate::specs::inner::Reading::token_at))]
pub fn mark_at(tokens: &[Token], mark: Mark) -> Option<(Token, &[Token])>
    ensures value { option_map (λ x. (x.0, x.1.now)) result ≡ token_at (is_mark mark) tokens.now }
    ensures shorter { IfSome result (λ x. length x.1.now < length tokens.now) }
{
    match split(tokens) {
        Some((token, rest)) => {
            if is_mark(mark, token.kind) {
                Some((token, rest))
            } else {
                None
            }
        }
        None => None,
    }
}

/// The keyword at the front, and the tokens behind it.
#[tactic(auto, unfolding(crate::specs::inner::Reading::token_at))]
pub fn keyword_at(tokens: &[Token], keyword: Keyword) -> Option<(Token, &[Token])>
    ensures value { option_map (λ x. (x.0, x.1.now)) result ≡ token_at (is_keyword keyword) tokens.now }
    ensures shorter { IfSome result (λ x. length x.1.now < length tokens.now) }
{
    match split(tokens) {
        Some((token, rest)) => {
            if is_keyword(keyword, token.kind) {
                Some((token, rest))
            } else {
                None
            }
        }
        None => None,
    }
}

/// The identifier at the front, and the tokens behind it.
#[tactic(auto, unfolding(crate::specs::inner::Reading::token_at))]
pub fn identifier_at(tokens: &[Token]) -> Option<(Token, &[Token])>
    ensures value { option_map (λ x. (x.0, x.1.now)) result ≡ token_at is_identifier tokens.now }
    ensures shorter { IfSome result (λ x. length x.1.now < length tokens.now) }
{
    match split(tokens) {
        Some((token, rest)) => {
            if is_identifier(token.kind) {
                Some((token, rest))
            } else {
                None
            }
        }
        None => None,
    }
}

/// Whether a mark stands at the front.
pub fn stands(tokens: &[Token], mark: Mark) -> bool
    ensures { result ≡ stands mark tokens.now }
{
    match mark_at(tokens, mark) {
        Some(_) => true,
        None => false,
    }
}

/// Where an item of a list stands: the first at the front, the others behind a comma.
#[tactic(auto, unfolding(crate::specs::inner::Reading::comma_at))]
pub fn comma_at(tokens: &[Token], first: bool) -> Option<&[Token]>
    ensures value { option_map (λ x. x.now) result ≡ comma_at first tokens.now }
    ensures shorter { IfSome result (λ x. length x.now ≤ length tokens.now) }
{
    if first {
        return Some(tokens);
    }
    match mark_at(tokens, Mark::Comma) {
        Some((_, rest)) => Some(rest),
        None => None,
    }
}

/// The tokens behind the brace that closes a list, with a comma before it or not. A list has an item.
#[tactic(auto, unfolding(crate::specs::inner::Reading::shut_at))]
pub fn shut_at(tokens: &[Token], first: bool) -> Option<&[Token]>
    ensures value { option_map (λ x. x.now) result ≡ shut_at first tokens.now }
    ensures shorter { IfSome result (λ x. length x.now < length tokens.now) }
{
    if first {
        return None;
    }
    if let Some((_, rest)) = mark_at(tokens, Mark::RightBrace) {
        return Some(rest);
    }
    let Some((_, rest)) = mark_at(tokens, Mark::Comma) else {
        return None;
    };
    match mark_at(rest, Mark::RightBrace) {
        Some((_, rest)) => Some(rest),
        None => None,
    }
}

/// The text of a tag at the front, if one stands there, and the tokens behind it.
#[tactic(auto, unfolding(crate::specs::inner::Reading::tag_at))]
pub fn tag_at<'a, 'b>(bytes: &'b [u8], tokens: &'a [Token]) -> (Option<&'b [u8]>, &'a [Token])
    ensures value { (option_map (λ x. x.now) result.0, result.1.now) ≡ tag_at bytes.now tokens.now }
    ensures shorter { length result.1.now ≤ length tokens.now }
{
    match identifier_at(tokens) {
        Some((token, rest)) => (Some(token_text(bytes, token)), rest),
        None => (None, tokens),
    }
}

fn start_by(named: bool, kind: Kind) -> Option<Start>
    ensures { result ≡ start_by named kind }
{
    match kind {
        Kind::Identifier => { if named { Some(Start::Name) } else { None } }
        Kind::Keyword(keyword) => start_of_keyword(keyword),
        Kind::Constant(_) => None,
        Kind::Character(_) => None,
        Kind::String => None,
        Kind::Mark(_) => None,
    }
}

/// What may stand among the specifiers of members, or of others.
fn kept(inner: bool, start: Start) -> Option<Start>
    ensures { result ≡ kept inner start }
{
    match start {
        Start::Qualifier(_) => Some(start),
        Start::Word(_) => Some(start),
        Start::Storage(_) => { if inner { None } else { Some(start) } }
        Start::Function(_) => { if inner { None } else { Some(start) } }
        Start::Record(_) => Some(start),
        Start::Enumeration => Some(start),
        Start::Name => Some(start),
    }
}

/// What a token begins among the specifiers of members, or of others, where a type is specified before it or not.
fn start_of(
    inner: bool,
    bytes: &[u8],
    names: &TypeNames,
    before: bool,
    token: Token,
) -> Option<Start>
    ensures { result ≡ start_of inner bytes.now (names.now, before) token }
{
    let is_type = names.is_type(token_text(bytes, token));
    match start_by(!before && is_type, token.kind) {
        Some(start) => kept(inner, start),
        None => None,
    }
}

/// What the first token begins among specifiers, the token, and those behind it.
#[tactic(auto, unfolding(crate::specs::inner::Reading::start_at))]
pub fn start_at<'a>(
    inner: bool,
    bytes: &[u8],
    names: &TypeNames,
    before: bool,
    tokens: &'a [Token],
) -> Option<(Start, Token, &'a [Token])>
    ensures value { option_map (λ x. (x.0, x.1, x.2.now)) result ≡ start_at inner bytes.now (names.now, before) tokens.now }
    ensures shorter { IfSome result (λ x. length x.2.now < length tokens.now) }
{
    let Some((token, rest)) = split(tokens) else {
        return None;
    };
    match start_of(inner, bytes, names, before, token) {
        Some(start) => Some((start, token, rest)),
        None => None,
    }
}

fn is_label(tokens: &[Token]) -> bool
    ensures { result ≡ is_label tokens.now }
{
    match split(tokens) {
        Some((token, rest)) => is_identifier(token.kind) && stands(rest, Mark::Colon),
        None => false,
    }
}

/// What a declaration among statements begins with. A label begins none.
#[tactic(auto, unfolding(crate::specs::inner::Reading::declares_at))]
pub fn declares_at<'a>(
    bytes: &[u8],
    names: &TypeNames,
    tokens: &'a [Token],
) -> Option<(Start, Token, &'a [Token])>
    ensures { option_map (λ x. (x.0, x.1, x.2.now)) result ≡ declares_at bytes.now names.now tokens.now }
{
    if is_label(tokens) {
        return None;
    }
    start_at(false, bytes, names, false, tokens)
}

fn opening_of(kind: Kind) -> Option<Opening>
    ensures { result ≡ opening_of kind }
{
    if is_mark(Mark::LeftBracket, kind) {
        Some(Opening::Bracket)
    } else if is_mark(Mark::LeftParenthesis, kind) {
        Some(Opening::Parenthesis)
    } else {
        None
    }
}

/// What begins a suffix of a declarator, the token, and those behind it.
#[tactic(auto, unfolding(crate::specs::inner::Reading::opening_at))]
pub fn opening_at(tokens: &[Token]) -> Option<(Opening, Token, &[Token])>
    ensures value { option_map (λ x. (x.0, x.1, x.2.now)) result ≡ opening_at tokens.now }
    ensures shorter { IfSome result (λ x. length x.2.now < length tokens.now) }
{
    let Some((token, rest)) = split(tokens) else {
        return None;
    };
    match opening_of(token.kind) {
        Some(opening) => Some((opening, token, rest)),
        None => None,
    }
}

/// The tokens behind `void` and a parenthesis.
#[tactic(auto, unfolding(crate::specs::inner::Reading::void_at))]
pub fn void_at(tokens: &[Token]) -> Option<&[Token]>
    ensures value { option_map (λ x. x.now) result ≡ void_at tokens.now }
    ensures shorter { IfSome result (λ x. length x.now < length tokens.now) }
{
    let Some((_, rest)) = keyword_at(tokens, Keyword::Void) else {
        return None;
    };
    match mark_at(rest, Mark::RightParenthesis) {
        Some((_, rest)) => Some(rest),
        None => None,
    }
}

#[tactic(auto, unfolding(crate::specs::inner::Reading::dots_at))]
fn dots_at(tokens: &[Token]) -> Option<&[Token]>
    ensures value { option_map (λ x. x.now) result ≡ dots_at tokens.now }
    ensures shorter { IfSome result (λ x. length x.now < length tokens.now) }
{
    let Some((_, rest)) = mark_at(tokens, Mark::Comma) else {
        return None;
    };
    let Some((_, rest)) = mark_at(rest, Mark::Ellipsis) else {
        return None;
    };
    match mark_at(rest, Mark::RightParenthesis) {
        Some((_, rest)) => Some(rest),
        None => None,
    }
}

/// Whether `...` stands before the parenthesis that closes a list of parameters, and the tokens behind it. A list has a
/// parameter.
#[tactic(auto, unfolding(crate::specs::inner::Reading::last_at))]
pub fn last_at(tokens: &[Token], first: bool) -> Option<(bool, &[Token])>
    ensures value { option_map (λ x. (x.0, x.1.now)) result ≡ last_at first tokens.now }
    ensures shorter { IfSome result (λ x. length x.1.now < length tokens.now) }
{
    if first {
        return None;
    }
    if let Some((_, rest)) = mark_at(tokens, Mark::RightParenthesis) {
        return Some((false, rest));
    }
    match dots_at(tokens) {
        Some(rest) => Some((true, rest)),
        None => None,
    }
}

/// Whether parameters stand behind the parenthesis of a parameter's declarator: none, or a specifier begins.
fn takes(bytes: &[u8], names: &TypeNames, tokens: &[Token]) -> bool
    ensures { result ≡ takes bytes.now names.now tokens.now }
{
    let specifier = match start_at(false, bytes, names, false, tokens) {
        Some(_) => true,
        None => false,
    };
    stands(tokens, Mark::RightParenthesis) || specifier
}

fn declarator_start_of(inner: bool, given: bool, kind: Kind) -> Option<DeclaratorStart>
    ensures { result ≡ declarator_start_of inner given kind }
{
    if is_mark(Mark::LeftParenthesis, kind) {
        if inner && given {
            Some(DeclaratorStart::Suffixes)
        } else {
            Some(DeclaratorStart::Inside)
        }
    } else if is_identifier(kind) {
        Some(DeclaratorStart::Name)
    } else if inner {
        if is_mark(Mark::LeftBracket, kind) {
            Some(DeclaratorStart::Suffixes)
        } else {
            Some(DeclaratorStart::Nothing)
        }
    } else {
        None
    }
}

/// What a declarator begins with, of a parameter or of another thing.
#[tactic(auto, unfolding(crate::specs::inner::Reading::declarator_start_at))]
pub fn declarator_start_at(
    inner: bool,
    bytes: &[u8],
    names: &TypeNames,
    tokens: &[Token],
) -> Option<DeclaratorStart>
    ensures { result ≡ declarator_start_at inner bytes.now names.now tokens.now }
{
    match split(tokens) {
        Some((token, rest)) => declarator_start_of(inner, takes(bytes, names, rest), token.kind),
        None => {
            if inner {
                Some(DeclaratorStart::Nothing)
            } else {
                None
            }
        }
    }
}
