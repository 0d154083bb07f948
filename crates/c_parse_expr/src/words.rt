//! Reading what has no expression in it: string literals in a row, and the specifiers of a type.

ghost use Rattle.std.specs.Prelude.{◌≡◌, ◌<◌, ◌≤◌, Some, length, map, option_map, IfOk, IfSome};
ghost use Rattle.c_tree.specs.Tree.{view_name, view_type_part};
ghost use Rattle.c_parse_expr.specs.Reading.{Gives};
ghost use Rattle.c_parse_expr.specs.inner.Reading.{behind, start_by, start_of, begins_type, type_behind, started, type_part_at, type_parts_at, strings_behind, declarator_start_of, declarator_start_at};
ghost use Rattle.c_token.specs.declared.token.Mark.TheVariants.{LeftParenthesis};
ghost use Rattle.c_token.specs.Spelling.{text_of};

use crate::declarator_start::DeclaratorStart;
use crate::fault::Refused;
use crate::names::TypeNames;
use crate::slices::{
    behind_mark, identifier, is_identifier, is_mark, name_of, split, string, text_name, token_text,
};
use crate::table::{TypeStart, keyword_start};
use c_token::{Kind, Mark, Token};
use c_tree::{Name, TypeSpecifier};
use std::alloc::Global;

/// A string literal with those at the front, and the tokens behind them.
pub fn strings<'a>(
    alloc: Global,
    bytes: &[u8],
    token: Token,
    tokens: &'a [Token],
) -> Result<(Vec<Name>, &'a [Token]), Refused>
    ensures exact { Gives (λ x. (map view_name x.0.items, x.1.now)) result (strings_behind bytes.now (text_of bytes.now token) tokens.now) }
    ensures shorter { IfOk result (λ x. length x.1.now ≤ length tokens.now) }
{
    let mut parts = Vec::new(alloc);
    parts.push(name_of(alloc, bytes, token)?)?;
    let mut rest = tokens;
    'parts: while let Some((text, behind)) = string(bytes, rest) {
        parts.push(text_name(alloc, text)?)?;
        rest = behind;
    }
    Ok((parts, rest))
}

fn start_by(named: bool, kind: Kind) -> Option<TypeStart>
    ensures { result ≡ start_by named kind }
{
    match kind {
        Kind::Identifier => { if named { Some(TypeStart::Name) } else { None } }
        Kind::Keyword(keyword) => keyword_start(keyword),
        Kind::Constant(_) => None,
        Kind::Character(_) => None,
        Kind::String => None,
        Kind::Mark(_) => None,
    }
}

/// The specifier of a type that a token begins, where a type is specified before it or not.
pub fn start_of(bytes: &[u8], names: &TypeNames, before: bool, token: Token) -> Option<TypeStart>
    ensures { result ≡ start_of bytes.now names.now before token }
{
    let is_type = names.is_type(token_text(bytes, token));
    start_by(!before && is_type, token.kind)
}

/// Whether a type name begins at the front.
pub fn begins_type(bytes: &[u8], names: &TypeNames, tokens: &[Token]) -> bool
    ensures { result ≡ begins_type bytes.now names.now tokens.now }
{
    match split(tokens) {
        Some((token, _)) => start_of(bytes, names, false, token).is_some(),
        None => false,
    }
}

/// The tokens of a type name in parentheses at the front, behind the parenthesis that opens them.
pub fn type_behind<'a>(bytes: &[u8], names: &TypeNames, tokens: &'a [Token]) -> Option<&'a [Token]>
    ensures value { option_map (λ x. x.now) result ≡ type_behind bytes.now names.now (behind LeftParenthesis tokens.now) }
    ensures shorter { IfSome result (λ x. length x.now < length tokens.now) }
{
    match behind_mark(tokens, Mark::LeftParenthesis) {
        Some(rest) => {
            if begins_type(bytes, names, rest) {
                Some(rest)
            } else {
                None
            }
        }
        None => None,
    }
}

/// The specifier of a type that a token begins so, whether a type is specified then, and the tokens behind it.
fn specifier_behind<'a>(
    alloc: Global,
    bytes: &[u8],
    before: bool,
    token: Token,
    start: TypeStart,
    tokens: &'a [Token],
) -> Result<(TypeSpecifier, bool, &'a [Token]), Refused>
    ensures exact { Gives (λ x. Some (view_type_part x.0, x.1, x.2.now)) result (started bytes.now before token tokens.now (Some start)) }
    ensures shorter { IfOk result (λ x. length x.2.now ≤ length tokens.now) }
{
    let line = token.line;
    match start {
        TypeStart::Qualifier(qualifier) => {
            Ok((TypeSpecifier::Qualifier { line, qualifier }, before, tokens))
        }
        TypeStart::Word(word) => Ok((TypeSpecifier::Word { line, word }, true, tokens)),
        TypeStart::Tag(kind) => {
            let Some((text, rest)) = identifier(bytes, tokens) else {
                return Err(Refused::Syntax);
            };
            let name = text_name(alloc, text)?;
            Ok((TypeSpecifier::Tagged { line, kind, name }, true, rest))
        }
        TypeStart::Name => {
            let name = name_of(alloc, bytes, token)?;
            Ok((TypeSpecifier::Named { line, name }, true, tokens))
        }
    }
}

/// The specifier of a type at the front, if one begins there, whether a type is specified then, and the tokens behind it.
#[tactic(auto, unfolding(crate::specs::inner::Reading::type_part_at))]
pub fn type_specifier<'a>(
    alloc: Global,
    bytes: &[u8],
    names: &TypeNames,
    before: bool,
    tokens: &'a [Token],
) -> Result<Option<(TypeSpecifier, bool, &'a [Token])>, Refused>
    ensures exact { Gives (λ o. option_map (λ x. (view_type_part x.0, x.1, x.2.now)) o) result (type_part_at bytes.now names.now before tokens.now) }
    ensures shorter { IfOk result (λ o. IfSome o (λ x. length x.2.now < length tokens.now)) }
{
    let Some((token, rest)) = split(tokens) else {
        return Ok(None);
    };
    let Some(start) = start_of(bytes, names, before, token) else {
        return Ok(None);
    };
    let found = specifier_behind(alloc, bytes, before, token, start, rest)?;
    Ok(Some(found))
}

/// The specifiers of a type at the front, and the tokens behind them.
pub fn type_specifiers<'a>(
    alloc: Global,
    bytes: &[u8],
    names: &TypeNames,
    tokens: &'a [Token],
) -> Result<(Vec<TypeSpecifier>, &'a [Token]), Refused>
    ensures exact { Gives (λ x. (map view_type_part x.0.items, x.1.now)) result (type_parts_at bytes.now names.now tokens.now) }
    ensures shorter { IfOk result (λ x. length x.1.now ≤ length tokens.now) }
{
    let mut specifiers = Vec::new(alloc);
    let mut before = false;
    let mut rest = tokens;
    'specifiers: while let Some((specifier, known, behind)) = type_specifier(
        alloc, bytes, names, before, rest,
    )? {
        specifiers.push(specifier)?;
        before = known;
        rest = behind;
    }
    Ok((specifiers, rest))
}

fn declarator_start_of(named: bool, kind: Kind) -> Option<DeclaratorStart>
    ensures { result ≡ declarator_start_of named kind }
{
    if is_mark(Mark::LeftParenthesis, kind) {
        return Some(DeclaratorStart::Inside);
    }
    if named {
        if is_identifier(kind) {
            Some(DeclaratorStart::Name)
        } else {
            None
        }
    } else if is_mark(Mark::LeftBracket, kind) {
        Some(DeclaratorStart::Suffixes)
    } else {
        Some(DeclaratorStart::Nothing)
    }
}

/// What a declarator at the front begins with, where it has a name or none.
pub fn declarator_start_at(named: bool, tokens: &[Token]) -> Option<DeclaratorStart>
    ensures { result ≡ declarator_start_at named tokens.now }
{
    match split(tokens) {
        Some((token, _)) => declarator_start_of(named, token.kind),
        None => {
            if named {
                None
            } else {
                Some(DeclaratorStart::Nothing)
            }
        }
    }
}
