//! Reading initializers, declarators and declarations.

ghost use Rattle.std.specs.Prelude.{◌<◌, ◌≤◌, ◌≡◌, ◌∷◌, length, option_map, IfOk};
ghost use Rattle.c_tree.specs.Declarations.{view_full, view_initializer, initials_of, declarators_of, parts_of, name_of, with_declarators, with_declaration};
ghost use Rattle.c_parse_expr.specs.Reading.{Gives};
ghost use Rattle.c_parse_parts.specs.inner.Reading.{next_at, initials_in, initials_at, initializer_at, declarator_at, declarators_at, declaration_at};

use crate::declared::declared_name;
use crate::parts::{are_some, full, specifiers};
use crate::slices::{comma_at, mark_at, shut_at};
use c_parse_expr::{Frame, Refused, TypeNames, read};
use c_token::{Mark, Token};
use c_tree::{Declaration, InitDeclarator, Initializer};

/// The initializer at the front (C11 6.7.9). Braces take a level.
#[cycle(initializers)]
#[tactic(auto, unfolding(crate::specs::inner::Reading::initial_at))]
fn initial<'a>(
    frame: Frame<'_>,
    names: &TypeNames,
    tokens: &'a [Token],
) -> Result<(Initializer, &'a [Token]), Refused>
    requires { frame.levels ≤ 400 }
    ensures exact { Gives (λ x. (view_initializer x.0, x.1.now)) result (initials_in frame.entry names.now tokens.now) }
    ensures shorter { IfOk result (λ x. length x.1.now < length tokens.now) }
{
    if frame.levels == 0 {
        return Err(Refused::Syntax);
    }
    let Some((token, rest)) = mark_at(tokens, Mark::LeftBrace) else {
        let found = read(frame, names, tokens, 2)?;
        return Ok((Initializer::Value(found.tree), found.rest));
    };
    let below = Frame {
        levels: frame.levels - 1,
        ..frame
    };
    let (items, rest) = initials(below, names, rest)?;
    Ok((
        Initializer::List {
            line: token.line,
            items,
        },
        rest,
    ))
}

/// The initializer at the front, or behind a comma where it isn't the first.
#[cycle(initializers)]
fn next_initial<'a>(
    frame: Frame<'_>,
    names: &TypeNames,
    first: bool,
    tokens: &'a [Token],
) -> Result<(Initializer, &'a [Token]), Refused>
    requires { frame.levels < 400 }
    ensures exact { Gives (λ x. (view_initializer x.0, x.1.now)) result (next_at first (initials_in frame.entry names.now) tokens.now) }
    ensures shorter { IfOk result (λ x. length x.1.now < length tokens.now) }
{
    let Some(rest) = comma_at(tokens, first) else {
        return Err(Refused::Syntax);
    };
    initial(frame, names, rest)
}

/// Initializers behind a brace, one at least, and the tokens behind the brace that closes them.
#[cycle(initializers)]
fn initials<'a>(
    frame: Frame<'_>,
    names: &TypeNames,
    tokens: &'a [Token],
) -> Result<(Vec<Initializer>, &'a [Token]), Refused>
    requires { frame.levels < 400 }
    ensures exact { Gives (λ x. (initials_of x.0.items, x.1.now)) result (initials_at (initials_in frame.entry names.now) tokens.now) }
    ensures shorter { IfOk result (λ x. length x.1.now ≤ length tokens.now) }
{
    let mut initials = Vec::new(frame.alloc);
    let mut first = true;
    let mut rest = tokens;
    'initials: loop {
        if let Some(behind) = shut_at(rest, first) {
            return Ok((initials, behind));
        }
        let (next, behind) = next_initial(frame, names, first, rest)?;
        initials.push(next)?;
        first = false;
        rest = behind;
    }
}

/// The initializer of a declarator, if a `=` stands at the front.
#[tactic(auto, unfolding(crate::specs::inner::Reading::initializer_at))]
pub fn initializer<'a>(
    frame: Frame<'_>,
    names: &TypeNames,
    tokens: &'a [Token],
) -> Result<(Option<Initializer>, &'a [Token]), Refused>
    requires { frame.levels ≤ 400 }
    ensures exact { Gives (λ x. (option_map view_initializer x.0, x.1.now)) result (initializer_at frame.entry.bytes.now names.now frame.entry.levels tokens.now) }
    ensures shorter { IfOk result (λ x. length x.1.now ≤ length tokens.now) }
{
    let Some((_, rest)) = mark_at(tokens, Mark::Equal) else {
        return Ok((None, tokens));
    };
    let (initial, rest) = initial(frame, names, rest)?;
    Ok((Some(initial), rest))
}

/// The declarator at the front with its initializer. Its name is declared between them, as a type or not.
#[tactic(auto, unfolding(crate::specs::inner::Reading::declarator_at))]
fn initialized<'a>(
    frame: Frame<'_>,
    names: &mut TypeNames,
    types: bool,
    tokens: &'a [Token],
) -> Result<(InitDeclarator, &'a [Token]), Refused>
    requires { frame.levels ≤ 400 }
    ensures exact { Gives (λ x. ((view_full x.0.declarator, option_map view_initializer x.0.initializer), x.1.now)) result (declarator_at frame.entry.bytes.now names.old types frame.entry.levels tokens.now) }
    ensures names { IfOk result (λ x. names.new ≡ (name_of (view_full x.0.declarator), types) ∷ names.old) }
    ensures shorter { IfOk result (λ x. length x.1.now < length tokens.now) }
{
    let (declarator, rest) = full(frame, names, false, tokens)?;
    names.declare(frame.alloc, declared_name(&declarator), types)?;
    let (initializer, rest) = initializer(frame, names, rest)?;
    Ok((
        InitDeclarator {
            declarator,
            initializer,
        },
        rest,
    ))
}

/// The declarator at the front with its initializer, or behind a comma where it isn't the first.
fn next_initialized<'a>(
    frame: Frame<'_>,
    names: &mut TypeNames,
    types: bool,
    first: bool,
    tokens: &'a [Token],
) -> Result<(InitDeclarator, &'a [Token]), Refused>
    requires { frame.levels ≤ 400 }
    ensures exact { Gives (λ x. ((view_full x.0.declarator, option_map view_initializer x.0.initializer), x.1.now)) result (next_at first (declarator_at frame.entry.bytes.now names.old types frame.entry.levels) tokens.now) }
    ensures names { IfOk result (λ x. names.new ≡ (name_of (view_full x.0.declarator), types) ∷ names.old) }
    ensures shorter { IfOk result (λ x. length x.1.now < length tokens.now) }
{
    let Some(rest) = comma_at(tokens, first) else {
        return Err(Refused::Syntax);
    };
    initialized(frame, names, types, rest)
}

/// The declarators behind specifiers, or behind the first of them, and the tokens behind their `;`. They are declared, as
/// types or not.
pub fn declarators<'a>(
    frame: Frame<'_>,
    names: &mut TypeNames,
    types: bool,
    begins: bool,
    tokens: &'a [Token],
) -> Result<(Vec<InitDeclarator>, &'a [Token]), Refused>
    requires { frame.levels ≤ 400 }
    ensures exact { Gives (λ x. (declarators_of x.0.items, x.1.now)) result (declarators_at frame.entry.bytes.now names.old types frame.entry.levels begins tokens.now) }
    ensures names { IfOk result (λ x. names.new ≡ with_declarators names.old types (declarators_of x.0.items)) }
    ensures shorter { IfOk result (λ x. length x.1.now < length tokens.now) }
{
    let mut declarators = Vec::new(frame.alloc);
    let mut first = begins;
    let mut rest = tokens;
    'declarators: loop {
        if let Some((_, behind)) = mark_at(rest, Mark::Semicolon) {
            return Ok((declarators, behind));
        }
        let (next, behind) = next_initialized(frame, names, types, first, rest)?;
        declarators.push(next)?;
        first = false;
        rest = behind;
    }
}

/// The declaration at the front (C11 6.7), with a specifier at least. What it declares is declared behind it.
#[tactic(auto, unfolding(crate::specs::inner::Reading::declaration_at))]
pub fn declaration<'a>(
    frame: Frame<'_>,
    names: &mut TypeNames,
    tokens: &'a [Token],
) -> Result<(Box<Declaration>, &'a [Token]), Refused>
    requires { frame.levels ≤ 400 }
    ensures exact { Gives (λ x. ((parts_of x.0.value.specifiers.items, declarators_of x.0.value.declarators.items), x.1.now)) result (declaration_at frame.entry.bytes.now names.old frame.entry.levels tokens.now) }
    ensures names { IfOk result (λ x. names.new ≡ with_declaration names.old (parts_of x.0.value.specifiers.items) (declarators_of x.0.value.declarators.items)) }
    ensures shorter { IfOk result (λ x. length x.1.now < length tokens.now) }
{
    let found = specifiers(frame, names, false, tokens)?;
    if !are_some(&found.items) {
        return Err(Refused::Syntax);
    }
    let (declarators, rest) = declarators(frame, names, found.types, true, found.rest)?;
    let declaration = Box::new(
        frame.alloc,
        Declaration {
            specifiers: found.items,
            declarators,
        },
    )?;
    Ok((declaration, rest))
}
