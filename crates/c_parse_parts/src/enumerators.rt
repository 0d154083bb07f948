//! Reading enumerators.

ghost use Rattle.std.specs.Prelude.{◌<◌, ◌≤◌, ◌≡◌, length, map, option_map, IfOk};
ghost use Rattle.c_tree.specs.Tree.{boxed};
ghost use Rattle.c_tree.specs.Declarations.{view_enumerator, with_enumerators};
ghost use Rattle.c_parse_expr.specs.Reading.{Gives};
ghost use Rattle.c_parse_parts.specs.inner.Reading.{value_at, enumerator_at, enumerators_at, next_at};

use crate::slices::{comma_at, identifier_at, mark_at, shut_at};
use c_parse_expr::{Frame, Refused, TypeNames, name_of, read};
use c_token::{Mark, Token};
use c_tree::{Enumerator, Expr};

/// The value of an enumerator at the front, if a `=` stands there.
#[tactic(auto, unfolding(crate::specs::inner::Reading::value_at))]
fn value<'a>(
    frame: Frame<'_>,
    names: &TypeNames,
    tokens: &'a [Token],
) -> Result<(Option<Box<Expr>>, &'a [Token]), Refused>
    requires { frame.levels ≤ 400 }
    ensures exact { Gives (λ x. (option_map boxed x.0, x.1.now)) result (value_at frame.entry.bytes.now names.now frame.entry.levels tokens.now) }
    ensures shorter { IfOk result (λ x. length x.1.now ≤ length tokens.now) }
{
    let Some((_, rest)) = mark_at(tokens, Mark::Equal) else {
        return Ok((None, tokens));
    };
    let found = read(frame, names, rest, 3)?;
    Ok((Some(found.tree), found.rest))
}

/// The enumerator at the front.
#[tactic(auto, unfolding(crate::specs::inner::Reading::enumerator_at))]
fn enumerator<'a>(
    frame: Frame<'_>,
    names: &TypeNames,
    tokens: &'a [Token],
) -> Result<(Enumerator, &'a [Token]), Refused>
    requires { frame.levels ≤ 400 }
    ensures exact { Gives (λ x. (view_enumerator x.0, x.1.now)) result (enumerator_at frame.entry.bytes.now names.now frame.entry.levels tokens.now) }
    ensures shorter { IfOk result (λ x. length x.1.now < length tokens.now) }
{
    let Some((token, rest)) = identifier_at(tokens) else {
        return Err(Refused::Syntax);
    };
    let name = name_of(frame.alloc, frame.bytes, token)?;
    let (value, rest) = value(frame, names, rest)?;
    Ok((
        Enumerator {
            line: token.line,
            name,
            value,
        },
        rest,
    ))
}

/// The enumerator at the front, or behind a comma where it isn't the first.
fn next<'a>(
    frame: Frame<'_>,
    names: &TypeNames,
    first: bool,
    tokens: &'a [Token],
) -> Result<(Enumerator, &'a [Token]), Refused>
    requires { frame.levels ≤ 400 }
    ensures exact { Gives (λ x. (view_enumerator x.0, x.1.now)) result (next_at first (enumerator_at frame.entry.bytes.now names.now frame.entry.levels) tokens.now) }
    ensures shorter { IfOk result (λ x. length x.1.now < length tokens.now) }
{
    let Some(rest) = comma_at(tokens, first) else {
        return Err(Refused::Syntax);
    };
    enumerator(frame, names, rest)
}

/// The enumerators of an enumeration, one at least, and the tokens behind the brace that closes them (C11 6.7.2.2). Each is
/// declared behind its own value.
pub fn enumerators<'a>(
    frame: Frame<'_>,
    names: &mut TypeNames,
    tokens: &'a [Token],
) -> Result<(Vec<Enumerator>, &'a [Token]), Refused>
    requires { frame.levels ≤ 400 }
    ensures exact { Gives (λ x. (map view_enumerator x.0.items, x.1.now)) result (enumerators_at frame.entry.bytes.now names.old frame.entry.levels tokens.now) }
    ensures names { IfOk result (λ x. names.new ≡ with_enumerators names.old (map view_enumerator x.0.items)) }
    ensures shorter { IfOk result (λ x. length x.1.now ≤ length tokens.now) }
{
    let mut enumerators = Vec::new(frame.alloc);
    let mut first = true;
    let mut rest = tokens;
    'enumerators: loop {
        if let Some(behind) = shut_at(rest, first) {
            return Ok((enumerators, behind));
        }
        let (next, behind) = next(frame, names, first, rest)?;
        names.declare(frame.alloc, &next.name.bytes, false)?;
        enumerators.push(next)?;
        first = false;
        rest = behind;
    }
}
