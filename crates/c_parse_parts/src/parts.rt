//! Reading specifiers and declarators.

ghost use Rattle.std.specs.Prelude.{◌<◌, ◌≤◌, ◌≡◌, ◌||◌, ◌++◌, true, false, length, option_map, IfOk};
ghost use Rattle.c_tree.specs.Tree.{view_name};
ghost use Rattle.c_tree.specs.Names.{Scope};
ghost use Rattle.c_tree.specs.Declarations.{view_part, parts_of, members_of, full_unnamed, full_end, view_full, fulls_of, full_suffixes_of, parameters_of, with_part, with_parts, with_members, with_named, specifies, is_typedef, have_typedef};
ghost use Rattle.c_parse_expr.specs.Reading.{Gives};
ghost use Rattle.c_parse_parts.specs.inner.Reading.{tagged_by, record_at, enumeration_at, part_from, parts_at, are_some, have_some, next_at, fulls_at, member_at, members_at, bound_at, parameter_at, parameters_at, given_at, taken_at, one_from, suffixes_at, inside_at, full_from, bare_full, bodies_in, fulls_in};
ghost use Rattle.c_parse_parts.specs.inner.Pieces.{suffix_of, parameter_of};

use crate::declared::{declare_named, either, is_typedef};
use crate::enumerators::enumerators;
use crate::slices::{
    DeclaratorStart, Opening, comma_at, declarator_start_at, last_at, mark_at, opening_at,
    start_at, tag_at, void_at,
};
use crate::table::{Start, record_tag};
use c_parse_expr::{Frame, Refused, TypeNames, name_of, read, split};
use c_token::{Mark, Token};
use c_tree::{
    DeclaratorSuffix, FullDeclarator, MemberDeclaration, Name, Parameter, RecordKind, Specifier,
    TagKind, TypeSpecifier,
};
use std::alloc::{AllocError, Global};

/// Specified, whether `typedef` is among them, and the tokens behind them.
#[derive(Drop)]
pub struct Specified<'a> {
    pub items: Vec<Specifier>,
    pub types: bool,
    pub rest: &'a [Token],
}

/// Whether a type is specified.
fn specifies(specifier: &Specifier) -> bool
    ensures { result ≡ specifies (view_part specifier.now) }
{
    match specifier {
        Specifier::Type(part) => match part {
            TypeSpecifier::Qualifier { .. } => false,
            TypeSpecifier::Word { .. } => true,
            TypeSpecifier::Tagged { .. } => true,
            TypeSpecifier::Named { .. } => true,
        },
        Specifier::Storage { .. } => false,
        Specifier::Function { .. } => false,
        Specifier::Record { .. } => true,
        Specifier::Enumeration { .. } => true,
    }
}

/// Whether there is a specifier.
pub fn are_some(specifiers: &[Specifier]) -> bool
    ensures { result ≡ are_some (parts_of specifiers.now) }
{
    !specifiers.is_empty()
}

fn name_from(alloc: Global, text: &[u8]) -> Result<Name, AllocError>
    ensures { IfOk result (λ name. view_name name ≡ text.now) }
{
    let bytes = text.to_vec(alloc)?;
    Ok(Name { bytes })
}

fn tag_from(alloc: Global, text: Option<&[u8]>) -> Result<Option<Name>, AllocError>
    ensures { IfOk result (λ tag. option_map view_name tag ≡ option_map (λ x. x.now) text.entry) }
{
    match text {
        Some(text) => Ok(Some(name_from(alloc, text)?)),
        None => Ok(None),
    }
}

/// A specifier that is a tag without braces.
fn tagged<'a>(
    alloc: Global,
    kind: TagKind,
    line: u32,
    tag: Option<&[u8]>,
    tokens: &'a [Token],
) -> Result<(Specifier, &'a [Token]), Refused>
    ensures exact { Gives (λ x. (view_part x.0, x.1.now)) result (tagged_by kind line (option_map (λ x. x.now) tag.entry) tokens.now) }
    ensures shorter { IfOk result (λ x. length x.1.now ≤ length tokens.now) }
{
    let Some(text) = tag else {
        return Err(Refused::Syntax);
    };
    let name = name_from(alloc, text)?;
    Ok((
        Specifier::Type(TypeSpecifier::Tagged { line, kind, name }),
        tokens,
    ))
}

/// An enumeration behind its keyword (C11 6.7.2.2).
#[tactic(auto, unfolding(crate::specs::inner::Reading::enumeration_at))]
fn enumeration<'a>(
    frame: Frame<'_>,
    names: &mut TypeNames,
    line: u32,
    tokens: &'a [Token],
) -> Result<(Specifier, &'a [Token]), Refused>
    requires { frame.levels ≤ 400 }
    ensures exact { Gives (λ x. (view_part x.0, x.1.now)) result (enumeration_at frame.entry.bytes.now names.old frame.entry.levels line tokens.now) }
    ensures names { IfOk result (λ x. names.new ≡ with_part names.old (view_part x.0)) }
    ensures shorter { IfOk result (λ x. length x.1.now ≤ length tokens.now) }
{
    let (tag, rest) = tag_at(frame.bytes, tokens);
    let Some((_, behind)) = mark_at(rest, Mark::LeftBrace) else {
        return tagged(frame.alloc, TagKind::Enum, line, tag, rest);
    };
    let (enumerators, rest) = enumerators(frame, names, behind)?;
    let tag = tag_from(frame.alloc, tag)?;
    Ok((
        Specifier::Enumeration {
            line,
            tag,
            enumerators,
        },
        rest,
    ))
}

/// A structure or a union behind its keyword (C11 6.7.2.1). The braces take a level.
#[cycle(specifiers)]
#[tactic(auto, unfolding(crate::specs::inner::Reading::record_at))]
fn record<'a>(
    frame: Frame<'_>,
    names: &mut TypeNames,
    line: u32,
    kind: RecordKind,
    tokens: &'a [Token],
) -> Result<(Specifier, &'a [Token]), Refused>
    requires { frame.levels ≤ 400 }
    ensures exact { Gives (λ x. (view_part x.0, x.1.now)) result (record_at frame.entry.bytes.now (bodies_in frame.entry) names.old line kind tokens.now) }
    ensures names { IfOk result (λ x. names.new ≡ with_part names.old (view_part x.0)) }
    ensures shorter { IfOk result (λ x. length x.1.now ≤ length tokens.now) }
{
    let (tag, rest) = tag_at(frame.bytes, tokens);
    let Some((_, behind)) = mark_at(rest, Mark::LeftBrace) else {
        return tagged(frame.alloc, record_tag(kind), line, tag, rest);
    };
    let (members, rest) = body(frame, names, behind)?;
    let tag = tag_from(frame.alloc, tag)?;
    Ok((
        Specifier::Record {
            line,
            kind,
            tag,
            members,
        },
        rest,
    ))
}

/// The specifier that a token begins so, and the tokens behind it.
#[cycle(specifiers)]
#[tactic(auto, unfolding(crate::specs::inner::Reading::part_from))]
fn specifier<'a>(
    frame: Frame<'_>,
    names: &mut TypeNames,
    start: Start,
    token: Token,
    tokens: &'a [Token],
) -> Result<(Specifier, &'a [Token]), Refused>
    requires { frame.levels ≤ 400 }
    ensures exact { Gives (λ x. (view_part x.0, x.1.now)) result (part_from frame.entry.bytes.now frame.entry.levels (bodies_in frame.entry) names.old start token tokens.now) }
    ensures names { IfOk result (λ x. names.new ≡ with_part names.old (view_part x.0)) }
    ensures shorter { IfOk result (λ x. length x.1.now ≤ length tokens.now) }
{
    let line = token.line;
    match start {
        Start::Qualifier(qualifier) => Ok((
            Specifier::Type(TypeSpecifier::Qualifier { line, qualifier }),
            tokens,
        )),
        Start::Word(word) => Ok((Specifier::Type(TypeSpecifier::Word { line, word }), tokens)),
        Start::Storage(class) => Ok((Specifier::Storage { line, class }, tokens)),
        Start::Function(specifier) => Ok((Specifier::Function { line, specifier }, tokens)),
        Start::Record(kind) => record(frame, names, line, kind, tokens),
        Start::Enumeration => enumeration(frame, names, line, tokens),
        Start::Name => {
            let name = name_of(frame.alloc, frame.bytes, token)?;
            Ok((Specifier::Type(TypeSpecifier::Named { line, name }), tokens))
        }
    }
}

/// The specifiers at the front (C11 6.7), of members or of others, and the tokens behind them. Enumerators in them are
/// declared.
#[cycle(specifiers)]
pub fn specifiers<'a>(
    frame: Frame<'_>,
    names: &mut TypeNames,
    inner: bool,
    tokens: &'a [Token],
) -> Result<Specified<'a>, Refused>
    requires { frame.levels ≤ 400 }
    ensures exact { Gives (λ x. (parts_of x.items.items, x.rest.now)) result (parts_at inner frame.entry.bytes.now frame.entry.levels (bodies_in frame.entry) names.old tokens.now) }
    ensures names { IfOk result (λ x. names.new ≡ with_parts names.old (parts_of x.items.items)) }
    ensures types { IfOk result (λ x. x.types ≡ have_typedef (parts_of x.items.items)) }
    ensures shorter { IfOk result (λ x. length x.rest.now ≤ length tokens.now) }
{
    let mut items = Vec::new(frame.alloc);
    let mut before = false;
    let mut types = false;
    let mut rest = tokens;
    'specifiers: loop {
        let Some((start, token, behind)) = start_at(inner, frame.bytes, names, before, rest) else {
            return Ok(Specified { items, types, rest });
        };
        let (next, behind) = specifier(frame, names, start, token, behind)?;
        before = either(before, specifies(&next));
        types = either(types, is_typedef(&next));
        items.push(next)?;
        rest = behind;
    }
}

/// A bound behind its bracket, which stands on a line.
#[tactic(auto, unfolding(crate::specs::inner::Reading::bound_at))]
fn bound<'a>(
    frame: Frame<'_>,
    names: &TypeNames,
    line: u32,
    tokens: &'a [Token],
) -> Result<(DeclaratorSuffix, &'a [Token]), Refused>
    requires { frame.levels ≤ 400 }
    ensures exact { Gives (λ x. (suffix_of x.0, x.1.now)) result (bound_at frame.entry.bytes.now names.now frame.entry.levels line tokens.now) }
    ensures shorter { IfOk result (λ x. length x.1.now ≤ length tokens.now) }
{
    if let Some((_, rest)) = mark_at(tokens, Mark::RightBracket) {
        return Ok((DeclaratorSuffix::Open { line }, rest));
    }
    let found = read(frame, names, tokens, 3)?;
    let Some((_, rest)) = mark_at(found.rest, Mark::RightBracket) else {
        return Err(Refused::Syntax);
    };
    Ok((
        DeclaratorSuffix::Bounded {
            line,
            bound: found.tree,
        },
        rest,
    ))
}

/// A parameter at the front: specifiers, one at least, and a declarator. Its name and the enumerators in its specifiers are
/// declared.
#[cycle(specifiers)]
#[tactic(auto, unfolding(crate::specs::inner::Reading::parameter_at))]
fn parameter<'a>(
    frame: Frame<'_>,
    names: &mut TypeNames,
    tokens: &'a [Token],
) -> Result<(Parameter, &'a [Token]), Refused>
    requires { frame.levels < 400 }
    ensures exact { Gives (λ x. (parameter_of x.0, x.1.now)) result (parameter_at frame.entry.bytes.now frame.entry.levels (bodies_in frame.entry) (fulls_in frame.entry) names.old tokens.now) }
    ensures names { IfOk result (λ x. names.new ≡ with_named (with_parts names.old (parts_of x.0.specifiers.items)) (have_typedef (parts_of x.0.specifiers.items)) (view_full x.0.declarator)) }
    ensures shorter { IfOk result (λ x. length x.1.now < length tokens.now) }
{
    let found = specifiers(frame, names, false, tokens)?;
    if !are_some(&found.items) {
        return Err(Refused::Syntax);
    }
    let (declarator, rest) = full(frame, names, true, found.rest)?;
    declare_named(frame.alloc, names, found.types, &declarator)?;
    Ok((
        Parameter {
            specifiers: found.items,
            declarator,
        },
        rest,
    ))
}

/// A parameter at the front, or behind a comma where it isn't the first.
#[cycle(specifiers)]
fn next_parameter<'a>(
    frame: Frame<'_>,
    names: &mut TypeNames,
    first: bool,
    tokens: &'a [Token],
) -> Result<(Parameter, &'a [Token]), Refused>
    requires { frame.levels < 400 }
    ensures exact { Gives (λ x. (parameter_of x.0, x.1.now)) result (next_at first (parameter_at frame.entry.bytes.now frame.entry.levels (bodies_in frame.entry) (fulls_in frame.entry) names.old) tokens.now) }
    ensures names { IfOk result (λ x. names.new ≡ with_named (with_parts names.old (parts_of x.0.specifiers.items)) (have_typedef (parts_of x.0.specifiers.items)) (view_full x.0.declarator)) }
    ensures shorter { IfOk result (λ x. length x.1.now < length tokens.now) }
{
    let Some(rest) = comma_at(tokens, first) else {
        return Err(Refused::Syntax);
    };
    parameter(frame, names, rest)
}

/// Parameters, one at least, whether `...` stands behind them, and the tokens behind the parenthesis that closes them.
#[derive(Drop)]
struct FoundParameters<'a> {
    items: Vec<Parameter>,
    variadic: bool,
    rest: &'a [Token],
}

/// Parameters behind their parenthesis. Their names are declared.
#[cycle(specifiers)]
fn parameters<'a>(
    frame: Frame<'_>,
    names: &mut TypeNames,
    tokens: &'a [Token],
) -> Result<FoundParameters<'a>, Refused>
    requires { frame.levels < 400 }
    ensures exact { Gives (λ x. ((parameters_of x.items.items, x.variadic), x.rest.now)) result (parameters_at frame.entry.bytes.now frame.entry.levels (bodies_in frame.entry) (fulls_in frame.entry) names.old tokens.now) }
    ensures names { IfOk result (λ x. (front : Scope) × (names.new ≡ front ++ names.old)) }
    ensures shorter { IfOk result (λ x. length x.rest.now ≤ length tokens.now) }
{
    let mut items = Vec::new(frame.alloc);
    let mut first = true;
    let mut rest = tokens;
    'parameters: loop {
        if let Some((variadic, behind)) = last_at(rest, first) {
            return Ok(FoundParameters {
                items,
                variadic,
                rest: behind,
            });
        }
        let (next, behind) = next_parameter(frame, names, first, rest)?;
        items.push(next)?;
        first = false;
        rest = behind;
    }
}

/// Parameters behind their parenthesis, which stands on a line, or `void`. Names of parameters are gone behind them.
#[cycle(specifiers)]
#[tactic(auto, unfolding(crate::specs::inner::Reading::given_at))]
fn given<'a>(
    frame: Frame<'_>,
    names: &mut TypeNames,
    line: u32,
    tokens: &'a [Token],
) -> Result<(DeclaratorSuffix, &'a [Token]), Refused>
    requires { frame.levels < 400 }
    ensures exact { Gives (λ x. (suffix_of x.0, x.1.now)) result (given_at frame.entry.bytes.now frame.entry.levels (bodies_in frame.entry) (fulls_in frame.entry) names.old line tokens.now) }
    ensures names { IfOk result (λ _. names.new ≡ names.old) }
    ensures shorter { IfOk result (λ x. length x.1.now ≤ length tokens.now) }
{
    if let Some(rest) = void_at(tokens) {
        return Ok((DeclaratorSuffix::Void { line }, rest));
    }
    let mark = names.mark();
    let found = parameters(frame, names, tokens)?;
    names.leave(mark);
    Ok((
        DeclaratorSuffix::Parameters {
            line,
            parameters: found.items,
            variadic: found.variadic,
        },
        found.rest,
    ))
}

/// A function's suffix behind its parenthesis, which stands on a line.
#[cycle(specifiers)]
#[tactic(auto, unfolding(crate::specs::inner::Reading::taken_at))]
fn taken<'a>(
    frame: Frame<'_>,
    names: &mut TypeNames,
    line: u32,
    tokens: &'a [Token],
) -> Result<(DeclaratorSuffix, &'a [Token]), Refused>
    requires { frame.levels < 400 }
    ensures exact { Gives (λ x. (suffix_of x.0, x.1.now)) result (taken_at frame.entry.bytes.now frame.entry.levels (bodies_in frame.entry) (fulls_in frame.entry) names.old line tokens.now) }
    ensures names { IfOk result (λ _. names.new ≡ names.old) }
    ensures shorter { IfOk result (λ x. length x.1.now ≤ length tokens.now) }
{
    match mark_at(tokens, Mark::RightParenthesis) {
        Some((_, rest)) => Ok((DeclaratorSuffix::Empty { line }, rest)),
        None => given(frame, names, line, tokens),
    }
}

/// The suffix that a token begins so, and the tokens behind it.
#[cycle(specifiers)]
#[tactic(auto, unfolding(crate::specs::inner::Reading::one_from))]
fn suffix<'a>(
    frame: Frame<'_>,
    names: &mut TypeNames,
    opening: Opening,
    token: Token,
    tokens: &'a [Token],
) -> Result<(DeclaratorSuffix, &'a [Token]), Refused>
    requires { frame.levels < 400 }
    ensures exact { Gives (λ x. (suffix_of x.0, x.1.now)) result (one_from frame.entry.bytes.now frame.entry.levels (bodies_in frame.entry) (fulls_in frame.entry) names.old opening token tokens.now) }
    ensures names { IfOk result (λ _. names.new ≡ names.old) }
    ensures shorter { IfOk result (λ x. length x.1.now ≤ length tokens.now) }
{
    match opening {
        Opening::Bracket => bound(frame, names, token.line, tokens),
        Opening::Parenthesis => taken(frame, names, token.line, tokens),
    }
}

/// The suffixes at the front (C11 6.7.6), and the tokens behind them.
#[cycle(specifiers)]
fn suffixes<'a>(
    frame: Frame<'_>,
    names: &mut TypeNames,
    tokens: &'a [Token],
) -> Result<(Vec<DeclaratorSuffix>, &'a [Token]), Refused>
    requires { frame.levels < 400 }
    ensures exact { Gives (λ x. (full_suffixes_of x.0.items, x.1.now)) result (suffixes_at frame.entry.bytes.now frame.entry.levels (bodies_in frame.entry) (fulls_in frame.entry) names.old tokens.now) }
    ensures names { IfOk result (λ _. names.new ≡ names.old) }
    ensures shorter { IfOk result (λ x. length x.1.now ≤ length tokens.now) }
{
    let mut items = Vec::new(frame.alloc);
    let mut rest = tokens;
    'suffixes: loop {
        let Some((opening, token, behind)) = opening_at(rest) else {
            return Ok((items, rest));
        };
        let (next, behind) = suffix(frame, names, opening, token, behind)?;
        items.push(next)?;
        rest = behind;
    }
}

/// A declarator in parentheses behind its parenthesis, which stands on a line, and its suffixes.
#[cycle(specifiers)]
#[tactic(auto, unfolding(crate::specs::inner::Reading::inside_at))]
fn inside<'a>(
    frame: Frame<'_>,
    names: &mut TypeNames,
    inner: bool,
    line: u32,
    tokens: &'a [Token],
) -> Result<(FullDeclarator, &'a [Token]), Refused>
    requires { frame.levels < 400 }
    ensures exact { Gives (λ x. (view_full x.0, x.1.now)) result (inside_at frame.entry.bytes.now frame.entry.levels (bodies_in frame.entry) (fulls_in frame.entry) inner names.old line tokens.now) }
    ensures names { IfOk result (λ _. names.new ≡ names.old) }
    ensures shorter { IfOk result (λ x. length x.1.now < length tokens.now) }
{
    let (declarator, rest) = full(frame, names, inner, tokens)?;
    let Some((_, rest)) = mark_at(rest, Mark::RightParenthesis) else {
        return Err(Refused::Syntax);
    };
    let (suffixes, rest) = suffixes(frame, names, rest)?;
    let inner = Box::new(frame.alloc, declarator)?;
    Ok((
        FullDeclarator::Inside {
            pointers: Vec::new(frame.alloc),
            line,
            inner,
            suffixes,
        },
        rest,
    ))
}

/// The empty declarator.
fn nothing(alloc: Global) -> FullDeclarator
    ensures { view_full result ≡ full_unnamed full_end }
{
    FullDeclarator::Unnamed {
        pointers: Vec::new(alloc),
        suffixes: Vec::new(alloc),
    }
}

/// A declarator without levels, which is the empty one.
fn bare_full(
    alloc: Global,
    declarator_start: DeclaratorStart,
    tokens: &[Token],
) -> Result<(FullDeclarator, &[Token]), Refused>
    ensures exact { Gives (λ x. (view_full x.0, x.1.now)) result (bare_full declarator_start tokens.now) }
    ensures shorter { IfOk result (λ x. length x.1.now ≤ length tokens.now) }
{
    match declarator_start {
        DeclaratorStart::Nothing => Ok((nothing(alloc), tokens)),
        DeclaratorStart::Suffixes => Err(Refused::Syntax),
        DeclaratorStart::Name => Err(Refused::Syntax),
        DeclaratorStart::Inside => Err(Refused::Syntax),
    }
}

/// A declarator that begins so, of a parameter or of another thing.
#[cycle(specifiers)]
#[tactic(auto, unfolding(crate::specs::inner::Reading::full_from))]
fn full_behind<'a>(
    frame: Frame<'_>,
    names: &mut TypeNames,
    inner: bool,
    declarator_start: DeclaratorStart,
    tokens: &'a [Token],
) -> Result<(FullDeclarator, &'a [Token]), Refused>
    requires { frame.levels < 400 }
    ensures exact { Gives (λ x. (view_full x.0, x.1.now)) result (full_from frame.entry.bytes.now frame.entry.levels (bodies_in frame.entry) (fulls_in frame.entry) inner names.old declarator_start tokens.now) }
    ensures names { IfOk result (λ _. names.new ≡ names.old) }
    ensures shorter { IfOk result (λ x. length x.1.now ≤ length tokens.now) }
{
    match declarator_start {
        DeclaratorStart::Nothing => Ok((nothing(frame.alloc), tokens)),
        DeclaratorStart::Suffixes => {
            let (suffixes, rest) = suffixes(frame, names, tokens)?;
            let pointers = Vec::new(frame.alloc);
            Ok((FullDeclarator::Unnamed { pointers, suffixes }, rest))
        }
        DeclaratorStart::Name => {
            let Some((token, rest)) = split(tokens) else {
                return Err(Refused::Syntax);
            };
            let name = name_of(frame.alloc, frame.bytes, token)?;
            let line = token.line;
            let (suffixes, rest) = suffixes(frame, names, rest)?;
            Ok((
                FullDeclarator::Named {
                    pointers: Vec::new(frame.alloc),
                    line,
                    name,
                    suffixes,
                },
                rest,
            ))
        }
        DeclaratorStart::Inside => {
            let Some((token, rest)) = split(tokens) else {
                return Err(Refused::Syntax);
            };
            inside(frame, names, inner, token.line, rest)
        }
    }
}

/// The declarator with at most so many levels at the front, and the tokens behind it. That of a parameter may be abstract.
#[cycle(specifiers)]
#[tactic(auto, unfolding(crate::specs::inner::Reading::full_at))]
pub fn full<'a>(
    frame: Frame<'_>,
    names: &mut TypeNames,
    inner: bool,
    tokens: &'a [Token],
) -> Result<(FullDeclarator, &'a [Token]), Refused>
    requires { frame.levels ≤ 400 }
    ensures exact { Gives (λ x. (view_full x.0, x.1.now)) result (fulls_in frame.entry inner names.old tokens.now) }
    ensures names { IfOk result (λ _. names.new ≡ names.old) }
    ensures shorter { IfOk result (λ x. length x.1.now ≤ length tokens.now) }
{
    let Some(declarator_start) = declarator_start_at(inner, frame.bytes, names, tokens) else {
        return Err(Refused::Syntax);
    };
    if frame.levels == 0 {
        return bare_full(frame.alloc, declarator_start, tokens);
    }
    let below = Frame {
        levels: frame.levels - 1,
        ..frame
    };
    full_behind(below, names, inner, declarator_start, tokens)
}

/// A declarator of members at the front, or behind a comma where it isn't the first.
#[cycle(specifiers)]
fn next_declarator<'a>(
    frame: Frame<'_>,
    names: &mut TypeNames,
    first: bool,
    tokens: &'a [Token],
) -> Result<(FullDeclarator, &'a [Token]), Refused>
    requires { frame.levels < 400 }
    ensures exact { Gives (λ x. (view_full x.0, x.1.now)) result (next_at first (fulls_in frame.entry false names.old) tokens.now) }
    ensures names { IfOk result (λ _. names.new ≡ names.old) }
    ensures shorter { IfOk result (λ x. length x.1.now < length tokens.now) }
{
    let Some(rest) = comma_at(tokens, first) else {
        return Err(Refused::Syntax);
    };
    let (declarator, rest) = full(frame, names, false, rest)?;
    Ok((declarator, rest))
}

/// The declarators of members, and the tokens behind their `;`.
#[cycle(specifiers)]
fn declarators<'a>(
    frame: Frame<'_>,
    names: &mut TypeNames,
    tokens: &'a [Token],
) -> Result<(Vec<FullDeclarator>, &'a [Token]), Refused>
    requires { frame.levels < 400 }
    ensures exact { Gives (λ x. (fulls_of x.0.items, x.1.now)) result (fulls_at (fulls_in frame.entry false) names.old tokens.now) }
    ensures names { IfOk result (λ _. names.new ≡ names.old) }
    ensures shorter { IfOk result (λ x. length x.1.now < length tokens.now) }
{
    let mut declarators = Vec::new(frame.alloc);
    let mut first = true;
    let mut rest = tokens;
    'declarators: loop {
        if let Some((_, behind)) = mark_at(rest, Mark::Semicolon) {
            return Ok((declarators, behind));
        }
        let (next, behind) = next_declarator(frame, names, first, rest)?;
        declarators.push(next)?;
        first = false;
        rest = behind;
    }
}

/// The declaration of members at the front.
#[cycle(specifiers)]
#[tactic(auto, unfolding(crate::specs::inner::Reading::member_at))]
fn member<'a>(
    frame: Frame<'_>,
    names: &mut TypeNames,
    tokens: &'a [Token],
) -> Result<(MemberDeclaration, &'a [Token]), Refused>
    requires { frame.levels < 400 }
    ensures exact { Gives (λ x. ((parts_of x.0.specifiers.items, fulls_of x.0.declarators.items), x.1.now)) result (member_at frame.entry.bytes.now frame.entry.levels (bodies_in frame.entry) (fulls_in frame.entry) names.old tokens.now) }
    ensures names { IfOk result (λ x. names.new ≡ with_parts names.old (parts_of x.0.specifiers.items)) }
    ensures shorter { IfOk result (λ x. length x.1.now < length tokens.now) }
{
    let found = specifiers(frame, names, true, tokens)?;
    if !are_some(&found.items) {
        return Err(Refused::Syntax);
    }
    let (declarators, rest) = declarators(frame, names, found.rest)?;
    Ok((
        MemberDeclaration {
            specifiers: found.items,
            declarators,
        },
        rest,
    ))
}

/// Declarations of members, and the tokens behind the brace that closes them.
#[cycle(specifiers)]
fn members<'a>(
    frame: Frame<'_>,
    names: &mut TypeNames,
    tokens: &'a [Token],
) -> Result<(Vec<MemberDeclaration>, &'a [Token]), Refused>
    requires { frame.levels < 400 }
    ensures exact { Gives (λ x. (members_of x.0.items, x.1.now)) result (members_at frame.entry.bytes.now frame.entry.levels (bodies_in frame.entry) (fulls_in frame.entry) names.old tokens.now) }
    ensures names { IfOk result (λ x. names.new ≡ with_members names.old (members_of x.0.items)) }
    ensures shorter { IfOk result (λ x. length x.1.now ≤ length tokens.now) }
{
    let mut members = Vec::new(frame.alloc);
    let mut rest = tokens;
    'members: loop {
        if let Some((_, behind)) = mark_at(rest, Mark::RightBrace) {
            return Ok((members, behind));
        }
        let (next, behind) = member(frame, names, rest)?;
        members.push(next)?;
        rest = behind;
    }
}

/// The members of a structure behind its brace, one declaration at least.
#[cycle(specifiers)]
#[tactic(auto, unfolding(crate::specs::inner::Reading::body_at, crate::specs::inner::Reading::some_members_at))]
fn body<'a>(
    frame: Frame<'_>,
    names: &mut TypeNames,
    tokens: &'a [Token],
) -> Result<(Vec<MemberDeclaration>, &'a [Token]), Refused>
    requires { frame.levels ≤ 400 }
    ensures exact { Gives (λ x. (members_of x.0.items, x.1.now)) result (bodies_in frame.entry names.old tokens.now) }
    ensures names { IfOk result (λ x. names.new ≡ with_members names.old (members_of x.0.items)) }
    ensures shorter { IfOk result (λ x. length x.1.now ≤ length tokens.now) }
{
    if frame.levels == 0 {
        return Err(Refused::Syntax);
    }
    let below = Frame {
        levels: frame.levels - 1,
        ..frame
    };
    let (members, rest) = members(below, names, tokens)?;
    if !have_some(&members) {
        return Err(Refused::Syntax);
    }
    Ok((members, rest))
}

/// Whether there is a declaration of members.
fn have_some(members: &[MemberDeclaration]) -> bool
    ensures { result ≡ have_some (members_of members.now) }
{
    !members.is_empty()
}
