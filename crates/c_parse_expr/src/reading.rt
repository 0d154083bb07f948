//! Reading a tree from left to right.

ghost use Rattle.std.specs.Prelude.{◌≡◌, ◌<◌, ◌≤◌, ◌+◌, [], ◌∷◌, Some, length, IfOk};
ghost use Rattle.c_tree.specs.Tree.{view, views_of, view_declarator, suffixes_of, unnamed, no_suffix, depth, depth_of, declared_depth, suffixes_depth};
ghost use Rattle.c_parse_expr.specs.declared.table.Suffix.TheVariants.{Choice};
ghost use Rattle.c_parse_expr.specs.Reading.{Gives};
ghost use Rattle.c_parse_expr.specs.inner.Findings.{IsFound, tree_found, arguments_found, declarator_found, type_found, suffix_found, suffixes_found, trees_in, declarators_in};
ghost use Rattle.c_parse_expr.specs.inner.Reading.{declared_from, bare, inside_at, suffixes_at, unnamed_at, bound_at, type_name_at, grouped, sizeof_at, prefix_at, prefixed, suffixed, arguments_at};

use crate::declarator_start::DeclaratorStart;
use crate::fault::Refused;
use crate::frames::Frame;
use crate::names::TypeNames;
use crate::nodes::{
    Found, FoundDeclarator, FoundSuffix, FoundSuffixes, FoundType, Items, assign_node, binary_node,
    bounded_suffix, call_node, cast_node, character_node, choice_node, comma_node, constant_node,
    larger, level_found, member_node, name_node, nested, parens_node, put_argument,
    sizeof_expr_node, sizeof_type_node, step_node, strings_node, type_named, unary_node,
};
use crate::slices::{behind_mark, bracket, name_of, next_suffix, split, token_text};
use crate::table::{Lead, Suffix, lead_of, operand_level, strength_of};
use crate::words::{begins_type, declarator_start_at, type_behind, type_specifiers};
use c_token::{Mark, Token};
use c_tree::{ArraySuffix, Declarator, DeclaratorCore, Expr};
use std::alloc::Global;

/// What a token begins, with those behind it.
#[cycle(reading)]
#[tactic(auto, unfolding(crate::specs::inner::Reading::prefixed))]
fn prefix_behind<'a>(
    frame: Frame<'_>,
    names: &TypeNames,
    lead: Lead,
    token: Token,
    tokens: &'a [Token],
) -> Result<Found<'a>, Refused>
    requires { frame.levels < 400 }
    ensures exact { Gives tree_found result (prefixed frame.entry.bytes.now names.now (trees_in frame.entry names.now) (declarators_in frame.entry names.now) lead token tokens.now) }
    ensures found { IfOk result (λ x. IsFound x.height (depth (view x.tree.value)) (frame.entry.levels + 1) tokens.now x.rest.now) }
{
    let line = token.line;
    match lead {
        Lead::Name => {
            if names.is_type(token_text(frame.bytes, token)) {
                return Err(Refused::Syntax);
            }
            name_node(frame.alloc, frame.bytes, token, tokens)
        }
        Lead::Constant(constant) => constant_node(frame.alloc, line, constant, tokens),
        Lead::Character(value) => character_node(frame.alloc, line, value, tokens),
        Lead::Strings => strings_node(frame.alloc, frame.bytes, token, tokens),
        Lead::Group => group_behind(frame, names, line, tokens),
        Lead::Unary(operator) => {
            let found = read(frame, names, tokens, operand_level(operator))?;
            unary_node(frame.alloc, line, operator, found)
        }
        Lead::Sizeof => sizeof_behind(frame, names, line, tokens),
    }
}

/// Behind a parenthesis: a cast where a type name begins, else an expression in parentheses.
#[cycle(reading)]
#[tactic(auto, unfolding(crate::specs::inner::Reading::grouped))]
fn group_behind<'a>(
    frame: Frame<'_>,
    names: &TypeNames,
    line: u32,
    tokens: &'a [Token],
) -> Result<Found<'a>, Refused>
    requires { frame.levels < 400 }
    ensures exact { Gives tree_found result (grouped frame.entry.bytes.now names.now (trees_in frame.entry names.now) (declarators_in frame.entry names.now) line tokens.now) }
    ensures found { IfOk result (λ x. IsFound x.height (depth (view x.tree.value)) (frame.entry.levels + 1) tokens.now x.rest.now) }
{
    if begins_type(frame.bytes, names, tokens) {
        let found = type_name(frame, names, tokens)?;
        let value = read(frame, names, found.rest, 14)?;
        return cast_node(frame.alloc, line, found, value);
    }
    let found = read(frame, names, tokens, 1)?;
    parens_node(frame.alloc, line, found)
}

/// Behind `sizeof`: a type name in parentheses, or an operand.
#[cycle(reading)]
#[tactic(auto, unfolding(crate::specs::inner::Reading::sizeof_at))]
fn sizeof_behind<'a>(
    frame: Frame<'_>,
    names: &TypeNames,
    line: u32,
    tokens: &'a [Token],
) -> Result<Found<'a>, Refused>
    requires { frame.levels < 400 }
    ensures exact { Gives tree_found result (sizeof_at frame.entry.bytes.now names.now (trees_in frame.entry names.now) (declarators_in frame.entry names.now) line tokens.now) }
    ensures found { IfOk result (λ x. IsFound x.height (depth (view x.tree.value)) (frame.entry.levels + 1) tokens.now x.rest.now) }
{
    match type_behind(frame.bytes, names, tokens) {
        Some(rest) => {
            let found = type_name(frame, names, rest)?;
            sizeof_type_node(frame.alloc, line, found)
        }
        None => {
            let found = read(frame, names, tokens, 15)?;
            sizeof_expr_node(frame.alloc, line, found)
        }
    }
}

/// A type name, with the parenthesis behind it.
#[cycle(reading)]
#[tactic(auto, unfolding(crate::specs::inner::Reading::type_name_at))]
fn type_name<'a>(
    frame: Frame<'_>,
    names: &TypeNames,
    tokens: &'a [Token],
) -> Result<FoundType<'a>, Refused>
    requires { frame.levels < 400 }
    ensures exact { Gives type_found result (type_name_at frame.entry.bytes.now names.now (declarators_in frame.entry names.now) tokens.now) }
    ensures found { IfOk result (λ x. IsFound x.height (declared_depth (view_declarator x.type_name.value.declarator)) frame.entry.levels tokens.now x.rest.now) }
{
    let (specifiers, rest) = type_specifiers(frame.alloc, frame.bytes, names, tokens)?;
    let found = declarator(frame, names, rest, false)?;
    type_named(frame.alloc, specifiers, found)
}

/// A suffix behind its bracket, which stands on a line.
#[cycle(reading)]
#[tactic(auto, unfolding(crate::specs::inner::Reading::bound_at))]
fn array_suffix<'a>(
    frame: Frame<'_>,
    names: &TypeNames,
    line: u32,
    tokens: &'a [Token],
) -> Result<FoundSuffix<'a>, Refused>
    requires { frame.levels < 400 }
    ensures exact { Gives suffix_found result (bound_at (trees_in frame.entry names.now) line tokens.now) }
    ensures found { IfOk result (λ x. IsFound x.height (suffixes_depth (suffixes_of (x.suffix ∷ []))) frame.entry.levels tokens.now x.rest.now) }
    ensures shorter { IfOk result (λ x. length x.rest.now < length tokens.now) }
{
    if let Some(rest) = behind_mark(tokens, Mark::RightBracket) {
        return Ok(FoundSuffix {
            suffix: ArraySuffix::Open { line },
            height: 0,
            rest,
        });
    }
    let found = read(frame, names, tokens, 3)?;
    bounded_suffix(line, found)
}

/// The suffixes at the front.
#[cycle(reading)]
fn array_suffixes<'a>(
    frame: Frame<'_>,
    names: &TypeNames,
    tokens: &'a [Token],
) -> Result<FoundSuffixes<'a>, Refused>
    requires { frame.levels < 400 }
    ensures exact { Gives suffixes_found result (suffixes_at (trees_in frame.entry names.now) tokens.now) }
    ensures found { IfOk result (λ x. IsFound x.height (suffixes_depth (suffixes_of x.suffixes.items)) frame.entry.levels tokens.now x.rest.now) }
{
    let mut suffixes = Vec::new(frame.alloc);
    let mut height = 0;
    let mut rest = tokens;
    'suffixes: while let Some((line, behind)) = bracket(rest) {
        let found = array_suffix(frame, names, line, behind)?;
        suffixes.push(found.suffix)?;
        height = larger(height, found.height);
        rest = found.rest;
    }
    Ok(FoundSuffixes {
        suffixes,
        height,
        rest,
    })
}

/// The empty declarator.
fn nothing(alloc: Global, tokens: &[Token]) -> FoundDeclarator<'_>
    ensures tree { view_declarator result.declarator ≡ unnamed no_suffix }
    ensures height { result.height ≡ 0 }
    ensures rest { result.rest.now ≡ tokens.now }
{
    FoundDeclarator {
        declarator: Declarator {
            pointers: Vec::new(alloc),
            core: DeclaratorCore::Absent,
            suffixes: Vec::new(alloc),
        },
        height: 0,
        rest: tokens,
    }
}

/// A declarator without levels, which is the empty one.
fn bare<'a>(
    alloc: Global,
    declarator_start: DeclaratorStart,
    tokens: &'a [Token],
) -> Result<FoundDeclarator<'a>, Refused>
    ensures exact { Gives declarator_found result (bare (Some declarator_start) tokens.now) }
    ensures found { IfOk result (λ x. IsFound x.height (declared_depth (view_declarator x.declarator)) 0 tokens.now x.rest.now) }
{
    match declarator_start {
        DeclaratorStart::Nothing => Ok(nothing(alloc, tokens)),
        DeclaratorStart::Suffixes => Err(Refused::Syntax),
        DeclaratorStart::Name => Err(Refused::Syntax),
        DeclaratorStart::Inside => Err(Refused::Syntax),
    }
}

/// A declarator in parentheses behind its parenthesis, which stands on a line, and its suffixes.
#[cycle(reading)]
#[tactic(auto, unfolding(crate::specs::inner::Reading::inside_at))]
fn inside<'a>(
    frame: Frame<'_>,
    names: &TypeNames,
    named: bool,
    line: u32,
    tokens: &'a [Token],
) -> Result<FoundDeclarator<'a>, Refused>
    requires { frame.levels < 400 }
    ensures exact { Gives declarator_found result (inside_at (trees_in frame.entry names.now) (declarators_in frame.entry names.now) named line tokens.now) }
    ensures found { IfOk result (λ x. IsFound x.height (declared_depth (view_declarator x.declarator)) (frame.entry.levels + 1) tokens.now x.rest.now) }
{
    let found = declarator(frame, names, tokens, named)?;
    let Some(rest) = behind_mark(found.rest, Mark::RightParenthesis) else {
        return Err(Refused::Syntax);
    };
    if found.height == 0 {
        return Err(Refused::Syntax);
    }
    let behind = array_suffixes(frame, names, rest)?;
    nested(frame.alloc, line, found.declarator, found.height, behind)
}

/// The levels of an abstract declarator with these suffixes.
#[tactic(auto, using(crate::proofs::Made::unnamed_depth))]
fn unnamed_height(suffixes: &[ArraySuffix], height: u32) -> u32
    requires low { height < 400 }
    requires height { height ≡ suffixes_depth (suffixes_of suffixes.now) }
    ensures height { result ≡ declared_depth (unnamed (suffixes_of suffixes.now)) }
    ensures low { result ≤ height + 1 }
{
    if suffixes.is_empty() { 0 } else { height + 1 }
}

/// The suffixes of an abstract declarator, one at least.
#[cycle(reading)]
fn unnamed<'a>(
    frame: Frame<'_>,
    names: &TypeNames,
    tokens: &'a [Token],
) -> Result<FoundDeclarator<'a>, Refused>
    requires { frame.levels < 400 }
    ensures exact { Gives declarator_found result (unnamed_at (trees_in frame.entry names.now) tokens.now) }
    ensures found { IfOk result (λ x. IsFound x.height (declared_depth (view_declarator x.declarator)) (frame.entry.levels + 1) tokens.now x.rest.now) }
{
    let found = array_suffixes(frame, names, tokens)?;
    let height = unnamed_height(&found.suffixes, found.height);
    Ok(FoundDeclarator {
        declarator: Declarator {
            pointers: Vec::new(frame.alloc),
            core: DeclaratorCore::Absent,
            suffixes: found.suffixes,
        },
        height,
        rest: found.rest,
    })
}

/// A declarator that begins so.
#[cycle(reading)]
#[tactic(auto, unfolding(crate::specs::inner::Reading::declared_from))]
fn declarator_behind<'a>(
    frame: Frame<'_>,
    names: &TypeNames,
    named: bool,
    declarator_start: DeclaratorStart,
    tokens: &'a [Token],
) -> Result<FoundDeclarator<'a>, Refused>
    requires { frame.levels < 400 }
    ensures exact { Gives declarator_found result (declared_from frame.entry.bytes.now (trees_in frame.entry names.now) (declarators_in frame.entry names.now) named declarator_start tokens.now) }
    ensures found { IfOk result (λ x. IsFound x.height (declared_depth (view_declarator x.declarator)) (frame.entry.levels + 1) tokens.now x.rest.now) }
{
    match declarator_start {
        DeclaratorStart::Nothing => Ok(nothing(frame.alloc, tokens)),
        DeclaratorStart::Suffixes => unnamed(frame, names, tokens),
        DeclaratorStart::Name => {
            let Some((token, rest)) = split(tokens) else {
                return Err(Refused::Syntax);
            };
            let name = name_of(frame.alloc, frame.bytes, token)?;
            let found = array_suffixes(frame, names, rest)?;
            Ok(FoundDeclarator {
                declarator: Declarator {
                    pointers: Vec::new(frame.alloc),
                    core: DeclaratorCore::Named {
                        line: token.line,
                        name,
                    },
                    suffixes: found.suffixes,
                },
                height: found.height + 1,
                rest: found.rest,
            })
        }
        DeclaratorStart::Inside => {
            let Some((token, rest)) = split(tokens) else {
                return Err(Refused::Syntax);
            };
            inside(frame, names, named, token.line, rest)
        }
    }
}

/// The declarator with at most so many levels that stands at the front of the tokens: with a name, or an abstract one.
#[cycle(reading)]
#[tactic(auto, unfolding(crate::specs::inner::Reading::declared_at))]
pub fn declarator<'a>(
    frame: Frame<'_>,
    names: &TypeNames,
    tokens: &'a [Token],
    named: bool,
) -> Result<FoundDeclarator<'a>, Refused>
    requires { frame.levels ≤ 400 }
    ensures exact { Gives declarator_found result (declarators_in frame.entry names.now named tokens.now) }
    ensures found { IfOk result (λ x. IsFound x.height (declared_depth (view_declarator x.declarator)) frame.entry.levels tokens.now x.rest.now) }
{
    let Some(declarator_start) = declarator_start_at(named, tokens) else {
        return Err(Refused::Syntax);
    };
    if frame.levels == 0 {
        return bare(frame.alloc, declarator_start, tokens);
    }
    let below = Frame {
        levels: frame.levels - 1,
        ..frame
    };
    declarator_behind(below, names, named, declarator_start, tokens)
}

/// What the tokens begin.
#[cycle(reading)]
#[tactic(auto, unfolding(crate::specs::inner::Reading::prefix_at))]
fn operand<'a>(
    frame: Frame<'_>,
    names: &TypeNames,
    tokens: &'a [Token],
) -> Result<Found<'a>, Refused>
    requires { frame.levels < 400 }
    ensures exact { Gives tree_found result (prefix_at frame.entry.bytes.now names.now (trees_in frame.entry names.now) (declarators_in frame.entry names.now) tokens.now) }
    ensures found { IfOk result (λ x. IsFound x.height (depth (view x.tree.value)) (frame.entry.levels + 1) tokens.now x.rest.now) }
{
    let Some((token, rest)) = split(tokens) else {
        return Err(Refused::Syntax);
    };
    let Some(lead) = lead_of(token.kind) else {
        return Err(Refused::Syntax);
    };
    prefix_behind(frame, names, lead, token, rest)
}

/// The arguments of a call, behind its parenthesis, with the one that closes them.
#[cycle(reading)]
fn arguments<'a>(
    frame: Frame<'_>,
    names: &TypeNames,
    tokens: &'a [Token],
) -> Result<Items<'a>, Refused>
    requires { frame.levels < 400 }
    ensures exact { Gives arguments_found result (arguments_at (trees_in frame.entry names.now) tokens.now) }
    ensures found { IfOk result (λ x. IsFound x.height (depth_of (views_of x.items.items)) frame.entry.levels tokens.now x.rest.now) }
{
    let mut items = Vec::new(frame.alloc);
    if let Some(rest) = behind_mark(tokens, Mark::RightParenthesis) {
        return Ok(Items {
            items,
            height: 0,
            rest,
        });
    }
    let first = read(frame, names, tokens, 2)?;
    put_argument(&mut items, first.tree)?;
    let mut height = first.height;
    let mut rest = first.rest;
    'items: loop {
        if let Some(behind) = behind_mark(rest, Mark::RightParenthesis) {
            return Ok(Items {
                items,
                height,
                rest: behind,
            });
        }
        let Some(behind) = behind_mark(rest, Mark::Comma) else {
            return Err(Refused::Syntax);
        };
        let next = read(frame, names, behind, 2)?;
        put_argument(&mut items, next.tree)?;
        height = larger(height, next.height);
        rest = next.rest;
    }
}

/// A choice by a left operand, behind its `?`.
#[cycle(reading)]
#[tactic(auto, unfolding(crate::specs::inner::Reading::suffixed))]
fn choice_behind<'a>(
    frame: Frame<'_>,
    names: &TypeNames,
    line: u32,
    left: Box<Expr>,
    height: u32,
    tokens: &'a [Token],
) -> Result<Found<'a>, Refused>
    requires levels { frame.levels < 400 }
    requires height { height ≡ depth (view left.value) }
    requires low { height ≤ frame.levels }
    ensures exact { Gives tree_found result (suffixed frame.entry.bytes.now (trees_in frame.entry names.now) Choice line (view left.value) tokens.now) }
    ensures found { IfOk result (λ x. IsFound x.height (depth (view x.tree.value)) (frame.entry.levels + 1) tokens.now x.rest.now) }
    ensures higher { IfOk result (λ x. height < x.height) }
{
    let middle = read(frame, names, tokens, 1)?;
    let Some(rest) = behind_mark(middle.rest, Mark::Colon) else {
        return Err(Refused::Syntax);
    };
    let last = read(frame, names, rest, 3)?;
    choice_node(frame.alloc, line, left, height, middle, last)
}

/// A left operand with what a suffix makes of it.
#[cycle(reading)]
#[tactic(auto, unfolding(crate::specs::inner::Reading::suffixed))]
fn suffix_behind<'a>(
    frame: Frame<'_>,
    names: &TypeNames,
    suffix: Suffix,
    line: u32,
    left: Box<Expr>,
    height: u32,
    tokens: &'a [Token],
) -> Result<Found<'a>, Refused>
    requires levels { frame.levels < 400 }
    requires height { height ≡ depth (view left.value) }
    requires low { height ≤ frame.levels }
    ensures exact { Gives tree_found result (suffixed frame.entry.bytes.now (trees_in frame.entry names.now) suffix line (view left.value) tokens.now) }
    ensures found { IfOk result (λ x. IsFound x.height (depth (view x.tree.value)) (frame.entry.levels + 1) tokens.now x.rest.now) }
    ensures higher { IfOk result (λ x. height < x.height) }
{
    match suffix {
        Suffix::Operator(operator) => {
            let found = read(frame, names, tokens, strength_of(operator) + 1)?;
            binary_node(frame.alloc, line, operator, left, height, found)
        }
        Suffix::Becomes(operator) => {
            let found = read(frame, names, tokens, 2)?;
            assign_node(frame.alloc, line, operator, left, height, found)
        }
        Suffix::Choice => choice_behind(frame, names, line, left, height, tokens),
        Suffix::Then => {
            let found = read(frame, names, tokens, 2)?;
            comma_node(frame.alloc, line, left, height, found)
        }
        Suffix::Step(operator) => step_node(frame.alloc, line, operator, left, height, tokens),
        Suffix::Member => member_node(frame.alloc, frame.bytes, line, left, height, tokens),
        Suffix::Another => Err(Refused::Syntax),
        Suffix::Arguments => {
            let arguments = arguments(frame, names, tokens)?;
            call_node(frame.alloc, left, height, arguments)
        }
    }
}

/// The tree of a level or a higher one, with at most so many levels, that stands at the front of the tokens. The level is
/// a number: comma 1, assignment 2, `?:` 3, the binary operators 4 to 13, cast 14, unary 15.
#[cycle(reading)]
#[tactic(auto, unfolding(crate::specs::inner::Reading::reader))]
pub fn read<'a>(
    frame: Frame<'_>,
    names: &TypeNames,
    tokens: &'a [Token],
    level: u8,
) -> Result<Found<'a>, Refused>
    requires { frame.levels ≤ 400 }
    ensures exact { Gives tree_found result (trees_in frame.entry names.now level tokens.now) }
    ensures found { IfOk result (λ x. IsFound x.height (depth (view x.tree.value)) frame.entry.levels tokens.now x.rest.now) }
{
    if frame.levels == 0 {
        return Err(Refused::Syntax);
    }
    let below = Frame {
        levels: frame.levels - 1,
        ..frame
    };
    let mut found = operand(below, names, tokens)?;
    if level_found(&found) < level {
        return Err(Refused::Syntax);
    }
    'suffixes: while let Some((suffix, line, rest)) = next_suffix(
        found.rest,
        level,
        level_found(&found),
    ) {
        if found.height >= frame.levels {
            return Err(Refused::Syntax);
        }
        found = suffix_behind(below, names, suffix, line, found.tree, found.height, rest)?;
    }
    Ok(found)
}
