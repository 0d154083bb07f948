//! Making the nodes of a tree, once all is read that they hold.

ghost use Rattle.std.specs.Prelude.{◌≡◌, ◌<◌, ◌≤◌, ◌+◌, [], ◌∷◌, ◌++◌, length, map, max, OnOk, IfOk};
ghost use Rattle.c_token.specs.Spelling.{text_of};
ghost use Rattle.c_tree.specs.Tree.{view, views_of, view_type_part, view_declarator, suffixes_of, name, constant, character, unary, cast, sizeof_expr, sizeof_type, step, binary, choice, assign, comma, call, inside, depth, depth_of, declared_depth, suffixes_depth};
ghost use Rattle.c_tree.specs.Tables.{level_of};
ghost use Rattle.c_parse_expr.specs.inner.Nodes.{read_as, declared_as, read_strings, read_parens, read_member, read_bound, read_type};
ghost use Rattle.c_parse_expr.specs.Reading.{Gives};
ghost use Rattle.c_parse_expr.specs.inner.Findings.{tree_found, declarator_found, type_found, suffix_found};

use crate::fault::Refused;
use crate::slices::{behind_mark, identifier, level_of, name_of, text_name};
use crate::words::strings;
use c_token::{Constant, Mark, Token};
use c_tree::{
    ArraySuffix, BinaryOp, Declarator, DeclaratorCore, Expr, StepOp, TypeName, TypeSpecifier,
    UnaryOp,
};
use std::alloc::{AllocError, Global};

/// A tree with its number of levels, and the tokens behind it.
#[derive(Drop)]
pub struct Found<'a> {
    pub tree: Box<Expr>,
    pub height: u32,
    pub rest: &'a [Token],
}

/// Arguments, the most levels that one has, and the tokens behind them.
#[derive(Drop)]
pub struct Items<'a> {
    pub items: Vec<Expr>,
    pub height: u32,
    pub rest: &'a [Token],
}

/// A declarator with its number of levels, and the tokens behind it.
#[derive(Drop)]
pub struct FoundDeclarator<'a> {
    pub declarator: Declarator,
    pub height: u32,
    pub rest: &'a [Token],
}

/// A type name with the levels of its declarator, and the tokens behind the parenthesis that closes it.
#[derive(Drop)]
pub struct FoundType<'a> {
    pub type_name: Box<TypeName>,
    pub height: u32,
    pub rest: &'a [Token],
}

/// A suffix with the levels of its bound, and the tokens behind it.
#[derive(Drop)]
pub struct FoundSuffix<'a> {
    pub suffix: ArraySuffix,
    pub height: u32,
    pub rest: &'a [Token],
}

/// Suffixes, the most levels that one has, and the tokens behind them.
#[derive(Drop)]
pub struct FoundSuffixes<'a> {
    pub suffixes: Vec<ArraySuffix>,
    pub height: u32,
    pub rest: &'a [Token],
}

/// The larger of two numbers of levels.
pub fn larger(a: u32, b: u32) -> u32
    ensures { result ≡ max a b }
{
    if a < b { b } else { a }
}

/// The level of a tree that was found.
pub fn level_found(found: &Found<'_>) -> u8
    ensures { result ≡ level_of (view found.now.tree.value) }
{
    level_of(&found.tree)
}

/// A node in memory of its own.
fn made<'a>(alloc: Global, node: Expr, height: u32, rest: &'a [Token]) -> Result<Found<'a>, Refused>
    requires { height ≡ depth (view node) }
    ensures exact { Gives tree_found result (read_as (view node) rest.now) }
    ensures height { IfOk result (λ x. x.height ≡ depth (view x.tree.value)) }
    ensures tall { IfOk result (λ x. x.height ≡ height) }
    ensures rest { IfOk result (λ x. x.rest.now ≡ rest.now) }
{
    let tree = Box::new(alloc, node)?;
    Ok(Found { tree, height, rest })
}

/// A constant.
pub fn constant_node<'a>(
    alloc: Global,
    line: u32,
    value: Constant,
    rest: &'a [Token],
) -> Result<Found<'a>, Refused>
    ensures exact { Gives tree_found result (read_as (constant line value) rest.now) }
    ensures height { IfOk result (λ x. x.height ≡ depth (view x.tree.value)) }
    ensures tall { IfOk result (λ x. x.height ≡ 1) }
    ensures rest { IfOk result (λ x. x.rest.now ≡ rest.now) }
{
    made(
        alloc,
        Expr::Constant {
            line,
            constant: value,
        },
        1,
        rest,
    )
}

/// A character constant.
pub fn character_node<'a>(
    alloc: Global,
    line: u32,
    value: u32,
    rest: &'a [Token],
) -> Result<Found<'a>, Refused>
    ensures exact { Gives tree_found result (read_as (character line value) rest.now) }
    ensures height { IfOk result (λ x. x.height ≡ depth (view x.tree.value)) }
    ensures tall { IfOk result (λ x. x.height ≡ 1) }
    ensures rest { IfOk result (λ x. x.rest.now ≡ rest.now) }
{
    made(alloc, Expr::Character { line, value }, 1, rest)
}

/// The name that a token spells.
pub fn name_node<'a>(
    alloc: Global,
    bytes: &[u8],
    token: Token,
    rest: &'a [Token],
) -> Result<Found<'a>, Refused>
    ensures exact { Gives tree_found result (read_as (name token.line (text_of bytes.now token)) rest.now) }
    ensures height { IfOk result (λ x. x.height ≡ depth (view x.tree.value)) }
    ensures tall { IfOk result (λ x. x.height ≡ 1) }
    ensures rest { IfOk result (λ x. x.rest.now ≡ rest.now) }
{
    let own = name_of(alloc, bytes, token)?;
    made(
        alloc,
        Expr::Name {
            line: token.line,
            name: own,
        },
        1,
        rest,
    )
}

/// The string literal that a token spells, with those behind it.
pub fn strings_node<'a>(
    alloc: Global,
    bytes: &[u8],
    token: Token,
    tokens: &'a [Token],
) -> Result<Found<'a>, Refused>
    ensures exact { Gives tree_found result (read_strings bytes.now token tokens.now) }
    ensures height { IfOk result (λ x. x.height ≡ depth (view x.tree.value)) }
    ensures tall { IfOk result (λ x. x.height ≡ 1) }
    ensures shorter { IfOk result (λ x. length x.rest.now ≤ length tokens.now) }
{
    let (parts, rest) = strings(alloc, bytes, token, tokens)?;
    made(
        alloc,
        Expr::Strings {
            line: token.line,
            parts,
        },
        1,
        rest,
    )
}

/// An operator before its operand.
pub fn unary_node<'a>(
    alloc: Global,
    line: u32,
    operator: UnaryOp,
    operand: Found<'a>,
) -> Result<Found<'a>, Refused>
    requires height { operand.height ≡ depth (view operand.tree.value) }
    requires low { operand.height ≤ 400 }
    ensures exact { Gives tree_found result (read_as (unary line operator (view operand.entry.tree.value)) operand.entry.rest.now) }
    ensures height { IfOk result (λ x. x.height ≡ depth (view x.tree.value)) }
    ensures tall { IfOk result (λ x. x.height ≡ operand.entry.height + 1) }
    ensures rest { IfOk result (λ x. x.rest.now ≡ operand.entry.rest.now) }
{
    made(
        alloc,
        Expr::Unary {
            line,
            operator,
            operand: operand.tree,
        },
        operand.height + 1,
        operand.rest,
    )
}

/// A cast.
pub fn cast_node<'a>(
    alloc: Global,
    line: u32,
    target: FoundType<'a>,
    operand: Found<'a>,
) -> Result<Found<'a>, Refused>
    requires type_height { target.height ≡ declared_depth (view_declarator target.type_name.value.declarator) }
    requires type_low { target.height ≤ 400 }
    requires height { operand.height ≡ depth (view operand.tree.value) }
    requires low { operand.height ≤ 400 }
    ensures exact { Gives tree_found result (read_as (cast line (map view_type_part target.entry.type_name.value.specifiers.items) (view_declarator target.entry.type_name.value.declarator) (view operand.entry.tree.value)) operand.entry.rest.now) }
    ensures height { IfOk result (λ x. x.height ≡ depth (view x.tree.value)) }
    ensures tall { IfOk result (λ x. x.height ≡ max target.entry.height operand.entry.height + 1) }
    ensures rest { IfOk result (λ x. x.rest.now ≡ operand.entry.rest.now) }
{
    let height = larger(target.height, operand.height) + 1;
    made(
        alloc,
        Expr::Cast {
            line,
            type_name: target.type_name,
            operand: operand.tree,
        },
        height,
        operand.rest,
    )
}

/// An expression in parentheses, where the one that closes them stands behind it.
pub fn parens_node<'a>(alloc: Global, line: u32, inner: Found<'a>) -> Result<Found<'a>, Refused>
    requires height { inner.height ≡ depth (view inner.tree.value) }
    requires low { inner.height ≤ 400 }
    ensures exact { Gives tree_found result (read_parens line (view inner.entry.tree.value) inner.entry.rest.now) }
    ensures height { IfOk result (λ x. x.height ≡ depth (view x.tree.value)) }
    ensures tall { IfOk result (λ x. x.height ≡ inner.entry.height + 1) }
    ensures shorter { IfOk result (λ x. length x.rest.now ≤ length inner.entry.rest.now) }
{
    let Some(rest) = behind_mark(inner.rest, Mark::RightParenthesis) else {
        return Err(Refused::Syntax);
    };
    made(
        alloc,
        Expr::Parens {
            line,
            inner: inner.tree,
        },
        inner.height + 1,
        rest,
    )
}

/// The size of a type.
pub fn sizeof_type_node<'a>(
    alloc: Global,
    line: u32,
    target: FoundType<'a>,
) -> Result<Found<'a>, Refused>
    requires height { target.height ≡ declared_depth (view_declarator target.type_name.value.declarator) }
    requires low { target.height ≤ 400 }
    ensures exact { Gives tree_found result (read_as (sizeof_type line (map view_type_part target.entry.type_name.value.specifiers.items) (view_declarator target.entry.type_name.value.declarator)) target.entry.rest.now) }
    ensures height { IfOk result (λ x. x.height ≡ depth (view x.tree.value)) }
    ensures tall { IfOk result (λ x. x.height ≡ target.entry.height + 1) }
    ensures rest { IfOk result (λ x. x.rest.now ≡ target.entry.rest.now) }
{
    made(
        alloc,
        Expr::SizeofType {
            line,
            type_name: target.type_name,
        },
        target.height + 1,
        target.rest,
    )
}

/// The size of an expression.
pub fn sizeof_expr_node<'a>(
    alloc: Global,
    line: u32,
    operand: Found<'a>,
) -> Result<Found<'a>, Refused>
    requires height { operand.height ≡ depth (view operand.tree.value) }
    requires low { operand.height ≤ 400 }
    ensures exact { Gives tree_found result (read_as (sizeof_expr line (view operand.entry.tree.value)) operand.entry.rest.now) }
    ensures height { IfOk result (λ x. x.height ≡ depth (view x.tree.value)) }
    ensures tall { IfOk result (λ x. x.height ≡ operand.entry.height + 1) }
    ensures rest { IfOk result (λ x. x.rest.now ≡ operand.entry.rest.now) }
{
    made(
        alloc,
        Expr::SizeofExpr {
            line,
            operand: operand.tree,
        },
        operand.height + 1,
        operand.rest,
    )
}

/// A binary operator between its operands.
pub fn binary_node<'a>(
    alloc: Global,
    line: u32,
    operator: BinaryOp,
    left: Box<Expr>,
    height: u32,
    right: Found<'a>,
) -> Result<Found<'a>, Refused>
    requires left { height ≡ depth (view left.value) }
    requires left_low { height ≤ 400 }
    requires right { right.height ≡ depth (view right.tree.value) }
    requires right_low { right.height ≤ 400 }
    ensures exact { Gives tree_found result (read_as (binary line operator (view left.value) (view right.entry.tree.value)) right.entry.rest.now) }
    ensures height { IfOk result (λ x. x.height ≡ depth (view x.tree.value)) }
    ensures tall { IfOk result (λ x. x.height ≡ max height right.entry.height + 1) }
    ensures rest { IfOk result (λ x. x.rest.now ≡ right.entry.rest.now) }
{
    let height = larger(height, right.height) + 1;
    made(
        alloc,
        Expr::Binary {
            line,
            operator,
            left,
            right: right.tree,
        },
        height,
        right.rest,
    )
}

/// An assignment.
pub fn assign_node<'a>(
    alloc: Global,
    line: u32,
    operator: Option<BinaryOp>,
    left: Box<Expr>,
    height: u32,
    right: Found<'a>,
) -> Result<Found<'a>, Refused>
    requires left { height ≡ depth (view left.value) }
    requires left_low { height ≤ 400 }
    requires right { right.height ≡ depth (view right.tree.value) }
    requires right_low { right.height ≤ 400 }
    ensures exact { Gives tree_found result (read_as (assign line operator (view left.value) (view right.entry.tree.value)) right.entry.rest.now) }
    ensures height { IfOk result (λ x. x.height ≡ depth (view x.tree.value)) }
    ensures tall { IfOk result (λ x. x.height ≡ max height right.entry.height + 1) }
    ensures rest { IfOk result (λ x. x.rest.now ≡ right.entry.rest.now) }
{
    let height = larger(height, right.height) + 1;
    made(
        alloc,
        Expr::Assign {
            line,
            operator,
            place: left,
            value: right.tree,
        },
        height,
        right.rest,
    )
}

/// A comma between its operands.
pub fn comma_node<'a>(
    alloc: Global,
    line: u32,
    left: Box<Expr>,
    height: u32,
    right: Found<'a>,
) -> Result<Found<'a>, Refused>
    requires left { height ≡ depth (view left.value) }
    requires left_low { height ≤ 400 }
    requires right { right.height ≡ depth (view right.tree.value) }
    requires right_low { right.height ≤ 400 }
    ensures exact { Gives tree_found result (read_as (comma line (view left.value) (view right.entry.tree.value)) right.entry.rest.now) }
    ensures height { IfOk result (λ x. x.height ≡ depth (view x.tree.value)) }
    ensures tall { IfOk result (λ x. x.height ≡ max height right.entry.height + 1) }
    ensures rest { IfOk result (λ x. x.rest.now ≡ right.entry.rest.now) }
{
    let height = larger(height, right.height) + 1;
    made(
        alloc,
        Expr::Comma {
            line,
            left,
            right: right.tree,
        },
        height,
        right.rest,
    )
}

/// A choice.
pub fn choice_node<'a>(
    alloc: Global,
    line: u32,
    test: Box<Expr>,
    height: u32,
    yes: Found<'a>,
    no: Found<'a>,
) -> Result<Found<'a>, Refused>
    requires test { height ≡ depth (view test.value) }
    requires test_low { height ≤ 400 }
    requires yes { yes.height ≡ depth (view yes.tree.value) }
    requires yes_low { yes.height ≤ 400 }
    requires no { no.height ≡ depth (view no.tree.value) }
    requires no_low { no.height ≤ 400 }
    ensures exact { Gives tree_found result (read_as (choice line (view test.value) (view yes.entry.tree.value) (view no.entry.tree.value)) no.entry.rest.now) }
    ensures height { IfOk result (λ x. x.height ≡ depth (view x.tree.value)) }
    ensures tall { IfOk result (λ x. x.height ≡ max height (max yes.entry.height no.entry.height) + 1) }
    ensures rest { IfOk result (λ x. x.rest.now ≡ no.entry.rest.now) }
{
    let height = larger(height, larger(yes.height, no.height)) + 1;
    made(
        alloc,
        Expr::Choice {
            line,
            test,
            yes: yes.tree,
            no: no.tree,
        },
        height,
        no.rest,
    )
}

/// A step of an operand.
pub fn step_node<'a>(
    alloc: Global,
    line: u32,
    operator: StepOp,
    left: Box<Expr>,
    height: u32,
    rest: &'a [Token],
) -> Result<Found<'a>, Refused>
    requires left { height ≡ depth (view left.value) }
    requires left_low { height ≤ 400 }
    ensures exact { Gives tree_found result (read_as (step line operator (view left.value)) rest.now) }
    ensures height { IfOk result (λ x. x.height ≡ depth (view x.tree.value)) }
    ensures tall { IfOk result (λ x. x.height ≡ height + 1) }
    ensures rest { IfOk result (λ x. x.rest.now ≡ rest.now) }
{
    made(
        alloc,
        Expr::Step {
            line,
            operator,
            operand: left,
        },
        height + 1,
        rest,
    )
}

/// The member of an operand whose name stands at the front.
pub fn member_node<'a>(
    alloc: Global,
    bytes: &[u8],
    line: u32,
    left: Box<Expr>,
    height: u32,
    tokens: &'a [Token],
) -> Result<Found<'a>, Refused>
    requires left { height ≡ depth (view left.value) }
    requires left_low { height ≤ 400 }
    ensures exact { Gives tree_found result (read_member bytes.now line (view left.value) tokens.now) }
    ensures height { IfOk result (λ x. x.height ≡ depth (view x.tree.value)) }
    ensures tall { IfOk result (λ x. x.height ≡ height + 1) }
    ensures shorter { IfOk result (λ x. length x.rest.now ≤ length tokens.now) }
{
    let Some((text, rest)) = identifier(bytes, tokens) else {
        return Err(Refused::Syntax);
    };
    let own = text_name(alloc, text)?;
    made(
        alloc,
        Expr::Member {
            line,
            left,
            name: own,
        },
        height + 1,
        rest,
    )
}

/// A call of an operand.
#[tactic(auto, using(c_tree::proofs::Views::view_call))]
pub fn call_node<'a>(
    alloc: Global,
    left: Box<Expr>,
    height: u32,
    arguments: Items<'a>,
) -> Result<Found<'a>, Refused>
    requires left { height ≡ depth (view left.value) }
    requires left_low { height ≤ 400 }
    requires right { arguments.height ≡ depth_of (views_of arguments.items.items) }
    requires right_low { arguments.height ≤ 400 }
    ensures exact { Gives tree_found result (read_as (call (view left.value) (views_of arguments.entry.items.items)) arguments.entry.rest.now) }
    ensures height { IfOk result (λ x. x.height ≡ depth (view x.tree.value)) }
    ensures tall { IfOk result (λ x. x.height ≡ max height arguments.entry.height + 1) }
    ensures rest { IfOk result (λ x. x.rest.now ≡ arguments.entry.rest.now) }
{
    let height = larger(height, arguments.height) + 1;
    made(
        alloc,
        Expr::Call {
            function: left,
            arguments: arguments.items,
        },
        height,
        arguments.rest,
    )
}

/// Puts an argument behind others.
pub fn put_argument(items: &mut Vec<Expr>, tree: Box<Expr>) -> Result<(), AllocError>
    ensures { OnOk result (items.new.items ≡ items.old.items ++ tree.value ∷ []) }
{
    items.push(Box::into_inner(tree))?;
    Ok(())
}

/// A bound in brackets, where the one that closes them stands behind it.
pub fn bounded_suffix<'a>(line: u32, bound: Found<'a>) -> Result<FoundSuffix<'a>, Refused>
    requires { bound.height ≡ depth (view bound.tree.value) }
    ensures exact { Gives suffix_found result (read_bound line (view bound.entry.tree.value) bound.entry.rest.now) }
    ensures height { IfOk result (λ x. x.height ≡ suffixes_depth (suffixes_of (x.suffix ∷ []))) }
    ensures tall { IfOk result (λ x. x.height ≡ bound.entry.height) }
    ensures shorter { IfOk result (λ x. length x.rest.now < length bound.entry.rest.now) }
{
    let Some(rest) = behind_mark(bound.rest, Mark::RightBracket) else {
        return Err(Refused::Syntax);
    };
    Ok(FoundSuffix {
        suffix: ArraySuffix::Bounded {
            line,
            bound: bound.tree,
        },
        height: bound.height,
        rest,
    })
}

/// A type name, where the parenthesis that closes it stands behind it.
pub fn type_named<'a>(
    alloc: Global,
    specifiers: Vec<TypeSpecifier>,
    declared: FoundDeclarator<'a>,
) -> Result<FoundType<'a>, Refused>
    requires { declared.height ≡ declared_depth (view_declarator declared.declarator) }
    ensures exact { Gives type_found result (read_type (map view_type_part specifiers.items) (view_declarator declared.entry.declarator) declared.entry.rest.now) }
    ensures height { IfOk result (λ x. x.height ≡ declared_depth (view_declarator x.type_name.value.declarator)) }
    ensures tall { IfOk result (λ x. x.height ≡ declared.entry.height) }
    ensures shorter { IfOk result (λ x. length x.rest.now ≤ length declared.entry.rest.now) }
{
    let Some(rest) = behind_mark(declared.rest, Mark::RightParenthesis) else {
        return Err(Refused::Syntax);
    };
    let type_name = Box::new(
        alloc,
        TypeName {
            specifiers,
            declarator: declared.declarator,
        },
    )?;
    Ok(FoundType {
        type_name,
        height: declared.height,
        rest,
    })
}

/// A declarator in parentheses, with the suffixes behind them.
pub fn nested<'a>(
    alloc: Global,
    line: u32,
    declared: Declarator,
    height: u32,
    suffixes: FoundSuffixes<'a>,
) -> Result<FoundDeclarator<'a>, Refused>
    requires height { height ≡ declared_depth (view_declarator declared) }
    requires low { height ≤ 400 }
    requires suffixes { suffixes.height ≡ suffixes_depth (suffixes_of suffixes.suffixes.items) }
    requires suffixes_low { suffixes.height ≤ 400 }
    ensures exact { Gives declarator_found result (declared_as (inside line (view_declarator declared) (suffixes_of suffixes.entry.suffixes.items)) suffixes.entry.rest.now) }
    ensures height { IfOk result (λ x. x.height ≡ declared_depth (view_declarator x.declarator)) }
    ensures tall { IfOk result (λ x. x.height ≡ max height suffixes.entry.height + 1) }
    ensures rest { IfOk result (λ x. x.rest.now ≡ suffixes.entry.rest.now) }
{
    let inner = Box::new(alloc, declared)?;
    let height = larger(height, suffixes.height) + 1;
    Ok(FoundDeclarator {
        declarator: Declarator {
            pointers: Vec::new(alloc),
            core: DeclaratorCore::Inside { line, inner },
            suffixes: suffixes.suffixes,
        },
        height,
        rest: suffixes.rest,
    })
}
