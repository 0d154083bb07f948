//! How many levels an expression and a declarator have.

ghost use Rattle.std.specs.Prelude.{◌≡◌, ◌<◌, ◌^◌, max};
ghost use Rattle.c_tree.specs.Tree.{no_suffix, unnamed, view, views_of, view_core, view_declarator, view_suffix, suffixes_of, pointed, depth, depth_of, declared_depth, suffixes_depth};

use crate::expr::{ArraySuffix, Declarator, DeclaratorCore, Expr, PointerMark};

/// The larger of two numbers of levels.
pub fn larger(a: u32, b: u32) -> u32
    ensures { result ≡ max a b }
{
    if a < b { b } else { a }
}

#[cycle(expressions)]
fn arguments_depth(exprs: &[Expr]) -> u32
    requires { depth_of (views_of exprs.now) < 2 ^ 32 }
    ensures { result ≡ depth_of (views_of exprs.now) }
{
    let mut levels = 0;
    for expr in exprs {
        levels = larger(levels, expression_depth(expr));
    }
    levels
}

#[cycle(expressions)]
fn suffix_depth(suffix: &ArraySuffix) -> u32
    requires { suffixes_depth (view_suffix suffix.now no_suffix) < 2 ^ 32 }
    ensures { result ≡ suffixes_depth (view_suffix suffix.now no_suffix) }
{
    match suffix {
        ArraySuffix::Bounded { bound, .. } => expression_depth(bound),
        ArraySuffix::Open { .. } => 0,
    }
}

#[cycle(expressions)]
fn suffixes_depth(suffixes: &[ArraySuffix]) -> u32
    requires { suffixes_depth (suffixes_of suffixes.now) < 2 ^ 32 }
    ensures { result ≡ suffixes_depth (suffixes_of suffixes.now) }
{
    let mut levels = 0;
    for suffix in suffixes {
        levels = larger(levels, suffix_depth(suffix));
    }
    levels
}

/// The levels of a declarator without a name, by those of its suffixes.
#[tactic(auto, using(crate::proofs::Views::unnamed_depth))]
fn unnamed_depth(suffixes: &[ArraySuffix], levels: u32) -> u32
    requires small { declared_depth (unnamed (suffixes_of suffixes.now)) < 2 ^ 32 }
    requires levels { levels ≡ suffixes_depth (suffixes_of suffixes.now) }
    ensures { result ≡ declared_depth (unnamed (suffixes_of suffixes.now)) }
{
    if suffixes.is_empty() { 0 } else { levels + 1 }
}

/// The levels of what stands behind pointers, with these.
pub(crate) fn pointed_depth(pointers: &[PointerMark], levels: u32) -> u32
    ensures { result ≡ pointed pointers.now levels }
{
    match pointers {
        [] => levels,
        [_, ..] => larger(levels, 1),
    }
}

/// The levels of a declarator without the pointers before it.
#[cycle(expressions)]
fn direct_depth(declarator: &Declarator) -> u32
    requires { declared_depth (view_core declarator.now.core (suffixes_of declarator.now.suffixes.items)) < 2 ^ 32 }
    ensures { result ≡ declared_depth (view_core declarator.now.core (suffixes_of declarator.now.suffixes.items)) }
{
    match &declarator.core {
        DeclaratorCore::Absent => {
            unnamed_depth(&declarator.suffixes, suffixes_depth(&declarator.suffixes))
        }
        DeclaratorCore::Named { .. } => suffixes_depth(&declarator.suffixes) + 1,
        DeclaratorCore::Inside { inner, .. } => {
            larger(
                declarator_depth(inner),
                suffixes_depth(&declarator.suffixes),
            ) + 1
        }
    }
}

/// The number of the declarator's levels: each declarator is one, but the empty one none, and its bounds lie below it.
#[cycle(expressions)]
pub fn declarator_depth(declarator: &Declarator) -> u32
    requires { declared_depth (view_declarator declarator.now) < 2 ^ 32 }
    ensures { result ≡ declared_depth (view_declarator declarator.now) }
{
    pointed_depth(&declarator.pointers, direct_depth(declarator))
}

/// The number of the tree's levels: each node is one.
#[cycle(expressions)]
pub fn expression_depth(expr: &Expr) -> u32
    requires { depth (view expr.now) < 2 ^ 32 }
    ensures { result ≡ depth (view expr.now) }
{
    match expr {
        Expr::Constant { .. } => 1,
        Expr::Character { .. } => 1,
        Expr::Strings { .. } => 1,
        Expr::Name { .. } => 1,
        Expr::Parens { inner, .. } => expression_depth(inner) + 1,
        Expr::Unary { operand, .. } => expression_depth(operand) + 1,
        Expr::Address { operand, .. } => expression_depth(operand) + 1,
        Expr::Dereference { operand, .. } => expression_depth(operand) + 1,
        Expr::Cast {
            type_name,
            operand,
            ..
        } => larger(
            declarator_depth(&type_name.declarator),
            expression_depth(operand),
        ) + 1,
        Expr::SizeofExpr { operand, .. } => expression_depth(operand) + 1,
        Expr::SizeofType { type_name, .. } => declarator_depth(&type_name.declarator) + 1,
        Expr::Step { operand, .. } => expression_depth(operand) + 1,
        Expr::Member { left, .. } => expression_depth(left) + 1,
        Expr::Arrow { left, .. } => expression_depth(left) + 1,
        Expr::Subscript { left, index, .. } => {
            larger(expression_depth(left), expression_depth(index)) + 1
        }
        Expr::Binary { left, right, .. } => larger(expression_depth(left), expression_depth(right))
            + 1,
        Expr::Choice { test, yes, no, .. } => larger(
            expression_depth(test),
            larger(expression_depth(yes), expression_depth(no)),
        ) + 1,
        Expr::Assign { place, value, .. } => larger(
            expression_depth(place),
            expression_depth(value),
        ) + 1,
        Expr::Comma { left, right, .. } => larger(expression_depth(left), expression_depth(right))
            + 1,
        Expr::Call {
            function,
            arguments,
        } => larger(expression_depth(function), arguments_depth(arguments)) + 1,
    }
}
