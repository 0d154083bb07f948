//! The assertions of expressions.

ghost use Rattle.std.specs.Prelude.{◌≡◌, OnOk};
ghost use Rattle.std.specs.Option.{option_map};
ghost use Rattle.c_tree.specs.Tree.{no_suffix, view, views_of, view_declarator, view_suffix, suffixes_of, boxed, view_core};
ghost use Rattle.properties.specs.Spots.{with_tree, with_trees, with_declared, with_suffixes, with_value};

use crate::spots::{Spot, push_called};
use c_tree::{ArraySuffix, Declarator, DeclaratorCore, Expr};
use std::alloc::AllocError;

#[cycle(expressions)]
fn push_arguments(exprs: &[Expr], spots: &mut Vec<Spot>) -> Result<(), AllocError>
    ensures { OnOk result (spots.new.items ≡ with_trees spots.old.items (views_of exprs.now)) }
{
    for expr in exprs {
        push_expression(expr, spots)?;
    }
    Ok(())
}

#[cycle(expressions)]
fn push_suffix(suffix: &ArraySuffix, spots: &mut Vec<Spot>) -> Result<(), AllocError>
    ensures { OnOk result (spots.new.items ≡ with_suffixes spots.old.items (view_suffix suffix.now no_suffix)) }
{
    match suffix {
        ArraySuffix::Bounded { bound, .. } => {
            push_expression(bound, spots)?;
            Ok(())
        }
        ArraySuffix::Open { .. } => Ok(()),
    }
}

#[cycle(expressions)]
fn push_suffixes(suffixes: &[ArraySuffix], spots: &mut Vec<Spot>) -> Result<(), AllocError>
    ensures { OnOk result (spots.new.items ≡ with_suffixes spots.old.items (suffixes_of suffixes.now)) }
{
    for suffix in suffixes {
        push_suffix(suffix, spots)?;
    }
    Ok(())
}

/// The assertions of a declarator without the pointers before it.
#[cycle(expressions)]
fn push_direct(declarator: &Declarator, spots: &mut Vec<Spot>) -> Result<(), AllocError>
    ensures { OnOk result (spots.new.items ≡ with_declared spots.old.items (view_core declarator.now.core (suffixes_of declarator.now.suffixes.items))) }
{
    match &declarator.core {
        DeclaratorCore::Absent => {
            push_suffixes(&declarator.suffixes, spots)?;
            Ok(())
        }
        DeclaratorCore::Named { .. } => {
            push_suffixes(&declarator.suffixes, spots)?;
            Ok(())
        }
        DeclaratorCore::Inside { inner, .. } => {
            push_declarator(inner, spots)?;
            push_suffixes(&declarator.suffixes, spots)?;
            Ok(())
        }
    }
}

#[cycle(expressions)]
fn push_declarator(declarator: &Declarator, spots: &mut Vec<Spot>) -> Result<(), AllocError>
    ensures { OnOk result (spots.new.items ≡ with_declared spots.old.items (view_declarator declarator.now)) }
{
    push_direct(declarator, spots)?;
    Ok(())
}

/// Two expressions, in their order.
#[cycle(expressions)]
fn push_both(first: &Expr, second: &Expr, spots: &mut Vec<Spot>) -> Result<(), AllocError>
    ensures { OnOk result (spots.new.items ≡ with_tree (with_tree spots.old.items (view first.now)) (view second.now)) }
{
    push_expression(first, spots)?;
    push_expression(second, spots)?;
    Ok(())
}

/// Notes the assertions of an expression, in the order of their names.
#[cycle(expressions)]
pub fn push_expression(expr: &Expr, spots: &mut Vec<Spot>) -> Result<(), AllocError>
    ensures { OnOk result (spots.new.items ≡ with_tree spots.old.items (view expr.now)) }
{
    match expr {
        Expr::Constant { .. } => Ok(()),
        Expr::Character { .. } => Ok(()),
        Expr::Strings { .. } => Ok(()),
        Expr::Name { .. } => Ok(()),
        Expr::Parens { inner, .. } => {
            push_expression(inner, spots)?;
            Ok(())
        }
        Expr::Unary { operand, .. } => {
            push_expression(operand, spots)?;
            Ok(())
        }
        Expr::Address { operand, .. } => {
            push_expression(operand, spots)?;
            Ok(())
        }
        Expr::Dereference { operand, .. } => {
            push_expression(operand, spots)?;
            Ok(())
        }
        Expr::Cast {
            type_name,
            operand,
            ..
        } => {
            push_declarator(&type_name.declarator, spots)?;
            push_expression(operand, spots)?;
            Ok(())
        }
        Expr::SizeofExpr {
            operand: measured,
            ..
        } => {
            push_expression(measured, spots)?;
            Ok(())
        }
        Expr::SizeofType { type_name, .. } => {
            push_declarator(&type_name.declarator, spots)?;
            Ok(())
        }
        Expr::Step { operand, .. } => {
            push_expression(operand, spots)?;
            Ok(())
        }
        Expr::Member { left, .. } => {
            push_expression(left, spots)?;
            Ok(())
        }
        Expr::Arrow { left, .. } => {
            push_expression(left, spots)?;
            Ok(())
        }
        Expr::Subscript { left, index, .. } => {
            push_both(left, index, spots)?;
            Ok(())
        }
        Expr::Binary { left, right, .. } => {
            push_both(left, right, spots)?;
            Ok(())
        }
        Expr::Choice { test, yes, no, .. } => {
            push_expression(test, spots)?;
            push_both(yes, no, spots)?;
            Ok(())
        }
        Expr::Assign { place, value, .. } => {
            push_both(place, value, spots)?;
            Ok(())
        }
        Expr::Comma { left, right, .. } => {
            push_both(left, right, spots)?;
            Ok(())
        }
        Expr::Call {
            function,
            arguments,
        } => {
            push_called(function, spots)?;
            push_expression(function, spots)?;
            push_arguments(arguments, spots)?;
            Ok(())
        }
    }
}

/// The same of an expression that may be left out.
pub fn push_value(value: &Option<Box<Expr>>, spots: &mut Vec<Spot>) -> Result<(), AllocError>
    ensures { OnOk result (spots.new.items ≡ with_value spots.old.items (option_map boxed value.now)) }
{
    match value {
        Some(expr) => {
            push_expression(expr, spots)?;
            Ok(())
        }
        None => Ok(()),
    }
}
