//! How many places typed trees have, and how many objects they make.

ghost use Rattle.std.specs.Prelude.{◌≡◌, IfOk, OnOk, option_map};
ghost use Rattle.core_tree.specs.Trees.{view, boxed, view_place, view_structure, parts_of, with_part, arguments_of, with_argument, view_statement, view_function, items_of, with_item};
ghost use Rattle.goto_prog.specs.Structured.{tests_in};
ghost use Rattle.goto_unwind.specs.Linear.{place_linear, expression_linear, structure_linear, parts_linear, arguments_linear, optional_linear, statement_linear, items_linear, parameters_made, function_linear};
ghost use Rattle.goto_unwind.specs.Places.{home_at};

use crate::linear_count::{LinearCount, Weights, product};
use crate::loop_bounds::tests;
use core_tree::{
    Bounds, CoreArgument, CoreExpr, CoreItem, CorePart, CoreStatement, CoreStructure, Function,
    PassedType, Place, Variable,
};
use std::alloc::{AllocError, Global};

/// Adds a place that counts so many times, with those in it.
#[cycle(expression)]
fn place(linear_count: &mut LinearCount, tree: &Place, times: u32) -> Result<(), AllocError>
    ensures { OnOk result (linear_count.new ≡ place_linear times (view_place tree.now) linear_count.old) }
{
    linear_count.add(times);
    match tree {
        Place::Variable { .. } => Ok(()),
        Place::Object { .. } => Ok(()),
        Place::Literal { .. } => Ok(()),
        Place::Pointed { pointer, .. } => expression(linear_count, pointer, times),
        Place::Arrow { pointer, .. } => expression(linear_count, pointer, times),
        Place::Member { place: within, .. } => place(linear_count, within, times),
        Place::Element {
            place: within,
            index,
            ..
        } => {
            place(linear_count, within, times)?;
            expression(linear_count, index, times)
        }
        Place::Subscript { pointer, index, .. } => {
            expression(linear_count, pointer, times)?;
            expression(linear_count, index, times)
        }
    }
}

/// Adds the places of an expression that counts so many times.
#[cycle(expression)]
pub(crate) fn expression(
    linear_count: &mut LinearCount,
    tree: &CoreExpr,
    times: u32,
) -> Result<(), AllocError>
    ensures { OnOk result (linear_count.new ≡ expression_linear times (view tree.now) linear_count.old) }
{
    match tree {
        CoreExpr::Constant { .. } => {
            linear_count.add(times);
            Ok(())
        }
        CoreExpr::Read { place: from, .. } => {
            linear_count.add(times);
            place(linear_count, from, times)
        }
        CoreExpr::Convert { operand, .. } => {
            linear_count.add(times);
            expression(linear_count, operand, times)
        }
        CoreExpr::Sign { operand, .. } => {
            linear_count.add(times);
            expression(linear_count, operand, times)
        }
        CoreExpr::IsZero { operand, .. } => {
            linear_count.add(times);
            expression(linear_count, operand, times)
        }
        CoreExpr::Arithmetic { left, right, .. } => {
            linear_count.add(times);
            expression(linear_count, left, times)?;
            expression(linear_count, right, times)
        }
        CoreExpr::Compare { left, right, .. } => {
            linear_count.add(times);
            expression(linear_count, left, times)?;
            expression(linear_count, right, times)
        }
        CoreExpr::Logical { left, right, .. } => {
            linear_count.add(times);
            expression(linear_count, left, times)?;
            expression(linear_count, right, times)
        }
        CoreExpr::Choice { test, yes, no, .. } => {
            linear_count.add(times);
            expression(linear_count, test, times)?;
            expression(linear_count, yes, times)?;
            expression(linear_count, no, times)
        }
        CoreExpr::Assign {
            place: to,
            value,
            ..
        } => {
            linear_count.add(times);
            place(linear_count, to, times)?;
            expression(linear_count, value, times)
        }
        CoreExpr::Update {
            place: to,
            value,
            ..
        } => {
            linear_count.add(times);
            place(linear_count, to, times)?;
            expression(linear_count, value, times)
        }
        CoreExpr::Step { place: to, .. } => {
            linear_count.add(times);
            place(linear_count, to, times)
        }
        CoreExpr::Comma { left, right, .. } => {
            linear_count.add(times);
            expression(linear_count, left, times)?;
            expression(linear_count, right, times)
        }
        CoreExpr::Assertion { condition, .. } => {
            linear_count.add(times);
            expression(linear_count, condition, times)
        }
        CoreExpr::Assumption { condition, .. } => {
            linear_count.add(times);
            expression(linear_count, condition, times)
        }
        CoreExpr::Draw { .. } => {
            linear_count.add(times);
            Ok(())
        }
        CoreExpr::Member { value, .. } => {
            linear_count.add(times);
            structure(linear_count, value, times)
        }
        CoreExpr::Discard { operand, .. } => {
            linear_count.add(times);
            expression(linear_count, operand, times)
        }
        CoreExpr::DiscardStructure { value } => { structure(linear_count, value, times) }
        CoreExpr::Call {
            function,
            arguments,
            ..
        } => {
            linear_count.add(times);
            arguments_of_call(linear_count, arguments, times)?;
            linear_count.call(*function, times)
        }
        CoreExpr::FunctionName { .. } => {
            linear_count.add(times);
            Ok(())
        }
        CoreExpr::SizeOf { .. } => {
            linear_count.add(times);
            Ok(())
        }
        CoreExpr::SizeOfStructure { .. } => {
            linear_count.add(times);
            Ok(())
        }
        CoreExpr::Address { place: at, .. } => {
            linear_count.add(times);
            place(linear_count, at, times)
        }
        CoreExpr::Sum { pointer, index, .. } => {
            linear_count.add(times);
            expression(linear_count, pointer, times)?;
            expression(linear_count, index, times)
        }
        CoreExpr::Distance { left, right, .. } => {
            linear_count.add(times);
            expression(linear_count, left, times)?;
            expression(linear_count, right, times)
        }
        CoreExpr::Relation { left, right, .. } => {
            linear_count.add(times);
            expression(linear_count, left, times)?;
            expression(linear_count, right, times)
        }
        CoreExpr::PointerUpdate {
            place: to,
            value,
            ..
        } => {
            linear_count.add(times);
            place(linear_count, to, times)?;
            expression(linear_count, value, times)
        }
        CoreExpr::PointerStep { place: at, .. } => {
            linear_count.add(times);
            place(linear_count, at, times)
        }
        CoreExpr::Allocate { size, .. } => {
            linear_count.add(times);
            linear_count.make(times);
            expression(linear_count, size, times)
        }
        CoreExpr::AllocateZeroed { count, size, .. } => {
            linear_count.add(times);
            linear_count.make(times);
            expression(linear_count, count, times)?;
            expression(linear_count, size, times)
        }
        CoreExpr::Release { pointer, .. } => {
            linear_count.add(times);
            expression(linear_count, pointer, times)
        }
        CoreExpr::Exit { status, .. } => {
            linear_count.add(times);
            expression(linear_count, status, times)
        }
        CoreExpr::Abort { .. } => {
            linear_count.add(times);
            Ok(())
        }
    }
}

/// Adds the places of a structure value.
#[cycle(expression)]
pub(crate) fn structure(
    linear_count: &mut LinearCount,
    tree: &CoreStructure,
    times: u32,
) -> Result<(), AllocError>
    ensures { OnOk result (linear_count.new ≡ structure_linear times (view_structure tree.now) linear_count.old) }
{
    match tree {
        CoreStructure::Read { place: from, .. } => {
            linear_count.add(times);
            place(linear_count, from, times)
        }
        CoreStructure::Choice { test, yes, no, .. } => {
            linear_count.add(times);
            expression(linear_count, test, times)?;
            structure(linear_count, yes, times)?;
            structure(linear_count, no, times)
        }
        CoreStructure::Assign {
            place: to,
            value,
            ..
        } => {
            linear_count.add(times);
            place(linear_count, to, times)?;
            structure(linear_count, value, times)
        }
        CoreStructure::Comma { left, right, .. } => {
            linear_count.add(times);
            expression(linear_count, left, times)?;
            structure(linear_count, right, times)
        }
        CoreStructure::Member { value, .. } => {
            linear_count.add(times);
            structure(linear_count, value, times)
        }
        CoreStructure::List { parts, .. } => { parts_of_list(linear_count, parts, times) }
        CoreStructure::String { .. } => {
            linear_count.add(times);
            Ok(())
        }
        CoreStructure::Call {
            function,
            arguments,
            ..
        } => {
            linear_count.add(times);
            arguments_of_call(linear_count, arguments, times)?;
            linear_count.call(*function, times)
        }
    }
}

#[cycle(expression)]
fn parts_of_list(
    linear_count: &mut LinearCount,
    parts: &[CorePart],
    times: u32,
) -> Result<(), AllocError>
    ensures { OnOk result (linear_count.new ≡ parts_linear times (parts_of parts.now) linear_count.old) }
{
    for part in parts {
        part_of_list(linear_count, part, times)?;
    }
    Ok(())
}

#[cycle(expression)]
fn part_of_list(
    linear_count: &mut LinearCount,
    part: &CorePart,
    times: u32,
) -> Result<(), AllocError>
    ensures { OnOk result ((rest : _) → parts_linear times rest linear_count.new ≡ parts_linear times (with_part part.now rest) linear_count.old) }
{
    match part {
        CorePart::Number { value, .. } => expression(linear_count, value, times),
        CorePart::Structure { value, .. } => structure(linear_count, value, times),
    }
}

#[cycle(expression)]
fn arguments_of_call(
    linear_count: &mut LinearCount,
    arguments: &[CoreArgument],
    times: u32,
) -> Result<(), AllocError>
    ensures { OnOk result (linear_count.new ≡ arguments_linear times (arguments_of arguments.now) linear_count.old) }
{
    for argument in arguments {
        argument_of_call(linear_count, argument, times)?;
    }
    Ok(())
}

#[cycle(expression)]
fn argument_of_call(
    linear_count: &mut LinearCount,
    argument: &CoreArgument,
    times: u32,
) -> Result<(), AllocError>
    ensures { OnOk result ((rest : _) → arguments_linear times rest linear_count.new ≡ arguments_linear times (with_argument argument.now rest) linear_count.old) }
{
    match argument {
        CoreArgument::Number { value } => expression(linear_count, value, times),
        CoreArgument::Structure { value } => structure(linear_count, value, times),
    }
}

// An expression that may be missing, and then counts so many.
fn optional(
    linear_count: &mut LinearCount,
    expr: &Option<Box<CoreExpr>>,
    times: u32,
    missing: u32,
) -> Result<(), AllocError>
    ensures { OnOk result (linear_count.new ≡ optional_linear times missing (option_map boxed expr.now) linear_count.old) }
{
    match expr {
        Some(found) => expression(linear_count, found, times),
        None => {
            linear_count.add(missing);
            Ok(())
        }
    }
}

/// Adds the places of a statement of the function with this name.
#[cycle(statement)]
pub(crate) fn statement(
    linear_count: &mut LinearCount,
    bounds: &Bounds,
    name: &[u8],
    variables: &[Variable],
    code: &CoreStatement,
    times: u32,
) -> Result<(), AllocError>
    ensures { OnOk result (linear_count.new ≡ statement_linear (tests_in bounds.now.set bounds.now.unwind name.now) variables.now times (view_statement code.now) linear_count.old) }
{
    match code {
        CoreStatement::Block { items } => {
            linear_count.add(times);
            items_of_block(linear_count, bounds, name, variables, items, times)
        }
        CoreStatement::If { test, yes, .. } => {
            linear_count.add(times);
            expression(linear_count, test, times)?;
            statement(linear_count, bounds, name, variables, yes, times)
        }
        CoreStatement::IfElse { test, yes, no, .. } => {
            linear_count.add(times);
            expression(linear_count, test, times)?;
            statement(linear_count, bounds, name, variables, yes, times)?;
            statement(linear_count, bounds, name, variables, no, times)
        }
        CoreStatement::Evaluate { expression: value } => {
            linear_count.add(times);
            expression(linear_count, value, times)
        }
        CoreStatement::Return { value, .. } => {
            linear_count.add(times);
            expression(linear_count, value, times)
        }
        CoreStatement::ReturnStructure { value, .. } => {
            linear_count.add(times);
            structure(linear_count, value, times)
        }
        CoreStatement::ReturnNothing { .. } => {
            linear_count.add(times);
            Ok(())
        }
        CoreStatement::For {
            number,
            first,
            test,
            last,
            body,
            ..
        } => {
            linear_count.add(times);
            optional(linear_count, first, times, 0)?;
            let count = tests(bounds, name, *number);
            let tested = product(times, count);
            optional(linear_count, test, tested, tested)?;
            let round = product(times, count.saturating_sub(1));
            statement(linear_count, bounds, name, variables, body, round)?;
            optional(linear_count, last, round, 0)
        }
        CoreStatement::Do {
            number,
            body,
            test,
            ..
        } => {
            linear_count.add(times);
            let round = product(times, tests(bounds, name, *number));
            statement(linear_count, bounds, name, variables, body, round)?;
            expression(linear_count, test, round)
        }
        CoreStatement::Switch { value, items, .. } => {
            linear_count.add(times);
            expression(linear_count, value, times)?;
            items_of_block(linear_count, bounds, name, variables, items, times)
        }
        CoreStatement::Break { .. } => {
            linear_count.add(times);
            Ok(())
        }
        CoreStatement::Continue { .. } => {
            linear_count.add(times);
            Ok(())
        }
        CoreStatement::Goto { .. } => {
            linear_count.add(times);
            Ok(())
        }
        CoreStatement::Stray {
            statement: labelled,
            ..
        } => {
            linear_count.add(times);
            statement(linear_count, bounds, name, variables, labelled, times)
        }
    }
}

#[cycle(statement)]
fn items_of_block(
    linear_count: &mut LinearCount,
    bounds: &Bounds,
    name: &[u8],
    variables: &[Variable],
    items: &[CoreItem],
    times: u32,
) -> Result<(), AllocError>
    ensures { OnOk result (linear_count.new ≡ items_linear (tests_in bounds.now.set bounds.now.unwind name.now) variables.now times (items_of items.now) linear_count.old) }
{
    for item in items {
        item_of_block(linear_count, bounds, name, variables, item, times)?;
    }
    Ok(())
}

#[cycle(statement)]
fn item_of_block(
    linear_count: &mut LinearCount,
    bounds: &Bounds,
    name: &[u8],
    variables: &[Variable],
    item: &CoreItem,
    times: u32,
) -> Result<(), AllocError>
    ensures { OnOk result ((rest : _) → items_linear (tests_in bounds.now.set bounds.now.unwind name.now) variables.now times rest linear_count.new ≡ items_linear (tests_in bounds.now.set bounds.now.unwind name.now) variables.now times (with_item item.now rest) linear_count.old) }
{
    match item {
        CoreItem::Declare { variable, .. } => {
            linear_count.add(times);
            linear_count.make_home(home(variables, *variable), times);
            Ok(())
        }
        CoreItem::Initialize {
            variable,
            value,
            ..
        } => {
            linear_count.add(times);
            linear_count.make_home(home(variables, *variable), times);
            expression(linear_count, value, times)
        }
        CoreItem::InitializeStructure {
            variable,
            value,
            ..
        } => {
            linear_count.add(times);
            linear_count.make_home(home(variables, *variable), times);
            structure(linear_count, value, times)
        }
        CoreItem::Statement { statement: code } => {
            statement(linear_count, bounds, name, variables, code, times)
        }
        CoreItem::Label { .. } => {
            linear_count.add(times);
            Ok(())
        }
        CoreItem::Case { .. } => {
            linear_count.add(times);
            Ok(())
        }
        CoreItem::Default { .. } => {
            linear_count.add(times);
            Ok(())
        }
    }
}

// The variable that holds the address of a variable, where that has one.
fn home(variables: &[Variable], variable: u32) -> Option<u32>
    ensures { result ≡ home_at variables.now variable }
{
    match variables.get(variable as usize) {
        Some(found) => found.home,
        None => None,
    }
}

// The first of these variables, as many as there are parameters, where they have addresses.
fn parameters(linear_count: &mut LinearCount, parameters: &[PassedType], variables: &[Variable])
    ensures { linear_count.new ≡ parameters_made 1 parameters.now variables.now linear_count.old }
{
    for place in 0..parameters.len().min(variables.len()) {
        linear_count.make_home(variables[place].home, 1);
    }
}

/// What a function counts, whose body may be missing.
pub(crate) fn function(
    alloc: Global,
    bounds: &Bounds,
    function: &Function,
    weights: Weights,
) -> Result<LinearCount, AllocError>
    ensures { IfOk result (λ t. t ≡ function_linear weights bounds.now (view_function function.now)) }
{
    let mut linear_count = LinearCount::new(alloc, weights);
    if let Some(found) = &function.body {
        let variables = function.variables.as_slice();
        parameters(&mut linear_count, &function.parameters, variables);
        statement(
            &mut linear_count,
            bounds,
            &function.name.bytes,
            variables,
            found,
            1,
        )?;
    }
    Ok(linear_count)
}
