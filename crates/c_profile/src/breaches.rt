//! The first rule that an expression or a statement breaks.

ghost use Rattle.std.specs.Prelude.{◌≡◌, length, option_map, slice_get, take, IfOk, OnOk};
ghost use Rattle.std.specs.List.{list_any};
ghost use Rattle.core_tree.specs.Trees.{view, boxed, view_place, view_structure, view_functions, view_statement, parts_of, with_part, arguments_of, with_argument, items_of, with_item};
ghost use Rattle.c_profile.specs.Rules as rules;
ghost use Rattle.c_profile.specs.Rules.{breach, earlier, is_defined, labels_from};

use crate::breach::{Breach, earlier};
use core_tree::{
    CoreArgument, CoreExpr, CoreItem, CorePart, CoreStatement, CoreStructure, Function, Place,
};
use std::alloc::AllocError;

fn is_defined(functions: &[Function], function: u32) -> bool
    ensures { result ≡ is_defined (slice_get (view_functions functions.now) function) }
{
    match functions.get(function as usize) {
        Some(f) => f.body.is_some(),
        None => false,
    }
}

// A call of a function without a body.
fn call_breach(functions: &[Function], line: u32, function: u32) -> Option<Breach>
    ensures { result ≡ rules.call_breach (view_functions functions.now) line function }
{
    if is_defined(functions, function) {
        None
    } else {
        Some(Breach::new(line, 2))
    }
}

#[cycle(expression)]
fn place_breach(functions: &[Function], place: &Place) -> Option<Breach>
    ensures { result ≡ rules.place_breach (view_functions functions.now) (view_place place.now) }
{
    match place {
        Place::Variable { .. } => None,
        Place::Object { .. } => None,
        Place::Literal { .. } => None,
        Place::Pointed { pointer, .. } => expression_breach(functions, pointer),
        Place::Arrow { pointer, .. } => expression_breach(functions, pointer),
        Place::Member { place, .. } => place_breach(functions, place),
        Place::Element { place, index, .. } => earlier(
            place_breach(functions, place),
            expression_breach(functions, index),
        ),
        Place::Subscript { pointer, index, .. } => earlier(
            expression_breach(functions, pointer),
            expression_breach(functions, index),
        ),
    }
}

#[cycle(expression)]
fn expression_breach(functions: &[Function], expr: &CoreExpr) -> Option<Breach>
    ensures { result ≡ rules.expression_breach (view_functions functions.now) (view expr.now) }
{
    match expr {
        CoreExpr::Constant { .. } => None,
        CoreExpr::Read { place, .. } => place_breach(functions, place),
        CoreExpr::Convert { operand, .. } => expression_breach(functions, operand),
        CoreExpr::Sign { operand, .. } => expression_breach(functions, operand),
        CoreExpr::IsZero { operand, .. } => expression_breach(functions, operand),
        CoreExpr::Arithmetic { left, right, .. } => earlier(
            expression_breach(functions, left),
            expression_breach(functions, right),
        ),
        CoreExpr::Compare { left, right, .. } => earlier(
            expression_breach(functions, left),
            expression_breach(functions, right),
        ),
        CoreExpr::Logical { left, right, .. } => earlier(
            expression_breach(functions, left),
            expression_breach(functions, right),
        ),
        CoreExpr::Choice { test, yes, no, .. } => {
            let branches = earlier(
                expression_breach(functions, yes),
                expression_breach(functions, no),
            );
            earlier(expression_breach(functions, test), branches)
        },
        CoreExpr::Assign { place, value, .. } => earlier(
            place_breach(functions, place),
            expression_breach(functions, value),
        ),
        CoreExpr::Update { place, value, .. } => earlier(
            place_breach(functions, place),
            expression_breach(functions, value),
        ),
        CoreExpr::Step { place, .. } => place_breach(functions, place),
        CoreExpr::Comma { left, right, .. } => earlier(
            expression_breach(functions, left),
            expression_breach(functions, right),
        ),
        CoreExpr::Assertion { condition, .. } => expression_breach(functions, condition),
        CoreExpr::Assumption { condition, .. } => expression_breach(functions, condition),
        CoreExpr::Draw { .. } => None,
        CoreExpr::Member { value, .. } => structure_breach(functions, value),
        CoreExpr::Discard { operand, .. } => expression_breach(functions, operand),
        CoreExpr::DiscardStructure { value } => structure_breach(functions, value),
        CoreExpr::Call {
            line,
            function,
            arguments,
            ..
        } => earlier(
            call_breach(functions, *line, *function),
            arguments_breach(functions, arguments),
        ),
        CoreExpr::FunctionName { line } => Some(Breach::new(*line, 3)),
        CoreExpr::SizeOf { operand, .. } => expression_breach(functions, operand),
        CoreExpr::SizeOfStructure { operand, .. } => structure_breach(functions, operand),
        CoreExpr::Address { place, .. } => place_breach(functions, place),
        CoreExpr::Sum { pointer, index, .. } => earlier(
            expression_breach(functions, pointer),
            expression_breach(functions, index),
        ),
        CoreExpr::Distance { left, right, .. } => earlier(
            expression_breach(functions, left),
            expression_breach(functions, right),
        ),
        CoreExpr::Relation { left, right, .. } => earlier(
            expression_breach(functions, left),
            expression_breach(functions, right),
        ),
        CoreExpr::PointerUpdate { place, value, .. } => earlier(
            place_breach(functions, place),
            expression_breach(functions, value),
        ),
        CoreExpr::PointerStep { place, .. } => place_breach(functions, place),
        CoreExpr::Allocate { size, .. } => expression_breach(functions, size),
        CoreExpr::AllocateZeroed { count, size, .. } => earlier(
            expression_breach(functions, count),
            expression_breach(functions, size),
        ),
        CoreExpr::Release { pointer, .. } => expression_breach(functions, pointer),
        CoreExpr::Exit { status, .. } => expression_breach(functions, status),
        CoreExpr::Abort { .. } => None,
    }
}

#[cycle(expression)]
fn structure_breach(functions: &[Function], value: &CoreStructure) -> Option<Breach>
    ensures { result ≡ rules.structure_breach (view_functions functions.now) (view_structure value.now) }
{
    match value {
        CoreStructure::Read { place, .. } => place_breach(functions, place),
        CoreStructure::Choice { test, yes, no, .. } => {
            let branches = earlier(
                structure_breach(functions, yes),
                structure_breach(functions, no),
            );
            earlier(expression_breach(functions, test), branches)
        },
        CoreStructure::Assign { place, value, .. } => earlier(
            place_breach(functions, place),
            structure_breach(functions, value),
        ),
        CoreStructure::Comma { left, right, .. } => earlier(
            expression_breach(functions, left),
            structure_breach(functions, right),
        ),
        CoreStructure::Member { value, .. } => structure_breach(functions, value),
        CoreStructure::List { parts, .. } => parts_breach(functions, parts),
        CoreStructure::String { .. } => None,
        CoreStructure::Call {
            line,
            function,
            arguments,
            ..
        } => earlier(
            call_breach(functions, *line, *function),
            arguments_breach(functions, arguments),
        ),
    }
}

#[cycle(expression)]
fn parts_breach(functions: &[Function], parts: &[CorePart]) -> Option<Breach>
    ensures { result ≡ rules.parts_breach (view_functions functions.now) (parts_of parts.now) }
{
    let mut first = None;
    for place in (0..parts.len()).rev() {
        first = earlier(part_breach(functions, &parts[place]), first);
    }
    first
}

#[cycle(expression)]
fn part_breach(functions: &[Function], part: &CorePart) -> Option<Breach>
    ensures { (rest : _) → earlier result (rules.parts_breach (view_functions functions.now) rest) ≡ rules.parts_breach (view_functions functions.now) (with_part part.now rest) }
{
    match part {
        CorePart::Number { value, .. } => expression_breach(functions, value),
        CorePart::Structure { value, .. } => structure_breach(functions, value),
    }
}

#[cycle(expression)]
fn arguments_breach(functions: &[Function], arguments: &[CoreArgument]) -> Option<Breach>
    ensures { result ≡ rules.arguments_breach (view_functions functions.now) (arguments_of arguments.now) }
{
    let mut first = None;
    for place in (0..arguments.len()).rev() {
        first = earlier(argument_breach(functions, &arguments[place]), first);
    }
    first
}

#[cycle(expression)]
fn argument_breach(functions: &[Function], argument: &CoreArgument) -> Option<Breach>
    ensures { (rest : _) → earlier result (rules.arguments_breach (view_functions functions.now) rest) ≡ rules.arguments_breach (view_functions functions.now) (with_argument argument.now rest) }
{
    match argument {
        CoreArgument::Number { value } => expression_breach(functions, value),
        CoreArgument::Structure { value } => structure_breach(functions, value),
    }
}

// Of a part of a loop that may be missing.
fn optional_breach(functions: &[Function], part: &Option<Box<CoreExpr>>) -> Option<Breach>
    ensures { result ≡ rules.part_breach (view_functions functions.now) (option_map boxed part.now) }
{
    match part {
        Some(expr) => expression_breach(functions, expr),
        None => None,
    }
}

// A `goto` whose label isn't in scope.
fn jump_breach(labels: &[u32], line: u32, label: u32) -> Option<Breach>
    ensures { result ≡ rules.jump_breach labels.now line label }
{
    if labels.contains(&label) {
        None
    } else {
        Some(Breach::new(line, 6))
    }
}

/// Of a statement with these labels in scope.
#[cycle(statement)]
pub(crate) fn statement_breach(
    functions: &[Function],
    labels: &mut Vec<u32>,
    statement: &CoreStatement,
) -> Result<Option<Breach>, AllocError>
    ensures breach { IfOk result (λ b. b ≡ rules.statement_breach (view_functions functions.now) labels.old.items (view_statement statement.now)) }
    ensures labels { OnOk result (labels.new.items ≡ labels.old.items) }
{
    match statement {
        CoreStatement::Block { items } => items_breach(functions, labels, items),
        CoreStatement::If { test, yes, .. } => {
            let inner = statement_breach(functions, labels, yes)?;
            Ok(earlier(expression_breach(functions, test), inner))
        }
        CoreStatement::IfElse { test, yes, no, .. } => {
            let inner = statement_breach(functions, labels, yes)?;
            let other = statement_breach(functions, labels, no)?;
            Ok(earlier(expression_breach(functions, test), earlier(inner, other)))
        }
        CoreStatement::Evaluate { expression } => Ok(expression_breach(functions, expression)),
        CoreStatement::Return { value, .. } => Ok(expression_breach(functions, value)),
        CoreStatement::ReturnStructure { value, .. } => Ok(structure_breach(functions, value)),
        CoreStatement::ReturnNothing { .. } => Ok(None),
        CoreStatement::For {
            first,
            test,
            last,
            body,
            ..
        } => {
            let inner = statement_breach(functions, labels, body)?;
            let behind = earlier(optional_breach(functions, last), inner);
            let behind = earlier(optional_breach(functions, test), behind);
            Ok(earlier(optional_breach(functions, first), behind))
        }
        CoreStatement::Do { body, test, .. } => {
            let inner = statement_breach(functions, labels, body)?;
            Ok(earlier(inner, expression_breach(functions, test)))
        }
        CoreStatement::Switch { value, items, .. } => {
            let inner = items_breach(functions, labels, items)?;
            Ok(earlier(expression_breach(functions, value), inner))
        }
        CoreStatement::Break { .. } => Ok(None),
        CoreStatement::Continue { .. } => Ok(None),
        CoreStatement::Goto { line, label } => Ok(jump_breach(labels.as_slice(), *line, *label)),
        CoreStatement::Stray { line, statement } => {
            let inner = statement_breach(functions, labels, statement)?;
            Ok(earlier(Some(Breach::new(*line, 7)), inner))
        }
    }
}

// Of the items of a block, with these labels in scope behind it.
#[cycle(statement)]
fn items_breach(
    functions: &[Function],
    labels: &mut Vec<u32>,
    items: &[CoreItem],
) -> Result<Option<Breach>, AllocError>
    ensures breach { IfOk result (λ b. b ≡ rules.items_breach (view_functions functions.now) labels.old.items (items_of items.now)) }
    ensures labels { OnOk result (labels.new.items ≡ labels.old.items) }
{
    let outer = labels.len();
    let mut first = None;
    for place in (0..items.len()).rev() {
        first = earlier(item_breach(functions, labels, &items[place])?, first);
    }
    labels.truncate(outer);
    Ok(first)
}

// Of an item, with the labels in scope that stand behind it. A label comes into scope.
#[cycle(statement)]
fn item_breach(
    functions: &[Function],
    labels: &mut Vec<u32>,
    item: &CoreItem,
) -> Result<Option<Breach>, AllocError>
    ensures breach { IfOk result (λ b. (outer : _) (rest : _) → labels_from rest outer ≡ labels.old.items → earlier b (rules.items_breach (view_functions functions.now) outer rest) ≡ rules.items_breach (view_functions functions.now) outer (with_item item.now rest)) }
    ensures labels { OnOk result ((outer : _) (rest : _) → labels_from rest outer ≡ labels.old.items → labels.new.items ≡ labels_from (with_item item.now rest) outer) }
{
    match item {
        CoreItem::Declare { .. } => Ok(None),
        CoreItem::Initialize { value, .. } => Ok(expression_breach(functions, value)),
        CoreItem::InitializeStructure { value, .. } => Ok(structure_breach(functions, value)),
        CoreItem::Statement { statement } => statement_breach(functions, labels, statement),
        CoreItem::Label { label } => {
            labels.push(*label)?;
            Ok(None)
        }
        CoreItem::Case { .. } => Ok(None),
        CoreItem::Default { .. } => Ok(None),
    }
}
