//! The blocks that code uses for values on the way: structure values, numbers of objects, and the bytes of what is allocated.

ghost use Rattle.std.specs.Prelude.{◌≡◌, ◌++◌, ◌∷◌, [], ◌≤◌, length, IfOk, option_map};
ghost use Rattle.core_tree.specs.Trees.{view, boxed, view_place, view_structure, parts_of, with_part, arguments_of, with_argument, view_statement, items_of, with_item};
ghost use Rattle.c_types.specs.Integers.{bytes};
ghost use Rattle.c_meaning.specs.Meaning.{number_type};
ghost use Rattle.c_temporaries.specs.Temporaries as specs;

use crate::accesses::{Access, access_to, home_in};
use crate::sizes::{number_type, value_size};
use c_types::IntegerType;
use core_tree::{
    CoreArgument, CoreExpr, CoreItem, CorePart, CoreStatement, CoreStructure, Place, Variable,
    structure_size,
};
use std::alloc::{AllocError, Global};
use std::marker::Model;

/// As many bytes as may be allocated at once.
pub const HEAP_BYTES: u32 = 4096;

/// How many bytes that stay 0, the sizes of the blocks that are free, the first of which is used first, and how many bytes
/// the block has in which objects are made.
#[derive(Drop)]
pub struct Temporaries {
    zeros: u32,
    sizes: Vec<u32>,
    heap: u32,
}

impl Model for Temporaries {
    ghost use Rattle.c_temporaries.specs.Temporaries as specs;

    ghost Value = { specs.Temporaries };

    ghost view = { λ r. record { zeros = r.zeros; sizes = r.sizes.items; heap = r.heap } };
}

// The greater size at each place, where the others are no more than these.
fn raise(sizes: &mut [u32], others: &[u32])
    requires { length others.now ≤ length sizes.old }
    ensures { sizes.new ≡ specs.greater sizes.old others.now }
{
    for place in 0..others.len() {
        sizes[place] = sizes[place].max(others[place]);
    }
}

// The same of sizes that are owned.
fn raised(sizes: Vec<u32>, others: &[u32]) -> Vec<u32>
    requires { length others.now ≤ length sizes.items }
    ensures { result.items ≡ specs.greater sizes.items others.now }
{
    let mut all = sizes;
    raise(&mut all, others);
    all
}

// The same of any two lists.
#[tactic(auto, using(crate::proofs::Greater::greater_swapped))]
fn greater(left: Vec<u32>, right: Vec<u32>) -> Vec<u32>
    ensures { result.items ≡ specs.greater left.items right.items }
{
    if right.len() <= left.len() {
        raised(left, &right)
    } else {
        raised(right, &left)
    }
}

impl Temporaries {
    fn none(alloc: Global) -> Temporaries
        ensures { result ≡ specs.no_temporaries }
    {
        Temporaries {
            zeros: 0,
            sizes: Vec::new(alloc),
            heap: 0,
        }
    }

    // One after the other, in the same blocks.
    fn and(self, other: Temporaries) -> Temporaries
        ensures { result ≡ specs.both self other }
    {
        Temporaries {
            zeros: self.zeros.max(other.zeros),
            sizes: greater(self.sizes, other.sizes),
            heap: self.heap.max(other.heap),
        }
    }

    // While a block of this size is in use.
    fn under(mut self, size: u32) -> Result<Temporaries, AllocError>
        ensures { IfOk result (λ r. r ≡ specs.under size self) }
    {
        self.sizes.insert(0, size)?;
        Ok(self)
    }

    // While blocks of these sizes are in use.
    fn under_all(self, sizes: Vec<u32>) -> Result<Temporaries, AllocError>
        ensures { IfOk result (λ r. r ≡ specs.under_all sizes.items self) }
    {
        let mut all = sizes;
        all.extend_from_slice(&self.sizes)?;
        Ok(Temporaries {
            zeros: self.zeros,
            sizes: all,
            heap: self.heap,
        })
    }

    // Behind a clear of so many bytes.
    fn clearing(mut self, size: u32) -> Temporaries
        ensures { result ≡ specs.clearing size self }
    {
        self.zeros = self.zeros.max(size);
        self
    }

    // Where an object is made.
    fn making(mut self) -> Temporaries
        ensures { result ≡ specs.making self }
    {
        self.heap = self.heap.max(HEAP_BYTES);
        self
    }

    /// How many bytes the block has in which objects are made.
    pub fn heap(&self) -> u32
        ensures { result ≡ self.now.heap }
    {
        self.heap
    }

    /// How many bytes stay 0.
    pub fn zeros(&self) -> u32
        ensures { result ≡ self.now.zeros }
    {
        self.zeros
    }

    /// The sizes of the blocks.
    pub fn sizes(&self) -> &[u32]
        ensures { result.now ≡ self.now.sizes }
    {
        &self.sizes
    }
}

// How many bytes an argument has.
fn argument_size(argument: &CoreArgument) -> u32
    ensures { (rest : _) → specs.argument_sizes (with_argument argument.now rest) ≡ result ∷ specs.argument_sizes rest }
{
    match argument {
        CoreArgument::Number { value } => number_size(value),
        CoreArgument::Structure { value } => structure_size(value),
    }
}

// How many bytes the value of an expression has; one without value has those of an int.
fn number_size(value: &CoreExpr) -> u32
    ensures { result ≡ bytes (number_type (view value.now)) }
{
    number_type(value).size()
}

// How many bytes each argument has.
fn argument_sizes(alloc: Global, arguments: &[CoreArgument]) -> Result<Vec<u32>, AllocError>
    ensures { IfOk result (λ v. v.items ≡ specs.argument_sizes (arguments_of arguments.now)) }
{
    let mut sizes = Vec::new(alloc);
    for argument in arguments {
        sizes.push(argument_size(argument))?;
    }
    Ok(sizes)
}

// Of an access to so many bytes.
fn access_temporaries(alloc: Global, size: u32, access: Access) -> Result<Temporaries, AllocError>
    ensures { IfOk result (λ r. r ≡ specs.access_temporaries size access) }
{
    match access {
        Access::Variable { .. } => Ok(Temporaries::none(alloc)),
        Access::Object { .. } => Temporaries::none(alloc).under(size),
        Access::Within { .. } => Temporaries::none(alloc).under(size),
        Access::Pointed => Temporaries::none(alloc).under(size),
    }
}

// On the way to where a place is.
#[cycle(expression)]
fn way_temporaries(
    alloc: Global,
    variables: &[Variable],
    place: &Place,
) -> Result<Temporaries, AllocError>
    ensures { IfOk result (λ r. r ≡ specs.way_temporaries variables.now (view_place place.now)) }
{
    match place {
        Place::Variable { .. } => Ok(Temporaries::none(alloc)),
        Place::Object { .. } => Ok(Temporaries::none(alloc)),
        Place::Literal { .. } => Ok(Temporaries::none(alloc)),
        Place::Pointed { pointer, .. } => expression_temporaries(alloc, variables, pointer),
        Place::Arrow { pointer, .. } => expression_temporaries(alloc, variables, pointer),
        Place::Member { place, .. } => way_temporaries(alloc, variables, place),
        Place::Element { place, index, .. } => Ok(way_temporaries(alloc, variables, place)?.and(
            expression_temporaries(alloc, variables, index)?,
        )),
        Place::Subscript { pointer, index, .. } => Ok(expression_temporaries(
            alloc, variables, pointer,
        )?.and(expression_temporaries(alloc, variables, index)?)),
    }
}

// Of a number of this type at a place.
#[cycle(expression)]
fn place_temporaries(
    alloc: Global,
    variables: &[Variable],
    type_: IntegerType,
    place: &Place,
) -> Result<Temporaries, AllocError>
    ensures { IfOk result (λ r. r ≡ specs.both (specs.way_temporaries variables.now (view_place place.now)) (specs.number_temporaries variables.now type_ (view_place place.now))) }
{
    let way = way_temporaries(alloc, variables, place)?;
    Ok(way.and(access_temporaries(alloc, type_.size(), access_to(variables, place))?))
}

/// Of an expression.
#[cycle(expression)]
fn expression_temporaries(
    alloc: Global,
    variables: &[Variable],
    expr: &CoreExpr,
) -> Result<Temporaries, AllocError>
    ensures { IfOk result (λ r. r ≡ specs.temporaries variables.now (view expr.now)) }
{
    match expr {
        CoreExpr::Constant { .. } => Ok(Temporaries::none(alloc)),
        CoreExpr::Read { type_, place } => place_temporaries(alloc, variables, *type_, place),
        CoreExpr::Convert { operand, .. } => expression_temporaries(alloc, variables, operand),
        CoreExpr::Sign { operand, .. } => expression_temporaries(alloc, variables, operand),
        CoreExpr::IsZero { operand, .. } => expression_temporaries(alloc, variables, operand),
        CoreExpr::Arithmetic { left, right, .. } => Ok(expression_temporaries(
            alloc, variables, left,
        )?.and(expression_temporaries(alloc, variables, right)?)),
        CoreExpr::Compare { left, right, .. } => Ok(expression_temporaries(
            alloc, variables, left,
        )?.and(expression_temporaries(alloc, variables, right)?)),
        CoreExpr::Logical { left, right, .. } => Ok(expression_temporaries(
            alloc, variables, left,
        )?.and(expression_temporaries(alloc, variables, right)?)),
        CoreExpr::Choice { test, yes, no, .. } => {
            let branches = expression_temporaries(alloc, variables, yes)?.and(
                expression_temporaries(alloc, variables, no)?,
            );
            Ok(expression_temporaries(alloc, variables, test)?.and(branches))
        }
        CoreExpr::Assign {
            type_,
            place,
            value,
            ..
        } => Ok(expression_temporaries(alloc, variables, value)?.and(place_temporaries(
            alloc, variables, *type_, place,
        )?)),
        CoreExpr::Update {
            type_,
            place,
            value,
            ..
        } => Ok(expression_temporaries(alloc, variables, value)?.and(place_temporaries(
            alloc, variables, *type_, place,
        )?)),
        CoreExpr::Step { type_, place, .. } => place_temporaries(alloc, variables, *type_, place),
        CoreExpr::Comma { left, right, .. } => Ok(expression_temporaries(
            alloc, variables, left,
        )?.and(expression_temporaries(alloc, variables, right)?)),
        CoreExpr::Assertion { condition, .. } => expression_temporaries(
            alloc, variables, condition,
        ),
        CoreExpr::Assumption { condition, .. } => expression_temporaries(
            alloc, variables, condition,
        ),
        CoreExpr::Draw { .. } => Ok(Temporaries::none(alloc)),
        CoreExpr::Member { value, .. } => structure_temporaries(alloc, variables, value)?.under(
            structure_size(value),
        ),
        CoreExpr::Discard { operand, .. } => expression_temporaries(alloc, variables, operand),
        CoreExpr::DiscardStructure { value } => {
            structure_temporaries(alloc, variables, value)?.under(structure_size(value))
        }
        CoreExpr::Call {
            type_,
            arguments,
            ..
        } => call_temporaries(alloc, variables, value_size(*type_), arguments),
        CoreExpr::FunctionName { .. } => Ok(Temporaries::none(alloc)),
        CoreExpr::SizeOf { .. } => Ok(Temporaries::none(alloc)),
        CoreExpr::SizeOfStructure { .. } => Ok(Temporaries::none(alloc)),
        CoreExpr::Address { place, .. } => way_temporaries(alloc, variables, place),
        CoreExpr::Sum { pointer, index, .. } => Ok(expression_temporaries(
            alloc, variables, pointer,
        )?.and(expression_temporaries(alloc, variables, index)?)),
        CoreExpr::Distance { left, right, .. } => Ok(expression_temporaries(
            alloc, variables, left,
        )?.and(expression_temporaries(alloc, variables, right)?)),
        CoreExpr::Relation { left, right, .. } => Ok(expression_temporaries(
            alloc, variables, left,
        )?.and(expression_temporaries(alloc, variables, right)?)),
        CoreExpr::PointerUpdate { place, value, .. } => Ok(expression_temporaries(
            alloc, variables, value,
        )?.and(place_temporaries(alloc, variables, IntegerType::UnsignedLong, place)?)),
        CoreExpr::PointerStep { place, .. } => {
            place_temporaries(alloc, variables, IntegerType::UnsignedLong, place)
        }
        CoreExpr::Allocate { size, .. } => Ok(expression_temporaries(
            alloc, variables, size,
        )?.making()),
        CoreExpr::AllocateZeroed { count, size, .. } => {
            Ok(
                expression_temporaries(alloc, variables, count)?
                    .and(expression_temporaries(alloc, variables, size)?)
                    .making(),
            )
        }
        CoreExpr::Release { pointer, .. } => expression_temporaries(alloc, variables, pointer),
        CoreExpr::Exit { status, .. } => expression_temporaries(alloc, variables, status),
        CoreExpr::Abort { .. } => Ok(Temporaries::none(alloc)),
    }
}

/// Of a call that hands over so many bytes.
#[cycle(expression)]
fn call_temporaries(
    alloc: Global,
    variables: &[Variable],
    size: u32,
    arguments: &[CoreArgument],
) -> Result<Temporaries, AllocError>
    ensures { IfOk result (λ r. r ≡ specs.call_needs size (arguments_of arguments.now) (specs.arguments_temporaries variables.now (arguments_of arguments.now))) }
{
    let temporaries = arguments_temporaries(alloc, variables, arguments)?.under(size)?;
    let sizes = argument_sizes(alloc, arguments)?;
    Ok(temporaries.under_all(sizes)?.clearing(size))
}

#[cycle(expression)]
fn arguments_temporaries(
    alloc: Global,
    variables: &[Variable],
    arguments: &[CoreArgument],
) -> Result<Temporaries, AllocError>
    ensures { IfOk result (λ r. r ≡ specs.arguments_temporaries variables.now (arguments_of arguments.now)) }
{
    let mut temporaries = Temporaries::none(alloc);
    for place in (0..arguments.len()).rev() {
        temporaries = argument_temporaries(alloc, variables, &arguments[place])?.and(temporaries);
    }
    Ok(temporaries)
}

#[cycle(expression)]
fn argument_temporaries(
    alloc: Global,
    variables: &[Variable],
    argument: &CoreArgument,
) -> Result<Temporaries, AllocError>
    ensures { IfOk result (λ r. (rest : _) → specs.arguments_temporaries variables.now (with_argument argument.now rest) ≡ specs.both r (specs.arguments_temporaries variables.now rest)) }
{
    match argument {
        CoreArgument::Number { value } => expression_temporaries(alloc, variables, value),
        CoreArgument::Structure { value } => structure_temporaries(alloc, variables, value),
    }
}

/// Of a structure value.
#[cycle(expression)]
fn structure_temporaries(
    alloc: Global,
    variables: &[Variable],
    structure: &CoreStructure,
) -> Result<Temporaries, AllocError>
    ensures { IfOk result (λ r. r ≡ specs.structure_temporaries variables.now (view_structure structure.now)) }
{
    match structure {
        CoreStructure::Read { place, .. } => way_temporaries(alloc, variables, place),
        CoreStructure::Choice { test, yes, no, .. } => {
            let branches = structure_temporaries(alloc, variables, yes)?.and(structure_temporaries(
                alloc, variables, no,
            )?);
            Ok(expression_temporaries(alloc, variables, test)?.and(branches))
        }
        CoreStructure::Assign { place, value, .. } => Ok(structure_temporaries(
            alloc, variables, value,
        )?.and(way_temporaries(alloc, variables, place)?)),
        CoreStructure::Comma { left, right, .. } => Ok(expression_temporaries(
            alloc, variables, left,
        )?.and(structure_temporaries(alloc, variables, right)?)),
        CoreStructure::Member { value, .. } => structure_temporaries(
            alloc, variables, value,
        )?.under(structure_size(value)),
        CoreStructure::List { size, parts, .. } => Ok(parts_temporaries(
            alloc, variables, parts,
        )?.clearing(*size)),
        CoreStructure::String { size, .. } => Ok(Temporaries::none(alloc).clearing(*size)),
        CoreStructure::Call {
            size,
            arguments,
            ..
        } => call_temporaries(alloc, variables, *size, arguments),
    }
}

#[cycle(expression)]
fn parts_temporaries(
    alloc: Global,
    variables: &[Variable],
    parts: &[CorePart],
) -> Result<Temporaries, AllocError>
    ensures { IfOk result (λ r. r ≡ specs.parts_temporaries variables.now (parts_of parts.now)) }
{
    let mut temporaries = Temporaries::none(alloc);
    for place in (0..parts.len()).rev() {
        temporaries = part_temporaries(alloc, variables, &parts[place])?.and(temporaries);
    }
    Ok(temporaries)
}

#[cycle(expression)]
fn part_temporaries(
    alloc: Global,
    variables: &[Variable],
    part: &CorePart,
) -> Result<Temporaries, AllocError>
    ensures { IfOk result (λ r. (rest : _) → specs.parts_temporaries variables.now (with_part part.now rest) ≡ specs.both r (specs.parts_temporaries variables.now rest)) }
{
    match part {
        CorePart::Number { value, .. } => expression_temporaries(alloc, variables, value),
        CorePart::Structure { value, .. } => structure_temporaries(alloc, variables, value),
    }
}

// Of the first number of a variable.
fn initial_temporaries(
    alloc: Global,
    size: u32,
    home: Option<u32>,
) -> Result<Temporaries, AllocError>
    ensures { IfOk result (λ r. r ≡ specs.initial_temporaries size home) }
{
    match home {
        Some(_) => Temporaries::none(alloc).under(size),
        None => Ok(Temporaries::none(alloc)),
    }
}

/// Of a part of a loop, which may be missing.
fn loop_part_temporaries(
    alloc: Global,
    variables: &[Variable],
    part: &Option<Box<CoreExpr>>,
) -> Result<Temporaries, AllocError>
    ensures { IfOk result (λ r. r ≡ specs.part_temporaries variables.now (option_map boxed part.now)) }
{
    match part {
        Some(value) => expression_temporaries(alloc, variables, value),
        None => Ok(Temporaries::none(alloc)),
    }
}

/// Of a statement.
#[cycle(statement)]
pub fn statement_temporaries(
    alloc: Global,
    variables: &[Variable],
    statement: &CoreStatement,
) -> Result<Temporaries, AllocError>
    ensures { IfOk result (λ r. r ≡ specs.statement_temporaries variables.now (view_statement statement.now)) }
{
    match statement {
        CoreStatement::Block { items } => items_temporaries(alloc, variables, items),
        CoreStatement::If { test, yes, .. } => {
            Ok(expression_temporaries(alloc, variables, test)?.and(statement_temporaries(
                alloc, variables, yes,
            )?))
        }
        CoreStatement::IfElse { test, yes, no, .. } => {
            let branches = statement_temporaries(alloc, variables, yes)?.and(statement_temporaries(
                alloc, variables, no,
            )?);
            Ok(expression_temporaries(alloc, variables, test)?.and(branches))
        }
        CoreStatement::Evaluate { expression } => expression_temporaries(
            alloc, variables, expression,
        ),
        CoreStatement::Return { value, .. } => expression_temporaries(alloc, variables, value),
        CoreStatement::ReturnStructure { value, .. } => structure_temporaries(
            alloc, variables, value,
        ),
        CoreStatement::ReturnNothing { .. } => Ok(Temporaries::none(alloc)),
        CoreStatement::For {
            first,
            test,
            last,
            body,
            ..
        } => {
            let round = loop_part_temporaries(alloc, variables, last)?.and(statement_temporaries(
                alloc, variables, body,
            )?);
            let rounds = loop_part_temporaries(alloc, variables, test)?.and(round);
            Ok(loop_part_temporaries(alloc, variables, first)?.and(rounds))
        }
        CoreStatement::Do { body, test, .. } => Ok(statement_temporaries(
            alloc, variables, body,
        )?.and(expression_temporaries(alloc, variables, test)?)),
        CoreStatement::Switch { value, items, .. } => Ok(expression_temporaries(
            alloc, variables, value,
        )?.and(items_temporaries(alloc, variables, items)?)),
        CoreStatement::Break { .. } => Ok(Temporaries::none(alloc)),
        CoreStatement::Continue { .. } => Ok(Temporaries::none(alloc)),
        CoreStatement::Goto { .. } => Ok(Temporaries::none(alloc)),
        CoreStatement::Stray { statement, .. } => statement_temporaries(
            alloc, variables, statement,
        ),
    }
}

#[cycle(statement)]
fn items_temporaries(
    alloc: Global,
    variables: &[Variable],
    items: &[CoreItem],
) -> Result<Temporaries, AllocError>
    ensures { IfOk result (λ r. r ≡ specs.items_temporaries variables.now (items_of items.now)) }
{
    let mut temporaries = Temporaries::none(alloc);
    for place in (0..items.len()).rev() {
        temporaries = item_temporaries(alloc, variables, &items[place])?.and(temporaries);
    }
    Ok(temporaries)
}

#[cycle(statement)]
#[tactic(auto, using(crate::proofs::Greater::none_first))]
fn item_temporaries(
    alloc: Global,
    variables: &[Variable],
    item: &CoreItem,
) -> Result<Temporaries, AllocError>
    ensures { IfOk result (λ r. (rest : _) → specs.items_temporaries variables.now (with_item item.now rest) ≡ specs.both r (specs.items_temporaries variables.now rest)) }
{
    match item {
        CoreItem::Declare { .. } => Ok(Temporaries::none(alloc)),
        CoreItem::Initialize {
            variable,
            value,
            ..
        } => Ok(expression_temporaries(alloc, variables, value)?.and(initial_temporaries(
            alloc,
            number_size(value),
            home_in(variables, *variable),
        )?)),
        CoreItem::InitializeStructure { value, .. } => structure_temporaries(
            alloc, variables, value,
        )?.under(structure_size(value)),
        CoreItem::Statement { statement } => statement_temporaries(alloc, variables, statement),
        CoreItem::Label { .. } => Ok(Temporaries::none(alloc)),
        CoreItem::Case { .. } => Ok(Temporaries::none(alloc)),
        CoreItem::Default { .. } => Ok(Temporaries::none(alloc)),
    }
}
