//! What is done with values of structures.

ghost use Rattle.std.specs.Prelude.{◌≡◌, true, false, Some, None, IfOk, take, drop};
ghost use Rattle.core_tree.specs.Trees.{view_place, view_structure, parts_of, list};
ghost use Rattle.c_values.specs.Variables.{number_at, block_of};
ghost use Rattle.c_values.specs.Numbers.{typed};
ghost use Rattle.c_tasks.specs.declared.task.Plan.TheVariants as Plan;
ghost use Rattle.c_tasks.specs.declared.task.Stacked.TheVariants as Stacked;
ghost use Rattle.c_tasks.specs.declared.task.Taken.TheVariants as Taken;
ghost use Rattle.c_tasks.specs.declared.task.Task.TheVariants as Task;
ghost use Rattle.c_tasks.specs.declared.task.Written.TheVariants as Written;
ghost use Rattle.c_tasks.specs.Items.{top_bytes, evaluates_structure, picks, discards_structure, copies, stores_structure, cuts, lists, places_number, places_structure, initial_structure};
ghost use Rattle.c_tasks.specs.Tasks.{completion_of, structure_item, structures_in};
ghost use Rattle.c_tasks.specs.Plans.{FitsIn, PlansItem, IsByPart};

use crate::calls::plan_structure_call;
use crate::places::{is_within, line_of_place, top_bits};
use c_tasks::{
    Block, Halt, Look, Plan, Request, Stacked, Taken, Task, Written, evaluating, evaluation,
    held_pointer, home_of_variable, locating, number_type_of, pushes, size_of_top, stacks, takes,
    top_of, variable_of,
};
use c_types::IntegerType;
use c_values::{Number, offset_of, read_block};
use core_tree::{CoreExpr, CorePart, CoreStructure, Place};
use std::alloc::{AllocError, Global};
use words::Class;

// ---- what is looked at

// The number of a type at an offset of the structure value on top.
#[tactic(auto, using(c_tasks::proofs::Tops::structures_push))]
fn read_top(structures: &[Block], offset: u32, type_: IntegerType) -> Number
    ensures { result ≡ typed type_ (number_at type_ offset (top_bytes (structures_in structures.now))) }
{
    match structures.split_last() {
        Some((top, _)) => top.read(offset as usize, type_),
        None => read_block(&[], offset as usize, type_),
    }
}

// So many bytes from an offset of the structure value on top on.
#[tactic(auto, using(c_tasks::proofs::Tops::structures_push))]
fn section_of_top(
    alloc: Global,
    structures: &[Block],
    offset: u32,
    size: u32,
) -> Result<Block, AllocError>
    ensures { IfOk result (λ block. block ≡ take size (drop offset (top_bytes (structures_in structures.now)))) }
{
    match structures.split_last() {
        Some((top, _)) => top.section(alloc, offset, size),
        None => Block::new(alloc, 0),
    }
}

// So many bytes from an offset of a variable on.
fn section_of_variable(
    look: &Look,
    variable: u32,
    offset: u32,
    size: u32,
) -> Result<Block, AllocError>
    ensures { IfOk result (λ block. block ≡ take size (drop offset (block_of look.now.variables.now variable))) }
{
    match look.variables.get(variable as usize) {
        Some(block) => block.section(look.alloc, offset, size),
        None => Block::new(look.alloc, 0),
    }
}

// ---- structure values

/// The plan of a structure value that is to be evaluated, or completed.
pub fn plan_structure_task<'a>(
    look: &Look,
    value: &'a CoreStructure,
    complete: bool,
) -> Result<Plan<'a>, AllocError>
    requires { FitsIn look.now (structure_item (view_structure value.now) complete) }
    ensures { IfOk result (λ p. PlansItem look.now (structure_item (view_structure value.now) complete) p) }
{
    if complete {
        plan_complete(look, value)
    } else {
        plan_structure(look, value)
    }
}

// The plan of a structure value that is to be evaluated.
fn plan_structure<'a>(look: &Look, value: &'a CoreStructure) -> Result<Plan<'a>, AllocError>
    requires { FitsIn look.now (evaluates_structure (view_structure value.now)) }
    ensures { IfOk result (λ p. PlansItem look.now (evaluates_structure (view_structure value.now)) p) }
{
    match value {
        CoreStructure::List { line, size, parts } => plan_started(look, *line, *size, parts),
        CoreStructure::String { size, bytes, .. } => {
            let block = Block::of_string(look.alloc, *size, bytes)?;
            Ok(plan_pushed(block))
        }
        CoreStructure::Call {
            line,
            function,
            used,
            size,
            arguments,
        } => Ok(plan_structure_call(look, *line, *function, *used, *size, arguments)),
        _ => Ok(plan_first_part(look, value)),
    }
}

// A structure value comes on top.
fn plan_pushed<'a>(block: Block) -> Plan<'a>
    ensures { result ≡ Plan.Goes (record {
      tasks = record { first = None; second = None; third = None };
      taken = Taken.None;
      put = None;
      stacked = Stacked.Pushed block;
      written = Written.Nothing;
    }) }
{
    stacks(
        None,
        Taken::None,
        None,
        Stacked::Pushed(block),
        Written::Nothing,
    )
}

// Bytes that are 0 come on top, into which the parts of a list are put.
fn plan_started<'a>(
    look: &Look,
    line: u32,
    size: u32,
    parts: &'a Vec<CorePart>,
) -> Result<Plan<'a>, AllocError>
    ensures { IfOk result (λ p. PlansItem look.now (evaluates_structure (list line size (parts_of parts.now.items))) p) }
{
    let zeros = Block::new(look.alloc, size)?;
    Ok(stacks(
        Some(Task::List(parts, 0)),
        Taken::None,
        None,
        Stacked::Pushed(zeros),
        Written::Nothing,
    ))
}

// The task of a structure value whose first part is evaluated.
fn completion<'a>(value: &'a CoreStructure) -> Task<'a>
    ensures { result ≡ Task.Structure value.entry true }
{
    Task::Structure {
        value,
        complete: true,
    }
}

// A number is evaluated, and then the structure value is completed.
fn number_first<'a>(operand: &'a CoreExpr, value: &'a CoreStructure) -> Plan<'a>
    ensures { result ≡ Plan.Goes (record {
      tasks = record { first = Some (Task.Expression operand.entry false); second = Some (Task.Structure value.entry true); third = None };
      taken = Taken.None;
      put = None;
      stacked = Stacked.Kept;
      written = Written.Nothing;
    }) }
{
    pushes(
        Taken::None,
        evaluating(operand),
        Some(completion(value)),
        None,
    )
}

// Another structure value is evaluated, and then this one is completed.
fn inner_first<'a>(inner: &'a CoreStructure, value: &'a CoreStructure) -> Plan<'a>
    ensures { result ≡ Plan.Goes (record {
      tasks = record { first = Some (Task.Structure inner.entry false); second = Some (Task.Structure value.entry true); third = None };
      taken = Taken.None;
      put = None;
      stacked = Stacked.Kept;
      written = Written.Nothing;
    }) }
{
    pushes(
        Taken::None,
        evaluation(inner),
        Some(completion(value)),
        None,
    )
}

// The plan of a structure value of which a test, an operand that isn't used or another structure value is
// evaluated first.
fn plan_first_part<'a>(look: &Look, value: &'a CoreStructure) -> Plan<'a>
    requires { IsByPart (view_structure value.now) }
    ensures { PlansItem look.now (evaluates_structure (view_structure value.now)) result }
{
    match value {
        CoreStructure::Read { place, .. } => {
            pushes(Taken::None, locating(place), Some(completion(value)), None)
        }
        CoreStructure::Choice { test, .. } => number_first(test, value),
        CoreStructure::Assign {
            place,
            value: inner,
            ..
        } => pushes(
            Taken::None,
            locating(place),
            Some(evaluation(inner)),
            Some(completion(value)),
        ),
        CoreStructure::Comma { left, .. } => number_first(left, value),
        CoreStructure::Member { value: inner, .. } => inner_first(inner, value),
        _ => unreachable!(),
    }
}

// The plan of a structure value whose first part is evaluated.
fn plan_complete<'a>(look: &Look, value: &'a CoreStructure) -> Result<Plan<'a>, AllocError>
    requires { FitsIn look.now (completion_of (view_structure value.now)) }
    ensures { IfOk result (λ p. PlansItem look.now (completion_of (view_structure value.now)) p) }
{
    match value {
        CoreStructure::Choice { yes, no, .. } => {
            if top_of(look.numbers).is_true() {
                Ok(pushes(Taken::One, evaluation(yes), None, None))
            } else {
                Ok(pushes(Taken::One, evaluation(no), None, None))
            }
        }
        CoreStructure::Read { place, size } => plan_copy(look, place, *size),
        CoreStructure::Assign { line, place, .. } => Ok(plan_put(look, *line, place)),
        CoreStructure::Comma { right, .. } => Ok(pushes(Taken::One, evaluation(right), None, None)),
        CoreStructure::Member { offset, size, .. } => plan_cut(look, *offset, *size),
        _ => Ok(takes(Taken::One)),
    }
}

// The bytes of a place that is evaluated come on top.
fn plan_copy<'a>(look: &Look, place: &Place, size: u32) -> Result<Plan<'a>, AllocError>
    ensures { IfOk result (λ p. PlansItem look.now (copies (view_place place.now) size) p) }
{
    let at = top_bits(look);
    let line = line_of_place(place);
    match variable_of(look, place) {
        None => Ok(Plan::Halts(Halt::Asks(Request::Read(at, size), line))),
        Some(variable) => {
            if is_within(look, variable, at, size as usize) {
                plan_copied(look, variable, offset_of(at), size)
            } else {
                Ok(Plan::Halts(Halt::Breaks(Class::Bounds, line)))
            }
        }
    }
}

// So many bytes of a variable from an offset on come on top, in the place of a number.
fn plan_copied<'a>(
    look: &Look,
    variable: u32,
    offset: u32,
    size: u32,
) -> Result<Plan<'a>, AllocError>
    ensures { IfOk result (λ p. p ≡ Plan.Goes (record {
      tasks = record { first = None; second = None; third = None };
      taken = Taken.One;
      put = None;
      stacked = Stacked.Pushed (take size (drop offset (block_of look.now.variables.now variable)));
      written = Written.Nothing;
    })) }
{
    let block = section_of_variable(look, variable, offset, size)?;
    Ok(stacks(
        None,
        Taken::One,
        None,
        Stacked::Pushed(block),
        Written::Nothing,
    ))
}

// The structure value on top is written at a place that is evaluated.
fn plan_put<'a>(look: &Look, line: u32, place: &Place) -> Plan<'a>
    requires { FitsIn look.now (stores_structure line (view_place place.now)) }
    ensures { PlansItem look.now (stores_structure line (view_place place.now)) result }
{
    let at = top_bits(look);
    match variable_of(look, place) {
        None => Plan::Halts(Halt::Asks(Request::WriteStructure(at, false), line)),
        Some(variable) => {
            if is_within(look, variable, at, size_of_top(look.structures)) {
                plan_placed(variable, offset_of(at))
            } else {
                Plan::Halts(Halt::Breaks(Class::Bounds, line))
            }
        }
    }
}

// The structure value on top is written in a variable; a number is taken.
fn plan_placed<'a>(variable: u32, offset: u32) -> Plan<'a>
    ensures { result ≡ Plan.Goes (record {
      tasks = record { first = None; second = None; third = None };
      taken = Taken.One;
      put = None;
      stacked = Stacked.Kept;
      written = Written.Top variable offset;
    }) }
{
    let top = Written::Top {
        variable,
        offset: offset as usize,
    };
    stacks(None, Taken::One, None, Stacked::Kept, top)
}

// A section takes the place of the structure value on top.
fn plan_cut<'a>(look: &Look, offset: u32, size: u32) -> Result<Plan<'a>, AllocError>
    ensures { IfOk result (λ p. PlansItem look.now (cuts offset size) p) }
{
    let section = section_of_top(look.alloc, look.structures, offset, size)?;
    Ok(stacks(
        None,
        Taken::None,
        None,
        Stacked::Replaced(section),
        Written::Nothing,
    ))
}

// ---- lists

/// The plan of an initializer's list of which the parts from one on are left.
pub fn plan_list<'a>(look: &Look, parts: &'a Vec<CorePart>, from: usize) -> Plan<'a>
    requires { FitsIn look.now (lists (parts_of (drop from parts.now.items))) }
    ensures { PlansItem look.now (lists (parts_of (drop from parts.now.items))) result }
{
    let Some(part) = parts.get(from) else {
        return takes(Taken::None);
    };
    let next = from + 1;
    match part {
        CorePart::Number { offset, value } => pushes(
            Taken::None,
            evaluating(value),
            Some(Task::PlaceNumber(*offset, number_type_of(value))),
            Some(Task::List(parts, next)),
        ),
        CorePart::Structure { offset, value } => pushes(
            Taken::None,
            evaluation(value),
            Some(Task::PlaceStructure(*offset)),
            Some(Task::List(parts, next)),
        ),
    }
}

/// A number is put at an offset of the structure value on top.
pub fn plan_place_number<'a>(look: &Look, offset: u32, type_: IntegerType) -> Plan<'a>
    requires { FitsIn look.now (places_number offset type_) }
    ensures { PlansItem look.now (places_number offset type_) result }
{
    let bits = Stacked::Bits {
        offset: offset as usize,
        count: type_.size() as usize,
        bits: top_of(look.numbers).bits(),
    };
    stacks(None, Taken::One, None, bits, Written::Nothing)
}

/// The structure value on top is put at an offset of the one below it.
pub fn plan_place_structure<'a>(look: &Look, offset: u32) -> Plan<'a>
    requires { FitsIn look.now (places_structure offset) }
    ensures { PlansItem look.now (places_structure offset) result }
{
    let joined = Stacked::Joined {
        offset: offset as usize,
    };
    stacks(None, Taken::None, None, joined, Written::Nothing)
}

// ---- uses

/// The number of a type at an offset of the structure value on top.
pub fn plan_pick<'a>(look: &Look, type_: IntegerType, offset: u32) -> Plan<'a>
    ensures { PlansItem look.now (picks type_ offset) result }
{
    let number = read_top(look.structures, offset, type_);
    stacks(
        None,
        Taken::None,
        Some(number),
        Stacked::Taken,
        Written::Nothing,
    )
}

/// The structure value on top isn't used.
pub fn plan_discard<'a>(look: &Look) -> Plan<'a>
    ensures { PlansItem look.now discards_structure result }
{
    let nothing = Number::new(IntegerType::Int, 0);
    stacks(
        None,
        Taken::None,
        Some(nothing),
        Stacked::Taken,
        Written::Nothing,
    )
}

/// An initializer's structure value is written.
pub fn plan_initial_structure<'a>(look: &Look, line: u32, variable: u32) -> Plan<'a>
    requires { FitsIn look.now (initial_structure line variable) }
    ensures { PlansItem look.now (initial_structure line variable) result }
{
    if let Some(home) = home_of_variable(look, variable as usize) {
        let request = Request::WriteStructure(held_pointer(look, home), true);
        return Plan::Halts(Halt::Asks(request, line));
    }
    let top = Written::Top {
        variable,
        offset: 0,
    };
    stacks(None, Taken::None, None, Stacked::Taken, top)
}
