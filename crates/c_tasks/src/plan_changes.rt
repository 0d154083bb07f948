//! Plans as they are put together: what is pushed, put and taken, and what is looked at.

ghost use Rattle.std.specs.Prelude.{◌≡◌, ◌<◌, ◌≤◌, ◌^◌, true, false, Some, None, length, slice_get};
ghost use Rattle.std.specs.Option.{option_and_then};
ghost use Rattle.core_tree.specs.declared.functions.Variable.{Variable};
ghost use Rattle.core_tree.specs.Trees.{view, view_place};
ghost use Rattle.c_values.specs.Variables.{drawn_count};
ghost use Rattle.c_meaning.specs.Meaning as meaning;
ghost use Rattle.c_meaning.specs.Meaning.{number_type, size_of, size_in_list, home_of, held_pointer, variable_of};
ghost use Rattle.c_tasks.specs.Items.{top, second, top_bytes, Item};
ghost use Rattle.c_tasks.specs.Steps.{stops};
ghost use Rattle.c_tasks.specs.Tasks.{values_in, structures_in};
ghost use Rattle.c_tasks.specs.Plans.{Plans, code_in, running_in, structures_on};

use crate::task::{Change, Halt, Look, Plan, Stacked, Taken, Task, Tasks, Written};
use crate::variables::{Block, read_variable};
use c_types::{IntegerType, ValueType};
use c_values::{Number, drawn_count};
use core_tree::{CoreExpr, CoreStructure, LogicalOperator, Place, Variable};
use words::Class;

// ---- changes

/// Other tasks come first.
pub fn pushes<'a>(
    taken: Taken,
    first: Task<'a>,
    second: Option<Task<'a>>,
    third: Option<Task<'a>>,
) -> Plan<'a>
    ensures { result ≡ Plan.Goes (record {
      tasks = record { first = Some first.entry; second = second.entry; third = third.entry };
      taken = taken;
      put = None;
      stacked = Stacked.Kept;
      written = Written.Nothing;
    }) }
{
    Plan::Goes(Change {
        tasks: Tasks {
            first: Some(first),
            second,
            third,
        },
        taken,
        put: None,
        stacked: Stacked::Kept,
        written: Written::Nothing,
    })
}

/// A number is put on top.
pub fn puts<'a>(taken: Taken, number: Number) -> Plan<'a>
    ensures { result ≡ Plan.Goes (record {
      tasks = record { first = None; second = None; third = None };
      taken = taken;
      put = Some number;
      stacked = Stacked.Kept;
      written = Written.Nothing;
    }) }
{
    Plan::Goes(Change {
        tasks: Tasks {
            first: None,
            second: None,
            third: None,
        },
        taken,
        put: Some(number),
        stacked: Stacked::Kept,
        written: Written::Nothing,
    })
}

/// Numbers are taken.
pub fn takes<'a>(taken: Taken) -> Plan<'a>
    ensures { result ≡ Plan.Goes (record {
      tasks = record { first = None; second = None; third = None };
      taken = taken;
      put = None;
      stacked = Stacked.Kept;
      written = Written.Nothing;
    }) }
{
    Plan::Goes(Change {
        tasks: Tasks {
            first: None,
            second: None,
            third: None,
        },
        taken,
        put: None,
        stacked: Stacked::Kept,
        written: Written::Nothing,
    })
}

/// A variable is written.
pub fn writes<'a>(
    first: Option<Task<'a>>,
    taken: Taken,
    put: Option<Number>,
    written: Written,
) -> Plan<'a>
    ensures { result ≡ Plan.Goes (record {
      tasks = record { first = first.entry; second = None; third = None };
      taken = taken;
      put = put;
      stacked = Stacked.Kept;
      written = written;
    }) }
{
    Plan::Goes(Change {
        tasks: Tasks {
            first,
            second: None,
            third: None,
        },
        taken,
        put,
        stacked: Stacked::Kept,
        written,
    })
}

/// The structure values that wait change.
pub fn stacks<'a>(
    first: Option<Task<'a>>,
    taken: Taken,
    put: Option<Number>,
    stacked: Stacked,
    written: Written,
) -> Plan<'a>
    ensures { result ≡ Plan.Goes (record {
      tasks = record { first = first.entry; second = None; third = None };
      taken = taken;
      put = put;
      stacked = stacked;
      written = written;
    }) }
{
    Plan::Goes(Change {
        tasks: Tasks {
            first,
            second: None,
            third: None,
        },
        taken,
        put,
        stacked,
        written,
    })
}

/// A bound of the command is passed: the check of this class breaks, or the thread blocks.
pub fn plan_passed_bound<'a>(look: &Look, class: Class, line: u32) -> Plan<'a>
    ensures { (i : Item) → Plans look.now i (stops (code_in look.now) look.now.first true class line) result }
{
    if look.bounds.assertions() {
        Plan::Halts(Halt::Breaks(class, line))
    } else {
        Plan::Halts(Halt::Blocks)
    }
}

// ---- tasks

/// An expression is to be evaluated.
pub fn evaluating<'a>(expression: &'a CoreExpr) -> Task<'a>
    ensures { result ≡ Task.Expression expression.entry false }
{
    Task::Expression {
        expression,
        finish: false,
    }
}

/// The operands of an expression are evaluated.
pub fn finishing<'a>(expression: &'a CoreExpr) -> Task<'a>
    ensures { result ≡ Task.Expression expression.entry true }
{
    Task::Expression {
        expression,
        finish: true,
    }
}

/// A structure value is to be evaluated.
pub fn evaluation<'a>(value: &'a CoreStructure) -> Task<'a>
    ensures { result ≡ Task.Structure value.entry false }
{
    Task::Structure {
        value,
        complete: false,
    }
}

/// An operand is evaluated, and then the expression is finished.
pub fn operand_first<'a>(operand: &'a CoreExpr, expression: &'a CoreExpr) -> Plan<'a>
    ensures { result ≡ Plan.Goes (record {
      tasks = record { first = Some (Task.Expression operand.entry false); second = Some (Task.Expression expression.entry true); third = None };
      taken = Taken.None;
      put = None;
      stacked = Stacked.Kept;
      written = Written.Nothing;
    }) }
{
    pushes(
        Taken::None,
        evaluating(operand),
        Some(finishing(expression)),
        None,
    )
}

/// A structure value is evaluated, and then the expression is finished.
pub fn structure_first<'a>(value: &'a CoreStructure, expression: &'a CoreExpr) -> Plan<'a>
    ensures { result ≡ Plan.Goes (record {
      tasks = record { first = Some (Task.Structure value.entry false); second = Some (Task.Expression expression.entry true); third = None };
      taken = Taken.None;
      put = None;
      stacked = Stacked.Kept;
      written = Written.Nothing;
    }) }
{
    pushes(
        Taken::None,
        evaluation(value),
        Some(finishing(expression)),
        None,
    )
}

/// Two operands are evaluated, and then the expression is finished.
pub fn operands_first<'a>(
    left: &'a CoreExpr,
    right: &'a CoreExpr,
    expression: &'a CoreExpr,
) -> Plan<'a>
    ensures { result ≡ Plan.Goes (record {
      tasks = record { first = Some (Task.Expression left.entry false); second = Some (Task.Expression right.entry false); third = Some (Task.Expression expression.entry true) };
      taken = Taken.None;
      put = None;
      stacked = Stacked.Kept;
      written = Written.Nothing;
    }) }
{
    pushes(
        Taken::None,
        evaluating(left),
        Some(evaluating(right)),
        Some(finishing(expression)),
    )
}

/// A place is to be evaluated.
pub fn locating<'a>(place: &'a Place) -> Task<'a>
    ensures { result ≡ Task.Place place.entry false }
{
    Task::Place {
        place,
        finish: false,
    }
}

/// A place is evaluated, and then the expression is finished.
pub fn place_first<'a>(place: &'a Place, expression: &'a CoreExpr) -> Plan<'a>
    ensures { result ≡ Plan.Goes (record {
      tasks = record { first = Some (Task.Place place.entry false); second = Some (Task.Expression expression.entry true); third = None };
      taken = Taken.None;
      put = None;
      stacked = Stacked.Kept;
      written = Written.Nothing;
    }) }
{
    pushes(
        Taken::None,
        locating(place),
        Some(finishing(expression)),
        None,
    )
}

/// A place and an operand are evaluated, and then the expression is finished.
pub fn place_and_operand<'a>(
    place: &'a Place,
    operand: &'a CoreExpr,
    expression: &'a CoreExpr,
) -> Plan<'a>
    ensures { result ≡ Plan.Goes (record {
      tasks = record { first = Some (Task.Place place.entry false); second = Some (Task.Expression operand.entry false); third = Some (Task.Expression expression.entry true) };
      taken = Taken.None;
      put = None;
      stacked = Stacked.Kept;
      written = Written.Nothing;
    }) }
{
    pushes(
        Taken::None,
        locating(place),
        Some(evaluating(operand)),
        Some(finishing(expression)),
    )
}

/// An expression takes the place of the number on top, of which something is then done.
pub fn instead<'a>(expression: &'a CoreExpr, task: Task<'a>) -> Plan<'a>
    ensures { result ≡ Plan.Goes (record {
      tasks = record { first = Some (Task.Expression expression.entry false); second = Some task.entry; third = None };
      taken = Taken.One;
      put = None;
      stacked = Stacked.Kept;
      written = Written.Nothing;
    }) }
{
    pushes(Taken::One, evaluating(expression), Some(task), None)
}

// ---- what is looked at

/// The number on top.
#[tactic(auto, using(crate::proofs::Tops::values_push))]
pub fn top_of(numbers: &[Number]) -> Number
    ensures { result ≡ top (values_in numbers.now) }
{
    match numbers.split_last() {
        Some((number, _)) => *number,
        None => Number::new(IntegerType::Int, 0),
    }
}

/// The number below the one on top.
#[tactic(auto, using(crate::proofs::Tops::values_push))]
pub fn second_of(numbers: &[Number]) -> Number
    ensures { result ≡ second (values_in numbers.now) }
{
    match numbers.split_last() {
        Some((_, rest)) => top_of(rest),
        None => Number::new(IntegerType::Int, 0),
    }
}

/// The size of a variable of the running function.
pub fn size_of_variable(look: &Look, variable: u32) -> u32
    ensures { result ≡ size_of (running_in look.now) variable }
{
    match look.functions.get(look.function as usize) {
        Some(function) => size_in(&function.variables, variable),
        None => 0,
    }
}

/// The variable that holds the address of a variable of the running function, where it has one.
pub fn home_of_variable(look: &Look, variable: usize) -> Option<u32>
    ensures { result ≡ home_of (running_in look.now) variable }
{
    match look.functions.get(look.function as usize) {
        Some(function) => home_in(&function.variables, variable),
        None => None,
    }
}

fn home_in(variables: &[Variable], variable: usize) -> Option<u32>
    ensures { result ≡ option_and_then (λ (x : Variable). x.home) (slice_get variables.now variable) }
{
    match variables.get(variable) {
        Some(found) => found.home,
        None => None,
    }
}

/// The pointer that a variable holds.
pub fn held_pointer(look: &Look, home: u32) -> u64
    ensures is { result ≡ held_pointer (running_in look.now) look.now.variables.now home }
    ensures small { result < 2 ^ 64 }
{
    read_variable(look.variables, home, 0, IntegerType::UnsignedLong).bits()
}

/// The variable without an address within which a place lies, where no pointer tells where it is.
pub fn variable_of(look: &Look, place: &Place) -> Option<u32>
    ensures { result ≡ variable_of (running_in look.now) (view_place place.now) }
{
    match place {
        Place::Variable { variable, .. } => match home_of_variable(look, *variable as usize) {
            None => Some(*variable),
            Some(_) => None,
        },
        Place::Member { place, .. } => variable_of(look, place),
        Place::Element { place, .. } => variable_of(look, place),
        Place::Object { .. }
        | Place::Literal { .. }
        | Place::Pointed { .. }
        | Place::Arrow { .. }
        | Place::Subscript { .. } => None,
    }
}

/// How many bytes of a variable are drawn in the word that begins at an offset of it.
pub fn count_drawn(look: &Look, variable: u32, offset: usize) -> u32
    requires { offset < size_of (running_in look.now) variable }
    ensures is { result ≡ drawn_count (size_of (running_in look.now) variable) offset }
    ensures positive { 1 ≤ result }
    ensures at_most_8 { result ≤ 8 }
    ensures small { offset < 2 ^ 32 }
{
    drawn_count(size_of_variable(look, variable), offset as u32)
}

/// How many bytes the structure value on top has.
#[tactic(auto, using(crate::proofs::Tops::structures_push))]
pub fn size_of_top(structures: &[Block]) -> usize
    ensures { result ≡ length (top_bytes (structures_in structures.now)) }
{
    match structures.split_last() {
        Some((top, _)) => top.len(),
        None => 0,
    }
}

/// How many bytes of an object of this size are drawn in the next word, behind those of the structure value on
/// top.
pub fn count_more(look: &Look, size: u32) -> u32
    requires { length (top_bytes (structures_on look.now)) < size }
    ensures is { result ≡ drawn_count size (length (top_bytes (structures_on look.now))) }
    ensures positive { 1 ≤ result }
    ensures at_most_8 { result ≤ 8 }
{
    drawn_count(size, size_of_top(look.structures) as u32)
}

fn size_in(variables: &[Variable], variable: u32) -> u32
    ensures { result ≡ size_in_list (slice_get variables.now variable) }
{
    match variables.get(variable as usize) {
        Some(found) => found.size,
        None => 0,
    }
}

/// The integer type of an expression.
pub fn number_type_of(expr: &CoreExpr) -> IntegerType
    ensures { result ≡ number_type (view expr.now) }
{
    match expr {
        CoreExpr::Constant { type_, .. } => *type_,
        CoreExpr::Read { type_, .. } => *type_,
        CoreExpr::Convert { to, .. } => *to,
        CoreExpr::Sign { operand, .. } => number_type_of(operand),
        CoreExpr::Arithmetic { left, .. } => number_type_of(left),
        CoreExpr::Choice { yes, .. } => number_type_of(yes),
        CoreExpr::Assign { type_, .. } => *type_,
        CoreExpr::Update { type_, .. } => *type_,
        CoreExpr::Step { type_, .. } => *type_,
        CoreExpr::Comma { right, .. } => number_type_of(right),
        CoreExpr::Draw { type_, .. } => *type_,
        CoreExpr::Member { type_, .. } => *type_,
        CoreExpr::Call { type_, .. } => integer_of(*type_),
        CoreExpr::SizeOf { .. } => IntegerType::UnsignedLong,
        CoreExpr::SizeOfStructure { .. } => IntegerType::UnsignedLong,
        CoreExpr::Address { .. } => IntegerType::UnsignedLong,
        CoreExpr::Sum { .. } => IntegerType::UnsignedLong,
        CoreExpr::Distance { .. } => IntegerType::Long,
        CoreExpr::PointerUpdate { .. } => IntegerType::UnsignedLong,
        CoreExpr::PointerStep { .. } => IntegerType::UnsignedLong,
        CoreExpr::Allocate { .. } => IntegerType::UnsignedLong,
        CoreExpr::AllocateZeroed { .. } => IntegerType::UnsignedLong,
        _ => IntegerType::Int,
    }
}

/// The integer type of what a call gives.
pub fn integer_of(type_: ValueType) -> IntegerType
    ensures { result ≡ meaning.integer_of type_ }
{
    match type_ {
        ValueType::Void => IntegerType::Int,
        ValueType::Integer(t) => t,
    }
}

/// Whether the left operand decides.
pub fn decides(operator: LogicalOperator, number: Number) -> bool
    ensures { result ≡ meaning.decides operator number.bits }
{
    match operator {
        LogicalOperator::And => !number.is_true(),
        LogicalOperator::Or => number.is_true(),
    }
}
