//! What is done with places: where they are, and what they hold.

ghost use Rattle.std.specs.Prelude.{◌≡◌, ◌+◌, ◌<◌, ◌∷◌, nat_le, true, false, Some, None, length};
ghost use Rattle.core_tree.specs.Trees.{view_place};
ghost use Rattle.core_tree.specs.Typed.{is_place};
ghost use Rattle.c_types.specs.declared.integers.IntegerType.TheVariants.{UnsignedLong};
ghost use Rattle.c_types.specs.Integers.{width, bytes};
ghost use Rattle.c_values.specs.Numbers.{typed};
ghost use Rattle.actions.specs.Pointer.{offset_of};
ghost use Rattle.c_meaning.specs.Meaning as meaning;
ghost use Rattle.c_tasks.specs.Items.{top, second, Item, state, locates, loads, stores, rewrites, updates, combines, steps, increments};
ghost use Rattle.c_tasks.specs.Steps.{move_read, move_write};
ghost use Rattle.c_tasks.specs.Tasks.{place_finish, with_tasks, without};
ghost use Rattle.c_tasks.specs.Fits.{sizes_for};
ghost use Rattle.c_tasks.specs.Plans.{FitsIn, PlansItem, Plans, IsIndexed, file_in, code_in, active_in, running_in, items_behind, values_on, structures_on};

use crate::pointers::{plan_element, plan_look};
use c_tasks::{
    Change, Halt, Look, Plan, Request, Stacked, Taken, Task, Tasks, Written, evaluating,
    held_pointer, home_of_variable, locating, pushes, puts, read_number, second_of,
    size_of_variable, takes, top_of, variable_of, writes,
};
use c_types::{IntegerType, promote};
use c_values::{Number, further, offset_of, operate, pointer_to};
use core_tree::{ArithmeticOperator, CoreExpr, Place};
use words::Class;

/// A number of a pointer, or of an offset of a variable.
pub fn pointer(at: u64) -> Number
    ensures { result ≡ typed UnsignedLong at }
{
    Number::new(IntegerType::UnsignedLong, at)
}

// ---- where a place is

// Where an offset of a variable is.
fn in_variable(look: &Look, variable: u32, offset: u32) -> u64
    ensures { result ≡ meaning.in_variable (running_in look.now) (meaning.home_of (running_in look.now) variable) look.now.variables.now offset }
{
    match home_of_variable(look, variable as usize) {
        None => offset as u64,
        Some(home) => further(held_pointer(look, home), offset),
    }
}

// The number of the first literal's object.
fn first_literal(look: &Look) -> u32
    requires { length look.now.objects.now < 4294967295 }
    ensures { result ≡ (code_in look.now).literals }
{
    look.objects.len() as u32 + 1
}

// A place whose parts are evaluated.
fn finishing<'a>(place: &'a Place) -> Task<'a>
    ensures { result ≡ Task.Place place.entry true }
{
    Task::Place {
        place,
        finish: true,
    }
}

// An operand is evaluated, and then the place is finished.
fn pointer_first<'a>(operand: &'a CoreExpr, place: &'a Place) -> Plan<'a>
    ensures { result ≡ Plan.Goes (record {
      tasks = record { first = Some (Task.Expression operand.entry false); second = Some (Task.Place place.entry true); third = None };
      taken = Taken.None;
      put = None;
      stacked = Stacked.Kept;
      written = Written.Nothing;
    }) }
{
    pushes(
        Taken::None,
        evaluating(operand),
        Some(finishing(place)),
        None,
    )
}

// Two parts are evaluated, and then the place is finished.
fn both_first<'a>(one: Task<'a>, other: Task<'a>, place: &'a Place) -> Plan<'a>
    ensures { result ≡ Plan.Goes (record {
      tasks = record { first = Some one.entry; second = Some other.entry; third = Some (Task.Place place.entry true) };
      taken = Taken.None;
      put = None;
      stacked = Stacked.Kept;
      written = Written.Nothing;
    }) }
{
    pushes(Taken::None, one, Some(other), Some(finishing(place)))
}

/// The plan of a place that is to be evaluated.
pub fn plan_place<'a>(look: &Look, place: &'a Place) -> Plan<'a>
    requires few { length look.now.objects.now + length look.now.literals.now < 4294967295 }
    requires fits { FitsIn look.now (locates (view_place place.now)) }
    ensures { PlansItem look.now (locates (view_place place.now)) result }
{
    match place {
        Place::Variable {
            variable,
            offset,
            ..
        } => puts(Taken::None, pointer(in_variable(look, *variable, *offset))),
        Place::Object { object, offset, .. } => {
            puts(Taken::None, pointer(pointer_to(*object, *offset)))
        }
        Place::Literal { literal, .. } => puts(
            Taken::None,
            pointer(pointer_to(first_literal(look) + *literal, 0)),
        ),
        Place::Pointed { pointer, .. } => pointer_first(pointer, place),
        Place::Arrow { pointer, .. } => pointer_first(pointer, place),
        Place::Member { place: whole, .. } => pushes(
            Taken::None,
            locating(whole),
            Some(finishing(place)),
            None,
        ),
        _ => plan_indexed(look, place),
    }
}

// The plan of an element, whose array and index are evaluated first, the index before that where it stands so.
fn plan_indexed<'a>(_look: &Look, place: &'a Place) -> Plan<'a>
    requires { IsIndexed (view_place place.now) }
    ensures { PlansItem _look.now (locates (view_place place.now)) result }
{
    match place {
        Place::Element {
            place: array,
            index,
            swapped,
            ..
        } => {
            if *swapped {
                both_first(evaluating(index), locating(array), place)
            } else {
                both_first(locating(array), evaluating(index), place)
            }
        }
        Place::Subscript {
            pointer,
            index,
            swapped,
            ..
        } => {
            if *swapped {
                both_first(evaluating(index), evaluating(pointer), place)
            } else {
                both_first(evaluating(pointer), evaluating(index), place)
            }
        }
        _ => unreachable!(),
    }
}

/// The plan of a place whose parts are evaluated.
pub fn plan_place_finish<'a>(look: &Look, place: &'a Place) -> Plan<'a>
    requires { FitsIn look.now (place_finish (view_place place.now)) }
    ensures { PlansItem look.now (place_finish (view_place place.now)) result }
{
    let x = top_of(look.numbers);
    match place {
        Place::Pointed { .. } => puts(Taken::One, x.retyped(IntegerType::UnsignedLong)),
        Place::Arrow { offset, .. } => puts(Taken::One, pointer(further(x.bits(), *offset))),
        Place::Member { offset, .. } => puts(Taken::One, pointer(further(x.bits(), *offset))),
        Place::Element {
            line,
            size,
            whole,
            swapped,
            ..
        } => plan_element(look, *line, *size, *whole, *swapped),
        Place::Subscript { line, swapped, .. } => plan_look(look, *line, true, *swapped),
        Place::Variable { .. } | Place::Object { .. } | Place::Literal { .. } => {
            takes(Taken::One)
        }
    }
}

/// The line of a place's own token.
pub fn line_of_place(place: &Place) -> u32
    ensures { result ≡ meaning.place_line (view_place place.now) }
{
    match place {
        Place::Variable { line, .. } => *line,
        Place::Object { line, .. } => *line,
        Place::Literal { line, .. } => *line,
        Place::Pointed { line, .. } => *line,
        Place::Arrow { line, .. } => *line,
        Place::Member { line, .. } => *line,
        Place::Element { line, .. } => *line,
        Place::Subscript { line, .. } => *line,
    }
}

// ---- what it holds

/// Whether so many bytes of a variable are there, where this tells the offset of the first.
pub fn is_within(look: &Look, variable: u32, at: u64, count: usize) -> bool
    ensures { result ≡ nat_le (offset_of at + count) (meaning.size_of (running_in look.now) variable) }
{
    let size = size_of_variable(look, variable) as usize;
    count <= size && offset_of(at) as usize <= size - count
}

/// Where a place is, by the number on top.
pub fn top_bits(look: &Look) -> u64
    ensures { result ≡ (top (values_on look.now)).bits }
{
    top_of(look.numbers).bits()
}

/// By the number below it.
pub fn second_bits(look: &Look) -> u64
    ensures { result ≡ (second (values_on look.now)).bits }
{
    second_of(look.numbers).bits()
}

/// The number of a place, where that is, comes on top, and then other tasks.
pub fn plan_read<'a>(
    look: &Look,
    type_: IntegerType,
    place: &Place,
    at: u64,
    taken: Taken,
    tasks: Tasks<'a>,
) -> Plan<'a>
    ensures { (i : Item) → Plans look.now i (move_read (code_in look.now) look.now.first true type_ (view_place place.now) at (active_in look.now) look.now.variables.now (λ x. state (with_tasks tasks.entry (items_behind look.now)) (active_in look.now) (typed type_ x ∷ without taken (values_on look.now)) (structures_on look.now) look.now.variables.now)) result }
{
    let line = line_of_place(place);
    let count = type_.size();
    match variable_of(look, place) {
        None => Plan::Halts(Halt::Asks(Request::Read(at, count), line)),
        Some(variable) => {
            if is_within(look, variable, at, count as usize) {
                Plan::Goes(Change {
                    tasks,
                    taken,
                    put: Some(read_number(look.variables, variable, offset_of(at), type_)),
                    stacked: Stacked::Kept,
                    written: Written::Nothing,
                })
            } else {
                Plan::Halts(Halt::Breaks(Class::Bounds, line))
            }
        }
    }
}

// The number on top is written at a place, where that is, and stays.
fn plan_write<'a>(
    look: &Look,
    line: u32,
    type_: IntegerType,
    place: &Place,
    at: u64,
    taken: Taken,
) -> Plan<'a>
    requires wide { width (top (values_on look.now)).type ≡ width type_ }
    requires within { is_place (sizes_for (file_in look.now) look.now.function) (bytes type_) (view_place place.now) ≡ true }
    ensures { (i : Item) → Plans look.now i (move_write (code_in look.now) look.now.first true type_ (view_place place.now) at line (top (values_on look.now)).bits (active_in look.now) look.now.variables.now (λ now. state (items_behind look.now) (active_in look.now) (typed type_ (top (values_on look.now)).bits ∷ without taken (values_on look.now)) (structures_on look.now) now)) result }
{
    match variable_of(look, place) {
        None => Plan::Halts(Halt::Asks(Request::WriteNumber(at, type_, false), line)),
        Some(variable) => {
            let count = type_.size() as usize;
            if is_within(look, variable, at, count) {
                plan_written(look, variable, offset_of(at), type_, taken)
            } else {
                Plan::Halts(Halt::Breaks(Class::Bounds, line))
            }
        }
    }
}

// The number on top is written in a variable, and stays.
fn plan_written<'a>(
    look: &Look,
    variable: u32,
    offset: u32,
    type_: IntegerType,
    taken: Taken,
) -> Plan<'a>
    requires { width (top (values_on look.now)).type ≡ width type_ }
    ensures { result ≡ Plan.Goes (record {
      tasks = record { first = None; second = None; third = None };
      taken = taken;
      put = Some (typed type_ (top (values_on look.now)).bits);
      stacked = Stacked.Kept;
      written = Written.Bits variable offset (bytes type_) (top (values_on look.now)).bits;
    }) }
{
    let number = top_of(look.numbers);
    let bits = Written::Bits {
        variable,
        offset: offset as usize,
        count: type_.size() as usize,
        bits: number.bits(),
    };
    writes(None, taken, Some(number.retyped(type_)), bits)
}

/// The number of a place that is evaluated.
pub fn plan_load<'a>(look: &Look, type_: IntegerType, place: &Place) -> Plan<'a>
    ensures { PlansItem look.now (loads type_ (view_place place.now)) result }
{
    let at = top_bits(look);
    let tasks = Tasks {
        first: None,
        second: None,
        third: None,
    };
    plan_read(look, type_, place, at, Taken::One, tasks)
}

/// A place that is evaluated takes the number above it.
pub fn plan_store<'a>(look: &Look, line: u32, type_: IntegerType, place: &Place) -> Plan<'a>
    requires { FitsIn look.now (stores line type_ (view_place place.now)) }
    ensures { PlansItem look.now (stores line type_ (view_place place.now)) result }
{
    let at = second_bits(look);
    plan_write(look, line, type_, place, at, Taken::Two)
}

/// A place takes the number on top.
pub fn plan_rewrite<'a>(
    look: &Look,
    line: u32,
    type_: IntegerType,
    place: &Place,
    at: u64,
) -> Plan<'a>
    requires { FitsIn look.now (rewrites line type_ (view_place place.now) at) }
    ensures { PlansItem look.now (rewrites line type_ (view_place place.now) at) result }
{
    plan_write(look, line, type_, place, at, Taken::One)
}

// ---- operations on what it holds

/// The number of a place that is evaluated, for an operation with the number above it.
pub fn plan_update<'a>(
    look: &Look,
    line: u32,
    type_: IntegerType,
    place: &'a Place,
    operator: ArithmeticOperator,
    operand: IntegerType,
) -> Plan<'a>
    ensures { PlansItem look.now (updates line type_ (view_place place.now) operator operand) result }
{
    let at = second_bits(look);
    let tasks = Tasks {
        first: Some(Task::Combine {
            line,
            type_,
            place,
            operator,
            operand,
        }),
        second: None,
        third: None,
    };
    plan_read(look, type_, place, at, Taken::None, tasks)
}

/// `=` with an operator, where the place's number is on top, and the other operand below it.
pub fn plan_combine<'a>(
    look: &Look,
    line: u32,
    type_: IntegerType,
    place: &'a Place,
    operator: ArithmeticOperator,
    operand: IntegerType,
) -> Plan<'a>
    requires { FitsIn look.now (combines line type_ (view_place place.now) operator operand) }
    ensures { PlansItem look.now (combines line type_ (view_place place.now) operator operand) result }
{
    let old = top_of(look.numbers).retyped(type_).converted(operand);
    match operate(operator, old, second_of(look.numbers)) {
        Err(class) => Plan::Halts(Halt::Breaks(class, line)),
        Ok(value) => Plan::Goes(Change {
            tasks: Tasks {
                first: Some(Task::Store { line, type_, place }),
                second: None,
                third: None,
            },
            taken: Taken::Two,
            put: Some(value.converted(type_)),
            stacked: Stacked::Kept,
            written: Written::Nothing,
        }),
    }
}

/// The number of a place that is evaluated, for `++` or `--`.
pub fn plan_step<'a>(
    look: &Look,
    line: u32,
    type_: IntegerType,
    place: &'a Place,
    operator: ArithmeticOperator,
    before: bool,
) -> Plan<'a>
    ensures { PlansItem look.now (steps line type_ (view_place place.now) operator before) result }
{
    let at = top_bits(look);
    let tasks = Tasks {
        first: Some(Task::Increment {
            line,
            type_,
            place,
            operator,
            before,
            at,
        }),
        second: None,
        third: None,
    };
    plan_read(look, type_, place, at, Taken::One, tasks)
}

/// `++` or `--`, where the place's number is on top. It stays there where it is the value.
pub fn plan_increment<'a>(
    look: &Look,
    line: u32,
    type_: IntegerType,
    place: &'a Place,
    operator: ArithmeticOperator,
    before: bool,
    at: u64,
) -> Plan<'a>
    requires { FitsIn look.now (increments line type_ (view_place place.now) operator before at) }
    ensures { PlansItem look.now (increments line type_ (view_place place.now) operator before at) result }
{
    let promoted = promote(type_);
    let old = top_of(look.numbers).retyped(type_).converted(promoted);
    match operate(operator, old, Number::new(promoted, 1)) {
        Err(class) => Plan::Halts(Halt::Breaks(class, line)),
        Ok(value) => {
            let new = value.converted(type_);
            if before {
                plan_changed(line, type_, place, new, at, Taken::One)
            } else {
                plan_left(line, type_, place, new, at, Taken::None)
            }
        }
    }
}

/// A place takes another number, which is the value.
pub fn plan_changed<'a>(
    line: u32,
    type_: IntegerType,
    place: &'a Place,
    number: Number,
    at: u64,
    taken: Taken,
) -> Plan<'a>
    ensures { result ≡ Plan.Goes (record {
      tasks = record { first = Some (Task.Rewrite line type_ place.entry at); second = None; third = None };
      taken = taken;
      put = Some number;
      stacked = Stacked.Kept;
      written = Written.Nothing;
    }) }
{
    Plan::Goes(Change {
        tasks: Tasks {
            first: Some(Task::Rewrite {
                line,
                type_,
                place,
                at,
            }),
            second: None,
            third: None,
        },
        taken,
        put: Some(number),
        stacked: Stacked::Kept,
        written: Written::Nothing,
    })
}

/// A place takes another number, below which the value is left.
pub fn plan_left<'a>(
    line: u32,
    type_: IntegerType,
    place: &'a Place,
    number: Number,
    at: u64,
    taken: Taken,
) -> Plan<'a>
    ensures { result ≡ Plan.Goes (record {
      tasks = record { first = Some (Task.Rewrite line type_ place.entry at); second = Some Task.Drop; third = None };
      taken = taken;
      put = Some number;
      stacked = Stacked.Kept;
      written = Written.Nothing;
    }) }
{
    Plan::Goes(Change {
        tasks: Tasks {
            first: Some(Task::Rewrite {
                line,
                type_,
                place,
                at,
            }),
            second: Some(Task::Drop),
            third: None,
        },
        taken,
        put: Some(number),
        stacked: Stacked::Kept,
        written: Written::Nothing,
    })
}
