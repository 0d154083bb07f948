//! What is done with pointers: sums, differences and relations.

ghost use Rattle.std.specs.Prelude.{◌≡◌, ℤ, ◌∷◌, true, Some, None};
ghost use Rattle.core_tree.specs.Trees.{view_place};
ghost use Rattle.core_tree.specs.Operations.{number};
ghost use Rattle.c_types.specs.declared.integers.IntegerType.TheVariants.{UnsignedLong};
ghost use Rattle.c_values.specs.Numbers.{typed};
ghost use Rattle.c_meaning.specs.Meaning.{range_class};
ghost use Rattle.c_tasks.specs.Items as items;
ghost use Rattle.c_tasks.specs.Items.{rest, Item, state, elements, looks, lands, shifts, paces, advances, arrives, measures, orders};
ghost use Rattle.c_tasks.specs.Steps.{move_pointer};
ghost use Rattle.c_tasks.specs.Tasks.{values_in, without};
ghost use Rattle.c_tasks.specs.Plans.{FitsIn, PlansItem, Plans, code_in, active_in, items_behind, values_on, structures_on};

use crate::places::{plan_changed, plan_left, plan_read, pointer, second_bits, top_bits};
use c_tasks::{Halt, Look, Plan, Request, Taken, Task, Tasks, puts, second_of, top_of};
use c_types::IntegerType;
use c_values::{Number, compare, elements_between, moved, object_of, offset_of};
use core_tree::{Comparison, Place};
use words::Class;

// ---- a pointer and an index

// The pointer that is moved: the number below the index, or on top.
fn base_of(numbers: &[Number], swapped: bool) -> Number
    ensures { result ≡ items.base swapped (values_in numbers.now) }
{
    if swapped {
        top_of(numbers)
    } else {
        second_of(numbers)
    }
}

fn base_bits(numbers: &[Number], swapped: bool) -> u64
    ensures { result ≡ (items.base swapped (values_in numbers.now)).bits }
{
    base_of(numbers, swapped).bits()
}

// The index by which it is.
fn index_of(numbers: &[Number], swapped: bool) -> Number
    ensures { result ≡ items.index swapped (values_in numbers.now) }
{
    if swapped {
        second_of(numbers)
    } else {
        top_of(numbers)
    }
}

// The numbers below the one on top.
#[tactic(auto, using(c_tasks::proofs::Tops::values_push, c_tasks::proofs::Tops::no_values))]
fn below_top(numbers: &[Number]) -> &[Number]
    ensures { values_in result.now ≡ rest (values_in numbers.now) }
{
    match numbers.split_last() {
        Some((_, below)) => below,
        None => numbers,
    }
}

// The class that a sum breaks, or an element's place.
fn class_of_range(element: bool) -> Class
    ensures { result ≡ range_class element }
{
    if element {
        Class::Bounds
    } else {
        Class::Pointer
    }
}

// A pointer is moved by an index, where its object has so many bytes; so many numbers are taken.
fn plan_moved<'a>(
    look: &Look,
    at: u64,
    size: u64,
    index: Number,
    step: i64,
    element: bool,
    line: u32,
    taken: Taken,
) -> Plan<'a>
    ensures { (i : Item) → Plans look.now i (move_pointer (code_in look.now) look.now.first true element at size (number index.type index.bits) step line (λ q. state (items_behind look.now) (active_in look.now) (typed UnsignedLong q ∷ without taken (values_on look.now)) (structures_on look.now) look.now.variables.now)) result }
{
    match moved(at, index, step, size) {
        Some(found) => puts(taken, pointer(found)),
        None => Plan::Halts(Halt::Breaks(class_of_range(element), line)),
    }
}

/// The place of the element of an array, which is below its index, or above it.
pub fn plan_element<'a>(look: &Look, line: u32, size: u32, whole: u32, swapped: bool) -> Plan<'a>
    ensures { PlansItem look.now (elements line size whole swapped) result }
{
    let at = base_bits(look.numbers, swapped);
    let index = index_of(look.numbers, swapped);
    plan_moved(
        look,
        at,
        whole as u64,
        index,
        size as i64,
        true,
        line,
        Taken::Two,
    )
}

/// The object of a pointer that is to be moved is looked at, whatever the step.
pub fn plan_look<'a>(look: &Look, line: u32, element: bool, swapped: bool) -> Plan<'a>
    ensures { (step : ℤ) → PlansItem look.now (looks line step element swapped) result }
{
    let base = base_bits(look.numbers, swapped);
    Plan::Halts(Halt::Asks(Request::Look(base, element), line))
}

/// The object of a pointer that is to be moved is looked at.
pub fn plan_move<'a>(look: &Look, line: u32, _step: i64, element: bool, swapped: bool) -> Plan<'a>
    ensures { PlansItem look.now (looks line _step element swapped) result }
{
    plan_look(look, line, element, swapped)
}

/// A pointer is moved, where the size of its object is on top.
pub fn plan_land<'a>(look: &Look, line: u32, step: i64, element: bool, swapped: bool) -> Plan<'a>
    ensures { PlansItem look.now (lands line step element swapped) result }
{
    let numbers = below_top(look.numbers);
    let at = base_bits(numbers, swapped);
    let index = index_of(numbers, swapped);
    plan_moved(
        look,
        at,
        top_bits(look),
        index,
        step,
        element,
        line,
        Taken::Three,
    )
}

// ---- the pointer at a place

/// The pointer at a place that is evaluated comes above an index, by which it is then moved and stored.
pub fn plan_shift<'a>(look: &Look, line: u32, place: &'a Place, step: i64) -> Plan<'a>
    ensures { PlansItem look.now (shifts line (view_place place.now) step) result }
{
    let type_ = IntegerType::UnsignedLong;
    let at = second_bits(look);
    let tasks = Tasks {
        first: Some(Task::Move {
            line,
            step,
            element: false,
            swapped: true,
        }),
        second: Some(Task::Store { line, type_, place }),
        third: None,
    };
    plan_read(look, type_, place, at, Taken::None, tasks)
}

/// The pointer at a place that is evaluated, which is then moved by one step.
pub fn plan_pace<'a>(look: &Look, line: u32, place: &'a Place, step: i64, before: bool) -> Plan<'a>
    ensures { PlansItem look.now (paces line (view_place place.now) step before) result }
{
    let type_ = IntegerType::UnsignedLong;
    let at = top_bits(look);
    let tasks = Tasks {
        first: Some(Task::Advance {
            line,
            place,
            step,
            before,
            at,
        }),
        second: None,
        third: None,
    };
    plan_read(look, type_, place, at, Taken::One, tasks)
}

/// The object of the pointer on top is looked at.
pub fn plan_advance<'a>(
    look: &Look,
    line: u32,
    _place: &'a Place,
    _step: i64,
    _before: bool,
    _at: u64,
) -> Plan<'a>
    ensures { PlansItem look.now (advances line (view_place _place.now) _step _before _at) result }
{
    Plan::Halts(Halt::Asks(Request::Look(top_bits(look), false), line))
}

/// The pointer below the size of its object is moved by one step.
pub fn plan_arrive<'a>(
    look: &Look,
    line: u32,
    place: &'a Place,
    step: i64,
    before: bool,
    at: u64,
) -> Plan<'a>
    ensures { PlansItem look.now (arrives line (view_place place.now) step before at) result }
{
    let type_ = IntegerType::UnsignedLong;
    let one = Number::new(IntegerType::UnsignedInt, 1);
    match moved(second_bits(look), one, step, top_bits(look)) {
        None => Plan::Halts(Halt::Breaks(Class::Pointer, line)),
        Some(found) => {
            let new = pointer(found);
            if before {
                plan_changed(line, type_, place, new, at, Taken::Two)
            } else {
                plan_left(line, type_, place, new, at, Taken::One)
            }
        }
    }
}

// ---- two pointers

/// How many elements lie between two pointers to one object.
pub fn plan_measure<'a>(look: &Look, line: u32, step: u32) -> Plan<'a>
    requires { FitsIn look.now (measures line step) }
    ensures { PlansItem look.now (measures line step) result }
{
    let left = second_bits(look);
    let right = top_bits(look);
    if object_of(left) != object_of(right) {
        return Plan::Halts(Halt::Breaks(Class::Pointer, line));
    }
    let between = elements_between(left, right, step);
    puts(Taken::Two, Number::new(IntegerType::Long, between))
}

/// Which of two pointers to one object comes first.
pub fn plan_order<'a>(look: &Look, line: u32, operator: Comparison) -> Plan<'a>
    ensures { PlansItem look.now (orders line operator) result }
{
    let left = second_bits(look);
    let right = top_bits(look);
    if object_of(left) != object_of(right) {
        return Plan::Halts(Halt::Breaks(Class::Pointer, line));
    }
    let left = pointer(offset_of(left) as u64);
    let right = pointer(offset_of(right) as u64);
    puts(Taken::Two, Number::of_truth(compare(operator, left, right)))
}
