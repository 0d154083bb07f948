//! The plans of calls: their arguments, their start, and what they give.

ghost use Rattle.std.specs.Prelude.{◌≡◌, ◌+◌, ◌-◌, true, Some, None, IfOk, drop, slice_get, slice_index, is_some};
ghost use Rattle.core_tree.specs.Trees.{arguments_of, items_of, call, give};
ghost use Rattle.c_tasks.specs.declared.task.Plan.TheVariants as Plan;
ghost use Rattle.c_tasks.specs.declared.task.Stacked.TheVariants as Stacked;
ghost use Rattle.c_tasks.specs.declared.task.Taken.TheVariants as Taken;
ghost use Rattle.c_tasks.specs.declared.task.Task.TheVariants as Task;
ghost use Rattle.c_tasks.specs.declared.task.Written.TheVariants as Written;
ghost use Rattle.c_tasks.specs.Items.{Item, evaluates, evaluates_structure, wants_end, blocks_on, gathers, adds_number, gets, switches, enters_parameters, ends_parameters, leaves_parameters, line_of};
ghost use Rattle.c_tasks.specs.Steps.{move_call};
ghost use Rattle.c_meaning.specs.Meaning.{body_of};
ghost use Rattle.c_tasks.specs.Tasks.{item_of, want_of, how_of};
ghost use Rattle.c_tasks.specs.Plans.{FitsIn, PlansItem, Plans, IsOfCall, file_in, code_in, running_in, active_in, items_behind, values_on, structures_on};

use c_tasks::{
    Block, Call, Cut, Halt, Handed, Look, Part, Plan, Request, Stacked, Taken, Task, Wanted,
    Written, evaluating, evaluation, integer_of, number_type_of, plan_passed_bound, pushes, puts,
    stacks, takes, top_of,
};
use c_types::{IntegerType, ValueType};
use c_values::{Number, low_bytes, read_block};
use core_tree::{CoreArgument, CoreItem};
use std::alloc::AllocError;
use words::Class;

// The arguments of a call from one on are to be evaluated.
fn gathering<'a>(
    want: Wanted,
    function: u32,
    arguments: &'a Vec<CoreArgument>,
    from: usize,
) -> Task<'a>
    ensures { result ≡ Task.Gather want function arguments.entry from }
{
    Task::Gather {
        want,
        function,
        arguments,
        from,
    }
}

// A call begins with its first argument.
fn plan_gather<'a>(
    _look: &Look,
    want: Wanted,
    function: u32,
    arguments: &'a Vec<CoreArgument>,
) -> Plan<'a>
    ensures { result ≡ Plan.Goes (record {
      tasks = record { first = Some (Task.Gather want function arguments.entry 0); second = None; third = None };
      taken = Taken.None;
      put = None;
      stacked = Stacked.Kept;
      written = Written.Nothing;
    }) }
{
    pushes(
        Taken::None,
        gathering(want, function, arguments, 0),
        None,
        None,
    )
}

/// A call for a number begins.
pub fn plan_number_call<'a>(
    look: &Look,
    line: u32,
    function: u32,
    used: bool,
    type_: ValueType,
    arguments: &'a Vec<CoreArgument>,
) -> Plan<'a>
    ensures { PlansItem look.now (evaluates (call line function used type_ (arguments_of arguments.now.items))) result }
{
    let want = Wanted::Number {
        line,
        used,
        type_: integer_of(type_),
    };
    plan_gather(look, want, function, arguments)
}

/// A call for a structure value begins.
pub fn plan_structure_call<'a>(
    look: &Look,
    line: u32,
    function: u32,
    used: bool,
    size: u32,
    arguments: &'a Vec<CoreArgument>,
) -> Plan<'a>
    ensures { PlansItem look.now (evaluates_structure (give line function used size (arguments_of arguments.now.items))) result }
{
    let want = Wanted::Structure { line, used, size };
    plan_gather(look, want, function, arguments)
}

fn line_of(want: Wanted) -> u32
    ensures { result ≡ line_of (want_of want) }
{
    match want {
        Wanted::Number { line, .. } => line,
        Wanted::Structure { line, .. } => line,
        Wanted::End { line } => line,
    }
}

// How many more activations of a function may be opened.
fn left_of(look: &Look, function: u32) -> u64
    ensures { result ≡ slice_index look.now.left.now function }
{
    match look.left.get(function as usize) {
        Some(left) => *left,
        None => 0,
    }
}

fn has_body(look: &Look, function: u32) -> bool
    ensures { result ≡ is_some (body_of (slice_get (file_in look.now).functions function)) }
{
    match look.functions.get(function as usize) {
        Some(found) => found.body.is_some(),
        None => false,
    }
}

// A function is called with so many structure values on top.
fn plan_call<'a>(look: &Look, want: Wanted, function: u32, count: usize) -> Plan<'a>
    ensures { (i : Item) → Plans look.now i (move_call (code_in look.now) look.now.first true (want_of want) function (blocks_on count (structures_on look.now)) (items_behind look.now) (active_in look.now) (values_on look.now) (drop count (structures_on look.now)) look.now.variables.now) result }
{
    if left_of(look, function) == 0 {
        return plan_passed_bound(look, Class::Recursion, line_of(want));
    }
    if has_body(look, function) {
        Plan::Calls(Call {
            want,
            function,
            count,
        })
    } else {
        Plan::Halts(Halt::Breaks(Class::Assertion, line_of(want)))
    }
}

// The next argument, or the call where there is none.
fn plan_argument<'a>(
    look: &Look,
    want: Wanted,
    function: u32,
    arguments: &'a Vec<CoreArgument>,
    from: usize,
) -> Plan<'a>
    ensures { PlansItem look.now (gathers (want_of want) function from (arguments_of (drop from arguments.now.items))) result }
{
    let Some(argument) = arguments.get(from) else {
        return plan_call(look, want, function, from);
    };
    match argument {
        CoreArgument::Number { value } => {
            let add = Task::Add {
                want,
                function,
                type_: number_type_of(value),
                arguments,
                next: from + 1,
            };
            pushes(Taken::None, evaluating(value), Some(add), None)
        }
        CoreArgument::Structure { value } => {
            let more = gathering(want, function, arguments, from + 1);
            pushes(Taken::None, evaluation(value), Some(more), None)
        }
    }
}

/// The number on top becomes the argument before the next one.
pub fn plan_add<'a>(
    look: &Look,
    want: Wanted,
    function: u32,
    type_: IntegerType,
    arguments: &'a Vec<CoreArgument>,
    next: usize,
) -> Result<Plan<'a>, AllocError>
    requires { FitsIn look.now (adds_number (want_of want) function (next - 1) type_ (arguments_of (drop (next - 1 + 1) arguments.now.items))) }
    ensures { IfOk result (λ p. PlansItem look.now (adds_number (want_of want) function (next - 1) type_ (arguments_of (drop (next - 1 + 1) arguments.now.items))) p) }
{
    let bits = top_of(look.numbers).bits();
    let block = Block::of_number(look.alloc, type_.size() as usize, bits)?;
    let more = gathering(want, function, arguments, next.max(1));
    Ok(stacks(
        Some(more),
        Taken::One,
        None,
        Stacked::Pushed(block),
        Written::Nothing,
    ))
}

// The end of the thread's first call, with the thread's value.
fn plan_thread_end<'a>(look: &Look, line: u32, how: Handed) -> Plan<'a>
    ensures { PlansItem look.now (gets (wants_end line) (how_of how)) result }
{
    match how {
        Handed::Nothing => stacks(
            Some(Task::End(line, 0)),
            Taken::None,
            None,
            Stacked::Kept,
            Written::Nothing,
        ),
        Handed::Number => stacks(
            Some(Task::End(line, top_of(look.numbers).bits())),
            Taken::One,
            None,
            Stacked::Kept,
            Written::Nothing,
        ),
        Handed::Structure => stacks(
            Some(Task::End(line, 0)),
            Taken::None,
            None,
            Stacked::Taken,
            Written::Nothing,
        ),
    }
}

/// What a call has given comes on top; where it gave nothing, and that is used, a check breaks.
pub fn plan_get<'a>(look: &Look, want: Wanted, how: Handed) -> Result<Plan<'a>, AllocError>
    requires { FitsIn look.now (gets (want_of want) (how_of how)) }
    ensures { IfOk result (λ p. PlansItem look.now (gets (want_of want) (how_of how)) p) }
{
    match (want, how) {
        (Wanted::End { line }, _) => Ok(plan_thread_end(look, line, how)),
        (Wanted::Number { type_, .. }, Handed::Number) => {
            let bits = top_of(look.numbers).bits();
            let bytes = low_bytes(look.alloc, type_.size() as usize, bits)?;
            Ok(puts(Taken::One, read_block(&bytes, 0, type_)))
        }
        (Wanted::Structure { .. }, Handed::Structure) => Ok(takes(Taken::None)),
        (Wanted::Number { line, used, type_ }, Handed::Nothing) => {
            if used {
                Ok(Plan::Halts(Halt::Breaks(Class::Return, line)))
            } else {
                Ok(puts(Taken::None, Number::new(type_, 0)))
            }
        }
        (Wanted::Structure { line, used, size }, Handed::Nothing) => {
            if used {
                return Ok(Plan::Halts(Halt::Breaks(Class::Return, line)));
            }
            let zeros = Block::new(look.alloc, size)?;
            Ok(stacks(
                None,
                Taken::None,
                None,
                Stacked::Pushed(zeros),
                Written::Nothing,
            ))
        }
        _ => unreachable!(),
    }
}

// The line of the running function's name.
fn line_of_function(look: &Look) -> u32
    ensures { result ≡ (running_in look.now).line }
{
    match look.functions.get(look.function as usize) {
        Some(function) => function.line,
        None => 0,
    }
}

// The objects of the variables of a switch's items die.
fn plan_leave<'a>(_look: &Look, items: &'a Vec<CoreItem>) -> Plan<'a>
    ensures { PlansItem _look.now (switches (items_of items.now.items)) result }
{
    let task = Task::Items {
        items,
        from: 0,
        part: Part::Exit,
    };
    pushes(Taken::None, task, None, None)
}

// The parameters from one on up to another become objects.
#[tactic(auto, using(crate::proofs::Parameters::entered, crate::proofs::Parameters::all_entered))]
fn plan_parameters<'a>(look: &Look, from: usize, end: usize) -> Plan<'a>
    ensures { PlansItem look.now (enters_parameters (end - from) from) result }
{
    if end <= from {
        return takes(Taken::None);
    }
    let settle = Task::Settle(line_of_function(look), from);
    let next = Task::EnterParameters(from + 1, end);
    pushes(Taken::None, settle, Some(next), None)
}

// The objects of the parameters from one on up to another die, the last one first.
#[tactic(auto, using(crate::proofs::Parameters::dying, crate::proofs::Parameters::all_dead))]
fn plan_last<'a>(look: &Look, from: usize, end: usize) -> Plan<'a>
    ensures { PlansItem look.now (leaves_parameters (end - from) from) result }
{
    if end <= from {
        return takes(Taken::None);
    }
    let die = Task::Die(line_of_function(look), from);
    let others = Task::LeaveParameters(from + 1, end);
    pushes(Taken::None, others, Some(die), None)
}

// The objects of so many parameters die.
#[tactic(auto, using(crate::proofs::Parameters::first_of_all))]
fn plan_ends<'a>(_look: &Look, count: usize) -> Plan<'a>
    ensures { PlansItem _look.now (ends_parameters count) result }
{
    pushes(Taken::None, Task::LeaveParameters(0, count), None, None)
}

/// The plan of a task of a call or an end.
pub fn plan_call_task<'a>(look: &Look, task: &Task<'a>) -> Plan<'a>
    requires { IsOfCall task.now }
    ensures { PlansItem look.now (item_of task.now) result }
{
    match task {
        Task::Switched(items) => plan_leave(look, *items),
        Task::EnterParameters(from, end) => plan_parameters(look, *from, *end),
        Task::EndParameters(count) => plan_ends(look, *count),
        Task::LeaveParameters(from, end) => plan_last(look, *from, *end),
        Task::Stray => Plan::Halts(Halt::Breaks(Class::Assertion, line_of_function(look))),
        Task::Begin { function, line } => {
            plan_call(look, Wanted::End { line: *line }, *function, 0)
        }
        Task::Gather {
            want,
            function,
            arguments,
            from,
        } => plan_argument(look, *want, *function, *arguments, *from),
        Task::Resume { .. } => Plan::Cuts(Cut::Return(Handed::Nothing)),
        Task::Out(cut) => Plan::Cuts(*cut),
        Task::End(line, value) => {
            let request = if look.first {
                Request::Exit
            } else {
                Request::End(*value)
            };
            Plan::Halts(Halt::Asks(request, *line))
        }
        Task::Ended(value) => Plan::Halts(Halt::Ends(if look.first { 0 } else { *value })),
        _ => unreachable!(),
    }
}
