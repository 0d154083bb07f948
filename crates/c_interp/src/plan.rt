//! What a task does next: a break, an action, or a change of what is to be done.

ghost use Rattle.std.specs.Prelude.{◌<◌, ◌+◌, IfOk, List, length};
ghost use Rattle.c_tasks.specs.Plans.{TakesNoMemory};
ghost use Rattle.c_tasks.specs.Tasks.{item_of};
ghost use Rattle.c_tasks.specs.Plans.{FitsIn, PlansItem};
ghost use Rattle.c_interp.specs.Planned.{IsAtPlace};

use c_plan_expr::{
    plan_add, plan_admit, plan_advance, plan_arrive, plan_call_task, plan_combine, plan_draw_words,
    plan_expression, plan_finish, plan_get, plan_increment, plan_initial_structure, plan_land,
    plan_list, plan_make, plan_move, plan_place, plan_place_finish, plan_place_number,
    plan_place_structure, plan_rewrite, plan_store, plan_structure_task, plan_try,
};
use c_plan_flow::{
    plan_death, plan_entry, plan_exit, plan_fill, plan_initial, plan_items, plan_settle, plan_stage,
};
use c_tasks::{Look, Part, Plan, Taken, Task, pushes, puts, takes, top_of};
use c_values::Number;
use std::alloc::AllocError;

/// The plan of a task.
pub fn plan_task<'a>(look: &Look, task: &Task<'a>) -> Result<Plan<'a>, AllocError>
    requires few { length look.now.objects.now + length look.now.literals.now < 4294967295 }
    requires fits { FitsIn look.now (item_of task.now) }
    ensures { IfOk result (λ p. PlansItem look.now (item_of task.now) p) }
{
    match task {
        Task::Structure { value, complete } => plan_structure_task(look, *value, *complete),
        Task::Admit { line, zeroed } => plan_admit(look, *line, *zeroed),
        Task::Add {
            want,
            function,
            type_,
            arguments,
            next,
        } => plan_add(look, *want, *function, *type_, *arguments, *next),
        Task::Get(want, how) => plan_get(look, *want, *how),
        _ => Ok(plan_other(look, task)),
    }
}

// The plan of a task that takes no memory.
fn plan_other<'a>(look: &Look, task: &Task<'a>) -> Plan<'a>
    requires few { length look.now.objects.now + length look.now.literals.now < 4294967295 }
    requires fits { FitsIn look.now (item_of task.now) }
    requires other { TakesNoMemory task.now }
    ensures { PlansItem look.now (item_of task.now) result }
{
    let x = top_of(look.numbers);
    match task {
        Task::Expression { expression, finish } => {
            if *finish {
                plan_finish(look, *expression)
            } else {
                plan_expression(look, *expression)
            }
        }
        Task::Drop => takes(Taken::One),
        Task::List(parts, from) => plan_list(look, *parts, *from),
        Task::PlaceNumber(offset, type_) => plan_place_number(look, *offset, *type_),
        Task::PlaceStructure(offset) => plan_place_structure(look, *offset),
        Task::Test => puts(Taken::One, Number::of_truth(x.is_true())),
        Task::Retype(type_) => puts(Taken::One, x.retyped(*type_)),
        Task::Statement { statement, stage } => plan_stage(look, *statement, *stage),
        Task::Items { items, from, part } => match part {
            Part::Entry => plan_entry(look, *items, *from),
            Part::Body => plan_items(look, *items, *from),
            Part::End => pushes(
                Taken::None,
                Task::Items {
                    items: *items,
                    from: *from,
                    part: Part::Exit,
                },
                None,
                None,
            ),
            Part::Exit => plan_exit(look, *items, *from),
        },
        Task::Settle(line, variable) => plan_settle(look, *line, *variable),
        Task::Initialize(line, variable, type_) => plan_initial(look, *line, *variable, *type_),
        Task::InitializeStructure(line, variable) => {
            plan_initial_structure(look, *line, *variable)
        }
        Task::Die(line, variable) => plan_death(look, *line, *variable),
        Task::Fill(words, line, variable, offset) => {
            plan_fill(look, *words, *line, *variable, *offset)
        }
        _ => plan_at_place(look, task),
    }
}

// The plan of a task of a place, of a pointer or of an object.
fn plan_at_place<'a>(look: &Look, task: &Task<'a>) -> Plan<'a>
    requires few { length look.now.objects.now + length look.now.literals.now < 4294967295 }
    requires fits { FitsIn look.now (item_of task.now) }
    requires at_place { IsAtPlace task.now }
    ensures { PlansItem look.now (item_of task.now) result }
{
    match task {
        Task::Place { place, finish } => {
            if *finish {
                plan_place_finish(look, *place)
            } else {
                plan_place(look, *place)
            }
        }
        Task::Store { line, type_, place } => plan_store(look, *line, *type_, *place),
        Task::Rewrite {
            line,
            type_,
            place,
            at,
        } => plan_rewrite(look, *line, *type_, *place, *at),
        Task::Combine {
            line,
            type_,
            place,
            operator,
            operand,
        } => plan_combine(look, *line, *type_, *place, *operator, *operand),
        Task::Increment {
            line,
            type_,
            place,
            operator,
            before,
            at,
        } => plan_increment(look, *line, *type_, *place, *operator, *before, *at),
        Task::Move {
            line,
            step,
            element,
            swapped,
        } => plan_move(look, *line, *step, *element, *swapped),
        Task::Land {
            line,
            step,
            element,
            swapped,
        } => plan_land(look, *line, *step, *element, *swapped),
        Task::Advance {
            line,
            place,
            step,
            before,
            at,
        } => plan_advance(look, *line, *place, *step, *before, *at),
        Task::Arrive {
            line,
            place,
            step,
            before,
            at,
        } => plan_arrive(look, *line, *place, *step, *before, *at),
        Task::Try { line, zeroed } => plan_try(look, *line, *zeroed),
        Task::DrawWords { words, size, line } => plan_draw_words(look, *words, *size, *line),
        Task::Make { line } => plan_make(look, *line),
        _ => plan_call_task(look, task),
    }
}
