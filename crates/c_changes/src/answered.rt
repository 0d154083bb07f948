//! What a task does with the answer to its action.

ghost use Rattle.std.specs.Prelude.{◌≡◌, ◌<◌, ◌≤◌, ◌^◌, ◌++◌, true, Some, None, IfOk};
ghost use Rattle.c_types.specs.declared.integers.IntegerType.TheVariants.{Int, UnsignedLong};
ghost use Rattle.c_types.specs.Integers.{width};
ghost use Rattle.core_tree.specs.Operations.{drawn_width};
ghost use Rattle.core_tree.specs.Trees.{view, view_place, view_structure};
ghost use Rattle.c_values.specs.Variables.{low_bytes, number_of, pointer_to};
ghost use Rattle.c_values.specs.Numbers.{typed};
ghost use Rattle.actions.specs.Behaviour.{has_shape, word, size};
ghost use Rattle.c_meaning.specs.Meaning.{drawn, bytes_in, number_in, size_in};
ghost use Rattle.c_tasks.specs.declared.task.Stacked.TheVariants as Stacked;
ghost use Rattle.c_tasks.specs.declared.task.Taken.TheVariants as Taken;
ghost use Rattle.c_tasks.specs.declared.task.Task.TheVariants as Task;
ghost use Rattle.c_tasks.specs.declared.task.Written.TheVariants as Written;
ghost use Rattle.c_tasks.specs.Items.{top_bytes, evaluates, fills, draws, settles};
ghost use Rattle.c_tasks.specs.Tasks.{item_of, finish_of, place_finish, completion_of};
ghost use Rattle.c_tasks.specs.Plans.{FitsIn, structures_on};
ghost use Rattle.c_tasks.specs.Answered.{AnswersItem, AcceptsItem};
ghost use Rattle.c_changes.specs.Asking.{IsAsking, IsOfPointers, IsOfObjects, IsAskingTask};

use actions::Answer;
use c_tasks::{
    Block, Change, Look, Stacked, Taken, Task, Tasks, Written, count_drawn, count_more,
    home_of_variable, top_of,
};
use c_types::IntegerType;
use c_values::{Number, pointer_to, read_block};
use core_tree::{CoreExpr, CoreStructure, Place, step_operation};
use std::alloc::AllocError;

// ---- what an answer gives

// The bits that a Draw gave.
fn drawn_bits(answer: &Answer) -> u64
    ensures { result ≡ drawn answer.now }
{
    match answer {
        Answer::Word(word) => word.bits(),
        _ => 0,
    }
}

#[tactic(auto, using(crate::proofs::DrawnBits::drawn_fits))]
fn drawn_number(answer: &Answer, type_: IntegerType) -> Number
    requires { has_shape (word (drawn_width type_)) answer.now ≡ true }
    ensures value { result.bits ≡ drawn answer.now }
    ensures type_ { result.type ≡ type_ }
{
    Number::new(type_, drawn_bits(answer))
}

// The bytes that a Read gave.
fn bytes_in(answer: &Answer) -> &[u8]
    ensures { result.now ≡ bytes_in answer.now }
{
    match answer {
        Answer::Bytes(bytes) => bytes.as_slice(),
        _ => &[],
    }
}

// The number of a type that they are.
fn read_number(answer: &Answer, type_: IntegerType) -> Number
    ensures { result ≡ typed type_ (number_of type_ (bytes_in answer.now)) }
{
    read_block(bytes_in(answer), 0, type_)
}

// ---- changes

fn change<'a>(
    first: Option<Task<'a>>,
    taken: Taken,
    put: Option<Number>,
    stacked: Stacked,
    written: Written,
) -> Change<'a>
    ensures { result ≡ record { tasks = record { first = first.entry; second = None; third = None }; taken = taken; put = put; stacked = stacked; written = written } }
{
    Change {
        tasks: Tasks {
            first,
            second: None,
            third: None,
        },
        taken,
        put,
        stacked,
        written,
    }
}

// A number comes on top.
fn put_on<'a>(taken: Taken, number: Number) -> Change<'a>
    ensures { result ≡ record { tasks = record { first = None; second = None; third = None }; taken = taken; put = Some number; stacked = Stacked.Kept; written = Written.Nothing } }
{
    change(None, taken, Some(number), Stacked::Kept, Written::Nothing)
}

// A number comes on top, and another task first.
fn put_before<'a>(task: Task<'a>, taken: Taken, number: Number) -> Change<'a>
    ensures { result ≡ record { tasks = record { first = Some task.entry; second = None; third = None }; taken = taken; put = Some number; stacked = Stacked.Kept; written = Written.Nothing } }
{
    change(
        Some(task),
        taken,
        Some(number),
        Stacked::Kept,
        Written::Nothing,
    )
}

// Nothing changes but that numbers are taken.
fn take<'a>(taken: Taken) -> Change<'a>
    ensures { result ≡ record { tasks = record { first = None; second = None; third = None }; taken = taken; put = None; stacked = Stacked.Kept; written = Written.Nothing } }
{
    change(None, taken, None, Stacked::Kept, Written::Nothing)
}

// The size that a Look gave.
fn looked_at(answer: &Answer) -> Number
    requires { has_shape size answer.now ≡ true }
    ensures { result ≡ typed UnsignedLong (size_in answer.now) }
{
    match answer {
        Answer::Size(size) => Number::new(IntegerType::UnsignedLong, *size as u64),
        _ => Number::new(IntegerType::UnsignedLong, 0),
    }
}

// The pointer to the object that an Alloc made.
fn made_pointer(answer: &Answer) -> Number
    ensures { result ≡ typed UnsignedLong (pointer_to (number_in answer.now) 0) }
{
    match answer {
        Answer::Number(number) => { Number::new(IntegerType::UnsignedLong, pointer_to(*number, 0)) }
        _ => Number::new(IntegerType::UnsignedLong, 0),
    }
}

// ---- what an answer changes

// Of an expression that is evaluated.
fn answer_expression<'a>(_look: &Look, expr: &'a CoreExpr, answer: &Answer) -> Change<'a>
    requires { AcceptsItem _look.now (evaluates (view expr.now)) answer.now }
    ensures { AnswersItem _look.now (evaluates (view expr.now)) answer.now result }
{
    match expr {
        CoreExpr::Draw { type_, .. } => put_on(Taken::None, drawn_number(answer, *type_)),
        _ => unreachable!(),
    }
}

// Of an expression whose place is evaluated, and the operand beside it.
fn answer_finish<'a>(look: &Look, expr: &'a CoreExpr, answer: &Answer) -> Change<'a>
    requires asks { IsAsking (view expr.now) }
    requires fits { FitsIn look.now (finish_of (view expr.now)) }
    requires accepts { AcceptsItem look.now (finish_of (view expr.now)) answer.now }
    ensures { AnswersItem look.now (finish_of (view expr.now)) answer.now result }
{
    match expr {
        CoreExpr::Read { type_, .. } => put_on(Taken::One, read_number(answer, *type_)),
        CoreExpr::Assign { type_, .. } => {
            put_on(Taken::Two, top_of(look.numbers).retyped(*type_))
        }
        CoreExpr::Update {
            line,
            type_,
            place,
            operator,
            operand,
            ..
        } => {
            let combine = Task::Combine {
                line: *line,
                type_: *type_,
                place,
                operator: *operator,
                operand: *operand,
            };
            put_before(combine, Taken::None, read_number(answer, *type_))
        }
        CoreExpr::Step {
            line,
            type_,
            place,
            operator,
            before,
        } => {
            let increment = Task::Increment {
                line: *line,
                type_: *type_,
                place,
                operator: step_operation(*operator),
                before: *before,
                at: top_of(look.numbers).bits(),
            };
            put_before(increment, Taken::One, read_number(answer, *type_))
        }
        _ => answer_pointers(look, expr, answer),
    }
}

// Of an expression over pointers.
fn answer_pointers<'a>(look: &Look, expr: &'a CoreExpr, answer: &Answer) -> Change<'a>
    requires asks { IsOfPointers (view expr.now) }
    requires fits { FitsIn look.now (finish_of (view expr.now)) }
    requires accepts { AcceptsItem look.now (finish_of (view expr.now)) answer.now }
    ensures { AnswersItem look.now (finish_of (view expr.now)) answer.now result }
{
    let type_ = IntegerType::UnsignedLong;
    match expr {
        CoreExpr::Sum {
            line,
            step,
            swapped,
            ..
        } => put_before(
            landing(*line, *step, false, *swapped),
            Taken::None,
            looked_at(answer),
        ),
        CoreExpr::PointerUpdate {
            line,
            place,
            step,
            ..
        } => Change {
            tasks: Tasks {
                first: Some(Task::Move {
                    line: *line,
                    step: *step,
                    element: false,
                    swapped: true,
                }),
                second: Some(Task::Store {
                    line: *line,
                    type_,
                    place,
                }),
                third: None,
            },
            taken: Taken::None,
            put: Some(read_number(answer, type_)),
            stacked: Stacked::Kept,
            written: Written::Nothing,
        },
        CoreExpr::PointerStep {
            line,
            place,
            step,
            before,
        } => {
            let advance = Task::Advance {
                line: *line,
                place,
                step: *step,
                before: *before,
                at: top_of(look.numbers).bits(),
            };
            put_before(advance, Taken::One, read_number(answer, type_))
        }
        _ => answer_objects(look, expr, answer),
    }
}

// Of an expression that makes or releases an object, or ends the process.
fn answer_objects<'a>(_look: &Look, expr: &'a CoreExpr, answer: &Answer) -> Change<'a>
    requires asks { IsOfObjects (view expr.now) }
    requires fits { FitsIn _look.now (finish_of (view expr.now)) }
    requires accepts { AcceptsItem _look.now (finish_of (view expr.now)) answer.now }
    ensures { AnswersItem _look.now (finish_of (view expr.now)) answer.now result }
{
    match expr {
        CoreExpr::Allocate { line, .. } => put_before(
            Task::Try {
                line: *line,
                zeroed: false,
            },
            Taken::None,
            drawn_bit(answer),
        ),
        CoreExpr::AllocateZeroed { line, .. } => put_before(
            Task::Try {
                line: *line,
                zeroed: true,
            },
            Taken::None,
            drawn_bit(answer),
        ),
        CoreExpr::Release { .. } => put_on(Taken::One, Number::new(IntegerType::Int, 0)),
        CoreExpr::Exit { .. } | CoreExpr::Abort { .. } => ends(0),
        _ => unreachable!(),
    }
}

// The thread has ended with this value.
fn ends<'a>(value: u64) -> Change<'a>
    ensures { result ≡ record { tasks = record { first = Some (Task.Ended value); second = None; third = None }; taken = Taken.None; put = None; stacked = Stacked.Kept; written = Written.Nothing } }
{
    let ended = Some(Task::Ended(value));
    change(ended, Taken::None, None, Stacked::Kept, Written::Nothing)
}

// The bit that a Draw gave.
fn drawn_bit(answer: &Answer) -> Number
    requires { has_shape (word 1) answer.now ≡ true }
    ensures { result ≡ typed Int (drawn answer.now) }
{
    Number::new(IntegerType::Int, drawn_bits(answer))
}

// A pointer is moved, where the size of its object is on top.
fn landing<'a>(line: u32, step: i64, element: bool, swapped: bool) -> Task<'a>
    ensures { result ≡ Task.Land line step element swapped }
{
    Task::Land {
        line,
        step,
        element,
        swapped,
    }
}

// Of a place whose parts are evaluated.
fn answer_place<'a>(_look: &Look, place: &'a Place, answer: &Answer) -> Change<'a>
    requires { AcceptsItem _look.now (place_finish (view_place place.now)) answer.now }
    ensures { AnswersItem _look.now (place_finish (view_place place.now)) answer.now result }
{
    match place {
        Place::Subscript {
            line,
            size,
            swapped,
            ..
        } => put_before(
            landing(*line, *size as i64, true, *swapped),
            Taken::None,
            looked_at(answer),
        ),
        _ => unreachable!(),
    }
}

// Of a structure value whose place is evaluated: its bytes come on top, or are written there.
fn answer_structure<'a>(
    look: &Look,
    value: &'a CoreStructure,
    answer: &Answer,
) -> Result<Change<'a>, AllocError>
    requires { AcceptsItem look.now (completion_of (view_structure value.now)) answer.now }
    ensures { IfOk result (λ c. AnswersItem look.now (completion_of (view_structure value.now)) answer.now c) }
{
    match value {
        CoreStructure::Read { .. } => {
            let block = Block::of_bytes(look.alloc, bytes_in(answer))?;
            Ok(change(
                None,
                Taken::One,
                None,
                Stacked::Pushed(block),
                Written::Nothing,
            ))
        }
        _ => Ok(take(Taken::One)),
    }
}

// Of the next word of a variable.
fn answer_fill<'a>(
    look: &Look,
    words: u32,
    line: u32,
    variable: u32,
    offset: usize,
    answer: &Answer,
) -> Change<'a>
    requires fits { FitsIn look.now (fills words line variable offset) }
    requires accepts { AcceptsItem look.now (fills words line variable offset) answer.now }
    ensures { AnswersItem look.now (fills words line variable offset) answer.now result }
{
    let count = count_drawn(look, variable, offset);
    let written = Written::Bits {
        variable,
        offset,
        count: count as usize,
        bits: drawn_bits(answer),
    };
    let next = Task::Fill(words - 1, line, variable, offset + 8);
    change(Some(next), Taken::None, None, Stacked::Kept, written)
}

// The structure value on top, and behind it the lowest bytes of a number.
#[tactic(auto, using(c_tasks::proofs::Tops::structures_push))]
fn longer_top(look: &Look, count: usize, bits: u64) -> Result<Block, AllocError>
    requires { count ≤ 8 }
    ensures { IfOk result (λ block. block ≡ top_bytes (structures_on look.now) ++ low_bytes count bits) }
{
    match look.structures.split_last() {
        Some((block, _)) => block.longer(look.alloc, count, bits),
        None => Block::of_number(look.alloc, count, bits),
    }
}

// Of the next word of an object.
#[tactic(auto, using(crate::proofs::Finishes::draw_answered))]
fn answer_draw<'a>(
    look: &Look,
    words: u32,
    size: u32,
    line: u32,
    answer: &Answer,
) -> Result<Change<'a>, AllocError>
    requires fits { FitsIn look.now (draws words size line) }
    requires accepts { AcceptsItem look.now (draws words size line) answer.now }
    ensures { IfOk result (λ c. AnswersItem look.now (draws words size line) answer.now c) }
{
    let count = count_more(look, size) as usize;
    let longer = longer_top(look, count, drawn_bits(answer))?;
    let words = words - 1;
    Ok(change(
        Some(Task::DrawWords { words, size, line }),
        Taken::None,
        None,
        Stacked::Replaced(longer),
        Written::Nothing,
    ))
}

// Of a variable that becomes an object: the variable that holds its address takes that.
fn answer_settle<'a>(look: &Look, line: u32, variable: usize, answer: &Answer) -> Change<'a>
    requires fits { FitsIn look.now (settles line variable) }
    requires accepts { AcceptsItem look.now (settles line variable) answer.now }
    ensures { AnswersItem look.now (settles line variable) answer.now result }
{
    let _ = line;
    let Some(home) = home_of_variable(look, variable) else {
        unreachable!();
    };
    let written = Written::Bits {
        variable: home,
        offset: 0,
        count: 8,
        bits: made_pointer(answer).bits(),
    };
    change(None, Taken::None, None, Stacked::Kept, written)
}

/// What the answer to an action changes.
pub fn answer_task<'a>(
    look: &Look,
    task: &Task<'a>,
    answer: &Answer,
) -> Result<Change<'a>, AllocError>
    requires fits { FitsIn look.now (item_of task.now) }
    requires accepts { AcceptsItem look.now (item_of task.now) answer.now }
    ensures { IfOk result (λ c. AnswersItem look.now (item_of task.now) answer.now c) }
{
    match task {
        Task::Structure { value, .. } => answer_structure(look, *value, answer),
        Task::DrawWords { words, size, line } => answer_draw(look, *words, *size, *line, answer),
        _ => Ok(answer_other(look, task, answer)),
    }
}

// Of a task whose answer takes no memory.
fn answer_other<'a>(look: &Look, task: &Task<'a>, answer: &Answer) -> Change<'a>
    requires asks { IsAskingTask task.now }
    requires fits { FitsIn look.now (item_of task.now) }
    requires accepts { AcceptsItem look.now (item_of task.now) answer.now }
    ensures { AnswersItem look.now (item_of task.now) answer.now result }
{
    match task {
        Task::Expression { expression, finish } => {
            if *finish {
                answer_finish(look, *expression, answer)
            } else {
                answer_expression(look, *expression, answer)
            }
        }
        Task::Place { place, finish } => {
            if *finish {
                answer_place(look, *place, answer)
            } else {
                unreachable!()
            }
        }
        Task::Store { type_, .. } => put_on(Taken::Two, top_of(look.numbers).retyped(*type_)),
        Task::Rewrite { type_, .. } => put_on(Taken::One, top_of(look.numbers).retyped(*type_)),
        Task::Move {
            line,
            step,
            element,
            swapped,
        } => put_before(
            landing(*line, *step, *element, *swapped),
            Taken::None,
            looked_at(answer),
        ),
        Task::Advance {
            line,
            place,
            step,
            before,
            at,
        } => put_before(
            Task::Arrive {
                line: *line,
                place: *place,
                step: *step,
                before: *before,
                at: *at,
            },
            Taken::None,
            looked_at(answer),
        ),
        Task::Make { .. } => change(
            None,
            Taken::One,
            Some(made_pointer(answer)),
            Stacked::Taken,
            Written::Nothing,
        ),
        Task::Settle(line, variable) => answer_settle(look, *line, *variable, answer),
        Task::Initialize(_, _, _) => take(Taken::One),
        Task::InitializeStructure(_, _) => {
            change(None, Taken::None, None, Stacked::Taken, Written::Nothing)
        }
        Task::Die(_, _) => take(Taken::None),
        Task::Fill(words, line, variable, offset) => {
            answer_fill(look, *words, *line, *variable, *offset, answer)
        }
        Task::End(_, value) => ends(*value),
        _ => unreachable!(),
    }
}
