//! What is to be done and the numbers that wait, as stacks.

ghost use Rattle.std.specs.Prelude.{◌≡◌, ◌+◌, ◌-◌, ◌<◌, ◌≤◌, ◌∷◌, true, false, None, ◌++◌, drop, length, slice_index, vec_len, vec_capacity, IsNone, IsSome, MatchOption};
ghost use Rattle.core_tree.specs.Typed.{is_within};
ghost use Rattle.c_values.specs.Variables.{low_bytes, put_at, put_bytes, cleared};
ghost use Rattle.c_tasks.specs.Fits.{sizes_of, rest_sizes, has_top};
ghost use Rattle.c_tasks.specs.Items.{rest, top_bytes, rest_bytes, second_bytes};
ghost use Rattle.core_tree.specs.Trees.{items_of, view_statement};
ghost use Rattle.c_tasks.specs.Items.{leaves, leaves_parameters, goes_on, goes_out, loops, resumes, switches};
ghost use Rattle.c_tasks.specs.Tasks.{IsOut, IsBehind, IsLabelItem, way_of, want_of, loop_in, item_of, items_in, values_in, with_task, with_tasks, with_put, without, structures_in, with_stacked, StacksWithin, with_written, LiesWithin, behind};
ghost use Rattle.c_changes.specs.Ways.{IsFound, LeadsTo};

use c_tasks::{Block, Caller, Cut, Part, Stacked, Stage, Taken, Task, Tasks, Wanted, Written};
use c_values::Number;
use core_tree::{CoreItem, CoreStatement};

#[tactic(auto, using(c_tasks::proofs::Tops::items_push))]
fn push_task<'a>(tasks: &mut Vec<Task<'a>>, task: Option<Task<'a>>)
    requires { vec_len tasks.old < vec_capacity tasks.old }
    ensures items { items_in tasks.new.items ≡ with_task task.entry (items_in tasks.old.items) }
    ensures len { vec_len tasks.new ≤ vec_len tasks.old + 1 }
    ensures capacity { vec_capacity tasks.old ≤ vec_capacity tasks.new }
{
    if let Some(task) = task {
        match tasks.push(task) {
            Ok(()) => {}
            Err(_) => unreachable!(),
        }
    }
}

/// Puts tasks in the place of the first one.
#[tactic(auto, using(c_tasks::proofs::Tops::items_push))]
pub fn change_tasks<'a>(tasks: &mut Vec<Task<'a>>, more: Tasks<'a>)
    requires { vec_len tasks.old + 3 ≤ vec_capacity tasks.old }
    ensures items { items_in tasks.new.items ≡ with_tasks more.entry (behind (items_in tasks.old.items)) }
    ensures len { vec_len tasks.new ≤ vec_len tasks.old + 3 }
    ensures capacity { vec_capacity tasks.old ≤ vec_capacity tasks.new }
{
    drop_task(tasks);
    push_task(tasks, more.third);
    push_task(tasks, more.second);
    push_task(tasks, more.first);
}

#[tactic(auto, using(c_tasks::proofs::Tops::items_push, c_tasks::proofs::Tops::no_tasks))]
fn drop_task(tasks: &mut Vec<Task>)
    ensures items { items_in tasks.new.items ≡ behind (items_in tasks.old.items) }
    ensures len { vec_len tasks.new ≡ vec_len tasks.old - 1 }
    ensures capacity { vec_capacity tasks.new ≡ vec_capacity tasks.old }
{
    match tasks.pop() {
        Some(_) => {}
        None => {}
    }
}

#[tactic(auto, using(c_tasks::proofs::Tops::values_push, c_tasks::proofs::Tops::no_values))]
fn drop_number(numbers: &mut Vec<Number>)
    ensures items { values_in numbers.new.items ≡ rest (values_in numbers.old.items) }
    ensures len { vec_len numbers.new ≤ vec_len numbers.old }
    ensures capacity { vec_capacity numbers.new ≡ vec_capacity numbers.old }
{
    match numbers.pop() {
        Some(_) => {}
        None => {}
    }
}

fn take_numbers(numbers: &mut Vec<Number>, taken: Taken)
    ensures items { values_in numbers.new.items ≡ without taken (values_in numbers.old.items) }
    ensures len { vec_len numbers.new ≤ vec_len numbers.old }
    ensures capacity { vec_capacity numbers.new ≡ vec_capacity numbers.old }
{
    match taken {
        Taken::None => {}
        Taken::One => drop_number(numbers),
        Taken::Two => {
            drop_number(numbers);
            drop_number(numbers);
        }
        Taken::Three => {
            drop_number(numbers);
            drop_number(numbers);
            drop_number(numbers);
        }
    }
}

/// Takes numbers, and puts one on top.
#[tactic(auto, using(c_tasks::proofs::Tops::values_push))]
pub fn change_numbers(numbers: &mut Vec<Number>, taken: Taken, put: Option<Number>)
    requires { vec_len numbers.old < vec_capacity numbers.old }
    ensures { values_in numbers.new.items ≡ with_put put (without taken (values_in numbers.old.items)) }
{
    take_numbers(numbers, taken);
    if let Some(number) = put {
        match numbers.push(number) {
            Ok(()) => {}
            Err(_) => unreachable!(),
        }
    }
}

// Writes the lowest bytes of a number into a variable.
fn write_bits(variables: &mut Vec<Block>, variable: u32, offset: usize, count: usize, bits: u64)
    requires few { count ≤ 8 }
    requires within { is_within (sizes_of variables.old.items) variable offset count ≡ true }
    ensures value { variables.new.items ≡ put_bytes variables.old.items variable offset (low_bytes count bits) }
    ensures sizes { sizes_of variables.new.items ≡ sizes_of variables.old.items }
{
    if let Some(block) = variables.get_mut(variable as usize) {
        block.write(offset, count, bits);
    }
}

// Writes zeros over a variable.
fn write_zeros(variables: &mut Vec<Block>, variable: u32, size: u32)
    requires { size ≡ slice_index (sizes_of variables.old.items) variable }
    ensures value { variables.new.items ≡ cleared variables.old.items variable size }
    ensures sizes { sizes_of variables.new.items ≡ sizes_of variables.old.items }
{
    if let Some(block) = variables.get_mut(variable as usize) {
        block.clear();
    }
}

// Writes the structure value on top into a variable.
#[tactic(auto, using(c_tasks::proofs::Tops::structures_push))]
fn write_top(variables: &mut Vec<Block>, structures: &[Block], variable: u32, offset: usize)
    requires filled { has_top (sizes_of (structures_in structures.now)) ≡ true }
    requires within { is_within (sizes_of variables.old.items) variable offset (length (top_bytes (structures_in structures.now))) ≡ true }
    ensures value { variables.new.items ≡ put_bytes variables.old.items variable offset (top_bytes (structures_in structures.now)) }
    ensures sizes { sizes_of variables.new.items ≡ sizes_of variables.old.items }
{
    match structures.split_last() {
        Some((top, _)) => write_block(variables, variable, offset, top),
        None => unreachable!(),
    }
}

// Writes a block into a variable.
fn write_block(variables: &mut Vec<Block>, variable: u32, offset: usize, new: &Block)
    requires { is_within (sizes_of variables.old.items) variable offset (length new.now) ≡ true }
    ensures value { variables.new.items ≡ put_bytes variables.old.items variable offset new.now }
    ensures sizes { sizes_of variables.new.items ≡ sizes_of variables.old.items }
{
    if let Some(block) = variables.get_mut(variable as usize) {
        block.put_block(offset, new);
    }
}

/// Writes into a variable.
pub fn change_variables(variables: &mut Vec<Block>, structures: &[Block], written: Written)
    requires { LiesWithin (sizes_of variables.old.items) (structures_in structures.now) written }
    ensures value { variables.new.items ≡ with_written written (structures_in structures.now) variables.old.items }
    ensures sizes { sizes_of variables.new.items ≡ sizes_of variables.old.items }
{
    match written {
        Written::Nothing => {}
        Written::Bits {
            variable,
            offset,
            count,
            bits,
        } => write_bits(variables, variable, offset, count, bits),
        Written::Zeros { variable, size } => write_zeros(variables, variable, size),
        Written::Top { variable, offset } => write_top(variables, structures, variable, offset),
    }
}

// ---- structure values

#[tactic(auto, using(c_tasks::proofs::Tops::structures_push))]
fn push_structure(structures: &mut Vec<Block>, block: Block)
    requires { vec_len structures.old < vec_capacity structures.old }
    ensures { structures_in structures.new.items ≡ block ∷ structures_in structures.old.items }
{
    match structures.push(block) {
        Ok(()) => {}
        Err(_) => unreachable!(),
    }
}

#[tactic(auto, using(c_tasks::proofs::Tops::structures_push, c_tasks::proofs::Tops::no_structures))]
fn pop_structure(structures: &mut Vec<Block>) -> Option<Block>
    ensures items { structures_in structures.new.items ≡ rest_bytes (structures_in structures.old.items) }
    ensures top { MatchOption result (has_top (sizes_of (structures_in structures.old.items)) ≡ false) (λ block. block ≡ top_bytes (structures_in structures.old.items)) }
    ensures room { IsSome result → vec_len structures.new < vec_len structures.old }
    ensures len { vec_len structures.new ≤ vec_len structures.old }
    ensures capacity { vec_capacity structures.new ≡ vec_capacity structures.old }
{
    structures.pop()
}

// Another block takes the place of the one on top.
fn replace_structure(structures: &mut Vec<Block>, block: Block)
    requires { vec_len structures.old < vec_capacity structures.old }
    ensures { structures_in structures.new.items ≡ block ∷ rest_bytes (structures_in structures.old.items) }
{
    drop_structure(structures);
    push_structure(structures, block);
}

fn drop_structure(structures: &mut Vec<Block>)
    ensures items { structures_in structures.new.items ≡ rest_bytes (structures_in structures.old.items) }
    ensures len { vec_len structures.new ≤ vec_len structures.old }
    ensures capacity { vec_capacity structures.new ≡ vec_capacity structures.old }
{
    match pop_structure(structures) {
        Some(_) => {}
        None => {}
    }
}

// Writes the lowest bytes of a number into the structure value on top.
fn place_bits(structures: &mut Vec<Block>, offset: usize, count: usize, bits: u64)
    requires room { vec_len structures.old < vec_capacity structures.old }
    requires filled { has_top (sizes_of (structures_in structures.old.items)) ≡ true }
    requires within { offset + count ≤ length (top_bytes (structures_in structures.old.items)) }
    requires few { count ≤ 8 }
    ensures { structures_in structures.new.items ≡ put_at offset (low_bytes count bits) (top_bytes (structures_in structures.old.items)) ∷ rest_bytes (structures_in structures.old.items) }
{
    match pop_structure(structures) {
        Some(mut block) => {
            block.write(offset, count, bits);
            push_structure(structures, block);
        }
        None => unreachable!(),
    }
}

// Puts the structure value on top into the one below it.
fn join_structures(structures: &mut Vec<Block>, offset: usize)
    requires room { vec_len structures.old < vec_capacity structures.old }
    requires filled { has_top (rest_sizes (sizes_of (structures_in structures.old.items))) ≡ true }
    requires within { offset + length (top_bytes (structures_in structures.old.items)) ≤ length (second_bytes (structures_in structures.old.items)) }
    ensures { structures_in structures.new.items ≡ put_at offset (top_bytes (structures_in structures.old.items)) (second_bytes (structures_in structures.old.items)) ∷ rest_bytes (rest_bytes (structures_in structures.old.items)) }
{
    match pop_structure(structures) {
        Some(top) => place_block(structures, offset, &top),
        None => unreachable!(),
    }
}

fn place_block(structures: &mut Vec<Block>, offset: usize, new: &Block)
    requires room { vec_len structures.old < vec_capacity structures.old }
    requires filled { has_top (sizes_of (structures_in structures.old.items)) ≡ true }
    requires within { offset + length new.now ≤ length (top_bytes (structures_in structures.old.items)) }
    ensures { structures_in structures.new.items ≡ put_at offset new.now (top_bytes (structures_in structures.old.items)) ∷ rest_bytes (structures_in structures.old.items) }
{
    match pop_structure(structures) {
        Some(mut block) => {
            block.put_block(offset, new);
            push_structure(structures, block);
        }
        None => unreachable!(),
    }
}

/// Changes the structure values that wait.
pub fn change_structures(structures: &mut Vec<Block>, stacked: Stacked)
    requires room { vec_len structures.old < vec_capacity structures.old }
    requires within { StacksWithin (structures_in structures.old.items) stacked }
    ensures { structures_in structures.new.items ≡ with_stacked stacked (structures_in structures.old.items) }
{
    match stacked {
        Stacked::Kept => {}
        Stacked::Pushed(block) => push_structure(structures, block),
        Stacked::Taken => drop_structure(structures),
        Stacked::Replaced(block) => replace_structure(structures, block),
        Stacked::Bits {
            offset,
            count,
            bits,
        } => place_bits(structures, offset, count, bits),
        Stacked::Joined { offset } => join_structures(structures, offset),
    }
}

// ---- ways out

/// A task comes first.
#[tactic(auto, using(c_tasks::proofs::Tops::items_push))]
pub fn push_back<'a>(tasks: &mut Vec<Task<'a>>, task: Task<'a>)
    requires { vec_len tasks.old < vec_capacity tasks.old }
    ensures items { items_in tasks.new.items ≡ item_of task.entry ∷ items_in tasks.old.items }
    ensures len { vec_len tasks.new ≡ vec_len tasks.old + 1 }
    ensures capacity { vec_capacity tasks.old ≤ vec_capacity tasks.new }
{
    match tasks.push(task) {
        Ok(()) => {}
        Err(_) => unreachable!(),
    }
}

fn is_label(item: &CoreItem, label: u32) -> bool
    ensures { IsLabelItem item.now label result }
{
    match item {
        CoreItem::Label { label: found } => *found == label,
        _ => false,
    }
}

// Behind the label with this number, where it stands among the items from one on.
fn behind_label(items: &[CoreItem], from: usize, label: u32) -> Option<usize>
    ensures { IsBehind items.now from label result }
{
    for place in from..items.len() {
        if is_label(&items[place], label) {
            return Some(place + 1);
        }
    }
    None
}

// The objects of a block's variables die, and then the way leads on.
fn leave_block<'a>(tasks: &mut Vec<Task<'a>>, items: &'a Vec<CoreItem>, from: usize, cut: Cut)
    requires { vec_len tasks.old + 2 ≤ vec_capacity tasks.old }
    ensures { items_in tasks.new.items ≡ leaves (items_of (drop from items.now.items)) ∷ goes_out (way_of cut) ∷ items_in tasks.old.items }
{
    push_back(tasks, Task::Out(cut));
    let part = Part::Exit;
    push_back(tasks, Task::Items { items, from, part });
}

// The objects of the parameters die, and then the way leads on.
fn leave_parameters<'a>(tasks: &mut Vec<Task<'a>>, count: usize, cut: Cut)
    requires { vec_len tasks.old + 2 ≤ vec_capacity tasks.old }
    ensures { items_in tasks.new.items ≡ leaves_parameters count 0 ∷ goes_out (way_of cut) ∷ items_in tasks.old.items }
{
    push_back(tasks, Task::Out(cut));
    push_back(tasks, Task::LeaveParameters(0, count));
}

// A switch is left: by `break` for good.
fn leave_switch<'a>(tasks: &mut Vec<Task<'a>>, items: &'a Vec<CoreItem>, cut: Cut)
    requires { vec_len tasks.old + 2 ≤ vec_capacity tasks.old }
    ensures { IsOut cut (switches (items_of items.now.items) ∷ items_in tasks.old.items) (items_in tasks.new.items) None }
{
    match cut {
        Cut::Break => {
            let (from, part) = (0, Part::Exit);
            push_back(tasks, Task::Items { items, from, part });
        }
        Cut::Continue | Cut::Jump(_) | Cut::Return(_) => leave_block(tasks, items, 0, cut),
    }
}

// The function is left, to its caller; another way leads nowhere.
fn leave_function<'a>(
    tasks: &mut Vec<Task<'a>>,
    want: Wanted,
    caller: u32,
    saved: Vec<Block>,
    cut: Cut,
) -> Option<Caller>
    requires { vec_len tasks.old + 2 ≤ vec_capacity tasks.old }
    ensures { IsOut cut (resumes (want_of want) caller saved.items ∷ items_in tasks.old.items) (items_in tasks.new.items) result }
{
    match cut {
        Cut::Return(how) => {
            push_back(tasks, Task::Get(want, how));
            Some(Caller {
                function: caller,
                variables: saved,
            })
        }
        Cut::Break | Cut::Continue | Cut::Jump(_) => {
            tasks.clear();
            push_back(tasks, Task::Stray);
            None
        }
    }
}

// Whether a way leads to a loop's body: behind the loop, or to the end of the body.
fn leave_loop<'a>(
    tasks: &mut Vec<Task<'a>>,
    statement: &'a CoreStatement,
    rounds: u32,
    cut: Cut,
) -> bool
    requires { vec_len tasks.old + 2 ≤ vec_capacity tasks.old }
    ensures found { IsFound cut (loops rounds (loop_in (view_statement statement.now))) (items_in tasks.old.items) (items_in tasks.new.items) result }
    ensures same { result ≡ false → tasks.new ≡ tasks.old }
{
    match cut {
        Cut::Break => true,
        Cut::Continue => {
            let stage = Stage::Body(rounds);
            push_back(tasks, Task::Statement { statement, stage });
            true
        }
        Cut::Jump(_) | Cut::Return(_) => false,
    }
}

// Whether a way leads behind a label of these items.
fn leave_items<'a>(
    tasks: &mut Vec<Task<'a>>,
    items: &'a Vec<CoreItem>,
    from: usize,
    cut: Cut,
) -> bool
    requires { vec_len tasks.old + 2 ≤ vec_capacity tasks.old }
    ensures found { IsFound cut (goes_on (items_of (drop from items.now.items))) (items_in tasks.old.items) (items_in tasks.new.items) result }
    ensures same { result ≡ false → tasks.new ≡ tasks.old }
{
    match cut {
        Cut::Jump(label) => match behind_label(items, from, label) {
            Some(from) => {
                let part = Part::Body;
                push_back(tasks, Task::Items { items, from, part });
                true
            }
            None => false,
        },
        Cut::Break | Cut::Continue | Cut::Return(_) => false,
    }
}

// Where a way leads from a task that was taken off; none where it leads on.
fn leave_task<'a>(tasks: &mut Vec<Task<'a>>, task: Task<'a>, cut: Cut) -> Option<Option<Caller>>
    requires { vec_len tasks.old + 2 ≤ vec_capacity tasks.old }
    ensures leads { LeadsTo cut (item_of task.entry) (items_in tasks.old.items) (items_in tasks.new.items) result }
    ensures same { IsNone result → tasks.new ≡ tasks.old }
{
    let found = match task {
        Task::Items {
            items,
            from,
            part: Part::End,
        } => {
            leave_block(tasks, items, from, cut);
            true
        }
        Task::EndParameters(count) => {
            leave_parameters(tasks, count, cut);
            true
        }
        Task::Switched(items) => {
            leave_switch(tasks, items, cut);
            true
        }
        Task::Statement {
            statement,
            stage: Stage::Body(rounds),
        } => leave_loop(tasks, statement, rounds, cut),
        Task::Items {
            items,
            from,
            part: Part::Body,
        } => leave_items(tasks, items, from, cut),
        Task::Resume {
            want,
            caller,
            saved,
        } => return Some(leave_function(tasks, want, caller, saved, cut)),
        _ => false,
    };
    if found { Some(None) } else { None }
}

/// Cuts the tasks back to where a way out of statements leads, or to the next end of a block before that.
/// Where the caller runs again, it is given.
#[tactic(auto, using(c_tasks::proofs::Tops::items_push, c_tasks::proofs::Tops::no_tasks))]
pub fn cut_items<'a>(tasks: &mut Vec<Task<'a>>, cut: Cut) -> Option<Caller>
    requires { vec_len tasks.old < vec_capacity tasks.old }
    ensures { IsOut cut (items_in tasks.old.items) (items_in tasks.new.items) result }
{
    while let Some(task) = tasks.pop() {
        if let Some(caller) = leave_task(tasks, task, cut) {
            return caller;
        }
    }
    None
}
