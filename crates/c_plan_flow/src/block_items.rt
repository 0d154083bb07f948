//! What the tasks of the items of a block do next: declarations, initializers, cases.

ghost use Rattle.std.specs.Prelude.{◌≡◌, ◌+◌, ◌<◌, ◌≤◌, ◌^◌, ◌==◌, true, false, Some, None, ◌∷◌, drop, if◌then◌else◌};
ghost use Rattle.core_tree.specs.Trees.{items_of, block};
ghost use Rattle.c_tasks.specs.declared.task.Part.TheVariants as Part;
ghost use Rattle.c_tasks.specs.declared.task.Plan.TheVariants as Plan;
ghost use Rattle.c_tasks.specs.declared.task.Stacked.TheVariants as Stacked;
ghost use Rattle.c_tasks.specs.declared.task.Taken.TheVariants as Taken;
ghost use Rattle.c_tasks.specs.declared.task.Task.TheVariants as Task;
ghost use Rattle.c_tasks.specs.declared.task.Written.TheVariants as Written;
ghost use Rattle.c_tasks.specs.Items.{Item, initial, enters, goes_on, leaves, fills, selects, settles, dies};
ghost use Rattle.c_tasks.specs.Steps.{makes_variable};
ghost use Rattle.c_tasks.specs.Plans.{IsCaseItem, IsBehindCase, IsDefaultItem, IsBehindDefault};
ghost use Rattle.c_tasks.specs.Plans.{FitsIn, PlansItem, Plans, code_in, active_in, items_behind, values_on, structures_on};

use crate::plan_statements::running;
use actions::DrawBits;
use c_tasks::{
    Change, Halt, Look, Part, Plan, Request, Stacked, Taken, Task, Tasks, Written, count_drawn,
    evaluating, evaluation, held_pointer, home_of_variable, number_type_of, pushes,
    size_of_variable, takes, top_of, writes,
};
use c_types::IntegerType;
use c_values::{object_of, word_count};
use core_tree::CoreItem;

/// The items from one on, as far as they are.
pub fn items_task<'a>(items: &'a Vec<CoreItem>, from: usize, part: Part) -> Task<'a>
    ensures { result ≡ Task.Items items.entry from part }
{
    Task::Items { items, from, part }
}

/// The variables of the items from one on are to be made.
pub fn entry<'a>(items: &'a Vec<CoreItem>, from: usize) -> Task<'a>
    ensures { result ≡ Task.Items items.entry from Part.Entry }
{
    items_task(items, from, Part::Entry)
}

/// The items from one on are to be run.
pub fn going_on<'a>(items: &'a Vec<CoreItem>, from: usize) -> Task<'a>
    ensures { result ≡ Task.Items items.entry from Part.Body }
{
    items_task(items, from, Part::Body)
}

fn is_case(item: &CoreItem, bits: u64) -> bool
    ensures { IsCaseItem item.now bits result }
{
    match item {
        CoreItem::Case { bits: value, .. } => *value == bits,
        _ => false,
    }
}

// Behind the case with these bits, where there is one.
fn behind_case(items: &[CoreItem], bits: u64) -> Option<usize>
    ensures { IsBehindCase items.now bits result }
{
    let mut place = 0;
    for item in items {
        place += 1;
        if is_case(item, bits) {
            return Some(place);
        }
    }
    None
}

fn is_default(item: &CoreItem) -> bool
    ensures { IsDefaultItem item.now result }
{
    match item {
        CoreItem::Default { .. } => true,
        _ => false,
    }
}

// Behind `default`, where it stands.
fn behind_default(items: &[CoreItem]) -> Option<usize>
    ensures { IsBehindDefault items.now result }
{
    let mut place = 0;
    for item in items {
        place += 1;
        if is_default(item) {
            return Some(place);
        }
    }
    None
}

// A switch is entered, and goes on behind an item.
fn plan_enter<'a>(items: &'a Vec<CoreItem>, from: usize) -> Plan<'a>
    ensures { result ≡ Plan.Goes (record {
      tasks = record { first = Some (Task.Items items.entry 0 Part.Entry); second = Some (Task.Items items.entry from Part.Body); third = Some (Task.Switched items.entry) };
      taken = Taken.One;
      put = None;
      stacked = Stacked.Kept;
      written = Written.Nothing;
    }) }
{
    pushes(
        Taken::One,
        entry(items, 0),
        Some(going_on(items, from)),
        Some(Task::Switched(items)),
    )
}

/// A switch goes on behind the case that its value selects, else behind `default`, or isn't entered.
pub fn plan_select<'a>(look: &Look, items: &'a Vec<CoreItem>) -> Plan<'a>
    ensures { PlansItem look.now (selects (items_of items.now.items)) result }
{
    match behind_case(items, top_of(look.numbers).bits()) {
        Some(from) => plan_enter(items, from),
        None => match behind_default(items) {
            Some(from) => plan_enter(items, from),
            None => takes(Taken::One),
        },
    }
}

// The words of a variable are drawn; then it is settled, and then come the items behind it.
fn draws<'a>(
    look: &Look,
    line: u32,
    variable: u32,
    items: &'a Vec<CoreItem>,
    from: usize,
) -> Plan<'a>
    ensures { (i : Item) → Plans look.now i (makes_variable (code_in look.now) look.now.first true true line variable (items_of (drop from items.now.items)) (items_behind look.now) (active_in look.now) (values_on look.now) (structures_on look.now) look.now.variables.now) result }
{
    let words = word_count(size_of_variable(look, variable));
    pushes(
        Taken::None,
        Task::Fill(words, line, variable, 0),
        Some(Task::Settle(line, variable as usize)),
        Some(entry(items, from)),
    )
}

// A variable becomes 0; then it is settled, and then come the items behind it.
fn clears<'a>(
    look: &Look,
    line: u32,
    variable: u32,
    items: &'a Vec<CoreItem>,
    from: usize,
) -> Plan<'a>
    ensures { (i : Item) → Plans look.now i (makes_variable (code_in look.now) look.now.first true false line variable (items_of (drop from items.now.items)) (items_behind look.now) (active_in look.now) (values_on look.now) (structures_on look.now) look.now.variables.now) result }
{
    let size = size_of_variable(look, variable);
    Plan::Goes(Change {
        tasks: Tasks {
            first: Some(Task::Settle(line, variable as usize)),
            second: Some(Task::Items {
                items,
                from,
                part: Part::Entry,
            }),
            third: None,
        },
        taken: Taken::None,
        put: None,
        stacked: Stacked::Kept,
        written: Written::Zeros { variable, size },
    })
}

// A variable is drawn, or becomes 0.
fn plan_made<'a>(
    look: &Look,
    line: u32,
    variable: u32,
    drawn: bool,
    items: &'a Vec<CoreItem>,
    from: usize,
) -> Plan<'a>
    ensures { (i : Item) → Plans look.now i (makes_variable (code_in look.now) look.now.first true drawn line variable (items_of (drop from items.now.items)) (items_behind look.now) (active_in look.now) (values_on look.now) (structures_on look.now) look.now.variables.now) result }
{
    if drawn {
        draws(look, line, variable, items, from)
    } else {
        clears(look, line, variable, items, from)
    }
}

/// The plan of the entry to a block of which the items from one on are left.
pub fn plan_entry<'a>(look: &Look, items: &'a Vec<CoreItem>, from: usize) -> Plan<'a>
    ensures { PlansItem look.now (enters (items_of (drop from items.now.items))) result }
{
    let Some(item) = items.get(from) else {
        return takes(Taken::None);
    };
    let next = from + 1;
    match item {
        CoreItem::Declare { line, variable } => { draws(look, *line, *variable, items, next) }
        CoreItem::Initialize {
            line,
            variable,
            drawn,
            ..
        } => plan_made(look, *line, *variable, *drawn, items, next),
        CoreItem::InitializeStructure {
            line,
            variable,
            drawn,
            ..
        } => plan_made(look, *line, *variable, *drawn, items, next),
        _ => pushes(Taken::None, entry(items, next), None, None),
    }
}

/// The plan of a block of which the items from one on are left.
pub fn plan_items<'a>(look: &Look, items: &'a Vec<CoreItem>, from: usize) -> Plan<'a>
    ensures { PlansItem look.now (goes_on (items_of (drop from items.now.items))) result }
{
    let Some(item) = items.get(from) else {
        return takes(Taken::None);
    };
    let next = from + 1;
    match item {
        CoreItem::Initialize {
            line,
            variable,
            value,
            ..
        } => pushes(
            Taken::None,
            evaluating(value),
            Some(Task::Initialize(*line, *variable, number_type_of(value))),
            Some(going_on(items, next)),
        ),
        CoreItem::InitializeStructure {
            line,
            variable,
            value,
            ..
        } => pushes(
            Taken::None,
            evaluation(value),
            Some(Task::InitializeStructure(*line, *variable)),
            Some(going_on(items, next)),
        ),
        CoreItem::Statement { statement } => {
            pushes(
                Taken::None,
                running(statement),
                Some(going_on(items, next)),
                None,
            )
        }
        _ => pushes(Taken::None, going_on(items, next), None, None),
    }
}

// The object of a variable dies behind other tasks.
fn dying_behind<'a>(others: Task<'a>, line: u32, variable: u32) -> Plan<'a>
    ensures { result ≡ Plan.Goes (record {
      tasks = record { first = Some others.entry; second = Some (Task.Die line variable); third = None };
      taken = Taken.None;
      put = None;
      stacked = Stacked.Kept;
      written = Written.Nothing;
    }) }
{
    pushes(
        Taken::None,
        others,
        Some(Task::Die(line, variable as usize)),
        None,
    )
}

/// The plan of the end of a block of which the items from one on are left: the objects of their variables die,
/// the last one first.
pub fn plan_exit<'a>(_look: &Look, items: &'a Vec<CoreItem>, from: usize) -> Plan<'a>
    ensures { PlansItem _look.now (leaves (items_of (drop from items.now.items))) result }
{
    let Some(item) = items.get(from) else {
        return takes(Taken::None);
    };
    let others = items_task(items, from + 1, Part::Exit);
    match item {
        CoreItem::Declare { line, variable } => { dying_behind(others, *line, *variable) }
        CoreItem::Initialize { line, variable, .. } => { dying_behind(others, *line, *variable) }
        CoreItem::InitializeStructure { line, variable, .. } => {
            dying_behind(others, *line, *variable)
        }
        _ => pushes(Taken::None, others, None, None),
    }
}

/// A variable becomes an object, where it has an address.
pub fn plan_settle<'a>(look: &Look, line: u32, variable: usize) -> Plan<'a>
    ensures { PlansItem look.now (settles line variable) result }
{
    match home_of_variable(look, variable) {
        None => takes(Taken::None),
        Some(_) => Plan::Halts(Halt::Asks(Request::Place(variable), line)),
    }
}

/// The object of a variable dies, where it has an address.
pub fn plan_death<'a>(look: &Look, line: u32, variable: usize) -> Plan<'a>
    ensures { PlansItem look.now (dies line variable) result }
{
    match home_of_variable(look, variable) {
        None => takes(Taken::None),
        Some(home) => {
            let request = Request::Die(object_of(held_pointer(look, home)));
            Plan::Halts(Halt::Asks(request, line))
        }
    }
}

/// An initializer's value is written.
pub fn plan_initial<'a>(look: &Look, line: u32, variable: u32, type_: IntegerType) -> Plan<'a>
    requires { FitsIn look.now (initial line variable type_) }
    ensures { PlansItem look.now (initial line variable type_) result }
{
    if let Some(home) = home_of_variable(look, variable as usize) {
        let request = Request::WriteNumber(held_pointer(look, home), type_, true);
        return Plan::Halts(Halt::Asks(request, line));
    }
    let number = top_of(look.numbers);
    let bits = Written::Bits {
        variable,
        offset: 0,
        count: type_.size() as usize,
        bits: number.bits(),
    };
    writes(None, Taken::One, None, bits)
}

/// The next of the words that are drawn of a variable.
pub fn plan_fill<'a>(look: &Look, words: u32, line: u32, variable: u32, offset: usize) -> Plan<'a>
    requires { FitsIn look.now (fills words line variable offset) }
    ensures { PlansItem look.now (fills words line variable offset) result }
{
    if words == 0 {
        takes(Taken::None)
    } else {
        let bits = DrawBits::new(8 * count_drawn(look, variable, offset));
        Plan::Halts(Halt::Asks(Request::Draw(bits), line))
    }
}
