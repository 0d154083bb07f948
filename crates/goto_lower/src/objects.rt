//! The objects of variables with addresses: they are made, live, and die on each way out.

ghost use Rattle.std.specs.Prelude.{◌≡◌, ◌-◌, [], ◌∷◌, Some, reverse, IfOk, OnOk};
ghost use Rattle.c_types.specs.declared.integers.IntegerType.TheVariants.{UnsignedLong};
ghost use Rattle.core_tree.specs.Trees.{Items, items_of, with_item};
ghost use Rattle.goto_prog.specs.Nodes.{nodes_of};
ghost use Rattle.c_temporaries.specs.Accesses.{home_in};
ghost use Rattle.lowered_code.specs.Lowering.{plains, home_code};
ghost use Rattle.lowered_code.specs.Registers.{death_types};
ghost use Rattle.code_draft.specs.Drafts.{next, added, deaths_of, deaths_to};
ghost use Rattle.goto_lower.specs.Statements.{typed, home_types, after_parameters, living_one, living, living_parameters, alive_count, parameter_count};

use c_types::IntegerType;
use code_draft::Draft;
use core_tree::CoreItem;
use goto_prog::{Node, Operation};
use std::alloc::AllocError;

/// The object of a variable is made of its bytes, where it has an address.
pub(crate) fn make_object(draft: &mut Draft<'_>, line: u32, variable: u32) -> Result<(), AllocError>
    ensures { OnOk result (draft.new ≡ added draft.old (home_code draft.old.frame line variable (home_in draft.old.frame.variables variable) (next draft.old)) (home_types draft.old.frame.variables variable)) }
{
    match draft.home_of(variable) {
        Some(home) => make_home(draft, line, variable, home),
        None => Ok(()),
    }
}

// It is made, and another variable holds its address.
fn make_home(draft: &mut Draft<'_>, line: u32, variable: u32, home: u32) -> Result<(), AllocError>
    ensures { OnOk result (draft.new ≡ added draft.old (home_code draft.old.frame line variable (Some home) (next draft.old)) (UnsignedLong ∷ UnsignedLong ∷ [])) }
{
    let operation = Operation::Constant {
        into: draft.next(),
        bits: draft.size_of(variable) as u64,
    };
    let size = draft.set(line, IntegerType::UnsignedLong, operation)?;
    let operation = Operation::Alloc {
        into: draft.next(),
        block: variable as usize,
        size: size.register,
        readonly: draft.is_readonly(variable),
        heap: false,
    };
    let pointer = draft.set(line, IntegerType::UnsignedLong, operation)?;
    draft.push(
        line,
        Operation::Store {
            block: home as usize,
            offset: 0,
            count: 8,
            operand: pointer.register,
        },
    )
}

/// Those of so many parameters are made.
#[tactic(auto, using(crate::proofs::DraftingStatements::parameters_left, crate::proofs::DraftingStatements::no_parameters))]
pub(crate) fn make_parameters(
    draft: &mut Draft<'_>,
    line: u32,
    count: u32,
) -> Result<(), AllocError>
    ensures { OnOk result (draft.new ≡ after_parameters draft.old line count 0) }
{
    for variable in 0..count {
        make_object(draft, line, variable)?;
    }
    Ok(())
}

// ---- which live

// The object of a variable lives, where it has an address.
fn live(draft: &mut Draft<'_>, line: u32, variable: u32) -> Result<(), AllocError>
    ensures { OnOk result (draft.new ≡ living_one draft.old line variable) }
{
    match draft.home_of(variable) {
        Some(home) => draft.live(line, home),
        None => Ok(()),
    }
}

// That of the variable that an item declares, if it does.
fn live_item(draft: &mut Draft<'_>, item: &CoreItem) -> Result<(), AllocError>
    ensures { (rest : Items) → OnOk result (living draft.new rest ≡ living draft.old (with_item item.now rest)) }
{
    match item {
        CoreItem::Declare { line, variable } => live(draft, *line, *variable),
        CoreItem::Initialize { line, variable, .. } => live(draft, *line, *variable),
        CoreItem::InitializeStructure { line, variable, .. } => live(draft, *line, *variable),
        CoreItem::Statement { .. } => Ok(()),
        CoreItem::Label { .. } => Ok(()),
        CoreItem::Case { .. } => Ok(()),
        CoreItem::Default { .. } => Ok(()),
    }
}

// Those of a block's own variables.
fn live_all(draft: &mut Draft<'_>, items: &[CoreItem]) -> Result<(), AllocError>
    ensures { OnOk result (draft.new ≡ living draft.old (items_of items.now)) }
{
    for item in items {
        live_item(draft, item)?;
    }
    Ok(())
}

/// The objects of a block's own variables live. Gives how many they are.
#[tactic(auto, using(crate::proofs::DraftingStatements::living_count))]
pub(crate) fn live_items(draft: &mut Draft<'_>, items: &[CoreItem]) -> Result<usize, AllocError>
    ensures draft { OnOk result (draft.new ≡ living draft.old (items_of items.now)) }
    ensures count { IfOk result (λ n. n ≡ alive_count draft.old.frame.variables (items_of items.now)) }
{
    let known = draft.known();
    live_all(draft, items)?;
    Ok(draft.known().saturating_sub(known))
}

// Those of so many parameters.
#[tactic(auto, using(crate::proofs::DraftingStatements::living_left, crate::proofs::DraftingStatements::none_living))]
fn live_first(draft: &mut Draft<'_>, line: u32, count: u32) -> Result<(), AllocError>
    ensures { OnOk result (draft.new ≡ living_parameters draft.old line count 0) }
{
    for variable in 0..count {
        live(draft, line, variable)?;
    }
    Ok(())
}

/// The objects of so many parameters live. Gives how many they are.
#[tactic(auto, using(crate::proofs::DraftingStatements::living_parameter_count))]
pub(crate) fn live_parameters(
    draft: &mut Draft<'_>,
    line: u32,
    count: u32,
) -> Result<usize, AllocError>
    ensures draft { OnOk result (draft.new ≡ living_parameters draft.old line count 0) }
    ensures count { IfOk result (λ n. n ≡ parameter_count draft.old.frame.variables count 0) }
{
    let known = draft.known();
    live_first(draft, line, count)?;
    Ok(draft.known().saturating_sub(known))
}

// ---- which die

/// So many of the latest objects die.
#[tactic(auto, using(crate::proofs::DraftingStatements::left_by))]
pub(crate) fn leave(draft: &mut Draft<'_>, count: usize) -> Result<(), AllocError>
    ensures { OnOk result (draft.new ≡ added draft.old (deaths_of draft.old.frame draft.old.marks count (next draft.old)) (death_types draft.old.frame.variables)) }
{
    let register = draft.death_register()?;
    draft.leave(count, register)
}

/// They die in front of the nodes that are made.
pub(crate) fn leave_before(
    draft: &mut Draft<'_>,
    count: usize,
    made: &mut Vec<Node>,
) -> Result<(), AllocError>
    requires { draft.old.instructions ≡ [] }
    ensures draft { OnOk result (draft.new ≡ typed draft.old (death_types draft.old.frame.variables)) }
    ensures code { OnOk result (nodes_of (reverse made.new.items) ≡ plains (deaths_of draft.old.frame draft.old.marks count (next draft.old)) (nodes_of (reverse made.old.items))) }
{
    leave(draft, count)?;
    draft.flush(made)
}

// Those die that live since a label is known.
#[tactic(auto, using(crate::proofs::DraftingStatements::left_to))]
fn leave_since(draft: &mut Draft<'_>, label: u32) -> Result<(), AllocError>
    ensures { OnOk result (draft.new ≡ added draft.old (deaths_to draft.old.frame draft.old.marks label (next draft.old)) (death_types draft.old.frame.variables)) }
{
    let register = draft.death_register()?;
    draft.leave_to(label, register)
}

/// Those die in front of the nodes that are made that live since a label is known.
pub(crate) fn leave_to(
    draft: &mut Draft<'_>,
    label: u32,
    made: &mut Vec<Node>,
) -> Result<(), AllocError>
    requires { draft.old.instructions ≡ [] }
    ensures draft { OnOk result (draft.new ≡ typed draft.old (death_types draft.old.frame.variables)) }
    ensures code { OnOk result (nodes_of (reverse made.new.items) ≡ plains (deaths_to draft.old.frame draft.old.marks label (next draft.old)) (nodes_of (reverse made.old.items))) }
{
    leave_since(draft, label)?;
    draft.flush(made)
}
