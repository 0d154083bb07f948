//! The code that gives the variables of a block their first values.

ghost use Rattle.std.specs.Prelude.{◌≡◌, ℕ, suc, ◌+◌, replicate, OnOk};
ghost use Rattle.c_types.specs.declared.integers.IntegerType.TheVariants.{UnsignedLong};
ghost use Rattle.core_tree.specs.Trees.{Items, items_of, with_item};
ghost use Rattle.c_values.specs.Variables as variables;
ghost use Rattle.lowered_code.specs.Lowering.{size_of, drawn_registers, first_code, made_code};
ghost use Rattle.lowered_code.specs.Registers.{first_types};
ghost use Rattle.code_draft.specs.Drafts.{next, added};
ghost use Rattle.goto_lower.specs.Statements.{after_words, after_entry};

use crate::objects::make_object;
use c_types::IntegerType;
use c_values::{drawn_count, word_count};
use code_draft::Draft;
use core_tree::CoreItem;
use goto_prog::Operation;
use std::alloc::AllocError;

// A drawn word of a variable, from an offset on.
#[tactic(auto, using(crate::proofs::DraftingStatements::word_adds))]
fn draw_word(draft: &mut Draft<'_>, line: u32, variable: u32, offset: u32) -> Result<(), AllocError>
    ensures { (k : ℕ) → OnOk result (after_words draft.new k line variable (offset + 8) ≡ after_words draft.old (suc k) line variable offset) }
{
    let count = drawn_count(draft.size_of(variable), offset);
    let into = draft.next();
    let operation = Operation::Draw {
        into,
        bits: 8 * count,
    };
    let word = draft.set(line, IntegerType::UnsignedLong, operation)?;
    draft.push(
        line,
        Operation::Store {
            block: variable as usize,
            offset,
            count,
            operand: word.register,
        },
    )
}

// The words of a variable, which are drawn.
#[tactic(auto, using(crate::proofs::DraftingStatements::words_left, crate::proofs::DraftingStatements::no_words))]
fn draw_words(draft: &mut Draft<'_>, line: u32, variable: u32) -> Result<(), AllocError>
    ensures { OnOk result (draft.new ≡ after_words draft.old (variables.word_count (size_of draft.old.frame.variables variable)) line variable 0) }
{
    for word in 0..word_count(draft.size_of(variable)) {
        draw_word(draft, line, variable, 8 * word)?;
    }
    Ok(())
}

// The first value of a variable: drawn, or each byte 0.
fn first_value(
    draft: &mut Draft<'_>,
    line: u32,
    variable: u32,
    drawn: bool,
) -> Result<(), AllocError>
    ensures { OnOk result (draft.new ≡ added draft.old (first_code draft.old.frame line variable drawn (next draft.old)) (replicate (drawn_registers draft.old.frame.variables variable drawn) UnsignedLong)) }
{
    if drawn {
        return draw_words(draft, line, variable);
    }
    let size = draft.size_of(variable);
    let block = variable as usize;
    draft.push(line, Operation::Clear { block, size })
}

// And then, where it has an address, its object is made.
#[tactic(auto, using(crate::proofs::DraftingStatements::made_adds))]
fn make(draft: &mut Draft<'_>, line: u32, variable: u32, drawn: bool) -> Result<(), AllocError>
    ensures { OnOk result (draft.new ≡ added draft.old (made_code draft.old.frame line variable drawn (next draft.old)) (first_types draft.old.frame.variables variable drawn)) }
{
    first_value(draft, line, variable, drawn)?;
    make_object(draft, line, variable)
}

// The first value and the object of the variable that an item declares, if it does.
#[tactic(auto, using(crate::proofs::DraftingStatements::made_more))]
fn enter_item(draft: &mut Draft<'_>, item: &CoreItem) -> Result<(), AllocError>
    ensures { (rest : Items) → OnOk result (after_entry draft.new rest ≡ after_entry draft.old (with_item item.now rest)) }
{
    match item {
        CoreItem::Declare { line, variable } => make(draft, *line, *variable, true),
        CoreItem::Initialize {
            line,
            variable,
            drawn,
            ..
        } => make(draft, *line, *variable, *drawn),
        CoreItem::InitializeStructure {
            line,
            variable,
            drawn,
            ..
        } => make(draft, *line, *variable, *drawn),
        CoreItem::Statement { .. } => Ok(()),
        CoreItem::Label { .. } => Ok(()),
        CoreItem::Case { .. } => Ok(()),
        CoreItem::Default { .. } => Ok(()),
    }
}

/// The first values and the objects of a block's own variables.
pub(crate) fn enter(draft: &mut Draft<'_>, items: &[CoreItem]) -> Result<(), AllocError>
    ensures { OnOk result (draft.new ≡ after_entry draft.old (items_of items.now)) }
{
    for item in items {
        enter_item(draft, item)?;
    }
    Ok(())
}
