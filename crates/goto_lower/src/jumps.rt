//! `return`, `break`, `continue` and `goto`: on the way the objects of the variables die that are left.

ghost use Rattle.std.specs.Prelude.{◌≡◌, [], reverse, OnOk};
ghost use Rattle.core_tree.specs.Trees.{view, view_structure, returns, returns_structure, returns_nothing, breaks, continues, jumps};
ghost use Rattle.goto_prog.specs.Nodes.{nodes_of};
ghost use Rattle.goto_lower.specs.Statements.{Drafted};

use crate::exits::Exits;
use crate::objects::{leave, leave_before, leave_to};
use code_draft::Draft;
use core_tree::{CoreExpr, CoreStructure};
use goto_prog::{Node, Operation};
use std::alloc::AllocError;

/// `return` with a number.
pub(crate) fn give(
    draft: &mut Draft<'_>,
    line: u32,
    value: &CoreExpr,
    exits: Exits,
    made: &mut Vec<Node>,
) -> Result<(), AllocError>
    requires { draft.old.instructions ≡ [] }
    ensures { OnOk result (Drafted draft.old draft.new (nodes_of (reverse made.old.items)) (nodes_of (reverse made.new.items)) exits (returns line (view value.now))) }
{
    let block = draft.result_block();
    draft.put(line, Operation::Return { value: Some(block) }, made)?;
    let value = draft.expression(value)?;
    let operation = Operation::Store {
        block,
        offset: 0,
        count: value.type_.size(),
        operand: value.register,
    };
    draft.push(line, operation)?;
    leave(draft, exits.return_deaths)?;
    draft.flush(made)
}

/// `return` with a structure value.
pub(crate) fn give_structure(
    draft: &mut Draft<'_>,
    line: u32,
    value: &CoreStructure,
    exits: Exits,
    made: &mut Vec<Node>,
) -> Result<(), AllocError>
    requires { draft.old.instructions ≡ [] }
    ensures { OnOk result (Drafted draft.old draft.new (nodes_of (reverse made.old.items)) (nodes_of (reverse made.new.items)) exits (returns_structure line (view_structure value.now))) }
{
    let block = draft.result_block();
    draft.put(line, Operation::Return { value: Some(block) }, made)?;
    draft.structure(value, block, 0)?;
    leave(draft, exits.return_deaths)?;
    draft.flush(made)
}

/// `return` without a value.
pub(crate) fn give_nothing(
    draft: &mut Draft<'_>,
    line: u32,
    exits: Exits,
    made: &mut Vec<Node>,
) -> Result<(), AllocError>
    requires { draft.old.instructions ≡ [] }
    ensures { OnOk result (Drafted draft.old draft.new (nodes_of (reverse made.old.items)) (nodes_of (reverse made.new.items)) exits (returns_nothing line)) }
{
    draft.put(line, Operation::Return { value: None }, made)?;
    leave_before(draft, exits.return_deaths, made)
}

/// `break`.
pub(crate) fn leave_loop(
    draft: &mut Draft<'_>,
    line: u32,
    exits: Exits,
    made: &mut Vec<Node>,
) -> Result<(), AllocError>
    requires { draft.old.instructions ≡ [] }
    ensures { OnOk result (Drafted draft.old draft.new (nodes_of (reverse made.old.items)) (nodes_of (reverse made.new.items)) exits (breaks line)) }
{
    draft.jump_to(line, exits.base, exits.break_at, made)?;
    leave_before(draft, exits.break_deaths, made)
}

/// `continue`.
pub(crate) fn end_round(
    draft: &mut Draft<'_>,
    line: u32,
    exits: Exits,
    made: &mut Vec<Node>,
) -> Result<(), AllocError>
    requires { draft.old.instructions ≡ [] }
    ensures { OnOk result (Drafted draft.old draft.new (nodes_of (reverse made.old.items)) (nodes_of (reverse made.new.items)) exits (continues line)) }
{
    draft.jump_to(line, exits.base, exits.continue_at, made)?;
    leave_before(draft, exits.continue_deaths, made)
}

/// `goto`.
pub(crate) fn go_to(
    draft: &mut Draft<'_>,
    line: u32,
    label: u32,
    exits: Exits,
    made: &mut Vec<Node>,
) -> Result<(), AllocError>
    requires { draft.old.instructions ≡ [] }
    ensures { OnOk result (Drafted draft.old draft.new (nodes_of (reverse made.old.items)) (nodes_of (reverse made.new.items)) exits (jumps line label)) }
{
    let place = draft.place_of(label);
    draft.jump_to(line, exits.base, place, made)?;
    leave_to(draft, label, made)
}
