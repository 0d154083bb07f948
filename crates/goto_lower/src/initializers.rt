//! What an initializer says, into its variable.

ghost use Rattle.std.specs.Prelude.{◌≡◌, ◌+◌, [], ◌∷◌, ◌++◌, true, reverse, OnOk};
ghost use Rattle.c_types.specs.Integers.{bytes};
ghost use Rattle.c_types.specs.declared.integers.IntegerType.TheVariants.{UnsignedLong};
ghost use Rattle.core_tree.specs.Trees.{view, view_structure};
ghost use Rattle.c_meaning.specs.Meaning.{number_type};
ghost use Rattle.goto_prog.specs.Nodes.{nodes_of};
ghost use Rattle.goto_prog.specs.declared.code.Operation.TheVariants as operations;
ghost use Rattle.c_temporaries.specs.Accesses.{home_in};
ghost use Rattle.lowered_code.specs.Lowering.{at_line, top, plains, initial_put, initial_store, initial_code, code};
ghost use Rattle.lowered_code.specs.Registers.{types, structure_types, initial_types};
ghost use Rattle.code_draft.specs.Drafts.{next, added};
ghost use Rattle.goto_lower.specs.Statements.{typed};

use c_types::IntegerType;
use code_draft::Draft;
use core_tree::{CoreExpr, CoreStructure, structure_size};
use goto_prog::{Node, Operation};
use std::alloc::AllocError;

// So many bytes of the first block that is free are the first ones of the object whose address a variable has.
fn write_first(draft: &mut Draft<'_>, line: u32, home: u32, count: u32) -> Result<(), AllocError>
    ensures { OnOk result (draft.new ≡ added draft.old (at_line draft.old.frame line (operations.Load (next draft.old) UnsignedLong home 0) ∷ at_line draft.old.frame line (operations.Write (next draft.old) draft.old.frame.free 0 count true) ∷ []) (UnsignedLong ∷ [])) }
{
    let operation = Operation::Load {
        into: draft.next(),
        type_: IntegerType::UnsignedLong,
        block: home as usize,
        offset: 0,
    };
    let pointer = draft.set(line, IntegerType::UnsignedLong, operation)?;
    let block = draft.free();
    draft.push(
        line,
        Operation::Write {
            pointer: pointer.register,
            block,
            at: 0,
            count,
            first: true,
        },
    )
}

// They are the first ones of a variable.
fn put_first(draft: &mut Draft<'_>, line: u32, variable: u32, count: u32) -> Result<(), AllocError>
    ensures { OnOk result (draft.new ≡ added draft.old (initial_put draft.old.frame line variable (home_in draft.old.frame.variables variable) count (next draft.old)) (initial_types draft.old.frame.variables variable)) }
{
    let from = draft.free();
    match draft.home_of(variable) {
        Some(home) => write_first(draft, line, home, count),
        None => draft.push(
            line,
            Operation::CopyBytes {
                into: variable as usize,
                at: 0,
                from,
                offset: 0,
                count,
            },
        ),
    }
}

// The number of this type that a register has is the first value of a variable.
fn store_first(
    draft: &mut Draft<'_>,
    line: u32,
    variable: u32,
    type_: IntegerType,
    operand: usize,
) -> Result<(), AllocError>
    ensures { OnOk result (draft.new ≡ added draft.old (initial_store draft.old.frame line variable (home_in draft.old.frame.variables variable) type_ operand (next draft.old)) (initial_types draft.old.frame.variables variable)) }
{
    match draft.home_of(variable) {
        Some(home) => store_object(draft, line, home, type_, operand),
        None => draft.push(
            line,
            Operation::Store {
                block: variable as usize,
                offset: 0,
                count: type_.size(),
                operand,
            },
        ),
    }
}

// It is that of the object whose address a variable has.
fn store_object(
    draft: &mut Draft<'_>,
    line: u32,
    home: u32,
    type_: IntegerType,
    operand: usize,
) -> Result<(), AllocError>
    ensures { OnOk result (draft.new ≡ added draft.old (at_line draft.old.frame line (operations.Store draft.old.frame.free 0 (bytes type_) operand) ∷ at_line draft.old.frame line (operations.Load (next draft.old) UnsignedLong home 0) ∷ at_line draft.old.frame line (operations.Write (next draft.old) draft.old.frame.free 0 (bytes type_) true) ∷ []) (UnsignedLong ∷ [])) }
{
    let block = draft.free();
    let count = type_.size();
    draft.push(
        line,
        Operation::Store {
            block,
            offset: 0,
            count,
            operand,
        },
    )?;
    write_first(draft, line, home, count)
}

/// A variable with an initializer, before the nodes that are made.
pub(crate) fn initialize_number(
    draft: &mut Draft<'_>,
    line: u32,
    variable: u32,
    value: &CoreExpr,
    made: &mut Vec<Node>,
) -> Result<(), AllocError>
    requires { draft.old.instructions ≡ [] }
    ensures draft { OnOk result (draft.new ≡ typed draft.old (types draft.old.frame.variables (view value.now) ++ initial_types draft.old.frame.variables variable)) }
    ensures code { OnOk result (nodes_of (reverse made.new.items) ≡ plains (code draft.old.frame (view value.now) (next draft.old)) (plains (initial_store draft.old.frame line variable (home_in draft.old.frame.variables variable) (number_type (view value.now)) (next draft.old + top draft.old.frame.variables (view value.now)) (next draft.old + (top draft.old.frame.variables (view value.now) + 1))) (nodes_of (reverse made.old.items)))) }
{
    let value = draft.expression(value)?;
    store_first(draft, line, variable, value.type_, value.register)?;
    draft.flush(made)
}

/// The structure value of an initializer, by a block that is free.
pub(crate) fn initialize_structure(
    draft: &mut Draft<'_>,
    line: u32,
    variable: u32,
    value: &CoreStructure,
) -> Result<(), AllocError>
    ensures { OnOk result (draft.new ≡ added draft.old (initial_code draft.old.frame line variable (view_structure value.now) (next draft.old)) (structure_types draft.old.frame.variables (view_structure value.now) ++ initial_types draft.old.frame.variables variable)) }
{
    let _block = draft.temporary(value)?;
    put_first(draft, line, variable, structure_size(value))
}
