//! Flat code: a list of instructions with its registers and blocks.

ghost use Rattle.std.specs.Prelude.{◌≡◌, true};
ghost use Rattle.goto_prog.specs.Fitting.{code_fits};
ghost use Rattle.goto_prog.specs.UnrolledCode.{is_flat, is_flat_code};

use crate::code::{Instruction, Operation};
use c_types::IntegerType;
use std::marker::Model;

/// The code of a function: the types of its registers, the sizes of its blocks in bytes, its instructions,
/// and whether a thread can be started in it. The registers that an instruction names are there with the
/// types that it asks for, the bytes of blocks that it names are there, and each jump stays within the code
/// or ends right behind it.
#[derive(Drop)]
pub struct Code {
    registers: Vec<IntegerType>,
    blocks: Vec<u32>,
    instructions: Vec<Instruction>,
    startable: bool,
}

impl Model for Code {
    ghost use Rattle.std.specs.Prelude.{◌≡◌, true};
    ghost use Rattle.goto_prog.specs.Fitting.{code_fits};
    ghost use Rattle.goto_prog.specs.CodeThread.{Listing};

    ghost Value = { Listing };

    ghost view = { λ c. record { registers = c.registers.items; blocks = c.blocks.items; instructions = c.instructions.items; startable = c.startable } };

    ghost invariant = { λ c. code_fits c.registers.items c.blocks.items c.instructions.items ≡ true };
}

impl Code {
    /// Code with these registers, blocks and instructions.
    pub fn new(
        registers: Vec<IntegerType>,
        blocks: Vec<u32>,
        instructions: Vec<Instruction>,
        startable: bool,
    ) -> Code
        requires { code_fits registers.items blocks.items instructions.items ≡ true }
        ensures { result ≡ record { registers = registers.items; blocks = blocks.items; instructions = instructions.items; startable = startable } }
    {
        Code {
            registers,
            blocks,
            instructions,
            startable,
        }
    }

    /// The types of the registers.
    pub fn registers(&self) -> &[IntegerType]
        ensures { result.now ≡ self.now.registers }
    {
        &self.registers
    }

    /// The sizes of the blocks in bytes.
    pub fn blocks(&self) -> &[u32]
        ensures { result.now ≡ self.now.blocks }
    {
        &self.blocks
    }

    /// The instructions, in order.
    pub fn instructions(&self) -> &[Instruction]
        ensures is { result.now ≡ self.now.instructions }
        ensures fits { code_fits self.now.registers self.now.blocks self.now.instructions ≡ true }
    {
        &self.instructions
    }

    /// Whether a thread can be started in the function.
    pub fn is_startable(&self) -> bool
        ensures { result ≡ self.now.startable }
    {
        self.startable
    }

    /// Whether no instruction calls a function, returns, or asks for bounds.
    #[tactic(auto, using(crate::proofs::FlatCode::flat_later, crate::proofs::FlatCode::not_flat, crate::proofs::FlatCode::flat_whole))]
    pub fn is_flat(&self) -> bool
        ensures { result ≡ is_flat_code self.now }
    {
        for instruction in self.instructions() {
            if !is_flat(instruction.operation) {
                return false;
            }
        }
        true
    }
}

// Whether an operation neither calls a function nor returns, nor asks for bounds.
fn is_flat(operation: Operation) -> bool
    ensures { result ≡ is_flat operation }
{
    match operation {
        Operation::Call { .. } => false,
        Operation::Return { .. } => false,
        Operation::MayFail { .. } => false,
        Operation::Limit { .. } => false,
        _ => true,
    }
}
