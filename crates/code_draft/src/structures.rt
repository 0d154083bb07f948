//! The code of structure values, which are written into a block from an offset on.

ghost use Rattle.std.specs.Prelude.{◌≡◌, [], ◌∷◌, ◌+◌, IfOk, OnOk};
ghost use Rattle.core_tree.specs.Trees.{Parts, copy, view_place, view_structure, parts_of, with_part};
ghost use Rattle.lowered_code.specs.Lowering.{at_line, structure_line};
ghost use Rattle.code_draft.specs.Drafts.{next, added, after_structure, after_temporary, after_parts, after_text};
ghost use Rattle.goto_prog.specs.declared.code.Operation.TheVariants as operations;
ghost use Rattle.c_types.specs.declared.integers.IntegerType.TheVariants.{UnsignedChar};

use crate::accesses::line_of_place;
use crate::draft::Draft;
use c_types::IntegerType;
use core_tree::{CorePart, CoreStructure, Place, structure_size};
use goto_prog::Operation;
use std::alloc::AllocError;

/// The line of a structure value's own token.
pub(crate) fn line_of_structure(structure: &CoreStructure) -> u32
    ensures { result ≡ structure_line (view_structure structure.now) }
{
    match structure {
        CoreStructure::Read { place, .. } => line_of_place(place),
        CoreStructure::Choice { line, .. } => *line,
        CoreStructure::Assign { line, .. } => *line,
        CoreStructure::Comma { line, .. } => *line,
        CoreStructure::Member { line, .. } => *line,
        CoreStructure::List { line, .. } => *line,
        CoreStructure::String { line, .. } => *line,
        CoreStructure::Call { line, .. } => *line,
    }
}

// An offset behind another. A block that reaches so far can't be had where it has no number.
fn behind(offset: u32, count: u32) -> Result<u32, AllocError>
    ensures { IfOk result (λ o. o ≡ offset + count) }
{
    match offset.checked_add(count) {
        Some(sum) => Ok(sum),
        None => Err(AllocError),
    }
}

impl<'a> Draft<'a> {
    /// Bytes that are 0, into a block.
    pub(crate) fn clear(
        &mut self,
        line: u32,
        into: usize,
        at: u32,
        count: u32,
    ) -> Result<(), AllocError>
        ensures { OnOk result (self.new ≡ added self.old (at_line self.old.frame line (operations.CopyBytes into at self.old.frame.zeros 0 count) ∷ []) []) }
    {
        let from = self.zeros();
        self.push(
            line,
            Operation::CopyBytes {
                into,
                at,
                from,
                offset: 0,
                count,
            },
        )
    }

    // The bytes of a place, into a block.
    #[cycle(expression)]
    fn read_structure(
        &mut self,
        place: &Place,
        size: u32,
        into: usize,
        at: u32,
    ) -> Result<(), AllocError>
        ensures { OnOk result (self.new ≡ after_structure self.old (copy (view_place place.now) size) into at) }
    {
        let way = self.reach(place)?;
        self.fetch(line_of_place(place), way, size, into, at)
    }

    // The bytes of a string, by a register.
    fn text(
        &mut self,
        line: u32,
        bytes: &[u8],
        register: usize,
        into: usize,
        at: u32,
    ) -> Result<(), AllocError>
        ensures { OnOk result (self.new ≡ after_text self.old line bytes.now register into at) }
    {
        let mut offset = at;
        for byte in bytes {
            self.character(line, *byte, register, into, offset)?;
            offset = behind(offset, 1)?;
        }
        Ok(())
    }

    // One of them.
    #[tactic(auto, using(crate::proofs::DraftingStructures::character_adds))]
    fn character(
        &mut self,
        line: u32,
        byte: u8,
        register: usize,
        into: usize,
        at: u32,
    ) -> Result<(), AllocError>
        ensures { (rest : _) → OnOk result (after_text self.new line rest register into (at + 1) ≡ after_text self.old line (byte ∷ rest) register into at) }
    {
        let bits = byte as u64;
        self.push(
            line,
            Operation::Constant {
                into: register,
                bits,
            },
        )?;
        self.push(
            line,
            Operation::Store {
                block: into,
                offset: at,
                count: 1,
                operand: register,
            },
        )
    }

    /// Adds the code of a structure value into the first block that is free, and gives the block's number.
    #[cycle(expression)]
    pub fn temporary(&mut self, value: &CoreStructure) -> Result<usize, AllocError>
        ensures code { OnOk result (self.new ≡ after_temporary self.old (view_structure value.now)) }
        ensures block { IfOk result (λ b. b ≡ self.old.frame.free) }
    {
        let block = self.free();
        match block.checked_add(1) {
            Some(next) => self.set_free(next),
            None => return Err(AllocError),
        }
        self.structure(value, block, 0)?;
        self.set_free(block);
        Ok(block)
    }

    /// Adds the code of a structure value into a block, from an offset on.
    #[cycle(expression)]
    pub fn structure(
        &mut self,
        structure: &CoreStructure,
        into: usize,
        at: u32,
    ) -> Result<(), AllocError>
        ensures { OnOk result (self.new ≡ after_structure self.old (view_structure structure.now) into at) }
    {
        match structure {
            CoreStructure::Read { place, size } => self.read_structure(place, *size, into, at),
            CoreStructure::Choice {
                line,
                test,
                yes,
                no,
            } => {
                let test = self.expression(test)?;
                let skip = self.reserve()?;
                self.structure(yes, into, at)?;
                let over = self.reserve()?;
                self.land(skip, *line, Some(test.register));
                self.structure(no, into, at)?;
                self.land(over, *line, None);
                Ok(())
            }
            CoreStructure::Assign { line, place, value } => {
                let way = self.reach(place)?;
                self.structure(value, into, at)?;
                self.put_bytes(*line, way, structure_size(value), into, at)
            }
            CoreStructure::Comma { left, right, .. } => {
                let _left = self.expression(left)?;
                self.structure(right, into, at)
            }
            CoreStructure::Member {
                line,
                offset,
                size,
                value,
            } => {
                let from = self.temporary(value)?;
                self.push(
                    *line,
                    Operation::CopyBytes {
                        into,
                        at,
                        from,
                        offset: *offset,
                        count: *size,
                    },
                )
            }
            CoreStructure::List { line, size, parts } => {
                self.clear(*line, into, at, *size)?;
                self.parts(*line, parts, into, at)
            }
            CoreStructure::String { line, size, bytes } => {
                self.clear(*line, into, at, *size)?;
                let register = self.register(IntegerType::UnsignedChar)?;
                self.text(*line, bytes, register, into, at)
            }
            CoreStructure::Call {
                line,
                function,
                used,
                size,
                arguments,
            } => {
                let passed = self.pass(arguments)?;
                self.call_passed(*line, *function, *used, *size, passed)?;
                self.push(
                    *line,
                    Operation::CopyBytes {
                        into,
                        at,
                        from: passed.into,
                        offset: 0,
                        count: *size,
                    },
                )
            }
        }
    }

    // The parts of an initializer's list.
    #[cycle(expression)]
    fn parts(
        &mut self,
        line: u32,
        parts: &[CorePart],
        into: usize,
        at: u32,
    ) -> Result<(), AllocError>
        ensures { OnOk result (self.new ≡ after_parts self.old line (parts_of parts.now) into at) }
    {
        for part in parts {
            self.list_part(line, part, into, at)?;
        }
        Ok(())
    }

    // One of them.
    #[cycle(expression)]
    fn list_part(
        &mut self,
        line: u32,
        part: &CorePart,
        into: usize,
        at: u32,
    ) -> Result<(), AllocError>
        ensures { (rest : Parts) → OnOk result (after_parts self.new line rest into at ≡ after_parts self.old line (with_part part.now rest) into at) }
    {
        match part {
            CorePart::Number { offset, value } => {
                let offset = behind(at, *offset)?;
                let x = self.expression(value)?;
                self.push(
                    line,
                    Operation::Store {
                        block: into,
                        offset,
                        count: x.type_.size(),
                        operand: x.register,
                    },
                )
            }
            CorePart::Structure { offset, value } => {
                let offset = behind(at, *offset)?;
                self.structure(value, into, offset)
            }
        }
    }
}
