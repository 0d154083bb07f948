//! The code that reads and writes places, by how they are reached.

ghost use Rattle.std.specs.Prelude.{◌≡◌, [], ◌∷◌, ◌+◌, IfOk, OnOk};
ghost use Rattle.core_tree.specs.Trees.{view_place};
ghost use Rattle.c_meaning.specs.Meaning.{place_line};
ghost use Rattle.lowered_code.specs.Lowering.{at_line, read_code, write_code, update_code, fetch_code, put_code};
ghost use Rattle.lowered_code.specs.Registers.{update_types};
ghost use Rattle.code_draft.specs.Drafts.{next, added, operand};
ghost use Rattle.goto_prog.specs.declared.code.Operation.TheVariants as operations;

use crate::draft::Draft;
use crate::operand::{Operand, Updated, Way};
use c_temporaries::Access;
use c_types::IntegerType;
use core_tree::{ArithmeticOperator, Place};
use goto_prog::Operation;
use std::alloc::AllocError;

/// The line of a place's own token.
pub(crate) fn line_of_place(place: &Place) -> u32
    ensures { result ≡ place_line (view_place place.now) }
{
    match place {
        Place::Variable { line, .. } => *line,
        Place::Object { line, .. } => *line,
        Place::Literal { line, .. } => *line,
        Place::Pointed { line, .. } => *line,
        Place::Arrow { line, .. } => *line,
        Place::Member { line, .. } => *line,
        Place::Element { line, .. } => *line,
        Place::Subscript { line, .. } => *line,
    }
}

impl<'a> Draft<'a> {
    /// So many bytes of a place, into a block.
    pub(crate) fn fetch(
        &mut self,
        line: u32,
        way: Way,
        size: u32,
        into: usize,
        at: u32,
    ) -> Result<(), AllocError>
        ensures { OnOk result (self.new ≡ added self.old (fetch_code self.old.frame line way.access way.pointer size into at) []) }
    {
        let operation = match way.access {
            Access::Variable { variable, offset } => Operation::CopyBytes {
                into,
                at,
                from: variable as usize,
                offset,
                count: size,
            },
            Access::Object { object, offset } => Operation::ReadObject {
                block: into,
                at,
                object,
                offset,
                count: size,
            },
            Access::Within { variable } => Operation::Take {
                block: into,
                at,
                from: variable as usize,
                offset: way.pointer,
                count: size,
                whole: self.size_of(variable),
            },
            Access::Pointed => Operation::Read {
                block: into,
                at,
                pointer: way.pointer,
                count: size,
            },
        };
        self.push(line, operation)
    }

    /// So many bytes of a block, into a place.
    pub(crate) fn put_bytes(
        &mut self,
        line: u32,
        way: Way,
        size: u32,
        from: usize,
        at: u32,
    ) -> Result<(), AllocError>
        ensures { OnOk result (self.new ≡ added self.old (put_code self.old.frame line way.access way.pointer size from at) []) }
    {
        let operation = match way.access {
            Access::Variable { variable, offset } => Operation::CopyBytes {
                into: variable as usize,
                at: offset,
                from,
                offset: at,
                count: size,
            },
            Access::Object { object, offset } => Operation::WriteObject {
                object,
                offset,
                block: from,
                at,
                count: size,
            },
            Access::Within { variable } => Operation::Put {
                block: variable as usize,
                offset: way.pointer,
                from,
                at,
                count: size,
                whole: self.size_of(variable),
            },
            Access::Pointed => Operation::Write {
                pointer: way.pointer,
                block: from,
                at,
                count: size,
                first: false,
            },
        };
        self.push(line, operation)
    }

    // The number of this type that a block has, from an offset on.
    fn load_from(
        &mut self,
        line: u32,
        type_: IntegerType,
        block: usize,
        offset: u32,
    ) -> Result<Operand, AllocError>
        ensures code { OnOk result (self.new ≡ added self.old (at_line self.old.frame line (operations.Load (next self.old) type_ block offset) ∷ []) (type_ ∷ [])) }
        ensures value { IfOk result (λ x. x ≡ operand (next self.old) type_ line) }
    {
        let operation = Operation::Load {
            into: self.next(),
            type_,
            block,
            offset,
        };
        self.set(line, type_, operation)
    }

    /// The number of this type at a place.
    pub(crate) fn load(
        &mut self,
        line: u32,
        type_: IntegerType,
        way: Way,
    ) -> Result<Operand, AllocError>
        ensures code { OnOk result (self.new ≡ added self.old (read_code self.old.frame line (next self.old) type_ way.access way.pointer) (type_ ∷ [])) }
        ensures value { IfOk result (λ x. x ≡ operand (next self.old) type_ line) }
    {
        if let Access::Variable { variable, offset } = way.access {
            return self.load_from(line, type_, variable as usize, offset);
        }
        let block = self.free();
        self.fetch(line, way, type_.size(), block, 0)?;
        self.load_from(line, type_, block, 0)
    }

    /// A register's bytes of this type, into a place.
    pub(crate) fn store(
        &mut self,
        line: u32,
        type_: IntegerType,
        way: Way,
        operand: usize,
    ) -> Result<(), AllocError>
        ensures { OnOk result (self.new ≡ added self.old (write_code self.old.frame line type_ way.access way.pointer operand) []) }
    {
        let count = type_.size();
        if let Access::Variable { variable, offset } = way.access {
            return self.push(
                line,
                Operation::Store {
                    block: variable as usize,
                    offset,
                    count,
                    operand,
                },
            );
        }
        let block = self.free();
        self.push(
            line,
            Operation::Store {
                block,
                offset: 0,
                count,
                operand,
            },
        )?;
        self.put_bytes(line, way, count, block, 0)
    }

    /// The number of type `type_` at the place, an operation of type `by` with it and `y`, and the result back
    /// into the place. It is read at the line `at`.
    pub(crate) fn update_by(
        &mut self,
        at: u32,
        line: u32,
        type_: IntegerType,
        way: Way,
        operator: ArithmeticOperator,
        by: IntegerType,
        y: Operand,
    ) -> Result<Updated, AllocError>
        ensures code { OnOk result (self.new ≡ added self.old (update_code self.old.frame at line type_ way.access way.pointer operator by y.type_ y.register (next self.old)) (update_types type_ by)) }
        ensures registers { IfOk result (λ u. u ≡ record { old = next self.old; new = next self.old + 3 }) }
    {
        let loaded = self.load(at, type_, way)?;
        let operation = Operation::Convert {
            into: self.next(),
            from: type_,
            to: by,
            operand: loaded.register,
        };
        let left = self.set(line, by, operation)?;
        let operation = Operation::Arithmetic {
            into: self.next(),
            operator,
            type_: by,
            right_type: y.type_,
            left: left.register,
            right: y.register,
        };
        let value = self.set(line, by, operation)?;
        let operation = Operation::Convert {
            into: self.next(),
            from: by,
            to: type_,
            operand: value.register,
        };
        let back = self.set(line, type_, operation)?;
        self.store(line, type_, way, back.register)?;
        Ok(Updated {
            old: loaded.register,
            new: back.register,
        })
    }
}
