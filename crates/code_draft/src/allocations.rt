//! The code that allocates and releases, and that ends the process.

ghost use Rattle.std.specs.Prelude.{◌≡◌, [], ◌∷◌, ◌+◌, false, true, IfOk, OnOk};
ghost use Rattle.c_types.specs.declared.integers.IntegerType.TheVariants.{Int, UnsignedLong};
ghost use Rattle.core_tree.specs.Trees.{Expression, allocate, allocate_zeroed, release, exit, abort};
ghost use Rattle.goto_prog.specs.declared.code.Operation.TheVariants as operations;
ghost use Rattle.lowered_code.specs.Lowering.{at_line};
ghost use Rattle.code_draft.specs.Drafts.{Listed, next, added, operand, Lowers, asked_code, drawn_code, zeroed_code, freed_code};

use crate::draft::Draft;
use crate::operand::Operand;
use crate::pointers::pointer_in;
use c_temporaries::HEAP_BYTES;
use c_types::IntegerType;
use core_tree::ArithmeticOperator;
use goto_prog::Operation;
use std::alloc::AllocError;

/// The registers of an allocation: whether it fails, a number on the way, and the pointer.
#[derive(Clone, Copy)]
struct Grant {
    failed: usize,
    number: usize,
    pointer: usize,
}

impl<'a> Draft<'a> {
    // An allocation may fail: then its pointer is null, and what grants it, so many instructions, is passed over.
    fn ask(&mut self, line: u32, granted: usize) -> Result<Grant, AllocError>
        ensures code { OnOk result (self.new ≡ added self.old (asked_code self.old.frame line (next self.old) (next self.old + 2) granted) (Int ∷ UnsignedLong ∷ UnsignedLong ∷ [])) }
        ensures registers { IfOk result (λ g. g ≡ record { failed = next self.old; number = next self.old + 1; pointer = next self.old + 2 }) }
    {
        let failed = self.register(IntegerType::Int)?;
        let number = self.register(IntegerType::UnsignedLong)?;
        let pointer = self.register(IntegerType::UnsignedLong)?;
        self.push(line, Operation::MayFail { into: failed })?;
        self.push(
            line,
            Operation::SkipIfZero {
                operand: failed,
                count: 2,
            },
        )?;
        self.push(
            line,
            Operation::Constant {
                into: pointer,
                bits: 0,
            },
        )?;
        self.push(line, Operation::Skip { count: granted })?;
        Ok(Grant {
            failed,
            number,
            pointer,
        })
    }

    // So many bytes are granted, which are drawn; a register on the way has 1.
    fn grant_drawn(
        &mut self,
        line: u32,
        one: usize,
        size: usize,
        pointer: usize,
    ) -> Result<Operand, AllocError>
        ensures code { OnOk result (self.new ≡ added self.old (drawn_code self.old.frame line one size pointer) []) }
        ensures value { IfOk result (λ x. x ≡ operand pointer UnsignedLong line) }
    {
        let block = self.heap();
        self.push(line, Operation::Constant { into: one, bits: 1 })?;
        self.push(
            line,
            Operation::Limit {
                left: size,
                right: one,
            },
        )?;
        self.push(line, Operation::Fill { block, count: size })?;
        let operation = Operation::Alloc {
            into: pointer,
            block,
            size,
            readonly: false,
            heap: true,
        };
        self.push(line, operation)?;
        Ok(pointer_in(line, pointer))
    }

    // So many times as many bytes are granted, which are 0; a register has how many they are.
    fn grant_zeroed(
        &mut self,
        line: u32,
        count: usize,
        size: usize,
        grant: Grant,
    ) -> Result<Operand, AllocError>
        ensures code { OnOk result (self.new ≡ added self.old (zeroed_code self.old.frame line count size grant.number grant.pointer) []) }
        ensures value { IfOk result (λ x. x ≡ operand grant.pointer UnsignedLong line) }
    {
        let block = self.heap();
        self.push(
            line,
            Operation::Limit {
                left: count,
                right: size,
            },
        )?;
        let operation = Operation::Arithmetic {
            into: grant.number,
            operator: ArithmeticOperator::Multiply,
            type_: IntegerType::UnsignedLong,
            right_type: IntegerType::UnsignedLong,
            left: count,
            right: size,
        };
        self.push(line, operation)?;
        self.push(
            line,
            Operation::Clear {
                block,
                size: HEAP_BYTES,
            },
        )?;
        let operation = Operation::Alloc {
            into: grant.pointer,
            block,
            size: grant.number,
            readonly: false,
            heap: true,
        };
        self.push(line, operation)?;
        Ok(pointer_in(line, grant.pointer))
    }

    /// `malloc` behind its argument.
    pub(crate) fn allocate(&mut self, line: u32, size: Operand) -> Result<Operand, AllocError>
        ensures { (old : Listed) (e : Expression) → Lowers old self.old e size → IfOk result (λ x. Lowers old self.new (allocate line e) x) }
    {
        let grant = self.ask(line, 4)?;
        self.grant_drawn(line, grant.number, size.register, grant.pointer)
    }

    /// `calloc` behind its arguments.
    pub(crate) fn allocate_zeroed(
        &mut self,
        line: u32,
        count: Operand,
        size: Operand,
    ) -> Result<Operand, AllocError>
        ensures { (old mid : Listed) (a b : Expression) → Lowers old mid a count → Lowers mid self.old b size → IfOk result (λ x. Lowers old self.new (allocate_zeroed line a b) x) }
    {
        let grant = self.ask(line, 4)?;
        self.grant_zeroed(line, count.register, size.register, grant)
    }

    // What a pointer points to is freed, where it isn't null.
    fn free_code(&mut self, line: u32, pointer: usize) -> Result<Operand, AllocError>
        ensures code { OnOk result (self.new ≡ added self.old (freed_code self.old.frame line pointer (next self.old)) (Int ∷ [])) }
        ensures value { IfOk result (λ x. x ≡ operand (next self.old) Int line) }
    {
        self.push(
            line,
            Operation::SkipIfZero {
                operand: pointer,
                count: 1,
            },
        )?;
        self.push(line, Operation::Free { pointer })?;
        let into = self.next();
        self.set(
            line,
            IntegerType::Int,
            Operation::Constant { into, bits: 0 },
        )
    }

    /// `free` behind its argument.
    pub(crate) fn release(&mut self, line: u32, x: Operand) -> Result<Operand, AllocError>
        ensures { (old : Listed) (e : Expression) → Lowers old self.old e x → IfOk result (λ y. Lowers old self.new (release line e) y) }
    {
        self.free_code(line, x.register)
    }

    // The process ends.
    fn end(&mut self, line: u32) -> Result<Operand, AllocError>
        ensures code { OnOk result (self.new ≡ added self.old (at_line self.old.frame line operations.Exit ∷ []) (Int ∷ [])) }
        ensures value { IfOk result (λ x. x ≡ operand (next self.old) Int line) }
    {
        self.set(line, IntegerType::Int, Operation::Exit)
    }

    /// `exit` behind its argument.
    pub(crate) fn exit(&mut self, line: u32, _status: Operand) -> Result<Operand, AllocError>
        ensures { (old : Listed) (e : Expression) → Lowers old self.old e _status → IfOk result (λ y. Lowers old self.new (exit line e) y) }
    {
        self.end(line)
    }

    /// `abort`.
    pub(crate) fn abort(&mut self, line: u32) -> Result<Operand, AllocError>
        ensures { IfOk result (λ x. Lowers self.old self.new (abort line) x) }
    {
        self.end(line)
    }
}
