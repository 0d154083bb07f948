//! The code of expressions.

ghost use Rattle.std.specs.Prelude.{◌≡◌, [], ◌∷◌, ◌+◌, ◌<◌, IfOk, OnOk};
ghost use Rattle.core_tree.specs.Trees as trees;
ghost use Rattle.core_tree.specs.Trees.{Expression, view, constant, read, convert, sign, is_zero, arithmetic, compare, logical, choice, assign, update, step, comma, assertion, assumption, draw, part, discard, discard_structure, call, view_structure, arguments_of, with_argument, Arguments};
ghost use Rattle.c_meaning.specs.Meaning.{integer_of, place_line};
ghost use Rattle.goto_prog.specs.declared.code.Operation.TheVariants as instructions;
ghost use Rattle.c_temporaries.specs.Temporaries.{value_size};
ghost use Rattle.lowered_code.specs.Lowering.{at_line, argument_count, truth_code, use_code, taken_code};
ghost use Rattle.code_draft.specs.Drafts.{Listed, next, added, operand, Reaches, Lowers, after_arguments, after_passed};

use crate::accesses::line_of_place;
use crate::draft::Draft;
use crate::operand::{Operand, Passed, Way, step_value};
use crate::places::more;
use crate::structures::line_of_structure;
use c_temporaries::value_size;
use c_types::{IntegerType, ValueType, promote};
use core_tree::{
    ArithmeticOperator, Comparison, CoreArgument, CoreExpr, CoreStructure, LogicalOperator,
    SignOperator, StepOperator, drawn_width, step_operation,
};
use goto_prog::Operation;
use std::alloc::AllocError;

// The value of `,`, which is its right operand's.
fn comma(line: u32, y: Operand) -> Operand
    ensures { (old mid new : Listed) (a b : Expression) (x : Operand) → Lowers old mid a x → Lowers mid new b y → Lowers old new (comma line a b) result }
{
    Operand { line, ..y }
}

impl<'a> Draft<'a> {
    pub(crate) fn constant(
        &mut self,
        line: u32,
        type_: IntegerType,
        bits: u64,
    ) -> Result<Operand, AllocError>
        ensures { IfOk result (λ x. Lowers self.old self.new (constant line type_ bits) x) }
    {
        let into = self.next();
        self.set(line, type_, Operation::Constant { into, bits })
    }

    fn draw(&mut self, line: u32, type_: IntegerType) -> Result<Operand, AllocError>
        ensures { IfOk result (λ x. Lowers self.old self.new (draw line type_) x) }
    {
        let into = self.next();
        let bits = drawn_width(type_);
        self.set(line, type_, Operation::Draw { into, bits })
    }

    // The number of this type at a place.
    fn read(&mut self, line: u32, type_: IntegerType, way: Way) -> Result<Operand, AllocError>
        ensures { (old : Listed) (x : trees.Place) → line ≡ place_line x → Reaches old self.old x way → IfOk result (λ y. Lowers old self.new (read type_ x) y) }
    {
        self.load(line, type_, way)
    }

    // ---- behind one operand

    fn convert(&mut self, to: IntegerType, x: Operand) -> Result<Operand, AllocError>
        ensures { (old : Listed) (e : Expression) → Lowers old self.old e x → IfOk result (λ y. Lowers old self.new (convert to e) y) }
    {
        let operation = Operation::Convert {
            into: self.next(),
            from: x.type_,
            to,
            operand: x.register,
        };
        self.set(x.line, to, operation)
    }

    fn sign(&mut self, line: u32, operator: SignOperator, x: Operand) -> Result<Operand, AllocError>
        ensures { (old : Listed) (e : Expression) → Lowers old self.old e x → IfOk result (λ y. Lowers old self.new (sign line operator e) y) }
    {
        let operation = Operation::Sign {
            into: self.next(),
            operator,
            type_: x.type_,
            operand: x.register,
        };
        self.set(line, x.type_, operation)
    }

    fn is_zero(&mut self, line: u32, x: Operand) -> Result<Operand, AllocError>
        ensures { (old : Listed) (e : Expression) → Lowers old self.old e x → IfOk result (λ y. Lowers old self.new (is_zero line e) y) }
    {
        let operation = Operation::IsZero {
            into: self.next(),
            operand: x.register,
        };
        self.set(line, IntegerType::Int, operation)
    }

    fn assign(
        &mut self,
        line: u32,
        type_: IntegerType,
        way: Way,
        x: Operand,
    ) -> Result<Operand, AllocError>
        ensures { (old mid : Listed) (p : trees.Place) (e : Expression) → Reaches old mid p way → Lowers mid self.old e x → IfOk result (λ y. Lowers old self.new (assign line type_ p e) y) }
    {
        self.store(line, type_, way, x.register)?;
        Ok(Operand {
            register: x.register,
            type_,
            line,
        })
    }

    // The place is read at the line `at`.
    fn update(
        &mut self,
        at: u32,
        line: u32,
        type_: IntegerType,
        way: Way,
        operator: ArithmeticOperator,
        by: IntegerType,
        y: Operand,
    ) -> Result<Operand, AllocError>
        ensures { (old mid : Listed) (p : trees.Place) (e : Expression) → at ≡ place_line p → Reaches old mid p way → Lowers mid self.old e y → IfOk result (λ x. Lowers old self.new (update line type_ p operator by e) x) }
    {
        let updated = self.update_by(at, line, type_, way, operator, by, y)?;
        Ok(Operand {
            register: updated.new,
            type_,
            line,
        })
    }

    // So is it here.
    fn step(
        &mut self,
        at: u32,
        line: u32,
        type_: IntegerType,
        way: Way,
        operator: StepOperator,
        before: bool,
    ) -> Result<Operand, AllocError>
        ensures { (old : Listed) (p : trees.Place) → at ≡ place_line p → Reaches old self.old p way → IfOk result (λ x. Lowers old self.new (step line type_ p operator before) x) }
    {
        let promoted = promote(type_);
        let one = self.constant(line, promoted, 1)?;
        let updated = self.update_by(
            at,
            line,
            type_,
            way,
            step_operation(operator),
            promoted,
            one,
        )?;
        let operation = Operation::Copy {
            into: self.next(),
            operand: step_value(updated, before),
        };
        self.set(line, type_, operation)
    }

    fn assertion(&mut self, line: u32, x: Operand) -> Result<Operand, AllocError>
        ensures { (old : Listed) (e : Expression) → Lowers old self.old e x → IfOk result (λ y. Lowers old self.new (assertion line e) y) }
    {
        let operand = x.register;
        self.push(line, Operation::Assert { operand })?;
        self.constant(line, IntegerType::Int, 0)
    }

    fn assumption(&mut self, line: u32, x: Operand) -> Result<Operand, AllocError>
        ensures { (old : Listed) (e : Expression) → Lowers old self.old e x → IfOk result (λ y. Lowers old self.new (assumption line e) y) }
    {
        let operand = x.register;
        self.push(line, Operation::Assume { operand })?;
        self.constant(line, IntegerType::Int, 0)
    }

    fn discard(&mut self, line: u32, _x: Operand) -> Result<Operand, AllocError>
        ensures { (old : Listed) (e : Expression) → Lowers old self.old e _x → IfOk result (λ y. Lowers old self.new (discard line e) y) }
    {
        self.constant(line, IntegerType::Int, 0)
    }

    // ---- behind two operands

    fn arithmetic(
        &mut self,
        line: u32,
        operator: ArithmeticOperator,
        x: Operand,
        y: Operand,
    ) -> Result<Operand, AllocError>
        ensures { (old mid : Listed) (a b : Expression) → Lowers old mid a x → Lowers mid self.old b y → IfOk result (λ z. Lowers old self.new (arithmetic line operator a b) z) }
    {
        let operation = Operation::Arithmetic {
            into: self.next(),
            operator,
            type_: x.type_,
            right_type: y.type_,
            left: x.register,
            right: y.register,
        };
        self.set(line, x.type_, operation)
    }

    fn compare(
        &mut self,
        line: u32,
        operator: Comparison,
        x: Operand,
        y: Operand,
    ) -> Result<Operand, AllocError>
        ensures { (old mid : Listed) (a b : Expression) → Lowers old mid a x → Lowers mid self.old b y → IfOk result (λ z. Lowers old self.new (compare line operator a b) z) }
    {
        let operation = Operation::Compare {
            into: self.next(),
            operator,
            type_: x.type_,
            left: x.register,
            right: y.register,
        };
        self.set(line, IntegerType::Int, operation)
    }

    // ---- with jumps

    // 1 where the operand isn't 0, else 0.
    fn truth(&mut self, line: u32, x: Operand) -> Result<Operand, AllocError>
        ensures code { OnOk result (self.new ≡ added self.old (truth_code self.old.frame line x.register (next self.old)) (IntegerType.Int ∷ IntegerType.Int ∷ [])) }
        ensures value { IfOk result (λ y. y ≡ operand (next self.old + 1) IntegerType.Int line) }
    {
        let operation = Operation::IsZero {
            into: self.next(),
            operand: x.register,
        };
        let zero = self.set(line, IntegerType::Int, operation)?;
        let operation = Operation::IsZero {
            into: self.next(),
            operand: zero.register,
        };
        self.set(line, IntegerType::Int, operation)
    }

    // `&&` behind its left operand.
    #[cycle(expression)]
    fn and(&mut self, line: u32, x: Operand, right: &CoreExpr) -> Result<Operand, AllocError>
        ensures { (old : Listed) (a : Expression) → Lowers old self.old a x → IfOk result (λ z. Lowers old self.new (logical line LogicalOperator.And a (view right.now)) z) }
    {
        let skip = self.reserve()?;
        let y = self.expression(right)?;
        let truth = self.truth(line, y)?;
        self.push(line, Operation::Skip { count: 1 })?;
        self.land(skip, line, Some(x.register));
        let into = truth.register;
        self.push(line, Operation::Constant { into, bits: 0 })?;
        Ok(truth)
    }

    // `||` behind its left operand.
    #[cycle(expression)]
    fn or(&mut self, line: u32, x: Operand, right: &CoreExpr) -> Result<Operand, AllocError>
        ensures { (old : Listed) (a : Expression) → Lowers old self.old a x → IfOk result (λ z. Lowers old self.new (logical line LogicalOperator.Or a (view right.now)) z) }
    {
        let operand = x.register;
        self.push(line, Operation::SkipIfZero { operand, count: 2 })?;
        let one = self.reserve()?;
        let skip = self.reserve()?;
        let y = self.expression(right)?;
        let truth = self.truth(line, y)?;
        let into = truth.register;
        self.fill(one, line, Operation::Constant { into, bits: 1 });
        self.land(skip, line, None);
        Ok(truth)
    }

    // `?:` behind its test.
    #[cycle(expression)]
    fn choice(
        &mut self,
        line: u32,
        test: Operand,
        yes: &CoreExpr,
        no: &CoreExpr,
    ) -> Result<Operand, AllocError>
        ensures { (old : Listed) (e : Expression) → Lowers old self.old e test → IfOk result (λ z. Lowers old self.new (choice line e (view yes.now) (view no.now)) z) }
    {
        let skip = self.reserve()?;
        let x = self.expression(yes)?;
        let copy = self.reserve()?;
        let over = self.reserve()?;
        self.land(skip, line, Some(test.register));
        let y = self.expression(no)?;
        let into = self.next();
        let operand = y.register;
        let result = self.set(line, x.type_, Operation::Copy { into, operand })?;
        let operand = x.register;
        self.fill(copy, line, Operation::Copy { into, operand });
        self.land(over, line, None);
        Ok(result)
    }

    // ---- of structure values

    // The number at an offset of a structure value.
    #[cycle(expression)]
    fn member(
        &mut self,
        line: u32,
        type_: IntegerType,
        offset: u32,
        value: &CoreStructure,
    ) -> Result<Operand, AllocError>
        ensures { IfOk result (λ x. Lowers self.old self.new (part line type_ offset (view_structure value.now)) x) }
    {
        let block = self.temporary(value)?;
        let operation = Operation::Load {
            into: self.next(),
            type_,
            block,
            offset,
        };
        self.set(line, type_, operation)
    }

    // A structure value that isn't used.
    #[cycle(expression)]
    fn discard_structure(&mut self, value: &CoreStructure) -> Result<Operand, AllocError>
        ensures { IfOk result (λ x. Lowers self.old self.new (discard_structure (view_structure value.now)) x) }
    {
        let _block = self.temporary(value)?;
        self.constant(line_of_structure(value), IntegerType::Int, 0)
    }

    // ---- calls

    // A call that gives nothing or a number.
    #[cycle(expression)]
    fn call(
        &mut self,
        line: u32,
        function: u32,
        used: bool,
        type_: ValueType,
        arguments: &[CoreArgument],
    ) -> Result<Operand, AllocError>
        ensures { IfOk result (λ x. Lowers self.old self.new (call line function used type_ (arguments_of arguments.now)) x) }
    {
        let passed = self.pass(arguments)?;
        self.call_passed(line, function, used, value_size(type_), passed)?;
        self.taken(line, type_, passed.into)
    }

    // The value of a call, whose bytes a block has.
    fn taken(&mut self, line: u32, type_: ValueType, block: usize) -> Result<Operand, AllocError>
        ensures code { OnOk result (self.new ≡ added self.old (taken_code self.old.frame line type_ block (next self.old) ∷ []) (integer_of type_ ∷ [])) }
        ensures value { IfOk result (λ x. x ≡ operand (next self.old) (integer_of type_) line) }
    {
        let into = self.next();
        match type_ {
            ValueType::Void => {
                self.set(
                    line,
                    IntegerType::Int,
                    Operation::Constant { into, bits: 0 },
                )
            }
            ValueType::Integer(type_) => {
                let operation = Operation::Load {
                    into,
                    type_,
                    block,
                    offset: 0,
                };
                self.set(line, type_, operation)
            }
        }
    }

    /// A call with arguments that are in their blocks. The bytes that it hands over are 0 where it hands over
    /// none.
    pub(crate) fn call_passed(
        &mut self,
        line: u32,
        callee: u32,
        used: bool,
        size: u32,
        passed: Passed,
    ) -> Result<(), AllocError>
        ensures { OnOk result (self.new ≡ added self.old (at_line self.old.frame line (instructions.CopyBytes passed.into 0 self.old.frame.zeros 0 size) ∷ at_line self.old.frame line (instructions.Call callee passed.first passed.count passed.into (next self.old)) ∷ use_code self.old.frame line used (next self.old)) (IntegerType.Int ∷ [])) }
    {
        self.clear(line, passed.into, 0, size)?;
        let returned = self.register(IntegerType::Int)?;
        self.push(
            line,
            Operation::Call {
                callee,
                first: passed.first,
                count: passed.count,
                into: passed.into,
                returned,
            },
        )?;
        if used {
            self.push(line, Operation::Use { returned })?;
        }
        Ok(())
    }

    /// The arguments of a call, into the first blocks that are free.
    #[cycle(expression)]
    pub(crate) fn pass(&mut self, arguments: &[CoreArgument]) -> Result<Passed, AllocError>
        ensures code { OnOk result (self.new ≡ after_passed self.old (arguments_of arguments.now)) }
        ensures blocks { IfOk result (λ p. p ≡ record { first = self.old.frame.free; count = argument_count (arguments_of arguments.now); into = self.old.frame.free + argument_count (arguments_of arguments.now) }) }
    {
        let first = self.free();
        let count = arguments.len();
        let into = more(first, count)?;
        self.set_free(more(into, 1)?);
        self.arguments(arguments, first)?;
        self.set_free(first);
        Ok(Passed { first, count, into })
    }

    // The arguments of a call, the first into this block.
    #[cycle(expression)]
    fn arguments(&mut self, arguments: &[CoreArgument], first: usize) -> Result<(), AllocError>
        ensures { OnOk result (self.new ≡ after_arguments self.old (arguments_of arguments.now) first) }
    {
        let mut block = first;
        for argument in arguments {
            self.argument(argument, block)?;
            block = more(block, 1)?;
        }
        Ok(())
    }

    // One of them.
    #[cycle(expression)]
    fn argument(&mut self, argument: &CoreArgument, block: usize) -> Result<(), AllocError>
        ensures { (rest : Arguments) → OnOk result (after_arguments self.new rest (block + 1) ≡ after_arguments self.old (with_argument argument.now rest) block) }
    {
        match argument {
            CoreArgument::Number { value } => {
                let x = self.expression(value)?;
                self.push(
                    x.line,
                    Operation::Store {
                        block,
                        offset: 0,
                        count: x.type_.size(),
                        operand: x.register,
                    },
                )
            }
            CoreArgument::Structure { value } => self.structure(value, block, 0),
        }
    }

    /// Adds the code of an expression, and tells where its value lies.
    #[cycle(expression)]
    pub fn expression(&mut self, expr: &CoreExpr) -> Result<Operand, AllocError>
        ensures { IfOk result (λ x. Lowers self.old self.new (view expr.now) x) }
    {
        match expr {
            CoreExpr::Constant { line, type_, bits } => self.constant(*line, *type_, *bits),
            CoreExpr::Read { type_, place } => {
                let way = self.reach(place)?;
                self.read(line_of_place(place), *type_, way)
            }
            CoreExpr::Convert { to, operand } => {
                let x = self.expression(operand)?;
                self.convert(*to, x)
            }
            CoreExpr::Sign {
                line,
                operator,
                operand,
            } => {
                let x = self.expression(operand)?;
                self.sign(*line, *operator, x)
            }
            CoreExpr::IsZero { line, operand } => {
                let x = self.expression(operand)?;
                self.is_zero(*line, x)
            }
            CoreExpr::Arithmetic {
                line,
                operator,
                left,
                right,
            } => {
                let x = self.expression(left)?;
                let y = self.expression(right)?;
                self.arithmetic(*line, *operator, x, y)
            }
            CoreExpr::Compare {
                line,
                operator,
                left,
                right,
            } => {
                let x = self.expression(left)?;
                let y = self.expression(right)?;
                self.compare(*line, *operator, x, y)
            }
            CoreExpr::Logical {
                line,
                operator,
                left,
                right,
            } => {
                let x = self.expression(left)?;
                match operator {
                    LogicalOperator::And => self.and(*line, x, right),
                    LogicalOperator::Or => self.or(*line, x, right),
                }
            }
            CoreExpr::Choice {
                line,
                test,
                yes,
                no,
            } => {
                let x = self.expression(test)?;
                self.choice(*line, x, yes, no)
            }
            CoreExpr::Assign {
                line,
                type_,
                place,
                value,
            } => {
                let way = self.reach(place)?;
                let x = self.expression(value)?;
                self.assign(*line, *type_, way, x)
            }
            CoreExpr::Update {
                line,
                type_,
                place,
                operator,
                operand,
                value,
            } => {
                let way = self.reach(place)?;
                let x = self.expression(value)?;
                let at = line_of_place(place);
                self.update(at, *line, *type_, way, *operator, *operand, x)
            }
            CoreExpr::Step {
                line,
                type_,
                place,
                operator,
                before,
            } => {
                let way = self.reach(place)?;
                let at = line_of_place(place);
                self.step(at, *line, *type_, way, *operator, *before)
            }
            CoreExpr::Comma { line, left, right } => {
                let _x = self.expression(left)?;
                let y = self.expression(right)?;
                Ok(comma(*line, y))
            }
            CoreExpr::Assertion { line, condition } => {
                let x = self.expression(condition)?;
                self.assertion(*line, x)
            }
            CoreExpr::Assumption { line, condition } => {
                let x = self.expression(condition)?;
                self.assumption(*line, x)
            }
            CoreExpr::Draw { line, type_ } => self.draw(*line, *type_),
            CoreExpr::Member {
                line,
                type_,
                offset,
                value,
            } => self.member(*line, *type_, *offset, value),
            CoreExpr::Discard { line, operand } => {
                let x = self.expression(operand)?;
                self.discard(*line, x)
            }
            CoreExpr::DiscardStructure { value } => self.discard_structure(value),
            CoreExpr::Call {
                line,
                function,
                used,
                type_,
                arguments,
            } => self.call(*line, *function, *used, *type_, arguments),
            CoreExpr::FunctionName { line } => self.constant(*line, IntegerType::Int, 0),
            CoreExpr::SizeOf { line, bits, .. } => {
                self.constant(*line, IntegerType::UnsignedLong, *bits)
            }
            CoreExpr::SizeOfStructure { line, bits, .. } => {
                self.constant(*line, IntegerType::UnsignedLong, *bits)
            }
            CoreExpr::Address { line, place } => self.address(*line, place),
            CoreExpr::Sum {
                line,
                pointer,
                index,
                step,
                swapped,
            } => self.sum(*line, pointer, index, *step, *swapped),
            CoreExpr::Distance {
                line,
                left,
                right,
                step,
            } => {
                let x = self.expression(left)?;
                let y = self.expression(right)?;
                self.distance(*line, *step, x, y)
            }
            CoreExpr::Relation {
                line,
                operator,
                left,
                right,
            } => {
                let x = self.expression(left)?;
                let y = self.expression(right)?;
                self.relation(*line, *operator, x, y)
            }
            CoreExpr::PointerUpdate {
                line,
                place,
                step,
                value,
            } => {
                let way = self.reach(place)?;
                let x = self.expression(value)?;
                let at = line_of_place(place);
                self.pointer_update(at, *line, way, *step, x)
            }
            CoreExpr::PointerStep {
                line,
                place,
                step,
                before,
            } => {
                let way = self.reach(place)?;
                let at = line_of_place(place);
                self.pointer_step(at, *line, way, *step, *before)
            }
            CoreExpr::Allocate { line, size } => {
                let x = self.expression(size)?;
                self.allocate(*line, x)
            }
            CoreExpr::AllocateZeroed { line, count, size } => {
                let x = self.expression(count)?;
                let y = self.expression(size)?;
                self.allocate_zeroed(*line, x, y)
            }
            CoreExpr::Release { line, pointer } => {
                let x = self.expression(pointer)?;
                self.release(*line, x)
            }
            CoreExpr::Exit { line, status } => {
                let x = self.expression(status)?;
                self.exit(*line, x)
            }
            CoreExpr::Abort { line } => self.abort(*line),
        }
    }
}
