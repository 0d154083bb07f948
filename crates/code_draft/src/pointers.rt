//! The code that tells where places are, and that of operators on pointers.

ghost use Rattle.std.specs.Prelude.{◌≡◌, ℕ, [], ◌∷◌, ◌+◌, false, IfOk, OnOk};
ghost use Rattle.c_types.specs.declared.integers.IntegerType.TheVariants.{Int, Long, UnsignedLong};
ghost use Rattle.core_tree.specs.Trees as trees;
ghost use Rattle.core_tree.specs.Trees.{Expression, view, view_place, variable_at, object_at, literal_at, pointed, arrow, member, element, subscript, address, sum, distance, relation, pointer_update, pointer_step};
ghost use Rattle.c_meaning.specs.Meaning.{place_line, range_class};
ghost use Rattle.goto_prog.specs.declared.code.Operation.TheVariants as operations;
ghost use Rattle.lowered_code.specs.Lowering.{at_line, element_code, move_code};
ghost use Rattle.code_draft.specs.Drafts.{Listed, next, added, operand, moved_code, distance_code, relation_code, Leads, Reaches, Lowers};

use crate::draft::Draft;
use crate::operand::{Operand, Updated, Way, step_value};
use c_temporaries::access_to;
use c_types::IntegerType;
use c_values::pointer_to;
use core_tree::{Comparison, CoreExpr, Place};
use goto_prog::Operation;
use std::alloc::AllocError;
use words::Class;

// The class that a place or a sum breaks which isn't within its object.
fn class_of_range(element: bool) -> Class
    ensures { result ≡ range_class element }
{
    if element {
        Class::Bounds
    } else {
        Class::Pointer
    }
}

/// A register that has a pointer.
pub(crate) fn pointer_in(line: u32, register: usize) -> Operand
    ensures { result ≡ operand register UnsignedLong line }
{
    Operand {
        register,
        type_: IntegerType::UnsignedLong,
        line,
    }
}

// The place to which a pointer points.
fn pointed(x: Operand) -> usize
    ensures { (old new : Listed) (line : ℕ) (e : Expression) → Lowers old new e x → Leads old new (pointed line e) result }
{
    x.register
}

impl<'a> Draft<'a> {
    // ---- places

    // A pointer that is known, into a register.
    fn pointer_constant(&mut self, line: u32, bits: u64) -> Result<usize, AllocError>
        ensures code { OnOk result (self.new ≡ added self.old (at_line self.old.frame line (operations.Constant (next self.old) bits) ∷ []) (UnsignedLong ∷ [])) }
        ensures value { IfOk result (λ r. r ≡ next self.old) }
    {
        let into = self.next();
        let value = self.set(
            line,
            IntegerType::UnsignedLong,
            Operation::Constant { into, bits },
        )?;
        Ok(value.register)
    }

    // A pointer so many bytes further on.
    fn offset(&mut self, line: u32, pointer: usize, count: u32) -> Result<usize, AllocError>
        ensures code { OnOk result (self.new ≡ added self.old (at_line self.old.frame line (operations.Offset (next self.old) pointer count) ∷ []) (UnsignedLong ∷ [])) }
        ensures value { IfOk result (λ r. r ≡ next self.old) }
    {
        let into = self.next();
        let operation = Operation::Offset {
            into,
            pointer,
            count,
        };
        let value = self.set(line, IntegerType::UnsignedLong, operation)?;
        Ok(value.register)
    }

    // The pointer to an offset of a variable, or that offset, where it has no address.
    fn base(&mut self, line: u32, variable: u32, offset: u32) -> Result<usize, AllocError>
        ensures { IfOk result (λ r. Leads self.old self.new (variable_at line variable offset) r) }
    {
        match self.home_of(variable) {
            None => {
                let _unused = self.register(IntegerType::UnsignedLong)?;
                self.pointer_constant(line, offset as u64)
            }
            Some(home) => {
                let operation = Operation::Load {
                    into: self.next(),
                    type_: IntegerType::UnsignedLong,
                    block: home as usize,
                    offset: 0,
                };
                let pointer = self.set(line, IntegerType::UnsignedLong, operation)?;
                self.offset(line, pointer.register, offset)
            }
        }
    }

    // Where a static object's offset is.
    fn object_pointer(&mut self, line: u32, object: u32, offset: u32) -> Result<usize, AllocError>
        ensures { IfOk result (λ r. Leads self.old self.new (object_at line object offset) r) }
    {
        self.pointer_constant(line, pointer_to(object, offset))
    }

    // Where a string literal is.
    fn literal_pointer(&mut self, line: u32, literal: u32) -> Result<usize, AllocError>
        ensures { IfOk result (λ r. Leads self.old self.new (literal_at line literal) r) }
    {
        let object = self.literal(literal)?;
        self.pointer_constant(line, pointer_to(object, 0))
    }

    // A member of a place.
    fn member_pointer(&mut self, line: u32, place: usize, offset: u32) -> Result<usize, AllocError>
        ensures { (old : Listed) (x : trees.Place) → Leads old self.old x place → IfOk result (λ r. Leads old self.new (member line x offset) r) }
    {
        self.offset(line, place, offset)
    }

    // A member of the structure that a pointer points to.
    fn arrow(&mut self, line: u32, x: Operand, offset: u32) -> Result<usize, AllocError>
        ensures { (old : Listed) (e : Expression) → Lowers old self.old e x → IfOk result (λ r. Leads old self.new (arrow line e offset) r) }
    {
        self.offset(line, x.register, offset)
    }

    // An element of an array within a named object of so many bytes.
    fn move_within(
        &mut self,
        line: u32,
        pointer: usize,
        index: Operand,
        size: u32,
        whole: u32,
    ) -> Result<usize, AllocError>
        ensures code { OnOk result (self.new ≡ added self.old (element_code self.old.frame line pointer index.register index.type_ size whole (next self.old)) (UnsignedLong ∷ UnsignedLong ∷ [])) }
        ensures value { IfOk result (λ r. r ≡ next self.old + 1) }
    {
        let bound = self.pointer_constant(line, whole as u64)?;
        let operation = Operation::Move {
            into: self.next(),
            pointer,
            index: index.register,
            index_type: index.type_,
            step: size as i64,
            size: bound,
            class: Class::Bounds,
        };
        let moved = self.set(line, IntegerType::UnsignedLong, operation)?;
        Ok(moved.register)
    }

    // A pointer moved by an index, where its object is looked at.
    fn move_by(
        &mut self,
        element: bool,
        line: u32,
        pointer: usize,
        index: Operand,
        step: i64,
    ) -> Result<usize, AllocError>
        ensures code { OnOk result (self.new ≡ added self.old (move_code self.old.frame element line pointer index.register index.type_ step (next self.old)) (UnsignedLong ∷ UnsignedLong ∷ [])) }
        ensures value { IfOk result (λ r. r ≡ next self.old + 1) }
    {
        let operation = Operation::Look {
            into: self.next(),
            pointer,
            subscript: element,
        };
        let bound = self.set(line, IntegerType::UnsignedLong, operation)?;
        let operation = Operation::Move {
            into: self.next(),
            pointer,
            index: index.register,
            index_type: index.type_,
            step,
            size: bound.register,
            class: class_of_range(element),
        };
        let moved = self.set(line, IntegerType::UnsignedLong, operation)?;
        Ok(moved.register)
    }

    // An element of an array within a named object.
    #[cycle(expression)]
    fn element(
        &mut self,
        line: u32,
        place: &Place,
        index: &CoreExpr,
        size: u32,
        whole: u32,
        swapped: bool,
    ) -> Result<usize, AllocError>
        ensures { IfOk result (λ r. Leads self.old self.new (element line (view_place place.now) (view index.now) size whole swapped) r) }
    {
        if swapped {
            let i = self.expression(index)?;
            let pointer = self.place(place)?;
            self.move_within(line, pointer, i, size, whole)
        } else {
            let pointer = self.place(place)?;
            let i = self.expression(index)?;
            self.move_within(line, pointer, i, size, whole)
        }
    }

    // An element of the array to which a pointer points.
    #[cycle(expression)]
    fn subscript(
        &mut self,
        line: u32,
        pointer: &CoreExpr,
        index: &CoreExpr,
        size: u32,
        swapped: bool,
    ) -> Result<usize, AllocError>
        ensures { IfOk result (λ r. Leads self.old self.new (subscript line (view pointer.now) (view index.now) size swapped) r) }
    {
        if swapped {
            let i = self.expression(index)?;
            let p = self.expression(pointer)?;
            self.move_by(true, line, p.register, i, size as i64)
        } else {
            let p = self.expression(pointer)?;
            let i = self.expression(index)?;
            self.move_by(true, line, p.register, i, size as i64)
        }
    }

    /// Adds the code that tells where a place is, and gives the register that does.
    #[cycle(expression)]
    pub(crate) fn place(&mut self, place: &Place) -> Result<usize, AllocError>
        ensures { IfOk result (λ r. Leads self.old self.new (view_place place.now) r) }
    {
        match place {
            Place::Variable {
                line,
                variable,
                offset,
            } => self.base(*line, *variable, *offset),
            Place::Object {
                line,
                object,
                offset,
            } => self.object_pointer(*line, *object, *offset),
            Place::Literal { line, literal } => self.literal_pointer(*line, *literal),
            Place::Pointed { pointer, .. } => {
                let x = self.expression(pointer)?;
                Ok(pointed(x))
            }
            Place::Arrow {
                line,
                pointer,
                offset,
            } => {
                let x = self.expression(pointer)?;
                self.arrow(*line, x, *offset)
            }
            Place::Member {
                line,
                place,
                offset,
            } => {
                let pointer = self.place(place)?;
                self.member_pointer(*line, pointer, *offset)
            }
            Place::Element {
                line,
                place,
                index,
                size,
                whole,
                swapped,
            } => self.element(*line, place, index, *size, *whole, *swapped),
            Place::Subscript {
                line,
                pointer,
                index,
                size,
                swapped,
            } => self.subscript(*line, pointer, index, *size, *swapped),
        }
    }

    /// Adds it where the place is evaluated, and tells how the place is reached.
    #[cycle(expression)]
    pub(crate) fn reach(&mut self, place: &Place) -> Result<Way, AllocError>
        ensures { IfOk result (λ w. Reaches self.old self.new (view_place place.now) w) }
    {
        let access = access_to(self.variables(), place);
        if access.is_evaluated() {
            let pointer = self.place(place)?;
            Ok(Way { access, pointer })
        } else {
            Ok(Way { access, pointer: 0 })
        }
    }

    // ---- operators on pointers

    // A pointer moved by an integer.
    fn move_sum(
        &mut self,
        line: u32,
        pointer: Operand,
        index: Operand,
        step: i64,
    ) -> Result<Operand, AllocError>
        ensures code { OnOk result (self.new ≡ added self.old (move_code self.old.frame false line pointer.register index.register index.type_ step (next self.old)) (UnsignedLong ∷ UnsignedLong ∷ [])) }
        ensures value { IfOk result (λ x. x ≡ operand (next self.old + 1) UnsignedLong line) }
    {
        let moved = self.move_by(false, line, pointer.register, index, step)?;
        Ok(pointer_in(line, moved))
    }

    /// A pointer and an integer.
    #[cycle(expression)]
    pub(crate) fn sum(
        &mut self,
        line: u32,
        pointer: &CoreExpr,
        index: &CoreExpr,
        step: i64,
        swapped: bool,
    ) -> Result<Operand, AllocError>
        ensures { IfOk result (λ x. Lowers self.old self.new (sum line (view pointer.now) (view index.now) step swapped) x) }
    {
        if swapped {
            let i = self.expression(index)?;
            let p = self.expression(pointer)?;
            self.move_sum(line, p, i, step)
        } else {
            let p = self.expression(pointer)?;
            let i = self.expression(index)?;
            self.move_sum(line, p, i, step)
        }
    }

    /// `&`.
    #[cycle(expression)]
    pub(crate) fn address(&mut self, line: u32, place: &Place) -> Result<Operand, AllocError>
        ensures { IfOk result (λ x. Lowers self.old self.new (address line (view_place place.now)) x) }
    {
        let register = self.place(place)?;
        Ok(pointer_in(line, register))
    }

    // How many elements lie between two pointers.
    fn difference(
        &mut self,
        line: u32,
        step: u32,
        left: usize,
        right: usize,
    ) -> Result<Operand, AllocError>
        ensures code { OnOk result (self.new ≡ added self.old (distance_code self.old.frame line left right step (next self.old)) (Long ∷ [])) }
        ensures value { IfOk result (λ x. x ≡ operand (next self.old) Long line) }
    {
        self.push(line, Operation::Same { left, right })?;
        let operation = Operation::Distance {
            into: self.next(),
            left,
            right,
            step,
        };
        self.set(line, IntegerType::Long, operation)
    }

    // How two pointers compare.
    fn order(
        &mut self,
        line: u32,
        operator: Comparison,
        left: usize,
        right: usize,
    ) -> Result<Operand, AllocError>
        ensures code { OnOk result (self.new ≡ added self.old (relation_code self.old.frame line operator left right (next self.old)) (Int ∷ [])) }
        ensures value { IfOk result (λ x. x ≡ operand (next self.old) Int line) }
    {
        self.push(line, Operation::Same { left, right })?;
        let operation = Operation::Relate {
            into: self.next(),
            operator,
            left,
            right,
        };
        self.set(line, IntegerType::Int, operation)
    }

    /// The difference of two pointers to elements of so many bytes.
    pub(crate) fn distance(
        &mut self,
        line: u32,
        step: u32,
        x: Operand,
        y: Operand,
    ) -> Result<Operand, AllocError>
        ensures { (old mid : Listed) (a b : Expression) → Lowers old mid a x → Lowers mid self.old b y → IfOk result (λ z. Lowers old self.new (distance line a b step) z) }
    {
        self.difference(line, step, x.register, y.register)
    }

    /// `<`, `>`, `<=` or `>=` of two pointers.
    pub(crate) fn relation(
        &mut self,
        line: u32,
        operator: Comparison,
        x: Operand,
        y: Operand,
    ) -> Result<Operand, AllocError>
        ensures { (old mid : Listed) (a b : Expression) → Lowers old mid a x → Lowers mid self.old b y → IfOk result (λ z. Lowers old self.new (relation line operator a b) z) }
    {
        self.order(line, operator, x.register, y.register)
    }

    // The pointer at a place, moved by an index, back into the place.
    fn move_at(
        &mut self,
        at: u32,
        line: u32,
        way: Way,
        step: i64,
        index: Operand,
    ) -> Result<Updated, AllocError>
        ensures code { OnOk result (self.new ≡ added self.old (moved_code self.old.frame at line way.access way.pointer step index.register index.type_ (next self.old)) (UnsignedLong ∷ UnsignedLong ∷ UnsignedLong ∷ [])) }
        ensures registers { IfOk result (λ u. u ≡ record { old = next self.old; new = next self.old + 2 }) }
    {
        let pointer = self.load(at, IntegerType::UnsignedLong, way)?;
        let moved = self.move_by(false, line, pointer.register, index, step)?;
        self.store(line, IntegerType::UnsignedLong, way, moved)?;
        Ok(Updated {
            old: pointer.register,
            new: moved,
        })
    }

    /// `+=` or `-=` at the place of a pointer, which is read at the line `at`.
    pub(crate) fn pointer_update(
        &mut self,
        at: u32,
        line: u32,
        way: Way,
        step: i64,
        index: Operand,
    ) -> Result<Operand, AllocError>
        ensures { (old mid : Listed) (x : trees.Place) (e : Expression) → at ≡ place_line x → Reaches old mid x way → Lowers mid self.old e index → IfOk result (λ y. Lowers old self.new (pointer_update line x step e) y) }
    {
        let updated = self.move_at(at, line, way, step, index)?;
        Ok(pointer_in(line, updated.new))
    }

    /// `++` or `--` at the place of a pointer.
    pub(crate) fn pointer_step(
        &mut self,
        at: u32,
        line: u32,
        way: Way,
        step: i64,
        before: bool,
    ) -> Result<Operand, AllocError>
        ensures { (old : Listed) (x : trees.Place) → at ≡ place_line x → Reaches old self.old x way → IfOk result (λ y. Lowers old self.new (pointer_step line x step before) y) }
    {
        let one = self.constant(line, IntegerType::Int, 1)?;
        let updated = self.move_at(at, line, way, step, one)?;
        let operation = Operation::Copy {
            into: self.next(),
            operand: step_value(updated, before),
        };
        self.set(line, IntegerType::UnsignedLong, operation)
    }
}
