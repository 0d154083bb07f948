//! Code of a function while it is made: its instructions, registers and blocks.

ghost use Rattle.std.specs.Prelude.{◌≡◌, ◌+◌, [], ◌∷◌, ◌-◌, length, drop, reverse, slice_get, Some, IfOk, OnOk};
ghost use Rattle.c_meaning.specs.Meaning.{is_readonly};
ghost use Rattle.goto_prog.specs.Nodes.{plain, repeats, nodes_of};
ghost use Rattle.c_temporaries.specs.Accesses.{home_in};
ghost use Rattle.lowered_code.specs.Lowering.{at_line, size_of, have_homes, plains, to_place, death_code};
ghost use Rattle.lowered_code.specs.Lowered.{first_frame};
ghost use Rattle.lowered_code.specs.Registers.{death_types};
ghost use Rattle.code_draft.specs.Drafts.{next, added, filled, flushed, landed, jump, operand, place_of, deaths_of, deaths_to};
ghost use Rattle.code_draft.specs.declared.places.Mark.TheVariants as marks;

use crate::operand::Operand;
use crate::places::{Mark, more};
use c_temporaries::home_in;
use c_types::IntegerType;
use core_tree::Variable;
use goto_prog::{Instruction, Node, Operation};
use std::alloc::{AllocError, Global};
use std::marker::Model;

/// The code of a function that grows: that of an expression, the types of the registers, the labels that are known, and
/// the objects that live around it.
#[derive(Drop)]
pub struct Draft<'a> {
    function: u32,
    variables: &'a [Variable],
    homed: bool,
    free: usize,
    heap: usize,
    literals: u32,
    instructions: Vec<Instruction>,
    registers: Vec<IntegerType>,
    marks: Vec<Mark>,
}

impl<'a> Model for Draft<'a> {
    ghost use Rattle.std.specs.Prelude.{◌≡◌, ◌+◌, length, reverse};
    ghost use Rattle.lowered_code.specs.Lowering.{have_homes};
    ghost use Rattle.code_draft.specs.Drafts.{Listed};

    ghost Value = { Listed };

    ghost view = { λ d. record { frame = record { function = d.function; variables = d.variables.now; zeros = length d.variables.now; result = length d.variables.now + 1; free = d.free; heap = d.heap; literals = d.literals }; instructions = d.instructions.items; registers = d.registers.items; marks = reverse d.marks.items } };

    ghost invariant = { λ d. d.homed ≡ have_homes d.variables.now };
}

fn jump(test: Option<usize>, count: usize) -> Operation
    ensures { result ≡ jump test count }
{
    match test {
        Some(operand) => Operation::SkipIfZero { operand, count },
        None => Operation::Skip { count },
    }
}

impl<'a> Draft<'a> {
    /// No code and no register yet, over the number of the first literal's object and so many blocks for values on the way.
    pub fn new(
        alloc: Global,
        function: u32,
        variables: &'a [Variable],
        temporaries: usize,
        literals: u32,
    ) -> Result<Draft<'a>, AllocError>
        ensures { IfOk result (λ d. d ≡ record { frame = first_frame literals function variables.now temporaries; instructions = []; registers = []; marks = [] }) }
    {
        let free = variables.len() + 2;
        Ok(Draft {
            function,
            variables,
            homed: have_homes(variables),
            free,
            heap: more(free, temporaries)?,
            literals,
            instructions: Vec::new(alloc),
            registers: Vec::new(alloc),
            marks: Vec::new(alloc),
        })
    }

    /// The number of the next register.
    pub fn next(&self) -> usize
        ensures { result ≡ next self.now }
    {
        self.registers.len()
    }

    /// The function's variables.
    pub(crate) fn variables(&self) -> &'a [Variable]
        ensures { result.now ≡ self.now.frame.variables }
    {
        self.variables
    }

    /// The size of a variable.
    pub fn size_of(&self, variable: u32) -> u32
        ensures { result ≡ size_of self.now.frame.variables variable }
    {
        match self.variables.get(variable as usize) {
            Some(found) => found.size,
            None => 0,
        }
    }

    /// Whether it is defined `const`.
    pub fn is_readonly(&self, variable: u32) -> bool
        ensures { result ≡ is_readonly (slice_get self.now.frame.variables variable) }
    {
        match self.variables.get(variable as usize) {
            Some(found) => found.readonly,
            None => false,
        }
    }

    /// The variable that holds its address, if it has one.
    pub fn home_of(&self, variable: u32) -> Option<u32>
        ensures { result ≡ home_in self.now.frame.variables variable }
    {
        home_in(self.variables, variable)
    }

    /// The number of a string literal's object. Code can't be had where it has none.
    pub(crate) fn literal(&self, literal: u32) -> Result<u32, AllocError>
        ensures { IfOk result (λ k. k ≡ self.now.frame.literals + literal) }
    {
        match self.literals.checked_add(literal) {
            Some(object) => Ok(object),
            None => Err(AllocError),
        }
    }

    /// The number of the block in which objects are made.
    pub(crate) fn heap(&self) -> usize
        ensures { result ≡ self.now.frame.heap }
    {
        self.heap
    }

    /// The number of the block whose bytes stay 0.
    pub(crate) fn zeros(&self) -> usize
        ensures { result ≡ self.now.frame.zeros }
    {
        self.variables.len()
    }

    /// The number of the block for what the function hands over.
    pub fn result_block(&self) -> usize
        ensures { result ≡ self.now.frame.result }
    {
        self.variables.len() + 1
    }

    /// The number of the first block that is free.
    pub fn free(&self) -> usize
        ensures { result ≡ self.now.frame.free }
    {
        self.free
    }

    /// Has another block as the first that is free.
    pub(crate) fn set_free(&mut self, block: usize)
        ensures { self.new ≡ record self.old { frame = record self.old.frame { free = block } } }
    {
        self.free = block;
    }

    /// Takes a register of this type.
    pub fn register(&mut self, type_: IntegerType) -> Result<usize, AllocError>
        ensures code { OnOk result (self.new ≡ added self.old [] (type_ ∷ [])) }
        ensures number { IfOk result (λ r. r ≡ next self.old) }
    {
        let number = self.registers.len();
        self.registers.push(type_)?;
        Ok(number)
    }

    /// Takes one for the pointers to objects that die, in a function some of whose variables have addresses.
    pub fn death_register(&mut self) -> Result<usize, AllocError>
        ensures code { OnOk result (self.new ≡ added self.old [] (death_types self.old.frame.variables)) }
        ensures number { IfOk result (λ r. r ≡ next self.old) }
    {
        if self.homed {
            self.register(IntegerType::UnsignedLong)
        } else {
            Ok(self.registers.len())
        }
    }

    /// Adds an instruction.
    pub fn push(&mut self, line: u32, operation: Operation) -> Result<(), AllocError>
        ensures { OnOk result (self.new ≡ added self.old (at_line self.old.frame line operation ∷ []) []) }
    {
        self.instructions.push(Instruction {
            line,
            function: self.function,
            operation,
        })?;
        Ok(())
    }

    /// Adds an instruction that sets the next register, of this type.
    pub fn set(
        &mut self,
        line: u32,
        type_: IntegerType,
        operation: Operation,
    ) -> Result<Operand, AllocError>
        ensures code { OnOk result (self.new ≡ added self.old (at_line self.old.frame line operation ∷ []) (type_ ∷ [])) }
        ensures value { IfOk result (λ x. x ≡ operand (next self.old) type_ line) }
    {
        let register = self.registers.len();
        self.registers.push(type_)?;
        self.push(line, operation)?;
        Ok(Operand {
            register,
            type_,
            line,
        })
    }

    /// Leaves a place for an instruction that is filled in later.
    pub(crate) fn reserve(&mut self) -> Result<usize, AllocError>
        ensures code { OnOk result (self.new ≡ added self.old (at_line self.old.frame 0 (Operation.Skip 0) ∷ []) []) }
        ensures place { IfOk result (λ p. p ≡ length self.old.instructions) }
    {
        let place = self.instructions.len();
        self.push(0, Operation::Skip { count: 0 })?;
        Ok(place)
    }

    /// Fills a place that was left.
    pub(crate) fn fill(&mut self, place: usize, line: u32, operation: Operation)
        ensures { self.new ≡ filled self.old place (at_line self.old.frame line operation) }
    {
        if place < self.instructions.len() {
            self.instructions[place] = Instruction {
                line,
                function: self.function,
                operation,
            };
        }
    }

    /// Fills a place that was left by a jump behind the code that is there.
    pub(crate) fn land(&mut self, place: usize, line: u32, test: Option<usize>)
        ensures { self.new ≡ landed self.old place line test }
    {
        if place < self.instructions.len() {
            let count = self.instructions.len() - (place + 1);
            self.fill(place, line, jump(test, count));
        }
    }

    // ---- nodes, the last of which comes first

    /// Puts an operation before the nodes that are made.
    pub fn put(
        &self,
        line: u32,
        operation: Operation,
        made: &mut Vec<Node>,
    ) -> Result<(), AllocError>
        ensures { OnOk result (nodes_of (reverse made.new.items) ≡ plain (at_line self.now.frame line operation) (nodes_of (reverse made.old.items))) }
    {
        put_node(
            Instruction {
                line,
                function: self.function,
                operation,
            },
            made,
        )
    }

    /// Puts a jump before the nodes that are made, behind which so many places lie, to a place.
    #[tactic(auto, using(crate::proofs::Making::reversed_count))]
    pub fn jump_to(
        &self,
        line: u32,
        base: usize,
        place: usize,
        made: &mut Vec<Node>,
    ) -> Result<(), AllocError>
        ensures { OnOk result (nodes_of (reverse made.new.items) ≡ to_place self.now.frame line base place (nodes_of (reverse made.old.items))) }
    {
        let behind = more(base, made.len())?;
        let count = behind.saturating_sub(place);
        self.put(line, Operation::Skip { count }, made)
    }

    /// Puts the code before the nodes that are made.
    pub fn flush(&mut self, made: &mut Vec<Node>) -> Result<(), AllocError>
        ensures draft { OnOk result (self.new ≡ flushed self.old) }
        ensures code { OnOk result (nodes_of (reverse made.new.items) ≡ plains self.old.instructions (nodes_of (reverse made.old.items))) }
    {
        put_nodes(&self.instructions, made)?;
        self.instructions.clear();
        Ok(())
    }

    /// Puts a loop with this body, the last node of which comes first, before the nodes that are made.
    pub fn repeat(
        &self,
        line: u32,
        number: u32,
        rotated: bool,
        body: Vec<Node>,
        made: &mut Vec<Node>,
    ) -> Result<(), AllocError>
        ensures { OnOk result (nodes_of (reverse made.new.items) ≡ repeats line self.now.frame.function number rotated (nodes_of (reverse body.items)) (nodes_of (reverse made.old.items))) }
    {
        let mut nodes = body;
        nodes.reverse();
        made.push(Node::Loop {
            line,
            function: self.function,
            number,
            rotated,
            nodes,
        })?;
        Ok(())
    }

    // ---- labels, and objects that live

    /// How many are known.
    pub fn known(&self) -> usize
        ensures { result ≡ length self.now.marks }
    {
        self.marks.len()
    }

    /// A label leads to this place.
    #[tactic(auto, using(crate::proofs::Making::reversed_more))]
    pub fn know(&mut self, label: u32, place: usize) -> Result<(), AllocError>
        ensures { OnOk result (self.new ≡ record self.old { marks = marks.Label label place ∷ self.old.marks }) }
    {
        self.marks.push(Mark::Label { label, place })?;
        Ok(())
    }

    /// The object lives whose address a variable has.
    #[tactic(auto, using(crate::proofs::Making::reversed_more))]
    pub fn live(&mut self, line: u32, home: u32) -> Result<(), AllocError>
        ensures { OnOk result (self.new ≡ record self.old { marks = marks.Alive line home ∷ self.old.marks }) }
    {
        self.marks.push(Mark::Alive { line, home })?;
        Ok(())
    }

    /// The first ones alone are known.
    #[tactic(auto, using(crate::proofs::Making::reversed_first))]
    pub fn forget(&mut self, known: usize)
        ensures { self.new ≡ record self.old { marks = drop (length self.old.marks - known) self.old.marks } }
    {
        self.marks.truncate(known);
    }

    /// Where a label leads: to the end of the function where it is not known.
    pub fn place_of(&self, label: u32) -> usize
        ensures { result ≡ place_of self.now.marks label }
    {
        find_label(&self.marks, label)
    }

    // What is known, by its number, the first of which is 0.
    #[tactic(auto, using(crate::proofs::Making::reversed_back))]
    fn mark(&self, k: usize) -> Option<Mark>
        ensures { result ≡ slice_get (reverse self.now.marks) k }
    {
        match self.marks.get(k) {
            Some(mark) => Some(*mark),
            None => None,
        }
    }

    // The object whose address a variable has dies, by a register.
    fn die(&mut self, line: u32, home: u32, register: usize) -> Result<(), AllocError>
        ensures { OnOk result (self.new ≡ added self.old (death_code self.old.frame line (Some home) register) []) }
    {
        let operation = Operation::Load {
            into: register,
            type_: IntegerType::UnsignedLong,
            block: home as usize,
            offset: 0,
        };
        self.push(line, operation)?;
        self.push(line, Operation::Die { pointer: register })
    }

    /// So many of the latest objects die, by a register.
    pub fn leave(&mut self, count: usize, register: usize) -> Result<(), AllocError>
        ensures { OnOk result (self.new ≡ added self.old (deaths_of self.old.frame self.old.marks count register) []) }
    {
        let mut left = count;
        for k in (0..self.known()).rev() {
            if left == 0 {
                return Ok(());
            }
            match self.mark(k) {
                Some(Mark::Label { .. }) => {}
                Some(Mark::Alive { line, home }) => {
                    self.die(line, home, register)?;
                    left -= 1;
                }
                None => {}
            }
        }
        Ok(())
    }

    /// Those die that live since a label is known, by a register.
    pub fn leave_to(&mut self, label: u32, register: usize) -> Result<(), AllocError>
        ensures { OnOk result (self.new ≡ added self.old (deaths_to self.old.frame self.old.marks label register) []) }
    {
        for k in (0..self.known()).rev() {
            match self.mark(k) {
                Some(Mark::Label { label: found, .. }) => {
                    if found == label {
                        return Ok(());
                    }
                }
                Some(Mark::Alive { line, home }) => {
                    self.die(line, home, register)?;
                }
                None => {}
            }
        }
        Ok(())
    }

    /// The types of the registers.
    pub fn into_registers(self) -> Vec<IntegerType>
        ensures { result.items ≡ self.entry.registers }
    {
        self.registers
    }
}

// Puts an instruction before the nodes that are made.
#[tactic(auto, using(crate::proofs::Making::pushed))]
fn put_node(instruction: Instruction, made: &mut Vec<Node>) -> Result<(), AllocError>
    ensures { OnOk result (nodes_of (reverse made.new.items) ≡ plain instruction (nodes_of (reverse made.old.items))) }
{
    made.push(Node::Plain { instruction })?;
    Ok(())
}

// Puts instructions before the nodes that are made.
fn put_nodes(code: &[Instruction], made: &mut Vec<Node>) -> Result<(), AllocError>
    ensures { OnOk result (nodes_of (reverse made.new.items) ≡ plains code.now (nodes_of (reverse made.old.items))) }
{
    for place in (0..code.len()).rev() {
        put_node(code[place], made)?;
    }
    Ok(())
}

// Whether some of the variables have addresses.
fn have_homes(variables: &[Variable]) -> bool
    ensures { result ≡ have_homes variables.now }
{
    for variable in variables {
        if variable.home.is_some() {
            return true;
        }
    }
    false
}

// Where a label leads, by the last of these that has its number.
fn find_label(known: &[Mark], label: u32) -> usize
    ensures { result ≡ place_of (reverse known.now) label }
{
    for k in (0..known.len()).rev() {
        if let Mark::Label {
            label: found,
            place,
        } = known[k]
        {
            if found == label {
                return place;
            }
        }
    }
    2
}
