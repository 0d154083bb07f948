//! One pass over unrolled code, in order: events, and the slots of places that lie ahead.

ghost use Rattle.std.specs.Prelude.{
  ◌≡◌,
  ◌==◌,
  ℕ,
  ◌+◌,
  ◌<◌,
  ◌^◌,
  true,
  false,
  List,
  [],
  ◌∷◌,
  ◌++◌,
  ◌≤◌,
  slice_index,
  slice_index_or,
  nat_lt,
  Some,
  None,
  length,
  drop,
  map,
  replicate,
  slice_set,
  IfOk,
  OnOk,
  if◌then◌else◌,
};
ghost use Rattle.word_dag.specs.Growth.{Within, Extends};
ghost use Rattle.word_dag.specs.Meaning.{width, value};
ghost use Rattle.c_types.specs.Integers.{width as type_width};
ghost use Rattle.core_tree.specs.Typed.{is_within};
ghost use Rattle.goto_prog.specs.Fitting.{is_there, is_pointer, check_fits, operation_fits};
ghost use Rattle.c_values.specs.Variables.{pointer_to, word_count};
ghost use Rattle.value_nodes.specs.Values.{IsWord, IsValue};
ghost use Rattle.value_nodes.specs.Bytes.{AreBytesOf};
ghost use Rattle.event_forms.specs.Runs.{bytes_of_words};
ghost use Rattle.guarded_ssa.specs.inner.Answers.{words_by, variables_of};
ghost use Rattle.goto_prog.specs.Running.{is_calculation};
ghost use Rattle.goto_prog.specs.UnrolledCode.{is_flat};
ghost use Rattle.event_forms.specs.Forms.{EventIn, AreWords, IsFixed};
ghost use Rattle.goto_prog.specs.CodeThread.{first_memory};
ghost use Rattle.guarded_ssa.specs.inner.Held.{SlotIn, PassIn, Arrives, Tells, Visits, IsPlan, arrivals};
ghost use Rattle.guarded_ssa.specs.inner.Conditions.{Reached, PassesHere};

use crate::answers::{answer_words, bytes_of_words};
use crate::liveness::Plan;
use crate::parts::at_most;
use crate::slots::Slot;
use crate::values::class_of;
use c_types::IntegerType;
use c_values::pointer_to;
use cell_trees::Trees;
use event_forms::{Event, EventKind, Nodes};
use goto_prog::{Condition, Instruction, Operation};
use std::alloc::{AllocError, Global};
use std::collections::VecDeque;
use value_nodes::{pointer_to as pointer_node, zero_test};
use word_dag::{Dag, Id, Node};
use words::Class;

/// A place that a pass is at: its number, the number of its first variable, the line and the function of its instruction,
/// and the slot with which it is reached.
#[derive(Clone, Copy)]
pub struct Here {
    pub place: usize,
    pub variable: usize,
    pub line: u32,
    pub function: u32,
    pub slot: Slot,
}

// The pointer to an offset of a static object, as a constant.
fn fixed_pointer(dag: &mut Dag, object: u32, offset: u32) -> Result<Id, AllocError>
    ensures extends { Extends dag.old dag.new }
    ensures made { IfOk result (λ i. IsValue dag.new i 64 (λ v. pointer_to object offset)) }
    ensures fixed { IfOk result (IsFixed dag.new) }
{
    let id = dag.make(Node::Constant(pointer_to(object, offset), 64))?;
    Ok(id)
}

// The pointer to the start of the object with this number.
fn made_pointer(dag: &mut Dag, number: Id) -> Result<Id, AllocError>
    requires { IsWord dag.old number 32 }
    ensures extends { Extends dag.old dag.new }
    ensures made { IfOk result (λ i. IsValue dag.new i 64 (λ v. pointer_to (value v dag.old number) 0)) }
{
    let zero = dag.make(Node::Constant(0, 32))?;
    let id = pointer_node(dag, number, zero)?;
    Ok(id)
}

// The words that answer a read, and their bytes.
fn read_answer(
    alloc: Global,
    dag: &mut Dag,
    variable: usize,
    count: u32,
) -> Result<(Nodes, Vec<Id>), AllocError>
    requires { variable + word_count count ≤ 2 ^ 32 }
    ensures extends { Extends dag.old dag.new }
    ensures words { IfOk result (λ r. AreWords dag.new count r.0) }
    ensures values { IfOk result (λ r. (v : ℕ → ℕ) → map (value v dag.new) r.0 ≡ words_by v (word_count count) variable count) }
    ensures made { IfOk result (λ r. AreBytesOf dag.new r.1.items (λ v. bytes_of_words count (words_by v (word_count count) variable count))) }
    ensures size { IfOk result (λ r. length r.1.items ≡ count) }
{
    let answer = answer_words(alloc, dag, variable, count)?;
    let bytes = bytes_of_words(alloc, dag, &answer, count)?;
    Ok((Nodes::new(answer), bytes))
}

/// A pass over code: the events that were told so far, for each place from the next on the memory with which it is
/// reached, and the trees of all these memories.
#[derive(Drop)]
pub struct Pass {
    pub events: Vec<Event>,
    pub pending: VecDeque<Option<Slot>>,
    pub trees: Trees,
}

// The slot, and then this many places without one.
fn followed(alloc: Global, first: Slot, count: usize) -> Result<VecDeque<Option<Slot>>, AllocError>
    ensures { IfOk result (λ r. r.items ≡ Some first ∷ replicate count None) }
{
    let mut pending = VecDeque::new(alloc);
    pending.push_back(Some(first))?;
    'places: for _ in 0..count {
        pending.push_back(None)?;
    }
    Ok(pending)
}

// How many places a jump passes over, by whether it is taken.
fn way(taken: bool, count: usize) -> usize
    ensures { result ≡ (if taken then count else 0) }
{
    if taken { count } else { 0 }
}

impl Pass {
    /// At the start of the code of a plan.
    pub fn start(dag: &mut Dag, plan: &Plan) -> Result<Pass, AllocError>
        requires { IsPlan plan.now }
        ensures extends { Extends dag.old dag.new }
        ensures within { IfOk result (PassIn dag.new plan.now.code.now) }
        ensures events { IfOk result (λ p. p.events.items ≡ []) }
        ensures arrivals { IfOk result (λ p. (v : ℕ → ℕ) → arrivals v dag.new p.trees plan.now.code.now p.pending.items ≡ Some (first_memory plan.now.code.now) ∷ replicate (length plan.now.code.now.instructions) None) }
    {
        let trees = Trees::new(plan.alloc, plan.types.len())?;
        let slot = Slot::start(dag, &trees, plan)?;
        let pending = followed(plan.alloc, slot, plan.code.instructions().len())?;
        Ok(Pass {
            events: Vec::new(plan.alloc),
            pending,
            trees,
        })
    }

    /// The slot that a place has arrives n places behind the next, if it is reached ever.
    pub fn arrive(
        &mut self,
        dag: &mut Dag,
        plan: &Plan,
        here: Here,
        n: usize,
    ) -> Result<(), AllocError>
        requires { Reached plan.now dag.old self.old here }
        ensures extends { Extends dag.old dag.new }
        ensures arrives { OnOk result (Arrives plan.now.until.items plan.now.code.now here.place n here.slot dag.old dag.new self.old self.new) }
    {
        if n >= self.pending.len() {
            return Ok(());
        }
        if here.slot.is_never(dag, &self.trees, plan) {
            return Ok(());
        }
        let ahead = here.place + 1 + n;
        let there = self.pending[n];
        let met = here
            .slot
            .met(dag, &mut self.trees, plan, ahead, n == 0, there)?;
        self.pending[n] = Some(met);
        Ok(())
    }

    // An event is told.
    fn tell(&mut self, event: Event) -> Result<(), AllocError>
        ensures events { OnOk result (self.new.events.items ≡ self.old.events.items ++ event ∷ []) }
        ensures pending { self.new.pending.items ≡ self.old.pending.items }
        ensures trees { self.new.trees ≡ self.old.trees }
    {
        self.events.push(event)?;
        Ok(())
    }

    // An event is told, and a slot goes on to the next place.
    fn tell_and_go(
        &mut self,
        dag: &mut Dag,
        plan: &Plan,
        here: Here,
        event: Event,
    ) -> Result<(), AllocError>
        requires reached { Reached plan.now dag.old self.old here }
        requires event { EventIn dag.old event }
        ensures extends { Extends dag.old dag.new }
        ensures tells { OnOk result (Tells plan.now.until.items plan.now.code.now here.place event here.slot dag.old dag.new self.old self.new) }
    {
        self.tell(event)?;
        self.arrive(dag, plan, here, 0)?;
        Ok(())
    }

    // An operation that sets a register or a block.
    fn calculate(
        &mut self,
        dag: &mut Dag,
        plan: &Plan,
        here: Here,
        operation: Operation,
    ) -> Result<(), AllocError>
        requires reached { Reached plan.now dag.old self.old here }
        requires fits { operation_fits plan.now.code.now.registers plan.now.code.now.blocks 0 operation ≡ true }
        requires calculation { is_calculation operation ≡ true }
        ensures extends { Extends dag.old dag.new }
        ensures passes { OnOk result (PassesHere plan.now here operation dag.old dag.new self.old self.new) }
    {
        let next = here.slot.calculated(dag, &mut self.trees, plan, operation)?;
        self.arrive(dag, plan, Here { slot: next, ..here }, 0)?;
        Ok(())
    }

    // A jump.
    fn skip(
        &mut self,
        dag: &mut Dag,
        plan: &Plan,
        here: Here,
        count: usize,
    ) -> Result<(), AllocError>
        requires { Reached plan.now dag.old self.old here }
        ensures extends { Extends dag.old dag.new }
        ensures passes { OnOk result (PassesHere plan.now here (Operation.Skip count) dag.old dag.new self.old self.new) }
    {
        self.arrive(dag, plan, here, count)?;
        Ok(())
    }

    // A jump where a register is 0.
    fn branch(
        &mut self,
        dag: &mut Dag,
        plan: &Plan,
        here: Here,
        operand: usize,
        count: usize,
    ) -> Result<(), AllocError>
        requires reached { Reached plan.now dag.old self.old here }
        requires operand { is_there plan.now.code.now.registers operand ≡ true }
        ensures extends { Extends dag.old dag.new }
        ensures passes { OnOk result (PassesHere plan.now here (Operation.SkipIfZero operand count) dag.old dag.new self.old self.new) }
    {
        let (zero, other) = here.slot.split(dag, &self.trees, plan, operand)?;
        self.arrive(
            dag,
            plan,
            Here {
                slot: other,
                ..here
            },
            0,
        )?;
        self.arrive(dag, plan, Here { slot: zero, ..here }, count)?;
        Ok(())
    }

    // The same. Where the register is a constant the slot goes one way as it is, and nothing goes the other.
    fn jump(
        &mut self,
        dag: &mut Dag,
        plan: &Plan,
        here: Here,
        operand: usize,
        count: usize,
    ) -> Result<(), AllocError>
        requires reached { Reached plan.now dag.old self.old here }
        requires operand { is_there plan.now.code.now.registers operand ≡ true }
        ensures extends { Extends dag.old dag.new }
        ensures passes { OnOk result (PassesHere plan.now here (Operation.SkipIfZero operand count) dag.old dag.new self.old self.new) }
    {
        match here.slot.decided(dag, &self.trees, plan, operand) {
            Some(zero) => {
                let n = way(zero, count);
                self.arrive(dag, plan, here, n)?;
                Ok(())
            }
            None => {
                self.branch(dag, plan, here, operand, count)?;
                Ok(())
            }
        }
    }

    // A check.
    fn check(
        &mut self,
        dag: &mut Dag,
        plan: &Plan,
        here: Here,
        condition: Condition,
    ) -> Result<(), AllocError>
        requires reached { Reached plan.now dag.old self.old here }
        requires fits { check_fits plan.now.code.now.registers condition ≡ true }
        ensures extends { Extends dag.old dag.new }
        ensures passes { OnOk result (PassesHere plan.now here (Operation.Check condition) dag.old dag.new self.old self.new) }
    {
        let failing = here.slot.fails(dag, &self.trees, plan, condition)?;
        let class = class_of(condition);
        let event = Event {
            guard: here.slot.guard,
            line: here.line,
            function: here.function,
            kind: EventKind::Check { class, failing },
        };
        self.tell_and_go(dag, plan, here, event)?;
        Ok(())
    }

    // An assertion.
    fn assert(
        &mut self,
        dag: &mut Dag,
        plan: &Plan,
        here: Here,
        operand: usize,
    ) -> Result<(), AllocError>
        requires reached { Reached plan.now dag.old self.old here }
        requires operand { is_there plan.now.code.now.registers operand ≡ true }
        ensures extends { Extends dag.old dag.new }
        ensures passes { OnOk result (PassesHere plan.now here (Operation.Assert operand) dag.old dag.new self.old self.new) }
    {
        let node = here.slot.register(dag, &self.trees, plan, operand);
        let failing = zero_test(dag, node)?;
        let event = Event {
            guard: here.slot.guard,
            line: here.line,
            function: here.function,
            kind: EventKind::Check {
                class: Class::Assertion,
                failing,
            },
        };
        self.tell_and_go(dag, plan, here, event)?;
        Ok(())
    }

    // An assumption.
    fn assume(
        &mut self,
        dag: &mut Dag,
        plan: &Plan,
        here: Here,
        operand: usize,
    ) -> Result<(), AllocError>
        requires reached { Reached plan.now dag.old self.old here }
        requires operand { is_there plan.now.code.now.registers operand ≡ true }
        ensures extends { Extends dag.old dag.new }
        ensures passes { OnOk result (PassesHere plan.now here (Operation.Assume operand) dag.old dag.new self.old self.new) }
    {
        let node = here.slot.register(dag, &self.trees, plan, operand);
        let failing = zero_test(dag, node)?;
        let event = Event {
            guard: here.slot.guard,
            line: here.line,
            function: here.function,
            kind: EventKind::Assume { failing },
        };
        self.tell_and_go(dag, plan, here, event)?;
        Ok(())
    }

    // A draw: its answer is a variable.
    fn draw(
        &mut self,
        dag: &mut Dag,
        plan: &Plan,
        here: Here,
        into: usize,
        bits: u32,
    ) -> Result<(), AllocError>
        requires reached { Reached plan.now dag.old self.old here }
        requires variable { here.variable < 2 ^ 32 }
        requires into { is_there plan.now.code.now.registers into ≡ true }
        requires positive { 1 ≤ bits }
        requires width { bits ≤ type_width (slice_index_or plan.now.code.now.registers into IntegerType.Int) }
        ensures extends { Extends dag.old dag.new }
        ensures passes { OnOk result (PassesHere plan.now here (Operation.Draw into bits) dag.old dag.new self.old self.new) }
    {
        let width = plan.code.registers()[into].width();
        let answer = dag.make(Node::Variable(here.variable as u32, bits))?;
        let word = dag.make(Node::ZeroExtend(answer, width))?;
        let event = Event {
            guard: here.slot.guard,
            line: here.line,
            function: here.function,
            kind: EventKind::Draw { bits, answer },
        };
        let next = here.slot.put(dag, &mut self.trees, plan, into, word)?;
        self.tell_and_go(dag, plan, Here { slot: next, ..here }, event)?;
        Ok(())
    }

    // A read of a static object: its answer is variables.
    fn read_object(
        &mut self,
        dag: &mut Dag,
        plan: &Plan,
        here: Here,
        into: (usize, u32),
        from: (u32, u32),
        count: u32,
    ) -> Result<(), AllocError>
        requires reached { Reached plan.now dag.old self.old here }
        requires variables { here.variable + word_count count ≤ 2 ^ 32 }
        requires into { is_within plan.now.code.now.blocks into.0 into.1 count ≡ true }
        ensures extends { Extends dag.old dag.new }
        ensures passes { OnOk result (PassesHere plan.now here (Operation.ReadObject into.0 into.1 from.0 from.1 count) dag.old dag.new self.old self.new) }
    {
        let pointer = fixed_pointer(dag, from.0, from.1)?;
        let (answer, bytes) = read_answer(plan.alloc, dag, here.variable, count)?;
        let event = Event {
            guard: here.slot.guard,
            line: here.line,
            function: here.function,
            kind: EventKind::Read {
                pointer,
                count,
                answer,
            },
        };
        let next = here
            .slot
            .written(dag, &mut self.trees, plan, into.0, into.1, &bytes)?;
        self.tell_and_go(dag, plan, Here { slot: next, ..here }, event)?;
        Ok(())
    }

    // A read where a pointer points to: its answer is variables.
    fn read(
        &mut self,
        dag: &mut Dag,
        plan: &Plan,
        here: Here,
        into: (usize, u32),
        pointer: usize,
        count: u32,
    ) -> Result<(), AllocError>
        requires reached { Reached plan.now dag.old self.old here }
        requires variables { here.variable + word_count count ≤ 2 ^ 32 }
        requires into { is_within plan.now.code.now.blocks into.0 into.1 count ≡ true }
        requires pointer { is_pointer plan.now.code.now.registers pointer ≡ true }
        ensures extends { Extends dag.old dag.new }
        ensures passes { OnOk result (PassesHere plan.now here (Operation.Read into.0 into.1 pointer count) dag.old dag.new self.old self.new) }
    {
        let at = here.slot.pointer(dag, &self.trees, plan, pointer);
        let (answer, bytes) = read_answer(plan.alloc, dag, here.variable, count)?;
        let event = Event {
            guard: here.slot.guard,
            line: here.line,
            function: here.function,
            kind: EventKind::Read {
                pointer: at,
                count,
                answer,
            },
        };
        let next = here
            .slot
            .written(dag, &mut self.trees, plan, into.0, into.1, &bytes)?;
        self.tell_and_go(dag, plan, Here { slot: next, ..here }, event)?;
        Ok(())
    }

    // A write of a static object.
    fn write_object(
        &mut self,
        dag: &mut Dag,
        plan: &Plan,
        here: Here,
        into: (u32, u32),
        from: (usize, u32),
        count: u32,
    ) -> Result<(), AllocError>
        requires reached { Reached plan.now dag.old self.old here }
        requires from { is_within plan.now.code.now.blocks from.0 from.1 count ≡ true }
        ensures extends { Extends dag.old dag.new }
        ensures passes { OnOk result (PassesHere plan.now here (Operation.WriteObject into.0 into.1 from.0 from.1 count) dag.old dag.new self.old self.new) }
    {
        let pointer = fixed_pointer(dag, into.0, into.1)?;
        let bytes = here
            .slot
            .bytes(dag, &self.trees, plan, from.0, from.1, count)?;
        let event = Event {
            guard: here.slot.guard,
            line: here.line,
            function: here.function,
            kind: EventKind::Write {
                pointer,
                bytes: Nodes::new(bytes),
                first: false,
            },
        };
        self.tell_and_go(dag, plan, here, event)?;
        Ok(())
    }

    // A write where a pointer points to.
    fn write(
        &mut self,
        dag: &mut Dag,
        plan: &Plan,
        here: Here,
        pointer: usize,
        from: (usize, u32),
        count: u32,
        first: bool,
    ) -> Result<(), AllocError>
        requires reached { Reached plan.now dag.old self.old here }
        requires pointer { is_pointer plan.now.code.now.registers pointer ≡ true }
        requires from { is_within plan.now.code.now.blocks from.0 from.1 count ≡ true }
        ensures extends { Extends dag.old dag.new }
        ensures passes { OnOk result (PassesHere plan.now here (Operation.Write pointer from.0 from.1 count first) dag.old dag.new self.old self.new) }
    {
        let at = here.slot.pointer(dag, &self.trees, plan, pointer);
        let bytes = here
            .slot
            .bytes(dag, &self.trees, plan, from.0, from.1, count)?;
        let event = Event {
            guard: here.slot.guard,
            line: here.line,
            function: here.function,
            kind: EventKind::Write {
                pointer: at,
                bytes: Nodes::new(bytes),
                first,
            },
        };
        self.tell_and_go(dag, plan, here, event)?;
        Ok(())
    }

    // A look at the size of a pointer's object: its answer is a variable.
    fn look(
        &mut self,
        dag: &mut Dag,
        plan: &Plan,
        here: Here,
        into: usize,
        pointer: usize,
        subscript: bool,
    ) -> Result<(), AllocError>
        requires reached { Reached plan.now dag.old self.old here }
        requires variable { here.variable < 2 ^ 32 }
        requires into { is_pointer plan.now.code.now.registers into ≡ true }
        requires pointer { is_pointer plan.now.code.now.registers pointer ≡ true }
        ensures extends { Extends dag.old dag.new }
        ensures passes { OnOk result (PassesHere plan.now here (Operation.Look into pointer subscript) dag.old dag.new self.old self.new) }
    {
        let at = here.slot.pointer(dag, &self.trees, plan, pointer);
        let answer = dag.make(Node::Variable(here.variable as u32, 32))?;
        let size = dag.make(Node::ZeroExtend(answer, 64))?;
        let event = Event {
            guard: here.slot.guard,
            line: here.line,
            function: here.function,
            kind: EventKind::Look {
                pointer: at,
                subscript,
                answer,
            },
        };
        let next = here.slot.put(dag, &mut self.trees, plan, into, size)?;
        self.tell_and_go(dag, plan, Here { slot: next, ..here }, event)?;
        Ok(())
    }

    // The first bytes of a block are drawn: a variable for each word.
    fn fill(
        &mut self,
        dag: &mut Dag,
        plan: &Plan,
        here: Here,
        block: usize,
        count: usize,
    ) -> Result<(), AllocError>
        requires reached { Reached plan.now dag.old self.old here }
        requires variables { here.variable + word_count (slice_index plan.now.code.now.blocks block) ≤ 2 ^ 32 }
        requires block { nat_lt block (length plan.now.code.now.blocks) ≡ true }
        requires count { is_pointer plan.now.code.now.registers count ≡ true }
        ensures extends { Extends dag.old dag.new }
        ensures passes { OnOk result (PassesHere plan.now here (Operation.Fill block count) dag.old dag.new self.old self.new) }
    {
        let number = here.slot.pointer(dag, &self.trees, plan, count);
        let most = at_most(dag, number, plan.code.blocks()[block]);
        let words = answer_words(plan.alloc, dag, here.variable, most)?;
        let next = here
            .slot
            .with_words_drawn(dag, &mut self.trees, plan, block, number, most, &words)?;
        let event = Event {
            guard: here.slot.guard,
            line: here.line,
            function: here.function,
            kind: EventKind::Fill {
                count: number,
                most,
                words: Nodes::new(words),
            },
        };
        self.tell_and_go(dag, plan, Here { slot: next, ..here }, event)?;
        Ok(())
    }

    // An object is made of the first bytes of a block: the answer is a variable, its number.
    fn alloc(
        &mut self,
        dag: &mut Dag,
        plan: &Plan,
        here: Here,
        into: usize,
        from: (usize, usize),
        kind: (bool, bool),
    ) -> Result<(), AllocError>
        requires reached { Reached plan.now dag.old self.old here }
        requires variable { here.variable < 2 ^ 32 }
        requires into { is_pointer plan.now.code.now.registers into ≡ true }
        requires block { nat_lt from.0 (length plan.now.code.now.blocks) ≡ true }
        requires size { is_pointer plan.now.code.now.registers from.1 ≡ true }
        ensures extends { Extends dag.old dag.new }
        ensures passes { OnOk result (PassesHere plan.now here (Operation.Alloc into from.0 from.1 kind.0 kind.1) dag.old dag.new self.old self.new) }
    {
        let size = here.slot.pointer(dag, &self.trees, plan, from.1);
        let most = at_most(dag, size, plan.code.blocks()[from.0]);
        let bytes = here.slot.bytes(dag, &self.trees, plan, from.0, 0, most)?;
        let answer = dag.make(Node::Variable(here.variable as u32, 32))?;
        let pointer = made_pointer(dag, answer)?;
        let event = Event {
            guard: here.slot.guard,
            line: here.line,
            function: here.function,
            kind: EventKind::Alloc {
                size,
                bytes: Nodes::new(bytes),
                readonly: kind.0,
                heap: kind.1,
                answer,
            },
        };
        let next = here.slot.put(dag, &mut self.trees, plan, into, pointer)?;
        self.tell_and_go(dag, plan, Here { slot: next, ..here }, event)?;
        Ok(())
    }

    // The end of an object's lifetime.
    fn die(
        &mut self,
        dag: &mut Dag,
        plan: &Plan,
        here: Here,
        pointer: usize,
    ) -> Result<(), AllocError>
        requires reached { Reached plan.now dag.old self.old here }
        requires pointer { is_pointer plan.now.code.now.registers pointer ≡ true }
        ensures extends { Extends dag.old dag.new }
        ensures passes { OnOk result (PassesHere plan.now here (Operation.Die pointer) dag.old dag.new self.old self.new) }
    {
        let at = here.slot.pointer(dag, &self.trees, plan, pointer);
        let event = Event {
            guard: here.slot.guard,
            line: here.line,
            function: here.function,
            kind: EventKind::Die { pointer: at },
        };
        self.tell_and_go(dag, plan, here, event)?;
        Ok(())
    }

    // An object is freed.
    fn free(
        &mut self,
        dag: &mut Dag,
        plan: &Plan,
        here: Here,
        pointer: usize,
    ) -> Result<(), AllocError>
        requires reached { Reached plan.now dag.old self.old here }
        requires pointer { is_pointer plan.now.code.now.registers pointer ≡ true }
        ensures extends { Extends dag.old dag.new }
        ensures passes { OnOk result (PassesHere plan.now here (Operation.Free pointer) dag.old dag.new self.old self.new) }
    {
        let at = here.slot.pointer(dag, &self.trees, plan, pointer);
        let event = Event {
            guard: here.slot.guard,
            line: here.line,
            function: here.function,
            kind: EventKind::Free { pointer: at },
        };
        self.tell_and_go(dag, plan, here, event)?;
        Ok(())
    }

    // The end of the process.
    fn exit(&mut self, dag: &Dag, plan: &Plan, here: Here) -> Result<(), AllocError>
        requires within { PassIn dag.now plan.now.code.now self.old }
        requires slot { SlotIn dag.now self.old.trees plan.now.code.now here.slot }
        ensures passes { OnOk result (PassesHere plan.now here Operation.Exit dag.now dag.now self.old self.new) }
    {
        let event = Event {
            guard: here.slot.guard,
            line: here.line,
            function: here.function,
            kind: EventKind::Exit,
        };
        self.tell(event)?;
        Ok(())
    }

    // A class that is broken.
    fn fail(
        &mut self,
        dag: &mut Dag,
        plan: &Plan,
        here: Here,
        class: Class,
    ) -> Result<(), AllocError>
        requires { Reached plan.now dag.old self.old here }
        ensures extends { Extends dag.old dag.new }
        ensures passes { OnOk result (PassesHere plan.now here (Operation.Fail class) dag.old dag.new self.old self.new) }
    {
        let event = Event {
            guard: here.slot.guard,
            line: here.line,
            function: here.function,
            kind: EventKind::Check {
                class,
                failing: here.slot.guard,
            },
        };
        self.tell_and_go(dag, plan, here, event)?;
        Ok(())
    }

    // An operation that unrolled code doesn't have: a call, a return, or one that asks for bounds.
    fn stop(
        &mut self,
        dag: &mut Dag,
        plan: &Plan,
        here: Here,
        operation: Operation,
    ) -> Result<(), AllocError>
        requires reached { Reached plan.now dag.old self.old here }
        requires stops { is_flat operation ≡ false }
        ensures extends { Extends dag.old dag.new }
        ensures passes { OnOk result (PassesHere plan.now here operation dag.old dag.new self.old self.new) }
    {
        let _ = operation;
        let event = Event {
            guard: here.slot.guard,
            line: here.line,
            function: here.function,
            kind: EventKind::Assume {
                failing: here.slot.guard,
            },
        };
        self.tell_and_go(dag, plan, here, event)?;
        Ok(())
    }

    // One instruction, which is reached.
    fn step(
        &mut self,
        dag: &mut Dag,
        plan: &Plan,
        here: Here,
        operation: Operation,
    ) -> Result<(), AllocError>
        requires reached { Reached plan.now dag.old self.old here }
        requires variables { here.variable + variables_of plan.now.code.now.blocks operation ≤ 2 ^ 32 }
        requires fits { operation_fits plan.now.code.now.registers plan.now.code.now.blocks (length (drop (here.place + 1) plan.now.code.now.instructions)) operation ≡ true }
        ensures extends { Extends dag.old dag.new }
        ensures passes { OnOk result (PassesHere plan.now here operation dag.old dag.new self.old self.new) }
    {
        match operation {
            Operation::Skip { count } => self.skip(dag, plan, here, count),
            Operation::SkipIfZero { operand, count } => self.jump(dag, plan, here, operand, count),
            Operation::Check { condition } => self.check(dag, plan, here, condition),
            Operation::Assert { operand } => self.assert(dag, plan, here, operand),
            Operation::Assume { operand } => self.assume(dag, plan, here, operand),
            Operation::Draw { into, bits } => self.draw(dag, plan, here, into, bits),
            Operation::ReadObject {
                block,
                at,
                object,
                offset,
                count,
            } => self.read_object(dag, plan, here, (block, at), (object, offset), count),
            Operation::WriteObject {
                object,
                offset,
                block,
                at,
                count,
            } => self.write_object(dag, plan, here, (object, offset), (block, at), count),
            Operation::Exit => self.exit(dag, plan, here),
            Operation::Fail { class } => self.fail(dag, plan, here, class),
            Operation::Read {
                block,
                at,
                pointer,
                count,
            } => self.read(dag, plan, here, (block, at), pointer, count),
            Operation::Write {
                pointer,
                block,
                at,
                count,
                first,
            } => self.write(dag, plan, here, pointer, (block, at), count, first),
            Operation::Look {
                into,
                pointer,
                subscript,
            } => self.look(dag, plan, here, into, pointer, subscript),
            Operation::Fill { block, count } => self.fill(dag, plan, here, block, count),
            Operation::Alloc {
                into,
                block,
                size,
                readonly,
                heap,
            } => self.alloc(dag, plan, here, into, (block, size), (readonly, heap)),
            Operation::Die { pointer } => self.die(dag, plan, here, pointer),
            Operation::Free { pointer } => self.free(dag, plan, here, pointer),
            Operation::Call { .. }
            | Operation::Return { .. }
            | Operation::MayFail { .. }
            | Operation::Limit { .. } => self.stop(dag, plan, here, operation),
            Operation::Constant { .. }
            | Operation::Copy { .. }
            | Operation::Load { .. }
            | Operation::Store { .. }
            | Operation::Clear { .. }
            | Operation::CopyBytes { .. }
            | Operation::Convert { .. }
            | Operation::Sign { .. }
            | Operation::Arithmetic { .. }
            | Operation::Compare { .. }
            | Operation::IsZero { .. }
            | Operation::Use { .. }
            | Operation::Move { .. }
            | Operation::Offset { .. }
            | Operation::Same { .. }
            | Operation::Distance { .. }
            | Operation::Relate { .. }
            | Operation::Take { .. }
            | Operation::Put { .. } => self.calculate(dag, plan, here, operation),
        }
    }

    /// One instruction, which may be reached.
    pub fn visit(
        &mut self,
        dag: &mut Dag,
        plan: &Plan,
        place: usize,
        variable: usize,
        i: Instruction,
    ) -> Result<(), AllocError>
        requires plan { IsPlan plan.now }
        requires room { place + length self.old.pending.items < 2 ^ 64 }
        requires next { 0 < length self.old.pending.items }
        requires within { PassIn dag.old plan.now.code.now self.old }
        requires variables { variable + variables_of plan.now.code.now.blocks i.operation ≤ 2 ^ 32 }
        requires fits { operation_fits plan.now.code.now.registers plan.now.code.now.blocks (length (drop (place + 1) plan.now.code.now.instructions)) i.operation ≡ true }
        ensures extends { Extends dag.old dag.new }
        ensures visits { OnOk result (Visits plan.now.until.items plan.now.code.now place variable i dag.old dag.new self.old self.new) }
    {
        match self.pending.pop_front() {
            Some(Some(slot)) => {
                let here = Here {
                    place,
                    variable,
                    line: i.line,
                    function: i.function,
                    slot,
                };
                self.step(dag, plan, here, i.operation)?;
                Ok(())
            }
            Some(None) => Ok(()),
            None => unreachable!(),
        }
    }
}
