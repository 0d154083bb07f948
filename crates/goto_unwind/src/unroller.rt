//! Unrolled code while it is made, from its end to its front.

ghost use Rattle.std.specs.Prelude.{◌≡◌, ◌+◌, ◌<◌, ◌∷◌, ◌++◌, [], true, false, min, drop, IfOk, OnOk, length, option_map, slice_get, slice_index, slice_set};
ghost use Rattle.goto_prog.specs.Nodes.{nodes_of, view_procedure, view_procedures};
ghost use Rattle.goto_prog.specs.Fitting.{code_fits};
ghost use Rattle.goto_prog.specs.Flat.{main_code};
ghost use Rattle.goto_prog.specs.UnrolledCode.{is_flat_code};
ghost use Rattle.goto_prog.specs.Structured.{round_count, tests};
ghost use Rattle.goto_unwind.specs.Unrolled.{argument_code, at, hand_code, jump, passed_code, with_frame};
ghost use Rattle.goto_unwind.specs.Program.{unrolled};
ghost use Rattle.goto_unwind.specs.Unroller.{Pops, again, bounded, calls, closes, does, function_level, function_site, level_of, loops, opens, outcome, making, own_marks, placed, puts, site_of, starting, taken, weight, with_level};

use crate::level::{CallPlan, Handing, Level, Site, Turn, last};
use crate::loop_bounds::tests;
use crate::renumbering::{number, renumbered};
use c_types::IntegerType;
use core_tree::Bounds;
use goto_prog::{Code, Goto, Instruction, Kind, Node, Operation, Procedure, resolved};
use std::alloc::{AllocError, Global};
use words::Class;

/// Unrolled code while it is made, from its end to its front: how many activations of each function may
/// still be opened; what is being put in front, the innermost last; of each place how many others lie behind
/// it; the code with its last instruction first; and its registers and blocks.
#[derive(Drop)]
pub(crate) struct Unroller<'a> {
    procedures: &'a [Procedure],
    bounds: &'a Bounds,
    left: Vec<u32>,
    levels: Vec<Level<'a>>,
    marks: Vec<usize>,
    code: Vec<Instruction>,
    registers: Vec<IntegerType>,
    blocks: Vec<u32>,
}

impl<'a> Unroller<'a> {
    // Puts an instruction in front of the code.
    fn push(&mut self, line: u32, function: u32, operation: Operation) -> Result<(), AllocError>
        ensures { OnOk result (making self.new ≡ record (making self.old) { code = at line function operation ∷ (making self.old).code }) }
    {
        self.code.push(Instruction {
            line,
            function,
            operation,
        })?;
        Ok(())
    }

    // Marks the place that the code begins with.
    fn mark(&mut self) -> Result<(), AllocError>
        ensures { OnOk result (making self.new ≡ record (making self.old) { marks = length (making self.old).code ∷ (making self.old).marks }) }
    {
        self.marks.push(self.code.len())?;
        Ok(())
    }

    // Forgets the last marks.
    #[tactic(auto, using(crate::proofs::Marks::last_dropped))]
    fn forget(&mut self, count: usize)
        ensures { making self.new ≡ record (making self.old) { marks = drop count (making self.old).marks } }
    {
        let rest = self.marks.len().saturating_sub(count);
        self.marks.truncate(rest);
    }

    // How many places lie behind one that is so many places further than a node of a level.
    #[tactic(auto, using(crate::proofs::Marks::mark_found, crate::proofs::Marks::mark_missing))]
    fn marked(&self, level: &Level<'a>, count: usize) -> usize
        ensures { result ≡ slice_index (own_marks (level_of level.now) (making self.now).marks) count }
    {
        let all = self.marks.len();
        if count < all && (count < level.marked || count - level.marked < level.outer) {
            self.marks[all - 1 - count]
        } else {
            0
        }
    }

    // A jump from in front of the code to a place behind which so many lie.
    fn jump(&self, mark: usize) -> usize
        ensures { result ≡ jump (making self.now).code mark }
    {
        self.code.len().saturating_sub(mark)
    }

    // Puts a level on top.
    #[tactic(auto, using(crate::proofs::Marks::levels_push))]
    fn with_level(&mut self, level: &Level<'a>) -> Result<(), AllocError>
        ensures { OnOk result (making self.new ≡ with_level (level_of level.now) (making self.old)) }
    {
        self.levels.push(*level)?;
        Ok(())
    }

    // Takes the innermost level.
    #[tactic(auto, using(crate::proofs::Marks::levels_push))]
    fn pop(&mut self) -> Option<Level<'a>>
        ensures { Pops (making self.old) (making self.new) (option_map level_of result) }
    {
        self.levels.pop()
    }

    // Passing a bound, in front of the code.
    fn passed(&mut self, class: Class, line: u32, function: u32) -> Result<(), AllocError>
        ensures { OnOk result (making self.new ≡ record (making self.old) { code = passed_code (making self.old).limits.assertions class line function ∷ (making self.old).code }) }
    {
        if self.bounds.assertions() {
            self.push(line, function, Operation::Fail { class })
        } else {
            self.push(line, function, Operation::Assume { operand: 0 })
        }
    }

    // How many activations of a function may still be opened.
    fn left(&self, function: u32) -> u32
        ensures { result ≡ slice_index (making self.now).left function }
    {
        match self.left.get(function as usize) {
            Some(count) => *count,
            None => 0,
        }
    }

    // So many activations of a function may be opened.
    #[tactic(auto, using(goto_prog::proofs::WalkerSteps::set_beyond))]
    fn set_left(&mut self, function: u32, count: u32)
        ensures { making self.new ≡ record (making self.old) { left = slice_set (making self.old).left function count } }
    {
        let at = function as usize;
        if at < self.left.len() {
            self.left[at] = count;
        }
    }

    // The registers and blocks of a function behind the others.
    fn extend(&mut self, procedure: &Procedure) -> Result<(), AllocError>
        ensures { OnOk result (making self.new ≡ record (making self.old) { space = with_frame (making self.old).space (view_procedure procedure.now) }) }
    {
        self.registers.extend_from_slice(&procedure.registers)?;
        self.blocks.extend_from_slice(&procedure.blocks)?;
        Ok(())
    }

    // What a function hands over by its end, in front of the code.
    fn hand(
        &mut self,
        site: &Site<'a>,
        line: u32,
        function: u32,
        value: Option<usize>,
    ) -> Result<(), AllocError>
        ensures { OnOk result (making self.new ≡ record (making self.old) { code = hand_code (site_of site.now) line function value ++ (making self.old).code }) }
    {
        if let Some(handing) = site.hands {
            match value {
                None => self.hand_nothing(handing, line, function)?,
                Some(block) => self.hand_block(site, handing, line, function, block)?,
            }
        }
        Ok(())
    }

    fn hand_nothing(&mut self, handing: Handing, line: u32, function: u32) -> Result<(), AllocError>
        ensures { OnOk result (making self.new ≡ record (making self.old) { code = at line function (Operation.Constant handing.register 0) ∷ (making self.old).code }) }
    {
        self.push(
            line,
            function,
            Operation::Constant {
                into: handing.register,
                bits: 0,
            },
        )
    }

    fn hand_block(
        &mut self,
        site: &Site<'a>,
        handing: Handing,
        line: u32,
        function: u32,
        block: usize,
    ) -> Result<(), AllocError>
        ensures { OnOk result (making self.new ≡ record (making self.old) {
          code = at line function (Operation.CopyBytes handing.block 0 ((site_of site.now).block + block) 0 (min handing.size (slice_index (site_of site.now).routine.blocks block)))
              ∷ at line function (Operation.Constant handing.register 1)
              ∷ (making self.old).code;
        }) }
    {
        self.push(
            line,
            function,
            Operation::Constant {
                into: handing.register,
                bits: 1,
            },
        )?;
        let size = size_of(&site.procedure.blocks, block);
        self.push(
            line,
            function,
            Operation::CopyBytes {
                into: handing.block,
                at: 0,
                from: number(site.block, block)?,
                offset: 0,
                count: handing.size.min(size),
            },
        )
    }

    // A place of a level, with the rest of its nodes still to come.
    fn place(&mut self, level: &Level<'a>, rest: &'a [Node]) -> Result<(), AllocError>
        ensures { OnOk result (making self.new ≡ record (making self.old) {
          levels = taken (level_of level.now) (nodes_of rest.now) ∷ (making self.old).levels;
          marks = length (making self.old).code ∷ (making self.old).marks;
        }) }
    {
        self.suspend(level, rest)?;
        self.mark()
    }

    // A level whose next place is being made.
    fn suspend(&mut self, level: &Level<'a>, rest: &'a [Node]) -> Result<(), AllocError>
        ensures { OnOk result (making self.new ≡ record (making self.old) { levels = taken (level_of level.now) (nodes_of rest.now) ∷ (making self.old).levels }) }
    {
        let taken = Level {
            ahead: rest,
            marked: number(level.marked, 1)?,
            ..*level
        };
        self.with_level(&taken)
    }

    // The activation of a function that is called in an activation.
    fn site(
        &self,
        caller: &Site<'a>,
        plan: CallPlan,
        procedure: &'a Procedure,
    ) -> Result<Site<'a>, AllocError>
        ensures { IfOk result (λ s. site_of s ≡ function_site (site_of caller.now) (making self.now).space plan.into plan.returned (length (making self.now).code) (view_procedure procedure.now)) }
    {
        let handing = Handing {
            block: number(caller.block, plan.into)?,
            size: size_of(&caller.procedure.blocks, plan.into),
            register: number(caller.register, plan.returned)?,
        };
        Ok(Site {
            procedure,
            register: self.registers.len(),
            block: self.blocks.len(),
            hands: Some(handing),
            back: self.code.len(),
        })
    }

    // The level of a function that is called in a level.
    fn body(
        &self,
        level: &Level<'a>,
        i: Instruction,
        plan: CallPlan,
        procedure: &'a Procedure,
    ) -> Result<Level<'a>, AllocError>
        ensures { IfOk result (λ l. level_of l ≡ function_level (level_of level.now) i.line i.function plan.callee plan.first plan.count plan.into plan.returned (view_procedure procedure.now) (making self.now)) }
    {
        let site = self.site(&level.site, plan, procedure)?;
        let turn = Turn::Body {
            line: i.line,
            function: i.function,
            from: number(level.site.block, plan.first)?,
            count: plan.count,
            callee: plan.callee,
            left: self.left(plan.callee),
        };
        let arguments = behind(&level.site.procedure.blocks, plan.first);
        Ok(Level {
            site,
            nodes: procedure.nodes.as_slice(),
            ahead: procedure.nodes.as_slice(),
            marked: 1,
            outer: 0,
            turn,
            arguments,
        })
    }

    // A function is called.
    fn open(
        &mut self,
        level: &Level<'a>,
        rest: &'a [Node],
        i: Instruction,
        plan: CallPlan,
        procedure: &'a Procedure,
    ) -> Result<(), AllocError>
        requires more { 0 < slice_index (making self.old).left plan.callee }
        ensures { OnOk result (making self.new ≡ opens (level_of level.now) (nodes_of rest.now) i.line i.function plan.callee plan.first plan.count plan.into plan.returned (view_procedure procedure.now) (making self.old)) }
    {
        let body = self.body(level, i, plan, procedure)?;
        let left = self.left(plan.callee);
        self.extend(procedure)?;
        self.hand(&body.site, procedure.line, 0, None)?;
        self.set_left(plan.callee, left - 1);
        self.suspend(level, rest)?;
        self.with_level(&body)?;
        self.mark()
    }

    // A call.
    fn call(
        &mut self,
        level: &Level<'a>,
        rest: &'a [Node],
        i: Instruction,
        plan: CallPlan,
    ) -> Result<(), AllocError>
        ensures { OnOk result (making self.new ≡ calls (level_of level.now) (nodes_of rest.now) i.line i.function plan.callee plan.first plan.count plan.into plan.returned (making self.old)) }
    {
        if self.left(plan.callee) == 0 {
            self.passed(Class::Recursion, i.line, i.function)?;
            return self.place(level, rest);
        }
        match procedure_at(self.procedures, plan.callee) {
            Some(procedure) => self.open(level, rest, i, plan, procedure),
            None => {
                self.push(i.line, i.function, Operation::Assume { operand: 0 })?;
                self.place(level, rest)
            }
        }
    }

    // An instruction, which becomes this one at its place.
    fn put(
        &mut self,
        level: &Level<'a>,
        rest: &'a [Node],
        i: Instruction,
        operation: Operation,
    ) -> Result<(), AllocError>
        ensures { OnOk result (making self.new ≡ placed (at i.line i.function operation ∷ []) (with_level (taken (level_of level.now) (nodes_of rest.now)) (making self.old))) }
    {
        self.push(i.line, i.function, operation)?;
        self.place(level, rest)
    }

    // A function ends.
    fn end(
        &mut self,
        level: &Level<'a>,
        rest: &'a [Node],
        i: Instruction,
        value: Option<usize>,
    ) -> Result<(), AllocError>
        ensures { OnOk result (making self.new ≡ does (level_of level.now) (nodes_of rest.now) i.line i.function (Operation.Return value) (making self.old)) }
    {
        let count = self.jump(level.site.back);
        self.push(i.line, i.function, Operation::Skip { count })?;
        self.hand(&level.site, i.line, i.function, value)?;
        self.place(level, rest)
    }

    // An instruction at a node of a level.
    fn instruction(
        &mut self,
        level: &Level<'a>,
        rest: &'a [Node],
        i: Instruction,
    ) -> Result<(), AllocError>
        ensures { OnOk result (making self.new ≡ does (level_of level.now) (nodes_of rest.now) i.line i.function i.operation (making self.old)) }
    {
        match i.operation {
            Operation::Call {
                callee,
                first,
                count,
                into,
                returned,
            } => {
                let plan = CallPlan {
                    callee,
                    first,
                    count,
                    into,
                    returned,
                };
                self.call(level, rest, i, plan)
            }
            Operation::Return { value } => self.end(level, rest, i, value),
            Operation::Skip { count } => {
                let count = self.jump(self.marked(level, count));
                self.put(level, rest, i, Operation::Skip { count })
            }
            Operation::SkipIfZero { operand, count } => {
                let operand = number(level.site.register, operand)?;
                let count = self.jump(self.marked(level, count));
                self.put(level, rest, i, Operation::SkipIfZero { operand, count })
            }
            _ => {
                let operation = resolved(self.bounds, i.operation);
                let operation = renumbered(level.site.register, level.site.block, operation)?;
                self.put(level, rest, i, operation)
            }
        }
    }

    // How many rounds a loop of a function has.
    fn round_count(&self, rotated: bool, function: u32, loop_number: u32) -> u32
        ensures { result ≡ round_count rotated (tests (bounded (making self.now)) function loop_number) }
    {
        let name = match self.procedures.get(function as usize) {
            Some(procedure) => procedure.name.bytes.as_slice(),
            None => &[],
        };
        let count = tests(self.bounds, name, loop_number);
        if rotated {
            count.saturating_sub(1)
        } else {
            count
        }
    }

    // A loop at a node of a level.
    fn enter(
        &mut self,
        level: &Level<'a>,
        rest: &'a [Node],
        i: (u32, u32),
        count: u32,
        nodes: &'a [Node],
    ) -> Result<(), AllocError>
        ensures { OnOk result (making self.new ≡ loops (level_of level.now) (nodes_of rest.now) i.0 i.1 count (nodes_of nodes.now) (making self.old)) }
    {
        self.passed(Class::Unwind, i.0, i.1)?;
        self.suspend(level, rest)?;
        let rounds = Level {
            site: level.site,
            nodes,
            ahead: &[],
            marked: 0,
            outer: number(level.marked, level.outer)?,
            turn: Turn::Rounds { count },
            arguments: &[],
        };
        self.with_level(&rounds)
    }

    // A node of a level.
    fn node(
        &mut self,
        level: &Level<'a>,
        rest: &'a [Node],
        kind: &Kind<'a>,
    ) -> Result<(), AllocError>
        ensures { OnOk result (making self.new ≡ puts kind.now (level_of level.now) (nodes_of rest.now) (making self.old)) }
    {
        match *kind {
            Kind::Plain(i) => self.instruction(level, rest, i),
            Kind::Loop {
                line,
                function,
                number,
                rotated,
                nodes,
            } => {
                let count = self.round_count(rotated, function, number);
                self.enter(level, rest, (line, function), count, nodes)
            }
        }
    }

    // The arguments of a call, from a block on, in front of the code.
    #[tactic(auto, using(crate::proofs::Arguments::argument_more, crate::proofs::Arguments::argument_none, crate::proofs::Arguments::argument_all))]
    fn arguments(
        &mut self,
        level: &Level<'a>,
        line: u32,
        function: u32,
        from: usize,
        count: usize,
    ) -> Result<(), AllocError>
        ensures { OnOk result (making self.new ≡ record (making self.old) {
          code = argument_code line function (level_of level.now).arguments from count (level_of level.now).site.routine.blocks (level_of level.now).site.block ++ (making self.old).code;
        }) }
    {
        let sizes = level.site.procedure.blocks.as_slice();
        let mut next = count.min(sizes.len()).min(level.arguments.len());
        'arguments: while next > 0 {
            next -= 1;
            self.push(
                line,
                function,
                Operation::CopyBytes {
                    into: number(level.site.block, next)?,
                    at: 0,
                    from: number(from, next)?,
                    offset: 0,
                    count: sizes[next].min(level.arguments[next]),
                },
            )?;
        }
        Ok(())
    }

    // Another round of a loop, of which so many more are to come.
    fn again(&mut self, level: &Level<'a>, count: u32) -> Result<(), AllocError>
        ensures { OnOk result (making self.new ≡ again (level_of level.now) count (making self.old)) }
    {
        self.forget(level.marked);
        let round = Level {
            ahead: level.nodes,
            marked: 1,
            turn: Turn::Rounds { count },
            ..*level
        };
        self.with_level(&round)?;
        self.mark()
    }

    // The end of a function or a loop.
    fn close(&mut self, level: &Level<'a>) -> Result<(), AllocError>
        ensures { OnOk result (making self.new ≡ closes (level_of level.now).turn (level_of level.now) (making self.old)) }
    {
        match level.turn {
            Turn::Rounds { count } => {
                if count > 0 {
                    return self.again(level, count - 1);
                }
            }
            Turn::Body {
                line,
                function,
                from,
                count,
                callee,
                left,
            } => {
                self.arguments(level, line, function, from, count)?;
                self.set_left(callee, left);
            }
        }
        self.forget(level.marked);
        self.mark()
    }

    // A step of a level that was the innermost.
    #[tactic(auto, using(crate::proofs::Unrolls::put_same, crate::proofs::Unrolls::close_same, crate::proofs::Lighter::put_lighter, crate::proofs::Lighter::close_lighter))]
    fn step(&mut self, level: &Level<'a>) -> Result<(), AllocError>
        ensures same { OnOk result (outcome (making self.new) ≡ outcome (with_level (level_of level.now) (making self.old))) }
        ensures lighter { OnOk result (weight (making self.new) < weight (with_level (level_of level.now) (making self.old))) }
    {
        match last(level.ahead) {
            Some((kind, rest)) => self.node(level, rest, &kind),
            None => self.close(level),
        }
    }

    // Puts all levels in front.
    fn run(&mut self) -> Result<(), AllocError>
        ensures same { OnOk result (outcome (making self.new) ≡ outcome (making self.old)) }
        ensures none { OnOk result ((making self.new).levels ≡ []) }
    {
        'levels: while let Some(level) = self.pop() {
            self.step(&level)?;
        }
        Ok(())
    }
}

// The size of a block.
fn size_of(blocks: &[u32], block: usize) -> u32
    ensures { result ≡ slice_index blocks.now block }
{
    match blocks.get(block) {
        Some(size) => *size,
        None => 0,
    }
}

// The sizes of the blocks behind so many.
fn behind(blocks: &[u32], first: usize) -> &[u32]
    ensures { result.now ≡ drop first blocks.now }
{
    if first <= blocks.len() {
        &blocks[first..]
    } else {
        &[]
    }
}

// Before the code of the function that thread 0 calls, behind which stands the end of the process.
fn started<'a>(
    alloc: Global,
    procedures: &'a [Procedure],
    bounds: &'a Bounds,
    number: u32,
    procedure: &'a Procedure,
) -> Result<Unroller<'a>, AllocError>
    ensures { IfOk result (λ u. making u ≡ starting (view_procedures procedures.now) bounds.now number (view_procedure procedure.now)) }
{
    let unwind = bounds.unwind();
    let mut unroller = Unroller {
        procedures,
        bounds,
        left: vec![in alloc; unwind; procedures.len()]?,
        levels: Vec::new(alloc),
        marks: Vec::new(alloc),
        code: Vec::new(alloc),
        registers: vec![in alloc; IntegerType::Int]?,
        blocks: Vec::new(alloc),
    };
    unroller.set_left(number, unwind - 1);
    unroller.push(procedure.line, number, Operation::Exit)?;
    unroller.extend(procedure)?;
    let site = Site {
        procedure,
        register: 1,
        block: 0,
        hands: None,
        back: 1,
    };
    let level = Level {
        site,
        nodes: procedure.nodes.as_slice(),
        ahead: procedure.nodes.as_slice(),
        marked: 1,
        outer: 0,
        turn: Turn::Rounds { count: 0 },
        arguments: &[],
    };
    unroller.with_level(&level)?;
    unroller.mark()?;
    Ok(unroller)
}

// The finished code.
fn finished(unroller: Unroller) -> Code
    requires { code_fits (making unroller).space.registers (making unroller).space.blocks (making unroller).code ≡ true }
    ensures { result ≡ record { registers = (making unroller.entry).space.registers; blocks = (making unroller.entry).space.blocks; instructions = (making unroller.entry).code; startable = false } }
{
    let Unroller {
        mut code,
        registers,
        blocks,
        ..
    } = unroller;
    code.reverse();
    Code::new(registers, blocks, code, false)
}

// The function with this number, where there is one.
fn procedure_at<'a>(procedures: &'a [Procedure], function: u32) -> Option<&'a Procedure>
    ensures { option_map (λ p. view_procedure p.now) result ≡ slice_get (view_procedures procedures.now) function }
{
    procedures.get(function as usize)
}

/// The code that thread 0 runs.
pub(crate) fn unrolled_main(alloc: Global, goto: &Goto, bounds: &Bounds) -> Result<Code, AllocError>
    ensures is { IfOk result (λ c. c ≡ main_code (unrolled goto.now bounds.now)) }
    ensures flat { IfOk result (λ c. is_flat_code c ≡ true) }
{
    let number = goto.main_number();
    let procedures = goto.procedures();
    let _unwind = bounds.unwind();
    match procedure_at(procedures, number) {
        Some(procedure) => {
            let mut unroller = started(alloc, procedures, bounds, number, procedure)?;
            unroller.run()?;
            Ok(finished(unroller))
        }
        None => unreachable!(),
    }
}
