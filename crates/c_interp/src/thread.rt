//! The thread of the typed source.

ghost use Rattle.std.specs.Prelude.{◌≡◌, ◌≤◌, ◌<◌, ◌+◌, ◌^◌, true, min, length, slice_get, IfOk};
ghost use Rattle.core_tree.specs.Trees.{core_file, view_core, view_functions};
ghost use Rattle.core_tree.specs.Typed.{are_typed, have_small};
ghost use Rattle.c_values.specs.Variables.{block_of};
ghost use Rattle.c_meaning.specs.Meaning.{size_in_list, is_readonly, variables_of, total};
ghost use Rattle.c_tasks.specs.Fits.{fits, variables_at, types_of, sizes_of};
ghost use Rattle.c_tasks.specs.Tasks.{items_in, values_in, structures_in, open_in};
ghost use Rattle.c_interp.specs.Keeps.{holds_bytes};

use crate::plan::plan_task;
use actions::{Action, Answer, Bytes, Machine, Next, Object};
use c_changes::{
    answer_task, change_numbers, change_structures, change_tasks, change_variables,
    close_activation, cut_items, first_left, open_activation, push_back,
};
use c_meaning::number_of_main;
use c_plan_flow::running;
use c_profile::Admitted;
use c_tasks::{
    Block, Call, Caller, Change, Cut, Halt, Look, Plan, Request, Task, Tasks, add_variables,
    body_of, defined, take_frame, top_of,
};
use c_values::{Number, low_bytes};
use core_tree::{Bounds, Function, Literal, StaticObject, Variable};
use std::alloc::{AllocError, Global};
use words::Word;

/// A thread of the typed source: the functions, the static objects and the literals of the file, whether
/// forms over pointers may stand in it, the bounds of a command, the function that it runs, how many more
/// activations of each function may be opened, the tasks that are still to be done, the numbers and the
/// structure values that wait, in each list the first one last, and the function's variables.
#[derive(Drop)]
pub struct Thread<'a> {
    alloc: Global,
    functions: &'a [Function],
    objects: &'a [StaticObject],
    literals: &'a [Literal],
    pointers: bool,
    bounds: &'a Bounds,
    startable: u32,
    first: bool,
    function: u32,
    left: Vec<u64>,
    tasks: Vec<Task<'a>>,
    numbers: Vec<Number>,
    structures: Vec<Block>,
    variables: Vec<Block>,
    ghost few: { length functions.now < 2 ^ 31 },
    ghost few_objects: { length objects.now + length literals.now < 4294967295 },
    ghost all_typed: { are_typed (view_core (core_file functions.now objects.now literals.now pointers)) ≡ true },
    ghost small_variables: { have_small (view_core (core_file functions.now objects.now literals.now pointers)).functions ≡ true },
    ghost known: { startable ≤ length functions.now },
    ghost small: { (bounds.now).malloc_limit ≤ 4096 },
    ghost typed: { fits (view_core (core_file functions.now objects.now literals.now pointers)) (items_in tasks.items) function (types_of (values_in numbers.items)) (sizes_of (structures_in structures.items)) ≡ true },
    ghost sized: { sizes_of variables.items ≡ variables_at (view_core (core_file functions.now objects.now literals.now pointers)) function },
    ghost held: { holds_bytes (items_in tasks.items) (structures_in structures.items) variables.items ≡ true },
    ghost counted: { total left.items + open_in (items_in tasks.items) ≤ 2 ^ 42 },
}

impl<'a> Thread<'a> {
    ghost use Rattle.std.specs.Prelude.{◌≡◌, ◌<◌, ◌≤◌, ◌+◌, ◌^◌, true, false, [], Some, length, slice_get, IfOk, OnOk, OnErr, MatchOption, vec_len, vec_capacity};
    ghost use Rattle.actions.specs.Behaviour.{accepts, answered};
    ghost use Rattle.c_values.specs.MadeObjects.{made_of};
    ghost use Rattle.core_tree.specs.Typed.{are_typed, have_small};
    ghost use Rattle.core_tree.specs.Trees.{core_file, view_function, view_functions, view_core};
    ghost use Rattle.c_values.specs.Variables.{block_of};
    ghost use Rattle.c_meaning.specs.Meaning.{readonly_of};
    ghost use Rattle.c_meaning.specs.Source.{source_thread};
    ghost use Rattle.c_interp.specs.SourceThread.{start_state, thread_in, function_thread};
    ghost use Rattle.c_interp.specs.Work.{weight};
    ghost use Rattle.c_interp.specs.Keeps.{HoldsBytes};
    ghost use Rattle.c_tasks.specs.Steps.{silent};
    ghost use Rattle.c_tasks.specs.Items.{top_bytes};
    ghost use Rattle.c_tasks.specs.Fits.{Fits, variables_at};
    ghost use Rattle.c_tasks.specs.Tasks.{items_in, values_in, structures_in, behind, activations, action_of, IsAsked, IsCall, next_by, IsAnswered, Accepts, ChangesWithin};
    ghost use Rattle.c_interp.specs.View.{file_of, code_under, active_of, running_under, state_of, thread_of, next_move, after_change, after_cut, SameProgram, Halts, IsPlanned, IsSound};

    /// Thread 0 of a file at its start: it calls the function named `main`. The bounds tell how many times
    /// the test of a loop may be evaluated at an arrival, how many activations of a function may be open,
    /// how much may be allocated and whether that may fail. Fails only for want of memory.
    pub fn new(
        alloc: Global,
        file: &'a Admitted,
        bounds: &'a Bounds,
    ) -> Result<Thread<'a>, AllocError>
        ensures { IfOk result (λ t. thread_of t ≡ source_thread (view_core file.now) bounds.now) }
    {
        let core = file.core();
        let functions = core.functions();
        let objects = core.objects();
        let literals = core.literals();
        let pointers = core.pointers();
        let number = number_of_main(functions);
        let _ = bounds.malloc_limit();
        Thread::at_function(
            alloc,
            functions,
            objects,
            literals,
            pointers,
            bounds,
            0,
            number as u32,
            true,
        )
    }

    // A thread that calls a function, whose name stands on this line.
    fn at_start(
        alloc: Global,
        functions: &'a [Function],
        objects: &'a [StaticObject],
        literals: &'a [Literal],
        pointers: bool,
        bounds: &'a Bounds,
        startable: u32,
        function: u32,
        first: bool,
        body: &'a Function,
    ) -> Result<Thread<'a>, AllocError>
        requires few { length functions.now < 2 ^ 31 }
        requires few_objects { length objects.now + length literals.now < 4294967295 }
        requires all { are_typed (view_core (core_file functions.now objects.now literals.now pointers)) ≡ true }
        requires small_variables { have_small (view_core (core_file functions.now objects.now literals.now pointers)).functions ≡ true }
        requires known { startable ≤ length functions.now }
        requires small { (bounds.now).malloc_limit ≤ 4096 }
        requires body { slice_get (view_functions functions.now) function ≡ Some (view_function body.now) }
        ensures { IfOk result (λ t. thread_of t ≡ thread_in (view_core (core_file functions.now objects.now literals.now pointers)) bounds.now startable first (start_state (view_core (core_file functions.now objects.now literals.now pointers)) bounds.now function body.now.line)) }
    {
        let mut tasks = Vec::with_capacity(alloc, 1)?;
        tasks.push(Task::Begin {
            function,
            line: body.line,
        })?;
        let left = first_left(alloc, functions, bounds)?;
        let mut variables = Vec::with_capacity(alloc, body.variables.len())?;
        add_variables(alloc, &mut variables, &body.variables, 0)?;
        Ok(Thread {
            alloc,
            functions,
            objects,
            literals,
            pointers,
            bounds,
            startable,
            first,
            function,
            left,
            tasks,
            numbers: Vec::new(alloc),
            structures: Vec::new(alloc),
            variables,
        })
    }

    /// A thread at the start of the function with this number, which is there.
    pub(crate) fn at_function(
        alloc: Global,
        functions: &'a [Function],
        objects: &'a [StaticObject],
        literals: &'a [Literal],
        pointers: bool,
        bounds: &'a Bounds,
        startable: u32,
        function: u32,
        first: bool,
    ) -> Result<Thread<'a>, AllocError>
        requires few { length functions.now < 2 ^ 31 }
        requires few_objects { length objects.now + length literals.now < 4294967295 }
        requires all { are_typed (view_core (core_file functions.now objects.now literals.now pointers)) ≡ true }
        requires small_variables { have_small (view_core (core_file functions.now objects.now literals.now pointers)).functions ≡ true }
        requires known { startable ≤ length functions.now }
        requires small { (bounds.now).malloc_limit ≤ 4096 }
        requires there { function < length functions.now }
        ensures { IfOk result (λ t. thread_of t ≡ function_thread (view_core (core_file functions.now objects.now literals.now pointers)) bounds.now startable first function) }
    {
        match body_of(functions, function) {
            Some(body) => Thread::at_start(
                alloc, functions, objects, literals, pointers, bounds, startable, function, first,
                body,
            ),
            None => unreachable!(),
        }
    }

    // Makes room for a step.
    fn make_room(&mut self) -> Result<(), AllocError>
        ensures state { state_of self.new ≡ state_of self.old }
        ensures program { SameProgram self.old self.new }
        ensures tasks { OnOk result (vec_len (self.new).tasks + 4 ≤ vec_capacity (self.new).tasks) }
        ensures numbers { OnOk result (vec_len (self.new).numbers < vec_capacity (self.new).numbers) }
        ensures structures { OnOk result (vec_len (self.new).structures < vec_capacity (self.new).structures) }
    {
        self.tasks.reserve(4)?;
        self.numbers.reserve(1)?;
        self.structures.reserve(1)?;
        Ok(())
    }

    // What is next in this state.
    fn plan(&self) -> Result<Plan<'a>, AllocError>
        ensures { IfOk result (λ p. IsPlanned self.now p) }
    {
        match self.tasks.as_slice().split_last() {
            None => Ok(Plan::Halts(Halt::Blocks)),
            Some((task, behind)) => {
                let look = Look {
                    alloc: self.alloc,
                    first: self.first,
                    functions: self.functions,
                    objects: self.objects,
                    literals: self.literals,
                    pointers: self.pointers,
                    bounds: self.bounds,
                    function: self.function,
                    left: self.left.as_slice(),
                    behind,
                    numbers: self.numbers.as_slice(),
                    structures: self.structures.as_slice(),
                    variables: self.variables.as_slice(),
                };
                plan_task(&look, task)
            }
        }
    }

    // Makes a change, where there is room for it.
    fn apply(&mut self, change: Change<'a>)
        requires step { Fits (file_of self.old) (after_change self.old change) }
        requires counted { activations (after_change self.old change) ≤ 2 ^ 42 }
        requires held { HoldsBytes (after_change self.old change) }
        requires within { ChangesWithin (variables_at (file_of self.old) (self.old).function) (structures_in (self.old).structures.items) change }
        requires tasks { vec_len (self.old).tasks + 3 ≤ vec_capacity (self.old).tasks }
        requires numbers { vec_len (self.old).numbers < vec_capacity (self.old).numbers }
        requires structures { vec_len (self.old).structures < vec_capacity (self.old).structures }
        ensures state { state_of self.new ≡ after_change self.old change.entry }
        ensures program { SameProgram self.old self.new }
    {
        let Change {
            tasks,
            taken,
            put,
            stacked,
            written,
        } = change;
        change_tasks(&mut self.tasks, tasks);
        change_numbers(&mut self.numbers, taken, put);
        change_variables(&mut self.variables, self.structures.as_slice(), written);
        change_structures(&mut self.structures, stacked);
    }

    // Goes on elsewhere, where the caller runs again in that.
    fn cut(&mut self, cut: Cut)
        requires sound { IsSound (file_of self.old) (after_cut self.old cut) }
        requires tasks { vec_len (self.old).tasks < vec_capacity (self.old).tasks }
        ensures state { state_of self.new ≡ after_cut self.old cut }
        ensures program { SameProgram self.old self.new }
    {
        if let Some(caller) = cut_items(&mut self.tasks, cut) {
            let Caller {
                function,
                variables,
            } = caller;
            close_activation(&mut self.left, self.function);
            self.function = function;
            self.variables = variables;
        }
    }

    // Begins the body of a function, where there is room for that. On an error the thread is unchanged.
    fn call(&mut self, call: Call) -> Result<(), AllocError>
        requires planned { IsCall (file_of self.old) call (active_of self.old) (next_move self.old) (items_in (self.old).tasks.items) (values_in (self.old).numbers.items) (structures_in (self.old).structures.items) (self.old).variables.items }
        requires tasks { vec_len (self.old).tasks + 4 ≤ vec_capacity (self.old).tasks }
        ensures ok { OnOk result (next_move self.old ≡ silent (state_of self.new)) }
        ensures err { OnErr result (state_of self.new ≡ state_of self.old) }
        ensures program { SameProgram self.old self.new }
    {
        let Some(body) = defined(self.functions, call.function) else {
            unreachable!();
        };
        let count = least(call.count, self.structures.len());
        let variables = take_frame(self.alloc, &mut self.structures, call.count, body.variables)?;
        let saved = std::mem::replace(&mut self.variables, variables);
        let tasks = Tasks {
            first: Some(running(body.statement)),
            second: Some(Task::EndParameters(count)),
            third: Some(Task::Resume {
                want: call.want,
                caller: self.function,
                saved,
            }),
        };
        change_tasks(&mut self.tasks, tasks);
        push_back(&mut self.tasks, Task::EnterParameters(0, count));
        open_activation(&mut self.left, call.function);
        self.function = call.function;
        Ok(())
    }

    // Makes a silent step that is planned, where there is room for it, or says what is next instead.
    fn follow(&mut self, plan: Plan<'a>) -> Result<Option<Halt>, AllocError>
        requires planned { IsPlanned self.old plan }
        requires tasks { vec_len (self.old).tasks + 4 ≤ vec_capacity (self.old).tasks }
        requires numbers { vec_len (self.old).numbers < vec_capacity (self.old).numbers }
        requires structures { vec_len (self.old).structures < vec_capacity (self.old).structures }
        ensures same { thread_of self.new ≡ thread_of self.old }
        ensures step { IfOk result (λ o. MatchOption o (weight (code_under self.new) (state_of self.new) < weight (code_under self.old) (state_of self.old)) (λ p. Halts self.new p)) }
    {
        match plan {
            Plan::Goes(change) => {
                self.apply(change);
                Ok(None)
            }
            Plan::Cuts(cut) => {
                self.cut(cut);
                Ok(None)
            }
            Plan::Calls(call) => {
                self.call(call)?;
                Ok(None)
            }
            Plan::Halts(halt) => Ok(Some(halt)),
        }
    }

    // Makes a silent step, or says what is next instead.
    fn step(&mut self) -> Result<Option<Halt>, AllocError>
        ensures same { thread_of self.new ≡ thread_of self.old }
        ensures step { IfOk result (λ o. MatchOption o (weight (code_under self.new) (state_of self.new) < weight (code_under self.old) (state_of self.old)) (λ p. Halts self.new p)) }
    {
        self.make_room()?;
        let plan = self.plan()?;
        self.follow(plan)
    }

    // Makes the silent steps up to what is next.
    fn settle(&mut self) -> Result<Halt, AllocError>
        ensures same { thread_of self.new ≡ thread_of self.old }
        ensures halts { IfOk result (λ p. Halts self.new p) }
    {
        'steps: loop {
            if let Some(halt) = self.step()? {
                return Ok(halt);
            }
        }
    }

    // A copy of the structure value on top.
    #[tactic(auto, using(c_tasks::proofs::Tops::structures_push))]
    fn top_bytes(&self) -> Result<Bytes, AllocError>
        ensures { IfOk result (λ bytes. bytes ≡ top_bytes (structures_in (self.now).structures.items)) }
    {
        match self.structures.as_slice().split_last() {
            Some((top, _)) => Ok(Bytes::new(top.to_vec(self.alloc)?)),
            None => Ok(Bytes::new(Vec::new(self.alloc))),
        }
    }

    // The object that a variable becomes.
    fn placed(&self, variable: usize) -> Result<Object, AllocError>
        ensures { IfOk result (λ o. o ≡ made_of (readonly_of (running_under self.now) variable) false (block_of (self.now).variables.items variable)) }
    {
        let bytes = copied_block(self.alloc, self.variables.as_slice(), variable)?;
        let found = variable_of(self.functions, self.function, variable);
        c_values::made_of(self.alloc, found.readonly, false, bytes)
    }

    // The object that an allocation makes of the structure value on top.
    fn allocated(&self) -> Result<Object, AllocError>
        ensures { IfOk result (λ o. o ≡ made_of false true (top_bytes (structures_in (self.now).structures.items))) }
    {
        let bytes = self.top_bytes()?;
        c_values::made_of(self.alloc, false, true, bytes)
    }

    // The action that is asked for.
    fn action_of(&self, request: Request) -> Result<Action, AllocError>
        ensures { IfOk result (λ action. action ≡ action_of (running_under self.now) (values_in (self.now).numbers.items) (structures_in (self.now).structures.items) (self.now).variables.items request) }
    {
        match request {
            Request::Draw(bits) => Ok(Action::Draw(bits)),
            Request::Read(pointer, count) => Ok(Action::Read(pointer, count)),
            Request::WriteNumber(pointer, type_, first) => {
                let bits = top_of(self.numbers.as_slice()).bits();
                let bytes = low_bytes(self.alloc, type_.size() as usize, bits)?;
                Ok(Action::Write(pointer, Bytes::new(bytes), first))
            }
            Request::WriteStructure(pointer, first) => {
                Ok(Action::Write(pointer, self.top_bytes()?, first))
            }
            Request::Look(pointer, element) => Ok(Action::Look(pointer, element)),
            Request::Place(variable) => Ok(Action::Alloc(self.placed(variable)?)),
            Request::Allocate => Ok(Action::Alloc(self.allocated()?)),
            Request::Die(number) => Ok(Action::Die(number)),
            Request::Free(pointer) => Ok(Action::Free(pointer)),
            Request::End(value) => Ok(Action::End(value)),
            Request::Exit => Ok(Action::Exit),
        }
    }

    // What is next, by what comes next in the state.
    fn next_of(&self, halt: Halt) -> Result<Next, AllocError>
        requires { Halts self.now halt }
        ensures { IfOk result (λ n. n ≡ next_by (running_under self.now) (values_in (self.now).numbers.items) (structures_in (self.now).structures.items) (self.now).variables.items halt) }
    {
        match halt {
            Halt::Asks(request, line) => {
                Ok(Next::Act(self.action_of(request)?, line, self.function))
            }
            Halt::Breaks(class, line) => Ok(Next::Broken(class, line, self.function)),
            Halt::Blocks => Ok(Next::Blocked),
            Halt::Ends(v) => Ok(Next::Ended(Word::new(v, 64))),
        }
    }

    // What is next, by the thread's meaning.
    fn next(&self, halt: Halt) -> Result<Next, AllocError>
        requires { Halts self.now halt }
        ensures { IfOk result (λ n. n ≡ (thread_of self.now).behaves []) }
    {
        self.next_of(halt)
    }

    // The change that an answer makes.
    fn answered(&self, answer: &Answer) -> Result<Change<'a>, AllocError>
        requires { Accepts (next_move self.now) answer.now }
        ensures { IfOk result (λ c. IsAnswered (variables_at (file_of self.now) (self.now).function) (behind (items_in (self.now).tasks.items)) (active_of self.now) (values_in (self.now).numbers.items) (structures_in (self.now).structures.items) (self.now).variables.items (next_move self.now) answer.now c) }
    {
        match self.tasks.as_slice().split_last() {
            None => unreachable!(),
            Some((task, behind)) => {
                let look = Look {
                    alloc: self.alloc,
                    first: self.first,
                    functions: self.functions,
                    objects: self.objects,
                    literals: self.literals,
                    pointers: self.pointers,
                    bounds: self.bounds,
                    function: self.function,
                    left: self.left.as_slice(),
                    behind,
                    numbers: self.numbers.as_slice(),
                    structures: self.structures.as_slice(),
                    variables: self.variables.as_slice(),
                };
                answer_task(&look, task, answer)
            }
        }
    }

    // Takes the answer to an action.
    fn take_answer(
        &mut self,
        request: Request,
        line: u32,
        answer: &Answer,
    ) -> Result<(), AllocError>
        requires asked { IsAsked (next_move self.old) (action_of (running_under self.old) (values_in (self.old).numbers.items) (structures_in (self.old).structures.items) (self.old).variables.items request) line }
        requires accepts { accepts ((thread_of self.old).behaves []) answer.now ≡ true }
        ensures ok { OnOk result (thread_of self.new ≡ answered (thread_of self.old) answer.now) }
        ensures err { OnErr result (thread_of self.new ≡ thread_of self.old) }
    {
        let _ = request;
        let _ = line;
        self.make_room()?;
        let change = self.answered(answer)?;
        self.apply(change);
        Ok(())
    }

    // Takes the answer to what comes next in the state.
    fn take(&mut self, halt: Halt, answer: &Answer) -> Result<(), AllocError>
        requires halts { Halts self.old halt }
        requires accepts { accepts ((thread_of self.old).behaves []) answer.now ≡ true }
        requires next { accepts (next_by (running_under self.old) (values_in (self.old).numbers.items) (structures_in (self.old).structures.items) (self.old).variables.items halt) answer.now ≡ true }
        ensures ok { OnOk result (thread_of self.new ≡ answered (thread_of self.old) answer.now) }
        ensures err { OnErr result (thread_of self.new ≡ thread_of self.old) }
    {
        match halt {
            Halt::Asks(request, line) => self.take_answer(request, line, answer),
            Halt::Breaks(_, _) | Halt::Blocks | Halt::Ends(_) => unreachable!(),
        }
    }
}

// The smaller of two counts.
fn least(m: usize, n: usize) -> usize
    ensures { result ≡ min m n }
{
    if m <= n { m } else { n }
}

// What a function says of a variable; of one that isn't there that it has no bytes.
fn variable_of(functions: &[Function], function: u32, variable: usize) -> Variable
    ensures size { result.size ≡ size_in_list (slice_get (variables_of (slice_get (view_functions functions.now) function)) variable) }
    ensures readonly { result.readonly ≡ is_readonly (slice_get (variables_of (slice_get (view_functions functions.now) function)) variable) }
{
    if let Some(body) = body_of(functions, function) {
        if let Some(found) = body.variables.get(variable) {
            return *found;
        }
    }
    Variable {
        size: 0,
        readonly: false,
        home: None,
    }
}

// A copy of the bytes of a variable.
fn copied_block(alloc: Global, variables: &[Block], variable: usize) -> Result<Bytes, AllocError>
    ensures { IfOk result (λ bytes. bytes ≡ block_of variables.now variable) }
{
    match variables.get(variable) {
        Some(block) => Ok(Bytes::new(block.to_vec(alloc)?)),
        None => Ok(Bytes::new(Vec::new(alloc))),
    }
}

impl<'a> Machine for Thread<'a> {
    ghost use Rattle.c_interp.specs.View.{thread_of, thread_is};

    ghost thread = { λ t. thread_of t };

    fn start(&self, function: u32, _v: Word) -> Result<Self, AllocError> {
        Thread::at_function(
            self.alloc,
            self.functions,
            self.objects,
            self.literals,
            self.pointers,
            self.bounds,
            self.startable,
            function,
            false,
        )
    }

    fn advance(&mut self) -> Result<Next, AllocError> {
        match self.settle() {
            Ok(halt) => self.next(halt),
            Err(error) => Err(error),
        }
    }

    fn answer(&mut self, answer: &Answer) -> Result<(), AllocError> {
        match self.settle() {
            Ok(halt) => self.take(halt, answer),
            Err(error) => Err(error),
        }
    }

    ghost valid = { thread_is };
}
