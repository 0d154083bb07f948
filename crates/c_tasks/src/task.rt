//! A task: a piece of the program that is to be done, and what changes when it is done.

use crate::variables::Block;
use actions::DrawBits;
use c_types::IntegerType;
use c_values::Number;
use core_tree::{
    ArithmeticOperator, Bounds, CoreArgument, CoreExpr, CoreItem, CorePart, CoreStatement,
    CoreStructure, Function, Literal, Place, StaticObject,
};
use std::alloc::Global;
use words::Class;

/// What a call is for: a number of a type or a structure value of a size, at this line, which may not be
/// used; or it is the first of a thread, whose function's name stands on this line.
#[derive(Clone, Copy)]
pub enum Wanted {
    Number {
        line: u32,
        used: bool,
        type_: IntegerType,
    },
    Structure {
        line: u32,
        used: bool,
        size: u32,
    },
    End {
        line: u32,
    },
}

/// What a function hands over: nothing, the number on top, or the structure value on top.
#[derive(Clone, Copy)]
pub enum Handed {
    Nothing,
    Number,
    Structure,
}

/// How far a statement is: it is to be run; its test or its value is evaluated; or it is a loop that may do
/// so many more rounds, before its next one, before its test, where that is evaluated, or at the end of its
/// body.
#[derive(Clone, Copy)]
pub enum Stage {
    Run,
    End,
    Turn(u32),
    Retest(u32),
    Repeat(u32),
    Body(u32),
}

/// How far the items of a block are: their variables are to be made, they are to be run, the block ends, or
/// the objects of their variables die.
#[derive(Clone, Copy)]
pub enum Part {
    Entry,
    Body,
    End,
    Exit,
}

/// What is still to be done. Where a place is, is told by a number: an offset of a variable, or a pointer.
#[derive(Drop)]
pub enum Task<'a> {
    // An expression is evaluated, or finished where its operands are.
    Expression {
        expression: &'a CoreExpr,
        finish: bool,
    },
    // A place is evaluated, or finished where its parts are.
    Place {
        place: &'a Place,
        finish: bool,
    },
    // A place takes the number on top: where it is, is told by the number below, or here.
    Store {
        line: u32,
        type_: IntegerType,
        place: &'a Place,
    },
    Rewrite {
        line: u32,
        type_: IntegerType,
        place: &'a Place,
        at: u64,
    },
    // An operation with the number of a place, which is on top, and the number below it, or 1.
    Combine {
        line: u32,
        type_: IntegerType,
        place: &'a Place,
        operator: ArithmeticOperator,
        operand: IntegerType,
    },
    Increment {
        line: u32,
        type_: IntegerType,
        place: &'a Place,
        operator: ArithmeticOperator,
        before: bool,
        at: u64,
    },
    // The object of a pointer is looked at, or has this size, and the pointer is moved by an index.
    Move {
        line: u32,
        step: i64,
        element: bool,
        swapped: bool,
    },
    Land {
        line: u32,
        step: i64,
        element: bool,
        swapped: bool,
    },
    // So the pointer at a place, which is moved by 1.
    Advance {
        line: u32,
        place: &'a Place,
        step: i64,
        before: bool,
        at: u64,
    },
    Arrive {
        line: u32,
        place: &'a Place,
        step: i64,
        before: bool,
        at: u64,
    },
    // An allocation: it fails where the number on top says so; its size is tested; so many words are drawn of
    // so many bytes; and the object is made.
    Try {
        line: u32,
        zeroed: bool,
    },
    Admit {
        line: u32,
        zeroed: bool,
    },
    DrawWords {
        words: u32,
        size: u32,
        line: u32,
    },
    Make {
        line: u32,
    },
    // The number on top isn't used.
    Drop,
    // A structure value is evaluated, or completed where its first part is.
    Structure {
        value: &'a CoreStructure,
        complete: bool,
    },
    // The parts of a list from one on.
    List(&'a Vec<CorePart>, usize),
    // A number or a structure value of a list is put at this offset.
    PlaceNumber(u32, IntegerType),
    PlaceStructure(u32),
    Test,
    Retype(IntegerType),
    Statement {
        statement: &'a CoreStatement,
        stage: Stage,
    },
    // The items from one on.
    Items {
        items: &'a Vec<CoreItem>,
        from: usize,
        part: Part,
    },
    // The end of a switch over these items.
    Switched(&'a Vec<CoreItem>),
    // A variable becomes an object, its initializer writes it, at this line, or its object dies.
    Settle(u32, usize),
    Initialize(u32, u32, IntegerType),
    InitializeStructure(u32, u32),
    Die(u32, usize),
    // So the parameters from one on up to another, and the end of so many.
    EnterParameters(usize, usize),
    EndParameters(usize),
    LeaveParameters(usize, usize),
    // So many words are drawn, at this line, from an offset of a variable on.
    Fill(u32, u32, u32, usize),
    // A function is called that has no parameters, as the first of the thread, at this line.
    Begin {
        function: u32,
        line: u32,
    },
    // The arguments of a call from one on are evaluated, those before it wait as structure values.
    Gather {
        want: Wanted,
        function: u32,
        arguments: &'a Vec<CoreArgument>,
        from: usize,
    },
    // The number on top is the argument before the next one.
    Add {
        want: Wanted,
        function: u32,
        type_: IntegerType,
        arguments: &'a Vec<CoreArgument>,
        next: usize,
    },
    // The end of a function's body, with the caller and its variables.
    Resume {
        want: Wanted,
        caller: u32,
        saved: Vec<Block>,
    },
    // A statement leads out of others; and the caller gets what a function hands over.
    Out(Cut),
    Get(Wanted, Handed),
    // A jump leads nowhere.
    Stray,
    // The end of the thread's first call, at this line and with the thread's value; then nothing is left.
    End(u32, u64),
    Ended(u64),
}

/// A caller that runs again, and its variables.
#[derive(Drop)]
pub struct Caller {
    pub function: u32,
    pub variables: Vec<Block>,
}

/// The tasks that take the place of one, in their order.
#[derive(Drop)]
pub struct Tasks<'a> {
    pub first: Option<Task<'a>>,
    pub second: Option<Task<'a>>,
    pub third: Option<Task<'a>>,
}

/// How many of the numbers on top are taken.
#[derive(Clone, Copy)]
pub enum Taken {
    None,
    One,
    Two,
    Three,
}

/// What becomes of the structure values that wait: one more comes on top, the one on top is taken, or
/// another takes its place; the lowest bytes of a number are put at an offset of it; or it is put itself at
/// an offset of the one below.
#[derive(Drop)]
pub enum Stacked {
    Kept,
    Pushed(Block),
    Taken,
    Replaced(Block),
    Bits {
        offset: usize,
        count: usize,
        bits: u64,
    },
    Joined {
        offset: usize,
    },
}

/// What is written: the lowest bytes of a number at an offset of a variable, zeros over all of a variable
/// of this size, or the structure value on top at an offset of a variable.
#[derive(Clone, Copy)]
pub enum Written {
    Nothing,
    Bits {
        variable: u32,
        offset: usize,
        count: usize,
        bits: u64,
    },
    Zeros {
        variable: u32,
        size: u32,
    },
    Top {
        variable: u32,
        offset: usize,
    },
}

/// What a step changes: tasks in the place of the first, numbers that are taken, one that is put on top,
/// the structure values, and the bytes of a variable.
#[derive(Drop)]
pub struct Change<'a> {
    pub tasks: Tasks<'a>,
    pub taken: Taken,
    pub put: Option<Number>,
    pub stacked: Stacked,
    pub written: Written,
}

/// Where a thread goes on elsewhere: behind the innermost loop or switch, at the end of the innermost loop's
/// body, behind a label, or in the caller.
#[derive(Clone, Copy)]
pub enum Cut {
    Break,
    Continue,
    Jump(u32),
    Return(Handed),
}

/// A function is called; so many structure values on top are its arguments.
#[derive(Clone, Copy)]
pub struct Call {
    pub want: Wanted,
    pub function: u32,
    pub count: usize,
}

/// What a thread does next in a state.
#[derive(Drop)]
pub enum Plan<'a> {
    Goes(Change<'a>),
    Cuts(Cut),
    Calls(Call),
    Halts(Halt),
}

/// What a step asks for: a draw of so many bits; so many bytes at a pointer; a write there of the number on
/// top as an object of this type, or of the structure value on top, the first or a later one; a look at the
/// object of a pointer, for an element of it or for a sum; an object with the bytes of a variable, or with the
/// structure value on top, on the heap; the death of an object; the release of one; or the end of the thread
/// with a value, or of the process.
#[derive(Clone, Copy)]
pub enum Request {
    Draw(DrawBits),
    Read(u64, u32),
    WriteNumber(u64, IntegerType, bool),
    WriteStructure(u64, bool),
    Look(u64, bool),
    Place(usize),
    Allocate,
    Die(u32),
    Free(u64),
    End(u64),
    Exit,
}

/// What comes next where no silent step does.
#[derive(Clone, Copy)]
pub enum Halt {
    // An action, at this line.
    Asks(Request, u32),
    Breaks(Class, u32),
    Blocks,
    Ends(u64),
}

/// What a plan depends on: the file's functions, static objects and literals, whether forms over pointers may stand
/// in it, the bounds, the running function, how many more activations of each function may be opened, the tasks behind the first, the numbers and the
/// structure values that wait, and the variables. The last of the tasks and of what waits come first.
#[derive(Drop)]
pub struct Look<'a, 'b> {
    pub alloc: Global,
    pub first: bool,
    pub functions: &'a [Function],
    pub objects: &'a [StaticObject],
    pub literals: &'a [Literal],
    pub pointers: bool,
    pub bounds: &'a Bounds,
    pub function: u32,
    pub left: &'b [u64],
    pub behind: &'b [Task<'a>],
    pub numbers: &'b [Number],
    pub structures: &'b [Block],
    pub variables: &'b [Block],
}
