//! Tests of the guarded events of code.

// Code made by hand, with the events that its equations tell.

ghost use Rattle.std.specs.Prelude.{◌≡◌, true, [], ◌∷◌, IfOk};
ghost use Rattle.std.specs.List.{list_all};
ghost use Rattle.goto_prog.specs.Fitting.{code_fits};
ghost use Rattle.goto_prog.specs.UnrolledCode.{is_flat, is_flat_code};
ghost use Rattle.goto_prog.specs.Static.{is_static_code};
ghost use Rattle.goto_prog.specs.declared.code.Instruction.{Instruction as GotoInstruction};

use actions::Store;
use c_types::IntegerType;
use core_tree::Comparison;
use event_forms::{Event, EventKind};
use goto_prog::{Code, Instruction, Operation, Unrolled};
use guarded_ssa::threads;
use std::alloc::{AllocError, Global};
use std::test::Fail;
use word_dag::{Dag, Id, Valuation};
use words::{Class, Word};

// `int x = <input>, y; if (x) y = 5; else y = 7; assert(y < 7);`
fn choice(alloc: Global) -> Result<Code, AllocError>
    ensures flat { IfOk result (λ c. is_flat_code c ≡ true) }
    ensures plain { IfOk result (λ c. is_static_code c.instructions ≡ true) }
{
    let at = |line: u32, operation: Operation| Instruction {
        line,
        function: 0,
        operation,
    };
    let instructions = vec![in alloc;
        at(1, Operation::Draw { into: 0, bits: 32 }),
        at(
            2,
            Operation::SkipIfZero {
                operand: 0,
                count: 2
            }
        ),
        at(2, Operation::Constant { into: 1, bits: 5 }),
        at(2, Operation::Skip { count: 1 }),
        at(2, Operation::Constant { into: 1, bits: 7 }),
        at(
            2,
            Operation::Store {
                block: 0,
                offset: 0,
                count: 4,
                operand: 1
            }
        ),
        at(
            3,
            Operation::Load {
                into: 2,
                type_: IntegerType::Int,
                block: 0,
                offset: 0
            }
        ),
        at(3, Operation::Constant { into: 1, bits: 7 }),
        at(
            3,
            Operation::Compare {
                into: 0,
                operator: Comparison::Less,
                type_: IntegerType::Int,
                left: 2,
                right: 1
            }
        ),
        at(3, Operation::Assert { operand: 0 }),
        at(4, Operation::Exit),
    ]?;
    let registers = vec![in alloc; IntegerType::Int, IntegerType::Int, IntegerType::Int]?;
    let blocks = vec![in alloc; 4]?;
    Ok(Code::new(registers, blocks, instructions, true))
}

// Registers that are set on one side only, and read behind the join: `r1` is 5 where the input isn't 0, and
// `r2` is 7 where it is; `assert(r1 < r2);`
fn one_sided(alloc: Global) -> Result<Code, AllocError>
    ensures flat { IfOk result (λ c. is_flat_code c ≡ true) }
    ensures plain { IfOk result (λ c. is_static_code c.instructions ≡ true) }
{
    let at = |line: u32, operation: Operation| Instruction {
        line,
        function: 0,
        operation,
    };
    let instructions = vec![in alloc;
        at(1, Operation::Draw { into: 0, bits: 32 }),
        at(
            2,
            Operation::SkipIfZero {
                operand: 0,
                count: 2
            }
        ),
        at(2, Operation::Constant { into: 1, bits: 5 }),
        at(2, Operation::Skip { count: 1 }),
        at(2, Operation::Constant { into: 2, bits: 7 }),
        at(
            3,
            Operation::Compare {
                into: 3,
                operator: Comparison::Less,
                type_: IntegerType::Int,
                left: 1,
                right: 2
            }
        ),
        at(3, Operation::Assert { operand: 3 }),
    ]?;
    let registers = vec![in alloc;
        IntegerType::Int,
        IntegerType::Int,
        IntegerType::Int,
        IntegerType::Int,
    ]?;
    let blocks = Vec::new(alloc);
    Ok(Code::new(registers, blocks, instructions, true))
}

// `unsigned long x = <input>`, whose bytes 3 and 4 are written over bytes 0 and 1: `assert(x == 0x0807060504030504);`.
// A block of three bytes stands in front, which is written and cleared; then byte 1 is copied to its last:
// `assert(!y[1]);` and, of both bytes, `assert(z == 0x0500);`.
fn pieces(alloc: Global) -> Result<Code, AllocError>
    ensures flat { IfOk result (λ c. is_flat_code c ≡ true) }
    ensures plain { IfOk result (λ c. is_static_code c.instructions ≡ true) }
{
    let long = IntegerType::UnsignedLong;
    let short = IntegerType::UnsignedShort;
    let byte = IntegerType::UnsignedChar;
    let int = IntegerType::Int;
    let at = |line: u32, operation: Operation| Instruction {
        line,
        function: 0,
        operation,
    };
    let instructions = vec![in alloc;
        at(1, Operation::Draw { into: 0, bits: 64 }),
        at(
            2,
            Operation::Store {
                block: 1,
                offset: 0,
                count: 8,
                operand: 0
            }
        ),
        at(
            3,
            Operation::Store {
                block: 0,
                offset: 1,
                count: 2,
                operand: 0
            }
        ),
        at(
            4,
            Operation::Load {
                into: 1,
                type_: short,
                block: 1,
                offset: 3
            }
        ),
        at(
            5,
            Operation::Store {
                block: 1,
                offset: 0,
                count: 2,
                operand: 1
            }
        ),
        at(6, Operation::Clear { block: 0, size: 3 }),
        at(
            6,
            Operation::CopyBytes {
                into: 0,
                at: 2,
                from: 1,
                offset: 1,
                count: 1
            }
        ),
        at(
            7,
            Operation::Load {
                into: 0,
                type_: long,
                block: 1,
                offset: 0
            }
        ),
        at(
            7,
            Operation::Constant {
                into: 2,
                bits: 0x0807_0605_0403_0504
            }
        ),
        at(
            7,
            Operation::Compare {
                into: 4,
                operator: Comparison::Equal,
                type_: long,
                left: 0,
                right: 2
            }
        ),
        at(7, Operation::Assert { operand: 4 }),
        at(
            8,
            Operation::Load {
                into: 3,
                type_: byte,
                block: 0,
                offset: 1
            }
        ),
        at(
            8,
            Operation::IsZero {
                into: 4,
                operand: 3
            }
        ),
        at(8, Operation::Assert { operand: 4 }),
        at(
            9,
            Operation::Load {
                into: 1,
                type_: short,
                block: 0,
                offset: 1
            }
        ),
        at(
            9,
            Operation::Constant {
                into: 5,
                bits: 0x0500
            }
        ),
        at(
            9,
            Operation::Compare {
                into: 4,
                operator: Comparison::Equal,
                type_: short,
                left: 1,
                right: 5
            }
        ),
        at(9, Operation::Assert { operand: 4 }),
    ]?;
    let registers = vec![in alloc; long, short, long, byte, int, short]?;
    let blocks = vec![in alloc; 3, 8]?;
    Ok(Code::new(registers, blocks, instructions, true))
}

// Draws each word of a block of 4,096 bytes, in front of other code.
fn drawn_first(rest: Vec<Instruction>) -> Result<Vec<Instruction>, AllocError>
    requires fits { code_fits (IntegerType.UnsignedLong ∷ IntegerType.Int ∷ IntegerType.Int ∷ IntegerType.Int ∷ []) (4096 ∷ []) rest.items ≡ true }
    requires flat { list_all (λ (i : GotoInstruction). is_flat i.operation) rest.items ≡ true }
    requires plain { is_static_code rest.items ≡ true }
    ensures fits { IfOk result (λ r. code_fits (IntegerType.UnsignedLong ∷ IntegerType.Int ∷ IntegerType.Int ∷ IntegerType.Int ∷ []) (4096 ∷ []) r.items ≡ true) }
    ensures flat { IfOk result (λ r. list_all (λ (i : GotoInstruction). is_flat i.operation) r.items ≡ true) }
    ensures plain { IfOk result (λ r. is_static_code r.items ≡ true) }
{
    let mut code = rest;
    for word in 0..512 {
        let store = Operation::Store {
            block: 0,
            offset: 8 * word,
            count: 8,
            operand: 0,
        };
        let draw = Operation::Draw { into: 0, bits: 64 };
        code.insert(
            0,
            Instruction {
                line: 1,
                function: 0,
                operation: store,
            },
        )?;
        code.insert(
            0,
            Instruction {
                line: 1,
                function: 0,
                operation: draw,
            },
        )?;
    }
    Ok(code)
}

// A drawn structure of 4,096 bytes with members of type int at 100 and 4,092, and one that stands across two
// words: `if (x.a) x.b = 7; if (x.b) x.c = x.a; assert(x.c);`. Its first 1,024 bytes are copied between.
fn large(alloc: Global) -> Result<Code, AllocError>
    ensures flat { IfOk result (λ c. is_flat_code c ≡ true) }
    ensures plain { IfOk result (λ c. is_static_code c.instructions ≡ true) }
{
    let int = IntegerType::Int;
    let at = |line: u32, operation: Operation| Instruction {
        line,
        function: 0,
        operation,
    };
    let rest = vec![in alloc;
        at(
            2,
            Operation::Load {
                into: 1,
                type_: int,
                block: 0,
                offset: 100
            }
        ),
        at(
            2,
            Operation::SkipIfZero {
                operand: 1,
                count: 2
            }
        ),
        at(2, Operation::Constant { into: 2, bits: 7 }),
        at(
            2,
            Operation::Store {
                block: 0,
                offset: 206,
                count: 4,
                operand: 2
            }
        ),
        at(
            3,
            Operation::Load {
                into: 3,
                type_: int,
                block: 0,
                offset: 206
            }
        ),
        at(
            3,
            Operation::CopyBytes {
                into: 0,
                at: 2048,
                from: 0,
                offset: 0,
                count: 1024
            }
        ),
        at(
            3,
            Operation::SkipIfZero {
                operand: 3,
                count: 1
            }
        ),
        at(
            3,
            Operation::Store {
                block: 0,
                offset: 4092,
                count: 4,
                operand: 1
            }
        ),
        at(
            4,
            Operation::Load {
                into: 2,
                type_: int,
                block: 0,
                offset: 4092
            }
        ),
        at(4, Operation::Assert { operand: 2 }),
    ]?;
    let instructions = drawn_first(rest)?;
    let registers = vec![in alloc; IntegerType::UnsignedLong, int, int, int]?;
    let blocks = vec![in alloc; 4096]?;
    Ok(Code::new(registers, blocks, instructions, true))
}

fn bits(words: &[Word], id: Id) -> Option<u64> {
    Some(words.get(id.index)?.bits())
}

// What an event tells where the nodes have these words.
fn told(words: &[Word], event: &Event) -> Option<&'static str> {
    if bits(words, event.guard)? == 0 {
        return None;
    }
    match &event.kind {
        EventKind::Draw { answer, .. } => {
            if bits(words, *answer)? == 3 {
                Some("draws 3")
            } else {
                Some("draws")
            }
        }
        EventKind::Fill { .. } => Some("draws bytes"),
        EventKind::Read { .. } => Some("reads"),
        EventKind::Look { .. } => Some("looks"),
        EventKind::Alloc { .. } => Some("allocates"),
        EventKind::Die { .. } => Some("ends a lifetime"),
        EventKind::Free { .. } => Some("frees"),
        EventKind::Write { bytes, .. } => {
            if bits(words, *bytes.as_slice().first()?)? == 3 {
                Some("writes 3")
            } else {
                Some("writes")
            }
        }
        EventKind::Exit => Some("exits"),
        EventKind::Check { class, failing } => {
            if bits(words, *failing)? == 1 && *class == Class::Assertion {
                Some("breaks")
            } else {
                None
            }
        }
        EventKind::Assume { failing } => {
            if bits(words, *failing)? == 1 {
                Some("blocks")
            } else {
                None
            }
        }
    }
}

// The values of the variables; and of each event its line, and what it tells where they have these.
type Told<'a> = (&'a [u64], &'a [(u32, Option<&'a str>)]);

// Whether the events have these lines and tell this where the variables have these values.
fn tell(
    alloc: Global,
    dag: &Dag,
    events: &[Event],
    (values, wanted): Told<'_>,
) -> Result<bool, AllocError> {
    let values = Vec::from_slice(alloc, values)?;
    let words = dag.words(alloc, &Valuation::from_values(values))?;
    if events.len() != wanted.len() {
        return Ok(false);
    }
    for (event, (line, text)) in events.iter().zip(wanted) {
        if event.line != *line || told(&words, event) != *text {
            return Ok(false);
        }
    }
    Ok(true)
}

// The first row that the events of the code's one thread tell otherwise.
fn wrong_row(alloc: Global, code: Code, rows: &[Told<'_>]) -> Result<Option<usize>, AllocError>
    requires flat { is_flat_code code ≡ true }
    requires plain { is_static_code code.instructions ≡ true }
{
    let unrolled = Unrolled::new(vec![in alloc; code]?, 0, Store::new(alloc));
    let mut dag = Dag::new(alloc);
    let forms = threads(alloc, &unrolled, &mut dag)?;
    for (i, row) in rows.iter().enumerate() {
        if forms.len() != 1 || !tell(alloc, &dag, forms[0].events(), *row)? {
            return Ok(Some(i));
        }
    }
    Ok(None)
}

// The input, and what each of the three events tells.
static CHOICES: [Told<'static>; 3] = [
    (
        &[0],
        &[(1, Some("draws")), (3, Some("breaks")), (4, Some("exits"))],
    ),
    (&[3], &[(1, Some("draws 3")), (3, None), (4, Some("exits"))]),
    (
        &[0x8000_0000],
        &[(1, Some("draws")), (3, None), (4, Some("exits"))],
    ),
];

#[test]
fn events_of_a_choice(rt: HostRuntime) -> Result<(), Fail> {
    let code = choice(rt.alloc())?;
    assert_eq!(rt; wrong_row(rt.alloc(), code, &CHOICES)?, None);
    Ok(())
}

// The input, and what the draw and the assertion tell.
static SIDES: [Told<'static>; 2] = [
    (&[0], &[(1, Some("draws")), (3, None)]),
    (&[9], &[(1, Some("draws")), (3, Some("breaks"))]),
];

#[test]
fn registers_set_on_one_side(rt: HostRuntime) -> Result<(), Fail> {
    let code = one_sided(rt.alloc())?;
    assert_eq!(rt; wrong_row(rt.alloc(), code, &SIDES)?, None);
    Ok(())
}

// The input, and what the draw and the three assertions tell.
static PIECES: [Told<'static>; 6] = [
    (
        &[0x0807_0605_0403_0201],
        &[(1, Some("draws")), (7, None), (8, None), (9, None)],
    ),
    (
        &[0x0807_0605_0403_ffff],
        &[(1, Some("draws")), (7, None), (8, None), (9, None)],
    ),
    (
        &[0x0807_0605_0403_0504],
        &[(1, Some("draws")), (7, None), (8, None), (9, None)],
    ),
    (
        &[0x0907_0605_0403_0201],
        &[
            (1, Some("draws")),
            (7, Some("breaks")),
            (8, None),
            (9, None),
        ],
    ),
    (
        &[0x0807_0605_1403_0201],
        &[
            (1, Some("draws")),
            (7, Some("breaks")),
            (8, None),
            (9, None),
        ],
    ),
    (
        &[0x0807_0615_0403_0201],
        &[
            (1, Some("draws")),
            (7, Some("breaks")),
            (8, None),
            (9, Some("breaks")),
        ],
    ),
];

#[test]
fn bytes_of_blocks(rt: HostRuntime) -> Result<(), Fail> {
    let code = pieces(rt.alloc())?;
    assert_eq!(rt; wrong_row(rt.alloc(), code, &PIECES)?, None);
    Ok(())
}

// The words of the block are made, and cut into bytes; the code behind them makes a few nodes for each of the
// bytes that it writes, reads and joins, and none for those that it copies.
#[test]
fn nodes_of_a_large_block(rt: HostRuntime) -> Result<(), Fail> {
    let alloc = rt.alloc();
    let store = Store::new(alloc);
    let unrolled = Unrolled::new(vec![in alloc; large(alloc)?]?, 0, store);
    let mut dag = Dag::new(alloc);
    let forms = threads(alloc, &unrolled, &mut dag)?;
    assert_eq!(rt; forms[0].events().len(), 513);
    assert!(rt; dag.len() <= 4096 + 2 * 512 + 60);
    Ok(())
}

// `char a[11]` is a static object: `if (a[10] == 3) a[0] = a[10] else;`, by a block of 11 bytes
fn accesses(alloc: Global) -> Result<Code, AllocError>
    ensures flat { IfOk result (λ c. is_flat_code c ≡ true) }
    ensures plain { IfOk result (λ c. is_static_code c.instructions ≡ true) }
{
    let at = |line: u32, operation: Operation| Instruction {
        line,
        function: 0,
        operation,
    };
    let byte = IntegerType::UnsignedChar;
    let instructions = vec![in alloc;
        at(
            1,
            Operation::ReadObject {
                block: 0,
                at: 0,
                object: 1,
                offset: 0,
                count: 11
            }
        ),
        at(
            2,
            Operation::Load {
                into: 0,
                type_: byte,
                block: 0,
                offset: 10
            }
        ),
        at(3, Operation::Constant { into: 1, bits: 3 }),
        at(
            3,
            Operation::Compare {
                into: 2,
                operator: Comparison::Equal,
                type_: byte,
                left: 0,
                right: 1
            }
        ),
        at(
            3,
            Operation::SkipIfZero {
                operand: 2,
                count: 1
            }
        ),
        at(
            4,
            Operation::WriteObject {
                object: 1,
                offset: 0,
                block: 0,
                at: 10,
                count: 1
            }
        ),
        at(5, Operation::Exit),
    ]?;
    let registers = vec![in alloc; byte, byte, IntegerType::Int]?;
    let blocks = vec![in alloc; 11]?;
    Ok(Code::new(registers, blocks, instructions, true))
}

// The words of the read's answer, which are the variables 0 and 1, of 64 and of 24 bits: the byte that is tested is the lowest
// but two of the second. Then what the read, the write and the end tell.
static READS: [Told<'static>; 4] = [
    (
        &[9, 0x030000],
        &[
            (1, Some("reads")),
            (4, Some("writes 3")),
            (5, Some("exits")),
        ],
    ),
    (
        &[9, 0x3030000],
        &[
            (1, Some("reads")),
            (4, Some("writes 3")),
            (5, Some("exits")),
        ],
    ),
    (
        &[9, 0x040003],
        &[(1, Some("reads")), (4, None), (5, Some("exits"))],
    ),
    (
        &[9, 0],
        &[(1, Some("reads")), (4, None), (5, Some("exits"))],
    ),
];

#[test]
fn reads_are_answered_in_words(rt: HostRuntime) -> Result<(), Fail> {
    let code = accesses(rt.alloc())?;
    assert_eq!(rt; wrong_row(rt.alloc(), code, &READS)?, None);
    Ok(())
}
