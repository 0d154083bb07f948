//! Tests of the formula of one thread.

// Formulas of events made by hand.

ghost use Rattle.std.specs.Prelude.{IsTrue};
ghost use Rattle.value_nodes.specs.Values.{IsWord, AreBytes};
ghost use Rattle.event_forms.specs.Forms.{IsBit, AreWords, EventIn, FormIn, IsFixed, IsStaticKind, AreStatic};

use crate::set_tests::no_sets;
use actions::{Bytes, Cells, Object, Store};
use c_values::pointer_to;
use event_forms::{Event, EventKind, Nodes, ThreadForm};
use mem_seq::sequential;
use std::alloc::{AllocError, Global};
use std::test::*;
use word_dag::{Comparison, Dag, Id, Node, Valuation};
use words::Class;

/// One object, of 10 bytes.
pub fn store(alloc: Global, readonly: bool) -> Result<Store, AllocError> {
    let bytes = Vec::from_slice(alloc, &[5, 0, 0, 0, 1, 2, 3, 4, 6, 7])?;
    let object = Object {
        size: 10,
        cells: Cells::new(Vec::new(alloc)),
        live: true,
        readonly,
        heap: false,
        bytes: Bytes::new(bytes),
    };
    let mut store = Store::new(alloc);
    store.add(1, object)?;
    Ok(store)
}

fn at(guard: Id, kind: EventKind) -> Event {
    Event {
        guard,
        line: 1,
        function: 0,
        kind,
    }
}

fn nodes(alloc: Global, ids: &[Id]) -> Result<Nodes, AllocError> {
    Ok(Nodes::new(Vec::from_slice(alloc, ids)?))
}

fn read(pointer: Id, count: u32, answer: Nodes) -> EventKind {
    EventKind::Read {
        pointer,
        count,
        answer,
    }
}

fn write(pointer: Id, bytes: Nodes) -> EventKind {
    EventKind::Write {
        pointer,
        bytes,
        first: false,
    }
}

// The nodes of a form: always, and where variable 0 is 1; two words that reads give, variables 1 and 2, of
// 32 bits; a word of 64 bits and one of 16, variables 3 and 4; and the bytes of variable 5.
#[derive(Drop)]
struct Parts {
    always: Id,
    test: Id,
    first: Id,
    second: Id,
    long: Id,
    short: Id,
    bytes: Vec<Id>,
}

// A node, where it fits the graph.
fn made(dag: &mut Dag, node: Node) -> Result<Id, AllocError> {
    if dag.fits(node) {
        dag.make(node)
    } else {
        Err(AllocError)
    }
}

// The pointer to an offset of an object.
fn pointer(dag: &mut Dag, object: u32, offset: u32) -> Result<Id, AllocError> {
    made(dag, Node::Constant(pointer_to(object, offset), 64))
}

fn make_parts(alloc: Global, dag: &mut Dag) -> Result<Parts, AllocError> {
    let word = made(dag, Node::Variable(5, 32))?;
    let mut bytes = Vec::new(alloc);
    for i in 0..4 {
        bytes.push(made(dag, Node::Cut(word, 8 * i, 8))?)?;
    }
    Ok(Parts {
        always: made(dag, Node::Constant(1, 1))?,
        test: made(dag, Node::Variable(0, 1))?,
        first: made(dag, Node::Variable(1, 32))?,
        second: made(dag, Node::Variable(2, 32))?,
        long: made(dag, Node::Variable(3, 64))?,
        short: made(dag, Node::Variable(4, 16))?,
        bytes,
    })
}

// A check that breaks where a word of 32 bits is this number.
fn is_number(dag: &mut Dag, guard: Id, word: Id, bits: u64) -> Result<Event, AllocError> {
    let number = made(dag, Node::Constant(bits, 32))?;
    let failing = made(dag, Node::Compare(Comparison::Equal, word, number))?;
    Ok(at(
        guard,
        EventKind::Check {
            class: Class::Assertion,
            failing,
        },
    ))
}

// An event that is tried, under variable 0 where it says so, and else always.
#[derive(Clone, Copy)]
enum Tried {
    // a read of 4 bytes of object 1, which the first or the second word answers
    First { tested: bool, offset: u32 },
    Second,
    // a read of all its 10 bytes
    Whole,
    // a write of the 4 bytes to the front of an object
    Write { tested: bool, object: u32 },
    // a check that breaks where the first or the second word is this number
    FirstIs(u64),
    SecondIs(u64),
    Exit,
}

const READ: Tried = Tried::First {
    tested: false,
    offset: 0,
};

// The rows of events that are tried.
static TRIED: [&[Tried]; 9] = [
    // a read of the first bytes
    &[READ, Tried::FirstIs(5)],
    // a read after a write
    &[
        Tried::Write {
            tested: false,
            object: 1,
        },
        READ,
        Tried::FirstIs(7),
    ],
    // a read before a write under a guard, and one after it
    &[
        READ,
        Tried::Write {
            tested: true,
            object: 1,
        },
        Tried::Second,
        Tried::SecondIs(7),
    ],
    // a read under a guard alone, and a check that asks nothing of it
    &[
        Tried::First {
            tested: true,
            offset: 0,
        },
        Tried::SecondIs(7),
    ],
    // a read behind the end of the run
    &[Tried::SecondIs(7), Tried::Exit, READ],
    // all 10 bytes
    &[Tried::Whole, Tried::SecondIs(7)],
    // a write under a guard, of an object that is read-only
    &[Tried::Write {
        tested: true,
        object: 1,
    }],
    // an access past the end of an object, and one of none
    &[Tried::First {
        tested: true,
        offset: 8,
    }],
    &[Tried::Write {
        tested: false,
        object: 3,
    }],
];

fn guard_of(parts: &Parts, tested: bool) -> Id {
    if tested { parts.test } else { parts.always }
}

// A read of the object, answered by these words.
fn reading(
    alloc: Global,
    dag: &mut Dag,
    guard: Id,
    offset: u32,
    count: u32,
    words: &[Id],
) -> Result<Event, AllocError> {
    let answer = nodes(alloc, words)?;
    Ok(at(guard, read(pointer(dag, 1, offset)?, count, answer)))
}

fn event_of(
    alloc: Global,
    dag: &mut Dag,
    parts: &Parts,
    tried: Tried,
) -> Result<Event, AllocError> {
    match tried {
        Tried::First { tested, offset } => {
            let guard = guard_of(parts, tested);
            reading(alloc, dag, guard, offset, 4, &[parts.first])
        }
        Tried::Second => reading(alloc, dag, parts.always, 0, 4, &[parts.second]),
        Tried::Whole => {
            let words = &[parts.long, parts.short];
            reading(alloc, dag, parts.always, 0, 10, words)
        }
        Tried::Write { tested, object } => {
            let bytes = nodes(alloc, &parts.bytes)?;
            let pointer = pointer(dag, object, 0)?;
            Ok(at(guard_of(parts, tested), write(pointer, bytes)))
        }
        Tried::FirstIs(bits) => is_number(dag, parts.always, parts.first, bits),
        Tried::SecondIs(bits) => is_number(dag, parts.always, parts.second, bits),
        Tried::Exit => Ok(at(parts.always, EventKind::Exit)),
    }
}

// The events of a row.
fn events(alloc: Global, dag: &mut Dag, row: &[Tried]) -> Result<Vec<Event>, AllocError> {
    let parts = make_parts(alloc, dag)?;
    let mut events = Vec::new(alloc);
    for tried in row {
        events.push(event_of(alloc, dag, &parts, *tried)?)?;
    }
    Ok(events)
}

fn is_bit(dag: &Dag, id: Id) -> bool
    ensures { IsTrue result → IsBit dag.now id }
{
    id.index < dag.len() && dag.width(id) == 1
}

// Words of 4 or of 10 bytes.
fn are_words(dag: &Dag, ids: &[Id], count: u32) -> bool
    ensures { IsTrue result → AreWords dag.now count ids.now }
{
    if !ids.iter().all(|id| id.index < dag.len()) {
        return false;
    }
    match ids {
        [word] => count == 4 && dag.width(*word) == 32,
        [first, second] => count == 10 && dag.width(*first) == 64 && dag.width(*second) == 16,
        _ => false,
    }
}

fn are_bytes(dag: &Dag, ids: &[Id]) -> bool
    ensures { IsTrue result → AreBytes dag.now ids.now }
{
    ids.iter()
        .all(|id| id.index < dag.len() && dag.width(*id) == 8)
}

fn is_pointer(dag: &Dag, id: Id) -> bool
    ensures { IsTrue result → IsWord dag.now id 64 }
{
    id.index < dag.len() && dag.width(id) == 64
}

fn is_in(dag: &Dag, event: &Event) -> bool
    ensures { IsTrue result → EventIn dag.now event.now }
{
    if !is_bit(dag, event.guard) {
        return false;
    }
    match &event.kind {
        EventKind::Read {
            pointer,
            count,
            answer,
        } => is_pointer(dag, *pointer) && are_words(dag, answer.as_slice(), *count),
        EventKind::Write { pointer, bytes, .. } => {
            is_pointer(dag, *pointer) && are_bytes(dag, bytes.as_slice())
        }
        EventKind::Exit => true,
        EventKind::Check { failing, .. } => is_bit(dag, *failing),
        EventKind::Assume { failing } => is_bit(dag, *failing),
        _ => false,
    }
}

fn is_fixed(dag: &Dag, id: Id) -> bool
    ensures { IsTrue result → IsFixed dag.now id }
{
    if id.index >= dag.len() {
        return false;
    }
    match dag.node(id) {
        Node::Constant(_, 64) => true,
        _ => false,
    }
}

// Whether an event is one of code without operations on pointers.
fn is_static(dag: &Dag, event: &Event) -> bool
    ensures { IsTrue result → IsStaticKind dag.now event.now.kind }
{
    match &event.kind {
        EventKind::Read { pointer, .. } => is_fixed(dag, *pointer),
        EventKind::Write { pointer, first, .. } => is_fixed(dag, *pointer) && !*first,
        EventKind::Exit | EventKind::Check { .. } | EventKind::Assume { .. } => true,
        _ => false,
    }
}

fn are_static(dag: &Dag, events: &[Event]) -> bool
    ensures { IsTrue result → AreStatic dag.now events.now }
{
    events.iter().all(|event| is_static(dag, event))
}

// Whether each node that the events name is one of the graph, of the right width.
fn are_in(dag: &Dag, events: &[Event]) -> bool
    ensures { IsTrue result → FormIn dag.now events.now }
{
    events.iter().all(|event| is_in(dag, event))
}

// The goal under these values of the variables.
fn goal(alloc: Global, number: usize, values: [u64; 6]) -> Result<u64, AllocError> {
    let mut dag = Dag::new(alloc);
    let row = TRIED.get(number).copied().unwrap_or(&[]);
    let events = events(alloc, &mut dag, row)?;
    if !are_in(&dag, &events) || !are_static(&dag, &events) {
        return Err(AllocError);
    }
    let form = ThreadForm::new(events, store(alloc, number == 6)?);
    let formula = sequential(alloc, &mut dag, &form, &no_sets(alloc)?)?;
    let valuation = Valuation::from_values(Vec::from_slice(alloc, &values)?);
    Ok(dag.value(alloc, &valuation, formula.goal)?.bits())
}

#[test]
fn reads_give_what_the_store_holds(rt: HostRuntime) -> Result<(), Fail> {
    let alloc = rt.alloc();
    let long = 0x0403020100000005;
    let rows = [
        (0, [0, 5, 0, 0, 0, 0], 1),
        (0, [0, 6, 0, 0, 0, 0], 0),
        (1, [0, 7, 0, 0, 0, 7], 1),
        (1, [0, 7, 0, 0, 0, 8], 0),
        (1, [0, 5, 0, 0, 0, 5], 0),
        (2, [1, 5, 7, 0, 0, 7], 1),
        (2, [1, 7, 7, 0, 0, 7], 0),
        (2, [0, 5, 7, 0, 0, 7], 0),
        (2, [0, 5, 5, 0, 0, 7], 0),
        (3, [0, 9, 7, 0, 0, 0], 1),
        (3, [1, 9, 7, 0, 0, 0], 0),
        (3, [1, 5, 7, 0, 0, 0], 1),
        (4, [0, 9, 7, 0, 0, 0], 1),
        (4, [0, 5, 8, 0, 0, 0], 0),
        (5, [0, 0, 7, long, 0x0706, 0], 1),
        (5, [0, 0, 7, long, 0x0806, 0], 0),
        (5, [0, 0, 7, long + 1, 0x0706, 0], 0),
        (6, [1, 0, 0, 0, 0, 0], 1),
        (6, [0, 0, 0, 0, 0, 0], 0),
        (7, [1, 0, 0, 0, 0, 0], 1),
        (7, [0, 0, 0, 0, 0, 0], 0),
        (8, [0, 0, 0, 0, 0, 0], 1),
    ];
    for (number, values, expected) in rows {
        assert_eq!(rt; goal(alloc, number, values)?, expected, "events {number}");
    }
    Ok(())
}
