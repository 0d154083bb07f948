//! Tests of the nodes that stand for values.

// Nodes of operators.

use c_types::IntegerType;
use core_tree::{ArithmeticOperator, Comparison};
use std::test::*;
use value_nodes::{arithmetic, compared, converted, loaded, stored};
use word_dag::{Dag, Id, Node, Valuation};

// The value of a node of a graph without variables.
fn value_of(rt: &HostRuntime, dag: &Dag, id: Id) -> Result<u64, Fail> {
    let valuation = Valuation::from_values(Vec::new(rt.alloc()));
    if id.index < dag.len() {
        return Ok(dag.value(rt.alloc(), &valuation, id)?.bits());
    }
    Ok(0)
}

// What is made of minus seven and two, as values of type int.
#[derive(Clone, Copy)]
enum Operation {
    Divide,
    Remainder,
    ShiftRight,
    Less,
    ToByte,
    ToLong,
    ToBool,
}

// Each operation with its value.
static OPERATIONS: [(Operation, u64); 7] = [
    (Operation::Divide, 4_294_967_293),
    (Operation::Remainder, 4_294_967_295),
    (Operation::ShiftRight, 4_294_967_294),
    (Operation::Less, 1),
    (Operation::ToByte, 249),
    (Operation::ToLong, 18_446_744_073_709_551_609),
    (Operation::ToBool, 1),
];

// The value of the node of an operation; conversions are of minus seven.
fn found(rt: &HostRuntime, operation: Operation) -> Result<u64, Fail> {
    let int = IntegerType::Int;
    let mut dag = Dag::new(rt.alloc());
    let a = dag.make(Node::Constant(4_294_967_289, 32))?;
    let b = dag.make(Node::Constant(2, 32))?;
    let id = match operation {
        Operation::Divide => arithmetic(&mut dag, ArithmeticOperator::Divide, int, int, a, b),
        Operation::Remainder => arithmetic(&mut dag, ArithmeticOperator::Remainder, int, int, a, b),
        Operation::ShiftRight => {
            arithmetic(&mut dag, ArithmeticOperator::ShiftRight, int, int, a, b)
        }
        Operation::Less => compared(&mut dag, Comparison::Less, int, a, b),
        Operation::ToByte => converted(&mut dag, int, IntegerType::UnsignedChar, a),
        Operation::ToLong => converted(&mut dag, int, IntegerType::Long, a),
        Operation::ToBool => converted(&mut dag, int, IntegerType::Bool, a),
    }?;
    value_of(rt, &dag, id)
}

// The first row whose operation gives something else.
fn wrong_operation(rt: &HostRuntime, rows: &[(Operation, u64)]) -> Result<Option<usize>, Fail> {
    for (i, (operation, value)) in rows.iter().enumerate() {
        if found(rt, *operation)? != *value {
            return Ok(Some(i));
        }
    }
    Ok(None)
}

#[test]
fn operations_give_what_c_gives(rt: HostRuntime) -> Result<(), Fail> {
    assert_eq!(rt; wrong_operation(&rt, &OPERATIONS)?, None);
    Ok(())
}

// What a read of a type at an offset gives, in the bytes of a variable that is 0x0102_0304, and how many nodes
// it makes.
fn read_back(rt: &HostRuntime, type_: IntegerType, offset: u32) -> Result<(u64, usize), Fail> {
    let mut dag = Dag::new(rt.alloc());
    let number = dag.make(Node::Variable(0, 32))?;
    let bytes = stored(rt.alloc(), &mut dag, IntegerType::Int, number, 4)?;
    let offset = offset as usize;
    if offset + type_.size() as usize > bytes.len() {
        return Ok((0, 0));
    }
    let before = dag.len();
    let word = loaded(&mut dag, type_, offset, &bytes)?;
    let valuation = Valuation::from_values(vec![in rt.alloc(); 16_909_060]?);
    let value = dag.value(rt.alloc(), &valuation, word)?;
    Ok((value.bits(), dag.len() - before))
}

// The type, the offset, the number, and the nodes.
static READS: [(IntegerType, u32, u64, usize); 5] = [
    (IntegerType::Int, 0, 16_909_060, 0),
    (IntegerType::Short, 1, 515, 1),
    (IntegerType::UnsignedShort, 2, 258, 1),
    (IntegerType::UnsignedChar, 3, 1, 0),
    (IntegerType::Bool, 2, 1, 4),
];

// The first row that reads another number, or makes other nodes.
fn wrong_read(
    rt: &HostRuntime,
    rows: &[(IntegerType, u32, u64, usize)],
) -> Result<Option<usize>, Fail> {
    for (i, (type_, offset, number, nodes)) in rows.iter().enumerate() {
        if read_back(rt, *type_, *offset)? != (*number, *nodes) {
            return Ok(Some(i));
        }
    }
    Ok(None)
}

#[test]
fn bytes_give_the_number_back(rt: HostRuntime) -> Result<(), Fail> {
    assert_eq!(rt; wrong_read(&rt, &READS)?, None);
    Ok(())
}

#[test]
fn the_lowest_bytes_alone(rt: HostRuntime) -> Result<(), Fail> {
    let mut dag = Dag::new(rt.alloc());
    let number = dag.make(Node::Constant(16_909_060, 32))?;
    let bytes = stored(rt.alloc(), &mut dag, IntegerType::Int, number, 2)?;
    assert_eq!(rt; bytes.len(), 2);
    assert_eq!(rt; value_of(&rt, &dag, bytes[0])?, 4);
    assert_eq!(rt; value_of(&rt, &dag, bytes[1])?, 3);
    Ok(())
}
