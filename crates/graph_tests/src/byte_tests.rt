//! Bytes of a block at an offset that is a node, by their values.

ghost use Rattle.std.specs.Prelude.{◌≡◌, ◌≤◌, IfOk, length};
ghost use Rattle.word_dag.specs.Growth.{Within, Extends};
ghost use Rattle.value_nodes.specs.Values.{IsWord, AreBytes};

use byte_ops::{select, select_within, tested_offset, update, update_within};
use std::alloc::{AllocError, Global};
use std::test::Fail;
use word_dag::{BinaryOperator, Dag, Id, Node, Valuation};

static BLOCK: [u8; 6] = [0x11, 0x22, 0x33, 0x44, 0x55, 0x66];

static NEW: [u8; 2] = [0xaa, 0xbb];

// An offset, a number of bytes, and the number that stands there, with 0 past the block.
static SELECTED: [(u64, usize, u64); 9] = [
    (0, 1, 0x11),
    (5, 1, 0x66),
    (6, 1, 0),
    (0, 4, 0x4433_2211),
    (2, 4, 0x6655_4433),
    (4, 4, 0x6655),
    (0, 8, 0x6655_4433_2211),
    (7, 8, 0),
    (0xffff_ffff, 2, 0),
];

// An offset, and the block's number once the new bytes are written there.
static UPDATED: [(u64, u64); 5] = [
    (0, 0x6655_4433_bbaa),
    (3, 0x66bb_aa33_2211),
    (4, 0xbbaa_4433_2211),
    (5, 0xaa55_4433_2211),
    (6, 0x6655_4433_2211),
];

// A step, and how many places below the block's size an offset can be that is a multiple of it.
static STEPS: [(u64, usize); 5] = [(1, 6), (2, 3), (3, 6), (4, 2), (8, 1)];

// Nodes of 8 bits that are constants.
fn block_of(alloc: Global, dag: &mut Dag, bytes: &[u8]) -> Result<Vec<Id>, AllocError>
    ensures extends { Extends dag.old dag.new }
    ensures bytes { IfOk result (λ ids. AreBytes dag.new ids.items) }
    ensures size { IfOk result (λ ids. length ids.items ≡ length bytes.now) }
{
    let mut ids = Vec::with_capacity(alloc, bytes.len())?;
    for i in 0..bytes.len() {
        let id = dag.make(Node::Constant(bytes[i] as u64, 8))?;
        ids.push(id)?;
    }
    Ok(ids)
}

// The variable 0, of 32 bits, times a number.
fn multiple_of(dag: &mut Dag, step: u64) -> Result<Id, AllocError>
    ensures extends { Extends dag.old dag.new }
    ensures made { IfOk result (λ i. IsWord dag.new i 32) }
{
    let variable = dag.make(Node::Variable(0, 32))?;
    let factor = dag.make(Node::Constant(step % 256, 32))?;
    let id = dag.make(Node::Binary(BinaryOperator::Multiply, variable, factor))?;
    Ok(id)
}

// The number of a node where the variable 0 has this value.
fn number_at(alloc: Global, dag: &Dag, id: Id, offset: u64) -> Result<u64, AllocError>
    requires { Within dag.now id }
{
    let mut values = Vec::new(alloc);
    values.push(offset)?;
    let word = dag.value(alloc, &Valuation::from_values(values), id)?;
    Ok(word.bits())
}

// The number of the bytes of a block of six where the variable 0 has this value.
fn whole(alloc: Global, dag: &mut Dag, block: &[Id], offset: u64) -> Result<u64, AllocError>
    requires bytes { AreBytes dag.old block.now }
    requires size { length block.now ≡ 6 }
    ensures { Extends dag.old dag.new }
{
    let start = dag.make(Node::Constant(0, 32))?;
    let id = select(alloc, dag, block, start, 6)?;
    let number = number_at(alloc, dag, id, offset)?;
    Ok(number)
}

// What is selected, and where that lies within the block the same by the tests of its places.
fn selected(alloc: Global, offset: u64, n: usize) -> Result<(u64, u64), AllocError>
    requires positive { 1 ≤ n }
    requires few { n ≤ 8 }
{
    let mut dag = Dag::new(alloc);
    let block = block_of(alloc, &mut dag, &BLOCK)?;
    let place = multiple_of(&mut dag, 1)?;
    let id = select(alloc, &mut dag, &block, place, n)?;
    let first = number_at(alloc, &dag, id, offset)?;
    if n > block.len() {
        return Ok((first, first));
    }
    let tested = tested_offset(alloc, &mut dag, place, block.len())?;
    let other = select_within(&mut dag, &block, &tested, n)?;
    let second = number_at(alloc, &dag, other, offset)?;
    Ok((first, second))
}

// The first row that is answered otherwise, and by the tests of places where it lies within the block.
fn wrong_selection(alloc: Global, rows: &[(u64, usize, u64)]) -> Result<Option<usize>, AllocError> {
    for (i, (offset, n, number)) in rows.iter().enumerate() {
        let count = (*n).clamp(1, 8);
        let (first, second) = selected(alloc, *offset, count)?;
        let within = *offset <= 6 && *offset + count as u64 <= 6;
        if first != *number || (within && second != *number) {
            return Ok(Some(i));
        }
    }
    Ok(None)
}

// The block behind a write, and behind the same by the tests of its places.
fn updated(alloc: Global, offset: u64) -> Result<(u64, u64), AllocError> {
    let mut dag = Dag::new(alloc);
    let block = block_of(alloc, &mut dag, &BLOCK)?;
    let new = block_of(alloc, &mut dag, &NEW)?;
    let place = multiple_of(&mut dag, 1)?;
    let changed = update(alloc, &mut dag, &block, place, &new)?;
    let first = whole(alloc, &mut dag, &changed, offset)?;
    let tested = tested_offset(alloc, &mut dag, place, block.len())?;
    let other = update_within(alloc, &mut dag, &block, &tested, &new)?;
    let second = whole(alloc, &mut dag, &other, offset)?;
    Ok((first, second))
}

// The first row that is answered otherwise.
fn wrong_update(alloc: Global, rows: &[(u64, u64)]) -> Result<Option<usize>, AllocError> {
    for (i, (offset, number)) in rows.iter().enumerate() {
        let (first, second) = updated(alloc, *offset)?;
        if first != *number || (*offset <= 4 && second != *number) {
            return Ok(Some(i));
        }
    }
    Ok(None)
}

// The first step for which another number of places is tested.
fn wrong_step(alloc: Global, rows: &[(u64, usize)]) -> Result<Option<usize>, AllocError> {
    for (i, (step, places)) in rows.iter().enumerate() {
        let mut dag = Dag::new(alloc);
        let place = multiple_of(&mut dag, *step)?;
        let tested = tested_offset(alloc, &mut dag, place, BLOCK.len())?;
        if tested.tests.len() != *places {
            return Ok(Some(i));
        }
    }
    Ok(None)
}

#[test]
fn bytes_stand_at_their_offsets(rt: HostRuntime) -> Result<(), Fail> {
    let alloc = rt.alloc();
    assert_eq!(rt; wrong_selection(alloc, &SELECTED)?, None);
    assert_eq!(rt; wrong_update(alloc, &UPDATED)?, None);
    assert_eq!(rt; wrong_step(alloc, &STEPS)?, None);
    Ok(())
}
