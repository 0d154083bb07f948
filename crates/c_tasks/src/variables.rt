//! The variables of an activation, as bytes.

ghost use Rattle.std.specs.Prelude.{◌≡◌, ◌+◌, ◌-◌, ◌≤◌, ◌++◌, length, take, drop, vec_len, IfOk, OnOk, OnErr};
ghost use Rattle.c_types.specs.Integers.{bytes};
ghost use Rattle.c_values.specs.Variables.{low_bytes, put_at, zeros, number_of, number_at, block_of, read_variable, first_variables};
ghost use Rattle.c_values.specs.Numbers.{typed};
ghost use Rattle.c_meaning.specs.Meaning.{sizes_of};
ghost use Rattle.c_tasks.specs.Tasks.{structures_in, frame_on};

use c_types::IntegerType;
use c_values::{Number, low_bytes, read_block, write_block};
use core_tree::Variable;
use std::alloc::{AllocError, Global};
use std::marker::Model;

/// The bytes of a variable, the lowest first.
#[derive(Drop)]
pub struct Block {
    bytes: Vec<u8>,
}

impl Model for Block {
    ghost use Rattle.std.specs.Prelude.{List, ℕ};

    ghost Value = { List ℕ };

    ghost view = { λ b. b.bytes.items };
}

impl Block {
    /// So many bytes that are 0.
    pub fn new(alloc: Global, size: u32) -> Result<Block, AllocError>
        ensures { IfOk result (λ block. block ≡ zeros size) }
    {
        let bytes = vec![in alloc; 0; size as usize]?;
        Ok(Block { bytes })
    }

    /// A string in so many bytes; those beyond it are 0.
    pub fn of_string(alloc: Global, size: u32, string: &[u8]) -> Result<Block, AllocError>
        requires { length string.now ≤ size }
        ensures { IfOk result (λ block. block ≡ put_at 0 string.now (zeros size)) }
    {
        let mut block = Block::new(alloc, size)?;
        block.put(0, string);
        Ok(block)
    }

    /// These bytes.
    pub fn of_bytes(alloc: Global, bytes: &[u8]) -> Result<Block, AllocError>
        ensures { IfOk result (λ block. block ≡ bytes.now) }
    {
        let bytes = Vec::from_slice(alloc, bytes)?;
        Ok(Block { bytes })
    }

    /// The lowest bytes of a number, so many of 8.
    pub fn of_number(alloc: Global, count: usize, bits: u64) -> Result<Block, AllocError>
        requires { count ≤ 8 }
        ensures { IfOk result (λ block. block ≡ low_bytes count bits) }
    {
        let bytes = low_bytes(alloc, count, bits)?;
        Ok(Block { bytes })
    }

    /// These bytes and behind them the lowest of a number, so many of 8.
    pub fn longer(&self, alloc: Global, count: usize, bits: u64) -> Result<Block, AllocError>
        requires { count ≤ 8 }
        ensures { IfOk result (λ block. block ≡ self.now ++ low_bytes count bits) }
    {
        let more = low_bytes(alloc, count, bits)?;
        let mut bytes = Vec::from_slice(alloc, self.bytes.as_slice())?;
        bytes.extend_from_slice(&more)?;
        Ok(Block { bytes })
    }

    /// How many bytes it has.
    pub fn len(&self) -> usize
        ensures { result ≡ length self.now }
    {
        self.bytes.len()
    }

    /// A copy of the bytes.
    pub fn to_vec(&self, alloc: Global) -> Result<Vec<u8>, AllocError>
        ensures { IfOk result (λ bytes. bytes.items ≡ self.now) }
    {
        Vec::from_slice(alloc, self.bytes.as_slice())
    }

    /// A copy of so many bytes from an offset on, none past the end.
    pub fn section(&self, alloc: Global, offset: u32, size: u32) -> Result<Block, AllocError>
        ensures { IfOk result (λ block. block ≡ take size (drop offset self.now)) }
    {
        let behind = bytes_from(self.bytes.as_slice(), offset as usize);
        let bytes = Vec::from_slice(alloc, first_bytes(behind, size as usize))?;
        Ok(Block { bytes })
    }

    /// The number that a read of an object of the type at an offset gives.
    pub fn read(&self, offset: usize, type_: IntegerType) -> Number
        ensures { result ≡ typed type_ (number_at type_ offset self.now) }
    {
        read_block(self.bytes.as_slice(), offset, type_)
    }

    /// Writes the lowest `count` bytes of a number from an offset on.
    pub fn write(&mut self, offset: usize, count: usize, bits: u64)
        requires few { count ≤ 8 }
        requires within { offset + count ≤ length self.old }
        ensures value { self.new ≡ put_at offset (low_bytes count bits) self.old }
        ensures len { length self.new ≡ length self.old }
    {
        write_block(self.bytes.as_mut_slice(), offset, count, bits);
    }

    /// Puts the bytes of another block in the place of as many from an offset on.
    pub fn put_block(&mut self, offset: usize, other: &Block)
        requires { offset + length other.now ≤ length self.old }
        ensures value { self.new ≡ put_at offset other.now self.old }
        ensures len { length self.new ≡ length self.old }
    {
        self.put(offset, other.bytes.as_slice());
    }

    fn put(&mut self, offset: usize, new: &[u8])
        requires { offset + length new.now ≤ length self.old }
        ensures value { self.new ≡ put_at offset new.now self.old }
        ensures len { length self.new ≡ length self.old }
    {
        put_in(self.bytes.as_mut_slice(), offset, new);
    }

    /// Makes each byte 0.
    pub fn clear(&mut self)
        ensures { self.new ≡ zeros (length self.old) }
    {
        self.bytes.as_mut_slice().fill(0);
    }
}

// The bytes from an offset on, none past the end.
fn bytes_from(block: &[u8], offset: usize) -> &[u8]
    ensures { result.now ≡ drop offset block.now }
{
    if offset <= block.len() {
        &block[offset..]
    } else {
        &[]
    }
}

// The first bytes, so many where there are as many.
fn first_bytes(block: &[u8], count: usize) -> &[u8]
    ensures { result.now ≡ take count block.now }
{
    if count <= block.len() {
        &block[..count]
    } else {
        block
    }
}

fn put_in(block: &mut [u8], offset: usize, new: &[u8])
    requires { offset + length new.now ≤ length block.old }
    ensures { block.new ≡ put_at offset new.now block.old }
{
    block[offset..offset + new.len()].copy_from_slice(new);
}

/// The number of a type at an offset of a variable.
pub fn read_variable(variables: &[Block], variable: u32, offset: u32, type_: IntegerType) -> Number
    ensures { result ≡ typed type_ (read_variable variables.now variable offset type_) }
{
    match variables.get(variable as usize) {
        Some(block) => block.read(offset as usize, type_),
        None => read_block(&[], offset as usize, type_),
    }
}

/// The number of a type that as many bytes from an offset of a variable on are.
#[tactic(auto, using(c_values::proofs::Taken::number_taken))]
pub fn read_number(variables: &[Block], variable: u32, offset: u32, type_: IntegerType) -> Number
    ensures { result ≡ typed type_ (number_of type_ (take (bytes type_) (drop offset (block_of variables.now variable)))) }
{
    read_variable(variables, variable, offset, type_)
}

// ---- the variables of a function at its start

/// Adds the blocks of these variables, from one on: each byte is 0.
pub fn add_variables(
    alloc: Global,
    blocks: &mut Vec<Block>,
    variables: &[Variable],
    from: usize,
) -> Result<(), AllocError>
    ensures added { OnOk result (blocks.new.items ≡ blocks.old.items ++ first_variables (drop from (sizes_of variables.now))) }
    ensures kept { take (length blocks.old.items) blocks.new.items ≡ blocks.old.items }
{
    for place in from..variables.len() {
        let block = Block::new(alloc, variables[place].size)?;
        blocks.push(block)?;
    }
    Ok(())
}

// Behind the blocks from one on, which are the arguments, the other variables. The blocks before it stay.
fn split_frame(
    alloc: Global,
    blocks: &mut Vec<Block>,
    first: usize,
    variables: &[Variable],
) -> Result<Vec<Block>, AllocError>
    requires { first ≤ vec_len blocks.old }
    ensures frame { IfOk result (λ made. made.items ≡ drop first blocks.old.items ++ first_variables (drop (length blocks.old.items - first) (sizes_of variables.now))) }
    ensures rest { OnOk result (blocks.new.items ≡ take first blocks.old.items) }
    ensures err { OnErr result (take (length blocks.old.items) blocks.new.items ≡ blocks.old.items) }
{
    let count = blocks.len() - first;
    add_variables(alloc, blocks, variables, count)?;
    blocks.split_off(first)
}

/// The variables of a function at its start: so many structure values on top, which are its arguments, and
/// behind them the others. On an error all structure values stay.
pub fn take_frame(
    alloc: Global,
    structures: &mut Vec<Block>,
    count: usize,
    variables: &[Variable],
) -> Result<Vec<Block>, AllocError>
    ensures frame { IfOk result (λ made. made.items ≡ frame_on count (structures_in structures.old.items) (sizes_of variables.now)) }
    ensures rest { OnOk result (structures_in structures.new.items ≡ drop count (structures_in structures.old.items)) }
    ensures err { OnErr result (structures.new.items ≡ structures.old.items) }
{
    let len = structures.len();
    match split_frame(alloc, structures, len.saturating_sub(count), variables) {
        Ok(made) => Ok(made),
        Err(error) => {
            structures.truncate(len);
            Err(error)
        }
    }
}
