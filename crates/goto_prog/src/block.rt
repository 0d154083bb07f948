//! The bytes of a block.

ghost use Rattle.std.specs.Prelude.{◌≡◌, ◌+◌, ◌≤◌, length, take, drop, IfOk};
ghost use Rattle.c_values.specs.Variables.{low_bytes, put_at, zeros, number_at};
ghost use Rattle.c_values.specs.Numbers.{typed};
ghost use Rattle.goto_prog.specs.Meaning.{taken_at, put_within};

use c_types::IntegerType;
use c_values::{Number, read_block, write_block};
use std::alloc::{AllocError, Global};
use std::marker::Model;

/// The bytes of a block.
#[derive(Drop)]
pub struct Block {
    bytes: Vec<u8>,
}

impl Model for Block {
    ghost use Rattle.std.specs.Prelude.{List, ℕ};

    ghost Value = { List ℕ };

    ghost view = { λ b. b.bytes.items };
}

impl Block {
    /// So many bytes that are 0.
    pub fn new(alloc: Global, size: u32) -> Result<Block, AllocError>
        ensures { IfOk result (λ b. b ≡ zeros size) }
    {
        Ok(Block {
            bytes: vec![in alloc; 0; size as usize]?,
        })
    }

    /// The number of a type at an offset.
    pub fn number(&self, offset: u32, type_: IntegerType) -> Number
        ensures { result ≡ typed type_ (number_at type_ offset self.now) }
    {
        read_block(&self.bytes, offset as usize, type_)
    }

    /// Writes the lowest bytes of a word, so many, from an offset on.
    pub fn write(&mut self, offset: u32, count: u32, bits: u64)
        requires few { count ≤ 8 }
        requires within { offset + count ≤ length self.old }
        ensures { self.new ≡ put_at offset (low_bytes count bits) self.old }
    {
        write_block(&mut self.bytes, offset as usize, count as usize, bits);
    }

    /// A copy of so many bytes, from an offset on.
    pub fn part(&self, alloc: Global, offset: u32, count: u32) -> Result<Vec<u8>, AllocError>
        requires { offset + count ≤ length self.now }
        ensures { IfOk result (λ part. part.items ≡ take count (drop offset self.now)) }
    {
        let start = offset as usize;
        Vec::from_slice(alloc, &self.bytes[start..start + count as usize])
    }

    /// A copy of all bytes.
    pub fn copied(&self, alloc: Global) -> Result<Block, AllocError>
        ensures { IfOk result (λ b. b ≡ self.now) }
    {
        Ok(Block {
            bytes: Vec::from_slice(alloc, &self.bytes)?,
        })
    }

    /// Puts as many of these bytes as there is room for, from the first on.
    #[tactic(auto, using(crate::proofs::Blocks::take_min))]
    pub fn fill(&mut self, new: &Block)
        ensures { self.new ≡ put_at 0 (take (length self.old) new.now) self.old }
    {
        let count = self.bytes.len().min(new.bytes.len());
        self.put(0, &new.bytes[..count]);
    }

    /// Writes bytes in the place of as many, from an offset on.
    pub fn put(&mut self, at: u32, new: &[u8])
        requires { at + length new.now ≤ length self.old }
        ensures { self.new ≡ put_at at new.now self.old }
    {
        let start = at as usize;
        self.bytes[start..start + new.len()].copy_from_slice(new);
    }

    /// A copy of so many bytes, from an offset on; past the end they are 0.
    pub fn taken(&self, alloc: Global, offset: u32, count: u32) -> Result<Vec<u8>, AllocError>
        ensures { IfOk result (λ part. part.items ≡ taken_at count offset self.now) }
    {
        let start = (offset as usize).min(self.bytes.len());
        let end = (start + count as usize).min(self.bytes.len());
        let mut part = Vec::from_slice(alloc, &self.bytes[start..end])?;
        part.resize(count as usize, 0)?;
        Ok(part)
    }

    /// Writes bytes in the place of as many, from an offset on, as far as there are some.
    pub fn put_within(&mut self, at: u32, new: &[u8])
        ensures { self.new ≡ put_within at new.now self.old }
    {
        let start = (at as usize).min(self.bytes.len());
        let count = new.len().min(self.bytes.len() - start);
        self.bytes[start..start + count].copy_from_slice(&new[..count]);
    }

    /// Sets each byte to 0.
    pub fn clear(&mut self)
        ensures { self.new ≡ zeros (length self.old) }
    {
        self.bytes.fill(0);
    }
}
