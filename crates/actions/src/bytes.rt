//! Lists of bytes as clauses see them.

ghost use Rattle.std.specs.Prelude.{◌≡◌, ◌+◌, ◌≤◌, true, length, take, drop, IfOk};
ghost use Rattle.actions.specs.ByteList.{are_bytes, mutex_number, put_at};

use std::alloc::{AllocError, Global};
use std::marker::Model;

/// A list of bytes.
#[derive(Drop)]
pub struct Bytes {
    items: Vec<u8>,
}

impl Model for Bytes {
    ghost use Rattle.std.specs.Prelude.{List, ℕ};

    ghost Value = { List ℕ };

    ghost view = { λ b. b.items.items };
}

impl Clone for Bytes {
    ghost is_clone = { λ b c. c ≡ b };

    fn clone(&self) -> Result<Bytes, AllocError> {
        Ok(Bytes {
            items: self.items.clone()?,
        })
    }
}

impl Bytes {
    /// The bytes of a vector. Takes no memory.
    pub fn new(items: Vec<u8>) -> Bytes
        ensures { result ≡ items.items }
    {
        Bytes { items }
    }

    /// The vector of the bytes. Takes no memory.
    pub fn into_vec(self) -> Vec<u8>
        ensures { result.items ≡ self }
    {
        self.items
    }

    /// The bytes.
    pub fn as_slice(&self) -> &[u8]
        ensures { result.now ≡ self.now }
    {
        self.items.as_slice()
    }

    /// A copy of the n bytes from the offset `at` on.
    pub(crate) fn part(&self, alloc: Global, at: usize, n: usize) -> Result<Bytes, AllocError>
        requires { at + n ≤ length self.now }
        ensures value { IfOk result (λ bytes. bytes ≡ take n (drop at self.now)) }
        ensures len { IfOk result (λ bytes. length bytes ≡ n) }
        ensures bytes { IfOk result (λ bytes. are_bytes bytes ≡ true) }
    {
        let items = part_of(alloc, self.items.as_slice(), at, n)?;
        Ok(Bytes { items })
    }

    /// The number in the 4 bytes from the offset `at` on, the lowest byte first.
    pub(crate) fn number(&self, at: usize) -> u32
        requires { at + 4 ≤ length self.now }
        ensures { result ≡ mutex_number (take 4 (drop at self.now)) }
    {
        number_of(&self.items[at..at + 4])
    }

    /// Puts bytes in the place of as many from the offset `at` on.
    pub(crate) fn put(&mut self, at: usize, new: &[u8])
        requires { at + length new.now ≤ length self.old }
        ensures value { self.new ≡ put_at at new.now self.old }
        ensures len { length self.new ≡ length self.old }
    {
        put_in(self.items.as_mut_slice(), at, new);
    }
}

fn put_in(items: &mut [u8], at: usize, new: &[u8])
    requires { at + length new.now ≤ length items.old }
    ensures { items.new ≡ put_at at new.now items.old }
{
    items[at..at + new.len()].copy_from_slice(new);
}

fn number_of(bytes: &[u8]) -> u32
    requires { length bytes.now ≡ 4 }
    ensures { result ≡ mutex_number bytes.now }
{
    u32::from_le_bytes([bytes[0], bytes[1], bytes[2], bytes[3]])
}

fn part_of(alloc: Global, items: &[u8], at: usize, n: usize) -> Result<Vec<u8>, AllocError>
    requires { at + n ≤ length items.now }
    ensures value { IfOk result (λ part. part.items ≡ take n (drop at items.now)) }
    ensures len { IfOk result (λ part. length part.items ≡ n) }
    ensures bytes { IfOk result (λ part. are_bytes part.items ≡ true) }
{
    let part = Vec::from_slice(alloc, &items[at..at + n])?;
    Ok(part)
}
