//! The values of a graph's nodes where its variables have some values.

ghost use Rattle.std.specs.Prelude.{◌≡◌, map, slice_index, IfOk};
ghost use Rattle.words.specs.BitVector.{BitVector};
ghost use Rattle.words.specs.Operators.{low_bits};
ghost use Rattle.c_values.specs.Variables as variables;
ghost use Rattle.word_dag.specs.Meaning.{value, values, valuation_of};
ghost use Rattle.value_nodes.specs.Values.{IsWord, AreBytes};
ghost use Rattle.trace_build.specs.Walking as walking;

use c_values::{drawn_count, word_count};
use std::alloc::{AllocError, Global};
use word_dag::{Dag, Id, Valuation};
use words::Word;

/// The values of a graph's nodes.
#[derive(Clone, Copy)]
pub struct Values<'a> {
    pub dag: &'a Dag,
    pub valuation: &'a Valuation,
    pub words: &'a [Word],
    ghost same: { map (λ (w : BitVector). w.bits) words.now ≡ values (valuation_of valuation.now) dag.now },
}

// The bits of a word of a list, 0 where there is none.
#[tactic(auto, using(crate::proofs::NodeWords::bits_there, crate::proofs::NodeWords::bits_past))]
fn bits_at(words: &[Word], at: usize) -> u64
    ensures { result ≡ slice_index (map (λ (w : BitVector). w.bits) words.now) at }
{
    if at < words.len() {
        words[at].bits()
    } else {
        0
    }
}

// The lowest of these bits, so many.
#[tactic(auto, using(crate::proofs::NodeWords::all_low))]
fn lowest(bits: u64, count: u32) -> u64
    ensures { result ≡ low_bits count bits }
{
    if count >= 64 {
        bits
    } else {
        bits % (1 << count)
    }
}

impl<'a> Values<'a> {
    /// The value of a node.
    pub fn bits(self, id: Id) -> u64
        ensures { result ≡ value (valuation_of self.entry.valuation.now) self.entry.dag.now id }
    {
        let words: &[Word] = self.words;
        bits_at(words, id.index)
    }

    // The value of a node of 8 bits.
    #[tactic(auto, using(crate::proofs::NodeWords::is_byte))]
    fn byte(self, id: Id) -> u8
        requires { IsWord self.dag.now id 8 }
        ensures { result ≡ value (valuation_of self.entry.valuation.now) self.entry.dag.now id }
    {
        let _ = self.dag.nodes();
        (self.bits(id) % 256) as u8
    }

    /// The values of nodes of 8 bits.
    pub fn bytes(self, alloc: Global, ids: &[Id]) -> Result<Vec<u8>, AllocError>
        requires { AreBytes self.dag.now ids.now }
        ensures { IfOk result (λ bytes. bytes.items ≡ map (value (valuation_of self.entry.valuation.now) self.entry.dag.now) ids.now) }
    {
        let mut bytes = Vec::with_capacity(alloc, ids.len())?;
        for id in ids {
            bytes.push(self.byte(*id))?;
        }
        Ok(bytes)
    }

    /// The words that are drawn for so many bytes, each of 8 bytes, and the last of the bytes that are left; they have these
    /// nodes.
    pub fn drawn(self, alloc: Global, size: u32, ids: &[Id]) -> Result<Vec<u64>, AllocError>
        ensures { IfOk result (λ words. words.items ≡ walking.cut_words (variables.word_count size) size 0 (map (value (valuation_of self.entry.valuation.now) self.entry.dag.now) ids.now)) }
    {
        let count = (word_count(size) as usize).min(ids.len());
        let mut words = Vec::with_capacity(alloc, count)?;
        for i in 0..count {
            let bits = 8 * drawn_count(size, 8 * i as u32);
            words.push(lowest(self.bits(ids[i]), bits))?;
        }
        Ok(words)
    }
}
