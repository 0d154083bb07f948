//! What a reader is given on its way down.

use std::alloc::Global;

/// What a reader is given beside names and tokens: the memory of what it makes, the bytes that the tokens lie in, and the most
/// levels that it may read.
#[derive(Clone, Copy)]
pub struct Frame<'a> {
    pub alloc: Global,
    pub bytes: &'a [u8],
    pub levels: u32,
}
