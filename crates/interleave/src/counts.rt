//! How many threads and objects a run has.

ghost use Rattle.std.specs.Prelude.{◌≡◌, ◌+◌, nat_lt, length, if◌then◌else◌, ◌<◌, ◌≤◌, ◌^◌};
ghost use Rattle.interleave.specs.Own.{own_part, counted, next_word, NumberFits};
ghost use Rattle.words.specs.Operators.{low_bits};

use actions::Action;
use words::Word;

/// A thread's own record: how many threads it created, how many objects it made, and how many of its
/// input words it used.
#[derive(Clone, Copy, PartialEq, Eq)]
pub(crate) struct Counts {
    pub(crate) creations: u64,
    pub(crate) objects: u64,
    pub(crate) used: usize,
}

impl Counts {
    /// What the record of thread t gives to an action.
    pub(crate) fn own_part(&self, t: u32, words: &[u64], action: &Action) -> u64
        requires { NumberFits t self.now action.now }
        ensures { result ≡ own_part t words.now self.now action.now }
    {
        match action {
            Action::Draw(bits) => draw(words, self.used, bits.bits()),
            Action::Alloc(_) => t as u64 * 65536 + self.objects + 1,
            Action::Create(_, _) => t as u64 * 256 + self.creations + 1,
            _ => 0,
        }
    }

    /// The record once the action is made.
    pub(crate) fn after(self, t: u32, words: &[u64], action: &Action) -> Counts
        requires { NumberFits t self action.now }
        ensures { result ≡ counted words.now self action.now }
    {
        let mut after = self;
        match action {
            Action::Draw(_) => after.used = used_after(words, self.used),
            Action::Alloc(_) => after.objects += 1,
            Action::Create(_, _) => after.creations += 1,
            _ => {}
        }
        after
    }
}

// A word that isn't there isn't used.
fn used_after(words: &[u64], used: usize) -> usize
    ensures { result ≡ (if nat_lt used (length words.now) then used + 1 else used) }
{
    if used < words.len() { used + 1 } else { used }
}

/// The lowest bits of the next input word.
pub(crate) fn draw(words: &[u64], used: usize, bits: u32) -> u64
    requires positive { 1 ≤ bits }
    requires at_most_64 { bits ≤ 64 }
    ensures value { result ≡ low_bits bits (next_word words.now used) }
    ensures below { result < 2 ^ bits }
{
    let word = if used < words.len() { words[used] } else { 0 };
    Word::new(word, 64).cut(bits).bits()
}
