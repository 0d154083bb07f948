//! The words that an object is drawn in.

ghost use Rattle.std.specs.Prelude.{◌≡◌, ◌≤◌};
ghost use Rattle.c_values.specs.Variables as variables;

/// How many words an object of this size is drawn in: 8 bytes a word, the last of the bytes that are left.
pub fn word_count(size: u32) -> u32
    ensures { result ≡ variables.word_count size }
{
    size / 8 + (size % 8 + 7) / 8
}

/// How many bytes of an object of this size are drawn in the word that begins at an offset.
pub fn drawn_count(size: u32, offset: u32) -> u32
    ensures is { result ≡ variables.drawn_count size offset }
    ensures at_most_8 { result ≤ 8 }
{
    if offset < size {
        (size - offset).min(8)
    } else {
        0
    }
}
