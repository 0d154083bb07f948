//! What an answer gives a register or a block.

ghost use Rattle.std.specs.Prelude.{◌≡◌};
ghost use Rattle.goto_prog.specs.Meaning as meaning;

use actions::Answer;

/// The word that an answer gives.
pub fn word_of(answer: &Answer) -> u64
    ensures { result ≡ meaning.word_of answer.now }
{
    match answer {
        Answer::Word(word) => word.bits(),
        _ => 0,
    }
}

/// The bytes that an answer gives.
pub fn bytes_in(answer: &Answer) -> &[u8]
    ensures { result.now ≡ meaning.bytes_in answer.now }
{
    match answer {
        Answer::Bytes(bytes) => bytes.as_slice(),
        _ => &[],
    }
}

/// The size that an answer gives.
pub fn size_in(answer: &Answer) -> u32
    ensures { result ≡ meaning.size_in answer.now }
{
    match answer {
        Answer::Size(size) => *size,
        _ => 0,
    }
}

/// The number that an answer gives.
pub fn number_in(answer: &Answer) -> u32
    ensures { result ≡ meaning.number_in answer.now }
{
    match answer {
        Answer::Number(number) => *number,
        _ => 0,
    }
}
