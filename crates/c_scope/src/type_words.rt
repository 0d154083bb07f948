//! The words of a type (C11 6.7.2p2).

ghost use Rattle.std.specs.Prelude.{◌≡◌, ◌==◌, if◌then◌else◌};
ghost use Rattle.c_scope.specs.Types.{word_number, count, same_words, short_words, int_words, long_words, type_in, words_type};

use c_tree::TypeWord;
use c_types::{IntegerType, ValueType};

// 1 where two words are one, else 0.
fn match_count(a: TypeWord, b: TypeWord) -> usize
    ensures { result ≡ (if word_number a == word_number b then 1 else 0) }
{
    if a == b { 1 } else { 0 }
}

fn count(word: TypeWord, words: &[TypeWord]) -> usize
    ensures { result ≡ count word words.now }
{
    let mut found = 0;
    for other in words {
        found += match_count(word, *other);
    }
    found
}

fn same_count(word: TypeWord, row: &[TypeWord], words: &[TypeWord]) -> bool
    ensures { result ≡ (count word row.now == count word words.now) }
{
    count(word, row) == count(word, words)
}

// Whether each word stands in both equally often.
fn same_words(row: &[TypeWord], words: &[TypeWord]) -> bool
    ensures { result ≡ same_words row.now words.now }
{
    same_count(TypeWord::Void, row, words)
        && same_count(TypeWord::Char, row, words)
        && same_count(TypeWord::Short, row, words)
        && same_count(TypeWord::Int, row, words)
        && same_count(TypeWord::Long, row, words)
        && same_count(TypeWord::Signed, row, words)
        && same_count(TypeWord::Unsigned, row, words)
        && same_count(TypeWord::Bool, row, words)
}

// The types of void, of _Bool and of the words with `char` and `short`.
fn short_words(words: &[TypeWord]) -> Option<ValueType>
    ensures { result ≡ type_in short_words words.now }
{
    if same_words(&[TypeWord::Void], words) {
        Some(ValueType::Void)
    } else if same_words(&[TypeWord::Bool], words) {
        Some(ValueType::Integer(IntegerType::Bool))
    } else if same_words(&[TypeWord::Char], words) {
        Some(ValueType::Integer(IntegerType::Char))
    } else if same_words(&[TypeWord::Signed, TypeWord::Char], words) {
        Some(ValueType::Integer(IntegerType::SignedChar))
    } else if same_words(&[TypeWord::Unsigned, TypeWord::Char], words) {
        Some(ValueType::Integer(IntegerType::UnsignedChar))
    } else if same_words(&[TypeWord::Short], words) {
        Some(ValueType::Integer(IntegerType::Short))
    } else if same_words(&[TypeWord::Signed, TypeWord::Short], words) {
        Some(ValueType::Integer(IntegerType::Short))
    } else if same_words(&[TypeWord::Short, TypeWord::Int], words) {
        Some(ValueType::Integer(IntegerType::Short))
    } else if same_words(&[TypeWord::Signed, TypeWord::Short, TypeWord::Int], words) {
        Some(ValueType::Integer(IntegerType::Short))
    } else if same_words(&[TypeWord::Unsigned, TypeWord::Short], words) {
        Some(ValueType::Integer(IntegerType::UnsignedShort))
    } else if same_words(&[TypeWord::Unsigned, TypeWord::Short, TypeWord::Int], words) {
        Some(ValueType::Integer(IntegerType::UnsignedShort))
    } else {
        None
    }
}

// The types of the words with neither.
fn int_words(words: &[TypeWord]) -> Option<ValueType>
    ensures { result ≡ type_in int_words words.now }
{
    if same_words(&[TypeWord::Int], words) {
        Some(ValueType::Integer(IntegerType::Int))
    } else if same_words(&[TypeWord::Signed], words) {
        Some(ValueType::Integer(IntegerType::Int))
    } else if same_words(&[TypeWord::Signed, TypeWord::Int], words) {
        Some(ValueType::Integer(IntegerType::Int))
    } else if same_words(&[TypeWord::Unsigned], words) {
        Some(ValueType::Integer(IntegerType::UnsignedInt))
    } else if same_words(&[TypeWord::Unsigned, TypeWord::Int], words) {
        Some(ValueType::Integer(IntegerType::UnsignedInt))
    } else {
        None
    }
}

// The types of the words with `long`.
fn long_words(words: &[TypeWord]) -> Option<ValueType>
    ensures { result ≡ type_in long_words words.now }
{
    if same_words(&[TypeWord::Long], words) {
        Some(ValueType::Integer(IntegerType::Long))
    } else if same_words(&[TypeWord::Signed, TypeWord::Long], words) {
        Some(ValueType::Integer(IntegerType::Long))
    } else if same_words(&[TypeWord::Long, TypeWord::Int], words) {
        Some(ValueType::Integer(IntegerType::Long))
    } else if same_words(&[TypeWord::Signed, TypeWord::Long, TypeWord::Int], words) {
        Some(ValueType::Integer(IntegerType::Long))
    } else if same_words(&[TypeWord::Unsigned, TypeWord::Long], words) {
        Some(ValueType::Integer(IntegerType::UnsignedLong))
    } else if same_words(&[TypeWord::Unsigned, TypeWord::Long, TypeWord::Int], words) {
        Some(ValueType::Integer(IntegerType::UnsignedLong))
    } else if same_words(&[TypeWord::Long, TypeWord::Long], words) {
        Some(ValueType::Integer(IntegerType::LongLong))
    } else if same_words(&[TypeWord::Signed, TypeWord::Long, TypeWord::Long], words) {
        Some(ValueType::Integer(IntegerType::LongLong))
    } else if same_words(&[TypeWord::Long, TypeWord::Long, TypeWord::Int], words) {
        Some(ValueType::Integer(IntegerType::LongLong))
    } else if same_words(
        &[
            TypeWord::Signed,
            TypeWord::Long,
            TypeWord::Long,
            TypeWord::Int,
        ],
        words,
    ) {
        Some(ValueType::Integer(IntegerType::LongLong))
    } else if same_words(&[TypeWord::Unsigned, TypeWord::Long, TypeWord::Long], words) {
        Some(ValueType::Integer(IntegerType::UnsignedLongLong))
    } else if same_words(
        &[
            TypeWord::Unsigned,
            TypeWord::Long,
            TypeWord::Long,
            TypeWord::Int,
        ],
        words,
    ) {
        Some(ValueType::Integer(IntegerType::UnsignedLongLong))
    } else {
        None
    }
}

/// The type of words in any order.
#[tactic(auto, unfolding(crate::specs::Types::words_type))]
pub fn words_type(words: &[TypeWord]) -> Option<ValueType>
    ensures { result ≡ words_type words.now }
{
    match short_words(words) {
        Some(type_) => Some(type_),
        None => match int_words(words) {
            Some(type_) => Some(type_),
            None => long_words(words),
        },
    }
}
