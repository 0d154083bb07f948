//! The names that each file may use without a declaration.

ghost use Rattle.std.specs.Prelude.{◌≡◌};
ghost use Rattle.std.specs.Str.{bytes_eq};
ghost use Rattle.c_scope.specs.Scopes.{built_in};

use crate::meaning::Meaning;
use c_types::IntegerType;

fn spells(text: &[u8], word: &[u8]) -> bool
    ensures { result ≡ bytes_eq text.now word.now }
{
    text == word
}

/// What a built-in name means.
#[tactic(auto, unfolding(crate::specs::Scopes::built_in))]
pub fn built_in(name: &[u8]) -> Option<Meaning>
    ensures { result ≡ built_in name.now }
{
    if spells(name, b"assert") {
        Some(Meaning::Assert)
    } else if spells(name, b"__CPROVER_assume") {
        Some(Meaning::Assume)
    } else if spells(name, b"nondet_bool") {
        Some(Meaning::Draw {
            type_: IntegerType::Bool,
        })
    } else if spells(name, b"nondet_char") {
        Some(Meaning::Draw {
            type_: IntegerType::Char,
        })
    } else if spells(name, b"nondet_uchar") {
        Some(Meaning::Draw {
            type_: IntegerType::UnsignedChar,
        })
    } else if spells(name, b"nondet_short") {
        Some(Meaning::Draw {
            type_: IntegerType::Short,
        })
    } else if spells(name, b"nondet_ushort") {
        Some(Meaning::Draw {
            type_: IntegerType::UnsignedShort,
        })
    } else if spells(name, b"nondet_int") {
        Some(Meaning::Draw {
            type_: IntegerType::Int,
        })
    } else if spells(name, b"nondet_uint") {
        Some(Meaning::Draw {
            type_: IntegerType::UnsignedInt,
        })
    } else if spells(name, b"nondet_long") {
        Some(Meaning::Draw {
            type_: IntegerType::Long,
        })
    } else if spells(name, b"nondet_ulong") {
        Some(Meaning::Draw {
            type_: IntegerType::UnsignedLong,
        })
    } else if spells(name, b"nondet_size_t") {
        Some(Meaning::Draw {
            type_: IntegerType::UnsignedLong,
        })
    } else if spells(name, b"size_t") {
        Some(Meaning::Typedef { number: 0 })
    } else if spells(name, b"uintptr_t") {
        Some(Meaning::Typedef { number: 0 })
    } else if spells(name, b"pthread_t") {
        Some(Meaning::Typedef { number: 0 })
    } else if spells(name, b"ptrdiff_t") {
        Some(Meaning::Typedef { number: 1 })
    } else if spells(name, b"intptr_t") {
        Some(Meaning::Typedef { number: 1 })
    } else if spells(name, b"int8_t") {
        Some(Meaning::Typedef { number: 2 })
    } else if spells(name, b"int16_t") {
        Some(Meaning::Typedef { number: 3 })
    } else if spells(name, b"int32_t") {
        Some(Meaning::Typedef { number: 4 })
    } else if spells(name, b"int64_t") {
        Some(Meaning::Typedef { number: 1 })
    } else if spells(name, b"uint8_t") {
        Some(Meaning::Typedef { number: 5 })
    } else if spells(name, b"uint16_t") {
        Some(Meaning::Typedef { number: 6 })
    } else if spells(name, b"uint32_t") {
        Some(Meaning::Typedef { number: 7 })
    } else if spells(name, b"uint64_t") {
        Some(Meaning::Typedef { number: 0 })
    } else if spells(name, b"pthread_mutex_t") {
        Some(Meaning::Typedef { number: 8 })
    } else {
        None
    }
}
