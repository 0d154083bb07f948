//! What a keyword begins among specifiers.

ghost use Rattle.std.specs.Prelude.{◌≡◌};
ghost use Rattle.c_parse_parts.specs.Tables.{start_of_keyword, record_tag};

use c_token::Keyword;
use c_tree::{FunctionSpecifier, Qualifier, RecordKind, StorageClass, TagKind, TypeWord};

/// What a token begins among specifiers (C11 6.7).
#[derive(Clone, Copy, PartialEq, Eq)]
pub enum Start {
    Qualifier(Qualifier),
    Word(TypeWord),
    Storage(StorageClass),
    Function(FunctionSpecifier),
    Record(RecordKind),
    Enumeration,
    /// The name of a typedef.
    Name,
}

/// What a keyword begins among specifiers.
pub fn start_of_keyword(keyword: Keyword) -> Option<Start>
    ensures { result ≡ start_of_keyword keyword }
{
    match keyword {
        Keyword::Auto => Some(Start::Storage(StorageClass::Auto)),
        Keyword::Break => None,
        Keyword::Case => None,
        Keyword::Char => Some(Start::Word(TypeWord::Char)),
        Keyword::Const => Some(Start::Qualifier(Qualifier::Const)),
        Keyword::Continue => None,
        Keyword::Default => None,
        Keyword::Do => None,
        Keyword::Else => None,
        Keyword::Enum => Some(Start::Enumeration),
        Keyword::Extern => Some(Start::Storage(StorageClass::Extern)),
        Keyword::For => None,
        Keyword::Goto => None,
        Keyword::If => None,
        Keyword::Inline => Some(Start::Function(FunctionSpecifier::Inline)),
        Keyword::Int => Some(Start::Word(TypeWord::Int)),
        Keyword::Long => Some(Start::Word(TypeWord::Long)),
        Keyword::Register => Some(Start::Storage(StorageClass::Register)),
        Keyword::Restrict => Some(Start::Qualifier(Qualifier::Restrict)),
        Keyword::Return => None,
        Keyword::Short => Some(Start::Word(TypeWord::Short)),
        Keyword::Signed => Some(Start::Word(TypeWord::Signed)),
        Keyword::Sizeof => None,
        Keyword::Static => Some(Start::Storage(StorageClass::Static)),
        Keyword::Struct => Some(Start::Record(RecordKind::Struct)),
        Keyword::Switch => None,
        Keyword::Typedef => Some(Start::Storage(StorageClass::Typedef)),
        Keyword::Union => Some(Start::Record(RecordKind::Union)),
        Keyword::Unsigned => Some(Start::Word(TypeWord::Unsigned)),
        Keyword::Void => Some(Start::Word(TypeWord::Void)),
        Keyword::Volatile => Some(Start::Qualifier(Qualifier::Volatile)),
        Keyword::While => None,
        Keyword::Bool => Some(Start::Word(TypeWord::Bool)),
        Keyword::Noreturn => Some(Start::Function(FunctionSpecifier::Noreturn)),
    }
}

/// What the tag of a structure or a union stands for.
pub fn record_tag(kind: RecordKind) -> TagKind
    ensures { result ≡ record_tag kind }
{
    match kind {
        RecordKind::Struct => TagKind::Struct,
        RecordKind::Union => TagKind::Union,
    }
}
