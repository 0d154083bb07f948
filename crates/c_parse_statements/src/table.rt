//! What a token begins where a statement is due.

ghost use Rattle.std.specs.Prelude.{◌≡◌};
ghost use Rattle.c_parse_statements.specs.Tables.{begin_of_keyword};
ghost use Rattle.c_parse_statements.specs.inner.Reading.{begin_of};

use c_parse_expr::is_mark;
use c_token::{Keyword, Kind, Mark};

/// What the first token of a statement begins (C11 6.8).
#[derive(Clone, Copy, PartialEq, Eq)]
pub enum Begin {
    Block,
    If,
    Return,
    Expression,
    Empty,
    While,
    Do,
    For,
    Switch,
    Case,
    Default,
    Label,
    Goto,
    Break,
    Continue,
}

/// What a keyword begins where a statement is due.
pub fn begin_of_keyword(keyword: Keyword) -> Begin
    ensures { result ≡ begin_of_keyword keyword }
{
    match keyword {
        Keyword::Auto => Begin::Expression,
        Keyword::Break => Begin::Break,
        Keyword::Case => Begin::Case,
        Keyword::Char => Begin::Expression,
        Keyword::Const => Begin::Expression,
        Keyword::Continue => Begin::Continue,
        Keyword::Default => Begin::Default,
        Keyword::Do => Begin::Do,
        Keyword::Else => Begin::Expression,
        Keyword::Enum => Begin::Expression,
        Keyword::Extern => Begin::Expression,
        Keyword::For => Begin::For,
        Keyword::Goto => Begin::Goto,
        Keyword::If => Begin::If,
        Keyword::Inline => Begin::Expression,
        Keyword::Int => Begin::Expression,
        Keyword::Long => Begin::Expression,
        Keyword::Register => Begin::Expression,
        Keyword::Restrict => Begin::Expression,
        Keyword::Return => Begin::Return,
        Keyword::Short => Begin::Expression,
        Keyword::Signed => Begin::Expression,
        Keyword::Sizeof => Begin::Expression,
        Keyword::Static => Begin::Expression,
        Keyword::Struct => Begin::Expression,
        Keyword::Switch => Begin::Switch,
        Keyword::Typedef => Begin::Expression,
        Keyword::Union => Begin::Expression,
        Keyword::Unsigned => Begin::Expression,
        Keyword::Void => Begin::Expression,
        Keyword::Volatile => Begin::Expression,
        Keyword::While => Begin::While,
        Keyword::Bool => Begin::Expression,
        Keyword::Noreturn => Begin::Expression,
    }
}

/// What a token of a kind begins where a statement is due. A name begins a label where a colon is behind it.
pub fn begin_of(colon: bool, kind: Kind) -> Begin
    ensures { result ≡ begin_of colon kind }
{
    match kind {
        Kind::Identifier => {
            if colon {
                Begin::Label
            } else {
                Begin::Expression
            }
        }
        Kind::Keyword(keyword) => begin_of_keyword(keyword),
        Kind::Constant(_) => Begin::Expression,
        Kind::Character(_) => Begin::Expression,
        Kind::String => Begin::Expression,
        Kind::Mark(_) => {
            if is_mark(Mark::LeftBrace, kind) {
                Begin::Block
            } else if is_mark(Mark::Semicolon, kind) {
                Begin::Empty
            } else {
                Begin::Expression
            }
        }
    }
}
