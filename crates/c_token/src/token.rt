//! What a token is.

ghost use Rattle.std.specs.Prelude.{◌≡◌, Some, find};
ghost use Rattle.c_token.specs.Spelling.{keyword_text, mark_text, keyword_of, mark_of};

/// A keyword of C11 6.4.1 that the profile has.
#[derive(Clone, Copy, PartialEq, Eq)]
pub enum Keyword {
    Auto,
    Break,
    Case,
    Char,
    Const,
    Continue,
    Default,
    Do,
    Else,
    Enum,
    Extern,
    For,
    Goto,
    If,
    Inline,
    Int,
    Long,
    Register,
    Restrict,
    Return,
    Short,
    Signed,
    Sizeof,
    Static,
    Struct,
    Switch,
    Typedef,
    Union,
    Unsigned,
    Void,
    Volatile,
    While,
    Bool,
    Noreturn,
}

/// A mark (C11 6.4.6), `#` included.
#[derive(Clone, Copy, PartialEq, Eq)]
pub enum Mark {
    LeftBracket,
    RightBracket,
    LeftParenthesis,
    RightParenthesis,
    LeftBrace,
    RightBrace,
    Dot,
    Arrow,
    PlusPlus,
    MinusMinus,
    Ampersand,
    Star,
    Plus,
    Minus,
    Tilde,
    Exclamation,
    Slash,
    Percent,
    ShiftLeft,
    ShiftRight,
    Less,
    Greater,
    LessEqual,
    GreaterEqual,
    EqualEqual,
    NotEqual,
    Caret,
    Bar,
    AndAnd,
    OrOr,
    Question,
    Colon,
    Semicolon,
    Ellipsis,
    Equal,
    StarEqual,
    SlashEqual,
    PercentEqual,
    PlusEqual,
    MinusEqual,
    ShiftLeftEqual,
    ShiftRightEqual,
    AmpersandEqual,
    CaretEqual,
    BarEqual,
    Comma,
    Hash,
}

/// The type of an integer constant (C11 6.4.4.1).
#[derive(Clone, Copy, PartialEq, Eq)]
pub enum ConstantType {
    Int,
    UnsignedInt,
    Long,
    UnsignedLong,
    LongLong,
    UnsignedLongLong,
}

/// The types of integer constants in the order in which C11 6.4.4.1 lists them.
pub const CONSTANT_TYPES: [ConstantType; 6] = [
    ConstantType::Int,
    ConstantType::UnsignedInt,
    ConstantType::Long,
    ConstantType::UnsignedLong,
    ConstantType::LongLong,
    ConstantType::UnsignedLongLong,
];

/// An integer constant: its value, which its type holds, and its type.
#[derive(Clone, Copy, PartialEq, Eq)]
pub struct Constant {
    pub value: u64,
    pub type_: ConstantType,
}

/// What a token is.
#[derive(Clone, Copy, PartialEq, Eq)]
pub enum Kind {
    Identifier,
    Keyword(Keyword),
    Constant(Constant),
    /// A character constant, with the bits of its value of type int: 0 to 127 for the bytes below 128, and the byte
    /// less 256, in two's complement of 32 bits, for the others.
    Character(u32),
    String,
    Mark(Mark),
}

/// A token of a file.
#[derive(Clone, Copy, PartialEq, Eq)]
pub struct Token {
    pub kind: Kind,
    /// 1 plus the number of newline bytes before it in the file.
    pub line: u32,
    /// Whether no token stands before it on its line.
    pub first: bool,
    /// Its place in the bytes of the tokens.
    pub start: u32,
    /// The number of its bytes.
    pub length: u32,
}

/// Each keyword of the profile.
pub const KEYWORDS: [Keyword; 34] = [
    Keyword::Auto,
    Keyword::Break,
    Keyword::Case,
    Keyword::Char,
    Keyword::Const,
    Keyword::Continue,
    Keyword::Default,
    Keyword::Do,
    Keyword::Else,
    Keyword::Enum,
    Keyword::Extern,
    Keyword::For,
    Keyword::Goto,
    Keyword::If,
    Keyword::Inline,
    Keyword::Int,
    Keyword::Long,
    Keyword::Register,
    Keyword::Restrict,
    Keyword::Return,
    Keyword::Short,
    Keyword::Signed,
    Keyword::Sizeof,
    Keyword::Static,
    Keyword::Struct,
    Keyword::Switch,
    Keyword::Typedef,
    Keyword::Union,
    Keyword::Unsigned,
    Keyword::Void,
    Keyword::Volatile,
    Keyword::While,
    Keyword::Bool,
    Keyword::Noreturn,
];

impl Keyword {
    /// The keyword's spelling.
    pub fn text(self) -> &'static [u8]
        ensures { result.now ≡ keyword_text self }
    {
        match self {
            Keyword::Auto => b"auto",
            Keyword::Break => b"break",
            Keyword::Case => b"case",
            Keyword::Char => b"char",
            Keyword::Const => b"const",
            Keyword::Continue => b"continue",
            Keyword::Default => b"default",
            Keyword::Do => b"do",
            Keyword::Else => b"else",
            Keyword::Enum => b"enum",
            Keyword::Extern => b"extern",
            Keyword::For => b"for",
            Keyword::Goto => b"goto",
            Keyword::If => b"if",
            Keyword::Inline => b"inline",
            Keyword::Int => b"int",
            Keyword::Long => b"long",
            Keyword::Register => b"register",
            Keyword::Restrict => b"restrict",
            Keyword::Return => b"return",
            Keyword::Short => b"short",
            Keyword::Signed => b"signed",
            Keyword::Sizeof => b"sizeof",
            Keyword::Static => b"static",
            Keyword::Struct => b"struct",
            Keyword::Switch => b"switch",
            Keyword::Typedef => b"typedef",
            Keyword::Union => b"union",
            Keyword::Unsigned => b"unsigned",
            Keyword::Void => b"void",
            Keyword::Volatile => b"volatile",
            Keyword::While => b"while",
            Keyword::Bool => b"_Bool",
            Keyword::Noreturn => b"_Noreturn",
        }
    }
}

/// The keyword that a word spells.
pub fn keyword_of(text: &[u8]) -> Option<Keyword>
    ensures { result ≡ keyword_of text.now }
{
    KEYWORDS
        .iter()
        .copied()
        .find(|keyword| keyword.text() == text)
}

/// Each keyword is the one that its spelling spells.
pub fn each_keyword_is_spelled()
    ensures { (keyword : Keyword) → keyword_of (keyword_text keyword) ≡ Some keyword }
{}

/// Each mark.
pub const MARKS: [Mark; 47] = [
    Mark::LeftBracket,
    Mark::RightBracket,
    Mark::LeftParenthesis,
    Mark::RightParenthesis,
    Mark::LeftBrace,
    Mark::RightBrace,
    Mark::Dot,
    Mark::Arrow,
    Mark::PlusPlus,
    Mark::MinusMinus,
    Mark::Ampersand,
    Mark::Star,
    Mark::Plus,
    Mark::Minus,
    Mark::Tilde,
    Mark::Exclamation,
    Mark::Slash,
    Mark::Percent,
    Mark::ShiftLeft,
    Mark::ShiftRight,
    Mark::Less,
    Mark::Greater,
    Mark::LessEqual,
    Mark::GreaterEqual,
    Mark::EqualEqual,
    Mark::NotEqual,
    Mark::Caret,
    Mark::Bar,
    Mark::AndAnd,
    Mark::OrOr,
    Mark::Question,
    Mark::Colon,
    Mark::Semicolon,
    Mark::Ellipsis,
    Mark::Equal,
    Mark::StarEqual,
    Mark::SlashEqual,
    Mark::PercentEqual,
    Mark::PlusEqual,
    Mark::MinusEqual,
    Mark::ShiftLeftEqual,
    Mark::ShiftRightEqual,
    Mark::AmpersandEqual,
    Mark::CaretEqual,
    Mark::BarEqual,
    Mark::Comma,
    Mark::Hash,
];

impl Mark {
    /// The mark's spelling.
    pub fn text(self) -> &'static [u8]
        ensures { result.now ≡ mark_text self }
    {
        match self {
            Mark::LeftBracket => b"[",
            Mark::RightBracket => b"]",
            Mark::LeftParenthesis => b"(",
            Mark::RightParenthesis => b")",
            Mark::LeftBrace => b"{",
            Mark::RightBrace => b"}",
            Mark::Dot => b".",
            Mark::Arrow => b"->",
            Mark::PlusPlus => b"++",
            Mark::MinusMinus => b"--",
            Mark::Ampersand => b"&",
            Mark::Star => b"*",
            Mark::Plus => b"+",
            Mark::Minus => b"-",
            Mark::Tilde => b"~",
            Mark::Exclamation => b"!",
            Mark::Slash => b"/",
            Mark::Percent => b"%",
            Mark::ShiftLeft => b"<<",
            Mark::ShiftRight => b">>",
            Mark::Less => b"<",
            Mark::Greater => b">",
            Mark::LessEqual => b"<=",
            Mark::GreaterEqual => b">=",
            Mark::EqualEqual => b"==",
            Mark::NotEqual => b"!=",
            Mark::Caret => b"^",
            Mark::Bar => b"|",
            Mark::AndAnd => b"&&",
            Mark::OrOr => b"||",
            Mark::Question => b"?",
            Mark::Colon => b":",
            Mark::Semicolon => b";",
            Mark::Ellipsis => b"...",
            Mark::Equal => b"=",
            Mark::StarEqual => b"*=",
            Mark::SlashEqual => b"/=",
            Mark::PercentEqual => b"%=",
            Mark::PlusEqual => b"+=",
            Mark::MinusEqual => b"-=",
            Mark::ShiftLeftEqual => b"<<=",
            Mark::ShiftRightEqual => b">>=",
            Mark::AmpersandEqual => b"&=",
            Mark::CaretEqual => b"^=",
            Mark::BarEqual => b"|=",
            Mark::Comma => b",",
            Mark::Hash => b"#",
        }
    }
}

/// The mark that these bytes spell.
pub fn mark_of(text: &[u8]) -> Option<Mark>
    ensures { result ≡ mark_of text.now }
{
    MARKS.iter().copied().find(|mark| mark.text() == text)
}

/// Each mark is the one that its spelling spells.
pub fn each_mark_is_spelled()
    ensures { (mark : Mark) → mark_of (mark_text mark) ≡ Some mark }
{}
