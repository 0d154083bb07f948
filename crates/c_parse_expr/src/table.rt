//! What a token begins where an operand is due, and what it does behind one.

ghost use Rattle.std.specs.Prelude.{◌≡◌};
ghost use Rattle.c_tree.specs.Tables.{strength_of, operand_level};
ghost use Rattle.c_parse_expr.specs.Tables.{lead_of_keyword, lead_of_mark, lead_of, suffix_of_mark, suffix_of, strength_behind, least_left, keyword_start};

use c_token::{Constant, Keyword, Kind, Mark};
use c_tree::{BinaryOp, Qualifier, StepOp, TagKind, TypeWord, UnaryOp};

/// What a token begins where an operand is due.
#[derive(Clone, Copy, PartialEq, Eq)]
pub enum Lead {
    Name,
    Constant(Constant),
    /// A character constant, with the bits of its value of type int.
    Character(u32),
    Strings,
    /// An expression in parentheses, or a cast.
    Group,
    Unary(UnaryOp),
    Sizeof,
}

/// What a token does behind an operand.
#[derive(Clone, Copy, PartialEq, Eq)]
pub enum Suffix {
    Operator(BinaryOp),
    /// An assignment, with the operator before the `=`.
    Becomes(Option<BinaryOp>),
    /// The `?` of a choice.
    Choice,
    /// A comma.
    Then,
    Step(StepOp),
    /// The parenthesis before a call's arguments.
    Arguments,
    /// The point before a member's name.
    Member,
    /// A further string literal. String literals in a row are read at once, so it goes on with nothing that was read.
    Another,
}

/// What begins a specifier of a type.
#[derive(Clone, Copy, PartialEq, Eq)]
pub enum TypeStart {
    Qualifier(Qualifier),
    Word(TypeWord),
    Tag(TagKind),
    /// The name of a typedef.
    Name,
}

/// What a keyword begins.
fn lead_of_keyword(keyword: Keyword) -> Option<Lead>
    ensures { result ≡ lead_of_keyword keyword }
{
    match keyword {
        Keyword::Auto => None,
        Keyword::Break => None,
        Keyword::Case => None,
        Keyword::Char => None,
        Keyword::Const => None,
        Keyword::Continue => None,
        Keyword::Default => None,
        Keyword::Do => None,
        Keyword::Else => None,
        Keyword::Enum => None,
        Keyword::Extern => None,
        Keyword::For => None,
        Keyword::Goto => None,
        Keyword::If => None,
        Keyword::Inline => None,
        Keyword::Int => None,
        Keyword::Long => None,
        Keyword::Register => None,
        Keyword::Restrict => None,
        Keyword::Return => None,
        Keyword::Short => None,
        Keyword::Signed => None,
        Keyword::Sizeof => Some(Lead::Sizeof),
        Keyword::Static => None,
        Keyword::Struct => None,
        Keyword::Switch => None,
        Keyword::Typedef => None,
        Keyword::Union => None,
        Keyword::Unsigned => None,
        Keyword::Void => None,
        Keyword::Volatile => None,
        Keyword::While => None,
        Keyword::Bool => None,
        Keyword::Noreturn => None,
    }
}

/// The specifier of a type that a keyword begins.
pub fn keyword_start(keyword: Keyword) -> Option<TypeStart>
    ensures { result ≡ keyword_start keyword }
{
    match keyword {
        Keyword::Auto => None,
        Keyword::Break => None,
        Keyword::Case => None,
        Keyword::Char => Some(TypeStart::Word(TypeWord::Char)),
        Keyword::Const => Some(TypeStart::Qualifier(Qualifier::Const)),
        Keyword::Continue => None,
        Keyword::Default => None,
        Keyword::Do => None,
        Keyword::Else => None,
        Keyword::Enum => Some(TypeStart::Tag(TagKind::Enum)),
        Keyword::Extern => None,
        Keyword::For => None,
        Keyword::Goto => None,
        Keyword::If => None,
        Keyword::Inline => None,
        Keyword::Int => Some(TypeStart::Word(TypeWord::Int)),
        Keyword::Long => Some(TypeStart::Word(TypeWord::Long)),
        Keyword::Register => None,
        Keyword::Restrict => Some(TypeStart::Qualifier(Qualifier::Restrict)),
        Keyword::Return => None,
        Keyword::Short => Some(TypeStart::Word(TypeWord::Short)),
        Keyword::Signed => Some(TypeStart::Word(TypeWord::Signed)),
        Keyword::Sizeof => None,
        Keyword::Static => None,
        Keyword::Struct => Some(TypeStart::Tag(TagKind::Struct)),
        Keyword::Switch => None,
        Keyword::Typedef => None,
        Keyword::Union => Some(TypeStart::Tag(TagKind::Union)),
        Keyword::Unsigned => Some(TypeStart::Word(TypeWord::Unsigned)),
        Keyword::Void => Some(TypeStart::Word(TypeWord::Void)),
        Keyword::Volatile => Some(TypeStart::Qualifier(Qualifier::Volatile)),
        Keyword::While => None,
        Keyword::Bool => Some(TypeStart::Word(TypeWord::Bool)),
        Keyword::Noreturn => None,
    }
}

/// What a mark begins.
fn lead_of_mark(mark: Mark) -> Option<Lead>
    ensures { result ≡ lead_of_mark mark }
{
    match mark {
        Mark::LeftBracket => None,
        Mark::RightBracket => None,
        Mark::LeftParenthesis => Some(Lead::Group),
        Mark::RightParenthesis => None,
        Mark::LeftBrace => None,
        Mark::RightBrace => None,
        Mark::Dot => None,
        Mark::Arrow => None,
        Mark::PlusPlus => Some(Lead::Unary(UnaryOp::Increment)),
        Mark::MinusMinus => Some(Lead::Unary(UnaryOp::Decrement)),
        Mark::Ampersand => None,
        Mark::Star => None,
        Mark::Plus => Some(Lead::Unary(UnaryOp::Plus)),
        Mark::Minus => Some(Lead::Unary(UnaryOp::Minus)),
        Mark::Tilde => Some(Lead::Unary(UnaryOp::Complement)),
        Mark::Exclamation => Some(Lead::Unary(UnaryOp::Not)),
        Mark::Slash => None,
        Mark::Percent => None,
        Mark::ShiftLeft => None,
        Mark::ShiftRight => None,
        Mark::Less => None,
        Mark::Greater => None,
        Mark::LessEqual => None,
        Mark::GreaterEqual => None,
        Mark::EqualEqual => None,
        Mark::NotEqual => None,
        Mark::Caret => None,
        Mark::Bar => None,
        Mark::AndAnd => None,
        Mark::OrOr => None,
        Mark::Question => None,
        Mark::Colon => None,
        Mark::Semicolon => None,
        Mark::Ellipsis => None,
        Mark::Equal => None,
        Mark::StarEqual => None,
        Mark::SlashEqual => None,
        Mark::PercentEqual => None,
        Mark::PlusEqual => None,
        Mark::MinusEqual => None,
        Mark::ShiftLeftEqual => None,
        Mark::ShiftRightEqual => None,
        Mark::AmpersandEqual => None,
        Mark::CaretEqual => None,
        Mark::BarEqual => None,
        Mark::Comma => None,
        Mark::Hash => None,
    }
}

/// What a token of a kind begins.
pub fn lead_of(kind: Kind) -> Option<Lead>
    ensures { result ≡ lead_of kind }
{
    match kind {
        Kind::Identifier => Some(Lead::Name),
        Kind::Keyword(keyword) => lead_of_keyword(keyword),
        Kind::Constant(constant) => Some(Lead::Constant(constant)),
        Kind::Character(value) => Some(Lead::Character(value)),
        Kind::String => Some(Lead::Strings),
        Kind::Mark(mark) => lead_of_mark(mark),
    }
}

/// What a mark does behind an operand.
fn suffix_of_mark(mark: Mark) -> Option<Suffix>
    ensures { result ≡ suffix_of_mark mark }
{
    match mark {
        Mark::LeftBracket => None,
        Mark::RightBracket => None,
        Mark::LeftParenthesis => Some(Suffix::Arguments),
        Mark::RightParenthesis => None,
        Mark::LeftBrace => None,
        Mark::RightBrace => None,
        Mark::Dot => Some(Suffix::Member),
        Mark::Arrow => None,
        Mark::PlusPlus => Some(Suffix::Step(StepOp::Increment)),
        Mark::MinusMinus => Some(Suffix::Step(StepOp::Decrement)),
        Mark::Ampersand => Some(Suffix::Operator(BinaryOp::And)),
        Mark::Star => Some(Suffix::Operator(BinaryOp::Multiply)),
        Mark::Plus => Some(Suffix::Operator(BinaryOp::Add)),
        Mark::Minus => Some(Suffix::Operator(BinaryOp::Subtract)),
        Mark::Tilde => None,
        Mark::Exclamation => None,
        Mark::Slash => Some(Suffix::Operator(BinaryOp::Divide)),
        Mark::Percent => Some(Suffix::Operator(BinaryOp::Remainder)),
        Mark::ShiftLeft => Some(Suffix::Operator(BinaryOp::ShiftLeft)),
        Mark::ShiftRight => Some(Suffix::Operator(BinaryOp::ShiftRight)),
        Mark::Less => Some(Suffix::Operator(BinaryOp::Less)),
        Mark::Greater => Some(Suffix::Operator(BinaryOp::Greater)),
        Mark::LessEqual => Some(Suffix::Operator(BinaryOp::LessEqual)),
        Mark::GreaterEqual => Some(Suffix::Operator(BinaryOp::GreaterEqual)),
        Mark::EqualEqual => Some(Suffix::Operator(BinaryOp::Equal)),
        Mark::NotEqual => Some(Suffix::Operator(BinaryOp::NotEqual)),
        Mark::Caret => Some(Suffix::Operator(BinaryOp::Xor)),
        Mark::Bar => Some(Suffix::Operator(BinaryOp::Or)),
        Mark::AndAnd => Some(Suffix::Operator(BinaryOp::LogicalAnd)),
        Mark::OrOr => Some(Suffix::Operator(BinaryOp::LogicalOr)),
        Mark::Question => Some(Suffix::Choice),
        Mark::Colon => None,
        Mark::Semicolon => None,
        Mark::Ellipsis => None,
        Mark::Equal => Some(Suffix::Becomes(None)),
        Mark::StarEqual => Some(Suffix::Becomes(Some(BinaryOp::Multiply))),
        Mark::SlashEqual => Some(Suffix::Becomes(Some(BinaryOp::Divide))),
        Mark::PercentEqual => Some(Suffix::Becomes(Some(BinaryOp::Remainder))),
        Mark::PlusEqual => Some(Suffix::Becomes(Some(BinaryOp::Add))),
        Mark::MinusEqual => Some(Suffix::Becomes(Some(BinaryOp::Subtract))),
        Mark::ShiftLeftEqual => Some(Suffix::Becomes(Some(BinaryOp::ShiftLeft))),
        Mark::ShiftRightEqual => Some(Suffix::Becomes(Some(BinaryOp::ShiftRight))),
        Mark::AmpersandEqual => Some(Suffix::Becomes(Some(BinaryOp::And))),
        Mark::CaretEqual => Some(Suffix::Becomes(Some(BinaryOp::Xor))),
        Mark::BarEqual => Some(Suffix::Becomes(Some(BinaryOp::Or))),
        Mark::Comma => Some(Suffix::Then),
        Mark::Hash => None,
    }
}

/// What a token of a kind does behind an operand.
pub fn suffix_of(kind: Kind) -> Option<Suffix>
    ensures { result ≡ suffix_of kind }
{
    match kind {
        Kind::Identifier => None,
        Kind::Keyword(_) => None,
        Kind::Constant(_) => None,
        Kind::Character(_) => None,
        Kind::String => Some(Suffix::Another),
        Kind::Mark(mark) => suffix_of_mark(mark),
    }
}

/// The level of a binary operator's node, 4 to 13.
pub fn strength_of(operator: BinaryOp) -> u8
    ensures { result ≡ strength_of operator }
{
    match operator {
        BinaryOp::LogicalOr => 4,
        BinaryOp::LogicalAnd => 5,
        BinaryOp::Or => 6,
        BinaryOp::Xor => 7,
        BinaryOp::And => 8,
        BinaryOp::Equal => 9,
        BinaryOp::NotEqual => 9,
        BinaryOp::Less => 10,
        BinaryOp::Greater => 10,
        BinaryOp::LessEqual => 10,
        BinaryOp::GreaterEqual => 10,
        BinaryOp::ShiftLeft => 11,
        BinaryOp::ShiftRight => 11,
        BinaryOp::Add => 12,
        BinaryOp::Subtract => 12,
        BinaryOp::Multiply => 13,
        BinaryOp::Divide => 13,
        BinaryOp::Remainder => 13,
    }
}

/// The lowest level of a unary operator's operand.
pub fn operand_level(operator: UnaryOp) -> u8
    ensures { result ≡ operand_level operator }
{
    match operator {
        UnaryOp::Increment => 15,
        UnaryOp::Decrement => 15,
        UnaryOp::Plus => 14,
        UnaryOp::Minus => 14,
        UnaryOp::Complement => 14,
        UnaryOp::Not => 14,
    }
}

/// The level of the node that it makes.
pub fn strength_behind(suffix: Suffix) -> u8
    ensures { result ≡ strength_behind suffix }
{
    match suffix {
        Suffix::Operator(operator) => strength_of(operator),
        Suffix::Becomes(_) => 2,
        Suffix::Choice => 3,
        Suffix::Then => 1,
        Suffix::Step(_) => 16,
        Suffix::Arguments => 16,
        Suffix::Member => 16,
        Suffix::Another => 17,
    }
}

/// The lowest level of what may stand before it; nothing has the level 19.
pub fn least_left(suffix: Suffix) -> u8
    ensures { result ≡ least_left suffix }
{
    match suffix {
        Suffix::Operator(operator) => strength_of(operator),
        Suffix::Becomes(_) => 15,
        Suffix::Choice => 4,
        Suffix::Then => 1,
        Suffix::Step(_) => 16,
        Suffix::Arguments => 16,
        Suffix::Member => 16,
        Suffix::Another => 19,
    }
}
