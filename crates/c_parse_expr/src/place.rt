//! The expression at a place of a file.

ghost use Rattle.std.specs.Prelude.{Bool, ◌≡◌, ◌≤◌, ◌≢◌, ℕ, List, length, drop, IfOk, IfErr};
ghost use Rattle.c_token.specs.declared.token.Token.{Token};
ghost use Rattle.c_tree.specs.Tree.{Tree, Declared, view};
ghost use Rattle.c_tree.specs.Names.{Scope};
ghost use Rattle.c_parse_expr.specs.Standing.{Stands, DeclaredStands, number_of, line_at};

use crate::fault::{ExpressionError, Refused};
use crate::frames::Frame;
use crate::names::TypeNames;
use crate::reading::read;
use c_lexer::Tokens;
use c_token::Token;
use c_tree::Expr;
use std::alloc::Global;

/// The most levels that a tree has.
const LEVELS: u32 = 400;

/// The lowest level that an expression may have at its place.
#[derive(Clone, Copy, PartialEq, Eq)]
pub enum Level {
    Comma,
    Assignment,
    Conditional,
}

impl Level {
    fn number(self) -> u8
        ensures { result ≡ number_of self }
    {
        match self {
            Level::Comma => 1,
            Level::Assignment => 2,
            Level::Conditional => 3,
        }
    }
}

/// The line of the first token, or the file's last line where there is none.
pub fn line_of(tokens: &[Token], last_line: u32) -> u32
    ensures { result ≡ line_at last_line tokens.now }
{
    match tokens {
        [first, ..] => first.line,
        [] => last_line,
    }
}

/// The tree of the expression that begins with the token at a place, and the place behind it (C11 6.5). A tree has at most
/// 400 levels, and the token behind it can't go on with it. The names are those that are declared there. Memory may run out at
/// any moment.
pub fn expression(
    alloc: Global,
    tokens: &Tokens,
    at: usize,
    level: Level,
    names: &TypeNames,
) -> Result<(Box<Expr>, usize), ExpressionError>
    requires { at ≤ length tokens.now.tokens.items }
    ensures within { IfOk result (λ x. x.1 ≤ length tokens.now.tokens.items) }
    ensures found { IfOk result (λ x. Stands tokens.now.bytes.items names.now 400 (number_of level) (view x.0.value) (drop at tokens.now.tokens.items) (drop x.1 tokens.now.tokens.items)) }
    ensures none { IfErr result (λ e. e ≢ ExpressionError.Memory → (t : Tree) (rest : List Token) → Stands tokens.now.bytes.items names.now 400 (number_of level) t (drop at tokens.now.tokens.items) rest → ⊥) }
    ensures line { IfErr result (λ e. e ≢ ExpressionError.Memory → e ≡ ExpressionError.Syntax (line_at tokens.now.last_line (drop at tokens.now.tokens.items))) }
{
    let (_, behind) = tokens.tokens.split_at(at);
    let frame = Frame {
        alloc,
        bytes: &tokens.bytes,
        levels: LEVELS,
    };
    match read(frame, names, behind, level.number()) {
        Ok(found) => Ok((found.tree, tokens.tokens.len() - found.rest.len())),
        Err(Refused::Syntax) => Err(ExpressionError::Syntax {
            line: line_of(behind, tokens.last_line),
        }),
        Err(Refused::Memory) => Err(ExpressionError::Memory),
    }
}

/// At most one tree stands at the front of tokens, before one rest.
pub fn one_expression()
    ensures { (bytes : List ℕ) (names : Scope) (levels k : ℕ) (t u : Tree) (tokens rest others : List Token) → Stands bytes names levels k t tokens rest → Stands bytes names levels k u tokens others → (t ≡ u) × (rest ≡ others) }
{}

/// At most one declarator stands at the front of tokens, before one rest.
pub fn one_declarator()
    ensures { (bytes : List ℕ) (names : Scope) (levels : ℕ) (with_name : Bool) (d e : Declared) (tokens rest others : List Token) → DeclaredStands bytes names levels with_name d tokens rest → DeclaredStands bytes names levels with_name e tokens others → (d ≡ e) × (rest ≡ others) }
{}
