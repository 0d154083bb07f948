//! Where the cutting is in a text.

ghost use Rattle.std.specs.Prelude.{◌≡◌, ◌^◌, ◌<◌, ◌≤◌, ◌+◌, length, drop};
ghost use Rattle.std.specs.Option.{option_to_list};
ghost use Rattle.c_lexer.specs.Positions.{size_of};
ghost use Rattle.c_lexer.specs.Cutting.{behind, tokens_of};

use crate::kind::is_prefix;
use crate::piece::Piece;
use c_token::Token;

/// A position between two pieces.
#[derive(Clone, Copy)]
pub struct Position {
    /// How many bytes stand before it.
    pub at: usize,
    /// Whether no token stands before it on its line; a newline within a comment ends no line.
    pub first: bool,
    /// Whether a word that makes a literal one of another type stands directly before it.
    pub behind_prefix: bool,
}

/// The position behind a piece.
pub fn behind(bytes: &[u8], position: Position, piece: Piece) -> Position
    requires { position.at + size_of piece ≤ length bytes.now }
    ensures { result ≡ behind bytes.now position piece }
{
    let (size, first, behind_prefix) = match piece {
        Piece::Newline => (1, true, false),
        Piece::Space => (1, position.first, false),
        Piece::Comment(size) => (size, position.first, false),
        Piece::Token(_, size) => {
            let (_, rest) = bytes.split_at(position.at);
            let (text, _) = rest.split_at(size);
            (size, false, is_prefix(text))
        }
    };
    Position {
        at: position.at + size,
        first,
        behind_prefix,
    }
}

/// The token of a piece, if it is one.
pub fn token_of(lines: &[u32], position: Position, piece: Piece) -> Option<Token>
    requires at { position.at < length lines.now }
    requires small { position.at + size_of piece < 2 ^ 32 }
    ensures { option_to_list result ≡ tokens_of lines.now position piece }
{
    match piece {
        Piece::Newline => None,
        Piece::Space => None,
        Piece::Comment(_) => None,
        Piece::Token(kind, length) => Some(Token {
            kind,
            line: lines[position.at],
            first: position.first,
            start: position.at as u32,
            length: length as u32,
        }),
    }
}
