//! What stands at a position of a text: a space, a comment, or the longest token.

ghost use Rattle.std.specs.Prelude.{◌≡◌, ◌<◌, ◌≤◌, ◌&&◌, true, false, nat_le, slice_index, length, take, IfOk, MatchOption};
ghost use Rattle.c_lexer.specs.Bytes.{class_of, is_letter, is_quote};
ghost use Rattle.c_lexer.specs.Forms.{begins, begins_number, in_number, is_token, is_line_comment, is_block_comment, is_mark, IsLongest, IsShortest, NonePasses};
ghost use Rattle.c_lexer.specs.Positions.{start_of, LineCommentStands, BlockCommentStands, TokenStands, Stands, size_of};

use crate::class::{Class, class_of, is_word_byte};
use crate::fault::Fault;
use crate::kind::{begins_number, kind_of};
use crate::literal::literal_end;
use c_token::{Kind, mark_of};

/// What begins at the front of a text.
#[derive(Clone, Copy)]
pub enum Start {
    End,
    LineComment,
    BlockComment,
    Newline,
    Space,
    Token,
}

/// What stands at a position: one byte of space, or a comment or a token with the number of its bytes.
#[derive(Clone, Copy)]
pub enum Piece {
    Newline,
    Space,
    Comment(usize),
    Token(Kind, usize),
}

#[tactic(auto, unfolding(crate::specs::Positions::start_of))]
fn start_of(text: &[u8]) -> Start
    ensures { result ≡ start_of text.now }
{
    if text.is_empty() {
        Start::End
    } else if text[0] == b'/' && text.len() > 1 && text[1] == b'/' {
        Start::LineComment
    } else if text[0] == b'/' && text.len() > 1 && text[1] == b'*' {
        Start::BlockComment
    } else if text[0] == b'\n' {
        Start::Newline
    } else if class_of(text[0]) == Class::Space {
        Start::Space
    } else {
        Start::Token
    }
}

fn line_comment_end(text: &[u8]) -> usize
    requires { start_of text.now ≡ Start.LineComment }
    ensures { IsLongest is_line_comment text.now result }
{
    let mut end = 2;
    while end < text.len() && text[end] != b'\n' {
        end += 1;
    }
    end
}

fn block_comment_end(text: &[u8]) -> Option<usize>
    requires { start_of text.now ≡ Start.BlockComment }
    ensures { MatchOption result (NonePasses is_block_comment text.now) (λ n. IsShortest is_block_comment text.now n) }
{
    let mut at = 2;
    while at + 1 < text.len() {
        if text[at] == b'*' && text[at + 1] == b'/' {
            return Some(at + 2);
        }
        at += 1;
    }
    None
}

fn word_end(text: &[u8]) -> usize
    requires { begins is_letter text.now ≡ true }
    ensures { IsLongest is_token text.now result }
{
    let mut end = 1;
    while end < text.len() && is_word_byte(text[end]) {
        end += 1;
    }
    end
}

/// Whether a byte may follow another within a number.
fn in_number(before: u8, byte: u8) -> bool
    ensures { result ≡ in_number before byte }
{
    let sign = byte == b'+' || byte == b'-';
    let exponent = before == b'e' || before == b'E' || before == b'p' || before == b'P';
    is_word_byte(byte) || byte == b'.' || (sign && exponent)
}

fn number_end(text: &[u8]) -> usize
    requires { begins_number text.now ≡ true }
    ensures { IsLongest is_token text.now result }
{
    let mut end = if text[0] == b'.' { 2 } else { 1 };
    while end < text.len() && in_number(text[end - 1], text[end]) {
        end += 1;
    }
    end
}

/// Whether the first `size` bytes are a mark.
fn is_mark_of(text: &[u8], size: usize) -> bool
    ensures { result ≡ (nat_le size (length text.now) && is_mark (take size text.now)) }
{
    size <= text.len() && mark_of(text.split_at(size).0).is_some()
}

fn mark_end(text: &[u8]) -> Option<usize>
    requires class { class_of (slice_index text.now 0) ≡ Class.Other }
    requires no_number { begins_number text.now ≡ false }
    ensures { MatchOption result (NonePasses is_token text.now) (λ n. IsLongest is_token text.now n) }
{
    if is_mark_of(text, 3) {
        Some(3)
    } else if is_mark_of(text, 2) {
        Some(2)
    } else if is_mark_of(text, 1) {
        Some(1)
    } else {
        None
    }
}

/// Where the longest token at the front ends.
fn token_end(text: &[u8]) -> Option<usize>
    requires { start_of text.now ≡ Start.Token }
    ensures { MatchOption result (NonePasses is_token text.now) (λ n. IsLongest is_token text.now n) }
{
    match class_of(text[0]) {
        Class::Letter => Some(word_end(text)),
        Class::Digit => Some(number_end(text)),
        Class::Quote => literal_end(text),
        Class::Space => None,
        Class::Other => {
            if begins_number(text) {
                Some(number_end(text))
            } else {
                mark_end(text)
            }
        }
    }
}

fn begins_with_quote(text: &[u8]) -> bool
    ensures { result ≡ begins is_quote text.now }
{
    !text.is_empty() && class_of(text[0]) == Class::Quote
}

/// The longest token at the front, directly behind a prefix of literals or not, or what is wrong there.
fn token_at(text: &[u8], behind_prefix: bool) -> Result<Piece, Fault>
    requires { start_of text.now ≡ Start.Token }
    ensures { TokenStands behind_prefix text.now result }
{
    let is_quote = begins_with_quote(text);
    match token_end(text) {
        Some(end) => {
            let kind = kind_of(text.split_at(end).0)?;
            if behind_prefix && is_quote {
                Err(Fault::Foreign)
            } else {
                Ok(Piece::Token(kind, end))
            }
        }
        None => {
            if is_quote {
                Err(Fault::Unclosed)
            } else {
                Err(Fault::BadByte)
            }
        }
    }
}

/// What stands at the front of a text that isn't empty, directly behind a prefix of literals or not.
pub fn piece_at(text: &[u8], behind_prefix: bool) -> Result<Piece, Fault>
    requires { 0 < length text.now }
    ensures stands { Stands behind_prefix text.now result }
    ensures within { IfOk result (λ piece. (0 < size_of piece) × (size_of piece ≤ length text.now)) }
{
    match start_of(text) {
        Start::End => Err(Fault::BadByte),
        Start::LineComment => Ok(Piece::Comment(line_comment_end(text))),
        Start::BlockComment => match block_comment_end(text) {
            Some(end) => Ok(Piece::Comment(end)),
            None => Err(Fault::Unclosed),
        },
        Start::Newline => Ok(Piece::Newline),
        Start::Space => Ok(Piece::Space),
        Start::Token => token_at(text, behind_prefix),
    }
}
