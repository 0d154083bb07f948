//! Cutting a file into tokens.

ghost use Rattle.std.specs.Prelude.{◌≡◌, ◌<◌, ◌≤◌, ◌+◌, ◌≢◌, ℕ, List, drop, length, Ok, Err, Result, IfOk, IfErr, OnOk, ◌++◌, ◌==◌};
ghost use Rattle.std.specs.Option.{option_to_list};
ghost use Rattle.c_lexer.specs.Forms.{begins};
ghost use Rattle.c_lexer.specs.Cutting.{bytes_of, lines_of, last_line_of, Cuts, start, IsCutInto, Gives, error_of};
ghost use Rattle.c_lexer.specs.Kinds.{AllSpelled};
ghost use Rattle.c_token.specs.declared.token.Token.{Token};

use crate::fault::{Fault, LexError};
use crate::piece::piece_at;
use crate::position::{Position, behind, token_of};
use crate::tokens::Tokens;
use c_token::Token;
use std::alloc::{AllocError, Global};

/// A file without its splices: its bytes, and the line of each.
#[derive(Drop)]
struct Text {
    bytes: Vec<u8>,
    lines: Vec<u32>,
}

fn begins_with_newline(file: &[u8], at: usize) -> bool
    ensures { result ≡ begins (λ c. c == 10) (drop at file.now) }
{
    at < file.len() && file[at] == b'\n'
}

fn unsplice(alloc: Global, file: &[u8]) -> Result<Text, LexError>
    requires { length file.now < 4294967295 }
    ensures bytes { IfOk result (λ text. text.bytes.items ≡ bytes_of file.now) }
    ensures lines { IfOk result (λ text. text.lines.items ≡ lines_of file.now) }
    ensures memory { IfErr result (λ e. e ≡ LexError.Memory) }
{
    let mut bytes = Vec::new(alloc);
    let mut lines = Vec::new(alloc);
    let mut skip = false;
    let mut line = 1;
    for (i, byte) in file.iter().enumerate() {
        let is_splice = !skip && *byte == b'\\' && begins_with_newline(file, i + 1);
        if !skip && !is_splice {
            bytes.push(*byte)?;
            lines.push(line)?;
        }
        let ends_line = *byte == b'\n';
        skip = is_splice;
        if ends_line {
            line += 1;
        }
    }
    Ok(Text { bytes, lines })
}

fn last_line(file: &[u8]) -> u32
    requires { length file.now < 4294967295 }
    ensures { result ≡ last_line_of file.now }
{
    let mut line = 1;
    for byte in file {
        if *byte == b'\n' {
            line += 1;
        }
    }
    line
}

fn error_of(fault: Fault, line: u32) -> LexError
    ensures { result ≡ error_of fault line }
{
    match fault {
        Fault::BadByte => LexError::BadByte { line },
        Fault::Unclosed => LexError::Unclosed { line },
        Fault::BadConstant => LexError::BadConstant { line },
        Fault::Foreign => LexError::Foreign { line },
    }
}

fn push_token(tokens: &mut Vec<Token>, token: Option<Token>) -> Result<(), AllocError>
    ensures { OnOk result (tokens.new.items ≡ tokens.old.items ++ option_to_list token) }
{
    if let Some(token) = token {
        tokens.push(token)?;
    }
    Ok(())
}

fn cut(alloc: Global, bytes: &[u8], lines: &[u32]) -> Result<Vec<Token>, LexError>
    requires lines { length lines.now ≡ length bytes.now }
    requires small { length bytes.now < 4294967295 }
    ensures cut { IfOk result (λ tokens. Cuts bytes.now lines.now start (Ok tokens.items)) }
    ensures spelled { IfOk result (λ tokens. AllSpelled bytes.now tokens.items) }
    ensures fault { IfErr result (λ e. e ≢ LexError.Memory → Cuts bytes.now lines.now start (Err e)) }
{
    let mut tokens = Vec::new(alloc);
    let mut position = Position {
        at: 0,
        first: true,
        behind_prefix: false,
    };
    while position.at < bytes.len() {
        let (_, rest) = bytes.split_at(position.at);
        let piece = match piece_at(rest, position.behind_prefix) {
            Ok(piece) => piece,
            Err(fault) => return Err(error_of(fault, lines[position.at])),
        };
        push_token(&mut tokens, token_of(lines, position, piece))?;
        position = behind(bytes, position, piece);
    }
    Ok(tokens)
}

/// Cuts a file into its tokens (C11 5.1.1.2, 6.4). The first position that has no token decides the error; memory may run
/// out at any moment.
pub fn lex(alloc: Global, file: &[u8]) -> Result<Tokens, LexError>
    requires { length file.now < 4294967295 }
    ensures tokens { IfOk result (λ t. IsCutInto file.now (Ok t.tokens.items)) }
    ensures bytes { IfOk result (λ t. t.bytes.items ≡ bytes_of file.now) }
    ensures last_line { IfOk result (λ t. t.last_line ≡ last_line_of file.now) }
    ensures fault { IfErr result (λ e. e ≢ LexError.Memory → IsCutInto file.now (Err e)) }
    ensures exact { (found : Result (List Token) LexError) → IsCutInto file.now found → Gives result found }
{
    let text = unsplice(alloc, file)?;
    let tokens = cut(alloc, &text.bytes, &text.lines)?;
    let last_line = last_line(file);
    Ok(Tokens {
        tokens,
        last_line,
        bytes: text.bytes,
    })
}

/// A file has at most one cutting.
pub fn one_cutting()
    ensures { (file : List ℕ) (a b : Result (List Token) LexError) → IsCutInto file a → IsCutInto file b → a ≡ b }
{}
