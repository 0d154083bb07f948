//! Expanding a file's tokens.

ghost use Rattle.std.specs.Prelude.{◌≡◌, ◌≢◌, ◌++◌, ℕ, List, Result, Option, Some, None, Ok, Err, IfOk, IfErr, IfSome, map, length};
ghost use Rattle.c_token.specs.declared.token.Token.{Token};
ghost use Rattle.c_lexer.specs.Cutting.{IsCutInto};
ghost use Rattle.c_lexer.specs.Kinds.{AllSpelled};
ghost use Rattle.c_pre.specs.declared.error.PreError.{PreError};
ghost use Rattle.c_pre.specs.declared.error.PreError.TheVariants.{Memory};
ghost use Rattle.c_pre.specs.Headers.{text, moved};
ghost use Rattle.c_pre.specs.Calls.{IsExpansion, Gives};

use crate::carrying::carried;
use crate::error::PreError;
use crate::header::text;
use c_lexer::{Tokens, lex};
use c_token::Token;
use std::alloc::Global;

/// A token that lies further behind in the bytes, unless that is too far.
fn moved(by: u32, token: Token) -> Option<Token>
    ensures { IfSome result (λ t. t ≡ moved by token) }
{
    let start = by.checked_add(token.start)?;
    Some(Token {
        kind: token.kind,
        line: token.line,
        first: token.first,
        start,
        length: token.length,
    })
}

/// The tokens that lie further behind in the bytes.
fn all_moved(alloc: Global, by: u32, tokens: &[Token]) -> Result<Vec<Token>, PreError>
    ensures tokens { IfOk result (λ v. v.items ≡ map (moved by) tokens.now) }
    ensures memory { IfErr result (λ e. e ≡ Memory) }
{
    let mut all = Vec::new(alloc);
    for token in tokens {
        match moved(by, *token) {
            Some(token) => all.push(token)?,
            None => return Err(PreError::Memory),
        }
    }
    Ok(all)
}

/// The tokens of the headers' text.
fn own_tokens(alloc: Global) -> Result<Tokens, PreError>
    ensures cut { IfOk result (λ t. IsCutInto text (Ok t.tokens.items)) }
    ensures bytes { IfOk result (λ t. t.bytes.items ≡ text) }
    ensures memory { IfErr result (λ e. e ≡ Memory) }
{
    match lex(alloc, text()) {
        Ok(own) => Ok(own),
        Err(_) => Err(PreError::Memory),
    }
}

/// A length as a place, unless it is too long.
fn place_of(size: usize) -> Result<u32, PreError>
    ensures place { IfOk result (λ by. by ≡ size) }
    ensures memory { IfErr result (λ e. e ≡ Memory) }
{
    if size <= 4_294_967_295 {
        Ok(size as u32)
    } else {
        Err(PreError::Memory)
    }
}

/// Carries out the directives of a file, and replaces its macros, as C11 6.10 says: `#define` of names without parameters,
/// `#undef`, `#ifdef`, `#ifndef`, `#else`, `#endif`, and `#include` of the listed headers, which define their macros. The text
/// of these stands behind the file's bytes. The first line that has an error decides it; memory may run out at any moment,
/// and a file of more than 2 ^ 32 - 1 bytes with that text finds none.
pub fn expand(alloc: Global, file: Tokens) -> Result<Tokens, PreError>
    ensures bytes { IfOk result (λ t. t.bytes.items ≡ file.bytes.items ++ text) }
    ensures last_line { IfOk result (λ t. t.last_line ≡ file.last_line) }
    ensures expanded { IfOk result (λ t. IsExpansion file.bytes.items file.tokens.items (Ok t.tokens.items)) }
    ensures fault { IfErr result (λ e. e ≢ Memory → IsExpansion file.bytes.items file.tokens.items (Err e)) }
    ensures exact { (found : Result (List Token) PreError) → IsExpansion file.bytes.items file.tokens.items found → Gives result found }
{
    let Tokens {
        tokens,
        last_line,
        mut bytes,
        ..
    } = file;
    let by = place_of(bytes.len())?;
    let own = own_tokens(alloc)?;
    let rows = all_moved(alloc, by, &own.tokens)?;
    bytes.extend_from_slice(text())?;
    let tokens = carried(alloc, &bytes, &rows, &tokens)?;
    Ok(Tokens {
        tokens,
        last_line,
        bytes,
    })
}

/// A file's tokens are expanded in at most one way.
pub fn one_expansion()
    ensures { (bytes : List ℕ) (tokens : List Token) (a b : Result (List Token) PreError) → IsExpansion bytes tokens a → IsExpansion bytes tokens b → a ≡ b }
{}

/// Each file's tokens are expanded into tokens or an error, if the headers' text is cut into tokens.
pub fn an_expansion()
    ensures { (bytes : List ℕ) (tokens own : List Token) → IsCutInto text (Ok own) → (found : Result (List Token) PreError) × IsExpansion bytes tokens found }
{}
