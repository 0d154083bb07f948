//! Reading a file.

ghost use Rattle.std.specs.Prelude.{◌≡◌, ◌∷◌, true, codes, ◌≢◌, ◌<◌, ◌++◌, [], ℕ, List, length, IfOk, IfErr};
ghost use Rattle.c_token.specs.declared.token.Token.{Token};
ghost use Rattle.c_tree.specs.Names.{Scope, built_in_names};
ghost use Rattle.c_tree.specs.Statements.{Externals, externals_of, view_file};
ghost use Rattle.c_tree.specs.Files.{IsFile};
ghost use Rattle.c_parse_expr.specs.Standing.{line_at};
ghost use Rattle.c_parse_statements.specs.Standing.{Outer, outer_of, with_outer, IsExternal, Stands, NoneStands, EndsAt};

use crate::fault::ParseError;
use c_lexer::Tokens;
use c_parse_expr::{Refused, TypeNames, line_of};
use c_parse_statements::external;
use c_token::Token;
use c_tree::{External, File};
use std::alloc::{AllocError, Global};

/// Declares a mutex and the unsigned types of a size, which are declared around each file.
fn declare_unsigned(alloc: Global, names: &mut TypeNames) -> Result<(), AllocError>
    ensures { IfOk result (λ _. names.new ≡ (codes "uint8_t", true) ∷ (codes "uint16_t", true) ∷ (codes "uint32_t", true) ∷ (codes "uint64_t", true) ∷ (codes "pthread_mutex_t", true) ∷ names.old) }
{
    names.declare(alloc, b"pthread_mutex_t".as_slice(), true)?;
    names.declare(alloc, b"uint64_t".as_slice(), true)?;
    names.declare(alloc, b"uint32_t".as_slice(), true)?;
    names.declare(alloc, b"uint16_t".as_slice(), true)?;
    names.declare(alloc, b"uint8_t".as_slice(), true)?;
    Ok(())
}

/// Declares the signed types of a size, which are declared around each file.
fn declare_signed(alloc: Global, names: &mut TypeNames) -> Result<(), AllocError>
    ensures { IfOk result (λ _. names.new ≡ (codes "int8_t", true) ∷ (codes "int16_t", true) ∷ (codes "int32_t", true) ∷ (codes "int64_t", true) ∷ names.old) }
{
    names.declare(alloc, b"int64_t".as_slice(), true)?;
    names.declare(alloc, b"int32_t".as_slice(), true)?;
    names.declare(alloc, b"int16_t".as_slice(), true)?;
    names.declare(alloc, b"int8_t".as_slice(), true)?;
    Ok(())
}

/// Declares the other types that are declared around each file.
fn declare_others(alloc: Global, names: &mut TypeNames) -> Result<(), AllocError>
    ensures { IfOk result (λ _. names.new ≡ (codes "size_t", true) ∷ (codes "uintptr_t", true) ∷ (codes "pthread_t", true) ∷ (codes "ptrdiff_t", true) ∷ (codes "intptr_t", true) ∷ names.old) }
{
    names.declare(alloc, b"intptr_t".as_slice(), true)?;
    names.declare(alloc, b"ptrdiff_t".as_slice(), true)?;
    names.declare(alloc, b"pthread_t".as_slice(), true)?;
    names.declare(alloc, b"uintptr_t".as_slice(), true)?;
    names.declare(alloc, b"size_t".as_slice(), true)?;
    Ok(())
}

/// The names that are declared around each file.
fn built_in(alloc: Global) -> Result<TypeNames, AllocError>
    ensures { IfOk result (λ names. names ≡ built_in_names) }
{
    let mut names = TypeNames::new(alloc);
    declare_unsigned(alloc, &mut names)?;
    declare_signed(alloc, &mut names)?;
    declare_others(alloc, &mut names)?;
    Ok(names)
}

/// The external declaration at the front of the tokens, and those behind it.
fn next_external<'a>(
    alloc: Global,
    bytes: &[u8],
    names: &mut TypeNames,
    tokens: &'a [Token],
    last_line: u32,
) -> Result<(External, &'a [Token]), ParseError>
    ensures found { IfOk result (λ x. Stands bytes.now names.old (outer_of x.0) tokens.now x.1.now) }
    ensures names { IfOk result (λ x. names.new ≡ with_outer names.old (outer_of x.0)) }
    ensures shorter { IfOk result (λ x. length x.1.now < length tokens.now) }
    ensures none { IfErr result (λ e. e ≢ ParseError.Memory → NoneStands bytes.now names.old tokens.now) }
    ensures line { IfErr result (λ e. e ≢ ParseError.Memory → e ≡ ParseError.Syntax (line_at last_line tokens.now)) }
{
    match external(alloc, bytes, names, tokens) {
        Ok((external, rest)) => Ok((external, rest)),
        Err(Refused::Syntax) => Err(ParseError::Syntax {
            line: line_of(tokens, last_line),
        }),
        Err(Refused::Memory) => Err(ParseError::Memory),
    }
}

/// The external declarations that the tokens are, one at least.
fn externals(
    alloc: Global,
    bytes: &[u8],
    tokens: &[Token],
    last_line: u32,
) -> Result<Vec<External>, ParseError>
    ensures found { IfOk result (λ es. IsFile bytes.now tokens.now (externals_of es.items)) }
    ensures none { IfErr result (λ e. e ≢ ParseError.Memory → (tree : Externals) → IsFile bytes.now tokens.now tree → ⊥) }
    ensures line { IfErr result (λ e. e ≢ ParseError.Memory → (rest : List Token) × EndsAt bytes.now tokens.now rest × (e ≡ ParseError.Syntax (line_at last_line rest))) }
{
    let mut names = built_in(alloc)?;
    let mut externals = Vec::new(alloc);
    let mut rest = tokens;
    'externals: loop {
        let (next, behind) = match next_external(alloc, bytes, &mut names, rest, last_line) {
            Ok(found) => found,
            Err(error) => return Err(error),
        };
        externals.push(next)?;
        rest = behind;
        if rest.is_empty() {
            return Ok(externals);
        }
    }
}

/// The tree of a file (C11 6.9): external declarations, one at least, which its tokens spell whole, with at most 400 levels.
/// Each is a declaration, or a function's definition. Where there is none, the line is that of the first token of the first
/// external declaration that has no tree, or the file's last line where no token is left. Memory may run out at any moment.
pub fn parse(alloc: Global, tokens: &Tokens) -> Result<File, ParseError>
    ensures found { IfOk result (λ f. IsFile tokens.now.bytes.items tokens.now.tokens.items (view_file f)) }
    ensures none { IfErr result (λ e. e ≢ ParseError.Memory → (tree : Externals) → IsFile tokens.now.bytes.items tokens.now.tokens.items tree → ⊥) }
    ensures line { IfErr result (λ e. e ≢ ParseError.Memory → (rest : List Token) × EndsAt tokens.now.bytes.items tokens.now.tokens.items rest × (e ≡ ParseError.Syntax (line_at tokens.now.last_line rest))) }
{
    let externals = externals(alloc, &tokens.bytes, &tokens.tokens, tokens.last_line)?;
    Ok(File { externals })
}

/// Tokens are spelled by one tree of a file at most.
pub fn one_file()
    ensures { (bytes : List ℕ) (tokens : List Token) (a b : Externals) → IsFile bytes tokens a → IsFile bytes tokens b → a ≡ b }
{}

/// The tokens of an external declaration are no proper beginning of another's, behind the same names.
pub fn no_proper_prefix()
    ensures { (bytes : List ℕ) (names : Scope) (a b : Outer) (own others : List Token) → IsExternal bytes names a own → IsExternal bytes names b (own ++ others) → others ≡ [] }
{}

/// There is one place at most up to which external declarations stand one after another and at which none stands.
pub fn one_place()
    ensures { (bytes : List ℕ) (tokens a b : List Token) → EndsAt bytes tokens a → EndsAt bytes tokens b → a ≡ b }
{}
