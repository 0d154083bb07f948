//! Reading an external declaration.

ghost use Rattle.std.specs.Prelude.{◌<◌, ◌≤◌, ◌≡◌, ◌∷◌, length, IfOk};
ghost use Rattle.c_tree.specs.Names.{Scope};
ghost use Rattle.c_tree.specs.Statements.{view_statement};
ghost use Rattle.c_tree.specs.Declarations.{view_full, parts_of, declarators_of, name_of, have_typedef, with_parts, with_declarators};
ghost use Rattle.c_parse_expr.specs.Reading.{Gives};
ghost use Rattle.c_parse_statements.specs.inner.Reading.{read_as, definition_at, others_at, first_at, outer_at};
ghost use Rattle.c_parse_statements.specs.Standing.{declarations, definitions, outer_of, with_outer};

use crate::statements::block;
use c_parse_expr::{Frame, Refused, TypeNames};
use c_parse_parts::{
    are_some, declarators, declare_body, declared_name, full, initializer, is_function, mark_at,
    specifiers,
};
use c_token::{Mark, Token};
use c_tree::{Declaration, Definition, External, FullDeclarator, InitDeclarator, Specifier};
use std::alloc::Global;

/// The most levels of an external declaration.
const LEVELS: u32 = 400;

/// The definition of a function (C11 6.9.1) behind the brace of its body. Its name is declared; its parameters are declared
/// in the body.
#[tactic(auto, unfolding(crate::specs::inner::Reading::definition_at))]
fn definition<'a>(
    alloc: Global,
    bytes: &[u8],
    names: &mut TypeNames,
    specifiers: Vec<Specifier>,
    declarator: FullDeclarator,
    line: u32,
    tokens: &'a [Token],
) -> Result<(Box<Definition>, &'a [Token]), Refused>
    ensures exact { Gives (λ x. (definitions (parts_of x.0.value.specifiers.items) (view_full x.0.value.declarator) (view_statement x.0.value.body.value), x.1.now)) result (definition_at bytes.now names.old (parts_of specifiers.items) (view_full declarator) line tokens.now) }
    ensures parts { IfOk result (λ x. parts_of x.0.value.specifiers.items ≡ parts_of specifiers.items) }
    ensures same { IfOk result (λ x. view_full x.0.value.declarator ≡ view_full declarator) }
    ensures names { IfOk result (λ x. names.new ≡ names.old) }
    ensures shorter { IfOk result (λ x. length x.1.now ≤ length tokens.now) }
{
    if !is_function(&declarator) {
        return Err(Refused::Syntax);
    }
    let mark = names.mark();
    declare_body(alloc, names, &declarator)?;
    let frame = Frame {
        alloc,
        bytes,
        levels: LEVELS - 1,
    };
    let (body, rest) = block(frame, names, line, tokens)?;
    names.leave(mark);
    let definition = Box::new(
        alloc,
        Definition {
            specifiers,
            declarator,
            body,
        },
    )?;
    Ok((definition, rest))
}

/// The declarators of a declaration behind the first one, which is declared.
#[tactic(auto, unfolding(crate::specs::inner::Reading::others_at))]
fn others<'a>(
    alloc: Global,
    bytes: &[u8],
    names: &mut TypeNames,
    types: bool,
    declarator: FullDeclarator,
    tokens: &'a [Token],
) -> Result<(Vec<InitDeclarator>, &'a [Token]), Refused>
    ensures exact { Gives (λ x. (declarators_of x.0.items, x.1.now)) result (others_at bytes.now names.old types (view_full declarator) tokens.now) }
    ensures names { IfOk result (λ x. (before : Scope) → names.old ≡ (name_of (view_full declarator), types) ∷ before → names.new ≡ with_declarators before types (declarators_of x.0.items)) }
    ensures shorter { IfOk result (λ x. length x.1.now < length tokens.now) }
{
    let frame = Frame {
        alloc,
        bytes,
        levels: LEVELS,
    };
    let (initializer, rest) = initializer(frame, names, tokens)?;
    let (mut others, rest) = declarators(frame, names, types, false, rest)?;
    others.insert(
        0,
        InitDeclarator {
            declarator,
            initializer,
        },
    )?;
    Ok((others, rest))
}

/// A declaration in memory of its own.
fn declares<'a>(
    alloc: Global,
    specifiers: Vec<Specifier>,
    declarators: Vec<InitDeclarator>,
    rest: &'a [Token],
) -> Result<(External, &'a [Token]), Refused>
    ensures exact { Gives (λ x. (outer_of x.0, x.1.now)) result (read_as (declarations (parts_of specifiers.items) (declarators_of declarators.items)) rest.now) }
    ensures declared { IfOk result (λ x. outer_of x.0 ≡ declarations (parts_of specifiers.items) (declarators_of declarators.items)) }
    ensures rest { IfOk result (λ x. x.1.now ≡ rest.now) }
{
    let declaration = Box::new(
        alloc,
        Declaration {
            specifiers,
            declarators,
        },
    )?;
    Ok((External::Declares(declaration), rest))
}

/// A declaration or a definition behind its specifiers, with a declarator.
#[tactic(auto, unfolding(crate::specs::inner::Reading::first_at))]
fn declared<'a>(
    alloc: Global,
    bytes: &[u8],
    names: &mut TypeNames,
    specifiers: Vec<Specifier>,
    types: bool,
    tokens: &'a [Token],
) -> Result<(External, &'a [Token]), Refused>
    requires { types ≡ have_typedef (parts_of specifiers.items) }
    ensures exact { Gives (λ x. (outer_of x.0, x.1.now)) result (first_at bytes.now names.old (parts_of specifiers.items) tokens.now) }
    ensures names { IfOk result (λ x. (before : Scope) → names.old ≡ with_parts before (parts_of specifiers.items) → names.new ≡ with_outer before (outer_of x.0)) }
    ensures shorter { IfOk result (λ x. length x.1.now < length tokens.now) }
{
    let frame = Frame {
        alloc,
        bytes,
        levels: LEVELS,
    };
    let (declarator, rest) = full(frame, names, false, tokens)?;
    names.declare(alloc, declared_name(&declarator), types)?;
    if let Some((token, rest)) = mark_at(rest, Mark::LeftBrace) {
        let (definition, rest) = definition(
            alloc, bytes, names, specifiers, declarator, token.line, rest,
        )?;
        return Ok((External::Defines(definition), rest));
    }
    let (declarators, rest) = others(alloc, bytes, names, types, declarator, rest)?;
    declares(alloc, specifiers, declarators, rest)
}

/// The external declaration at the front (C11 6.9), and the tokens behind it: a definition where a brace stands behind the
/// first declarator, else a declaration. What it declares is declared behind it.
#[tactic(auto, unfolding(crate::specs::inner::Reading::outer_at))]
pub fn external<'a>(
    alloc: Global,
    bytes: &[u8],
    names: &mut TypeNames,
    tokens: &'a [Token],
) -> Result<(External, &'a [Token]), Refused>
    ensures exact { Gives (λ x. (outer_of x.0, x.1.now)) result (outer_at bytes.now names.old tokens.now) }
    ensures names { IfOk result (λ x. names.new ≡ with_outer names.old (outer_of x.0)) }
    ensures shorter { IfOk result (λ x. length x.1.now < length tokens.now) }
{
    let frame = Frame {
        alloc,
        bytes,
        levels: LEVELS,
    };
    let found = specifiers(frame, names, false, tokens)?;
    if !are_some(&found.items) {
        return Err(Refused::Syntax);
    }
    let Some((_, rest)) = mark_at(found.rest, Mark::Semicolon) else {
        return declared(alloc, bytes, names, found.items, found.types, found.rest);
    };
    declares(alloc, found.items, Vec::new(alloc), rest)
}
