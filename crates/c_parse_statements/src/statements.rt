//! Reading statements.

ghost use Rattle.std.specs.Prelude.{◌<◌, ◌≤◌, ◌≡◌, ◌∷◌, ◌++◌, length, option_map, IfOk};
ghost use Rattle.c_token.specs.declared.token.Mark.TheVariants as marks;
ghost use Rattle.c_tree.specs.Tree.{view, boxed};
ghost use Rattle.c_tree.specs.Statements.{view_statement, items_of, break_off, continue_on};
ghost use Rattle.c_parse_expr.specs.Reading.{Gives};
ghost use Rattle.c_tree.specs.Names.{Scope};
ghost use Rattle.c_parse_parts.specs.inner.Reading.{ended_at};
ghost use Rattle.c_parse_statements.specs.inner.Reading.{read_as, started_at, begun, block_at, tested_at, branched_at, closed_at, valued_at, returned_at, evaluated_at, test_at, while_at, switch_at, do_at, maybe_at, header_at, declared_for_at, plain_for_at, for_at, case_at, default_at, label_at, goto_at, items_at, item_at, with_piece, statements_in};
ghost use Rattle.c_parse_statements.specs.inner.Pieces.{piece_of};

use crate::table::{Begin, begin_of};
use c_parse_expr::{Frame, Refused, TypeNames, name_of, read, split};
use c_parse_parts::{
    declaration, declares_at, identifier_at, keyword_at, mark_at, stands, start_at,
};
use c_token::{Keyword, Mark, Token};
use c_tree::{Expr, Item, Stmt};
use std::alloc::Global;

/// The statement with at most so many levels at the front, and the tokens behind it.
#[cycle(statements)]
#[tactic(auto, unfolding(crate::specs::inner::Reading::statement_at))]
fn statement<'a>(
    frame: Frame<'_>,
    names: &mut TypeNames,
    tokens: &'a [Token],
) -> Result<(Box<Stmt>, &'a [Token]), Refused>
    requires { frame.levels ≤ 400 }
    ensures exact { Gives (λ x. (view_statement x.0.value, x.1.now)) result (statements_in frame.entry names.old tokens.now) }
    ensures names { IfOk result (λ _. names.new ≡ names.old) }
    ensures shorter { IfOk result (λ x. length x.1.now < length tokens.now) }
{
    if frame.levels == 0 {
        return Err(Refused::Syntax);
    }
    let below = Frame {
        levels: frame.levels - 1,
        ..frame
    };
    started(below, names, tokens)
}

/// The statement at the front, whose parts have at most so many levels.
#[cycle(statements)]
#[tactic(auto, unfolding(crate::specs::inner::Reading::started_at))]
fn started<'a>(
    frame: Frame<'_>,
    names: &mut TypeNames,
    tokens: &'a [Token],
) -> Result<(Box<Stmt>, &'a [Token]), Refused>
    requires { frame.levels < 400 }
    ensures exact { Gives (λ x. (view_statement x.0.value, x.1.now)) result (started_at frame.entry.bytes.now frame.entry.levels (statements_in frame.entry) names.old tokens.now) }
    ensures names { IfOk result (λ _. names.new ≡ names.old) }
    ensures shorter { IfOk result (λ x. length x.1.now < length tokens.now) }
{
    let Some((token, rest)) = split(tokens) else {
        return Err(Refused::Syntax);
    };
    let begin = begin_of(stands(rest, Mark::Colon), token.kind);
    begun(frame, names, begin, token, tokens, rest)
}

/// The statement that a token begins so, whose parts have at most so many levels.
#[cycle(statements)]
fn begun<'a>(
    frame: Frame<'_>,
    names: &mut TypeNames,
    begin: Begin,
    token: Token,
    tokens: &'a [Token],
    rest: &'a [Token],
) -> Result<(Box<Stmt>, &'a [Token]), Refused>
    requires levels { frame.levels < 400 }
    requires whole { tokens.now ≡ token ∷ rest.now }
    ensures exact { Gives (λ x. (view_statement x.0.value, x.1.now)) result (begun frame.entry.bytes.now frame.entry.levels (statements_in frame.entry) names.old begin token rest.now) }
    ensures names { IfOk result (λ _. names.new ≡ names.old) }
    ensures shorter { IfOk result (λ x. length x.1.now < length tokens.now) }
{
    let line = token.line;
    match begin {
        Begin::Block => block(frame, names, line, rest),
        Begin::If => if_statement(frame, names, line, rest),
        Begin::Return => return_statement(frame, names, line, rest),
        Begin::Expression => expression_statement(frame, names, tokens),
        Begin::Empty => made(frame.alloc, Stmt::Empty { line }, rest),
        Begin::While => while_statement(frame, names, line, rest),
        Begin::Do => do_statement(frame, names, line, rest),
        Begin::For => for_statement(frame, names, line, rest),
        Begin::Switch => switch_statement(frame, names, line, rest),
        Begin::Case => case_statement(frame, names, line, rest),
        Begin::Default => default_statement(frame, names, line, rest),
        Begin::Label => labelled_statement(frame, names, token, rest),
        Begin::Goto => goto_statement(frame, line, rest),
        Begin::Break => break_statement(frame.alloc, line, rest),
        Begin::Continue => continue_statement(frame.alloc, line, rest),
    }
}

/// A statement in memory of its own.
fn made<'a>(
    alloc: Global,
    statement: Stmt,
    rest: &'a [Token],
) -> Result<(Box<Stmt>, &'a [Token]), Refused>
    ensures exact { Gives (λ x. (view_statement x.0.value, x.1.now)) result (read_as (view_statement statement) rest.now) }
    ensures rest { IfOk result (λ x. x.1.now ≡ rest.now) }
{
    let statement = Box::new(alloc, statement)?;
    Ok((statement, rest))
}

/// The `;` of a `break` statement (C11 6.8.6.3).
#[tactic(auto, unfolding(c_parse_parts::specs::inner::Reading::ended_at))]
fn break_statement(
    alloc: Global,
    line: u32,
    tokens: &[Token],
) -> Result<(Box<Stmt>, &[Token]), Refused>
    ensures exact { Gives (λ x. (view_statement x.0.value, x.1.now)) result (ended_at marks.Semicolon (break_off line) tokens.now) }
    ensures shorter { IfOk result (λ x. length x.1.now < length tokens.now) }
{
    match mark_at(tokens, Mark::Semicolon) {
        Some((_, rest)) => made(alloc, Stmt::Break { line }, rest),
        None => Err(Refused::Syntax),
    }
}

/// The `;` of a `continue` statement (C11 6.8.6.2).
#[tactic(auto, unfolding(c_parse_parts::specs::inner::Reading::ended_at))]
fn continue_statement(
    alloc: Global,
    line: u32,
    tokens: &[Token],
) -> Result<(Box<Stmt>, &[Token]), Refused>
    ensures exact { Gives (λ x. (view_statement x.0.value, x.1.now)) result (ended_at marks.Semicolon (continue_on line) tokens.now) }
    ensures shorter { IfOk result (λ x. length x.1.now < length tokens.now) }
{
    match mark_at(tokens, Mark::Semicolon) {
        Some((_, rest)) => made(alloc, Stmt::Continue { line }, rest),
        None => Err(Refused::Syntax),
    }
}

/// An expression in parentheses at the front.
#[tactic(auto, unfolding(crate::specs::inner::Reading::test_at))]
fn test<'a>(
    frame: Frame<'_>,
    names: &TypeNames,
    tokens: &'a [Token],
) -> Result<(Box<Expr>, &'a [Token]), Refused>
    requires { frame.levels < 400 }
    ensures exact { Gives (λ x. (view x.0.value, x.1.now)) result (test_at frame.entry.bytes.now names.now frame.entry.levels tokens.now) }
    ensures shorter { IfOk result (λ x. length x.1.now < length tokens.now) }
{
    let Some((_, rest)) = mark_at(tokens, Mark::LeftParenthesis) else {
        return Err(Refused::Syntax);
    };
    let found = read(frame, names, rest, 1)?;
    match mark_at(found.rest, Mark::RightParenthesis) {
        Some((_, rest)) => Ok((found.tree, rest)),
        None => Err(Refused::Syntax),
    }
}

/// The block behind its brace, whose items have at most so many levels, and the tokens behind it.
#[cycle(statements)]
#[tactic(auto, unfolding(crate::specs::inner::Reading::block_at))]
pub fn block<'a>(
    frame: Frame<'_>,
    names: &mut TypeNames,
    line: u32,
    tokens: &'a [Token],
) -> Result<(Box<Stmt>, &'a [Token]), Refused>
    requires { frame.levels < 400 }
    ensures exact { Gives (λ x. (view_statement x.0.value, x.1.now)) result (block_at frame.entry.bytes.now frame.entry.levels (statements_in frame.entry) names.old line tokens.now) }
    ensures names { IfOk result (λ _. names.new ≡ names.old) }
    ensures shorter { IfOk result (λ x. length x.1.now ≤ length tokens.now) }
{
    let mark = names.mark();
    let (items, rest) = items(frame, names, tokens)?;
    names.leave(mark);
    made(frame.alloc, Stmt::Block { line, items }, rest)
}

/// The `if` statement behind its keyword (C11 6.8.4.1).
#[cycle(statements)]
#[tactic(auto, unfolding(crate::specs::inner::Reading::tested_at))]
fn if_statement<'a>(
    frame: Frame<'_>,
    names: &mut TypeNames,
    line: u32,
    tokens: &'a [Token],
) -> Result<(Box<Stmt>, &'a [Token]), Refused>
    requires { frame.levels < 400 }
    ensures exact { Gives (λ x. (view_statement x.0.value, x.1.now)) result (tested_at frame.entry.bytes.now frame.entry.levels (statements_in frame.entry) names.old line tokens.now) }
    ensures names { IfOk result (λ _. names.new ≡ names.old) }
    ensures shorter { IfOk result (λ x. length x.1.now ≤ length tokens.now) }
{
    let Some((_, rest)) = mark_at(tokens, Mark::LeftParenthesis) else {
        return Err(Refused::Syntax);
    };
    let test = read(frame, names, rest, 1)?;
    let Some((_, rest)) = mark_at(test.rest, Mark::RightParenthesis) else {
        return Err(Refused::Syntax);
    };
    let (yes, rest) = statement(frame, names, rest)?;
    branches(frame, names, line, test.tree, yes, rest)
}

/// An `if` with its first branch, and with the second where an `else` follows.
#[cycle(statements)]
#[tactic(auto, unfolding(crate::specs::inner::Reading::branched_at))]
fn branches<'a>(
    frame: Frame<'_>,
    names: &mut TypeNames,
    line: u32,
    test: Box<Expr>,
    yes: Box<Stmt>,
    tokens: &'a [Token],
) -> Result<(Box<Stmt>, &'a [Token]), Refused>
    requires { frame.levels < 400 }
    ensures exact { Gives (λ x. (view_statement x.0.value, x.1.now)) result (branched_at (statements_in frame.entry) names.old line (view test.value) (view_statement yes.value) tokens.now) }
    ensures names { IfOk result (λ _. names.new ≡ names.old) }
    ensures shorter { IfOk result (λ x. length x.1.now ≤ length tokens.now) }
{
    let Some((_, rest)) = keyword_at(tokens, Keyword::Else) else {
        return made(frame.alloc, Stmt::If { line, test, yes }, tokens);
    };
    let (no, rest) = statement(frame, names, rest)?;
    made(
        frame.alloc,
        Stmt::IfElse {
            line,
            test,
            yes,
            no,
        },
        rest,
    )
}

/// The expression at the front, and the tokens behind its `;`.
#[tactic(auto, unfolding(crate::specs::inner::Reading::closed_at))]
fn value<'a>(
    frame: Frame<'_>,
    names: &TypeNames,
    tokens: &'a [Token],
) -> Result<(Box<Expr>, &'a [Token]), Refused>
    requires { frame.levels < 400 }
    ensures exact { Gives (λ x. (view x.0.value, x.1.now)) result (closed_at frame.entry.bytes.now names.now frame.entry.levels tokens.now) }
    ensures shorter { IfOk result (λ x. length x.1.now < length tokens.now) }
{
    let found = read(frame, names, tokens, 1)?;
    let Some((_, rest)) = mark_at(found.rest, Mark::Semicolon) else {
        return Err(Refused::Syntax);
    };
    Ok((found.tree, rest))
}

/// A `return` with a value, behind its keyword.
#[tactic(auto, unfolding(crate::specs::inner::Reading::valued_at))]
fn valued<'a>(
    frame: Frame<'_>,
    names: &TypeNames,
    line: u32,
    tokens: &'a [Token],
) -> Result<(Box<Stmt>, &'a [Token]), Refused>
    requires { frame.levels < 400 }
    ensures exact { Gives (λ x. (view_statement x.0.value, x.1.now)) result (valued_at frame.entry.bytes.now names.now frame.entry.levels line tokens.now) }
    ensures shorter { IfOk result (λ x. length x.1.now ≤ length tokens.now) }
{
    let (value, rest) = value(frame, names, tokens)?;
    made(frame.alloc, Stmt::ReturnValue { line, value }, rest)
}

/// The `return` statement behind its keyword (C11 6.8.6.4).
#[tactic(auto, unfolding(crate::specs::inner::Reading::returned_at))]
fn return_statement<'a>(
    frame: Frame<'_>,
    names: &TypeNames,
    line: u32,
    tokens: &'a [Token],
) -> Result<(Box<Stmt>, &'a [Token]), Refused>
    requires { frame.levels < 400 }
    ensures exact { Gives (λ x. (view_statement x.0.value, x.1.now)) result (returned_at frame.entry.bytes.now names.now frame.entry.levels line tokens.now) }
    ensures shorter { IfOk result (λ x. length x.1.now ≤ length tokens.now) }
{
    match mark_at(tokens, Mark::Semicolon) {
        Some((_, rest)) => made(frame.alloc, Stmt::ReturnNothing { line }, rest),
        None => valued(frame, names, line, tokens),
    }
}

/// The expression statement at the front.
#[tactic(auto, unfolding(crate::specs::inner::Reading::evaluated_at))]
fn expression_statement<'a>(
    frame: Frame<'_>,
    names: &TypeNames,
    tokens: &'a [Token],
) -> Result<(Box<Stmt>, &'a [Token]), Refused>
    requires { frame.levels < 400 }
    ensures exact { Gives (λ x. (view_statement x.0.value, x.1.now)) result (evaluated_at frame.entry.bytes.now names.now frame.entry.levels tokens.now) }
    ensures shorter { IfOk result (λ x. length x.1.now < length tokens.now) }
{
    let (expression, rest) = value(frame, names, tokens)?;
    made(frame.alloc, Stmt::Evaluate { expression }, rest)
}

/// The `while` statement behind its keyword (C11 6.8.5.1).
#[cycle(statements)]
#[tactic(auto, unfolding(crate::specs::inner::Reading::while_at))]
fn while_statement<'a>(
    frame: Frame<'_>,
    names: &mut TypeNames,
    line: u32,
    tokens: &'a [Token],
) -> Result<(Box<Stmt>, &'a [Token]), Refused>
    requires { frame.levels < 400 }
    ensures exact { Gives (λ x. (view_statement x.0.value, x.1.now)) result (while_at frame.entry.bytes.now frame.entry.levels (statements_in frame.entry) names.old line tokens.now) }
    ensures names { IfOk result (λ _. names.new ≡ names.old) }
    ensures shorter { IfOk result (λ x. length x.1.now ≤ length tokens.now) }
{
    let (test, rest) = test(frame, names, tokens)?;
    let (body, rest) = statement(frame, names, rest)?;
    made(frame.alloc, Stmt::While { line, test, body }, rest)
}

/// The `switch` statement behind its keyword (C11 6.8.4.2).
#[cycle(statements)]
#[tactic(auto, unfolding(crate::specs::inner::Reading::switch_at))]
fn switch_statement<'a>(
    frame: Frame<'_>,
    names: &mut TypeNames,
    line: u32,
    tokens: &'a [Token],
) -> Result<(Box<Stmt>, &'a [Token]), Refused>
    requires { frame.levels < 400 }
    ensures exact { Gives (λ x. (view_statement x.0.value, x.1.now)) result (switch_at frame.entry.bytes.now frame.entry.levels (statements_in frame.entry) names.old line tokens.now) }
    ensures names { IfOk result (λ _. names.new ≡ names.old) }
    ensures shorter { IfOk result (λ x. length x.1.now ≤ length tokens.now) }
{
    let (value, rest) = test(frame, names, tokens)?;
    let (body, rest) = statement(frame, names, rest)?;
    made(frame.alloc, Stmt::Switch { line, value, body }, rest)
}

/// The `do` statement behind its keyword (C11 6.8.5.2).
#[cycle(statements)]
#[tactic(auto, unfolding(crate::specs::inner::Reading::do_at))]
fn do_statement<'a>(
    frame: Frame<'_>,
    names: &mut TypeNames,
    line: u32,
    tokens: &'a [Token],
) -> Result<(Box<Stmt>, &'a [Token]), Refused>
    requires { frame.levels < 400 }
    ensures exact { Gives (λ x. (view_statement x.0.value, x.1.now)) result (do_at frame.entry.bytes.now frame.entry.levels (statements_in frame.entry) names.old line tokens.now) }
    ensures names { IfOk result (λ _. names.new ≡ names.old) }
    ensures shorter { IfOk result (λ x. length x.1.now ≤ length tokens.now) }
{
    let (body, rest) = statement(frame, names, tokens)?;
    let Some((_, rest)) = keyword_at(rest, Keyword::While) else {
        return Err(Refused::Syntax);
    };
    let (test, rest) = test(frame, names, rest)?;
    let Some((_, rest)) = mark_at(rest, Mark::Semicolon) else {
        return Err(Refused::Syntax);
    };
    made(frame.alloc, Stmt::Do { line, body, test }, rest)
}

/// An expression, or none, and the tokens behind the mark that ends it.
#[tactic(auto, unfolding(crate::specs::inner::Reading::maybe_at))]
fn maybe<'a>(
    frame: Frame<'_>,
    names: &TypeNames,
    mark: Mark,
    tokens: &'a [Token],
) -> Result<(Option<Box<Expr>>, &'a [Token]), Refused>
    requires { frame.levels < 400 }
    ensures exact { Gives (λ x. (option_map boxed x.0, x.1.now)) result (maybe_at frame.entry.bytes.now names.now frame.entry.levels mark tokens.now) }
    ensures shorter { IfOk result (λ x. length x.1.now < length tokens.now) }
{
    if let Some((_, rest)) = mark_at(tokens, mark) {
        return Ok((None, rest));
    }
    let found = read(frame, names, tokens, 1)?;
    match mark_at(found.rest, mark) {
        Some((_, rest)) => Ok((Some(found.tree), rest)),
        None => Err(Refused::Syntax),
    }
}

/// The test, the last part and the body of a `for`, and the tokens behind them.
#[derive(Drop)]
struct Heading<'a> {
    test: Option<Box<Expr>>,
    last: Option<Box<Expr>>,
    body: Box<Stmt>,
    rest: &'a [Token],
}

/// A `for` behind its first part.
#[cycle(statements)]
#[tactic(auto, unfolding(crate::specs::inner::Reading::header_at))]
fn header<'a>(
    frame: Frame<'_>,
    names: &mut TypeNames,
    tokens: &'a [Token],
) -> Result<Heading<'a>, Refused>
    requires { frame.levels < 400 }
    ensures exact { Gives (λ x. (((option_map boxed x.test, option_map boxed x.last), view_statement x.body.value), x.rest.now)) result (header_at frame.entry.bytes.now frame.entry.levels (statements_in frame.entry) names.old tokens.now) }
    ensures names { IfOk result (λ _. names.new ≡ names.old) }
    ensures shorter { IfOk result (λ x. length x.rest.now ≤ length tokens.now) }
{
    let (test, rest) = maybe(frame, names, Mark::Semicolon, tokens)?;
    let (last, rest) = maybe(frame, names, Mark::RightParenthesis, rest)?;
    let (body, rest) = statement(frame, names, rest)?;
    Ok(Heading {
        test,
        last,
        body,
        rest,
    })
}

/// A `for` that declares something, behind its parenthesis. What it declares is gone behind it.
#[cycle(statements)]
#[tactic(auto, unfolding(crate::specs::inner::Reading::declared_for_at))]
fn declared_for<'a>(
    frame: Frame<'_>,
    names: &mut TypeNames,
    line: u32,
    tokens: &'a [Token],
) -> Result<(Box<Stmt>, &'a [Token]), Refused>
    requires { frame.levels < 400 }
    ensures exact { Gives (λ x. (view_statement x.0.value, x.1.now)) result (declared_for_at frame.entry.bytes.now frame.entry.levels (statements_in frame.entry) names.old line tokens.now) }
    ensures names { IfOk result (λ _. names.new ≡ names.old) }
    ensures shorter { IfOk result (λ x. length x.1.now ≤ length tokens.now) }
{
    let mark = names.mark();
    let (declaration, rest) = declaration(frame, names, tokens)?;
    let found = header(frame, names, rest)?;
    names.leave(mark);
    made(
        frame.alloc,
        Stmt::ForDeclared {
            line,
            declaration,
            test: found.test,
            last: found.last,
            body: found.body,
        },
        found.rest,
    )
}

/// A `for` that declares nothing, behind its parenthesis.
#[cycle(statements)]
#[tactic(auto, unfolding(crate::specs::inner::Reading::plain_for_at))]
fn plain_for<'a>(
    frame: Frame<'_>,
    names: &mut TypeNames,
    line: u32,
    tokens: &'a [Token],
) -> Result<(Box<Stmt>, &'a [Token]), Refused>
    requires { frame.levels < 400 }
    ensures exact { Gives (λ x. (view_statement x.0.value, x.1.now)) result (plain_for_at frame.entry.bytes.now frame.entry.levels (statements_in frame.entry) names.old line tokens.now) }
    ensures names { IfOk result (λ _. names.new ≡ names.old) }
    ensures shorter { IfOk result (λ x. length x.1.now ≤ length tokens.now) }
{
    let (first, rest) = maybe(frame, names, Mark::Semicolon, tokens)?;
    let found = header(frame, names, rest)?;
    made(
        frame.alloc,
        Stmt::For {
            line,
            first,
            test: found.test,
            last: found.last,
            body: found.body,
        },
        found.rest,
    )
}

/// The `for` statement behind its keyword (C11 6.8.5.3).
#[cycle(statements)]
#[tactic(auto, unfolding(crate::specs::inner::Reading::for_at))]
fn for_statement<'a>(
    frame: Frame<'_>,
    names: &mut TypeNames,
    line: u32,
    tokens: &'a [Token],
) -> Result<(Box<Stmt>, &'a [Token]), Refused>
    requires { frame.levels < 400 }
    ensures exact { Gives (λ x. (view_statement x.0.value, x.1.now)) result (for_at frame.entry.bytes.now frame.entry.levels (statements_in frame.entry) names.old line tokens.now) }
    ensures names { IfOk result (λ _. names.new ≡ names.old) }
    ensures shorter { IfOk result (λ x. length x.1.now ≤ length tokens.now) }
{
    let Some((_, rest)) = mark_at(tokens, Mark::LeftParenthesis) else {
        return Err(Refused::Syntax);
    };
    match start_at(false, frame.bytes, names, false, rest) {
        Some(_) => declared_for(frame, names, line, rest),
        None => plain_for(frame, names, line, rest),
    }
}

/// A `case` label with its statement, behind the keyword (C11 6.8.1).
#[cycle(statements)]
#[tactic(auto, unfolding(crate::specs::inner::Reading::case_at))]
fn case_statement<'a>(
    frame: Frame<'_>,
    names: &mut TypeNames,
    line: u32,
    tokens: &'a [Token],
) -> Result<(Box<Stmt>, &'a [Token]), Refused>
    requires { frame.levels < 400 }
    ensures exact { Gives (λ x. (view_statement x.0.value, x.1.now)) result (case_at frame.entry.bytes.now frame.entry.levels (statements_in frame.entry) names.old line tokens.now) }
    ensures names { IfOk result (λ _. names.new ≡ names.old) }
    ensures shorter { IfOk result (λ x. length x.1.now ≤ length tokens.now) }
{
    let found = read(frame, names, tokens, 3)?;
    let Some((_, rest)) = mark_at(found.rest, Mark::Colon) else {
        return Err(Refused::Syntax);
    };
    let (body, rest) = statement(frame, names, rest)?;
    made(
        frame.alloc,
        Stmt::Case {
            line,
            value: found.tree,
            body,
        },
        rest,
    )
}

/// A `default` label with its statement, behind the keyword (C11 6.8.1).
#[cycle(statements)]
#[tactic(auto, unfolding(crate::specs::inner::Reading::default_at))]
fn default_statement<'a>(
    frame: Frame<'_>,
    names: &mut TypeNames,
    line: u32,
    tokens: &'a [Token],
) -> Result<(Box<Stmt>, &'a [Token]), Refused>
    requires { frame.levels < 400 }
    ensures exact { Gives (λ x. (view_statement x.0.value, x.1.now)) result (default_at (statements_in frame.entry) names.old line tokens.now) }
    ensures names { IfOk result (λ _. names.new ≡ names.old) }
    ensures shorter { IfOk result (λ x. length x.1.now ≤ length tokens.now) }
{
    let Some((_, rest)) = mark_at(tokens, Mark::Colon) else {
        return Err(Refused::Syntax);
    };
    let (body, rest) = statement(frame, names, rest)?;
    made(frame.alloc, Stmt::Default { line, body }, rest)
}

/// A label with its statement, behind the name (C11 6.8.1).
#[cycle(statements)]
#[tactic(auto, unfolding(crate::specs::inner::Reading::label_at))]
fn labelled_statement<'a>(
    frame: Frame<'_>,
    names: &mut TypeNames,
    token: Token,
    tokens: &'a [Token],
) -> Result<(Box<Stmt>, &'a [Token]), Refused>
    requires { frame.levels < 400 }
    ensures exact { Gives (λ x. (view_statement x.0.value, x.1.now)) result (label_at frame.entry.bytes.now (statements_in frame.entry) names.old token tokens.now) }
    ensures names { IfOk result (λ _. names.new ≡ names.old) }
    ensures shorter { IfOk result (λ x. length x.1.now ≤ length tokens.now) }
{
    let Some((_, rest)) = mark_at(tokens, Mark::Colon) else {
        return Err(Refused::Syntax);
    };
    let (body, rest) = statement(frame, names, rest)?;
    let name = name_of(frame.alloc, frame.bytes, token)?;
    let line = token.line;
    made(frame.alloc, Stmt::Label { line, name, body }, rest)
}

/// The `goto` statement behind its keyword (C11 6.8.6.1).
#[tactic(auto, unfolding(crate::specs::inner::Reading::goto_at))]
fn goto_statement<'a>(
    frame: Frame<'_>,
    line: u32,
    tokens: &'a [Token],
) -> Result<(Box<Stmt>, &'a [Token]), Refused>
    ensures exact { Gives (λ x. (view_statement x.0.value, x.1.now)) result (goto_at frame.entry.bytes.now line tokens.now) }
    ensures shorter { IfOk result (λ x. length x.1.now ≤ length tokens.now) }
{
    let Some((token, rest)) = identifier_at(tokens) else {
        return Err(Refused::Syntax);
    };
    let Some((_, rest)) = mark_at(rest, Mark::Semicolon) else {
        return Err(Refused::Syntax);
    };
    let name = name_of(frame.alloc, frame.bytes, token)?;
    made(frame.alloc, Stmt::Goto { line, name }, rest)
}

/// The items of a block with at most so many levels, and the tokens behind the brace that closes it.
#[cycle(statements)]
fn items<'a>(
    frame: Frame<'_>,
    names: &mut TypeNames,
    tokens: &'a [Token],
) -> Result<(Vec<Item>, &'a [Token]), Refused>
    requires { frame.levels < 400 }
    ensures exact { Gives (λ x. (items_of x.0.items, x.1.now)) result (items_at frame.entry.bytes.now frame.entry.levels (statements_in frame.entry) names.old tokens.now) }
    ensures names { IfOk result (λ x. (front : Scope) × (names.new ≡ front ++ names.old)) }
    ensures shorter { IfOk result (λ x. length x.1.now ≤ length tokens.now) }
{
    let mut items = Vec::new(frame.alloc);
    let mut rest = tokens;
    'items: loop {
        if let Some((_, behind)) = mark_at(rest, Mark::RightBrace) {
            return Ok((items, behind));
        }
        let (next, behind) = item(frame, names, rest)?;
        items.push(next)?;
        rest = behind;
    }
}

/// The declaration or the statement at the front.
#[cycle(statements)]
#[tactic(auto, unfolding(crate::specs::inner::Reading::item_at))]
fn item<'a>(
    frame: Frame<'_>,
    names: &mut TypeNames,
    tokens: &'a [Token],
) -> Result<(Item, &'a [Token]), Refused>
    requires { frame.levels < 400 }
    ensures exact { Gives (λ x. (piece_of x.0, x.1.now)) result (item_at frame.entry.bytes.now frame.entry.levels (statements_in frame.entry) names.old tokens.now) }
    ensures names { IfOk result (λ x. names.new ≡ with_piece names.old (piece_of x.0)) }
    ensures shorter { IfOk result (λ x. length x.1.now < length tokens.now) }
{
    if let Some(_) = declares_at(frame.bytes, names, tokens) {
        let (declaration, rest) = declaration(frame, names, tokens)?;
        return Ok((Item::Declares(declaration), rest));
    }
    let (statement, rest) = statement(frame, names, tokens)?;
    Ok((Item::Does(statement), rest))
}
