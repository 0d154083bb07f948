//! Tests of the parsing of expressions.

// Expressions and type names, with the trees that they have (C11 6.5, 6.7.7).

use crate::spelled::{Text, blank, lexed, put, put_pointers, repeat, show_type, whole};
use c_lexer::Tokens;
use c_parse_expr::{ExpressionError, Level, TypeNames, expression};
use c_tree::{
    ArraySuffix, BinaryOp, Declarator, DeclaratorCore, Expr, Name, StepOp, TypeName, UnaryOp,
};
use std::alloc::{AllocError, Global};
use std::test::*;

fn binary_text(operator: BinaryOp) -> &'static [u8] {
    match operator {
        BinaryOp::LogicalOr => b"||",
        BinaryOp::LogicalAnd => b"&&",
        BinaryOp::Or => b"|",
        BinaryOp::Xor => b"^",
        BinaryOp::And => b"&",
        BinaryOp::Equal => b"==",
        BinaryOp::NotEqual => b"!=",
        BinaryOp::Less => b"<",
        BinaryOp::Greater => b">",
        BinaryOp::LessEqual => b"<=",
        BinaryOp::GreaterEqual => b">=",
        BinaryOp::ShiftLeft => b"<<",
        BinaryOp::ShiftRight => b">>",
        BinaryOp::Add => b"+",
        BinaryOp::Subtract => b"-",
        BinaryOp::Multiply => b"*",
        BinaryOp::Divide => b"/",
        BinaryOp::Remainder => b"%",
    }
}

fn unary_text(operator: UnaryOp) -> &'static [u8] {
    match operator {
        UnaryOp::Increment => b"++",
        UnaryOp::Decrement => b"--",
        UnaryOp::Plus => b"+",
        UnaryOp::Minus => b"-",
        UnaryOp::Complement => b"~",
        UnaryOp::Not => b"!",
    }
}

fn put_suffixes(out: &mut Text, suffixes: &[ArraySuffix]) {
    for suffix in suffixes {
        match suffix {
            ArraySuffix::Bounded { .. } => put(out, b"[#]"),
            ArraySuffix::Open { .. } => put(out, b"[]"),
        }
    }
}

/// Writes a declarator; a bound is `#`.
fn put_declarator(out: &mut Text, declarator: &Declarator) {
    put_pointers(out, &declarator.pointers);
    match &declarator.core {
        DeclaratorCore::Absent => {}
        DeclaratorCore::Named { name, .. } => put(out, &name.bytes),
        DeclaratorCore::Inside { inner, .. } => {
            put(out, b"(");
            put_declarator(out, inner);
            put(out, b")");
        }
    }
    put_suffixes(out, &declarator.suffixes)
}

/// Writes a type name in parentheses, with a comma behind each specifier.
fn put_type(out: &mut Text, type_name: &TypeName) {
    put(out, b"(");
    for specifier in &type_name.specifiers {
        show_type(out, specifier);
        put(out, b",");
    }
    put_declarator(out, &type_name.declarator);
    put(out, b")")
}

fn put_strings(out: &mut Text, parts: &[Name]) {
    for part in parts {
        put(out, &part.bytes);
    }
}

/// Writes a tree with brackets round each operator and its operands. A constant is `1`, a character constant
/// `c`, and of a call the name and the number of its arguments are written.
fn show(out: &mut Text, expr: &Expr) {
    match expr {
        Expr::Constant { .. } => put(out, b"1"),
        Expr::Character { .. } => put(out, b"c"),
        Expr::Strings { parts, .. } => put_strings(out, parts),
        Expr::Name { name, .. } => put(out, &name.bytes),
        Expr::Parens { inner, .. } => {
            put(out, b"(");
            show(out, inner);
            put(out, b")")
        }
        Expr::Unary {
            operator,
            operand,
            ..
        } => {
            put(out, b"[");
            put(out, unary_text(*operator));
            show(out, operand);
            put(out, b"]")
        }
        Expr::Address { operand, .. } => {
            put(out, b"[&");
            show(out, operand);
            put(out, b"]")
        }
        Expr::Dereference { operand, .. } => {
            put(out, b"[*");
            show(out, operand);
            put(out, b"]")
        }
        Expr::Cast {
            type_name,
            operand,
            ..
        } => {
            put(out, b"[");
            put_type(out, type_name);
            show(out, operand);
            put(out, b"]")
        }
        Expr::SizeofExpr { operand, .. } => {
            put(out, b"[sizeof ");
            show(out, operand);
            put(out, b"]")
        }
        Expr::SizeofType { type_name, .. } => {
            put(out, b"[sizeof");
            put_type(out, type_name);
            put(out, b"]")
        }
        Expr::Step {
            operator,
            operand,
            ..
        } => {
            put(out, b"[");
            show(out, operand);
            match operator {
                StepOp::Increment => put(out, b"++]"),
                StepOp::Decrement => put(out, b"--]"),
            }
        }
        Expr::Member { left, name, .. } => {
            put(out, b"[");
            show(out, left);
            put(out, b".");
            put(out, &name.bytes);
            put(out, b"]")
        }
        Expr::Arrow { left, name, .. } => {
            put(out, b"[");
            show(out, left);
            put(out, b"->");
            put(out, &name.bytes);
            put(out, b"]")
        }
        Expr::Subscript { left, index, .. } => {
            put(out, b"[");
            show(out, left);
            put(out, b"[");
            show(out, index);
            put(out, b"]]")
        }
        Expr::Binary {
            operator,
            left,
            right,
            ..
        } => {
            put(out, b"[");
            show(out, left);
            put(out, binary_text(*operator));
            show(out, right);
            put(out, b"]")
        }
        Expr::Choice { test, yes, no, .. } => {
            put(out, b"[");
            show(out, test);
            put(out, b"?");
            show(out, yes);
            put(out, b":");
            show(out, no);
            put(out, b"]")
        }
        Expr::Assign {
            operator,
            place,
            value,
            ..
        } => {
            put(out, b"[");
            show(out, place);
            if let Some(operator) = operator {
                put(out, binary_text(*operator));
            }
            put(out, b"=");
            show(out, value);
            put(out, b"]")
        }
        Expr::Comma { left, right, .. } => {
            put(out, b"[");
            show(out, left);
            put(out, b",");
            show(out, right);
            put(out, b"]")
        }
        Expr::Call {
            function,
            arguments,
        } => {
            show(out, function);
            for _ in arguments {
                put(out, b"@");
            }
        }
    }
}

/// The names where `T` is a type, and `U` one that a variable hides.
fn some_names(alloc: Global) -> Result<TypeNames, AllocError> {
    let mut names = TypeNames::new(alloc);
    names.declare(alloc, b"T", true)?;
    names.declare(alloc, b"U", true)?;
    names.declare(alloc, b"U", false)?;
    Ok(names)
}

/// The tree of a whole text, written out, or nothing.
fn shown(
    alloc: Global,
    names: &TypeNames,
    text: &[u8],
    level: Level,
) -> Result<Vec<u8>, AllocError> {
    let mut out = blank(alloc);
    let Ok(tokens) = lexed(alloc, text) else {
        return whole(out);
    };
    if let Ok((expr, end)) = expression(alloc, &tokens, 0, level, names) {
        if end == tokens.tokens.len() {
            show(&mut out, &expr);
        }
    }
    whole(out)
}

/// Why no expression stands at a place.
fn error_at(
    alloc: Global,
    names: &TypeNames,
    tokens: &Tokens,
    at: usize,
) -> Option<ExpressionError> {
    if at <= tokens.tokens.len() {
        expression(alloc, tokens, at, Level::Comma, names).err()
    } else {
        None
    }
}

static TREES: [(&[u8], &[u8]); 57] = [
    (b"a", b"a"),
    (b"a-b-c", b"[[a-b]-c]"),
    (b"a+b*c", b"[a+[b*c]]"),
    (b"a*b+c", b"[[a*b]+c]"),
    (
        b"a||b&&c|d^e&f==g<h<<i+j*k",
        b"[a||[b&&[c|[d^[e&[f==[g<[h<<[i+[j*k]]]]]]]]]]",
    ),
    (b"a/b%c>>d>e>=f<=g!=h", b"[[[[[[[a/b]%c]>>d]>e]>=f]<=g]!=h]"),
    (b"a=b=c", b"[a=[b=c]]"),
    (b"a=b,c=d", b"[[a=b],[c=d]]"),
    (b"a+b=c+d", b""),
    (b"-a=b", b"[[-a]=b]"),
    (b"a+++b", b"[[a++]+b]"),
    (b"- - -a--", b"[-[-[-[a--]]]]"),
    (b"++a++", b"[++[a++]]"),
    (b"!~+a", b"[![~[+a]]]"),
    (b"a?b:c?d:e", b"[a?b:[c?d:e]]"),
    (b"a?b,c:d", b"[a?[b,c]:d]"),
    (b"a?b:c=d", b""),
    (b"(a,1)*b", b"[([a,1])*b]"),
    (b"f()", b"f"),
    (b"f(a,b=c)+g(a,b,c)", b"[f@@+g@@@]"),
    (b"f(a,)", b""),
    (b"main()", b"main"),
    (b"main+1", b"[main+1]"),
    (b"f()()", b"f"),
    (b"(f)(a)(b,c)", b"(f)@@@"),
    (b"1(a)", b"1@"),
    (b"a++(b)", b"[a++]@"),
    (b"-a(b)", b"[-a@]"),
    (b"'a'+1", b"[c+1]"),
    (b"\"a\" \"b\"+c", b"[\"a\"\"b\"+c]"),
    (b"-s.a.b++", b"[-[[[s.a].b]++]]"),
    (b"s.(a)", b""),
    (b"sizeof(T)-1", b"[[sizeof(:T,)]-1]"),
    (b"sizeof(a)-1", b"[[sizeof (a)]-1]"),
    (b"sizeof(U)-1", b"[[sizeof (U)]-1]"),
    (b"sizeof a++", b"[sizeof [a++]]"),
    (b"sizeof(int)a", b""),
    (
        b"sizeof(unsigned long[2][])",
        b"[sizeof(unsigned,long,[#][])]",
    ),
    (b"(T)(a)", b"[(:T,)(a)]"),
    (b"(T)+1", b"[(:T,)[+1]]"),
    (b"(a)+1", b"[(a)+1]"),
    (b"(U)+1", b"[(U)+1]"),
    (b"(U)(a)", b"(U)@"),
    (b"(T)(int)a+b", b"[[(:T,)[(int,)a]]+b]"),
    (b"-(T)a", b"[-[(:T,)a]]"),
    (b"++(T)a", b""),
    (b"(T)a=b", b""),
    (b"(T const)a", b"[(:T,const,)a]"),
    (b"(const T([a=b]))a", b""),
    (b"(const T([1]))a", b"[(const,:T,([#]))a]"),
    (b"(T())a", b""),
    (b"(struct T)a", b"[(struct T,)a]"),
    (b"(struct)a", b""),
    (b"(T T)a", b""),
    (b"(T b)a", b""),
    (b"a+T", b""),
    (b"(T)", b""),
];

/// Texts that are read from the level of an assignment.
static ASSIGNMENTS: [(&[u8], &[u8]); 2] = [(b"a=b", b"[a=b]"), (b"a,b", b"")];

/// Texts that are read from the level of a choice.
static CONDITIONALS: [(&[u8], &[u8]); 2] = [(b"a?b:c", b"[a?b:c]"), (b"a=b", b"")];

/// The first text whose tree is another than the one beside it.
fn other_tree<'a>(
    alloc: Global,
    names: &TypeNames,
    level: Level,
    cases: &[(&'a [u8], &'a [u8])],
) -> Result<Option<&'a [u8]>, AllocError> {
    for (text, expected) in cases {
        let found = shown(alloc, names, text, level)?;
        if found.as_slice() != *expected {
            return Ok(Some(text));
        }
    }
    Ok(None)
}

#[test]
fn trees_and_refusals(rt: HostRuntime) -> Result<(), Fail> {
    let alloc = rt.alloc();
    let names = some_names(alloc)?;
    assert_eq!(rt; other_tree(alloc, &names, Level::Comma, &TREES)?, None);
    assert_eq!(rt;
        other_tree(alloc, &names, Level::Assignment, &ASSIGNMENTS)?,
        None
    );
    assert_eq!(rt;
        other_tree(alloc, &names, Level::Conditional, &CONDITIONALS)?,
        None
    );
    Ok(())
}

#[test]
fn lines_of_refusals(rt: HostRuntime) -> Result<(), Fail> {
    let names = some_names(rt.alloc())?;
    let tokens = lexed(rt.alloc(), b"a;\n(b\n")
        .ok()
        .ok_or("the text is cut")?;
    for (at, line) in [(2, 2), (4, 3)] {
        let error = error_at(rt.alloc(), &names, &tokens, at);
        assert_eq!(rt; error, Some(ExpressionError::Syntax { line }));
    }
    Ok(())
}

/// What is repeated in a text.
#[derive(Clone, Copy)]
enum Nesting {
    Parentheses,
    Sums,
    Casts,
    Declarators,
}

/// What stands around a nesting, what is repeated before its middle, the middle, and what is repeated behind it.
fn parts(nesting: Nesting) -> [&'static [u8]; 5] {
    match nesting {
        Nesting::Parentheses => [b"", b"(", b"a", b")", b""],
        Nesting::Sums => [b"a", b"+a", b"", b"", b""],
        Nesting::Casts => [b"", b"(int)", b"a", b"", b""],
        Nesting::Declarators => [b"sizeof(int", b"(", b"[]", b")", b")"],
    }
}

/// A text with so many levels but one or two.
fn nested_text(alloc: Global, nesting: Nesting, count: u32) -> Result<Vec<u8>, AllocError> {
    let [front, open, middle, close, back] = parts(nesting);
    let mut text = blank(alloc);
    put(&mut text, front);
    repeat(&mut text, count, open);
    put(&mut text, middle);
    repeat(&mut text, count, close);
    put(&mut text, back);
    whole(text)
}

/// Nestings of 400 and of 401 levels, and how long their trees are, written out.
static NESTINGS: [(Nesting, u32, usize); 8] = [
    (Nesting::Parentheses, 399, 799),
    (Nesting::Parentheses, 400, 0),
    (Nesting::Sums, 399, 1597),
    (Nesting::Sums, 400, 0),
    (Nesting::Casts, 399, 3193),
    (Nesting::Casts, 400, 0),
    (Nesting::Declarators, 398, 812),
    (Nesting::Declarators, 399, 0),
];

/// The first row whose text has a tree of another length.
fn wrong_nesting(
    alloc: Global,
    names: &TypeNames,
    rows: &[(Nesting, u32, usize)],
) -> Result<Option<usize>, AllocError> {
    for (i, (nesting, count, length)) in rows.iter().enumerate() {
        let text = nested_text(alloc, *nesting, *count)?;
        if shown(alloc, names, &text, Level::Comma)?.len() != *length {
            return Ok(Some(i));
        }
    }
    Ok(None)
}

#[test]
fn at_most_400_levels(rt: HostRuntime) -> Result<(), Fail> {
    let names = TypeNames::new(rt.alloc());
    assert_eq!(rt; wrong_nesting(rt.alloc(), &names, &NESTINGS)?, None);
    Ok(())
}

/// How many names are declared, and whether `T`, `U` and `a` are types.
fn known(names: &TypeNames) -> (usize, bool, bool, bool) {
    (
        names.mark(),
        names.is_type(b"T"),
        names.is_type(b"U"),
        names.is_type(b"a"),
    )
}

/// Leaves the newest names.
fn leave(names: &mut TypeNames, mark: usize) {
    if mark <= names.mark() {
        names.leave(mark);
    }
}

/// What is known of some names, then where `T` is hidden and `a` declared, where these are left, and where the hiding `U` is left.
fn known_by_turns(
    alloc: Global,
    names: &mut TypeNames,
) -> Result<[(usize, bool, bool, bool); 4], AllocError> {
    let first = known(names);
    names.declare(alloc, b"T", false)?;
    names.declare(alloc, b"a", true)?;
    let inner = known(names);
    leave(names, first.0);
    let left = known(names);
    leave(names, 2);
    Ok([first, inner, left, known(names)])
}

#[test]
fn names_are_left_with_their_scope(rt: HostRuntime) -> Result<(), Fail> {
    let mut names = some_names(rt.alloc())?;
    let found = known_by_turns(rt.alloc(), &mut names)?;
    assert_eq!(rt;
        found,
        [
            (3, true, false, false),
            (5, false, false, true),
            (3, true, false, false),
            (2, true, true, false),
        ]
    );
    Ok(())
}
