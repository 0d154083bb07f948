//! Tests of the parsing of files.

// Files, declarations and statements, with the trees that they have (C11 6.7 to 6.9).

use crate::spelled::{Text, blank, lexed, put, put_pointers, repeat, show_type, whole};
use c_parse_decl::{ParseError, parse};
use c_tree::{
    Declaration, DeclaratorSuffix, Enumerator, Expr, External, File, FullDeclarator,
    FunctionSpecifier, Initializer, Item, MemberDeclaration, Parameter, RecordKind, Specifier,
    Stmt, StorageClass, depth,
};
use std::alloc::{AllocError, Global};
use std::test::*;

/// Writes a name, `@` for a cast, and `#` for any other expression.
fn show_expression(out: &mut Text, expr: &Expr) {
    match expr {
        Expr::Name { name, .. } => put(out, &name.bytes),
        Expr::Cast { .. } => put(out, b"@"),
        _ => put(out, b"#"),
    }
}

fn class_text(class: StorageClass) -> &'static [u8] {
    match class {
        StorageClass::Typedef => b"typedef",
        StorageClass::Extern => b"extern",
        StorageClass::Static => b"static",
        StorageClass::Auto => b"auto",
        StorageClass::Register => b"register",
    }
}

fn show_enumerators(out: &mut Text, enumerators: &[Enumerator]) {
    put(out, b"{");
    for enumerator in enumerators {
        put(out, &enumerator.name.bytes);
        if let Some(value) = &enumerator.value {
            put(out, b"=");
            show_expression(out, value);
        }
        put(out, b",");
    }
    put(out, b"}")
}

/// Writes a specifier, and `.` below so many levels.
#[cycle(specifiers)]
fn show_specifier(out: &mut Text, specifier: &Specifier, levels: u32) {
    match specifier {
        Specifier::Type(part) => show_type(out, part),
        Specifier::Storage { class, .. } => put(out, class_text(*class)),
        Specifier::Function { specifier, .. } => match specifier {
            FunctionSpecifier::Inline => put(out, b"inline"),
            FunctionSpecifier::Noreturn => put(out, b"_Noreturn"),
        },
        Specifier::Record {
            kind,
            tag,
            members,
            ..
        } => {
            match kind {
                RecordKind::Struct => put(out, b"struct "),
                RecordKind::Union => put(out, b"union "),
            }
            if let Some(name) = tag {
                put(out, &name.bytes);
            }
            show_members(out, members, levels)
        }
        Specifier::Enumeration {
            tag,
            enumerators,
            ..
        } => {
            put(out, b"enum ");
            if let Some(name) = tag {
                put(out, &name.bytes);
            }
            show_enumerators(out, enumerators)
        }
    }
}

#[cycle(specifiers)]
fn show_members(out: &mut Text, members: &[MemberDeclaration], levels: u32) {
    if levels == 0 {
        return put(out, b".");
    }
    put(out, b"{");
    for member in members {
        show_specifiers(out, &member.specifiers, levels - 1);
        for declarator in &member.declarators {
            put(out, b" ");
            show_declarator(out, declarator, levels - 1);
        }
        put(out, b";");
    }
    put(out, b"}")
}

#[cycle(specifiers)]
fn show_specifiers(out: &mut Text, specifiers: &[Specifier], levels: u32) {
    let mut first = true;
    for specifier in specifiers {
        if !first {
            put(out, b" ");
        }
        first = false;
        show_specifier(out, specifier, levels);
    }
}

/// Writes a declarator, and `.` below so many levels.
#[cycle(specifiers)]
fn show_declarator(out: &mut Text, declarator: &FullDeclarator, levels: u32) {
    if levels == 0 {
        return put(out, b".");
    }
    match declarator {
        FullDeclarator::Unnamed { pointers, suffixes } => {
            put_pointers(out, pointers);
            show_suffixes(out, suffixes, levels - 1)
        }
        FullDeclarator::Named {
            pointers,
            name,
            suffixes,
            ..
        } => {
            put_pointers(out, pointers);
            put(out, &name.bytes);
            show_suffixes(out, suffixes, levels - 1)
        }
        FullDeclarator::Inside {
            pointers,
            inner,
            suffixes,
            ..
        } => {
            put_pointers(out, pointers);
            put(out, b"(");
            show_declarator(out, inner, levels - 1);
            put(out, b")");
            show_suffixes(out, suffixes, levels - 1)
        }
    }
}

#[cycle(specifiers)]
fn show_suffixes(out: &mut Text, suffixes: &[DeclaratorSuffix], levels: u32) {
    for suffix in suffixes {
        show_suffix(out, suffix, levels);
    }
}

#[cycle(specifiers)]
fn show_suffix(out: &mut Text, suffix: &DeclaratorSuffix, levels: u32) {
    match suffix {
        DeclaratorSuffix::Bounded { bound, .. } => {
            put(out, b"[");
            show_expression(out, bound);
            put(out, b"]")
        }
        DeclaratorSuffix::Open { .. } => put(out, b"[]"),
        DeclaratorSuffix::Empty { .. } => put(out, b"()"),
        DeclaratorSuffix::Void { .. } => put(out, b"(void)"),
        DeclaratorSuffix::Parameters {
            parameters,
            variadic,
            ..
        } => {
            put(out, b"(");
            show_parameters(out, parameters, levels);
            if *variadic {
                put(out, b"...");
            }
            put(out, b")")
        }
    }
}

/// Writes parameters, each with a comma behind it.
#[cycle(specifiers)]
fn show_parameters(out: &mut Text, parameters: &[Parameter], levels: u32) {
    for parameter in parameters {
        show_specifiers(out, &parameter.specifiers, levels);
        put(out, b" ");
        show_declarator(out, &parameter.declarator, levels);
        put(out, b",");
    }
}

/// Writes an initializer, and `.` below so many levels.
#[cycle(initializers)]
fn show_initializer(out: &mut Text, initializer: &Initializer, levels: u32) {
    if levels == 0 {
        return put(out, b".");
    }
    match initializer {
        Initializer::Value(expr) => show_expression(out, expr),
        Initializer::List { items, .. } => {
            put(out, b"{");
            for item in items {
                show_initializer(out, item, levels - 1);
                put(out, b",");
            }
            put(out, b"}")
        }
    }
}

fn show_declaration(out: &mut Text, declaration: &Declaration) {
    show_specifiers(out, &declaration.specifiers, 10);
    for declarator in &declaration.declarators {
        put(out, b" ");
        show_declarator(out, &declarator.declarator, 10);
        if let Some(initializer) = &declarator.initializer {
            put(out, b"=");
            show_initializer(out, initializer, 10);
        }
    }
    put(out, b";")
}

fn show_maybe(out: &mut Text, expr: &Option<Box<Expr>>) {
    match expr {
        Some(expr) => show_expression(out, expr),
        None => {}
    }
}

#[cycle(showing)]
fn show_item(out: &mut Text, item: &Item, levels: u32) {
    match item {
        Item::Declares(declaration) => show_declaration(out, declaration),
        Item::Does(statement) => show(out, statement, levels),
    }
}

/// Writes a statement, an `if` with square brackets round its branches, and `.` below so many levels.
#[cycle(showing)]
fn show(out: &mut Text, statement: &Stmt, levels: u32) {
    if levels == 0 {
        return put(out, b".");
    }
    let below = levels - 1;
    match statement {
        Stmt::Block { items, .. } => {
            put(out, b"{");
            for item in items {
                show_item(out, item, below);
            }
            put(out, b"}")
        }
        Stmt::If { test, yes, .. } => {
            put(out, b"?");
            show_expression(out, test);
            put(out, b"[");
            show(out, yes, below);
            put(out, b"]")
        }
        Stmt::IfElse { test, yes, no, .. } => {
            put(out, b"?");
            show_expression(out, test);
            put(out, b"[");
            show(out, yes, below);
            put(out, b"][");
            show(out, no, below);
            put(out, b"]")
        }
        Stmt::Evaluate { expression } => {
            show_expression(out, expression);
            put(out, b";")
        }
        Stmt::ReturnNothing { .. } => put(out, b"return;"),
        Stmt::ReturnValue { value, .. } => {
            put(out, b"return ");
            show_expression(out, value);
            put(out, b";")
        }
        Stmt::Empty { .. } => put(out, b";"),
        Stmt::While { test, body, .. } => {
            put(out, b"while ");
            show_expression(out, test);
            show_body(out, body, below)
        }
        Stmt::Do { body, test, .. } => {
            put(out, b"do");
            show_body(out, body, below);
            show_expression(out, test);
            put(out, b";")
        }
        Stmt::For {
            first,
            test,
            last,
            body,
            ..
        } => {
            put(out, b"for(");
            show_maybe(out, first);
            put(out, b";");
            show_maybe(out, test);
            put(out, b";");
            show_maybe(out, last);
            put(out, b")");
            show_body(out, body, below)
        }
        Stmt::ForDeclared {
            declaration,
            test,
            last,
            body,
            ..
        } => {
            put(out, b"for(");
            show_declaration(out, declaration);
            show_maybe(out, test);
            put(out, b";");
            show_maybe(out, last);
            put(out, b")");
            show_body(out, body, below)
        }
        Stmt::Switch { value, body, .. } => {
            put(out, b"switch ");
            show_expression(out, value);
            show_body(out, body, below)
        }
        Stmt::Case { value, body, .. } => {
            put(out, b"case ");
            show_expression(out, value);
            put(out, b":");
            show(out, body, below)
        }
        Stmt::Default { body, .. } => {
            put(out, b"default:");
            show(out, body, below)
        }
        Stmt::Label { name, body, .. } => {
            put(out, &name.bytes);
            put(out, b":");
            show(out, body, below)
        }
        Stmt::Goto { name, .. } => {
            put(out, b"goto ");
            put(out, &name.bytes);
            put(out, b";")
        }
        Stmt::Break { .. } => put(out, b"break;"),
        Stmt::Continue { .. } => put(out, b"continue;"),
    }
}

/// Writes the body of a loop or a `switch` in square brackets.
#[cycle(showing)]
fn show_body(out: &mut Text, statement: &Stmt, levels: u32) {
    put(out, b"[");
    show(out, statement, levels);
    put(out, b"]")
}

/// Writes the declarations and definitions of a file.
fn show_file(out: &mut Text, file: &File) {
    for external in &file.externals {
        match external {
            External::Declares(declaration) => show_declaration(out, declaration),
            External::Defines(definition) => {
                show_specifiers(out, &definition.specifiers, 10);
                put(out, b" ");
                show_declarator(out, &definition.declarator, 10);
                show(out, &definition.body, 10);
            }
        }
    }
}

/// The tree of a text, written out, or the line that has none.
fn shown(alloc: Global, text: &[u8]) -> Result<(Vec<u8>, u32), AllocError> {
    let mut out = blank(alloc);
    let Ok(tokens) = lexed(alloc, text) else {
        return Ok((whole(out)?, 0));
    };
    let line = match parse(alloc, &tokens) {
        Ok(file) => {
            show_file(&mut out, &file);
            0
        }
        Err(ParseError::Syntax { line }) => line,
        Err(ParseError::Memory) => return Err(AllocError),
    };
    Ok((whole(out)?, line))
}

/// Bodies of `int main(void)`.
static BODIES: [(&[u8], &[u8]); 20] = [
    (b"{}", b"{}"),
    (b"{int main;}", b"{int main;}"),
    (b"{int;}", b"{int;}"),
    (b"{int a,b=1,c=d;e;}", b"{int a b=# c=d;e;}"),
    (
        b"{a;int b;{int c;{}}return b;}",
        b"{a;int b;{int c;{}}return b;}",
    ),
    (b"{if(a)b;}", b"{?a[b;]}"),
    (b"{if(a)b;else c;}", b"{?a[b;][c;]}"),
    (b"{if(a)if(b)c;else d;}", b"{?a[?b[c;][d;]]}"),
    (b"{if(a)if(b)c;else d;else e;}", b"{?a[?b[c;][d;]][e;]}"),
    (b"{if(a){if(b)c;}else d;}", b"{?a[{?b[c;]}][d;]}"),
    (b"{if(a)b;else if(c)d;else e;}", b"{?a[b;][?c[d;][e;]]}"),
    (b"{if(a,b)c,d;}", b"{?#[#;]}"),
    (b"{return a,b;}", b"{return #;}"),
    (b"{;while(a)b;do c;while(d);}", b"{;while a[b;]do[c;]d;}"),
    (
        b"{for(;;);for(a;b;c)for(int i=0;i;i)i;}",
        b"{for(;;)[;]for(a;b;c)[for(int i=#;i;i)[i;]]}",
    ),
    (
        b"{switch(a){case 1?2:3:b;default:c:d;break;}}",
        b"{switch a[{case #:b;default:c:d;break;}]}",
    ),
    (b"{a:b:goto a;continue;a?b:c;}", b"{a:b:goto a;continue;#;}"),
    (
        b"{if(a)while(b)if(c)d;else e;}",
        b"{?a[while b[?c[d;][e;]]]}",
    ),
    (
        b"{if(a)do if(b)c;while(d);else e;}",
        b"{?a[do[?b[c;]]d;][e;]}",
    ),
    (
        b"{if(a)x:for(;;)switch(b)if(c)d;else e;}",
        b"{?a[x:for(;;)[switch b[?c[d;][e;]]]]}",
    ),
];

/// Declarations at the level of the file.
static DECLARATIONS: [(&[u8], &[u8]); 32] = [
    (b"int a;", b"int a;"),
    (b"int main;", b"int main;"),
    (b"int main[2];", b"int main[#];"),
    (b"int a=main,main;", b"int a=main main;"),
    (
        b"long unsigned x;unsigned long x;",
        b"long unsigned x;unsigned long x;",
    ),
    (
        b"const long volatile unsigned int long x;",
        b"const long volatile unsigned int long x;",
    ),
    (
        b"int static x;inline _Noreturn extern _Bool y;",
        b"int static x;inline _Noreturn extern _Bool y;",
    ),
    (
        b"auto char a;register short b;signed c;void d;int restrict e;",
        b"auto char a;register short b;signed c;void d;int restrict e;",
    ),
    (b"int ((a)[2])[b][3];", b"int ((a)[#])[b][#];"),
    (b"int a[],b[]={1,{c,},};", b"int a[] b[]={#,{c,},};"),
    (b"int a={{1}},b=(c,d);", b"int a={{#,},} b=#;"),
    (
        b"struct s;union s a;enum s b;",
        b"struct s;union s a;enum s b;",
    ),
    (b"struct{int a;}s,t[2];", b"struct {int a;} s t[#];"),
    (
        b"struct s{const int a,b[2];struct{long c;};union u{int(d);}e;}const f;",
        b"struct s{const int a b[#];struct {long c;};union u{int (d);} e;} const f;",
    ),
    (
        b"struct{enum{A,B=C,}a;enum e b;}c;enum e{D=1?A:B};",
        b"struct {enum {A,B=C,} a;enum e b;} c;enum e{D=#,};",
    ),
    (
        b"size_t a;const pthread_mutex_t b;",
        b":size_t a;const :pthread_mutex_t b;",
    ),
    (b"int typedef T;T a;", b"int typedef T;:T a;"),
    (b"typedef int T;const T;", b"typedef int T;const :T;"),
    (b"typedef int T;T(x);T T;", b"typedef int T;:T (x);:T T;"),
    (
        b"typedef int T,U[2];U x={1,2};",
        b"typedef int T U[#];:U x={#,#,};",
    ),
    (
        b"typedef int T;unsigned T;int a=T;",
        b"typedef int T;unsigned T;int a=T;",
    ),
    (b"typedef int T;int a=(T)-1;", b"typedef int T;int a=@;"),
    (
        b"typedef int T;struct T{T T;}a;T b;",
        b"typedef int T;struct T{:T T;} a;:T b;",
    ),
    (
        b"typedef struct{int a;}T,(U);U b;",
        b"typedef struct {int a;} T (U);:U b;",
    ),
    (
        b"int f(),g(void),h(int,int a),k(const void,...);",
        b"int f() g(void) h(int ,int a,) k(const void ,...);",
    ),
    (
        b"typedef int T;int f(int (T)),g(T),h(int (T)(T x),T T);",
        b"typedef int T;int f(int (:T ,),) g(:T ,) h(int (:T ,)(:T x,),:T T,);",
    ),
    (
        b"int f(int (),int (a),int ([2]),int (()));",
        b"int f(int (),int (a),int ([#]),int (()),);",
    ),
    (
        b"typedef int T;int f(int T,int a[T]);T x;",
        b"typedef int T;int f(int T,int a[T],);:T x;",
    ),
    (
        b"int (f)(void){}static void g(){g();}",
        b"int (f)(void){}static void g(){#;}",
    ),
    (
        b"typedef int T;T f(T T){T;}T x;",
        b"typedef int T;:T f(:T T,){T;}:T x;",
    ),
    (
        b"typedef int T;int f(struct{enum{T}a;}b){T;}T x;",
        b"typedef int T;int f(struct {enum {T,} a;} b,){T;}:T x;",
    ),
    (b"int f(int a)(void)[2];", b"int f(int a,)(void)[#];"),
];

/// Names that hide types.
static HIDING: [(&[u8], &[u8]); 11] = [
    (b"{T x;int T;T=x;{T;}}", b"{:T x;int T;#;{T;}}"),
    (b"{T T=T;}", b"{:T T=T;}"),
    (b"{{int T;T;}T y;}", b"{{int T;T;}:T y;}"),
    (
        b"{{typedef long U;U x;}U;T z;}",
        b"{{typedef long U;:U x;}U;:T z;}",
    ),
    (b"{enum{A=(T)1,T,B=(T)-1};T;}", b"{enum {A=@,T,B=#,};T;}"),
    (b"{struct{enum{T}a;}b;T;}", b"{struct {enum {T,} a;} b;T;}"),
    (b"{int T=1,a=(T)-1;}", b"{int T=# a=#;}"),
    (b"{int a=(T)-1,T;}", b"{int a=@ T;}"),
    (
        b"{int T;{typedef int T;T x;}T;}",
        b"{int T;{typedef int T;:T x;}T;}",
    ),
    (b"{T:;T x;}", b"{T:;:T x;}"),
    (b"{for(int T=1;T;T)T;T y;}", b"{for(int T=#;T;T)[T;]:T y;}"),
];

/// A text, and behind it another.
fn joined(alloc: Global, front: &[u8], back: &[u8]) -> Result<Vec<u8>, AllocError> {
    let mut text = blank(alloc);
    put(&mut text, front);
    put(&mut text, back);
    whole(text)
}

/// The first row of texts, each behind this one, whose tree is another.
fn wrong_tree(
    alloc: Global,
    front: &[u8],
    rows: &[(&[u8], &[u8])],
) -> Result<Option<usize>, AllocError> {
    for (i, (text, expected)) in rows.iter().enumerate() {
        let text = joined(alloc, front, text)?;
        let expected = joined(alloc, front, expected)?;
        if shown(alloc, &text)?.0.as_slice() != expected.as_slice() {
            return Ok(Some(i));
        }
    }
    Ok(None)
}

#[test]
fn trees(rt: HostRuntime) -> Result<(), Fail> {
    let alloc = rt.alloc();
    assert_eq!(rt; wrong_tree(alloc, b"", &DECLARATIONS)?, None);
    assert_eq!(rt; wrong_tree(alloc, b"int main(void)", &BODIES)?, None);
    assert_eq!(rt;
        wrong_tree(alloc, b"typedef int T;int main(void)", &HIDING)?,
        None
    );
    Ok(())
}

/// Texts, and the line at which each has no tree.
static LINES: [(&[u8], u32); 54] = [
    (b"", 1),
    (b"\n\n", 3),
    (b"\nint main(void){\nint a=b,c\n}", 2),
    (b"int main(void){}\nint main(void){\n:}", 2),
    (b"int main(void){a+b;\na+b=c;}", 1),
    (b"int f(...);", 1),
    (b"int f(int a...);", 1),
    (b"int f(int a,);", 1),
    (b"int f(a);", 1),
    (b"int f(int);\n{}", 2),
    (b"typedef int F(void);\nF f{}", 2),
    (b"int f[2](void){}", 1),
    (b"int f(void),g(void){}", 1),
    (b"int main(void){a:}", 1),
    (b"int main(void){case 1:int a;}", 1),
    (b"int main(void){case a,b:;}", 1),
    (b"int main(void){for(;;;);}", 1),
    (b"int main(void){do;while(1)}", 1),
    (b"int main(void){while()a;}", 1),
    (b"int main(void){goto 1;}", 1),
    (b"typedef int T;\nint main(void){T:T x;}", 2),
    (b"int main(void){}\n\nmain", 3),
    (b"int main(void){\nint a=1,2;}", 1),
    (b"int main(void){\nint a,;}", 1),
    (b"int main(void){\nint a=(b;}", 1),
    (b"int main(void){\nreturn\n}", 1),
    (b"int main(void){\nif a b;}", 1),
    (b"int main(void){\nelse b;}", 1),
    (b"int main(void){\nif(a)int b;}", 1),
    (b"int main(void){\nint a", 1),
    (b"int main(void){}\n}", 2),
    (b"int a;\n;", 2),
    (b"int a;\nb;", 2),
    (b"int a;\nint b\nint c;", 2),
    (b"int *a;", 1),
    (b"int (a;", 1),
    (b"int ();", 1),
    (b"int a=b,;", 1),
    (b"int a={};", 1),
    (b"int a={,};", 1),
    (b"int a={1,,};", 1),
    (b"int a={b,c=1,d};\nint e={1 2};", 2),
    (b"struct;", 1),
    (b"struct{};", 1),
    (b"struct{int a};", 1),
    (b"struct{static int a;};", 1),
    (b"struct{a;};", 1),
    (b"struct{int a:3;};", 1),
    (b"struct{int a=1;};", 1),
    (b"enum{};", 1),
    (b"enum{A,,};", 1),
    (b"enum{A=1,2};", 1),
    (b"int size_t;\nsize_t x;", 2),
    (b"typedef int T;\nint main(void){int T;\nT y;}", 2),
];

/// The first row whose text is refused at another line, or not at all.
fn wrong_line(alloc: Global, rows: &[(&[u8], u32)]) -> Result<Option<usize>, AllocError> {
    for (i, (text, line)) in rows.iter().enumerate() {
        if shown(alloc, text)?.1 != *line {
            return Ok(Some(i));
        }
    }
    Ok(None)
}

#[test]
fn lines(rt: HostRuntime) -> Result<(), Fail> {
    assert_eq!(rt; wrong_line(rt.alloc(), &LINES)?, None);
    Ok(())
}

/// A beginning, so many times a text, a middle, so many times another text, and an end.
fn nested(
    alloc: Global,
    count: u32,
    around: (&[u8], &[u8]),
    open: &[u8],
    middle: &[u8],
    close: &[u8],
) -> Result<Vec<u8>, AllocError> {
    let mut text = blank(alloc);
    put(&mut text, around.0);
    repeat(&mut text, count, open);
    put(&mut text, middle);
    repeat(&mut text, count, close);
    put(&mut text, around.1);
    whole(text)
}

const MAIN: (&[u8], &[u8]) = (b"int main(void){", b"}");

const RETURN: (&[u8], &[u8]) = (b"int main(void){return ", b";}");

const INT: (&[u8], &[u8]) = (b"int ", b";");

const VALUE: (&[u8], &[u8]) = (b"int a=", b";");

const BARE: (&[u8], &[u8]) = (b"", b"");

/// A nesting: the greatest count that stays within 400 levels and the next one, what stands around it, what is repeated before
/// the middle, the middle, and what is repeated behind it.
type Nesting = (
    u32,
    u32,
    (&'static [u8], &'static [u8]),
    &'static [u8],
    &'static [u8],
    &'static [u8],
);

static NESTINGS: [Nesting; 16] = [
    (399, 400, MAIN, b"{", b"", b"}"),
    (398, 399, MAIN, b"{", b"int a;", b"}"),
    (397, 398, MAIN, b"if(a)", b"b;", b""),
    (397, 398, MAIN, b"if(a)b;else ", b"b;", b""),
    (398, 399, MAIN, b"if(a)", b"{}", b""),
    (397, 398, RETURN, b"(", b"a", b")"),
    (399, 400, INT, b"(", b"a", b")"),
    (397, 398, INT, b"(", b"a[(b)]", b")"),
    (399, 400, VALUE, b"(", b"1", b")"),
    (399, 400, VALUE, b"{", b"1", b"}"),
    (399, 400, BARE, b"struct{", b"int a;", b"}a;"),
    (400, 401, BARE, b"union{", b"int;", b"};"),
    (397, 398, MAIN, b"while(a)", b"b;", b""),
    (398, 399, MAIN, b"for(;;)", b";", b""),
    (398, 399, MAIN, b"a:", b";", b""),
    (399, 400, INT, b"f(int ", b"a", b")"),
];

/// The number of levels of a text's tree, or 0 where it has none.
fn levels_of(alloc: Global, text: &[u8]) -> u32 {
    let Ok(tokens) = lexed(alloc, text) else {
        return 0;
    };
    match parse(alloc, &tokens) {
        Ok(file) => depth(&file),
        Err(_) => 0,
    }
}

/// The first row that has other levels at its greatest count, or a tree at the next one.
fn wrong_nesting(alloc: Global, rows: &[Nesting]) -> Result<Option<usize>, AllocError> {
    for (i, (most, next, around, open, middle, close)) in rows.iter().enumerate() {
        let within = nested(alloc, *most, *around, open, middle, close)?;
        let past = nested(alloc, *next, *around, open, middle, close)?;
        if levels_of(alloc, &within) != 400 || levels_of(alloc, &past) != 0 {
            return Ok(Some(i));
        }
    }
    Ok(None)
}

#[test]
fn at_most_400_levels(rt: HostRuntime) -> Result<(), Fail> {
    assert_eq!(rt; wrong_nesting(rt.alloc(), &NESTINGS)?, None);
    Ok(())
}

/// A page of C.
const PAGE: &[u8] = b"typedef unsigned long T, U[2];
const struct s { T a; union { int b, c[2]; }; enum { A = 1, B, } d; } s, t = { 1, { 2, }, };
enum e { C = 1 ? A : B };
int main(void) {
T a = 1, b; b = a; if (a < b) { enum { T }; return T; } else if (b) return; else { int c = f(a, b); } return (T) b;
}
size_t (v)[3];
int main(void) {
if (a) if (b) c; else d; { } return a ? b : c;
}
T w;
T g(int (T), ...);
static T h(T T, int n) {
for (int i = 0; i < n; i++) switch (T) { case 1: goto T; default: do ; while (n); } T: return 0;
}";

/// Where each external declaration of the page begins and ends, and its first line.
static PLACES: [(usize, usize, u32); 9] = [
    (0, 30, 1),
    (31, 123, 2),
    (124, 149, 3),
    (150, 284, 4),
    (285, 299, 7),
    (300, 365, 8),
    (366, 370, 11),
    (371, 389, 12),
    (390, 513, 13),
];

/// The line that has no tree where the page is cut, or 0 where it is cut behind an external declaration.
fn line_where_cut(count: usize) -> u32 {
    if count == 0 {
        return 1;
    }
    for (start, end, line) in &PLACES {
        if *start < count && count < *end {
            return *line;
        }
    }
    0
}

#[test]
fn each_beginning_of_a_page_is_refused_or_ends_with_a_declaration(
    rt: HostRuntime,
) -> Result<(), Fail> {
    let alloc = rt.alloc();
    let whole = lexed(alloc, PAGE).ok().ok_or("the page is cut")?;
    assert!(rt; parse(alloc, &whole).is_ok());
    for count in 0..PAGE.len() {
        let (front, _) = PAGE.split_at(count);
        assert_eq!(rt; shown(alloc, front)?.1, line_where_cut(count));
    }
    Ok(())
}
