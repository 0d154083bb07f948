//! How many levels declarations, statements and files have.

ghost use Rattle.std.specs.Prelude.{◌≡◌, ◌==◌, ◌<◌, ◌^◌, length, max, map, option_map};
ghost use Rattle.c_tree.specs.Tree.{boxed};
ghost use Rattle.c_tree.specs.Declarations.{view_enumerator, view_part, parts_of, members_of, view_full, fulls_of, view_full_suffix, full_suffixes_of, full_end, parameters_of, view_initializer, initials_of, declarators_of, value_depth, enumerators_depth, part_depth, parts_depth, members_depth, full_depth, fulls_depth, full_suffixes_depth, parameters_depth, initial_depth, initials_depth, initializer_depth, declarators_depth};
ghost use Rattle.c_tree.specs.Statements.{statement_depth, view_statement, items_depth, items_of, view_item, done, externals_of, view_external, no_more, file_depth, view_file};

use crate::declaration::{
    Declaration, DeclaratorSuffix, Enumerator, FullDeclarator, InitDeclarator, Initializer,
    MemberDeclaration, Parameter, Specifier,
};
use crate::expr::Expr;
use crate::levels::{expression_depth, larger, pointed_depth};
use crate::statement::{External, File, Item, Stmt};

fn value_depth(value: &Option<Box<Expr>>) -> u32
    requires { value_depth (option_map boxed value.now) < 2 ^ 32 }
    ensures { result ≡ value_depth (option_map boxed value.now) }
{
    match value {
        Some(expr) => expression_depth(expr),
        None => 0,
    }
}

fn enumerators_depth(enumerators: &[Enumerator]) -> u32
    requires { enumerators_depth (map view_enumerator enumerators.now) < 2 ^ 32 }
    ensures { result ≡ enumerators_depth (map view_enumerator enumerators.now) }
{
    let mut levels = 0;
    for enumerator in enumerators {
        levels = larger(levels, value_depth(&enumerator.value));
    }
    levels
}

fn are_none(suffixes: &[DeclaratorSuffix]) -> bool
    ensures { result ≡ (length suffixes.now == 0) }
{
    suffixes.is_empty()
}

#[cycle(specifiers)]
fn part_depth(specifier: &Specifier) -> u32
    requires { part_depth (view_part specifier.now) < 2 ^ 32 }
    ensures { result ≡ part_depth (view_part specifier.now) }
{
    match specifier {
        Specifier::Type(_) => 0,
        Specifier::Storage { .. } => 0,
        Specifier::Function { .. } => 0,
        Specifier::Record { members, .. } => members_depth(members) + 1,
        Specifier::Enumeration { enumerators, .. } => enumerators_depth(enumerators),
    }
}

#[cycle(specifiers)]
fn parts_depth(specifiers: &[Specifier]) -> u32
    requires { parts_depth (parts_of specifiers.now) < 2 ^ 32 }
    ensures { result ≡ parts_depth (parts_of specifiers.now) }
{
    let mut levels = 0;
    for specifier in specifiers {
        levels = larger(levels, part_depth(specifier));
    }
    levels
}

#[cycle(specifiers)]
fn members_depth(members: &[MemberDeclaration]) -> u32
    requires { members_depth (members_of members.now) < 2 ^ 32 }
    ensures { result ≡ members_depth (members_of members.now) }
{
    let mut levels = 0;
    for member in members {
        let own = larger(
            parts_depth(&member.specifiers),
            fulls_depth(&member.declarators),
        );
        levels = larger(levels, own);
    }
    levels
}

#[cycle(specifiers)]
fn fulls_depth(declarators: &[FullDeclarator]) -> u32
    requires { fulls_depth (fulls_of declarators.now) < 2 ^ 32 }
    ensures { result ≡ fulls_depth (fulls_of declarators.now) }
{
    let mut levels = 0;
    for declarator in declarators {
        levels = larger(levels, full_depth(declarator));
    }
    levels
}

#[cycle(specifiers)]
fn full_depth(declarator: &FullDeclarator) -> u32
    requires { full_depth (view_full declarator.now) < 2 ^ 32 }
    ensures { result ≡ full_depth (view_full declarator.now) }
{
    match declarator {
        FullDeclarator::Unnamed { pointers, suffixes } => {
            if are_none(suffixes) {
                pointed_depth(pointers, 0)
            } else {
                pointed_depth(pointers, full_suffixes_depth(suffixes) + 1)
            }
        }
        FullDeclarator::Named {
            pointers,
            suffixes,
            ..
        } => pointed_depth(pointers, full_suffixes_depth(suffixes) + 1),
        FullDeclarator::Inside {
            pointers,
            inner,
            suffixes,
            ..
        } => pointed_depth(
            pointers,
            larger(full_depth(inner), full_suffixes_depth(suffixes)) + 1,
        ),
    }
}

#[cycle(specifiers)]
fn full_suffixes_depth(suffixes: &[DeclaratorSuffix]) -> u32
    requires { full_suffixes_depth (full_suffixes_of suffixes.now) < 2 ^ 32 }
    ensures { result ≡ full_suffixes_depth (full_suffixes_of suffixes.now) }
{
    let mut levels = 0;
    for suffix in suffixes {
        levels = larger(levels, full_suffix_depth(suffix));
    }
    levels
}

#[cycle(specifiers)]
fn full_suffix_depth(suffix: &DeclaratorSuffix) -> u32
    requires { full_suffixes_depth (view_full_suffix suffix.now full_end) < 2 ^ 32 }
    ensures { result ≡ full_suffixes_depth (view_full_suffix suffix.now full_end) }
{
    match suffix {
        DeclaratorSuffix::Bounded { bound, .. } => expression_depth(bound),
        DeclaratorSuffix::Open { .. } => 0,
        DeclaratorSuffix::Empty { .. } => 0,
        DeclaratorSuffix::Void { .. } => 0,
        DeclaratorSuffix::Parameters { parameters, .. } => parameters_depth(parameters),
    }
}

#[cycle(specifiers)]
fn parameters_depth(parameters: &[Parameter]) -> u32
    requires { parameters_depth (parameters_of parameters.now) < 2 ^ 32 }
    ensures { result ≡ parameters_depth (parameters_of parameters.now) }
{
    let mut levels = 0;
    for parameter in parameters {
        let own = larger(
            parts_depth(&parameter.specifiers),
            full_depth(&parameter.declarator),
        );
        levels = larger(levels, own);
    }
    levels
}

#[cycle(initializers)]
fn initial_depth(initializer: &Initializer) -> u32
    requires { initial_depth (view_initializer initializer.now) < 2 ^ 32 }
    ensures { result ≡ initial_depth (view_initializer initializer.now) }
{
    match initializer {
        Initializer::Value(expr) => expression_depth(expr),
        Initializer::List { items, .. } => initials_depth(items) + 1,
    }
}

#[cycle(initializers)]
fn initials_depth(initializers: &[Initializer]) -> u32
    requires { initials_depth (initials_of initializers.now) < 2 ^ 32 }
    ensures { result ≡ initials_depth (initials_of initializers.now) }
{
    let mut levels = 0;
    for initializer in initializers {
        levels = larger(levels, initial_depth(initializer));
    }
    levels
}

fn initializer_depth(initializer: &Option<Initializer>) -> u32
    requires { initializer_depth (option_map view_initializer initializer.now) < 2 ^ 32 }
    ensures { result ≡ initializer_depth (option_map view_initializer initializer.now) }
{
    match initializer {
        Some(initializer) => initial_depth(initializer),
        None => 0,
    }
}

fn declarators_depth(declarators: &[InitDeclarator]) -> u32
    requires { declarators_depth (declarators_of declarators.now) < 2 ^ 32 }
    ensures { result ≡ declarators_depth (declarators_of declarators.now) }
{
    let mut levels = 0;
    for declarator in declarators {
        let own = larger(
            full_depth(&declarator.declarator),
            initializer_depth(&declarator.initializer),
        );
        levels = larger(levels, own);
    }
    levels
}

fn declaration_depth(declaration: &Declaration) -> u32
    requires parts { parts_depth (parts_of declaration.now.specifiers.items) < 2 ^ 32 }
    requires declarators { declarators_depth (declarators_of declaration.now.declarators.items) < 2 ^ 32 }
    ensures { result ≡ max (parts_depth (parts_of declaration.now.specifiers.items)) (declarators_depth (declarators_of declaration.now.declarators.items)) }
{
    larger(
        parts_depth(&declaration.specifiers),
        declarators_depth(&declaration.declarators),
    )
}

#[cycle(statements)]
fn items_depth(items: &[Item]) -> u32
    requires { items_depth (items_of items.now) < 2 ^ 32 }
    ensures { result ≡ items_depth (items_of items.now) }
{
    let mut levels = 0;
    for item in items {
        levels = larger(levels, item_depth(item));
    }
    levels
}

#[cycle(statements)]
fn item_depth(item: &Item) -> u32
    requires { items_depth (view_item item.now done) < 2 ^ 32 }
    ensures { result ≡ items_depth (view_item item.now done) }
{
    match item {
        Item::Declares(declaration) => declaration_depth(declaration),
        Item::Does(statement) => statement_depth(statement),
    }
}

#[cycle(statements)]
fn statement_depth(statement: &Stmt) -> u32
    requires { statement_depth (view_statement statement.now) < 2 ^ 32 }
    ensures { result ≡ statement_depth (view_statement statement.now) }
{
    match statement {
        Stmt::Block { items, .. } => items_depth(items) + 1,
        Stmt::If { test, yes, .. } => { larger(expression_depth(test), statement_depth(yes)) + 1 }
        Stmt::IfElse { test, yes, no, .. } => larger(
            expression_depth(test),
            larger(statement_depth(yes), statement_depth(no)),
        ) + 1,
        Stmt::Evaluate { expression } => expression_depth(expression) + 1,
        Stmt::ReturnNothing { .. } => 1,
        Stmt::ReturnValue { value, .. } => expression_depth(value) + 1,
        Stmt::Empty { .. } => 1,
        Stmt::While { test, body, .. } => larger(expression_depth(test), statement_depth(body)) + 1,
        Stmt::Do { body, test, .. } => larger(statement_depth(body), expression_depth(test)) + 1,
        Stmt::For {
            first,
            test,
            last,
            body,
            ..
        } => larger(
            value_depth(first),
            larger(
                value_depth(test),
                larger(value_depth(last), statement_depth(body)),
            ),
        ) + 1,
        Stmt::ForDeclared {
            declaration,
            test,
            last,
            body,
            ..
        } => larger(
            declaration_depth(declaration),
            larger(
                value_depth(test),
                larger(value_depth(last), statement_depth(body)),
            ),
        ) + 1,
        Stmt::Switch { value, body, .. } => larger(expression_depth(value), statement_depth(body))
            + 1,
        Stmt::Case { value, body, .. } => larger(expression_depth(value), statement_depth(body))
            + 1,
        Stmt::Default { body, .. } => statement_depth(body) + 1,
        Stmt::Label { body, .. } => statement_depth(body) + 1,
        Stmt::Goto { .. } => 1,
        Stmt::Break { .. } => 1,
        Stmt::Continue { .. } => 1,
    }
}

fn external_depth(external: &External) -> u32
    requires { file_depth (view_external external.now no_more) < 2 ^ 32 }
    ensures { result ≡ file_depth (view_external external.now no_more) }
{
    match external {
        External::Declares(declaration) => declaration_depth(declaration),
        External::Defines(definition) => larger(
            parts_depth(&definition.specifiers),
            larger(
                full_depth(&definition.declarator),
                statement_depth(&definition.body),
            ),
        ),
    }
}

fn externals_depth(externals: &[External]) -> u32
    requires { file_depth (externals_of externals.now) < 2 ^ 32 }
    ensures { result ≡ file_depth (externals_of externals.now) }
{
    let mut levels = 0;
    for external in externals {
        levels = larger(levels, external_depth(external));
    }
    levels
}

/// The number of the file's levels: each expression, statement and declarator is one, as are the braces of a structure and of
/// an initializer; bounds and parameters lie below their declarator, an initializer beside it.
pub fn depth(file: &File) -> u32
    requires { file_depth (view_file file.now) < 2 ^ 32 }
    ensures { result ≡ file_depth (view_file file.now) }
{
    externals_depth(&file.externals)
}
