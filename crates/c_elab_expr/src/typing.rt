//! The typed operand of an expression.

ghost use Rattle.std.specs.Prelude.{◌≡◌, ◌+◌, ℕ, List, true, false, map, Result, Ok, Err, None, [], IfOk, IfErr};
ghost use Rattle.c_tree.specs.Tree.{first_line, view_name, view_type_part, view_core, view_declarator, view_suffix, no_suffix, suffixes_of};
ghost use Rattle.c_tree.specs.Tree.{view as tree, views_of as trees};
ghost use Rattle.c_types.specs.Types.{CType, view as type_view};
ghost use Rattle.c_elab_expr.specs.Strings.{strings_of, strings_length};
ghost use Rattle.c_operands.specs.Nodes.{constant_node, character_node};
ghost use Rattle.c_operands.specs.Operands.{Operand, value as number_operand, view_operand, is_typed_operand, name_node, member_node, cast_operand, unary_operand, postfix_operand, binary_operand, choice_operand, assign_operand};
ghost use Rattle.c_scope.specs.Scopes.{meaning_of};
ghost use Rattle.c_scope.specs.Types.{type_size};
ghost use Rattle.c_scope.specs.Faults.{Gives, GivesNode, on_line, Fault, fault};
ghost use Rattle.c_elab_expr.specs.Typing.{Adds, bare_line, sized, used_on, node_on, both, node_on_both, comma_of, size_of_named, call_of, no_function, callee, called, is_main, is_used, bound, type_name, operand_size, is_wanted, typed, typed_arguments, operand_in, operand_by, operand, lengths, suffix_lengths, RefusesFirst};

use crate::calls::called;
use crate::strings::{strings_length, strings_of};
use c_operands::{
    CoreOperand, assign_operand, binary_operand, cast_operand, character_node, choice_operand,
    comma_operand, constant_in, constant_node, made, member_node, name_node, operand_bytes,
    postfix_operand, size_node, sized_operand, stated_length, unary_operand, used,
};
use c_scope::{
    Broken, Meaning, Scope, TypingError, array_type, declared_line, parts_type, type_size,
};
use c_token::Constant;
use c_tree::{
    ArraySuffix, BinaryOp, Declarator, DeclaratorCore, Expr, Name, PointerMark, StepOp, TypeName,
    UnaryOp,
};
use c_types::{Layouts, Ty};
use std::alloc::{AllocError, Global};

/// The line of an expression's first token. It goes down one path of the tree.
pub fn first_line(expr: &Expr) -> u32
    ensures { result ≡ first_line (tree expr.now) }
{
    match expr {
        Expr::Constant { line, .. } => *line,
        Expr::Character { line, .. } => *line,
        Expr::Strings { line, .. } => *line,
        Expr::Name { line, .. } => *line,
        Expr::Parens { line, .. } => *line,
        Expr::Unary { line, .. } => *line,
        Expr::Address { line, .. } => *line,
        Expr::Dereference { line, .. } => *line,
        Expr::Cast { line, .. } => *line,
        Expr::SizeofExpr { line, .. } => *line,
        Expr::SizeofType { line, .. } => *line,
        Expr::Step { operand, .. } => first_line(operand),
        Expr::Member { left, .. } => first_line(left),
        Expr::Arrow { left, .. } => first_line(left),
        Expr::Subscript { left, .. } => first_line(left),
        Expr::Binary { left, .. } => first_line(left),
        Expr::Choice { test, .. } => first_line(test),
        Expr::Assign { place, .. } => first_line(place),
        Expr::Comma { left, .. } => first_line(left),
        Expr::Call { function, .. } => first_line(function),
    }
}

// A node, or its broken rule with a line.
fn placed_at(node: Result<CoreOperand, Broken>, line: u32) -> Result<CoreOperand, TypingError>
    ensures { (r : Result Operand ℕ) → GivesNode view_operand node r → Gives view_operand result (on_line line r) }
{
    match node {
        Ok(core) => Ok(core),
        Err(Broken::Rule { rule }) => Err(TypingError::Typing { line, rule }),
        Err(Broken::Memory) => Err(TypingError::Memory),
    }
}

// A number, or its broken rule with a line.
fn number_at(node: Result<u64, Broken>, line: u32) -> Result<u64, TypingError>
    ensures { (r : Result ℕ ℕ) → GivesNode (λ n. n) node r → Gives (λ n. n) result (on_line line r) }
{
    match node {
        Ok(number) => Ok(number),
        Err(Broken::Rule { rule }) => Err(TypingError::Typing { line, rule }),
        Err(Broken::Memory) => Err(TypingError::Memory),
    }
}

// A node, or its broken rule with the line of the first token of a tree.
fn placed(node: Result<CoreOperand, Broken>, first: &Expr) -> Result<CoreOperand, TypingError>
    ensures { (r : Result Operand ℕ) → GivesNode view_operand node r → Gives view_operand result (on_line (first_line (tree first.now)) r) }
{
    match node {
        Ok(core) => Ok(core),
        Err(broken) => placed_at(Err(broken), first_line(first)),
    }
}

// The line of an expression's first token without the parentheses around it.
fn bare_line(expr: &Expr) -> u32
    ensures { result ≡ bare_line (tree expr.now) }
{
    match expr {
        Expr::Parens { inner, .. } => bare_line(inner),
        _ => first_line(expr),
    }
}

// An operand, or its broken rule with the line of an expression without the parentheses around it.
fn used_at(node: Result<CoreOperand, Broken>, expr: &Expr) -> Result<CoreOperand, TypingError>
    ensures { (r : Result Operand ℕ) → GivesNode view_operand node r → Gives view_operand result (on_line (bare_line (tree expr.now)) r) }
{
    match node {
        Ok(core) => Ok(core),
        Err(broken) => placed_at(Err(broken), bare_line(expr)),
    }
}

// A typed expression whose value is wanted or not, within the operand of a `sizeof` or not.
fn used_of(
    measured: bool,
    wanted: bool,
    typed: Result<CoreOperand, TypingError>,
    expr: &Expr,
) -> Result<CoreOperand, TypingError>
    ensures { (r : Result Operand Fault) → Gives view_operand typed r → Gives view_operand result (used_on measured wanted (bare_line (tree expr.now)) r) }
{
    match typed {
        Ok(core) => used_at(used(measured, wanted, core), expr),
        Err(error) => Err(error),
    }
}

// A constant of type unsigned long.
fn sized(alloc: Global, line: u32, size: u64) -> Result<CoreOperand, AllocError>
    ensures { IfOk result (λ x. view_operand x ≡ sized line size) }
{
    made(alloc, size_node(line, size))
}

// The size of strings in a row, with the zero behind them.
fn strings_size(alloc: Global, line: u32, parts: &[Name]) -> Result<CoreOperand, TypingError>
    ensures { Gives view_operand result (Ok (sized line (strings_length (map view_name parts.now) + 1))) }
{
    Ok(sized(alloc, line, strings_length(parts)? + 1)?)
}

// The size of a typed operand, which is no string.
fn size_of_operand(
    alloc: Global,
    line: u32,
    typed: Result<CoreOperand, TypingError>,
    layouts: &Layouts,
) -> Result<CoreOperand, TypingError>
    ensures { (r : Result Operand Fault) → Gives view_operand typed r → Gives view_operand result (operand_size line layouts.now.done None r) }
{
    let core = typed?;
    let size = number_at(operand_bytes(&core, layouts), line)?;
    Ok(sized_operand(alloc, line, size, core, layouts)?)
}

// The size of a type.
fn size_of_type(
    alloc: Global,
    line: u32,
    named: Result<Ty, TypingError>,
    layouts: &Layouts,
) -> Result<CoreOperand, TypingError>
    ensures { (r : Result CType Fault) → Gives type_view named r → Gives view_operand result (size_of_named line layouts.now.done r) }
{
    let type_ = named?;
    let bytes = number_at(type_size(&type_, layouts), line)?;
    Ok(sized(alloc, line, bytes)?)
}

fn constant_at(alloc: Global, line: u32, constant: &Constant) -> Result<CoreOperand, TypingError>
    ensures { Gives view_operand result (Ok (number_operand (constant_node line constant.now) false)) }
{
    Ok(made(alloc, constant_node(line, constant))?)
}

fn character_at(alloc: Global, line: u32, bits: u32) -> Result<CoreOperand, TypingError>
    ensures { Gives view_operand result (Ok (number_operand (character_node line bits) false)) }
{
    Ok(made(alloc, character_node(line, bits))?)
}

fn name_at(alloc: Global, line: u32, name: &Name, scope: &Scope) -> Result<CoreOperand, TypingError>
    ensures { Gives view_operand result (on_line line (name_node scope.now line (meaning_of scope.now.bindings (view_name name.now)))) }
{
    placed_at(
        name_node(alloc, line, scope.meaning(&name.bytes), scope),
        line,
    )
}

fn unary_at(
    alloc: Global,
    line: u32,
    operator: UnaryOp,
    typed: Result<CoreOperand, TypingError>,
) -> Result<CoreOperand, TypingError>
    ensures { (r : Result Operand Fault) → Gives view_operand typed r → Gives view_operand result (node_on line (unary_operand line operator) r) }
{
    let core = typed?;
    placed_at(unary_operand(alloc, line, operator, core), line)
}

fn cast_at(
    alloc: Global,
    line: u32,
    type_: Ty,
    typed: Result<CoreOperand, TypingError>,
    layouts: &Layouts,
) -> Result<CoreOperand, TypingError>
    ensures { (r : Result Operand Fault) → Gives view_operand typed r → Gives view_operand result (node_on line (cast_operand layouts.now.done line (type_view type_)) r) }
{
    let core = typed?;
    placed_at(cast_operand(alloc, line, &type_, core, layouts), line)
}

fn postfix_at(
    alloc: Global,
    line: u32,
    operator: StepOp,
    typed: Result<CoreOperand, TypingError>,
    first: &Expr,
) -> Result<CoreOperand, TypingError>
    ensures { (r : Result Operand Fault) → Gives view_operand typed r → Gives view_operand result (node_on (first_line (tree first.now)) (postfix_operand line operator) r) }
{
    let core = typed?;
    placed(postfix_operand(alloc, line, operator, core), first)
}

fn member_at(
    alloc: Global,
    line: u32,
    typed: Result<CoreOperand, TypingError>,
    name: &Name,
    scope: &Scope,
    first: &Expr,
) -> Result<CoreOperand, TypingError>
    ensures { (r : Result Operand Fault) → Gives view_operand typed r → Gives view_operand result (node_on (first_line (tree first.now)) (λ x. member_node scope.now line x (view_name name.now)) r) }
{
    let core = typed?;
    placed(member_node(alloc, line, core, &name.bytes, scope), first)
}

#[tactic(auto, using(crate::proofs::Both::both_fails, crate::proofs::Both::both_node))]
fn binary_at(
    alloc: Global,
    line: u32,
    operator: BinaryOp,
    typed: Result<(CoreOperand, CoreOperand), TypingError>,
    first: &Expr,
) -> Result<CoreOperand, TypingError>
    ensures { (r q : Result Operand Fault) → Gives (λ p. (view_operand p.0, view_operand p.1)) typed (both r q)
        → Gives view_operand result (node_on_both (first_line (tree first.now)) (binary_operand line operator) r q) }
{
    let (left, right) = typed?;
    placed(binary_operand(alloc, line, operator, left, right), first)
}

#[tactic(auto, using(crate::proofs::Both::both_fails, crate::proofs::Both::both_node))]
fn choice_at(
    alloc: Global,
    line: u32,
    test: CoreOperand,
    typed: Result<(CoreOperand, CoreOperand), TypingError>,
    scope: &Scope,
    first: &Expr,
) -> Result<CoreOperand, TypingError>
    ensures { (r q : Result Operand Fault) → Gives (λ p. (view_operand p.0, view_operand p.1)) typed (both r q)
        → Gives view_operand result (node_on_both (first_line (tree first.now)) (choice_operand scope.now.records.done line (view_operand test)) r q) }
{
    let (yes, no) = typed?;
    placed(
        choice_operand(alloc, line, test, yes, no, scope.layouts()),
        first,
    )
}

#[tactic(auto, using(crate::proofs::Both::both_fails, crate::proofs::Both::both_node))]
fn assign_at(
    alloc: Global,
    line: u32,
    operator: Option<BinaryOp>,
    typed: Result<(CoreOperand, CoreOperand), TypingError>,
    scope: &Scope,
    first: &Expr,
) -> Result<CoreOperand, TypingError>
    ensures { (r q : Result Operand Fault) → Gives (λ p. (view_operand p.0, view_operand p.1)) typed (both r q)
        → Gives view_operand result (node_on_both (first_line (tree first.now)) (assign_operand scope.now line operator) r q) }
{
    let (place, value) = typed?;
    placed(
        assign_operand(alloc, line, operator, place, value, scope),
        first,
    )
}

#[tactic(auto, using(crate::proofs::Both::comma_fails, crate::proofs::Both::both_comma))]
fn comma_at(
    alloc: Global,
    line: u32,
    typed: Result<(CoreOperand, CoreOperand), TypingError>,
    scope: &Scope,
) -> Result<CoreOperand, TypingError>
    ensures { (r q : Result Operand Fault) → Gives (λ p. (view_operand p.0, view_operand p.1)) typed (both r q)
        → Gives view_operand result (comma_of scope.now.records.done line r q) }
{
    let (left, right) = typed?;
    Ok(comma_operand(alloc, line, left, right, scope.layouts())?)
}

// A cast to void doesn't use the value.
fn is_wanted(type_: &Ty) -> bool
    ensures { result ≡ is_wanted (type_view type_.now) }
{
    match type_ {
        Ty::Void => false,
        Ty::Integer(_) => true,
        Ty::Record(_) => true,
        Ty::Array { .. } => true,
        Ty::Pointer { .. } => true,
        Ty::Function(_) => true,
    }
}

// An expression that isn't itself the operand of a `sizeof`, within one or not, whose value is wanted or not.
#[cycle(typing)]
fn used_by(
    alloc: Global,
    expr: &Expr,
    measured: bool,
    wanted: bool,
    scope: &Scope,
) -> Result<CoreOperand, TypingError>
    ensures { Gives view_operand result (operand_in scope.now measured wanted (tree expr.now)) }
{
    let typed = typed_expr(alloc, expr, measured, wanted, scope);
    used_of(measured, wanted, typed, expr)
}

// One whose value is wanted.
#[cycle(typing)]
fn used_expr(
    alloc: Global,
    expr: &Expr,
    measured: bool,
    scope: &Scope,
) -> Result<CoreOperand, TypingError>
    ensures { Gives view_operand result (operand_in scope.now measured true (tree expr.now)) }
{
    used_by(alloc, expr, measured, true, scope)
}

// Two of them, the left one first.
#[cycle(typing)]
fn used_both(
    alloc: Global,
    measured: bool,
    left: &Expr,
    left_wanted: bool,
    right: &Expr,
    right_wanted: bool,
    scope: &Scope,
) -> Result<(CoreOperand, CoreOperand), TypingError>
    ensures { Gives (λ p. (view_operand p.0, view_operand p.1)) result
        (both (operand_in scope.now measured left_wanted (tree left.now)) (operand_in scope.now measured right_wanted (tree right.now))) }
{
    let a = used_by(alloc, left, measured, left_wanted, scope)?;
    let b = used_by(alloc, right, measured, right_wanted, scope)?;
    Ok((a, b))
}

#[cycle(typing)]
fn typed_arguments(
    alloc: Global,
    exprs: &[Expr],
    measured: bool,
    scope: &Scope,
) -> Result<Vec<CoreOperand>, TypingError>
    ensures { Gives (λ v. map view_operand v.items) result (typed_arguments scope.now measured (trees exprs.now)) }
{
    let mut arguments = Vec::new(alloc);
    for expr in exprs {
        let argument = used_expr(alloc, expr, measured, scope)?;
        arguments.push(argument)?;
    }
    Ok(arguments)
}

// A callee that is no name.
fn no_function(
    operand: Result<CoreOperand, TypingError>,
) -> Result<Option<(u32, Meaning)>, TypingError>
    ensures { (r : Result Operand Fault) → Gives view_operand operand r → Gives (λ o. o) result (no_function r) }
{
    match operand {
        Ok(_operand) => Ok(None),
        Err(error) => Err(error),
    }
}

// What a callee means, with the line of its name, also in parentheses; any other callee is typed, and is no function.
#[cycle(typing)]
fn callee(
    alloc: Global,
    function: &Expr,
    measured: bool,
    scope: &Scope,
) -> Result<Option<(u32, Meaning)>, TypingError>
    ensures { Gives (λ o. o) result (callee scope.now (tree function.now) (operand_in scope.now measured true (tree function.now))) }
{
    match function {
        Expr::Name { line, name } => match scope.meaning(&name.bytes) {
            Some(meaning) => Ok(Some((*line, meaning))),
            None => Err(TypingError::Typing {
                line: *line,
                rule: 1,
            }),
        },
        Expr::Parens { inner, .. } => callee(alloc, inner, measured, scope),
        _ => no_function(used_expr(alloc, function, measured, scope)),
    }
}

// The callee is the name `main`, also in parentheses.
fn is_main(function: &Expr) -> bool
    ensures { result ≡ is_main (tree function.now) }
{
    match function {
        Expr::Name { name, .. } => name.bytes.as_slice() == b"main".as_slice(),
        Expr::Parens { inner, .. } => is_main(inner),
        _ => false,
    }
}

// A call whose value is wanted uses what the function hands over, but for `main`, whose end gives 0.
fn is_used(function: &Expr, wanted: bool) -> bool
    ensures { result ≡ is_used (tree function.now) wanted }
{
    wanted && !is_main(function)
}

fn call_at(
    alloc: Global,
    wanted: bool,
    callee: Option<(u32, Meaning)>,
    typed: Result<Vec<CoreOperand>, TypingError>,
    scope: &Scope,
    function: &Expr,
) -> Result<CoreOperand, TypingError>
    ensures { (r : Result (List Operand) Fault) → Gives (λ v. map view_operand v.items) typed r
        → Gives view_operand result (call_of scope.now (tree function.now) wanted callee r) }
{
    let arguments = typed?;
    let used = is_used(function, wanted);
    placed(called(alloc, used, callee, arguments, scope), function)
}

// How many elements a typed bound says.
fn bound_of(typed: Result<CoreOperand, TypingError>, expr: &Expr) -> Result<u64, TypingError>
    ensures { (r : Result Operand Fault) → Gives view_operand typed r → Gives (λ n. n) result (bound (first_line (tree expr.now)) r) }
{
    let core = typed?;
    match constant_in(&core) {
        Some(number) => Ok(stated_length(number)),
        None => Err(TypingError::Typing {
            line: first_line(expr),
            rule: 13,
        }),
    }
}

// How many elements a bound says, within the operand of a `sizeof` or not.
#[cycle(typing)]
fn bound_in(alloc: Global, expr: &Expr, measured: bool, scope: &Scope) -> Result<u64, TypingError>
    ensures { Gives (λ n. n) result (bound (first_line (tree expr.now)) (operand_in scope.now measured true (tree expr.now))) }
{
    bound_of(used_expr(alloc, expr, measured, scope), expr)
}

#[cycle(typing)]
fn add_suffix(
    alloc: Global,
    suffix: &ArraySuffix,
    measured: bool,
    scope: &Scope,
    found: &mut Vec<Option<u64>>,
) -> Result<(), TypingError>
    ensures { Adds result found.old.items found.new.items (suffix_lengths scope.now measured (view_suffix suffix.now no_suffix)) }
{
    match suffix {
        ArraySuffix::Bounded { bound: expr, .. } => {
            let length = bound_in(alloc, expr, measured, scope)?;
            found.push(Some(length))?;
        }
        ArraySuffix::Open { .. } => found.push(None)?,
    }
    Ok(())
}

#[cycle(typing)]
fn add_suffixes(
    alloc: Global,
    suffixes: &[ArraySuffix],
    measured: bool,
    scope: &Scope,
    found: &mut Vec<Option<u64>>,
) -> Result<(), TypingError>
    ensures { Adds result found.old.items found.new.items (suffix_lengths scope.now measured (suffixes_of suffixes.now)) }
{
    for suffix in suffixes {
        add_suffix(alloc, suffix, measured, scope, found)?;
    }
    Ok(())
}

/// No pointers, or rule 7 on the line of the first.
pub fn no_pointers(pointers: &[PointerMark]) -> Result<(), TypingError>
    ensures none { IfOk result (λ _. pointers.now ≡ []) }
    ensures first { IfErr result (λ e. RefusesFirst e pointers.now) }
{
    match pointers {
        [] => Ok(()),
        [first, ..] => Err(TypingError::Typing {
            line: first.line,
            rule: 7,
        }),
    }
}

// The lengths that a declarator has without the pointers before it.
#[cycle(typing)]
fn add_direct_lengths(
    alloc: Global,
    declarator: &Declarator,
    measured: bool,
    scope: &Scope,
    found: &mut Vec<Option<u64>>,
) -> Result<(), TypingError>
    ensures { Adds result found.old.items found.new.items (lengths scope.now measured (view_core declarator.now.core (suffixes_of declarator.now.suffixes.items))) }
{
    match &declarator.core {
        DeclaratorCore::Absent => add_suffixes(alloc, &declarator.suffixes, measured, scope, found),
        DeclaratorCore::Named { .. } => {
            add_suffixes(alloc, &declarator.suffixes, measured, scope, found)
        }
        DeclaratorCore::Inside { inner, .. } => {
            add_lengths(alloc, inner, measured, scope, found)?;
            add_suffixes(alloc, &declarator.suffixes, measured, scope, found)
        }
    }
}

#[cycle(typing)]
fn add_lengths(
    alloc: Global,
    declarator: &Declarator,
    measured: bool,
    scope: &Scope,
    found: &mut Vec<Option<u64>>,
) -> Result<(), TypingError>
    ensures { Adds result found.old.items found.new.items (lengths scope.now measured (view_declarator declarator.now)) }
{
    no_pointers(&declarator.pointers)?;
    add_direct_lengths(alloc, declarator, measured, scope, found)
}

// The lengths of a declarator's arrays, the outermost first, of which `[]` has none. Each bound is an integer constant
// expression, else rule 13 is broken on its first line.
#[cycle(typing)]
fn lengths(
    alloc: Global,
    declarator: &Declarator,
    measured: bool,
    scope: &Scope,
) -> Result<Vec<Option<u64>>, TypingError>
    ensures { Gives (λ v. v.items) result (lengths scope.now measured (view_declarator declarator.now)) }
{
    let mut found = Vec::new(alloc);
    add_lengths(alloc, declarator, measured, scope, &mut found)?;
    Ok(found)
}

// The type of a type name.
#[cycle(typing)]
fn type_named(
    alloc: Global,
    name: &TypeName,
    measured: bool,
    scope: &Scope,
) -> Result<Ty, TypingError>
    ensures { Gives type_view result (type_name scope.now (map view_type_part name.now.specifiers.items) (view_declarator name.now.declarator)
        (lengths scope.now measured (view_declarator name.now.declarator))) }
{
    let named = parts_type(alloc, &name.specifiers, scope)?;
    let lengths = lengths(alloc, &name.declarator, measured, scope)?;
    let line = declared_line(&name.declarator);
    array_type(alloc, named.type_, &lengths, scope.layouts(), line)
}

// The size of an operand of `sizeof` on this line, which is not evaluated.
#[cycle(typing)]
fn operand_size(
    alloc: Global,
    line: u32,
    operand: &Expr,
    scope: &Scope,
) -> Result<CoreOperand, TypingError>
    ensures { Gives view_operand result (operand_size line scope.now.records.done (strings_of (tree operand.now)) (typed scope.now true true (tree operand.now))) }
{
    match strings_of(operand) {
        Some(parts) => strings_size(alloc, line, parts),
        None => size_of_operand(
            alloc,
            line,
            typed_expr(alloc, operand, true, true, scope),
            scope.layouts(),
        ),
    }
}

// Rule 7 on this line.
fn refused(line: u32) -> Result<CoreOperand, TypingError>
    ensures { Gives view_operand result (Err (fault line 7)) }
{
    Err(TypingError::Typing { line, rule: 7 })
}

#[cycle(typing)]
fn typed_expr(
    alloc: Global,
    expr: &Expr,
    measured: bool,
    wanted: bool,
    scope: &Scope,
) -> Result<CoreOperand, TypingError>
    ensures { Gives view_operand result (typed scope.now measured wanted (tree expr.now)) }
{
    match expr {
        Expr::Constant { line, constant } => constant_at(alloc, *line, constant),
        Expr::Character { line, value } => character_at(alloc, *line, *value),
        Expr::Strings { line, .. } => refused(*line),
        Expr::Name { line, name } => name_at(alloc, *line, name, scope),
        Expr::Parens { inner, .. } => typed_expr(alloc, inner, measured, wanted, scope),
        Expr::Unary {
            line,
            operator,
            operand,
        } => unary_at(
            alloc,
            *line,
            *operator,
            used_expr(alloc, operand, measured, scope),
        ),
        Expr::Address { line, .. } => refused(*line),
        Expr::Dereference { line, .. } => refused(*line),
        Expr::Cast {
            line,
            type_name,
            operand,
        } => {
            let type_ = type_named(alloc, type_name, measured, scope)?;
            let core = used_by(alloc, operand, measured, is_wanted(&type_), scope);
            cast_at(alloc, *line, type_, core, scope.layouts())
        }
        Expr::SizeofExpr { line, operand } => operand_size(alloc, *line, operand, scope),
        Expr::SizeofType { line, type_name } => size_of_type(
            alloc,
            *line,
            type_named(alloc, type_name, true, scope),
            scope.layouts(),
        ),
        Expr::Step {
            line,
            operator,
            operand,
        } => postfix_at(
            alloc,
            *line,
            *operator,
            used_expr(alloc, operand, measured, scope),
            operand,
        ),
        Expr::Member { line, left, name } => member_at(
            alloc,
            *line,
            used_expr(alloc, left, measured, scope),
            name,
            scope,
            left,
        ),
        Expr::Arrow { line, .. } => refused(*line),
        Expr::Subscript { line, .. } => refused(*line),
        Expr::Binary {
            line,
            operator,
            left,
            right,
        } => {
            let operands = used_both(alloc, measured, left, true, right, true, scope);
            binary_at(alloc, *line, *operator, operands, left)
        }
        Expr::Choice {
            line,
            test,
            yes,
            no,
        } => {
            let a = used_expr(alloc, test, measured, scope)?;
            let operands = used_both(alloc, measured, yes, wanted, no, wanted, scope);
            choice_at(alloc, *line, a, operands, scope, test)
        }
        Expr::Assign {
            line,
            operator,
            place,
            value,
        } => {
            let operands = used_both(alloc, measured, place, true, value, true, scope);
            assign_at(alloc, *line, *operator, operands, scope, place)
        }
        Expr::Comma { line, left, right } => {
            let operands = used_both(alloc, measured, left, false, right, wanted, scope);
            comma_at(alloc, *line, operands, scope)
        }
        Expr::Call {
            function,
            arguments,
        } => {
            let callee = callee(alloc, function, measured, scope)?;
            let arguments = typed_arguments(alloc, arguments, measured, scope);
            call_at(alloc, wanted, callee, arguments, scope, function)
        }
    }
}

// The typing of an expression that doesn't stand within the operand of a `sizeof`, whose value is wanted or not.
fn typed_by(
    alloc: Global,
    expr: &Expr,
    wanted: bool,
    scope: &Scope,
) -> Result<CoreOperand, TypingError>
    ensures gives { Gives view_operand result (typed scope.now false wanted (tree expr.now)) }
    ensures typed { IfOk result (λ x. is_typed_operand scope.now (view_operand x) ≡ true) }
{
    scope.prove_there();
    typed_expr(alloc, expr, false, wanted, scope)
}

/// The typing of an expression in a scope (C11 6.5), also as the operand of `sizeof`. Operands are typed from left to right and
/// before their operator; the first node that breaks a rule decides, by its lowest rule and the line of its first token.
pub fn typed(alloc: Global, expr: &Expr, scope: &Scope) -> Result<CoreOperand, TypingError>
    ensures gives { Gives view_operand result (typed scope.now false true (tree expr.now)) }
    ensures typed { IfOk result (λ x. is_typed_operand scope.now (view_operand x) ≡ true) }
{
    typed_by(alloc, expr, true, scope)
}

/// The typing of an expression that doesn't stand behind `sizeof`: it is no array.
pub fn operand(alloc: Global, expr: &Expr, scope: &Scope) -> Result<CoreOperand, TypingError>
    ensures gives { Gives view_operand result (operand scope.now (tree expr.now)) }
    ensures typed { IfOk result (λ x. is_typed_operand scope.now (view_operand x) ≡ true) }
{
    let core = typed_by(alloc, expr, true, scope)?;
    used_at(used(false, true, core), expr)
}

/// The same of an expression whose value isn't used, so that the calls that give it don't use theirs.
pub fn ignored(alloc: Global, expr: &Expr, scope: &Scope) -> Result<CoreOperand, TypingError>
    ensures gives { Gives view_operand result (operand_by scope.now false (tree expr.now)) }
    ensures typed { IfOk result (λ x. is_typed_operand scope.now (view_operand x) ≡ true) }
{
    let core = typed_by(alloc, expr, false, scope)?;
    used_at(used(false, false, core), expr)
}

/// How many elements a bound says, which is an integer constant expression, else rule 13 is broken on its first line.
pub fn bound(alloc: Global, expr: &Expr, scope: &Scope) -> Result<u64, TypingError>
    ensures { Gives (λ n. n) result (bound (first_line (tree expr.now)) (operand scope.now (tree expr.now))) }
{
    bound_in(alloc, expr, false, scope)
}
