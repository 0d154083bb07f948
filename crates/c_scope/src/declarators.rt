//! What declarators make of types.

ghost use Rattle.std.specs.Prelude.{◌≡◌, ◌≤◌, true, Ok, MatchResult, IfOk, IfErr};
ghost use Rattle.c_tree.specs.Tree.{Declared, unnamed, suffixes_of, behind_pointers, view_core, view_declarator};
ghost use Rattle.c_types.specs.Types.{view};
ghost use Rattle.c_types.specs.Layouts.{is_complete, is_sized, size_of, most_bytes};
ghost use Rattle.c_scope.specs.Types.{declared_line, one_array, arrays_of, has_open, array_of, element_type, type_size};
ghost use Rattle.c_scope.specs.Faults.{Gives, GivesNode, Fails, Unbroken, IsRule, IsTyping, on_line};

use crate::fault::{Broken, TypingError};
use c_tree::{ArraySuffix, Declarator, DeclaratorCore, PointerMark};
use c_types::{LayoutError, Layouts, MOST_BYTES, Ty, is_complete, is_sized, size_of};
use std::alloc::Global;
use std::rc::Rc;

// The line of the first of pointers, or of what stands behind them.
fn pointers_line(pointers: &[PointerMark], behind: u32) -> u32
    ensures { (d : Declared) → behind ≡ declared_line d → result ≡ declared_line (behind_pointers pointers.now d) }
{
    match pointers {
        [first, ..] => first.line,
        [] => behind,
    }
}

// The line of the first token of a declarator behind its pointers.
fn direct_line(declarator: &Declarator) -> u32
    ensures { result ≡ declared_line (view_core declarator.now.core (suffixes_of declarator.now.suffixes.items)) }
{
    match &declarator.core {
        DeclaratorCore::Absent => suffixes_line(&declarator.suffixes),
        DeclaratorCore::Named { line, .. } => *line,
        DeclaratorCore::Inside { line, .. } => *line,
    }
}

/// The line of a declarator's first token, 0 where it is empty.
pub fn declared_line(declarator: &Declarator) -> u32
    ensures { result ≡ declared_line (view_declarator declarator.now) }
{
    pointers_line(&declarator.pointers, direct_line(declarator))
}

fn suffixes_line(suffixes: &[ArraySuffix]) -> u32
    ensures { result ≡ declared_line (unnamed (suffixes_of suffixes.now)) }
{
    match suffixes {
        [] => 0,
        [ArraySuffix::Bounded { line, .. }, ..] => *line,
        [ArraySuffix::Open { line }, ..] => *line,
    }
}

/// An array of that many elements, which `[]` doesn't say, or the lowest rule that is broken.
pub fn one_array(
    alloc: Global,
    element: Ty,
    length: Option<u64>,
    layouts: &Layouts,
) -> Result<Ty, Broken>
    ensures array { GivesNode view result (one_array layouts.now.done (view element) length) }
    ensures memory { IfErr result (λ e. Unbroken e (one_array layouts.now.done (view element) length)) }
{
    if !is_complete(&element, layouts) {
        return Err(Broken::Rule { rule: 3 });
    }
    match length {
        None => Err(Broken::Rule { rule: 4 }),
        Some(length) => {
            if length > MOST_BYTES as u64 {
                return Err(Broken::Rule { rule: 4 });
            }
            match Ty::array(alloc, element, length as u32, layouts) {
                Ok(type_) => Ok(type_),
                Err(LayoutError::Memory) => Err(Broken::Memory),
                Err(_) => Err(Broken::Rule { rule: 4 }),
            }
        }
    }
}

// An array of that many elements of a type that is complete and has that size, and the array's own size, or the rule that is
// broken. What lies within the element is not looked at.
fn array_over(
    alloc: Global,
    element: Ty,
    size: u32,
    length: Option<u64>,
    layouts: &Layouts,
) -> Result<(Ty, u32), Broken>
    requires complete { is_complete layouts.now.done (view element) ≡ true }
    requires sized { is_sized layouts.now.done (view element) ≡ true }
    requires size { size ≡ size_of layouts.now.done (view element) }
    ensures array { GivesNode (λ p. view p.0) result (one_array layouts.now.done (view element) length) }
    ensures memory { IfErr result (λ e. Unbroken e (one_array layouts.now.done (view element) length)) }
    ensures complete { IfOk result (λ p. is_complete layouts.now.done (view p.0) ≡ true) }
    ensures sized { IfOk result (λ p. is_sized layouts.now.done (view p.0) ≡ true) }
    ensures size { IfOk result (λ p. p.1 ≡ size_of layouts.now.done (view p.0)) }
{
    match length {
        None => Err(Broken::Rule { rule: 4 }),
        Some(length) => {
            if length == 0 || length > MOST_BYTES as u64 {
                return Err(Broken::Rule { rule: 4 });
            }
            let bytes = length * size as u64;
            if bytes > MOST_BYTES as u64 {
                return Err(Broken::Rule { rule: 4 });
            }
            let element = Rc::new(alloc, element)?;
            let length = length as u32;
            Ok((Ty::Array { element, length }, bytes as u32))
        }
    }
}

// Whether `[]` is among lengths.
fn has_open(lengths: &[Option<u64>]) -> bool
    ensures { result ≡ has_open lengths.now }
{
    for length in lengths {
        if length.is_none() {
            return true;
        }
    }
    false
}

/// The type with arrays of these lengths, the outermost first, or the lowest rule that is broken. As an
/// element an array of no length breaks rule 3 (C11 6.7.6.2p1).
pub fn array_of(
    alloc: Global,
    element: Ty,
    lengths: &[Option<u64>],
    layouts: &Layouts,
) -> Result<Ty, Broken>
    ensures { GivesNode view result (array_of layouts.now.done (view element) lengths.now) }
{
    match lengths {
        [] => Ok(element),
        [_, behind @ ..] => {
            if has_open(behind) {
                return Err(Broken::Rule { rule: 3 });
            }
            arrays_of(alloc, element, lengths, layouts)
        }
    }
}

/// The type of an array's elements, with arrays of these lengths, the outermost first, or the lowest rule that
/// is broken (C11 6.7.6.2p1).
pub fn element_type(
    alloc: Global,
    element: Ty,
    lengths: &[Option<u64>],
    layouts: &Layouts,
) -> Result<Ty, Broken>
    ensures { GivesNode view result (element_type layouts.now.done (view element) lengths.now) }
{
    if has_open(lengths) {
        return Err(Broken::Rule { rule: 3 });
    }
    arrays_of(alloc, element, lengths, layouts)
}

// Arrays of these lengths, each of which is looked at alone.
fn arrays_of(
    alloc: Global,
    element: Ty,
    lengths: &[Option<u64>],
    layouts: &Layouts,
) -> Result<Ty, Broken>
    ensures { GivesNode view result (arrays_of layouts.now.done (view element) lengths.now) }
{
    if lengths.is_empty() {
        return Ok(element);
    }
    let mut size = complete_size(&element, layouts)?;
    let mut type_ = element;
    let mut left = lengths.len();
    while left > 0 {
        left -= 1;
        (type_, size) = array_over(alloc, type_, size, lengths[left], layouts)?;
    }
    Ok(type_)
}

/// The type with arrays of these lengths, the outermost first, or the lowest rule that is broken, on the declarator's line.
pub fn array_type(
    alloc: Global,
    element: Ty,
    lengths: &[Option<u64>],
    layouts: &Layouts,
    line: u32,
) -> Result<Ty, TypingError>
    ensures { Gives view result (on_line line (array_of layouts.now.done (view element) lengths.now)) }
{
    match array_of(alloc, element, lengths, layouts) {
        Ok(type_) => Ok(type_),
        Err(Broken::Rule { rule }) => Err(TypingError::Typing { line, rule }),
        Err(Broken::Memory) => Err(TypingError::Memory),
    }
}

/// The type of an array's elements, as `element_type` gives it, or the lowest rule that is broken, on the declarator's line.
pub fn element_type_on(
    alloc: Global,
    element: Ty,
    lengths: &[Option<u64>],
    layouts: &Layouts,
    line: u32,
) -> Result<Ty, TypingError>
    ensures { Gives view result (on_line line (element_type layouts.now.done (view element) lengths.now)) }
{
    match element_type(alloc, element, lengths, layouts) {
        Ok(type_) => Ok(type_),
        Err(Broken::Rule { rule }) => Err(TypingError::Typing { line, rule }),
        Err(Broken::Memory) => Err(TypingError::Memory),
    }
}

// The bytes of a complete type, or rule 3 or 4. It takes no memory.
fn complete_size(type_: &Ty, layouts: &Layouts) -> Result<u32, Broken>
    ensures size { GivesNode (λ n. n) result (type_size layouts.now.done (view type_.now)) }
    ensures complete { IfOk result (λ _. is_complete layouts.now.done (view type_.now) ≡ true) }
    ensures sized { IfOk result (λ _. is_sized layouts.now.done (view type_.now) ≡ true) }
    ensures is { IfOk result (λ n. n ≡ size_of layouts.now.done (view type_.now)) }
    ensures small { IfOk result (λ n. n ≤ most_bytes) }
    ensures rule { IfErr result IsRule }
{
    if !is_complete(type_, layouts) {
        return Err(Broken::Rule { rule: 3 });
    }
    if !is_sized(type_, layouts) {
        return Err(Broken::Rule { rule: 4 });
    }
    match size_of(type_, layouts) {
        Ok(size) => Ok(size),
        Err(_) => unreachable!(),
    }
}

/// The bytes of a complete type, or rule 3 or 4. It takes no memory.
pub fn type_size(type_: &Ty, layouts: &Layouts) -> Result<u64, Broken>
    ensures size { GivesNode (λ n. n) result (type_size layouts.now.done (view type_.now)) }
    ensures small { IfOk result (λ n. n ≤ most_bytes) }
    ensures rule { IfErr result IsRule }
{
    Ok(complete_size(type_, layouts)? as u64)
}

/// The bytes of an object of this type, or rule 3 or 4 on the line of its declarator. It takes no memory.
pub fn object_size(type_: &Ty, layouts: &Layouts, line: u32) -> Result<u32, TypingError>
    ensures rule { IfErr result IsTyping }
    ensures size { MatchResult result (λ n. type_size layouts.now.done (view type_.now) ≡ Ok n) (λ e. Fails e (on_line line (type_size layouts.now.done (view type_.now)))) }
{
    if !is_complete(type_, layouts) {
        return Err(TypingError::Typing { line, rule: 3 });
    }
    if !is_sized(type_, layouts) {
        return Err(TypingError::Typing { line, rule: 4 });
    }
    match size_of(type_, layouts) {
        Ok(size) => Ok(size),
        Err(_) => unreachable!(),
    }
}
