//! Whether statements stand where they may.

ghost use Rattle.std.specs.Prelude.{◌≡◌, ◌&&◌, option_map};
ghost use Rattle.core_tree.specs.Trees.{Items, boxed_statement, view_statement, items_of, with_item};
ghost use Rattle.core_tree.specs.Standing as standing;
ghost use Rattle.core_check.specs.Outer.{standing_in};

use core_tree::{CoreItem, CoreStatement};

/// What stands around a statement: how many labels its function has, and whether `break`, `continue` and a case have their
/// statements.
#[derive(Clone, Copy)]
pub(crate) struct Outer {
    pub(crate) labels: usize,
    pub(crate) breaks: bool,
    pub(crate) continues: bool,
    pub(crate) cases: bool,
}

fn in_loop(outer: Outer) -> Outer
    ensures { standing_in result ≡ standing.in_loop (standing_in outer) }
{
    Outer {
        labels: outer.labels,
        breaks: true,
        continues: true,
        cases: outer.cases,
    }
}

fn in_switch(outer: Outer) -> Outer
    ensures { standing_in result ≡ standing.in_switch (standing_in outer) }
{
    Outer {
        labels: outer.labels,
        breaks: true,
        continues: outer.continues,
        cases: true,
    }
}

#[cycle(standing)]
fn stands(outer: Outer, statement: &CoreStatement) -> bool
    ensures { result ≡ standing.stands (standing_in outer) (view_statement statement.now) }
{
    match statement {
        CoreStatement::Block { items } => are_standing(outer, items),
        CoreStatement::If { yes, .. } => stands(outer, yes),
        CoreStatement::IfElse { yes, no, .. } => stands(outer, yes) && stands(outer, no),
        CoreStatement::Evaluate { .. } => true,
        CoreStatement::Return { .. } => true,
        CoreStatement::ReturnStructure { .. } => true,
        CoreStatement::ReturnNothing { .. } => true,
        CoreStatement::For { body, .. } => stands(in_loop(outer), body),
        CoreStatement::Do { body, .. } => stands(in_loop(outer), body),
        CoreStatement::Switch { items, .. } => are_standing(in_switch(outer), items),
        CoreStatement::Break { .. } => outer.breaks,
        CoreStatement::Continue { .. } => outer.continues,
        CoreStatement::Goto { label, .. } => (*label as usize) < outer.labels,
        CoreStatement::Stray { statement, .. } => outer.cases && stands(outer, statement),
    }
}

#[cycle(standing)]
fn are_standing(outer: Outer, items: &[CoreItem]) -> bool
    ensures { result ≡ standing.are_standing (standing_in outer) (items_of items.now) }
{
    let mut all = true;
    for place in (0..items.len()).rev() {
        all = is_standing(outer, &items[place]) && all;
    }
    all
}

#[cycle(standing)]
fn is_standing(outer: Outer, item: &CoreItem) -> bool
    ensures { (rest : Items) → (result && standing.are_standing (standing_in outer) rest) ≡ standing.are_standing (standing_in outer) (with_item item.now rest) }
{
    match item {
        CoreItem::Declare { .. } => true,
        CoreItem::Initialize { .. } => true,
        CoreItem::InitializeStructure { .. } => true,
        CoreItem::Statement { statement } => stands(outer, statement),
        CoreItem::Label { label } => (*label as usize) < outer.labels,
        CoreItem::Case { .. } => outer.cases,
        CoreItem::Default { .. } => outer.cases,
    }
}

// Of the body of a function with so many labels.
pub(crate) fn stands_body(labels: usize, body: &Option<Box<CoreStatement>>) -> bool
    ensures { result ≡ standing.stands_body labels (option_map boxed_statement body.now) }
{
    let alone = Outer {
        labels,
        breaks: false,
        continues: false,
        cases: false,
    };
    match body {
        Some(statement) => stands(alone, statement),
        None => true,
    }
}
