//! Labels, and the jumps to them.

ghost use Rattle.std.specs.Prelude.{◌≡◌, ◌<◌, ◌++◌, ◌∷◌, ℕ, [], List, length, vec_len, vec_capacity, OnOk, OnErr, IfOk};
ghost use Rattle.c_tree.specs.Tree.{view_name};
ghost use Rattle.c_tree.specs.Statements.{view_statement, items_of};
ghost use Rattle.c_elab_flow.specs.Jumps.{Knows, labels_in, labels_of, label_number, jumps_in, jumps_of};
ghost use Rattle.c_elab_flow.specs.Lookahead.{with_jumps, Notes, Looks, is_passed_at};

use c_tree::{Item, Name, Stmt};
use indexmap::IndexMap;
use std::alloc::{AllocError, Global};
use std::marker::Model;

/// The labels of a function in their order, and the number of the first of each name.
#[derive(Drop)]
pub struct Labels {
    names: Vec<Vec<u8>>,
    first: IndexMap<Vec<u8>, u32>,
}

impl Model for Labels {
    ghost use Rattle.std.specs.Prelude.{ℕ, List, map};
    ghost use Rattle.c_elab_flow.specs.Jumps.{Knows};

    ghost Value = { List (List ℕ) };

    ghost view = { λ l. map (λ n. n.items) l.names.items };

    ghost invariant = { λ l. Knows l.first.entries (map (λ n. n.items) l.names.items) };
}

// More labels than this have no memory.
const LABELS: usize = 0x7fff_ffff;

fn put(names: &mut Vec<Vec<u8>>, name: Vec<u8>)
    requires { vec_len names.old < vec_capacity names.old }
    ensures { names.new.items ≡ names.old.items ++ name ∷ [] }
{
    match names.push(name) {
        Ok(()) => {}
        Err(_) => unreachable!(),
    }
}

// The number of the first label of a name, unless it has one.
fn add_first(
    alloc: Global,
    first: &mut IndexMap<Vec<u8>, u32>,
    name: &[u8],
    number: u32,
) -> Result<(), AllocError>
    ensures added { OnOk result ((names : List (List ℕ)) → Knows first.old.entries names → number ≡ length names → Knows first.new.entries (names ++ name.now ∷ [])) }
    ensures same { OnErr result ((names : List (List ℕ)) → Knows first.old.entries names → Knows first.new.entries names) }
{
    if first.get(name).is_some() {
        return Ok(());
    }
    let _old = first.insert(name.to_vec(alloc)?, number)?;
    Ok(())
}

impl Labels {
    /// No labels. They keep the allocator.
    pub fn new(alloc: Global) -> Labels
        ensures { result ≡ [] }
    {
        Labels {
            names: Vec::new(alloc),
            first: IndexMap::new(alloc),
        }
    }

    /// One more label.
    pub fn add(&mut self, alloc: Global, name: &[u8]) -> Result<(), AllocError>
        ensures { OnOk result (self.new ≡ self.old ++ name.now ∷ []) }
    {
        if self.names.len() > LABELS {
            return Err(AllocError);
        }
        let number = self.names.len() as u32;
        let own = name.to_vec(alloc)?;
        self.names.reserve(1)?;
        add_first(alloc, &mut self.first, name, number)?;
        put(&mut self.names, own);
        Ok(())
    }

    /// How many labels there are.
    pub fn len(&self) -> usize
        ensures { result ≡ length self.now }
    {
        self.names.len()
    }

    /// The number of the first label of a name.
    pub fn number(&self, name: &[u8]) -> Option<u32>
        ensures { result ≡ label_number self.now name.now }
    {
        match self.first.get(name) {
            Some(number) => Some(*number),
            None => None,
        }
    }
}

/// Adds the labels of a statement.
#[cycle(labels)]
pub fn add_labels(alloc: Global, statement: &Stmt, labels: &mut Labels) -> Result<(), AllocError>
    ensures { OnOk result (labels.new ≡ labels.old ++ labels_in (view_statement statement.now)) }
{
    match statement {
        Stmt::Block { items, .. } => add_labels_of(alloc, items, labels),
        Stmt::If { yes, .. } => add_labels(alloc, yes, labels),
        Stmt::IfElse { yes, no, .. } => {
            add_labels(alloc, yes, labels)?;
            add_labels(alloc, no, labels)
        }
        Stmt::Evaluate { .. } => Ok(()),
        Stmt::ReturnNothing { .. } => Ok(()),
        Stmt::ReturnValue { .. } => Ok(()),
        Stmt::Empty { .. } => Ok(()),
        Stmt::While { body, .. } => add_labels(alloc, body, labels),
        Stmt::Do { body, .. } => add_labels(alloc, body, labels),
        Stmt::For { body, .. } => add_labels(alloc, body, labels),
        Stmt::ForDeclared { body, .. } => add_labels(alloc, body, labels),
        Stmt::Switch { body, .. } => add_labels(alloc, body, labels),
        Stmt::Case { body, .. } => add_labels(alloc, body, labels),
        Stmt::Default { body, .. } => add_labels(alloc, body, labels),
        Stmt::Label { name, body, .. } => {
            labels.add(alloc, &name.bytes)?;
            add_labels(alloc, body, labels)
        }
        Stmt::Goto { .. } => Ok(()),
        Stmt::Break { .. } => Ok(()),
        Stmt::Continue { .. } => Ok(()),
    }
}

#[cycle(labels)]
fn add_labels_of(alloc: Global, items: &[Item], labels: &mut Labels) -> Result<(), AllocError>
    ensures { OnOk result (labels.new ≡ labels.old ++ labels_of (items_of items.now)) }
{
    for item in items {
        match item {
            Item::Declares(_) => {}
            Item::Does(statement) => add_labels(alloc, statement, labels)?,
        }
    }
    Ok(())
}

/// Which items of a list a jump leads to: behind each label's last item, its number; where the last case ends; and how far the
/// jumps of earlier items lead.
#[derive(Drop)]
pub struct Ahead {
    labels: IndexMap<Vec<u8>, usize>,
    cases: usize,
    reach: usize,
}

// Notes the labels and cases before the statement of the item with a number.
fn note_item(
    alloc: Global,
    statement: &Stmt,
    number: usize,
    switched: bool,
    ahead: &mut Ahead,
) -> Result<(), AllocError>
    ensures { OnOk result (Notes ahead.old switched (view_statement statement.now) number ahead.new) }
{
    match statement {
        Stmt::Label { name, body, .. } => {
            ahead.labels.insert(name.bytes.to_vec(alloc)?, number)?;
            note_item(alloc, body, number, switched, ahead)
        }
        Stmt::Case { body, .. } => {
            if switched {
                ahead.cases = number;
            }
            note_item(alloc, body, number, switched, ahead)
        }
        Stmt::Default { body, .. } => {
            if switched {
                ahead.cases = number;
            }
            note_item(alloc, body, number, switched, ahead)
        }
        _ => Ok(()),
    }
}

/// What lies ahead in a list, which is a switch's or isn't.
pub fn ahead_of(alloc: Global, items: &[Item], switched: bool) -> Result<Ahead, AllocError>
    ensures { IfOk result (λ a. Looks switched (items_of items.now) [] a) }
{
    let mut ahead = Ahead {
        labels: IndexMap::new(alloc),
        cases: 0,
        reach: 0,
    };
    let mut number = 0;
    for item in items {
        match item {
            Item::Declares(_) => {}
            Item::Does(statement) => note_item(alloc, statement, number, switched, &mut ahead)?,
        }
        number += 1;
    }
    Ok(ahead)
}

impl Ahead {
    /// Whether a jump passes over the declaration with this number in the list.
    pub fn is_passed(&self, number: usize) -> bool
        ensures { result ≡ is_passed_at self.now number }
    {
        number < self.cases || number < self.reach
    }

    // Notes a jump.
    fn jump(&mut self, name: &Name)
        ensures { self.new ≡ with_jumps self.old (view_name name.now ∷ []) }
    {
        let reach = match self.labels.get(&name.bytes) {
            Some(number) => *number,
            None => 0,
        };
        if self.reach < reach {
            self.reach = reach;
        }
    }

    /// Notes the jumps of a statement of the list.
    #[cycle(jumps)]
    pub fn note_jumps(&mut self, statement: &Stmt)
        ensures { self.new ≡ with_jumps self.old (jumps_in (view_statement statement.now)) }
    {
        match statement {
            Stmt::Block { items, .. } => self.note_jumps_of(items),
            Stmt::If { yes, .. } => self.note_jumps(yes),
            Stmt::IfElse { yes, no, .. } => {
                self.note_jumps(yes);
                self.note_jumps(no)
            }
            Stmt::Evaluate { .. } => {}
            Stmt::ReturnNothing { .. } => {}
            Stmt::ReturnValue { .. } => {}
            Stmt::Empty { .. } => {}
            Stmt::While { body, .. } => self.note_jumps(body),
            Stmt::Do { body, .. } => self.note_jumps(body),
            Stmt::For { body, .. } => self.note_jumps(body),
            Stmt::ForDeclared { body, .. } => self.note_jumps(body),
            Stmt::Switch { body, .. } => self.note_jumps(body),
            Stmt::Case { body, .. } => self.note_jumps(body),
            Stmt::Default { body, .. } => self.note_jumps(body),
            Stmt::Label { body, .. } => self.note_jumps(body),
            Stmt::Goto { name, .. } => self.jump(name),
            Stmt::Break { .. } => {}
            Stmt::Continue { .. } => {}
        }
    }

    #[cycle(jumps)]
    fn note_jumps_of(&mut self, items: &[Item])
        ensures { self.new ≡ with_jumps self.old (jumps_of (items_of items.now)) }
    {
        for item in items {
            match item {
                Item::Declares(_) => {}
                Item::Does(statement) => self.note_jumps(statement),
            }
        }
    }
}
