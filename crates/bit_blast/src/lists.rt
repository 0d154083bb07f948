//! Lists of literals for each node.

ghost use Rattle.std.specs.Prelude.{◌≡◌, ◌≤◌, [], ◌∷◌, ◌++◌, length, OnOk, OnErr};
ghost use Rattle.bit_blast.specs.Numbers.{literals_at};

use gate_bits::Lits;
use sat_form::Lit;
use std::alloc::{AllocError, Global};
use std::marker::Model;

/// Lists of literals by number, from 0 on, each of at most 64 literals, the lowest bit first.
#[derive(Drop)]
pub struct LitLists {
    lists: Vec<Lits>,
}

impl Model for LitLists {
    ghost use Rattle.std.specs.Prelude.{◌≤◌, List, length};
    ghost use Rattle.std.specs.List.{AllByRecursion};
    ghost use Rattle.sat_form.specs.Satisfaction.{Literal};

    ghost Value = { List (List Literal) };

    ghost view = { λ l. l.lists.items };

    ghost invariant = { λ l. AllByRecursion (λ ls. length ls ≤ 64) l.lists.items };
}

impl LitLists {
    /// No lists.
    pub fn new(alloc: Global) -> Self
        ensures { result ≡ [] }
    {
        LitLists {
            lists: Vec::new(alloc),
        }
    }

    /// How many lists there are.
    pub fn len(&self) -> usize
        ensures { result ≡ length self.now }
    {
        self.lists.len()
    }

    /// The list with this number, which has at most 64 literals; no literals where there is none.
    pub fn get(&self, index: usize) -> &[Lit]
        ensures is { result.now ≡ literals_at self.now index }
        ensures short { length result.now ≤ 64 }
    {
        if index < self.lists.len() {
            self.lists[index].as_slice()
        } else {
            &[]
        }
    }

    /// Adds a list at the end. After an error there is nothing new.
    pub fn push(&mut self, literals: Lits) -> Result<(), AllocError>
        requires { length literals ≤ 64 }
        ensures ok { OnOk result (self.new ≡ self.old ++ literals ∷ []) }
        ensures err { OnErr result (self.new ≡ self.old) }
    {
        self.lists.push(literals)?;
        Ok(())
    }
}
