//! Which names are those of types at a place of a file.

ghost use Rattle.std.specs.Prelude.{◌≡◌, ◌-◌, ◌<◌, ◌≤◌, [], ◌∷◌, ◌++◌, length, drop, OnOk, OnErr, vec_len, vec_capacity};
ghost use Rattle.c_tree.specs.Names.{is_type};

use crate::flags::{Flags, flag_of, replace};
use indexmap::IndexMap;
use std::alloc::{AllocError, Global};
use std::marker::Model;

/// A declared name, and what the name was before.
#[derive(Drop)]
pub struct Entry {
    pub name: Vec<u8>,
    pub is_type: bool,
    pub hidden: Option<bool>,
}

/// Which names are those of types at a place of a file (C11 6.2.1, 6.7.8): the declared names, the newest first, each with
/// whether it is declared as a type.
#[derive(Drop)]
pub struct TypeNames {
    declared: Vec<Entry>,
    newest: Flags,
}

impl Model for TypeNames {
    ghost use Rattle.std.specs.Prelude.{◌≡◌, ℕ, List};
    ghost use Rattle.c_tree.specs.Names.{Scope};
    ghost use Rattle.c_parse_expr.specs.Flags.{scope_in, flag_in, hidden_in, hidden_of, flag_at};

    ghost Value = { Scope };

    ghost view = { λ s. scope_in s.declared.items };

    ghost invariant = { λ s. ((name : List ℕ) → flag_at s.newest.entries name ≡ flag_in (scope_in s.declared.items) name)
        × (hidden_of s.declared.items ≡ hidden_in (scope_in s.declared.items)) };
}

impl TypeNames {
    /// Nothing is declared. The names keep the allocator.
    pub fn new(alloc: Global) -> TypeNames
        ensures { result ≡ [] }
    {
        TypeNames {
            declared: Vec::new(alloc),
            newest: IndexMap::new(alloc),
        }
    }

    /// How many names are declared.
    pub fn mark(&self) -> usize
        ensures { result ≡ length self.now }
    {
        self.declared.len()
    }

    /// Whether a name is that of a type.
    pub fn is_type(&self, name: &[u8]) -> bool
        ensures { result ≡ is_type self.now name.now }
    {
        match flag_of(&self.newest, name) {
            Some(flag) => flag,
            None => false,
        }
    }

    /// Declares a name, as a type or not.
    pub fn declare(&mut self, alloc: Global, name: &[u8], is_type: bool) -> Result<(), AllocError>
        ensures declared { OnOk result (self.new ≡ (name.now, is_type) ∷ self.old) }
        ensures same { OnErr result (self.new ≡ self.old) }
    {
        let key = name.to_vec(alloc)?;
        let own = name.to_vec(alloc)?;
        self.declared.reserve(1)?;
        let hidden = replace(&mut self.newest, key, Some(is_type))?;
        put(
            &mut self.declared,
            Entry {
                name: own,
                is_type,
                hidden,
            },
        );
        Ok(())
    }

    // Takes back the newest declaration.
    fn forget(&mut self)
        requires { 0 < length self.old }
        ensures { self.new ≡ drop 1 self.old }
    {
        match self.declared.pop() {
            Some(entry) => match replace(&mut self.newest, entry.name, entry.hidden) {
                Ok(_) => {}
                Err(_) => unreachable!(),
            },
            None => unreachable!(),
        }
    }

    /// Takes back all declarations but the oldest ones, which are as many as a mark says.
    pub fn leave(&mut self, mark: usize)
        requires { mark ≤ length self.old }
        ensures { self.new ≡ drop (length self.old - mark) self.old }
    {
        while mark < self.mark() {
            self.forget();
        }
    }
}

fn put(entries: &mut Vec<Entry>, entry: Entry)
    requires { vec_len entries.old < vec_capacity entries.old }
    ensures { entries.new.items ≡ entries.old.items ++ entry ∷ [] }
{
    match entries.push(entry) {
        Ok(()) => {}
        Err(_) => unreachable!(),
    }
}
