//! Programs with loops and calls, and programs without.

ghost use Rattle.std.specs.Prelude.{◌≡◌, ◌<◌, true, length};
ghost use Rattle.std.specs.List.{list_all};
ghost use Rattle.goto_prog.specs.Flat.{main_code};
ghost use Rattle.goto_prog.specs.UnrolledCode.{is_flat_code};
ghost use Rattle.goto_prog.specs.Nodes.{view_procedures, routines_fit};

use crate::listing::Code;
use crate::nodes::Procedure;
use actions::Store;
use std::marker::Model;

/// A program as code of functions. Each instruction fits its function: the registers that it names are there
/// with the types that it asks for, the bytes of blocks that it names are there, and a jump counts no more
/// places than are behind it.
#[derive(Drop)]
pub struct Goto {
    procedures: Vec<Procedure>,
    main: u32,
    store: Store,
}

impl Model for Goto {
    ghost use Rattle.std.specs.Prelude.{◌≡◌, ◌<◌, true, length};
    ghost use Rattle.goto_prog.specs.GotoThreads.{GotoFile};
    ghost use Rattle.goto_prog.specs.Nodes.{view_procedures, routines_fit};
    ghost use Rattle.std.specs.Coded.{codes};
    ghost use Rattle.goto_prog.specs.contracts.nodes.Node as node;

    ghost Value = { GotoFile };

    ghost coded = { Prim.hlevel (codes, node.the_row.coded) };

    ghost view = { λ g. record { functions = g.procedures.items; main = g.main; store = g.store } };

    ghost invariant = { λ g. (g.main < length g.procedures.items) × (routines_fit (view_procedures g.procedures.items) ≡ true) };
}

impl Goto {
    /// The code of these functions, of which thread 0 calls the one with the number `main`, and the store at
    /// the start.
    pub fn new(procedures: Vec<Procedure>, main: u32, store: Store) -> Goto
        requires within { main < length procedures.items }
        requires fits { routines_fit (view_procedures procedures.items) ≡ true }
        ensures { result ≡ record { functions = procedures.items; main = main; store = store } }
    {
        Goto {
            procedures,
            main,
            store,
        }
    }

    /// The code of the functions by their numbers.
    pub fn procedures(&self) -> &[Procedure]
        ensures is { result.now ≡ self.now.functions }
        ensures fits { routines_fit (view_procedures self.now.functions) ≡ true }
    {
        &self.procedures
    }

    /// The number of the function that thread 0 calls.
    pub fn main_number(&self) -> u32
        ensures is { result ≡ self.now.main }
        ensures within { self.now.main < length self.now.functions }
    {
        self.main
    }

    /// The store at the start.
    pub fn store(&self) -> &Store
        ensures { result.now ≡ self.now.store }
    {
        &self.store
    }

    /// The parts. Takes no memory.
    pub fn into_parts(self) -> (Vec<Procedure>, u32, Store)
        ensures parts { (result.0.items ≡ self.functions) × (result.1 ≡ self.main) × (result.2 ≡ self.store) }
        ensures within { self.main < length self.functions }
        ensures fits { routines_fit (view_procedures self.functions) ≡ true }
    {
        (self.procedures, self.main, self.store)
    }
}

/// A program as flat code without loops, calls and returns.
#[derive(Drop)]
pub struct Unrolled {
    functions: Vec<Code>,
    main: usize,
    store: Store,
}

impl Model for Unrolled {
    ghost use Rattle.std.specs.Prelude.{◌≡◌, ◌<◌, true, length};
    ghost use Rattle.std.specs.List.{list_all};
    ghost use Rattle.goto_prog.specs.Flat.{Flat};
    ghost use Rattle.goto_prog.specs.UnrolledCode.{is_flat_code};

    ghost Value = { Flat };

    ghost view = { λ g. record { functions = g.functions.items; main = g.main; store = g.store } };

    ghost invariant = { λ g. (g.main < length g.functions.items) × (list_all is_flat_code g.functions.items ≡ true) };
}

impl Unrolled {
    /// The code of these functions, of which thread 0 runs the one with the number `main`, and the store at
    /// the start.
    pub fn new(functions: Vec<Code>, main: usize, store: Store) -> Unrolled
        requires within { main < length functions.items }
        requires flat { list_all is_flat_code functions.items ≡ true }
        ensures { result ≡ record { functions = functions.items; main = main; store = store } }
    {
        Unrolled {
            functions,
            main,
            store,
        }
    }

    /// The code of the functions by their numbers.
    pub fn functions(&self) -> &[Code]
        ensures is { result.now ≡ self.now.functions }
        ensures flat { list_all is_flat_code self.now.functions ≡ true }
    {
        &self.functions
    }

    /// The number of the function that thread 0 runs.
    pub fn main_number(&self) -> usize
        ensures is { result ≡ self.now.main }
        ensures within { self.now.main < length self.now.functions }
    {
        self.main
    }

    /// The code that thread 0 runs.
    pub fn main(&self) -> &Code
        ensures { result.now ≡ main_code self.now }
    {
        &self.functions[self.main]
    }

    /// The store at the start.
    pub fn store(&self) -> &Store
        ensures { result.now ≡ self.now.store }
    {
        &self.store
    }

    /// The parts. Takes no memory.
    pub fn into_parts(self) -> (Vec<Code>, usize, Store)
        ensures parts { (result.0.items ≡ self.functions) × (result.1 ≡ self.main) × (result.2 ≡ self.store) }
        ensures within { self.main < length self.functions }
        ensures flat { list_all is_flat_code self.functions ≡ true }
    {
        (self.functions, self.main, self.store)
    }
}
