//! The functions of a file.

ghost use Rattle.std.specs.Prelude.{◌≡◌, ◌≤◌, ◌<◌, ◌^◌, ◌∷◌, ◌++◌, [], None, length, map, slice_get, slice_set, option_map, IfOk, OnOk};
ghost use Rattle.c_scope.specs.Scopes.{view_function_type, view_callable, linked_to, no_functions, is_defined, with_defined};
ghost use Rattle.c_scope.specs.Functions.{type_place, with_placed};

use crate::comparing::same_function;
use c_types::{IntegerType, Ty};
use indexmap::{IndexMap, IndexSet};
use std::alloc::{AllocError, Global};
use std::marker::Model;

/// A function's type (C11 6.7.6.3): what it gives, void where it gives nothing, and whether that is const; the types of its
/// parameters; and whether an ellipsis stands behind these.
#[derive(Drop)]
pub struct FunctionType {
    pub gives: Ty,
    pub constant: bool,
    pub parameters: Vec<Ty>,
    pub ellipsis: bool,
}

/// A function of the file: its name; the line of its name, in its definition, or in its first declarator where it has none so
/// far; its type; the line of its first declarator, where this has an ellipsis; the type of the number that it draws from the
/// inputs, where it does; and whether it has a definition so far.
#[derive(Drop)]
pub struct Callable {
    pub name: Vec<u8>,
    pub line: u32,
    pub type_: FunctionType,
    pub ellipsis: Option<u32>,
    pub draws: Option<IntegerType>,
    pub defined: bool,
}

/// The functions of a file: by number, in the order of their first declarators; their numbers by their names; the function types
/// of the file by place, each once; and the names of the functions that the file defines somewhere.
#[derive(Drop)]
pub struct Functions {
    all: Vec<Callable>,
    named: IndexMap<Vec<u8>, u32>,
    types: Vec<FunctionType>,
    defined: IndexSet<Vec<u8>>,
}

impl Model for Functions {
    ghost use Rattle.std.specs.Prelude.{map};
    ghost use Rattle.std.specs.Coded.{codes};
    ghost use Rattle.c_scope.specs.Scopes.{FunctionTable, view_function_type, view_callable, view_linked, coded_functions};

    ghost Value = { FunctionTable };

    ghost coded = { Prim.hlevel (codes, coded_functions) };

    ghost view = { λ f. record { all = map view_callable f.all.items; named = map view_linked f.named.entries; types = map view_function_type f.types.items; defined = map (λ n. n.items) f.defined.keys } };
}

impl Functions {
    /// No functions. They keep the allocator.
    pub fn new(alloc: Global) -> Functions
        ensures { result ≡ no_functions }
    {
        Functions {
            all: Vec::new(alloc),
            named: IndexMap::new(alloc),
            types: Vec::new(alloc),
            defined: IndexSet::new(alloc),
        }
    }

    /// How many functions there are.
    pub fn len(&self) -> usize
        ensures { result ≡ length self.now.all }
    {
        self.all.len()
    }

    /// A function by its number.
    pub fn function(&self, number: u32) -> Option<&Callable>
        ensures { option_map (λ f. view_callable f.now) result ≡ slice_get self.now.all number }
    {
        self.all.get(number as usize)
    }

    /// The number of the function with a name.
    pub fn named(&self, name: &[u8]) -> Option<u32>
        ensures { result ≡ linked_to self.now.named name.now }
    {
        match self.named.get(name) {
            Some(number) => Some(*number),
            None => None,
        }
    }

    /// One more function with a name that none has so far, and its number.
    pub fn add(&mut self, alloc: Global, name: &[u8], function: Callable) -> Result<u32, AllocError>
        requires new { linked_to self.old.named name.now ≡ None }
        requires room { length self.old.all < 2 ^ 32 }
        ensures number { IfOk result (λ n. n ≡ length self.old.all) }
        ensures added { OnOk result (self.new ≡ record self.old {
          all = self.old.all ++ view_callable function ∷ [];
          named = self.old.named ++ record { name = name.now; object = length self.old.all } ∷ [];
        }) }
    {
        let number = self.all.len() as u32;
        self.all.push(function)?;
        self.named.insert(name.to_vec(alloc)?, number)?;
        Ok(number)
    }

    /// What is known of a function from now on.
    pub fn set(&mut self, number: u32, function: Callable)
        requires { number < length self.old.all }
        ensures { self.new ≡ record self.old { all = slice_set self.old.all number (view_callable function) } }
    {
        self.all[number as usize] = function;
    }

    /// How many function types the file has so far.
    pub fn type_count(&self) -> usize
        ensures { result ≡ length self.now.types }
    {
        self.types.len()
    }

    /// A function type by its place.
    pub fn type_at(&self, number: u32) -> Option<&FunctionType>
        ensures { option_map (λ t. view_function_type t.now) result ≡ slice_get self.now.types number }
    {
        self.types.get(number as usize)
    }

    /// The place of a function type among those of the file, or behind all where it is none of them.
    pub fn type_place(&self, type_: &FunctionType) -> usize
        ensures { result ≡ type_place self.now.types (view_function_type type_.now) }
    {
        place_in(&self.types, type_)
    }

    /// The place of a function type among those of the file, of which it is one from now on.
    pub fn place_type(&mut self, type_: FunctionType) -> Result<u32, AllocError>
        requires { length self.old.types < 2 ^ 32 }
        ensures place { IfOk result (λ n. n ≡ type_place self.old.types (view_function_type type_)) }
        ensures placed { OnOk result (self.new ≡ record self.old { types = with_placed self.old.types (view_function_type type_) }) }
    {
        let place = place_in(&self.types, &type_);
        if place == self.types.len() {
            self.types.push(type_)?;
        }
        Ok(place as u32)
    }

    /// Whether the file defines a function of this name somewhere.
    pub fn is_defined(&self, name: &[u8]) -> bool
        ensures { result ≡ is_defined self.now name.now }
    {
        self.defined.contains(name)
    }

    /// Notes that the file defines a function of this name.
    pub fn define(&mut self, alloc: Global, name: &[u8]) -> Result<(), AllocError>
        ensures { OnOk result (self.new ≡ with_defined self.old name.now) }
    {
        let own = name.to_vec(alloc)?;
        self.defined.insert(own)?;
        Ok(())
    }
}

// The place of the first function type that is this one, or behind all.
#[tactic(auto, using(crate::proofs::Compared::place_found, crate::proofs::Compared::place_more, crate::proofs::Compared::place_none))]
fn place_in(types: &[FunctionType], type_: &FunctionType) -> usize
    ensures place { result ≡ type_place (map view_function_type types.now) (view_function_type type_.now) }
    ensures within { result ≤ length types.now }
{
    let mut place = 0;
    while place < types.len() {
        if same_function(&types[place], type_) {
            return place;
        }
        place += 1;
    }
    place
}
