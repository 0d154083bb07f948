//! Functions, static objects, and the typed file.

ghost use Rattle.std.specs.Prelude.{◌≡◌, ◌<◌, ◌^◌, true, length, MatchOption, slice_get, option_map};
ghost use Rattle.core_tree.specs.Trees.{core_file, view_core};
ghost use Rattle.core_tree.specs.Standing.{stands_file};
ghost use Rattle.core_tree.specs.Typed.{are_typed, have_small};

use crate::statement::CoreStatement;
use c_types::IntegerType;
use std::marker::Model;

/// A name, by its bytes.
#[derive(Drop)]
pub struct Name {
    pub bytes: Vec<u8>,
}

/// The type of what a call hands over: an integer type, or a struct or union of so many bytes.
#[derive(Clone, Copy, PartialEq, Eq)]
pub enum PassedType {
    Integer(IntegerType),
    Structure(u32),
}

/// A variable of a function: its size in bytes, whether it is defined `const`, and where it has an address the number of the
/// variable that holds it, of 8 bytes.
#[derive(Clone, Copy)]
pub struct Variable {
    pub size: u32,
    pub readonly: bool,
    pub home: Option<u32>,
}

/// What an address in the bytes of a static object points into, and where (C11 6.6p9).
#[derive(Clone, Copy)]
pub enum Target {
    /// A static object, by its number.
    Object(u32),
    /// A string literal, by its place in the file.
    Literal(u32),
}

/// An address among the bytes of a static object: 8 of them from a place on are the pointer to an offset of its target.
#[derive(Clone, Copy)]
pub struct Address {
    pub at: u32,
    pub target: Target,
    pub offset: u32,
}

/// A function: its name with its line, what it gives, none where that is void, the types of its parameters,
/// and, where a declaration of it has an ellipsis, the line of the first of those. The sizes of its
/// variables in bytes by their numbers, of which the parameters are the first, how many labels it has, and its
/// body, where it is defined.
#[derive(Drop)]
pub struct Function {
    pub name: Name,
    pub line: u32,
    pub gives: Option<PassedType>,
    pub parameters: Vec<PassedType>,
    pub ellipsis: Option<u32>,
    pub variables: Vec<Variable>,
    pub labels: usize,
    pub body: Option<Box<CoreStatement>>,
}

/// An object that is there from the start to the end of a run (C11 6.2.4p3): its size in bytes, whether it
/// is defined `const`, and the bytes that its initializer says, from its first on. Those beyond are 0, so
/// that a large object takes no memory before its size is tested.
#[derive(Drop)]
pub struct StaticObject {
    pub size: u32,
    pub readonly: bool,
    pub bytes: Vec<u8>,
    /// The addresses among them, in the order in which they are put there.
    pub addresses: Vec<Address>,
    /// Where the file has no definition of it, the line of its first declarator.
    pub undefined: Option<u32>,
}

/// A string literal that is an object: its bytes, without the 0 behind them (C11 6.4.5p6).
#[derive(Drop)]
pub struct Literal {
    pub bytes: Vec<u8>,
}

/// The typed tree of a file: its functions by their numbers, its static objects, whose numbers begin with 1,
/// its string literals that are objects, in their order, and whether forms over pointers may stand in it.
/// Each part has the type that its place asks for; each variable, each static object, each literal, each
/// function and each label that is named is there; each `break`, `continue`, `case` and `default` stands
/// in its statement; no variable and no static object has 2 ^ 31 bytes or more, and none has more bytes
/// said than it has; there are fewer than 2 ^ 31 functions, static objects and literals each.
#[derive(Drop)]
pub struct Core {
    functions: Vec<Function>,
    objects: Vec<StaticObject>,
    literals: Vec<Literal>,
    pointers: bool,
}

impl Model for Core {
    ghost use Rattle.std.specs.Prelude.{◌≡◌, ◌<◌, ◌^◌, true, length};
    ghost use Rattle.core_tree.specs.Trees.{CoreFile, core_file, view_core};
    ghost use Rattle.core_tree.specs.Standing.{stands_file};
    ghost use Rattle.core_tree.specs.Typed.{are_typed, have_small};
    ghost use Rattle.std.specs.Coded.{codes};
    ghost use Rattle.core_tree.specs.contracts.expression.CoreExpr as expressions;
    ghost use Rattle.core_tree.specs.contracts.statement.CoreItem as items;
    ghost use Rattle.core_tree.specs.contracts.statement.CoreStatement as statements;

    ghost Value = { CoreFile };

    ghost coded = { Prim.hlevel (codes, expressions.the_row.coded, items.the_row.coded, statements.the_row.coded) };

    ghost view = { λ c. core_file c.functions.items c.objects.items c.literals.items c.pointers };

    ghost invariant = { λ c. (length c.functions.items < 2 ^ 31) × (length c.objects.items < 2 ^ 31) × (length c.literals.items < 2 ^ 31) × (are_typed (view_core (core_file c.functions.items c.objects.items c.literals.items c.pointers)) ≡ true) × (stands_file (view_core (core_file c.functions.items c.objects.items c.literals.items c.pointers)) ≡ true) × (have_small (view_core (core_file c.functions.items c.objects.items c.literals.items c.pointers)).functions ≡ true) };
}

impl Core {
    /// The tree of these functions, static objects and literals, and whether forms over pointers may stand in it.
    pub fn new(
        functions: Vec<Function>,
        objects: Vec<StaticObject>,
        literals: Vec<Literal>,
        pointers: bool,
    ) -> Core
        requires few { length functions.items < 2 ^ 31 }
        requires few_objects { length objects.items < 2 ^ 31 }
        requires few_literals { length literals.items < 2 ^ 31 }
        requires typed { are_typed (view_core (core_file functions.items objects.items literals.items pointers)) ≡ true }
        requires standing { stands_file (view_core (core_file functions.items objects.items literals.items pointers)) ≡ true }
        requires small { have_small (view_core (core_file functions.items objects.items literals.items pointers)).functions ≡ true }
        ensures { result ≡ core_file functions.items objects.items literals.items pointers }
    {
        Core {
            functions,
            objects,
            literals,
            pointers,
        }
    }

    /// Takes the tree apart into its functions, its static objects and its literals.
    pub fn into_parts(self) -> (Vec<Function>, Vec<StaticObject>, Vec<Literal>)
        ensures functions { result.0.items ≡ self.functions }
        ensures objects { result.1.items ≡ self.objects }
        ensures literals { result.2.items ≡ self.literals }
    {
        let Core {
            functions,
            objects,
            literals,
            ..
        } = self;
        (functions, objects, literals)
    }

    /// The functions by their numbers.
    pub fn functions(&self) -> &[Function]
        ensures is { result.now ≡ self.now.functions }
        ensures few { length self.now.functions < 2 ^ 31 }
        ensures typed { are_typed (view_core self.now) ≡ true }
        ensures standing { stands_file (view_core self.now) ≡ true }
        ensures small { have_small (view_core self.now).functions ≡ true }
    {
        &self.functions
    }

    /// The static objects, the first of which has the number 1.
    pub fn objects(&self) -> &[StaticObject]
        ensures is { result.now ≡ self.now.objects }
        ensures few { length self.now.objects < 2 ^ 31 }
        ensures typed { are_typed (view_core self.now) ≡ true }
    {
        &self.objects
    }

    /// The string literals that are objects, in their order.
    pub fn literals(&self) -> &[Literal]
        ensures is { result.now ≡ self.now.literals }
        ensures few { length self.now.literals < 2 ^ 31 }
    {
        &self.literals
    }

    /// Whether forms over pointers may stand in the tree: places other than variables and static objects, what is done with
    /// pointers and with the heap, and variables with an address.
    pub fn pointers(&self) -> bool
        ensures { result ≡ self.now.pointers }
    {
        self.pointers
    }
}

/// The name of the function with this number, where there is one.
pub fn function_name(core: &Core, function: u32) -> Option<&Name>
    ensures { option_map (λ n. n.now) result ≡ option_map (λ f. f.name) (slice_get core.now.functions function) }
{
    match core.functions().get(function as usize) {
        Some(found) => Some(&found.name),
        None => None,
    }
}
