//! What is read so far of a tree, and the words of its file.

// A tree stands in words, each behind what it works on; one alone at the end of a line of the file is '$'. The words of a file:
//
//     object:N const:N     a static object of N bytes that are 0, not const and const, with the numbers from 1 on
//     at:I/K/N at:I/sK/N   in the bytes of the object before, from byte I on, the pointer to byte N of object K, of string K (from 0)
//     string:TEXT          a string literal
//     int:F void:F         a function that gives a type or nothing, by the name F
//     (x:int) (x:int)&     its parameter x, without and with an address
//     x:N x:N& x:N&const   its variable x of N bytes, without an address, with one, const with one
//     end                  the end of a function, behind its block

use c_types::IntegerType;
use core_check::core_of;
use core_tree::{
    Address, Core, CoreExpr, CoreItem, CoreStatement, CoreStructure, Function, Literal, Name,
    PassedType, Place, StaticObject, Target, Variable,
};
use std::alloc::{AllocError, AllocFailed, Global};
use std::mem;

/// Why no tree is read.
#[derive(Debug, Drop)]
pub enum Unread {
    /// No such word, or nothing before it that it works on.
    Word,
    /// The tree isn't typed.
    Untyped,
    /// There was no memory.
    Memory,
}

impl From<AllocError> for Unread {
    fn from(_e: AllocError) -> Unread {
        Unread::Memory
    }
}

impl<T: Drop> From<AllocFailed<T>> for Unread {
    fn from(_e: AllocFailed<T>) -> Unread {
        Unread::Memory
    }
}

// The functions so far, of the last one what is read, and what waits for a word that works on it.
#[derive(Drop)]
pub(crate) struct Reading<'a> {
    pub(crate) alloc: Global,
    pub(crate) line: u32,
    pub(crate) functions: Vec<Function>,
    pub(crate) objects: Vec<StaticObject>,
    pub(crate) literals: Vec<Literal>,
    pub(crate) function_names: Vec<&'a str>,
    pub(crate) names: Vec<&'a str>,
    pub(crate) variables: Vec<Variable>,
    pub(crate) parameters: Vec<PassedType>,
    pub(crate) gives: Option<PassedType>,
    pub(crate) function_line: u32,
    pub(crate) loops: u32,
    pub(crate) expressions: Vec<Box<CoreExpr>>,
    pub(crate) places: Vec<Box<Place>>,
    pub(crate) structures: Vec<Box<CoreStructure>>,
    pub(crate) blocks: Vec<Vec<CoreItem>>,
}

impl<'a> Reading<'a> {
    pub(crate) fn new(alloc: Global) -> Reading<'a> {
        Reading {
            alloc,
            line: 1,
            functions: Vec::new(alloc),
            objects: Vec::new(alloc),
            literals: Vec::new(alloc),
            function_names: Vec::new(alloc),
            names: Vec::new(alloc),
            variables: Vec::new(alloc),
            parameters: Vec::new(alloc),
            gives: None,
            function_line: 1,
            loops: 0,
            expressions: Vec::new(alloc),
            places: Vec::new(alloc),
            structures: Vec::new(alloc),
            blocks: Vec::new(alloc),
        }
    }

    // ---- what waits

    pub(crate) fn push(&mut self, node: CoreExpr) -> Result<(), Unread> {
        let node = Box::new(self.alloc, node)?;
        self.expressions.push(node)?;
        Ok(())
    }

    pub(crate) fn pop(&mut self) -> Result<Box<CoreExpr>, Unread> {
        self.expressions.pop().ok_or(Unread::Word)
    }

    pub(crate) fn push_place(&mut self, place: Place) -> Result<(), Unread> {
        let place = Box::new(self.alloc, place)?;
        self.places.push(place)?;
        Ok(())
    }

    pub(crate) fn pop_place(&mut self) -> Result<Box<Place>, Unread> {
        self.places.pop().ok_or(Unread::Word)
    }

    pub(crate) fn push_structure(&mut self, value: CoreStructure) -> Result<(), Unread> {
        let value = Box::new(self.alloc, value)?;
        self.structures.push(value)?;
        Ok(())
    }

    pub(crate) fn pop_structure(&mut self) -> Result<Box<CoreStructure>, Unread> {
        self.structures.pop().ok_or(Unread::Word)
    }

    // An item stands next in the innermost block.
    pub(crate) fn add(&mut self, item: CoreItem) -> Result<(), Unread> {
        match self.blocks.last_mut() {
            Some(items) => {
                items.push(item)?;
                Ok(())
            }
            None => Err(Unread::Word),
        }
    }

    pub(crate) fn add_statement(&mut self, statement: CoreStatement) -> Result<(), Unread> {
        let statement = Box::new(self.alloc, statement)?;
        self.add(CoreItem::Statement { statement })
    }

    // The statement before, which isn't an item of its block any more.
    pub(crate) fn take_statement(&mut self) -> Result<Box<CoreStatement>, Unread> {
        match self.blocks.last_mut() {
            Some(items) => match items.pop() {
                Some(CoreItem::Statement { statement }) => Ok(statement),
                _ => Err(Unread::Word),
            },
            None => Err(Unread::Word),
        }
    }

    // ---- names

    // The variable with this name.
    pub(crate) fn variable(&self, name: &str) -> Option<u32> {
        for place in 0..self.names.len() {
            if self.names[place] == name {
                return u32::try_from(place).ok();
            }
        }
        None
    }

    // The function with this name.
    pub(crate) fn function(&self, name: &str) -> Option<u32> {
        for place in 0..self.function_names.len() {
            if self.function_names[place] == name {
                return u32::try_from(place).ok();
            }
        }
        None
    }

    // ---- the words of a file

    pub(crate) fn read_file_word(&mut self, word: &'a str) -> Result<bool, Unread> {
        if word == "$" {
            self.line = self.line.saturating_add(1);
            return Ok(true);
        }
        if word == "end" {
            self.end_function()?;
            return Ok(true);
        }
        match word.split_once(':') {
            Some(parts) => self.read_pair(parts.0, parts.1),
            None => Ok(false),
        }
    }

    fn read_pair(&mut self, head: &'a str, tail: &'a str) -> Result<bool, Unread> {
        if head == "object" || head == "const" {
            self.add_object(number(tail)?, head == "const")?;
            return Ok(true);
        }
        if head == "at" {
            self.add_address(tail)?;
            return Ok(true);
        }
        if head == "string" {
            let bytes = Vec::from_slice(self.alloc, tail.as_bytes())?;
            self.literals.push(Literal { bytes })?;
            return Ok(true);
        }
        if let Some(name) = head.strip_prefix('(') {
            self.add_parameter(name, tail)?;
            return Ok(true);
        }
        self.read_name(head, tail)
    }

    // A function or a variable.
    fn read_name(&mut self, head: &'a str, tail: &'a str) -> Result<bool, Unread> {
        if head == "void" {
            self.begin(None, tail)?;
            return Ok(true);
        }
        if let Some(type_) = integer_type(head) {
            self.begin(Some(PassedType::Integer(type_)), tail)?;
            return Ok(true);
        }
        if !tail.as_bytes().first().is_some_and(|b| b.is_ascii_digit()) {
            return Ok(false);
        }
        self.add_variable(head, tail)?;
        Ok(true)
    }

    fn add_object(&mut self, size: u32, readonly: bool) -> Result<(), Unread> {
        self.objects.push(StaticObject {
            size,
            readonly,
            bytes: Vec::new(self.alloc),
            addresses: Vec::new(self.alloc),
            undefined: None,
        })?;
        Ok(())
    }

    fn add_address(&mut self, text: &str) -> Result<(), Unread> {
        let (at, rest) = text.split_once('/').ok_or(Unread::Word)?;
        let (to, offset) = rest.split_once('/').ok_or(Unread::Word)?;
        let target = match to.strip_prefix('s') {
            Some(literal) => Target::Literal(number(literal)?),
            None => Target::Object(number(to)?),
        };
        let address = Address {
            at: number(at)?,
            target,
            offset: number(offset)?,
        };
        match self.objects.last_mut() {
            Some(object) => {
                object.addresses.push(address)?;
                Ok(())
            }
            None => Err(Unread::Word),
        }
    }

    fn begin(&mut self, gives: Option<PassedType>, name: &'a str) -> Result<(), Unread> {
        self.function_names.push(name)?;
        self.blocks.push(Vec::new(self.alloc))?;
        self.gives = gives;
        self.function_line = self.line;
        self.loops = 0;
        Ok(())
    }

    fn add_parameter(&mut self, name: &'a str, text: &str) -> Result<(), Unread> {
        let (type_, behind) = text.split_once(')').ok_or(Unread::Word)?;
        let type_ = integer_type(type_).ok_or(Unread::Word)?;
        self.parameters.push(PassedType::Integer(type_))?;
        self.names.push(name)?;
        self.variables.push(Variable {
            size: type_.size(),
            readonly: false,
            home: home_at(behind == "&"),
        })?;
        Ok(())
    }

    fn add_variable(&mut self, name: &'a str, text: &str) -> Result<(), Unread> {
        let (size, behind) = text.split_once('&').unwrap_or((text, "none"));
        self.names.push(name)?;
        self.variables.push(Variable {
            size: number(size)?,
            readonly: behind == "const",
            home: home_at(behind != "none"),
        })?;
        Ok(())
    }

    // The addresses of the variables that have one stand in variables behind all others.
    fn place_homes(&mut self) -> Result<(), Unread> {
        let first = self.variables.len();
        for place in 0..first {
            if place < self.variables.len() && self.variables[place].home.is_some() {
                let home = u32::try_from(self.variables.len()).ok();
                self.variables[place].home = home;
                self.variables.push(Variable {
                    size: 8,
                    readonly: false,
                    home: None,
                })?;
            }
        }
        Ok(())
    }

    fn end_function(&mut self) -> Result<(), Unread> {
        self.place_homes()?;
        let body = self.take_body()?;
        let name = self.function_names.last().copied().unwrap_or("");
        let name = Name {
            bytes: Vec::from_slice(self.alloc, name.as_bytes())?,
        };
        let variables = mem::replace(&mut self.variables, Vec::new(self.alloc));
        let parameters = mem::replace(&mut self.parameters, Vec::new(self.alloc));
        self.names.clear();
        self.functions.push(Function {
            name,
            line: self.function_line,
            gives: self.gives,
            parameters,
            ellipsis: None,
            variables,
            labels: 8,
            body: Some(body),
        })?;
        Ok(())
    }

    // The block of a function, which isn't within another.
    fn take_body(&mut self) -> Result<Box<CoreStatement>, Unread> {
        match self.blocks.pop() {
            Some(mut items) => match items.pop() {
                Some(CoreItem::Statement { statement }) => Ok(statement),
                _ => Err(Unread::Word),
            },
            None => Err(Unread::Word),
        }
    }

    // The file of all that is read.
    pub(crate) fn file(self) -> Result<Core, Unread> {
        core_of(self.functions, self.objects, self.literals, true).ok_or(Unread::Untyped)
    }
}

// A place for the address, which isn't known yet.
fn home_at(has_address: bool) -> Option<u32> {
    if has_address { Some(0) } else { None }
}

pub(crate) fn number(text: &str) -> Result<u32, Unread> {
    text.parse::<u32>().ok().ok_or(Unread::Word)
}

pub(crate) fn integer_type(name: &str) -> Option<IntegerType> {
    let types = [
        ("bool", IntegerType::Bool),
        ("char", IntegerType::Char),
        ("uchar", IntegerType::UnsignedChar),
        ("short", IntegerType::Short),
        ("int", IntegerType::Int),
        ("uint", IntegerType::UnsignedInt),
        ("long", IntegerType::Long),
        ("ulong", IntegerType::UnsignedLong),
    ];
    for (known, type_) in types {
        if known == name {
            return Some(type_);
        }
    }
    None
}

/// The typed file of a tree in words with a space between each two, in which forms over pointers may stand.
pub fn tree_of(alloc: Global, tree: &str) -> Result<Core, Unread> {
    let mut reading = Reading::new(alloc);
    for word in tree.split(' ') {
        reading.read_word(word)?;
    }
    reading.file()
}
