//! The types of C that are accepted.

ghost use Rattle.std.specs.Prelude.{◌≡◌, ◌↔◌, true, IfOk};
ghost use Rattle.c_types.specs.Types.{view, pointer};

use crate::integers::IntegerType;
use std::alloc::{AllocError, Global};
use std::rc::Rc;

/// The type of an expression's value: void or an integer type (C11 6.2.5).
#[derive(Clone, Copy, PartialEq, Eq)]
pub enum ValueType {
    Void,
    Integer(IntegerType),
}

/// A type (C11 6.2.5). Copies share the element of an array and what a pointer points to.
pub enum Ty {
    Void,
    Integer(IntegerType),
    /// A struct or union, by its place in the layouts.
    Record(u32),
    /// 1 to 2,147,483,647 elements.
    Array { element: Rc<Ty>, length: u32 },
    /// A pointer to a type, which may be incomplete, and whether that is const.
    Pointer { to: Rc<Ty>, constant: bool },
    /// A function's type, by its place among the function types of the file, where equal ones have one place.
    Function(u32),
}

/// Whether members lie one behind the other, or overlap (C11 6.2.5p20).
#[derive(Clone, Copy, PartialEq, Eq)]
pub enum RecordKind {
    Struct,
    Union,
}

/// A scalar within an object: where it begins and how large it is, in bytes.
#[derive(Clone, Copy, PartialEq, Eq)]
pub struct Cell {
    pub offset: u32,
    pub size: u32,
}

// A loop, since arrays and pointers lie within one another as deep as a text is long.
impl Drop for Ty {
    fn drop(mut self) {
        loop {
            match self {
                Ty::Void | Ty::Integer(_) | Ty::Record(_) | Ty::Function(_) => return,
                Ty::Array { element, length: _ } => match Rc::into_inner(element) {
                    Some(inner) => self = inner,
                    None => return,
                },
                Ty::Pointer { to, constant: _ } => match Rc::into_inner(to) {
                    Some(inner) => self = inner,
                    None => return,
                },
            }
        }
    }
}

impl Ty {
    /// The same type again.
    pub fn copied(&self) -> Result<Ty, AllocError>
        ensures { IfOk result (λ t. view t ≡ view self.now) }
    {
        match self {
            Ty::Void => Ok(Ty::Void),
            Ty::Integer(type_) => Ok(Ty::Integer(*type_)),
            Ty::Record(place) => Ok(Ty::Record(*place)),
            Ty::Array { element, length } => Ok(Ty::Array {
                element: element.clone()?,
                length: *length,
            }),
            Ty::Pointer { to, constant } => Ok(Ty::Pointer {
                to: to.clone()?,
                constant: *constant,
            }),
            Ty::Function(place) => Ok(Ty::Function(*place)),
        }
    }

    /// The pointer to a type, and whether that is const (C11 6.2.5p20, 6.7.6.1).
    pub fn pointer(alloc: Global, to: Ty, constant: bool) -> Result<Ty, AllocError>
        ensures { IfOk result (λ t. view t ≡ pointer (view to) constant) }
    {
        let to = Rc::new(alloc, to)?;
        Ok(Ty::Pointer { to, constant })
    }
}

/// Whether two types are one: structs, unions and functions by their places, arrays by element and length, pointers by what they
/// point to and whether that is const.
pub fn same(a: &Ty, b: &Ty) -> bool
    ensures { (result ≡ true) ↔ (view a.now ≡ view b.now) }
{
    let mut left = a;
    let mut right = b;
    loop {
        match (left, right) {
            (Ty::Void, Ty::Void) => return true,
            (Ty::Integer(t), Ty::Integer(u)) => return *t == *u,
            (Ty::Record(m), Ty::Record(n)) => return *m == *n,
            (
                Ty::Array { element, length },
                Ty::Array {
                    element: other,
                    length: count,
                },
            ) => {
                if *length != *count {
                    return false;
                }
                left = element;
                right = other;
            }
            (
                Ty::Pointer { to, constant },
                Ty::Pointer {
                    to: other,
                    constant: fixed,
                },
            ) => {
                if *constant != *fixed {
                    return false;
                }
                left = to;
                right = other;
            }
            (Ty::Function(m), Ty::Function(n)) => return *m == *n,
            _ => return false,
        }
    }
}
