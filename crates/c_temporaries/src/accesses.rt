//! How code reaches the value at a place.

ghost use Rattle.std.specs.Prelude.{◌≡◌};
ghost use Rattle.core_tree.specs.Trees.{view_place};
ghost use Rattle.c_temporaries.specs.Accesses.{access, home_in, holder_in, is_evaluated, variable_access, evaluated_access, unless_homed};

use core_tree::{Place, Variable};

/// How code reaches the value at a place.
#[derive(Clone, Copy)]
pub enum Access {
    /// At an offset of a variable without an address.
    Variable { variable: u32, offset: u32 },
    /// At an offset of a static object.
    Object { object: u32, offset: u32 },
    /// Within a variable without an address, at an offset that is evaluated.
    Within { variable: u32 },
    /// Where a pointer points to, which is evaluated.
    Pointed,
}

/// The variable that holds the address of a variable, if it has one.
pub fn home_in(variables: &[Variable], variable: u32) -> Option<u32>
    ensures { result ≡ home_in variables.now variable }
{
    match variables.get(variable as usize) {
        Some(found) => found.home,
        None => None,
    }
}

// The variable without an address within which a place lies, if it does. It goes down one path of the tree.
fn holder_in(variables: &[Variable], place: &Place) -> Option<u32>
    ensures { result ≡ holder_in variables.now (view_place place.now) }
{
    match place {
        Place::Variable { variable, .. } => match home_in(variables, *variable) {
            Some(_) => None,
            None => Some(*variable),
        },
        Place::Object { .. } => None,
        Place::Literal { .. } => None,
        Place::Pointed { .. } => None,
        Place::Arrow { .. } => None,
        Place::Member { place, .. } => holder_in(variables, place),
        Place::Element { place, .. } => holder_in(variables, place),
        Place::Subscript { .. } => None,
    }
}

// The access where a register tells where the place is.
fn evaluated_access(holder: Option<u32>) -> Access
    ensures { result ≡ evaluated_access holder }
{
    match holder {
        Some(variable) => Access::Within { variable },
        None => Access::Pointed,
    }
}

/// How the value at a place is reached, over the variables of the function.
pub fn access_to(variables: &[Variable], place: &Place) -> Access
    ensures { result ≡ access variables.now (view_place place.now) }
{
    match place {
        Place::Variable {
            variable,
            offset,
            ..
        } => match home_in(variables, *variable) {
            Some(_) => Access::Pointed,
            None => Access::Variable {
                variable: *variable,
                offset: *offset,
            },
        },
        Place::Object { object, offset, .. } => Access::Object {
            object: *object,
            offset: *offset,
        },
        Place::Literal { .. } => Access::Pointed,
        Place::Pointed { .. } => Access::Pointed,
        Place::Arrow { .. } => Access::Pointed,
        Place::Member { place, .. } => evaluated_access(holder_in(variables, place)),
        Place::Element { place, .. } => evaluated_access(holder_in(variables, place)),
        Place::Subscript { .. } => Access::Pointed,
    }
}

impl Access {
    /// Whether a register tells where it is.
    pub fn is_evaluated(self) -> bool
        ensures { result ≡ is_evaluated self }
    {
        match self {
            Access::Variable { .. } => false,
            Access::Object { .. } => false,
            Access::Within { .. } => true,
            Access::Pointed => true,
        }
    }
}
